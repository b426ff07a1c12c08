//! What is listed of a log.
ghost use Rattle.std.specs.Prelude.{◌≡◌, ◌≢◌, ◌↔◌, ◌++◌, ◌∷◌, [], List, ℕ, Some, IfErr, IfOk, OnOk, OnErr};
ghost use Rattle.std.specs.Io.KnownBytes.{Appends, Keeps};
ghost use Rattle.sha2.specs.Hashers.{Holds256};
ghost use Rattle.sb_amount.specs.Money.{money};
ghost use Rattle.sb_rows.specs.Balances.{Balances as AnyBalances};
ghost use Rattle.sb_rows.specs.Customer.{customers_of};
ghost use Rattle.sb_rows.specs.Opening.{opening_lines};
ghost use Rattle.sb_rows.specs.Text.{unlines};
ghost use Rattle.sb_calls.specs.Ask.{ask_line};
ghost use Rattle.sb_calls.specs.Call.{call_line};
ghost use Rattle.sb_calls.specs.declared.ask.Key.{Key as AnyKey};
ghost use Rattle.sb_calls.specs.declared.call.Call.{Call as AnyCall};
ghost use Rattle.sb_log.specs.LogFiles.{Stays};
ghost use Rattle.sb_ask_log.specs.LogFile.{log_bytes};
ghost use Rattle.sb_ask_log.specs.Recovery.{ReadsAskLog};
ghost use Rattle.bank_service.specs.ServeOutput.{log_lines};
ghost use Rattle.bank_service.specs.LogListing.{AreRowsAfter, IsListing, ask_lines_of};
ghost use Rattle.bank_service.specs.ListFaults.{IsListFault, IsListingFault, LeavesListing};

use crate::list_fault::ListFault;
use crate::opening::whole_opening;
use crate::printing::log_line;
use bank_server::Primary;
use cown_board::Runs;
use cown_workers::InlineCrew;
use itoa::Buffer;
use program_words::Listing;
use sb_amount::{Cents, print};
use sb_ask_log::{LogInFile, NoKeeper, read_asks};
use sb_calls::{Call, Key};
use sb_checkpoint::MemoryStore;
use sb_log::LogFile;
use sb_rows::Name;
use sb_sequencer::Sequencer;
use sb_text::{list_customers, push_field, write_whole};
use sha2::Digest;
use std::alloc::{AllocError, Global};
use std::io::Write;

/// Lists the log of a file. The file stays as it is, and a record at its end that isn't whole is left
/// alone.
///
/// Fails, before anything is written unless writing fails, with
/// - [`ListFault::Log`] if the file is damaged or can't be read,
/// - [`ListFault::NoLog`] if it has no whole first record,
/// - [`ListFault::Device`] if a write fails,
/// - [`ListFault::OutOfMemory`] if memory is refused.
pub fn list_log<F: LogFile, W: Write>(
    alloc: Global,
    file: &mut F,
    listing: Listing,
    writer: &mut W,
) -> Result<(), ListFault>
    ensures file { Stays F.IsHonest F.model file.old file.new }
    ensures listed { F.IsHonest file.old → OnOk result ((text : List ℕ) × (log : List (AnyKey × AnyCall)) ×
        (rest : List ℕ)
        × ReadsAskLog (F.model file.old).content text log rest × (listed : List ℕ) × IsListing listing text log listed
        × Appends (W.contents writer.old) (W.contents writer.new) listed) }
    ensures fault { F.IsHonest file.old → IfErr result (IsListFault (F.model file.old).content) }
    ensures kind { IfErr result IsListingFault }
    ensures unwritten { IfErr result (λ fault. LeavesListing fault (W.contents writer.old) (W.contents writer.new)) }
{
    let found = read_asks(alloc, file)?;
    if found.text.is_empty() {
        return Err(ListFault::NoLog);
    }
    let listed = match listing {
        Listing::Asks => list_asks(alloc, &found)?,
        Listing::Rows => list_rows_after(alloc, found)?,
        Listing::Check => check_line(alloc, &found)?,
    };
    match write_whole(writer, &listed) {
        Ok(()) => Ok(()),
        Err(_) => Err(ListFault::Device),
    }
}

// The opening text, and a line for each ask.
fn list_asks(alloc: Global, found: &LogInFile) -> Result<Vec<u8>, AllocError>
    ensures { IfOk result (λ listed. listed.items
        ≡ found.now.text.items ++ unlines (ask_lines_of found.now.log.value.log)) }
{
    let mut listed = Vec::from_slice(alloc, &found.text)?;
    push_asks(&found.log, &mut listed)?;
    Ok(listed)
}

// Appends a line for each ask.
fn push_asks(log: &Sequencer, out: &mut Vec<u8>) -> Result<(), AllocError>
    ensures { OnOk result (out.new.items ≡ out.old.items ++ unlines (ask_lines_of log.now.log)) }
{
    for before in 0..log.length() {
        let (key, call) = log.ask_of(before + 1).unwrap();
        push_ask_line(&key, &call, out)?;
    }
    Ok(())
}

// Appends the line of an ask.
fn push_ask_line(key: &Key, call: &Call, out: &mut Vec<u8>) -> Result<(), AllocError>
    ensures { OnOk result (out.new.items
        ≡ out.old.items ++ ask_line (record { key = Some key.now; call = call.now }) ++ 10 ∷ []) }
{
    let (mut client, mut request) = (Buffer::new(), Buffer::new());
    out.extend_from_slice(b"ask ")?;
    push_field(client.format(key.client).as_bytes(), b' ', out)?;
    push_field(request.format(key.request).as_bytes(), b' ', out)?;
    push_call(call, out)?;
    out.push(b'\n')?;
    Ok(())
}

// Appends the words of a call.
fn push_call(call: &Call, out: &mut Vec<u8>) -> Result<(), AllocError>
    ensures { OnOk result (out.new.items ≡ out.old.items ++ call_line call.now) }
{
    match call {
        Call::Balance(name) => {
            out.extend_from_slice(b"balance ")?;
            out.extend_from_slice(name.text())
        }
        Call::DepositChecking(name, amount) => push_amount(b"deposit ", name, *amount, out),
        Call::TransactSavings(name, amount) => push_amount(b"savings ", name, *amount, out),
        Call::WriteCheck(name, amount) => push_amount(b"check ", name, *amount, out),
        Call::Amalgamate(from, to) => {
            out.extend_from_slice(b"amalgamate ")?;
            push_field(from.text(), b' ', out)?;
            out.extend_from_slice(to.text())
        }
        Call::SendPayment(from, to, amount) => {
            out.extend_from_slice(b"pay ")?;
            push_field(from.text(), b' ', out)?;
            push_field(to.text(), b' ', out)?;
            out.extend_from_slice(print(*amount).as_str().as_bytes())
        }
    }
}

// Appends a verb, with the space behind it, a name, and an amount.
fn push_amount(verb: &[u8], name: &Name, amount: Cents, out: &mut Vec<u8>) -> Result<(), AllocError>
    ensures { OnOk result (out.new.items ≡ out.old.items ++ verb.now ++ name.now ++ 32 ∷ money amount) }
{
    out.extend_from_slice(verb)?;
    push_field(name.text(), b' ', out)?;
    out.extend_from_slice(print(amount).as_str().as_bytes())
}

// The rows after the log, as an opening.
fn list_rows_after(alloc: Global, found: LogInFile) -> Result<Vec<u8>, ListFault>
    ensures listed { IfOk result (λ listed. (names : List (List ℕ)) × (after : AnyBalances)
        × AreRowsAfter found.text.items found.log.value.log names after
        × (listed.items ≡ unlines (opening_lines (customers_of names after)))) }
    ensures fault { IfErr result (λ fault. fault ≡ ListFault.OutOfMemory) }
{
    let LogInFile { text, log, .. } = found;
    let Ok(opening) = whole_opening(alloc, &text) else {
        return Err(ListFault::OutOfMemory);
    };
    let store = MemoryStore::new(alloc);
    let mut primary = Primary::on_log(alloc, opening, store, log, NoKeeper)?;
    if primary.settle(&mut InlineCrew).is_err() {
        return Err(ListFault::OutOfMemory);
    }
    let node = primary.node();
    // Nothing is unfinished.
    let columns = node.final_columns().unwrap();
    let mut listed = Vec::new(alloc);
    list_customers(node.directory(), columns, &mut listed)?;
    listed.extend_from_slice(b"begin\n")?;
    Ok(listed)
}

// The line of the log: the number of its calls, and its digest.
fn check_line(alloc: Global, found: &LogInFile) -> Result<Vec<u8>, AllocError>
    requires { Holds256 found.now.end.hasher (log_bytes found.now.text.items found.now.log.value.log) }
    ensures { IfOk result (λ line. line.items
        ≡ unlines (log_lines (Some found.now.text.items) found.now.log.value.log)) }
{
    let digest = found.end.hasher.clone().unwrap().finalize();
    let mut line = log_line(alloc, found.log.length(), digest)?;
    line.push(b'\n')?;
    Ok(line)
}
