//! Opening the bank that is served.
ghost use Rattle.std.specs.Prelude.{◌≡◌, [], IfErr, IfOk, IfSome};
ghost use Rattle.sb_ask_log.specs.Telling.{KeepsAsks};
ghost use Rattle.bank_server.specs.Execution.{HasNoEntries};
ghost use Rattle.bank_server.specs.Primary.{node_at_opening};
ghost use Rattle.bank_service.specs.Opening.{IsOpeningOf, whole_opening_of};
ghost use Rattle.bank_service.specs.ServeFaults.{IsBankFault};
ghost use Rattle.bank_program.specs.OpenedBanks.{FailsToOpen, IsOpeningFault, OpensOnLog};

use crate::log_report::CutReport;
use bank_server::Primary;
use bank_service::{ServeFault, find_bank, open_on_file, whole_opening};
use sb_ask_log::AskLog;
use sb_checkpoint::CheckpointStore;
use sb_log::LogFile;
use sb_rows::Opening;
use sb_text::read_all;
use std::alloc::{AllocError, Global};
use std::io::{Read, Write};

/// The opening that an input spells, with nothing behind it.
///
/// Fails with [`ServeFault::Run`] at the first line at fault, if a read fails, or if memory is refused.
pub fn read_opening<R: Read>(alloc: Global, reader: &mut R) -> Result<Box<Opening>, ServeFault>
    ensures opening { IfOk result (λ opening. IfSome (R.remaining reader.old)
        (λ input. IsOpeningOf (whole_opening_of input) opening.value)) }
    ensures fault { IfErr result (IsOpeningFault (R.remaining reader.old)) }
{
    let input = read_all(alloc, reader)?;
    let opening = whole_opening(alloc, &input)?;
    Ok(Box::new(alloc, opening)?)
}

/// A bank at an opening, whose log is in no file. It owns nothing else, so that a `?` has little to drop.
///
/// Fails if memory is refused.
pub fn open_bank<S: CheckpointStore>(
    alloc: Global,
    opening: Box<Opening>,
    store: S,
) -> Result<Box<Primary<S>>, AllocError>
    ensures log { IfOk result (λ bank. bank.value.log ≡ []) }
    ensures node { IfOk result (λ bank. bank.value.node ≡ node_at_opening opening.value store) }
    ensures no_entries { IfOk result (λ bank. HasNoEntries bank.value.node.board) }
{
    let primary = Primary::open(alloc, Box::into_inner(opening), store)?;
    Ok(Box::new(alloc, primary)?)
}

/// The bank that is found in a log's file with this input, as [`find_bank`] finds it. If the end of a record
/// that wasn't whole was cut off, that is noted.
///
/// Fails as [`find_bank`] does, and if memory is refused.
pub fn open_bank_on_log<F: LogFile, S: CheckpointStore, E: Write>(
    alloc: Global,
    file: F,
    input: &[u8],
    store: S,
    notes: &mut E,
) -> Result<Box<Primary<S, AskLog<F>>>, ServeFault>
    ensures opened { IfOk result
        (λ bank. OpensOnLog F.IsHonest F.model file input.now store bank.value) }
    ensures kept { IfOk result
        (λ bank. KeepsAsks F.IsHonest F.model bank.value.keeper bank.value.log) }
    ensures no_entries { IfOk result (λ bank. HasNoEntries bank.value.node.board) }
    ensures fault { F.IsHonest file → IfErr result (FailsToOpen (F.model file).content input.now) }
    ensures kind { IfErr result IsBankFault }
{
    let mut file = file;
    let found = find_bank(alloc, &mut file, input)?;
    if found.cut > 0 {
        let report = CutReport { bytes: found.cut };
        // If a note can't be written, the bank is served all the same.
        let _ = writeln!(notes, "{report}");
    }
    let primary = open_on_file(alloc, file, found, store)?;
    Ok(Box::new(alloc, primary)?)
}
