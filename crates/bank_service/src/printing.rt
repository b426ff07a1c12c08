//! What a served bank prints.
ghost use Rattle.std.specs.Prelude.{◌≡◌, [], ◌∷◌, ◌++◌, codes, decimal, string_bytes, IfErr, IfOk, OnOk};
ghost use Rattle.hex.specs.Hex.{encode_lower};
ghost use Rattle.bank_server.specs.Primary.{HasWholeLog};
ghost use Rattle.bank_service.specs.inner.StepFaults.{IsPrintFault};
ghost use Rattle.bank_service.specs.ServeOutput.{PrintsLines, end_text, host_text, port_line, session_line};
ghost use Rattle.bank_service.specs.inner.ServeSteps.{PrintsLog, PrintsRows};

use crate::serve_fault::ServeFault;
use bank_server::{Primary, SessionFault};
use cown_board::Runs;
use itoa::Buffer;
use sb_ask_log::Keeper;
use sb_checkpoint::CheckpointStore;
use sb_text::{list_rows, write_whole};
use std::alloc::{AllocError, Global};
use std::io::Write;
use std::net::IpAddr;

/// Prints the address of a server that listens at this port of this host.
///
/// Fails if a write fails, or if memory is refused.
pub(crate) fn print_port<W: Write>(
    alloc: Global,
    host: IpAddr,
    port: u16,
    writer: &mut W,
) -> Result<(), ServeFault>
    ensures printed { OnOk result (PrintsLines (port_line host port ∷ [])
        (W.contents writer.old) (W.contents writer.new)) }
    ensures fault { IfErr result IsPrintFault }
{
    let mut line = port_line(alloc, host, port)?;
    print_line(&mut line, writer)
}

// `listening`, and the address.
fn port_line(alloc: Global, host: IpAddr, port: u16) -> Result<Vec<u8>, AllocError>
    ensures { IfOk result (λ line. line.items ≡ port_line host port) }
{
    let host = host_text(alloc, host)?;
    let mut buffer = Buffer::new();
    let mut line = Vec::from_slice(alloc, b"listening ")?;
    line.extend_from_slice(host.as_bytes())?;
    line.push(b':')?;
    line.extend_from_slice(buffer.format(port).as_bytes())?;
    Ok(line)
}

// An address as it stands before a port.
fn host_text(alloc: Global, host: IpAddr) -> Result<String, AllocError>
    ensures { IfOk result (λ text. string_bytes text ≡ host_text host) }
{
    match host {
        IpAddr::V4(address) => format!(in alloc; "{address}"),
        IpAddr::V6(address) => format!(in alloc; "[{address}]"),
    }
}

/// Prints how a session ended.
///
/// Fails if a write fails, or if memory is refused.
pub(crate) fn print_session<W: Write>(
    alloc: Global,
    number: usize,
    served: Result<(), SessionFault>,
    writer: &mut W,
) -> Result<(), ServeFault>
    ensures printed { OnOk result (PrintsLines (session_line number served ∷ [])
        (W.contents writer.old) (W.contents writer.new)) }
    ensures fault { IfErr result IsPrintFault }
{
    let mut line = numbered(alloc, b"session ", number)?;
    push_ending(served, &mut line)?;
    print_line(&mut line, writer)
}

// These bytes, and then a number.
fn numbered(alloc: Global, start: &[u8], number: usize) -> Result<Vec<u8>, AllocError>
    ensures { IfOk result (λ line. line.items ≡ start.now ++ decimal number) }
{
    let mut buffer = Buffer::new();
    let mut line = Vec::from_slice(alloc, start)?;
    line.extend_from_slice(buffer.format(number).as_bytes())?;
    Ok(line)
}

// Ends a line, and prints it.
fn print_line<W: Write>(line: &mut Vec<u8>, writer: &mut W) -> Result<(), ServeFault>
    ensures printed { OnOk result (PrintsLines (line.old.items ∷ [])
        (W.contents writer.old) (W.contents writer.new)) }
    ensures fault { IfErr result IsPrintFault }
{
    line.push(b'\n')?;
    Ok(write_whole(writer, line)?)
}

// Writes how a session ended.
fn push_ending(served: Result<(), SessionFault>, out: &mut Vec<u8>) -> Result<(), AllocError>
    ensures { OnOk result (out.new.items ≡ out.old.items ++ end_text served) }
{
    match served {
        Ok(()) => out.extend_from_slice(b" ok"),
        Err(fault) => {
            let mut buffer = Buffer::new();
            out.extend_from_slice(b" fault ")?;
            out.extend_from_slice(buffer.format(fault.number()).as_bytes())
        }
    }
}

/// Prints the line of a bank's log, if that is kept in a file.
///
/// Fails if a write fails, or if memory is refused.
pub(crate) fn print_log<S: CheckpointStore, K: Keeper, W: Write>(
    alloc: Global,
    primary: &Primary<S, K>,
    writer: &mut W,
) -> Result<(), ServeFault>
    requires { K.model.Keeps primary.now.keeper primary.now.log }
    ensures printed { OnOk result (PrintsLog K.model primary.now (W.contents writer.old) (W.contents writer.new)) }
    ensures fault { IfErr result IsPrintFault }
{
    match primary.keeper().digest() {
        Some(digest) => {
            let mut line = log_line(alloc, primary.log().length(), digest)?;
            print_line(&mut line, writer)
        }
        None => Ok(()),
    }
}

/// `log`, this number of calls, and this digest.
pub(crate) fn log_line(alloc: Global, calls: u64, digest: [u8; 32]) -> Result<Vec<u8>, AllocError>
    ensures { IfOk result (λ line. line.items ≡ codes "log " ++ decimal calls ++ (32 ∷ encode_lower digest)) }
{
    let mut line = numbered(alloc, b"log ", calls as usize)?;
    let digits = hex::encode(alloc, digest)?;
    line.push(b' ')?;
    line.extend_from_slice(digits.as_bytes())?;
    Ok(line)
}

/// Prints the rows of a bank and their total.
///
/// Fails if a write fails, or if memory is refused.
pub(crate) fn print_rows<S: CheckpointStore, K: Keeper, W: Write>(
    alloc: Global,
    primary: &Primary<S, K>,
    writer: &mut W,
) -> Result<(), ServeFault>
    requires whole_log { HasWholeLog primary.now }
    ensures printed { OnOk result (PrintsRows primary.now (W.contents writer.old) (W.contents writer.new)) }
    ensures fault { IfErr result IsPrintFault }
{
    let mut rows = Vec::new(alloc);
    let node = primary.node();
    // Nothing is unfinished.
    let columns = node.final_columns().unwrap();
    list_rows(node.directory(), columns, &mut rows)?;
    Ok(write_whole(writer, &rows)?)
}
