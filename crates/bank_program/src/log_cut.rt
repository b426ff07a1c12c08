//! Cutting a log behind its last whole record.
ghost use Rattle.std.specs.Prelude.{◌≡◌, ◌⊎◌, ◌≤◌, ◌<◌, [], drop, length, take, IfErr, IfOk, IsFalse, OnOk};
ghost use Rattle.std.specs.Io.KnownBytes.{Appends};
ghost use Rattle.sb_log.specs.LogFiles.{Stays};
ghost use Rattle.bank_program.specs.CutLogs.{CutsOff, IsCutFault, ListsCheck};
ghost use Rattle.bank_service.specs.ListFaults.{IsListFault};
ghost use Rattle.bank_program.specs.inner.LogEnds.{EndsRecordsAt};

use crate::log_rest::RestFile;
use bank_service::{ListFault, list_log};
use program_words::Listing;
use sb_ask_log::read_asks;
use sb_log::{LogFault, LogFile, truncate_and_sync};
use std::alloc::Global;
use std::io;
use std::io::Write;

// How many bytes are moved at once.
const PIECE: usize = 65_536;

/// Moves what follows the last whole record of a log to a file of its own, and prints the line of the log that is
/// left. If nothing follows nothing is written there. The rest is on the disk before the log is cut; the log is
/// on the disk before its line is printed, also after a sync that failed.
///
/// Fails with
/// - [`ListFault::NoLog`] if there is no whole first record,
/// - [`ListFault::Rest`] if what follows can't be written, or another one than was read is there,
/// - [`ListFault::Log`] if the file can't be read or cut, or is damaged from its first byte on,
/// - [`ListFault::Device`] if the line can't be printed,
/// - [`ListFault::OutOfMemory`] if memory is refused,
/// - the fault of [`list_log`] if the log that is left can't be read.
///
/// Nothing is cut off then, or what was is in the other file, and kept there.
pub fn cut_log<F: LogFile, R: RestFile, W: Write>(
    alloc: Global,
    file: &mut F,
    rest: &mut R,
    writer: &mut W,
) -> Result<(), ListFault>
    ensures cut { F.IsHonest file.old → OnOk result (CutsOff (F.model file.old).content (F.model file.new).content
        (R.contents rest.old) (R.contents rest.new)) }
    ensures synced { F.IsHonest file.old → OnOk result (length (F.model file.new).content ≤ (F.model file.new).synced) }
    ensures listed { F.IsHonest file.old → OnOk result (ListsCheck (F.model file.new).content
        (W.contents writer.old) (W.contents writer.new)) }
    ensures kept { F.IsHonest file.old → ((F.model file.new).content ≡ (F.model file.old).content)
        ⊎ CutsOff (F.model file.old).content (F.model file.new).content (R.contents rest.old) (R.kept rest.new) }
    ensures fault { F.IsHonest file.old → IfErr result (λ fault. IsCutFault (F.model file.old).content fault
        ⊎ IsListFault (F.model file.new).content fault) }
{
    let (end, behind) = end_of_records(alloc, file)?;
    match move_rest(alloc, file, end, rest) {
        Ok(moved) if moved == behind => {}
        _ => return Err(ListFault::Rest),
    }
    truncate_and_sync(alloc, file, end)?;
    list_log(alloc, file, Listing::Check, writer)
}

// Where the whole records of a log end, of which there is one at least, and how many bytes follow.
fn end_of_records<F: LogFile>(alloc: Global, file: &mut F) -> Result<(usize, usize), ListFault>
    ensures file { Stays F.IsHonest F.model file.old file.new }
    ensures end { F.IsHonest file.old → IfOk result (λ at. EndsRecordsAt (F.model file.old).content at.0 at.1) }
    ensures fault { F.IsHonest file.old → IfErr result (IsCutFault (F.model file.old).content) }
{
    match read_asks(alloc, file) {
        Ok(found) if found.text.is_empty() => Err(ListFault::NoLog),
        Ok(found) => Ok((found.end.records, found.end.torn)),
        Err(LogFault::Damaged { byte, behind }) if byte > 0 => Ok((byte as usize, behind as usize)),
        Err(fault) => Err(ListFault::Log(fault)),
    }
}

// Copies what a file has from a place on to another one, and syncs that if there is something. Answers how many
// bytes there were.
fn move_rest<F: LogFile, R: RestFile>(
    alloc: Global,
    file: &mut F,
    from: usize,
    rest: &mut R,
) -> io::Result<usize>
    ensures file { Stays F.IsHonest F.model file.old file.new }
    ensures moved { F.IsHonest file.old → IfOk result (λ count. (count ≡ length (drop from (F.model file.old).content))
        × Appends (R.contents rest.old) (R.contents rest.new) (drop from (F.model file.old).content)) }
    ensures kept { IfOk result (λ count. 0 < count → R.kept rest.new ≡ R.contents rest.new) }
{
    let mut piece = Vec::new(alloc);
    let mut at = from;
    for _ in 0..u64::MAX {
        if !read_piece(file, at, &mut piece)? {
            if at > from {
                rest.sync()?;
            }
            return Ok(at - from);
        }
        rest.write_all(&piece)?;
        let Some(next) = at.checked_add(piece.len()) else {
            break;
        };
        at = next;
    }
    Err(io::Error::from(io::ErrorKind::Other))
}

// Reads the piece of a file at a place, and answers whether there is one.
fn read_piece<F: LogFile>(file: &mut F, at: usize, piece: &mut Vec<u8>) -> io::Result<bool>
    ensures file { Stays F.IsHonest F.model file.old file.new }
    ensures read { F.IsHonest file.old → IfOk result (λ is_there.
        (piece.new.items ≡ take 65536 (drop at (F.model file.old).content))
        × (IsFalse is_there → piece.new.items ≡ [])) }
{
    piece.clear();
    match file.read_at(at, PIECE, piece) {
        Ok(()) => Ok(!piece.is_empty()),
        Err(_) => Err(io::Error::from(io::ErrorKind::Other)),
    }
}
