//! Reading a log.
ghost use Rattle.std.specs.Prelude.{◌≡◌, ◌<◌, ◌≤◌, ◌^◌, ◌↔◌, drop, length, IfErr, IfOk, IsErrOf, OnOk};
ghost use Rattle.sb_log.specs.LogCalls.{ReadsLog};
ghost use Rattle.sb_log.specs.inner.Refusals.{IsRefusalAt};
ghost use Rattle.sb_log.specs.LogFiles.{HasFailed, Stays};
ghost use Rattle.sb_log.specs.Replaying.{HoldsReplayed};
ghost use Rattle.sb_log.specs.declared.log_fault.LogFault.TheVariants.{Device};

use crate::front::{Front, count_rest, read_front};
use crate::log_end::LogEnd;
use crate::log_fault::LogFault;
use crate::log_file::LogFile;
use crate::record::HEAD;
use crate::replay::{Replay, ReplayFault};
use sb_text::READS;
use sha2::{Digest, Sha256};
use std::alloc::Global;

/// Reads the records of a file from its front on, and has each body replayed. Answers where they
/// end. The file stays as it is.
///
/// Memory is taken for one record at a time.
///
/// Fails with
/// - [`LogFault::Damaged`] if what follows the records is neither a beginning of a record nor zeros,
///   or a body is refused,
/// - [`LogFault::Device`] if a read fails, or the file has more records or pieces than [`READS`],
/// - [`LogFault::OutOfMemory`] if memory is refused.
///
/// Some bodies may have been replayed then.
pub fn read_log<F: LogFile, T: Replay>(
    alloc: Global,
    file: &mut F,
    replay: &mut T,
) -> Result<LogEnd, LogFault>
    ensures file { Stays F.IsHonest F.model file.old file.new }
    ensures read { F.IsHonest file.old
        → ReadsLog T.Replays T.Refuses (F.model file.old).content replay.old result replay.new }
    // Whatever the file holds, the hasher holds what was replayed.
    ensures replayed { IfOk result (λ end. HoldsReplayed T.Replays replay.old end.hasher replay.new) }
    ensures device { IsErrOf result Device
        → HasFailed (F.has_failed file.new) (F.IsHonest file.old) (F.model file.old).content }
{
    let mut buffer = Vec::new(alloc);
    let mut hasher = Sha256::new();
    let mut records = 0;
    for _ in 0..READS {
        match read_front(file, records, &mut hasher, &mut buffer)? {
            Front::Record => {
                replay_record(file, records, &mut buffer, replay)?;
                records += buffer.len();
            }
            Front::Torn(torn) => {
                return Ok(LogEnd {
                    records,
                    torn,
                    hasher,
                });
            }
            Front::Damaged(behind) => return Err(damage(records, behind)),
        }
    }
    Err(LogFault::Device)
}

// The fault of so many bytes that stand at a place.
fn damage(byte: usize, behind: usize) -> LogFault
    ensures { result ≡ LogFault.Damaged byte behind }
{
    LogFault::Damaged {
        byte: byte as u64,
        behind: behind as u64,
    }
}

// Has the body of a record at this place replayed, which the buffer has.
fn replay_record<F: LogFile, T: Replay>(
    file: &mut F,
    at: usize,
    buffer: &mut Vec<u8>,
    replay: &mut T,
) -> Result<(), LogFault>
    requires place { at < 2 ^ 63 }
    requires head { HEAD ≤ length buffer.old.items }
    ensures file { Stays F.IsHonest F.model file.old file.new }
    ensures replayed { OnOk result (T.Replays replay.old (drop HEAD buffer.old.items) replay.new) }
    ensures record { OnOk result (buffer.new.items ≡ buffer.old.items) }
    ensures fault { IfErr result (IsRefusalAt (F.IsHonest file.old) (F.model file.old).content at
        (T.Refuses replay.old (drop HEAD buffer.old.items))) }
    ensures device { IsErrOf result Device
        → HasFailed (F.has_failed file.new) (F.IsHonest file.old) (F.model file.old).content }
{
    match replay.replay(&buffer[HEAD..]) {
        Ok(()) => Ok(()),
        Err(ReplayFault::OutOfMemory) => Err(LogFault::OutOfMemory),
        Err(ReplayFault::Refused) => {
            let (behind, _) = count_rest(file, at, buffer)?;
            Err(damage(at, behind))
        }
    }
}
