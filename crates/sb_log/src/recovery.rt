//! Recovering a log.
ghost use Rattle.std.specs.Prelude.{◌≡◌, ◌↔◌, IfOk, IsErrOf};
ghost use Rattle.sb_log.specs.Lives.{Life};
ghost use Rattle.sb_log.specs.LogCalls.{IsFileOf, Recovers};
ghost use Rattle.sb_log.specs.Replaying.{HoldsReplayed};
ghost use Rattle.sb_log.specs.LogFiles.{HasFailed};
ghost use Rattle.sb_log.specs.declared.log_fault.LogFault.TheVariants.{Device};

use crate::log_end::LogEnd;
use crate::log_fault::LogFault;
use crate::log_file::LogFile;
use crate::reading::read_log;
use crate::replay::Replay;
use crate::truncation::truncate_and_sync;
use std::alloc::Global;

/// Reads a log as [`read_log`] does, cuts off what follows its records, and has them on the disk, as
/// [`truncate_and_sync`] does.
///
/// Fails with
/// - [`LogFault::Damaged`] as [`read_log`] does; then nothing is changed,
/// - [`LogFault::Device`] if a call of the file fails, or as [`read_log`] does,
/// - [`LogFault::OutOfMemory`] if memory is refused.
///
/// After the last two, what follows the records may be cut off, and the log has to be recovered again.
pub fn recover<F: LogFile, T: Replay>(
    alloc: Global,
    file: &mut F,
    replay: &mut T,
) -> Result<LogEnd, LogFault>
    ensures honest { F.IsHonest file.old ↔ F.IsHonest file.new }
    // Whatever the file's life was, it goes on so.
    ensures life { F.IsHonest file.old → (l : Life) → IsFileOf (F.model file.old) l
        → (m : Life) × Recovers T.Replays T.Refuses l replay.old result replay.new m
        × IsFileOf (F.model file.new) m }
    // Whatever the file holds, the hasher holds what was replayed.
    ensures replayed { IfOk result (λ end. HoldsReplayed T.Replays replay.old end.hasher replay.new) }
    ensures device { IsErrOf result Device
        → HasFailed (F.has_failed file.new) (F.IsHonest file.old) (F.model file.old).content }
{
    let end = read_log(alloc, file, replay)?;
    truncate_and_sync(alloc, file, end.records)?;
    Ok(end)
}
