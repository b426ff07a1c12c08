//! Cutting a file to a size, durably.
ghost use Rattle.std.specs.Prelude.{◌≡◌, ◌⊎◌, ◌≤◌, ◌↔◌, length, true, OnOk, OnErr, IfErr, IsErrOf};
ghost use Rattle.sb_log.specs.LogFiles.{HasFailed, IsTruncated, KeepsSynced, MayBeTruncated, Stays, SyncsFile};
ghost use Rattle.sb_log.specs.declared.log_fault.LogFault.TheVariants.{Device, OutOfMemory};

use crate::front::PIECE;
use crate::log_fault::LogFault;
use crate::log_file::LogFile;
use std::alloc::Global;

/// Cuts a file to so many bytes, and has those on the disk.
///
/// After a sync that failed, the system may hold bytes for clean that never came to the disk. So they
/// are written once more, the same bytes at the same places, before the file is synced. A crash in
/// between changes nothing, and a full disk doesn't hinder it.
///
/// Fails with
/// - [`LogFault::Device`] if a call of the file fails, or the file has more pieces than
///   [`READS`](sb_text::READS),
/// - [`LogFault::OutOfMemory`] if memory is refused.
///
/// The file may be cut then, or not.
pub fn truncate_and_sync<F: LogFile>(
    alloc: Global,
    file: &mut F,
    size: usize,
) -> Result<(), LogFault>
    requires { F.IsHonest file.old → size ≤ length (F.model file.old).content }
    ensures honest { F.IsHonest file.old ↔ F.IsHonest file.new }
    ensures ok { F.IsHonest file.old → OnOk result (IsTruncated size (F.model file.old) (F.model file.new)) }
    ensures err { F.IsHonest file.old → OnErr result (MayBeTruncated size (F.model file.old) (F.model file.new)) }
    ensures fault { IfErr result (λ fault. (fault ≡ Device) ⊎ (fault ≡ OutOfMemory)) }
    ensures device { IsErrOf result Device
        → HasFailed (F.has_failed file.new) (F.IsHonest file.old) (F.model file.old).content }
{
    let mut piece = Vec::new(alloc);
    piece.reserve(PIECE)?;
    if file.cut(size).is_err() {
        return Err(LogFault::Device);
    }
    write_again(file, size, &mut piece)?;
    sync_all(file)
}

/// Waits until all that the system doesn't hold for clean is on the disk.
pub(crate) fn sync_all<F: LogFile>(file: &mut F) -> Result<(), LogFault>
    ensures honest { F.IsHonest file.old ↔ F.IsHonest file.new }
    ensures ok { F.IsHonest file.old → OnOk result (SyncsFile (F.model file.old) (F.model file.new)) }
    ensures err { F.IsHonest file.old → OnErr result (KeepsSynced (F.model file.old) (F.model file.new)) }
    ensures fault { IfErr result (λ fault. fault ≡ Device) }
    ensures device { IsErrOf result Device → F.has_failed file.new ≡ true }
{
    if file.sync().is_err() {
        return Err(LogFault::Device);
    }
    Ok(())
}

// Writes so many bytes of a file once more, from its front on, so that a sync reaches them all.
fn write_again<F: LogFile>(file: &mut F, size: usize, piece: &mut Vec<u8>) -> Result<(), LogFault>
    requires { F.IsHonest file.old → size ≤ length (F.model file.old).content }
    ensures file { Stays F.IsHonest F.model file.old file.new }
    ensures written { F.IsHonest file.old → OnOk result (size ≤ (F.model file.new).syncable) }
    ensures fault { IfErr result (λ fault. (fault ≡ Device) ⊎ (fault ≡ OutOfMemory)) }
    ensures device { IsErrOf result Device
        → HasFailed (F.has_failed file.new) (F.IsHonest file.old) (F.model file.old).content }
{
    let mut done = 0;
    while done < size {
        piece.clear();
        file.read_at(done, PIECE.min(size - done), piece)?;
        // An honest file has them.
        if piece.is_empty() || file.write_again(done, piece).is_err() {
            return Err(LogFault::Device);
        }
        done += piece.len();
    }
    Ok(())
}
