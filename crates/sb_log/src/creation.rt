//! Making a log.
ghost use Rattle.std.specs.Prelude.{◌≡◌, ◌≤◌, ◌↔◌, [], true, drop, length, IfErr, IfOk, OnErr};
ghost use Rattle.sha2.specs.Hashers.{Holds256};
ghost use Rattle.sb_log.specs.Lives.{Life};
ghost use Rattle.sb_log.specs.LogCalls.{DoesCreate, IsFileOf};
ghost use Rattle.sb_log.specs.Records.{IsBody};
ghost use Rattle.sb_log.specs.declared.log_fault.LogFault.TheVariants.{Device};

use crate::log_end::LogEnd;
use crate::log_fault::LogFault;
use crate::log_file::LogFile;
use crate::record::{HEAD, with_body, write_head};
use crate::truncation::sync_all;
use sha2::{Digest, Sha256};

/// Makes a log in an empty file, with a first record, and has it on the disk. The buffer has room for
/// the record's head, and then its body; the head is written here.
///
/// Fails with [`LogFault::Device`] if the device fails. Then a beginning of the record may be there.
pub fn create_log<F: LogFile>(file: &mut F, buffer: &mut [u8]) -> Result<LogEnd, LogFault>
    requires head { HEAD ≤ length buffer.old }
    requires body { IsBody (drop HEAD buffer.old) }
    requires empty { F.IsHonest file.old → (F.model file.old).content ≡ [] }
    ensures honest { F.IsHonest file.old ↔ F.IsHonest file.new }
    ensures life { F.IsHonest file.old → (l : Life) × DoesCreate (drop HEAD buffer.old) result l
        × IsFileOf (F.model file.new) l }
    ensures end { IfOk result (λ end. (end.records ≡ length buffer.old) × (end.torn ≡ 0)
        × Holds256 end.hasher (drop HEAD buffer.old)) }
    ensures failed { OnErr result (F.has_failed file.new ≡ true) }
    ensures fault { IfErr result (λ fault. fault ≡ Device) }
{
    let hasher = with_body(&Sha256::new(), &buffer[HEAD..]);
    write_head(buffer, &hasher);
    if file.append(buffer).is_err() {
        return Err(LogFault::Device);
    }
    sync_all(file)?;
    Ok(LogEnd {
        records: buffer.len(),
        torn: 0,
        hasher,
    })
}
