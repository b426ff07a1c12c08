//! Making a log of asks.
ghost use Rattle.std.specs.Prelude.{◌≡◌, ◌↔◌, ◌+◌, ◌<◌, ◌^◌, [], length, IfErr, IfOk};
ghost use Rattle.sb_ask_log.specs.LogFile.{IsOpeningText};
ghost use Rattle.sb_ask_log.specs.Recovery.{FailsToMake};
ghost use Rattle.sb_ask_log.specs.Telling.{IsResumable};

use crate::ask_replay::{MAGIC, empty_log};
use crate::log_in_file::LogInFile;
use sb_log::{HEAD, LogFault, LogFile, create_log};
use std::alloc::Global;

/// Makes a log of no ask, with this opening, in an empty file, and has it on the disk.
///
/// Fails with
/// - [`LogFault::Device`] if the device fails; then a beginning of the opening's record may be there,
/// - [`LogFault::OutOfMemory`] if memory is refused; then the file stays empty.
pub fn create_asks<F: LogFile>(
    alloc: Global,
    file: &mut F,
    text: Vec<u8>,
) -> Result<LogInFile, LogFault>
    requires opening { IsOpeningText text.items }
    requires size { length text.items + 8 < 2 ^ 32 }
    requires empty { F.IsHonest file.old → (F.model file.old).content ≡ [] }
    ensures honest { F.IsHonest file.old ↔ F.IsHonest file.new }
    ensures made { IfOk result (λ made. (made.text.items ≡ text.items) × (made.log.value.log ≡ [])
        × (made.end.torn ≡ 0)
        × IsResumable F.IsHonest F.model file.new made.end made.text.items made.log.value.log) }
    ensures fault { IfErr result (λ fault.
        FailsToMake text.items fault (F.has_failed file.new) (F.IsHonest file.new) (F.model file.new).content) }
{
    let log = empty_log(alloc)?;
    let mut record = Vec::from_slice(alloc, &[0; HEAD])?;
    record.extend_from_slice(MAGIC)?;
    record.extend_from_slice(&text)?;
    let end = create_log(file, &mut record)?;
    Ok(LogInFile { text, log, end })
}
