//! The log that a file has.
ghost use Rattle.std.specs.Prelude.{◌≡◌, ◌≢◌, ◌↔◌, ◌+◌, ℕ, List, [], length, IfErr, IfOk, IsErrOf, MatchBool, MatchResult};
ghost use Rattle.sha2.specs.Hashers.{Holds256};
ghost use Rattle.sb_log.specs.LogFiles.{HasFailed, Stays};
ghost use Rattle.sb_log.specs.declared.log_fault.LogFault.TheVariants.{Device};
ghost use Rattle.sb_ask_log.specs.LogFile.{log_bytes, with_line_end};
ghost use Rattle.sb_ask_log.specs.Recovery.{FailsToRecover, IsReadFault, ReadsAskLog, RecoversAsks};
ghost use Rattle.sb_ask_log.specs.Telling.{IsResumable};

use crate::ask_replay::AskReplay;
use crate::opening_text;
use sb_log::{LogEnd, LogFault, LogFile, read_log, recover};
use sb_sequencer::Sequencer;
use std::alloc::{AllocError, Global};

/// The log that a file has.
#[derive(Drop)]
pub struct LogInFile {
    /// The opening text. It is empty if the file has no whole first record, and so is no log yet.
    pub text: Vec<u8>,
    /// The asks, numbered.
    pub log: Box<Sequencer>,
    /// Where the records end.
    pub end: LogEnd,
}

impl LogInFile {
    /// Whether an input is the opening of this log, but for the end of its last line. Fails if memory
    /// is refused.
    pub fn has_opening(&self, alloc: Global, input: &[u8]) -> Result<bool, AllocError>
        ensures { IfOk result (λ has. MatchBool has
            (with_line_end input.now ≡ self.now.text.items) (with_line_end input.now ≢ self.now.text.items)) }
    {
        let text = opening_text::with_line_end(alloc, input)?;
        Ok(text.as_slice() == self.text.as_slice())
    }
}

/// Reads the log of a file. The file stays as it is.
///
/// Memory is taken for the log, and for one batch at a time.
///
/// Fails with
/// - [`LogFault::Damaged`] if the file goes on otherwise than a log does, or than one that a crash
///   left,
/// - [`LogFault::Device`] if a read fails,
/// - [`LogFault::OutOfMemory`] if memory is refused.
pub fn read_asks<F: LogFile>(alloc: Global, file: &mut F) -> Result<LogInFile, LogFault>
    ensures file { Stays F.IsHonest F.model file.old file.new }
    ensures read { F.IsHonest file.old → IfOk result (λ found. (rest : List ℕ)
        × ReadsAskLog (F.model file.old).content found.text.items found.log.value.log rest
        × (found.end.torn ≡ length rest)
        × (found.end.records + found.end.torn ≡ length (F.model file.old).content)) }
    // Whatever the file holds, the hasher holds the log that is answered.
    ensures holds { IfOk result (λ found. found.text.items ≢ []
        → Holds256 found.end.hasher (log_bytes found.text.items found.log.value.log)) }
    ensures fault { F.IsHonest file.old → IfErr result (IsReadFault (F.model file.old).content) }
    ensures device { IsErrOf result Device
        → HasFailed (F.has_failed file.new) (F.IsHonest file.old) (F.model file.old).content }
{
    let mut replay = AskReplay::new(alloc)?;
    let end = read_log(alloc, file, &mut replay)?;
    let AskReplay { text, log, .. } = replay;
    Ok(LogInFile { text, log, end })
}

/// Reads the log of a file as [`read_asks`] does, cuts off what follows its records, and has these on
/// the disk.
///
/// Fails as [`read_asks`] does, and with [`LogFault::Device`] if another call of the file fails. If it
/// is damaged, nothing is changed. After another fault what follows its records may be cut off.
pub fn recover_asks<F: LogFile>(alloc: Global, file: &mut F) -> Result<LogInFile, LogFault>
    ensures honest { F.IsHonest file.old ↔ F.IsHonest file.new }
    ensures file { F.IsHonest file.old → MatchResult result
        (λ found. RecoversAsks (F.model file.old).content found.text.items found.log.value.log found.end.torn
        (F.model file.new).content)
        (λ fault. FailsToRecover (F.model file.old) fault (F.model file.new)) }
    // Whatever the file holds, the log goes on from here: all that was read counts as told from now on.
    ensures resumes { IfOk result (λ found. found.text.items ≢ []
        → IsResumable F.IsHonest F.model file.new found.end found.text.items found.log.value.log) }
    ensures device { IsErrOf result Device
        → HasFailed (F.has_failed file.new) (F.IsHonest file.old) (F.model file.old).content }
{
    let mut replay = AskReplay::new(alloc)?;
    let end = recover(alloc, file, &mut replay)?;
    let AskReplay { text, log, .. } = replay;
    Ok(LogInFile { text, log, end })
}
