//! The bank that is found in a log's file.
ghost use Rattle.std.specs.Prelude.{◌≡◌, ◌⊎◌, ◌↔◌, [], true, IfErr, IfOk, IsErrOf, MatchResult};
ghost use Rattle.sb_log.specs.LogFiles.{HasFailed};
ghost use Rattle.sb_log.specs.declared.log_fault.LogFault.TheVariants.{Device};
ghost use Rattle.sb_ask_log.specs.LogFile.{with_line_end};
ghost use Rattle.sb_ask_log.specs.Telling.{IsResumable};
ghost use Rattle.bank_service.specs.FoundBank.{FindsBank, IsFindFault};
ghost use Rattle.bank_service.specs.Opening.{IsOpeningOf, whole_opening_of};
ghost use Rattle.bank_service.specs.ServeFaults.{IsBankFault};
ghost use Rattle.bank_service.specs.declared.serve_fault.ServeFault.TheVariants.{Log};
ghost use Rattle.bank_service.specs.inner.FindSteps.{IsCreateFault, IsMatchFault};

use crate::opening::whole_opening;
use crate::serve_fault::ServeFault;
use bank_server::RunFault;
use sb_ask_log::{LogInFile, create_asks, recover_asks, with_line_end};
use sb_log::LogFile;
use sb_rows::Opening;
use std::alloc::Global;

// An opening is never that long: it has 65,536 lines at most.
const TEXT: usize = 1 << 31;

/// A bank as it is found in a log's file.
#[derive(Drop)]
pub struct FoundBank {
    /// The log that the file has.
    pub log: LogInFile,
    /// The opening that the log's text spells.
    pub opening: Opening,
    /// How many bytes of a record that wasn't whole were cut off.
    pub cut: usize,
}

/// Finds the bank of a log's file. If the file has a log, the input is empty or the same opening.
/// Otherwise the input is the opening of a new log, which is made in the file. What is found is on the
/// disk then.
///
/// Fails with
/// - [`ServeFault::Log`] if the file is damaged, its device fails, or memory is refused,
/// - [`ServeFault::AnotherOpening`] if the file has a log with another opening,
/// - [`ServeFault::Run`] if there is no log and the input isn't an opening, or if memory is refused.
///
/// A file that is damaged stays as it is. Otherwise the file's log stays, and a torn rest may be cut
/// off; if there is no log, a part of the new one may be there.
pub fn find_bank<F: LogFile>(
    alloc: Global,
    file: &mut F,
    input: &[u8],
) -> Result<FoundBank, ServeFault>
    ensures honest { F.IsHonest file.old ↔ F.IsHonest file.new }
    // What is found in the file, or why nothing is, and what the file has then.
    ensures file { F.IsHonest file.old → MatchResult result
        (λ found. FindsBank (F.model file.old).content input.now found.log.text.items found.log.log.value.log found.cut)
        (λ fault. IsFindFault (F.model file.old).content input.now fault (F.model file.new).content) }
    ensures opening { IfOk result (λ found. IsOpeningOf (whole_opening_of found.log.text.items) found.opening) }
    // Its log counts as told from now on.
    ensures resumes { IfOk result (λ found. IsResumable F.IsHonest F.model file.new found.log.end
        found.log.text.items found.log.log.value.log) }
    ensures device { IsErrOf result (Log Device)
        → HasFailed (F.has_failed file.new) (F.IsHonest file.old) (F.model file.old).content }
    ensures kind { IfErr result IsBankFault }
{
    let found = recover_asks(alloc, file)?;
    let cut = found.end.torn;
    if found.text.is_empty() {
        let (log, opening) = create(alloc, file, input)?;
        return Ok(FoundBank { log, opening, cut });
    }
    let opening = matching_opening(alloc, &found, input)?;
    Ok(FoundBank {
        log: found,
        opening,
        cut,
    })
}

// Makes a log with the input's opening in an empty file.
fn create<F: LogFile>(
    alloc: Global,
    file: &mut F,
    input: &[u8],
) -> Result<(LogInFile, Opening), ServeFault>
    requires empty { F.IsHonest file.old → (F.model file.old).content ≡ [] }
    ensures honest { F.IsHonest file.old ↔ F.IsHonest file.new }
    ensures log { IfOk result (λ made. (made.0.text.items ≡ with_line_end input.now) × (made.0.log.value.log ≡ [])) }
    ensures opening { IfOk result (λ made. IsOpeningOf (whole_opening_of made.0.text.items) made.1) }
    ensures resumes { IfOk result (λ made. IsResumable F.IsHonest F.model file.new made.0.end
        made.0.text.items made.0.log.value.log) }
    ensures fault { F.IsHonest file.old → IfErr result (λ fault.
        IsCreateFault (with_line_end input.now) fault (F.model file.new).content) }
    ensures device { IsErrOf result (Log Device) → F.has_failed file.new ≡ true }
    ensures kind { IfErr result IsBankFault }
{
    let text = with_line_end(alloc, input)?;
    let opening = whole_opening(alloc, &text)?;
    if text.len() >= TEXT {
        return Err(ServeFault::Run(RunFault::OutOfMemory));
    }
    let log = create_asks(alloc, file, text)?;
    Ok((log, opening))
}

// The opening of a log that was found, unless the input is another one.
fn matching_opening(alloc: Global, found: &LogInFile, input: &[u8]) -> Result<Opening, ServeFault>
    ensures opening { IfOk result (IsOpeningOf (whole_opening_of found.now.text.items)) }
    ensures same { IfOk result (λ opening. (input.now ≡ []) ⊎ (with_line_end input.now ≡ found.now.text.items)) }
    ensures fault { IfErr result (IsMatchFault found.now.text.items input.now) }
{
    if !input.is_empty() && !found.has_opening(alloc, input)? {
        return Err(ServeFault::AnotherOpening);
    }
    Ok(whole_opening(alloc, &found.text)?)
}
