//! The program that prints a checkpoint.
ghost use Rattle.std.specs.Prelude.{ℕ, List, IfErr, OnOk};
ghost use Rattle.std.specs.Io.KnownBytes.{Appends};
ghost use Rattle.bank_program.specs.CheckpointPrints.{IsShowFault, ShowsCheckpoint};
ghost use Rattle.bank_program.specs.StrictRuns.{LeavesStrictOutput};

use crate::fault::ProgramFault;
use crate::named_files::NamedFiles;
use bank_service::whole_opening;
use checkpoint_text::{CheckpointListing, list_as_opening, list_checkpoint};
use program_words::{CheckpointView, CheckpointWords};
use std::alloc::Global;
use std::io::Write;

/// Prints what the words ask for of a checkpoint.
///
/// Fails, before anything is printed unless a write fails, with
/// - [`ProgramFault::Checkpoint`] if the file has no checkpoint, or one of another bank than the
///   opening's,
/// - [`ProgramFault::Run`] if a line of the opening is at fault, a file can't be read, a write fails, or
///   memory is refused.
pub fn checkpoint_program<'d, F: NamedFiles<'d>, W: Write>(
    alloc: Global,
    files: &F,
    words: CheckpointWords<'d>,
    writer: &mut W,
) -> Result<(), ProgramFault>
    ensures shown { OnOk result ((text : List ℕ) × ShowsCheckpoint (F.content files.now) words.entry.file.now
        words.entry.view text × Appends (W.contents writer.old) (W.contents writer.new) text) }
    ensures left { IfErr result (λ fault.
        LeavesStrictOutput fault (W.contents writer.old) (W.contents writer.new)) }
    ensures fault { IfErr result (IsShowFault (F.content files.now) words.entry.file.now words.entry.view) }
{
    let bytes = files.read_file(words.file)?;
    match words.view {
        CheckpointView::Balances => {
            list_checkpoint(alloc, &bytes, CheckpointListing::Balances, writer)?
        }
        CheckpointView::Check => list_checkpoint(alloc, &bytes, CheckpointListing::Check, writer)?,
        CheckpointView::Opening(file) => {
            let text = files.read_file(file)?;
            let opening = whole_opening(alloc, &text)?;
            list_as_opening(alloc, &bytes, &opening, writer)?
        }
    }
    Ok(())
}
