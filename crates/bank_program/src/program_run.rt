//! The program that runs calls.
ghost use Rattle.std.specs.Prelude.{◌≡◌, false, true, IfErr, IfSome, IsErrOf, OnOk};
ghost use Rattle.bank_server.specs.Faults.{IsFirstInputFault, Writes};
ghost use Rattle.bank_server.specs.Output.{output_of};
ghost use Rattle.bank_program.specs.StrictRuns.{IsRunProgramFault, IsStrictFault, LeavesStrictOutput, MayEndRun, is_whole};
ghost use Rattle.program_words.specs.Words.{IsRunInRange};
ghost use Rattle.bank_program.specs.declared.fault.ProgramFault.TheVariants.{UnendedLine};

use crate::fault::ProgramFault;
use bank_server::{RunFault, run_text};
use cown_workers::OpenGate;
use program_words::RunWords;
use sb_text::read_all;
use std::alloc::Global;
use std::io::{Read, Write};
use std::sync::Wait;
use std::thread::Threads;
use std::time::Clock;

/// Runs the calls of an input, and writes its output.
///
/// Fails as [`run_text`] does, and with [`ProgramFault::UnendedLine`] if the words want a strict run and the last
/// line doesn't end with a line feed, whatever else is wrong with the input: a part of it may be missing.
pub fn run_program<H: Threads + Wait + Clock + Sync, R: Read, W: Write>(
    rt: &H,
    alloc: Global,
    reader: &mut R,
    writer: &mut W,
    words: RunWords,
) -> Result<(), ProgramFault>
    requires { IsRunInRange words }
    ensures done { OnOk result (IfSome (R.remaining reader.old) (λ input.
        Writes (output_of input) (W.contents writer.old) (W.contents writer.new))) }
    ensures whole { OnOk result (words.strict ≡ true → IfSome (R.remaining reader.old)
        (λ input. is_whole input ≡ true)) }
    // Nothing is written of an input that isn't whole.
    ensures unended { IsErrOf result UnendedLine → IfSome (R.remaining reader.old) (λ input. is_whole input ≡ false)
        × (W.contents writer.new ≡ W.contents writer.old) }
    // A fault of a line is the first, nothing was written unless a device failed, and a run by these words may end so.
    ensures first { IfErr result (λ fault. IfSome (R.remaining reader.old) (λ input.
        IsStrictFault (λ run. IsFirstInputFault run (output_of input)) fault)) }
    ensures left { IfErr result (λ fault.
        LeavesStrictOutput fault (W.contents writer.old) (W.contents writer.new)) }
    ensures fault { IfErr result (IsRunProgramFault words) }
{
    if words.strict {
        return run_strictly(rt, alloc, reader, writer, words);
    }
    let (nodes, workers) = (words.nodes, words.workers);
    run_text(rt, alloc, reader, writer, nodes, workers, &OpenGate)?;
    Ok(())
}

// Runs an input, but none whose last line doesn't end with a line feed.
fn run_strictly<H: Threads + Wait + Clock + Sync, R: Read, W: Write>(
    rt: &H,
    alloc: Global,
    reader: &mut R,
    writer: &mut W,
    words: RunWords,
) -> Result<(), ProgramFault>
    requires { IsRunInRange words }
    ensures done { OnOk result (IfSome (R.remaining reader.old) (λ input.
        Writes (output_of input) (W.contents writer.old) (W.contents writer.new))) }
    ensures whole { OnOk result (IfSome (R.remaining reader.old) (λ input. is_whole input ≡ true)) }
    // Nothing is written of an input that isn't whole.
    ensures unended { IsErrOf result UnendedLine → IfSome (R.remaining reader.old) (λ input. is_whole input ≡ false)
        × (W.contents writer.new ≡ W.contents writer.old) }
    // A fault of a line is the first, nothing was written unless a device failed, and a run by these words may end so.
    ensures first { IfErr result (λ fault. IfSome (R.remaining reader.old) (λ input.
        IsStrictFault (λ run. IsFirstInputFault run (output_of input)) fault)) }
    ensures left { IfErr result (λ fault.
        LeavesStrictOutput fault (W.contents writer.old) (W.contents writer.new)) }
    ensures fault { IfErr result (IsStrictFault (MayEndRun words)) }
{
    let input = match read_all(alloc, reader) {
        Ok(input) => input,
        Err(fault) => return Err(ProgramFault::Run(RunFault::from(fault))),
    };
    if !is_whole(&input) {
        return Err(ProgramFault::UnendedLine);
    }
    let (mut rest, nodes, workers) = (input.as_slice(), words.nodes, words.workers);
    run_text(rt, alloc, &mut rest, writer, nodes, workers, &OpenGate)?;
    Ok(())
}

// Whether each line of a text ends with a line feed.
fn is_whole(text: &[u8]) -> bool
    ensures { result ≡ is_whole text.now }
{
    text.is_empty() || text.ends_with(b"\n")
}
