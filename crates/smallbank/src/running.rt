//! Running the calls of standard input.
ghost use Rattle.program_words.specs.Words.{IsRunInRange};

use bank_program::{ProgramFault, RunWatch, Trouble, input, output, run_program};
use program_words::RunWords;
use std::sync::Wait;
use std::thread::Threads;
use std::time::Clock;

/// Runs the calls of standard input, and writes to standard output. Then it tells on standard error how many
/// lines were answered otherwise than by a reply, if some were. An error of a stream is noted.
pub(crate) fn obey_run<H: Threads + Wait + Clock + Sync>(
    rt: &HostRuntime,
    threads: &H,
    words: RunWords,
    trouble: &Trouble<'_>,
) -> Result<(), ProgramFault>
    requires { IsRunInRange words }
{
    let mut reader = input(rt, trouble);
    let mut writer = RunWatch::new(output(rt, trouble));
    run_program(threads, rt.alloc(), &mut reader, &mut writer, words)?;
    writer.counts().print_to_stderr(rt);
    Ok(())
}
