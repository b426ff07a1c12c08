//! `smallbank`: a bank store whose output is a stated function of its input.
#![tactic(auto)]

ghost use Rattle.program_words.specs.Words.{InRange};

mod asking;
mod logs;
mod running;
mod serving;

use asking::obey_ask;
use bank_program::{
    Device, ProgramFault, RunFault, SystemFiles, Trouble, checkpoint_program, input, output,
    run_schedule, tell,
};
use clap::error::ErrorKind;
use logs::obey_log;
use program_words::{LogWords, Words, read_words, refuse_bytes};
use running::obey_run;
use serving::obey_serve;
use std::net::Net;
use std::process::ExitCode;
use std::sync::Wait;
use std::thread::Threads;
use std::time::Clock;
use std::{env, io};

fn main(rt: HostRuntime) -> ExitCode {
    let words = words_of(&rt);
    let trouble = Trouble::new(rt.alloc());
    ExitCode::from(execute(&rt, &rt, &words, &trouble))
}

// The program's words.
fn words_of(rt: &HostRuntime) -> io::Result<Vec<String>> {
    Ok(env::args(rt)?.collect(rt.alloc())?)
}

// Executes what the program's words say, tells a fault, and answers the exit status. The second handle
// is for threads.
fn execute<'d, H: Threads + Wait + Clock + Sync + Net + Copy + Send + 'static>(
    rt: &HostRuntime,
    threads: &H,
    words: &'d io::Result<Vec<String>>,
    trouble: &Trouble<'d>,
) -> u8 {
    match start(rt, threads, words, trouble) {
        Ok(status) => status,
        Err(fault) => tell(rt, fault, trouble),
    }
}

// Executes what the program's words say, and answers the exit status.
fn start<'d, H: Threads + Wait + Clock + Sync + Net + Copy + Send + 'static>(
    rt: &HostRuntime,
    threads: &H,
    words: &'d io::Result<Vec<String>>,
    trouble: &Trouble<'d>,
) -> Result<u8, ProgramFault> {
    let words = match words {
        Ok(words) => words,
        Err(error) if error.kind() == io::ErrorKind::OutOfMemory => {
            return Err(ProgramFault::Run(RunFault::OutOfMemory));
        }
        Err(_) => return print_error(rt, refuse_bytes(rt.alloc()), trouble),
    };
    match read_words(rt.alloc(), words) {
        Ok(read) => obey(rt, threads, read, trouble),
        Err(error) => print_error(rt, error, trouble),
    }
}

// Executes what the words say.
fn obey<'d, H: Threads + Wait + Clock + Sync + Net + Copy + Send + 'static>(
    rt: &HostRuntime,
    threads: &H,
    words: Words<'d>,
    trouble: &Trouble<'d>,
) -> Result<u8, ProgramFault>
    requires { InRange words }
{
    match words {
        Words::Run(words) => obey_run(rt, threads, words, trouble)?,
        Words::Play => run_schedule(
            rt.alloc(),
            &mut input(rt, trouble),
            &mut output(rt, trouble),
        )?,
        Words::Serve(words) => obey_serve(rt, threads, words, trouble)?,
        Words::Log(LogWords { folder, action }) => obey_log(rt, folder, action, trouble)?,
        Words::Ask(words) => obey_ask(rt, threads, words, trouble)?,
        Words::Checkpoint(words) => {
            let files = SystemFiles { rt: *rt, trouble };
            checkpoint_program(rt.alloc(), &files, words, &mut output(rt, trouble))?
        }
    }
    Ok(0)
}

// Prints clap's text for words that start nothing: a fault, or help that they call for.
fn print_error(
    rt: &HostRuntime,
    error: clap::Error,
    trouble: &Trouble<'_>,
) -> Result<u8, ProgramFault> {
    if error.kind() == ErrorKind::OutOfMemory {
        return Err(ProgramFault::Run(RunFault::OutOfMemory));
    }
    match error.print(rt) {
        Ok(()) => Ok(error.exit_code() as u8),
        Err(failed) => {
            // If it was standard error, nothing can be told.
            trouble.note(Device::Output, &failed);
            Err(ProgramFault::Run(RunFault::Device))
        }
    }
}
