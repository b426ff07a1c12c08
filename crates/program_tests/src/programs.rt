//! Programs over devices in memory.
ghost use Rattle.std.specs.Prelude.{None};

use bank_program::{NamedFiles, ProgramFault, checkpoint_program, read_opening, run_program};
use bank_server::{InputFault, RunFault};
use bank_service::ServeFault;
use program_words::{CheckpointView, CheckpointWords, RunWords};
use sb_checkpoint::CheckpointFault;
use sb_rows::LineFault;
use std::alloc::Global;
use std::process::Abort;
use std::sync::Wait;
use std::thread::Threads;
use std::time::Clock;

const INPUT: &[u8] = b"alice 100.00 50.00\nbegin\ndeposit alice 1.00\nbalance alice\n";

const OUTPUT: &[u8] = b"1 done\n2 shown 151.00\nalice 100.00 51.00\ntotal 151.00\n";

// Runs an input, strictly or not: how that ends, and what is written.
fn ran(
    rt: &(impl Abort + Threads + Wait + Clock + Sync),
    alloc: Global,
    input: &[u8],
    strict: bool,
) -> (Option<ProgramFault>, Vec<u8>) {
    let words = RunWords {
        nodes: 2,
        workers: 1,
        strict,
    };
    let (mut rest, mut written) = (input, Vec::new(alloc));
    let done = run_program(rt, alloc, &mut rest, &mut written, words);
    (done.err(), written)
}

#[test]
fn runs_strict_or_not(rt: HostRuntime) {
    let alloc = rt.alloc();
    for strict in [false, true] {
        let (fault, written) = ran(&rt, alloc, INPUT, strict);
        assert!(rt; fault.is_none() && written.as_slice() == OUTPUT);
    }
    let unended = &INPUT[..INPUT.len() - 1];
    let (fault, written) = ran(&rt, alloc, unended, false);
    assert!(rt; fault.is_none() && written.as_slice() == OUTPUT);
    let (fault, written) = ran(&rt, alloc, unended, true);
    assert!(rt; fault == Some(ProgramFault::UnendedLine) && written.is_empty());
}

// A checkpoint of one customer, who has 100.00 and 50.00, with no reply, and openings of it and of another bank.
#[derive(Drop)]
struct Files {
    alloc: Global,
}

const CHECKPOINT: &[u8] = b"SBCKPT02\0\0\0\0\0\0\0\0\0\0\0\x01\0\0\0\0\0\0\x27\x10\
    \0\0\0\0\0\0\x13\x88\0\0\0\0\0\0\x3a\x98\0\0\0\0\0\0\x3a\x98";

impl<'d> NamedFiles<'d> for Files {
    ghost content = { λ files name. None };

    fn read_file(&self, name: &'d str) -> Result<Vec<u8>, RunFault> {
        let bytes: &[u8] = match name {
            "checkpoint" => CHECKPOINT,
            "opening" => b"alice 60.00 90.00\nbegin\n",
            "other" => b"alice 60.00 90.01\nbegin\n",
            "unended" => b"alice 60.00 90.00\n",
            _ => return Err(RunFault::Device),
        };
        match Vec::from_slice(self.alloc, bytes) {
            Ok(bytes) => Ok(bytes),
            Err(_) => Err(RunFault::OutOfMemory),
        }
    }
}

#[test]
fn what_is_shown_of_a_checkpoint(rt: HostRuntime) {
    let alloc = rt.alloc();
    let files = Files { alloc };
    for (view, text) in [
        (
            CheckpointView::Balances,
            "checkpoint 0\ncustomers 1\ntotal 150.00\nopening 150.00\n0 100.00 50.00\n",
        ),
        (CheckpointView::Check, "checkpoint 0\n"),
        (
            CheckpointView::Opening("opening"),
            "alice 100.00 50.00\nbegin\n",
        ),
    ] {
        let mut written = Vec::new(alloc);
        let file = "checkpoint";
        let done = checkpoint_program(alloc, &files, CheckpointWords { file, view }, &mut written);
        assert!(rt; done.is_ok() && written.as_slice() == text.as_bytes());
    }
    let no_begin = RunFault::Input {
        line: 2,
        fault: InputFault::Opening(LineFault::NoBegin),
    };
    let wrong_opening = ProgramFault::Checkpoint(CheckpointFault::WrongOpening);
    for (file, view, fault) in [
        (
            "none",
            CheckpointView::Check,
            ProgramFault::Run(RunFault::Device),
        ),
        (
            "checkpoint",
            CheckpointView::Opening("other"),
            wrong_opening,
        ),
        (
            "checkpoint",
            CheckpointView::Opening("unended"),
            ProgramFault::Run(no_begin),
        ),
    ] {
        let mut written = Vec::new(alloc);
        let done = checkpoint_program(alloc, &files, CheckpointWords { file, view }, &mut written);
        assert!(rt; done.err() == Some(fault) && written.is_empty());
    }
}

#[test]
fn an_opening_is_read_whole(rt: HostRuntime) {
    let alloc = rt.alloc();
    let opening = read_opening(alloc, &mut b"alice 100.00 50.00\nbegin\n".as_slice());
    let opening = opening.expect(&rt, "an opening");
    assert!(rt; opening.directory.len() == 1);
    let fault = RunFault::Input {
        line: 3,
        fault: InputFault::Opening(LineFault::BadLine),
    };
    let read = read_opening(alloc, &mut INPUT);
    assert!(rt; read.err() == Some(ServeFault::Run(fault)));
}
