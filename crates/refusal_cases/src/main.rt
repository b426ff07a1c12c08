//! `refusal_cases`: plays cases in which memory may be refused at any place, for
//! `bench/faults/refusals`.
#![tactic(auto)]

use fault::{CaseFault, Fault};
use report::Report;
use sb_text::write_whole;
use std::alloc::Global;
use std::env;
use std::process::ExitCode;
use std::sync::Wait;
use std::thread::Threads;
use std::time::Clock;

mod amounts;
mod bytewise;
mod checkpoint;
mod entries;
mod fault;
mod five_calls;
mod frames;
mod opening;
mod report;
mod schedule;
mod session;
mod story;

const USAGE: &str = "usage: refusal_cases";

fn main(rt: HostRuntime) -> ExitCode {
    match has_words(&rt) {
        Ok(false) => {}
        Ok(true) => {
            let _ = eprintln!(rt; "{USAGE}");
            return ExitCode::from(2);
        }
        Err(fault) => return failed(&rt, fault),
    }
    match print_cases(&rt, &rt) {
        Ok(()) => ExitCode::SUCCESS,
        Err(fault) => failed(&rt, fault),
    }
}

// Whether the program is given words; the first of all is its name.
fn has_words(rt: &HostRuntime) -> Result<bool, Fault> {
    let words: Vec<String> = env::args(rt)?.collect(rt.alloc())?;
    Ok(words.len() > 1)
}

// The output of the cases goes to standard output, with the number of refusals.
fn print_cases<H: Threads + Wait + Clock + Sync>(
    rt: &HostRuntime,
    threads: &H,
) -> Result<(), Fault> {
    let mut report = match Report::new(rt.alloc()) {
        Err(_) => {
            let mut report = Report::new(rt.alloc())?;
            report.refused("Report::new")?;
            report
        }
        report => report?,
    };
    play_all(threads, rt.alloc(), &mut report)?;
    write_whole(&mut rt.stdout(), &report.text)?;
    println!(rt; "refusals {}", report.refusals)?;
    Ok(())
}

// Plays all cases, one after another, and reports the answer of each. A call that is refused
// memory is repeated.
fn play_all<R: Threads + Wait + Clock + Sync>(
    rt: &R,
    alloc: Global,
    report: &mut Report,
) -> Result<(), CaseFault> {
    five_calls::play_case(rt, alloc, report)?;
    session::play_case(alloc, report)?;
    story::play_case(alloc, story::TWO_HANDS, report)?;
    story::play_case(alloc, story::CUT, report)?;
    story::play_case(alloc, story::STATE, report)?;
    story::play_case(alloc, story::CRASH, report)?;
    checkpoint::play_case(alloc, report)?;
    frames::play_case(alloc, report)?;
    entries::play_case(alloc, report)
}

fn failed(rt: &HostRuntime, fault: Fault) -> ExitCode {
    let _ = eprintln!(rt; "refusal_cases: {fault}");
    ExitCode::from(3)
}
