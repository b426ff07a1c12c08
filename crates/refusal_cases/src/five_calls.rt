//! A run of five calls on one node, without workers.

use crate::fault::CaseFault;
use crate::report::Report;
use bank_server::{RunFault, run_text};
use cown_workers::OpenGate;
use std::alloc::Global;
use std::sync::Wait;
use std::thread::Threads;
use std::time::Clock;

// The input of the run.
const INPUT: &[u8] = b"alice 100.00 50.00
bob 0.00 20.00
carol 10.00 0.00
begin
balance alice
deposit bob 5.00
savings carol -10.00
check alice 150.00
amalgamate alice bob
";

/// Reports the output of the run.
pub(crate) fn play_case<R: Threads + Wait + Clock + Sync>(
    rt: &R,
    alloc: Global,
    report: &mut Report,
) -> Result<(), CaseFault> {
    match run(rt, alloc, report) {
        Err(RunFault::OutOfMemory) => {
            report.refused("run_text")?;
            run(rt, alloc, report)?;
        }
        ended => ended?,
    }
    Ok(report.add_text()?)
}

fn run<R: Threads + Wait + Clock + Sync>(
    rt: &R,
    alloc: Global,
    report: &mut Report,
) -> Result<(), RunFault> {
    let mut reader = INPUT;
    run_text(rt, alloc, &mut reader, &mut report.written, 1, 0, &OpenGate)
}
