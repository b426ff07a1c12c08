//! `store_timing`: times how a crew drains a board, for `bench/compare/nodes`, and how long
//! checkpoints and states take, for `bench/compare/replica`.
#![tactic(auto)]

use bench_result::BenchResult;
use fault::Fault;
use measuring::measure;
use std::env;
use std::process::ExitCode;
use std::sync::Wait;
use std::thread::Threads;
use std::time::Clock;
use words::{Measurement, read_words};

mod bank;
mod bench_result;
mod buffering_crew;
mod checkpoints;
mod crews;
mod fault;
mod gates;
mod in_place;
mod measuring;
mod opening;
mod payees;
mod replicas;
mod states;
mod words;

const USAGE: &str = "usage: store_timing none STEPS CALLS | workers WORKERS STEPS CALLS
     | wait WORKERS | one-customer CALLS | many-customers CALLS | write COUNT | read COUNT
     | adopt COUNT | open COUNT | by-state CUSTOMERS BEFORE ENTRIES | by-entries CUSTOMERS BEFORE ENTRIES";

fn main(rt: HostRuntime) -> ExitCode {
    let measurement = match measurement(&rt) {
        Ok(Some(measurement)) => measurement,
        Ok(None) => {
            let _ = eprintln!(rt; "{USAGE}");
            return ExitCode::from(2);
        }
        Err(fault) => return failed(&rt, fault),
    };
    match print_measured(&rt, &rt, measurement) {
        Ok(()) => ExitCode::SUCCESS,
        Err(fault) => failed(&rt, fault),
    }
}

// The measurement that the program's words say, or `None` if they say none.
fn measurement(rt: &HostRuntime) -> Result<Option<Measurement>, Fault> {
    let words: Vec<String> = env::args(rt)?.collect(rt.alloc())?;
    Ok(read_words(&words))
}

// The count and the sum go to standard output, and the time to standard error.
fn print_measured<H: Threads + Wait + Clock + Sync>(
    rt: &HostRuntime,
    threads: &H,
    measurement: Measurement,
) -> Result<(), Fault> {
    let BenchResult { length, sum, time } = measure(threads, rt.alloc(), measurement)?;
    let milliseconds = time.as_secs_f64() * 1e3;
    println!(rt; "{length} {sum}")?;
    eprintln!(rt; "{milliseconds:.3} ms")?;
    Ok(())
}

fn failed(rt: &HostRuntime, fault: Fault) -> ExitCode {
    let _ = eprintln!(rt; "store_timing: {fault}");
    ExitCode::from(3)
}
