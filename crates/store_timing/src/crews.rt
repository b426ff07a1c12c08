//! Calls on a board, executed by a crew.
use crate::bank::Bank;
use crate::bench_result::BenchResult;
use crate::buffering_crew::BufferingCrew;
use crate::fault::Fault;
use crate::gates::{ComputeGate, WaitGate};
use crate::in_place::InPlace;
use crate::payees::Payees;
use crate::words::CrewChoice;
use cown_workers::{Crew, Gate, with_crew};
use std::alloc::Global;
use std::sync::Wait;
use std::thread::Threads;
use std::time::{Clock, Duration, Instant};

/// Has a crew execute calls on the board of a bank. The result is the number of calls, and the
/// bank's total.
pub(crate) fn drain_calls<R: Threads + Wait + Clock + Sync>(
    rt: &R,
    alloc: Global,
    choice: CrewChoice,
) -> Result<BenchResult, Fault> {
    let mut bank = Box::new(alloc, Bank::open(alloc)?)?;
    let time = time_of(rt, alloc, choice, &mut bank);
    measured(time, &bank)
}

// How long the calls took.
fn time_of<R: Threads + Wait + Clock + Sync>(
    rt: &R,
    alloc: Global,
    choice: CrewChoice,
    bank: &mut Bank,
) -> Result<Duration, Fault> {
    match choice {
        CrewChoice::InPlace { steps, calls } => in_place(rt, steps, bank, calls),
        CrewChoice::Buffered { payees, calls } => run_buffered(rt, alloc, bank, payees, calls),
        CrewChoice::InThreads {
            workers,
            steps,
            calls,
        } => in_threads(rt, alloc, workers, &ComputeGate::of(steps), bank, calls),
        CrewChoice::Wait { workers } => {
            in_threads(rt, alloc, workers, &WaitGate { clock: rt }, bank, 1)
        }
    }
}

// One thread executes this many calls.
fn in_place(
    clock: &impl Clock,
    steps: u64,
    bank: &mut Bank,
    calls: u32,
) -> Result<Duration, Fault> {
    let gate = ComputeGate::of(steps);
    deposit(
        clock,
        &mut InPlace { gate: &gate },
        bank,
        Payees::Many,
        calls,
    )
}

// A crew that buffers jobs executes this many calls.
fn run_buffered(
    clock: &impl Clock,
    alloc: Global,
    bank: &mut Bank,
    payees: Payees,
    calls: u32,
) -> Result<Duration, Fault> {
    let mut crew = BufferingCrew::new(alloc)?;
    deposit(clock, &mut crew, bank, payees, calls)
}

fn deposit(
    clock: &impl Clock,
    crew: &mut impl Crew,
    bank: &mut Bank,
    payees: Payees,
    calls: u32,
) -> Result<Duration, Fault> {
    let start = Instant::now(clock)?;
    bank.deposit(crew, payees, calls)?;
    Ok(start.elapsed(clock)?)
}

// This many workers execute this many calls; starting and ending the threads counts too. Fails if a
// crew can't have as many.
fn in_threads<R, G>(
    rt: &R,
    alloc: Global,
    workers: usize,
    gate: &G,
    bank: &mut Bank,
    calls: u32,
) -> Result<Duration, Fault>
where
    R: Threads + Wait + Clock + Sync,
    G: Gate + Sync,
{
    if workers < 1 || workers > 16 {
        return Err(Fault::Workers);
    }
    let start = Instant::now(rt)?;
    with_crew(rt, alloc, workers, gate, move |crew| {
        bank.deposit(crew, Payees::Many, calls)
    })??;
    Ok(start.elapsed(rt)?)
}

// The result of the calls that took this time, if they were executed.
fn measured(time: Result<Duration, Fault>, bank: &Bank) -> Result<BenchResult, Fault> {
    let time = time?;
    Ok(BenchResult {
        length: bank.length(),
        sum: bank.total().ok_or(Fault::Unfinished)?,
        time,
    })
}
