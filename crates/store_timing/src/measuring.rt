//! What is measured.

use crate::bench_result::BenchResult;
use crate::crews::drain_calls;
use crate::fault::Fault;
use crate::words::Measurement;
use crate::{checkpoints, states};
use std::alloc::Global;
use std::sync::Wait;
use std::thread::Threads;
use std::time::Clock;

/// Measures something.
pub(crate) fn measure<R: Threads + Wait + Clock + Sync>(
    rt: &R,
    alloc: Global,
    measurement: Measurement,
) -> Result<BenchResult, Fault> {
    match measurement {
        Measurement::Drain(crew) => drain_calls(rt, alloc, crew),
        Measurement::Write { count } => checkpoints::write(rt, alloc, count),
        Measurement::Read { count } => checkpoints::read(rt, alloc, count),
        Measurement::Adopt { count } => states::adopt(rt, alloc, count),
        Measurement::Open { count } => states::open(rt, alloc, count),
        Measurement::ByState(absence) => states::by_state(rt, alloc, absence),
        Measurement::ByEntries(absence) => states::by_entries(rt, alloc, absence),
    }
}
