//! The threads of a run, as the system counts them.
use crate::bank::{OPENING, expect, joined};
use bank_server::run_text;
use cown_workers::Gate;
use std::alloc::Global;
use std::fs;
use std::process::Abort;
use std::rt::Files;
use std::sync::Wait;
use std::sync::atomic::{AtomicU64, Ordering};
use std::thread::Threads;
use std::time::Clock;

// Counts the threads of the program when the first call is about to be executed.
#[derive(Drop)]
struct CensusGate<'a> {
    rt: &'a HostRuntime,
    threads: AtomicU64,
}

impl Gate for CensusGate<'_> {
    fn before(&self, number: u64) {
        if number == 1 {
            let threads = threads(self.rt).unwrap_or(0);
            self.threads.store(threads, Ordering::SeqCst);
        }
    }

    fn after(&self, _number: u64) {}
}

// The number of threads that the program has now.
fn threads<R: Files + Alloc>(rt: &R) -> Option<u64> {
    let status = fs::read_to_string(rt, "/proc/self/status").ok()?;
    let (_, rest) = status.split_once("Threads:")?;
    rest.lines().next()?.trim().parse().ok()
}

// Runs a call with one worker and sixteen nodes. Meanwhile there are node 0's own thread, the
// worker's, and one for each follower.
fn expect_threads(
    rt: &(impl Abort + Threads + Wait + Clock + Sync),
    alloc: Global,
    host: &HostRuntime,
) {
    let input = joined(rt, alloc, &[OPENING, b"balance alice\n"]);
    let mut reader = input.as_slice();
    let mut written: Vec<u8> = Vec::new(alloc);
    let gate = CensusGate {
        rt: host,
        threads: AtomicU64::new(0),
    };
    let ended = run_text(rt, alloc, &mut reader, &mut written, 16, 1, &gate);
    expect(rt, ended == Ok(()), "how it ends");
    expect(
        rt,
        gate.threads.load(Ordering::SeqCst) >= 17,
        "a thread for each node and for the worker",
    );
}

#[test]
fn a_thread_for_each_node(rt: HostRuntime) {
    expect_threads(&rt, rt.alloc(), &rt);
}
