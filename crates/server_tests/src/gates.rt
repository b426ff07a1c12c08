//! Workers that a gate holds up.
use crate::bank::{OPENING, expect, expect_bytes, joined};
use bank_server::run_text;
use cown_workers::{Gate, OpenGate};
use std::alloc::Global;
use std::process::Abort;
use std::sync::Wait;
use std::sync::atomic::{AtomicBool, AtomicU64, Ordering};
use std::thread;
use std::thread::Threads;
use std::time::Clock;

// How many turns a worker waits for another.
const TURNS: u32 = 1_000_000;

// The first two calls each wait until the other one is about to be executed. With one worker the
// first would wait in vain, and give up.
#[derive(Default, Drop)]
struct MeetingGate {
    first: AtomicBool,
    second: AtomicBool,
    gave_up: AtomicBool,
}

impl MeetingGate {
    fn comes(&self, here: &AtomicBool, there: &AtomicBool) {
        here.store(true, Ordering::SeqCst);
        for _ in 0..TURNS {
            if there.load(Ordering::SeqCst) {
                return;
            }
            thread::yield_now();
        }
        self.gave_up.store(true, Ordering::SeqCst);
    }
}

impl Gate for MeetingGate {
    fn before(&self, number: u64) {
        match number {
            1 => self.comes(&self.first, &self.second),
            2 => self.comes(&self.second, &self.first),
            _ => {}
        }
    }

    fn after(&self, _number: u64) {}
}

// Both calls met at the gate.
fn expect_met(rt: &impl Abort, gate: &MeetingGate) {
    expect(rt, gate.first.load(Ordering::SeqCst), "the first came");
    expect(rt, gate.second.load(Ordering::SeqCst), "the second came");
    expect(rt, !gate.gave_up.load(Ordering::SeqCst), "none gave up");
}

// Runs two calls by two workers, which meet at the gate.
fn expect_meeting(rt: &(impl Abort + Threads + Wait + Clock + Sync), alloc: Global) {
    let calls = b"deposit alice 1.00\ndeposit bob 1.00\n".as_slice();
    let input = joined(rt, alloc, &[OPENING, calls]);
    let mut reader = input.as_slice();
    let mut written: Vec<u8> = Vec::new(alloc);
    let gate = MeetingGate::default();
    let ended = run_text(rt, alloc, &mut reader, &mut written, 1, 2, &gate);
    expect(rt, ended == Ok(()), "how it ends");
    expect_met(rt, &gate);
    let output =
        b"1 done\n2 done\nalice 100.00 51.00\nbob 0.00 21.00\ncarol 10.00 0.00\ntotal 182.00\n";
    expect_bytes(rt, &written, output, "what is written");
}

#[test]
fn two_calls_wait_for_each_other(rt: HostRuntime) {
    expect_meeting(&rt, rt.alloc());
}

// Holds up each job with an odd number, so that later ones are executed before it.
struct UnevenGate;

impl Gate for UnevenGate {
    fn before(&self, number: u64) {
        if number % 2 == 1 {
            for _ in 0..1_000 {
                thread::yield_now();
            }
        }
    }

    fn after(&self, _number: u64) {}
}

// Holds the first job until the second, the third and the fourth are executed.
#[derive(Default, Drop)]
struct LastOfFour {
    // Which numbers have come, among the first four. There is no job 0.
    came: [AtomicBool; 5],
    // How many of the other three are executed.
    others: AtomicU64,
    gave_up: AtomicBool,
}

impl LastOfFour {
    fn others_are_carried_out(&self) -> bool {
        self.others.load(Ordering::SeqCst) == 3
    }
}

impl Gate for LastOfFour {
    fn before(&self, number: u64) {
        set(&self.came, number);
        if number != 1 {
            return;
        }
        for _ in 0..TURNS {
            if self.others_are_carried_out() {
                return;
            }
            thread::yield_now();
        }
        self.gave_up.store(true, Ordering::SeqCst);
    }

    fn after(&self, number: u64) {
        if (2..=4).contains(&number) {
            self.others.fetch_add(1, Ordering::SeqCst);
        }
    }
}

// Sets the flag of this number, if it has one.
fn set(flags: &[AtomicBool; 5], number: u64) {
    if let Some(flag) = flags.get(number as usize) {
        flag.store(true, Ordering::SeqCst);
    }
}

// All four came, and none gave up.
fn expect_last(rt: &impl Abort, gate: &LastOfFour) {
    for number in 1..5 {
        let came = gate.came[number].load(Ordering::SeqCst);
        expect(rt, came, "each came");
    }
    expect(rt, !gate.gave_up.load(Ordering::SeqCst), "none gave up");
}

// The output of this many nodes and workers for four calls of four customers, and four that wait
// for these.
fn written_by<G: Gate + Sync>(
    rt: &(impl Abort + Threads + Wait + Clock + Sync),
    alloc: Global,
    nodes: usize,
    workers: usize,
    gate: &G,
) -> Vec<u8> {
    assert!(rt; 1 <= nodes && nodes <= 16 && workers <= 16);
    let mut reader = FOUR_CUSTOMERS;
    let mut written: Vec<u8> = Vec::new(alloc);
    let ended = run_text(rt, alloc, &mut reader, &mut written, nodes, workers, gate);
    expect(rt, ended == Ok(()), "how it ends");
    written
}

const FOUR_CUSTOMERS: &[u8] = b"alice 100.00 50.00\nbob 0.00 20.00\ncarol 10.00 0.00\n\
      dave 0.00 1.00\nbegin\ndeposit alice 1.00\ndeposit bob 1.00\ndeposit carol 1.00\n\
      deposit dave 1.00\namalgamate alice bob\namalgamate carol dave\nbalance bob\nbalance dave\n";

// Checks that two nodes with four workers write what one thread does, though this gate holds
// workers up.
fn expect_same_output<G: Gate + Sync>(
    rt: &(impl Abort + Threads + Wait + Clock + Sync),
    alloc: Global,
    gate: &G,
) {
    let alone = written_by(rt, alloc, 1, 0, &OpenGate);
    let together = written_by(rt, alloc, 2, 4, gate);
    expect_bytes(rt, &together, &alone, "what is written");
}

#[test]
fn workers_of_uneven_speed(rt: HostRuntime) {
    expect_same_output(&rt, rt.alloc(), &UnevenGate);
}

#[test]
fn the_first_call_is_carried_out_last(rt: HostRuntime) {
    let gate = LastOfFour::default();
    expect_same_output(&rt, rt.alloc(), &gate);
    expect_last(&rt, &gate);
}
