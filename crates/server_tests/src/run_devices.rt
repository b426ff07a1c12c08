//! Runs over readers and writers that fail.
use crate::bank::expect_bytes;
use crate::devices::{BytewiseReader, HaltingReader, Hitch, NarrowWriter};
use bank_server::{RunFault, run_text};
use cown_workers::OpenGate;
use std::alloc::Global;
use std::process::Abort;
use std::sync::Wait;
use std::thread::Threads;
use std::time::Clock;

const DEPOSIT: &[u8] = b"a 1.00 2.00\nbegin\ndeposit a 0.50\n";

// Checks how a run ends over a device that gives or takes this much.
fn expect_ended(
    rt: &impl Abort,
    ended: Result<(), RunFault>,
    wanted: Result<(), RunFault>,
    after: usize,
) {
    assert!(rt; ended == wanted, "after {after}");
}

// Compares the end and the output of a run whose reader gives a byte at a time and fails after this
// many reads.
fn expect_read(
    rt: &(impl Abort + Threads + Wait + Clock + Sync),
    alloc: Global,
    reads: u32,
    ends: Result<(), RunFault>,
    output: &[u8],
) {
    let mut reader = BytewiseReader {
        left: DEPOSIT,
        reads,
        fails: true,
    };
    let mut written: Vec<u8> = Vec::new(alloc);
    let ended = run_text(rt, alloc, &mut reader, &mut written, 1, 0, &OpenGate);
    expect_ended(rt, ended, ends, reads as usize);
    expect_bytes(rt, &written, output, "what is written");
}

#[test]
fn reads_in_pieces(rt: HostRuntime) {
    let output = b"1 done\na 1.00 2.50\ntotal 3.50\n";
    expect_read(&rt, rt.alloc(), 1000, Ok(()), output);
}

#[test]
fn a_read_that_fails(rt: HostRuntime) {
    for reads in 0..67u32 {
        expect_read(&rt, rt.alloc(), reads, Err(RunFault::Device), b"");
    }
}

// Checks that a read with a hitch changes nothing about a run.
fn halt_at(
    rt: &(impl Abort + Threads + Wait + Clock + Sync),
    alloc: Global,
    away: u32,
    hitch: Hitch,
) {
    let left = DEPOSIT;
    let mut reader = HaltingReader { left, away, hitch };
    let mut written: Vec<u8> = Vec::new(alloc);
    let ended = run_text(rt, alloc, &mut reader, &mut written, 1, 0, &OpenGate);
    expect_ended(rt, ended, Ok(()), away as usize);
    let output = b"1 done\na 1.00 2.50\ntotal 3.50\n";
    expect_bytes(rt, &written, output, "what is written");
}

// The 33 bytes take 17 reads, and one more is the end.
#[test]
fn a_read_with_a_hitch(rt: HostRuntime) {
    for away in 1..19u32 {
        halt_at(&rt, rt.alloc(), away, Hitch::Short);
        halt_at(&rt, rt.alloc(), away, Hitch::Interrupted);
    }
}

// Compares the end and the output of a run of this input whose writer has this much room.
fn expect_write(
    rt: &(impl Abort + Threads + Wait + Clock + Sync),
    alloc: Global,
    input: &[u8],
    room: usize,
    flushes: bool,
    ends: Result<(), RunFault>,
    output: &[u8],
) {
    let mut reader = input;
    let mut writer = NarrowWriter::new(alloc, room, flushes);
    let ended = run_text(rt, alloc, &mut reader, &mut writer, 1, 0, &OpenGate);
    expect_ended(rt, ended, ends, room);
    expect_bytes(rt, &writer.taken, output, "what is written");
}

#[test]
fn a_write_that_fails(rt: HostRuntime) {
    let input = b"a 1.00 2.00\nbegin\nbalance a\n";
    let output = b"1 shown 3.00\na 1.00 2.00\ntotal 3.00\n".as_slice();
    for room in 0..36usize {
        let ends = Err(RunFault::Device);
        expect_write(&rt, rt.alloc(), input, room, true, ends, &output[..room]);
    }
    expect_write(&rt, rt.alloc(), input, 36, true, Ok(()), output);
}

#[test]
fn a_flush_that_fails(rt: HostRuntime) {
    let ends = Err(RunFault::Device);
    expect_write(
        &rt,
        rt.alloc(),
        b"begin\n",
        100,
        false,
        ends,
        b"total 0.00\n",
    );
}
