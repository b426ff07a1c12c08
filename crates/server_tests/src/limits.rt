//! Inputs at the limits.
use crate::bank::joined;
use crate::run_faults::expect_fault;
use crate::runs::expect_output_by;
use bank_server::InputFault;
use sb_rows::LineFault;
use std::alloc::Global;
use std::io::Write;
use std::process::Abort;

// Appends this many deposits.
fn push_deposits(rt: &impl Abort, times: u32, out: &mut Vec<u8>) {
    for _ in 0..times {
        out.extend_from_slice(b"deposit a 0.01\n")
            .expect(rt, "memory for a call");
    }
}

// An input of this many deposits between two texts.
fn input_of(rt: &impl Abort, alloc: Global, start: &[u8], deposits: u32, end: &[u8]) -> Vec<u8> {
    let mut bytes = joined(rt, alloc, &[start]);
    push_deposits(rt, deposits, &mut bytes);
    bytes.extend_from_slice(end).expect(rt, "memory for bytes");
    bytes
}

// The output of this many calls that are done, and then this text.
fn output_of(rt: &impl Abort, alloc: Global, calls: u32, end: &[u8]) -> Vec<u8> {
    let mut bytes = Vec::new(alloc);
    for call in 0..calls {
        let number = call.saturating_add(1);
        writeln!(bytes, "{number} done").expect(rt, "memory for a line");
    }
    bytes.extend_from_slice(end).expect(rt, "memory for bytes");
    bytes
}

// The lines of this many customers.
fn customers(rt: &impl Abort, alloc: Global, count: u32) -> Vec<u8> {
    let mut bytes = Vec::new(alloc);
    for customer in 0..count {
        writeln!(bytes, "c{customer} 0.00 0.01").expect(rt, "memory for a line");
    }
    bytes
}

#[test]
fn too_many_customers(rt: HostRuntime) {
    let input = customers(&rt, rt.alloc(), 65_537);
    let fault = InputFault::Opening(LineFault::TooMany);
    let text = "line 65537: too many customers";
    expect_fault(&rt, rt.alloc(), &input, 65_537, fault, text);
}

#[test]
fn calls_past_a_full_log(rt: HostRuntime) {
    let start = b"a 0.00 0.00\nbegin\nask 9 9 deposit a 0.01\n";
    // New keys find the log full; the first key keeps its number.
    let end = b"deposit a 0.01\nask 9 8 balance a\nask 9 9 deposit a 0.01\nask 9 9 balance a\n";
    let input = input_of(&rt, rt.alloc(), start, 999_999, end);
    let end = b"log full\nlog full\n1 done\nmismatch 1\na 0.00 10000.00\ntotal 10000.00\n";
    let output = output_of(&rt, rt.alloc(), 1_000_000, end);
    expect_output_by(&rt, rt.alloc(), &input, &output, 2, 0);
}

#[test]
fn one_call_more_than_may_be_unfinished(rt: HostRuntime) {
    // Each waits for the one before it; the 1,025th finds the board busy.
    let input = input_of(&rt, rt.alloc(), b"a 0.00 0.00\nbegin\n", 1_025, b"");
    let output = output_of(&rt, rt.alloc(), 1_025, b"a 0.00 10.25\ntotal 10.25\n");
    for workers in [0, 1, 4, 16] {
        expect_output_by(&rt, rt.alloc(), &input, &output, 2, workers);
    }
}
