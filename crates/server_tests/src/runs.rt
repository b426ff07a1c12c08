//! Inputs worked by hand, and random ones compared with a plain bank.
use crate::bank::{OPENING, joined};
use crate::plain;
use crate::plain::{Account, call_of, push_line, push_reply, push_rows, push_total};
use bank_server::{RunFault, run_text};
use cown_workers::OpenGate;
use std::alloc::Global;
use std::process::Abort;
use std::sync::Wait;
use std::thread::Threads;
use std::time::Clock;

// Checks that a run with this many nodes and workers ended well, and its output.
fn expect_written(
    rt: &impl Abort,
    ended: Result<(), RunFault>,
    written: &[u8],
    output: &[u8],
    nodes: usize,
    workers: usize,
) {
    let is_right = ended == Ok(()) && written == output;
    assert!(rt; is_right, "with {nodes} nodes and {workers} workers");
}

/// Runs an input with this many nodes and workers, and compares its output.
pub(crate) fn expect_output_by(
    rt: &(impl Abort + Threads + Wait + Clock + Sync),
    alloc: Global,
    input: &[u8],
    output: &[u8],
    nodes: usize,
    workers: usize,
) {
    assert!(rt; 1 <= nodes && nodes <= 16 && workers <= 16);
    let mut reader = input;
    let mut written: Vec<u8> = Vec::new(alloc);
    let ended = run_text(
        rt,
        alloc,
        &mut reader,
        &mut written,
        nodes,
        workers,
        &OpenGate,
    );
    expect_written(rt, ended, &written, output, nodes, workers);
}

// Runs an input with one, two and sixteen nodes and with none, one, four and sixteen workers, and
// compares its output.
fn expect_output(
    rt: &(impl Abort + Threads + Wait + Clock + Sync),
    alloc: Global,
    input: &[u8],
    output: &[u8],
) {
    for nodes in [1, 2, 16] {
        for workers in [0, 1, 4, 16] {
            expect_output_by(rt, alloc, input, output, nodes, workers);
        }
    }
}

// Runs an opening of three customers with these calls, and compares its output.
fn expect_after_opening(
    rt: &(impl Abort + Threads + Wait + Clock + Sync),
    alloc: Global,
    calls: &[u8],
    output: &[u8],
) {
    let input = joined(rt, alloc, &[OPENING, calls]);
    expect_output(rt, alloc, &input, output);
}

#[test]
fn no_calls(rt: HostRuntime) {
    let output = b"alice 100.00 50.00\nbob 0.00 20.00\ncarol 10.00 0.00\ntotal 180.00\n";
    expect_after_opening(&rt, rt.alloc(), b"", output);
}

#[test]
fn no_customers(rt: HostRuntime) {
    expect_output(&rt, rt.alloc(), b"begin", b"total 0.00\n");
    let output = b"1 no customer\ntotal 0.00\n";
    expect_output(&rt, rt.alloc(), b"begin\nbalance zed", output);
}

#[test]
fn deposits_at_the_limit(rt: HostRuntime) {
    let calls = b"deposit bob -0.01\ndeposit bob 9999999980.01\ndeposit bob 9999999980.00\n";
    let output = b"1 negative\n2 over limit\n3 done\nalice 100.00 50.00\n\
          bob 0.00 10000000000.00\ncarol 10.00 0.00\ntotal 10000000160.00\n";
    expect_after_opening(&rt, rt.alloc(), calls, output);
}

#[test]
fn balances_see_the_calls_before(rt: HostRuntime) {
    let calls = b"balance alice\ndeposit alice 1.00\nbalance alice\nbalance zed\n";
    let output = b"1 shown 150.00\n2 done\n3 shown 151.00\n4 no customer\nalice 100.00 51.00\n\
          bob 0.00 20.00\ncarol 10.00 0.00\ntotal 181.00\n";
    expect_after_opening(&rt, rt.alloc(), calls, output);
}

#[test]
fn five_calls_one_by_one(rt: HostRuntime) {
    let calls = b"balance alice\ndeposit bob 5.00\nsavings carol -10.00\ncheck alice 150.00\n\
          amalgamate alice bob\n";
    let output = b"1 shown 150.00\n2 done\n3 done\n4 done\n5 done\nalice 0.00 0.00\n\
          bob 0.00 25.00\ncarol 0.00 0.00\ntotal 25.00\n";
    expect_after_opening(&rt, rt.alloc(), calls, output);
}

#[test]
fn payments_from_checking_to_checking(rt: HostRuntime) {
    let calls = b"pay bob alice 20.00\npay alice bob 70.01\npay bob carol 0.01\npay zed zed 1.00\n\
          pay bob bob -1.00\npay alice bob -0.01\n";
    let output =
        b"1 done\n2 would overdraw\n3 would overdraw\n4 no customer\n5 same customer\n6 negative\n\
          alice 100.00 70.00\nbob 0.00 0.00\ncarol 10.00 0.00\ntotal 180.00\n";
    expect_after_opening(&rt, rt.alloc(), calls, output);
}

#[test]
fn a_check_one_cent_above_the_sum(rt: HostRuntime) {
    let output =
        b"1 penalised\nalice 100.00 50.00\nbob 0.00 -1.01\ncarol 10.00 0.00\ntotal 158.99\n";
    expect_after_opening(&rt, rt.alloc(), b"check bob 20.01\n", output);
}

#[test]
fn an_overdraw_of_savings(rt: HostRuntime) {
    let output =
        b"1 would overdraw\nalice 100.00 50.00\nbob 0.00 20.00\ncarol 10.00 0.00\ntotal 180.00\n";
    expect_after_opening(&rt, rt.alloc(), b"savings carol -10.01\n", output);
}

#[test]
fn unknown_and_equal_names(rt: HostRuntime) {
    let calls = b"amalgamate zed zed\namalgamate bob bob\n";
    let output = b"1 no customer\n2 same customer\nalice 100.00 50.00\nbob 0.00 20.00\n\
          carol 10.00 0.00\ntotal 180.00\n";
    expect_after_opening(&rt, rt.alloc(), calls, output);
}

#[test]
fn repeats_and_a_mismatch(rt: HostRuntime) {
    let calls = b"ask 1 1 balance alice\nask 1 1 balance alice\nask 1 1 deposit alice 1.00\n";
    let output = b"1 shown 150.00\n1 shown 150.00\nmismatch 1\nalice 100.00 50.00\n\
          bob 0.00 20.00\ncarol 10.00 0.00\ntotal 180.00\n";
    expect_after_opening(&rt, rt.alloc(), calls, output);
}

#[test]
fn keys_beside_lines_without_one(rt: HostRuntime) {
    let calls = b"deposit alice 1.00\nask 7 1 deposit alice 2.00\ndeposit alice 1.00\n\
          ask 7 1 deposit alice 2.00\nask 7 2 balance alice\nask 8 1 balance alice\n";
    let output = b"1 done\n2 done\n3 done\n2 done\n4 shown 154.00\n5 shown 154.00\n\
          alice 100.00 54.00\nbob 0.00 20.00\ncarol 10.00 0.00\ntotal 184.00\n";
    expect_after_opening(&rt, rt.alloc(), calls, output);
}

// Appends five hundred random calls, and the replies to them.
fn push_calls(
    rt: &impl Abort,
    accounts: &mut [Account],
    input: &mut Vec<u8>,
    output: &mut Vec<u8>,
) {
    let mut seed = 1u64;
    for number in 1..501u32 {
        seed = seed
            .wrapping_mul(6_364_136_223_846_793_005)
            .wrapping_add(1_442_695_040_888_963_407);
        let call = call_of(seed);
        push_line(rt, call, input);
        push_reply(rt, number, call, accounts, output);
    }
}

#[test]
fn as_a_plain_bank(rt: HostRuntime) {
    let mut accounts = plain::opened(&rt, rt.alloc());
    let mut input = Vec::new(rt.alloc());
    let mut output = Vec::new(rt.alloc());
    push_rows(&rt, &accounts, &mut input);
    input
        .extend_from_slice(b"begin\n")
        .expect(&rt, "memory for a line");
    push_calls(&rt, &mut accounts, &mut input, &mut output);
    push_rows(&rt, &accounts, &mut output);
    push_total(&rt, &accounts, &mut output);
    expect_output(&rt, rt.alloc(), &input, &output);
}
