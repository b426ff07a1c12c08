//! Inputs at fault.
use crate::bank::expect;
use crate::faults::expect_text;
use bank_server::{InputFault, RunFault, run_text};
use cown_workers::OpenGate;
use sb_calls::CallFault;
use sb_rows::LineFault;
use std::alloc::Global;
use std::process::Abort;
use std::sync::Wait;
use std::thread::Threads;
use std::time::Clock;

/// Runs an input that is at fault, and compares its fault and the fault's text.
pub(crate) fn expect_fault(
    rt: &(impl Abort + Threads + Wait + Clock + Sync),
    alloc: Global,
    input: &[u8],
    line: usize,
    fault: InputFault,
    text: &str,
) {
    let mut reader = input;
    let mut written: Vec<u8> = Vec::new(alloc);
    let ended = run_text(rt, alloc, &mut reader, &mut written, 1, 0, &OpenGate);
    expect(rt, written.is_empty(), text);
    expect(rt, ended == Err(RunFault::Input { line, fault }), text);
    expect_text(rt, alloc, &RunFault::Input { line, fault }, text);
}

const OPENINGS: &[(&str, usize, LineFault, &str)] = &[
    ("", 1, LineFault::NoBegin, "line 1: no begin"),
    ("bob 0.00", 1, LineFault::BadLine, "line 1: bad line"),
    ("Bob 0.00 0.00\n", 1, LineFault::BadName, "line 1: bad name"),
    (
        "bob 0.00 1.00\nbob 2.00 3.00\nbegin\n",
        2,
        LineFault::DoubleName,
        "line 2: double name",
    ),
    ("bob 0 0.00\n", 1, LineFault::BadMoney, "line 1: bad money"),
    (
        "bob -0.01 0.00",
        1,
        LineFault::NegativeSavings,
        "line 1: negative savings",
    ),
];

#[test]
fn openings_at_fault(rt: HostRuntime) {
    for (input, line, fault, text) in OPENINGS {
        let fault = InputFault::Opening(*fault);
        expect_fault(&rt, rt.alloc(), input.as_bytes(), *line, fault, text);
    }
}

const CALLS: &[(&str, usize, CallFault, &str)] = &[
    (
        "begin\n\n",
        2,
        CallFault::UnknownVerb,
        "line 2: unknown verb",
    ),
    (
        "begin\nsend bob 1.00\n",
        2,
        CallFault::UnknownVerb,
        "line 2: unknown verb",
    ),
    (
        "a 0.00 0.00\nbegin\nbalance a\nbalance a b\n",
        4,
        CallFault::WrongWords,
        "line 4: wrong words",
    ),
    (
        "begin\nbalance A\n",
        2,
        CallFault::BadName,
        "line 2: bad name",
    ),
    (
        "begin\ndeposit a 1\nbalance\n",
        2,
        CallFault::BadMoney,
        "line 2: bad money",
    ),
    (
        "begin\nask 0 1 balance a\n",
        2,
        CallFault::BadNumber,
        "line 2: bad number",
    ),
];

#[test]
fn calls_at_fault(rt: HostRuntime) {
    for (input, line, fault, text) in CALLS {
        let fault = InputFault::Call(*fault);
        expect_fault(&rt, rt.alloc(), input.as_bytes(), *line, fault, text);
    }
}
