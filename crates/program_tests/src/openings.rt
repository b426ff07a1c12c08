//! Openings with nothing after them.
use bank_server::{InputFault, RunFault};
use bank_service::whole_opening;
use sb_rows::LineFault;
use std::alloc::Global;
use std::process::Abort;

// A line of the opening is at fault.
fn at(line: usize, fault: LineFault) -> RunFault {
    let fault = InputFault::Opening(fault);
    RunFault::Input { line, fault }
}

// This text is a whole opening of this many customers.
fn expect_whole(rt: &impl Abort, alloc: Global, text: &str, customers: usize) {
    let opening = whole_opening(alloc, text.as_bytes()).expect(rt, "an opening");
    assert!(rt; opening.directory.len() == customers);
    assert!(rt; opening.consumed == text.len());
}

// This text is at fault in this line.
fn expect_fault(rt: &impl Abort, alloc: Global, text: &str, line: usize, fault: LineFault) {
    let read = whole_opening(alloc, text.as_bytes());
    assert!(rt; read.err() == Some(at(line, fault)), "{text}");
}

#[test]
fn openings_alone(rt: HostRuntime) {
    for (text, customers) in [
        ("begin", 0),
        ("begin\n", 0),
        ("alice 100.00 50.00\nbob 0.00 20.00\nbegin", 2),
        ("alice 100.00 50.00\nbob 0.00 20.00\nbegin\n", 2),
    ] {
        expect_whole(&rt, rt.alloc(), text, customers);
    }
}

#[test]
fn openings_at_fault(rt: HostRuntime) {
    for (text, line, fault) in [
        ("", 1, LineFault::NoBegin),
        ("bob 0.00\n", 1, LineFault::BadLine),
        (
            "bob 0.00 0.00\nbob 0.00 0.00\nbegin\n",
            2,
            LineFault::DoubleName,
        ),
        ("begin\n\n", 2, LineFault::BadLine),
        ("bob 0.00 0.00\nbegin\nbalance bob\n", 3, LineFault::BadLine),
        ("bob 0.00 0.00\nbegin\n\nbegin", 3, LineFault::BadLine),
        ("bob 0.00 0.00\nbegin\n ", 3, LineFault::BadLine),
    ] {
        expect_fault(&rt, rt.alloc(), text, line, fault);
    }
}
