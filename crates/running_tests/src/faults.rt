//! The texts of faults.
use cown_board::{CutFault, SubmitFault};
use cown_workers::CrewFault;
use std::fmt::Display;
use std::process::Abort;

// Checks a fault's text.
fn is_reported(rt: &(impl Abort + AllocGlobal), fault: impl Display + Drop, words: &str) {
    let text = fault.to_string(rt.alloc()).expect(rt, "memory");
    assert!(rt; text.as_str() == words, "{words}");
}

#[test]
fn texts_of_faults(rt: HostRuntime) {
    is_reported(&rt, SubmitFault::Busy, "busy");
    is_reported(&rt, SubmitFault::LogFull, "log full");
    is_reported(&rt, SubmitFault::OutOfMemory, "out of memory");
    is_reported(&rt, CutFault::Pending(7), "pending 7");
    is_reported(&rt, CutFault::OutOfMemory, "out of memory");
    is_reported(&rt, CrewFault::CrewGone, "crew gone");
    is_reported(&rt, CrewFault::OutOfMemory, "out of memory");
}
