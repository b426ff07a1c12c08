//! The texts of faults, and a session's numbers.
use crate::bank::{expect, expect_bytes};
use bank_server::{InputFault, RunFault, SaveFault, SessionFault, StrayReason, TurnFault};
use sb_calls::CallFault;
use sb_frames::FrameFault;
use sb_log::LogFault;
use sb_rows::Name;
use std::alloc::Global;
use std::fmt;
use std::process::Abort;

/// Checks the text of a fault.
pub(crate) fn expect_text(rt: &impl Abort, alloc: Global, fault: &impl fmt::Display, text: &str) {
    let shown = format!(in alloc; "{fault}").expect(rt, "memory for a text");
    expect_bytes(rt, shown.as_bytes(), text.as_bytes(), text);
}

#[test]
fn faults_of_runs(rt: HostRuntime) {
    let input = RunFault::Input {
        line: 1,
        fault: InputFault::Call(CallFault::BadName),
    };
    for (fault, text) in [
        (input, "line 1: bad name"),
        (
            RunFault::Strayed(7, StrayReason::NoThread),
            "node 7 strayed",
        ),
        (RunFault::CrewGone, "crew gone"),
        (RunFault::Device, "device"),
        (RunFault::OutOfMemory, "out of memory"),
    ] {
        expect_text(&rt, rt.alloc(), &fault, text);
    }
}

#[test]
fn reasons_of_followers(rt: HostRuntime) {
    let name = Name::new(b"carol_7").expect(&rt, "a name");
    for (reason, text) in [
        (StrayReason::NoThread, "no thread"),
        (StrayReason::OutOfMemory, "out of memory"),
        (StrayReason::Frame, "bad frame"),
        (StrayReason::Unfinished, "unfinished"),
        (StrayReason::Entry(17), "differs at entry 17"),
        (StrayReason::Customers, "differs in its customers"),
        (StrayReason::Customer(name), "differs at customer carol_7"),
    ] {
        expect_text(&rt, rt.alloc(), &reason, text);
    }
}

const OF_SESSIONS: &[(SessionFault, &str)] = &[
    (SessionFault::Unexpected, "unexpected frame"),
    (SessionFault::CrewGone, "crew gone"),
    (SessionFault::Device, "device"),
    (SessionFault::OutOfMemory, "out of memory"),
    (
        SessionFault::Log(LogFault::Damaged {
            byte: 105,
            behind: 82,
        }),
        "the log can't be kept: damaged at byte 105",
    ),
];

#[test]
fn faults_of_sessions(rt: HostRuntime) {
    for (fault, text) in OF_SESSIONS {
        expect_text(&rt, rt.alloc(), fault, text);
    }
    let turn = TurnFault::Log(LogFault::Device);
    expect_text(&rt, rt.alloc(), &turn, "the log can't be kept: device");
    let first = SessionFault::Frame(FrameFault::BadLength);
    expect(&rt, first.number() == 1, "the first number");
    expect(
        &rt,
        SessionFault::Log(LogFault::Device).number() == 6,
        "the last number",
    );
}

const OF_SAVES: &[(SaveFault, &str)] = &[
    (SaveFault::Device, "device"),
    (SaveFault::ReadBack, "read back"),
    (SaveFault::OutOfMemory, "out of memory"),
    (SaveFault::Busy, "busy"),
];

#[test]
fn faults_of_saves(rt: HostRuntime) {
    for (fault, text) in OF_SAVES {
        expect_text(&rt, rt.alloc(), fault, text);
    }
}
