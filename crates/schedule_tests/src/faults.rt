//! Schedules at fault, and the texts of their faults.
use crate::devices::Broken;
use crate::outputs::expect_fault;
use sb_calls::CallFault;
use sb_rows::LineFault;
use schedule_player::{ScheduleFault, run_schedule};
use schedule_text::{EventFault, ScheduleLineFault, TextFault};
use std::alloc::Global;
use std::fmt::Display;
use std::process::Abort;

// A schedule, and its first line at fault.
const FAULTS: [(&str, usize, ScheduleLineFault); 8] = [
    ("", 1, ScheduleLineFault::BadHead),
    ("nodes 17 workers 1\nleave\n", 1, ScheduleLineFault::BadHead),
    ("nodes 1 workers 0\nbegin\n", 1, ScheduleLineFault::BadHead),
    (
        "nodes 1 workers 1\n",
        2,
        ScheduleLineFault::Opening(LineFault::NoBegin),
    ),
    (
        "nodes 1 workers 1\nbob 1.00 2.00\nbob 1.00 2.00\nbegin\n",
        3,
        ScheduleLineFault::Opening(LineFault::DoubleName),
    ),
    (
        "nodes 1 workers 1\nbegin\nack 0\n\nack 0",
        4,
        ScheduleLineFault::Event(EventFault::UnknownEvent),
    ),
    (
        "nodes 1 workers 1\nbegin\nack 0\ntake x y\nleave\n",
        4,
        ScheduleLineFault::Event(EventFault::WrongWords),
    ),
    (
        "nodes 1 workers 1\nbegin\nack 0\nask 1 1 deposit bob 1",
        4,
        ScheduleLineFault::Event(EventFault::Call(CallFault::BadMoney)),
    ),
];

#[test]
fn schedules_at_fault(rt: HostRuntime) {
    for (schedule, line, fault) in FAULTS {
        expect_fault(&rt, rt.alloc(), schedule.as_bytes(), line, fault);
    }
}

#[test]
fn devices_that_fail(rt: HostRuntime) {
    let alloc = rt.alloc();
    let mut written: Vec<u8> = Vec::new(alloc);
    assert!(rt; run_schedule(alloc, &mut Broken, &mut written) == Err(ScheduleFault::Device));
    assert!(rt; written.is_empty());
    let mut reader = b"nodes 1 workers 1\nbegin\n".as_slice();
    assert!(rt; run_schedule(alloc, &mut reader, &mut Broken) == Err(ScheduleFault::Device));
}

// Checks the text of a fault.
fn has_text(rt: &impl Abort, alloc: Global, fault: &impl Display, text: &str) {
    let told = fault.to_string(alloc).expect(rt, "memory");
    assert!(rt; told.as_str() == text, "{text}");
}

#[test]
fn texts_of_the_faults(rt: HostRuntime) {
    let alloc = rt.alloc();
    let (line, fault) = (3, ScheduleLineFault::Event(EventFault::UnknownEvent));
    let input = ScheduleFault::Input { line, fault };
    has_text(&rt, alloc, &input, "line 3: unknown event");
    has_text(&rt, alloc, &ScheduleFault::Device, "device");
    has_text(&rt, alloc, &ScheduleFault::OutOfMemory, "out of memory");
    has_text(&rt, alloc, &TextFault::OutOfMemory, "out of memory");
    for (fault, text) in [
        (ScheduleLineFault::BadHead, "line 7: bad head"),
        (
            ScheduleLineFault::Opening(LineFault::NoBegin),
            "line 7: no begin",
        ),
        (
            ScheduleLineFault::Event(EventFault::WrongWords),
            "line 7: wrong words",
        ),
        (
            ScheduleLineFault::Event(EventFault::BadNumber),
            "line 7: bad number",
        ),
        (
            ScheduleLineFault::Event(EventFault::Call(CallFault::BadMoney)),
            "line 7: bad money",
        ),
    ] {
        let line = 7;
        has_text(&rt, alloc, &TextFault::Line { line, fault }, text);
    }
}
