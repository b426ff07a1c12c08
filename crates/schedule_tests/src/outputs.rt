//! Schedules, played from their text to their output.
use schedule_player::{ScheduleFault, run_schedule};
use schedule_text::ScheduleLineFault;
use std::alloc::Global;
use std::process::Abort;

const OPENING: &[u8] = b"alice 100.00 50.00\nbob 0.00 20.00\ncarol 10.00 0.00\nbegin\n";

// Plays a schedule, and compares its output.
pub(crate) fn expect_output(
    rt: &impl Abort,
    alloc: Global,
    case: &str,
    schedule: &[u8],
    output: &[u8],
) {
    let mut reader = schedule;
    let mut written: Vec<u8> = Vec::new(alloc);
    let ended = run_schedule(alloc, &mut reader, &mut written);
    assert!(rt; ended == Ok(()), "{case}");
    assert!(rt; written.as_slice() == output, "{case}");
}

// Plays a head, the opening of three customers and these events, and compares the output.
pub(crate) fn expect_played(
    rt: &impl Abort,
    alloc: Global,
    case: &str,
    head: &[u8],
    events: &[u8],
    output: &[u8],
) {
    let schedule = joined(rt, alloc, &[head, OPENING, events]);
    expect_output(rt, alloc, case, &schedule, output);
}

// Plays a schedule that is at fault: nothing is written.
pub(crate) fn expect_fault(
    rt: &impl Abort,
    alloc: Global,
    schedule: &[u8],
    line: usize,
    fault: ScheduleLineFault,
) {
    let mut reader = schedule;
    let mut written: Vec<u8> = Vec::new(alloc);
    let result = run_schedule(alloc, &mut reader, &mut written);
    assert!(rt;
        result == Err(ScheduleFault::Input { line, fault }),
        "line {line}"
    );
    assert!(rt; written.is_empty());
}

// These texts, one after another.
pub(crate) fn joined(rt: &impl Abort, alloc: Global, texts: &[&[u8]]) -> Vec<u8> {
    let mut all = Vec::new(alloc);
    for text in texts {
        all.extend_from_slice(text).expect(rt, "memory");
    }
    all
}
