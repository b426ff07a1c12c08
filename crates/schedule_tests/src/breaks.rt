//! Schedules whose reader or writer fails at each place in turn.
use crate::devices::{Bytewise, Narrow};
use schedule_player::{ScheduleFault, run_schedule};
use std::alloc::Global;
use std::process::Abort;

const SCHEDULE: &[u8] = b"nodes 1 workers 1\na 1.00 2.00\nbegin\nask 1 1 balance a\n";

const OUTPUT: &[u8] = b"new 1\nreplica 0 length 0 idle\na 1.00 2.00\ntotal 3.00\n";

// Checks that nothing is written if the schedule's reader fails after this many bytes.
fn break_after(rt: &impl Abort, alloc: Global, reads: usize) {
    let left = SCHEDULE;
    let mut reader = Bytewise { left, reads };
    let mut written: Vec<u8> = Vec::new(alloc);
    let ended = run_schedule(alloc, &mut reader, &mut written);
    assert!(rt; ended == Err(ScheduleFault::Device), "{reads}");
    assert!(rt; written.is_empty());
}

// Checks what is written if the output's writer takes only this many bytes.
fn write_into(rt: &impl Abort, alloc: Global, room: usize, ends: Result<(), ScheduleFault>) {
    let mut reader = SCHEDULE;
    let taken = Vec::new(alloc);
    let mut writer = Narrow { taken, room };
    let ended = run_schedule(alloc, &mut reader, &mut writer);
    assert!(rt; ended == ends, "{room}");
    assert!(rt; Some(writer.taken.as_slice()) == OUTPUT.get(..room));
}

#[test]
fn a_read_that_fails(rt: HostRuntime) {
    for reads in 0..SCHEDULE.len() + 1 {
        break_after(&rt, rt.alloc(), reads);
    }
}

#[test]
fn a_write_that_fails(rt: HostRuntime) {
    for room in 0..OUTPUT.len() {
        write_into(&rt, rt.alloc(), room, Err(ScheduleFault::Device));
    }
    write_into(&rt, rt.alloc(), OUTPUT.len(), Ok(()));
}
