//! The schedule that a text spells.
use crate::event_lists::are_events;
use crate::worlds::at;
use sb_calls::Call;
use sb_checkpoint::How;
use sb_rows::Name;
use schedule_text::{Event, NodeEvent, Schedule, read_schedule};
use std::alloc::Global;
use std::process::Abort;

const TEXT: &str = "nodes 16 workers 16\nalice 100.00 50.00\nbob 0.00 -20.00\nbegin\n\
    ask 0 1 balance alice\nsend 0 1\nmark 1 new\nrestart 1";

// The schedule that a text spells.
fn read(rt: &impl Abort, alloc: Global, text: &str) -> Box<Schedule> {
    let schedule = read_schedule(alloc, text.as_bytes()).expect(rt, "a schedule");
    Box::new(alloc, schedule).expect(rt, "memory")
}

// Checks a schedule's numbers of replicas, workers, customers and events.
fn has_counts(
    rt: &impl Abort,
    schedule: &Schedule,
    (nodes, workers): (u8, u8),
    others: [usize; 2],
) {
    assert!(rt; schedule.nodes == nodes, "{nodes}");
    assert!(rt; schedule.workers == workers, "{workers}");
    assert!(rt; [schedule.directory.len(), schedule.events.len()] == others);
}

// Checks the customers of the schedule, and their balances.
fn has_alice_and_bob(rt: &impl Abort, schedule: &Schedule) {
    assert!(rt; schedule.directory.name(0) == Name::new(b"alice"));
    assert!(rt; schedule.directory.name(1) == Name::new(b"bob"));
    assert!(rt; schedule.columns.savings() == [10_000, 0].as_slice());
    assert!(rt; schedule.columns.checking() == [5_000, -2_000].as_slice());
}

#[test]
fn reads_a_head_an_opening_and_events(rt: HostRuntime) {
    let schedule = read(&rt, rt.alloc(), TEXT);
    has_counts(&rt, &schedule, (16, 16), [2, 4]);
    has_alice_and_bob(&rt, &schedule);
    let alice = Name::new(b"alice").expect(&rt, "a name");
    let ask = Event::Ask {
        client: 0,
        request: 1,
        call: Call::Balance(alice),
    };
    let send = at(0, NodeEvent::Send { number: 1 });
    let mark = at(1, NodeEvent::Mark { how: How::New });
    let restart = at(1, NodeEvent::Restart);
    let wanted = [ask, send, mark, restart];
    are_events(&rt, &schedule.events, &wanted);
}
