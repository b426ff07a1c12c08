//! Lists of events, made and walked.
use crate::worlds::event_of;
use schedule_text::{Event, Events};
use std::alloc::Global;
use std::process::Abort;

// A line of each event, and some asks and appends with different calls among them.
const LINES: [&str; 27] = [
    "ask 7 2 deposit bob 10.00",
    "ask 4294967295 0 savings alice -0.01",
    "send 0 5",
    "resend 1",
    "to 2 6",
    "ack 3",
    "ask 1 1 pay alice bob 0.50",
    "append 8 4294967295 check bob 0.25",
    "sync",
    "crash 17",
    "answer 4 7",
    "from 5 8",
    "take 6 16 9",
    "finish 7 1",
    "mark 8 old",
    "mark 8 ok",
    "restart 9",
    "cut 10",
    "next 11",
    "have 12",
    "donor 13",
    "give 14 15",
    "adopt 15 4294967295",
    "audit 3 2",
    "ask 7 3 balance carol",
    "append 7 4 balance dave",
    "mark 8 new",
];

// Checks that these are the events of a list, in order.
pub(crate) fn are_events(rt: &impl Abort, events: &Events, wanted: &[Event]) {
    assert!(rt; events.len() == wanted.len());
    assert!(rt; events.is_empty() == wanted.is_empty());
    let mut left = events.walk();
    for (index, event) in wanted.iter().enumerate() {
        assert!(rt; left.len() == wanted.len() - index);
        assert!(rt; left.next() == Some(*event), "{index}");
    }
    assert!(rt; left.next() == None);
    assert!(rt; left.len() == 0);
}

// The events that these lines spell.
pub(crate) fn events_of(rt: &impl Abort, alloc: Global, lines: &[&str]) -> Events {
    let mut events = Events::new(alloc);
    for line in lines {
        assert!(rt; events.push(event_of(rt, line)) == Ok(()), "{line}");
    }
    events
}

#[test]
fn each_event_comes_back(rt: HostRuntime) {
    let roomy = Events::with_capacity(rt.alloc(), 3).expect(&rt, "memory");
    are_events(&rt, &roomy, &[]);
    let events = events_of(&rt, rt.alloc(), &LINES);
    let mut wanted = Vec::new(rt.alloc());
    for line in &LINES {
        wanted.push(event_of(&rt, line)).expect(&rt, "memory");
    }
    are_events(&rt, &events, &wanted);
}
