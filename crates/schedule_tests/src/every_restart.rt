//! Two workers of one replica. The replica restarts at every place, or the sequencer does.
use crate::worlds::{event_of, replies, stands_at, world_of};
use sb_calls::Reply;
use schedule_player::{AuditNote, World};
use std::alloc::Global;
use std::process::Abort;

// Four entries come to the replica, and its workers execute them, the second before the first.
const EVENTS: [&str; 22] = [
    "ask 1 1 deposit alice 1.00",
    "ask 1 2 deposit bob 1.00",
    "ask 1 3 amalgamate alice bob",
    "ask 1 4 balance alice",
    "send 0 1",
    "send 0 2",
    "send 0 3",
    "send 0 4",
    "to 0 1",
    "to 0 2",
    "to 0 3",
    "to 0 4",
    "take 0 1 1",
    "take 0 2 0",
    "finish 0 1",
    "take 0 1 0",
    "finish 0 2",
    "take 0 1 0",
    "take 0 2 0",
    "finish 0 1",
    "take 0 1 0",
    "finish 0 1",
];

// Every hand is emptied, and then each entry is sent once more and executed.
const TAIL: [&str; 18] = [
    "finish 0 1",
    "finish 0 2",
    "send 0 1",
    "to 0 5",
    "take 0 1 0",
    "finish 0 1",
    "send 0 2",
    "to 0 6",
    "take 0 1 0",
    "finish 0 1",
    "send 0 3",
    "to 0 7",
    "take 0 1 0",
    "finish 0 1",
    "send 0 4",
    "to 0 8",
    "take 0 1 0",
    "finish 0 1",
];

// Plays these events, whatever the notes on them.
fn all_happen(rt: &impl Abort, world: &mut World, lines: &[&str]) {
    for line in lines {
        let event = event_of(rt, line);
        assert!(rt; world.step(event).is_ok(), "{line}");
    }
}

// Plays those of the extra events that belong at this place.
fn put_in(rt: &impl Abort, world: &mut World, events: &[(usize, &str)], here: usize) {
    for (place, line) in events {
        if *place == here {
            all_happen(rt, world, &[line]);
        }
    }
}

// Whatever was put in, all four are executed once, in the order of the log.
fn ends_as_ever(rt: &impl Abort, world: &World) {
    stands_at(rt, world, 0, 4, true);
    for number in 1..=3 {
        replies(rt, world, 0, number, Some(Reply::Done));
    }
    replies(rt, world, 0, 4, Some(Reply::Shown(0)));
    assert!(rt; world.replicas() > 0);
    let columns = world.columns(0).expect(rt, "columns");
    assert!(rt; columns.savings() == [0, 0, 1_000].as_slice());
    assert!(rt; columns.checking() == [0, 17_200, 0].as_slice());
    assert!(rt; world.audit(0, 0) == Ok(AuditNote::Same(18_200, 0)));
}

// Plays the events, each extra one before the event of its place, and then the tail.
fn plays_with(rt: &impl Abort, alloc: Global, more: &[(usize, &str)]) {
    let mut world = world_of(rt, alloc, 1, 2);
    for (place, line) in EVENTS.iter().enumerate() {
        put_in(rt, &mut world, more, place);
        all_happen(rt, &mut world, &[line]);
    }
    put_in(rt, &mut world, more, EVENTS.len());
    all_happen(rt, &mut world, &TAIL);
    ends_as_ever(rt, &world);
}

#[test]
fn a_restart_or_a_crash_at_every_place(rt: HostRuntime) {
    for place in 0..=EVENTS.len() {
        plays_with(&rt, rt.alloc(), &[(place, "crash 0")]);
        plays_with(&rt, rt.alloc(), &[(place, "restart 0")]);
        for mark in ["mark 0 ok", "mark 0 old", "mark 0 new"] {
            plays_with(&rt, rt.alloc(), &[(place, mark), (place, "restart 0")]);
        }
    }
}

#[test]
fn a_restart_at_every_place_after_a_cut(rt: HostRuntime) {
    for cut in 0..=EVENTS.len() {
        for mark in cut..=EVENTS.len() {
            let more = [(cut, "cut 0"), (mark, "mark 0 ok"), (mark, "restart 0")];
            plays_with(&rt, rt.alloc(), &more);
        }
    }
}

// Checks that this many events settle the replica.
fn settles(rt: &impl Abort, world: &mut World, events: u32) {
    assert!(rt; world.replicas() > 0);
    assert!(rt; world.settle(0) == events);
    ends_as_ever(rt, world);
}

#[test]
fn a_replica_is_settled_with_two_hands_full(rt: HostRuntime) {
    let mut world = world_of(&rt, rt.alloc(), 1, 2);
    all_happen(&rt, &mut world, &EVENTS[..14]);
    stands_at(&rt, &world, 0, 4, false);
    // Two workers finish, and then two entries are taken and finished.
    settles(&rt, &mut world, 6);
    settles(&rt, &mut world, 2);
}
