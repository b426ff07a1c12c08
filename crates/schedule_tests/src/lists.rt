//! Lists of events, played.
use crate::event_lists::events_of;
use crate::worlds::{event_of, stands_at, world_of};
use sb_calls::Reply;
use schedule_player::{AuditNote, Event, Note, World, play, play_lines};
use schedule_text::push_note;
use std::alloc::Global;
use std::process::Abort;

// Plays the events that these lines spell, and compares their notes.
fn plays(rt: &impl Abort, alloc: Global, world: &mut World, lines: &[&str], wanted: &[Note]) {
    let mut events: Vec<Event> = Vec::new(alloc);
    for line in lines {
        events.push(event_of(rt, line)).expect(rt, "memory");
    }
    let notes = play(alloc, world, &events).ok().expect(rt, "memory");
    assert!(rt; notes.as_slice() == wanted);
}

const LINES: [&str; 7] = [
    "ask 1 1 balance bob",
    "send 0 1",
    "to 0 1",
    "to 0 2",
    "take 0 1 0",
    "finish 0 1",
    "audit 0 0",
];

const NOTES: [Note; 7] = [
    Note::New(1),
    Note::Sent(1),
    Note::Accepted(1),
    Note::Nothing,
    Note::Took(1),
    Note::Finished(1, Reply::Shown(2_000)),
    Note::Audit(AuditNote::Same(18_000, 0)),
];

#[test]
fn the_notes_of_all_events_in_order(rt: HostRuntime) {
    let mut world = world_of(&rt, rt.alloc(), 1, 1);
    plays(&rt, rt.alloc(), &mut world, &LINES, &NOTES);
}

#[test]
fn the_lines_of_all_notes_in_order(rt: HostRuntime) {
    let mut world = world_of(&rt, rt.alloc(), 1, 1);
    let events = events_of(&rt, rt.alloc(), &LINES);
    let mut wanted = Vec::from_slice(rt.alloc(), b"before\n").expect(&rt, "memory");
    for note in NOTES {
        push_note(note, &mut wanted).expect(&rt, "memory");
    }
    let mut out = Vec::from_slice(rt.alloc(), b"before\n").expect(&rt, "memory");
    assert!(rt; play_lines(&mut world, &events, &mut out) == Ok(()));
    assert!(rt; out.as_slice() == wanted.as_slice());
    stands_at(&rt, &world, 0, 1, true);
}
