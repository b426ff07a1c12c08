//! Entries in a random order, none of them more than 64 ahead.
use crate::worlds::{asks, at, sends, stands_at, world_of};
use schedule_player::{NodeEvent, Note, World};
use std::process::Abort;

const ENTRIES: u32 = 1_000;

// Takes what is held after this number, in order, until nothing is held for the next one; answers
// the last taken.
fn takes_what_is_held(rt: &impl Abort, world: &mut World, after: u32) -> u32 {
    assert!(rt; after <= ENTRIES);
    for number in after + 1..=ENTRIES {
        let note = world.step(at(0, NodeEvent::Next));
        if note == Ok(Note::Nothing) {
            return number - 1;
        }
        assert!(rt; note == Ok(Note::Accepted(u64::from(number))));
    }
    assert!(rt; world.step(at(0, NodeEvent::Next)) == Ok(Note::Nothing));
    ENTRIES
}

// An entry comes after this many were accepted; answers how many are now.
fn comes(rt: &impl Abort, world: &mut World, position: u32, accepted: u32) -> u32 {
    assert!(rt; accepted < ENTRIES);
    let note = world.step(at(0, NodeEvent::To { position }));
    if position > accepted + 1 {
        assert!(rt; note == Ok(Note::Held(u64::from(position))));
        return accepted;
    }
    assert!(rt; note == Ok(Note::Accepted(u64::from(position))));
    takes_what_is_held(rt, world, position)
}

// The next number of a linear generator.
pub(crate) fn step(random: u32) -> u32 {
    ((u64::from(random) * 75 + 74) % 65_537) as u32
}

// Any of the next 64 entries comes at a time, so some come again before their turn.
#[test]
fn a_thousand_entries_in_disorder(rt: HostRuntime) {
    let mut world = world_of(&rt, rt.alloc(), 1, 1);
    asks(&rt, &mut world, ENTRIES, "deposit alice 0.01");
    sends(&rt, &mut world, ENTRIES);
    let mut random = 1;
    let mut accepted = 0;
    for _ in 0..60_000 {
        random = step(random);
        let ahead = random % 64;
        if accepted < ENTRIES && ahead < ENTRIES - accepted {
            accepted = comes(&rt, &mut world, accepted + 1 + ahead, accepted);
        }
    }
    assert!(rt; accepted == ENTRIES);
    stands_at(&rt, &world, 0, 1_000, false);
}
