//! States: the checkpoint of one replica, taken by another in place of the log's entries.
use crate::worlds::{accepts, all_happen, asks, replies, sends, stands_at, world_of};
use sb_calls::Reply;
use schedule_player::{AuditNote, Note, World};
use std::alloc::Global;
use std::process::Abort;

// Two replicas of a bank after this many deposits, all of them done and marked at the first one.
fn with_deposits(rt: &impl Abort, alloc: Global, count: u32) -> Box<World> {
    let mut world = world_of(rt, alloc, 2, 2);
    asks(rt, &mut world, count, "deposit alice 1.00");
    sends(rt, &mut world, count);
    accepts(rt, &mut world, count);
    assert!(rt; world.replicas() == 2);
    world.settle(0);
    all_happen(
        rt,
        &mut world,
        &[("mark 0 ok", Note::Marked(u64::from(count)))],
    );
    world
}

// Checks that a state was sent to a replica, and no other one: a checkpoint in the second layout.
fn has_state(rt: &impl Abort, world: &World, replica: u32, position: u32) {
    assert!(rt; replica < world.replicas());
    let bytes = world.state(replica, position).expect(rt, "a state");
    assert!(rt; bytes.starts_with(b"SBCKPT02"));
    assert!(rt; world.state(replica, position.wrapping_add(1)).is_none());
}

#[test]
fn one_that_was_away_for_seventy_entries_catches_up(rt: HostRuntime) {
    let mut world = with_deposits(&rt, rt.alloc(), 70);
    all_happen(
        &rt,
        &mut world,
        &[
            // The last entry is beyond what is held, and a resend has sixteen.
            ("send 1 70", Note::Sent(1)),
            ("to 1 1", Note::Gap(0)),
            ("resend 1", Note::Resent(16)),
            ("donor 1", Note::Nothing),
            ("have 0", Note::Sent(1)),
            ("from 0 1", Note::Has(70)),
            ("donor 1", Note::Donor(0, 70)),
            ("give 0 1", Note::Gave(1)),
            ("adopt 1 1", Note::Adopted(70)),
            ("mark 1 ok", Note::Marked(70)),
            ("restart 1", Note::Restarted(70)),
            ("to 1 1", Note::Repeat(70)),
            ("audit 0 1", Note::Audit(AuditNote::Same(25_000, 0))),
            // It answers old numbers.
            ("answer 1 1", Note::Sent(1)),
            ("from 1 1", Note::Kept(1)),
            ("answer 1 70", Note::Sent(2)),
            ("from 1 2", Note::Kept(70)),
            // Once it has acknowledged its log it needs no state.
            ("donor 1", Note::Donor(0, 70)),
            ("ack 1", Note::Sent(3)),
            ("from 1 3", Note::Recorded(70)),
            ("donor 1", Note::Nothing),
        ],
    );
    stands_at(&rt, &world, 1, 70, true);
    replies(&rt, &world, 1, 1, Some(Reply::Done));
    replies(&rt, &world, 1, 70, Some(Reply::Done));
    replies(&rt, &world, 1, 71, None);
    has_state(&rt, &world, 1, 1);
}
