//! Frames between the sequencer and its replicas.
use crate::worlds::{accepts, all_happen, asks, stands_at, world_of};
use schedule_player::Note;

#[test]
fn a_resend_sends_what_was_not_heard_of(rt: HostRuntime) {
    let mut world = world_of(&rt, rt.alloc(), 2, 1);
    all_happen(&rt, &mut world, &[("resend 0", Note::Resent(0))]);
    asks(&rt, &mut world, 17, "deposit alice 1.00");
    all_happen(&rt, &mut world, &[("resend 0", Note::Resent(16))]);
    accepts(&rt, &mut world, 16);
    all_happen(
        &rt,
        &mut world,
        &[
            ("to 0 17", Note::Nothing),
            // The sequencer has received nothing of it yet.
            ("resend 0", Note::Resent(16)),
            ("to 0 32", Note::Repeat(16)),
            ("ack 0", Note::Sent(1)),
            ("from 1 1", Note::Nothing),
            ("from 0 1", Note::Recorded(16)),
            ("resend 0", Note::Resent(1)),
            ("to 0 33", Note::Accepted(17)),
            ("ack 0", Note::Sent(2)),
            ("from 0 2", Note::Recorded(17)),
            // What the other one sends changes nothing for it.
            ("ack 1", Note::Sent(1)),
            ("from 1 1", Note::Recorded(0)),
            ("resend 0", Note::Resent(0)),
            ("resend 1", Note::Resent(16)),
            ("to 1 16", Note::Held(16)),
            // An old length arrives again.
            ("from 0 1", Note::Recorded(16)),
            ("resend 0", Note::Resent(1)),
        ],
    );
    stands_at(&rt, &world, 0, 17, false);
    stands_at(&rt, &world, 1, 0, true);
}
