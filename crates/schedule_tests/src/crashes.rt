//! The sequencer stops, and starts again with what is left of its log.
use crate::worlds::{all_happen, replies, stands_at, world_of};
use sb_calls::{Reply, read_call};
use schedule_player::{Note, World};
use std::process::Abort;

// Checks the call that a number has in the log.
fn calls(rt: &impl Abort, world: &World, number: u64, line: Option<&str>) {
    let call = line.map(|line| read_call(line.as_bytes()).expect(rt, "a call"));
    assert!(rt; world.call(number).copied() == call, "{number}");
}

// A replica executes an entry, marks and reports it, and then the sequencer crashes and knows nothing of that.
fn crash_after_a_report(rt: &impl Abort, world: &mut World) {
    all_happen(
        rt,
        world,
        &[
            ("ask 1 1 deposit alice 1.00", Note::New(1)),
            ("append 1 2 deposit alice 2.00", Note::New(2)),
            ("send 0 1", Note::Sent(1)),
            ("to 0 1", Note::Accepted(1)),
            ("take 0 1 0", Note::Took(1)),
            ("mark 0 ok", Note::Unfinished),
            ("finish 0 1", Note::Finished(1, Reply::Done)),
            ("mark 0 ok", Note::Marked(1)),
            ("have 0", Note::Sent(1)),
            ("answer 0 1", Note::Sent(2)),
            ("from 0 1", Note::Has(1)),
            ("from 0 2", Note::Kept(1)),
            ("donor 1", Note::Donor(0, 1)),
            ("crash 0", Note::Crashed(1)),
            ("donor 1", Note::Nothing),
            ("take 0 1 0", Note::Nothing),
        ],
    );
}

#[test]
fn replicas_outlive_the_sequencer(rt: HostRuntime) {
    let mut world = world_of(&rt, rt.alloc(), 2, 1);
    crash_after_a_report(&rt, &mut world);
    assert!(rt; world.answer_of(1, 1).is_none());
    stands_at(&rt, &world, 0, 1, true);
    replies(&rt, &world, 0, 1, Some(Reply::Done));
    all_happen(
        &rt,
        &mut world,
        &[
            // What was sent before the crash arrives after it.
            ("from 0 2", Note::Kept(1)),
            ("from 0 1", Note::Has(1)),
            ("donor 1", Note::Donor(0, 1)),
            ("restart 0", Note::Restarted(1)),
            ("give 0 1", Note::Gave(1)),
            ("adopt 1 1", Note::Adopted(1)),
            ("ask 2 1 deposit bob 5.00", Note::New(2)),
            ("resend 1", Note::Resent(2)),
            ("to 1 1", Note::Repeat(1)),
            ("to 1 2", Note::Accepted(2)),
        ],
    );
    assert!(rt; world.answer_of(1, 1) == Some(Reply::Done));
    calls(&rt, &world, 2, Some("deposit bob 5.00"));
}
