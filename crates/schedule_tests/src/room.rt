//! As many asks as the log takes.
use crate::worlds::{all_happen, asks, world_of};
use schedule_player::Note;

// How many calls the log takes.
const LOG_CALLS: u32 = 1_000_000;

#[test]
fn one_ask_more_than_the_log_takes(rt: HostRuntime) {
    let mut world = world_of(&rt, rt.alloc(), 1, 1);
    asks(&rt, &mut world, LOG_CALLS, "balance alice");
    all_happen(
        &rt,
        &mut world,
        &[
            ("ask 1 1000001 balance alice", Note::LogFull),
            // What is in the log is answered as before.
            ("ask 1 1000000 balance alice", Note::Repeat(1_000_000)),
            ("ask 1 1000000 balance bob", Note::Mismatch(1_000_000)),
            ("send 0 1000000", Note::Sent(1)),
            ("send 0 1000001", Note::Nothing),
        ],
    );
}
