//! States: the checkpoint of one replica, adopted by another.
use super::marks::{AFTER_A_DEPOSIT, AFTER_FIVE_CALLS};
use super::*;
use crate::checkpoints::{CHECKING, FIRST, FIRST_HEAD, REPLIES, SAVINGS, SECOND_HEAD, TOTAL};

// The first 120 bytes of the checkpoint after five calls, in the first layout.
const SHORT: [&str; 5] = [
    FIRST_HEAD,
    SAVINGS,
    CHECKING,
    TOTAL,
    "00 0000000000003a98 01 0000000000000000 01 0000000000000000 01 0000000000000000 01 00000000000000",
];

// The checkpoint after five calls of a bank whose opening total is one cent more.
const ANOTHER_BANKS: [&str; 6] = [
    SECOND_HEAD,
    SAVINGS,
    CHECKING,
    TOTAL,
    "0000000000004651",
    REPLIES,
];

// One entry is finished and stored, another two are held, and there is a cut.
#[test]
fn a_state_is_adopted(rt: HostRuntime) {
    plays(
        &rt,
        &[
            Step::AcceptUpTo(1, "deposit alice 1.00"),
            Step::Run(1, Reply::Done),
            Step::Mark(Ok(1)),
            Step::Cut(Ok(1)),
            Step::ReceiveEntry(3, "deposit alice 3.00", Heard::Held(3)),
            Step::ReceiveEntry(7, "deposit alice 7.00", Heard::Held(7)),
            Step::Adopt(&AFTER_FIVE_CALLS, Ok(Adopted::Adopted(5))),
            Step::Ends(5, [0, 2_500, 0]),
            Step::ReplyTo(1, Some(Reply::Shown(15_000))),
            Step::ReplyTo(2, Some(Reply::Done)),
            Step::ReplyTo(5, Some(Reply::Done)),
            Step::ReplyTo(6, None),
            Step::Stored(Some(&AFTER_A_DEPOSIT)),
            Step::ReceiveEntry(5, "deposit alice 5.00", Heard::Repeat(5)),
            // Nothing is held.
            Step::Advance(None),
            Step::AcceptUpTo(6, "savings carol 4.00"),
            Step::Advance(None),
            Step::Run(6, Reply::Done),
            Step::Adopt(&AFTER_FIVE_CALLS, Ok(Adopted::Behind(6))),
            Step::Length(6),
            // There is no cut.
            Step::Cut(Ok(6)),
            Step::Restart(Ok(1)),
            Step::Ends(1, [5_100, 2_000, 0]),
        ],
    );
}

// The next mark puts it in the second layout.
#[test]
fn a_state_in_the_first_layout_is_adopted(rt: HostRuntime) {
    let short = CheckpointFault::Short;
    let wrong = CheckpointFault::WrongOpening;
    plays(
        &rt,
        &[
            Step::Adopt(&SHORT, Err(AdoptFault::BadCheckpoint(short))),
            Step::Adopt(&ANOTHER_BANKS, Err(AdoptFault::BadCheckpoint(wrong))),
            Step::Length(0),
            Step::Adopt(&FIRST, Ok(Adopted::Adopted(5))),
            Step::Ends(5, [0, 2_500, 0]),
            Step::Adopt(&FIRST, Ok(Adopted::Behind(5))),
            Step::Mark(Ok(5)),
            Step::Stored(Some(&AFTER_FIVE_CALLS)),
        ],
    );
}

#[test]
fn a_replica_has_no_state_of_no_entry(rt: HostRuntime) {
    plays(
        &rt,
        &[
            Step::GivesState(None),
            Step::HaveFrame(0),
            Step::Mark(Ok(0)),
            Step::GivesState(None),
            Step::HaveFrame(0),
            Step::AcceptUpTo(1, "deposit alice 1.00"),
            Step::GivesState(None),
            Step::Run(1, Reply::Done),
            Step::Mark(Ok(1)),
            Step::AcceptUpTo(2, "deposit alice 1.00"),
            Step::GivesState(Some((1, &AFTER_A_DEPOSIT))),
            Step::Length(2),
            Step::Stored(Some(&AFTER_A_DEPOSIT)),
        ],
    );
}
