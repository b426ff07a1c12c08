//! Checkpoints that are put into the store.
use super::*;
use crate::checkpoints::{OPENING, SECOND};
use sb_calls::WireReply;

// The checkpoint after the five calls of the last test, by hand.
pub(crate) const AFTER_FIVE_CALLS: [&str; 6] = SECOND;

// The checkpoint after a deposit of 1.00 to alice, by hand.
pub(crate) const AFTER_A_DEPOSIT: [&str; 6] = [
    "5342434b50543032 0000000000000001 00000003",
    "0000000000002710 0000000000000000 00000000000003e8",
    "00000000000013ec 00000000000007d0 0000000000000000",
    "00000000000046b4",
    OPENING,
    "01 0000000000000000",
];

#[test]
fn a_busy_replica_leaves_its_store(rt: HostRuntime) {
    plays(
        &rt,
        &[
            Step::AcceptUpTo(1, "deposit alice 1.00"),
            Step::Mark(Err(MarkFault::Busy)),
            Step::Take(1),
            Step::Mark(Err(MarkFault::Busy)),
            Step::Stored(None),
            Step::Finish(Reply::Done),
            Step::Mark(Ok(1)),
            Step::Stored(Some(&AFTER_A_DEPOSIT)),
        ],
    );
}

#[test]
fn a_mark_after_five_calls(rt: HostRuntime) {
    let reply = WireReply::new(Reply::Done).expect(&rt, "a reply");
    plays(
        &rt,
        &[
            Step::ReceiveEntry(1, "balance alice", Heard::Accepted(1)),
            Step::Run(1, Reply::Shown(15_000)),
            Step::AcceptUpTo(2, "deposit bob 5.00"),
            Step::Run(2, Reply::Done),
            Step::AcceptUpTo(3, "savings carol -10.00"),
            Step::Run(3, Reply::Done),
            Step::AcceptUpTo(4, "check alice 150.00"),
            Step::Run(4, Reply::Done),
            Step::AcceptUpTo(5, "amalgamate alice bob"),
            Step::Run(5, Reply::Done),
            Step::Mark(Ok(5)),
            Step::Stored(Some(&AFTER_FIVE_CALLS)),
            Step::GivesState(Some((5, &AFTER_FIVE_CALLS))),
            Step::HaveFrame(5),
            Step::AckFrame(Frame::Ack {
                replica: 1,
                length: 5,
            }),
            Step::AnswerFrame(5, Some(Frame::Answer { number: 5, reply })),
            Step::AnswerFrame(6, None),
        ],
    );
}
