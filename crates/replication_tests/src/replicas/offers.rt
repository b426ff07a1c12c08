//! Entries that are offered to a replica: it takes those of one log in order, in whatever order they
//! come.
use super::*;
use crate::checkpoints::OPENING;

#[test]
fn entries_that_come_early_are_held(rt: HostRuntime) {
    plays(
        &rt,
        &[
            Step::Reserve(10),
            Step::Offer(65, Offered::Gap(0), 0),
            Step::Offer(64, Offered::Held(64), 0),
            Step::Offer(2, Offered::Held(2), 0),
            Step::Advance(None),
            Step::Length(0),
            Step::Offer(1, Offered::Next, 1),
            Step::Offer(1, Offered::Repeat, 1),
            Step::Offer(65, Offered::Held(65), 1),
            Step::Cut(Ok(1)),
            Step::Advance(Some(Heard::Accepted(2))),
            Step::Length(2),
            Step::Cut(Err(CutFault::Pending(1))),
            Step::Unfinished,
            Step::Run(1, Reply::NoCustomer),
            Step::Run(2, Reply::NoCustomer),
            Step::Ends(2, [5_000, 2_000, 0]),
        ],
    );
}

#[test]
fn entries_wait_while_too_many_are_unfinished(rt: HostRuntime) {
    plays(
        &rt,
        &[
            Step::OfferUpTo(1_024),
            Step::Offer(1_025, Offered::Busy(1_024), 1_024),
            Step::Offer(1_026, Offered::Held(1_026), 1_024),
            Step::Run(1, Reply::NoCustomer),
            Step::Offer(1_025, Offered::Next, 1_025),
            Step::Advance(Some(Heard::Busy(1_025))),
            Step::Length(1_025),
        ],
    );
}

// The checkpoint of the opening after 999,998 entries that were done, by hand up to its replies.
fn almost_full(rt: &(impl Abort + AllocGlobal)) -> Vec<u8> {
    let fields = [
        "5342434b50543032 00000000000f423e 00000003",
        "0000000000002710 0000000000000000 00000000000003e8",
        "0000000000001388 00000000000007d0 0000000000000000",
        OPENING,
        OPENING,
    ];
    let mut bytes = bytes(rt, &fields);
    for _ in 0..999_998 {
        assert!(rt;
            bytes
                .extend_from_slice(&[1, 0, 0, 0, 0, 0, 0, 0, 0])
                .is_ok()
        );
    }
    bytes
}

#[test]
fn no_entry_comes_after_the_millionth(rt: HostRuntime) {
    plays_over(
        &rt,
        Some(&almost_full(&rt)),
        &[
            Step::Restart(Ok(999_998)),
            Step::Offer(1_000_001, Offered::Gap(999_998), 999_998),
            Step::Offer(1_000_000, Offered::Held(1_000_000), 999_998),
            Step::Offer(999_999, Offered::Next, 999_999),
            Step::Advance(Some(Heard::Accepted(1_000_000))),
            Step::Length(1_000_000),
            Step::Offer(1_000_001, Offered::Gap(1_000_000), 1_000_000),
        ],
    );
}
