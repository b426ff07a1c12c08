//! Entries that a replica receives.
use super::*;

#[test]
fn each_entry_is_accepted_in_its_turn(rt: HostRuntime) {
    plays(
        &rt,
        &[
            Step::ReceiveEntry(2, "deposit bob 1.00", Heard::Held(2)),
            Step::ReceiveEntry(1, "deposit alice 1.00", Heard::Accepted(1)),
            Step::ReceiveEntry(1, "deposit alice 1.00", Heard::Repeat(1)),
            Step::ReceiveEntry(2, "deposit bob 1.00", Heard::Accepted(2)),
            // The entry that was held for its number isn't accepted a second time.
            Step::Advance(None),
            Step::Run(1, Reply::Done),
            Step::Run(2, Reply::Done),
            Step::Ends(2, [5_100, 2_100, 0]),
        ],
    );
    plays(
        &rt,
        &[
            Step::ReceiveEntry(65, "deposit bob 1.00", Heard::Gap(0)),
            Step::ReceiveEntry(2, "amalgamate alice bob", Heard::Held(2)),
            Step::Advance(None),
            Step::AcceptUpTo(1, "deposit alice 1.00"),
            Step::Advance(Some(Heard::Accepted(2))),
            Step::Run(1, Reply::Done),
            Step::Run(2, Reply::Done),
            Step::Ends(2, [0, 17_100, 0]),
        ],
    );
}

#[test]
fn an_entry_waits_while_too_many_are_unfinished(rt: HostRuntime) {
    let line = "deposit alice 0.01";
    plays(
        &rt,
        &[
            Step::AcceptUpTo(1_024, line),
            Step::ReceiveEntry(1_025, line, Heard::Busy(1_024)),
            Step::ReceiveEntry(1_026, line, Heard::Held(1_026)),
            Step::Run(1, Reply::Done),
            Step::ReceiveEntry(1_025, line, Heard::Accepted(1_025)),
            Step::Advance(Some(Heard::Busy(1_025))),
        ],
    );
}
