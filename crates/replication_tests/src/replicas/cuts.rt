//! Checkpoints of a cut, while later entries run.
use super::marks::AFTER_A_DEPOSIT;
use super::*;

#[test]
fn a_mark_of_a_cut_while_another_entry_is_out(rt: HostRuntime) {
    plays(
        &rt,
        &[
            Step::AcceptUpTo(1, "deposit alice 1.00"),
            Step::Cut(Ok(1)),
            Step::Cut(Err(CutFault::Pending(1))),
            Step::Mark(Err(MarkFault::Busy)),
            Step::AcceptUpTo(2, "deposit alice 2.00"),
            Step::Run(1, Reply::Done),
            Step::Take(2),
            Step::Mark(Ok(1)),
            Step::Stored(Some(&AFTER_A_DEPOSIT)),
            // The cut is gone, so the next mark covers both.
            Step::Mark(Err(MarkFault::Busy)),
            Step::Finish(Reply::Done),
            Step::Restart(Ok(1)),
            Step::Ends(1, [5_100, 2_000, 0]),
        ],
    );
}

#[test]
fn a_cut_outlasts_a_mark_that_fails(rt: HostRuntime) {
    plays(
        &rt,
        &[
            Step::AcceptUpTo(1, "deposit alice 1.00"),
            Step::Run(1, Reply::Done),
            Step::Cut(Ok(1)),
            Step::AcceptUpTo(2, "deposit alice 2.00"),
            Step::Run(2, Reply::Done),
            Step::Tell(How::Old),
            Step::Mark(Err(MarkFault::Device)),
            Step::Mark(Ok(1)),
            Step::Restart(Ok(1)),
            Step::Ends(1, [5_100, 2_000, 0]),
        ],
    );
}
