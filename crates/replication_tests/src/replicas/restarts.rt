//! Replicas that go back to their checkpoint.
use super::marks::AFTER_FIVE_CALLS;
use super::*;
use crate::checkpoints::FIRST;

// A restart goes back to a checkpoint in the first layout; the next mark puts it in the second.
#[test]
fn a_restart_from_the_first_layout(rt: HostRuntime) {
    plays_over(
        &rt,
        Some(&bytes(&rt, &FIRST)),
        &[
            Step::AcceptUpTo(1, "deposit alice 1.00"),
            Step::Restart(Ok(5)),
            Step::Ends(5, [0, 2_500, 0]),
            Step::ReplyTo(1, Some(Reply::Shown(15_000))),
            Step::ReplyTo(5, Some(Reply::Done)),
            Step::Stored(Some(&FIRST)),
            Step::Mark(Ok(5)),
            Step::Stored(Some(&AFTER_FIVE_CALLS)),
            Step::Restart(Ok(5)),
            Step::Ends(5, [0, 2_500, 0]),
        ],
    );
}

// The first job is out when the replica restarts at the opening. Where it is taken again, the
// earlier one finishes it; where it waits again, the earlier one is a stranger.
#[test]
fn a_job_from_before_a_restart(rt: HostRuntime) {
    plays(
        &rt,
        &[
            Step::AcceptUpTo(1, "deposit alice 1.00"),
            Step::Take(1),
            Step::Restart(Ok(0)),
            Step::AcceptUpTo(1, "deposit alice 1.00"),
            Step::Take(1),
            Step::Finish(Reply::Done),
            Step::ComeBack,
            Step::Ends(1, [5_100, 2_000, 0]),
        ],
    );
    plays(
        &rt,
        &[
            Step::AcceptUpTo(1, "deposit alice 1.00"),
            Step::Take(1),
            Step::Restart(Ok(0)),
            Step::AcceptUpTo(1, "deposit alice 1.00"),
            // It waits again, so it isn't out.
            Step::ComeBack,
            Step::Run(1, Reply::Done),
            Step::Ends(1, [5_100, 2_000, 0]),
        ],
    );
}

#[test]
fn a_failed_put_that_left_the_old_bytes_or_the_new(rt: HostRuntime) {
    plays(
        &rt,
        &[
            Step::AcceptUpTo(1, "deposit alice 1.00"),
            Step::Run(1, Reply::Done),
            Step::Tell(How::Old),
            Step::Mark(Err(MarkFault::Device)),
            Step::Restart(Ok(0)),
            Step::ReplyTo(1, None),
            Step::AcceptUpTo(1, "deposit alice 1.00"),
            Step::Run(1, Reply::Done),
            Step::Ends(1, [5_100, 2_000, 0]),
        ],
    );
    plays(
        &rt,
        &[
            Step::AcceptUpTo(1, "deposit alice 1.00"),
            Step::Run(1, Reply::Done),
            Step::Tell(How::New),
            Step::Mark(Err(MarkFault::Device)),
            Step::Restart(Ok(1)),
            Step::ReplyTo(1, Some(Reply::Done)),
            Step::ReceiveEntry(1, "deposit alice 1.00", Heard::Repeat(1)),
            Step::Ends(1, [5_100, 2_000, 0]),
        ],
    );
}
