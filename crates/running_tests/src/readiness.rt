//! A small log on a board: by two workers, and by one through the trait.
use crate::bank::{Bank, Step, board_of, copies_its_columns};
use cown_board::{Board, OPEN_BEHAVIOURS, Runs};
use sb_calls::{Op, Reply};
use std::process::Abort;

// Two deposits that share no cown, an amalgamation after both, and a balance after that.
const FOUR: [&str; 4] = [
    "deposit alice 1.00",
    "deposit bob 1.00",
    "amalgamate alice bob",
    "balance alice",
];

#[test]
fn two_workers_run_what_is_ready(rt: HostRuntime) {
    let mut bank = Bank::open(&rt, rt.alloc());
    assert!(rt; bank.idle());
    bank.plays(
        &rt,
        &[
            Step::Submit(1, FOUR[0]),
            Step::Submit(2, FOUR[1]),
            Step::Submit(3, FOUR[2]),
            Step::Submit(4, FOUR[3]),
            // The second is taken first and comes back first; the third waits for both, and the
            // fourth for the third.
            Step::Take(1, 2),
            Step::Take(0, 1),
            Step::Finish(2, Reply::Done),
            Step::TakeNone(0),
            Step::Finish(1, Reply::Done),
            Step::TakeNone(1),
            // While the third is out, the fourth still waits for it.
            Step::Take(0, 3),
            Step::TakeNone(0),
            Step::Finish(3, Reply::Done),
            Step::Run(4, Reply::Shown(0)),
        ],
    );
    assert!(rt; bank.length() == 4);
    bank.ends_with(&rt, [0, 0, 1_000], [0, 17_200, 0]);
}

// The number of ops that are run one by one until none is ready.
fn run_all<R: Runs>(runs: &mut R) -> Result<u64, &'static str> {
    for finished in 0..OPEN_BEHAVIOURS as u64 {
        let Some(job) = runs.take_at(0) else {
            return Ok(finished);
        };
        if runs.finish(job.run()).is_err() {
            return Err("one came back");
        }
    }
    Err("too many")
}

fn is_idle<R: Runs>(runs: &R) -> bool {
    runs.idle()
}

fn replies_to_four(rt: &impl Abort, board: &Board<Op>) {
    for (number, reply) in [
        (1, Reply::Done),
        (2, Reply::Done),
        (3, Reply::Done),
        (4, Reply::Shown(0)),
    ] {
        assert!(rt; board.reply(number) == Some(reply), "{number}");
    }
}

#[test]
fn one_worker_runs_all_through_the_trait(rt: HostRuntime) {
    let mut board = board_of(&rt, rt.alloc(), &FOUR);
    assert!(rt; !is_idle(&*board));
    assert!(rt; run_all(&mut *board) == Ok(4));
    assert!(rt; is_idle(&*board));
    replies_to_four(&rt, &board);
    copies_its_columns(&rt, &board);
}
