//! Boards that are drained by crews of one thread.
use crate::bank::{board_of, has_balances, replies};
use crate::crews::{LastFirstCrew, OneJobCrew, StrangeCrew, StuckCrew};
use cown_board::Board;
use cown_workers::{Crew, CrewGone, InlineCrew, drain};
use sb_calls::{Op, Reply};
use std::alloc::Global;
use std::process::Abort;

// Three calls that share bob's checking, and one that shares nothing.
const CALLS: [&str; 4] = [
    "deposit bob 5.00",
    "amalgamate alice bob",
    "balance bob",
    "balance carol",
];

// Alice's 150.00 join bob's 20.00 and 5.00.
const REPLIES: [Option<Reply>; 4] = [
    Some(Reply::Done),
    Some(Reply::Done),
    Some(Reply::Shown(17_500)),
    Some(Reply::Shown(1_000)),
];

// The balances of the three after the calls above.
const SAVINGS: [i64; 3] = [0, 0, 1_000];

const CHECKING: [i64; 3] = [0, 17_500, 0];

// Checks that a crew executes what the board has. Then nothing is left to do.
fn carries_out(rt: &impl Abort, alloc: Global, crew: &mut impl Crew) {
    let mut board = board_of(rt, alloc, &CALLS);
    for _ in 0..2 {
        assert!(rt; drain(&mut *board, crew) == Ok(()));
        assert!(rt; replies(&board, &REPLIES));
        assert!(rt; has_balances(&board, SAVINGS, CHECKING));
    }
}

#[test]
fn crews_of_one_thread_drain_a_board(rt: HostRuntime) {
    carries_out(&rt, rt.alloc(), &mut InlineCrew);
    carries_out(&rt, rt.alloc(), &mut OneJobCrew::new());
    // The first and the fourth are ready at once; the others wait for one another.
    let mut crew = LastFirstCrew::of(rt.alloc(), 4).expect(&rt, "memory");
    carries_out(&rt, rt.alloc(), &mut crew);
    assert!(rt; crew.handed_over() == [4, 1, 2, 3].as_slice());
}

// Checks that the crew gives up, with these replies to what was finished.
fn gives_up(
    rt: &impl Abort,
    board: &mut Board<Op>,
    crew: &mut impl Crew,
    wanted: &[Option<Reply>],
) {
    assert!(rt; drain(board, crew) == Err(CrewGone));
    assert!(rt; board.final_columns().is_none());
    assert!(rt; replies(board, wanted));
}

// A crew that hands over the result of another board's op.
fn stranger(rt: &impl Abort, alloc: Global) -> StrangeCrew {
    let mut other = board_of(rt, alloc, &["balance carol"]);
    let job = other.take_at(0).expect(rt, "a ready one");
    StrangeCrew::with(job.run())
}

// The first crew hands back the deposit and keeps the amalgamation, so the balance of bob isn't
// shown. What is out stays out: no crew can help.
#[test]
fn a_crew_that_loses_a_job_leaves_what_was_finished(rt: HostRuntime) {
    let mut board = board_of(&rt, rt.alloc(), &CALLS);
    let wanted = [Some(Reply::Done), None, None, Some(Reply::Shown(1_000))];
    gives_up(&rt, &mut board, &mut StuckCrew::after(1), &wanted);
    gives_up(&rt, &mut board, &mut InlineCrew, &wanted);
    let mut board = board_of(&rt, rt.alloc(), &["balance alice"]);
    let mut crew = stranger(&rt, rt.alloc());
    gives_up(&rt, &mut board, &mut crew, &[None]);
}
