//! Crews of threads.
ghost use Rattle.std.specs.Prelude.{◌≡◌, ◌≤◌};
ghost use Rattle.cown_board.specs.Board.{unfinished_of};

use crate::bank::{are_same, board_of, give_all, has_balances};
use crate::gates::{CallOrder, OwnerAdmittingGate, Rendezvous};
use cown_board::{Board, OPEN_BEHAVIOURS};
use cown_workers::{Crew, Gate, InlineCrew, OpenGate, drain, with_crew};
use sb_calls::Op;
use std::alloc::Global;
use std::process::Abort;
use std::sync::Wait;
use std::thread::Threads;
use std::time::Clock;

// Alice's 150.00 join bob's 20.00 and 5.00.
const LINES: [&str; 5] = [
    "deposit bob 5.00",
    "amalgamate alice bob",
    "balance bob",
    "check bob 175.01",
    "balance carol",
];

// A board with the calls that these lines spell, drained by this many workers.
pub(crate) fn drained<R, G>(
    rt: &R,
    alloc: Global,
    workers: usize,
    gate: &G,
    lines: &[&str],
) -> Box<Board<Op>>
where
    R: Threads + Wait + Clock + Sync + Abort,
    G: Gate + Sync,
    requires at_least_one { 1 ≤ workers }
    requires limit { workers ≤ 16 }
    ensures idle { unfinished_of result.value ≡ 0 }
{
    let board = board_of(rt, alloc, lines);
    let answer = with_crew(rt, alloc, workers, gate, move |crew| {
        let mut board = board;
        let ended = drain(&mut *board, crew);
        (board, ended)
    });
    let (board, ended) = answer.expect(rt, "a crew");
    ended.expect(rt, "the crew stays");
    board
}

// Checks that two idle boards have the same replies and columns.
fn are_alike(rt: &impl Abort, one: &Board<Op>, other: &Board<Op>) {
    assert!(rt; one.length() == other.length());
    assert!(rt; (1..=one.length()).all(|number| one.reply(number) == other.reply(number)));
    let columns = one.final_columns().expect(rt, "columns");
    let others = other.final_columns().expect(rt, "columns");
    assert!(rt; are_same(columns, others));
}

// Checks that this many workers leave a board with the calls that these lines spell as one thread
// leaves it.
fn drain_as_one_does<R: Threads + Wait + Clock + Sync + Abort>(
    rt: &R,
    alloc: Global,
    workers: usize,
    lines: &[&str],
)
    requires at_least_one { 1 ≤ workers }
    requires limit { workers ≤ 16 }
{
    let mut alone = board_of(rt, alloc, lines);
    assert!(rt; drain(&mut *alone, &mut InlineCrew).is_ok());
    let together = drained(rt, alloc, workers, &OpenGate, lines);
    are_alike(rt, &alone, &together);
}

#[test]
fn workers_drain_what_is_ready_and_what_waits(rt: HostRuntime) {
    drain_as_one_does(&rt, rt.alloc(), 2, &LINES);
    drain_as_one_does(&rt, rt.alloc(), 16, &["balance zed"; OPEN_BEHAVIOURS]);
    // Each waits for the one before it, and brings bob a cent.
    drain_as_one_does(&rt, rt.alloc(), 16, &["deposit bob 0.01"; OPEN_BEHAVIOURS]);
}

// The gate doesn't admit the owner, so these are two workers.
#[test]
fn two_jobs_that_share_nothing_are_out_at_once(rt: HostRuntime) {
    for workers in [2, 16] {
        let gate = Rendezvous::default();
        carry_two_out(&rt, rt.alloc(), workers, &gate);
        assert!(rt; gate.took_place(), "{workers}");
    }
}

#[test]
fn an_owner_that_is_admitted_is_one_more_worker(rt: HostRuntime) {
    let gate = Rendezvous::default();
    carry_two_out(&rt, rt.alloc(), 1, &OwnerAdmittingGate(&gate));
    assert!(rt; gate.took_place());
}

// This many workers, and the owner if it is admitted, execute two jobs.
fn carry_two_out<R, G>(rt: &R, alloc: Global, workers: usize, gate: &G)
where
    R: Threads + Wait + Clock + Sync + Abort,
    G: Gate + Sync,
    requires at_least_one { 1 ≤ workers }
    requires limit { workers ≤ 16 }
{
    let lines = ["deposit alice 1.00", "deposit bob 1.00"];
    let board = drained(rt, alloc, workers, gate, &lines);
    assert!(rt; has_balances(&board, [10_000, 0, 1_000], [5_100, 2_100, 0]));
}

#[test]
fn a_gate_is_called_before_and_after_each_job(rt: HostRuntime) {
    let gate = CallOrder::default();
    let _board = drained(&rt, rt.alloc(), 3, &gate, &LINES[1..]);
    assert!(rt; gate.called_in_order());
}

// Nobody can let it go, since it isn't `Drop`. So a crew that calls its closure has to hand over the
// answer, and can't end with a fault.
struct KeptAnswer(u64);

#[test]
fn an_answer_that_nobody_can_let_go_comes_out(rt: HostRuntime) {
    match with_crew(&rt, rt.alloc(), 16, &OpenGate, |_| KeptAnswer(7)) {
        Ok(KeptAnswer(number)) => assert!(rt; number == 7),
        Err(_) => panic!(rt; "no crew"),
    }
}

#[test]
fn what_nobody_takes_in_holds_nobody_up(rt: HostRuntime) {
    let ended = with_crew(&rt, rt.alloc(), 2, &OpenGate, |crew| {
        give_more_than_fits(&rt, rt.alloc(), crew)
    });
    assert!(rt; ended.is_ok());
}

// Gives more than the bench and the channel hold together, and takes nothing in.
fn give_more_than_fits(rt: &impl Abort, alloc: Global, crew: &mut impl Crew) {
    for _ in 0..3 {
        let mut board = board_of(rt, alloc, &["balance zed"; OPEN_BEHAVIOURS]);
        give_all(&mut board, crew);
    }
}
