//! Crews whose exchanges are noted.
ghost use Rattle.std.specs.Prelude.{◌≡◌, ◌≤◌, List, false, length, IsOk, OnOk, MatchResult};
ghost use Rattle.cown_board.specs.Board.{unfinished_of};
ghost use Rattle.cown_workers.specs.Draining.{CrewStep, PreservesLog, IsDrained, EndsInVain, HasNoneOut};
ghost use Rattle.cown_workers.specs.Traces.{TracesSteps};

use crate::bank::board_of;
use crate::crews::{OneJobCrew, StuckCrew};
use cown_board::Runs;
use cown_workers::{Crew, CrewGone, InlineCrew, Notice, Traced, drain, notices_of_exchanges};
use std::alloc::Global;
use std::process::Abort;

// Draining by a traced crew keeps what draining keeps, and notes the first 64 of its exchanges.
fn drain_traced<R: Runs, C: Crew>(runs: &mut R, crew: &mut Traced<C>) -> Result<(), CrewGone>
    requires { length crew.old.notices ≤ 64 }
    ensures exchanged { (steps : List CrewStep) × (TracesSteps C.acts crew.old steps crew.new × MatchResult result
        (λ done. IsDrained (R.board runs.old) steps (R.board runs.new))
        (λ gone. EndsInVain (R.board runs.old) steps (R.board runs.new))) }
    ensures ok { OnOk result (unfinished_of (R.board runs.new) ≡ 0) }
    ensures log { PreservesLog (R.board runs.old) (R.board runs.new) }
    ensures succeeds { C.keeps ≡ false → HasNoneOut (R.board runs.old) → IsOk result }
{
    notices_of_exchanges::<C>();
    drain(runs, crew)
}

// Checks how draining these calls by this crew ends, and which exchanges are noted.
fn are_noted<C: Crew + Drop>(
    rt: &impl Abort,
    alloc: Global,
    crew: C,
    lines: &[&str],
    ended: Result<(), CrewGone>,
    wanted: &[Notice],
) {
    let mut board = board_of(rt, alloc, lines);
    let mut traced = Traced::new(crew);
    assert!(rt; drain_traced(&mut *board, &mut traced) == ended);
    assert!(rt; traced.notices() == wanted);
}

const LINES: [&str; 3] = ["deposit bob 5.00", "balance bob", "balance carol"];

#[test]
fn what_a_crew_does_is_noted(rt: HostRuntime) {
    let in_place = [Notice::Back(1), Notice::Back(2), Notice::Back(3)];
    are_noted(&rt, rt.alloc(), InlineCrew, &LINES, Ok(()), &in_place);
    // It keeps the first, which the second waits for, and hands the third back.
    let kept = [
        Notice::Given(1),
        Notice::Back(3),
        Notice::Came(1),
        Notice::Given(2),
        Notice::Came(2),
    ];
    are_noted(&rt, rt.alloc(), OneJobCrew::new(), &LINES, Ok(()), &kept);
    // What isn't handed over isn't noted.
    let gone = [Notice::Given(1), Notice::Back(3)];
    let ended = Err(CrewGone);
    are_noted(&rt, rt.alloc(), StuckCrew::after(0), &LINES, ended, &gone);
}
