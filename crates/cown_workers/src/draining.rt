//! Draining a board.
ghost use Rattle.std.specs.Prelude.{◌≡◌, ◌≢◌, ◌<◌, ◌≤◌, List, true, false, IsOk, OnOk, OnErr, MatchResult};
ghost use Rattle.cown_board.specs.Board.{unfinished_of};
ghost use Rattle.cown_workers.specs.Draining.{TakesSteps, AwaitsCrew, CrewStep, PreservesLog, IsDrained, EndsInVain, IsInVain, HasNoneOut, HasNoneReady};
ghost use Rattle.cown_workers.specs.inner.DrainSteps.{HasExchanges, waiting_count};

use crate::crew::{Crew, CrewGone};
use cown_board::Runs;

/// Gives each ready op to the crew and takes back results, until nothing is unfinished. An op that
/// the crew hands back is executed here. It allocates nothing.
///
/// The first ready op is given first. The crew is asked only once nothing is ready, and each result
/// that it hands over is finished.
///
/// Fails if something is unfinished and the crew has no more results, or handed over one that isn't
/// out. What was finished before stays finished, with its reply. A crew that keeps no job never
/// causes this failure, if nothing was out before.
pub fn drain<R: Runs, C: Crew>(runs: &mut R, crew: &mut C) -> Result<(), CrewGone>
    ensures exchanged { (steps : List CrewStep) × (TakesSteps C.acts crew.old steps crew.new × MatchResult result
        (λ done. IsDrained (R.board runs.old) steps (R.board runs.new))
        (λ gone. EndsInVain (R.board runs.old) steps (R.board runs.new))) }
    ensures ok { OnOk result (unfinished_of (R.board runs.new) ≡ 0) }
    ensures crew_lost { OnErr result (unfinished_of (R.board runs.new) ≢ 0) }
    ensures log { PreservesLog (R.board runs.old) (R.board runs.new) }
    ensures succeeds { C.keeps ≡ false → HasNoneOut (R.board runs.old) → IsOk result }
    ensures rest { R.rest runs.new ≡ R.rest runs.old }
{
    loop {
        give_ready(runs, crew);
        if runs.idle() {
            return Ok(());
        }
        finish_next(runs, crew)?;
    }
}

// Gives everything that is ready, and what becomes ready meanwhile.
fn give_ready<R: Runs, C: Crew>(runs: &mut R, crew: &mut C)
    ensures exchanged { HasExchanges C.acts crew.old crew.new (R.board runs.old) (R.board runs.new) }
    ensures log { PreservesLog (R.board runs.old) (R.board runs.new) }
    ensures unfinished { unfinished_of (R.board runs.new) ≤ unfinished_of (R.board runs.old) }
    ensures none_ready { HasNoneReady (R.board runs.new) }
    ensures none_out { C.keeps ≡ false → HasNoneOut (R.board runs.old) → HasNoneOut (R.board runs.new) }
    ensures rest { R.rest runs.new ≡ R.rest runs.old }
{
    while give_first(runs, crew) {}
}

// Gives the first ready op, and returns whether there was one. If it comes back, it is executed
// here.
fn give_first<R: Runs, C: Crew>(runs: &mut R, crew: &mut C) -> bool
    ensures exchanged { HasExchanges C.acts crew.old crew.new (R.board runs.old) (R.board runs.new) }
    ensures given { result ≡ true → waiting_count (R.board runs.new) < waiting_count (R.board runs.old) }
    ensures none_ready { result ≡ false → HasNoneReady (R.board runs.new) }
    ensures log { PreservesLog (R.board runs.old) (R.board runs.new) }
    ensures unfinished { unfinished_of (R.board runs.new) ≤ unfinished_of (R.board runs.old) }
    ensures none_out { C.keeps ≡ false → HasNoneOut (R.board runs.old) → HasNoneOut (R.board runs.new) }
    ensures rest { R.rest runs.new ≡ R.rest runs.old }
{
    let Some(job) = runs.take_at(0) else {
        return false;
    };
    if let Err(back) = crew.give(job) {
        let finished = runs.finish(back.run()).is_ok();
        // It has been out since it was taken, on the inputs that it has.
        prove!(finished);
    }
    true
}

// Takes a result from the crew, and finishes it.
fn finish_next<R: Runs, C: Crew>(runs: &mut R, crew: &mut C) -> Result<(), CrewGone>
    requires { AwaitsCrew (R.board runs.old) }
    ensures exchanged { MatchResult result
        (λ finished. HasExchanges C.acts crew.old crew.new (R.board runs.old) (R.board runs.new))
        (λ gone. (last : CrewStep) × (C.acts crew.old last crew.new × IsInVain (R.board runs.old) last)) }
    ensures ok { OnOk result (unfinished_of (R.board runs.new) < unfinished_of (R.board runs.old)) }
    ensures crew_lost { OnErr result (R.board runs.new ≡ R.board runs.old) }
    ensures log { PreservesLog (R.board runs.old) (R.board runs.new) }
    ensures none_out { C.keeps ≡ false → HasNoneOut (R.board runs.old) → HasNoneOut (R.board runs.new) }
    ensures rest { R.rest runs.new ≡ R.rest runs.old }
{
    let Some(done) = crew.next() else {
        return Err(CrewGone);
    };
    match runs.finish(done) {
        Ok(_) => Ok(()),
        Err(_) => Err(CrewGone),
    }
}
