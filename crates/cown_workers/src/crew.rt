//! Executors of ops.
ghost use Rattle.std.specs.Prelude.{◌≡◌, Bool, false, IfErr, IsErr, MatchResult};
ghost use Rattle.cown_workers.specs.Draining.{CrewStep, Kept, CameBack, HandedOver};

use cown_board::{Done, Job};
use sb_calls::Op;
use thiserror::Error;

/// Something is unfinished, and the crew has no more results, or handed over one that the board
/// refused. What was finished before stays finished.
#[derive(Clone, Copy, Debug, PartialEq, Eq, Error, Drop)]
#[error("crew gone")]
pub struct CrewGone;

/// Takes jobs, and hands over their results.
///
/// The trait doesn't say when, or in which order. The owner of the board tests what comes back.
pub trait Crew {
    /// Whether a crew of this type may keep a job that it is given.
    ghost keeps: { Bool };

    /// What it may do at one exchange, from the state before to the state after. A crew with
    /// nothing to say lets this always hold.
    ghost acts: { Self → CrewStep → Self → Type 0 };

    /// Whether it may keep a job that it is given. A crew that may not hands each back, and never
    /// will keep one.
    fn keeps(&self) -> bool
        ensures { result ≡ keeps };

    /// Gives it a job to execute. A job that it doesn't take comes back unchanged.
    fn give(&mut self, job: Job<Op>) -> Result<(), Job<Op>>
        ensures same { IfErr result (λ back. back ≡ job) }
        ensures hands_back { keeps ≡ false → IsErr result }
        ensures acts { MatchResult result
            (λ kept. acts self.old (Kept job) self.new)
            (λ back. acts self.old (CameBack job) self.new) };

    /// The next result, or `None` if no more comes.
    fn next(&mut self) -> Option<Done<Op>>
        ensures acts { acts self.old (HandedOver result) self.new };
}

/// A borrowed crew is the crew itself.
impl<C: Crew> Crew for &mut C {
    ghost keeps = { C.keeps };

    ghost acts = { λ old step new. C.acts old.now step new.now };

    fn keeps(&self) -> bool {
        (**self).keeps()
    }

    fn give(&mut self, job: Job<Op>) -> Result<(), Job<Op>> {
        (**self).give(job)
    }

    fn next(&mut self) -> Option<Done<Op>> {
        (**self).next()
    }
}
