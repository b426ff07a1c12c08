//! The crew of one thread.
ghost use Rattle.std.specs.Prelude.{false};
ghost use Rattle.cown_workers.specs.Draining.{KeepsNoJob};

use crate::crew::Crew;
use cown_board::{Done, Job};
use sb_calls::Op;

/// A crew without workers: each job comes back at once, so whoever gives it executes it in place.
#[derive(Clone, Copy, Debug, Default)]
pub struct InlineCrew;

impl Crew for InlineCrew {
    ghost keeps = { false };

    ghost acts = { λ old step new. KeepsNoJob step };

    fn keeps(&self) -> bool {
        false
    }

    fn give(&mut self, job: Job<Op>) -> Result<(), Job<Op>> {
        Err(job)
    }

    fn next(&mut self) -> Option<Done<Op>> {
        None
    }
}
