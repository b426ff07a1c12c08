//! A crew without threads that has a gate.
ghost use Rattle.std.specs.Prelude.{false};
ghost use Rattle.cown_workers.specs.Draining.{KeepsNoJob};

use cown_board::{Done, Job};
use cown_workers::{Crew, Gate};
use sb_calls::Op;

/// Passes each job through the gate, and hands it back to be executed in place.
#[derive(Drop)]
pub struct InPlace<'a, G: Gate> {
    /// The gate, which is notified of each job.
    pub gate: &'a G,
}

impl<'a, G: Gate> Crew for InPlace<'a, G> {
    ghost keeps = { false };

    ghost acts = { λ old step new. KeepsNoJob step };

    fn keeps(&self) -> bool {
        false
    }

    fn give(&mut self, job: Job<Op>) -> Result<(), Job<Op>> {
        self.gate.before(job.number());
        self.gate.after(job.number());
        Err(job)
    }

    fn next(&mut self) -> Option<Done<Op>> {
        None
    }
}
