//! Hooks around each job that a crew executes.
ghost use Rattle.std.specs.Prelude.{◌≡◌, Bool, true, false};
ghost use Rattle.cown_workers.specs.Draining.{IsResultOf};

use cown_board::{Done, Job};
use sb_calls::Op;

/// Workers call this in their threads for each job that they execute. It may delay a worker.
pub trait Gate {
    /// Whether it may admit the owner of a board. It never does unless an impl says otherwise.
    ghost admits: { Self → Bool } = { λ gate. false };

    /// Whether the owner of a board is one more worker while it waits for its crew. Then the
    /// owner's jobs pass the gate too.
    fn admits_owner(&self) -> bool
        ensures { result ≡ true → admits self.now ≡ true }
    {
        false
    }

    /// A worker is about to execute the job with this number.
    fn before(&self, number: u64);

    /// The worker has executed it, but hasn't handed it over yet.
    fn after(&self, number: u64);
}

/// The open gate, which admits the owner too. It does nothing.
#[derive(Clone, Copy, Debug, Default)]
pub struct OpenGate;

impl Gate for OpenGate {
    ghost admits = { λ gate. true };

    fn admits_owner(&self) -> bool {
        true
    }

    fn before(&self, _number: u64) {}

    fn after(&self, _number: u64) {}
}

// Executes a job between the two calls of a gate.
pub(crate) fn run_at_gate<G: Gate>(gate: &G, job: Job<Op>) -> Done<Op>
    ensures { IsResultOf result job }
{
    gate.before(job.number());
    let done = job.run();
    // The number is the result's, so the gate isn't told before there is a result.
    gate.after(done.number());
    done
}
