//! Gates that hold a worker up.
ghost use Rattle.std.specs.Prelude.{◌≡◌, true};

use cown_workers::Gate;
use std::sync::atomic::{AtomicBool, Ordering};
use std::thread;
use std::time::{Clock, Duration};

/// Computes this many steps before each job. Steps are counted, and not time: a thread that the
/// system suspends makes no progress.
#[derive(Drop)]
pub struct ComputeGate {
    steps: u64,
    // Whether the result of some steps was 0. It is kept so that the compiler can't drop the steps.
    came_to_nothing: AtomicBool,
}

impl ComputeGate {
    /// A gate of this many steps.
    pub fn of(steps: u64) -> ComputeGate
        ensures { result.steps ≡ steps }
    {
        ComputeGate {
            steps,
            came_to_nothing: AtomicBool::new(false),
        }
    }
}

impl Gate for ComputeGate {
    ghost admits = { λ gate. true };

    // As the program's own gate does.
    fn admits_owner(&self) -> bool {
        true
    }

    fn before(&self, number: u64) {
        if after_steps(number, self.steps) == 0 {
            self.came_to_nothing.store(true, Ordering::SeqCst);
        }
    }

    fn after(&self, _number: u64) {}
}

// This many steps of a shift and a product, each of which needs the one before, so that no compiler
// can join them.
fn after_steps(number: u64, steps: u64) -> u64 {
    let mut value = number;
    for _ in 0..steps {
        value = (value ^ (value >> 32)).wrapping_mul(6_364_136_223_846_793_005);
    }
    value
}

/// Waits for a second before each job.
#[derive(Drop)]
pub struct WaitGate<'a, R: Clock> {
    /// The clock that the waits use.
    pub clock: &'a R,
}

impl<'a, R: Clock> Gate for WaitGate<'a, R> {
    ghost admits = { λ gate. true };

    // As the program's own gate does.
    fn admits_owner(&self) -> bool {
        true
    }

    fn before(&self, _number: u64) {
        thread::sleep(self.clock, Duration::from_secs(1));
    }

    fn after(&self, _number: u64) {}
}
