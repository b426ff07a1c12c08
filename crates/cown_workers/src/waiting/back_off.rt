//! How a worker waits for the next job.
ghost use Rattle.std.specs.Prelude.{◌≤◌};

use std::time::{Clock, Duration};
use std::{hint, thread};

// How often it first only spins, and how many pauses (`spin_loop`) a spin takes. Meanwhile the
// other side runs ahead, and the two don't contend for the same cache lines.
const SPINS: u32 = 8;

const PAUSES: u32 = 32;

// How often it then yields, before it sleeps.
const YIELDS: u32 = 64;

// The microseconds of its first sleep. Each is twice as long as the one before.
const SHORTEST_MICROS: u64 = 1;

// A worker backs off no longer once its next sleep would be this long: its longest sleep takes 64
// microseconds, and then it sleeps until a signal.
const LONGEST_MICROS: u64 = 100;

// Spins for a moment.
pub(crate) fn spin() {
    for _ in 0..PAUSES {
        hint::spin_loop();
    }
}

// Waits longer each time: at first it spins, then it yields, and then it sleeps for growing times.
#[derive(Drop)]
pub(crate) struct BackOff {
    spins: u32,
    yields: u32,
    micros: u64,
    // At most a tenth of a millisecond.
    ghost short: { micros ≤ 100 },
}

impl BackOff {
    pub(crate) fn new() -> BackOff {
        BackOff {
            spins: 0,
            yields: 0,
            micros: SHORTEST_MICROS,
        }
    }

    // A job is done. Once the longest wait was reached, only a signal begins anew: a worker that
    // woke by itself sleeps again as soon as it finds nothing.
    pub(crate) fn ease(&mut self) {
        if !self.is_over() {
            *self = BackOff::new();
        }
    }

    // Whether it has reached its longest wait. Then it is time to sleep until a signal.
    pub(crate) fn is_over(&self) -> bool {
        self.micros >= LONGEST_MICROS
    }

    pub(crate) fn wait_longer<R: Clock>(&mut self, rt: &R) {
        if self.spins < SPINS {
            self.spins += 1;
            spin();
        } else if self.yields < YIELDS {
            self.yields += 1;
            thread::yield_now();
        } else {
            thread::sleep(rt, Duration::from_micros(self.micros));
            self.micros = self.micros.saturating_mul(2).min(LONGEST_MICROS);
        }
    }
}
