//! The limit of a bench, as a number.
ghost use Rattle.std.specs.Prelude.{◌≡◌};

use crate::bench::BENCH_CAPACITY;

/// How many Works a bench holds, as a number.
pub fn limits()
    ensures capacity { BENCH_CAPACITY ≡ 1040 }
{}
