//! The limits.
ghost use Rattle.std.specs.Prelude.{◌≡◌};

use crate::input::READS;

/// An input takes at most 1,000,000,000 reads.
pub fn limits()
    ensures reads { READS ≡ 1000000000 }
{}
