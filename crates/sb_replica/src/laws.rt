//! The limit of a replica's log.
ghost use Rattle.std.specs.Prelude.{◌≡◌};

use crate::replica_log::HELD_ENTRIES;

/// How far ahead an entry is held, as a number.
pub fn limits()
    ensures { HELD_ENTRIES ≡ 64 }
{}
