//! The limits.
ghost use Rattle.std.specs.Prelude.{◌≡◌};

use crate::asker::CONNECTIONS;

/// A client gives up after 10 connections in a row that brought no outcome.
pub fn limits()
    ensures connections { CONNECTIONS ≡ 10 }
{}
