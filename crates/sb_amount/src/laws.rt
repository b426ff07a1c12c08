//! The limit as a number, and how long money text is.
ghost use Rattle.std.specs.Prelude.{◌≡◌, ◌≤◌, pos, length};
ghost use Rattle.sb_amount.specs.Money.{money};

use crate::cents::LIMIT;

/// The limit of amounts and balances is 10,000,000,000.00, in cents.
pub fn limits()
    ensures limit { LIMIT ≡ pos 1000000000000 }
{}

/// The money text of a number of cents takes at most 21 bytes.
#[inline]
pub fn totals_are_short(cents: i64)
    ensures { length (money cents) ≤ 21 }
{}
