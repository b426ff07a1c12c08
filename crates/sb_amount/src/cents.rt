//! Amounts in whole cents.
ghost use Rattle.std.specs.Prelude.{◌≡◌, ◌+ℤ◌, SomeIff};
ghost use Rattle.sb_amount.specs.Limit.{IsWithinLimit};

use std::marker::Model;

/// The greatest size of an amount or a balance, in cents.
pub const LIMIT: i64 = 1_000_000_000_000;

/// An amount or a balance in whole cents, from `-LIMIT` to `LIMIT`. The default is 0.
#[derive(Clone, Copy, Debug, Default, PartialEq, Eq, Hash)]
pub struct Cents {
    cents: i64,
}

impl Model for Cents {
    ghost use Rattle.std.specs.Prelude.{ℤ};
    ghost use Rattle.sb_amount.specs.Limit.{IsWithinLimit};

    ghost Value = { ℤ };

    ghost view = { λ c. c.cents };

    ghost invariant = { λ c. IsWithinLimit c.cents };

    ghost inverse = { λ v. record { cents = v } };
}

impl Cents {
    /// The amount of this many cents, or `None` if that is past the limit.
    pub fn new(cents: i64) -> Option<Cents>
        ensures { SomeIff result (IsWithinLimit cents) cents }
    {
        if -LIMIT <= cents && cents <= LIMIT {
            Some(Cents { cents })
        } else {
            None
        }
    }

    /// The number of cents.
    pub fn value(self) -> i64
        ensures value { result ≡ self }
        ensures within { IsWithinLimit self }
    {
        self.cents
    }

    /// The sum of two amounts, or `None` if that is past the limit.
    pub fn plus(self, other: Cents) -> Option<Cents>
        ensures { SomeIff result (IsWithinLimit (self +ℤ other)) (self +ℤ other) }
    {
        Cents::new(self.cents + other.cents)
    }
}
