//! The places of two customers.
ghost use Rattle.std.specs.Prelude.{◌≡◌, ◌≢◌, SomeIff};

use std::marker::Model;

/// The places of two different customers: a giver and a taker, or a payer and a payee.
#[derive(Clone, Copy, Debug, PartialEq, Eq)]
pub struct TwoPlaces {
    from: u32,
    to: u32,
}

impl Model for TwoPlaces {
    ghost use Rattle.std.specs.Prelude.{ℕ, ◌≢◌};

    ghost Value = { ℕ × ℕ };

    ghost view = { λ p. (p.from, p.to) };

    ghost invariant = { λ p. p.from ≢ p.to };

    ghost inverse = { λ v. record { from = v.0; to = v.1 } };
}

impl TwoPlaces {
    /// These two places, or `None` if they are the same.
    pub fn new(from: u32, to: u32) -> Option<TwoPlaces>
        ensures { SomeIff result (from ≢ to) (from, to) }
    {
        if from == to {
            None
        } else {
            Some(TwoPlaces { from, to })
        }
    }

    /// The place of the giver, or of the payer.
    pub fn from(self) -> u32
        ensures value { result ≡ self.0 }
        ensures different { self.0 ≢ self.1 }
    {
        self.from
    }

    /// The place of the taker, or of the payee.
    pub fn to(self) -> u32
        ensures value { result ≡ self.1 }
        ensures different { self.0 ≢ self.1 }
    {
        self.to
    }
}
