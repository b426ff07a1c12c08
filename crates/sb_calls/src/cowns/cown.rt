//! Cowns: the only access to a balance.
ghost use Rattle.std.specs.Prelude.{◌≡◌};
ghost use Rattle.sb_calls.specs.Cowns.{savings_cown, checking_cown};

use std::marker::Model;

/// The only access to the balance that it protects (When Concurrency Matters, OOPSLA 2023).
///
/// Cown `2i` is the savings and cown `2i + 1` the checking balance of the customer at place `i`.
#[derive(Clone, Copy, Debug, Default, PartialEq, Eq)]
pub struct Cown {
    id: usize,
}

impl Model for Cown {
    ghost use Rattle.std.specs.Prelude.{ℕ};

    ghost Value = { ℕ };

    ghost view = { λ c. c.id };

    ghost inverse = { λ v. record { id = v } };
}

impl Cown {
    /// The cown with this id.
    pub fn new(id: usize) -> Cown
        ensures { result ≡ id }
    {
        Cown { id }
    }

    /// The cown of the savings of the customer at a place.
    pub fn savings(place: u32) -> Cown
        ensures { result ≡ savings_cown place }
    {
        Cown {
            id: 2 * place as usize,
        }
    }

    /// The cown of the checking balance of the customer at a place.
    pub fn checking(place: u32) -> Cown
        ensures { result ≡ checking_cown place }
    {
        Cown {
            id: 2 * place as usize + 1,
        }
    }

    /// Its id.
    pub fn id(self) -> usize
        ensures { result ≡ self }
    {
        self.id
    }
}
