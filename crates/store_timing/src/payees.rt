//! Who gets the deposits.
ghost use Rattle.std.specs.Prelude.{◌≡◌, ◌<◌};
ghost use Rattle.store_timing.specs.Deposits.{payee_of};

/// The number of customers of a bank whose board is drained: as many as calls may be unfinished at
/// once, so that deposits to all of them share no cown.
pub const PAYEES: u32 = 1_024;

/// Who gets the deposits.
#[derive(Clone, Copy)]
pub enum Payees {
    /// One customer: each deposit waits for the one before.
    One,
    /// The next customer each time: none of 1,024 deposits waits.
    Many,
}

impl Payees {
    /// The place of the payee of a call; the first call is number 0.
    pub fn place(self, call: u32) -> u32
        ensures { result ≡ payee_of self call }
    {
        match self {
            Payees::One => 0,
            Payees::Many => call % PAYEES,
        }
    }
}
