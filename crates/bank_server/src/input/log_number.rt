//! The number of a call in a log.
ghost use Rattle.std.specs.Prelude.{◌≡◌};
ghost use Rattle.bank_server.specs.LogNumber.{IsLogNumber};

use std::marker::Model;

/// The number of a call in a log, from 1 to [`sb_calls::LOG_CALLS`], in four bytes.
#[derive(Clone, Copy, Debug, PartialEq, Eq)]
pub struct LogNumber {
    number: u32,
}

impl Model for LogNumber {
    ghost use Rattle.std.specs.Prelude.{ℕ};
    ghost use Rattle.bank_server.specs.LogNumber.{IsLogNumber};

    ghost Value = { ℕ };

    ghost view = { λ n. n.number };

    ghost invariant = { λ n. IsLogNumber n.number };

    ghost inverse = { λ v. record { number = v } };
}

impl LogNumber {
    /// This number, which is one of a log.
    pub fn new(number: u64) -> LogNumber
        requires { IsLogNumber number }
        ensures { result ≡ number }
    {
        LogNumber {
            number: number as u32,
        }
    }

    /// The number.
    pub fn value(self) -> u32
        ensures value { result ≡ self }
        ensures within { IsLogNumber self }
    {
        self.number
    }
}
