//! Why an opening text is refused.
ghost use Rattle.std.specs.Prelude.{◌≡◌};
ghost use Rattle.sb_rows.specs.declared.fault.OpeningFault.TheVariants.{OutOfMemory};

use std::alloc::AllocError;
use thiserror::Error;

/// The fault of a line in an opening text: the first in this order.
#[derive(Clone, Copy, Debug, PartialEq, Eq, Error)]
pub enum LineFault {
    /// The line doesn't have three words.
    #[error("bad line")]
    BadLine,
    /// The first word isn't a valid name.
    #[error("bad name")]
    BadName,
    /// An earlier line has the same name.
    #[error("double name")]
    DoubleName,
    /// An amount isn't valid money text.
    #[error("bad money")]
    BadMoney,
    /// The savings are below 0.
    #[error("negative savings")]
    NegativeSavings,
    /// It would be one more customer than a bank may have.
    #[error("too many customers")]
    TooMany,
    /// The text has no line `begin`. The fault's line is the one after the last.
    #[error("no begin")]
    NoBegin,
}

/// Why an opening text is refused.
#[derive(Clone, Copy, Debug, PartialEq, Eq, Error)]
pub enum OpeningFault {
    /// The first faulty line, numbered from 1, and its fault.
    #[error("line {line}: {fault}")]
    Line {
        /// The number of the line.
        line: usize,
        /// The line's fault.
        fault: LineFault,
    },
    /// Memory was refused; nothing is kept.
    #[error("out of memory")]
    OutOfMemory,
}

impl From<AllocError> for OpeningFault {
    ghost from_gives = { λ _ fault. fault ≡ OutOfMemory };

    fn from(_refused: AllocError) -> OpeningFault {
        OpeningFault::OutOfMemory
    }
}
