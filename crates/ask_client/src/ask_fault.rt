//! Why a client's run ends early.
ghost use Rattle.std.specs.Prelude.{◌≡◌};
ghost use Rattle.ask_client.specs.declared.ask_fault.AskFault.TheVariants.{OutOfMemory};

use sb_calls::CallFault;
use std::alloc::AllocError;
use thiserror::Error;

/// Why a client's run ends early. Lines of outcomes were printed up to then.
#[derive(Clone, Copy, Debug, PartialEq, Eq, Error)]
pub enum AskFault {
    /// A line is no call. The calls of all lines before it were told.
    #[error("line {line}: {fault}")]
    Line {
        /// The line's number, counted from 1.
        line: u64,
        /// What is wrong with the line.
        fault: CallFault,
    },
    /// No request number is left for the call of the line with this number. The calls of all lines
    /// before it were told.
    #[error("line {0}: no request number is left")]
    NoNumber(u64),
    /// Bytes came that are no outcome of the next ask.
    #[error("unexpected")]
    Unexpected,
    /// Several connections in a row failed, or couldn't be made, and none of them brought an outcome.
    #[error("connection")]
    Connection,
    /// The last connection failed before the server ended it. All calls were told.
    #[error("end")]
    End,
    /// A read of the input failed, or it takes more than [`sb_text::READS`] reads.
    #[error("device")]
    Input,
    /// A write of an outcome's line failed. The last lines may be printed in part, or not at all.
    #[error("device")]
    Output,
    /// Memory was refused.
    #[error("out of memory")]
    OutOfMemory,
}

impl From<AllocError> for AskFault {
    ghost from_gives = { λ _ fault. fault ≡ OutOfMemory };

    fn from(_: AllocError) -> AskFault {
        AskFault::OutOfMemory
    }
}
