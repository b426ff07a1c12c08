//! Why a batch isn't told over a connection.
ghost use Rattle.std.specs.Prelude.{◌≡◌};
ghost use Rattle.ask_client.specs.declared.talk_fault.TalkFault.TheVariants.{OutOfMemory};

use std::alloc::AllocError;
use thiserror::Error;

/// Why some calls of a batch have no outcome after it was asked over a connection. Those before them
/// have theirs.
#[derive(Clone, Copy, Debug, PartialEq, Eq, Error)]
pub enum TalkFault {
    /// The connection failed, or ended. Over another one the rest can be asked again.
    #[error("connection")]
    Connection,
    /// Bytes came that are no outcome of the next ask.
    #[error("unexpected")]
    Unexpected,
    /// Memory was refused.
    #[error("out of memory")]
    OutOfMemory,
}

impl From<AllocError> for TalkFault {
    ghost from_gives = { λ _ fault. fault ≡ OutOfMemory };

    fn from(_: AllocError) -> TalkFault {
        TalkFault::OutOfMemory
    }
}
