//! The faults of bytes read as a checkpoint.
ghost use Rattle.std.specs.Prelude.{◌≡◌};
ghost use Rattle.sb_checkpoint.specs.declared.fault.CheckpointFault.TheVariants.{OutOfMemory};

use std::alloc::AllocError;
use thiserror::Error;

/// Why bytes aren't accepted as a checkpoint: the first fault in this order. Memory may be refused
/// in place of any fault from `OutOfRange` on.
#[derive(Clone, Copy, Debug, PartialEq, Eq, Error)]
pub enum CheckpointFault {
    /// The first eight bytes, or as many as there are, begin neither layout.
    #[error("bad magic")]
    BadMagic,
    /// There are fewer bytes than a head has, or than it states.
    #[error("short")]
    Short,
    /// The checkpoint is of a bank with another number of customers.
    #[error("wrong customers")]
    WrongCustomers,
    /// A balance is past the limit.
    #[error("out of range")]
    OutOfRange,
    /// A savings balance is below 0.
    #[error("negative savings")]
    NegativeSavings,
    /// The total isn't the sum of the balances.
    #[error("wrong total")]
    WrongTotal,
    /// The checkpoint is of a bank with another opening total.
    #[error("wrong opening")]
    WrongOpening,
    /// A reply's code is above 7, its total is past the range of two balances, or there is a total
    /// in a reply that shows none.
    #[error("bad reply")]
    BadReply,
    /// There are more replies than a log has calls, or more bytes than the head states.
    #[error("long")]
    Long,
    /// Memory was refused; nothing is kept.
    #[error("out of memory")]
    OutOfMemory,
}

impl From<AllocError> for CheckpointFault {
    ghost from_gives = { λ _ fault. fault ≡ OutOfMemory };

    fn from(_refused: AllocError) -> CheckpointFault {
        CheckpointFault::OutOfMemory
    }
}
