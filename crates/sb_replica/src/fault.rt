//! Why a replica didn't do what was requested.
ghost use Rattle.std.specs.Prelude.{◌≡◌};
ghost use Rattle.sb_replica.specs.Restarting.{of_store_fault};
ghost use Rattle.sb_replica.specs.inner.FaultConversions.{adopt_fault_of, restart_fault_of};
ghost use Rattle.sb_replica.specs.declared.fault.AdoptFault.TheVariants as adopt;
ghost use Rattle.sb_replica.specs.declared.fault.RestartFault.TheVariants as restart;

use sb_checkpoint::{CheckpointFault, StoreFault};
use sb_frames::{FrameFault, StreamFault};
use std::alloc::AllocError;
use thiserror::Error;

/// Why bytes weren't received, or a held entry wasn't accepted. The replica is as it was.
#[derive(Clone, Copy, Debug, PartialEq, Eq, Error, Drop)]
pub enum ReplicaFault {
    /// The bytes are not one whole frame.
    #[error("bad frame: {0}")]
    BadFrame(FrameFault),
    /// Memory was refused.
    #[error("out of memory")]
    OutOfMemory,
}

/// Why receiving a stream stopped. All that was received before stays.
#[derive(Clone, Copy, Debug, PartialEq, Eq, Error, Drop)]
pub enum ReceiveFault {
    /// The stream failed, and fails from then on. Everything that it handed out was received.
    #[error("{0}")]
    Stream(StreamFault),
    /// Memory was refused for an entry. It still stands in the stream, with all that is behind it.
    #[error("out of memory")]
    OutOfMemory,
}

/// Why a mark failed. All but the store is as it was, the cut too.
#[derive(Clone, Copy, Debug, PartialEq, Eq, Error, Drop)]
pub enum MarkFault {
    /// An entry that the mark covers is unfinished. The store wasn't touched.
    #[error("busy")]
    Busy,
    /// The store's device failed. It holds the whole old checkpoint or the whole new one.
    #[error("device fault")]
    Device,
    /// Memory was refused. The store holds the old checkpoint.
    #[error("out of memory")]
    OutOfMemory,
}

/// Why a replica can't use what its store holds. All but the store is as it was.
#[derive(Clone, Copy, Debug, PartialEq, Eq, Error, Drop)]
pub enum RestartFault {
    /// The store's device failed.
    #[error("device fault")]
    Device,
    /// The store's bytes aren't a checkpoint of this bank.
    #[error("bad checkpoint: {0}")]
    BadCheckpoint(CheckpointFault),
    /// Memory was refused.
    #[error("out of memory")]
    OutOfMemory,
}

impl From<AllocError> for RestartFault {
    ghost from_gives = { λ _ fault. fault ≡ restart.OutOfMemory };

    fn from(_: AllocError) -> RestartFault {
        RestartFault::OutOfMemory
    }
}

impl From<StoreFault> for RestartFault {
    ghost from_gives = { λ fault answer. answer ≡ of_store_fault fault };

    fn from(fault: StoreFault) -> RestartFault {
        match fault {
            StoreFault::Device => RestartFault::Device,
            StoreFault::OutOfMemory => RestartFault::OutOfMemory,
        }
    }
}

impl From<CheckpointFault> for RestartFault {
    ghost from_gives = { λ fault answer. answer ≡ restart_fault_of fault };

    fn from(fault: CheckpointFault) -> RestartFault {
        match fault {
            CheckpointFault::OutOfMemory => RestartFault::OutOfMemory,
            _ => RestartFault::BadCheckpoint(fault),
        }
    }
}

/// Why another replica's state wasn't adopted. The replica is as it was.
#[derive(Clone, Copy, Debug, PartialEq, Eq, Error, Drop)]
pub enum AdoptFault {
    /// The bytes aren't a checkpoint of this bank.
    #[error("bad checkpoint: {0}")]
    BadCheckpoint(CheckpointFault),
    /// Memory was refused.
    #[error("out of memory")]
    OutOfMemory,
}

impl From<AllocError> for AdoptFault {
    ghost from_gives = { λ _ fault. fault ≡ adopt.OutOfMemory };

    fn from(_: AllocError) -> AdoptFault {
        AdoptFault::OutOfMemory
    }
}

impl From<CheckpointFault> for AdoptFault {
    ghost from_gives = { λ fault answer. answer ≡ adopt_fault_of fault };

    fn from(fault: CheckpointFault) -> AdoptFault {
        match fault {
            CheckpointFault::OutOfMemory => AdoptFault::OutOfMemory,
            _ => AdoptFault::BadCheckpoint(fault),
        }
    }
}
