//! Why a checkpoint isn't listed.
ghost use Rattle.std.specs.Prelude.{◌≡◌};
ghost use Rattle.checkpoint_text.specs.inner.FaultConversions.{list_fault_of};
ghost use Rattle.checkpoint_text.specs.declared.fault.CheckpointListFault.TheVariants.{OutOfMemory};

use sb_checkpoint::CheckpointFault;
use std::alloc::AllocError;
use thiserror::Error;

/// Why a checkpoint isn't listed.
#[derive(Clone, Copy, Debug, PartialEq, Eq, Error)]
pub enum CheckpointListFault {
    /// The bytes aren't a checkpoint, or aren't one of this bank. It is their first fault, and never
    /// the one that memory is refused.
    #[error(transparent)]
    Checkpoint(CheckpointFault),
    /// A write failed.
    #[error("device")]
    Device,
    /// Memory was refused.
    #[error("out of memory")]
    OutOfMemory,
}

impl From<CheckpointFault> for CheckpointListFault {
    ghost from_gives = { λ fault answer. answer ≡ list_fault_of fault };

    fn from(fault: CheckpointFault) -> CheckpointListFault {
        match fault {
            CheckpointFault::OutOfMemory => CheckpointListFault::OutOfMemory,
            _ => CheckpointListFault::Checkpoint(fault),
        }
    }
}

impl From<AllocError> for CheckpointListFault {
    ghost from_gives = { λ _ fault. fault ≡ OutOfMemory };

    fn from(_: AllocError) -> CheckpointListFault {
        CheckpointListFault::OutOfMemory
    }
}
