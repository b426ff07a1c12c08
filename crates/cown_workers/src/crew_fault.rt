//! Why there is no crew.
ghost use Rattle.std.specs.Prelude.{◌≡◌};
ghost use Rattle.cown_workers.specs.declared.crew_fault.CrewFault.TheVariants.{OutOfMemory};

use std::alloc::AllocError;
use thiserror::Error;

/// Why a crew of threads can't be made.
#[derive(Clone, Copy, Debug, PartialEq, Eq, Error, Drop)]
pub enum CrewFault {
    /// A thread can't be started.
    #[error("crew gone")]
    CrewGone,
    /// Memory was refused.
    #[error("out of memory")]
    OutOfMemory,
}

impl From<AllocError> for CrewFault {
    ghost from_gives = { λ _ fault. fault ≡ OutOfMemory };

    fn from(_: AllocError) -> CrewFault {
        CrewFault::OutOfMemory
    }
}
