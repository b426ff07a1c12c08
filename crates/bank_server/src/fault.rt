//! Why a run ends without its output.
ghost use Rattle.std.specs.Prelude.{◌≡◌};
ghost use Rattle.bank_server.specs.inner.RunFaults.{run_of_crew_fault, run_of_opening_fault, run_of_read_fault};
ghost use Rattle.bank_server.specs.declared.fault.RunFault.TheVariants.{OutOfMemory};

use crate::followers::StrayReason;
use cown_workers::CrewFault;
use sb_calls::CallFault;
use sb_rows::{LineFault, OpeningFault};
use sb_text::ReadFault;
use std::alloc::{AllocError, AllocFailed};
use thiserror::Error;

/// What is wrong with a line of an input.
#[derive(Clone, Copy, Debug, PartialEq, Eq, Error)]
pub enum InputFault {
    /// The line belongs to the opening.
    #[error(transparent)]
    Opening(LineFault),
    /// The line is an asking line.
    #[error(transparent)]
    Call(CallFault),
}

/// Why a run ends without its output.
#[derive(Clone, Copy, Debug, PartialEq, Eq, Error)]
pub enum RunFault {
    /// A line is at fault; this is the first one. Nothing was written.
    #[error("line {line}: {fault}")]
    Input {
        /// The line's number, counted from 1.
        line: usize,
        /// What is wrong with the line.
        fault: InputFault,
    },
    /// This node, a follower, couldn't be started, or differs from node 0, for this reason. Nothing
    /// was written.
    #[error("node {0} strayed")]
    Strayed(usize, StrayReason),
    /// The workers left something unfinished. Nothing was written.
    #[error("crew gone")]
    CrewGone,
    /// A read or a write failed. Part of the output may be written.
    #[error("device")]
    Device,
    /// Memory was refused. Nothing was written.
    #[error("out of memory")]
    OutOfMemory,
}

impl From<ReadFault> for RunFault {
    ghost from_gives = { λ read fault. fault ≡ run_of_read_fault read };

    fn from(read: ReadFault) -> RunFault {
        match read {
            ReadFault::Device => RunFault::Device,
            ReadFault::OutOfMemory => RunFault::OutOfMemory,
        }
    }
}

impl From<OpeningFault> for RunFault {
    ghost from_gives = { λ opening fault. fault ≡ run_of_opening_fault opening };

    fn from(opening: OpeningFault) -> RunFault {
        match opening {
            OpeningFault::Line { line, fault } => RunFault::Input {
                line,
                fault: InputFault::Opening(fault),
            },
            OpeningFault::OutOfMemory => RunFault::OutOfMemory,
        }
    }
}

impl From<CrewFault> for RunFault {
    ghost from_gives = { λ crew fault. fault ≡ run_of_crew_fault crew };

    fn from(crew: CrewFault) -> RunFault {
        match crew {
            CrewFault::CrewGone => RunFault::CrewGone,
            CrewFault::OutOfMemory => RunFault::OutOfMemory,
        }
    }
}

impl From<AllocError> for RunFault {
    ghost from_gives = { λ _ fault. fault ≡ OutOfMemory };

    fn from(_: AllocError) -> RunFault {
        RunFault::OutOfMemory
    }
}

impl<T: Drop> From<AllocFailed<T>> for RunFault {
    ghost from_gives = { λ _ fault. fault ≡ OutOfMemory };

    fn from(_: AllocFailed<T>) -> RunFault {
        RunFault::OutOfMemory
    }
}
