//! Why a turn fails.
ghost use Rattle.std.specs.Prelude.{◌≡◌};
ghost use Rattle.cown_workers.specs.declared.crew_fault.CrewFault.TheVariants.{OutOfMemory};
ghost use Rattle.bank_server.specs.declared.session.turn_fault.TurnFault.TheVariants.{Crew, Log};

use cown_workers::CrewFault;
use sb_log::LogFault;
use std::alloc::AllocError;
use thiserror::Error;

/// Why a turn fails, which takes what has come, and has node 0 execute the log and the keeper keep
/// it. The log keeps what was numbered.
#[derive(Clone, Copy, Debug, PartialEq, Eq, Error)]
pub enum TurnFault {
    /// The crew left something unfinished, or memory was refused.
    #[error(transparent)]
    Crew(CrewFault),
    /// The log can't be kept, so no more outcomes are told and the server ends. What it told is
    /// kept.
    #[error("the log can't be kept: {0}")]
    Log(LogFault),
}

impl From<CrewFault> for TurnFault {
    ghost from_gives = { λ crew fault. fault ≡ Crew crew };

    fn from(crew: CrewFault) -> TurnFault {
        TurnFault::Crew(crew)
    }
}

impl From<LogFault> for TurnFault {
    ghost from_gives = { λ log fault. fault ≡ Log log };

    fn from(log: LogFault) -> TurnFault {
        TurnFault::Log(log)
    }
}

impl From<AllocError> for TurnFault {
    ghost from_gives = { λ _ fault. fault ≡ Crew OutOfMemory };

    fn from(_: AllocError) -> TurnFault {
        TurnFault::Crew(CrewFault::OutOfMemory)
    }
}
