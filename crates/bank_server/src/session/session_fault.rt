//! Why a session ends before its client does.
ghost use Rattle.std.specs.Prelude.{◌≡◌};
ghost use Rattle.bank_server.specs.SessionFaults.{session_fault_number, session_of_crew_fault, session_of_turn_fault};
ghost use Rattle.bank_server.specs.declared.session.session_fault.SessionFault.TheVariants.{OutOfMemory, Log};

use super::turn_fault::TurnFault;
use cown_workers::CrewFault;
use sb_frames::FrameFault;
use sb_log::LogFault;
use std::alloc::AllocError;
use thiserror::Error;

/// Why a session ends before its client does. The log keeps what was numbered.
#[derive(Clone, Copy, Debug, PartialEq, Eq, Error)]
pub enum SessionFault {
    /// The client sent bytes that no frame begins with, or ended within a frame. All asks before
    /// were numbered, and the outcomes of those that a flush followed were sent.
    #[error("bad frame: {0}")]
    Frame(FrameFault),
    /// The client sent a frame that is neither an ask nor a flush. All asks before were numbered,
    /// and the outcomes of those that a flush followed were sent.
    #[error("unexpected frame")]
    Unexpected,
    /// The crew left something unfinished.
    #[error("crew gone")]
    CrewGone,
    /// A read or a write failed, or the session takes more than [`sb_text::READS`] reads.
    #[error("device")]
    Device,
    /// Memory was refused.
    #[error("out of memory")]
    OutOfMemory,
    /// The log can't be kept, so no more outcomes are told and the server ends. What it told is
    /// kept.
    #[error("the log can't be kept: {0}")]
    Log(LogFault),
    /// The client has as many asks since its last flush as its [`ClientLimits`](crate::ClientLimits)
    /// say, and sent one more. That one has no number; all asks before were numbered, and the outcomes
    /// of those that a flush followed were sent.
    #[error("too many asks before a flush")]
    TooMany,
}

impl SessionFault {
    /// The number of the fault, from 1 to 7 in the order of the variants.
    pub fn number(&self) -> u8
        ensures { result ≡ session_fault_number self.now }
    {
        match self {
            SessionFault::Frame(_) => 1,
            SessionFault::Unexpected => 2,
            SessionFault::CrewGone => 3,
            SessionFault::Device => 4,
            SessionFault::OutOfMemory => 5,
            SessionFault::Log(_) => 6,
            SessionFault::TooMany => 7,
        }
    }
}

impl From<CrewFault> for SessionFault {
    ghost from_gives = { λ crew fault. fault ≡ session_of_crew_fault crew };

    fn from(crew: CrewFault) -> SessionFault {
        match crew {
            CrewFault::CrewGone => SessionFault::CrewGone,
            CrewFault::OutOfMemory => SessionFault::OutOfMemory,
        }
    }
}

impl From<TurnFault> for SessionFault {
    ghost from_gives = { λ turn fault. fault ≡ session_of_turn_fault turn };

    fn from(turn: TurnFault) -> SessionFault {
        match turn {
            TurnFault::Crew(crew) => SessionFault::from(crew),
            TurnFault::Log(log) => SessionFault::Log(log),
        }
    }
}

impl From<LogFault> for SessionFault {
    ghost from_gives = { λ log fault. fault ≡ Log log };

    fn from(log: LogFault) -> SessionFault {
        SessionFault::Log(log)
    }
}

impl From<AllocError> for SessionFault {
    ghost from_gives = { λ _ fault. fault ≡ OutOfMemory };

    fn from(_: AllocError) -> SessionFault {
        SessionFault::OutOfMemory
    }
}
