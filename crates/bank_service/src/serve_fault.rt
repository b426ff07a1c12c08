//! Why a bank isn't served.
ghost use Rattle.std.specs.Prelude.{◌≡◌};
ghost use Rattle.bank_server.specs.inner.RunFaults.{run_of_crew_fault, run_of_read_fault};
ghost use Rattle.bank_service.specs.inner.StepFaults.{serve_of_turn_fault};
ghost use Rattle.bank_server.specs.declared.fault.RunFault.TheVariants.{Device, OutOfMemory};
ghost use Rattle.bank_service.specs.declared.serve_fault.ServeFault.TheVariants.{Log, Run};

use bank_server::{RunFault, TurnFault};
use cown_workers::CrewFault;
use sb_log::LogFault;
use sb_text::ReadFault;
use std::alloc::{AllocError, AllocFailed};
use std::io;
use thiserror::Error;

/// Why a bank isn't served, or why serving it ends.
#[derive(Clone, Copy, Debug, PartialEq, Eq, Error)]
pub enum ServeFault {
    /// A fault that a run has too: the opening is at fault, a follower strayed, the crew is gone, a
    /// device failed, or memory was refused.
    #[error(transparent)]
    Run(RunFault),
    /// What the store gave back isn't what was put.
    #[error("read back")]
    ReadBack,
    /// No checkpoint can be put into the store's folder. The server didn't listen.
    #[error("the store's folder takes no file")]
    Store,
    /// Another server has this store. The server didn't listen.
    #[error("store: in use")]
    StoreInUse,
    /// Another program listens at this port.
    #[error("port {0} is taken")]
    PortTaken(u16),
    /// The log can't be read or kept. What clients were told is in its file.
    #[error("log: {0}")]
    Log(LogFault),
    /// The input is another opening than the log's. The log keeps all its asks; a torn rest may be
    /// cut off.
    #[error("log: another opening")]
    AnotherOpening,
}

impl From<RunFault> for ServeFault {
    ghost from_gives = { λ run fault. fault ≡ Run run };

    fn from(run: RunFault) -> ServeFault {
        ServeFault::Run(run)
    }
}

impl From<ReadFault> for ServeFault {
    ghost from_gives = { λ read fault. fault ≡ Run (run_of_read_fault read) };

    fn from(read: ReadFault) -> ServeFault {
        ServeFault::Run(RunFault::from(read))
    }
}

impl From<CrewFault> for ServeFault {
    ghost from_gives = { λ crew fault. fault ≡ Run (run_of_crew_fault crew) };

    fn from(crew: CrewFault) -> ServeFault {
        ServeFault::Run(RunFault::from(crew))
    }
}

impl From<TurnFault> for ServeFault {
    ghost from_gives = { λ turn fault. fault ≡ serve_of_turn_fault turn };

    fn from(turn: TurnFault) -> ServeFault {
        match turn {
            TurnFault::Crew(crew) => ServeFault::from(crew),
            TurnFault::Log(log) => ServeFault::Log(log),
        }
    }
}

impl From<LogFault> for ServeFault {
    ghost from_gives = { λ log fault. fault ≡ Log log };

    fn from(log: LogFault) -> ServeFault {
        ServeFault::Log(log)
    }
}

impl From<AllocError> for ServeFault {
    ghost from_gives = { λ _ fault. fault ≡ Run OutOfMemory };

    fn from(_: AllocError) -> ServeFault {
        ServeFault::Run(RunFault::OutOfMemory)
    }
}

impl<T: Drop> From<AllocFailed<T>> for ServeFault {
    ghost from_gives = { λ _ fault. fault ≡ Run OutOfMemory };

    fn from(_: AllocFailed<T>) -> ServeFault {
        ServeFault::Run(RunFault::OutOfMemory)
    }
}

impl From<io::Error> for ServeFault {
    ghost from_gives = { λ _ fault. fault ≡ Run Device };

    fn from(_: io::Error) -> ServeFault {
        ServeFault::Run(RunFault::Device)
    }
}
