//! Why the program ends without its output.
ghost use Rattle.std.specs.Prelude.{◌≡◌, ◌↔◌, IsTrue};
ghost use Rattle.bank_program.specs.Faults.{IsOfDevice, IsTold, line_at_fault};
ghost use Rattle.bank_program.specs.inner.ListingFaults.{fault_of_listing};
ghost use Rattle.bank_program.specs.declared.fault.ProgramFault.TheVariants.{Ask, Run};

use ask_client::AskFault;
use bank_server::RunFault;
use bank_service::{ListFault, ServeFault};
use checkpoint_text::CheckpointListFault;
use sb_checkpoint::CheckpointFault;
use schedule_player::ScheduleFault;
use thiserror::Error;

/// Why a program ends without its output.
#[derive(Clone, Copy, Debug, PartialEq, Eq, Error)]
pub enum ProgramFault {
    /// A run failed.
    #[error(transparent)]
    Run(RunFault),
    /// A strict run's input has a last line that doesn't end as lines do. Nothing was executed.
    #[error("the last line does not end with a line feed")]
    UnendedLine,
    /// Playing a schedule failed.
    #[error(transparent)]
    Play(ScheduleFault),
    /// Serving a bank failed.
    #[error(transparent)]
    Serve(ServeFault),
    /// Listing a log, or cutting it, failed.
    #[error(transparent)]
    Log(ListFault),
    /// A file has no checkpoint, or one of another bank.
    #[error("checkpoint: {0}")]
    Checkpoint(CheckpointFault),
    /// Asking a served bank failed.
    #[error(transparent)]
    Ask(AskFault),
}

impl ProgramFault {
    /// Whether the fault was told where its file is known.
    pub fn is_told(&self) -> bool
        ensures { IsTrue result ↔ IsTold self.now }
    {
        matches!(
            self,
            ProgramFault::Serve(ServeFault::Log(_))
                | ProgramFault::Log(ListFault::Log(_) | ListFault::Rest)
        )
    }
}

impl ProgramFault {
    /// The number of the input's line that is at fault, if one is.
    pub fn line(&self) -> Option<usize>
        ensures { result ≡ line_at_fault self.now }
    {
        match self {
            ProgramFault::Run(RunFault::Input { line, .. })
            | ProgramFault::Serve(ServeFault::Run(RunFault::Input { line, .. }))
            | ProgramFault::Play(ScheduleFault::Input { line, .. }) => Some(*line),
            ProgramFault::Ask(AskFault::Line { line, .. }) => Some(*line as usize),
            _ => None,
        }
    }

    /// Whether a device failed, whose name and error the fault doesn't have.
    pub fn is_of_device(&self) -> bool
        ensures { IsTrue result ↔ IsOfDevice self.now }
    {
        matches!(
            self,
            ProgramFault::Run(RunFault::Device)
                | ProgramFault::Play(ScheduleFault::Device)
                | ProgramFault::Serve(
                    ServeFault::Run(RunFault::Device) | ServeFault::ReadBack | ServeFault::Store
                )
                | ProgramFault::Log(ListFault::Device)
                | ProgramFault::Ask(
                    AskFault::Input | AskFault::Output | AskFault::Connection | AskFault::End
                )
        )
    }
}

impl From<RunFault> for ProgramFault {
    ghost from_gives = { λ run fault. fault ≡ Run run };

    fn from(fault: RunFault) -> ProgramFault {
        ProgramFault::Run(fault)
    }
}

impl From<ScheduleFault> for ProgramFault {
    fn from(fault: ScheduleFault) -> ProgramFault {
        ProgramFault::Play(fault)
    }
}

impl From<ServeFault> for ProgramFault {
    fn from(fault: ServeFault) -> ProgramFault {
        ProgramFault::Serve(fault)
    }
}

impl From<ListFault> for ProgramFault {
    fn from(fault: ListFault) -> ProgramFault {
        ProgramFault::Log(fault)
    }
}

impl From<CheckpointListFault> for ProgramFault {
    ghost from_gives = { λ listing fault. fault ≡ fault_of_listing listing };

    fn from(fault: CheckpointListFault) -> ProgramFault {
        match fault {
            CheckpointListFault::Checkpoint(fault) => ProgramFault::Checkpoint(fault),
            CheckpointListFault::Device => ProgramFault::Run(RunFault::Device),
            CheckpointListFault::OutOfMemory => ProgramFault::Run(RunFault::OutOfMemory),
        }
    }
}

impl From<AskFault> for ProgramFault {
    ghost from_gives = { λ asking fault. fault ≡ Ask asking };

    fn from(fault: AskFault) -> ProgramFault {
        ProgramFault::Ask(fault)
    }
}
