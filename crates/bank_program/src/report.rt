//! How a fault is reported.
ghost use Rattle.std.specs.Prelude.{◌≡◌};
ghost use Rattle.bank_program.specs.Faults as spec;
ghost use Rattle.bank_program.specs.Faults.{exit_status};
ghost use Rattle.bank_service.specs.ListFaults as lists;

use crate::fault::ProgramFault;
use ask_client::AskFault;
use bank_server::RunFault;
use bank_service::{ListFault, ServeFault};
use sb_log::LogFault;
use schedule_player::ScheduleFault;
use std::fmt;

/// How a fault ends the program: its exit status, and its text by `Display`. Of a follower that
/// strayed a second line says why.
#[derive(Clone, Copy, Debug, PartialEq, Eq)]
pub struct Report {
    /// 1 for an input that is refused, 3 for every other fault.
    pub status: u8,
    /// The fault.
    pub fault: ProgramFault,
}

/// The status and the text of a fault.
pub fn told(fault: ProgramFault) -> Report
    ensures status { result.status ≡ exit_status fault }
    ensures fault { result.fault ≡ fault }
{
    let status = match &fault {
        ProgramFault::Run(fault) | ProgramFault::Serve(ServeFault::Run(fault)) => run_status(fault),
        ProgramFault::Log(fault) => list_status(*fault),
        ProgramFault::UnendedLine
        | ProgramFault::Play(ScheduleFault::Input { .. })
        | ProgramFault::Checkpoint(_)
        | ProgramFault::Ask(AskFault::Line { .. } | AskFault::NoNumber(_)) => 1,
        ProgramFault::Play(ScheduleFault::Device | ScheduleFault::OutOfMemory)
        | ProgramFault::Ask(_)
        | ProgramFault::Serve(
            ServeFault::ReadBack
            | ServeFault::Store
            | ServeFault::StoreInUse
            | ServeFault::PortTaken(_)
            | ServeFault::Log(_)
            | ServeFault::AnotherOpening,
        ) => 3,
    };
    Report { status, fault }
}

// The status of a log that isn't listed.
fn list_status(fault: ListFault) -> u8
    ensures { result ≡ lists.list_status fault }
{
    match fault {
        ListFault::NoLog | ListFault::Log(LogFault::Damaged { .. }) => 1,
        ListFault::Log(LogFault::Device | LogFault::OutOfMemory | LogFault::InUse)
        | ListFault::Rest
        | ListFault::Device
        | ListFault::OutOfMemory => 3,
    }
}

// The status of a run's fault, which ends the serving of a bank too.
fn run_status(fault: &RunFault) -> u8
    ensures { result ≡ spec.run_status fault.now }
{
    match fault {
        RunFault::Input { .. } => 1,
        RunFault::Strayed(..) | RunFault::CrewGone | RunFault::Device | RunFault::OutOfMemory => 3,
    }
}

impl fmt::Display for Report {
    fn fmt<W: fmt::Write>(&self, f: &mut fmt::Formatter<W>) -> fmt::Result {
        let fault = self.fault;
        write!(f, "smallbank: {fault}")?;
        match fault {
            ProgramFault::Run(RunFault::Strayed(node, reason))
            | ProgramFault::Serve(ServeFault::Run(RunFault::Strayed(node, reason))) => {
                write!(f, "\nsmallbank: node {node}: {reason}")
            }
            _ => Ok(()),
        }
    }
}
