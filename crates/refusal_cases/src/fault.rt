//! Why a case goes wrong, and why nothing is reported.

use bank_server::{RunFault, SessionFault};
use sb_checkpoint::CheckpointFault;
use sb_frames::StreamFault;
use sb_replica::ReceiveFault;
use sb_rows::OpeningFault;
use schedule_player::StepFault;
use schedule_text::TextFault;
use std::alloc::AllocError;
use std::io;
use thiserror::Error;

/// Why a case goes wrong. For `OutOfMemory`, a call that was repeated was refused memory again.
#[derive(Clone, Copy, Debug, Error)]
pub enum CaseFault {
    /// A run ends without its output, for this reason.
    #[error("run: {0}")]
    Run(&'static str),
    /// An opening isn't read.
    #[error(transparent)]
    Opening(#[from] OpeningFault),
    /// A session ends early.
    #[error(transparent)]
    Session(#[from] SessionFault),
    /// A schedule isn't read.
    #[error(transparent)]
    Schedule(#[from] TextFault),
    /// An event doesn't happen.
    #[error(transparent)]
    Step(#[from] StepFault),
    /// Something is unfinished after the last event.
    #[error("unfinished")]
    Unfinished,
    /// A checkpoint isn't read.
    #[error(transparent)]
    Checkpoint(#[from] CheckpointFault),
    /// A stream takes no bytes, or gives no frame.
    #[error(transparent)]
    Stream(#[from] StreamFault),
    /// A replica doesn't receive a stream.
    #[error(transparent)]
    Receive(#[from] ReceiveFault),
    /// Memory was refused.
    #[error("out of memory")]
    OutOfMemory(#[from(alloc)] AllocError),
}

// Where a function has many kinds of faults, the checker isn't told of all types within a run's.
impl From<RunFault> for CaseFault {
    fn from(fault: RunFault) -> CaseFault {
        CaseFault::Run(match fault {
            RunFault::Input { .. } => "its input is faulty",
            RunFault::Strayed(..) => "a follower strayed",
            RunFault::CrewGone => "crew gone",
            RunFault::Device => "device",
            RunFault::OutOfMemory => "out of memory",
        })
    }
}

/// Why nothing is reported.
#[derive(Debug, Error, Drop)]
pub enum Fault {
    /// A case goes wrong.
    #[error(transparent)]
    Case(#[from] CaseFault),
    /// Memory was refused.
    #[error("out of memory")]
    OutOfMemory(#[from(alloc)] AllocError),
    /// The words aren't read, or printing failed.
    #[error(transparent)]
    Device(#[from] io::Error),
}
