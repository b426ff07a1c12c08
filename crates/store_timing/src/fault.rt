//! Why nothing is measured.

use cown_board::SubmitFault;
use cown_workers::{CrewFault, CrewGone};
use sb_checkpoint::CheckpointFault;
use sb_frames::StreamFault;
use sb_replica::{AdoptFault, MarkFault, ReceiveFault, RestartFault};
use std::alloc::AllocError;
use std::io;
use thiserror::Error;

/// Why nothing is measured.
#[derive(Debug, Error, Drop)]
pub enum Fault {
    /// The number of workers isn't from 1 to 16.
    #[error("1 to 16 workers")]
    Workers,
    /// The bank can't be opened.
    #[error("no bank")]
    Bank,
    /// The board doesn't take this many calls.
    #[error(transparent)]
    Submit(#[from] SubmitFault),
    /// The crew can't be started, or hands over nothing more.
    #[error(transparent)]
    Crew(#[from] CrewFault),
    /// The board isn't idle.
    #[error("unfinished")]
    Unfinished,
    /// A checkpoint isn't read.
    #[error(transparent)]
    Checkpoint(#[from] CheckpointFault),
    /// A replica receives no entries, or their stream takes no bytes.
    #[error(transparent)]
    Receive(#[from] ReceiveFault),
    /// A replica keeps no checkpoint.
    #[error(transparent)]
    Mark(#[from] MarkFault),
    /// A replica doesn't go back to its checkpoint.
    #[error(transparent)]
    Restart(#[from] RestartFault),
    /// A replica doesn't adopt a state.
    #[error(transparent)]
    Adopt(#[from] AdoptFault),
    /// Memory was refused.
    #[error("out of memory")]
    OutOfMemory(#[from(alloc)] AllocError),
    /// Printing or the clock failed.
    #[error(transparent)]
    Device(#[from] io::Error),
}

impl From<CrewGone> for Fault {
    fn from(_gone: CrewGone) -> Fault {
        Fault::Crew(CrewFault::CrewGone)
    }
}

impl From<StreamFault> for Fault {
    fn from(fault: StreamFault) -> Fault {
        Fault::Receive(ReceiveFault::Stream(fault))
    }
}
