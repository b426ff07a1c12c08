//! Why an event isn't played, why a list of events isn't played to its end, and why a schedule
//! isn't played.
ghost use Rattle.std.specs.Prelude.{◌≡◌};
ghost use Rattle.schedule_player.specs.inner.FaultConversions.{schedule_read_fault, schedule_text_fault};
ghost use Rattle.schedule_player.specs.declared.fault.ScheduleFault.TheVariants as schedule;

use sb_text::ReadFault;
use schedule_text::{ScheduleLineFault, TextFault};
use std::alloc::AllocError;
use thiserror::Error;

/// Why an event isn't played. Nothing changed.
#[derive(Clone, Copy, Debug, PartialEq, Eq, Error)]
pub enum StepFault {
    /// Memory was refused.
    #[error("out of memory")]
    OutOfMemory,
}

impl From<AllocError> for StepFault {
    fn from(_: AllocError) -> StepFault {
        StepFault::OutOfMemory
    }
}

/// Why a list of events isn't played to its end: memory was refused.
#[derive(Clone, Copy, Debug, PartialEq, Eq, Error)]
#[error("out of memory")]
pub struct PlayFault {
    /// The number of events that happened.
    pub done: usize,
}

/// Why the text of a schedule isn't played.
#[derive(Clone, Copy, Debug, PartialEq, Eq, Error)]
pub enum ScheduleFault {
    /// A line is at fault; this is the first one. Nothing was written.
    #[error("line {line}: {fault}")]
    Input {
        /// The line's number, counted from 1.
        line: usize,
        /// What is wrong with the line.
        fault: ScheduleLineFault,
    },
    /// A read or a write failed. Part of the output may be written.
    #[error("device")]
    Device,
    /// Memory was refused.
    #[error("out of memory")]
    OutOfMemory,
}

impl From<ReadFault> for ScheduleFault {
    ghost from_gives = { λ read fault. fault ≡ schedule_read_fault read };

    fn from(read: ReadFault) -> ScheduleFault {
        match read {
            ReadFault::Device => ScheduleFault::Device,
            ReadFault::OutOfMemory => ScheduleFault::OutOfMemory,
        }
    }
}

impl From<TextFault> for ScheduleFault {
    ghost from_gives = { λ text fault. fault ≡ schedule_text_fault text };

    fn from(text: TextFault) -> ScheduleFault {
        match text {
            TextFault::Line { line, fault } => ScheduleFault::Input { line, fault },
            TextFault::OutOfMemory => ScheduleFault::OutOfMemory,
        }
    }
}

impl From<AllocError> for ScheduleFault {
    ghost from_gives = { λ _ fault. fault ≡ schedule.OutOfMemory };

    fn from(_: AllocError) -> ScheduleFault {
        ScheduleFault::OutOfMemory
    }
}

impl From<PlayFault> for ScheduleFault {
    ghost from_gives = { λ _ fault. fault ≡ schedule.OutOfMemory };

    fn from(_: PlayFault) -> ScheduleFault {
        ScheduleFault::OutOfMemory
    }
}
