//! Why a text isn't a schedule.
ghost use Rattle.std.specs.Prelude.{◌≡◌};
ghost use Rattle.schedule_text.specs.declared.fault.EventFault.TheVariants as event;
ghost use Rattle.schedule_text.specs.declared.fault.TextFault.TheVariants.{OutOfMemory};

use sb_calls::CallFault;
use sb_rows::LineFault;
use std::alloc::AllocError;
use thiserror::Error;

/// The first fault, in this order, of a line that isn't an event.
#[derive(Clone, Copy, Debug, PartialEq, Eq, Error)]
pub enum EventFault {
    /// The first word isn't an event's.
    #[error("unknown event")]
    UnknownEvent,
    /// The event takes another number of words; for an ask or an append, before its call.
    #[error("wrong words")]
    WrongWords,
    /// A word in a number's place isn't such a number, or the word for how a put ends is none of
    /// the three.
    #[error("bad number")]
    BadNumber,
    /// The call of an ask or of an append is at fault.
    #[error(transparent)]
    Call(CallFault),
}

impl From<CallFault> for EventFault {
    ghost from_gives = { λ fault answer. answer ≡ event.Call fault };

    fn from(fault: CallFault) -> EventFault {
        EventFault::Call(fault)
    }
}

/// What is wrong with a line of a schedule.
#[derive(Clone, Copy, Debug, PartialEq, Eq, Error)]
pub enum ScheduleLineFault {
    /// The first line isn't a head.
    #[error("bad head")]
    BadHead,
    /// The line belongs to the opening.
    #[error(transparent)]
    Opening(LineFault),
    /// The line is that of an event.
    #[error(transparent)]
    Event(EventFault),
}

/// Why a text isn't a schedule.
#[derive(Clone, Copy, Debug, PartialEq, Eq, Error)]
pub enum TextFault {
    /// The first line at fault, numbered from 1, and its fault.
    #[error("line {line}: {fault}")]
    Line {
        /// The number of the line.
        line: usize,
        /// What is wrong with it.
        fault: ScheduleLineFault,
    },
    /// Memory was refused.
    #[error("out of memory")]
    OutOfMemory,
}

impl From<AllocError> for TextFault {
    ghost from_gives = { λ _ fault. fault ≡ OutOfMemory };

    fn from(_: AllocError) -> TextFault {
        TextFault::OutOfMemory
    }
}
