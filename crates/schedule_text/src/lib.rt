//! The text of schedules: their events, and the notes on these.
#![tactic(auto)]

mod event;
mod event_text;
mod events;
mod fault;
mod head;
mod note;
mod note_text;
mod parsing;
mod reading;
mod schedule;

pub use event::{Event, NodeEvent, SystemEvent};
pub use event_text::read_event;
pub use events::{EventWalk, Events};
pub use fault::{EventFault, ScheduleLineFault, TextFault};
pub use note::{AuditNote, Column, Note};
pub use note_text::{push_note, push_numbered};
pub use reading::read_schedule;
pub use schedule::Schedule;
