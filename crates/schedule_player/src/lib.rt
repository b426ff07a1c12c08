//! Plays schedules: a sequencer and its replicas, one event after another.
#![tactic(auto)]

mod fault;
mod laws;
mod node;
mod running;
mod transfer;
mod world;

pub use fault::{PlayFault, ScheduleFault, StepFault};
pub use laws::{
    after_playing, log_is_first_asks, recorded_lengths, replication, restarts_as_after_a_crash,
    synced_logs_stay,
};
pub use running::run_schedule;
pub use schedule_text::{AuditNote, Column, Event, Events, NodeEvent, Note, SystemEvent};
pub use world::{World, play, play_lines};
