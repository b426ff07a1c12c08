//! The sequencer of schedules: its log is in a file in memory that can crash.
#![tactic(auto)]

mod durable_sequencer;

pub use durable_sequencer::DurableSequencer;
