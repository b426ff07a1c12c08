//! The numbers that wait at each cown.
#![tactic(auto)]

mod queues;
mod tickets;

pub use queues::Queues;
