//! What is laid out on a bench.
use cown_board::Job;
use sb_calls::Op;

/// What is offered to workers, and picked by one of them.
#[derive(Drop)]
pub enum Work {
    /// A job to execute.
    Run(Job<Op>),
    /// The worker that picks this picks nothing more.
    Stop,
}
