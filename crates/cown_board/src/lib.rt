//! A board that hands out behaviours as their cowns become free, and takes back their results.
#![tactic(auto)]

mod acceptance;
mod board;
mod cut;
mod fronts;
mod job;
mod laws;
mod links;
mod ready_list;
mod runs;
mod state;

pub use board::{Board, OPEN_BEHAVIOURS, SubmitFault};
pub use cut::CutFault;
pub use job::{Done, Job};
pub use laws::{limits, true_to_the_log};
pub use runs::Runs;
pub use state::State;
