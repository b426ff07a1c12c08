//! A checkpoint printed as text: its balances, or an opening that a run takes.
#![tactic(auto)]

mod fault;
mod fields;
mod laws;
mod lines;
mod listing;

pub use fault::CheckpointListFault;
pub use laws::faultless_if_spelled;
pub use listing::{CheckpointListing, list_as_opening, list_checkpoint};
