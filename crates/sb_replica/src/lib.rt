//! One node of the bank: entries in order, checkpoints, restarts, and states of other nodes.
#![tactic(auto)]

mod adopted;
mod fault;
mod frames;
mod heard;
mod laws;
mod marking;
mod offered;
mod received;
mod receiving;
mod replica;
mod replica_log;
mod restarting;
mod running;
mod states;

pub use adopted::Adopted;
pub use fault::{AdoptFault, MarkFault, ReceiveFault, ReplicaFault, RestartFault};
pub use heard::Heard;
pub use laws::limits;
pub use offered::Offered;
pub use received::Received;
pub use replica::Replica;
pub use replica_log::HELD_ENTRIES;
