//! The client of a served bank: it asks call lines, and prints their outcomes.
#![tactic(auto)]

mod ask_fault;
mod asker;
mod asking;
mod batch;
mod conversation;
mod dialer;
mod laws;
mod outcome_lines;
mod plan;
mod sending;
mod server_stream;
mod socket_dialer;
mod talk_fault;

pub use ask_fault::AskFault;
pub use asking::ask_all;
pub use batch::{Batch, BatchFault};
pub use conversation::converse;
pub use dialer::Dialer;
pub use laws::limits;
pub use plan::AskPlan;
pub use server_stream::ServerStream;
pub use socket_dialer::SocketDialer;
pub use talk_fault::TalkFault;
