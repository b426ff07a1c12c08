//! Clients of a served bank: one alone, or many at once.

mod arrivals;
mod client;
mod client_limits;
mod clients;
mod inbox;
mod outcome_frames;
mod places;
mod session_fault;
mod single_session;
mod telling;
mod turn_fault;
mod turns;

pub use arrivals::{Arrival, Arrivals};
pub use client_limits::ClientLimits;
pub use clients::Clients;
pub use inbox::PendingAsk;
pub use session_fault::SessionFault;
pub use single_session::serve_session;
pub use turn_fault::TurnFault;

/// The most bytes of a client that a turn takes in one read.
pub const READ_BYTES: usize = 65_536;
