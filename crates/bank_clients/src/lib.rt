//! Clients who are served at once, over their connections: what arrives, what goes out, and who leaves.
#![tactic(auto)]

mod client_errors;
mod connections;
mod delivery;
mod dismissing;
mod greediest;
mod laws;
mod lingering;
mod one_by_one;
mod session_notes;
mod sessions;
mod slot;
mod socket_places;
mod sockets;
mod traffic;

pub use client_errors::is_of_a_client;
pub use connections::Connections;
pub use laws::begins_served;
pub use one_by_one::OneByOne;
pub use session_notes::SessionNotes;
pub use sessions::{Over, Sessions};
pub use sockets::{ClientSockets, Limits};
pub use traffic::Traffic;
