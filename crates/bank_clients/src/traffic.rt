//! What went over the connection of a client.
use std::net::SocketAddr;
use std::time::Duration;

/// What went over the connection of a client.
#[derive(Clone, Copy, Debug, PartialEq, Eq)]
pub struct Traffic {
    /// The client's address, as far as the system says.
    pub peer: Option<SocketAddr>,
    /// How many bytes were read.
    pub read: u64,
    /// How many bytes were written.
    pub written: u64,
    /// For how long it was there.
    pub lasted: Duration,
}
