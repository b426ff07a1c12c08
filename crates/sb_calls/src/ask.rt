//! A call as a client asks for it, under a key.

use crate::call::Call;

/// A client's number, and the client's own number for a request. Each key is numbered once.
#[derive(Clone, Copy, Debug, PartialEq, Eq, Hash)]
pub struct Key {
    /// The client.
    pub client: u32,
    /// The client's request.
    pub request: u32,
}

/// What an asking line asks.
#[derive(Clone, Copy, Debug, PartialEq, Eq)]
pub struct AskLine {
    /// The key, if the line has one. Its client is never 0.
    pub key: Option<Key>,
    /// The call.
    pub call: Call,
}
