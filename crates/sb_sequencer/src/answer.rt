//! The answer to an ask.

use thiserror::Error;

/// The number of a request in the log, from 1.
#[derive(Clone, Copy, Debug, PartialEq, Eq)]
pub enum Numbered {
    /// The key was new, and the call got this number.
    New(u64),
    /// The key already has this number, with the same call.
    Repeat(u64),
}

/// Why an ask is refused. The log stays as it was.
#[derive(Clone, Copy, Debug, PartialEq, Eq, Error)]
pub enum AskFault {
    /// The key already has this number, with another call.
    #[error("mismatch {0}")]
    Mismatch(u64),
    /// The key is new, and the log takes no more calls.
    #[error("log full")]
    LogFull,
    /// The key is new, and memory was refused.
    #[error("out of memory")]
    OutOfMemory,
}
