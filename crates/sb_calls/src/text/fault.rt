//! Why a line isn't a call, or isn't an asking line.

use thiserror::Error;

/// The fault of a line that isn't a call, or isn't an asking line.
///
/// Of a call it is the first in this order. [`crate::read_ask`] says the order of an asking line.
#[derive(Clone, Copy, Debug, PartialEq, Eq, Error)]
pub enum CallFault {
    /// The call's first word names no procedure, or there is no such word.
    #[error("unknown verb")]
    UnknownVerb,
    /// The procedure takes another number of words, or a line that begins with `ask` has fewer than
    /// three.
    #[error("wrong words")]
    WrongWords,
    /// A word in the place of a name isn't a valid name.
    #[error("bad name")]
    BadName,
    /// A word in the place of an amount isn't valid money text.
    #[error("bad money")]
    BadMoney,
    /// A word in the place of a client's or a request's number isn't a valid number.
    #[error("bad number")]
    BadNumber,
}
