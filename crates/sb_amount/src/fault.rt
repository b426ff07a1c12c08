//! Why a text isn't money text.

use thiserror::Error;

/// The first fault, in this order, of a text that isn't money text.
#[derive(Clone, Copy, Debug, PartialEq, Eq, Error)]
pub enum MoneyFault {
    /// Nothing follows the optional `-`.
    #[error("empty")]
    Empty,
    /// A byte is neither a digit nor a point.
    #[error("not a digit")]
    NotDigit,
    /// There isn't exactly one point with exactly two digits after it.
    #[error("bad decimals")]
    BadDecimals,
    /// The whole part is empty or has a leading zero, or the text is `-0.00`.
    #[error("not canonical")]
    NotCanonical,
    /// The amount is above the limit in size.
    #[error("too large")]
    TooLarge,
}
