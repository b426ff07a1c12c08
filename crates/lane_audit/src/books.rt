//! The result of an audit.

/// The result of an audit, in cents. The books balance exactly if `total` is `expected`.
#[derive(Clone, Copy, Debug, PartialEq, Eq)]
pub struct Audit {
    /// The sum of all savings and checking balances.
    pub total: i64,
    /// The opening's total plus what the calls, with their replies, add to it.
    pub expected: i64,
    /// The number of checking balances below 0.
    pub overdrawn: usize,
}
