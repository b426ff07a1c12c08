//! The replies to calls.

/// The reply to a call. A refusal changes nothing.
#[derive(Clone, Copy, Debug, PartialEq, Eq)]
pub enum Reply {
    /// The sum of the customer's balances, in cents.
    Shown(i64),
    /// The call was executed.
    Done,
    /// The check was paid, with the penalty for an overdraft.
    Penalised,
    /// Refused: a name isn't in the bank.
    NoCustomer,
    /// Refused: the two customers are the same.
    SameCustomer,
    /// Refused: the amount is below 0.
    Negative,
    /// Refused: the savings, or the checking balance of the payer, would fall below 0.
    WouldOverdraw,
    /// Refused: the balance would pass the limit.
    OverLimit,
}
