//! A call as a client asks for it.

use sb_amount::Cents;
use sb_rows::Name;

/// The greatest number of calls in a log.
pub const LOG_CALLS: usize = 1_000_000;

/// A call of one of the bank's procedures, on customers by name: the five of SmallBank (ICDE 2008),
/// and a payment of this project's own.
#[derive(Clone, Copy, Debug, PartialEq, Eq)]
pub enum Call {
    /// Shows the sum of a customer's savings and checking balances.
    Balance(Name),
    /// Adds an amount, which may not be negative, to a customer's checking balance.
    DepositChecking(Name, Cents),
    /// Adds an amount, which may be negative, to a customer's savings.
    TransactSavings(Name, Cents),
    /// Moves both balances of the first customer to the checking balance of the second.
    Amalgamate(Name, Name),
    /// Takes an amount, which may not be negative, from a customer's checking balance. It takes a
    /// penalty of 100 cents more if savings and checking together are below the amount.
    WriteCheck(Name, Cents),
    /// Moves an amount, which may not be negative, from the first customer's checking balance to
    /// the second's. It may not take the first below 0.
    SendPayment(Name, Name, Cents),
}
