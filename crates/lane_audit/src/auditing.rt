//! The audit: compares a bank's balances with its calls and replies.
ghost use Rattle.std.specs.Prelude.{◌≡◌, ◌≤◌, ◌+ℤ◌, pos, length};
ghost use Rattle.sb_calls.specs.Net.{net_of, net_sum};
ghost use Rattle.lane_audit.specs.inner.NetBounds.{HasAmountWithin, IsPossibleNet};
ghost use Rattle.lane_audit.specs.Audit.{IsBankTotal, balances_total};
ghost use Rattle.lane_audit.specs.Columns.{count_below};

use crate::books::Audit;
use crate::counting::count_below;
use crate::summing::sum;
use sb_calls::{Call, LOG_CALLS, Reply, net};
use sb_rows::Columns;

/// The sum of all savings and checking balances of a bank, in cents.
pub fn bank_total(columns: &Columns) -> i64
    ensures value { result ≡ balances_total columns.now }
    ensures bank { IsBankTotal result }
{
    // Its contract says that all balances are in their ranges, as `sum` requires.
    let _customers = columns.customers();
    sum(columns.savings()) + sum(columns.checking())
}

/// Sums all balances and the net changes of all calls, and counts the overdrawn balances. Each call
/// has its reply at the same index. `opening_total` is `bank_total` before the first call, in
/// cents.
pub fn audit(columns: &Columns, opening_total: i64, calls: &[Call], replies: &[Reply]) -> Audit
    requires replies { length calls.now ≡ length replies.now }
    requires limit { length calls.now ≤ LOG_CALLS }
    requires opening { IsBankTotal opening_total }
    ensures total { result.total ≡ balances_total columns.now }
    ensures expected { result.expected ≡ opening_total +ℤ net_sum calls.now replies.now }
    ensures overdrawn { result.overdrawn ≡ count_below columns.now.checking (pos 0) }
{
    Audit {
        total: bank_total(columns),
        expected: opening_total + net_of_all(calls, replies),
        overdrawn: count_below(columns.checking(), 0),
    }
}

// The sum of what all calls, with their replies, add to a bank's total.
fn net_of_all(calls: &[Call], replies: &[Reply]) -> i64
    requires replies { length calls.now ≡ length replies.now }
    requires limit { length calls.now ≤ LOG_CALLS }
    ensures value { result ≡ net_sum calls.now replies.now }
    ensures within { IsPossibleNet (length calls.now) result }
{
    let mut added = 0;
    for (index, call) in calls.iter().enumerate() {
        added += net_of_one(call, replies[index]);
    }
    added
}

// What a call, with its reply, adds: at most the limit and the penalty.
fn net_of_one(call: &Call, reply: Reply) -> i64
    ensures value { result ≡ net_of call.now reply }
    ensures within { IsPossibleNet 1 result }
{
    amount_within(call);
    net(call, reply)
}

// The amount of a call is in its range. For the prover alone, which knows this only once the amount
// is read.
fn amount_within(call: &Call)
    ensures { HasAmountWithin call.now }
{
    match call {
        Call::DepositChecking(_, amount)
        | Call::TransactSavings(_, amount)
        | Call::WriteCheck(_, amount)
        | Call::SendPayment(_, _, amount) => {
            let _cents = amount.value();
        }
        Call::Balance(_) | Call::Amalgamate(_, _) => {}
    }
}
