//! What a call adds to the bank's total.
ghost use Rattle.std.specs.Prelude.{◌≡◌};
ghost use Rattle.sb_calls.specs.Net.{net_of, net_if_done, net_if_paid};

use crate::call::Call;
use crate::cowns::PENALTY;
use crate::reply::Reply;
use sb_amount::Cents;

/// What a call with this reply adds to the bank's total, in cents.
pub fn net(call: &Call, reply: Reply) -> i64
    ensures { result ≡ net_of call.now reply }
{
    match call {
        Call::DepositChecking(_, amount) | Call::TransactSavings(_, amount) => {
            net_if_done(*amount, reply)
        }
        Call::WriteCheck(_, amount) => net_if_paid(*amount, reply),
        Call::Balance(_) | Call::Amalgamate(_, _) | Call::SendPayment(_, _, _) => 0,
    }
}

// What a deposit or a change of savings adds: its amount if it is done.
fn net_if_done(amount: Cents, reply: Reply) -> i64
    ensures { result ≡ net_if_done amount reply }
{
    match reply {
        Reply::Done => amount.value(),
        _ => 0,
    }
}

// What a check adds: if it is paid, it takes its amount, and the penalty if there is one.
fn net_if_paid(amount: Cents, reply: Reply) -> i64
    ensures { result ≡ net_if_paid amount reply }
{
    match reply {
        Reply::Done => -amount.value(),
        Reply::Penalised => -(amount.value() + PENALTY),
        _ => 0,
    }
}
