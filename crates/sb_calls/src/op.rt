//! Calls with their customers' places in place of names.
ghost use Rattle.std.specs.Prelude.{◌≡◌, ◌<◌, ℕ, length, IfOk, IfErr};
ghost use Rattle.sb_calls.specs.declared.op.Op.{Op as AnyOp};
ghost use Rattle.sb_rows.specs.Directory.{place_of};
ghost use Rattle.sb_calls.specs.Op.{op_of, at_two_places, IsOpWithin};

use crate::call::Call;
use crate::two_places::TwoPlaces;
use sb_amount::Cents;
use sb_rows::{Directory, Name};

/// A call whose names were looked up.
#[derive(Clone, Copy, Debug, PartialEq, Eq)]
pub enum Op {
    /// [`Call::Balance`] of the customer at this place.
    Balance(u32),
    /// [`Call::DepositChecking`] of the customer at this place.
    DepositChecking(u32, Cents),
    /// [`Call::TransactSavings`] of the customer at this place.
    TransactSavings(u32, Cents),
    /// [`Call::Amalgamate`] of the customers at these places.
    Amalgamate(TwoPlaces),
    /// [`Call::WriteCheck`] of the customer at this place.
    WriteCheck(u32, Cents),
    /// [`Call::SendPayment`] of the customers at these places.
    SendPayment(TwoPlaces, Cents),
    /// A call with a name that isn't in the bank.
    NoCustomer,
    /// A call whose two customers are the same.
    SameCustomer,
}

/// Looks up the names of a call.
pub fn resolve(directory: &Directory, call: &Call) -> Op
    ensures value { result ≡ op_of directory.now call.now }
    ensures within { IsOpWithin (length directory.now) result }
{
    match call {
        Call::Balance(name) => match directory.place(name) {
            Some(place) => Op::Balance(place),
            None => Op::NoCustomer,
        },
        Call::DepositChecking(name, amount) => match directory.place(name) {
            Some(place) => Op::DepositChecking(place, *amount),
            None => Op::NoCustomer,
        },
        Call::TransactSavings(name, amount) => match directory.place(name) {
            Some(place) => Op::TransactSavings(place, *amount),
            None => Op::NoCustomer,
        },
        Call::WriteCheck(name, amount) => match directory.place(name) {
            Some(place) => Op::WriteCheck(place, *amount),
            None => Op::NoCustomer,
        },
        Call::Amalgamate(from, to) => match two_places(directory, from, to) {
            Ok(places) => Op::Amalgamate(places),
            Err(refusal) => refusal,
        },
        Call::SendPayment(from, to, amount) => match two_places(directory, from, to) {
            Ok(places) => Op::SendPayment(places, *amount),
            Err(refusal) => refusal,
        },
    }
}

// The places of two customers, or the op for a missing customer or for two that are the same. It
// serves every call of two customers.
fn two_places(directory: &Directory, from: &Name, to: &Name) -> Result<TwoPlaces, Op>
    ensures places { IfOk result (λ places. (op : ℕ × ℕ → AnyOp)
        → at_two_places op (place_of directory.now from.now) (place_of directory.now to.now)
        ≡ op places) }
    ensures within { IfOk result (λ places.
        (places.0 < length directory.now) × (places.1 < length directory.now)) }
    ensures refusal { IfErr result (λ refusal. (op : ℕ × ℕ → AnyOp)
        → at_two_places op (place_of directory.now from.now) (place_of directory.now to.now)
        ≡ refusal) }
    ensures refusal_within { IfErr result (IsOpWithin (length directory.now)) }
{
    let (Some(from), Some(to)) = (directory.place(from), directory.place(to)) else {
        return Err(Op::NoCustomer);
    };
    TwoPlaces::new(from, to).ok_or(Op::SameCustomer)
}
