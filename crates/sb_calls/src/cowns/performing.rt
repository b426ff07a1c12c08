//! An op as a behaviour: the cowns that it declares, and its effect on them.
ghost use Rattle.std.specs.Prelude.{◌≡◌};
ghost use Rattle.sb_calls.specs.Behaviour.{declared_cowns, effect_of, amalgamation_cowns, payment_cowns, amalgamation_effect, payment_effect};
ghost use Rattle.sb_calls.specs.Cowns.{AreCownValues};

use super::behaviour::{BEHAVIOUR_COWNS, Behaviour, Performs};
use super::cown::Cown;
use super::effects::{
    Effect, amalgamate_giver_first, amalgamate_taker_first, change_savings, deposit, pay_check,
    pay_payee_first, pay_payer_first, show,
};
use crate::op::Op;
use crate::reply::Reply;
use crate::two_places::TwoPlaces;
use arrayvec::ArrayVec;
use sb_amount::Cents;

/// The cowns of the balances that a call touches, in rising order. There are none if a name isn't
/// in the bank, or if its two names are the same.
pub fn cowns_of(op: Op) -> ArrayVec<Cown, BEHAVIOUR_COWNS>
    ensures { result.items ≡ declared_cowns op }
{
    let mut cowns = ArrayVec::new();
    match op {
        Op::Balance(place) | Op::WriteCheck(place, _) => {
            cowns.push(Cown::savings(place));
            cowns.push(Cown::checking(place));
        }
        Op::DepositChecking(place, _) => cowns.push(Cown::checking(place)),
        Op::TransactSavings(place, _) => cowns.push(Cown::savings(place)),
        Op::Amalgamate(places) => return amalgamation_cowns(places),
        Op::SendPayment(places, _) => return payment_cowns(places),
        Op::NoCustomer | Op::SameCustomer => {}
    }
    cowns
}

// Both cowns of the giver, and the checking cown of the taker.
fn amalgamation_cowns(places: TwoPlaces) -> ArrayVec<Cown, BEHAVIOUR_COWNS>
    ensures { result.items ≡ amalgamation_cowns places.0 places.1 }
{
    let from = places.from();
    let to = places.to();
    if from < to {
        ArrayVec::from([
            Cown::savings(from),
            Cown::checking(from),
            Cown::checking(to),
        ])
    } else {
        ArrayVec::from([
            Cown::checking(to),
            Cown::savings(from),
            Cown::checking(from),
        ])
    }
}

// The checking cowns of the payer and the payee.
fn payment_cowns(places: TwoPlaces) -> ArrayVec<Cown, BEHAVIOUR_COWNS>
    ensures { result.items ≡ payment_cowns places.0 places.1 }
{
    let payer = places.from();
    let payee = places.to();
    let mut cowns = ArrayVec::new();
    if payer < payee {
        cowns.push(Cown::checking(payer));
        cowns.push(Cown::checking(payee));
    } else {
        cowns.push(Cown::checking(payee));
        cowns.push(Cown::checking(payer));
    }
    cowns
}

/// The reply to a call, and what its cowns contain after it, if they contain these inputs. Both
/// are in the order of [`cowns_of`].
///
/// A refusal leaves the inputs.
pub fn perform(op: Op, inputs: &[Cents]) -> (Reply, ArrayVec<Cents, BEHAVIOUR_COWNS>)
    requires { AreCownValues (declared_cowns op) inputs.now }
    ensures { (result.0, result.1.items) ≡ effect_of op inputs.now }
{
    match op {
        Op::Balance(_) => show(inputs[0], inputs[1]),
        Op::DepositChecking(_, amount) => deposit(amount, inputs[0]),
        Op::TransactSavings(_, amount) => change_savings(amount, inputs[0]),
        Op::Amalgamate(places) => amalgamate(places, inputs),
        Op::WriteCheck(_, amount) => pay_check(amount, inputs[0], inputs[1]),
        Op::SendPayment(places, amount) => send_payment(places, amount, inputs),
        Op::NoCustomer => (Reply::NoCustomer, ArrayVec::new()),
        Op::SameCustomer => (Reply::SameCustomer, ArrayVec::new()),
    }
}

// Moves both balances of one customer to another, in the order of their cowns.
fn amalgamate(places: TwoPlaces, inputs: &[Cents]) -> Effect
    requires { AreCownValues (amalgamation_cowns places.0 places.1) inputs.now }
    ensures { (result.0, result.1.items) ≡ amalgamation_effect places.0 places.1 inputs.now }
{
    let first = inputs[0];
    let second = inputs[1];
    let third = inputs[2];
    if places.from() < places.to() {
        amalgamate_giver_first(first, second, third)
    } else {
        amalgamate_taker_first(first, second, third)
    }
}

// Moves an amount from one checking balance to another, in the order of their cowns.
fn send_payment(places: TwoPlaces, amount: Cents, inputs: &[Cents]) -> Effect
    requires { AreCownValues (payment_cowns places.0 places.1) inputs.now }
    ensures { (result.0, result.1.items) ≡ payment_effect places.0 places.1 amount inputs.now }
{
    let payer_is_first = places.from() < places.to();
    if payer_is_first {
        pay_payer_first(amount, inputs[0], inputs[1])
    } else {
        pay_payee_first(amount, inputs[0], inputs[1])
    }
}

impl Behaviour for Op {
    ghost use Rattle.sb_calls.specs.Behaviour.{declared_cowns, effect_of};
    ghost use Rattle.sb_calls.specs.inner.BehaviourLaws.{declared_cowns_rise, declared_limit, effect_in_range, same_op};

    ghost touches = { declared_cowns };

    ghost effect = { effect_of };

    ghost rising = { declared_cowns_rise };

    ghost limit = { declared_limit };

    ghost valid_outputs = { effect_in_range };

    ghost exact = { same_op };

    fn cowns(self) -> ArrayVec<Cown, BEHAVIOUR_COWNS> {
        cowns_of(self)
    }
}

impl Performs for Op {
    fn perform(self, inputs: &[Cents]) -> Effect {
        crate::cowns::perform(self, inputs)
    }
}
