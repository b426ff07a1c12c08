//! What each procedure does to the values of its cowns.
ghost use Rattle.std.specs.Prelude.{◌≡◌, ℤ, pos, SomeIff, ◌+ℤ◌, ◌-ℤ◌, ◌≤ℤ◌, int_lt, if◌then◌else◌, [], ◌∷◌};
ghost use Rattle.sb_amount.specs.Limit.{IsWithinLimit};
ghost use Rattle.sb_calls.specs.Behaviour.{deposit_effect, savings_effect, check_effect, giver_first_effect, taker_first_effect, payment, payer_first_effect, payee_first_effect};
ghost use Rattle.sb_calls.specs.Procedures.{check_cost};
ghost use Rattle.sb_calls.specs.declared.reply.Reply.TheVariants as replies;

use super::behaviour::BEHAVIOUR_COWNS;
use crate::reply::Reply;
use arrayvec::ArrayVec;
use sb_amount::Cents;

/// The penalty of a check if savings and checking together are below its amount, in cents.
pub const PENALTY: i64 = 100;

// The reply to a call, and what its cowns contain after it.
pub(crate) type Effect = (Reply, ArrayVec<Cents, BEHAVIOUR_COWNS>);

// A reply and one resulting value.
fn reply_with_one(reply: Reply, value: Cents) -> Effect
    ensures reply { result.0 ≡ reply }
    ensures outputs { result.1.items ≡ value ∷ [] }
{
    let mut values = ArrayVec::new();
    values.push(value);
    (reply, values)
}

// A reply and two resulting values.
fn reply_with_two(reply: Reply, first: Cents, second: Cents) -> Effect
    ensures reply { result.0 ≡ reply }
    ensures outputs { result.1.items ≡ first ∷ second ∷ [] }
{
    let mut values = ArrayVec::new();
    values.push(first);
    values.push(second);
    (reply, values)
}

// A reply and three resulting values.
fn reply_with_three(reply: Reply, first: Cents, second: Cents, third: Cents) -> Effect
    ensures reply { result.0 ≡ reply }
    ensures outputs { result.1.items ≡ first ∷ second ∷ third ∷ [] }
{
    (reply, ArrayVec::from([first, second, third]))
}

// Shows the sum of savings and checking.
pub(crate) fn show(savings: Cents, checking: Cents) -> Effect
    ensures reply { result.0 ≡ replies.Shown (savings +ℤ checking) }
    ensures outputs { result.1.items ≡ savings ∷ checking ∷ [] }
{
    reply_with_two(
        Reply::Shown(savings.value() + checking.value()),
        savings,
        checking,
    )
}

// Adds an amount to checking.
pub(crate) fn deposit(amount: Cents, checking: Cents) -> Effect
    ensures { (result.0, result.1.items) ≡ deposit_effect amount checking }
{
    if amount.value() < 0 {
        return reply_with_one(Reply::Negative, checking);
    }
    match checking.plus(amount) {
        Some(sum) => reply_with_one(Reply::Done, sum),
        None => reply_with_one(Reply::OverLimit, checking),
    }
}

// Adds an amount, which may be negative, to savings.
pub(crate) fn change_savings(amount: Cents, savings: Cents) -> Effect
    requires { pos 0 ≤ℤ savings }
    ensures { (result.0, result.1.items) ≡ savings_effect amount savings }
{
    let sum = savings.value() + amount.value();
    if sum < 0 {
        return reply_with_one(Reply::WouldOverdraw, savings);
    }
    match Cents::new(sum) {
        Some(sum) => reply_with_one(Reply::Done, sum),
        None => reply_with_one(Reply::OverLimit, savings),
    }
}

// Takes the cost of a check from checking.
pub(crate) fn pay_check(amount: Cents, savings: Cents, checking: Cents) -> Effect
    ensures { (result.0, result.1.items) ≡ check_effect amount savings checking }
{
    if amount.value() < 0 {
        return reply_with_two(Reply::Negative, savings, checking);
    }
    let (cost, reply) = cost_of_check(savings, checking, amount);
    match Cents::new(checking.value() - cost) {
        Some(left) => reply_with_two(reply, savings, left),
        None => reply_with_two(Reply::OverLimit, savings, checking),
    }
}

// The cost of a check, and the reply if it is paid.
fn cost_of_check(savings: Cents, checking: Cents, amount: Cents) -> (i64, Reply)
    ensures { result ≡ (
      check_cost savings checking amount,
      if int_lt (savings +ℤ checking) amount then replies.Penalised else replies.Done,
    ) }
{
    let available = savings.value() + checking.value();
    if available < amount.value() {
        (amount.value() + PENALTY, Reply::Penalised)
    } else {
        (amount.value(), Reply::Done)
    }
}

// The sum of the three balances, or `None` if it is past the limit.
fn sum_of_balances(received: Cents, savings: Cents, checking: Cents) -> Option<Cents>
    ensures { let sum = (received +ℤ savings) +ℤ checking in
        SomeIff result (IsWithinLimit sum) sum }
{
    Cents::new(received.value() + savings.value() + checking.value())
}

// Moves both balances of the giver to the taker. The giver's cowns come first.
pub(crate) fn amalgamate_giver_first(savings: Cents, checking: Cents, received: Cents) -> Effect
    ensures { (result.0, result.1.items) ≡ giver_first_effect savings checking received }
{
    match sum_of_balances(received, savings, checking) {
        Some(sum) => reply_with_three(Reply::Done, Cents::default(), Cents::default(), sum),
        None => reply_with_three(Reply::OverLimit, savings, checking, received),
    }
}

// Moves both balances of the giver to the taker. The taker's cown comes first.
pub(crate) fn amalgamate_taker_first(received: Cents, savings: Cents, checking: Cents) -> Effect
    ensures { (result.0, result.1.items) ≡ taker_first_effect received savings checking }
{
    match sum_of_balances(received, savings, checking) {
        Some(sum) => reply_with_three(Reply::Done, sum, Cents::default(), Cents::default()),
        None => reply_with_three(Reply::OverLimit, received, savings, checking),
    }
}

// The reply to a payment, and the payer's and the payee's balance after it.
fn payment(amount: Cents, checking: Cents, received: Cents) -> (Reply, Cents, Cents)
    ensures { result ≡ payment amount checking received }
{
    if amount.value() < 0 {
        return (Reply::Negative, checking, received);
    }
    if checking.value() < amount.value() {
        return (Reply::WouldOverdraw, checking, received);
    }
    match received.plus(amount) {
        Some(sum) => (Reply::Done, remaining_balance(checking, amount), sum),
        None => (Reply::OverLimit, checking, received),
    }
}

// The rest of a balance after at most all of it is taken.
fn remaining_balance(balance: Cents, amount: Cents) -> Cents
    requires not_negative { pos 0 ≤ℤ amount }
    requires enough { amount ≤ℤ balance }
    ensures { result ≡ balance -ℤ amount }
{
    Cents::new(balance.value() - amount.value()).unwrap()
}

// Pays from one checking balance to another. The payer's cown comes first.
pub(crate) fn pay_payer_first(amount: Cents, checking: Cents, received: Cents) -> Effect
    ensures { (result.0, result.1.items) ≡ payer_first_effect amount checking received }
{
    let (reply, checking, received) = payment(amount, checking, received);
    reply_with_two(reply, checking, received)
}

// Pays from one checking balance to another. The payee's cown comes first.
pub(crate) fn pay_payee_first(amount: Cents, received: Cents, checking: Cents) -> Effect
    ensures { (result.0, result.1.items) ≡ payee_first_effect amount received checking }
{
    let (reply, checking, received) = payment(amount, checking, received);
    reply_with_two(reply, received, checking)
}
