//! The cowns that ops declare.
use crate::fixtures::{cents, expect};
use sb_calls::{Behaviour, Cown, Op, TwoPlaces};
use std::process::Abort;

// The last place in a bank of 65,536 customers.
const LAST: u32 = 65_535;

// Whether these are the cowns with these ids.
fn have_ids(cowns: &[Cown], wanted: &[usize]) -> bool {
    cowns.len() == wanted.len() && cowns.iter().zip(wanted).all(|(cown, id)| cown.id() == *id)
}

// Checks the cowns that a behaviour declares, through its bound alone.
fn expect_cowns<B: Behaviour>(rt: &impl Abort, behaviour: B, wanted: &[usize], case: &str) {
    let cowns = behaviour.cowns();
    expect(rt, have_ids(&cowns, wanted), case);
}

#[test]
fn those_of_each_op(rt: HostRuntime) {
    let amount = cents(&rt, 500);
    let upward = TwoPlaces::new(0, LAST).expect(&rt, "two places");
    let downward = TwoPlaces::new(LAST, 1).expect(&rt, "two places");
    expect_cowns(&rt, Op::Balance(1), &[2, 3], "balance");
    expect_cowns(&rt, Op::DepositChecking(1, amount), &[3], "deposit");
    expect_cowns(&rt, Op::TransactSavings(1, amount), &[2], "savings");
    expect_cowns(&rt, Op::WriteCheck(1, amount), &[2, 3], "check");
    let all = [3, 131_070, 131_071];
    expect_cowns(&rt, Op::Amalgamate(upward), &[0, 1, 131_071], "amalgamate");
    expect_cowns(&rt, Op::Amalgamate(downward), &all, "amalgamate");
    expect_cowns(&rt, Op::SendPayment(upward, amount), &[1, 131_071], "pay");
    expect_cowns(&rt, Op::SendPayment(downward, amount), &[3, 131_071], "pay");
    expect_cowns(&rt, Op::NoCustomer, &[], "no customer");
    expect_cowns(&rt, Op::SameCustomer, &[], "same customer");
}
