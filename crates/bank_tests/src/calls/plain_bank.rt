//! Calls compared with a plain bank, which keeps names and balances together.
use super::bank::{Bank, OPENING, execute_call, open_bank};
use crate::fixtures::{cents, expect_columns, name};
use sb_amount::LIMIT;
use sb_calls::{Call, Reply};
use sb_rows::Name;
use std::process::Abort;

// A customer of the plain bank.
#[derive(Clone, Copy)]
struct Customer {
    name: &'static str,
    savings: i64,
    checking: i64,
}

fn find(bank: &[Customer], name: &Name) -> Option<Customer> {
    for customer in bank {
        if customer.name.as_bytes() == name.text() {
            return Some(*customer);
        }
    }
    None
}

fn put(bank: &mut [Customer], changed: Customer) {
    for customer in bank.iter_mut() {
        if customer.name == changed.name {
            *customer = changed;
        }
    }
}

fn plain_reply(bank: &mut [Customer], call: &Call) -> Reply {
    match call {
        Call::Balance(name) => match find(bank, name) {
            Some(customer) => Reply::Shown(customer.savings.saturating_add(customer.checking)),
            None => Reply::NoCustomer,
        },
        Call::DepositChecking(name, amount) => plain_deposit(bank, name, amount.value()),
        Call::TransactSavings(name, amount) => plain_savings(bank, name, amount.value()),
        Call::Amalgamate(from, to) => plain_amalgamation(bank, from, to),
        Call::WriteCheck(name, amount) => plain_check(bank, name, amount.value()),
        Call::SendPayment(from, to, amount) => plain_payment(bank, from, to, amount.value()),
    }
}

fn plain_deposit(bank: &mut [Customer], name: &Name, amount: i64) -> Reply {
    let Some(mut customer) = find(bank, name) else {
        return Reply::NoCustomer;
    };
    customer.checking = customer.checking.saturating_add(amount);
    if amount < 0 {
        return Reply::Negative;
    }
    if customer.checking > LIMIT {
        return Reply::OverLimit;
    }
    put(bank, customer);
    Reply::Done
}

fn plain_savings(bank: &mut [Customer], name: &Name, amount: i64) -> Reply {
    let Some(mut customer) = find(bank, name) else {
        return Reply::NoCustomer;
    };
    customer.savings = customer.savings.saturating_add(amount);
    if customer.savings < 0 {
        return Reply::WouldOverdraw;
    }
    if customer.savings > LIMIT {
        return Reply::OverLimit;
    }
    put(bank, customer);
    Reply::Done
}

fn plain_amalgamation(bank: &mut [Customer], from: &Name, to: &Name) -> Reply {
    let Some(mut giver) = find(bank, from) else {
        return Reply::NoCustomer;
    };
    let Some(mut taker) = find(bank, to) else {
        return Reply::NoCustomer;
    };
    if giver.name == taker.name {
        return Reply::SameCustomer;
    }
    let given = giver.savings.saturating_add(giver.checking);
    taker.checking = taker.checking.saturating_add(given);
    if taker.checking > LIMIT || taker.checking < -LIMIT {
        return Reply::OverLimit;
    }
    giver.savings = 0;
    giver.checking = 0;
    put(bank, giver);
    put(bank, taker);
    Reply::Done
}

fn plain_check(bank: &mut [Customer], name: &Name, amount: i64) -> Reply {
    let Some(mut customer) = find(bank, name) else {
        return Reply::NoCustomer;
    };
    if amount < 0 {
        return Reply::Negative;
    }
    let mut reply = Reply::Done;
    let mut left = customer.checking.saturating_sub(amount);
    if customer.savings.saturating_add(customer.checking) < amount {
        left = left.saturating_sub(100);
        reply = Reply::Penalised;
    }
    if left < -LIMIT {
        return Reply::OverLimit;
    }
    customer.checking = left;
    put(bank, customer);
    reply
}

fn plain_payment(bank: &mut [Customer], from: &Name, to: &Name, amount: i64) -> Reply {
    let Some(mut payer) = find(bank, from) else {
        return Reply::NoCustomer;
    };
    let Some(mut payee) = find(bank, to) else {
        return Reply::NoCustomer;
    };
    if payer.name == payee.name {
        return Reply::SameCustomer;
    }
    if amount < 0 {
        return Reply::Negative;
    }
    payer.checking = payer.checking.saturating_sub(amount);
    payee.checking = payee.checking.saturating_add(amount);
    if payer.checking < 0 {
        return Reply::WouldOverdraw;
    }
    if payee.checking > LIMIT {
        return Reply::OverLimit;
    }
    put(bank, payer);
    put(bank, payee);
    Reply::Done
}

const OPENING_ROWS: [Customer; 3] = [
    Customer {
        name: "alice",
        savings: 10000,
        checking: 5000,
    },
    Customer {
        name: "bob",
        savings: 0,
        checking: 2000,
    },
    Customer {
        name: "carol",
        savings: 1000,
        checking: 0,
    },
];

// A customer by a seed; one of the four isn't in the bank.
fn sample_name(rt: &impl Abort, seed: u8) -> Name {
    let text = match seed % 4 {
        0 => "alice",
        1 => "bob",
        2 => "carol",
        _ => "zed",
    };
    name(rt, text)
}

// A call by a seed.
fn sample_call(rt: &impl Abort, seed: u8) -> Call {
    let first = sample_name(rt, seed);
    let amount = cents(rt, (i64::from(seed) - 60) * 4_000_000_003);
    match seed % 9 {
        0 => Call::Balance(first),
        1 | 2 => Call::DepositChecking(first, amount),
        3 | 4 => Call::TransactSavings(first, amount),
        5 => Call::Amalgamate(first, sample_name(rt, seed / 4)),
        6 | 7 => Call::SendPayment(first, sample_name(rt, seed / 4), amount),
        _ => Call::WriteCheck(first, amount),
    }
}

// Checks that the bank replies to the call of a seed as the plain one does.
fn expect_same(rt: &impl Abort, bank: &mut Bank, plain: &mut [Customer], seed: u8) {
    let call = sample_call(rt, seed);
    let wanted = plain_reply(plain, &call);
    assert!(rt; execute_call(rt, bank, &call) == wanted, "call {seed}");
}

#[test]
fn two_hundred_calls(rt: HostRuntime) {
    let mut bank = open_bank(&rt, rt.alloc(), OPENING);
    let mut plain = OPENING_ROWS;
    for seed in 0..200u8 {
        expect_same(&rt, &mut bank, &mut plain, seed);
    }
    let [alice, bob, carol] = plain;
    let savings = [alice.savings, bob.savings, carol.savings];
    let checking = [alice.checking, bob.checking, carol.checking];
    expect_columns(&rt, &bank.columns, &savings, &checking);
}
