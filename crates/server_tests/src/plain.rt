//! A plain bank of nine customers, with which runs of random calls are compared.
use std::alloc::Global;
use std::io::Write;
use std::process::Abort;

const LIMIT: i64 = 1_000_000_000_000;

/// A call of the customers with these numbers, and with an amount in cents.
#[derive(Clone, Copy)]
pub(crate) struct Call {
    verb: Verb,
    customer: usize,
    other: usize,
    amount: i64,
}

#[derive(Clone, Copy)]
enum Verb {
    Balance,
    Deposit,
    Savings,
    Check,
    Amalgamate,
}

#[derive(Clone, Copy)]
enum Reply {
    Shown(i64),
    Words(&'static str),
}

#[derive(Clone, Copy)]
pub(crate) struct Account {
    savings: i64,
    checking: i64,
}

/// The call of a random number. One of the ten customers that it may name isn't in the bank.
pub(crate) fn call_of(random: u64) -> Call {
    let other = (random >> 37) % 10;
    let whole = ((random >> 24) % 5_000_000_000) as i64 * 100;
    let (verb, amount) = match (random >> 20) % 8 {
        0 => (Verb::Balance, 0),
        1 => (Verb::Deposit, -whole - 7),
        2 => (Verb::Deposit, whole),
        3 => (Verb::Savings, whole + 50),
        4 => (Verb::Savings, -whole - 50),
        5 => (Verb::Check, whole + 25),
        6 => (Verb::Check, other as i64 * 100),
        _ => (Verb::Amalgamate, 0),
    };
    Call {
        verb,
        customer: ((random >> 33) % 10) as usize,
        other: other as usize,
        amount,
    }
}

/// Appends a call's line.
pub(crate) fn push_line(rt: &impl Abort, call: Call, out: &mut Vec<u8>) {
    let words = match call.verb {
        Verb::Balance => "balance",
        Verb::Deposit => "deposit",
        Verb::Savings => "savings",
        Verb::Check => "check",
        Verb::Amalgamate => "amalgamate",
    };
    let customer = call.customer;
    write!(out, "{words} c{customer}").expect(rt, "memory for a call");
    match call.verb {
        Verb::Balance => {}
        Verb::Amalgamate => push_other(rt, call.other, out),
        _ => push_amount(rt, call.amount, out),
    }
    out.push(b'\n').expect(rt, "memory for a call");
}

fn push_other(rt: &impl Abort, customer: usize, out: &mut Vec<u8>) {
    write!(out, " c{customer}").expect(rt, "memory for a name");
}

// A space, and the money text of some cents.
fn push_amount(rt: &impl Abort, cents: i64, out: &mut Vec<u8>) {
    let sign = if cents < 0 { "-" } else { "" };
    let size = cents.unsigned_abs();
    let whole = size / 100;
    let rest = size % 100;
    write!(out, " {sign}{whole}.{rest:02}").expect(rt, "memory for an amount");
}

/// Executes a call, and appends the line of its reply.
pub(crate) fn push_reply(
    rt: &impl Abort,
    number: u32,
    call: Call,
    accounts: &mut [Account],
    out: &mut Vec<u8>,
) {
    match reply_of(accounts, call) {
        Reply::Shown(total) => {
            write!(out, "{number} shown").expect(rt, "memory for a reply");
            push_amount(rt, total, out);
        }
        Reply::Words(words) => write!(out, "{number} {words}").expect(rt, "memory for a reply"),
    }
    out.push(b'\n').expect(rt, "memory for a reply");
}

fn reply_of(accounts: &mut [Account], call: Call) -> Reply {
    if let Verb::Amalgamate = call.verb {
        return Reply::Words(amalgamate(accounts, call.customer, call.other));
    }
    let Some(account) = accounts.get_mut(call.customer) else {
        return Reply::Words("no customer");
    };
    match call.verb {
        Verb::Deposit => Reply::Words(deposit(account, call.amount)),
        Verb::Savings => Reply::Words(transact(account, call.amount)),
        Verb::Check => Reply::Words(check(account, call.amount)),
        _ => Reply::Shown(account.savings.saturating_add(account.checking)),
    }
}

fn deposit(account: &mut Account, amount: i64) -> &'static str {
    let sum = account.checking.saturating_add(amount);
    if amount < 0 {
        return "negative";
    }
    if sum > LIMIT {
        return "over limit";
    }
    account.checking = sum;
    "done"
}

fn transact(account: &mut Account, amount: i64) -> &'static str {
    let sum = account.savings.saturating_add(amount);
    if sum < 0 {
        return "would overdraw";
    }
    if sum > LIMIT {
        return "over limit";
    }
    account.savings = sum;
    "done"
}

fn check(account: &mut Account, amount: i64) -> &'static str {
    if amount < 0 {
        return "negative";
    }
    let is_short = account.savings.saturating_add(account.checking) < amount;
    let penalty = if is_short { 100 } else { 0 };
    let left = account
        .checking
        .saturating_sub(amount)
        .saturating_sub(penalty);
    if left < -LIMIT {
        return "over limit";
    }
    account.checking = left;
    if is_short { "penalised" } else { "done" }
}

// Moves everything that a customer has to another's checking balance.
fn amalgamate(accounts: &mut [Account], giver: usize, taker: usize) -> &'static str {
    let Some(giving) = accounts.get(giver).copied() else {
        return "no customer";
    };
    let Some(taking) = accounts.get(taker).copied() else {
        return "no customer";
    };
    let moved = giving.savings.saturating_add(giving.checking);
    let sum = taking.checking.saturating_add(moved);
    if giver == taker {
        return "same customer";
    }
    if sum > LIMIT || sum < -LIMIT {
        return "over limit";
    }
    set(accounts, giver, 0, 0);
    set(accounts, taker, taking.savings, sum);
    "done"
}

fn set(accounts: &mut [Account], customer: usize, savings: i64, checking: i64) {
    if let Some(account) = accounts.get_mut(customer) {
        account.savings = savings;
        account.checking = checking;
    }
}

/// The accounts at the bank's opening.
pub(crate) fn opened(rt: &impl Abort, alloc: Global) -> Vec<Account> {
    let mut accounts = Vec::new(alloc);
    for customer in 0..9i64 {
        let account = Account {
            savings: customer.saturating_mul(100).saturating_add(50),
            checking: customer.saturating_mul(-700).saturating_sub(1),
        };
        accounts.push(account).expect(rt, "memory for an account");
    }
    accounts
}

/// Appends the line of each account; openings and outputs spell it alike.
pub(crate) fn push_rows(rt: &impl Abort, accounts: &[Account], out: &mut Vec<u8>) {
    let mut customer = 0u32;
    for account in accounts {
        write!(out, "c{customer}").expect(rt, "memory for a name");
        push_amount(rt, account.savings, out);
        push_amount(rt, account.checking, out);
        out.push(b'\n').expect(rt, "memory for a row");
        customer = customer.saturating_add(1);
    }
}

/// Appends the line of the total.
pub(crate) fn push_total(rt: &impl Abort, accounts: &[Account], out: &mut Vec<u8>) {
    let mut total = 0i64;
    for account in accounts {
        total = total
            .saturating_add(account.savings)
            .saturating_add(account.checking);
    }
    out.extend_from_slice(b"total")
        .expect(rt, "memory for a total");
    push_amount(rt, total, out);
    out.push(b'\n').expect(rt, "memory for a total");
}
