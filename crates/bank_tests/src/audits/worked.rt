//! Audits worked by hand.
use crate::fixtures::{cents, expect, name};
use lane_audit::{Audit, audit, bank_total};
use sb_calls::{Call, Reply};
use sb_rows::{Columns, read_opening};
use std::alloc::Global;
use std::process::Abort;

const OPENING: &str = "alice 100.00 50.00\nbob 0.00 20.00\ncarol 10.00 0.00\nbegin\n";

// The same bank after the calls of the test.
const CLOSING: &str = "alice 90.00 60.00\nbob 0.00 -1.01\ncarol 0.00 0.00\nbegin\n";

// The balances of the bank of this text.
fn columns_of(rt: &impl Abort, alloc: Global, text: &str) -> Box<Columns> {
    let opening = read_opening(alloc, text.as_bytes()).expect(rt, "an opening");
    Box::new(alloc, opening.columns).expect(rt, "memory for a box")
}

// The opening's total, and the audit of a bank that was the opening's before six calls.
fn audit_of(rt: &impl Abort, opening: &Columns, now: &Columns) -> (i64, Audit) {
    let (alice, bob, carol) = (name(rt, "alice"), name(rt, "bob"), name(rt, "carol"));
    let calls = [
        Call::DepositChecking(bob, cents(rt, 500)),
        Call::WriteCheck(bob, cents(rt, 2501)),
        Call::TransactSavings(alice, cents(rt, -1000)),
        Call::Amalgamate(carol, alice),
        Call::Balance(alice),
        Call::DepositChecking(name(rt, "zed"), cents(rt, 100)),
    ];
    let replies = [
        Reply::Done,
        Reply::Penalised,
        Reply::Done,
        Reply::Done,
        Reply::Shown(15000),
        Reply::NoCustomer,
    ];
    let before = bank_total(opening);
    (before, audit(now, before, &calls, &replies))
}

// Checks the audit of the bank with this text.
fn expect_audit(rt: &impl Abort, alloc: Global, text: &str, wanted: Audit) {
    let opening = columns_of(rt, alloc, OPENING);
    let now = columns_of(rt, alloc, text);
    expect(rt, audit_of(rt, &opening, &now) == (18000, wanted), text);
}

#[test]
fn a_small_bank(rt: HostRuntime) {
    // 18000 + 500 - (2501 + 100) - 1000
    let right = Audit {
        total: 14899,
        expected: 14899,
        overdrawn: 1,
    };
    expect_audit(&rt, rt.alloc(), CLOSING, right);
    // Balances that the calls don't explain.
    let wrong = Audit {
        total: 18000,
        expected: 14899,
        overdrawn: 0,
    };
    expect_audit(&rt, rt.alloc(), OPENING, wrong);
}
