//! Columns, and copies of them.
use crate::fixtures::{cents, expect, expect_columns};
use sb_rows::{CUSTOMERS, Columns};
use std::alloc::Global;
use std::process::Abort;

// Appends the balances of one more customer, if they are in range.
fn add_balances(rt: &impl Abort, columns: &mut Columns, savings: i64, checking: i64) {
    let (savings, checking) = (cents(rt, savings), cents(rt, checking));
    if columns.customers() < CUSTOMERS && savings.value() >= 0 {
        columns
            .push(savings, checking)
            .expect(rt, "memory for balances");
    }
}

// Replaces the savings of the first customer and the checking balance of the second.
fn replace_two(rt: &impl Abort, columns: &mut Columns, amount: i64) {
    let amount = cents(rt, amount);
    if columns.customers() > 1 && amount.value() >= 0 {
        columns.set_savings(0, amount);
        columns.set_checking(1, amount);
        expect(rt, columns.savings_of(0) == amount, "savings");
        expect(rt, columns.checking_of(1) == amount, "a checking balance");
    }
}

fn empty(rt: &impl Abort, alloc: Global) -> Box<Columns> {
    Box::new(alloc, Columns::new(alloc)).expect(rt, "memory for a box")
}

/// A copy of columns.
pub(super) fn copy_of(rt: &impl Abort, alloc: Global, columns: &Columns) -> Box<Columns> {
    let copy = columns.copy().expect(rt, "memory for columns");
    Box::new(alloc, copy).expect(rt, "memory for a box")
}

#[test]
fn a_copy_stays(rt: HostRuntime) {
    let mut columns = empty(&rt, rt.alloc());
    add_balances(&rt, &mut columns, 500, -20);
    add_balances(&rt, &mut columns, 0, 7);
    let copy = copy_of(&rt, rt.alloc(), &columns);
    add_balances(&rt, &mut columns, 1, 2);
    replace_two(&rt, &mut columns, 9);
    expect_columns(&rt, &columns, &[9, 0, 1], &[-20, 9, 2]);
    expect_columns(&rt, &copy, &[500, 0], &[-20, 7]);
}
