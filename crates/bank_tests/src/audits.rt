//! Columns of integers, and audits.
use lane_audit::{first_difference, sum};
use sb_amount::LIMIT;
use sb_rows::CUSTOMERS;
use std::alloc::Global;
use std::process::Abort;

mod columns;
mod worked;

// Checks one of several columns, named by its length.
fn expect_at(rt: &impl Abort, holds: bool, length: usize) {
    assert!(rt; holds, "{length}");
}

// A column of zeros, with another value at some places.
fn column(rt: &impl Abort, alloc: Global, length: usize, places: &[usize], value: i64) -> Vec<i64> {
    let mut values = Vec::new(alloc);
    for place in 0..length {
        let at_place = if places.contains(&place) { value } else { 0 };
        values.push(at_place).expect(rt, "memory for a value");
    }
    values
}

// The sum of a column that a bank may have.
fn sum_of(rt: &impl Abort, values: &[i64]) -> i64 {
    assert!(rt; values.len() <= CUSTOMERS);
    for value in values {
        assert!(rt; -LIMIT <= *value);
        assert!(rt; *value <= LIMIT);
    }
    sum(values)
}

// The first difference of two columns of one length.
fn difference_of(rt: &impl Abort, left: &[i64], right: &[i64]) -> Option<usize> {
    assert!(rt; left.len() == right.len());
    first_difference(left, right)
}
