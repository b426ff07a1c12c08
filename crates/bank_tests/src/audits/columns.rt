//! Columns at the limit, and columns of each length around a lane count.
use super::{column, difference_of, expect_at, sum_of};
use lane_audit::{count_below, first_outside};
use sb_amount::LIMIT;
use std::alloc::Global;
use std::process::Abort;

// The length of a column, its sum if each value is at the limit, and its last place.
const LENGTHS: &[(usize, i64, Option<usize>)] = &[
    (0, 0, None),
    (1, 1_000_000_000_000, Some(0)),
    (7, 7_000_000_000_000, Some(6)),
    (8, 8_000_000_000_000, Some(7)),
    (9, 9_000_000_000_000, Some(8)),
    (65_536, 65_536_000_000_000_000, Some(65_535)),
];

// A column of this many equal values.
fn same(rt: &impl Abort, alloc: Global, length: usize, value: i64) -> Vec<i64> {
    let mut values = Vec::new(alloc);
    values.resize(length, value).expect(rt, "memory for values");
    values
}

fn expect_sum(rt: &impl Abort, values: &[i64], wanted: i64) {
    expect_at(rt, sum_of(rt, values) == wanted, values.len());
}

fn expect_difference(rt: &impl Abort, left: &[i64], right: &[i64], wanted: Option<usize>) {
    expect_at(rt, difference_of(rt, left, right) == wanted, left.len());
}

// Checks a column at the limit, and a second one that differs at the last place only.
fn expect_at_limit(rt: &impl Abort, alloc: Global, length: usize, sum: i64, last: Option<usize>) {
    let left = same(rt, alloc, length, LIMIT);
    expect_sum(rt, &left, sum);
    expect_sum(rt, &same(rt, alloc, length, -LIMIT), sum.wrapping_neg());
    let mut right = same(rt, alloc, length, LIMIT);
    expect_difference(rt, &left, &right, None);
    if let Some(value) = right.last_mut() {
        *value = -LIMIT;
    }
    expect_difference(rt, &left, &right, last);
}

#[test]
fn columns_at_the_limit(rt: HostRuntime) {
    for (length, sum, last) in LENGTHS {
        expect_at_limit(&rt, rt.alloc(), *length, *sum, *last);
    }
}

// Checks a column of zeros against one that differs at this place and at the last.
fn expect_first(rt: &impl Abort, alloc: Global, zeros: &[i64], place: usize) {
    let last = zeros.len().saturating_sub(1);
    let other = column(rt, alloc, zeros.len(), &[place, last], 1);
    expect_difference(rt, zeros, &other, Some(place));
}

// Checks that a column has this many values below 0, the first of them at this place, and this sum.
fn expect_below(rt: &impl Abort, values: &[i64], first: Option<usize>, below: usize, sum: i64) {
    expect_at(rt, first_outside(values, 0, 5) == first, values.len());
    expect_at(rt, count_below(values, 0) == below, values.len());
    expect_sum(rt, values, sum);
}

#[test]
fn one_value_at_each_place(rt: HostRuntime) {
    for length in 0..34usize {
        let zeros = column(&rt, rt.alloc(), length, &[], 0);
        expect_below(&rt, &zeros, None, 0, 0);
        for place in 0..length {
            expect_first(&rt, rt.alloc(), &zeros, place);
            let values = column(&rt, rt.alloc(), length, &[place], -1);
            expect_below(&rt, &values, Some(place), 1, -1);
        }
    }
}
