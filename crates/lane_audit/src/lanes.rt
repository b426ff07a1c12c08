//! One block of eight values: one vector.
ghost use Rattle.std.specs.Prelude.{◌≡◌, ◌+◌, ◌%◌, ◌^◌, ◌≤◌, ◌↔◌, ◌+ℤ◌, int_lt, if◌then◌else◌, length, take, drop, All, IsTrue, FitsSigned};
ghost use Rattle.std.specs.Int.{w64};
ghost use Rattle.std.specs.List.{list_any};
ghost use Rattle.std.specs.Simd.Lanes.{Each2, zip2};
ghost use Rattle.lane_audit.specs.Columns.{is_outside};

use std::simd::prelude::*;

/// The number of values in a block.
pub(crate) const LANES: usize = 8;

// Adds the block's value to each lane. No lane overflows.
#[inline(always)]
pub(crate) fn with_block(sums: i64x8, block: &[i64; LANES]) -> i64x8
    requires { Each2
        (λ sum value. FitsSigned w64 sum × FitsSigned w64 value × FitsSigned w64 (sum +ℤ value))
        sums block.now }
    ensures { result ≡ zip2 (λ sum value. sum +ℤ value) sums block.now }
{
    sums + i64x8::from_array(*block)
}

// Adds 1 to each lane whose value in the block is below `low`. It wraps.
#[inline(always)]
pub(crate) fn with_counts(counts: u64x8, block: &[i64; LANES], low: i64) -> u64x8
    requires { All (FitsSigned w64) block.now }
    ensures { result ≡ zip2
        (λ count value. (count + (if int_lt value low then 1 else 0)) % 2 ^ 64) counts block.now }
{
    let is_below = i64x8::from_array(*block).simd_lt(i64x8::splat(low));
    counts + is_below.select(u64x8::splat(1), u64x8::splat(0))
}

// Whether two columns have the same block at a place.
#[inline(always)]
pub(crate) fn is_same_block(left: &[i64], right: &[i64], at: usize) -> bool
    requires left { at + LANES ≤ length left.now }
    requires right { at + LANES ≤ length right.now }
    requires left_fits { All (FitsSigned w64) left.now }
    requires right_fits { All (FitsSigned w64) right.now }
    ensures { IsTrue result ↔ (take LANES (drop at left.now) ≡ take LANES (drop at right.now)) }
{
    let left = i64x8::from_slice(&left[at..]);
    !left.simd_ne(i64x8::from_slice(&right[at..])).any()
}

// Whether a value of the block at a place is below `low` or above `high`.
#[inline(always)]
pub(crate) fn has_outside(values: &[i64], at: usize, low: i64, high: i64) -> bool
    requires room { at + LANES ≤ length values.now }
    requires fits { All (FitsSigned w64) values.now }
    ensures { result ≡ list_any (is_outside low high) (take LANES (drop at values.now)) }
{
    let block = i64x8::from_slice(&values[at..]);
    (block.simd_lt(i64x8::splat(low)) | block.simd_gt(i64x8::splat(high))).any()
}

// Each value fits its type. For the prover alone: it knows this of a signed value only once the
// value is read, and a vector isn't read value by value. The loop does nothing, and the compiler
// removes it.
#[inline(always)]
pub(crate) fn each_fits(values: &[i64])
    ensures { All (FitsSigned w64) values.now }
{
    for value in values {
        let _value = *value;
    }
}
