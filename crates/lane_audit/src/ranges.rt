//! The first value of a column outside a range.
ghost use Rattle.std.specs.Prelude.{◌≡◌, ℕ, ◌<◌, ◌≤◌, pos, false, length, slice_index_or};
ghost use Rattle.lane_audit.specs.Columns.{first_outside, is_outside};

use crate::lanes::{LANES, each_fits, has_outside};

/// The least place whose value is below `low` or above `high`, or `None` if there is none.
pub fn first_outside(values: &[i64], low: i64, high: i64) -> Option<usize>
    ensures { result ≡ first_outside values.now low high }
{
    for place in inside_front(values, low, high)..values.len() {
        if values[place] < low || high < values[place] {
            return Some(place);
        }
    }
    None
}

// A place below which no value is outside, found by whole blocks.
fn inside_front(values: &[i64], low: i64, high: i64) -> usize
    ensures within { result ≤ length values.now }
    ensures inside { (k : ℕ) → k < result → is_outside low high (slice_index_or values.now k (pos 0)) ≡ false }
{
    each_fits(values);
    let mut at = 0;
    while values.len() - at >= LANES && !has_outside(values, at, low, high) {
        at += LANES;
    }
    at
}
