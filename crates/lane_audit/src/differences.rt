//! The first difference of two columns.
ghost use Rattle.std.specs.Prelude.{◌≡◌, ℕ, ◌<◌, ◌≤◌, pos, length, slice_index_or};
ghost use Rattle.lane_audit.specs.Columns.{first_difference};

use crate::lanes::{LANES, each_fits, is_same_block};

/// The least place at which two columns of one length differ, or `None` if they are equal.
pub fn first_difference(left: &[i64], right: &[i64]) -> Option<usize>
    requires { length left.now ≡ length right.now }
    ensures { result ≡ first_difference left.now right.now }
{
    for place in same_front(left, right)..left.len() {
        if left[place] != right[place] {
            return Some(place);
        }
    }
    None
}

// A place below which both columns are the same, found by whole blocks.
fn same_front(left: &[i64], right: &[i64]) -> usize
    requires { length left.now ≡ length right.now }
    ensures within { result ≤ length left.now }
    ensures same { (k : ℕ) → k < result → slice_index_or left.now k (pos 0) ≡ slice_index_or right.now k (pos 0) }
{
    each_fits(left);
    each_fits(right);
    let mut at = 0;
    while left.len() - at >= LANES && is_same_block(left, right, at) {
        at += LANES;
    }
    at
}
