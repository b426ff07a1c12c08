//! The sum of a column.
ghost use Rattle.std.specs.Prelude.{◌≡◌, ◌≤◌, ◌*◌, length};
ghost use Rattle.std.specs.List.{All, flat_map};
ghost use Rattle.sb_amount.specs.Limit.{IsWithinLimit};
ghost use Rattle.lane_audit.specs.Columns.{total};

use crate::lanes::{LANES, each_fits, with_block};
use sb_rows::CUSTOMERS;
use std::simd::prelude::*;

/// The sum of a column. So that it fits, the column may have at most as many values as a bank has
/// customers, each in the range of a balance.
pub fn sum(values: &[i64]) -> i64
    requires limit { length values.now ≤ CUSTOMERS }
    requires within { All IsWithinLimit values.now }
    ensures { result ≡ total values.now }
{
    each_fits(values);
    let (blocks, rest) = values.as_chunks::<LANES>();
    let mut sum = sum_of_blocks(blocks);
    for value in rest {
        sum += *value;
    }
    sum
}

// The sum of all blocks. No lane overflows in between.
fn sum_of_blocks(blocks: &[[i64; LANES]]) -> i64
    requires limit { length blocks.now * LANES ≤ CUSTOMERS }
    requires within { All (All IsWithinLimit) blocks.now }
    ensures { result ≡ total (flat_map (λ block. block) blocks.now) }
{
    let mut sums = i64x8::splat(0);
    for block in blocks {
        sums = with_block(sums, block);
    }
    sums.reduce_sum()
}
