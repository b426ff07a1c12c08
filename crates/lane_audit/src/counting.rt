//! The count of a column's low values.
ghost use Rattle.std.specs.Prelude.{◌≡◌, ◌%◌, ◌^◌, FitsSigned};
ghost use Rattle.std.specs.Int.{w64};
ghost use Rattle.std.specs.List.{All, flat_map};
ghost use Rattle.lane_audit.specs.Columns.{count_below};

use crate::lanes::{LANES, each_fits, with_counts};
use std::simd::prelude::*;

/// The number of values of a column below `low`.
pub fn count_below(values: &[i64], low: i64) -> usize
    ensures { result ≡ count_below values.now low }
{
    each_fits(values);
    let (blocks, rest) = values.as_chunks::<LANES>();
    let mut count = count_in_blocks(blocks, low) as usize;
    for value in rest {
        if *value < low {
            count += 1;
        }
    }
    count
}

// The number of values of all blocks below `low`. It wraps, as the lanes do.
fn count_in_blocks(blocks: &[[i64; LANES]], low: i64) -> u64
    requires { All (All (FitsSigned w64)) blocks.now }
    ensures { result ≡ count_below (flat_map (λ block. block) blocks.now) low % 2 ^ 64 }
{
    let mut counts = u64x8::splat(0);
    for block in blocks {
        counts = with_counts(counts, block, low);
    }
    counts.reduce_sum()
}
