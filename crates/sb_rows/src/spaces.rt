//! The spaces of a line, searched 16 bytes at a time.
ghost use Rattle.std.specs.Prelude.{◌≡◌, ◌+◌, ◌≤◌, length, take, drop};
ghost use Rattle.sb_rows.specs.inner.Spaces.{spaces_of};

use std::simd::prelude::*;

// The number of bytes in a block.
const LANES: usize = 16;

/// The longest line whose spaces fit into a mask.
pub(crate) const MASK_BYTES: usize = 64;

/// The spaces of a line: bit k is set exactly if byte k is a space. The last block is read from the
/// line's end.
#[inline]
pub(crate) fn spaces_of(line: &[u8]) -> u64
    requires { length line.now ≤ MASK_BYTES }
    ensures { result ≡ spaces_of line.now }
{
    if line.len() < LANES {
        return spaces_of_short(line);
    }
    let rest = line.len() % LANES;
    let mut spaces = spaces_of_block(line, line.len() - LANES) >> (LANES - rest);
    let mut at = line.len() - rest;
    while at > 0 {
        at -= LANES;
        spaces = spaces * 0x1_0000 + spaces_of_block(line, at);
    }
    spaces
}

// The spaces of a line that is shorter than a block.
fn spaces_of_short(line: &[u8]) -> u64
    requires { length line.now ≤ LANES }
    ensures { result ≡ spaces_of line.now }
{
    let mut spaces = 0;
    let mut at = line.len();
    while at > 0 {
        at -= 1;
        spaces = spaces * 2 + u64::from(line[at] == b' ');
    }
    spaces
}

// The spaces of the block at a place.
#[inline(always)]
fn spaces_of_block(line: &[u8], at: usize) -> u64
    requires { at + LANES ≤ length line.now }
    ensures { result ≡ spaces_of (take LANES (drop at line.now)) }
{
    let block = u8x16::from_slice(&line[at..]);
    block.simd_eq(u8x16::splat(b' ')).to_bitmask()
}
