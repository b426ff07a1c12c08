//! Which bytes may be in a name, tested eight at a time.
ghost use Rattle.std.specs.Prelude.{◌≡◌, ◌+◌, ◌≤◌, length, take, drop};
ghost use Rattle.std.specs.List.{list_all};
ghost use Rattle.sb_rows.specs.Name as spec;

use std::simd::prelude::*;

// The number of bytes in a block. Most names have one or two blocks.
const LANES: usize = 8;

// Whether a byte may be in a name. Most are letters, so these are tested first.
#[inline(always)]
fn is_name_byte(byte: u8) -> bool
    ensures { result ≡ spec.is_name_byte byte }
{
    byte.is_ascii_lowercase() || byte.is_ascii_digit() || byte == b'_'
}

/// Whether each byte of a text may be in a name. The last block overlaps the one before.
#[inline]
pub(crate) fn are_name_bytes(text: &[u8]) -> bool
    ensures { result ≡ list_all spec.is_name_byte text.now }
{
    if text.len() < LANES {
        return text.iter().all(|byte| is_name_byte(*byte));
    }
    let mut at = 0;
    while text.len() - at > LANES {
        if !is_name_block(text, at) {
            return false;
        }
        at += LANES;
    }
    is_name_block(text, text.len() - LANES)
}

// Whether each byte of the block at a place may be in a name.
#[inline(always)]
fn is_name_block(text: &[u8], at: usize) -> bool
    requires { at + LANES ≤ length text.now }
    ensures { result ≡ list_all spec.is_name_byte (take LANES (drop at text.now)) }
{
    let block = u8x8::from_slice(&text[at..]);
    let is_letter = (block - u8x8::splat(b'a')).simd_lt(u8x8::splat(26));
    let is_digit = (block - u8x8::splat(b'0')).simd_lt(u8x8::splat(10));
    (is_letter | is_digit | block.simd_eq(u8x8::splat(b'_'))).all()
}
