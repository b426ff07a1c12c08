//! Amounts on a line.

use sb_amount::print_total;
use std::alloc::AllocError;

/// Writes a word and amounts, on a line.
pub(crate) fn push_amounts(
    word: &str,
    amounts: &[i64],
    out: &mut Vec<u8>,
) -> Result<(), AllocError> {
    out.extend_from_slice(word.as_bytes())?;
    for amount in amounts {
        out.push(b' ')?;
        out.extend_from_slice(print_total(*amount).as_str().as_bytes())?;
    }
    Ok(out.push(b'\n')?)
}
