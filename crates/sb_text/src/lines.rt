//! What lines are made of.
ghost use Rattle.std.specs.Prelude.{◌≡◌, [], ◌∷◌, ◌++◌, OnOk};
ghost use Rattle.sb_amount.specs.Money.{money};

use sb_amount::print_total;
use std::alloc::AllocError;

/// Appends to `out` a line of a word and a total in cents. The word ends with its space.
///
/// Fails if memory is refused; a part of the line may stand behind the old bytes then.
pub fn push_total(word: &[u8], total: i64, out: &mut Vec<u8>) -> Result<(), AllocError>
    ensures { OnOk result (out.new.items ≡ out.old.items ++ (word.now ++ money total) ++ 10 ∷ []) }
{
    out.extend_from_slice(word)?;
    push_field(print_total(total).as_str().as_bytes(), b'\n', out)
}

/// Appends to `out` a field, and the byte that ends it.
///
/// Fails if memory is refused; the field may stand behind the old bytes then.
#[inline]
pub fn push_field(field: &[u8], end: u8, out: &mut Vec<u8>) -> Result<(), AllocError>
    ensures { OnOk result (out.new.items ≡ out.old.items ++ field.now ++ end ∷ []) }
{
    out.extend_from_slice(field)?;
    out.push(end)?;
    Ok(())
}
