//! The lines of a checkpoint.
ghost use Rattle.std.specs.Prelude.{◌≡◌, ◌++◌, [], ◌∷◌, OnOk, codes, decimal, length};
ghost use Rattle.sb_rows.specs.Opening.{customer_line};
ghost use Rattle.checkpoint_text.specs.Listing.{opening_total_lines, place_lines};
ghost use Rattle.checkpoint_text.specs.inner.AddedLines.{AddsLines};

use itoa::Buffer;
use sb_amount::{Cents, print};
use sb_rows::Columns;
use sb_text::{push_field, push_total};
use std::alloc::AllocError;

/// Appends a line of a word and a number. The word ends with its space.
///
/// Fails if memory is refused; a part of the line may stand behind the old bytes then, as with all
/// functions of this module.
pub(crate) fn push_count(word: &[u8], count: usize, out: &mut Vec<u8>) -> Result<(), AllocError>
    ensures { OnOk result (AddsLines out.old.items ((word.now ++ decimal count) ∷ []) out.new.items) }
{
    let mut buffer = Buffer::new();
    out.extend_from_slice(word)?;
    push_field(buffer.format(count).as_bytes(), b'\n', out)
}

/// Appends the line of the opening total, if there is one.
pub(crate) fn push_opening(opening_total: Option<i64>, out: &mut Vec<u8>) -> Result<(), AllocError>
    ensures { OnOk result (AddsLines out.old.items (opening_total_lines opening_total) out.new.items) }
{
    match opening_total {
        Some(total) => push_total(b"opening ", total, out),
        None => Ok(()),
    }
}

/// Appends a line `PLACE SAVINGS CHECKING` for each customer, in opening order.
pub(crate) fn push_places(columns: &Columns, out: &mut Vec<u8>) -> Result<(), AllocError>
    ensures { OnOk result (AddsLines out.old.items (place_lines columns.now) out.new.items) }
{
    for place in 0..columns.customers() as u32 {
        push_place(
            place,
            columns.savings_of(place),
            columns.checking_of(place),
            out,
        )?;
    }
    Ok(())
}

// Appends the line of a place.
fn push_place(
    place: u32,
    savings: Cents,
    checking: Cents,
    out: &mut Vec<u8>,
) -> Result<(), AllocError>
    ensures { let line = customer_line (record { name = decimal place; savings = savings; checking = checking }) in
        OnOk result (out.new.items ≡ out.old.items ++ line ++ 10 ∷ []) }
{
    let mut buffer = Buffer::new();
    push_field(buffer.format(place).as_bytes(), b' ', out)?;
    push_field(print(savings).as_str().as_bytes(), b' ', out)?;
    push_field(print(checking).as_str().as_bytes(), b'\n', out)
}
