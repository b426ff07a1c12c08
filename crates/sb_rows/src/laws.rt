//! The limits, and how the columns relate to the rows.
ghost use Rattle.std.specs.Prelude.{◌≡◌};
ghost use Rattle.sb_rows.specs.Rows.{ReadsByPlace, AbsentWithoutPlace, WritesByPlace};

use crate::columns::CUSTOMERS;
use crate::name::NAME_BYTES;

/// The limits, as numbers.
pub fn limits()
    ensures customers { CUSTOMERS ≡ 65536 }
    ensures name { NAME_BYTES ≡ 20 }
{}

/// Columns by place, read through the directory, are the rows. A name at a place has the balances
/// there, any other name has none, and writing both balances at a place replaces that name's row.
pub fn rows_by_place()
    ensures read { ReadsByPlace }
    ensures absent { AbsentWithoutPlace }
    ensures written { WritesByPlace }
{}
