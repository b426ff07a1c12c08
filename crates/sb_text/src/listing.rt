//! The rows in opening order and their total.
ghost use Rattle.std.specs.Prelude.{◌≡◌, ℕ, List, [], ◌∷◌, ◌++◌, map, OnOk};
ghost use Rattle.sb_rows.specs.Customer.{customers_of};
ghost use Rattle.sb_rows.specs.Opening.{customer_line};
ghost use Rattle.sb_rows.specs.Rows.{SameCustomers, rows_of};
ghost use Rattle.sb_rows.specs.Text.{unlines};
ghost use Rattle.sb_text.specs.Listing.{row_lines};

use crate::lines::{push_field, push_total};
use lane_audit::bank_total;
use sb_amount::{Cents, print};
use sb_rows::{Columns, Directory, Name};
use std::alloc::AllocError;

/// Appends to `out` a line `NAME SAVINGS CHECKING` for each customer, in opening order, and the line
/// `total TOTAL`.
///
/// Fails if memory is refused; a part of the lines may stand behind the old bytes then.
pub fn list_rows(
    directory: &Directory,
    columns: &Columns,
    out: &mut Vec<u8>,
) -> Result<(), AllocError>
    requires { SameCustomers directory.now columns.now }
    ensures { OnOk result (out.new.items
        ≡ out.old.items ++ unlines (row_lines directory.now (rows_of directory.now columns.now))) }
{
    list_customers(directory, columns, out)?;
    push_total(b"total ", bank_total(columns), out)
}

/// Appends to `out` a line `NAME SAVINGS CHECKING` for each customer, in opening order. With a line
/// `begin` behind them these are an opening.
///
/// Fails if memory is refused; a part of the lines may stand behind the old bytes then.
pub fn list_customers(
    directory: &Directory,
    columns: &Columns,
    out: &mut Vec<u8>,
) -> Result<(), AllocError>
    requires { SameCustomers directory.now columns.now }
    ensures { OnOk result (out.new.items
        ≡ out.old.items ++ unlines (map customer_line (customers_of directory.now columns.now))) }
{
    for place in 0..directory.len() as u32 {
        let name = directory.name(place).unwrap();
        push_customer(
            out,
            &name,
            columns.savings_of(place),
            columns.checking_of(place),
        )?;
    }
    Ok(())
}

// Writes a customer's line.
fn push_customer(
    out: &mut Vec<u8>,
    name: &Name,
    savings: Cents,
    checking: Cents,
) -> Result<(), AllocError>
    ensures { let line = customer_line (record { name = name.now; savings = savings; checking = checking }) in
        OnOk result (out.new.items ≡ out.old.items ++ line ++ 10 ∷ []) }
{
    push_field(name.text(), b' ', out)?;
    push_field(print(savings).as_str().as_bytes(), b' ', out)?;
    push_field(print(checking).as_str().as_bytes(), b'\n', out)
}
