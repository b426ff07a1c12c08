//! The opening text: a line `NAME SAVINGS CHECKING` for each customer, then the line `begin`.
ghost use Rattle.std.specs.Prelude.{◌≡◌, ℕ, ◌≤◌, List, [], ◌++◌, length, drop, Ok, Err, IfOk, MatchResult};
ghost use Rattle.sb_rows.specs.Customer.{Customer, IsBank, names_of, balances_of, customers_of};
ghost use Rattle.sb_rows.specs.Opening.{opening_lines, opening_of};
ghost use Rattle.sb_rows.specs.inner.AddedCustomer.{AddsCustomer};
ghost use Rattle.sb_rows.specs.OpeningReads.{Reads};
ghost use Rattle.sb_rows.specs.Rows.{SameCustomers};
ghost use Rattle.sb_rows.specs.Text.{lines};

use crate::columns::Columns;
use crate::customer::read_customer;
use crate::directory::Directory;
use crate::fault::{LineFault, OpeningFault};
use crate::opening::Opening;
use crate::text::next_line;
use std::alloc::Global;

// Adds the customer of a line after those of the lines before it.
fn add_customer(
    directory: &mut Directory,
    columns: &mut Columns,
    line: &[u8],
) -> Result<(), OpeningFault>
    requires { SameCustomers directory.old columns.old }
    ensures same { IfOk result (λ _. SameCustomers directory.new columns.new) }
    ensures adds { AddsCustomer (customers_of directory.old columns.old) line.now
        (customers_of directory.new columns.new) result }
{
    let number = directory.len() + 1;
    let customer = match read_customer(directory, line) {
        Ok(customer) => customer,
        Err(fault) => {
            return Err(OpeningFault::Line {
                line: number,
                fault,
            });
        }
    };
    directory.push(customer.name)?;
    columns.push(customer.savings, customer.checking)?;
    Ok(())
}

// Adds the customers of the opening at the front of a text, and answers how many bytes it takes.
fn read_customers(
    directory: &mut Directory,
    columns: &mut Columns,
    text: &[u8],
) -> Result<usize, OpeningFault>
    requires empty { directory.old ≡ [] }
    requires same { SameCustomers directory.old columns.old }
    ensures same { IfOk result (λ _. SameCustomers directory.new columns.new) }
    ensures exact { MatchResult result
        (λ consumed. opening_of text.now
        ≡ Ok (record { names = directory.new; balances = columns.new; consumed = consumed }))
        (λ fault. Reads (Err fault) (opening_of text.now)) }
    ensures within { IfOk result (λ consumed. consumed ≤ length text.now) }
{
    let mut rest = text;
    while let Some((line, after)) = next_line(rest) {
        rest = after;
        if line == b"begin".as_slice() {
            return Ok(text.len() - rest.len());
        }
        add_customer(directory, columns, line)?;
    }
    Err(OpeningFault::Line {
        line: directory.len() + 1,
        fault: LineFault::NoBegin,
    })
}

/// Reads the opening at the front of a text. The text after the line `begin` isn't read.
///
/// Fails with the first faulty line and its first fault, in the order of [`crate::LineFault`]'s
/// variants. If the text has no line `begin`, the fault's line is the one after the last. If memory
/// is refused, `OutOfMemory` may stand in the place of any fault.
pub fn read_opening(alloc: Global, text: &[u8]) -> Result<Opening, OpeningFault>
    // The text begins with the opening that is read, and goes on after the bytes that it takes.
    ensures spelled { IfOk result (λ o.
        IsBank (customers_of o.directory o.columns)
        × (lines text.now ≡ opening_lines (customers_of o.directory o.columns) ++ lines (drop o.consumed text.now))) }
    // A text that spells an opening is read, unless memory is refused.
    ensures complete { (customers : List Customer) (rest : List (List ℕ)) → IsBank customers
        → lines text.now ≡ opening_lines customers ++ rest
        → MatchResult result
        (λ o. (o.directory ≡ names_of customers) × (o.columns ≡ balances_of customers))
        (λ fault. fault ≡ OpeningFault.OutOfMemory) }
    // The names, the balances and the bytes taken, or the first fault with its line.
    ensures exact { Reads result (opening_of text.now) }
    ensures within { IfOk result (λ o. o.consumed ≤ length text.now) }
{
    let mut directory = Directory::new(alloc);
    let mut columns = Columns::new(alloc);
    let consumed = read_customers(&mut directory, &mut columns, text)?;
    Ok(Opening {
        directory,
        columns,
        consumed,
    })
}
