//! The banks that are measured.
ghost use Rattle.std.specs.Prelude.{◌≡◌, ◌++◌, Ok, IfOk, OnOk, codes, length, string_bytes};
ghost use Rattle.sb_rows.specs.Opening.{opening_of};
ghost use Rattle.store_timing.specs.Banks.{IsBankOf, generated_line, generated_lines};

use crate::fault::Fault;
use sb_rows::{Opening, read_opening};
use std::alloc::Global;

/// The opening of this many customers `c0`, `c1`, .., each with these balances, for instance
/// `1000.00 1000.00`.
pub fn open_bank(alloc: Global, customers: u32, balances: &str) -> Result<Opening, Fault>
    ensures { IfOk result (λ opening.
        IsBankOf customers balances.now opening.directory opening.columns) }
{
    let text = bank_text(alloc, customers, balances)?;
    read_text(alloc, text.as_str(), customers)
}

// A line for each customer, and the line that ends them.
fn bank_text(alloc: Global, customers: u32, balances: &str) -> Result<String, Fault>
    ensures { IfOk result (λ text.
        string_bytes text ≡ generated_lines balances.now customers ++ codes "begin\n") }
{
    let mut text = String::new(alloc);
    for place in 0..customers {
        push_customer(alloc, place, balances, &mut text)?;
    }
    text.push_str("begin\n")?;
    Ok(text)
}

fn push_customer(alloc: Global, place: u32, balances: &str, text: &mut String) -> Result<(), Fault>
    ensures { OnOk result (string_bytes text.new ≡
        string_bytes text.old ++ generated_line balances.now place) }
{
    let line = format!(in alloc; "c{place} {balances}\n")?;
    text.push_str(line.as_str())?;
    Ok(())
}

// The opening that a text spells, if it has this many customers, as the caller wants whatever the
// balances are.
fn read_text(alloc: Global, text: &str, customers: u32) -> Result<Opening, Fault>
    ensures count { IfOk result (λ opening. length opening.directory ≡ customers) }
    ensures read { IfOk result (λ opening. opening_of text.now ≡ Ok (record {
      names = opening.directory;
      balances = opening.columns;
      consumed = opening.consumed;
    })) }
{
    match read_opening(alloc, text.as_bytes()) {
        Ok(opening) if opening.directory.len() == customers as usize => Ok(opening),
        _ => Err(Fault::Bank),
    }
}
