//! The line of one customer in an opening text.
ghost use Rattle.std.specs.Prelude.{◌≡◌, ◌<◌, List, length, pos, ◌≤ℤ◌, Ok, Err, None, IfOk, MatchResult};
ghost use Rattle.sb_rows.specs.Customer.{Customer, names_of};
ghost use Rattle.sb_rows.specs.inner.CustomerLine.{customer};
ghost use Rattle.sb_rows.specs.Directory.{place_of};
ghost use Rattle.sb_rows.specs.Opening.{customer_of};
ghost use Rattle.sb_rows.specs.Text.{words};
ghost use Rattle.sb_rows.specs.declared.columns.TheConstants.{CUSTOMERS};

use crate::columns::CUSTOMERS;
use crate::directory::Directory;
use crate::fault::LineFault;
use crate::name::Name;
use crate::words::Words;
use sb_amount::Cents;

// The parts of a customer's line.
#[derive(Clone, Copy)]
pub(crate) struct CustomerLine {
    pub(crate) name: Name,
    pub(crate) savings: Cents,
    pub(crate) checking: Cents,
}

// The customer of a line, or the line's first fault, if `before` has the names of the lines before
// it.
pub(crate) fn read_customer(before: &Directory, line: &[u8]) -> Result<CustomerLine, LineFault>
    ensures exact { (customers : List Customer) → names_of customers ≡ before.now
        → MatchResult result
        (λ c. customer_of customers (words line.now) ≡ Ok (customer c))
        (λ fault. customer_of customers (words line.now) ≡ Err fault) }
    ensures fits { IfOk result (λ c. (place_of before.now c.name ≡ None)
        × (length before.now < CUSTOMERS) × (pos 0 ≤ℤ c.savings)) }
{
    let mut words = Words::of(line);
    let (Ok(name), Ok(savings), Ok(checking)) = (words.word(), words.word(), words.last()) else {
        return Err(LineFault::BadLine);
    };
    let Some(name) = Name::new(name) else {
        return Err(LineFault::BadName);
    };
    if before.place(&name).is_some() {
        return Err(LineFault::DoubleName);
    }
    let (Ok(savings), Ok(checking)) = (Cents::read(savings), Cents::read(checking)) else {
        return Err(LineFault::BadMoney);
    };
    if savings.value() < 0 {
        return Err(LineFault::NegativeSavings);
    }
    if before.len() >= CUSTOMERS {
        return Err(LineFault::TooMany);
    }
    Ok(CustomerLine {
        name,
        savings,
        checking,
    })
}
