//! Reading and writing balances by cown.
ghost use Rattle.std.specs.Prelude.{◌≡◌, ◌<◌, ◌≤◌, length, pos, get_or, slice_set};
ghost use Rattle.sb_calls.specs.Cowns.{AreBelow, AreCownValues, IsCownValue, contents_of, read_cowns, write_cowns};

use super::behaviour::BEHAVIOUR_COWNS;
use super::cown::Cown;
use arrayvec::ArrayVec;
use sb_amount::Cents;
use sb_rows::{CUSTOMERS, Columns};

/// What these cowns contain, in the same order.
pub fn read_cowns(columns: &Columns, cowns: &[Cown]) -> ArrayVec<Cents, BEHAVIOUR_COWNS>
    requires limit { length cowns.now ≤ 3 }
    requires cowns { AreBelow (length (contents_of columns.now)) cowns.now }
    ensures { result.items ≡ read_cowns (contents_of columns.now) cowns.now }
{
    let mut values = ArrayVec::new();
    for cown in cowns {
        values.push(read_cown(columns, *cown));
    }
    values
}

/// Replaces what these cowns contain. Each gets the value at its own position.
pub fn write_cowns(columns: &mut Columns, cowns: &[Cown], values: &[Cents])
    requires cowns { AreBelow (length (contents_of columns.old)) cowns.now }
    requires values { AreCownValues cowns.now values.now }
    ensures { contents_of columns.new ≡ write_cowns (contents_of columns.old) cowns.now values.now }
{
    for position in 0..cowns.len() {
        write_cown(columns, cowns[position], values[position]);
    }
}

// What a cown contains.
#[tactic(auto, using(crate::proofs::CownPlaces::reading_a_cown))]
fn read_cown(columns: &Columns, cown: Cown) -> Cents
    requires { cown < length (contents_of columns.now) }
    ensures { result ≡ get_or (contents_of columns.now) cown (pos 0) }
{
    // They are the columns of a bank.
    prove!(columns.customers() <= CUSTOMERS);
    let id = cown.id();
    let place = (id / 2) as u32;
    if id % 2 == 0 {
        columns.savings_of(place)
    } else {
        columns.checking_of(place)
    }
}

// Replaces what a cown contains.
#[tactic(auto, using(crate::proofs::CownPlaces::writing_a_cown))]
fn write_cown(columns: &mut Columns, cown: Cown, value: Cents)
    requires cown { cown < length (contents_of columns.old) }
    requires value { IsCownValue cown value }
    ensures { contents_of columns.new ≡ slice_set (contents_of columns.old) cown value }
{
    prove!(columns.customers() <= CUSTOMERS);
    let id = cown.id();
    let place = (id / 2) as u32;
    if id % 2 == 0 {
        columns.set_savings(place, value);
    } else {
        columns.set_checking(place, value);
    }
}
