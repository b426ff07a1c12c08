//! Entries of the log, read with their names looked up.
ghost use Rattle.std.specs.Prelude.{◌≡◌, ℕ, List, length, IfOk, IfErr};
ghost use Rattle.std.specs.Result.{result_ok};
ghost use Rattle.sb_calls.specs.Op.{at_two_places};
ghost use Rattle.sb_calls.specs.declared.op.Op.{Op as AnyOp};
ghost use Rattle.sb_frames.specs.Streaming.{AreBytes};
ghost use Rattle.sb_frames.specs.inner.CallReading.{HasNameAndAmount, HasTwoNames};
ghost use Rattle.sb_frames.specs.inner.EntryReading as spec;
ghost use Rattle.sb_frames.specs.inner.FieldReading.{TakesIfRead};

use crate::call::{
    AMALGAMATE, BALANCE, DEPOSIT_CHECKING, SEND_PAYMENT, TRANSACT_SAVINGS, WRITE_CHECK,
};
use crate::decoding::{ENTRY, frame_size};
use crate::fields::Fields;
use crate::frame::LENGTH_BYTES;
use sb_calls::{Op, TwoPlaces};
use sb_rows::Directory;

/// An entry of the log, with its names looked up.
#[derive(Clone, Copy, Debug, PartialEq, Eq)]
pub struct EntryOp {
    /// The number of the entry in the log.
    pub number: u64,
    /// The call of the entry.
    pub op: Op,
}

// The places of two customers, or the op where one is missing or both are the same.
#[inline]
fn two_places(from: Option<u32>, to: Option<u32>) -> Result<TwoPlaces, Op>
    ensures places { IfOk result (λ places. (op : ℕ × ℕ → AnyOp) → at_two_places op from to ≡ op places) }
    ensures refusal { IfErr result (λ refusal. (op : ℕ × ℕ → AnyOp) → at_two_places op from to ≡ refusal) }
{
    let (Some(from), Some(to)) = (from, to) else {
        return Err(Op::NoCustomer);
    };
    TwoPlaces::new(from, to).ok_or(Op::SameCustomer)
}

// The op of a call with a name and an amount, after the place of its name.
#[inline]
fn read_op_with_amount(kind: u8, place: Option<u32>, fields: &mut Fields) -> Option<Op>
    requires { HasNameAndAmount kind }
    ensures { (names : List (List ℕ))
        → TakesIfRead result fields.new (spec.op_of_kind names kind place fields.old) }
{
    let Ok(amount) = fields.amount() else {
        return None;
    };
    let Some(place) = place else {
        return Some(Op::NoCustomer);
    };
    match kind {
        DEPOSIT_CHECKING => Some(Op::DepositChecking(place, amount)),
        TRANSACT_SAVINGS => Some(Op::TransactSavings(place, amount)),
        _ => Some(Op::WriteCheck(place, amount)),
    }
}

// The op of a call with two names, after the place of the first.
#[inline]
#[tactic(auto, unfolding(crate::specs::inner::EntryReading::place_at))]
fn read_op_of_two(
    kind: u8,
    from: Option<u32>,
    fields: &mut Fields,
    directory: &Directory,
) -> Option<Op>
    requires { HasTwoNames kind }
    ensures { TakesIfRead result fields.new (spec.op_of_kind directory.now kind from fields.old) }
{
    let Ok(to) = fields.name() else {
        return None;
    };
    let places = two_places(from, directory.place(&to));
    if kind == AMALGAMATE {
        return match places {
            Ok(places) => Some(Op::Amalgamate(places)),
            Err(refusal) => Some(refusal),
        };
    }
    let Ok(amount) = fields.amount() else {
        return None;
    };
    match places {
        Ok(places) => Some(Op::SendPayment(places, amount)),
        Err(refusal) => Some(refusal),
    }
}

// A call's op. Every kind has a name first: it is read and looked up before the kind is examined, so
// that the code for it stands once where this function is inlined.
#[inline]
#[tactic(auto, unfolding(crate::specs::inner::EntryReading::op_at, crate::specs::inner::EntryReading::place_at))]
fn read_op(fields: &mut Fields, directory: &Directory) -> Option<Op>
    ensures { TakesIfRead result fields.new (spec.op_at directory.now fields.old) }
{
    let Some(kind) = fields.byte() else {
        return None;
    };
    let Ok(name) = fields.name() else {
        return None;
    };
    let place = directory.place(&name);
    match kind {
        BALANCE => match place {
            Some(place) => Some(Op::Balance(place)),
            None => Some(Op::NoCustomer),
        },
        DEPOSIT_CHECKING | TRANSACT_SAVINGS | WRITE_CHECK => {
            read_op_with_amount(kind, place, fields)
        }
        AMALGAMATE | SEND_PAYMENT => read_op_of_two(kind, place, fields, directory),
        _ => None,
    }
}

// The entry of a body, if it is one. Nothing may follow its fields.
#[inline]
#[tactic(auto, unfolding(crate::specs::inner::EntryReading::body_entry))]
fn entry_of(body: &[u8], directory: &Directory) -> Option<EntryOp>
    ensures { result ≡ result_ok (spec.body_entry directory.now body.now) }
{
    let mut fields = Fields::of(body);
    let (Some(ENTRY), Some(number)) = (fields.byte(), fields.u64()) else {
        return None;
    };
    let Some(op) = read_op(&mut fields, directory) else {
        return None;
    };
    if fields.is_empty() {
        Some(EntryOp { number, op })
    } else {
        None
    }
}

/// The entry at the front of the bytes, or `None` if no whole entry is there.
#[inline]
#[tactic(auto, unfolding(crate::specs::inner::EntryReading::first_entry))]
pub(crate) fn first_entry(bytes: &[u8], directory: &Directory) -> Option<EntryOp>
    ensures entry { result ≡ result_ok (spec.first_entry directory.now bytes.now) }
    ensures bytes { AreBytes bytes.now }
{
    let Ok(size) = frame_size(bytes) else {
        return None;
    };
    entry_of(&bytes[LENGTH_BYTES..size], directory)
}
