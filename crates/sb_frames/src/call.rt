//! Calls in a frame, by their kind.
ghost use Rattle.sb_frames.specs.Calls.{call_of_kind, call_at};
ghost use Rattle.sb_frames.specs.inner.FieldReading.{TakesField};
ghost use Rattle.sb_frames.specs.inner.CallReading.{HasNameAndAmount, HasTwoNames};

use crate::fault::FrameFault;
use crate::fields::Fields;
use sb_calls::Call;

// The kinds.
pub(crate) const BALANCE: u8 = 1;

pub(crate) const DEPOSIT_CHECKING: u8 = 2;

pub(crate) const TRANSACT_SAVINGS: u8 = 3;

pub(crate) const AMALGAMATE: u8 = 4;

pub(crate) const WRITE_CHECK: u8 = 5;

pub(crate) const SEND_PAYMENT: u8 = 6;

// A call with a name and an amount.
#[inline]
fn read_name_and_amount(kind: u8, fields: &mut Fields) -> Result<Call, FrameFault>
    requires { HasNameAndAmount kind }
    ensures { TakesField result fields.new (call_of_kind kind fields.old) }
{
    let name = fields.name()?;
    let amount = fields.amount()?;
    match kind {
        DEPOSIT_CHECKING => Ok(Call::DepositChecking(name, amount)),
        TRANSACT_SAVINGS => Ok(Call::TransactSavings(name, amount)),
        _ => Ok(Call::WriteCheck(name, amount)),
    }
}

// A call with two names.
#[inline]
fn read_two_names(kind: u8, fields: &mut Fields) -> Result<Call, FrameFault>
    requires { HasTwoNames kind }
    ensures { TakesField result fields.new (call_of_kind kind fields.old) }
{
    let from = fields.name()?;
    let to = fields.name()?;
    if kind == AMALGAMATE {
        return Ok(Call::Amalgamate(from, to));
    }
    Ok(Call::SendPayment(from, to, fields.amount()?))
}

#[inline]
#[tactic(auto, unfolding(crate::specs::Calls::call_at))]
pub(crate) fn read_call(fields: &mut Fields) -> Result<Call, FrameFault>
    ensures { TakesField result fields.new (call_at fields.old) }
{
    let Some(kind) = fields.byte() else {
        return Err(FrameFault::BadLength);
    };
    match kind {
        BALANCE => Ok(Call::Balance(fields.name()?)),
        DEPOSIT_CHECKING | TRANSACT_SAVINGS | WRITE_CHECK => { read_name_and_amount(kind, fields) }
        AMALGAMATE | SEND_PAYMENT => read_two_names(kind, fields),
        _ => Err(FrameFault::UnknownTag),
    }
}
