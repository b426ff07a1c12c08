//! Replies in a frame, by their code, and the results of asks, by their status.
ghost use Rattle.sb_frames.specs.Outcomes as spec;
ghost use Rattle.sb_frames.specs.inner.FieldReading.{TakesField};

use crate::fault::FrameFault;
use crate::fields::Fields;
use crate::frame::AskOutcome;
use sb_calls::WireReply;

// The statuses.
pub(crate) const REPLIED: u8 = 0;

pub(crate) const MISMATCH: u8 = 1;

pub(crate) const LOG_FULL: u8 = 2;

#[tactic(auto, unfolding(crate::specs::Outcomes::reply_at))]
pub(crate) fn read_reply(fields: &mut Fields) -> Result<WireReply, FrameFault>
    ensures { TakesField result fields.new (spec.reply_at fields.old) }
{
    let (Some(code), Some(total)) = (fields.byte(), fields.i64()) else {
        return Err(FrameFault::BadLength);
    };
    WireReply::from_code(code, total).ok_or(FrameFault::BadReply)
}

// The outcome without a reply. Zeros follow it in place of the reply.
#[tactic(auto, unfolding(crate::specs::Outcomes::no_reply_at))]
fn read_no_reply(outcome: AskOutcome, fields: &mut Fields) -> Result<AskOutcome, FrameFault>
    ensures { TakesField result fields.new (spec.no_reply_at outcome fields.old) }
{
    let (Some(code), Some(total)) = (fields.byte(), fields.i64()) else {
        return Err(FrameFault::BadLength);
    };
    if code != 0 || total != 0 {
        return Err(FrameFault::BadReply);
    }
    Ok(outcome)
}

#[tactic(auto, unfolding(crate::specs::Outcomes::outcome_at))]
pub(crate) fn read_outcome(fields: &mut Fields) -> Result<AskOutcome, FrameFault>
    ensures { TakesField result fields.new (spec.outcome_at fields.old) }
{
    let Some(status) = fields.byte() else {
        return Err(FrameFault::BadLength);
    };
    match status {
        REPLIED => Ok(AskOutcome::Replied(read_reply(fields)?)),
        MISMATCH => read_no_reply(AskOutcome::Mismatch, fields),
        LOG_FULL => read_no_reply(AskOutcome::LogFull, fields),
        _ => Err(FrameFault::BadStatus),
    }
}
