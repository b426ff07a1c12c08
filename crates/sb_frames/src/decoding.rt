//! Frames decoded from bytes.
ghost use Rattle.std.specs.Prelude.{◌≡◌, ◌≢◌, ◌⊎◌, ℕ, ◌≤◌, List, ◌++◌, Ok, Err, IfOk, length, take};
ghost use Rattle.sb_frames.specs.Decoding as spec;
ghost use Rattle.sb_frames.specs.Decoding.{decode_result};
ghost use Rattle.sb_frames.specs.Grammar.{Spells};
ghost use Rattle.sb_frames.specs.inner.FieldReading.{TakesField};
ghost use Rattle.sb_frames.specs.declared.frame.Frame.{Frame as AnyFrame};

use crate::call::read_call;
use crate::fault::FrameFault;
use crate::fields::Fields;
use crate::frame::{Frame, LENGTH_BYTES, MAX_BODY};
use crate::outcome::{read_outcome, read_reply};
use byteorder::{BigEndian, ByteOrder};

// The tags.
pub(crate) const ASK: u8 = 1;

pub(crate) const ENTRY: u8 = 2;

pub(crate) const ACK: u8 = 3;

pub(crate) const ANSWER: u8 = 4;

pub(crate) const OUTCOME: u8 = 5;

pub(crate) const FLUSH: u8 = 6;

pub(crate) const HAVE: u8 = 7;

#[tactic(auto, unfolding(crate::specs::Decoding::ask_at))]
fn read_ask(fields: &mut Fields) -> Result<Frame, FrameFault>
    ensures { TakesField result fields.new (spec.ask_at fields.old) }
{
    let (Some(client), Some(request)) = (fields.u32(), fields.u32()) else {
        return Err(FrameFault::BadLength);
    };
    let call = read_call(fields)?;
    Ok(Frame::Ask {
        client,
        request,
        call,
    })
}

#[inline]
#[tactic(auto, unfolding(crate::specs::Decoding::entry_at))]
fn read_entry(fields: &mut Fields) -> Result<Frame, FrameFault>
    ensures { TakesField result fields.new (spec.entry_at fields.old) }
{
    let Some(number) = fields.u64() else {
        return Err(FrameFault::BadLength);
    };
    let call = read_call(fields)?;
    Ok(Frame::Entry { number, call })
}

// A frame with a replica's number and a length.
#[tactic(auto, unfolding(crate::specs::Decoding::replica_and_length_at))]
fn read_report(tag: u8, fields: &mut Fields) -> Result<Frame, FrameFault>
    requires { (tag ≡ ACK) ⊎ (tag ≡ HAVE) }
    ensures { TakesField result fields.new (spec.frame_of_tag tag fields.old) }
{
    let (Some(replica), Some(length)) = (fields.byte(), fields.u64()) else {
        return Err(FrameFault::BadLength);
    };
    if tag == ACK {
        Ok(Frame::Ack { replica, length })
    } else {
        Ok(Frame::Have { replica, length })
    }
}

#[tactic(auto, unfolding(crate::specs::Decoding::answer_at))]
fn read_answer(fields: &mut Fields) -> Result<Frame, FrameFault>
    ensures { TakesField result fields.new (spec.answer_at fields.old) }
{
    let Some(number) = fields.u64() else {
        return Err(FrameFault::BadLength);
    };
    let reply = read_reply(fields)?;
    Ok(Frame::Answer { number, reply })
}

#[tactic(auto, unfolding(crate::specs::Decoding::outcome_frame_at))]
fn read_outcome_frame(fields: &mut Fields) -> Result<Frame, FrameFault>
    ensures { TakesField result fields.new (spec.outcome_frame_at fields.old) }
{
    let (Some(client), Some(request)) = (fields.u32(), fields.u32()) else {
        return Err(FrameFault::BadLength);
    };
    let outcome = read_outcome(fields)?;
    Ok(Frame::Outcome {
        client,
        request,
        outcome,
    })
}

// The frame, by its tag. This function is inlined, and so is the reader of an entry: otherwise each
// would copy the frame that it hands on.
#[inline]
#[tactic(auto, unfolding(crate::specs::Decoding::tagged_at))]
fn read_tagged(fields: &mut Fields) -> Result<Frame, FrameFault>
    ensures { TakesField result fields.new (spec.tagged_at fields.old) }
{
    let Some(tag) = fields.byte() else {
        return Err(FrameFault::BadLength);
    };
    match tag {
        ASK => read_ask(fields),
        ENTRY => read_entry(fields),
        ACK | HAVE => read_report(tag, fields),
        ANSWER => read_answer(fields),
        OUTCOME => read_outcome_frame(fields),
        FLUSH => Ok(Frame::Flush),
        _ => Err(FrameFault::UnknownTag),
    }
}

// The frame of a body. Nothing may follow its fields.
#[inline]
#[tactic(auto, unfolding(crate::specs::Decoding::frame_of))]
fn frame_of(body: &[u8]) -> Result<Frame, FrameFault>
    ensures { result ≡ spec.frame_of body.now }
{
    let mut fields = Fields::of(body);
    let frame = read_tagged(&mut fields)?;
    if fields.is_empty() {
        Ok(frame)
    } else {
        Err(FrameFault::BadLength)
    }
}

// The body length that the first two bytes state.
fn stated_length(bytes: &[u8]) -> usize
    requires { LENGTH_BYTES ≤ length bytes.now }
    ensures { result ≡ spec.stated_length bytes.now }
{
    usize::from(BigEndian::read_u16(bytes))
}

// The number of bytes of the frame at the front, by the body length that they state.
#[inline]
#[tactic(auto, unfolding(crate::specs::Decoding::frame_size))]
pub(crate) fn frame_size(bytes: &[u8]) -> Result<usize, FrameFault>
    ensures exact { result ≡ spec.frame_size bytes.now }
    ensures within { IfOk result (λ size. (LENGTH_BYTES ≤ size) × (size ≤ length bytes.now)) }
{
    if bytes.len() < LENGTH_BYTES {
        return Err(FrameFault::Short);
    }
    let size = stated_length(bytes);
    if size == 0 || MAX_BODY < size {
        return Err(FrameFault::BadLength);
    }
    let end = LENGTH_BYTES + size;
    if bytes.len() < end {
        return Err(FrameFault::Short);
    }
    Ok(end)
}

/// The frame at the front of the bytes, and the number of bytes it takes. Bytes after it aren't
/// examined. It allocates nothing.
///
/// Fails with the first fault from the left. With [`FrameFault::Short`] the bytes may be the
/// beginning of a frame. With any other fault no frame begins with them, whatever bytes follow.
#[inline]
#[tactic(auto, unfolding(crate::specs::Decoding::decode_result))]
pub fn decode(bytes: &[u8]) -> Result<(Frame, usize), FrameFault>
    // Bytes that are decoded as a frame spell it.
    ensures spelled { IfOk result (λ found.
        (found.1 ≤ length bytes.now) × Spells found.0 (take found.1 bytes.now)) }
    // Bytes that spell a frame are decoded as it, whatever follows them.
    ensures complete { (frame : AnyFrame) (k : ℕ) → k ≤ length bytes.now
        → Spells frame (take k bytes.now) → result ≡ Ok (frame, k) }
    // The frame and its size, or the fault, exactly.
    ensures exact { result ≡ decode_result bytes.now }
    // More bytes change nothing, unless there were too few.
    ensures stable { (more : List ℕ) → result ≢ Err FrameFault.Short
        → decode_result (bytes.now ++ more) ≡ result }
{
    let size = frame_size(bytes)?;
    let frame = frame_of(&bytes[LENGTH_BYTES..size])?;
    Ok((frame, size))
}
