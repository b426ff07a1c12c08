//! Frames encoded as bytes.
ghost use Rattle.std.specs.Prelude.{◌≡◌, ◌+◌, ◌≤◌, ◌++◌, drop, length};
ghost use Rattle.std.specs.Int.{w16, to_be_bytes};
ghost use Rattle.sb_calls.specs.Call.{IsCall};
ghost use Rattle.sb_calls.specs.Replies.{IsReply};
ghost use Rattle.sb_frames.specs.Grammar as grammar;
ghost use Rattle.sb_frames.specs.Grammar.{IsFrame, Spells};
ghost use Rattle.sb_frames.specs.declared.frame.Frame.TheVariants.{Answer, Entry};

use crate::decoding::{ACK, ANSWER, ASK, ENTRY, FLUSH, HAVE, OUTCOME};
use crate::frame::{Frame, LENGTH_BYTES, MAX_BODY, MAX_FRAME};
use crate::writing::{
    Bytes, put_bytes, put_call, put_outcome, put_replica_and_length, put_reply, put_tag_and_request,
};
use arrayvec::ArrayVec;
use byteorder::{BigEndian, ByteOrder};
use sb_calls::{Call, WireReply};

/// The bytes of a frame: the length of its body, its tag and its fields. It allocates nothing.
#[tactic(auto, unfolding(crate::specs::Grammar::spelling))]
pub fn encode(frame: &Frame) -> ArrayVec<u8, MAX_FRAME>
    ensures { Spells frame.now result.items }
{
    let mut bytes = ArrayVec::new();
    put_bytes(&mut bytes, &[0; LENGTH_BYTES]);
    put_body(&mut bytes, frame);
    state_length(&mut bytes);
    bytes
}

/// The bytes of the frame of a call of the log, as [`encode`] gives them.
#[inline]
#[tactic(auto, unfolding(crate::specs::Grammar::spelling))]
pub fn encode_entry(number: u64, call: &Call) -> ArrayVec<u8, MAX_FRAME>
    ensures { Spells (Entry number call.now) result.items }
{
    let mut bytes = ArrayVec::new();
    put_bytes(&mut bytes, &[0; LENGTH_BYTES]);
    put_entry(&mut bytes, number, call);
    state_length(&mut bytes);
    bytes
}

// States the length of the body in the bytes before it.
#[inline]
fn state_length(bytes: &mut Bytes)
    requires { LENGTH_BYTES ≤ length bytes.old.items }
    ensures { let body = drop LENGTH_BYTES bytes.old.items in
        bytes.new.items ≡ to_be_bytes w16 (length body) ++ body }
{
    let length = bytes.len() - LENGTH_BYTES;
    BigEndian::write_u16(bytes, length as u16);
}

// The tag and the fields, at most as many bytes as a body has.
#[tactic(auto, unfolding(sb_calls::specs::Replies::integer_field))]
fn put_body(bytes: &mut Bytes, frame: &Frame)
    requires room { length bytes.old.items + MAX_BODY ≤ MAX_FRAME }
    ensures spelled { bytes.new.items ≡ bytes.old.items ++ grammar.body frame.now }
    ensures valid { IsFrame frame.now }
{
    match frame {
        Frame::Ask {
            client,
            request,
            call,
        } => {
            put_tag_and_request(bytes, ASK, *client, *request);
            put_call(bytes, call);
        }
        Frame::Entry { number, call } => put_entry(bytes, *number, call),
        Frame::Ack { replica, length } => {
            put_replica_and_length(bytes, ACK, *replica, *length);
        }
        Frame::Answer { number, reply } => put_answer(bytes, *number, *reply),
        Frame::Outcome {
            client,
            request,
            outcome,
        } => {
            put_tag_and_request(bytes, OUTCOME, *client, *request);
            put_outcome(bytes, *outcome);
        }
        Frame::Flush => put_bytes(bytes, &[FLUSH]),
        Frame::Have { replica, length } => {
            put_replica_and_length(bytes, HAVE, *replica, *length);
        }
    }
}

// An entry's tag, its number and its call.
#[inline]
#[tactic(auto, unfolding(sb_calls::specs::Replies::integer_field))]
fn put_entry(bytes: &mut Bytes, number: u64, call: &Call)
    requires room { length bytes.old.items + MAX_BODY ≤ MAX_FRAME }
    ensures spelled { bytes.new.items ≡ bytes.old.items ++ grammar.body (Entry number call.now) }
    ensures valid { IsCall call.now }
{
    put_bytes(bytes, &[ENTRY]);
    put_bytes(bytes, &number.to_be_bytes());
    put_call(bytes, call);
}

// An answer's tag, its number and its reply.
#[tactic(auto, unfolding(sb_calls::specs::Replies::integer_field))]
fn put_answer(bytes: &mut Bytes, number: u64, reply: WireReply)
    requires room { length bytes.old.items + MAX_BODY ≤ MAX_FRAME }
    ensures spelled { bytes.new.items ≡ bytes.old.items ++ grammar.body (Answer number reply) }
    ensures valid { IsReply reply }
{
    put_bytes(bytes, &[ANSWER]);
    put_bytes(bytes, &number.to_be_bytes());
    put_reply(bytes, reply);
}
