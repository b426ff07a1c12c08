//! Fields appended to a frame's bytes.
ghost use Rattle.std.specs.Prelude.{◌≡◌, ◌+◌, ◌≤◌, ◌∷◌, ◌++◌, length};
ghost use Rattle.std.specs.Int.{w32, w64};
ghost use Rattle.sb_amount.specs.Limit.{IsWithinLimit};
ghost use Rattle.sb_calls.specs.Call.{IsCall};
ghost use Rattle.sb_calls.specs.Replies.{IsReply, amount_field, integer_field, reply_field};
ghost use Rattle.sb_rows.specs.Name.{IsName};
ghost use Rattle.sb_frames.specs.Fields.{name_field, call_field, no_reply_field, outcome_field};
ghost use Rattle.sb_frames.specs.Grammar.{IsOutcome};

use crate::call::{
    AMALGAMATE, BALANCE, DEPOSIT_CHECKING, SEND_PAYMENT, TRANSACT_SAVINGS, WRITE_CHECK,
};
use crate::frame::{AskOutcome, MAX_FRAME};
use crate::outcome::{LOG_FULL, MISMATCH, REPLIED};
use arrayvec::ArrayVec;
use sb_amount::Cents;
use sb_calls::{Call, WireReply};
use sb_rows::{NAME_BYTES, Name};

/// The bytes of a frame.
pub(crate) type Bytes = ArrayVec<u8, MAX_FRAME>;

// The greatest size of each field in bytes: a name with its length, cents, a call of a name and an
// amount with its kind, two names with a kind, any call (the longest has two names and an amount),
// a reply with its code, an outcome with its status, a replica's number and a length with their
// tag, and the two numbers of a request with their tag.
pub(crate) const NAME_FIELD: usize = 1 + NAME_BYTES;

pub(crate) const AMOUNT_FIELD: usize = 8;

const NAME_AND_AMOUNT: usize = 1 + NAME_FIELD + AMOUNT_FIELD;

const TWO_NAMES: usize = 1 + 2 * NAME_FIELD;

pub(crate) const CALL_FIELD: usize = TWO_NAMES + AMOUNT_FIELD;

pub(crate) const REPLY_FIELD: usize = 1 + AMOUNT_FIELD;

pub(crate) const OUTCOME_FIELD: usize = 1 + REPLY_FIELD;

pub(crate) const REPLICA_AND_LENGTH: usize = 2 + 8;

pub(crate) const TAG_AND_REQUEST: usize = 1 + 4 + 4;

/// Appends bytes.
#[inline]
pub(crate) fn put_bytes(bytes: &mut Bytes, more: &[u8])
    requires { length bytes.old.items + length more.now ≤ MAX_FRAME }
    ensures { bytes.new.items ≡ bytes.old.items ++ more.now }
{
    bytes.try_extend_from_slice(more).unwrap();
}

/// A tag, a replica's number and a length, in `REPLICA_AND_LENGTH` bytes.
#[tactic(auto, unfolding(sb_calls::specs::Replies::integer_field))]
pub(crate) fn put_replica_and_length(bytes: &mut Bytes, tag: u8, replica: u8, size: u64)
    requires { length bytes.old.items + REPLICA_AND_LENGTH ≤ MAX_FRAME }
    ensures { bytes.new.items ≡ bytes.old.items ++ (tag ∷ replica ∷ integer_field w64 size) }
{
    put_bytes(bytes, &[tag, replica]);
    put_bytes(bytes, &size.to_be_bytes());
}

/// A tag, a client's number and a request's number, in `TAG_AND_REQUEST` bytes.
#[inline]
#[tactic(auto, unfolding(sb_calls::specs::Replies::integer_field))]
pub(crate) fn put_tag_and_request(bytes: &mut Bytes, tag: u8, client: u32, request: u32)
    requires { length bytes.old.items + TAG_AND_REQUEST ≤ MAX_FRAME }
    ensures { bytes.new.items
        ≡ bytes.old.items ++ (tag ∷ (integer_field w32 client ++ integer_field w32 request)) }
{
    put_bytes(bytes, &[tag]);
    put_bytes(bytes, &client.to_be_bytes());
    put_bytes(bytes, &request.to_be_bytes());
}

// Appends at most `NAME_FIELD` bytes.
#[inline]
fn put_name(bytes: &mut Bytes, name: &Name)
    requires { length bytes.old.items + NAME_FIELD ≤ MAX_FRAME }
    ensures spelled { bytes.new.items ≡ bytes.old.items ++ name_field name.now }
    ensures room { length bytes.new.items ≤ length bytes.old.items + NAME_FIELD }
    ensures valid { IsName name.now }
{
    let text = name.text();
    put_bytes(bytes, &[text.len() as u8]);
    put_bytes(bytes, text);
}

#[inline]
#[tactic(auto, unfolding(sb_calls::specs::Replies::integer_field))]
fn put_cents(bytes: &mut Bytes, cents: i64)
    requires { length bytes.old.items + AMOUNT_FIELD ≤ MAX_FRAME }
    ensures { bytes.new.items ≡ bytes.old.items ++ amount_field cents }
{
    put_bytes(bytes, &cents.to_be_bytes());
}

// A call whose kind takes a name and an amount.
#[inline]
fn put_name_and_amount(bytes: &mut Bytes, kind: u8, name: &Name, amount: Cents)
    requires { length bytes.old.items + NAME_AND_AMOUNT ≤ MAX_FRAME }
    ensures spelled { bytes.new.items
        ≡ bytes.old.items ++ (kind ∷ (name_field name.now ++ amount_field amount)) }
    ensures valid { IsName name.now × IsWithinLimit amount }
{
    put_bytes(bytes, &[kind]);
    put_name(bytes, name);
    put_cents(bytes, amount.value());
}

// The kind and the names of a call that takes two, at most `TWO_NAMES` bytes.
#[inline]
fn put_two_names(bytes: &mut Bytes, kind: u8, from: &Name, to: &Name)
    requires { length bytes.old.items + TWO_NAMES ≤ MAX_FRAME }
    ensures spelled { bytes.new.items
        ≡ bytes.old.items ++ (kind ∷ (name_field from.now ++ name_field to.now)) }
    ensures room { length bytes.new.items ≤ length bytes.old.items + TWO_NAMES }
    ensures valid { IsName from.now × IsName to.now }
{
    put_bytes(bytes, &[kind]);
    put_name(bytes, from);
    put_name(bytes, to);
}

/// Appends at most `CALL_FIELD` bytes.
#[inline]
pub(crate) fn put_call(bytes: &mut Bytes, call: &Call)
    requires { length bytes.old.items + CALL_FIELD ≤ MAX_FRAME }
    ensures spelled { bytes.new.items ≡ bytes.old.items ++ call_field call.now }
    ensures valid { IsCall call.now }
{
    match call {
        Call::Balance(name) => {
            put_bytes(bytes, &[BALANCE]);
            put_name(bytes, name);
        }
        Call::DepositChecking(name, amount) => {
            put_name_and_amount(bytes, DEPOSIT_CHECKING, name, *amount);
        }
        Call::TransactSavings(name, amount) => {
            put_name_and_amount(bytes, TRANSACT_SAVINGS, name, *amount);
        }
        Call::Amalgamate(from, to) => {
            put_two_names(bytes, AMALGAMATE, from, to);
        }
        Call::WriteCheck(name, amount) => put_name_and_amount(bytes, WRITE_CHECK, name, *amount),
        Call::SendPayment(from, to, amount) => {
            put_two_names(bytes, SEND_PAYMENT, from, to);
            put_cents(bytes, amount.value());
        }
    }
}

/// A reply, in `REPLY_FIELD` bytes.
pub(crate) fn put_reply(bytes: &mut Bytes, reply: WireReply)
    requires { length bytes.old.items + REPLY_FIELD ≤ MAX_FRAME }
    ensures spelled { bytes.new.items ≡ bytes.old.items ++ reply_field reply }
    ensures valid { IsReply reply }
{
    let (code, total) = reply.code_and_total();
    put_bytes(bytes, &[code]);
    put_cents(bytes, total);
}

// A status, and nine zeros in place of a reply.
fn put_no_reply(bytes: &mut Bytes, status: u8)
    requires { length bytes.old.items + OUTCOME_FIELD ≤ MAX_FRAME }
    ensures { bytes.new.items ≡ bytes.old.items ++ (status ∷ no_reply_field) }
{
    put_bytes(bytes, &[status, 0]);
    put_cents(bytes, 0);
}

/// A status and a reply, in `OUTCOME_FIELD` bytes.
pub(crate) fn put_outcome(bytes: &mut Bytes, outcome: AskOutcome)
    requires { length bytes.old.items + OUTCOME_FIELD ≤ MAX_FRAME }
    ensures spelled { bytes.new.items ≡ bytes.old.items ++ outcome_field outcome }
    ensures valid { IsOutcome outcome }
{
    match outcome {
        AskOutcome::Replied(reply) => {
            put_bytes(bytes, &[REPLIED]);
            put_reply(bytes, reply);
        }
        AskOutcome::Mismatch => put_no_reply(bytes, MISMATCH),
        AskOutcome::LogFull => put_no_reply(bytes, LOG_FULL),
    }
}
