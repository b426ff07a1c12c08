//! The fields of a checkpoint, appended one by one.
ghost use Rattle.std.specs.Prelude.{◌≤◌, ◌+◌, ◌*◌, length, vec_len, vec_capacity};
ghost use Rattle.std.specs.Int.{w32, w64};
ghost use Rattle.std.specs.List.{flat_map};
ghost use Rattle.sb_calls.specs.Replies.{integer_field, amount_field, reply_field};
ghost use Rattle.sb_checkpoint.specs.inner.FieldPuts.{PutsField};

use crate::layout::{AMOUNT, REPLY};
use sb_calls::Reply;

// Appends bytes, for which there is room.
#[inline]
pub(crate) fn put_bytes(out: &mut Vec<u8>, bytes: &[u8])
    requires { vec_len out.old + length bytes.now ≤ vec_capacity out.old }
    ensures { PutsField out.old bytes.now (length bytes.now) out.new }
{
    out.extend_from_slice(bytes).unwrap();
}

#[inline]
#[tactic(auto, unfolding(sb_calls::specs::Replies::integer_field))]
pub(crate) fn put_length(out: &mut Vec<u8>, length: u64)
    requires { vec_len out.old + 8 ≤ vec_capacity out.old }
    ensures { PutsField out.old (integer_field w64 length) 8 out.new }
{
    put_bytes(out, &length.to_be_bytes());
}

#[inline]
#[tactic(auto, unfolding(sb_calls::specs::Replies::integer_field))]
pub(crate) fn put_customers(out: &mut Vec<u8>, customers: u32)
    requires { vec_len out.old + 4 ≤ vec_capacity out.old }
    ensures { PutsField out.old (integer_field w32 customers) 4 out.new }
{
    put_bytes(out, &customers.to_be_bytes());
}

#[inline]
#[tactic(auto, unfolding(sb_calls::specs::Replies::integer_field))]
pub(crate) fn put_amount(out: &mut Vec<u8>, amount: i64)
    requires { vec_len out.old + AMOUNT ≤ vec_capacity out.old }
    ensures { PutsField out.old (amount_field amount) AMOUNT out.new }
{
    put_bytes(out, &amount.to_be_bytes());
}

pub(crate) fn put_amounts(out: &mut Vec<u8>, amounts: &[i64])
    requires { vec_len out.old + AMOUNT * length amounts.now ≤ vec_capacity out.old }
    ensures { PutsField out.old (flat_map amount_field amounts.now) (AMOUNT * length amounts.now) out.new }
{
    for amount in amounts {
        put_amount(out, *amount);
    }
}

// In one piece, which takes a third less time than two.
#[inline]
#[tactic(auto, unfolding(sb_calls::specs::Replies::integer_field))]
pub(crate) fn put_reply(out: &mut Vec<u8>, reply: Reply)
    requires { vec_len out.old + REPLY ≤ vec_capacity out.old }
    ensures { PutsField out.old (reply_field reply) REPLY out.new }
{
    let (code, total) = reply.code_and_total();
    let mut cells = [code; REPLY];
    cells[1..].copy_from_slice(&total.to_be_bytes());
    put_bytes(out, &cells);
}
