//! Replies in frames and checkpoints.
ghost use Rattle.std.specs.Prelude.{◌≡◌, ◌↔◌, IsTrue, SomeIff, IfSome};
ghost use Rattle.sb_calls.specs.Replies as spec;
ghost use Rattle.sb_calls.specs.Replies.{IsReply, IsTotal, reply_with_code, reply_code, shown_total};

use crate::reply::Reply;
use sb_amount::LIMIT;
use std::marker::Model;

/// The greatest size of a shown total, in cents: two balances at the limit.
pub const TOTAL_LIMIT: i64 = 2 * LIMIT;

// The codes of replies.
const SHOWN: u8 = 0;

const DONE: u8 = 1;

const PENALISED: u8 = 2;

const NO_CUSTOMER: u8 = 3;

const SAME_CUSTOMER: u8 = 4;

const NEGATIVE: u8 = 5;

const WOULD_OVERDRAW: u8 = 6;

const OVER_LIMIT: u8 = 7;

/// A reply whose total, if it shows one, is from `-TOTAL_LIMIT` to `TOTAL_LIMIT`. In frames and
/// checkpoints it is a code and a total in cents, which is 0 if the reply shows none.
#[derive(Clone, Copy, Debug, PartialEq, Eq)]
pub struct WireReply {
    reply: Reply,
}

impl Model for WireReply {
    ghost use Rattle.sb_calls.specs.declared.reply.Reply.{Reply as AnyReply};
    ghost use Rattle.sb_calls.specs.Replies.{IsReply};

    ghost Value = { AnyReply };

    ghost view = { λ r. r.reply };

    ghost invariant = { λ r. IsReply r.reply };

    ghost inverse = { λ v. record { reply = v } };
}

// Whether a total is in the range of two balances.
fn is_total(total: i64) -> bool
    ensures { IsTrue result ↔ IsTotal total }
{
    -TOTAL_LIMIT <= total && total <= TOTAL_LIMIT
}

// The reply that has this code and shows no total.
fn plain_reply(code: u8) -> Option<Reply>
    ensures read { result ≡ spec.plain_reply code }
    ensures valid { IfSome result IsReply }
{
    match code {
        DONE => Some(Reply::Done),
        PENALISED => Some(Reply::Penalised),
        NO_CUSTOMER => Some(Reply::NoCustomer),
        SAME_CUSTOMER => Some(Reply::SameCustomer),
        NEGATIVE => Some(Reply::Negative),
        WOULD_OVERDRAW => Some(Reply::WouldOverdraw),
        OVER_LIMIT => Some(Reply::OverLimit),
        _ => None,
    }
}

// The reply with a code and a total.
#[tactic(auto, unfolding(crate::specs::Replies::reply_with_code))]
fn coded_reply(code: u8, total: i64) -> Option<Reply>
    ensures read { result ≡ reply_with_code code total }
    ensures valid { IfSome result IsReply }
{
    if code == SHOWN {
        is_total(total).then_some(Reply::Shown(total))
    } else if total == 0 {
        plain_reply(code)
    } else {
        None
    }
}

impl Reply {
    /// Its code in frames and checkpoints, and the total that it shows in cents, else 0.
    pub fn code_and_total(self) -> (u8, i64)
        ensures code { result.0 ≡ reply_code self }
        ensures total { result.1 ≡ shown_total self }
    {
        match self {
            Reply::Shown(total) => (SHOWN, total),
            Reply::Done => (DONE, 0),
            Reply::Penalised => (PENALISED, 0),
            Reply::NoCustomer => (NO_CUSTOMER, 0),
            Reply::SameCustomer => (SAME_CUSTOMER, 0),
            Reply::Negative => (NEGATIVE, 0),
            Reply::WouldOverdraw => (WOULD_OVERDRAW, 0),
            Reply::OverLimit => (OVER_LIMIT, 0),
        }
    }
}

impl WireReply {
    /// This reply, or `None` if it shows a total past [`TOTAL_LIMIT`].
    pub fn new(reply: Reply) -> Option<WireReply>
        ensures { SomeIff result (IsReply reply) reply }
    {
        match reply {
            Reply::Shown(total) if !is_total(total) => None,
            _ => Some(WireReply { reply }),
        }
    }

    /// The reply.
    pub fn reply(self) -> Reply
        ensures value { result ≡ self }
        ensures valid { IsReply self }
    {
        self.reply
    }

    /// Its code, and the total that it shows in cents, else 0.
    pub fn code_and_total(self) -> (u8, i64)
        ensures code { result.0 ≡ reply_code self }
        ensures total { result.1 ≡ shown_total self }
    {
        self.reply.code_and_total()
    }

    /// The reply with this code and this total in cents, or `None` if no reply has them.
    pub fn from_code(code: u8, total: i64) -> Option<WireReply>
        ensures { result ≡ reply_with_code code total }
    {
        WireReply::new(coded_reply(code, total)?)
    }
}
