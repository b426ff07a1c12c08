//! Checkpoints written as bytes.
ghost use Rattle.std.specs.Prelude.{◌≡◌, ◌≤◌, ◌<◌, ◌-◌, ◌++◌, IfOk, List, length};
ghost use Rattle.std.specs.List.{All, flat_map};
ghost use Rattle.sb_calls.specs.Replies.{IsReply, reply_field};
ghost use Rattle.sb_calls.specs.declared.reply.Reply.{Reply as AnyReply};
ghost use Rattle.sb_checkpoint.specs.Checkpoint.{SpellsInLayout, Second};

use crate::layout::{BALANCES, EMPTY_SECOND, MAGIC_SECOND, REPLY};
use crate::putting::{put_amount, put_amounts, put_bytes, put_customers, put_length, put_reply};
use lane_audit::bank_total;
use sb_calls::{LOG_CALLS, Reply};
use sb_rows::Columns;
use std::alloc::{AllocError, Global};
use std::marker::Model;

/// The bytes of a checkpoint in the second layout, of a bank with this opening total, in one
/// allocation of their exact size.
pub fn write_checkpoint(
    alloc: Global,
    columns: &Columns,
    opening_total: i64,
    replies: &[Reply],
) -> Result<Vec<u8>, AllocError>
    requires limit { length replies.now ≤ LOG_CALLS }
    requires replies { All IsReply replies.now }
    ensures { IfOk result (λ bytes. SpellsInLayout Second opening_total
        (record { columns = columns.now; replies = replies.now }) bytes.items) }
{
    let mut draft = Draft::begin(alloc, columns, opening_total, replies.len())?;
    for reply in replies {
        draft.push(*reply);
    }
    Ok(draft.finish())
}

/// The bytes of a checkpoint that still lacks some of its replies. So the replies needn't be
/// collected in a list before they are spelled.
#[derive(Drop)]
pub struct Draft {
    bytes: Vec<u8>,
    missing: usize,
}

impl Model for Draft {
    ghost use Rattle.std.specs.Prelude.{◌+◌, ◌*◌, ◌≤◌, vec_len, vec_capacity};
    ghost use Rattle.sb_checkpoint.specs.Drafts.{DraftOf};

    ghost Value = { DraftOf };

    ghost view = { λ d. record { bytes = d.bytes.items; missing = d.missing } };

    // There is room for the missing replies.
    ghost invariant = { λ d. vec_len d.bytes + 9 * d.missing ≤ vec_capacity d.bytes };
}

impl Draft {
    /// Begins the checkpoint of these balances and of this many replies, which are all missing. It
    /// is in the second layout, of a bank with this opening total. All memory is allocated here.
    pub fn begin(
        alloc: Global,
        columns: &Columns,
        opening_total: i64,
        replies: usize,
    ) -> Result<Draft, AllocError>
        requires limit { replies ≤ LOG_CALLS }
        ensures missing { IfOk result (λ draft. draft.missing ≡ replies) }
        // Followed by all replies, the bytes make a checkpoint.
        ensures begins { IfOk result (λ draft. (all : List AnyReply) → length all ≡ replies → All IsReply all
            → SpellsInLayout Second opening_total (record { columns = columns.now; replies = all })
            (draft.bytes ++ flat_map reply_field all)) }
    {
        let customers = columns.customers();
        let size = EMPTY_SECOND + BALANCES * customers + REPLY * replies;
        let mut bytes = Vec::with_capacity(alloc, size)?;
        put_bytes(&mut bytes, &MAGIC_SECOND);
        put_length(&mut bytes, replies as u64);
        put_customers(&mut bytes, customers as u32);
        put_amounts(&mut bytes, columns.savings());
        put_amounts(&mut bytes, columns.checking());
        put_amount(&mut bytes, bank_total(columns));
        put_amount(&mut bytes, opening_total);
        Ok(Draft {
            bytes,
            missing: replies,
        })
    }

    /// Appends the next reply.
    #[inline]
    pub fn push(&mut self, reply: Reply)
        requires missing { 0 < self.old.missing }
        ensures { self.new ≡ record {
          bytes = self.old.bytes ++ reply_field reply;
          missing = self.old.missing - 1;
        } }
    {
        put_reply(&mut self.bytes, reply);
        self.missing -= 1;
    }

    /// The bytes so far.
    pub fn finish(self) -> Vec<u8>
        ensures { result.items ≡ self.bytes }
    {
        self.bytes
    }
}
