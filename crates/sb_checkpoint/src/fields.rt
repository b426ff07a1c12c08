//! The fields of a checkpoint, read in place.
ghost use Rattle.std.specs.Prelude.{◌≡◌, if◌then◌else◌, ◌+◌, ◌*◌, ◌≤◌, IfOk, IfErr, Some, None, length, map, take, drop};
ghost use Rattle.std.specs.Int.{w64, from_be_bytes};
ghost use Rattle.std.specs.List.{list_any};
ghost use Rattle.sb_checkpoint.specs.inner.Layouts.{layout_of};
ghost use Rattle.sb_checkpoint.specs.Reading as spec;
ghost use Rattle.sb_checkpoint.specs.inner.ReadingFaults.{IsFaultOf};
ghost use Rattle.sb_checkpoint.specs.Reading.{stated_amount, amounts_at, is_no_reply, stated_reply, stated_replies, stated_size};
ghost use Rattle.sb_checkpoint.specs.declared.fault.CheckpointFault.TheVariants.{BadReply};

use crate::fault::CheckpointFault;
use crate::layout::{
    AMOUNT, BALANCES, CUSTOMERS_AT, EMPTY_FIRST, EMPTY_SECOND, HEAD, LENGTH_AT, Layout, REPLY,
};
use sb_calls::{Reply, WireReply};
use sb_rows::CUSTOMERS;
use std::alloc::{AllocError, Global};

// ---- numbers

// The number in the eight bytes from an offset on.
fn number_at(bytes: &[u8], at: usize) -> u64
    requires { at + 8 ≤ length bytes.now }
    ensures { result ≡ from_be_bytes w64 (take 8 (drop at bytes.now)) }
{
    u64::from_be_bytes(*bytes[at..].first_chunk().unwrap())
}

#[tactic(auto, unfolding(crate::specs::Reading::stated_reply_count))]
pub(crate) fn stated_reply_count(bytes: &[u8]) -> u64
    requires { HEAD ≤ length bytes.now }
    ensures { result ≡ spec.stated_reply_count bytes.now }
{
    number_at(bytes, LENGTH_AT)
}

#[tactic(auto, unfolding(crate::specs::Reading::stated_customers))]
pub(crate) fn stated_customers(bytes: &[u8]) -> u32
    requires { HEAD ≤ length bytes.now }
    ensures { result ≡ spec.stated_customers bytes.now }
{
    u32::from_be_bytes(*bytes[CUSTOMERS_AT..].first_chunk().unwrap())
}

#[tactic(auto, unfolding(crate::specs::Reading::stated_total))]
pub(crate) fn stated_total(bytes: &[u8], customers: usize) -> i64
    requires customers { customers ≡ spec.stated_customers bytes.now }
    requires limit { customers ≤ CUSTOMERS }
    requires room { EMPTY_FIRST + BALANCES * customers ≤ length bytes.now }
    ensures { result ≡ spec.stated_total bytes.now }
{
    number_at(bytes, HEAD + BALANCES * customers).cast_signed()
}

// The opening total, in the second layout.
#[tactic(auto, unfolding(crate::specs::Reading::stated_opening))]
pub(crate) fn stated_opening(bytes: &[u8], customers: usize) -> i64
    requires customers { customers ≡ spec.stated_customers bytes.now }
    requires limit { customers ≤ CUSTOMERS }
    requires room { EMPTY_SECOND + BALANCES * customers ≤ length bytes.now }
    ensures { result ≡ spec.stated_opening bytes.now }
{
    number_at(bytes, EMPTY_FIRST + BALANCES * customers).cast_signed()
}

// ---- balances

// The amounts from an offset on, one for each customer.
pub(crate) fn read_amounts(
    alloc: Global,
    bytes: &[u8],
    from: usize,
    customers: usize,
) -> Result<Vec<i64>, AllocError>
    requires limit { customers ≤ CUSTOMERS }
    requires room { from + AMOUNT * customers ≤ length bytes.now }
    ensures { IfOk result (λ amounts. amounts.items ≡ amounts_at customers (drop from bytes.now)) }
{
    let (cells, _) = bytes[from..from + AMOUNT * customers].as_chunks::<AMOUNT>();
    amounts_of(alloc, cells)
}

fn amounts_of(alloc: Global, cells: &[[u8; AMOUNT]]) -> Result<Vec<i64>, AllocError>
    ensures { IfOk result (λ amounts. amounts.items ≡ map stated_amount cells.now) }
{
    cells
        .iter()
        .map(|cells| i64::from_be_bytes(*cells))
        .collect(alloc)
}

// ---- replies

// The bytes of each reply.
pub(crate) fn reply_cells(
    bytes: &[u8],
    layout: Layout,
    customers: usize,
    count: usize,
) -> &[[u8; REPLY]]
    requires customers { customers ≡ spec.stated_customers bytes.now }
    requires count { count ≡ spec.stated_reply_count bytes.now }
    requires room { stated_size (layout_of layout) bytes.now ≤ length bytes.now }
    ensures { map stated_reply result.now ≡ stated_replies (layout_of layout) bytes.now }
{
    let from = layout.empty_size() + BALANCES * customers;
    let (cells, _) = bytes[from..from + REPLY * count].as_chunks::<REPLY>();
    cells
}

#[tactic(auto, unfolding(crate::specs::Reading::stated_reply))]
fn read_reply(cells: &[u8; REPLY]) -> Option<Reply>
    ensures { result ≡ stated_reply cells.now }
{
    let reply = WireReply::from_code(cells[0], number_at(cells, 1).cast_signed())?;
    Some(reply.reply())
}

// The replies in these bytes.
pub(crate) fn replies_of(
    alloc: Global,
    cells: &[[u8; REPLY]],
) -> Result<Vec<Reply>, CheckpointFault>
    ensures replies { IfOk result
        (λ replies. map (λ r. Some r) replies.items ≡ map stated_reply cells.now) }
    ensures fault { IfErr result (IsFaultOf
        (if list_any is_no_reply (map stated_reply cells.now) then Some BadReply else None)) }
{
    let mut replies = Vec::with_capacity(alloc, cells.len())?;
    for cell in cells {
        let Some(reply) = read_reply(cell) else {
            return Err(CheckpointFault::BadReply);
        };
        replies.push_reserved(reply);
    }
    Ok(replies)
}
