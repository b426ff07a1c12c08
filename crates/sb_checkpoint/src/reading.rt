//! Checkpoints read from bytes.
ghost use Rattle.std.specs.Prelude.{◌≡◌, ◌+◌, ◌*◌, ◌≤◌, IfOk, OnOk, MatchResult, None, Some, length, map};
ghost use Rattle.std.specs.List.{list_any};
ghost use Rattle.sb_rows.specs.Balances.{IsBalances};
ghost use Rattle.sb_checkpoint.specs.Checkpoint.{SpellsFor, Origin};
ghost use Rattle.sb_checkpoint.specs.inner.Layouts.{layout_of};
ghost use Rattle.sb_checkpoint.specs.Reading as spec;
ghost use Rattle.sb_checkpoint.specs.Reading.{stated_checking, stated_replies, stated_savings, stated_size};
ghost use Rattle.sb_checkpoint.specs.Reading.{balances_fault, first_fault, head_fault, is_below_zero, opening_fault, replies_fault};
ghost use Rattle.sb_checkpoint.specs.inner.PartsOfCheckpoint.{IsStatedHead, AreStatedColumns, AreStatedReplies};
ghost use Rattle.sb_checkpoint.specs.inner.ReadingFaults.{IsFaultOf};
ghost use Rattle.sb_checkpoint.specs.Reading.{IsRefusedBy};

use crate::checkpoint::Checkpoint;
use crate::fault::CheckpointFault;
use crate::fields::{
    read_amounts, replies_of, reply_cells, stated_customers, stated_opening, stated_reply_count,
    stated_total,
};
use crate::layout::{AMOUNT, BALANCES, EMPTY_FIRST, HEAD, Layout, REPLY};
use lane_audit::{bank_total, count_below, first_outside};
use sb_amount::LIMIT;
use sb_calls::{LOG_CALLS, Reply};
use sb_rows::{CUSTOMERS, Columns};
use std::alloc::Global;

// The layout and the stated number of replies, if the bytes begin as a checkpoint of this many
// customers and don't end early.
#[tactic(auto, unfolding(crate::specs::Reading::head_fault))]
fn read_head(bytes: &[u8], customers: usize) -> Result<(Layout, usize), CheckpointFault>
    requires { customers ≤ CUSTOMERS }
    ensures { MatchResult result
        (λ head. IsStatedHead bytes.now customers (layout_of head.0) head.1)
        (λ fault. head_fault bytes.now customers ≡ Some fault) }
{
    let Some(layout) = Layout::of(bytes) else {
        return Err(CheckpointFault::BadMagic);
    };
    if bytes.len() < HEAD {
        return Err(CheckpointFault::Short);
    }
    let length = stated_reply_count(bytes);
    let stated = stated_customers(bytes);
    // Wide enough for any stated numbers.
    let size = layout.empty_size() as u128
        + BALANCES as u128 * u128::from(stated)
        + REPLY as u128 * u128::from(length);
    if (bytes.len() as u128) < size {
        return Err(CheckpointFault::Short);
    }
    if stated as usize != customers {
        return Err(CheckpointFault::WrongCustomers);
    }
    Ok((layout, length as usize))
}

// Whether a balance is past the limit.
fn is_past_limit(amounts: &[i64]) -> bool
    ensures { result ≡ list_any spec.is_past_limit amounts.now }
{
    first_outside(amounts, -LIMIT, LIMIT).is_some()
}

// Whether an amount is below 0.
fn has_negative(amounts: &[i64]) -> bool
    ensures { result ≡ list_any is_below_zero amounts.now }
{
    count_below(amounts, 0) > 0
}

#[tactic(auto, unfolding(crate::specs::Reading::balances_fault))]
fn read_columns(alloc: Global, bytes: &[u8], customers: usize) -> Result<Columns, CheckpointFault>
    requires customers { customers ≡ spec.stated_customers bytes.now }
    requires limit { customers ≤ CUSTOMERS }
    requires room { EMPTY_FIRST + BALANCES * customers ≤ length bytes.now }
    ensures { MatchResult result (AreStatedColumns bytes.now) (IsFaultOf (balances_fault bytes.now)) }
{
    let savings = read_amounts(alloc, bytes, HEAD, customers)?;
    let checking = read_amounts(alloc, bytes, HEAD + AMOUNT * customers, customers)?;
    if is_past_limit(&savings) || is_past_limit(&checking) {
        return Err(CheckpointFault::OutOfRange);
    }
    if has_negative(&savings) {
        return Err(CheckpointFault::NegativeSavings);
    }
    let columns = Columns::from_parts(savings, checking);
    if stated_total(bytes, customers) != bank_total(&columns) {
        return Err(CheckpointFault::WrongTotal);
    }
    Ok(columns)
}

// Checks that the opening total is the bank's, if the layout has one.
fn check_opening(
    bytes: &[u8],
    layout: Layout,
    customers: usize,
    opening_total: i64,
) -> Result<(), CheckpointFault>
    requires customers { customers ≡ spec.stated_customers bytes.now }
    requires limit { customers ≤ CUSTOMERS }
    requires room { stated_size (layout_of layout) bytes.now ≤ length bytes.now }
    ensures { MatchResult result
        (λ _. opening_fault (layout_of layout) bytes.now opening_total ≡ None)
        (IsFaultOf (opening_fault (layout_of layout) bytes.now opening_total)) }
{
    if matches!(layout, Layout::Second) && stated_opening(bytes, customers) != opening_total {
        return Err(CheckpointFault::WrongOpening);
    }
    Ok(())
}

// The replies, if nothing follows them.
#[tactic(auto, unfolding(crate::specs::Reading::replies_fault))]
fn read_replies(
    alloc: Global,
    bytes: &[u8],
    layout: Layout,
    customers: usize,
    count: usize,
) -> Result<Vec<Reply>, CheckpointFault>
    requires customers { customers ≡ spec.stated_customers bytes.now }
    requires count { count ≡ spec.stated_reply_count bytes.now }
    requires room { stated_size (layout_of layout) bytes.now ≤ length bytes.now }
    ensures { MatchResult result
        (λ replies. AreStatedReplies bytes.now (layout_of layout) replies.items)
        (IsFaultOf (replies_fault (layout_of layout) bytes.now)) }
{
    let replies = replies_of(alloc, reply_cells(bytes, layout, customers, count))?;
    let size = layout.empty_size() + BALANCES * customers + REPLY * count;
    if count > LOG_CALLS || size < bytes.len() {
        return Err(CheckpointFault::Long);
    }
    Ok(replies)
}

/// Reads a checkpoint of a bank with this many customers and this opening total, in either layout.
/// The first layout has no opening total, so any is accepted with it.
///
/// Fails with the first fault in the order of [`CheckpointFault`]. It allocates only once the bytes
/// begin as a checkpoint of this bank and aren't short.
pub fn read_checkpoint(
    alloc: Global,
    bytes: &[u8],
    customers: usize,
    opening_total: i64,
) -> Result<Checkpoint, CheckpointFault>
    requires { customers ≤ CUSTOMERS }
    ensures checkpoint { let origin : Origin = record { customers = customers; opening_total = opening_total } in
        IfOk result (λ checkpoint. SpellsFor origin checkpoint bytes.now) }
    ensures fault { let origin : Origin = record { customers = customers; opening_total = opening_total } in
        MatchResult result
        (λ _. first_fault bytes.now origin ≡ None) (IsRefusedBy bytes.now origin) }
{
    let (layout, count) = read_head(bytes, customers)?;
    let columns = read_columns(alloc, bytes, customers)?;
    check_opening(bytes, layout, customers, opening_total)?;
    let replies = read_replies(alloc, bytes, layout, customers, count)?;
    Ok(Checkpoint::of(columns, replies))
}
