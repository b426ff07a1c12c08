//! Comparing two replicas.
ghost use Rattle.std.specs.Prelude.{◌≡◌, ◌↔◌, None, length, IsTrue, IsOk, IfOk, IfSome};
ghost use Rattle.cown_board.specs.Board.{unfinished_of};
ghost use Rattle.bank_server.specs.Agreement.{Agrees, AgreesSince, DiffersSo, HasSameRepliesSince, IsFirstPlace, IsFirstReply};

use super::stray_reason::StrayReason;
use cown_board::Runs;
use lane_audit::{first_difference, least_difference};
use sb_calls::Reply;
use sb_checkpoint::CheckpointStore;
use sb_replica::Replica;
use sb_rows::Columns;
use std::alloc::AllocError;

/// Whether two replicas agree: nothing is unfinished on either, and they have the same length,
/// replies and columns. It takes no memory.
pub fn agree<S: CheckpointStore, T: CheckpointStore>(
    first: &Replica<S>,
    second: &Replica<T>,
) -> Result<bool, AllocError>
    ensures answered { IsOk result }
    ensures value { IfOk result (λ same. IsTrue same ↔ Agrees first.now.board second.now.board) }
{
    Ok(difference(first, second, 0).is_none())
}

/// How the second replica differs from the first, if they don't agree since this number: replies up
/// to it aren't compared. It takes no memory.
pub fn difference<S: CheckpointStore, T: CheckpointStore>(
    first: &Replica<S>,
    second: &Replica<T>,
    from: u64,
) -> Option<StrayReason>
    ensures none { (result ≡ None) ↔ AgreesSince from first.now.board second.now.board }
    ensures reason { IfSome result (DiffersSo from first.now.names first.now.board second.now.board) }
{
    let Some(one) = first.final_columns() else {
        return Some(StrayReason::Unfinished);
    };
    let Some(other) = second.final_columns() else {
        return Some(StrayReason::Unfinished);
    };
    if let Some(number) = first_reply(first, second, from) {
        return Some(StrayReason::Entry(number));
    }
    if one.customers() != other.customers() {
        return Some(StrayReason::Customers);
    }
    let place = first_unequal_place(one, other)?;
    match first.directory().name(place as u32) {
        Some(name) => Some(StrayReason::Customer(name)),
        None => Some(StrayReason::Customers),
    }
}

// The first number above this one to which two idle replicas have other replies, or to which only one
// has a reply. If one of them ends before this number, and the other doesn't, it is the first number
// behind that end.
fn first_reply<S: CheckpointStore, T: CheckpointStore>(
    first: &Replica<S>,
    second: &Replica<T>,
    from: u64,
) -> Option<u64>
    requires idle { (unfinished_of first.now.board ≡ 0) × (unfinished_of second.now.board ≡ 0) }
    ensures none { (result ≡ None) ↔ HasSameRepliesSince from first.now.board second.now.board }
    ensures first { IfSome result (IsFirstReply from first.now.board second.now.board) }
{
    // Each entry is finished.
    prove!(first.idle());
    prove!(second.idle());
    let one = first.length();
    let other = second.length();
    for index in from.min(one).min(other)..one.max(other) {
        if !is_same_reply(first.reply(index + 1), second.reply(index + 1)) {
            return Some(index + 1);
        }
    }
    None
}

// Whether two replies are the same, or both are missing.
fn is_same_reply(one: Option<Reply>, other: Option<Reply>) -> bool
    ensures { IsTrue result ↔ (one ≡ other) }
{
    match (one, other) {
        (Some(one), Some(other)) => one == other,
        (None, None) => true,
        _ => false,
    }
}

// The first place at which savings of as many customers differ, or else their checking balances.
fn first_unequal_place(one: &Columns, other: &Columns) -> Option<usize>
    requires savings { length one.now.savings ≡ length other.now.savings }
    requires checking { length one.now.checking ≡ length other.now.checking }
    ensures none { (result ≡ None) ↔ (one.now ≡ other.now) }
    ensures first { IfSome result (IsFirstPlace one.now other.now) }
{
    // The law says that what is found is a first difference, and that without one they are equal.
    least_difference();
    if let Some(place) = first_difference(one.savings(), other.savings()) {
        return Some(place);
    }
    let place = first_difference(one.checking(), other.checking())?;
    Some(place)
}
