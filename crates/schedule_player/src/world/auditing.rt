//! Compares two replicas with each other, and one of them with the books.
ghost use Rattle.std.specs.Prelude.{◌≡◌, ◌<◌, ◌≤◌, ◌↔◌, Some, None, length, take, slice_get, IfOk, OnErr};
ghost use Rattle.sb_rows.specs.Balances.{IsBalances};
ghost use Rattle.sb_calls.specs.Log.{replies_to};
ghost use Rattle.schedule_player.specs.Bank.{opening_rows};
ghost use Rattle.schedule_player.specs.Books.{IsRowsAt};
ghost use Rattle.schedule_player.specs.ReplicaMoves.{NodeOf};
ghost use Rattle.schedule_player.specs.World.{MayWantMemory, bank_of, books_after, audit_result};
ghost use Rattle.schedule_text.specs.declared.event.Event.TheVariants.{System};
ghost use Rattle.schedule_text.specs.declared.event.SystemEvent.TheVariants as system;

use crate::fault::StepFault;
use crate::world::World;
use cown_board::Runs;
use lane_audit::{audit, bank_total, first_difference, least_difference};
use sb_calls::Reply;
use sb_rows::Columns;
use schedule_text::{AuditNote, Column};

/// The first place at which two banks' columns differ; savings come before checking balances.
pub(crate) fn first_place(left: &Columns, right: &Columns) -> Option<(Column, usize)>
    requires savings { length left.now.savings ≡ length right.now.savings }
    requires checking { length left.now.checking ≡ length right.now.checking }
    ensures { (result ≡ None) ↔ (left.now ≡ right.now) }
{
    // The law says that what is found is a first difference, and that without one they are equal.
    least_difference();
    if let Some(place) = first_difference(left.savings(), right.savings()) {
        return Some((Column::Savings, place));
    }
    let place = first_difference(left.checking(), right.checking())?;
    Some((Column::Checking, place))
}

impl World {
    // The bank's total with the number of overdrawn customers, or that the total isn't what the
    // opening and the calls make it.
    fn books(&self, columns: &Columns, replies: &[Reply]) -> AuditNote
        requires limit { length replies.now ≤ length self.now.sequencer.synced.log }
        requires rows { IsRowsAt (bank_of self.now) (length replies.now) columns.now }
        requires replies { replies.now ≡ take (length replies.now)
            (replies_to (opening_rows (bank_of self.now)) (bank_of self.now).calls) }
        ensures { result ≡ books_after (bank_of self.now) (length replies.now) }
    {
        let calls = &self.sequencer.synced_calls()[..replies.len()];
        let found = audit(columns, bank_total(&self.opening), calls, replies);
        if found.total == found.expected {
            AuditNote::Same(found.total, found.overdrawn)
        } else {
            AuditNote::OffBooks(found.total, found.expected)
        }
    }

    /// Compares two replicas, and the rows of the first with the books: the opening's total and
    /// what each call of the log added.
    ///
    /// Fails if memory is refused, which can happen only if both are idle at one length.
    pub fn audit(&self, first: u32, second: u32) -> Result<AuditNote, StepFault>
        requires replicas { (first < length self.now.nodes) × (second < length self.now.nodes) }
        ensures value { (one other : NodeOf) → slice_get self.now.nodes first ≡ Some one
            → slice_get self.now.nodes second ≡ Some other
            → IfOk result (λ found. found ≡ audit_result (bank_of self.now) first second one other) }
        ensures wanted { OnErr result (MayWantMemory self.now (System (system.Audit first second))) }
    {
        let one = &self.nodes[first as usize].replica;
        let other = &self.nodes[second as usize].replica;
        let Some(left) = one.final_columns() else {
            return Ok(AuditNote::Busy(first));
        };
        let Some(right) = other.final_columns() else {
            return Ok(AuditNote::Busy(second));
        };
        if one.length() != other.length() {
            return Ok(AuditNote::Apart(one.length(), other.length()));
        }
        if let Some((column, place)) = first_place(left, right) {
            return Ok(AuditNote::Differ(column, place));
        }
        let replies = one.replies()?;
        Ok(self.books(left, &replies))
    }
}
