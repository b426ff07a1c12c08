//! Which waiting behaviours are ready.
ghost use Rattle.std.specs.Prelude.{◌≡◌, ◌+◌, ◌-◌, ◌<◌, ◌≤◌, ◌++◌, ◌==◌, ℕ, Bool, true, false, if◌then◌else◌, [], ◌∷◌, Some, All, length, get_or, slice_get, slice_set, remove, MatchOption, OnOk, vec_len, vec_capacity};
ghost use Rattle.std.specs.VecDeque.{deque_len, deque_capacity};
ghost use Rattle.cown_queue.specs.inner.Occurrences.{occurrences};
ghost use Rattle.cown_board.specs.inner.DuePositions.{is_due, AreDue};
ghost use Rattle.cown_board.specs.Positions.{positions};
ghost use Rattle.cown_board.specs.inner.PositionTests.{with_position};

use sb_calls::BEHAVIOUR_COWNS;
use std::alloc::{AllocError, Global};
use std::collections::VecDeque;

// How far each behaviour of a log is from being ready.
#[derive(Drop)]
pub(crate) struct ReadyList {
    // For each position of the log, the number of its cowns at which the behaviour isn't in front.
    pub(crate) behind: Vec<u8>,
    // The positions that wait and are in front at all their cowns, in rising order.
    pub(crate) ready: VecDeque<u64>,
}

impl ReadyList {
    // The list of an empty log.
    pub(crate) fn new(alloc: Global) -> ReadyList
        ensures behind { result.behind.items ≡ [] }
        ensures ready { result.ready.items ≡ [] }
    {
        ReadyList {
            behind: Vec::new(alloc),
            ready: VecDeque::new(alloc),
        }
    }

    // Makes room for the counts of a log of this length. If memory is refused, nothing is lost.
    pub(crate) fn reserve_counts(&mut self, log_length: usize) -> Result<(), AllocError>
        ensures behind { (self.new.behind.items ≡ self.old.behind.items) ×
            (vec_len self.new.behind ≡ vec_len self.old.behind) }
        ensures ready { self.new.ready ≡ self.old.ready }
        ensures counts { vec_capacity self.old.behind ≤ vec_capacity self.new.behind }
        ensures behind_room { OnOk result (log_length ≤ vec_capacity self.new.behind) }
    {
        let counts = self.behind.len();
        self.behind.reserve(log_length.saturating_sub(counts))
    }

    // Makes room for a log of this length with this many unfinished behaviours, and for those that
    // become ready when one of them finishes. If memory is refused, nothing is lost.
    #[inline(always)]
    pub(crate) fn reserve(&mut self, log_length: usize, unfinished: usize) -> Result<(), AllocError>
        requires { unfinished ≤ 1024 }
        ensures behind { (self.new.behind.items ≡ self.old.behind.items) ×
            (vec_len self.new.behind ≡ vec_len self.old.behind) }
        ensures ready { (self.new.ready.items ≡ self.old.ready.items) ×
            (deque_len self.new.ready ≡ deque_len self.old.ready) }
        ensures counts { vec_capacity self.old.behind ≤ vec_capacity self.new.behind }
        ensures room { deque_capacity self.old.ready ≤ deque_capacity self.new.ready }
        ensures behind_room { OnOk result (log_length ≤ vec_capacity self.new.behind) }
        ensures ready_room { OnOk result (unfinished + 3 ≤ deque_capacity self.new.ready) }
    {
        let wanted = unfinished + BEHAVIOUR_COWNS;
        if log_length <= self.behind.capacity() && wanted <= self.ready.capacity() {
            return Ok(());
        }
        self.reserve_counts(log_length)?;
        self.ready.reserve(wanted.saturating_sub(self.ready.len()))
    }

    // Adds a count of 0 for each of this many behaviours, to a log that has no counts yet.
    pub(crate) fn skip(&mut self, finished: usize)
        requires empty { self.old.behind.items ≡ [] }
        requires room { finished ≤ vec_capacity self.old.behind }
        ensures behind { length self.new.behind.items ≡ finished }
        ensures counts { vec_capacity self.new.behind ≡ vec_capacity self.old.behind }
        ensures ready { self.new.ready ≡ self.old.ready }
    {
        for _ in 0..finished {
            self.behind.push_reserved(0);
        }
    }

    // Adds the behaviour at this position of the log. It isn't in front at this many of its cowns.
    #[inline(always)]
    pub(crate) fn push(&mut self, position: u64, behind: u8)
        requires behind_room { vec_len self.old.behind < vec_capacity self.old.behind }
        requires ready_room { deque_len self.old.ready < deque_capacity self.old.ready }
        ensures behind { self.new.behind.items ≡ self.old.behind.items ++ behind ∷ [] }
        ensures ready { self.new.ready.items ≡
            (if behind == 0 then self.old.ready.items ++ position ∷ [] else self.old.ready.items) }
        ensures len { deque_len self.new.ready ≤ deque_len self.old.ready + 1 }
        ensures counts { vec_capacity self.new.behind ≡ vec_capacity self.old.behind }
        ensures room { deque_capacity self.new.ready ≡ deque_capacity self.old.ready }
    {
        self.behind.push_reserved(behind);
        if behind == 0 {
            self.ready.push_back_reserved(position);
        }
    }

    // Removes the ready position that has this many ready ones before it.
    pub(crate) fn take(&mut self, index: usize) -> Option<u64>
        ensures outcome { MatchOption result
            ((length self.old.ready.items ≤ index) × (self.new.ready.items ≡ self.old.ready.items))
            (λ position. (slice_get self.old.ready.items index ≡ Some position) ×
            (self.new.ready.items ≡ remove self.old.ready.items index)) }
        ensures behind { self.new.behind ≡ self.old.behind }
        ensures room { deque_capacity self.new.ready ≡ deque_capacity self.old.ready }
    {
        let position = self.get(index)?;
        self.remove(index);
        Some(position)
    }

    // The ready position that has this many ready ones before it.
    fn get(&self, index: usize) -> Option<u64>
        ensures { MatchOption result
            (length self.now.ready.items ≤ index)
            (λ position. slice_get self.now.ready.items index ≡ Some position) }
    {
        self.ready.get(index).copied()
    }

    // Removes a ready position. `drain` always takes the first, which leaves without moving the
    // others.
    pub(crate) fn remove(&mut self, index: usize)
        requires { index < length self.old.ready.items }
        ensures behind { self.new.behind ≡ self.old.behind }
        ensures ready { self.new.ready.items ≡ remove self.old.ready.items index }
        ensures room { deque_capacity self.new.ready ≡ deque_capacity self.old.ready }
    {
        if index == 0 {
            self.ready.pop_front();
        } else {
            self.ready.remove(index);
        }
    }

    // Each of these waiting positions is in front at one more cown, once for each time that it
    // occurs. A position in front at all its cowns is then ready.
    pub(crate) fn come_forward(&mut self, fronts: &[u64])
        requires limit { length fronts.now ≤ 3 }
        requires behind { (position : ℕ) → occurrences position fronts.now ≤ get_or self.old.behind.items position 0 }
        requires room { deque_len self.old.ready + 3 ≤ deque_capacity self.old.ready }
        ensures beside { length self.new.behind.items ≡ length self.old.behind.items }
        ensures behind { (position : ℕ) → get_or self.new.behind.items position 0 + occurrences position fronts.now
            ≡ get_or self.old.behind.items position 0 }
        ensures due { (waits : ℕ → Bool) (bound : ℕ) →
            All (λ position. (position < bound) × (waits position ≡ true)) fronts.now →
            AreDue waits self.old.behind.items bound self.old.ready.items →
            AreDue waits self.new.behind.items bound self.new.ready.items }
        ensures room { deque_capacity self.old.ready ≤ deque_capacity self.new.ready }
    {
        for position in fronts {
            self.step_forward(*position);
        }
    }

    // A waiting position is in front at one more cown.
    fn step_forward(&mut self, position: u64)
        requires behind { 0 < get_or self.old.behind.items position 0 }
        requires room { deque_len self.old.ready < deque_capacity self.old.ready }
        ensures behind { self.new.behind.items
            ≡ slice_set self.old.behind.items position (get_or self.old.behind.items position 0 - 1) }
        ensures due { (waits : ℕ → Bool) (bound : ℕ) → position < bound → waits position ≡ true →
            AreDue waits self.old.behind.items bound self.old.ready.items →
            AreDue waits self.new.behind.items bound self.new.ready.items }
        ensures len { deque_len self.new.ready ≤ deque_len self.old.ready + 1 }
        ensures room { deque_capacity self.old.ready ≤ deque_capacity self.new.ready }
    {
        let at = position as usize;
        let behind = self.behind[at] - 1;
        self.behind[at] = behind;
        if behind == 0 {
            put_in_order(&mut self.ready, position);
        }
    }
}

// Inserts a position into a rising list that doesn't have it.
fn put_in_order(list: &mut VecDeque<u64>, position: u64)
    requires { deque_len list.old < deque_capacity list.old }
    ensures items { (f : ℕ → Bool) (bound : ℕ) → position < bound → f position ≡ false →
        list.old.items ≡ positions f bound → list.new.items ≡ positions (with_position f position) bound }
    ensures len { deque_len list.new ≡ deque_len list.old + 1 }
    ensures room { deque_capacity list.old ≤ deque_capacity list.new }
{
    let index = list.partition_point(|other| *other < position);
    let inserted = list.insert(index, position).is_ok();
    // There is room.
    prove!(inserted);
}
