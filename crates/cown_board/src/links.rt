//! Which behaviours of a log wait for which.
ghost use Rattle.std.specs.Prelude.{◌≡◌, ◌+◌, ◌*◌, ◌<◌, ◌≤◌, [], ℕ, true, false, Some, List, length, replicate, get_or, slice_get, slice_set, IfOk, OnOk, OnErr, MatchOption, vec_len, vec_capacity};
ghost use Rattle.std.specs.VecDeque.{deque_len, deque_capacity};
ghost use Rattle.sb_calls.specs.Cowns.{AreBelow, IsRising};
ghost use Rattle.cown_queue.specs.Queues.{IsInFront, Releases, fronts_of};
ghost use Rattle.cown_queue.specs.inner.Occurrences.{occurrences};
ghost use Rattle.cown_board.specs.inner.BoardInvariant.{IsLinked, AreCowns, AreLinks};
ghost use Rattle.cown_board.specs.inner.Links.{ComesForward, IsUnlinked, LeavesLinks, KeepsRoom, TakesIn};
ghost use Rattle.cown_board.specs.Readiness.{ready_positions};

use crate::fronts::count_occupied;
use crate::ready_list::ReadyList;
use crate::state::State;
use cown_queue::Queues;
use sb_calls::{BEHAVIOUR_COWNS, Behaviour, Cown};
use std::alloc::{AllocError, Global};

// The links between unfinished behaviours, from which the ready ones follow.
//
// While the behaviours are taken one at a time, the first unfinished one is next, and nothing is
// linked. Once another is asked for, all are linked, and stay so.
#[derive(Drop)]
pub(crate) struct Links {
    pub(crate) linked: bool,
    // For each cown the positions in the log of the unfinished behaviours that declare it.
    pub(crate) queues: Queues,
    pub(crate) ready: ReadyList,
}

impl Links {
    // The links of an empty log over this many cowns.
    pub(crate) fn for_cowns(alloc: Global, cowns: usize) -> Result<Links, AllocError>
        ensures { IfOk result (λ links. (links.linked ≡ false) × (links.queues.lists ≡ replicate cowns []) ×
            (links.ready.behind.items ≡ []) × (links.ready.ready.items ≡ [])) }
    {
        Ok(Links {
            linked: false,
            queues: Queues::open(alloc, cowns)?,
            ready: ReadyList::new(alloc),
        })
    }

    // Makes room for the counts of a log of this length. If memory is refused, nothing is lost.
    pub(crate) fn reserve(&mut self, log_length: usize) -> Result<(), AllocError>
        ensures linked { self.new.linked ≡ self.old.linked }
        ensures queues { self.new.queues ≡ self.old.queues }
        ensures behind { self.new.ready.behind.items ≡ self.old.ready.behind.items }
        ensures ready { self.new.ready.ready ≡ self.old.ready.ready }
        ensures counts { vec_capacity self.old.ready.behind ≤ vec_capacity self.new.ready.behind }
    {
        self.ready.reserve_counts(log_length)
    }

    // Adds the behaviour at this position of the log, where this many are unfinished with it. All
    // room for linking, handing out and finishing it is made here. If memory is refused, nothing is
    // lost.
    #[inline(always)]
    pub(crate) fn enqueue<B: Behaviour>(
        &mut self,
        position: u64,
        behaviour: B,
        unfinished: usize,
    ) -> Result<(), AllocError>
        requires cowns { AreBelow (length self.old.queues.lists) (B.touches behaviour) }
        requires position { position < 1000000 }
        requires unfinished { unfinished ≤ 1024 }
        requires counts { self.old.linked ≡ true → vec_len self.old.ready.behind ≡ position }
        requires ready { self.old.linked ≡ true → deque_len self.old.ready.ready < unfinished }
        ensures room { KeepsRoom self.old self.new }
        ensures ok { OnOk result (TakesIn position unfinished (B.touches behaviour) self.old self.new) }
        ensures err { OnErr result (LeavesLinks self.old self.new) }
    {
        self.ready.reserve(position as usize + 1, unfinished)?;
        if !self.linked {
            return self.queues.reserve_places(unfinished * BEHAVIOUR_COWNS);
        }
        let cowns = behaviour.cowns();
        let cowns = cowns.as_slice();
        self.queues.reserve(cowns)?;
        let behind = count_occupied(&self.queues, cowns);
        self.queues.append(position, cowns);
        self.ready.push(position, behind);
        Ok(())
    }

    // Hands out the ready behaviour that has this many ready ones before it, and returns its
    // position. It allocates nothing.
    #[inline(always)]
    pub(crate) fn take<B: Behaviour>(
        &mut self,
        log: &Vec<B>,
        states: &Vec<State>,
        unfinished: usize,
        index: usize,
    ) -> Option<u64>
        requires links { AreLinks B.touches B.effect log.now.items states.now.items
            unfinished (length self.old.queues.lists) self.old }
        requires cowns { AreCowns B.touches B.effect (length self.old.queues.lists) log.now.items }
        requires beside { length log.now.items ≡ length states.now.items }
        requires limit { length log.now.items ≤ 1000000 }
        ensures cowns_stay { length self.new.queues.lists ≡ length self.old.queues.lists }
        ensures outcome { MatchOption result
            ((length (ready_positions B.touches log.now.items states.now.items) ≤ index) ×
            AreLinks B.touches B.effect log.now.items states.now.items
            unfinished (length self.old.queues.lists) self.new)
            (λ position. (slice_get (ready_positions B.touches log.now.items states.now.items) index ≡ Some position) ×
            AreLinks B.touches B.effect log.now.items (slice_set states.now.items position State.Out)
            unfinished (length self.old.queues.lists) self.new) }
    {
        if self.linked {
            return self.ready.take(index);
        }
        if unfinished == 0 {
            return None;
        }
        let first = log.len() - unfinished;
        if index == 0 && states[first].waits() {
            return Some(first as u64);
        }
        self.link(log, states, first);
        self.ready.take(index)
    }

    // Links all unfinished behaviours, from this position on.
    #[cold]
    fn link<B: Behaviour>(&mut self, log: &Vec<B>, states: &Vec<State>, first: usize)
        requires within { first < length log.now.items }
        requires limit { length log.now.items ≤ 1000000 }
        requires unlinked { IsUnlinked (length log.now.items) states.now.items first
            (length self.old.queues.lists) self.old }
        requires room { length log.now.items + 3 ≤ first + deque_capacity self.old.ready.ready }
        requires cowns { AreCowns B.touches B.effect (length self.old.queues.lists) log.now.items }
        requires beside { length log.now.items ≡ length states.now.items }
        ensures linked { self.new.linked ≡ true }
        ensures cowns_stay { length self.new.queues.lists ≡ length self.old.queues.lists }
        ensures all_linked { IsLinked B.touches B.effect log.now.items states.now.items
            (length self.old.queues.lists) self.new }
        ensures room { deque_capacity self.new.ready.ready ≡ deque_capacity self.old.ready.ready }
    {
        self.ready.skip(first);
        for position in first..log.len() {
            let behaviour = log[position];
            let cowns = behaviour.cowns();
            let cowns = cowns.as_slice();
            let behind = count_occupied(&self.queues, cowns);
            self.queues.put(position as u64, cowns);
            self.ready.push(position as u64, behind);
        }
        // The first may be out already.
        if !states[first].waits() {
            self.ready.remove(0);
        }
        self.linked = true;
    }

    // Finishes the behaviour at this position, which is out and declares these cowns: those behind
    // it step forward. It allocates nothing.
    #[inline(always)]
    pub(crate) fn release(&mut self, position: u64, cowns: &[Cown])
        requires limit { length cowns.now ≤ 3 }
        requires rising { IsRising cowns.now }
        requires front { self.old.linked ≡ true → IsInFront position cowns.now self.old.queues.lists }
        requires behind { self.old.linked ≡ true → (new : List (List ℕ)) →
            Releases cowns.now self.old.queues.lists new →
            (k : ℕ) → occurrences k (fronts_of new cowns.now) ≤ get_or self.old.ready.behind.items k 0 }
        requires room { deque_len self.old.ready.ready + 3 ≤ deque_capacity self.old.ready.ready }
        ensures linked { self.new.linked ≡ self.old.linked }
        ensures unchanged { self.old.linked ≡ false → self.new ≡ self.old }
        ensures released { self.old.linked ≡ true →
            Releases cowns.now self.old.queues.lists self.new.queues.lists }
        ensures forward { self.old.linked ≡ true →
            ComesForward (fronts_of self.new.queues.lists cowns.now) self.old.ready self.new.ready }
        ensures room { deque_capacity self.old.ready.ready ≤ deque_capacity self.new.ready.ready }
    {
        if !self.linked {
            return;
        }
        let fronts = self.queues.release(position, cowns);
        self.ready.come_forward(fronts.as_slice());
    }
}
