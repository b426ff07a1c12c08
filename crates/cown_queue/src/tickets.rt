//! Tickets for the numbers that wait, in one table for all cowns.
ghost use Rattle.std.specs.Prelude.{◌≡◌, ◌+◌, ◌<◌, ◌≤◌, [], ◌∷◌, ◌++◌, max, drop, length, replicate, slice_set, vec_capacity, IfOk, OnOk, OnErr};
ghost use Rattle.cown_queue.specs.Queues.{front_of, list_of, queued_in};
ghost use Rattle.cown_queue.specs.inner.Chains.{KeepsChains};
ghost use Rattle.cown_queue.specs.declared.tickets.TheConstants.{NONE};

use sb_calls::Cown;
use std::alloc::{AllocError, Global};
use std::marker::Model;
use std::mem::size_of;

// The place that means no ticket.
const NONE: u32 = u32::MAX;

// A number that waits at a cown, and the place of the next ticket.
#[derive(Clone, Copy)]
struct Ticket {
    number: u64,
    next: u32,
}

// The places of a cown's first ticket and of its last.
#[derive(Clone, Copy)]
struct Ends {
    first: u32,
    last: u32,
}

// The size of a ticket, and of an idle cown.
const _: () = prove!(size_of::<Ticket>() == 16);

const _: () = prove!(size_of::<Ends>() == 8);

/// A ticket for each number that waits at a cown. The tickets of a cown are a chain: each names the
/// place of the next.
#[derive(Drop)]
pub(crate) struct Tickets {
    table: Vec<Ticket>,
    // The two ends of each cown's chain. An idle cown takes nothing else.
    ends: Vec<Ends>,
    // The places of the table that are in no chain. The list has memory for all places.
    free: Vec<u32>,
}

impl Model for Tickets {
    ghost use Rattle.std.specs.Prelude.{length, vec_capacity};
    ghost use Rattle.cown_queue.specs.inner.Chains.{TicketLists, lists_of, AreTickets};

    ghost Value = { TicketLists };

    ghost view = { λ t. record {
      lists = lists_of t.table.items t.ends.items;
      free = length t.free.items;
      places = length t.table.items;
    } };

    ghost invariant = { λ t. AreTickets t.table.items t.ends.items t.free.items (vec_capacity t.free) };
}

impl Tickets {
    /// No tickets at this many cowns.
    pub(crate) fn new(alloc: Global, cowns: usize) -> Result<Tickets, AllocError>
        ensures { IfOk result
            (λ tickets. tickets ≡ record { lists = replicate cowns []; free = 0; places = 0 }) }
    {
        let mut ends = Vec::with_capacity(alloc, cowns)?;
        ends.resize(
            cowns,
            Ends {
                first: NONE,
                last: NONE,
            },
        )?;
        Ok(Tickets {
            table: Vec::new(alloc),
            ends,
            free: Vec::new(alloc),
        })
    }

    /// The number of cowns.
    pub(crate) fn queues(&self) -> usize
        ensures { result ≡ length self.now.lists }
    {
        self.ends.len()
    }

    /// The number of places: those of the tickets and the free ones.
    pub(crate) fn places(&self) -> usize
        ensures value { result ≡ self.now.places }
        ensures total { queued_in self.now.lists + self.now.free ≡ self.now.places }
    {
        self.table.len()
    }

    /// Makes sure that at least this many places are free. If memory is refused, or a place would
    /// no longer fit, nothing changes.
    pub(crate) fn grow(&mut self, wanted: usize) -> Result<(), AllocError>
        ensures lists { self.new.lists ≡ self.old.lists }
        ensures free { OnOk result (self.new.free ≡ max self.old.free wanted) }
        ensures places { OnOk result
            (self.new.places ≡ max self.old.places (queued_in self.old.lists + wanted)) }
        ensures err { OnErr result (self.new ≡ self.old) }
    {
        let free = self.free.len();
        if wanted <= free {
            return Ok(());
        }
        let places = self.table.len();
        let count = wanted - free;
        if count > NONE as usize - places {
            return Err(AllocError);
        }
        add_places(&mut self.table, &mut self.free, count)
    }

    /// Appends a number to the queue of a cown. Its ticket takes a free place.
    pub(crate) fn push(&mut self, cown: Cown, number: u64)
        requires cown { cown < length self.old.lists }
        requires free { 0 < self.old.free }
        ensures lists { self.new.lists
            ≡ slice_set self.old.lists cown (list_of self.old.lists cown ++ number ∷ []) }
        ensures free { self.new.free + 1 ≡ self.old.free }
        ensures places { self.new.places ≡ self.old.places }
    {
        let ends = self.ends[cown.id()];
        let place = self.free.take_last();
        self.table[place as usize] = Ticket { number, next: NONE };
        if ends.last == NONE {
            self.ends[cown.id()].first = place;
        } else {
            self.table[ends.last as usize].next = place;
        }
        self.ends[cown.id()].last = place;
    }

    /// Removes the first number of a cown. The place of its ticket becomes free.
    pub(crate) fn pop(&mut self, cown: Cown)
        requires { 0 < length (list_of self.old.lists cown) }
        ensures lists { self.new.lists
            ≡ slice_set self.old.lists cown (drop 1 (list_of self.old.lists cown)) }
        ensures free { self.new.free ≡ self.old.free + 1 }
        ensures places { self.new.places ≡ self.old.places }
    {
        let ends = self.ends[cown.id()];
        let next = self.table[ends.first as usize].next;
        let last = if next == NONE { NONE } else { ends.last };
        self.ends[cown.id()] = Ends { first: next, last };
        self.free.push_reserved(ends.first);
    }

    /// The first number at a cown. A cown that doesn't exist has none.
    pub(crate) fn front(&self, cown: Cown) -> Option<u64>
        ensures { result ≡ front_of self.now.lists cown }
    {
        let first = self.ends.get(cown.id())?.first;
        Some(self.table.get(first as usize)?.number)
    }
}

// Adds this many free places to a table, or none of them.
#[cold]
fn add_places(table: &mut Vec<Ticket>, free: &mut Vec<u32>, count: usize) -> Result<(), AllocError>
    requires fits { length table.old.items + count ≤ NONE }
    requires free { length free.old.items ≤ length table.old.items }
    requires room { length table.old.items ≤ vec_capacity free.old }
    ensures linked { KeepsChains table.old.items free.old.items table.new.items free.new.items }
    ensures fits { length table.new.items ≤ NONE }
    ensures room { length table.new.items ≤ vec_capacity free.new }
    ensures ok { OnOk result ((length table.new.items ≡ length table.old.items + count) ×
        (length free.new.items ≡ length free.old.items + count)) }
    ensures err { OnErr result ((table.new.items ≡ table.old.items) × (free.new.items ≡ free.old.items)) }
{
    let places = table.len();
    table.reserve(count)?;
    free.reserve(places + count - free.len())?;
    for place in places..places + count {
        table.push_reserved(Ticket {
            number: 0,
            next: NONE,
        });
        free.push_reserved(place as u32);
    }
    Ok(())
}
