//! A queue for each cown.
ghost use Rattle.std.specs.Prelude.{◌≡◌, ◌≤◌, ◌<◌, ◌+◌, ℕ, [], max, length, replicate, vec_capacity, IsTrue, IfOk, OnOk, OnErr};
ghost use Rattle.sb_calls.specs.Cowns.{AreBelow, IsRising};
ghost use Rattle.sb_calls.specs.SerialRun.{is_among};
ghost use Rattle.cown_queue.specs.Queues.{CownQueues, queued_in, list_of, front_of, fronts_of, Appends, IsInFront, Releases};

use crate::tickets::Tickets;
use arrayvec::ArrayVec;
use sb_calls::Cown;
use std::alloc::{AllocError, Global};
use std::marker::Model;

/// A queue for each cown: the numbers of the behaviours that declare it, in the order in which they
/// were spawned.
#[derive(Drop)]
pub struct Queues {
    tickets: Tickets,
    // The cowns that have room for one more number, if they exist. At least this many places are
    // free. Only contracts read them: `append` requires that its cowns are these.
    reserved: Vec<Cown>,
}

impl Model for Queues {
    ghost use Rattle.std.specs.Prelude.{◌≤◌, length};
    ghost use Rattle.cown_queue.specs.Queues.{CownQueues};

    ghost Value = { CownQueues };

    ghost view = { λ q. record {
      lists = q.tickets.lists;
      reserved = q.reserved.items;
      places = q.tickets.places;
    } };

    ghost invariant = { λ q. length q.reserved.items ≤ q.tickets.free };
}

impl Queues {
    /// An empty queue for each of this many cowns, numbered from 0.
    pub fn open(alloc: Global, cowns: usize) -> Result<Queues, AllocError>
        ensures { IfOk result
            (λ queues. queues ≡ record { lists = replicate cowns []; reserved = []; places = 0 }) }
    {
        Ok(Queues {
            tickets: Tickets::new(alloc, cowns)?,
            reserved: Vec::new(alloc),
        })
    }

    /// The number of cowns.
    pub fn cowns(&self) -> usize
        ensures { result ≡ length self.now.lists }
    {
        self.tickets.queues()
    }

    /// The number of tickets that there are places for: at least one for each number in each queue,
    /// and for each reserved cown.
    pub fn places(&self) -> usize
        ensures value { result ≡ self.now.places }
        ensures enough { queued_in self.now.lists + length self.now.reserved ≤ self.now.places }
    {
        self.tickets.places()
    }

    /// Makes room for one more number at these cowns, and drops the room made for others before. If
    /// memory is refused, or a place would no longer fit a `u32`, nothing changes.
    ///
    /// It allocates only if the tickets or the reserved cowns outgrow the memory that they have.
    pub fn reserve(&mut self, cowns: &[Cown]) -> Result<(), AllocError>
        ensures ok { OnOk result (self.new ≡ record self.old {
          reserved = cowns.now;
          places = max self.old.places (queued_in self.old.lists + length cowns.now);
        }) }
        ensures err { OnErr result (self.new ≡ self.old) }
    {
        self.reserved.reserve(cowns.len())?;
        self.tickets.grow(cowns.len())?;
        write_reserved(&mut self.reserved, cowns);
        Ok(())
    }

    /// Makes places for this many tickets beyond those in all queues. A number that is `put` takes
    /// one at each of its cowns. If memory is refused, or a place would no longer fit a `u32`,
    /// nothing changes.
    ///
    /// It allocates only if the tickets outgrow the memory that they have.
    pub fn reserve_places(&mut self, count: usize) -> Result<(), AllocError>
        ensures ok { OnOk result (self.new ≡ record self.old {
          places = max self.old.places (queued_in self.old.lists + count);
        }) }
        ensures err { OnErr result (self.new ≡ self.old) }
    {
        self.tickets.grow(count)
    }

    /// Appends a number to the queues of the cowns for which room was made. It allocates nothing,
    /// and afterwards no cown has room made.
    pub fn append(&mut self, number: u64, cowns: &[Cown])
        requires reserved { cowns.now ≡ self.old.reserved }
        requires rising { IsRising cowns.now }
        requires cowns { AreBelow (length self.old.lists) cowns.now }
        ensures lists { Appends number cowns.now self.old.lists self.new.lists }
        ensures reserved { self.new.reserved ≡ [] }
        ensures places { self.new.places ≡ self.old.places }
    {
        prove!(cowns.len() <= self.places());
        self.put(number, cowns);
    }

    /// Appends a number to the queues of cowns for which there are places. It allocates nothing,
    /// and afterwards no cown has room made.
    pub fn put(&mut self, number: u64, cowns: &[Cown])
        requires places { queued_in self.old.lists + length cowns.now ≤ self.old.places }
        requires rising { IsRising cowns.now }
        requires cowns { AreBelow (length self.old.lists) cowns.now }
        ensures lists { Appends number cowns.now self.old.lists self.new.lists }
        ensures queued { queued_in self.new.lists ≡ queued_in self.old.lists + length cowns.now }
        ensures reserved { self.new.reserved ≡ [] }
        ensures places { self.new.places ≡ self.old.places }
    {
        prove!(cowns.len() <= self.tickets.places());
        push_each(&mut self.tickets, number, cowns);
        prove!(cowns.len() <= self.tickets.places());
        self.reserved.clear();
    }

    /// Removes a number from the front of these cowns, and returns the new fronts of those that
    /// still hold a number, in order.
    pub fn release(&mut self, number: u64, cowns: &[Cown]) -> ArrayVec<u64, 3>
        requires limit { length cowns.now ≤ 3 }
        requires rising { IsRising cowns.now }
        requires front { IsInFront number cowns.now self.old.lists }
        ensures lists { Releases cowns.now self.old.lists self.new.lists }
        ensures reserved { self.new.reserved ≡ self.old.reserved }
        ensures places { self.new.places ≡ self.old.places }
        ensures fronts { result.items ≡ fronts_of self.new.lists cowns.now }
    {
        pop_each(&mut self.tickets, cowns);
        fronts_at(&self.tickets, cowns)
    }

    /// The first number at a cown, if it holds one. A cown that doesn't exist holds none.
    pub fn front(&self, cown: Cown) -> Option<u64>
        ensures { result ≡ front_of self.now.lists cown }
    {
        self.tickets.front(cown)
    }
}

// Writes exactly these cowns, into the memory that there is. One by one: a copy in one piece would
// load, in wider pieces, cowns that were only just stored, and wait for them.
fn write_reserved(written: &mut Vec<Cown>, cowns: &[Cown])
    requires { length cowns.now ≤ vec_capacity written.old }
    ensures { written.new.items ≡ cowns.now }
{
    written.clear();
    for cown in cowns {
        written.push_reserved(*cown);
    }
}

// Appends a number to the queue of each of these cowns.
fn push_each(tickets: &mut Tickets, number: u64, cowns: &[Cown])
    requires rising { IsRising cowns.now }
    requires cowns { AreBelow (length tickets.old.lists) cowns.now }
    requires free { length cowns.now ≤ tickets.old.free }
    ensures lists { Appends number cowns.now tickets.old.lists tickets.new.lists }
    ensures free { tickets.new.free + length cowns.now ≡ tickets.old.free }
    ensures places { tickets.new.places ≡ tickets.old.places }
{
    for cown in cowns {
        tickets.push(*cown, number);
    }
}

// Removes the first number of each of these cowns.
fn pop_each(tickets: &mut Tickets, cowns: &[Cown])
    requires rising { IsRising cowns.now }
    requires queued { (cown : ℕ) → IsTrue (is_among cown cowns.now) →
        0 < length (list_of tickets.old.lists cown) }
    ensures lists { Releases cowns.now tickets.old.lists tickets.new.lists }
    ensures free { tickets.old.free ≤ tickets.new.free }
    ensures places { tickets.new.places ≡ tickets.old.places }
{
    for cown in cowns {
        tickets.pop(*cown);
    }
}

// The first numbers of these cowns, in order. A cown that holds none is skipped.
fn fronts_at(tickets: &Tickets, cowns: &[Cown]) -> ArrayVec<u64, 3>
    requires { length cowns.now ≤ 3 }
    ensures { result.items ≡ fronts_of tickets.now.lists cowns.now }
{
    let mut fronts = ArrayVec::new();
    for cown in cowns {
        if let Some(number) = tickets.front(*cown) {
            fronts.push(number);
        }
    }
    fronts
}
