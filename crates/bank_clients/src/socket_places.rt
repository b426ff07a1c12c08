//! The sockets of clients, each at its place.
ghost use Rattle.std.specs.Prelude.{◌≡◌, ◌≤◌, length, IfSome};

use crate::lingering::Lingering;
use crate::slot::Slot;
use crate::traffic::Traffic;
use bank_server::Arrival;
use std::alloc::{AllocError, Global};
use std::time::{Duration, Instant};

/// The sockets of clients, each at its place.
#[derive(Drop)]
pub(crate) struct SocketPlaces {
    slots: Vec<Option<Slot>>,
    // The places without a client.
    free: Vec<usize>,
    // The places that are read in this turn, those that are read in the next, and those of guests who are looked
    // at next. A place stands in one of them once if its socket is listed, else in none: so there is always room.
    ready: Vec<usize>,
    later: Vec<usize>,
    guests: Vec<usize>,
    // The places whose connections take more again.
    writable: Vec<usize>,
    // For how long a client may be silent.
    patience: Option<Duration>,
    // When the first client has been silent for too long, at the earliest.
    look: Option<Instant>,
}

/// What the system says of a socket.
#[derive(Clone, Copy)]
pub(crate) struct Sign {
    /// Something can be read, or it failed.
    pub(crate) is_readable: bool,
    /// Its other end sends no more.
    pub(crate) is_closing: bool,
    /// It takes more.
    pub(crate) is_writable: bool,
}

impl SocketPlaces {
    /// This many places without a client, each of which may be silent for so long.
    ///
    /// Fails if memory is refused.
    pub(crate) fn new(
        alloc: Global,
        count: usize,
        patience: Option<Duration>,
    ) -> Result<SocketPlaces, AllocError> {
        let mut slots = Vec::with_capacity(alloc, count)?;
        let mut free = Vec::with_capacity(alloc, count)?;
        for place in 0..count {
            slots.push(None)?;
            free.push(place)?;
        }
        Ok(SocketPlaces {
            slots,
            free,
            ready: Vec::with_capacity(alloc, count)?,
            later: Vec::with_capacity(alloc, count)?,
            guests: Vec::with_capacity(alloc, count)?,
            writable: Vec::with_capacity(alloc, count)?,
            patience,
            look: None,
        })
    }

    /// Takes a place that is free.
    pub(crate) fn take_free(&mut self) -> Option<usize> {
        self.free.pop()
    }

    /// A place that was taken is free again.
    pub(crate) fn give_back(&mut self, place: usize) {
        add(&mut self.free, place);
    }

    /// A guest comes to a place that was taken.
    pub(crate) fn occupy(&mut self, place: usize, slot: Slot) {
        self.look = earlier(self.look, deadline(&slot, self.patience));
        if let Some(old) = self.slots.get_mut(place) {
            *old = Some(slot);
        }
    }

    /// Closes the socket at a place, which is free then. It leaves the lists, for who comes there next is
    /// another one.
    pub(crate) fn close_place(&mut self, place: usize) {
        let Some(slot) = slot_at(&mut self.slots, place) else {
            return;
        };
        if slot.is_listed {
            take_out(&mut self.ready, place);
            take_out(&mut self.later, place);
            take_out(&mut self.guests, place);
        }
        take_out(&mut self.writable, place);
        if let Some(old) = self.slots.get_mut(place) {
            *old = None;
        }
        self.give_back(place);
    }

    /// What went over the connection at a place until this time.
    pub(crate) fn traffic_at(&self, place: usize, now: Instant) -> Option<Traffic> {
        match self.slots.get(place) {
            Some(Some(slot)) => Some(slot.carried(now)),
            _ => None,
        }
    }

    /// The places whose connections take more again.
    pub(crate) fn writable(&self) -> &[usize]
        ensures { result.now ≡ self.now.writable.items }
    {
        &self.writable
    }

    /// Whether a socket is read next, whatever the system says.
    pub(crate) fn is_busy(&self) -> bool {
        !self.later.is_empty()
    }

    /// When the first client has been silent for too long, at the earliest.
    pub(crate) fn look(&self) -> Option<Instant> {
        self.look
    }

    /// Before the system is asked again.
    pub(crate) fn forget_writable(&mut self) {
        self.writable.clear();
    }

    /// Takes what the system says of the socket at a place.
    pub(crate) fn take_sign(&mut self, place: usize, sign: Sign) {
        let Some(slot) = slot_at(&mut self.slots, place) else {
            return;
        };
        slot.is_closing = slot.is_closing || sign.is_closing;
        if sign.is_writable && slot.is_full {
            add(&mut self.writable, place);
        }
        if sign.is_readable || sign.is_closing {
            self.list(place);
        }
    }

    /// Has the socket at a place read next, or looked at if it is a guest's.
    pub(crate) fn list(&mut self, place: usize)
        ensures { self.new.writable ≡ self.old.writable }
    {
        let Some(slot) = slot_at(&mut self.slots, place) else {
            return;
        };
        if slot.is_listed {
            return;
        }
        slot.is_listed = true;
        if slot.is_guest {
            add(&mut self.guests, place);
        } else {
            add(&mut self.later, place);
        }
    }

    /// Looks at the guests, and answers how many were closed. One is a client from now on if it has sent
    /// something, or was silent for too long. Who closes its connection before is none.
    pub(crate) fn look_at_guests(&mut self, now: Instant) -> usize {
        let mut closed: usize = 0;
        for _ in 0..self.guests.len() {
            let Some(place) = self.guests.pop() else {
                break;
            };
            if self.look_at(place, now) == Some(false) {
                closed = closed.saturating_add(1);
            }
        }
        closed
    }

    // Looks at the guest at a place: whether it is a client from now on, or is closed, or neither by now.
    fn look_at(&mut self, place: usize, now: Instant) -> Option<bool> {
        let slot = slot_at(&mut self.slots, place)?;
        slot.is_listed = false;
        let is_client = slot.has_failed || slot.has_spoken()?;
        if is_client {
            slot.is_guest = false;
            slot.silent_since = now;
            slot.is_listed = true;
            add(&mut self.ready, place);
        } else {
            self.close_place(place);
        }
        Some(is_client)
    }

    /// The sockets that are read next are read now, in the order in which they were listed.
    pub(crate) fn begin(&mut self) {
        for _ in 0..self.later.len() {
            if let Some(place) = self.later.pop() {
                add(&mut self.ready, place);
            }
        }
    }

    /// Reads the next socket in which there is something.
    pub(crate) fn next(&mut self, chunk: &mut [u8], now: Instant) -> Option<Arrival>
        ensures { IfSome result (λ arrival. IfSome arrival.read (λ count. count ≤ length chunk.new)) }
    {
        for _ in 0..self.ready.len() {
            let client = self.ready.pop()?;
            if let Some(read) = self.read_place(client, chunk, now) {
                return Some(Arrival { client, read });
            }
        }
        None
    }

    // Reads the socket at a place, if there is something. Of a client who was left it is skipped.
    fn read_place(&mut self, place: usize, chunk: &mut [u8], now: Instant) -> Option<Option<usize>>
        ensures { IfSome result (λ read. IfSome read (λ count. count ≤ length chunk.new)) }
    {
        let slot = slot_at(&mut self.slots, place)?;
        slot.is_listed = false;
        if slot.has_failed {
            return Some(None);
        }
        let read = slot.read_once(chunk, now);
        let count = match read {
            Some(Some(count)) => count,
            _ => 0,
        };
        // What fills the chunk, or comes before the end, may not be all.
        let has_more = count > 0 && (count == chunk.len() || slot.is_closing);
        let is_left = slot.lingering.is_some();
        if is_skipped(slot, read) {
            self.close_place(place);
        } else if has_more {
            self.list(place);
        }
        // What one who was left still sends is nobody's: the place is the next client's.
        if is_left { None } else { read }
    }

    /// A whole frame has come from the client at a place.
    pub(crate) fn hear_place(&mut self, place: usize, now: Instant) {
        if let Some(slot) = slot_at(&mut self.slots, place) {
            slot.silent_since = now;
        }
    }

    /// Writes as many of these bytes as the connection at a place takes by now, and answers how many.
    pub(crate) fn write_place(&mut self, place: usize, bytes: &[u8], now: Instant) -> usize
        ensures count { result ≤ length bytes.now }
        ensures writable { self.new.writable ≡ self.old.writable }
    {
        let Some(slot) = slot_at(&mut self.slots, place) else {
            return 0;
        };
        let count = slot.write(bytes, now);
        if slot.has_failed {
            // Its client is to hear of it.
            self.list(place);
        }
        count
    }

    /// Leaves the client at a place: its socket is closed, if it isn't at fault, or else once what it
    /// still sends was skipped.
    pub(crate) fn leave_place(&mut self, place: usize, is_at_fault: bool, now: Instant) {
        let Some(slot) = slot_at(&mut self.slots, place) else {
            return;
        };
        if is_at_fault && !slot.has_failed && slot.hang_up() {
            slot.lingering = Some(Lingering::new(now));
            let deadline = deadline(slot, None);
            self.look = earlier(self.look, deadline);
            self.list(place);
        } else {
            self.close_place(place);
        }
    }

    /// Finds out who has been silent for too long. Its client is to hear of it, unless it was left.
    pub(crate) fn find_silent(&mut self, now: Instant) {
        if !has_come(self.look, now) {
            return;
        }
        self.look = None;
        for place in 0..self.slots.len() {
            self.find_out(place, now);
        }
    }

    // Finds out whether a client has been silent for too long.
    fn find_out(&mut self, place: usize, now: Instant) {
        let patience = self.patience;
        let Some(slot) = slot_at(&mut self.slots, place) else {
            return;
        };
        let Some(until) = deadline(slot, patience) else {
            return;
        };
        if until > now {
            self.look = earlier(self.look, Some(until));
        } else if slot.lingering.is_some() {
            self.close_place(place);
        } else if !slot.has_failed {
            slot.has_failed = true;
            self.list(place);
        }
    }
}

// The socket at a place.
fn slot_at(slots: &mut Vec<Option<Slot>>, place: usize) -> Option<&mut Slot> {
    match slots.get_mut(place) {
        Some(Some(slot)) => Some(slot),
        _ => None,
    }
}

// Adds a place to a list that has room for it.
fn add(list: &mut Vec<usize>, place: usize) {
    let _ = list.push(place);
}

// Takes a place out of a list, if it stands there.
fn take_out(list: &mut Vec<usize>, place: usize) {
    list.retain(|listed| *listed != place);
}

// When a client has been silent for too long, if it is silent from now on. One that is left is by any byte, and
// else by a whole frame.
fn deadline(slot: &Slot, patience: Option<Duration>) -> Option<Instant> {
    match &slot.lingering {
        Some(lingering) => lingering.deadline(slot.heard),
        None => slot.silent_since.checked_add(patience?),
    }
}

/// Whether it is this time by now.
pub(crate) fn has_come(time: Option<Instant>, now: Instant) -> bool {
    match time {
        Some(time) => time <= now,
        None => false,
    }
}

/// The earlier one of two times.
pub(crate) fn earlier(one: Option<Instant>, other: Option<Instant>) -> Option<Instant> {
    match (one, other) {
        (Some(one), Some(other)) => Some(if one < other { one } else { other }),
        (Some(one), None) => Some(one),
        (None, other) => other,
    }
}

// Whether its client was left, and nothing more is skipped by what this read found.
fn is_skipped(slot: &mut Slot, read: Option<Option<usize>>) -> bool {
    let Some(lingering) = &mut slot.lingering else {
        return false;
    };
    match read {
        Some(Some(count)) => count == 0 || lingering.skip(count),
        Some(None) => true,
        None => false,
    }
}
