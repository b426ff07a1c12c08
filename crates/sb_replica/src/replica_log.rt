//! The log of a replica.
ghost use Rattle.std.specs.Prelude.{◌≡◌, ◌<◌, ◌%◌, length, replicate, IfOk, IfSome, OnErr, Some, None, MatchResult};
ghost use Rattle.sb_calls.specs.Op.{IsOpWithin};
ghost use Rattle.cown_board.specs.Board.{length_of};
ghost use Rattle.sb_replica.specs.Log.{none_held, next_held};
ghost use Rattle.sb_replica.specs.Offers.{offer_answer, after_offer, next_offer_answer, advance_answer, after_advance};

use crate::offered::Offered;
use cown_board::{Board, SubmitFault};
use sb_calls::{LOG_CALLS, Op};
use std::alloc::AllocError;
use std::marker::Model;

/// An entry is held for this many numbers after a log's length.
pub const HELD_ENTRIES: usize = 64;

/// A board whose log is a beginning of one numbered log. A repeated entry changes nothing, and an
/// entry that comes a little early is held until its turn.
#[derive(Drop)]
pub(crate) struct ReplicaLog {
    pub(crate) board: Board<Op>,
    // The ops that came early, each in the slot of its number, counted round.
    held: [Option<Op>; HELD_ENTRIES],
}

impl Model for ReplicaLog {
    ghost use Rattle.cown_board.specs.Board.{length_of};
    ghost use Rattle.sb_replica.specs.Log.{LogOf};
    ghost use Rattle.sb_replica.specs.inner.HeldOps.{IsReplicaLog};
    ghost use Rattle.sb_replica.specs.inner.Rotation.{in_order_after};

    ghost Value = { LogOf };

    ghost view = { λ l. record { board = l.board; held = in_order_after (length_of l.board) l.held } };

    ghost invariant = { λ l.
        IsReplicaLog (record { board = l.board; held = in_order_after (length_of l.board) l.held }) };
}

// For the prover alone: the array gets its clause here.
#[inline(always)]
fn empty_slots() -> [Option<Op>; HELD_ENTRIES]
    ensures { result ≡ replicate HELD_ENTRIES None }
{
    [None; HELD_ENTRIES]
}

// The slot in which the op for a number is held.
#[inline(always)]
fn slot_of(number: u64) -> usize
    ensures { result ≡ number % HELD_ENTRIES }
{
    (number % HELD_ENTRIES as u64) as usize
}

impl ReplicaLog {
    /// The replica log that this board has so far. It holds no entry.
    pub(crate) fn with_board(board: Board<Op>) -> ReplicaLog
        ensures { result ≡ record { board = board; held = none_held } }
    {
        ReplicaLog {
            board,
            held: empty_slots(),
        }
    }

    /// Offers the entry with this number. The log takes it if it is the next one and holds it if it
    /// comes a little early. Otherwise nothing changes.
    ///
    /// Fails if memory is refused for an entry that would be taken; then nothing changes.
    #[inline]
    pub(crate) fn offer_entry(&mut self, number: u64, op: Op) -> Result<Offered, AllocError>
        requires { IsOpWithin (length self.old.board.opening.savings) op }
        ensures answer { IfOk result (λ answer. answer ≡ offer_answer self.old.board number) }
        ensures err { OnErr result (offer_answer self.old.board number ≡ Offered.Next) }
        ensures state { MatchResult result
            (λ answer. self.new ≡ after_offer self.old op answer)
            (λ refused. self.new ≡ self.old) }
    {
        let length = self.board.length();
        if number <= length {
            return Ok(Offered::Repeat);
        }
        if number > length + HELD_ENTRIES as u64 || number > LOG_CALLS as u64 {
            return Ok(Offered::Gap(length));
        }
        if number > length + 1 {
            self.held[slot_of(number)] = Some(op);
            return Ok(Offered::Held(number));
        }
        self.take_next(op)
    }

    /// Takes the op that is held for the next number, if there is one, as if it were offered now.
    ///
    /// Fails if memory is refused for an op that would be taken; then nothing changes.
    pub(crate) fn take_held(&mut self) -> Result<Option<Offered>, AllocError>
        ensures answer { IfOk result (λ answer. answer ≡ advance_answer self.old) }
        ensures err { OnErr result (advance_answer self.old ≡ Some Offered.Next) }
        ensures state { MatchResult result
            (λ answer. self.new ≡ after_advance self.old)
            (λ refused. self.new ≡ self.old) }
    {
        match self.next_held() {
            Some(op) => Ok(Some(self.take_next(op)?)),
            None => Ok(None),
        }
    }

    // The op that is held for the next number.
    #[inline(always)]
    fn next_held(&self) -> Option<Op>
        ensures value { result ≡ next_held self.now }
        ensures within { IfSome result (IsOpWithin (length self.now.board.opening.savings)) }
        ensures has_room { IfSome result (λ op. length_of self.now.board < LOG_CALLS) }
    {
        let next = self.board.length() + 1;
        self.held[slot_of(next)]
    }

    // Takes the op of the next number, and drops what was held for it, unless the limit of
    // unfinished entries is reached.
    #[inline(always)]
    fn take_next(&mut self, op: Op) -> Result<Offered, AllocError>
        requires within { IsOpWithin (length self.old.board.opening.savings) op }
        requires has_room { length_of self.old.board < LOG_CALLS }
        ensures answer { IfOk result (λ answer. answer ≡ next_offer_answer self.old.board) }
        ensures err { OnErr result (next_offer_answer self.old.board ≡ Offered.Next) }
        ensures state { MatchResult result
            (λ answer. self.new ≡ after_offer self.old op answer)
            (λ refused. self.new ≡ self.old) }
    {
        // Its clauses say that the opening's columns are a bank's, as `submit` needs.
        let length = self.board.length();
        match self.board.submit(op) {
            Ok(number) => {
                self.held[slot_of(number)] = None;
                Ok(Offered::Next)
            }
            Err(SubmitFault::Busy) => Ok(Offered::Busy(length)),
            // The number isn't above what a log takes.
            Err(SubmitFault::LogFull) => unreachable!(),
            Err(SubmitFault::OutOfMemory) => Err(AllocError),
        }
    }
}
