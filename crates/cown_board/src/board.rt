//! The board.
ghost use Rattle.std.specs.Prelude.{◌≡◌, ◌≢◌, ◌↔◌, ◌<◌, ◌≤◌, ◌+◌, ◌-◌, [], length, option_map, IsTrue, IfOk, IfSome, OnOk, OnErr, Some, None, MatchOption, vec_len, vec_capacity};
ghost use Rattle.sb_rows.specs.Balances.{IsBalances};
ghost use Rattle.sb_calls.specs.Cowns.{AreBelow, contents_of};
ghost use Rattle.sb_calls.specs.SerialRun.{reply_by_log};
ghost use Rattle.cown_board.specs.Board.{length_of, unfinished_of, reply_in, IsAfterAll, AreCutColumns};
ghost use Rattle.cown_board.specs.BoardCalls.{HandsOut, MakesCut, Submits, TakesBack};

use crate::acceptance::{is_out_at, position_of};
use crate::cut::{Cut, CutFault, update_cut};
use crate::job::{Done, Job};
use crate::links::Links;
use crate::state::State;
use sb_calls::{Behaviour, LOG_CALLS, Reply, read_cowns, write_cowns};
use sb_rows::{CUSTOMERS, Columns};
use std::alloc::{AllocError, Global};
use std::marker::Model;
use thiserror::Error;

/// The greatest number of behaviours that may be unfinished at once.
pub const OPEN_BEHAVIOURS: usize = 1_024;

/// Why a behaviour wasn't submitted. The board stays as it was.
#[derive(Clone, Copy, Debug, PartialEq, Eq, Error, Drop)]
pub enum SubmitFault {
    /// The greatest number of behaviours is unfinished.
    #[error("busy")]
    Busy,
    /// The log has the greatest number of calls.
    #[error("log full")]
    LogFull,
    /// Memory was refused.
    #[error("out of memory")]
    OutOfMemory,
}

/// A log of behaviours. It hands out those whose cowns are free.
///
/// It can't run a behaviour itself. It learns a behaviour's reply, and what the behaviour leaves in
/// its cowns, only from the result that comes back.
#[derive(Drop)]
pub struct Board<B: Behaviour> {
    opening: Columns,
    columns: Columns,
    base: u64,
    base_replies: Vec<Reply>,
    log: Vec<B>,
    states: Vec<State>,
    links: Links,
    unfinished: usize,
    // The columns for a checkpoint, while later numbers run.
    cut: Option<Cut>,
}

impl<B: Behaviour> Model for Board<B> {
    ghost use Rattle.std.specs.Prelude.{◌≡◌, length, option_map};
    ghost use Rattle.cown_board.specs.Board.{BoardOf};
    ghost use Rattle.cown_board.specs.inner.BoardInvariant.{IsBoard};

    ghost Value = { BoardOf B };

    ghost view = { λ b. record {
      opening = b.opening;
      base_replies = b.base_replies.items;
      log = b.log.items;
      states = b.states.items;
      cut = option_map (λ c. c.number) b.cut;
    } };

    ghost invariant = { λ b. IsBoard B.touches B.effect (record {
      opening = b.opening;
      now = b.columns;
      base = b.base;
      base_replies = b.base_replies.items;
      log = b.log.items;
      states = b.states.items;
      links = b.links;
      unfinished = b.unfinished;
      cut = b.cut;
    }) };
}

impl<B: Behaviour> Board<B> {
    /// A board over these columns, with the replies to the numbers before it.
    pub fn open(
        alloc: Global,
        columns: Columns,
        base: u64,
        replies: Vec<Reply>,
    ) -> Result<Board<B>, AllocError>
        requires replies { length replies.items ≡ base }
        requires limit { base ≤ LOG_CALLS }
        ensures { IfOk result (λ board. board ≡
            record { opening = columns; base_replies = replies.items; log = []; states = []; cut = None }) }
    {
        let opening = columns.copy()?;
        let links = Links::for_cowns(alloc, 2 * columns.customers())?;
        Ok(Board {
            opening,
            columns,
            base,
            base_replies: replies,
            log: Vec::new(alloc),
            states: Vec::new(alloc),
            links,
            unfinished: 0,
            cut: None,
        })
    }

    /// Makes room for this many more behaviours, so that submitting them moves no others. If memory
    /// is refused, nothing is lost.
    pub fn reserve(&mut self, additional: usize) -> Result<(), AllocError>
        ensures { self.new ≡ self.old }
    {
        make_room(&mut self.log, &mut self.states, additional)?;
        self.links
            .reserve(self.log.len().saturating_add(additional))
    }

    /// The board's length: the greatest number so far.
    pub fn length(&self) -> u64
        ensures value { result ≡ length_of self.now }
        ensures limit { length_of self.now ≤ LOG_CALLS }
        // It was opened on the columns of a bank, and each behaviour of the log has a state.
        ensures bank { IsBalances self.now.opening }
        ensures same_length { length self.now.log ≡ length self.now.states }
    {
        prove!(self.opening.customers() <= CUSTOMERS);
        self.base + self.log.len() as u64
    }

    /// Whether nothing is unfinished.
    pub fn idle(&self) -> bool
        ensures value { IsTrue result ↔ (unfinished_of self.now ≡ 0) }
        // Each behaviour of the log has a state.
        ensures same_length { length self.now.log ≡ length self.now.states }
    {
        self.unfinished == 0
    }

    /// The number of unfinished behaviours.
    #[inline]
    pub fn unfinished(&self) -> usize
        ensures value { result ≡ unfinished_of self.now }
        ensures limit { result ≤ OPEN_BEHAVIOURS }
    {
        self.unfinished
    }

    /// Appends a behaviour to the log, and returns its number.
    ///
    /// Fails with the first fault that holds, in the order of [`SubmitFault`]'s variants; then the
    /// board stays as it was. All room for handing it out and finishing it is made here.
    // Inlined, so that a behaviour isn't passed through memory and read back at once.
    #[inline(always)]
    pub fn submit(&mut self, behaviour: B) -> Result<u64, SubmitFault>
        requires { AreBelow (length (contents_of self.old.opening)) (B.touches behaviour) }
        ensures made { Submits self.old behaviour result self.new }
    {
        if self.unfinished == OPEN_BEHAVIOURS {
            return Err(SubmitFault::Busy);
        }
        let position = self.log.len() as u64;
        let length = self.base + position;
        if length == LOG_CALLS as u64 {
            return Err(SubmitFault::LogFull);
        }
        let unfinished = self.unfinished + 1;
        if make_room(&mut self.log, &mut self.states, 1).is_err() {
            return Err(SubmitFault::OutOfMemory);
        }
        if self.links.enqueue(position, behaviour, unfinished).is_err() {
            return Err(SubmitFault::OutOfMemory);
        }
        self.log.push_reserved(behaviour);
        self.states.push_reserved(State::Waiting);
        self.unfinished = unfinished;
        Ok(length + 1)
    }

    /// Hands out the ready behaviour that has this many ready ones before it; it is out from then
    /// on. Returns `None`, and changes nothing, if there is none.
    ///
    /// A behaviour is ready while it waits and no unfinished one before it shares a cown with it.
    // Inlined, as `finish` is, so that jobs and results aren't passed through memory.
    #[inline(always)]
    pub fn take_at(&mut self, index: usize) -> Option<Job<B>>
        ensures made { HandsOut B.touches B.effect self.old index result self.new }
    {
        let position = self
            .links
            .take(&self.log, &self.states, self.unfinished, index)?;
        let behaviour = self.log[position as usize];
        self.states[position as usize] = State::Out;
        let inputs = read_cowns(&self.columns, behaviour.cowns().as_slice());
        Some(Job::new(self.base + position + 1, behaviour, inputs))
    }

    /// Takes back the result of a behaviour that was handed out. The behaviour is then finished,
    /// its cowns contain what it left, and its reply is returned. Any other result comes back, and
    /// nothing changes: it must be of a behaviour that is out, on the inputs that it was handed out
    /// with.
    #[inline(always)]
    pub fn finish(&mut self, done: Done<B>) -> Result<Reply, Done<B>>
        ensures made { TakesBack B.touches B.effect self.old done result self.new }
    {
        let number = done.number();
        let Some(position) = position_of(self.base, self.log.len(), number) else {
            return Err(done);
        };
        if !is_out_at(&self.columns, &self.log, &self.states, position, &done) {
            return Err(done);
        }
        let cowns = done.behaviour().cowns();
        let cowns = cowns.as_slice();
        let (reply, outputs) = done.into_effect();
        let outputs = outputs.as_slice();
        self.links.release(position, cowns);
        write_cowns(&mut self.columns, cowns, outputs);
        update_cut(&mut self.cut, number, cowns, outputs);
        self.states[position as usize] = State::Finished(reply);
        self.unfinished -= 1;
        Ok(reply)
    }

    /// The reply to a number: the one handed in at the opening if the number is before the board's,
    /// else that of a finished behaviour.
    #[inline]
    pub fn reply(&self, number: u64) -> Option<Reply>
        ensures value { result ≡ reply_in self.now number }
        // It is the reply of the log run one by one.
        ensures by_log { IfSome result (λ reply. length self.now.base_replies < number →
            reply_by_log B.touches B.effect (contents_of self.now.opening) self.now.log
            (number - length self.now.base_replies) ≡ Some reply) }
    {
        if number <= self.base {
            let position = number.checked_sub(1)?;
            return Some(self.base_replies[position as usize]);
        }
        let position = position_of(self.base, self.log.len(), number)?;
        self.states[position as usize].final_reply()
    }

    /// A copy of the columns after the whole log, or `None` while something is unfinished. Fails if
    /// memory is refused.
    pub fn columns(&self) -> Result<Option<Columns>, AllocError>
        ensures value { IfOk result (λ columns. MatchOption columns (unfinished_of self.now ≢ 0)
            (λ all. (unfinished_of self.now ≡ 0) × IsAfterAll B.touches B.effect self.now all)) }
        ensures bank { IfOk result (λ columns. IfSome columns IsBalances) }
        ensures err { OnErr result (unfinished_of self.now ≡ 0) }
    {
        match self.final_columns() {
            Some(columns) => Ok(Some(columns.copy()?)),
            None => Ok(None),
        }
    }

    /// The columns after the whole log, or `None` while something is unfinished.
    pub fn final_columns(&self) -> Option<&Columns>
        ensures value { MatchOption result (unfinished_of self.now ≢ 0)
            (λ columns. (unfinished_of self.now ≡ 0) × IsAfterAll B.touches B.effect self.now columns.now) }
        ensures bank { IfSome result (λ columns. IsBalances columns.now) }
    {
        prove!(self.columns.customers() <= CUSTOMERS);
        if self.idle() {
            Some(&self.columns)
        } else {
            None
        }
    }

    /// Makes a cut at the board's length, and returns that length. The cut's columns are
    /// complete once the numbers up to it are finished, while later ones run. All room that it
    /// takes is made here.
    ///
    /// Fails with the first fault that holds, in the order of [`CutFault`]'s variants; then the
    /// board stays as it was.
    pub fn cut(&mut self) -> Result<u64, CutFault>
        ensures made { MakesCut self.old result self.new }
    {
        let number = self.length();
        if let Some(pending) = self.cut_length() {
            return Err(CutFault::Pending(pending));
        }
        let Ok(columns) = self.columns.copy() else {
            return Err(CutFault::OutOfMemory);
        };
        self.cut = Some(Cut {
            number,
            columns,
            unfinished: self.unfinished,
        });
        Ok(number)
    }

    /// The length of the cut, if there is one.
    pub fn cut_length(&self) -> Option<u64>
        ensures value { result ≡ self.now.cut }
        ensures within { IfSome result (λ number.
            (length self.now.base_replies ≤ number) × (number ≤ length_of self.now)) }
    {
        match &self.cut {
            Some(cut) => Some(cut.number),
            None => None,
        }
    }

    /// The columns after the numbers up to the cut's length, or `None` while there is no cut, or
    /// one of these is unfinished.
    pub fn cut_columns(&self) -> Option<&Columns>
        ensures value { AreCutColumns B.touches B.effect self.now (option_map (λ columns. columns.now) result) }
        ensures bank { IfSome result (λ columns. IsBalances columns.now) }
    {
        let Some(cut) = &self.cut else {
            return None;
        };
        prove!(cut.columns.customers() <= CUSTOMERS);
        if cut.unfinished == 0 {
            Some(&cut.columns)
        } else {
            None
        }
    }

    /// Drops the cut, if there is one.
    pub fn drop_cut(&mut self)
        ensures { self.new ≡ record self.old { cut = None } }
    {
        self.cut = None;
    }
}

// Makes room for this many more behaviours. If memory is refused, nothing is lost.
#[inline(always)]
fn make_room<B: Behaviour>(
    log: &mut Vec<B>,
    states: &mut Vec<State>,
    additional: usize,
) -> Result<(), AllocError>
    ensures log { (log.new.items ≡ log.old.items) × (vec_len log.new ≡ vec_len log.old) }
    ensures log_room { OnOk result (vec_len log.new + additional ≤ vec_capacity log.new) }
    ensures states { (states.new.items ≡ states.old.items) × (vec_len states.new ≡ vec_len states.old) }
    ensures states_room { OnOk result (vec_len states.new + additional ≤ vec_capacity states.new) }
{
    log.reserve(additional)?;
    states.reserve(additional)
}
