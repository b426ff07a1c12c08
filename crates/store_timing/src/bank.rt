//! The bank whose board is drained.
ghost use Rattle.std.specs.Prelude.{◌≡◌, ◌≢◌, ◌*◌, ◌++◌, ◌∷◌, [], length, slice_get, IfOk, OnOk, MatchOption};
ghost use Rattle.sb_calls.specs.Behaviour.{declared_cowns, effect_of};
ghost use Rattle.sb_calls.specs.Cowns.{AreBelow, contents_of};
ghost use Rattle.cown_board.specs.Board.{length_of, unfinished_of};
ghost use Rattle.store_timing.specs.Deposits.{IsTotalAfterAll, cent_for, cents_in_turn};

use crate::fault::Fault;
use crate::opening::open_bank;
use crate::payees::{PAYEES, Payees};
use cown_board::{Board, SubmitFault};
use cown_workers::{Crew, drain};
use lane_audit::bank_total;
use sb_amount::Cents;
use sb_calls::{Call, Op, resolve};
use sb_rows::Directory;
use std::alloc::Global;

// The balances of each customer.
const BALANCES: &str = "0.00 0.00";

/// A bank's names, and its board.
#[derive(Drop)]
pub struct Bank {
    directory: Directory,
    board: Board<Op>,
    // Each customer has two cowns.
    ghost cowns: { length (contents_of board.opening) ≡ 2 * length directory },
}

impl Bank {
    /// A bank whose customers have nothing.
    pub fn open(alloc: Global) -> Result<Bank, Fault>
        ensures no_call { IfOk result (λ bank. bank.board ≡
            record { opening = bank.board.opening; base_replies = []; log = []; states = []; cut = None }) }
    {
        let opening = open_bank(alloc, PAYEES, BALANCES)?;
        let board = Board::open(alloc, opening.columns, 0, Vec::new(alloc))?;
        Ok(Bank {
            directory: opening.directory,
            board,
        })
    }

    /// Makes this many deposits of a cent, and has the crew execute them. A busy board is drained
    /// first.
    pub fn deposit(&mut self, crew: &mut impl Crew, payees: Payees, calls: u32) -> Result<(), Fault>
        ensures added { OnOk result (self.new.board.log ≡
            self.old.board.log ++ cents_in_turn self.old.directory payees calls) }
        ensures idle { OnOk result (unfinished_of self.new.board ≡ 0) }
        ensures earlier { self.new.board.base_replies ≡ self.old.board.base_replies }
        ensures opening { self.new.board.opening ≡ self.old.board.opening }
        ensures directory { self.new.directory ≡ self.old.directory }
    {
        for call in 0..calls {
            self.deposit_to(payees.place(call), crew)?;
        }
        drain(&mut self.board, crew)?;
        Ok(())
    }

    /// The number of calls in the log.
    pub fn length(&self) -> u64
        ensures { result ≡ length_of self.now.board }
    {
        self.board.length()
    }

    /// The total of all customers' balances, or `None` while something is unfinished.
    pub fn total(&self) -> Option<i64>
        ensures { MatchOption result (unfinished_of self.now.board ≢ 0)
            (λ cents. (unfinished_of self.now.board ≡ 0) × IsTotalAfterAll self.now.board cents) }
    {
        Some(bank_total(self.board.final_columns()?))
    }

    // Deposits a cent to the customer at this place.
    fn deposit_to(&mut self, place: u32, crew: &mut impl Crew) -> Result<(), Fault>
        ensures added { OnOk result (self.new.board.log ≡
            self.old.board.log ++ cent_for self.old.directory (slice_get self.old.directory place) ∷ []) }
        ensures earlier { self.new.board.base_replies ≡ self.old.board.base_replies }
        ensures opening { self.new.board.opening ≡ self.old.board.opening }
        ensures directory { self.new.directory ≡ self.old.directory }
    {
        let name = self.directory.name(place).ok_or(Fault::Bank)?;
        let cent = Cents::new(1).ok_or(Fault::Bank)?;
        let op = resolve(&self.directory, &Call::DepositChecking(name, cent));
        submit(&op, &mut self.board, crew)
    }
}

// Submits an op. A busy board is drained first.
fn submit(op: &Op, board: &mut Board<Op>, crew: &mut impl Crew) -> Result<(), Fault>
    requires { AreBelow (length (contents_of board.old.opening)) (declared_cowns op.now) }
    ensures added { OnOk result (board.new.log ≡ board.old.log ++ op.now ∷ []) }
    ensures earlier { board.new.base_replies ≡ board.old.base_replies }
    ensures opening { board.new.opening ≡ board.old.opening }
{
    match board.submit(*op) {
        Ok(_) => return Ok(()),
        Err(SubmitFault::Busy) => drain(board, crew)?,
        Err(fault) => return Err(fault.into()),
    }
    board.submit(*op)?;
    Ok(())
}
