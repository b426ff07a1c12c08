//! What runs behaviours: a board, or an owner of one.
ghost use Rattle.std.specs.Prelude.{◌≡◌, ◌≢◌, ◌<◌, ◌≤◌, ◌-◌, ◌↔◌, length, IsTrue, IfOk, IfSome, OnErr, Some, MatchOption};
ghost use Rattle.std.specs.List.{All};
ghost use Rattle.sb_rows.specs.Balances.{IsBalances};
ghost use Rattle.sb_calls.specs.Behaviour.{declared_cowns, effect_of};
ghost use Rattle.sb_calls.specs.Cowns.{contents_of};
ghost use Rattle.sb_calls.specs.Replies.{IsReply};
ghost use Rattle.sb_calls.specs.SerialRun.{reply_by_log};
ghost use Rattle.sb_calls.specs.declared.op.Op.{Op as AnyOp};
ghost use Rattle.cown_board.specs.Board.{BoardOf, length_of, unfinished_of, reply_in, IsAfterAll};
ghost use Rattle.cown_board.specs.BoardCalls.{HandsOut, TakesBack};

use crate::board::Board;
use crate::job::{Done, Job};
use sb_calls::{LOG_CALLS, Op, Reply};
use sb_rows::Columns;
use std::alloc::AllocError;

/// Hands out ready ops, and takes back their results. It answers what its board answers, and lends
/// the board for reading. Whatever else it has stays.
pub trait Runs {
    /// The board that it owns.
    ghost board: { Self → BoardOf AnyOp };

    /// What always holds of it, beside what holds of every board.
    ghost Holds: { Self → Type 0 };

    /// The type of the rest of what it has, such as names or a store.
    ghost Rest: { Type 0 };

    /// The rest of what it has: all but its board.
    ghost rest: { Self → Rest };

    /// Hands out the ready op that has this many ready ones before it, as [`Board::take_at`] does.
    fn take_at(&mut self, index: usize) -> Option<Job<Op>>
        ensures made { HandsOut declared_cowns effect_of (board self.old) index result (board self.new) }
        ensures rest { rest self.new ≡ rest self.old };

    /// Takes back the result of an op, as [`Board::finish`] does.
    fn finish(&mut self, done: Done<Op>) -> Result<Reply, Done<Op>>
        ensures made { TakesBack declared_cowns effect_of (board self.old) done result (board self.new) }
        ensures rest { rest self.new ≡ rest self.old };

    /// The board, for reading.
    fn board(&self) -> &Board<Op>
        ensures value { result.now ≡ board self.now }
        ensures holds { Holds self.now };

    /// Whether nothing is unfinished.
    fn idle(&self) -> bool
        ensures value { IsTrue result ↔ (unfinished_of (board self.now) ≡ 0) }
        // Each op of the log has a state.
        ensures same_length { length (board self.now).log ≡ length (board self.now).states }
    {
        self.board().idle()
    }

    /// The greatest number so far.
    #[inline]
    fn length(&self) -> u64
        ensures value { result ≡ length_of (board self.now) }
        ensures limit { length_of (board self.now) ≤ LOG_CALLS }
        ensures bank { IsBalances (board self.now).opening }
        ensures same_length { length (board self.now).log ≡ length (board self.now).states }
        ensures holds { Holds self.now }
    {
        self.board().length()
    }

    /// The reply to a number, as [`Board::reply`] gives it.
    #[inline]
    fn reply(&self, number: u64) -> Option<Reply>
        ensures value { result ≡ reply_in (board self.now) number }
        // It is the reply of the log run one by one.
        ensures by_log { IfSome result (λ reply. length (board self.now).base_replies < number →
            reply_by_log declared_cowns effect_of (contents_of (board self.now).opening) (board self.now).log
            (number - length (board self.now).base_replies) ≡ Some reply) }
        // It has a spelling, if the replies from before the board have one.
        ensures valid { All IsReply (board self.now).base_replies → IfSome result IsReply }
        ensures holds { Holds self.now }
    {
        let board = self.board();
        // The board was opened on the columns of a bank.
        prove!(board.length() <= LOG_CALLS as u64);
        board.reply(number)
    }

    /// A copy of the columns after the whole log, or `None` while something is unfinished. Fails if
    /// memory is refused.
    fn columns(&self) -> Result<Option<Columns>, AllocError>
        ensures value { IfOk result (λ columns. MatchOption columns (unfinished_of (board self.now) ≢ 0)
            (λ all. (unfinished_of (board self.now) ≡ 0) × IsAfterAll declared_cowns effect_of (board self.now) all)) }
        ensures bank { IfOk result (λ columns. IfSome columns IsBalances) }
        ensures err { OnErr result (unfinished_of (board self.now) ≡ 0) }
    {
        self.board().columns()
    }

    /// The columns after the whole log, or `None` while something is unfinished.
    fn final_columns(&self) -> Option<&Columns>
        ensures value { MatchOption result (unfinished_of (board self.now) ≢ 0)
            (λ columns. (unfinished_of (board self.now) ≡ 0)
            × IsAfterAll declared_cowns effect_of (board self.now) columns.now) }
        ensures bank { IfSome result (λ columns. IsBalances columns.now) }
    {
        self.board().final_columns()
    }
}

// A board runs itself. It has nothing else.
impl Runs for Board<Op> {
    ghost board = { λ board. board };

    ghost Holds = { λ board. Unit {0} };

    ghost Rest = { Unit {0} };

    ghost rest = { λ board. tt };

    fn take_at(&mut self, index: usize) -> Option<Job<Op>> {
        Board::take_at(self, index)
    }

    fn finish(&mut self, done: Done<Op>) -> Result<Reply, Done<Op>> {
        Board::finish(self, done)
    }

    fn board(&self) -> &Board<Op> {
        self
    }
}
