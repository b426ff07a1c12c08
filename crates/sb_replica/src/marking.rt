//! Writing a checkpoint.
ghost use Rattle.std.specs.Prelude.{◌≡◌, ◌≢◌, ◌↔◌, ◌≤◌, ℕ, None, Some, Ok, Err, IfOk, IfErr, OnOk, OnErr, IsErrOf, MatchOption, MatchResult, length};
ghost use Rattle.std.specs.List.{All};
ghost use Rattle.sb_calls.specs.Replies.{IsReply};
ghost use Rattle.sb_calls.specs.Behaviour.{declared_cowns, effect_of};
ghost use Rattle.cown_board.specs.Board.{length_of, unfinished_of, IsAfterAll};
ghost use Rattle.cown_board.specs.BoardCalls.{MakesCut};
ghost use Rattle.sb_checkpoint.specs.Checkpoint.{Second, SpellsInLayout};
ghost use Rattle.sb_checkpoint.specs.Stores.{StoreDoes};
ghost use Rattle.sb_checkpoint.specs.declared.store.StoreFault.{StoreFault as AnyFault};
ghost use Rattle.sb_replica.specs.Marking.{IsMarkFaultOf, Puts, PutsBytes, up_to_cut};
ghost use Rattle.sb_replica.specs.Replica.{origin_of, board_replies};

use crate::fault::MarkFault;
use crate::replica::Replica;
use cown_board::{CutFault, Runs};
use sb_calls::{LOG_CALLS, Reply};
use sb_checkpoint::{CheckpointStore, Draft, StoreFault};
use sb_rows::Columns;
use std::alloc::AllocError;

impl<S: CheckpointStore> Replica<S> {
    /// Makes a cut at the log's length, and answers that length. The next mark covers the entries
    /// up to there, while later ones run.
    ///
    /// Fails with the first fault that holds, in the order of [`CutFault`]'s variants; nothing
    /// changes then.
    pub fn cut(&mut self) -> Result<u64, CutFault>
        ensures made { MakesCut self.old.board result self.new.board }
        ensures rest { self.new ≡ record self.old { board = self.new.board } }
    {
        self.log.board.cut()
    }

    /// Puts a checkpoint of the log up to the cut into the store, answers its length, and removes
    /// the cut. Without a cut it covers the whole log so far.
    ///
    /// Fails with [`MarkFault::Busy`] exactly if one of these entries is unfinished, with
    /// [`MarkFault::Device`] only if the store does, and with [`MarkFault::OutOfMemory`] if memory
    /// is refused. Then nothing but the store changes.
    pub fn mark(&mut self) -> Result<u64, MarkFault>
        ensures busy { IsErrOf result MarkFault.Busy ↔ (unfinished_of (up_to_cut self.old.board) ≢ 0) }
        ensures ok { IfOk result (λ size. (size ≡ length_of (up_to_cut self.old.board))
            × Puts (StoreDoes S.model) self.old (Ok tt) self.new) }
        ensures err { IfErr result (λ fault.
            IsMarkFaultOf (StoreDoes S.model) self.old fault self.new) }
    {
        let length = self.marked_length();
        self.put_checkpoint()?;
        Ok(length)
    }

    /// Puts a checkpoint into the store as [`Replica::mark`] does, and answers the bytes.
    ///
    /// Fails as [`Replica::mark`] does.
    pub fn put_checkpoint(&mut self) -> Result<Vec<u8>, MarkFault>
        ensures busy { IsErrOf result MarkFault.Busy ↔ (unfinished_of (up_to_cut self.old.board) ≢ 0) }
        ensures ok { IfOk result (λ bytes.
            PutsBytes (StoreDoes S.model) self.old bytes.items self.new) }
        ensures err { IfErr result (λ fault.
            IsMarkFaultOf (StoreDoes S.model) self.old fault self.new) }
    {
        let Some(columns) = self.marked_columns() else {
            return Err(MarkFault::Busy);
        };
        let Ok(bytes) = self.checkpoint_bytes(columns) else {
            return Err(MarkFault::OutOfMemory);
        };
        match self.store.put(&bytes) {
            Ok(()) => {
                self.log.board.drop_cut();
                Ok(bytes)
            }
            Err(StoreFault::Device) => Err(MarkFault::Device),
            Err(StoreFault::OutOfMemory) => Err(MarkFault::OutOfMemory),
        }
    }

    // The number of entries that a mark covers.
    fn marked_length(&self) -> u64
        ensures value { result ≡ length_of (up_to_cut self.now.board) }
        ensures limit { result ≤ LOG_CALLS }
        ensures same_length { length self.now.board.log ≡ length self.now.board.states }
    {
        let length = self.log.board.length();
        match self.log.board.cut_length() {
            Some(number) => number,
            None => length,
        }
    }

    // The columns after the entries that a mark covers, or `None` if one of these is unfinished.
    fn marked_columns(&self) -> Option<&Columns>
        ensures value { MatchOption result (unfinished_of (up_to_cut self.now.board) ≢ 0)
            (λ columns. (unfinished_of (up_to_cut self.now.board) ≡ 0)
            × IsAfterAll declared_cowns effect_of (up_to_cut self.now.board) columns.now) }
    {
        match self.log.board.cut_length() {
            Some(_) => self.log.board.cut_columns(),
            None => self.log.board.final_columns(),
        }
    }

    // The checkpoint of these columns and of the replies to all marked numbers, with the opening
    // total, if none is unfinished. Each reply is written as it is read: a list of replies would be
    // longer than the checkpoint, and pass through memory twice.
    fn checkpoint_bytes(&self, columns: &Columns) -> Result<Vec<u8>, AllocError>
        requires { unfinished_of (up_to_cut self.now.board) ≡ 0 }
        ensures { IfOk result (λ bytes. SpellsInLayout Second (origin_of self.now).opening_total (record {
          columns = columns.now;
          replies = board_replies (up_to_cut self.now.board);
        }) bytes.items) }
    {
        let length = self.marked_length();
        let mut draft = Draft::begin(self.alloc, columns, self.opening_total(), length as usize)?;
        for place in 0..length {
            draft.push(self.reply(place + 1).unwrap());
        }
        Ok(draft.finish())
    }

    /// The replies to all numbers in order, if none is unfinished. Fails if memory is refused.
    pub fn replies(&self) -> Result<Vec<Reply>, AllocError>
        requires { unfinished_of self.now.board ≡ 0 }
        ensures value { IfOk result (λ replies. replies.items ≡ board_replies self.now.board) }
        ensures valid { IfOk result (λ replies. All IsReply replies.items) }
        ensures limit { IfOk result (λ replies. length replies.items ≤ LOG_CALLS) }
    {
        let length = self.length();
        let mut replies = Vec::with_capacity(self.alloc, length as usize)?;
        for place in 0..length {
            // Each entry is finished.
            replies.push_reserved(self.reply(place + 1).unwrap());
        }
        Ok(replies)
    }
}
