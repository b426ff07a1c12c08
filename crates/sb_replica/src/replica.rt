//! A replica, and what can be read from it.
ghost use Rattle.std.specs.Prelude.{◌≡◌, length, IfOk, OnErr, MatchResult, option_map};
ghost use Rattle.sb_calls.specs.Op.{IsOpWithin};
ghost use Rattle.cown_board.specs.Board.{length_of, reply_in};
ghost use Rattle.sb_checkpoint.specs.Stores.{Compares, StoreDoes, Get, GetFault};
ghost use Rattle.sb_frames.specs.declared.frame.Frame.TheVariants as frames;
ghost use Rattle.sb_replica.specs.Offers.{offer_answer, after_offer};
ghost use Rattle.sb_replica.specs.Replica.{log_of, origin_of, replica_at_opening, with_log};

use crate::offered::Offered;
use crate::replica_log::ReplicaLog;
use crate::restarting::log_at_opening;
use cown_board::Runs;
use lane_audit::bank_total;
use sb_calls::{Op, WireReply};
use sb_checkpoint::{CheckpointStore, How, MemoryStore, StoreFault};
use sb_frames::Frame;
use sb_rows::{Columns, Directory};
use std::alloc::{AllocError, Global};
use std::marker::Model;

/// One node of the bank. It takes the log's entries in order, holds those that come a little early,
/// and runs them on its board. It stores a checkpoint, and a restart goes back to that.
#[derive(Drop)]
pub struct Replica<S: CheckpointStore> {
    pub(crate) id: u8,
    pub(crate) alloc: Global,
    pub(crate) directory: Directory,
    pub(crate) opening: Columns,
    pub(crate) log: ReplicaLog,
    pub(crate) store: S,
}

impl<S: CheckpointStore> Model for Replica<S> {
    ghost use Rattle.sb_replica.specs.Replica.{ReplicaOf};
    ghost use Rattle.sb_replica.specs.inner.ReplicaInvariant.{IsReplica};

    ghost Value = { ReplicaOf S };

    ghost view = { λ r. record {
      id = r.id;
      names = r.directory;
      opening = r.opening;
      board = r.log.board;
      held = r.log.held;
      store = r.store;
    } };

    ghost invariant = { λ r. IsReplica (record {
      id = r.id;
      names = r.directory;
      opening = r.opening;
      board = r.log.board;
      held = r.log.held;
      store = r.store;
    }) };
}

impl<S: CheckpointStore> Replica<S> {
    /// A replica at the opening of a bank, with an empty log. The store isn't touched.
    pub fn open(
        alloc: Global,
        id: u8,
        directory: Directory,
        opening: Columns,
        store: S,
    ) -> Result<Replica<S>, AllocError>
        requires { length opening.savings ≡ length directory }
        ensures { IfOk result (λ replica. replica ≡ replica_at_opening id directory opening store) }
    {
        let log = log_at_opening(alloc, &opening)?;
        Ok(Replica {
            id,
            alloc,
            directory,
            opening,
            log,
            store,
        })
    }

    /// Offers the entry with this number to the log, which takes it if it is the next one and holds it
    /// if it comes a little early. Otherwise nothing changes.
    ///
    /// Fails if memory is refused for an entry that would be taken; then nothing changes.
    pub fn offer_entry(&mut self, number: u64, op: Op) -> Result<Offered, AllocError>
        requires { IsOpWithin (length self.old.names) op }
        ensures answer { IfOk result (λ answer. answer ≡ offer_answer self.old.board number) }
        ensures err { OnErr result (offer_answer self.old.board number ≡ Offered.Next) }
        ensures state { MatchResult result
            (λ answer. self.new ≡ with_log self.old (after_offer (log_of self.old) op answer))
            (λ refused. self.new ≡ self.old) }
    {
        self.log.offer_entry(number, op)
    }

    /// Makes room for this many more entries, as [`Board::reserve`](cown_board::Board::reserve) does.
    pub fn reserve(&mut self, additional: usize) -> Result<(), AllocError>
        ensures { self.new ≡ self.old }
    {
        self.log.board.reserve(additional)
    }

    /// The customers' names by place.
    pub fn directory(&self) -> &Directory
        ensures { result.now ≡ self.now.names }
    {
        &self.directory
    }

    // The total of all customers' balances at the opening.
    pub(crate) fn opening_total(&self) -> i64
        ensures { result ≡ (origin_of self.now).opening_total }
    {
        bank_total(&self.opening)
    }

    /// What the store holds, as [`CheckpointStore::get`] answers.
    pub fn stored(&mut self) -> Result<Option<Vec<u8>>, StoreFault>
        ensures got { MatchResult result
            (λ content. StoreDoes S.model self.old.store
            (Get (option_map (λ bytes. bytes.items) content)) self.new.store)
            (λ fault. StoreDoes S.model self.old.store (GetFault fault) self.new.store) }
        ensures unchanged { self.new ≡ record self.old { store = self.new.store } }
    {
        self.store.get()
    }

    /// Whether the store holds exactly these bytes, as [`CheckpointStore::has_content`] answers.
    pub fn store_has_content(&mut self, bytes: &[u8]) -> Result<bool, StoreFault>
        ensures compares { MatchResult result
            (λ same. Compares (StoreDoes S.model) self.old.store bytes.now same
            self.new.store)
            (λ fault. StoreDoes S.model self.old.store (GetFault fault) self.new.store) }
        ensures unchanged { self.new ≡ record self.old { store = self.new.store } }
    {
        self.store.has_content(bytes)
    }

    /// The frame that acknowledges its log up to its length.
    pub fn ack_frame(&self) -> Frame
        ensures { result ≡ frames.Ack self.now.id (length_of self.now.board) }
    {
        Frame::Ack {
            replica: self.id,
            length: self.length(),
        }
    }

    /// The frame with its reply to a number, or `None` if it has none.
    pub fn answer_frame(&self, number: u64) -> Option<Frame>
        ensures { result ≡ option_map (frames.Answer number) (reply_in self.now.board number) }
    {
        let reply = self.reply(number)?;
        // Each reply of the board has a spelling.
        let reply = WireReply::new(reply).unwrap();
        Some(Frame::Answer { number, reply })
    }
}

impl Replica<MemoryStore> {
    /// Sets how the store's next put ends.
    pub fn tell(&mut self, how: How)
        ensures { self.new ≡ record self.old { store = record self.old.store { next = how } } }
    {
        self.store.tell(how);
    }
}
