//! One replica's checkpoint, which another takes in place of the log's entries.
ghost use Rattle.std.specs.Prelude.{◌≡◌, ℕ, IfOk, IfErr, List, MatchResult, None, Option, Some, option_map};
ghost use Rattle.sb_checkpoint.specs.Checkpoint.{SpellsFor};
ghost use Rattle.sb_checkpoint.specs.Reading.{first_fault, IsRefusedBy};
ghost use Rattle.sb_checkpoint.specs.Stores.{StoreDoes};
ghost use Rattle.sb_frames.specs.declared.frame.Frame.TheVariants as frames;
ghost use Rattle.sb_replica.specs.Replica.{origin_of};
ghost use Rattle.sb_replica.specs.Restarting.{IsRestartFaultOf};
ghost use Rattle.sb_replica.specs.States.{Adopts, IsAdoptFaultOf, ReadsState, state_length};

use crate::adopted::Adopted;
use crate::fault::{AdoptFault, RestartFault};
use crate::replica::Replica;
use crate::restarting::log_on;
use cown_board::Runs;
use sb_checkpoint::{Checkpoint, CheckpointFault, CheckpointStore, read_checkpoint};
use sb_frames::Frame;

impl<S: CheckpointStore> Replica<S> {
    /// The state that this replica has for another: the checkpoint in its store, with its length.
    /// `None` if none was ever put, or one of no entry. Nothing but the store changes.
    ///
    /// Fails if the store does, if what that holds isn't a checkpoint of this bank, or if memory is
    /// refused.
    pub fn kept_state(&mut self) -> Result<Option<(u64, Vec<u8>)>, RestartFault>
        ensures ok { IfOk result (λ state. ReadsState (StoreDoes S.model) self.old
            (option_map (λ kept. (kept.0, kept.1.items)) state) self.new) }
        ensures err { IfErr result (λ fault.
            IsRestartFaultOf (StoreDoes S.model) self.old fault self.new) }
    {
        let Some(bytes) = self.store.get()? else {
            return Ok(None);
        };
        let length = self.checkpoint_in(&bytes)?.replies().len() as u64;
        if length == 0 {
            return Ok(None);
        }
        Ok(Some((length, bytes)))
    }

    /// The frame that reports the length of the state that this replica has for another, 0 if it
    /// has none. Nothing but the store changes.
    ///
    /// Fails as [`Replica::kept_state`] does.
    pub fn have_frame(&mut self) -> Result<Frame, RestartFault>
        ensures ok { IfOk result (λ frame. (state : Option (ℕ × List ℕ))
            × ReadsState (StoreDoes S.model) self.old state self.new
            × (frame ≡ frames.Have self.old.id (state_length state))) }
        ensures err { IfErr result (λ fault.
            IsRestartFaultOf (StoreDoes S.model) self.old fault self.new) }
    {
        let length = match self.kept_state()? {
            Some((length, _)) => length,
            None => 0,
        };
        Ok(Frame::Have {
            replica: self.id,
            length,
        })
    }

    /// Goes on from another replica's state, if that has more entries than the own log. Unfinished
    /// and held entries and a cut are dropped then. The store isn't touched, so a restart before
    /// the next mark goes back to what the store holds.
    ///
    /// Fails if the bytes aren't a checkpoint of this bank, or if memory is refused; nothing
    /// changes then.
    pub fn adopt(&mut self, bytes: &[u8]) -> Result<Adopted, AdoptFault>
        ensures outcome { MatchResult result
            (λ adopted. Adopts self.old bytes.now adopted self.new)
            (λ fault. IsAdoptFaultOf (origin_of self.old) bytes.now fault × (self.new ≡ self.old)) }
    {
        let checkpoint = self.checkpoint_in(bytes)?;
        let own = self.length();
        let length = checkpoint.replies().len() as u64;
        if length <= own {
            return Ok(Adopted::Behind(own));
        }
        let (columns, replies) = checkpoint.into_parts();
        self.replace_log(log_on(self.alloc, columns, replies)?);
        Ok(Adopted::Adopted(length))
    }

    // The checkpoint of this bank that these bytes are.
    pub(crate) fn checkpoint_in(&self, bytes: &[u8]) -> Result<Checkpoint, CheckpointFault>
        ensures checkpoint { IfOk result (λ checkpoint.
            SpellsFor (origin_of self.now) checkpoint bytes.now) }
        ensures fault { MatchResult result
            (λ _. first_fault bytes.now (origin_of self.now) ≡ None)
            (IsRefusedBy bytes.now (origin_of self.now)) }
    {
        read_checkpoint(
            self.alloc,
            bytes,
            self.opening.customers(),
            self.opening_total(),
        )
    }
}
