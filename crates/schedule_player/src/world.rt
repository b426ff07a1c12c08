//! A sequencer, its replicas, and what each event does to them.
ghost use Rattle.std.specs.Prelude.{◌≡◌, Err, slice_get, IfOk, OnErr};
ghost use Rattle.sb_sequencer.specs.Answer.{AnswersAsk};
ghost use Rattle.sb_sequencer.specs.declared.answer.AskFault.TheVariants as fault;
ghost use Rattle.schedule_player.specs.World.{AppendsAsk, Asks, MayWantMemory, from_move, world_log, replica_move, world_move};
ghost use Rattle.schedule_text.specs.declared.event.Event.TheVariants.{At, System};
ghost use Rattle.schedule_text.specs.declared.event.SystemEvent.TheVariants as system;

mod agreement;
mod auditing;
mod observing;
mod opening;
mod receiving;
mod settling;
mod stepping;

use crate::fault::StepFault;
use crate::node::Node;
use crate::world::receiving::receive_report;
use sb_calls::Call;
use sb_rows::{Columns, Directory};
use sb_sequencer::{AskFault, Numbered};
use schedule_sequencer::DurableSequencer;
use schedule_text::{NodeEvent, Note};
use std::marker::Model;
pub use stepping::{play, play_lines};

/// A sequencer, its replicas with their workers, all frames that were ever sent between them, and
/// all states that were ever sent to a replica.
#[derive(Drop)]
pub struct World {
    pub(crate) directory: Directory,
    pub(crate) opening: Columns,
    pub(crate) sequencer: DurableSequencer,
    pub(crate) nodes: Vec<Node>,
}

impl Model for World {
    ghost use Rattle.std.specs.Prelude.{map};
    ghost use Rattle.schedule_player.specs.inner.NodeInvariant.{machine_node};
    ghost use Rattle.schedule_player.specs.World.{WorldOf};
    ghost use Rattle.schedule_player.specs.inner.WorldInvariant.{IsWorld};

    ghost Value = { WorldOf };

    ghost view = { λ w. record {
      names = w.directory;
      opening = w.opening;
      sequencer = w.sequencer;
      nodes = map machine_node w.nodes.items;
    } };

    ghost invariant = { λ w. IsWorld w.directory w.opening w.sequencer.synced w.nodes.items };
}

impl World {
    /// A client asks the sequencer to number a call, and nothing is synced.
    pub(crate) fn append_ask(
        &mut self,
        client: u32,
        request: u32,
        call: &Call,
    ) -> Result<Note, StepFault>
        ensures moves { IfOk result (λ note.
            AppendsAsk self.old (record { client = client; request = request }, call.now) note self.new) }
        ensures err { OnErr result (self.new ≡ self.old) }
        ensures wanted { OnErr result
            (AnswersAsk (world_log self.old) (record { client = client; request = request }, call.now)
            (Err fault.OutOfMemory)) }
    {
        match self.sequencer.append(client, request, call) {
            Ok(Numbered::New(number)) => Ok(Note::New(number)),
            Ok(Numbered::Repeat(number)) => Ok(Note::Repeat(number)),
            Err(AskFault::Mismatch(number)) => Ok(Note::Mismatch(number)),
            Err(AskFault::LogFull) => Ok(Note::LogFull),
            Err(AskFault::OutOfMemory) => Err(StepFault::OutOfMemory),
        }
    }

    /// The sequencer syncs its log. It takes no memory, and never fails.
    pub(crate) fn sync_log(&mut self) -> Note
        ensures { world_move self.old (System system.Sync) ≡ (self.new, result) }
    {
        self.sequencer.sync();
        Note::Synced(self.sequencer.length())
    }

    /// A client asks the sequencer to number a call, and the log is synced.
    pub(crate) fn ask_and_sync(
        &mut self,
        client: u32,
        request: u32,
        call: &Call,
    ) -> Result<Note, StepFault>
        ensures moves { IfOk result (λ note.
            Asks self.old (record { client = client; request = request }, call.now) note self.new) }
        ensures err { OnErr result (self.new ≡ self.old) }
        ensures wanted { OnErr result
            (AnswersAsk (world_log self.old) (record { client = client; request = request }, call.now)
            (Err fault.OutOfMemory)) }
    {
        let note = self.append_ask(client, request, call)?;
        self.sync_log();
        Ok(note)
    }

    /// The sequencer stops, and starts again with what is left of its log.
    pub(crate) fn restart_sequencer(&mut self, kept: u32) -> Result<Note, StepFault>
        ensures moves { IfOk result (λ note. world_move self.old (System (system.Crash kept)) ≡ (self.new, note)) }
        ensures err { OnErr result (self.new ≡ self.old) }
    {
        self.sequencer.crash(kept as u64)?;
        Ok(Note::Crashed(self.sequencer.length()))
    }

    /// A frame that a replica sent arrives at the sequencer.
    pub(crate) fn deliver_report(&mut self, replica: u32, position: u32) -> Note
        ensures { from_move self.old replica position (slice_get self.old.nodes replica) ≡ (self.new, result) }
    {
        let Some(node) = self.nodes.get(replica as usize) else {
            return Note::Nothing;
        };
        let Some(bytes) = node.outbound.get(position) else {
            return Note::Nothing;
        };
        receive_report(&mut self.sequencer, bytes)
    }

    /// An event happens at a replica. If that doesn't exist, nothing happens.
    pub(crate) fn replica_step(&mut self, replica: u32, event: NodeEvent) -> Result<Note, StepFault>
        ensures moves { IfOk result (λ note. replica_move self.old replica event ≡ (self.new, note)) }
        ensures err { OnErr result (self.new ≡ self.old) }
        ensures wanted { OnErr result (MayWantMemory self.old (At replica event)) }
    {
        let Some(node) = self.nodes.get_mut(replica as usize) else {
            return Ok(Note::Nothing);
        };
        node.step(replica, event, &self.sequencer)
    }
}
