//! Replicas get states from others.
ghost use Rattle.std.specs.Prelude.{◌≡◌, ◌<◌, Some, length, slice_get, IfOk, OnErr};
ghost use Rattle.std.specs.Option.{option_map};
ghost use Rattle.sb_checkpoint.specs.Reading.{stated_reply_count};
ghost use Rattle.schedule_player.specs.inner.NodeInvariant.{HasState, IsStateOfLog};
ghost use Rattle.schedule_player.specs.ReplicaMoves.{NodeOf, receive_move};
ghost use Rattle.schedule_player.specs.World.{IsDonorNote, MayWantMemory, bank_of, give_move, move_at};
ghost use Rattle.schedule_text.specs.declared.event.Event.TheVariants.{System};
ghost use Rattle.schedule_text.specs.declared.event.SystemEvent.TheVariants as system;

use crate::fault::StepFault;
use crate::world::World;
use schedule_text::Note;

impl World {
    /// Asks the sequencer for the donor of a replica's state.
    pub(crate) fn note_donor(&self, replica: u32) -> Note
        ensures { IsDonorNote self.now.sequencer.synced replica result }
    {
        let sequencer = &self.sequencer;
        // There are at most sixteen.
        let Ok(id) = u8::try_from(replica) else {
            return Note::Nothing;
        };
        match sequencer.donor(id) {
            Some((donor, length)) => Note::Donor(donor as u32, length),
            None => Note::Nothing,
        }
    }

    // The bytes of the state that the replica has for others.
    fn state_of(&mut self, donor: u32) -> Result<Option<Vec<u8>>, StepFault>
        requires { donor < length self.old.nodes }
        ensures same { self.new ≡ self.old }
        ensures has_state { (node : NodeOf) → slice_get self.old.nodes donor ≡ Some node
            → IfOk result (λ state. HasState (bank_of self.old) node
            (option_map (λ bytes. bytes.items) state)) }
    {
        self.nodes[donor as usize].state_to_give()
    }

    // Sends a state to the replica.
    fn send_state(&mut self, replica: u32, bytes: Vec<u8>) -> Result<Note, StepFault>
        requires replica { replica < length self.old.nodes }
        requires state { IsStateOfLog (bank_of self.old) bytes.items }
        ensures moves { IfOk result (λ note.
            move_at self.old replica (λ node. receive_move node (stated_reply_count bytes.items))
            ≡ (self.new, note)) }
        ensures err { OnErr result (self.new ≡ self.old) }
    {
        self.nodes[replica as usize].receive_state(bytes)
    }

    /// Sends the state that a replica keeps to another.
    pub(crate) fn give(&mut self, donor: u32, replica: u32) -> Result<Note, StepFault>
        ensures moves { IfOk result (λ note.
            give_move self.old replica (slice_get self.old.nodes donor) ≡ (self.new, note)) }
        ensures err { OnErr result (self.new ≡ self.old) }
        ensures wanted { OnErr result (MayWantMemory self.old (System (system.Give donor replica))) }
    {
        if donor as usize >= self.nodes.len() || replica as usize >= self.nodes.len() {
            return Ok(Note::Nothing);
        }
        let Some(bytes) = self.state_of(donor)? else {
            return Ok(Note::Nothing);
        };
        self.send_state(replica, bytes)
    }
}
