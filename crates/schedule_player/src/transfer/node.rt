//! A replica's state goes to another one.
ghost use Rattle.std.specs.Prelude.{◌≡◌, ℕ, IfOk};
ghost use Rattle.std.specs.Option.{option_map};
ghost use Rattle.sb_checkpoint.specs.Reading.{stated_reply_count};
ghost use Rattle.schedule_player.specs.Bank.{BankOf};
ghost use Rattle.schedule_player.specs.inner.NodeInvariant.{HasState, IsNodeAt, IsStateOfLog, Steps, machine_node};
ghost use Rattle.schedule_player.specs.ReplicaMoves.{adopt_move, receive_move, have_move};

use crate::fault::StepFault;
use crate::node::Node;
use sb_replica::Adopted;
use schedule_text::Note;

impl Node {
    /// The replica sends the length of the checkpoint that it keeps.
    pub fn have(&mut self) -> Result<Note, StepFault>
        ensures { (bank : BankOf) (r : ℕ) → IsNodeAt bank r self.old
            → Steps bank r self.old self.new result (have_move (machine_node self.old) r) }
    {
        match self.replica.have_frame() {
            Ok(frame) => {
                let position = self.outbound.add(&frame)?;
                Ok(Note::Sent(position))
            }
            // A store in memory never fails, and holds what was put.
            Err(_) => Err(StepFault::OutOfMemory),
        }
    }

    /// The bytes of the checkpoint that the replica keeps, if it has an entry. The replica stays as
    /// it is.
    pub fn state_to_give(&mut self) -> Result<Option<Vec<u8>>, StepFault>
        ensures same { self.new ≡ self.old }
        ensures has_state { (bank : BankOf) (r : ℕ) → IsNodeAt bank r self.old
            → IfOk result (λ state. HasState bank (machine_node self.old)
            (option_map (λ bytes. bytes.items) state)) }
    {
        match self.replica.kept_state() {
            Ok(Some((_, bytes))) => Ok(Some(bytes)),
            Ok(None) => Ok(None),
            // A store in memory never fails, and holds what was put.
            Err(_) => Err(StepFault::OutOfMemory),
        }
    }

    /// A state is sent to the replica.
    pub fn receive_state(&mut self, bytes: Vec<u8>) -> Result<Note, StepFault>
        ensures { (bank : BankOf) (r : ℕ) → IsNodeAt bank r self.old → IsStateOfLog bank bytes.items
            → Steps bank r self.old self.new result
            (receive_move (machine_node self.old) (stated_reply_count bytes.items)) }
    {
        let position = self.states.add(bytes)?;
        Ok(Note::Gave(position))
    }

    /// The replica adopts the state at a position of those that were sent to it, if that has more
    /// entries than its log. Hands and frames stay.
    pub fn adopt(&mut self, position: u32) -> Result<Note, StepFault>
        ensures { (bank : BankOf) (r : ℕ) → IsNodeAt bank r self.old
            → Steps bank r self.old self.new result (adopt_move (machine_node self.old) position) }
    {
        let Some(bytes) = self.states.get(position) else {
            return Ok(Note::Nothing);
        };
        match self.replica.adopt(bytes) {
            Ok(Adopted::Adopted(length)) => Ok(Note::Adopted(length)),
            Ok(Adopted::Behind(length)) => Ok(Note::Behind(length)),
            // Every state that was sent is a checkpoint of this bank.
            Err(_) => Err(StepFault::OutOfMemory),
        }
    }
}
