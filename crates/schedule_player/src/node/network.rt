//! What is sent to a replica, and what it sends.
ghost use Rattle.std.specs.Prelude.{◌≡◌, ℕ, ◌<◌, List};
ghost use Rattle.sb_rows.specs.Balances.{Balances};
ghost use Rattle.sb_sequencer.specs.Entries.{entry_of, entries_to_resend};
ghost use Rattle.schedule_player.specs.Bank.{BankOf};
ghost use Rattle.schedule_player.specs.inner.HeardNotes.{note_of_heard};
ghost use Rattle.schedule_player.specs.inner.NodeInvariant.{IsNodeAt, Steps, machine_node};
ghost use Rattle.schedule_player.specs.ReplicaMoves.{ack_move, answer_move, deliver_move, next_move, resend_move, send_move};
ghost use Rattle.schedule_player.specs.World.{bank_with};

use crate::fault::StepFault;
use crate::node::Node;
use sb_calls::REPLICAS;
use sb_replica::Heard;
use schedule_sequencer::DurableSequencer;
use schedule_text::Note;

// A replica's answer to a frame, as a note.
fn heard_note(heard: Heard) -> Note
    ensures { result ≡ note_of_heard heard }
{
    match heard {
        Heard::Accepted(number) => Note::Accepted(number),
        Heard::Repeat(number) => Note::Repeat(number),
        Heard::Gap(length) => Note::Gap(length),
        Heard::Held(number) => Note::Held(number),
        Heard::Busy(length) => Note::Busy(length),
        Heard::Ignored => Note::Nothing,
    }
}

impl Node {
    /// Sends the entry with a number to the replica, if it is synced.
    pub fn send_entry(
        &mut self,
        number: u32,
        sequencer: &DurableSequencer,
    ) -> Result<Note, StepFault>
        ensures { (names : List (List ℕ)) (opening : Balances) (r : ℕ)
            → IsNodeAt (bank_with names opening sequencer.now.synced.log) r self.old
            → Steps (bank_with names opening sequencer.now.synced.log) r self.old self.new result
            (send_move (machine_node self.old) (entry_of sequencer.now.synced.log number)) }
    {
        let Some(entry) = sequencer.entry(number as u64) else {
            return Ok(Note::Nothing);
        };
        let position = self.inbound.add(&entry)?;
        Ok(Note::Sent(position))
    }

    /// Sends the replica the synced entries that it lacks, by what it last acknowledged: all of them
    /// or, if memory is refused, none.
    pub fn resend_entries(
        &mut self,
        replica: u32,
        sequencer: &DurableSequencer,
    ) -> Result<Note, StepFault>
        ensures { (names : List (List ℕ)) (opening : Balances) (r : ℕ) → replica < REPLICAS
            → IsNodeAt (bank_with names opening sequencer.now.synced.log) r self.old
            → Steps (bank_with names opening sequencer.now.synced.log) r self.old self.new result
            (resend_move (machine_node self.old) (entries_to_resend sequencer.now.synced replica)) }
    {
        // There are at most sixteen.
        let Ok(id) = u8::try_from(replica) else {
            return Ok(Note::Nothing);
        };
        let entries = sequencer.resend(id);
        self.inbound.add_all(&entries)?;
        Ok(Note::Resent(entries.len() as u64))
    }

    /// The frame at a position of those that were sent to the replica arrives.
    pub fn deliver(&mut self, position: u32) -> Result<Note, StepFault>
        ensures { (bank : BankOf) (r : ℕ) → IsNodeAt bank r self.old
            → Steps bank r self.old self.new result (deliver_move (machine_node self.old) position) }
    {
        let Some(bytes) = self.inbound.get(position) else {
            return Ok(Note::Nothing);
        };
        match self.replica.on_frame(bytes) {
            Ok(heard) => Ok(heard_note(heard)),
            // Everything that was sent is a frame.
            Err(_) => Err(StepFault::OutOfMemory),
        }
    }

    /// The replica takes the entry that it holds for its next number, if it holds one.
    pub fn advance(&mut self) -> Result<Note, StepFault>
        ensures { (bank : BankOf) (r : ℕ) → IsNodeAt bank r self.old
            → Steps bank r self.old self.new result (next_move (machine_node self.old)) }
    {
        match self.replica.advance() {
            Ok(Some(heard)) => Ok(heard_note(heard)),
            Ok(None) => Ok(Note::Nothing),
            Err(_) => Err(StepFault::OutOfMemory),
        }
    }

    /// The replica sends the length of its log.
    pub fn acknowledge(&mut self) -> Result<Note, StepFault>
        ensures { (bank : BankOf) (r : ℕ) → IsNodeAt bank r self.old
            → Steps bank r self.old self.new result (ack_move (machine_node self.old) r) }
    {
        let frame = self.replica.ack_frame();
        let position = self.outbound.add(&frame)?;
        Ok(Note::Sent(position))
    }

    /// The replica sends its reply to a number, if it holds one.
    pub fn answer(&mut self, number: u32) -> Result<Note, StepFault>
        ensures { (bank : BankOf) (r : ℕ) → IsNodeAt bank r self.old
            → Steps bank r self.old self.new result (answer_move bank (machine_node self.old) number) }
    {
        let Some(frame) = self.replica.answer_frame(number as u64) else {
            return Ok(Note::Nothing);
        };
        let position = self.outbound.add(&frame)?;
        Ok(Note::Sent(position))
    }
}
