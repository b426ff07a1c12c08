//! What a frame does at the sequencer.
ghost use Rattle.std.specs.Prelude.{◌≡◌};
ghost use Rattle.sb_frames.specs.Grammar.{Spells};
ghost use Rattle.sb_frames.specs.declared.frame.Frame.{Frame as AnyFrame};
ghost use Rattle.schedule_player.specs.inner.ReceivesFrame.{ReceivesFrame, ack_note, answer_note, have_note};

use sb_frames::{Frame, decode};
use sb_sequencer::{AckNote, AnswerNote, HaveNote};
use schedule_sequencer::DurableSequencer;
use schedule_text::Note;

// The sequencer's note on the length of a log.
fn ack_note(length: u64, noted: AckNote) -> Note
    ensures { result ≡ ack_note length noted }
{
    match noted {
        AckNote::Recorded => Note::Recorded(length),
        AckNote::Odd => Note::Odd,
    }
}

// The sequencer's note on the length of a checkpoint.
fn have_note(length: u64, noted: HaveNote) -> Note
    ensures { result ≡ have_note length noted }
{
    match noted {
        HaveNote::Recorded => Note::Has(length),
        HaveNote::Odd => Note::Odd,
    }
}

// The sequencer's note on a reply.
fn answer_note(number: u64, noted: AnswerNote) -> Note
    ensures { result ≡ answer_note number noted }
{
    match noted {
        AnswerNote::Kept => Note::Kept(number),
        AnswerNote::Repeat => Note::Repeat(number),
        AnswerNote::Odd => Note::OddAnswer(number),
        AnswerNote::Unknown => Note::Unknown(number),
    }
}

// The sequencer receives a frame, and notes it.
fn receive_frame(sequencer: &mut DurableSequencer, frame: &Frame) -> Note
    ensures receives { ReceivesFrame sequencer.old.synced frame.now result sequencer.new.synced }
    ensures unsynced { sequencer.new.unsynced ≡ sequencer.old.unsynced }
{
    match frame {
        Frame::Ack { replica, length } => ack_note(*length, sequencer.on_ack(*replica, *length)),
        Frame::Have { replica, length } => have_note(*length, sequencer.on_have(*replica, *length)),
        Frame::Answer { number, reply } => {
            answer_note(*number, sequencer.on_answer(*number, reply.reply()))
        }
        _ => Note::Nothing,
    }
}

/// The sequencer receives the bytes of a frame, and notes it.
pub(crate) fn receive_report(sequencer: &mut DurableSequencer, bytes: &[u8]) -> Note
    ensures receives { (sent : AnyFrame) → Spells sent bytes.now
        → ReceivesFrame sequencer.old.synced sent result sequencer.new.synced }
    ensures unsynced { sequencer.new.unsynced ≡ sequencer.old.unsynced }
{
    match decode(bytes) {
        Ok((frame, _)) => receive_frame(sequencer, &frame),
        // Everything that was sent is a frame.
        Err(_) => Note::Nothing,
    }
}
