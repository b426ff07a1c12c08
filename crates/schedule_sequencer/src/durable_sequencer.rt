//! A sequencer with its log in a file in memory, which can crash.
ghost use Rattle.std.specs.Prelude.{◌≡◌, ◌≤◌, ◌<◌, ◌∷◌, [], None, List, length, IfOk, OnOk, OnErr};
ghost use Rattle.std.specs.Option.{option_copied};
ghost use Rattle.sb_calls.specs.declared.ask.Key.{Key as AnyKey};
ghost use Rattle.sb_calls.specs.declared.call.Call.{Call as AnyCall};
ghost use Rattle.sb_sequencer.specs.Answer.{AnswersAsk};
ghost use Rattle.sb_sequencer.specs.Donors.{IsDonor};
ghost use Rattle.sb_sequencer.specs.Entries.{entries_to_resend, entry_of};
ghost use Rattle.sb_sequencer.specs.Notes.{IsAnswerNote, after_ack, after_answer, after_have, answer_of, note_of_ack, note_of_have};
ghost use Rattle.sb_sequencer.specs.Numbering.{IsLog, call_of_number, calls_of, index_of_key};
ghost use Rattle.sb_sequencer.specs.Sequencer.{IsSequencer};
ghost use Rattle.sb_ask_log.specs.MemoryLog.{HasAsks};
ghost use Rattle.schedule_sequencer.specs.DurableSequencer.{after_append, after_crash, after_sync, empty_durable, whole_log};

use arrayvec::ArrayVec;
use sb_ask_log::{ASK_RECORD, MemoryLog};
use sb_calls::{Call, Key, LOG_CALLS, Reply};
use sb_frames::Frame;
use sb_sequencer::{
    AckNote, AnswerNote, AskFault, HaveNote, Numbered, REPLICAS, RESEND, Sequencer,
};
use std::alloc::{AllocError, Global};
use std::marker::Model;

/// A sequencer whose log is in a file in memory that can crash. Replicas get only what is synced.
#[derive(Drop)]
pub struct DurableSequencer {
    alloc: Global,
    nodes: usize,
    // It has the whole log.
    sequencer: Box<Sequencer>,
    // It has every ask of that log, and says how many of them are synced.
    log: MemoryLog,
}

impl Model for DurableSequencer {
    ghost use Rattle.schedule_sequencer.specs.DurableSequencer.{DurableSequencerOf};
    ghost use Rattle.schedule_sequencer.specs.inner.Views.{IsDurableSequencer, cut_at};

    ghost Value = { DurableSequencerOf };

    ghost view = { λ s. cut_at s.log.synced s.sequencer.value };

    ghost invariant = { λ s. IsDurableSequencer s.log s.sequencer.value s.nodes };
}

// Makes room in the file for an ask, if it is to be numbered: its key is new, and the log takes one
// more call.
fn reserve_record(
    log: &mut MemoryLog,
    sequencer: &Sequencer,
    client: u32,
    request: u32,
) -> Result<(), AllocError>
    ensures asks { (asks : List (AnyKey × AnyCall)) → HasAsks log.old asks → HasAsks log.new asks }
    ensures synced { log.new.synced ≡ log.old.synced }
    ensures room { OnOk result (
        index_of_key sequencer.now.log (record { client = client; request = request }) ≡ None
        → length sequencer.now.log < LOG_CALLS → ASK_RECORD ≤ log.new.file.room) }
    ensures refused { OnErr result (
        (index_of_key sequencer.now.log (record { client = client; request = request }) ≡ None)
        × (length sequencer.now.log < LOG_CALLS)) }
{
    if sequencer.number_of(client, request).is_some() || sequencer.length() >= LOG_CALLS as u64 {
        return Ok(());
    }
    log.reserve()
}

impl DurableSequencer {
    /// A sequencer for this many replicas, with an empty log. Fails if memory is refused.
    pub fn open(alloc: Global, nodes: usize) -> Result<DurableSequencer, AllocError>
        requires { nodes ≤ REPLICAS }
        ensures { IfOk result (λ s. s ≡ empty_durable nodes) }
    {
        let log = MemoryLog::new(alloc)?;
        let sequencer = Box::new(alloc, Sequencer::open(alloc, nodes))?;
        Ok(DurableSequencer {
            alloc,
            nodes,
            sequencer,
            log,
        })
    }

    /// Numbers a request, or returns the number that it already has. What is newly numbered isn't
    /// synced yet.
    ///
    /// Fails with
    /// - [`AskFault::Mismatch`] if the key has a number with another call,
    /// - [`AskFault::LogFull`] if the key is new and the log has [`LOG_CALLS`] calls,
    /// - [`AskFault::OutOfMemory`] if the key is new and memory is refused.
    ///
    /// A repeat changes nothing, and neither does a fault.
    pub fn append(&mut self, client: u32, request: u32, call: &Call) -> Result<Numbered, AskFault>
        ensures answer { AnswersAsk (whole_log self.old)
            (record { client = client; request = request }, call.now) result }
        ensures state { self.new ≡ after_append self.old
            (record { client = client; request = request }, call.now) result }
    {
        if reserve_record(&mut self.log, &self.sequencer, client, request).is_err() {
            return Err(AskFault::OutOfMemory);
        }
        let answer = self.sequencer.ask(client, request, call);
        if let Ok(Numbered::New(_)) = answer {
            // The log is valid: each key has one number.
            prove!(self.sequencer.length() <= LOG_CALLS as u64);
            self.log.append_reserved(Key { client, request }, call);
        }
        answer
    }

    /// Has the whole log on the disk. It takes no memory, and never fails.
    pub fn sync(&mut self)
        ensures { self.new ≡ after_sync self.old }
    {
        self.log.sync(&self.sequencer);
    }

    /// The machine crashes and starts again: the sequencer has what is read back from the file. That
    /// is every synced call, and of the others those up to this number. Nothing that was reported
    /// is left.
    ///
    /// Fails if memory is refused; then nothing changes.
    pub fn crash(&mut self, kept: u64) -> Result<(), AllocError>
        ensures ok { OnOk result (self.new ≡ after_crash self.old kept) }
        ensures err { OnErr result (self.new ≡ self.old) }
    {
        let (log, mut sequencer) = self.log.crashed(self.alloc, &self.sequencer, kept)?;
        sequencer.forget_reports(self.nodes);
        self.log = log;
        self.sequencer = sequencer;
        Ok(())
    }

    /// The number of calls in the log, synced or not.
    pub fn length(&self) -> u64
        ensures value { result ≡ length (whole_log self.now) }
        ensures valid { IsSequencer self.now.synced }
        ensures log { IsLog (whole_log self.now) }
    {
        self.sequencer.length()
    }

    /// The number of synced calls.
    pub fn synced(&self) -> u64
        ensures { result ≡ length self.now.synced.log }
    {
        self.log.synced()
    }

    /// The call with this number, counted from 1, synced or not, or `None` if there is none.
    pub fn call(&self, number: u64) -> Option<&Call>
        ensures { option_copied result ≡ call_of_number (whole_log self.now) number }
    {
        self.sequencer.call(number)
    }

    /// The synced calls, in order.
    pub fn synced_calls(&self) -> &[Call]
        ensures { result.now ≡ calls_of self.now.synced.log }
    {
        let synced = self.log.synced() as usize;
        &self.sequencer.calls()[..synced]
    }

    /// The entry with this number, counted from 1, or `None` if no synced call has it.
    pub fn entry(&self, number: u64) -> Option<Frame>
        ensures { result ≡ entry_of self.now.synced.log number }
    {
        if number > self.log.synced() {
            return None;
        }
        self.sequencer.entry(number)
    }

    /// The synced entries that a replica lacks, at most [`RESEND`], from the first one after what it
    /// has. There are none if no such replica exists.
    pub fn resend(&self, replica: u8) -> ArrayVec<Frame, RESEND>
        ensures { result.items ≡ entries_to_resend self.now.synced replica }
    {
        let mut entries = self.sequencer.resend(replica);
        if let Some(recorded) = self.sequencer.recorded_of(replica) {
            entries.truncate((self.log.synced() - recorded) as usize);
        }
        entries
    }

    /// Notes that a replica has this much of the log. The last length received counts, even if it is
    /// below the one before. A length above the synced one is `Odd`, and changes nothing.
    pub fn on_ack(&mut self, replica: u8, length: u64) -> AckNote
        ensures note { result ≡ note_of_ack self.old.synced replica length }
        ensures state { self.new ≡ record self.old { synced = after_ack self.old.synced replica length } }
    {
        if length > self.log.synced() {
            return AckNote::Odd;
        }
        self.sequencer.on_ack(replica, length)
    }

    /// Notes that a replica keeps a checkpoint of this length. The last length received counts, even
    /// if it is below the one before. A length above the synced one is `Odd`, and changes nothing.
    pub fn on_have(&mut self, replica: u8, length: u64) -> HaveNote
        ensures note { result ≡ note_of_have self.old.synced replica length }
        ensures state { self.new ≡ record self.old { synced = after_have self.old.synced replica length } }
    {
        if length > self.log.synced() {
            return HaveNote::Odd;
        }
        self.sequencer.on_have(replica, length)
    }

    /// Notes the reply to the synced call with this number. The first reply stays until a crash.
    pub fn on_answer(&mut self, number: u64, reply: Reply) -> AnswerNote
        ensures note { IsAnswerNote self.old.synced number reply result }
        ensures state { self.new ≡ record self.old {
          synced = after_answer self.old.synced number reply result;
        } }
    {
        if number > self.log.synced() {
            return AnswerNote::Unknown;
        }
        self.sequencer.on_answer(number, reply)
    }

    /// The replica from which another gets a state, and the state's length, as
    /// [`Sequencer::donor`] names it.
    pub fn donor(&self, replica: u8) -> Option<(u8, u64)>
        ensures { IsDonor self.now.synced replica result }
    {
        self.sequencer.donor(replica)
    }

    /// The reply to a request, or `None` if none has come since the last crash, or the request has
    /// no synced number.
    pub fn answer_of(&self, client: u32, request: u32) -> Option<Reply>
        ensures { result ≡ answer_of self.now.synced (record { client = client; request = request }) }
    {
        self.sequencer.answer_of(client, request)
    }
}
