//! The log of numbered requests, and what the replicas reported.
ghost use Rattle.std.specs.Prelude.{◌≡◌, ◌≤◌, length, replicate, slice_get, IfSome, IfOk};
ghost use Rattle.std.specs.Option.{option_copied};
ghost use Rattle.sb_sequencer.specs.Answer.{AnswersAsk, LogAfter};
ghost use Rattle.sb_sequencer.specs.Entries.{entries_after, entry_of, entries_to_resend};
ghost use Rattle.sb_sequencer.specs.Notes.{IsAnswerNote, after_ack, after_answer, answer_of, note_of_ack};
ghost use Rattle.sb_sequencer.specs.Numbering.{IsLog, ask_of_number, call_of_number, calls_of, number_of_key};
ghost use Rattle.sb_sequencer.specs.Sequencer.{state_after_ask, empty_sequencer, sequencer_with};

use crate::answer::{AskFault, Numbered};
use crate::answers::{store_answer, stored_answer};
use crate::asking::ask_log;
use crate::log::Log;
use crate::note::{AckNote, AnswerNote};
use arrayvec::ArrayVec;
use sb_calls::{Call, Key, LOG_CALLS, REPLICAS, Reply, WireReply};
use sb_frames::{AskOutcome, Frame};
use std::alloc::{AllocError, Global};
use std::marker::Model;

/// The greatest number of entries that are resent to a replica at once.
pub const RESEND: usize = 16;

/// Numbers clients' requests into one log: each key once, in the order of first asks. It remembers
/// how much of the log each replica has, how much of it each replica's checkpoint has, and the
/// answer to each call.
#[derive(Drop)]
pub struct Sequencer {
    log: Log,
    recorded: ArrayVec<u64, REPLICAS>,
    pub(crate) checkpoints: ArrayVec<u64, REPLICAS>,
    // There is room for an answer to each call. It is filled up to the last answer.
    answers: Vec<Option<Reply>>,
}

impl Model for Sequencer {
    ghost use Rattle.std.specs.Prelude.{length, vec_capacity};
    ghost use Rattle.sb_sequencer.specs.Sequencer.{SequencerOf};
    ghost use Rattle.sb_sequencer.specs.inner.Padding.{padded_answers};
    ghost use Rattle.sb_sequencer.specs.inner.Rooms.{HasRooms};

    ghost Value = { SequencerOf };

    ghost view = { λ s. record {
      log = s.log;
      recorded = s.recorded.items;
      checkpoints = s.checkpoints.items;
      answers = padded_answers (length s.log) s.answers.items;
    } };

    ghost invariant = { λ s. HasRooms s.log s.recorded.items s.checkpoints.items s.answers.items
        (vec_capacity s.answers) };
}

// This many lengths of 0.
fn zeros(count: usize) -> ArrayVec<u64, REPLICAS>
    requires { count ≤ REPLICAS }
    ensures { result.items ≡ replicate count 0 }
{
    let mut zeros = ArrayVec::new();
    for _ in 0..count {
        zeros.push(0);
    }
    zeros
}

impl Sequencer {
    /// A sequencer for this many replicas, with an empty log.
    pub fn open(alloc: Global, nodes: usize) -> Sequencer
        requires { nodes ≤ REPLICAS }
        ensures { result ≡ empty_sequencer nodes }
    {
        Sequencer {
            log: Log::new(alloc),
            recorded: zeros(nodes),
            checkpoints: zeros(nodes),
            answers: Vec::new(alloc),
        }
    }

    /// A sequencer for this many replicas, with an empty log that takes this many calls before it
    /// needs more memory. Fails if memory is refused.
    pub fn with_capacity(alloc: Global, nodes: usize, calls: usize) -> Result<Sequencer, AllocError>
        requires { nodes ≤ REPLICAS }
        ensures { IfOk result (λ sequencer. sequencer ≡ empty_sequencer nodes) }
    {
        let mut sequencer = Sequencer::open(alloc, nodes);
        sequencer.reserve(calls)?;
        sequencer.answers.reserve(calls)?;
        Ok(sequencer)
    }

    /// The number of calls in the log.
    pub fn length(&self) -> u64
        ensures value { result ≡ length self.now.log }
        ensures valid { IsLog self.now.log }
    {
        self.log.len() as u64
    }

    /// The call with this number, counted from 1, or `None` if there is none.
    pub fn call(&self, number: u64) -> Option<&Call>
        ensures { option_copied result ≡ call_of_number self.now.log number }
    {
        let index = number.checked_sub(1)?;
        self.log.get(index as usize)
    }

    /// The key and the call with this number, counted from 1, or `None` if there are none.
    pub fn ask_of(&self, number: u64) -> Option<(Key, Call)>
        ensures { result ≡ ask_of_number self.now.log number }
    {
        let index = number.checked_sub(1)?;
        self.log.keyed_call(index as usize)
    }

    /// The calls of the log, in order.
    pub fn calls(&self) -> &[Call]
        ensures { result.now ≡ calls_of self.now.log }
    {
        self.log.calls()
    }

    /// The calls of the log, in order. All else is dropped.
    pub fn into_calls(self) -> Vec<Call>
        ensures { result.items ≡ calls_of self.log }
    {
        let Sequencer { log, .. } = self;
        log.into_calls()
    }

    /// The number of a request, counted from 1, or `None` if it has none.
    #[inline]
    pub fn number_of(&self, client: u32, request: u32) -> Option<u64>
        ensures { result ≡ number_of_key self.now.log (record { client = client; request = request }) }
    {
        let index = self.log.index_of(&Key { client, request })?;
        Some(index as u64 + 1)
    }

    /// Makes room for this many more calls, so that numbering them moves no others. If memory is
    /// refused, nothing is lost.
    pub fn reserve(&mut self, additional: usize) -> Result<(), AllocError>
        ensures { self.new ≡ self.old }
    {
        self.log.reserve(additional)
    }

    /// Numbers a request, or returns the number that it already has.
    ///
    /// Fails with
    /// - [`AskFault::Mismatch`] if the key has a number with another call,
    /// - [`AskFault::LogFull`] if the key is new and the log has [`LOG_CALLS`] calls,
    /// - [`AskFault::OutOfMemory`] if the key is new and memory is refused.
    ///
    /// A repeat changes nothing, and neither does a fault.
    pub fn ask(&mut self, client: u32, request: u32, call: &Call) -> Result<Numbered, AskFault>
        // The answer, by the log as it was.
        ensures answer { AnswersAsk self.old.log (record { client = client; request = request }, call.now) result }
        // Only a new number changes the log.
        ensures log { LogAfter self.old.log (record { client = client; request = request }, call.now)
            result self.new.log }
        // With a new number there is a slot for its answer. What the replicas have of the log
        // stays.
        ensures state { self.new
            ≡ state_after_ask self.old (record { client = client; request = request }, call.now) result }
    {
        let key = Key { client, request };
        ask_log(&mut self.log, &mut self.answers, key, call)
    }

    /// The entry with this number, counted from 1, or `None` if there is none.
    pub fn entry(&self, number: u64) -> Option<Frame>
        ensures { result ≡ entry_of self.now.log number }
    {
        let call = self.call(number)?;
        Some(Frame::Entry {
            number,
            call: *call,
        })
    }

    /// The entries that a replica lacks, at most [`RESEND`], from the first one after what it has.
    /// There are none if no such replica exists.
    pub fn resend(&self, replica: u8) -> ArrayVec<Frame, RESEND>
        ensures { result.items ≡ entries_to_resend self.now replica }
    {
        match self.recorded_of(replica) {
            Some(length) => self.entries_after(length),
            None => ArrayVec::new(),
        }
    }

    /// How much of the log a replica has, by the last length received of it. `None` if no such
    /// replica exists.
    pub fn recorded_of(&self, replica: u8) -> Option<u64>
        ensures value { result ≡ slice_get self.now.recorded replica }
        ensures within { IfSome result (λ size. size ≤ length self.now.log) }
    {
        self.recorded.as_slice().get(replica as usize).copied()
    }

    // The entries after this length, at most `RESEND`.
    fn entries_after(&self, size: u64) -> ArrayVec<Frame, RESEND>
        requires { size ≤ length self.now.log }
        ensures { result.items ≡ entries_after self.now.log size }
    {
        // The checker follows the parts of a frame, and needs their types here.
        let _parts: Option<(Call, AskOutcome, WireReply)> = None;
        let mut entries = ArrayVec::new();
        let end = self.length().min(size + RESEND as u64);
        for before in size..end {
            entries.push(self.entry(before + 1).unwrap());
        }
        entries
    }

    /// Notes that a replica has this much of the log. The last length received counts, even if it is
    /// below the one before. An `Odd` one changes nothing. It allocates nothing.
    pub fn on_ack(&mut self, replica: u8, length: u64) -> AckNote
        ensures note { result ≡ note_of_ack self.old replica length }
        ensures state { self.new ≡ after_ack self.old replica length }
    {
        if length > self.length() {
            return AckNote::Odd;
        }
        match self.recorded.get_mut(replica as usize) {
            Some(recorded) => {
                *recorded = length;
                AckNote::Recorded
            }
            None => AckNote::Odd,
        }
    }

    /// Notes the reply to the call with this number. The first reply stays for good. It allocates
    /// nothing.
    pub fn on_answer(&mut self, number: u64, reply: Reply) -> AnswerNote
        ensures note { IsAnswerNote self.old number reply result }
        ensures state { self.new ≡ after_answer self.old number reply result }
    {
        let Some(index) = number.checked_sub(1) else {
            return AnswerNote::Unknown;
        };
        if index >= self.log.len() as u64 {
            return AnswerNote::Unknown;
        }
        store_answer(&mut self.answers, index as usize, reply)
    }

    /// Forgets what the replicas reported: no length is recorded, and no answer is kept. The log
    /// stays, and is for this many replicas from now on. It allocates nothing.
    pub fn forget_reports(&mut self, nodes: usize)
        requires { nodes ≤ REPLICAS }
        ensures { self.new ≡ sequencer_with nodes self.old.log }
    {
        self.recorded = zeros(nodes);
        self.checkpoints = zeros(nodes);
        self.answers.clear();
    }

    /// The reply to a request, or `None` if none has come yet or the request has no
    /// number.
    pub fn answer_of(&self, client: u32, request: u32) -> Option<Reply>
        ensures { result ≡ answer_of self.now (record { client = client; request = request }) }
    {
        let index = self.log.index_of(&Key { client, request })?;
        stored_answer(self.answers.as_slice(), index)
    }
}
