//! The bodies of a log's file, taken again.
ghost use Rattle.std.specs.Prelude.{◌≡◌, ◌≢◌, ◌<◌, ◌≤◌, ◌++◌, ◌∷◌, [], List, length, take, IfOk, MatchResult};
ghost use Rattle.std.specs.List.{All};
ghost use Rattle.sb_calls.specs.declared.ask.Key.{Key as AnyKey};
ghost use Rattle.sb_calls.specs.declared.call.Call.{Call as AnyCall};
ghost use Rattle.sb_sequencer.specs.Numbering.{IsLog};
ghost use Rattle.sb_log.specs.Replaying.{IsReplayFault};
ghost use Rattle.sb_ask_log.specs.Asks.{IsAsk, asks_field};
ghost use Rattle.sb_ask_log.specs.inner.FirstAsk.{StartsWithAsk};
ghost use Rattle.sb_ask_log.specs.LogFile.{IsOpeningText, log_magic};

use crate::opening_text::is_opening_text;
use sb_calls::{Call, Key, LOG_CALLS};
use sb_frames::{Frame, decode};
use sb_log::{Replay, ReplayFault};
use sb_sequencer::{AskFault, Numbered, Sequencer};
use std::alloc::{AllocError, Global};
use std::marker::Model;

/// What stands before the opening text, in the first body of a log's file.
pub(crate) const MAGIC: &[u8] = b"SBLOG001";

/// The opening text and the asks of a log's file, as far as it is read. The asks are numbered. Before
/// the opening is read, its text is empty.
#[derive(Drop)]
pub(crate) struct AskReplay {
    alloc: Global,
    pub(crate) text: Vec<u8>,
    pub(crate) log: Box<Sequencer>,
}

impl Model for AskReplay {
    ghost use Rattle.sb_ask_log.specs.inner.Replaying.{AskReplayOf};

    ghost Value = { AskReplayOf };

    ghost view = { λ replay. record { text = replay.text.items; log = replay.log.value.log } };
}

impl AskReplay {
    /// Nothing is read yet.
    pub(crate) fn new(alloc: Global) -> Result<AskReplay, AllocError>
        ensures { IfOk result (λ replay. replay ≡ record { text = []; log = [] }) }
    {
        let log = empty_log(alloc)?;
        Ok(AskReplay {
            alloc,
            text: Vec::new(alloc),
            log,
        })
    }
}

/// A log of no ask.
pub(crate) fn empty_log(alloc: Global) -> Result<Box<Sequencer>, AllocError>
    ensures { IfOk result (λ log. log.value.log ≡ []) }
{
    Ok(Box::new(alloc, Sequencer::open(alloc, 1))?)
}

impl Replay for AskReplay {
    ghost use Rattle.sb_ask_log.specs.inner.Replaying.{RefusesBody, TakesBody};

    ghost Replays = { TakesBody };

    ghost Refuses = { RefusesBody };

    fn replay(&mut self, body: &[u8]) -> Result<(), ReplayFault> {
        if self.text.is_empty() {
            take_opening(self.alloc, body, &mut self.text)
        } else {
            take_batch(body, &mut self.log)
        }
    }
}

// Takes the body of the first record, whose text goes into the empty buffer.
fn take_opening(alloc: Global, body: &[u8], text: &mut Vec<u8>) -> Result<(), ReplayFault>
    requires { text.old.items ≡ [] }
    ensures { MatchResult result
        (λ done. (body.now ≡ log_magic ++ text.new.items) × IsOpeningText text.new.items)
        (IsReplayFault ((other : List _) → body.now ≡ log_magic ++ other → IsOpeningText other → ⊥)) }
{
    let Some(opening) = body.strip_prefix(MAGIC) else {
        return Err(ReplayFault::Refused);
    };
    match is_opening_text(alloc, opening) {
        Ok(true) => {}
        Ok(false) => return Err(ReplayFault::Refused),
        Err(_) => return Err(ReplayFault::OutOfMemory),
    }
    match text.extend_from_slice(opening) {
        Ok(()) => Ok(()),
        Err(_) => Err(ReplayFault::OutOfMemory),
    }
}

// Numbers the asks of a batch's body.
fn take_batch(body: &[u8], log: &mut Sequencer) -> Result<(), ReplayFault>
    ensures { MatchResult result
        (λ done. (batch : List (AnyKey × AnyCall)) × (batch ≢ []) × All IsAsk batch
        × (body.now ≡ asks_field batch) × (log.new.log ≡ log.old.log ++ batch) × IsLog log.new.log)
        (IsReplayFault ((batch : List (AnyKey × AnyCall)) → batch ≢ [] → All IsAsk batch
        → body.now ≡ asks_field batch → IsLog (log.old.log ++ batch) → ⊥)) }
{
    if body.is_empty() {
        return Err(ReplayFault::Refused);
    }
    let mut rest = body;
    while !rest.is_empty() {
        let Some((key, call, size)) = first_ask(rest) else {
            return Err(ReplayFault::Refused);
        };
        number(key, &call, log)?;
        rest = &rest[size..];
    }
    Ok(())
}

// The ask at the front of these bytes, and its size.
fn first_ask(bytes: &[u8]) -> Option<(Key, Call, usize)>
    ensures { StartsWithAsk bytes.now result }
{
    let Ok((frame, size)) = decode(bytes) else {
        return None;
    };
    match frame {
        Frame::Ask {
            client,
            request,
            call,
        } => Some((Key { client, request }, call, size)),
        _ => None,
    }
}

// Numbers an ask, which has to be new.
fn number(key: Key, call: &Call, log: &mut Sequencer) -> Result<(), ReplayFault>
    ensures { MatchResult result
        (λ done. (log.new.log ≡ log.old.log ++ (key, call.now) ∷ []) × IsLog log.new.log)
        (IsReplayFault ((more : List (AnyKey × AnyCall)) → IsLog (log.old.log ++ (key, call.now) ∷ more) → ⊥)) }
{
    match log.ask(key.client, key.request, call) {
        Ok(Numbered::New(_)) => {
            // The log is valid: each key has one number.
            prove!(log.length() <= LOG_CALLS as u64);
            Ok(())
        }
        Ok(Numbered::Repeat(_)) => Err(ReplayFault::Refused),
        Err(AskFault::Mismatch(_)) => Err(ReplayFault::Refused),
        Err(AskFault::LogFull) => Err(ReplayFault::Refused),
        Err(AskFault::OutOfMemory) => Err(ReplayFault::OutOfMemory),
    }
}
