//! What comes from a client, frame after frame.
ghost use Rattle.std.specs.Prelude.{◌≡◌, ◌≤◌, ◌<◌, ◌↔◌, ◌+◌, ◌++◌, ◌∷◌, [], ℕ, List, drop, length, false, IfErr, IfOk, IsTrue, OnOk, OnErr};
ghost use Rattle.sb_frames.specs.Streaming.{IsShort};
ghost use Rattle.sb_frames.specs.Streaming as streaming;
ghost use Rattle.sb_frames.specs.declared.frame.Frame.TheVariants as frames;
ghost use Rattle.bank_server.specs.Pending.{ArePendingWithin};
ghost use Rattle.bank_server.specs.inner.ClientSteps.{HandlesClient, LeadsClient, RefusesClientFrame, StopsClient, TellsDue, inbox_state};
ghost use Rattle.bank_server.specs.Primary.{HasWholeLog, opening_rows_of};
ghost use Rattle.bank_server.specs.inner.NumberedAsks.{NumbersAsks};
ghost use Rattle.bank_server.specs.declared.session.session_fault.SessionFault.TheVariants as faults;

use super::outcome_frames::push_outcomes;
use super::session_fault::SessionFault;
use crate::input::Standing;
use crate::node0::Primary;
use sb_ask_log::Keeper;
use sb_calls::{Call, Key};
use sb_checkpoint::CheckpointStore;
use sb_frames::{Frame, Stream, StreamFault};
use std::alloc::{AllocError, Global};

/// An ask that was numbered, whose client hasn't got its outcome yet.
#[derive(Clone, Copy, Debug, PartialEq, Eq)]
pub struct PendingAsk {
    /// The client, and its number for the request.
    pub key: Key,
    /// The standing of the ask in the log.
    pub standing: Standing,
}

/// What came from a client, and isn't told yet.
#[derive(Drop)]
pub(crate) struct Inbox {
    /// The bytes that aren't a whole frame yet.
    pub(crate) stream: Stream,
    /// The asks whose outcomes the client wasn't given, in order.
    pub(crate) pending: Vec<PendingAsk>,
    /// How many of them a flush follows.
    pub(crate) due: usize,
}

impl Inbox {
    /// Before the first byte.
    pub(crate) fn new(alloc: Global) -> Inbox
        ensures stream { result.stream ≡ streaming.empty_stream }
        ensures pending { result.pending.items ≡ [] }
        ensures due { result.due ≡ 0 }
    {
        Inbox {
            stream: Stream::new(alloc),
            pending: Vec::new(alloc),
            due: 0,
        }
    }

    /// Writes the outcomes that are due, by a log that is executed and kept, and forgets their
    /// asks.
    ///
    /// Fails if memory is refused.
    pub(crate) fn push_due<S: CheckpointStore, K: Keeper>(
        &mut self,
        primary: &Primary<S, K>,
        out: &mut Vec<u8>,
    ) -> Result<(), AllocError>
        requires whole_log { HasWholeLog primary.now }
        requires kept { K.model.Keeps primary.now.keeper primary.now.log }
        requires within { ArePendingWithin (length primary.now.log) self.old.pending.items }
        requires due { self.old.due ≤ length self.old.pending.items }
        ensures within { OnOk result (ArePendingWithin (length primary.now.log) self.new.pending.items) }
        ensures none_due { OnOk result (self.new.due ≡ 0) }
        ensures fewer { OnOk result (length self.new.pending.items + self.old.due ≡ length self.old.pending.items) }
        ensures tells { OnOk result (TellsDue (opening_rows_of primary.now)
            (inbox_state primary.now.log self.old out.old.items) (inbox_state primary.now.log self.new out.new.items)) }
        ensures behind { OnOk result ((more : List ℕ) × (out.new.items ≡ out.old.items ++ more)) }
        ensures stream { self.new.stream ≡ self.old.stream }
    {
        push_outcomes(&self.pending[..self.due], primary.node(), out)?;
        forget_front(&mut self.pending, self.due);
        self.due = 0;
        Ok(())
    }
}

/// Forgets this many, the first ones. If these are all, nothing has to move.
pub(crate) fn forget_front<T: Drop>(items: &mut Vec<T>, count: usize)
    requires { count ≤ length items.old.items }
    ensures { items.new.items ≡ drop count items.old.items }
{
    if count == items.len() {
        items.clear();
    } else {
        items.drain(..count);
    }
}

/// Takes bytes, and each frame that is whole by then: an ask is numbered, and waits; a flush makes
/// the outcomes of all that wait due. At most `most` asks may wait for a flush. Answers whether there was
/// such a frame.
///
/// Fails with
/// - [`SessionFault::Frame`] if bytes come that no frame begins with,
/// - [`SessionFault::Unexpected`] if a frame comes that is neither an ask nor a flush,
/// - [`SessionFault::TooMany`] if an ask comes and `most` wait for a flush,
/// - [`SessionFault::OutOfMemory`] if memory is refused.
pub(crate) fn take_bytes<S: CheckpointStore, K: Keeper>(
    bytes: &[u8],
    most: usize,
    inbox: &mut Inbox,
    primary: &mut Primary<S, K>,
) -> Result<bool, SessionFault>
    requires within { ArePendingWithin (length primary.old.log) inbox.old.pending.items }
    requires due { inbox.old.due ≤ length inbox.old.pending.items }
    requires few { length inbox.old.pending.items ≤ inbox.old.due + most }
    requires healthy { inbox.old.stream.failed ≡ false }
    ensures within { ArePendingWithin (length primary.new.log) inbox.new.pending.items }
    ensures due { inbox.new.due ≤ length inbox.new.pending.items }
    ensures few { length inbox.new.pending.items ≤ inbox.new.due + most }
    ensures handles { OnOk result ((outcomes : List ℕ) → HandlesClient (opening_rows_of primary.old)
        (inbox_state primary.old.log inbox.old outcomes) (inbox.old.stream.unread ++ bytes.now)
        (inbox_state primary.new.log inbox.new outcomes) inbox.new.stream.unread) }
    ensures short { OnOk result (IsShort inbox.new.stream) }
    // A whole frame was taken: less is left than there was.
    ensures whole { IfOk result (λ has_frame. IsTrue has_frame
        ↔ (length inbox.new.stream.unread < length (inbox.old.stream.unread ++ bytes.now))) }
    ensures stops { IfErr result (λ fault. (outcomes : List ℕ) → StopsClient (opening_rows_of primary.old) most
        (inbox_state primary.old.log inbox.old outcomes) (inbox.old.stream.unread ++ bytes.now) fault
        (inbox_state primary.new.log inbox.new outcomes)) }
    ensures numbered { NumbersAsks K.model primary.old primary.new }
{
    if inbox.stream.feed(bytes).is_err() {
        // It hadn't failed.
        return Err(SessionFault::OutOfMemory);
    }
    take_frames(most, inbox, primary)
}

// Takes each frame that is whole, and answers whether there was one.
#[tactic(auto, unfolding(sb_frames::specs::Grammar::spelling))]
fn take_frames<S: CheckpointStore, K: Keeper>(
    most: usize,
    inbox: &mut Inbox,
    primary: &mut Primary<S, K>,
) -> Result<bool, SessionFault>
    requires within { ArePendingWithin (length primary.old.log) inbox.old.pending.items }
    requires due { inbox.old.due ≤ length inbox.old.pending.items }
    requires few { length inbox.old.pending.items ≤ inbox.old.due + most }
    requires healthy { inbox.old.stream.failed ≡ false }
    ensures within { ArePendingWithin (length primary.new.log) inbox.new.pending.items }
    ensures due { inbox.new.due ≤ length inbox.new.pending.items }
    ensures few { length inbox.new.pending.items ≤ inbox.new.due + most }
    ensures handles { OnOk result ((outcomes : List ℕ) → HandlesClient (opening_rows_of primary.old)
        (inbox_state primary.old.log inbox.old outcomes) inbox.old.stream.unread
        (inbox_state primary.new.log inbox.new outcomes) inbox.new.stream.unread) }
    ensures short { OnOk result (IsShort inbox.new.stream) }
    ensures whole { IfOk result (λ has_frame. IsTrue has_frame
        ↔ (length inbox.new.stream.unread < length inbox.old.stream.unread)) }
    ensures stops { IfErr result (λ fault. (outcomes : List ℕ) → StopsClient (opening_rows_of primary.old) most
        (inbox_state primary.old.log inbox.old outcomes) inbox.old.stream.unread fault
        (inbox_state primary.new.log inbox.new outcomes)) }
    ensures numbered { NumbersAsks K.model primary.old primary.new }
{
    let mut has_frame = false;
    loop {
        match inbox.stream.next() {
            Ok(Some(frame)) => take_frame(&frame, most, inbox, primary)?,
            Ok(None) => return Ok(has_frame),
            Err(StreamFault::Bad(fault)) => return Err(SessionFault::Frame(fault)),
            // It hadn't failed, and takes no memory.
            Err(StreamFault::Failed | StreamFault::OutOfMemory) => unreachable!(),
        }
        has_frame = true;
    }
}

// Takes a frame: an ask is numbered, and waits; a flush makes all that waits due.
fn take_frame<S: CheckpointStore, K: Keeper>(
    frame: &Frame,
    most: usize,
    inbox: &mut Inbox,
    primary: &mut Primary<S, K>,
) -> Result<(), SessionFault>
    requires within { ArePendingWithin (length primary.old.log) inbox.old.pending.items }
    requires due { inbox.old.due ≤ length inbox.old.pending.items }
    requires few { length inbox.old.pending.items ≤ inbox.old.due + most }
    ensures within { ArePendingWithin (length primary.new.log) inbox.new.pending.items }
    ensures due { inbox.new.due ≤ length inbox.new.pending.items }
    ensures few { length inbox.new.pending.items ≤ inbox.new.due + most }
    ensures leads { OnOk result ((outcomes : List ℕ) → LeadsClient (opening_rows_of primary.old)
        (inbox_state primary.old.log inbox.old outcomes) (frame.now ∷ [])
        (inbox_state primary.new.log inbox.new outcomes)) }
    ensures refused { IfErr result (λ fault. (outcomes : List ℕ) → RefusesClientFrame most frame.now fault
        (inbox_state primary.old.log inbox.old outcomes) (inbox_state primary.new.log inbox.new outcomes)) }
    ensures stream { inbox.new.stream ≡ inbox.old.stream }
    ensures numbered { NumbersAsks K.model primary.old primary.new }
{
    match frame {
        Frame::Ask {
            client,
            request,
            call,
        } => {
            if inbox.pending.len() - inbox.due >= most {
                return Err(SessionFault::TooMany);
            }
            let key = Key {
                client: *client,
                request: *request,
            };
            number_ask(key, call, &mut inbox.pending, primary)
        }
        Frame::Flush => {
            inbox.due = inbox.pending.len();
            Ok(())
        }
        _ => Err(SessionFault::Unexpected),
    }
}

// Numbers an ask, which then waits for a flush.
fn number_ask<S: CheckpointStore, K: Keeper>(
    key: Key,
    call: &Call,
    pending: &mut Vec<PendingAsk>,
    primary: &mut Primary<S, K>,
) -> Result<(), SessionFault>
    requires within { ArePendingWithin (length primary.old.log) pending.old.items }
    ensures within { ArePendingWithin (length primary.new.log) pending.new.items }
    ensures longer { length pending.old.items ≤ length pending.new.items }
    ensures one { length pending.new.items ≤ length pending.old.items + 1 }
    ensures leads { OnOk result ((due : ℕ) (outcomes : List ℕ) → LeadsClient (opening_rows_of primary.old)
        (record { log = primary.old.log; pending = pending.old.items; due = due; outcomes = outcomes })
        (frames.Ask key.client key.request call.now ∷ [])
        (record { log = primary.new.log; pending = pending.new.items; due = due; outcomes = outcomes })) }
    ensures numbered { NumbersAsks K.model primary.old primary.new }
    ensures unchanged { OnErr result ((primary.new.log ≡ primary.old.log) × (pending.new.items ≡ pending.old.items)) }
    ensures fault { IfErr result (λ fault. fault ≡ faults.OutOfMemory) }
{
    // Its slot is reserved before the ask is numbered.
    pending.reserve(1)?;
    let standing = primary.ask(key, call)?;
    pending.push_reserved(PendingAsk { key, standing });
    Ok(())
}
