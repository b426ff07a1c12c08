//! A client who is served, beside others or alone.
ghost use Rattle.std.specs.Prelude.{◌≡◌, ◌≢◌, ◌⊎◌, ◌↔◌, ◌≤◌, ◌<◌, length, drop, None, Some, Err, false, true, is_some, IfOk, IfSome, IsTrue, OnErr, OnOk};
ghost use Rattle.bank_server.specs.AskCounts.{counts_since};
ghost use Rattle.bank_server.specs.Clients.{IsSound, fresh_client, piece_of};
ghost use Rattle.bank_server.specs.inner.ClientTurns.{BringsFrame, HearsClient, StopsHearing, TellsClient, ending_at_failure, ending_of};
ghost use Rattle.bank_server.specs.inner.CountedAsks.{AddsCounts};
ghost use Rattle.bank_server.specs.Primary.{HasWholeLog, opening_rows_of};
ghost use Rattle.bank_server.specs.inner.NumberedAsks.{NumbersAsks};
ghost use Rattle.bank_server.specs.declared.session.session_fault.SessionFault.TheVariants as faults;

use super::client_limits::ClientLimits;
use super::inbox::{Inbox, forget_front, take_bytes};
use super::session_fault::SessionFault;
use crate::node0::{AskCounts, Primary};
use sb_ask_log::Keeper;
use sb_checkpoint::CheckpointStore;
use sb_frames::FrameFault;
use std::alloc::{AllocError, Global};
use std::marker::Model;

/// A client, between two arrivals of its bytes.
#[derive(Drop)]
pub(crate) struct Client {
    // What came from it, and isn't told yet.
    inbox: Inbox,
    // The outcomes that its connection hasn't taken.
    outcomes: Vec<u8>,
    // How many asks it had.
    counts: AskCounts,
    // What bounds it.
    limits: ClientLimits,
    // How it ended.
    ending: Option<Result<(), SessionFault>>,
    // Whether its connection failed, be it after its end.
    broken: bool,
}

impl Model for Client {
    ghost use Rattle.bank_server.specs.Clients.{ClientOf};
    ghost use Rattle.bank_server.specs.inner.ClientTurns.{client_of};

    ghost Value = { ClientOf };

    ghost view = { λ c. client_of c.inbox c.outcomes.items c.counts c.limits c.ending c.broken };
}

impl Client {
    /// A client before its first byte, within these limits.
    pub(crate) fn new(alloc: Global, limits: ClientLimits) -> Client
        ensures { result ≡ fresh_client limits }
    {
        Client {
            inbox: Inbox::new(alloc),
            outcomes: Vec::new(alloc),
            counts: AskCounts::new(),
            limits,
            ending: None,
            broken: false,
        }
    }

    /// The outcomes that its connection hasn't taken.
    pub(crate) fn outcomes(&self) -> &[u8]
        ensures { result.now ≡ self.now.outcomes }
    {
        &self.outcomes
    }

    /// How many asks it had.
    pub(crate) fn ask_counts(&self) -> AskCounts
        ensures { result ≡ self.now.counts }
    {
        self.counts
    }

    /// How it ended.
    pub(crate) fn ending(&self) -> Option<Result<(), SessionFault>>
        ensures { result ≡ self.now.ending }
    {
        self.ending
    }

    /// Whether its connection failed, be it after its end.
    pub(crate) fn is_broken(&self) -> bool
        ensures { result ≡ self.now.broken }
    {
        self.broken
    }

    /// Whether it is to be told something, or ended just now, if this says whether it had ended before.
    pub(crate) fn is_stirred(&self, had_ended: bool) -> bool
        ensures none_due { result ≡ false → self.now.due ≡ 0 }
        ensures still { result ≡ false → is_some self.now.ending ≡ had_ended }
    {
        self.inbox.due > 0 || self.ending.is_some() != had_ended
    }

    /// Whether it has ended.
    pub(crate) fn has_ended(&self) -> bool
        ensures { result ≡ is_some self.now.ending }
    {
        self.ending.is_some()
    }

    /// Its connection took this many bytes of its outcomes.
    pub(crate) fn sent(&mut self, count: usize)
        requires { count ≤ length self.old.outcomes }
        ensures { self.new ≡ record self.old { outcomes = drop count self.old.outcomes } }
    {
        forget_front(&mut self.outcomes, count);
    }
}

/// Takes a piece of what comes from a client: its bytes at the front of a chunk, its end, or that
/// its connection failed. At a fault of its own it ends; nobody else notices. Of a client that has
/// ended nothing is taken but this failure. Answers whether it goes on and a frame became whole.
///
/// Fails if memory is refused.
pub(crate) fn hear<S: CheckpointStore, K: Keeper>(
    chunk: &[u8],
    read: Option<usize>,
    client: &mut Client,
    primary: &mut Primary<S, K>,
) -> Result<bool, AllocError>
    requires count { IfSome read (λ count. count ≤ length chunk.now) }
    requires sound { IsSound (length primary.old.log) client.old }
    ensures sound { OnOk result (IsSound (length primary.new.log) client.new) }
    ensures heard { OnOk result (HearsClient (opening_rows_of primary.old) primary.old.log client.old
        (piece_of chunk.now read) primary.new.log client.new) }
    // If memory is refused the log is that of frames that came.
    ensures stopped { OnErr result (StopsHearing (opening_rows_of primary.old) primary.old.log client.old
        (piece_of chunk.now read) primary.new.log) }
    ensures limits { client.new.limits ≡ client.old.limits }
    ensures outcomes { client.new.outcomes ≡ client.old.outcomes }
    // Its asks are counted, as the bank counts them.
    ensures counted { AddsCounts client.old.counts (counts_since primary.new.counts primary.old.counts)
        client.new.counts }
    ensures whole { IfOk result (λ has_frame. IsTrue has_frame
        ↔ BringsFrame client.old (piece_of chunk.now read) client.new) }
    // One that has ended stays as it ended.
    ensures over { is_some client.old.ending ≡ true → client.new.ending ≡ client.old.ending }
    ensures numbered { NumbersAsks K.model primary.old primary.new }
{
    match read {
        None => {
            hear_failure(client);
            Ok(false)
        }
        Some(_) if client.has_ended() => Ok(false),
        Some(0) => {
            hear_end(client);
            Ok(false)
        }
        Some(count) => hear_bytes(&chunk[..count], client, primary),
    }
}

// The connection of a client failed, which ends it unless it has ended.
fn hear_failure(client: &mut Client)
    ensures { client.new ≡ record client.old { ending = ending_at_failure client.old.ending; broken = true } }
{
    client.broken = true;
    client.ending = client.ending.or(Some(Err(SessionFault::Device)));
}

// Takes the end of a client, which comes behind a whole frame or not.
fn hear_end(client: &mut Client)
    requires on { client.old.ending ≡ None }
    requires healthy { client.old.stream.failed ≡ false }
    ensures { client.new ≡ record client.old { ending = Some (ending_of client.old.stream.unread) } }
{
    let ending = match client.inbox.stream.ended() {
        true => Ok(()),
        false => Err(SessionFault::Frame(FrameFault::Short)),
    };
    client.ending = Some(ending);
}

// Takes bytes of a client, and answers whether it goes on and a frame became whole.
fn hear_bytes<S: CheckpointStore, K: Keeper>(
    bytes: &[u8],
    client: &mut Client,
    primary: &mut Primary<S, K>,
) -> Result<bool, AllocError>
    requires some { 0 < length bytes.now }
    requires on { client.old.ending ≡ None }
    requires sound { IsSound (length primary.old.log) client.old }
    ensures sound { OnOk result (IsSound (length primary.new.log) client.new) }
    ensures heard { OnOk result (HearsClient (opening_rows_of primary.old) primary.old.log client.old
        (Some bytes.now) primary.new.log client.new) }
    // If memory is refused the log is that of frames that came.
    ensures stopped { OnErr result (StopsHearing (opening_rows_of primary.old) primary.old.log client.old
        (Some bytes.now) primary.new.log) }
    ensures limits { client.new.limits ≡ client.old.limits }
    ensures outcomes { client.new.outcomes ≡ client.old.outcomes }
    ensures counted { AddsCounts client.old.counts (counts_since primary.new.counts primary.old.counts)
        client.new.counts }
    ensures whole { IfOk result (λ has_frame. IsTrue has_frame ↔ BringsFrame client.old (Some bytes.now) client.new) }
    ensures numbered { NumbersAsks K.model primary.old primary.new }
{
    let before = primary.counts();
    let taken = take_bytes(bytes, client.limits.asks, &mut client.inbox, primary);
    client.counts.add(&primary.counts().since(&before));
    match taken {
        Ok(has_frame) => Ok(has_frame),
        Err(fault) => {
            client.ending = Some(Err(own_fault(fault)?));
            Ok(false)
        }
    }
}

// The fault of a client, which want of memory isn't.
fn own_fault(fault: SessionFault) -> Result<SessionFault, AllocError>
    ensures own { IfOk result (λ own. (own ≡ fault) × (fault ≢ faults.OutOfMemory)) }
    ensures memory { OnErr result (fault ≡ faults.OutOfMemory) }
{
    match fault {
        SessionFault::OutOfMemory => Err(AllocError),
        _ => Ok(fault),
    }
}

/// Gives a client the outcomes that are due to it, by a log that is executed and kept. One that
/// leaves too many unread ends.
///
/// Fails if memory is refused.
pub(crate) fn tell_client<S: CheckpointStore, K: Keeper>(
    client: &mut Client,
    primary: &Primary<S, K>,
) -> Result<(), AllocError>
    requires whole_log { HasWholeLog primary.now }
    requires kept { K.model.Keeps primary.now.keeper primary.now.log }
    requires sound { IsSound (length primary.now.log) client.old }
    ensures sound { OnOk result (IsSound (length primary.now.log) client.new) }
    ensures none_due { OnOk result (client.new.due ≡ 0) }
    ensures counts { client.new.counts ≡ client.old.counts }
    ensures limits { client.new.limits ≡ client.old.limits }
    ensures told { OnOk result (TellsClient (opening_rows_of primary.now) primary.now.log client.old client.new) }
{
    client.inbox.push_due(primary, &mut client.outcomes)?;
    client.ending = ending_by(client.ending, client.outcomes.len(), client.limits.unread);
    Ok(())
}

// How a client ends that leaves this many bytes unread, where so many may be, and ended so or goes
// on.
fn ending_by(
    ending: Option<Result<(), SessionFault>>,
    unread: usize,
    most: usize,
) -> Option<Result<(), SessionFault>>
    ensures ends { (result ≡ ending)
        ⊎ ((ending ≡ None) × (result ≡ Some (Err faults.Device)) × (most < unread)) }
    ensures few { result ≡ None → unread ≤ most }
{
    if ending.is_none() && unread > most {
        return Some(Err(SessionFault::Device));
    }
    ending
}
