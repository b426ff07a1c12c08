//! A batch of calls.
ghost use Rattle.std.specs.Prelude.{◌≡◌, ◌≢◌, ◌↔◌, ◌+◌, ◌<◌, ◌≤◌, ◌^◌, [], ◌∷◌, ◌++◌, length, IfErr, IsTrue, MatchOption, OnErr, OnOk};
ghost use Rattle.sb_frames.specs.declared.frame.AskOutcome.{AskOutcome as AnyOutcome};
ghost use Rattle.sb_frames.specs.Grammar.{spelling};
ghost use Rattle.sb_frames.specs.declared.frame.Frame.TheVariants.{Ask, Outcome};
ghost use Rattle.ask_client.specs.Batches.{after_outcomes, batch_bytes};
ghost use Rattle.ask_client.specs.inner.BatchNumbers.{HasNumbers};
ghost use Rattle.ask_client.specs.declared.batch.BatchFault.TheVariants.{NoNumber, OutOfMemory};

use sb_calls::Call;
use sb_frames::{AskOutcome, Frame, encode};
use std::alloc::{AllocError, Global};
use std::marker::Model;
use std::slice;
use thiserror::Error;

// There are as many request numbers.
const NUMBERS: u64 = 1 << 32;

/// Why a call isn't put into a batch, which stays as it was.
#[derive(Clone, Copy, Debug, PartialEq, Eq, Error)]
pub enum BatchFault {
    /// No request number is left for it.
    #[error("no request number is left")]
    NoNumber,
    /// Memory was refused.
    #[error("out of memory")]
    OutOfMemory,
}

impl From<AllocError> for BatchFault {
    ghost use Rattle.std.specs.Prelude.{◌≡◌};

    ghost from_gives = { λ _ fault. fault ≡ OutOfMemory };

    fn from(_: AllocError) -> BatchFault {
        BatchFault::OutOfMemory
    }
}

/// Calls of a client that have no outcome yet, under request numbers in a row.
#[derive(Drop)]
pub struct Batch {
    client: u32,
    // The request number of the first call without an outcome. After the last number it is 2^32.
    first: u64,
    // The calls, and how many of them have their outcome.
    calls: Vec<Call>,
    told: usize,
}

impl Model for Batch {
    ghost use Rattle.std.specs.Prelude.{◌≤◌, length, drop};
    ghost use Rattle.ask_client.specs.Batches.{BatchOf};
    ghost use Rattle.ask_client.specs.inner.BatchNumbers.{HasNumbers};

    ghost Value = { BatchOf };

    ghost view = { λ b. record { client = b.client; first = b.first; calls = drop b.told b.calls.items } };

    ghost invariant = { λ b. (b.told ≤ length b.calls.items)
        × HasNumbers (record { client = b.client; first = b.first; calls = drop b.told b.calls.items }) };
}

impl Batch {
    /// No calls yet of a client, whose first one will have this request number. It allocates nothing.
    pub fn new(alloc: Global, client: u32, first: u32) -> Batch
        ensures { result ≡ record { client = client; first = first; calls = [] } }
    {
        Batch {
            client,
            first: u64::from(first),
            calls: Vec::new(alloc),
            told: 0,
        }
    }

    /// How many calls have no outcome yet.
    pub fn len(&self) -> usize
        ensures { result ≡ length self.now.calls }
    {
        self.calls.len() - self.told
    }

    /// Whether all calls have their outcome.
    pub fn is_empty(&self) -> bool
        ensures { IsTrue result ↔ (self.now.calls ≡ []) }
    {
        self.len() == 0
    }

    /// The request number of the first call without an outcome, or of the next call if all have
    /// theirs. It is 2^32 if no number is left.
    pub fn first(&self) -> u64
        ensures { result ≡ self.now.first }
    {
        self.first
    }

    /// The request number of the next call. It is 2^32 if no number is left.
    pub fn next(&self) -> u64
        ensures value { result ≡ self.now.first + length self.now.calls }
        ensures within { result ≤ 2 ^ 32 }
    {
        self.first + self.len() as u64
    }

    /// Adds a call, which has the next request number.
    ///
    /// Fails with [`BatchFault::NoNumber`] if none is left, and with [`BatchFault::OutOfMemory`] if
    /// memory is refused. Nothing changes then.
    pub fn push(&mut self, call: &Call) -> Result<(), BatchFault>
        ensures pushed { OnOk result (self.new ≡ record self.old { calls = self.old.calls ++ call.now ∷ [] }) }
        ensures refused { OnErr result (self.new ≡ self.old) }
        ensures fault { IfErr result (λ fault. fault ≡ NoNumber
            → self.old.first + length self.old.calls ≡ 2 ^ 32) }
    {
        if self.next() == NUMBERS {
            return Err(BatchFault::NoNumber);
        }
        self.drop_told();
        Ok(self.calls.extend_from_slice(slice::from_ref(call))?)
    }

    // Makes room of the calls that have their outcome, once all have.
    fn drop_told(&mut self)
        ensures { self.new ≡ self.old }
    {
        if self.told == self.calls.len() {
            self.calls.clear();
            self.told = 0;
        }
    }

    /// The outcome in a frame, if it is that of the first call's ask.
    pub fn outcome_in(&self, frame: &Frame) -> Option<AskOutcome>
        ensures { MatchOption result
            ((outcome : AnyOutcome) → frame.now ≢ Outcome self.now.client self.now.first outcome)
            (λ outcome. frame.now ≡ Outcome self.now.client self.now.first outcome) }
    {
        match frame {
            Frame::Outcome {
                client,
                request,
                outcome,
            } if *client == self.client && u64::from(*request) == self.first => Some(*outcome),
            _ => None,
        }
    }

    /// Takes the first call away, which has its outcome.
    pub fn pop_first(&mut self)
        requires { self.old.calls ≢ [] }
        ensures { self.new ≡ after_outcomes 1 self.old }
    {
        self.told += 1;
        self.first += 1;
    }

    /// Appends what is sent of a batch: the frame of each call's ask, and a flush.
    ///
    /// Fails if memory is refused; a part may stand behind the old bytes then.
    pub fn spell(&self, bytes: &mut Vec<u8>) -> Result<(), AllocError>
        ensures { OnOk result (bytes.new.items ≡ bytes.old.items ++ batch_bytes self.now) }
    {
        let mut request = self.first;
        for call in &self.calls[self.told..] {
            push_request(self.client, request, call, bytes)?;
            request += 1;
        }
        bytes.extend_from_slice(&encode(&Frame::Flush))
    }
}

// Appends the frame of an ask.
fn push_request(
    client: u32,
    request: u64,
    call: &Call,
    bytes: &mut Vec<u8>,
) -> Result<(), AllocError>
    requires { request < 2 ^ 32 }
    ensures { OnOk result (bytes.new.items ≡ bytes.old.items ++ spelling (Ask client request call.now)) }
{
    bytes.extend_from_slice(&encode(&Frame::Ask {
        client,
        request: request as u32,
        call: *call,
    }))
}
