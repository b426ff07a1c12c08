//! A client that asks batches, over as many connections as that takes.
ghost use Rattle.std.specs.Prelude.{◌≡◌, ◌≢◌, ℕ, ◌<◌, ◌≤◌, ◌+◌, List, [], ◌∷◌, ◌++◌, None, Option, Ok, IfErr, IfOk, OnOk, OnErr, length};
ghost use Rattle.std.specs.Io.KnownBytes.{Appends, Consumes, IsAtEnd};
ghost use Rattle.sb_calls.specs.Call.{call_of};
ghost use Rattle.sb_calls.specs.declared.call.Call.{Call as AnyCall};
ghost use Rattle.sb_frames.specs.declared.frame.AskOutcome.{AskOutcome as AnyOutcome};
ghost use Rattle.ask_client.specs.Asking.{LeavesAll};
ghost use Rattle.ask_client.specs.Batches.{BatchOf as AnyBatch};
ghost use Rattle.ask_client.specs.Connections.{BringsAll, DialerStreams};
ghost use Rattle.ask_client.specs.inner.Progress.{BringsSoFar, IsBatchFault, IsHangUpFault, IsLineFault, TellsMore, TellsOver, ask_state};

use crate::ask_fault::AskFault;
use crate::batch::{Batch, BatchFault};
use crate::conversation::converse;
use crate::dialer::Dialer;
use crate::plan::AskPlan;
use crate::sending::write_and_flush;
use crate::server_stream::ServerStream;
use crate::talk_fault::TalkFault;
use sb_calls::read_call;
use sb_text::READS;
use std::alloc::Global;
use std::io::{ErrorKind, Read, Write};
use std::net::{OpenStream, Shutdown};

/// A client gives up after this many connections in a row that brought no outcome.
pub(crate) const CONNECTIONS: usize = 10;

/// A client, the calls that have no outcome yet, and the connection that is open.
#[derive(Drop)]
pub(crate) struct Asker<R, W> {
    pub(crate) alloc: Global,
    pub(crate) plan: AskPlan,
    pub(crate) batch: Batch,
    pub(crate) stream: Option<ServerStream<R, W>>,
    // What is sent of a batch, and the lines of its outcomes.
    bytes: Vec<u8>,
    lines: Vec<u8>,
}

impl<R: Read, W: Write> Asker<R, W> {
    /// A client that has asked nothing yet.
    pub(crate) fn new(alloc: Global, plan: AskPlan) -> Asker<R, W>
        ensures batch { result.batch ≡ record { client = plan.client; first = plan.first; calls = [] } }
        ensures stream { result.stream ≡ None }
        ensures plan { result.plan ≡ plan }
    {
        Asker {
            alloc,
            plan,
            batch: Batch::new(alloc, plan.client, plan.first),
            stream: None,
            bytes: Vec::new(alloc),
            lines: Vec::new(alloc),
        }
    }

    /// Puts a line's call into the batch.
    ///
    /// Fails with [`AskFault::Line`], [`AskFault::NoNumber`] or [`AskFault::OutOfMemory`]. Nothing
    /// changes then.
    pub(crate) fn push_line(&mut self, line: &[u8]) -> Result<(), AskFault>
        ensures pushed { OnOk result ((call : AnyCall) × (call_of line.now ≡ Ok call)
            × (self.new.batch ≡ record self.old.batch { calls = self.old.batch.calls ++ call ∷ [] })) }
        ensures refused { OnErr result (self.new.batch ≡ self.old.batch) }
        ensures stream { self.new.stream ≡ self.old.stream }
        ensures plan { self.new.plan ≡ self.old.plan }
        ensures fault { IfErr result (IsLineFault self.old.plan.first self.old.batch line.now) }
    {
        let number = self.batch.next().saturating_sub(u64::from(self.plan.first)) + 1;
        let call = match read_call(line) {
            Ok(call) => call,
            Err(fault) => {
                return Err(AskFault::Line {
                    line: number,
                    fault,
                });
            }
        };
        match self.batch.push(&call) {
            Ok(()) => Ok(()),
            Err(BatchFault::NoNumber) => Err(AskFault::NoNumber(number)),
            Err(BatchFault::OutOfMemory) => Err(AskFault::OutOfMemory),
        }
    }

    /// Asks the batch, over as many connections as that takes, and prints the line of each outcome.
    ///
    /// Fails with [`AskFault::Connection`], [`AskFault::Unexpected`], [`AskFault::Output`] or
    /// [`AskFault::OutOfMemory`]. The calls without an outcome stay in the batch then.
    pub(crate) fn ask_batch<D, O>(&mut self, dialer: &mut D, output: &mut O) -> Result<(), AskFault>
    where
        D: Dialer<Reader = R, Writer = W>,
        O: Write,
        ensures tells { TellsMore R.remaining result
            (ask_state (D.streams dialer.old) self.old.stream self.old.batch (O.contents output.old))
            (ask_state (D.streams dialer.new) self.new.stream self.new.batch (O.contents output.new)) }
        ensures all { OnOk result (self.new.batch.calls ≡ []) }
        ensures plan { self.new.plan ≡ self.old.plan }
        ensures fault { IfErr result (IsBatchFault self.new.batch) }
    {
        for _ in 0..self.batch.len() {
            if self.batch.is_empty() {
                return Ok(());
            }
            self.ask_some(dialer, output)?;
        }
        Ok(())
    }

    // Asks the batch until an outcome has come.
    fn ask_some<D, O>(&mut self, dialer: &mut D, output: &mut O) -> Result<(), AskFault>
    where
        D: Dialer<Reader = R, Writer = W>,
        O: Write,
        requires { self.old.batch.calls ≢ [] }
        ensures tells { TellsMore R.remaining result
            (ask_state (D.streams dialer.old) self.old.stream self.old.batch (O.contents output.old))
            (ask_state (D.streams dialer.new) self.new.stream self.new.batch (O.contents output.new)) }
        ensures some { OnOk result (length self.new.batch.calls < length self.old.batch.calls) }
        ensures plan { self.new.plan ≡ self.old.plan }
        ensures fault { IfErr result (IsBatchFault self.new.batch) }
    {
        let before = self.batch.len();
        for _ in 0..CONNECTIONS {
            self.try_batch(dialer, output)?;
            if self.batch.len() < before {
                return Ok(());
            }
        }
        Err(AskFault::Connection)
    }

    // Asks the batch over the connection that is open, or a new one. If it fails, it is left.
    fn try_batch<D, O>(&mut self, dialer: &mut D, output: &mut O) -> Result<(), AskFault>
    where
        D: Dialer<Reader = R, Writer = W>,
        O: Write,
        ensures tells { TellsMore R.remaining result
            (ask_state (D.streams dialer.old) self.old.stream self.old.batch (O.contents output.old))
            (ask_state (D.streams dialer.new) self.new.stream self.new.batch (O.contents output.new)) }
        ensures plan { self.new.plan ≡ self.old.plan }
        ensures fault { IfErr result (IsBatchFault self.new.batch) }
    {
        let Some(stream) = self.connect(dialer) else {
            return Ok(());
        };
        let talked = self.talk(stream, dialer);
        if write_and_flush(output, &self.lines).is_err() {
            return Err(AskFault::Output);
        }
        after_talk(talked)
    }

    // The connection that is open, or else a new one, if one can be made.
    fn connect<D>(&mut self, dialer: &mut D) -> Option<ServerStream<R, W>>
    where
        D: Dialer<Reader = R, Writer = W>,
        ensures open { (client : ℕ) (start : Option (DialerStreams R W)) (first : ℕ) (told : List AnyOutcome)
            → BringsSoFar R.remaining client start (D.streams dialer.old) self.old.stream first told
            → BringsSoFar R.remaining client start (D.streams dialer.new) result first told }
        ensures batch { self.new.batch ≡ self.old.batch }
        ensures stream { self.new.stream ≡ None }
        ensures plan { self.new.plan ≡ self.old.plan }
    {
        match self.stream.take() {
            Some(stream) => Some(stream),
            None => match dialer.dial() {
                Ok(stream) => Some(stream),
                Err(_) => None,
            },
        }
    }

    // Asks the batch over this connection, which stays open unless it fails, and has the lines of its
    // outcomes.
    fn talk<D>(&mut self, stream: ServerStream<R, W>, dialer: &mut D) -> Result<(), TalkFault>
    where
        D: Dialer<Reader = R, Writer = W>,
        requires { self.old.stream ≡ None }
        ensures tells { TellsOver R.remaining (D.streams dialer.old) stream self.old.batch
            (D.streams dialer.new) self.new.stream self.new.batch self.new.lines.items }
        ensures plan { self.new.plan ≡ self.old.plan }
    {
        self.lines.clear();
        let mut stream = stream;
        let talked = converse(
            self.alloc,
            &mut stream,
            &mut self.batch,
            &mut self.bytes,
            &mut self.lines,
        );
        match talked {
            Ok(()) => self.stream = Some(stream),
            Err(_) => dialer.leave(stream),
        }
        talked
    }

    /// Ends the connection that is open, and waits until the server has ended it too. There is none if
    /// nothing was asked.
    ///
    /// Fails with [`AskFault::End`] if the connection fails before, and with [`AskFault::Unexpected`]
    /// if something more comes over it. It is left in any case.
    pub(crate) fn end<D>(&mut self, dialer: &mut D) -> Result<(), AskFault>
    where
        D: Dialer<Reader = R, Writer = W>,
        R: OpenStream,
        ensures ended { (start : Option (DialerStreams R W)) (told : List AnyOutcome)
            → self.old.batch.first ≡ self.old.plan.first + length told
            → BringsSoFar R.remaining self.old.batch.client start (D.streams dialer.old) self.old.stream
            self.old.plan.first told
            → BringsAll R.remaining self.old.batch.client (LeavesAll R.remaining result told) start
            (D.streams dialer.new) self.old.plan.first told }
        ensures fault { IfErr result IsHangUpFault }
    {
        let Some(stream) = self.stream.take() else {
            if self.batch.first() > u64::from(self.plan.first) {
                return Err(AskFault::End);
            }
            return Ok(());
        };
        let mut stream = stream;
        let ended = hear_end(&mut stream.reader);
        dialer.leave(stream);
        ended
    }

    /// Leaves the connection that is open, if one is.
    pub(crate) fn leave_server<D>(&mut self, dialer: &mut D)
    where
        D: Dialer<Reader = R, Writer = W>,
        ensures { (client : ℕ) (start : Option (DialerStreams R W)) (first : ℕ) (told : List AnyOutcome)
            → BringsSoFar R.remaining client start (D.streams dialer.old) self.old.stream first told
            → BringsAll R.remaining client (λ left. Unit {0}) start (D.streams dialer.new) first told }
    {
        if let Some(stream) = self.stream.take() {
            dialer.leave(stream);
        }
    }
}

// A batch can be asked again after a connection that failed, and isn't after any other fault.
fn after_talk(talked: Result<(), TalkFault>) -> Result<(), AskFault>
    ensures { (left : AnyBatch) → IfErr result (IsBatchFault left) }
{
    match talked {
        Ok(()) | Err(TalkFault::Connection) => Ok(()),
        Err(TalkFault::Unexpected) => Err(AskFault::Unexpected),
        Err(TalkFault::OutOfMemory) => Err(AskFault::OutOfMemory),
    }
}

// Ends a connection, and waits until the server has ended it too.
fn hear_end<R: Read + OpenStream>(reader: &mut R) -> Result<(), AskFault>
    ensures taken { (rest : List ℕ) × Consumes (R.remaining reader.old) (R.remaining reader.new) rest
        × OnOk result ((rest ≡ []) × IsAtEnd (R.remaining reader.new)) }
    ensures fault { IfErr result IsHangUpFault }
{
    if reader.shutdown(Shutdown::Write).is_err() {
        return Err(AskFault::End);
    }
    let mut byte = [0u8; 1];
    for _ in 0..READS {
        match reader.read(&mut byte) {
            Ok(0) => return Ok(()),
            Ok(_) => return Err(AskFault::Unexpected),
            Err(error) => {
                if error.kind() != ErrorKind::Interrupted {
                    return Err(AskFault::End);
                }
            }
        }
    }
    Err(AskFault::End)
}
