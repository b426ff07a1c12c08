//! Asking the lines of an input.
ghost use Rattle.std.specs.Prelude.{◌≡◌, ℕ, ◌≤◌, List, [], ◌∷◌, ◌++◌, None, Option, Some, Ok, Err, IfErr, IfOk, IfSome, OnOk, drop, length, MatchResult};
ghost use Rattle.sb_rows.specs.Text.{lines};
ghost use Rattle.ask_client.specs.Asking.{AsksLines};
ghost use Rattle.ask_client.specs.inner.Progress.{AskStart, AskStep, HasAsked, HasRun, HasStopped, HasTold, IsBatchFault, TellsMore, ask_state};
ghost use Rattle.ask_client.specs.inner.Reading.{HasNoLineEnd, last_lines};

use crate::ask_fault::AskFault;
use crate::asker::Asker;
use crate::dialer::Dialer;
use crate::plan::AskPlan;
use memchr::memchr;
use sb_text::READS;
use std::alloc::Global;
use std::io::{ErrorKind, Read, Write};

// How many bytes one read asks for.
const CHUNK: usize = 65_536;

/// Asks the call lines of an input as they come, and prints the line of each outcome.
///
/// Each read of the input gives some whole lines; a last line may lack its line feed. Their calls are
/// asked under the client's number and the next request numbers, in batches, and are told before the
/// next read. If a connection fails, what has no outcome yet is asked again over the next one: the
/// same key is never executed twice. At the end of the input the client ends its side, and waits until
/// the server has ended its own.
///
/// Fails with
/// - [`AskFault::Line`] at the first line that is no call, and [`AskFault::NoNumber`] at the first one
///   without a request number,
/// - [`AskFault::Unexpected`] if the server sends anything but the outcomes,
/// - [`AskFault::Connection`] if 10 connections in a row bring no outcome,
/// - [`AskFault::End`] if the last connection fails before the server has ended it,
/// - [`AskFault::Input`] if a read of the input fails or there are more than [`READS`],
/// - [`AskFault::Output`] if a write fails,
/// - [`AskFault::OutOfMemory`] if memory is refused.
pub fn ask_all<D, I, O>(
    alloc: Global,
    plan: AskPlan,
    input: &mut I,
    dialer: &mut D,
    output: &mut O,
) -> Result<(), AskFault>
where
    D: Dialer,
    I: Read,
    O: Write,
    // The outcomes of the input's first calls came over the connections, and just their lines were
    // printed: of all calls if there is no fault, and otherwise of as many as the fault says.
    ensures { IfSome (I.remaining input.old) (λ text. AsksLines D.Reader.remaining plan.client plan.first text result
        (D.streams dialer.old) (D.streams dialer.new) (O.contents output.old) (O.contents output.new)) }
{
    let mut asker = Asker::new(alloc, plan);
    match asker.ask_input(input, dialer, output) {
        Ok(()) => asker.end(dialer),
        Err(fault) => {
            asker.leave_server(dialer);
            Err(fault)
        }
    }
}

impl<R: Read, W: Write> Asker<R, W> {
    // Asks all lines of an input.
    fn ask_input<D, I, O>(
        &mut self,
        input: &mut I,
        dialer: &mut D,
        output: &mut O,
    ) -> Result<(), AskFault>
    where
        D: Dialer<Reader = R, Writer = W>,
        I: Read,
        O: Write,
        requires { self.old.batch.calls ≡ [] }
        ensures run { (start : AskStart R W) → start.first ≡ self.old.plan.first
            → HasTold R.remaining start (Ok tt) []
            (ask_state (D.streams dialer.old) self.old.stream self.old.batch (O.contents output.old))
            → IfSome (I.remaining input.old) (λ text. HasRun R.remaining start text result
            (ask_state (D.streams dialer.new) self.new.stream self.new.batch (O.contents output.new))) }
        ensures plan { self.new.plan ≡ self.old.plan }
    {
        let mut text = Vec::new(self.alloc);
        let mut chunk = [0u8; CHUNK];
        for _ in 0..READS {
            match input.read(&mut chunk) {
                Ok(0) => return self.ask_rest(&text, dialer, output),
                Ok(count) => self.ask_piece(&chunk[..count], &mut text, dialer, output)?,
                Err(error) => {
                    if error.kind() != ErrorKind::Interrupted {
                        return Err(AskFault::Input);
                    }
                }
            }
        }
        Err(AskFault::Input)
    }

    // Asks the last line of an input, if it lacks its line feed.
    fn ask_rest<D, O>(
        &mut self,
        text: &[u8],
        dialer: &mut D,
        output: &mut O,
    ) -> Result<(), AskFault>
    where
        D: Dialer<Reader = R, Writer = W>,
        O: Write,
        requires { self.old.batch.calls ≡ [] }
        ensures asked { AskStep R.remaining self.old.plan.first result (λ more. last_lines text.now ++ lines more)
            (ask_state (D.streams dialer.old) self.old.stream self.old.batch (O.contents output.old))
            (λ more. lines more)
            (ask_state (D.streams dialer.new) self.new.stream self.new.batch (O.contents output.new)) }
        ensures all { OnOk result (self.new.batch.calls ≡ []) }
        ensures plan { self.new.plan ≡ self.old.plan }
    {
        if text.is_empty() {
            return Ok(());
        }
        self.ask_line(text, dialer, output)?;
        self.ask_batch(dialer, output)
    }

    // Asks the whole lines that these bytes of an input end, and keeps the rest.
    fn ask_piece<D, O>(
        &mut self,
        bytes: &[u8],
        text: &mut Vec<u8>,
        dialer: &mut D,
        output: &mut O,
    ) -> Result<(), AskFault>
    where
        D: Dialer<Reader = R, Writer = W>,
        O: Write,
        ensures asked { AskStep R.remaining self.old.plan.first result
            (λ more. lines ((text.old.items ++ bytes.now) ++ more))
            (ask_state (D.streams dialer.old) self.old.stream self.old.batch (O.contents output.old))
            (λ more. lines (text.new.items ++ more))
            (ask_state (D.streams dialer.new) self.new.stream self.new.batch (O.contents output.new)) }
        ensures rest { OnOk result (HasNoLineEnd text.new.items) }
        ensures all { OnOk result (self.new.batch.calls ≡ []) }
        ensures plan { self.new.plan ≡ self.old.plan }
    {
        text.extend_from_slice(bytes)?;
        let count = self.ask_lines(text, dialer, output)?;
        forget_front(text, count);
        Ok(())
    }

    // Asks the whole lines of a text, and answers how many bytes they have.
    fn ask_lines<D, O>(
        &mut self,
        text: &[u8],
        dialer: &mut D,
        output: &mut O,
    ) -> Result<usize, AskFault>
    where
        D: Dialer<Reader = R, Writer = W>,
        O: Write,
        ensures asked { (start : AskStart R W) (taken : List ℕ) → start.first ≡ self.old.plan.first
            → HasAsked R.remaining start taken (λ more. lines (text.now ++ more))
            (ask_state (D.streams dialer.old) self.old.stream self.old.batch (O.contents output.old))
            → MatchResult result
            (λ count. HasAsked R.remaining start taken (λ more. lines (drop count text.now ++ more))
            (ask_state (D.streams dialer.new) self.new.stream self.new.batch (O.contents output.new)))
            (λ fault. HasStopped R.remaining start taken fault
            (ask_state (D.streams dialer.new) self.new.stream self.new.batch (O.contents output.new))) }
        ensures rest { IfOk result (λ count. (count ≤ length text.now) × HasNoLineEnd (drop count text.now)) }
        ensures all { OnOk result (self.new.batch.calls ≡ []) }
        ensures plan { self.new.plan ≡ self.old.plan }
    {
        let mut count = 0;
        while let Some(end) = memchr(b'\n', &text[count..]) {
            self.ask_line(&text[count..count + end], dialer, output)?;
            count += end + 1;
        }
        self.ask_batch(dialer, output)?;
        Ok(count)
    }

    // Puts a line's call into the batch, and asks the batch if it is full. If the line is at fault, the
    // calls before it are asked first.
    fn ask_line<D, O>(
        &mut self,
        line: &[u8],
        dialer: &mut D,
        output: &mut O,
    ) -> Result<(), AskFault>
    where
        D: Dialer<Reader = R, Writer = W>,
        O: Write,
        ensures asked { (behind : List ℕ → List (List ℕ)) → AskStep R.remaining self.old.plan.first result
            (λ more. line.now ∷ behind more)
            (ask_state (D.streams dialer.old) self.old.stream self.old.batch (O.contents output.old))
            behind
            (ask_state (D.streams dialer.new) self.new.stream self.new.batch (O.contents output.new)) }
        ensures plan { self.new.plan ≡ self.old.plan }
    {
        match self.push_line(line) {
            Ok(()) => self.ask_full(dialer, output),
            Err(fault) => {
                self.ask_batch(dialer, output)?;
                Err(fault)
            }
        }
    }

    // Asks the batch if it is full.
    fn ask_full<D, O>(&mut self, dialer: &mut D, output: &mut O) -> Result<(), AskFault>
    where
        D: Dialer<Reader = R, Writer = W>,
        O: Write,
        ensures tells { TellsMore R.remaining result
            (ask_state (D.streams dialer.old) self.old.stream self.old.batch (O.contents output.old))
            (ask_state (D.streams dialer.new) self.new.stream self.new.batch (O.contents output.new)) }
        ensures plan { self.new.plan ≡ self.old.plan }
        ensures fault { IfErr result (IsBatchFault self.new.batch) }
    {
        if self.batch.len() < self.plan.batch {
            return Ok(());
        }
        self.ask_batch(dialer, output)
    }
}

// Forgets this many bytes, the first ones.
fn forget_front(text: &mut Vec<u8>, count: usize)
    requires { count ≤ length text.old.items }
    ensures { text.new.items ≡ drop count text.old.items }
{
    text.drain(..count);
}
