//! Asking a batch over a connection.
ghost use Rattle.std.specs.Prelude.{◌≡◌, ◌≢◌, ◌++◌, [], false, length, MatchResult, OnOk, IfErr, ℕ, List};
ghost use Rattle.sb_frames.specs.Grammar.{spelling};
ghost use Rattle.sb_frames.specs.declared.frame.AskOutcome.{AskOutcome as AnyOutcome};
ghost use Rattle.sb_frames.specs.declared.frame.Frame.TheVariants.{Outcome};
ghost use Rattle.ask_client.specs.Batches.{batch_bytes};
ghost use Rattle.ask_client.specs.Conversations.{EndsTalk, Hears, TellsFirst};
ghost use Rattle.ask_client.specs.Writes.{WritesFront};
ghost use Rattle.ask_client.specs.inner.Telling.{TakesOutcomes, TellsFrame};

use crate::batch::Batch;
use crate::outcome_lines::push_outcome_line;
use crate::sending::write_and_flush;
use crate::server_stream::ServerStream;
use crate::talk_fault::TalkFault;
use sb_frames::{Frame, Stream};
use sb_text::READS;
use std::alloc::Global;
use std::io::{ErrorKind, Read, Write};

// How many bytes one read asks for.
const CHUNK: usize = 8_192;

/// Asks a batch over a connection, and takes its outcomes: the asks and a flush are written, and then
/// an outcome of each ask is read, in order. The line of each outcome is appended, and its call leaves
/// the batch. What is written goes through `bytes`, whose old bytes are lost.
///
/// Fails with
/// - [`TalkFault::Connection`] if a write or a read fails, or the server ends the connection,
/// - [`TalkFault::Unexpected`] if bytes come that are no outcome of the next ask, or follow the last,
/// - [`TalkFault::OutOfMemory`] if memory is refused.
///
/// The lines of the outcomes that came before the fault are appended, and their calls have left the
/// batch. Nothing but the frames of outcomes has a line.
pub fn converse<R: Read, W: Write>(
    alloc: Global,
    stream: &mut ServerStream<R, W>,
    batch: &mut Batch,
    bytes: &mut Vec<u8>,
    lines: &mut Vec<u8>,
) -> Result<(), TalkFault>
    ensures sent { WritesFront result (batch_bytes batch.old)
        (W.contents stream.old.writer) (W.contents stream.new.writer) }
    ensures heard { Hears batch.old result (R.remaining stream.old.reader) (R.remaining stream.new.reader)
        lines.old.items lines.new.items batch.new }
{
    send_batch(batch, bytes, &mut stream.writer)?;
    hear(alloc, &mut stream.reader, batch, lines)
}

// Writes the asks of a batch, and a flush.
fn send_batch<W: Write>(batch: &Batch, bytes: &mut Vec<u8>, writer: &mut W) -> Result<(), TalkFault>
    ensures sent { WritesFront result (batch_bytes batch.now) (W.contents writer.old) (W.contents writer.new) }
    ensures fault { IfErr result (λ fault. fault ≢ TalkFault.Unexpected) }
{
    bytes.clear();
    batch.spell(bytes)?;
    match write_and_flush(writer, bytes) {
        Ok(()) => Ok(()),
        Err(_) => Err(TalkFault::Connection),
    }
}

// Takes the outcomes of a batch.
fn hear<R: Read>(
    alloc: Global,
    reader: &mut R,
    batch: &mut Batch,
    lines: &mut Vec<u8>,
) -> Result<(), TalkFault>
    ensures { Hears batch.old result (R.remaining reader.old) (R.remaining reader.new)
        lines.old.items lines.new.items batch.new }
{
    let mut frames = Stream::new(alloc);
    let mut chunk = [0u8; CHUNK];
    for _ in 0..READS {
        if batch.is_empty() {
            return Ok(());
        }
        match reader.read(&mut chunk) {
            Ok(0) => return Err(TalkFault::Connection),
            Ok(count) => take_bytes(&chunk[..count], &mut frames, batch, lines)?,
            Err(error) => {
                if error.kind() != ErrorKind::Interrupted {
                    return Err(TalkFault::Connection);
                }
            }
        }
    }
    Err(TalkFault::Connection)
}

// Takes the bytes of one read, and each outcome that is whole by then.
fn take_bytes(
    bytes: &[u8],
    frames: &mut Stream,
    batch: &mut Batch,
    lines: &mut Vec<u8>,
) -> Result<(), TalkFault>
    requires { frames.old.failed ≡ false }
    ensures { TakesOutcomes batch.old result (frames.old.unread ++ bytes.now) frames.new
        lines.old.items lines.new.items batch.new }
{
    if frames.feed(bytes).is_err() {
        // It hadn't failed.
        return Err(TalkFault::OutOfMemory);
    }
    take_frames(frames, batch, lines)
}

// Takes each outcome that is whole.
fn take_frames(frames: &mut Stream, batch: &mut Batch, lines: &mut Vec<u8>) -> Result<(), TalkFault>
    requires { frames.old.failed ≡ false }
    ensures { TakesOutcomes batch.old result frames.old.unread frames.new
        lines.old.items lines.new.items batch.new }
{
    for _ in 0..batch.len() {
        match frames.next() {
            Ok(Some(frame)) => tell_outcome(&frame, batch, lines)?,
            Ok(None) => return Ok(()),
            Err(_) => return Err(TalkFault::Unexpected),
        }
    }
    // Each call has its outcome.
    if !frames.ended() {
        return Err(TalkFault::Unexpected);
    }
    Ok(())
}

// Tells the outcome of the batch's first call.
fn tell_outcome(frame: &Frame, batch: &mut Batch, lines: &mut Vec<u8>) -> Result<(), TalkFault>
    requires { batch.old.calls ≢ [] }
    ensures { TellsFrame batch.old frame.now result lines.old.items lines.new.items batch.new }
{
    let Some(outcome) = batch.outcome_in(frame) else {
        return Err(TalkFault::Unexpected);
    };
    push_outcome_line(batch.first(), outcome, lines)?;
    batch.pop_first();
    Ok(())
}
