//! A client's session.
ghost use Rattle.std.specs.Prelude.{◌≡◌, ◌≤◌, ◌<◌, ◌⊎◌, [], ◌∷◌, Some, length, IfErr, IfNone, IfSome, OnErr, OnOk};
ghost use Rattle.std.specs.Io.KnownBytes.{Consumes, IsAtEnd};
ghost use Rattle.bank_server.specs.Clients.{IsSound, bytes_of, piece_of};
ghost use Rattle.bank_server.specs.Primary.{HasWholeLog, opening_rows_of};
ghost use Rattle.bank_server.specs.inner.ClientTurns.{StopsHearing};
ghost use Rattle.bank_server.specs.inner.FlushFaults.{IsFlushFault};
ghost use Rattle.bank_server.specs.inner.SessionSteps.{ServesPiece};
ghost use Rattle.bank_server.specs.ServesOn.{ServesOn};
ghost use Rattle.bank_server.specs.SessionFaults.{IsClientFault};
ghost use Rattle.bank_server.specs.SessionResults.{ServesSession, ServesUntilFault};

use super::READ_BYTES;
use super::client::{Client, tell_client};
use super::client_limits::ClientLimits;
use super::session_fault::SessionFault;
use super::telling::{OutcomeWriter, settle_and_keep};
use super::turns::stir;
use crate::node0::Primary;
use cown_workers::Crew;
use sb_ask_log::Keeper;
use sb_checkpoint::CheckpointStore;
use sb_text::READS;
use std::alloc::Global;
use std::io::{ErrorKind, Read, Write};

/// Serves one client, from its first byte to its last. Each ask is numbered and offered to node 0.
/// After a read with a flush node 0 executes the whole log, and the client gets the outcome of each
/// ask since the previous flush, up to the last flush of the read.
///
/// Every whole frame that was read is handled before the next read. Asks after the last flush are
/// numbered and executed, but their client gets no outcome.
///
/// Fails with
/// - [`SessionFault::Frame`] if bytes come that no frame begins with, or the last frame isn't
///   whole,
/// - [`SessionFault::Unexpected`] if a frame comes that is neither an ask nor a flush,
/// - [`SessionFault::TooMany`] if an ask comes and 2,000,000 wait for a flush ([`ClientLimits::alone`]),
/// - [`SessionFault::CrewGone`] if the crew leaves something unfinished,
/// - [`SessionFault::Device`] if a read or a write fails, or the client takes more than [`READS`]
///   reads,
/// - [`SessionFault::OutOfMemory`] if memory is refused,
/// - [`SessionFault::Log`] if the log can't be kept, in place of any other fault.
///
/// The log has what was numbered by then. It is kept before an outcome is told, and at the end,
/// also after a fault of the client: then another session can be served.
pub fn serve_session<R: Read, W: Write, S: CheckpointStore, K: Keeper, C: Crew>(
    alloc: Global,
    reader: &mut R,
    writer: &mut W,
    primary: &mut Primary<S, K>,
    crew: &mut C,
) -> Result<(), SessionFault>
    // Everything that was read was asks and flushes; the log is that of the session, and its
    // outcomes are written.
    ensures served { OnOk result (IfSome (R.remaining reader.old) (ServesSession (opening_rows_of primary.old)
        primary.old.log primary.new.log (W.contents writer.old) (W.contents writer.new))) }
    ensures whole_log { OnOk result (HasWholeLog primary.new) }
    // After a fault the log is that of the first frames of the session, and the fault came after
    // them.
    ensures cut_short { IfErr result (λ fault. IfSome (R.remaining reader.old) (λ input.
        ServesUntilFault (opening_rows_of primary.old) primary.old.log primary.new.log (W.contents writer.old)
        (W.contents writer.new) input fault)) }
    // The whole log is kept, also after a fault of the client.
    ensures kept { OnOk result (K.model.Keeps primary.new.keeper primary.new.log) }
    ensures kept_after_fault { IfErr result (λ fault. IsClientFault fault
        → K.model.Keeps primary.new.keeper primary.new.log) }
    // What was kept stays kept, and a crew that keeps no job leaves none out, after a fault too.
    ensures serves { ServesOn K.model C.keeps result primary.old primary.new }
{
    let mut outcomes = OutcomeWriter::new(writer);
    let served = serve_pieces(alloc, reader, &mut outcomes, primary, crew);
    // What was numbered is kept, whatever ended the session.
    primary.keep()?;
    served
}

// Serves one client, up to its end. After a fault not all that was numbered is kept yet.
fn serve_pieces<R: Read, W: Write, S: CheckpointStore, K: Keeper, C: Crew>(
    alloc: Global,
    reader: &mut R,
    writer: &mut OutcomeWriter<'_, W>,
    primary: &mut Primary<S, K>,
    crew: &mut C,
) -> Result<(), SessionFault>
    ensures served { OnOk result (IfSome (R.remaining reader.old) (ServesSession (opening_rows_of primary.old)
        primary.old.log primary.new.log (W.contents writer.old.writer.now) (W.contents writer.new.writer.now))) }
    ensures whole_log { OnOk result (HasWholeLog primary.new) }
    ensures cut_short { IfErr result (λ fault. IfSome (R.remaining reader.old) (λ input.
        ServesUntilFault (opening_rows_of primary.old) primary.old.log primary.new.log
        (W.contents writer.old.writer.now) (W.contents writer.new.writer.now) input fault)) }
    ensures same_writer { writer.new.writer.ghost_name ≡ writer.old.writer.ghost_name }
    // The bank goes on, after a fault too.
    ensures serves { ServesOn K.model C.keeps result primary.old primary.new }
{
    primary.settle(crew)?;
    let mut client = Client::new(alloc, ClientLimits::alone());
    let mut chunk = [0u8; READ_BYTES];
    for _ in 0..READS {
        let Some(read) = read_piece(reader, &mut chunk) else {
            continue;
        };
        serve_piece(&chunk, read, &mut client, writer, primary, crew)?;
        if let Some(ending) = client.ending() {
            return ending;
        }
    }
    Err(SessionFault::Device)
}

// Reads a piece: how many bytes, or none if the read failed. `None` altogether if it was interrupted.
fn read_piece<R: Read>(reader: &mut R, chunk: &mut [u8]) -> Option<Option<usize>>
    requires room { 0 < length chunk.old }
    ensures within { IfSome result (λ read. IfSome read (λ count. count ≤ length chunk.new)) }
    ensures bytes { IfSome result (λ read. Consumes (R.remaining reader.old) (R.remaining reader.new)
        (bytes_of (piece_of chunk.new read ∷ []))) }
    ensures end { IfSome result (λ read. piece_of chunk.new read ≡ Some [] → IsAtEnd (R.remaining reader.new)) }
    ensures none { IfNone result (Consumes (R.remaining reader.old) (R.remaining reader.new) []) }
{
    match reader.read(chunk) {
        Ok(count) => Some(Some(count)),
        Err(error) => {
            if error.kind() == ErrorKind::Interrupted {
                None
            } else {
                Some(None)
            }
        }
    }
}

// A turn of a client that is served alone: takes a piece of what comes from it, and writes what it
// is told.
fn serve_piece<W: Write, S: CheckpointStore, K: Keeper, C: Crew>(
    chunk: &[u8],
    read: Option<usize>,
    client: &mut Client,
    writer: &mut OutcomeWriter<'_, W>,
    primary: &mut Primary<S, K>,
    crew: &mut C,
) -> Result<(), SessionFault>
    requires count { IfSome read (λ count. count ≤ length chunk.now) }
    requires sound { IsSound (length primary.old.log) client.old }
    requires told { client.old.outcomes ≡ [] }
    ensures sound { OnOk result (IsSound (length primary.new.log) client.new) }
    ensures told { OnOk result (client.new.outcomes ≡ []) }
    ensures none_due { OnOk result (client.new.due ≡ 0) }
    ensures limits { client.new.limits ≡ client.old.limits }
    ensures served { OnOk result (ServesPiece (opening_rows_of primary.old) primary.old.log client.old
        (W.contents writer.old.writer.now) (piece_of chunk.now read) primary.new.log client.new
        (W.contents writer.new.writer.now)) }
    ensures whole_log { OnOk result (HasWholeLog primary.new ⊎ (client.new.ending ≡ client.old.ending)) }
    ensures stopped { OnErr result (StopsHearing (opening_rows_of primary.old) primary.old.log client.old
        (piece_of chunk.now read) primary.new.log) }
    ensures same_writer { writer.new.writer.ghost_name ≡ writer.old.writer.ghost_name }
    // The bank goes on, after a fault too.
    ensures serves { ServesOn K.model C.keeps result primary.old primary.new }
    ensures fault { IfErr result IsFlushFault }
{
    if !stir(chunk, read, client, primary)? {
        primary.offer_rest(crew)?;
        return Ok(());
    }
    settle_and_keep(primary, crew)?;
    tell_client(client, primary)?;
    if writer.write_outcomes(client.outcomes(), primary).is_err() {
        return Err(SessionFault::Device);
    }
    let told = client.outcomes().len();
    client.sent(told);
    Ok(())
}
