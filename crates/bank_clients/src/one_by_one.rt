//! Clients who are served one after another.
ghost use Rattle.std.specs.Prelude.{◌≡◌, ◌↔◌, ◌≤◌, ◌<◌, [], length, take, None, false, true, IfNone, IfSome, IsSome, IsTrue, OnErr, OnOk};
ghost use Rattle.std.specs.Io.KnownBytes.{Appends};
ghost use Rattle.bank_clients.specs.inner.Streaming.{ReadsPiece, ReadsStream, WritesStream};

use crate::client_errors::is_of_a_client;
use crate::connections::Connections;
use crate::dismissing::dismiss;
use crate::session_notes::SessionNotes;
use crate::traffic::Traffic;
use bank_server::{Arrival, Arrivals, AskCounts};
use std::io;
use std::io::{ErrorKind, Read, Write};
use std::marker::Model;
use std::net::{OpenListener, OpenStream};
use std::sync::Wait;
use std::time::{Clock, Duration, Instant};

/// How many reads a session may take. One more counts as one that fails.
const READS: u64 = 1_000_000_000;

/// The clients of a socket, who are served one after another at one place. The next one is accepted once
/// the one before was left. What a client sends is read to its end, and what it gets is written whole: each
/// read and each write waits for it, as long as it may be silent. It is silent until a whole frame has come
/// from it, or bytes went to it: one that sends less is ended before the next read, at the latest after twice
/// the time.
///
/// A contract sees the stream of the client who is there, if one is. A piece that arrives is read from the
/// front of what remains in that stream, and nothing arrives only behind its end. What is sent is written
/// there, as many bytes as are answered, and less than all only if the connection failed. No clause says
/// which clients come, when a connection counts as failed, what is skipped of a client at fault, or that a
/// read writes nothing and a write reads nothing. Whoever takes any connections doesn't know what comes
/// here, or what goes.
#[derive(Drop)]
pub struct OneByOne<'a, H, L: OpenListener, N>
where
    L::Stream: Read + Write,
{
    rt: &'a H,
    listener: L,
    patience: Option<Duration>,
    notes: N,
    client: Option<Guest<L::Stream>>,
}

impl<'a, H, L: OpenListener, N> Model for OneByOne<'a, H, L, N>
where
    L::Stream: Read + Write,
{
    ghost use Rattle.std.specs.Prelude.{Option};
    ghost use Rattle.std.specs.Option.{option_map};
    ghost use Rattle.bank_clients.specs.Streams.{StreamOf};

    ghost Value = { Option StreamOf };

    ghost view = { λ c. option_map (λ client. record {
      remaining = L.Stream.remaining client.stream;
      contents = L.Stream.contents client.stream;
      ended = client.has_ended;
      failed = client.has_failed;
    }) c.client };
}

// The client who is served.
#[derive(Drop)]
struct Guest<T> {
    stream: T,
    came: Option<Instant>,
    // For how long it may be silent, and since when it is, as of the first read behind a whole frame of it.
    patience: Option<Duration>,
    silent_since: Option<Instant>,
    reads: u64,
    read: u64,
    written: u64,
    // Whether all that it sent was read, and whether its connection failed.
    has_ended: bool,
    has_failed: bool,
}

impl<'a, H, L, N> OneByOne<'a, H, L, N>
where
    H: Wait + Clock,
    L: OpenListener,
    L::Stream: Read + Write + OpenStream,
{
    /// The clients who will come to this listener, each of which may be silent for so long, and is noted as
    /// it is left.
    pub fn new(
        rt: &'a H,
        listener: L,
        patience: Option<Duration>,
        notes: N,
    ) -> OneByOne<'a, H, L, N>
        ensures { result ≡ None }
    {
        OneByOne {
            rt,
            listener,
            patience,
            notes,
            client: None,
        }
    }

    /// The port where clients are accepted.
    pub fn port(&self) -> io::Result<u16> {
        Ok(self.listener.local_addr()?.port())
    }

    // The next client's stream. One that is gone before it is accepted is passed over.
    fn accept(&self) -> io::Result<L::Stream> {
        for _ in self.rt.forever() {
            match self.listener.accept() {
                Ok((stream, _)) => return Ok(stream),
                Err(error) if is_of_a_client(error.kind()) => {}
                Err(error) => return Err(error),
            }
        }
        unreachable!()
    }
}

impl<T: Read + Write + OpenStream> Guest<T> {
    // The client of this stream. What can't be set up counts as a connection that failed.
    fn new<H: Clock>(rt: &H, stream: T, patience: Option<Duration>) -> Guest<T> {
        let is_set_up = stream.set_nodelay(true).is_ok()
            && stream.set_read_timeout(patience).is_ok()
            && stream.set_write_timeout(patience).is_ok();
        Guest {
            stream,
            came: Instant::now(rt).ok(),
            patience,
            silent_since: None,
            reads: 0,
            read: 0,
            written: 0,
            has_ended: false,
            has_failed: !is_set_up,
        }
    }

    // Whether it has been silent for too long. If the clock fails, the answer is yes.
    fn is_silent<H: Clock>(&mut self, rt: &H) -> bool
        ensures { self.new.stream ≡ self.old.stream }
    {
        let Some(patience) = self.patience else {
            return false;
        };
        let Some(since) = self.silent_since else {
            self.silent_since = Instant::now(rt).ok();
            return self.silent_since.is_none();
        };
        match since.elapsed(rt) {
            Ok(lasted) => lasted >= patience,
            Err(_) => true,
        }
    }

    // Reads once, waiting for it: how many bytes, or `None` if the connection fails, or it has been silent for
    // too long.
    fn read_once<H: Clock>(&mut self, rt: &H, chunk: &mut [u8]) -> Option<usize>
        ensures count { IfSome result (λ count. count ≤ length chunk.new) }
        ensures read { ReadsPiece (T.remaining self.old.stream) (T.remaining self.new.stream) result chunk.new }
        ensures ended { IfSome result (λ count. IsTrue self.new.has_ended ↔ (count ≡ 0)) }
        ensures failed { IfNone result (self.new.has_failed ≡ true) }
    {
        self.has_failed = self.has_failed || self.is_silent(rt);
        for _ in 0..u64::MAX {
            if self.has_failed || self.reads >= READS {
                break;
            }
            self.reads += 1;
            match self.stream.read(chunk) {
                Ok(count) => {
                    self.has_ended = count == 0;
                    self.read = self.read.saturating_add(count as u64);
                    return Some(count);
                }
                Err(error) => self.has_failed = error.kind() != ErrorKind::Interrupted,
            }
        }
        self.has_failed = true;
        None
    }

    // Writes these bytes, waiting for it, and answers how many were taken before the connection failed.
    fn write_whole(&mut self, bytes: &[u8]) -> usize
        ensures count { result ≤ length bytes.now }
        ensures written { Appends (T.contents self.old.stream) (T.contents self.new.stream)
            (take result bytes.now) }
        ensures failed { result < length bytes.now → self.new.has_failed ≡ true }
    {
        let mut rest = bytes;
        for _ in 0..u64::MAX {
            if rest.is_empty() || self.has_failed {
                break;
            }
            match self.stream.write(rest) {
                Ok(0) => self.has_failed = true,
                Ok(count) => rest = &rest[count..],
                Err(error) => self.has_failed = error.kind() != ErrorKind::Interrupted,
            }
        }
        self.has_failed = self.has_failed || !rest.is_empty();
        let count = bytes.len() - rest.len();
        if count > 0 {
            self.silent_since = None;
        }
        self.written = self.written.saturating_add(count as u64);
        count
    }

    // What went over the connection by now.
    fn traffic<H: Clock>(&self, rt: &H) -> Traffic {
        let lasted = match &self.came {
            Some(came) => came.elapsed(rt).ok(),
            None => None,
        };
        Traffic {
            peer: self.stream.peer_addr().ok(),
            read: self.read,
            written: self.written,
            lasted: lasted.unwrap_or(Duration::from_secs(0)),
        }
    }
}

impl<'a, H, L, N> Arrivals for OneByOne<'a, H, L, N>
where
    H: Wait + Clock,
    L: OpenListener,
    L::Stream: Read + Write + OpenStream,
    N: SessionNotes,
{
    ghost coming = { λ clients. None };

    ghost here = { λ clients. None };

    ghost outgoing = { λ clients. record { sent = None; full = λ place. true } };

    fn next(&mut self, chunk: &mut [u8]) -> Option<Arrival>
        ensures within { IfSome result (λ arrival. IfSome arrival.read (λ count. count ≤ length chunk.new)) }
        ensures place { IfSome result (λ arrival. arrival.client ≡ 0) }
        // What arrives is read from the client's stream, and nothing is behind its end.
        ensures read { IfSome result (λ arrival. ReadsStream self.old self.new arrival.read chunk.new) }
        ensures unread { IfNone result (self.new ≡ self.old) }
        ensures over { IfNone result (IfSome self.old (λ client. (client.ended ≡ true) × (client.failed ≡ false))) }
    {
        let client = self.client.as_mut()?;
        if client.has_ended && !client.has_failed {
            return None;
        }
        Some(Arrival {
            client: 0,
            read: client.read_once(self.rt, chunk),
        })
    }

    fn heard(&mut self, _client: usize)
        ensures { self.new ≡ self.old }
    {
        if let Some(client) = &mut self.client {
            client.silent_since = None;
        }
    }
}

impl<'a, H, L, N> Connections for OneByOne<'a, H, L, N>
where
    H: Wait + Clock,
    L: OpenListener,
    L::Stream: Read + Write + OpenStream,
    N: SessionNotes,
{
    ghost writable_places = { λ clients. [] };

    fn wait(&mut self) -> io::Result<()>
        ensures stays { IfSome self.old (λ stream. self.new ≡ self.old) }
        ensures there { OnOk result (IsSome self.new) }
        ensures fails { OnErr result (self.new ≡ self.old) }
    {
        if self.client.is_none() {
            let stream = self.accept()?;
            self.client = Some(Guest::new(self.rt, stream, self.patience));
        }
        Ok(())
    }

    fn writable(&self) -> &[usize] {
        &[]
    }

    fn send(&mut self, _place: usize, bytes: &[u8]) -> usize
        ensures count { result ≤ length bytes.now }
        ensures written { WritesStream self.old self.new (take result bytes.now) }
        ensures failed { IfSome self.new (λ client. result < length bytes.now → client.failed ≡ true) }
    {
        match &mut self.client {
            Some(client) => client.write_whole(bytes),
            None => 0,
        }
    }

    fn leave(&mut self, _place: usize, is_at_fault: bool, counts: AskCounts)
        ensures { self.new ≡ None }
    {
        if let Some(client) = self.client.take() {
            let mut client = client;
            self.notes.note_session(counts, client.traffic(self.rt));
            if is_at_fault {
                dismiss(self.rt, &mut client.stream);
            }
        }
    }
}
