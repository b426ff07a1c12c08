//! Clients in memory, who connect one after another.
ghost use Rattle.std.specs.Counts.{IsPrefixLen};
ghost use Rattle.std.specs.Prelude.{IfOk};

use crate::serving::HERE;
use bank_clients::{SessionNotes, Traffic};
use bank_server::AskCounts;
use std::alloc::Global;
use std::cell::{Cell, RefCell};
use std::io;
use std::io::{ErrorKind, Read, Write};
use std::net::{OpenListener, OpenStream, Shutdown, SocketAddr};
use std::time::Duration;

/// How a client's stream behaves.
#[derive(Clone, Copy, PartialEq, Eq)]
pub(crate) enum Manner {
    /// It gives all bytes that were sent.
    Plain,
    /// It is gone before it is accepted.
    Gone,
    /// It can't be set up.
    Stubborn,
    /// Its writes fail.
    Deaf,
    /// Its writes take nothing.
    Full,
    /// Each second read and write is interrupted, and a write takes three bytes at most.
    Fitful,
    /// It breaks once all bytes that were sent are read.
    Broken,
    /// After these bytes it sends one at each read, for ever.
    Drip,
    /// After these bytes it sends as many as are asked for, for ever.
    Flood,
}

impl Manner {
    // A read once all bytes that were sent are read.
    fn read_on(self, buf: &mut [u8]) -> io::Result<usize>
        ensures { IfOk result (λ count. IsPrefixLen count buf.new) }
    {
        let count = match self {
            Manner::Broken => return Err(io::Error::from(ErrorKind::ConnectionReset)),
            Manner::Drip => buf.len().min(1),
            Manner::Flood => buf.len(),
            _ => 0,
        };
        buf[..count].fill(b'.');
        Ok(count)
    }
}

/// What a client sends, in pieces of three bytes, and how its stream behaves.
#[derive(Clone, Copy)]
pub(crate) struct Client<'a> {
    pub(crate) sent: &'a [u8],
    pub(crate) manner: Manner,
}

/// A client who gives all that it sends.
pub(crate) fn plain(sent: &[u8]) -> Client<'_> {
    let manner = Manner::Plain;
    Client { sent, manner }
}

/// Everything that is sent to clients, the asks of each one, and how many of its bytes were read and written,
/// how often the server hangs up before they do, how many reads it makes after that, and how long it waited
/// for each of them, at a read and at a write.
#[derive(Drop)]
pub(crate) struct Transcript {
    pub(crate) bytes: RefCell<Vec<u8>>,
    pub(crate) noted: RefCell<Vec<(AskCounts, u64, u64)>>,
    pub(crate) hung_up: Cell<usize>,
    pub(crate) late_reads: Cell<usize>,
    pub(crate) read_limit: Cell<Option<Duration>>,
    pub(crate) write_limit: Cell<Option<Duration>>,
}

impl Transcript {
    /// Before the first client.
    pub(crate) fn new(alloc: Global) -> Transcript {
        Transcript {
            bytes: RefCell::new(Vec::new(alloc)),
            noted: RefCell::new(Vec::new(alloc)),
            hung_up: Cell::new(0),
            late_reads: Cell::new(0),
            read_limit: Cell::new(None),
            write_limit: Cell::new(None),
        }
    }
}

/// Where sessions are noted.
#[derive(Drop)]
pub(crate) struct Notes<'a> {
    pub(crate) told: &'a Transcript,
}

impl SessionNotes for Notes<'_> {
    fn note_session(&self, counts: AskCounts, traffic: Traffic) {
        if let Ok(mut noted) = self.told.noted.try_borrow_mut() {
            let _ = noted.push((counts, traffic.read, traffic.written));
        }
    }
}

/// The server's end of a client's stream.
#[derive(Drop)]
pub(crate) struct End<'a> {
    client: Client<'a>,
    is_odd: bool,
    told: &'a Transcript,
}

impl End<'_> {
    // Whether a read or a write is interrupted.
    fn is_interrupted(&mut self) -> bool {
        self.is_odd = !self.is_odd;
        self.is_odd && self.client.manner == Manner::Fitful
    }
}

impl Read for End<'_> {
    fn read(&mut self, buf: &mut [u8]) -> io::Result<usize> {
        if self.told.hung_up.get() > 0 {
            let reads = self.told.late_reads.get();
            self.told.late_reads.set(reads.wrapping_add(1));
        }
        if self.is_interrupted() {
            return Err(io::Error::from(ErrorKind::Interrupted));
        }
        let count = self.client.sent.len().min(buf.len()).min(3);
        if count == 0 {
            return self.client.manner.read_on(buf);
        }
        let (piece, rest) = self.client.sent.split_at(count);
        buf[..count].copy_from_slice(piece);
        self.client.sent = rest;
        Ok(count)
    }
}

impl Write for End<'_> {
    fn write(&mut self, buf: &[u8]) -> io::Result<usize> {
        if self.is_interrupted() {
            return Err(io::Error::from(ErrorKind::Interrupted));
        }
        let count = match self.client.manner {
            Manner::Deaf => return Err(io::Error::from(ErrorKind::BrokenPipe)),
            Manner::Full => 0,
            Manner::Fitful => buf.len().min(3),
            _ => buf.len(),
        };
        let Ok(mut bytes) = self.told.bytes.try_borrow_mut() else {
            return Err(io::Error::from(ErrorKind::Other));
        };
        bytes.extend_from_slice(&buf[..count])?;
        Ok(count)
    }

    fn flush(&mut self) -> io::Result<()> {
        Ok(())
    }
}

impl OpenStream for End<'_> {
    fn set_nodelay(&self, _nodelay: bool) -> io::Result<()> {
        if self.client.manner == Manner::Stubborn {
            return Err(io::Error::from(ErrorKind::InvalidInput));
        }
        Ok(())
    }

    fn set_read_timeout(&self, dur: Option<Duration>) -> io::Result<()> {
        self.told.read_limit.set(dur);
        Ok(())
    }

    fn set_write_timeout(&self, dur: Option<Duration>) -> io::Result<()> {
        self.told.write_limit.set(dur);
        Ok(())
    }

    fn shutdown(&self, _how: Shutdown) -> io::Result<()> {
        self.told
            .hung_up
            .set(self.told.hung_up.get().wrapping_add(1));
        Ok(())
    }
}

/// Lets clients in, in order. After the last one its device fails.
#[derive(Drop)]
pub(crate) struct TestListener<'a> {
    pub(crate) clients: &'a [Client<'a>],
    pub(crate) next: Cell<usize>,
    pub(crate) told: &'a Transcript,
}

impl<'a> OpenListener for TestListener<'a> {
    type Stream = End<'a>;

    fn accept(&self) -> io::Result<(End<'a>, SocketAddr)> {
        let next = self.next.get();
        self.next.set(next.wrapping_add(1));
        let Some(client) = self.clients.get(next) else {
            return Err(io::Error::from(ErrorKind::OutOfMemory));
        };
        if client.manner == Manner::Gone {
            return Err(io::Error::from(ErrorKind::ConnectionAborted));
        }
        let end = End {
            client: *client,
            is_odd: false,
            told: self.told,
        };
        Ok((end, SocketAddr::new(HERE, 4000)))
    }
}
