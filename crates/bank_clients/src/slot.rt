//! The socket of a client.
ghost use Rattle.std.specs.Prelude.{◌≤◌, length, IfSome};

use crate::lingering::Lingering;
use crate::traffic::Traffic;
use mio::net::TcpStream;
use std::io::{ErrorKind, Read, Write};
use std::net::{Shutdown, SocketAddr};
use std::time::Instant;

/// The socket of a client.
#[derive(Drop)]
pub(crate) struct Slot {
    stream: TcpStream,
    peer: SocketAddr,
    came: Instant,
    read: u64,
    written: u64,
    /// When bytes came or went last.
    pub(crate) heard: Instant,
    /// Since when its client may be silent: when a whole frame came last, or bytes went.
    pub(crate) silent_since: Instant,
    /// Whether it stands among those that are read.
    pub(crate) is_listed: bool,
    /// Whether its other end sends no more, by the system. Then it is read up to its end.
    pub(crate) is_closing: bool,
    /// Whether its connection took less than it was given.
    pub(crate) is_full: bool,
    /// Whether its connection failed, or was silent for too long.
    pub(crate) has_failed: bool,
    /// Whether nothing came yet, so that it isn't a client's.
    pub(crate) is_guest: bool,
    /// How its client is left, if it is.
    pub(crate) lingering: Option<Lingering>,
}

impl Slot {
    /// The socket of a guest that came at this time. It is a client once it has sent something.
    pub(crate) fn new(stream: TcpStream, peer: SocketAddr, now: Instant) -> Slot {
        Slot {
            stream,
            peer,
            came: now,
            read: 0,
            written: 0,
            heard: now,
            silent_since: now,
            is_listed: false,
            is_closing: false,
            is_full: false,
            has_failed: false,
            is_guest: true,
            lingering: None,
        }
    }

    /// What went over its connection until this time.
    pub(crate) fn carried(&self, now: Instant) -> Traffic {
        Traffic {
            peer: Some(self.peer),
            read: self.read,
            written: self.written,
            lasted: now.duration_since(self.came),
        }
    }

    /// Looks for a guest's first byte, which is left to be read. `None` if nothing has come by now, else whether
    /// there is one: there is none if the connection ended or failed before.
    pub(crate) fn has_spoken(&self) -> Option<bool> {
        let mut byte = [0u8; 1];
        for _ in 0..u64::MAX {
            match self.stream.peek(&mut byte) {
                Ok(count) => return Some(count > 0),
                Err(error) => match error.kind() {
                    ErrorKind::Interrupted => {}
                    ErrorKind::WouldBlock => return None,
                    _ => return Some(false),
                },
            }
        }
        None
    }

    /// Reads once: how many bytes have come, or 0 at the end, or `None` if the connection fails.
    /// `None` altogether if nothing has come by now.
    pub(crate) fn read_once(&mut self, chunk: &mut [u8], now: Instant) -> Option<Option<usize>>
        ensures { IfSome result (λ read. IfSome read (λ count. count ≤ length chunk.new)) }
    {
        for _ in 0..u64::MAX {
            match self.stream.read(chunk) {
                Ok(count) => {
                    self.heard = now;
                    self.read = self.read.saturating_add(count as u64);
                    return Some(Some(count));
                }
                Err(error) => match error.kind() {
                    ErrorKind::Interrupted => {}
                    ErrorKind::WouldBlock => return None,
                    _ => {
                        self.has_failed = true;
                        return Some(None);
                    }
                },
            }
        }
        None
    }

    /// Writes as many of these bytes as the connection takes by now, and answers how many. It goes on
    /// until the system takes no more: only then does it tell when there is room again.
    pub(crate) fn write(&mut self, bytes: &[u8], now: Instant) -> usize
        ensures { result ≤ length bytes.now }
    {
        let mut rest = bytes;
        for _ in 0..u64::MAX {
            if rest.is_empty() {
                break;
            }
            match self.stream.write(rest) {
                Ok(count) => {
                    self.heard = now;
                    self.silent_since = now;
                    rest = &rest[count..];
                }
                Err(error) => match error.kind() {
                    ErrorKind::Interrupted => {}
                    ErrorKind::WouldBlock => break,
                    _ => {
                        self.has_failed = true;
                        break;
                    }
                },
            }
        }
        self.is_full = !rest.is_empty();
        let count = bytes.len() - rest.len();
        self.written = self.written.saturating_add(count as u64);
        count
    }

    /// Notifies the client that nothing more comes, and answers whether it could be.
    pub(crate) fn hang_up(&mut self) -> bool {
        self.stream.shutdown(Shutdown::Write).is_ok()
    }
}
