//! Readers and writers that give and take little, and fail.
use std::alloc::Global;
use std::io;
use std::io::{ErrorKind, Read, Write};

/// Gives a text a byte at a time, and fails, or ends, after this many reads. Every other read is
/// interrupted.
#[derive(Drop)]
pub(crate) struct BytewiseReader<'a> {
    pub(crate) left: &'a [u8],
    pub(crate) reads: u32,
    pub(crate) fails: bool,
}

impl Read for BytewiseReader<'_> {
    fn read(&mut self, buf: &mut [u8]) -> io::Result<usize> {
        if self.reads == 0 {
            if self.fails {
                return Err(io::Error::from(ErrorKind::ConnectionReset));
            }
            return Ok(0);
        }
        self.reads -= 1;
        if self.reads % 2 == 0 {
            return Err(io::Error::from(ErrorKind::Interrupted));
        }
        match self.left {
            [first, rest @ ..] if !buf.is_empty() => {
                buf[0] = *first;
                self.left = rest;
                Ok(1)
            }
            _ => Ok(0),
        }
    }
}

/// What is unusual about one read.
#[derive(Clone, Copy, PartialEq, Eq)]
pub(crate) enum Hitch {
    /// It gives one byte less than the others.
    Short,
    /// It is interrupted.
    Interrupted,
}

/// Gives a text two bytes at a time, with a hitch at one read, which is this many reads away.
#[derive(Drop)]
pub(crate) struct HaltingReader<'a> {
    pub(crate) left: &'a [u8],
    pub(crate) away: u32,
    pub(crate) hitch: Hitch,
}

impl HaltingReader<'_> {
    // Whether this read has the hitch.
    fn halts(&mut self) -> bool {
        let halts = self.away == 1;
        self.away = self.away.saturating_sub(1);
        halts
    }
}

impl Read for HaltingReader<'_> {
    fn read(&mut self, buf: &mut [u8]) -> io::Result<usize> {
        let halts = self.halts();
        if halts && self.hitch == Hitch::Interrupted {
            return Err(io::Error::from(ErrorKind::Interrupted));
        }
        match (self.left, buf) {
            ([first, second, rest @ ..], [one, other, ..]) if !halts => {
                *one = *first;
                *other = *second;
                self.left = rest;
                Ok(2)
            }
            ([first, rest @ ..], [one, ..]) => {
                *one = *first;
                self.left = rest;
                Ok(1)
            }
            _ => Ok(0),
        }
    }
}

/// Gives nothing: this many reads are interrupted, and the next one is the end.
#[derive(Drop)]
pub(crate) struct InterruptedReader {
    pub(crate) reads: u32,
}

impl Read for InterruptedReader {
    fn read(&mut self, _buf: &mut [u8]) -> io::Result<usize> {
        if self.reads == 0 {
            return Ok(0);
        }
        self.reads -= 1;
        Err(io::Error::from(ErrorKind::Interrupted))
    }
}

/// Takes this many bytes, one at each write, and then fails.
#[derive(Drop)]
pub(crate) struct NarrowWriter {
    pub(crate) taken: Vec<u8>,
    pub(crate) room: usize,
    pub(crate) flushes: bool,
}

impl NarrowWriter {
    /// A writer that has taken nothing yet.
    pub(crate) fn new(alloc: Global, room: usize, flushes: bool) -> NarrowWriter {
        NarrowWriter {
            taken: Vec::new(alloc),
            room,
            flushes,
        }
    }
}

impl Write for NarrowWriter {
    fn write(&mut self, buf: &[u8]) -> io::Result<usize> {
        if self.taken.len() >= self.room {
            return Err(io::Error::from(ErrorKind::BrokenPipe));
        }
        match buf.first() {
            Some(byte) => {
                self.taken.push(*byte)?;
                Ok(1)
            }
            None => Ok(0),
        }
    }

    fn flush(&mut self) -> io::Result<()> {
        if self.flushes {
            Ok(())
        } else {
            Err(io::Error::from(ErrorKind::BrokenPipe))
        }
    }
}
