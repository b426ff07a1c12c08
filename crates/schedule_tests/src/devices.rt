//! Devices that fail.
use std::io;
use std::io::{ErrorKind, Read, Write};

// Fails at once.
#[derive(Drop)]
pub(crate) struct Broken;

impl Read for Broken {
    fn read(&mut self, _buf: &mut [u8]) -> io::Result<usize> {
        Err(io::Error::from(ErrorKind::ConnectionReset))
    }
}

impl Write for Broken {
    fn write(&mut self, _buf: &[u8]) -> io::Result<usize> {
        Err(io::Error::from(ErrorKind::BrokenPipe))
    }

    fn flush(&mut self) -> io::Result<()> {
        Ok(())
    }
}

// Gives a text a byte at a time, and fails after this many reads.
#[derive(Drop)]
pub(crate) struct Bytewise<'a> {
    pub(crate) left: &'a [u8],
    pub(crate) reads: usize,
}

impl Read for Bytewise<'_> {
    fn read(&mut self, buf: &mut [u8]) -> io::Result<usize> {
        if self.reads == 0 {
            return Err(io::Error::from(ErrorKind::ConnectionReset));
        }
        self.reads -= 1;
        match (self.left, buf) {
            ([first, rest @ ..], [one, ..]) => {
                *one = *first;
                self.left = rest;
                Ok(1)
            }
            _ => Ok(0),
        }
    }
}

// Takes this many bytes, one at each write, and then fails.
#[derive(Drop)]
pub(crate) struct Narrow {
    pub(crate) taken: Vec<u8>,
    pub(crate) room: usize,
}

impl Write for Narrow {
    fn write(&mut self, buf: &[u8]) -> io::Result<usize> {
        if self.taken.len() >= self.room {
            return Err(io::Error::from(ErrorKind::BrokenPipe));
        }
        match buf.first() {
            Some(byte) => {
                self.taken.push(*byte)?;
                Ok(1)
            }
            None => Ok(0),
        }
    }

    fn flush(&mut self) -> io::Result<()> {
        Ok(())
    }
}
