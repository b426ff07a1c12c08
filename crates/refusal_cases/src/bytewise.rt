//! A client whose bytes come one by one.

use std::io;
use std::io::Read;

/// Gives one byte at each read.
#[derive(Drop)]
pub(crate) struct BytewiseReader<'a> {
    pub(crate) left: &'a [u8],
}

impl Read for BytewiseReader<'_> {
    fn read(&mut self, buf: &mut [u8]) -> io::Result<usize> {
        match self.left {
            [first, rest @ ..] if !buf.is_empty() => {
                buf[0] = *first;
                self.left = rest;
                Ok(1)
            }
            _ => Ok(0),
        }
    }
}
