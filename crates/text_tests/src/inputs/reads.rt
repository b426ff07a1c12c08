//! Readers that give little, are interrupted, and fail.
use super::{expect, expect_bytes};
use sb_text::{ReadFault, read_all};
use std::alloc::Global;
use std::io;
use std::io::{ErrorKind, Read};
use std::process::Abort;

// Gives a text in pieces of up to three bytes, each after an interrupted read, and fails, or ends,
// after it.
#[derive(Drop)]
struct Pieces<'a> {
    left: &'a [u8],
    interrupted: bool,
    fails: bool,
}

impl Read for Pieces<'_> {
    fn read(&mut self, buf: &mut [u8]) -> io::Result<usize> {
        self.interrupted = !self.interrupted;
        if self.interrupted {
            return Err(io::Error::from(ErrorKind::Interrupted));
        }
        if self.left.is_empty() && self.fails {
            return Err(io::Error::from(ErrorKind::ConnectionReset));
        }
        let count = self.left.len().min(buf.len()).min(3);
        let (piece, rest) = self.left.split_at(count);
        buf[..count].copy_from_slice(piece);
        self.left = rest;
        Ok(count)
    }
}

const TEXT: &[u8] = b"a 1.00 2.00\nbegin\n";

// What is read of this many bytes that come in pieces.
fn read_of(alloc: Global, length: usize, fails: bool) -> Result<Vec<u8>, ReadFault> {
    let mut reader = Pieces {
        left: &TEXT[..length.min(TEXT.len())],
        interrupted: false,
        fails,
    };
    read_all(alloc, &mut reader)
}

#[test]
fn pieces_interrupted_reads_and_failing_ones(rt: HostRuntime) {
    for length in 0..19usize {
        let input = read_of(rt.alloc(), length, false).expect(&rt, "an input");
        expect_bytes(&rt, &input, &TEXT[..length.min(18)], "pieces");
        let fault = read_of(rt.alloc(), length, true).err();
        expect(&rt, fault == Some(ReadFault::Device), "a broken connection");
    }
}

// Gives nothing: this many reads are interrupted, and the next one ends the input.
#[derive(Drop)]
struct Interrupted {
    reads: u32,
}

impl Read for Interrupted {
    fn read(&mut self, _buf: &mut [u8]) -> io::Result<usize> {
        if self.reads == 0 {
            return Ok(0);
        }
        self.reads -= 1;
        Err(io::Error::from(ErrorKind::Interrupted))
    }
}

#[test]
fn as_many_reads_as_an_input_may_take(rt: HostRuntime) {
    let mut reader = Interrupted { reads: 999_999_999 };
    let input = read_all(rt.alloc(), &mut reader).expect(&rt, "an input");
    expect(&rt, input.is_empty(), "the last read");
    let mut reader = Interrupted {
        reads: 1_000_000_000,
    };
    let fault = read_all(rt.alloc(), &mut reader).err();
    expect(&rt, fault == Some(ReadFault::Device), "one read more");
}

// This many bytes, each different from its neighbours.
fn bytes(rt: &impl Abort, alloc: Global, count: u32) -> Vec<u8> {
    let mut text = Vec::new(alloc);
    for number in 0..count {
        text.push((number % 251) as u8)
            .expect(rt, "memory for a byte");
    }
    text
}

#[test]
fn an_input_of_many_chunks(rt: HostRuntime) {
    let text = bytes(&rt, rt.alloc(), 200_000);
    let mut reader = text.as_slice();
    let input = read_all(rt.alloc(), &mut reader).expect(&rt, "an input");
    expect_bytes(&rt, &input, &text, "many chunks");
}

// Checks a fault's text.
fn expect_shown(rt: &impl Abort, alloc: Global, fault: ReadFault, words: &str) {
    let shown = fault.to_string(alloc).expect(rt, "memory for a text");
    expect_bytes(rt, shown.as_bytes(), words.as_bytes(), words);
}

#[test]
fn faults_of_reads_in_words(rt: HostRuntime) {
    expect_shown(&rt, rt.alloc(), ReadFault::Device, "device");
    expect_shown(&rt, rt.alloc(), ReadFault::OutOfMemory, "out of memory");
}
