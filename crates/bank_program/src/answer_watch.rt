//! Writers whose lines are counted by their answers.
ghost use Rattle.std.specs.Prelude.{◌≡◌};
ghost use Rattle.bank_program.specs.inner.CountSteps.{CountsNone};

use crate::answer_counts::{AnswerCounts, AnswerKind, count_answers};
use std::io;
use std::io::Write;

/// A writer that gets the whole output of a run at once, whose answers are counted.
#[derive(Drop)]
pub struct RunWatch<W> {
    inner: W,
    counts: Option<AnswerCounts>,
}

impl<W> RunWatch<W> {
    /// This writer, which got nothing yet.
    pub fn new(inner: W) -> RunWatch<W>
        ensures { result.inner ≡ inner }
    {
        RunWatch {
            inner,
            counts: None,
        }
    }

    /// The counts of what it was given first. No line is counted if each was answered by a reply.
    pub fn counts(&self) -> AnswerCounts {
        self.counts.unwrap_or(AnswerCounts::new())
    }
}

// What is written first is all of a run's output, of which it may take a part.
impl<W: Write> Write for RunWatch<W> {
    ghost contents = { λ watch. W.contents watch.inner };

    fn write(&mut self, buf: &[u8]) -> io::Result<usize> {
        if self.counts.is_none() {
            self.counts = Some(count_answers(buf));
        }
        self.inner.write(buf)
    }

    fn flush(&mut self) -> io::Result<()> {
        self.inner.flush()
    }
}

// How many bytes the ends of the lines have that are told apart.
const ENDING: usize = 9;

/// A writer that gets a line for each outcome of a client, and counts them.
#[derive(Drop)]
pub struct AskWatch<W> {
    inner: W,
    seen: SeenLines,
}

impl<W> AskWatch<W> {
    /// This writer, which got nothing yet.
    pub fn new(inner: W) -> AskWatch<W>
        ensures { result.inner ≡ inner }
    {
        AskWatch {
            inner,
            seen: SeenLines::new(),
        }
    }

    /// The counts of what it took.
    pub fn counts(&self) -> AnswerCounts
        ensures { result ≡ self.now.seen.counts }
    {
        self.seen.counts
    }
}

impl<W: Write> Write for AskWatch<W> {
    ghost contents = { λ watch. W.contents watch.inner };

    fn write(&mut self, buf: &[u8]) -> io::Result<usize> {
        let done = self.inner.write(buf);
        if let Ok(count) = &done {
            self.seen.take_all(&buf[..*count]);
        }
        done
    }

    fn flush(&mut self) -> io::Result<()> {
        self.inner.flush()
    }
}

// What a writer took.
#[derive(Drop)]
struct SeenLines {
    counts: AnswerCounts,
    // The last bytes of it.
    last: [u8; ENDING],
}

impl SeenLines {
    // Nothing.
    fn new() -> SeenLines
        ensures { CountsNone result.counts }
    {
        SeenLines {
            counts: AnswerCounts::new(),
            last: [0; ENDING],
        }
    }

    // More bytes.
    fn take_all(&mut self, bytes: &[u8]) {
        for byte in bytes {
            if *byte == b'\n' {
                self.counts.count_one(answer_before_end(&self.last));
            }
            self.last.rotate_left(1);
            self.last[ENDING - 1] = *byte;
        }
    }
}

// The answer of a line that ends so.
fn answer_before_end(last: &[u8]) -> AnswerKind {
    if last == b" log full".as_slice() {
        AnswerKind::LogFull
    } else if last == b" mismatch".as_slice() {
        AnswerKind::Mismatch
    } else {
        AnswerKind::Reply
    }
}
