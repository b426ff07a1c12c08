//! A thread that prints what waits in a queue.
ghost use Rattle.std.specs.Prelude.{◌≡◌, ◌++◌, OnOk};
ghost use Rattle.std.specs.Io.KnownBytes.{Appends};
ghost use Rattle.bank_program.specs.inner.WaitingText.{drop_line, drop_note};

use crate::line_queue::LineQueue;
use crate::waiting_text::empty_text;
use itoa::Buffer;
use sb_text::write_whole;
use std::alloc::{AllocError, Global};
use std::io::Write;
use std::sync::{Arc, Wait};
use std::thread::{JoinHandle, Threads};
use std::time::{Clock, Duration};
use std::{io, thread};

// How many seconds a program that ends with a fault gives whoever reads its output.
const LAST_SECONDS: u64 = 5;

/// A queue, and the thread that prints what waits in it.
#[derive(Drop)]
pub struct LinePrinter {
    queue: Arc<LineQueue>,
    thread: JoinHandle<()>,
}

impl LinePrinter {
    /// A thread that prints to this writer.
    ///
    /// Fails if memory is refused, or a thread.
    pub fn start<R, W>(rt: R, alloc: Global, writer: W) -> Result<LinePrinter, AllocError>
    where
        R: Threads + Wait + Copy + Send + 'static,
        W: Write + Send + Drop + 'static,
    {
        let queue = Arc::new(alloc, LineQueue::new(alloc)?)?;
        let text = empty_text(alloc)?;
        let lent = Arc::try_clone(&queue)?;
        let mut writer = writer;
        let thread = thread::spawn(&rt, move || print_queued(&rt, &lent, text, &mut writer))?;
        Ok(LinePrinter { queue, thread })
    }

    /// Its queue.
    pub fn queue(&self) -> &LineQueue {
        &self.queue
    }

    /// Waits until all is printed. Fails if a write failed.
    pub fn finish<R: Threads + Wait>(self, rt: &R) -> io::Result<()> {
        let LinePrinter { queue, thread } = self;
        queue.close(rt);
        thread.join(rt);
        queue.check(rt)
    }

    /// Waits until all is printed, but five seconds at most: the thread of an output that nobody reads is
    /// left.
    pub fn leave<R: Threads + Wait + Clock>(self, rt: &R) {
        let LinePrinter { queue, thread } = self;
        queue.close(rt);
        let longest = Duration::from_secs(LAST_SECONDS);
        if !matches!(queue.is_printed_within(rt, longest), Ok(false)) {
            thread.join(rt);
        }
    }
}

/// Prints what waits in a queue, in order, until it is closed and empty, or a write fails. The room of this
/// text is used again and again.
pub fn print_queued<R: Wait, W: Write>(rt: &R, queue: &LineQueue, text: Vec<u8>, writer: &mut W) {
    let mut text = text;
    for _ in rt.forever() {
        let Some(dropped) = queue.next_text(rt, &mut text) else {
            return;
        };
        if let Err(failure) = print_taken(&mut text, dropped, writer) {
            queue.fail(rt, failure);
            return;
        }
    }
}

// Prints a text, and behind it how many lines were dropped, if some were.
fn print_taken<W: Write>(text: &mut Vec<u8>, dropped: u64, writer: &mut W) -> io::Result<()>
    ensures printed { OnOk result
        (Appends (W.contents writer.old) (W.contents writer.new) (text.old.items ++ drop_note dropped)) }
{
    if dropped > 0 {
        push_note(dropped, text)?;
    }
    write_whole(writer, text)
}

// Adds how many lines were dropped.
fn push_note(dropped: u64, text: &mut Vec<u8>) -> Result<(), AllocError>
    ensures { OnOk result (text.new.items ≡ text.old.items ++ drop_line dropped) }
{
    let mut buffer = Buffer::new();
    text.extend_from_slice(b"unprinted lines: ")?;
    text.extend_from_slice(buffer.format(dropped).as_bytes())?;
    Ok(text.push(b'\n')?)
}
