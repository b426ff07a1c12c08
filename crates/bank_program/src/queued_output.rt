//! An output whose lines wait in a queue.
ghost use Rattle.std.specs.Prelude.{◌↔◌, IsTrue};
ghost use Rattle.bank_program.specs.inner.WaitingText.{IsSessionLine};

use crate::line_queue::LineQueue;
use std::io;
use std::io::Write;
use std::sync::Wait;
use std::time::{Clock, Duration};

// For how many milliseconds a flush waits.
const FLUSH_MILLIS: u64 = 1_000;

/// An output whose lines wait in a queue until a thread of its own prints them.
///
/// A line of a session is dropped if there is no room for it. All else waits for room, and is never dropped.
/// A flush of it waits a second at most until it is printed, so that a failure is mostly told at once. What
/// failed is told at the next write otherwise, and then at each one.
#[derive(Drop)]
pub struct QueuedOutput<'q, R: Wait + Clock> {
    rt: &'q R,
    queue: &'q LineQueue,
    // Whether what was written last didn't end a line.
    is_in_line: bool,
    // Whether what was written last isn't a line of a session.
    is_awaited: bool,
}

impl<'q, R: Wait + Clock> QueuedOutput<'q, R> {
    /// An output to this queue.
    pub fn new(rt: &'q R, queue: &'q LineQueue) -> QueuedOutput<'q, R> {
        QueuedOutput {
            rt,
            queue,
            is_in_line: false,
            is_awaited: false,
        }
    }
}

impl<R: Wait + Clock> Write for QueuedOutput<'_, R> {
    fn write(&mut self, buf: &[u8]) -> io::Result<usize> {
        self.is_awaited = self.is_in_line || !is_session_line(buf);
        let count = if self.is_awaited {
            self.queue.queue_text(self.rt, buf)?
        } else {
            self.queue.queue_or_drop(self.rt, buf)?;
            buf.len()
        };
        if let Some(last) = buf[..count].last() {
            self.is_in_line = *last != b'\n';
        }
        Ok(count)
    }

    fn flush(&mut self) -> io::Result<()> {
        if self.is_awaited {
            let longest = Duration::from_millis(FLUSH_MILLIS);
            self.queue.is_printed_within(self.rt, longest)?;
        }
        Ok(())
    }
}

// Whether this is one whole line of a session.
fn is_session_line(text: &[u8]) -> bool
    ensures { IsTrue result ↔ IsSessionLine text.now }
{
    match text.split_last() {
        Some((last, line)) => {
            *last == b'\n' && line.starts_with(b"session ") && !line.contains(&b'\n')
        }
        None => false,
    }
}
