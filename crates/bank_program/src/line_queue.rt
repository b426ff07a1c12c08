//! A queue of lines that a thread of its own prints.
ghost use Rattle.std.specs.Prelude.{◌≤◌, length, IfOk};
ghost use Rattle.bank_program.specs.inner.WaitingText.{IsSessionLine};

use crate::waiting_text::WaitingText;
use std::alloc::{AllocError, Global};
use std::io;
use std::sync::{Condvar, Mutex, Wait};
use std::time::{Clock, Duration};

// What the queue's lock keeps.
#[derive(Drop)]
struct Queued {
    waiting: WaitingText,
    // Whether what was taken isn't printed yet.
    is_printing: bool,
    // Whether nothing more comes.
    is_closed: bool,
    // Why nothing is printed any more.
    failure: Option<io::Error>,
}

impl Queued {
    // Whether all is printed.
    fn is_printed(&self) -> bool {
        self.waiting.is_empty() && !self.is_printing
    }
}

/// A queue of lines that a thread of its own prints. At most [`QUEUED_BYTES`](crate::QUEUED_BYTES) wait in it,
/// and no more than that are with the thread. No contract sees what waits.
#[derive(Drop)]
pub struct LineQueue {
    queued: Mutex<Queued>,
    // Told when something comes, and when nothing more does.
    came: Condvar,
    // Told when all that waited is taken or printed, and when a write fails.
    went: Condvar,
}

impl LineQueue {
    /// An empty queue.
    ///
    /// Fails if memory is refused.
    pub fn new(alloc: Global) -> Result<LineQueue, AllocError> {
        let queued = Queued {
            waiting: WaitingText::new(alloc)?,
            is_printing: false,
            is_closed: false,
            failure: None,
        };
        Ok(LineQueue {
            queued: Mutex::new(queued),
            came: Condvar::new(),
            went: Condvar::new(),
        })
    }

    /// Adds as much of a text as there is room for, once there is some, and answers how many bytes. Behind
    /// lines that were dropped there is room once it is told how many.
    ///
    /// Fails as the thread's write did, if that failed.
    pub(crate) fn queue_text<R: Wait>(&self, rt: &R, text: &[u8]) -> io::Result<usize>
        ensures { IfOk result (λ count. count ≤ length text.now) }
    {
        let mut queued = self.queued.lock(rt);
        for _ in rt.forever() {
            if let Some(failure) = queued.failure {
                return Err(failure);
            }
            if queued.waiting.has_room(1) {
                let count = queued.waiting.add(text)?;
                self.came.notify_one();
                return Ok(count);
            }
            queued = self.went.wait(rt, queued);
        }
        unreachable!()
    }

    /// Adds a line of a session, or drops it if there is no room for it.
    ///
    /// Fails as the thread's write did, if that failed.
    pub(crate) fn queue_or_drop<R: Wait>(&self, rt: &R, line: &[u8]) -> io::Result<()>
        requires { IsSessionLine line.now }
    {
        let mut queued = self.queued.lock(rt);
        if let Some(failure) = queued.failure {
            return Err(failure);
        }
        if queued.waiting.has_room(line.len()) {
            queued.waiting.add(line)?;
        } else {
            queued.waiting.drop_line();
        }
        self.came.notify_one();
        Ok(())
    }

    /// Takes all that waits, once something does, in place of this text, which is printed. Answers how many
    /// lines were dropped behind it, or `None` if nothing more comes.
    pub(crate) fn next_text<R: Wait>(&self, rt: &R, text: &mut Vec<u8>) -> Option<u64> {
        text.clear();
        let mut queued = self.queued.lock(rt);
        queued.is_printing = false;
        self.went.notify_all();
        queued = self.came.wait_while(rt, queued, |queued| {
            queued.waiting.is_empty() && !queued.is_closed
        });
        if queued.waiting.is_empty() {
            return None;
        }
        let dropped = queued.waiting.hand_over(text);
        queued.is_printing = true;
        self.went.notify_all();
        Some(dropped)
    }

    /// A write failed: nothing is printed any more.
    pub(crate) fn fail<R: Wait>(&self, rt: &R, failure: io::Error) {
        self.queued.lock(rt).failure = Some(failure);
        self.went.notify_all();
    }

    /// Nothing more comes.
    pub fn close<R: Wait>(&self, rt: &R) {
        self.queued.lock(rt).is_closed = true;
        self.came.notify_all();
    }

    /// Fails as the thread's write did, if that failed.
    pub(crate) fn check<R: Wait>(&self, rt: &R) -> io::Result<()> {
        match self.queued.lock(rt).failure {
            Some(failure) => Err(failure),
            None => Ok(()),
        }
    }

    /// Whether all is printed, after a wait of at most so long.
    ///
    /// Fails as the thread's write did, if that failed.
    pub(crate) fn is_printed_within<R: Wait + Clock>(
        &self,
        rt: &R,
        longest: Duration,
    ) -> io::Result<bool> {
        let queued = self.queued.lock(rt);
        let (queued, _) = self.went.wait_timeout_while(rt, queued, longest, |queued| {
            !queued.is_printed() && queued.failure.is_none()
        });
        match queued.failure {
            Some(failure) => Err(failure),
            None => Ok(queued.is_printed()),
        }
    }
}
