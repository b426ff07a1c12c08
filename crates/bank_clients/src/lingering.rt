//! How a client at fault is left: it is notified that nothing more comes, and what it still sends is
//! skipped for a while. Left unread, that could make the network lose what was sent to the client.
use std::time::{Duration, Instant};

// How many bytes are skipped at most.
const SKIP: usize = 1024 * 1024;

// How long the client may be silent, and how long it may go on altogether, in seconds.
const PATIENCE: u64 = 3;

const LONGEST: u64 = 10;

/// What is skipped yet of a client that is left.
#[derive(Clone, Copy)]
pub(crate) struct Lingering {
    bytes: usize,
    began: Instant,
}

impl Lingering {
    /// The client is left at this time.
    pub(crate) fn new(now: Instant) -> Lingering {
        Lingering {
            bytes: SKIP,
            began: now,
        }
    }

    /// Skips this many bytes, and answers whether it's enough.
    pub(crate) fn skip(&mut self, count: usize) -> bool {
        self.bytes = self.bytes.saturating_sub(count);
        self.bytes == 0
    }

    /// When it's over, if the client is silent since then.
    pub(crate) fn deadline(&self, heard: Instant) -> Option<Instant> {
        let silent = heard.checked_add(Duration::from_secs(PATIENCE))?;
        let longest = self.began.checked_add(Duration::from_secs(LONGEST))?;
        Some(if silent < longest { silent } else { longest })
    }
}
