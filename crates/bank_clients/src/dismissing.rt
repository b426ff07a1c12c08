//! Leaving a client at fault.
use std::io::{ErrorKind, Read};
use std::net::{OpenStream, Shutdown};
use std::time::{Clock, Duration, Instant};

// How many bytes of a client at fault are skipped, and in how many reads, at most.
const PASSED_OVER: usize = 1024 * 1024;

const READS: u32 = 4_096;

// The size of one such read, in bytes.
const CHUNK: usize = 65_536;

// How long the client may be silent, and how long bytes are skipped altogether, in seconds.
const PATIENCE: u64 = 3;

const LONGEST: u64 = 10;

/// Notifies a client at fault that nothing more comes, and skips what it still sends: left unread, that
/// could make the network lose what was sent to the client. One that is silent, or goes on sending, is left
/// sooner.
pub(crate) fn dismiss<R: Clock, S: Read + OpenStream>(rt: &R, stream: &mut S) {
    let patience = Duration::from_secs(PATIENCE);
    if stream.set_read_timeout(Some(patience)).is_ok() && stream.shutdown(Shutdown::Write).is_ok() {
        pass_over(rt, stream);
    }
}

// Skips what a client still sends, until its end, a failure, or a limit.
fn pass_over<R: Clock, S: Read>(rt: &R, reader: &mut S) {
    let Ok(began) = Instant::now(rt) else {
        return;
    };
    let mut chunk = [0u8; CHUNK];
    let mut left = PASSED_OVER;
    for _ in 0..READS {
        match reader.read(&mut chunk) {
            Ok(0) => return,
            Ok(count) => left = left.saturating_sub(count),
            Err(error) => {
                if error.kind() != ErrorKind::Interrupted {
                    return;
                }
            }
        }
        if left == 0 || has_lasted(rt, &began) {
            return;
        }
    }
}

// Whether this was so long ago that the client is left. If the clock fails, the answer is yes.
fn has_lasted<R: Clock>(rt: &R, began: &Instant) -> bool {
    match began.elapsed(rt) {
        Ok(lasted) => lasted >= Duration::from_secs(LONGEST),
        Err(_) => true,
    }
}
