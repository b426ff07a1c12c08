//! Lines that wait until a thread prints them.
use bank_program::{LinePrinter, LineQueue, QUEUED_BYTES, QueuedOutput, print_queued};
use std::alloc::Global;
use std::io::Write;
use std::process::Abort;
use std::{io, thread};

// The system's number of the error that a closed pipe gives.
const CLOSED: i32 = 32;

// A line of a session, of 16 bytes.
const SESSION: &[u8] = b"session 1234 ok\n";

// Whoever reads it closed it.
#[derive(Drop)]
struct Closed;

impl Write for Closed {
    fn write(&mut self, _buf: &[u8]) -> io::Result<usize> {
        Err(io::Error::from_raw_os_error(CLOSED))
    }

    fn flush(&mut self) -> io::Result<()> {
        Ok(())
    }
}

// This line, so often.
fn repeated<R: Abort>(rt: &R, alloc: Global, line: &[u8], times: usize) -> Vec<u8> {
    let mut text = Vec::new(alloc);
    for _ in 0..times {
        text.extend_from_slice(line).expect(rt, "memory for lines");
    }
    text
}

#[test]
fn lines_are_printed_in_order(rt: HostRuntime) {
    let (alloc, mut printed) = (rt.alloc(), Vec::new(rt.alloc()));
    let queue = LineQueue::new(alloc).expect(&rt, "memory for a queue");
    let mut output = QueuedOutput::new(&rt, &queue);
    let pieces: [&[u8]; 4] = [
        b"listening here\n",
        b"session 1 ok\n",
        b"bob ",
        b"session 2 ok\n",
    ];
    for piece in pieces {
        assert!(&rt; output.write_all(piece).is_ok());
    }
    queue.close(&rt);
    print_queued(&rt, &queue, Vec::new(alloc), &mut printed);
    let wanted = b"listening here\nsession 1 ok\nbob session 2 ok\n";
    assert!(&rt; printed.as_slice() == wanted.as_slice());
}

#[test]
fn lines_of_sessions_that_find_no_room_are_counted(rt: HostRuntime) {
    let (alloc, mut printed) = (rt.alloc(), Vec::new(rt.alloc()));
    let queue = LineQueue::new(alloc).expect(&rt, "memory for a queue");
    let mut output = QueuedOutput::new(&rt, &queue);
    let room = QUEUED_BYTES / SESSION.len();
    for _ in 0..room.saturating_add(3) {
        assert!(&rt; output.write_all(SESSION).is_ok());
    }
    // All else waits for room, and more than finds room at once is printed whole.
    let mut wanted = repeated(&rt, alloc, SESSION, room);
    let rows = repeated(&rt, alloc, b"bob 0.00 20.00\n", QUEUED_BYTES / 4);
    for text in [b"unprinted lines: 3\n".as_slice(), rows.as_slice()] {
        wanted
            .extend_from_slice(text)
            .expect(&rt, "memory for lines");
    }
    let (_, written) = thread::join(
        &rt,
        || print_queued(&rt, &queue, Vec::new(alloc), &mut printed),
        || -> io::Result<()> {
            let written = output.write_all(&rows);
            queue.close(&rt);
            written
        },
    );
    assert!(&rt; written.is_ok() && printed.as_slice() == wanted.as_slice());
}

#[test]
fn a_write_that_fails_is_told_at_the_next(rt: HostRuntime) {
    let queue = LineQueue::new(rt.alloc()).expect(&rt, "memory for a queue");
    let mut output = QueuedOutput::new(&rt, &queue);
    assert!(&rt; output.write_all(SESSION).is_ok());
    print_queued(&rt, &queue, Vec::new(rt.alloc()), &mut Closed);
    for line in [SESSION, b"total 20.00\n"] {
        let failure = output.write_all(line).expect_err(&rt, "a failure");
        assert!(&rt; failure.raw_os_error() == Some(CLOSED));
    }
}

#[test]
fn a_write_that_fails_is_told_at_the_end(rt: HostRuntime) {
    let printer = LinePrinter::start(rt, rt.alloc(), Closed).expect(&rt, "a thread");
    let mut output = QueuedOutput::new(&rt, printer.queue());
    assert!(&rt; output.write_all(SESSION).is_ok());
    let failure = printer.finish(&rt).expect_err(&rt, "a failure");
    assert!(&rt; failure.raw_os_error() == Some(CLOSED));
}
