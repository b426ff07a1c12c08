//! Writers that take little, and fail.
use super::{expect, expect_bytes};
use sb_text::write_whole;
use std::alloc::Global;
use std::io;
use std::io::{ErrorKind, Write};
use std::process::Abort;

// Takes this many bytes, one in each write, and then fails.
#[derive(Drop)]
struct Narrow {
    taken: Vec<u8>,
    room: usize,
    flushed: bool,
}

impl Write for Narrow {
    fn write(&mut self, buf: &[u8]) -> io::Result<usize> {
        if self.taken.len() >= self.room {
            return Err(io::Error::from(ErrorKind::BrokenPipe));
        }
        match buf.first() {
            Some(byte) => {
                self.taken.push(*byte)?;
                Ok(1)
            }
            None => Ok(0),
        }
    }

    fn flush(&mut self) -> io::Result<()> {
        self.flushed = true;
        Ok(())
    }
}

const TEXT: &[u8] = b"total 3.00\n";

// Checks that a writer with this much room takes that much of the text, and is flushed if it takes
// all.
fn expect_written(rt: &impl Abort, alloc: Global, room: usize) {
    let mut writer = Narrow {
        taken: Vec::new(alloc),
        room,
        flushed: false,
    };
    let has_room = room >= TEXT.len();
    let is_written = write_whole(&mut writer, TEXT).is_ok();
    expect(rt, is_written == has_room, "how it ends");
    expect_bytes(rt, &writer.taken, &TEXT[..room.min(11)], "what is taken");
    expect(rt, writer.flushed == has_room, "whether it is flushed");
}

#[test]
fn a_writer_with_room_for_so_many_bytes(rt: HostRuntime) {
    for room in 0..12usize {
        expect_written(&rt, rt.alloc(), room);
    }
}
