//! A writer that takes little, and fails.
use super::{OPENING, SECOND, opened};
use checkpoint_text::{CheckpointListFault, CheckpointListing, list_as_opening, list_checkpoint};
use std::io;
use std::io::{ErrorKind, Write};

// Takes this many bytes, one in each write, and then fails.
#[derive(Drop)]
struct Narrow {
    taken: Vec<u8>,
    room: usize,
}

impl Write for Narrow {
    fn write(&mut self, buf: &[u8]) -> io::Result<usize> {
        if self.taken.len() >= self.room {
            return Err(io::Error::from(ErrorKind::BrokenPipe));
        }
        match buf.first() {
            Some(byte) => {
                self.taken.push(*byte)?;
                Ok(1)
            }
            None => Ok(0),
        }
    }

    fn flush(&mut self) -> io::Result<()> {
        Ok(())
    }
}

#[test]
fn a_writer_with_room_for_some_bytes(rt: HostRuntime) {
    let text = b"checkpoint 5\n".as_slice();
    for room in 0..14usize {
        let taken = Vec::new(rt.alloc());
        let mut writer = Narrow { taken, room };
        let answer = list_checkpoint(rt.alloc(), SECOND, CheckpointListing::Check, &mut writer);
        let fault = (room < 13).then_some(CheckpointListFault::Device);
        assert!(rt; answer.err() == fault, "how it ends");
        assert!(rt;
            writer.taken.as_slice() == &text[..room.min(13)],
            "what is taken"
        );
    }
}

#[test]
fn a_writer_without_room_for_an_opening(rt: HostRuntime) {
    let opening = opened(&rt, rt.alloc(), OPENING);
    let taken = Vec::new(rt.alloc());
    let mut writer = Narrow { taken, room: 20 };
    let answer = list_as_opening(rt.alloc(), SECOND, &opening, &mut writer);
    assert!(rt;
        answer.err() == Some(CheckpointListFault::Device),
        "how it ends"
    );
    assert!(rt;
        writer.taken.as_slice() == b"alice 0.00 0.00\nbob ".as_slice(),
        "what is taken"
    );
}
