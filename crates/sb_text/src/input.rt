//! Reading a whole input.
ghost use Rattle.std.specs.Prelude.{◌≡◌, IfOk, IfSome};
ghost use Rattle.sb_text.specs.declared.input.ReadFault.TheVariants.{OutOfMemory};

use std::alloc::{AllocError, Global};
use std::io::{ErrorKind, Read};
use thiserror::Error;

/// How many reads an input may take. One more counts as a failed read.
pub const READS: u32 = 1_000_000_000;

// How many bytes one read asks for.
const CHUNK: usize = 65_536;

/// Why an input can't be read.
#[derive(Clone, Copy, Debug, PartialEq, Eq, Error)]
pub enum ReadFault {
    /// A read failed, or the input takes more than [`READS`] reads.
    #[error("device")]
    Device,
    /// Memory was refused.
    #[error("out of memory")]
    OutOfMemory,
}

impl From<AllocError> for ReadFault {
    ghost from_gives = { λ _ fault. fault ≡ OutOfMemory };

    fn from(_: AllocError) -> ReadFault {
        ReadFault::OutOfMemory
    }
}

/// Reads all that a reader gives.
///
/// An interrupted read is repeated, and counts as one. Fails with [`ReadFault::Device`] if a read
/// fails or the input takes more than [`READS`] reads, and with [`ReadFault::OutOfMemory`] if memory
/// is refused.
pub fn read_all<R: Read>(alloc: Global, reader: &mut R) -> Result<Vec<u8>, ReadFault>
    ensures { IfOk result (λ input. IfSome (R.remaining reader.old) (λ bytes. input.items ≡ bytes)) }
{
    read_with_room(alloc, 0, reader)
}

/// Reads and fails as [`read_all`] does, with room for this many bytes at first.
pub fn read_with_room<R: Read>(
    alloc: Global,
    room: usize,
    reader: &mut R,
) -> Result<Vec<u8>, ReadFault>
    ensures { IfOk result (λ input. IfSome (R.remaining reader.old) (λ bytes. input.items ≡ bytes)) }
{
    let mut input = Vec::with_capacity(alloc, room)?;
    let mut chunk = [0u8; CHUNK];
    for _ in 0..READS {
        match reader.read(&mut chunk) {
            Ok(0) => return Ok(input),
            Ok(count) => input.extend_from_slice(&chunk[..count])?,
            Err(error) => {
                if error.kind() != ErrorKind::Interrupted {
                    return Err(ReadFault::Device);
                }
            }
        }
    }
    Err(ReadFault::Device)
}
