//! Writing bytes, of which a first part is known to be written if that fails.
ghost use Rattle.ask_client.specs.Writes.{WritesFront};

use std::io;
use std::io::{ErrorKind, Write};

/// Writes all these bytes, and flushes the writer.
///
/// Fails if a write or the flush fails; a first part of the bytes, or all, are written then.
pub(crate) fn write_and_flush<W: Write>(writer: &mut W, bytes: &[u8]) -> io::Result<()>
    ensures { WritesFront result bytes.now (W.contents writer.old) (W.contents writer.new) }
{
    write_all(writer, bytes)?;
    writer.flush()
}

// Writes all these bytes, or after a failure a first part of them.
fn write_all<W: Write>(writer: &mut W, bytes: &[u8]) -> io::Result<()>
    ensures { WritesFront result bytes.now (W.contents writer.old) (W.contents writer.new) }
{
    let mut rest = bytes;
    for _ in 0..u64::MAX {
        if rest.is_empty() {
            return Ok(());
        }
        match writer.write(rest) {
            Ok(0) => return Err(io::Error::from(ErrorKind::WriteZero)),
            Ok(count) => rest = &rest[count..],
            Err(error) => {
                if error.kind() != ErrorKind::Interrupted {
                    return Err(error);
                }
            }
        }
    }
    Err(io::Error::from(ErrorKind::Interrupted))
}
