//! What stands at a place of a log's file.
ghost use Rattle.std.specs.Prelude.{◌≡◌, ◌⊎◌, ◌+◌, ◌<◌, ◌≤◌, ◌^◌, ◌↔◌, ℕ, List, drop, length, IfOk, IsErrOf, IsTrue, IfErr};
ghost use Rattle.std.specs.List.{All};
ghost use Rattle.sha2.specs.Hashers.{Holds256};
ghost use Rattle.sb_log.specs.inner.Front.{HashesFront, IsFront};
ghost use Rattle.sb_log.specs.LogFiles.{HasFailed, Stays};
ghost use Rattle.sb_log.specs.declared.front.Front.TheVariants.{Record};
ghost use Rattle.sb_log.specs.declared.log_fault.LogFault.TheVariants.{Device, OutOfMemory};

use crate::log_fault::LogFault;
use crate::log_file::LogFile;
use crate::record::{HEAD, SIZE_FIELD, are_same, digest_of, stated_size, with_body};
use sb_text::READS;
use sha2::Sha256;

/// How many bytes one read asks for.
pub(crate) const PIECE: usize = 65_536;

/// What stands at a place of a log's file.
#[derive(Clone, Copy)]
pub(crate) enum Front {
    /// A whole record.
    Record,
    /// So many bytes, up to the file's end: none, a beginning of a record, or zeros.
    Torn(usize),
    /// So many bytes, up to the file's end, which no record begins.
    Damaged(usize),
}

/// Reads what stands at a place, where the record of the next body belongs. A whole record is in the
/// buffer then, and the hasher holds its body too.
///
/// Fails with [`LogFault::Device`] and [`LogFault::OutOfMemory`]. The file stays as it is.
pub(crate) fn read_front<F: LogFile>(
    file: &mut F,
    at: usize,
    hasher: &mut Sha256,
    buffer: &mut Vec<u8>,
) -> Result<Front, LogFault>
    requires { at < 2 ^ 63 }
    ensures file { Stays F.IsHonest F.model file.old file.new }
    ensures front { F.IsHonest file.old → (before : List ℕ) → Holds256 hasher.old before
        → IfOk result (λ front. IsFront before (drop at (F.model file.old).content) front buffer.new.items hasher.new) }
    // Whatever the file holds, the digest goes on by what was read of it.
    ensures hasher { (before : List ℕ) → Holds256 hasher.old before
        → IfOk result (λ front. HashesFront before front buffer.new.items hasher.new) }
    ensures size { IfOk result (λ front. front ≡ Record
        → (HEAD ≤ length buffer.new.items) × (length buffer.new.items < HEAD + 2 ^ 32)) }
    ensures fault { IfErr result (λ fault. (fault ≡ Device) ⊎ (fault ≡ OutOfMemory)) }
    ensures device { IsErrOf result Device
        → HasFailed (F.has_failed file.new) (F.IsHonest file.old) (F.model file.old).content }
{
    buffer.clear();
    file.read_at(at, HEAD, buffer)?;
    let Some(size) = stated_size(buffer) else {
        let (size, blank) = count_rest(file, at, buffer)?;
        return Ok(if blank {
            Front::Torn(size)
        } else {
            Front::Damaged(size)
        });
    };
    if buffer.len() < HEAD {
        return Ok(Front::Torn(buffer.len()));
    }
    file.read_at(at + HEAD, size as usize, buffer)?;
    if buffer.len() - HEAD < size as usize {
        return Ok(Front::Torn(buffer.len()));
    }
    let longer = with_body(hasher, &buffer[HEAD..]);
    let digest = digest_of(&longer);
    if !are_same(&buffer[SIZE_FIELD..HEAD], &digest) {
        let (size, _) = count_rest(file, at, buffer)?;
        return Ok(Front::Damaged(size));
    }
    *hasher = longer;
    Ok(Front::Record)
}

/// How many bytes a file has from a place on, and whether all of them are 0.
pub(crate) fn count_rest<F: LogFile>(
    file: &mut F,
    at: usize,
    piece: &mut Vec<u8>,
) -> Result<(usize, bool), LogFault>
    requires { at < 2 ^ 63 }
    ensures file { Stays F.IsHonest F.model file.old file.new }
    ensures size { F.IsHonest file.old → IfOk result (λ rest. rest.0 ≡ length (drop at (F.model file.old).content)) }
    ensures blank { F.IsHonest file.old →
        IfOk result (λ rest. IsTrue rest.1 ↔ All (λ byte. byte ≡ 0) (drop at (F.model file.old).content)) }
    ensures fault { IfErr result (λ fault. (fault ≡ Device) ⊎ (fault ≡ OutOfMemory)) }
    ensures device { IsErrOf result Device
        → HasFailed (F.has_failed file.new) (F.IsHonest file.old) (F.model file.old).content }
{
    let mut size = 0;
    let mut blank = true;
    for _ in 0..READS {
        piece.clear();
        file.read_at(at + size, PIECE, piece)?;
        if piece.is_empty() {
            return Ok((size, blank));
        }
        blank = blank && is_blank(piece);
        size += piece.len();
    }
    Err(LogFault::Device)
}

// Whether all of these bytes are 0.
fn is_blank(bytes: &[u8]) -> bool
    ensures { IsTrue result ↔ All (λ byte. byte ≡ 0) bytes.now }
{
    bytes.iter().all(|byte| *byte == 0)
}
