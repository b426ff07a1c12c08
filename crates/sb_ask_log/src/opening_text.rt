//! The opening text of a log's file.
ghost use Rattle.std.specs.Prelude.{◌≡◌, ◌↔◌, IsTrue, IfOk};
ghost use Rattle.sb_ask_log.specs.LogFile.{IsOpeningText, with_line_end};

use sb_rows::{OpeningFault, read_opening};
use std::alloc::{AllocError, Global};

/// Whether a text is an opening up to and with its line `begin` and the end of that line. Fails if
/// memory is refused.
pub fn is_opening_text(alloc: Global, text: &[u8]) -> Result<bool, AllocError>
    ensures { IfOk result (λ is. IsTrue is ↔ IsOpeningText text.now) }
{
    match read_opening(alloc, text) {
        Ok(opening) => Ok(opening.consumed == text.len() && text.ends_with(b"\n")),
        Err(OpeningFault::Line { .. }) => Ok(false),
        Err(OpeningFault::OutOfMemory) => Err(AllocError),
    }
}

/// A text with the end of its last line, unless it is empty.
pub fn with_line_end(alloc: Global, text: &[u8]) -> Result<Vec<u8>, AllocError>
    ensures { IfOk result (λ whole. whole.items ≡ with_line_end text.now) }
{
    let mut whole = Vec::from_slice(alloc, text)?;
    if let Some(last) = text.last() {
        if *last != b'\n' {
            whole.push(b'\n')?;
        }
    }
    Ok(whole)
}
