//! Text that waits to be printed.
ghost use Rattle.std.specs.Prelude.{◌≡◌, ◌⊎◌, ◌+◌, ◌<◌, ◌≤◌, ◌++◌, ◌↔◌, [], take, length, vec_len, IfOk, IsTrue, OnErr, OnOk};
ghost use Rattle.bank_program.specs.declared.waiting_text.TheConstants.{QUEUED_BYTES};

use std::alloc::{AllocError, Global};
use std::mem;

/// The most bytes that wait to be printed.
pub const QUEUED_BYTES: usize = 65_536;

// Room for a line that tells how many were dropped.
const NOTE_BYTES: usize = 64;

/// What waits to be printed: a text, and behind it the number of lines that found no room.
#[derive(Drop)]
pub(crate) struct WaitingText {
    text: Vec<u8>,
    dropped: u64,
    ghost bounded: { vec_len text ≤ QUEUED_BYTES },
}

impl WaitingText {
    /// Nothing. The room for more is taken here.
    pub(crate) fn new(alloc: Global) -> Result<WaitingText, AllocError>
        ensures empty { IfOk result (λ waiting. (waiting.text.items ≡ []) × (waiting.dropped ≡ 0)) }
    {
        Ok(WaitingText {
            text: empty_text(alloc)?,
            dropped: 0,
        })
    }

    /// Whether nothing waits.
    pub(crate) fn is_empty(&self) -> bool
        ensures { IsTrue result ↔ ((vec_len self.now.text ≡ 0) × (self.now.dropped ≡ 0)) }
    {
        self.text.is_empty() && self.dropped == 0
    }

    /// Whether there is room for this many bytes. Behind dropped lines there is none.
    pub(crate) fn has_room(&self, bytes: usize) -> bool
        ensures { IsTrue result ↔ ((self.now.dropped ≡ 0) × (vec_len self.now.text + bytes ≤ QUEUED_BYTES)) }
    {
        self.dropped == 0 && bytes <= QUEUED_BYTES - self.text.len()
    }

    /// Adds as much of a text as there is room for, and answers how many bytes.
    ///
    /// Fails if memory is refused, and then nothing is added.
    pub(crate) fn add(&mut self, text: &[u8]) -> Result<usize, AllocError>
        requires { self.old.dropped ≡ 0 }
        ensures added { IfOk result (λ count. (count ≤ length text.now)
            × (self.new.text.items ≡ self.old.text.items ++ take count text.now)) }
        ensures room { IfOk result (λ count. (count ≡ length text.now) ⊎ (vec_len self.new.text ≡ QUEUED_BYTES)) }
        ensures dropped { self.new.dropped ≡ 0 }
        ensures err { OnErr result (self.new.text.items ≡ self.old.text.items) }
    {
        let count = text.len().min(QUEUED_BYTES - self.text.len());
        self.text.extend_from_slice(&text[..count])?;
        Ok(count)
    }

    /// Counts a line that isn't added.
    pub(crate) fn drop_line(&mut self)
        ensures text { self.new.text.items ≡ self.old.text.items }
        ensures dropped { (self.new.dropped ≡ self.old.dropped + 1) ⊎ (self.new.dropped ≡ self.old.dropped) }
    {
        self.dropped = self.dropped.saturating_add(1);
    }

    /// Gives all that waits in exchange for this empty text, and answers how many lines were dropped.
    pub(crate) fn hand_over(&mut self, text: &mut Vec<u8>) -> u64
        requires empty { text.old.items ≡ [] }
        ensures taken { (text.new.items ≡ self.old.text.items) × (result ≡ self.old.dropped) }
        ensures left { (self.new.text.items ≡ []) × (self.new.dropped ≡ 0) }
    {
        mem::swap(&mut self.text, text);
        mem::replace(&mut self.dropped, 0)
    }
}

/// A text with nothing in it, and room for all that may wait and for a line that tells what was dropped. So no
/// memory is taken later.
pub(crate) fn empty_text(alloc: Global) -> Result<Vec<u8>, AllocError>
    ensures { IfOk result (λ text. text.items ≡ []) }
{
    Vec::with_capacity(alloc, QUEUED_BYTES + NOTE_BYTES)
}
