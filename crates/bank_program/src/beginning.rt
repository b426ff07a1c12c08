//! The beginning of an input, in which a line at fault is found again.
ghost use Rattle.std.specs.Prelude.{◌≡◌, ◌-◌, Some, slice_get, IfSome, option_map};
ghost use Rattle.sb_rows.specs.Text.{lines};

use sb_rows::next_line;
use std::alloc::Global;

// How many bytes are kept.
const KEPT: usize = 1_048_576;

/// The beginning of an input.
#[derive(Drop)]
pub(crate) struct Beginning {
    text: Vec<u8>,
    // Whether there was more.
    is_cut: bool,
}

impl Beginning {
    /// Nothing yet.
    pub(crate) fn new(alloc: Global) -> Beginning {
        Beginning {
            text: Vec::new(alloc),
            is_cut: false,
        }
    }

    /// Keeps the next piece of the input, as far as there is room, and memory.
    pub(crate) fn extend(&mut self, piece: &[u8]) {
        if self.is_cut {
            return;
        }
        let room = KEPT.saturating_sub(self.text.len());
        let front = &piece[..piece.len().min(room)];
        self.is_cut = self.text.extend_from_slice(front).is_err() || front.len() < piece.len();
    }

    /// The line of this number, from 1, if it is there and whole.
    pub(crate) fn line(&self, number: usize) -> Option<&[u8]>
        ensures { IfSome result (λ line. slice_get (lines self.now.text.items) (number - 1) ≡ Some line.now) }
    {
        let (line, after) = line_at(&self.text, number.checked_sub(1)?)?;
        if self.is_cut && after.is_empty() {
            return None;
        }
        Some(line)
    }
}

// The line at this place of a text, from 0, and the text after it.
fn line_at(text: &[u8], place: usize) -> Option<(&[u8], &[u8])>
    ensures { option_map (λ next. next.0.now) result ≡ slice_get (lines text.now) place }
{
    let mut rest = text;
    for _before in 0..place {
        let (_, after) = next_line(rest)?;
        rest = after;
    }
    next_line(rest)
}
