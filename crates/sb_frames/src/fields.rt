//! Fields read from the left.
ghost use Rattle.std.specs.Prelude.{◌≡◌, ◌==◌, length};
ghost use Rattle.std.specs.Int.{w32, w64};
ghost use Rattle.sb_frames.specs.Reading as spec;
ghost use Rattle.sb_frames.specs.inner.FieldReading.{TakesField, TakesNumber};

use crate::fault::FrameFault;
use sb_amount::Cents;
use sb_rows::{NAME_BYTES, Name};
use std::marker::Model;

/// The unread fields of a body. Each reader takes its field from the front, or fails: that of a
/// number only if bytes are missing. After a reader fails, nothing is known of what is left.
#[derive(Drop)]
pub(crate) struct Fields<'a> {
    bytes: &'a [u8],
}

impl<'a> Model for Fields<'a> {
    ghost use Rattle.std.specs.Prelude.{ℕ, List};

    ghost Value = { List ℕ };

    ghost view = { λ f. f.bytes.now };
}

impl<'a> Fields<'a> {
    pub(crate) fn of(body: &'a [u8]) -> Fields<'a>
        ensures { result ≡ body.entry.now }
    {
        Fields { bytes: body }
    }

    /// Whether everything is read.
    pub(crate) fn is_empty(&self) -> bool
        ensures { result ≡ (length self.now == 0) }
    {
        self.bytes.is_empty()
    }

    #[inline]
    pub(crate) fn byte(&mut self) -> Option<u8>
        ensures { TakesNumber result self.new (spec.byte_at self.old) }
    {
        match self.bytes {
            [] => None,
            [byte, rest @ ..] => {
                self.bytes = rest;
                Some(*byte)
            }
        }
    }

    #[tactic(auto, unfolding(crate::specs::Reading::unsigned_at, crate::specs::Reading::bytes_at))]
    pub(crate) fn u32(&mut self) -> Option<u32>
        ensures { TakesNumber result self.new (spec.unsigned_at w32 self.old) }
    {
        match self.bytes.split_first_chunk() {
            None => None,
            Some((cells, rest)) => {
                self.bytes = rest;
                Some(u32::from_be_bytes(*cells))
            }
        }
    }

    #[inline]
    #[tactic(auto, unfolding(crate::specs::Reading::unsigned_at, crate::specs::Reading::bytes_at))]
    pub(crate) fn u64(&mut self) -> Option<u64>
        ensures { TakesNumber result self.new (spec.unsigned_at w64 self.old) }
    {
        match self.bytes.split_first_chunk() {
            None => None,
            Some((cells, rest)) => {
                self.bytes = rest;
                Some(u64::from_be_bytes(*cells))
            }
        }
    }

    #[inline]
    #[tactic(auto, unfolding(crate::specs::Reading::signed_at))]
    pub(crate) fn i64(&mut self) -> Option<i64>
        ensures { TakesNumber result self.new (spec.signed_at self.old) }
    {
        Some(self.u64()?.cast_signed())
    }

    #[inline]
    #[tactic(auto, unfolding(crate::specs::Reading::amount_at))]
    pub(crate) fn amount(&mut self) -> Result<Cents, FrameFault>
        ensures { TakesField result self.new (spec.amount_at self.old) }
    {
        let Some(cents) = self.i64() else {
            return Err(FrameFault::BadLength);
        };
        Cents::new(cents).ok_or(FrameFault::BadAmount)
    }

    #[inline]
    #[tactic(auto, unfolding(crate::specs::Reading::name_at, crate::specs::Reading::bytes_at))]
    pub(crate) fn name(&mut self) -> Result<Name, FrameFault>
        ensures { TakesField result self.new (spec.name_at self.old) }
    {
        let Some(size) = self.byte() else {
            return Err(FrameFault::BadLength);
        };
        let size = usize::from(size);
        if size == 0 || NAME_BYTES < size {
            return Err(FrameFault::BadName);
        }
        let Some((text, rest)) = self.bytes.split_at_checked(size) else {
            return Err(FrameFault::BadLength);
        };
        self.bytes = rest;
        Name::new(text).ok_or(FrameFault::BadName)
    }
}
