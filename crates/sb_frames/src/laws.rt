//! What holds for the grammar and for streams.
ghost use Rattle.std.specs.Prelude.{◌≡◌, ℕ, List, ◌++◌, Ok, length};
ghost use Rattle.sb_frames.specs.Decoding.{decode_result};
ghost use Rattle.sb_frames.specs.Grammar.{Spells};
ghost use Rattle.sb_frames.specs.Streaming.{FramesOfBytes};
ghost use Rattle.sb_frames.specs.declared.frame.Frame.{Frame as AnyFrame};

use crate::frame::{MAX_BODY, MAX_FRAME};

/// The limits, as numbers.
pub fn limits()
    ensures body { MAX_BODY ≡ 64 }
    ensures frame { MAX_FRAME ≡ 66 }
{}

/// A frame has one spelling, and no spelling is the beginning of another: bytes that begin with one
/// spelling begin with no other, and spell one frame.
pub fn one_spelling()
    ensures frame { (f : AnyFrame) (a b : List ℕ) → Spells f a → Spells f b → a ≡ b }
    ensures front { (f g : AnyFrame) (a b x y : List ℕ) → Spells f a → Spells g b
        → a ++ x ≡ b ++ y → (f ≡ g) × (a ≡ b) }
{}

/// Bytes that begin with a frame's spelling are decoded as that frame, and it takes exactly the
/// bytes of the spelling.
pub fn spelled_is_decoded()
    ensures { (frame : AnyFrame) (front rest : List ℕ) → Spells frame front
        → decode_result (front ++ rest) ≡ Ok (frame, length front) }
{}

/// After any calls on a new stream, the bytes that it took are the spellings of the frames that it
/// handed out, in order, and then its unread bytes. This holds however the bytes were cut. An entry
/// that [`crate::Stream::skip_entry`] skips counts as the frame that `next` would hand out.
pub fn frames_of_bytes()
    ensures { FramesOfBytes }
{}
