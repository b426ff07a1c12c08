//! Frames that were sent, as bytes.
ghost use Rattle.std.specs.Prelude.{◌≡◌, ◌+◌, ◌<◌, ◌≤◌, None, Some, [], ◌∷◌, ◌++◌, length, map, vec_capacity, IfOk, OnOk, OnErr, MatchOption};
ghost use Rattle.std.specs.Option.{option_copied};
ghost use Rattle.sb_frames.specs.Grammar.{Spells};
ghost use Rattle.sb_frames.specs.declared.frame.Frame.{Frame as AnyFrame};
ghost use Rattle.schedule_player.specs.OneBased.{nth_item, Every};
ghost use Rattle.schedule_player.specs.inner.FrameBytes.{frame_in, IsFrameBytes};

use arrayvec::ArrayVec;
use sb_frames::{Frame, MAX_FRAME, encode};
use std::alloc::{AllocError, Global};
use std::marker::Model;

/// All frames that were ever sent one way, in order. The frames' bytes are in the list itself.
#[derive(Drop)]
pub(crate) struct Frames {
    sent: Vec<ArrayVec<u8, MAX_FRAME>>,
}

impl Model for Frames {
    ghost use Rattle.std.specs.Prelude.{List, map};
    ghost use Rattle.sb_frames.specs.declared.frame.Frame.{Frame as AnyFrame};
    ghost use Rattle.schedule_player.specs.OneBased.{Every};
    ghost use Rattle.schedule_player.specs.inner.FrameBytes.{frame_in, IsFrameBytes};

    ghost Value = { List AnyFrame };

    ghost view = { λ f. map (λ bytes. frame_in bytes.items) f.sent.items };

    ghost invariant = { λ f. Every (λ bytes. IsFrameBytes bytes.items) f.sent.items };
}

/// The item at a position, counted from 1.
pub(crate) fn item_at<T>(items: &[T], position: u32) -> Option<&T>
    ensures { option_copied result ≡ nth_item items.now position }
{
    if position == 0 {
        return None;
    }
    items.get(position as usize - 1)
}

// Appends the bytes of frames, in room that is there.
fn push_all(sent: &mut Vec<ArrayVec<u8, MAX_FRAME>>, frames: &[Frame])
    requires { length sent.old.items + length frames.now ≤ vec_capacity sent.old }
    ensures spelled { Every (λ bytes. IsFrameBytes bytes.items) sent.old.items
        → Every (λ bytes. IsFrameBytes bytes.items) sent.new.items }
    ensures frames { map (λ bytes. frame_in bytes.items) sent.new.items
        ≡ map (λ bytes. frame_in bytes.items) sent.old.items ++ frames.now }
{
    for frame in frames {
        sent.push_reserved(encode(frame));
    }
}

impl Frames {
    /// No frames.
    pub fn new(alloc: Global) -> Frames
        ensures { result ≡ [] }
    {
        Frames {
            sent: Vec::new(alloc),
        }
    }

    /// Appends a frame, and answers its position, counted from 1.
    pub fn add(&mut self, frame: &Frame) -> Result<u64, AllocError>
        ensures sent { IfOk result (λ position. self.new ≡ self.old ++ frame.now ∷ []) }
        ensures position { IfOk result (λ position. position ≡ length self.new) }
        ensures err { OnErr result (self.new ≡ self.old) }
    {
        self.sent.push(encode(frame))?;
        Ok(self.sent.len() as u64)
    }

    /// Appends frames, in order. If memory is refused none is appended; with no frames that never
    /// happens.
    pub fn add_all(&mut self, frames: &[Frame]) -> Result<(), AllocError>
        ensures sent { OnOk result (self.new ≡ self.old ++ frames.now) }
        ensures err { OnErr result (self.new ≡ self.old) }
        ensures nonempty { OnErr result (0 < length frames.now) }
    {
        self.sent.reserve(frames.len())?;
        push_all(&mut self.sent, frames);
        Ok(())
    }

    /// The bytes of the frame at a position, counted from 1.
    pub fn get(&self, position: u32) -> Option<&[u8]>
        ensures { MatchOption result (nth_item self.now position ≡ None)
            (λ bytes. (frame : AnyFrame) × (nth_item self.now position ≡ Some frame) × Spells frame bytes.now) }
    {
        let bytes = item_at(&self.sent, position)?;
        Some(bytes.as_slice())
    }
}
