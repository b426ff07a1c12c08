//! A stream of bytes, read as frames.
ghost use Rattle.std.specs.Prelude.{◌≡◌, ◌↔◌, [], Ok, Err, Some, IsTrue, false, true, IfNone, IfOk, IfSome, OnErr, length};
ghost use Rattle.sb_frames.specs.Streaming.{StreamState, empty_stream, Feeds, next_of, Step, Feed, Next, HandsOutFrame, IsShort, FailsBy};
ghost use Rattle.sb_calls.specs.Op.{IsOpWithin};
ghost use Rattle.sb_frames.specs.Entries.{HasEntry, HasEntryOp};
ghost use Rattle.sb_frames.specs.declared.fault.StreamFault.{StreamFault as AnyStreamFault};

use crate::decoding::{decode, frame_size};
use crate::entry_op::{EntryOp, first_entry};
use crate::fault::{FrameFault, StreamFault};
use crate::frame::Frame;
use bytes::BytesMut;
use sb_rows::Directory;
use std::alloc::Global;
use std::marker::Model;

/// Takes bytes as they arrive, in pieces of any size, and hands out the frames that they spell.
///
/// It keeps the unread bytes. Read bytes are skipped in place. The rest is moved only if that frees
/// as much as it moves, or if the room doubles. So reading takes time in proportion to the bytes,
/// however they are cut.
#[derive(Drop)]
pub struct Stream {
    buffer: BytesMut,
    broken: bool,
}

impl Model for Stream {
    ghost use Rattle.sb_frames.specs.Streaming.{StreamState};

    ghost Value = { StreamState };

    ghost view = { λ s. record { unread = s.buffer.items; failed = s.broken } };
}

impl Stream {
    /// A stream that has had no bytes. It allocates nothing before the first ones.
    pub fn new(alloc: Global) -> Stream
        ensures { result ≡ empty_stream }
    {
        Stream {
            buffer: BytesMut::new(alloc),
            broken: false,
        }
    }

    /// Appends the next bytes of the stream.
    ///
    /// Fails with [`StreamFault::Failed`] if an earlier frame was faulty, and with
    /// [`StreamFault::OutOfMemory`] if memory is refused. Each fault leaves the stream as it was.
    pub fn feed(&mut self, bytes: &[u8]) -> Result<(), StreamFault>
        ensures state { Feeds self.old bytes.now result self.new }
        ensures step { Step self.old (Feed bytes.now result) self.new }
    {
        if self.broken {
            return Err(StreamFault::Failed);
        }
        match self.buffer.extend_from_slice(bytes) {
            Ok(()) => Ok(()),
            Err(_) => Err(StreamFault::OutOfMemory),
        }
    }

    /// The next frame, or `None` if less than a whole frame is unread. It allocates nothing.
    ///
    /// Fails with [`StreamFault::Bad`] if no frame begins with the unread bytes, whatever follows
    /// them. From then on the stream has failed: it fails with [`StreamFault::Failed`], and nothing
    /// changes.
    #[inline]
    pub fn next(&mut self) -> Result<Option<Frame>, StreamFault>
        ensures state { (result, self.new) ≡ next_of self.old }
        ensures step { Step self.old (Next result) self.new }
        // The bytes that the stream skipped are the frame's spelling.
        ensures frame { IfOk result (λ next. IfSome next (λ frame. HandsOutFrame self.old frame self.new)) }
        // Nothing changes if there is no frame yet.
        ensures short { IfOk result (λ next. IfNone next (IsShort self.old × (self.new ≡ self.old))) }
        // Each fault comes exactly if its reason holds; memory is never refused.
        ensures fault { (fault : AnyStreamFault) → (result ≡ Err fault) ↔ FailsBy self.old fault }
        // After a fault the stream has failed, and its unread bytes stay.
        ensures failed { OnErr result (self.new ≡ record self.old { failed = true }) }
    {
        if self.broken {
            return Err(StreamFault::Failed);
        }
        match decode(&self.buffer) {
            Ok((frame, length)) => {
                self.buffer.advance(length);
                Ok(Some(frame))
            }
            Err(FrameFault::Short) => Ok(None),
            Err(fault) => {
                self.broken = true;
                Err(StreamFault::Bad(fault))
            }
        }
    }

    /// The entry that [`Stream::next`] would hand out, with its names looked up in a directory, or
    /// `None` if no whole entry is there: then [`Stream::next`] says what is. It allocates nothing.
    #[inline]
    pub fn peek_entry(&self, directory: &Directory) -> Option<EntryOp>
        ensures entry { IfSome result (λ entry. HasEntryOp directory.now self.now entry) }
        ensures none { IfNone result (¬ HasEntry self.now) }
        ensures within { IfSome result (λ entry. IsOpWithin (length directory.now) entry.op) }
    {
        if self.broken {
            return None;
        }
        first_entry(&self.buffer, directory)
    }

    /// Skips the entry that [`Stream::next`] would hand out. It allocates nothing.
    #[inline]
    pub fn skip_entry(&mut self)
        requires { HasEntry self.old }
        ensures { self.new ≡ (next_of self.old).1 }
    {
        let size = frame_size(&self.buffer).unwrap();
        self.buffer.advance(size);
    }

    /// Whether the bytes so far are whole frames, and all of them were handed out. It allocates
    /// nothing.
    pub fn ended(&self) -> bool
        ensures { IsTrue result ↔ ((self.now.unread ≡ []) × (self.now.failed ≡ false)) }
    {
        self.buffer.is_empty() && !self.broken
    }
}
