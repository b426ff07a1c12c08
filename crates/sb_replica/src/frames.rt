//! Frames from the network.
ghost use Rattle.std.specs.Prelude.{◌≡◌, ℕ, suc, Some, IfOk, IfErr, OnErr, MatchResult, option_map};
ghost use Rattle.cown_board.specs.Board.{length_of};
ghost use Rattle.sb_replica.specs.Offers.{after_advance};
ghost use Rattle.sb_replica.specs.Frames as spec;
ghost use Rattle.sb_replica.specs.Frames.{ReceivesBytes, IsReplicaFaultOf, after_frame, frame_answer, next_entry_answer};
ghost use Rattle.sb_replica.specs.Replica.{log_of, with_log};
ghost use Rattle.sb_replica.specs.declared.heard.Heard.TheVariants as heard;

use crate::fault::ReplicaFault;
use crate::heard::Heard;
use crate::offered::Offered;
use crate::replica::Replica;
use cown_board::Runs;
use sb_calls::resolve;
use sb_checkpoint::CheckpointStore;
use sb_frames::{Frame, FrameFault, decode};
use std::alloc::AllocError;

// The one frame that takes all of these bytes.
fn whole_frame(bytes: &[u8]) -> Result<Frame, FrameFault>
    ensures { result ≡ spec.whole_frame bytes.now }
{
    let (frame, size) = decode(bytes)?;
    if size == bytes.len() {
        Ok(frame)
    } else {
        Err(FrameFault::BadLength)
    }
}

// The answer to an entry with this number.
pub(crate) fn entry_answer(number: u64, offered: Offered) -> Heard
    ensures { result ≡ spec.entry_answer number offered }
{
    match offered {
        Offered::Next => Heard::Accepted(number),
        Offered::Repeat => Heard::Repeat(number),
        Offered::Gap(length) => Heard::Gap(length),
        Offered::Held(early) => Heard::Held(early),
        Offered::Busy(length) => Heard::Busy(length),
    }
}

// The answer to the entry that was held for this number, if there was one.
fn held_entry_answer(number: u64, offered: Option<Offered>) -> Option<Heard>
    ensures { result ≡ option_map (spec.entry_answer number) offered }
{
    Some(entry_answer(number, offered?))
}

impl<S: CheckpointStore> Replica<S> {
    /// Receives the bytes of one frame. An entry is offered to the log: the next one is accepted, and
    /// one that comes a little early is held. Every other frame is ignored. Nothing else changes.
    ///
    /// Fails if the bytes aren't one whole frame, or if memory is refused for an entry that would
    /// be accepted; nothing changes then.
    pub fn on_frame(&mut self, bytes: &[u8]) -> Result<Heard, ReplicaFault>
        ensures outcome { MatchResult result
            (λ heard. ReceivesBytes self.old bytes.now heard self.new)
            (λ fault. IsReplicaFaultOf self.old bytes.now fault × (self.new ≡ self.old)) }
    {
        let frame = match whole_frame(bytes) {
            Ok(frame) => frame,
            Err(fault) => return Err(ReplicaFault::BadFrame(fault)),
        };
        match self.receive_decoded(&frame) {
            Ok(heard) => Ok(heard),
            Err(_) => Err(ReplicaFault::OutOfMemory),
        }
    }

    // Receives a frame. It fails if memory is refused for an entry that would be accepted.
    fn receive_decoded(&mut self, frame: &Frame) -> Result<Heard, AllocError>
        ensures answer { IfOk result (λ answer. answer ≡ frame_answer self.old.board frame.now) }
        ensures err { OnErr result ((number : ℕ)
            × (frame_answer self.old.board frame.now ≡ heard.Accepted number)) }
        ensures state { MatchResult result
            (λ answer. self.new ≡ with_log self.old (after_frame self.old.names (log_of self.old) frame.now))
            (λ refused. self.new ≡ self.old) }
    {
        let Frame::Entry { number, call } = frame else {
            return Ok(Heard::Ignored);
        };
        let op = resolve(&self.directory, call);
        let offered = self.log.offer_entry(*number, op)?;
        Ok(entry_answer(*number, offered))
    }

    /// Accepts the entry that is held for the next number, if there is one, as if it came now.
    ///
    /// Fails if memory is refused for an entry that would be accepted; nothing changes then.
    pub fn advance(&mut self) -> Result<Option<Heard>, ReplicaFault>
        ensures answer { IfOk result (λ answer. answer ≡ next_entry_answer (log_of self.old)) }
        ensures err { IfErr result (λ fault. (fault ≡ ReplicaFault.OutOfMemory) ×
            (next_entry_answer (log_of self.old) ≡ Some (heard.Accepted (suc (length_of self.old.board))))) }
        ensures state { MatchResult result
            (λ answer. self.new ≡ with_log self.old (after_advance (log_of self.old)))
            (λ fault. self.new ≡ self.old) }
    {
        let next = self.log.board.length() + 1;
        let Ok(offered) = self.log.take_held() else {
            return Err(ReplicaFault::OutOfMemory);
        };
        Ok(held_entry_answer(next, offered))
    }
}
