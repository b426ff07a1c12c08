//! Frames from a stream.
ghost use Rattle.std.specs.Prelude.{◌≡◌, ◌↔◌, Ok};
ghost use Rattle.cown_board.specs.Board.{unfinished_of};
ghost use Rattle.sb_frames.specs.Entries.{HasEntry};
ghost use Rattle.sb_replica.specs.Receiving.{Receives};
ghost use Rattle.sb_replica.specs.inner.OtherFrames.{HandsOutOther};
ghost use Rattle.sb_replica.specs.declared.received.Received.TheVariants as received;

use crate::fault::ReceiveFault;
use crate::frames::entry_answer;
use crate::received::Received;
use crate::replica::Replica;
use cown_board::{OPEN_BEHAVIOURS, Runs};
use sb_checkpoint::CheckpointStore;
use sb_frames::{EntryOp, Stream};

impl<S: CheckpointStore> Replica<S> {
    /// Receives the next frame of a stream as [`Replica::on_frame`] receives the bytes that spell it, or
    /// nothing if less than a whole frame is unread. It takes no memory beside what accepting an entry
    /// takes.
    ///
    /// It takes no entry that would be answered `Busy`: it takes nothing while as many behaviours are
    /// unfinished as the limit allows. The caller then lets some finish and calls again.
    ///
    /// Fails with the stream's fault; the replica is as it was. Fails if memory is refused for an entry
    /// that would be accepted; nothing changes then, and the entry still stands in the stream.
    #[inline]
    pub fn receive(&mut self, stream: &mut Stream) -> Result<Received, ReceiveFault>
        ensures outcome { Receives self.old stream.old result self.new stream.new }
        ensures busy { (result ≡ Ok received.Busy) ↔ (unfinished_of self.old.board ≡ OPEN_BEHAVIOURS) }
    {
        if self.board().unfinished() == OPEN_BEHAVIOURS {
            return Ok(Received::Busy);
        }
        let Some(EntryOp { number, op }) = stream.peek_entry(&self.directory) else {
            return other_frame(stream);
        };
        let Ok(offered) = self.log.offer_entry(number, op) else {
            return Err(ReceiveFault::OutOfMemory);
        };
        stream.skip_entry();
        Ok(Received::Entry(entry_answer(number, offered)))
    }
}

// What comes next in a stream that has no entry next.
fn other_frame(stream: &mut Stream) -> Result<Received, ReceiveFault>
    requires { ¬ HasEntry stream.old }
    ensures { HandsOutOther stream.old result stream.new }
{
    match stream.next() {
        Ok(Some(frame)) => Ok(Received::Other(frame)),
        Ok(None) => Ok(Received::Short),
        Err(fault) => Err(ReceiveFault::Stream(fault)),
    }
}
