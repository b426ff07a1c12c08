//! A replica cuts its log, puts its checkpoint, and goes back to it.
ghost use Rattle.std.specs.Prelude.{ℕ};
ghost use Rattle.schedule_player.specs.Bank.{BankOf};
ghost use Rattle.schedule_player.specs.inner.NodeInvariant.{IsNodeAt, Steps, machine_node};
ghost use Rattle.schedule_player.specs.ReplicaMoves.{cut_move, mark_move, restart_move};

use crate::fault::StepFault;
use crate::node::Node;
use cown_board::CutFault;
use sb_checkpoint::How;
use sb_replica::{MarkFault, RestartFault};
use schedule_text::Note;

impl Node {
    /// The replica makes a cut, if it has none.
    pub fn cut(&mut self) -> Result<Note, StepFault>
        ensures { (bank : BankOf) (r : ℕ) → IsNodeAt bank r self.old
            → Steps bank r self.old self.new result (cut_move (machine_node self.old)) }
    {
        match self.replica.cut() {
            Ok(length) => Ok(Note::Cut(length)),
            Err(CutFault::Pending(length)) => Ok(Note::Pending(length)),
            Err(CutFault::OutOfMemory) => Err(StepFault::OutOfMemory),
        }
    }

    /// The replica puts a checkpoint, and the put ends in this way.
    pub fn mark(&mut self, how: How) -> Result<Note, StepFault>
        ensures { (bank : BankOf) (r : ℕ) → IsNodeAt bank r self.old
            → Steps bank r self.old self.new result (mark_move (machine_node self.old) how) }
    {
        self.replica.tell(how);
        match self.replica.mark() {
            Ok(length) => Ok(Note::Marked(length)),
            Err(MarkFault::Busy) => Ok(Note::Unfinished),
            Err(MarkFault::Device) => Ok(Note::StoreFault),
            Err(MarkFault::OutOfMemory) => Err(StepFault::OutOfMemory),
        }
    }

    /// The replica goes back to its checkpoint. Hands and frames stay.
    pub fn restart(&mut self) -> Result<Note, StepFault>
        ensures { (bank : BankOf) (r : ℕ) → IsNodeAt bank r self.old
            → Steps bank r self.old self.new result (restart_move (machine_node self.old)) }
    {
        match self.replica.restart() {
            Ok(length) => Ok(Note::Restarted(length)),
            // A store in memory never fails, and holds what was put.
            Err(RestartFault::Device) => Ok(Note::StoreFault),
            Err(RestartFault::BadCheckpoint(_)) => Ok(Note::StoreFault),
            Err(RestartFault::OutOfMemory) => Err(StepFault::OutOfMemory),
        }
    }
}
