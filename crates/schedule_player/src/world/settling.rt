//! Finishes everything at a replica.
ghost use Rattle.std.specs.Prelude.{◌≡◌, ◌+◌, ◌*◌, ◌<◌, ◌≤◌, List, length, IsTrue};
ghost use Rattle.sb_calls.specs.declared.call.TheConstants.{LOG_CALLS};
ghost use Rattle.schedule_player.specs.Observers.{idle_at};
ghost use Rattle.schedule_player.specs.EventLists.{PlaysEvents};
ghost use Rattle.schedule_player.specs.inner.SettlingSteps.{IsAbleToSettle, IsAtRest, IsTrueAt};
ghost use Rattle.schedule_player.specs.Settling.{IsBusyBefore, after_events, emptying_events, work_events, settled_world, settle_events, undone_at, workers_at};
ghost use Rattle.schedule_player.specs.World.{world_move};
ghost use Rattle.schedule_text.specs.declared.event.Event.TheVariants.{At};
ghost use Rattle.schedule_text.specs.declared.event.NodeEvent.TheVariants as event;
ghost use Rattle.schedule_text.specs.declared.note.Note.{Note as AnyNote};

use crate::world::World;
use sb_calls::WORKERS;
use schedule_text::NodeEvent;

impl World {
    // A replica's number of workers.
    fn workers(&self, replica: u32) -> u32
        requires { replica < length self.now.nodes }
        ensures value { result ≡ workers_at self.now replica }
        ensures limit { result ≤ WORKERS }
        ensures able { IsTrueAt IsAbleToSettle self.now replica }
    {
        self.nodes[replica as usize].hands.len() as u32
    }

    // The first worker takes the first behaviour that is ready. That takes no memory, so it never
    // fails.
    fn take_first(&mut self, replica: u32)
        ensures { self.new ≡ (world_move self.old (At replica (event.Take 1 0))).0 }
    {
        let _ = self.replica_step(
            replica,
            NodeEvent::Take {
                worker: 1,
                index: 0,
            },
        );
    }

    // A worker finishes what it has in hand. That takes no memory, so it never fails.
    fn finish_hand(&mut self, replica: u32, worker: u32)
        ensures { self.new ≡ (world_move self.old (At replica (event.Finish worker))).0 }
    {
        let _ = self.replica_step(replica, NodeEvent::Finish { worker });
    }

    // Each worker of a replica finishes what it has in hand. Answers the number of workers.
    fn finish_hands(&mut self, replica: u32) -> u32
        requires { replica < length self.old.nodes }
        ensures after { self.new ≡ after_events self.old (emptying_events self.old replica) }
        ensures count { result ≡ workers_at self.old replica }
        ensures limit { result ≤ WORKERS }
        ensures able { IsTrueAt IsAbleToSettle self.old replica }
        ensures at_rest { IsTrueAt IsAtRest self.new replica }
        ensures replicas { length self.new.nodes ≡ length self.old.nodes }
    {
        let workers = self.workers(replica);
        for worker in 0..workers {
            self.finish_hand(replica, worker + 1);
        }
        workers
    }

    // The first worker takes and finishes one entry after another until nothing is unfinished.
    // Answers the number of entries.
    fn run_until_idle(&mut self, replica: u32) -> u32
        requires replica { replica < length self.old.nodes }
        requires at_rest { IsTrueAt IsAtRest self.old replica }
        ensures after { self.new ≡ after_events self.old (work_events replica result) }
        ensures count { result ≡ undone_at self.old replica }
        ensures limit { result ≤ LOG_CALLS }
    {
        let mut done = 0;
        while !self.idle(replica) {
            self.take_first(replica);
            self.finish_hand(replica, 1);
            done += 1;
        }
        done
    }

    /// Settles a replica: each worker finishes what it has in hand, and then the first one takes
    /// and finishes one entry after another until nothing is unfinished. Answers the number of
    /// events.
    ///
    /// It takes no memory and never fails: whatever happened, no replica is stuck.
    pub fn settle(&mut self, replica: u32) -> u32
        requires { replica < length self.old.nodes }
        // The world moves by these events as the reference machine does, and by no more entries
        // than it takes until the replica is idle.
        ensures moves { (notes : List AnyNote) × PlaysEvents self.old (settle_events self.old replica) notes self.new }
        ensures until { IsBusyBefore self.old replica }
        ensures count { result ≡ length (settle_events self.old replica) }
        // There are at most one for each worker, and two for each entry that was unfinished.
        ensures limit { result ≤ workers_at self.old replica + 2 * undone_at self.old replica }
        // Nothing is unfinished then. All else at the replica, all other replicas, all frames and
        // the log stay.
        ensures idle { IsTrue (idle_at self.new replica) }
        ensures settled { self.new ≡ settled_world self.old replica }
    {
        let workers = self.finish_hands(replica);
        workers + 2 * self.run_until_idle(replica)
    }
}
