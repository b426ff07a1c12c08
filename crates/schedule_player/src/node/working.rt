//! What the workers of a replica do.
ghost use Rattle.std.specs.Prelude.{◌≡◌, ℕ, suc, ◌<◌, None, length, MatchOption};
ghost use Rattle.schedule_player.specs.Bank.{BankOf};
ghost use Rattle.schedule_player.specs.inner.NodeInvariant.{IsNodeAt, MovesTo, machine_node};
ghost use Rattle.schedule_player.specs.OneBased.{nth_item};
ghost use Rattle.schedule_player.specs.ReplicaMoves.{finish_move, take_move};

use crate::node::Node;
use cown_board::Runs;
use schedule_text::Note;

impl Node {
    // The index of a worker's hand.
    fn hand_index(&self, worker: u32) -> Option<usize>
        ensures { MatchOption result (nth_item self.now.hands.items worker ≡ None)
            (λ index. (worker ≡ suc index) × (index < length self.now.hands.items)) }
    {
        let index = worker.checked_sub(1)? as usize;
        if index < self.hands.len() {
            Some(index)
        } else {
            None
        }
    }

    /// A worker takes the ready behaviour that has this many ready ones before it.
    pub fn take_job(&mut self, worker: u32, index: u32) -> Note
        ensures { (bank : BankOf) (r : ℕ) → IsNodeAt bank r self.old
            → MovesTo bank r self.new result (take_move bank (machine_node self.old) worker index) }
    {
        let Some(hand) = self.hand_index(worker) else {
            return Note::Nothing;
        };
        if self.hands[hand].is_some() {
            return Note::HandFull;
        }
        let Some(job) = self.replica.take_at(index as usize) else {
            return Note::Nothing;
        };
        let number = job.number();
        self.hands[hand] = Some(job);
        Note::Took(number)
    }

    /// A worker executes what it has in hand and gives it back. Its hand is empty then.
    pub fn finish_job(&mut self, worker: u32) -> Note
        ensures { (bank : BankOf) (r : ℕ) → IsNodeAt bank r self.old
            → MovesTo bank r self.new result (finish_move bank (machine_node self.old) worker) }
    {
        let Some(hand) = self.hand_index(worker) else {
            return Note::Nothing;
        };
        let Some(job) = self.hands[hand].take() else {
            return Note::Nothing;
        };
        let number = job.number();
        let Ok(reply) = self.replica.finish(job.run()) else {
            return Note::Stranger(number);
        };
        Note::Finished(number, reply)
    }
}
