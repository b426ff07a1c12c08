//! A replica with its workers' hands, and everything that was ever sent to it and from it.
ghost use Rattle.std.specs.Prelude.{◌≡◌, ℕ, ◌<◌, ◌≤◌, None, List, length, replicate, IfOk};
ghost use Rattle.sb_rows.specs.Balances.{Balances};
ghost use Rattle.sb_rows.specs.Rows.{SameCustomers};
ghost use Rattle.sb_replica.specs.Replica.{replica_at_opening};
ghost use Rattle.schedule_player.specs.Bank.{BankOf};
ghost use Rattle.schedule_player.specs.inner.NodeInvariant.{IsNodeAt, Steps, machine_node};
ghost use Rattle.schedule_player.specs.ReplicaMoves.{node_move, opened_node};
ghost use Rattle.schedule_player.specs.World.{bank_with};

mod network;
pub(crate) mod sent_frames;
mod storing;
mod working;

use crate::fault::StepFault;
use crate::node::sent_frames::Frames;
use crate::transfer::sent_states::States;
use cown_board::Job;
use sb_calls::{LOG_CALLS, Op, REPLICAS};
use sb_checkpoint::{How, MemoryStore};
use sb_replica::Replica;
use sb_rows::{Columns, Directory};
use schedule_sequencer::DurableSequencer;
use schedule_text::{NodeEvent, Note};
use std::alloc::{AllocError, Global};

/// A replica, what each worker has in hand, all frames that were ever sent to it and from it, and
/// all states that were ever sent to it.
#[derive(Drop)]
pub(crate) struct Node {
    pub replica: Replica<MemoryStore>,
    pub hands: Vec<Option<Job<Op>>>,
    pub inbound: Frames,
    pub outbound: Frames,
    pub states: States,
}

// The hands of this many workers, all empty.
fn empty_hands(alloc: Global, workers: usize) -> Result<Vec<Option<Job<Op>>>, AllocError>
    ensures { IfOk result (λ hands. hands.items ≡ replicate workers None) }
{
    let mut hands = Vec::with_capacity(alloc, workers)?;
    for _ in 0..workers {
        hands.push_reserved(None);
    }
    Ok(hands)
}

// A replica at the opening, with names and columns of its own. The function owns little else, so that
// a `?` has little to drop.
fn open_replica(
    alloc: Global,
    id: u8,
    directory: &Directory,
    opening: &Columns,
) -> Result<Replica<MemoryStore>, AllocError>
    requires { length opening.now.savings ≡ length directory.now }
    ensures { IfOk result (λ replica. replica ≡ replica_at_opening id directory.now opening.now
        (record { slot = None; next = How.Ok; failures = 0 })) }
{
    let names = directory.copy()?;
    let columns = opening.copy()?;
    Replica::open(alloc, id, names, columns, MemoryStore::new(alloc))
}

impl Node {
    /// A replica with this many workers at the opening. It is one of every bank with this opening.
    pub fn open(
        alloc: Global,
        id: u8,
        directory: &Directory,
        opening: &Columns,
        workers: usize,
    ) -> Result<Node, AllocError>
        requires { length opening.now.savings ≡ length directory.now }
        ensures node { IfOk result (λ node. machine_node node ≡ opened_node workers) }
        ensures consistent { (bank : BankOf) → (bank.names ≡ directory.now) → (bank.opening ≡ opening.now)
            → SameCustomers bank.names bank.opening → length bank.calls ≤ LOG_CALLS
            → IfOk result (IsNodeAt bank id) }
    {
        let hands = empty_hands(alloc, workers)?;
        Ok(Node {
            replica: open_replica(alloc, id, directory, opening)?,
            hands,
            inbound: Frames::new(alloc),
            outbound: Frames::new(alloc),
            states: States::new(alloc),
        })
    }

    /// An event happens at the replica, which has this number.
    pub fn step(
        &mut self,
        replica: u32,
        event: NodeEvent,
        sequencer: &DurableSequencer,
    ) -> Result<Note, StepFault>
        ensures { (names : List (List ℕ)) (opening : Balances) → replica < REPLICAS
            → IsNodeAt (bank_with names opening sequencer.now.synced.log) replica self.old
            → Steps (bank_with names opening sequencer.now.synced.log) replica self.old self.new result
            (node_move (bank_with names opening sequencer.now.synced.log) sequencer.now.synced replica
            (machine_node self.old) event) }
    {
        match event {
            NodeEvent::Send { number } => self.send_entry(number, sequencer),
            NodeEvent::Resend => self.resend_entries(replica, sequencer),
            NodeEvent::To { position } => self.deliver(position),
            NodeEvent::Ack => self.acknowledge(),
            NodeEvent::Answer { number } => self.answer(number),
            NodeEvent::Take { worker, index } => Ok(self.take_job(worker, index)),
            NodeEvent::Finish { worker } => Ok(self.finish_job(worker)),
            NodeEvent::Mark { how } => self.mark(how),
            NodeEvent::Restart => self.restart(),
            NodeEvent::Cut => self.cut(),
            NodeEvent::Next => self.advance(),
            NodeEvent::Have => self.have(),
            NodeEvent::Adopt { position } => self.adopt(position),
        }
    }
}
