//! A world at its opening.
ghost use Rattle.std.specs.Prelude.{◌≡◌, ℕ, ◌≤◌, Some, length, map, replicate, slice_get, IfOk};
ghost use Rattle.sb_rows.specs.Rows.{SameCustomers};
ghost use Rattle.sb_calls.specs.declared.call.TheConstants.{LOG_CALLS as MOST_CALLS};
ghost use Rattle.schedule_player.specs.Bank.{BankOf};
ghost use Rattle.schedule_player.specs.inner.NodeInvariant.{IsNodeAt, machine_node};
ghost use Rattle.schedule_player.specs.EventLists.{IsWorldAfter, no_events};
ghost use Rattle.schedule_player.specs.ReplicaMoves.{opened_node};
ghost use Rattle.schedule_player.specs.World.{opened_world};
ghost use Rattle.schedule_player.specs.declared.node.Node.{Node as AnyNode};

use crate::node::Node;
use crate::world::World;
use sb_calls::{REPLICAS, WORKERS};
use sb_rows::{Columns, Directory};
use schedule_sequencer::DurableSequencer;
use std::alloc::{AllocError, Global};

// The replicas of a bank at its opening.
fn open_nodes(
    alloc: Global,
    directory: &Directory,
    opening: &Columns,
    nodes: u8,
    workers: u8,
) -> Result<Vec<Node>, AllocError>
    requires { length opening.now.savings ≡ length directory.now }
    ensures node { IfOk result (λ all. map machine_node all.items ≡ replicate nodes (opened_node workers)) }
    ensures consistent { (bank : BankOf) → (bank.names ≡ directory.now) → (bank.opening ≡ opening.now)
        → SameCustomers bank.names bank.opening → length bank.calls ≤ MOST_CALLS
        → IfOk result (λ all. (r : ℕ) (node : AnyNode) → slice_get all.items r ≡ Some node → IsNodeAt bank r node) }
{
    let mut all = Vec::with_capacity(alloc, nodes as usize)?;
    for id in 0..nodes {
        let node = Node::open(alloc, id, directory, opening, workers as usize)?;
        all.push_reserved(node);
    }
    Ok(all)
}

impl World {
    /// A bank at its opening, with an empty log, at most sixteen replicas, 1 to 16 workers for
    /// each, and an empty store for each.
    ///
    /// Fails if memory is refused.
    pub fn open(
        alloc: Global,
        directory: Directory,
        opening: Columns,
        nodes: u8,
        workers: u8,
    ) -> Result<World, AllocError>
        requires customers { SameCustomers directory opening }
        requires limit { nodes ≤ REPLICAS }
        requires has_worker { 1 ≤ workers }
        requires worker_limit { workers ≤ WORKERS }
        ensures value { IfOk result (λ world. world ≡ opened_world (no_events directory opening nodes workers)) }
        // No event has happened yet.
        ensures played { IfOk result (IsWorldAfter (no_events directory opening nodes workers)) }
    {
        let sequencer = DurableSequencer::open(alloc, nodes as usize)?;
        let replicas = open_nodes(alloc, &directory, &opening, nodes, workers)?;
        Ok(World {
            directory,
            opening,
            sequencer,
            nodes: replicas,
        })
    }
}
