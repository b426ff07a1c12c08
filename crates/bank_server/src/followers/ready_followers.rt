//! Followers that aren't started yet.
ghost use Rattle.std.specs.Prelude.{◌≡◌, ◌+◌, ◌-◌, ◌≤◌, ◌<◌, [], ◌∷◌, ◌++◌, All, length, IfOk, OnErr, OnOk};
ghost use Rattle.sb_rows.specs.Rows.{SameCustomers};
ghost use Rattle.bank_server.specs.Execution.{HasNoEntries};
ghost use Rattle.sb_checkpoint.specs.declared.memory_store.MemoryStore as stores;
ghost use Rattle.sb_replica.specs.Replica.{ReplicaOf};
ghost use Rattle.bank_server.specs.Followers.{IsAtOpening};

use super::follower::Follower;
use super::follower_link::{FollowerLink, open_link};
use crate::node0::open_boxed;
use cown_board::Runs;
use sb_calls::REPLICAS;
use sb_checkpoint::{CheckpointStore, MemoryStore};
use sb_frames::Stream;
use sb_replica::Replica;
use sb_rows::{Columns, Directory};
use std::alloc::{AllocError, Global};
use std::marker::Model;

/// The followers of a bank that aren't started yet, at its opening. Contracts see the number of
/// nodes, with node 0, and the followers' replicas.
#[derive(Drop)]
pub struct ReadyFollowers {
    pub(crate) nodes: usize,
    pub(crate) links: Vec<FollowerLink>,
    pub(crate) followers: Vec<Follower>,
}

impl Model for ReadyFollowers {
    ghost use Rattle.std.specs.Prelude.{◌≡◌, ◌-◌, length, map};
    ghost use Rattle.bank_server.specs.Followers.{ReadyFollowersOf};

    ghost Value = { ReadyFollowersOf };

    ghost view = { λ ready. record {
      nodes = ready.nodes;
      replicas = map (λ follower. follower.replica.value) ready.followers.items;
    } };

    // One for each node but node 0, and channels to each.
    ghost invariant = { λ ready. (length ready.links.items ≡ ready.nodes - 1)
        × (length ready.followers.items ≡ ready.nodes - 1) };
}

impl ReadyFollowers {
    /// No followers: node 0 is alone.
    pub fn new(alloc: Global) -> ReadyFollowers
        ensures { result ≡ record { nodes = 1; replicas = [] } }
    {
        ReadyFollowers {
            nodes: 1,
            links: Vec::new(alloc),
            followers: Vec::new(alloc),
        }
    }

    /// The followers of a bank of this many nodes. Each has copies of the names and columns of node
    /// 0, which hasn't executed anything yet, and room for this many entries.
    ///
    /// Fails if memory is refused.
    pub fn open<S: CheckpointStore>(
        alloc: Global,
        node: &Replica<S>,
        nodes: usize,
        entries: usize,
    ) -> Result<ReadyFollowers, AllocError>
        requires limit { nodes ≤ REPLICAS }
        requires opened { HasNoEntries node.now.board }
        requires customers { SameCustomers node.now.names node.now.board.opening }
        ensures nodes { IfOk result (λ ready. ready.nodes ≡ nodes) }
        // One for each node but node 0, at its opening.
        ensures as_many { IfOk result (λ ready. length ready.replicas ≡ nodes - 1) }
        ensures opened { IfOk result (λ ready. All (IsAtOpening node.now.names node.now.board.opening)
            ready.replicas) }
    {
        let mut ready = ReadyFollowers::new(alloc);
        while ready.nodes < nodes {
            ready.add(alloc, node, entries)?;
        }
        // No nodes have no followers either.
        ready.nodes = nodes;
        Ok(ready)
    }

    /// Adds a follower behind the others. It has copies of the names and columns of this node,
    /// which hasn't executed anything yet, and room for this many entries.
    ///
    /// Fails if memory is refused; nothing changes then.
    pub fn add<S: CheckpointStore>(
        &mut self,
        alloc: Global,
        node: &Replica<S>,
        entries: usize,
    ) -> Result<(), AllocError>
        requires some { 1 ≤ self.old.nodes }
        requires limit { self.old.nodes < REPLICAS }
        requires opened { HasNoEntries node.now.board }
        requires customers { SameCustomers node.now.names node.now.board.opening }
        ensures nodes { OnOk result (self.new.nodes ≡ self.old.nodes + 1) }
        ensures added { OnOk result ((follower : ReplicaOf stores.MemoryStore)
            × IsAtOpening node.now.names node.now.board.opening follower
            × (self.new.replicas ≡ self.old.replicas ++ follower ∷ [])) }
        ensures err { OnErr result (self.new ≡ self.old) }
    {
        // Nothing is unfinished.
        let columns = node.final_columns().unwrap();
        let replica = open_copy(alloc, self.nodes as u8, node.directory(), columns, entries)?;
        let (link, inbox, outbox) = open_link(alloc)?;
        self.links.reserve(1)?;
        self.followers.reserve(1)?;
        self.links.push_reserved(link);
        self.followers.push_reserved(Follower {
            replica,
            stream: Stream::new(alloc),
            inbox,
            outbox,
        });
        self.nodes += 1;
        Ok(())
    }
}

// A replica with its own names and columns, and with room for this many entries.
fn open_copy(
    alloc: Global,
    id: u8,
    directory: &Directory,
    columns: &Columns,
    entries: usize,
) -> Result<Box<Replica<MemoryStore>>, AllocError>
    requires { length columns.now.savings ≡ length directory.now }
    ensures { IfOk result (λ node. IsAtOpening directory.now columns.now node.value) }
{
    let names = directory.copy()?;
    let own = columns.copy()?;
    let mut node = open_boxed(alloc, id, names, own, MemoryStore::new(alloc))?;
    node.reserve(entries)?;
    Ok(node)
}
