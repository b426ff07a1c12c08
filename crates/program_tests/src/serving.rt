//! Servers of banks in tests.
ghost use Rattle.std.specs.Prelude.{◌≡◌, []};
ghost use Rattle.std.specs.List.{All};
ghost use Rattle.bank_server.specs.Clients.{IsFreshClient};
ghost use Rattle.bank_server.specs.Execution.{HasNoEntries};

use crate::clients::{Client, Notes, TestListener, Transcript};
use bank_clients::{Connections, OneByOne, Sessions};
use bank_program::{open_bank, read_opening};
use bank_server::{ClientLimits, Primary};
use bank_service::Server;
use program_words::Plan;
use sb_ask_log::Keeper;
use sb_checkpoint::{CheckpointStore, MemoryStore};
use std::alloc::Global;
use std::cell::Cell;
use std::net::{IpAddr, Ipv4Addr};
use std::process::Abort;
use std::sync::Wait;
use std::time::{Clock, Duration};

/// The address of this machine alone.
pub const HERE: IpAddr = IpAddr::V4(Ipv4Addr::LOCALHOST);

/// One session, on node 0 alone.
pub(crate) const PLAN: Plan = Plan {
    host: HERE,
    sessions: 1,
    clients: None,
    nodes: 1,
    workers: 0,
    saves: false,
    patience: None,
    is_quiet: true,
};

/// A bank with this opening.
pub(crate) fn bank_of(rt: &impl Abort, alloc: Global, opening: &[u8]) -> Box<Primary<MemoryStore>>
    ensures log { result.value.log ≡ [] }
    ensures opened { HasNoEntries result.value.node.board }
{
    bank_with(rt, alloc, opening, MemoryStore::new(alloc))
}

/// A bank with this opening and this store.
pub(crate) fn bank_with<S: CheckpointStore>(
    rt: &impl Abort,
    alloc: Global,
    opening: &[u8],
    store: S,
) -> Box<Primary<S>>
    ensures log { result.value.log ≡ [] }
    ensures opened { HasNoEntries result.value.node.board }
{
    let mut text = opening;
    let opening = read_opening(alloc, &mut text).expect(rt, "an opening");
    open_bank(alloc, opening, store).expect(rt, "a bank")
}

/// A server of this bank by this plan over connections that have this many places. It prints at port 4000.
pub(crate) fn server_over<A, S, W, K>(
    rt: &impl Abort,
    alloc: Global,
    connections: A,
    places: usize,
    primary: Box<Primary<S, K>>,
    plan: Plan,
    writer: W,
) -> Box<Server<A, S, W, K>>
where
    A: Connections + Drop,
    S: CheckpointStore,
    W: Drop,
    K: Keeper,
    ensures plan { result.value.plan ≡ plan }
    ensures primary { result.value.primary ≡ primary.value }
    ensures fresh { All IsFreshClient result.value.sessions.clients.all }
{
    let limits = ClientLimits::alone();
    let sessions = Sessions::open(alloc, connections, places, limits).expect(rt, "sessions");
    let server = Server {
        alloc,
        plan,
        port: 4000,
        sessions,
        primary: Box::into_inner(primary),
        writer,
    };
    Box::new(alloc, server).expect(rt, "a box")
}

/// A server to clients in memory.
pub(crate) type TestServer<'a, R, S, W, K> = Server<
    OneByOne<'a, R, TestListener<'a>, Notes<'a>>,
    S,
    W,
    K,
>;

/// A server of this bank by this plan to these clients, one after another.
pub(crate) fn server_to<'a, R, S, W, K>(
    rt: &'a R,
    alloc: Global,
    clients: &'a [Client<'a>],
    told: &'a Transcript,
    primary: Box<Primary<S, K>>,
    plan: Plan,
    writer: W,
) -> Box<TestServer<'a, R, S, W, K>>
where
    R: Abort + Wait + Clock,
    S: CheckpointStore,
    W: Drop,
    K: Keeper,
    ensures plan { result.value.plan ≡ plan }
    ensures primary { result.value.primary ≡ primary.value }
    ensures fresh { All IsFreshClient result.value.sessions.clients.all }
{
    let listener = TestListener {
        clients,
        next: Cell::new(0),
        told,
    };
    let patience = plan
        .patience
        .map(|seconds| Duration::from_secs(seconds as u64));
    let connections = OneByOne::new(rt, listener, patience, Notes { told });
    server_over(rt, alloc, connections, 1, primary, plan, writer)
}
