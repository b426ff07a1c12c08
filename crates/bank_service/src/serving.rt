//! A bank that is served.
ghost use Rattle.std.specs.Prelude.{◌≤◌, ◌<◌, IfErr, IfOk};
ghost use Rattle.std.specs.List.{All};
ghost use Rattle.bank_server.specs.Clients.{IsFreshClient};
ghost use Rattle.bank_server.specs.Execution.{HasNoEntries};
ghost use Rattle.bank_clients.specs.Sessions.{outside_of};
ghost use Rattle.bank_service.specs.ServeFaults.{IsServingFault};
ghost use Rattle.bank_service.specs.ServedAtOnce.{ServesAtOnce};

use crate::serve_fault::ServeFault;
use crate::server::Server;
use bank_clients::Connections;
use bank_server::{ReadyFollowers, with_team};
use cown_workers::OpenGate;
use sb_ask_log::Keeper;
use sb_calls::{REPLICAS, WORKERS};
use sb_checkpoint::CheckpointStore;
use std::io::Write;
use std::sync::Wait;
use std::thread::Threads;
use std::time::Clock;

/// Serves the clients of a bank, whose node 0 has nothing of its log yet, and gives back the server.
///
/// First the log is executed. Then the address is printed, and a line for each session, as soon as it
/// is over, node 0 has executed all that was asked, and it was sent to the followers. Node 0 is compared
/// with them after each [`COMPARED_ENTRIES`](bank_server::COMPARED_ENTRIES) entries or more. At the end,
/// once the followers agree with node 0, the rows and their total are printed. If the log is kept in a
/// file, its line is printed before the address, and once more before the rows.
///
/// The log is in the order in which what clients sent was taken. Each client gets the outcomes of its
/// own asks, after its own flush, once the whole log is kept. A client at fault ends its own session
/// only. How many are served at once is the connections'.
///
/// Fails with
/// - [`ServeFault::Run`] if a follower can't be started or differs from node 0, the crew is gone, the
///   connections, a write to the writer or the store's device fail, or memory is refused,
/// - [`ServeFault::ReadBack`] if the store doesn't give back what was put,
/// - [`ServeFault::Log`] if the log can't be kept.
///
/// After a fault the rows aren't printed.
pub fn serve<H, A, S, W, K>(
    rt: &H,
    server: Server<A, S, W, K>,
) -> Result<Server<A, S, W, K>, ServeFault>
where
    H: Threads + Wait + Clock + Sync,
    A: Connections + Drop,
    S: CheckpointStore,
    W: Write + Drop,
    K: Keeper,
    requires nodes { server.plan.nodes ≤ REPLICAS }
    requires workers { server.plan.workers ≤ WORKERS }
    requires opened { HasNoEntries server.primary.node.board }
    requires fresh { All IsFreshClient server.sessions.clients.all }
    ensures served { IfOk result (λ bank. ServesAtOnce S.model K.model server.plan server.port
        (outside_of A.coming A.outgoing server.sessions.connections)
        (outside_of A.coming A.outgoing bank.sessions.connections)
        server.sessions.clients.all bank.sessions.clients.all server.primary bank.primary
        (W.contents server.writer) (W.contents bank.writer)) }
    ensures fault { IfErr result (IsServingFault server.plan.nodes (0 < server.plan.workers) server.plan.saves
        K.model.fails) }
{
    let followers = ReadyFollowers::open(
        server.alloc,
        server.primary.node(),
        server.plan.nodes,
        0,
    )?;
    serve_beside(rt, followers, server)
}

/// Serves clients as [`serve`] does, and fails as it does, beside these followers. The plan's number
/// of nodes isn't read. A follower that began otherwise than the bank strays.
pub fn serve_beside<H, A, S, W, K>(
    rt: &H,
    followers: ReadyFollowers,
    server: Server<A, S, W, K>,
) -> Result<Server<A, S, W, K>, ServeFault>
where
    H: Threads + Wait + Clock + Sync,
    A: Connections + Drop,
    S: CheckpointStore,
    W: Write + Drop,
    K: Keeper,
    requires nodes { followers.nodes ≤ REPLICAS }
    requires workers { server.plan.workers ≤ WORKERS }
    requires opened { HasNoEntries server.primary.node.board }
    requires fresh { All IsFreshClient server.sessions.clients.all }
    ensures served { IfOk result (λ bank. ServesAtOnce S.model K.model server.plan server.port
        (outside_of A.coming A.outgoing server.sessions.connections)
        (outside_of A.coming A.outgoing bank.sessions.connections)
        server.sessions.clients.all bank.sessions.clients.all server.primary bank.primary
        (W.contents server.writer) (W.contents bank.writer)) }
    ensures fault { IfErr result (IsServingFault followers.nodes (0 < server.plan.workers) server.plan.saves
        K.model.fails) }
{
    // Its log has one number for each key.
    let _node = server.primary.node();
    let (alloc, workers) = (server.alloc, server.plan.workers);
    with_team(rt, alloc, followers, workers, &OpenGate, server)?
}
