//! Serving a bank that was opened.
ghost use Rattle.std.specs.Prelude.{◌≡◌, ◌≤◌, ◌<◌, IfErr, IfOk, replicate};
ghost use Rattle.bank_server.specs.Clients.{fresh_client};
ghost use Rattle.bank_server.specs.Execution.{HasNoEntries};
ghost use Rattle.bank_clients.specs.Sessions.{outside_of};
ghost use Rattle.bank_service.specs.ServeFaults.{IsServingFault};
ghost use Rattle.bank_service.specs.ServedAtOnce.{ServesAtOnce};
ghost use Rattle.bank_program.specs.PlannedClients.{planned_clients};

use crate::device::Device;
use crate::line_printer::LinePrinter;
use crate::queued_output::QueuedOutput;
use crate::trouble::Trouble;
use crate::watch::Watch;
use bank_clients::{Connections, Sessions};
use bank_server::{ClientLimits, Primary};
use bank_service::{ServeFault, Server, serve};
use program_words::Plan;
use sb_ask_log::Keeper;
use sb_calls::{REPLICAS, WORKERS};
use sb_checkpoint::CheckpointStore;
use std::alloc::Global;
use std::io::Write;
use std::sync::Wait;
use std::thread::Threads;
use std::time::Clock;

/// Serves the clients of a bank by a plan, as [`serve`] does, over their connections at a port: as many at
/// once as the plan says, or one after another, each within the limits of such a client. Gives back the
/// server.
///
/// Fails as [`serve`] does.
pub fn serve_bank<H, A, S, K, W>(
    rt: &H,
    alloc: Global,
    port: u16,
    connections: A,
    primary: Box<Primary<S, K>>,
    plan: Plan,
    writer: W,
) -> Result<Server<A, S, W, K>, ServeFault>
where
    H: Threads + Wait + Clock + Sync,
    A: Connections + Drop,
    S: CheckpointStore,
    K: Keeper,
    W: Write + Drop,
    requires nodes { plan.nodes ≤ REPLICAS }
    requires workers { plan.workers ≤ WORKERS }
    requires opened { HasNoEntries primary.value.node.board }
    ensures served { IfOk result (λ server. ServesAtOnce S.model K.model plan port
        (outside_of A.coming A.outgoing connections) (outside_of A.coming A.outgoing server.sessions.connections)
        (planned_clients plan.clients) server.sessions.clients.all primary.value server.primary
        (W.contents writer) (W.contents server.writer)) }
    ensures fault { IfErr result (IsServingFault plan.nodes (0 < plan.workers) plan.saves K.model.fails) }
{
    let (places, limits) = places_of(plan.clients);
    let sessions = Sessions::open(alloc, connections, places, limits)?;
    let primary = Box::into_inner(primary);
    let server = Server {
        alloc,
        plan,
        port,
        sessions,
        primary,
        writer,
    };
    serve(rt, server)
}

// How many places there are for clients, and the limits of each, if so many are to be served at once.
fn places_of(clients: Option<usize>) -> (usize, ClientLimits)
    ensures { planned_clients clients ≡ replicate result.0 (fresh_client result.1) }
{
    match clients {
        Some(at_once) => (at_once, ClientLimits::beside_others()),
        None => (1, ClientLimits::alone()),
    }
}

/// Serves the clients of a bank as [`serve_bank`] does, and leaves the server.
///
/// Fails as [`serve_bank`] does.
pub fn serve_to_end<H, A, S, K, W>(
    rt: &H,
    alloc: Global,
    port: u16,
    connections: A,
    primary: Box<Primary<S, K>>,
    plan: Plan,
    writer: W,
) -> Result<(), ServeFault>
where
    H: Threads + Wait + Clock + Sync,
    A: Connections + Drop,
    S: CheckpointStore,
    K: Keeper,
    W: Write + Drop,
    requires nodes { plan.nodes ≤ REPLICAS }
    requires workers { plan.workers ≤ WORKERS }
    requires opened { HasNoEntries primary.value.node.board }
    ensures fault { IfErr result (IsServingFault plan.nodes (0 < plan.workers) plan.saves K.model.fails) }
{
    serve_bank(rt, alloc, port, connections, primary, plan, writer)?;
    Ok(())
}

/// Serves the clients of a bank as [`serve_bank`] does. What is printed waits in a queue, so that nobody waits
/// for whoever reads the output. An error of the output is noted.
///
/// Fails as [`serve_bank`] does.
pub fn serve_queued<H, A, S, K, W>(
    rt: &H,
    alloc: Global,
    port: u16,
    connections: A,
    primary: Box<Primary<S, K>>,
    plan: Plan,
    output: W,
    trouble: &Trouble<'_>,
) -> Result<(), ServeFault>
where
    H: Threads + Wait + Clock + Sync + Copy + Send + 'static,
    A: Connections + Drop,
    S: CheckpointStore,
    K: Keeper,
    W: Write + Send + Drop + 'static,
    requires nodes { plan.nodes ≤ REPLICAS }
    requires workers { plan.workers ≤ WORKERS }
    requires opened { HasNoEntries primary.value.node.board }
    ensures fault { IfErr result (IsServingFault plan.nodes (0 < plan.workers) plan.saves K.model.fails) }
{
    let printer = LinePrinter::start(*rt, alloc, output)?;
    let device = Device::Output;
    let writer = Watch {
        inner: QueuedOutput::new(rt, printer.queue()),
        device,
        trouble,
    };
    match serve_to_end(rt, alloc, port, connections, primary, plan, writer) {
        Ok(()) => Ok(trouble.noted(device, printer.finish(rt))?),
        Err(fault) => {
            printer.leave(rt);
            Err(fault)
        }
    }
}
