//! Serving the bank of standard input.
ghost use Rattle.std.specs.Prelude.{◌⊎◌, ◌≤◌, ◌<◌, false, true, is_some, IfErr, IfOk};
ghost use Rattle.bank_server.specs.Execution.{HasNoEntries};
ghost use Rattle.bank_service.specs.ServeFaults.{IsPortFault, IsServingFault};
ghost use Rattle.smallbank.specs.inner.ServingFaults.{IsOpenFault, IsProgramFault, IsStoreFault};

use bank_clients::{ClientSockets, Limits, OneByOne};
use bank_program::{
    CHECKPOINT, Device, LOG, LogReport, RunFault, SessionPrinter, StoreLock, Trouble, Watch,
    are_open, input, listen, listen_for_many, open_bank, open_bank_on_log, output, read_opening,
    serve_queued, serve_to_end, tell_earlier, try_store,
};
use bank_server::Primary;
use bank_service::ServeFault;
use program_words::{Plan, ServeWords};
use sb_ask_log::{AskLog, Keeper};
use sb_calls::{REPLICAS, WORKERS};
use sb_checkpoint::{CheckpointStore, FileStore, FolderFile};
use sb_log::{Reason, SystemFile};
use sb_text::read_all;
use std::net::{Net, OpenStream, SocketAddr};
use std::sync::Wait;
use std::thread::Threads;
use std::time::{Clock, Duration};

// A store in a folder of the system.
type SystemStore<'t, 'd> = FileStore<Watch<'t, 'd, FolderFile<HostRuntime>>>;

// A bank on a log's file of the system.
type SystemBank<'t, 'd, 'r> = Primary<SystemStore<'t, 'd>, AskLog<SystemFile<'r>>>;

/// Serves the bank of the opening in standard input at a port of the plan's host. If the plan saves, node 0 keeps
/// its checkpoint in the words' first folder. The log is kept in the second one, if there is one: then standard
/// input may be empty where the log goes on. A fault of the log's file is told on standard error, and an error of
/// any other device is noted.
///
/// A file or a socket would take the place of a standard stream that is closed, so all of them must be open.
/// The store's folder is locked as long as the bank is served. The server listens only after the whole
/// input was read and checked, the log's folder read, and the store's folder tried.
pub(crate) fn obey_serve<'d, H>(
    rt: &HostRuntime,
    threads: &H,
    words: ServeWords<'d>,
    trouble: &Trouble<'d>,
) -> Result<(), ServeFault>
where
    H: Threads + Wait + Clock + Sync + Net + Copy + Send + 'static,
    requires nodes { words.plan.nodes ≤ REPLICAS }
    requires workers { words.plan.workers ≤ WORKERS }
    ensures fault { IfErr result (IsProgramFault words.entry.port words.entry.plan (is_some words.entry.log)) }
{
    if !are_open(rt, trouble) {
        return Err(ServeFault::Run(RunFault::Device));
    }
    match words.log {
        Some(log) => serve_with_log(rt, threads, words, log, trouble),
        None => serve_without_log(rt, threads, words, trouble),
    }
}

// Serves a bank whose log is in no file.
fn serve_without_log<'d, H>(
    rt: &HostRuntime,
    threads: &H,
    words: ServeWords<'d>,
    trouble: &Trouble<'d>,
) -> Result<(), ServeFault>
where
    H: Threads + Wait + Clock + Sync + Net + Copy + Send + 'static,
    requires nodes { words.plan.nodes ≤ REPLICAS }
    requires workers { words.plan.workers ≤ WORKERS }
    ensures fault { IfErr result (IsProgramFault words.entry.port words.entry.plan false) }
{
    let (alloc, plan) = (rt.alloc(), words.plan);
    let opening = read_opening(alloc, &mut input(rt, trouble))?;
    let mut lock = StoreLock::new();
    let store = store_of(rt, words.store, plan.saves, &mut lock, trouble)?;
    if plan.saves {
        tell_earlier(rt, words.store);
    }
    let primary = open_bank(alloc, opening, store)?;
    serve_clients(rt, threads, words.port, primary, plan, trouble)
}

// Serves a bank whose log is kept in this folder.
fn serve_with_log<'d, H>(
    rt: &HostRuntime,
    threads: &H,
    words: ServeWords<'d>,
    log: &str,
    trouble: &Trouble<'d>,
) -> Result<(), ServeFault>
where
    H: Threads + Wait + Clock + Sync + Net + Copy + Send + 'static,
    requires nodes { words.plan.nodes ≤ REPLICAS }
    requires workers { words.plan.workers ≤ WORKERS }
    ensures fault { IfErr result (IsProgramFault words.entry.port words.entry.plan true) }
{
    let reason = Reason::new();
    let mut lock = StoreLock::new();
    let served = match open_on_log(rt, words, log, &mut lock, &reason, trouble) {
        Ok(primary) => serve_clients(rt, threads, words.port, primary, words.plan, trouble),
        Err(fault) => Err(fault),
    };
    if let Err(ServeFault::Log(fault)) = served {
        let report = LogReport {
            folder: log,
            name: LOG,
            fault,
            error: reason.error(),
        };
        // If standard error fails too, the status still says the fault.
        let _ = eprintln!(rt; "{report}");
    }
    served
}

// Opens a bank on the log in this folder, and tells that an earlier checkpoint in the store's folder will be
// replaced.
fn open_on_log<'t, 'd, 'r>(
    rt: &HostRuntime,
    words: ServeWords<'d>,
    log: &str,
    lock: &mut StoreLock,
    reason: &'r Reason,
    trouble: &'t Trouble<'d>,
) -> Result<Box<SystemBank<'t, 'd, 'r>>, ServeFault>
    ensures no_entries { IfOk result (λ primary. HasNoEntries primary.value.node.board) }
    ensures fault { IfErr result (IsOpenFault words.entry.plan.saves) }
{
    let (alloc, saves) = (rt.alloc(), words.plan.saves);
    let file = SystemFile::open(rt, log, LOG, reason)?;
    let text = read_all(alloc, &mut input(rt, trouble))?;
    let store = store_of(rt, words.store, saves, lock, trouble)?;
    let primary = open_bank_on_log(alloc, file, &text, store, &mut rt.stderr())?;
    if saves && primary.log().length() == 0 {
        tell_earlier(rt, words.store);
    }
    Ok(primary)
}

// A store in this folder, which is locked, and can be written. One of a bank that saves nothing isn't tried:
// it is never used, but a bank is always served over one type of store.
fn store_of<'t, 'd>(
    rt: &HostRuntime,
    folder: &'d str,
    saves: bool,
    lock: &mut StoreLock,
    trouble: &'t Trouble<'d>,
) -> Result<SystemStore<'t, 'd>, ServeFault>
    ensures fault { IfErr result (IsStoreFault saves) }
{
    let name = CHECKPOINT;
    let file = Watch {
        inner: FolderFile::new(rt.alloc(), *rt, folder, name)?,
        device: Device::File { folder, name },
        trouble,
    };
    if !saves {
        return Ok(FileStore::new(file));
    }
    lock.lock(rt, folder, trouble)?;
    try_store(file)
}

// Serves the clients of a bank at a port of the plan's host: as many at once as the plan says, or one after
// another.
fn serve_clients<H, S, K>(
    rt: &HostRuntime,
    threads: &H,
    port: u16,
    primary: Box<Primary<S, K>>,
    plan: Plan,
    trouble: &Trouble<'_>,
) -> Result<(), ServeFault>
where
    H: Threads + Wait + Clock + Sync + Net + Copy + Send + 'static,
    S: CheckpointStore,
    K: Keeper,
    requires nodes { plan.nodes ≤ REPLICAS }
    requires workers { plan.workers ≤ WORKERS }
    requires opened { HasNoEntries primary.value.node.board }
    ensures fault { IfErr result (λ fault. IsPortFault port fault
        ⊎ IsServingFault plan.nodes (0 < plan.workers) plan.saves K.model.fails fault) }
{
    match plan.clients {
        Some(at_once) => serve_sockets(rt, threads, port, at_once, primary, plan, trouble),
        None => serve_in_turn(rt, threads, port, primary, plan, trouble),
    }
}

// Serves so many clients at once. What is printed waits in a queue.
fn serve_sockets<H, S, K>(
    rt: &HostRuntime,
    threads: &H,
    port: u16,
    at_once: usize,
    primary: Box<Primary<S, K>>,
    plan: Plan,
    trouble: &Trouble<'_>,
) -> Result<(), ServeFault>
where
    H: Threads + Wait + Clock + Sync + Net + Copy + Send + 'static,
    S: CheckpointStore,
    K: Keeper,
    requires nodes { plan.nodes ≤ REPLICAS }
    requires workers { plan.workers ≤ WORKERS }
    requires opened { HasNoEntries primary.value.node.board }
    ensures fault { IfErr result (λ fault. IsPortFault port fault
        ⊎ IsServingFault plan.nodes (0 < plan.workers) plan.saves K.model.fails fault) }
{
    let (alloc, output) = (rt.alloc(), rt.stdout());
    match sockets_at(rt, threads, port, at_once, plan, trouble) {
        Ok((connections, port)) => serve_queued(
            threads,
            alloc,
            port,
            connections,
            primary,
            plan,
            output,
            trouble,
        ),
        Err(fault) => Err(fault),
    }
}

// The sockets of clients who are served at once, and the port where they come. An error of the system is noted.
fn sockets_at<'a, H: Wait + Clock + Net>(
    rt: &HostRuntime,
    threads: &'a H,
    port: u16,
    at_once: usize,
    plan: Plan,
    trouble: &Trouble<'_>,
) -> Result<(ClientSockets<'a, H, SessionPrinter>, u16), ServeFault>
    ensures fault { IfErr result (IsPortFault port) }
{
    let address = SocketAddr::new(plan.host, port);
    let device = Device::Address(address);
    let limits = Limits {
        at_once,
        in_all: plan.sessions,
        patience: patience_of(plan),
    };
    let notes = SessionPrinter::new(rt, plan.is_quiet);
    let listener = listen_for_many(threads, address, trouble)?;
    let made = ClientSockets::new(threads, threads, rt.alloc(), listener, limits, notes);
    let connections = trouble.noted(device, made)?;
    let port = trouble.noted(device, connections.port())?;
    Ok((connections, port))
}

// Serves clients one after another. An error of the system is noted.
fn serve_in_turn<H, S, K>(
    rt: &HostRuntime,
    threads: &H,
    port: u16,
    primary: Box<Primary<S, K>>,
    plan: Plan,
    trouble: &Trouble<'_>,
) -> Result<(), ServeFault>
where
    H: Threads + Wait + Clock + Sync + Net + Copy + Send + 'static,
    S: CheckpointStore,
    K: Keeper,
    requires nodes { plan.nodes ≤ REPLICAS }
    requires workers { plan.workers ≤ WORKERS }
    requires opened { HasNoEntries primary.value.node.board }
    ensures fault { IfErr result (λ fault. IsPortFault port fault
        ⊎ IsServingFault plan.nodes (0 < plan.workers) plan.saves K.model.fails fault) }
{
    let (alloc, address) = (rt.alloc(), SocketAddr::new(plan.host, port));
    let inner = match listen(threads, address, trouble) {
        Ok(listener) => listener,
        Err(fault) => return Err(fault),
    };
    let device = Device::Address(address);
    let listener = Watch {
        inner,
        device,
        trouble,
    };
    let notes = SessionPrinter::new(rt, plan.is_quiet);
    let connections = OneByOne::new(threads, listener, patience_of(plan), notes);
    let port = connections.port()?;
    let writer = output(rt, trouble);
    serve_to_end(threads, alloc, port, connections, primary, plan, writer)
}

// For how long a client may be silent.
fn patience_of(plan: Plan) -> Option<Duration> {
    plan.patience
        .map(|seconds| Duration::from_secs(seconds as u64))
}
