//! Clients that keep a server waiting, and what is noted of each one.
use crate::clients::{Client, Manner, Transcript, plain};
use crate::served::{GARBAGE, asking};
use crate::serving::{PLAN, bank_of, server_to};
use bank_server::AskCounts;
use bank_service::serve;
use program_words::Plan;
use std::alloc::Global;
use std::process::Abort;
use std::sync::Wait;
use std::thread::Threads;
use std::time::{Clock, Duration};

// Serves a bank of no customers to this client, who waits this long, and answers how the server
// treated it.
fn serve_to<R>(rt: &R, alloc: Global, client: Client, patience: Option<usize>) -> Box<Transcript>
where
    R: Abort + Threads + Wait + Clock + Sync,
{
    let told = Box::new(alloc, Transcript::new(alloc)).expect(rt, "a box");
    let plan = Plan { patience, ..PLAN };
    let clients = [client];
    let bank = bank_of(rt, alloc, b"begin");
    let server = server_to(rt, alloc, &clients, &*told, bank, plan, Vec::new(alloc));
    let served = serve(rt, Box::into_inner(server)).is_ok();
    assert!(rt; served);
    told
}

// How long a read and a write wait for this client, and how many reads it gets once it is hung up on.
fn waits<R>(
    rt: &R,
    alloc: Global,
    client: Client,
    patience: Option<usize>,
) -> (Option<Duration>, Option<Duration>, usize)
where
    R: Abort + Threads + Wait + Clock + Sync,
{
    let told = serve_to(rt, alloc, client, patience);
    (
        told.read_limit.get(),
        told.write_limit.get(),
        told.late_reads.get(),
    )
}

#[test]
fn a_client_is_waited_for_as_long_as_said(rt: HostRuntime) {
    let minute = Some(Duration::from_secs(60));
    for (patience, limit) in [(None, None), (Some(60), minute)] {
        assert!(&rt; waits(&rt, rt.alloc(), plain(b""), patience) == (limit, limit, 0));
    }
}

// It is left once it is silent for three seconds, ends, or goes on sending. How long a slow one is listened
// to is seen by `.ci/program`.
#[test]
fn a_client_at_fault_is_left(rt: HostRuntime) {
    let limit = Some(Duration::from_secs(3));
    for (manner, reads) in [
        (Manner::Plain, 1),
        (Manner::Drip, 4_096),
        (Manner::Flood, 16),
    ] {
        let client = Client {
            sent: b"GET",
            manner,
        };
        assert!(&rt; waits(&rt, rt.alloc(), client, None) == (limit, None, reads));
    }
}

// What is noted of a client: its asks, and how many of its bytes were read and written.
fn noted<R>(rt: &R, alloc: Global, client: Client) -> (AskCounts, u64, u64)
where
    R: Abort + Threads + Wait + Clock + Sync,
{
    let told = serve_to(rt, alloc, client, None);
    let noted = told.noted.try_borrow().ok().expect(rt, "notes");
    assert!(rt; noted.len() == 1);
    noted.first().copied().expect(rt, "a note")
}

#[test]
fn what_is_noted_of_clients(rt: HostRuntime) {
    let two = AskCounts {
        entries: 2,
        repeats: 0,
        refusals: 0,
    };
    let none = AskCounts { entries: 0, ..two };
    for (client, wanted) in [
        (asking(Manner::Plain), (two, 45, 42)),
        (asking(Manner::Fitful), (two, 45, 42)),
        (asking(Manner::Deaf), (two, 45, 0)),
        (asking(Manner::Stubborn), (none, 0, 0)),
        // What is skipped isn't counted.
        (plain(GARBAGE), (none, 3, 0)),
    ] {
        assert!(&rt; noted(&rt, rt.alloc(), client) == wanted);
    }
}
