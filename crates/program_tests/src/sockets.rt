//! Banks that are served over the system's sockets.
use crate::clients::{Notes, Transcript};
use crate::serving::{PLAN, bank_of, server_over};
use bank_clients::OneByOne;
use bank_program::{Trouble, listen};
use bank_service::{ServeFault, serve};
use program_words::{Plan, here};
use std::alloc::Global;
use std::io::{Read, Write};
use std::net::{Net, OpenListener, OpenStream, Shutdown};
use std::process::Abort;
use std::sync::Wait;
use std::thread::Threads;
use std::time::Clock;
use std::{io, thread};

// Sends these pieces, and nothing after them.
fn send<S: Write + OpenStream>(stream: &mut S, sent: &[&[u8]]) -> io::Result<()> {
    for piece in sent {
        stream.write_all(piece)?;
    }
    stream.shutdown(Shutdown::Write)
}

// Compares what comes until the server hangs up.
fn hears(stream: &mut impl Read, told: &[u8]) -> io::Result<bool> {
    let mut left = told;
    let mut piece = [0u8; 64];
    for _ in 0..1_000u32 {
        let count = stream.read(&mut piece)?;
        if count == 0 {
            return Ok(left.is_empty());
        }
        let Some(rest) = left.strip_prefix(&piece[..count]) else {
            return Ok(false);
        };
        left = rest;
    }
    Ok(false)
}

// Connects to a port, sends these pieces, and compares what comes until the server hangs up.
fn is_told<N: Net>(net: &N, port: u16, sent: &[&[u8]], told: &[u8]) -> io::Result<bool> {
    let mut stream = net.connect(here(port))?;
    send(&mut stream, sent)?;
    hears(&mut stream, told)
}

// Client 7 deposits 5.00 for bob.
const DEPOSIT: &[u8] =
    b"\x00\x16\x01\0\0\0\x07\0\0\0\x02\x02\x03bob\0\0\0\0\0\0\x01\xf4\x00\x01\x06";

const DONE: &[u8] = b"\x00\x13\x05\0\0\0\x07\0\0\0\x02\0\x01\0\0\0\0\0\0\0\0";

// Serves a bank to two clients of this listener, and answers what it prints.
fn serve_two<R, L>(rt: &R, alloc: Global, listener: L) -> Vec<u8>
where
    R: Abort + Threads + Wait + Clock + Sync,
    L: OpenListener + Drop,
    L::Stream: Read + Write + OpenStream,
{
    let told = Transcript::new(alloc);
    let connections = OneByOne::new(rt, listener, None, Notes { told: &told });
    let port = connections.port().expect(rt, "a port");
    let plan = Plan {
        sessions: 2,
        nodes: 2,
        workers: 1,
        saves: true,
        ..PLAN
    };
    let bank = bank_of(rt, alloc, b"bob 0.00 20.00\nbegin\n");
    let mut written = Vec::new(alloc);
    let mut server = server_over(rt, alloc, connections, 1, bank, plan, &mut written);
    server.port = port;
    let served = serve(rt, Box::into_inner(server)).is_ok();
    assert!(rt; served);
    written
}

#[test]
fn clients_over_sockets(rt: HostRuntime) {
    let alloc = rt.alloc();
    let trouble = Trouble::new(alloc);
    let listener = listen(&rt, here(0), &trouble).expect(&rt, "a port");
    let port = listener.local_addr().expect(&rt, "an address").port();
    assert!(&rt; listen(&rt, here(port), &trouble).err() == Some(ServeFault::PortTaken(port)));
    let (printed, told) = thread::join(
        &rt,
        || serve_two(&rt, alloc, listener),
        || -> io::Result<bool> {
            let first = is_told(&rt, port, &[DEPOSIT, b"GET /"], DONE)?;
            Ok(first && is_told(&rt, port, &[DEPOSIT], DONE)?)
        },
    );
    assert!(&rt; told.expect(&rt, "a connection"));
    let wanted = format!(in alloc;
        "listening 127.0.0.1:{port}\nsession 1 fault 1\nsession 2 ok\n\
        bob 0.00 25.00\ntotal 25.00\n"
    )
    .expect(&rt, "memory for a text");
    assert!(&rt; printed.as_slice() == wanted.as_bytes());
}
