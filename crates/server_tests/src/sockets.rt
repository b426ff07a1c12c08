//! A client on the loopback.
use crate::bank::{expect, expect_bytes, joined, opened};
use crate::wire::{BALANCE, DEPOSIT, DONE, FLUSH, SHOWN};
use bank_server::{Primary, SessionFault, serve_session};
use cown_workers::InlineCrew;
use sb_checkpoint::MemoryStore;
use std::alloc::Global;
use std::io::{Read, Write};
use std::net::{Shutdown, SocketAddr, TcpListener, TcpStream};
use std::process::Abort;
use std::thread;

// Sends a session in pieces, the last ones after the first flush was answered, and reads everything
// that the server sends.
fn asked(rt: &impl Abort, host: &HostRuntime, server: SocketAddr) -> Vec<u8> {
    let mut stream = TcpStream::connect(host, server).expect(rt, "a connection");
    for piece in [BALANCE, &DEPOSIT[..5], &DEPOSIT[5..], FLUSH] {
        stream.write_all(piece).expect(rt, "a server that reads");
    }
    let mut first = [0u8; 42];
    stream.read_exact(&mut first).expect(rt, "two outcomes");
    for piece in [BALANCE, FLUSH] {
        stream.write_all(piece).expect(rt, "a server that reads");
    }
    stream
        .shutdown(Shutdown::Write)
        .expect(rt, "a connection that is up");
    let mut told = Vec::from_slice(host.alloc(), &first).expect(rt, "memory for bytes");
    stream.read_to_end(&mut told).expect(rt, "another outcome");
    told
}

// Serves the one client that connects.
fn serve_one(
    rt: &impl Abort,
    alloc: Global,
    listener: &TcpListener,
    primary: &mut Primary<MemoryStore>,
) -> Result<(), SessionFault> {
    let (stream, _) = listener.accept().expect(rt, "a client");
    serve_session(alloc, &mut &stream, &mut &stream, primary, &mut InlineCrew)
}

#[test]
fn over_a_socket(rt: HostRuntime) {
    let listener = TcpListener::bind(&rt, "127.0.0.1:0").expect(&rt, "a port");
    let server = listener.local_addr().expect(&rt, "an address");
    let mut primary = opened(&rt, rt.alloc());
    let (ended, told) = thread::join(
        &rt,
        || serve_one(&rt, rt.alloc(), &listener, &mut primary),
        || asked(&rt, &rt, server),
    );
    expect(&rt, ended == Ok(()), "how the session ends");
    let wanted = joined(&rt, rt.alloc(), &[SHOWN, DONE, SHOWN]);
    expect_bytes(&rt, &told, &wanted, "what the client is told");
    expect(&rt, primary.log().length() == 2, "the log");
}
