//! Servers in memory, each of which serves one connection.
ghost use Rattle.std.specs.Prelude.{Some};
ghost use Rattle.ask_client.specs.Connections.{LeavesStream};

use ask_client::{AskFault, AskPlan, Dialer, ServerStream, ask_all};
use std::alloc::Global;
use std::collections::VecDeque;
use std::io;
use std::io::{ErrorKind, Read, Write};
use std::net::{OpenStream, Shutdown};
use std::process::Abort;

/// What a server sends, and what happens then.
#[derive(Clone, Copy)]
pub(crate) struct Server<'t> {
    pub(crate) sends: &'t [u8],
    /// How many bytes of that a read gives at most.
    pub(crate) piece: usize,
    /// Whether it ends its side after that. Otherwise the connection breaks.
    pub(crate) ends: bool,
    /// How many bytes it takes before its connection breaks.
    pub(crate) takes: usize,
    /// What it must have been sent.
    pub(crate) asked: &'t [u8],
}

/// Where the bytes that a server sends are read.
#[derive(Drop)]
pub(crate) struct Mouth<'t> {
    left: &'t [u8],
    piece: usize,
    ends: bool,
}

impl Read for Mouth<'_> {
    fn read(&mut self, buf: &mut [u8]) -> io::Result<usize> {
        let count = self.left.len().min(buf.len()).min(self.piece);
        if count == 0 && !self.ends {
            return Err(io::Error::from(ErrorKind::ConnectionReset));
        }
        let (piece, rest) = self.left.split_at(count);
        buf[..count].copy_from_slice(piece);
        self.left = rest;
        Ok(count)
    }
}

impl OpenStream for Mouth<'_> {
    fn shutdown(&self, _how: Shutdown) -> io::Result<()> {
        Ok(())
    }
}

/// Where the bytes that a server gets are written.
#[derive(Drop)]
pub(crate) struct Ear {
    bytes: Vec<u8>,
    room: usize,
}

impl Write for Ear {
    fn write(&mut self, buf: &[u8]) -> io::Result<usize> {
        let count = buf.len().min(self.room).min(7);
        if count == 0 {
            return Err(io::Error::from(ErrorKind::BrokenPipe));
        }
        self.bytes.extend_from_slice(&buf[..count])?;
        self.room -= count;
        Ok(count)
    }

    fn flush(&mut self) -> io::Result<()> {
        Ok(())
    }
}

/// Connects to these servers, in order. After the last one nobody is there.
#[derive(Drop)]
pub(crate) struct TestDialer<'r, 't, A: Abort> {
    rt: &'r A,
    coming: VecDeque<ServerStream<Mouth<'t>, Ear>>,
    left: Vec<ServerStream<Mouth<'t>, Ear>>,
}

impl<'r, 't, A: Abort> TestDialer<'r, 't, A> {
    /// Connects to these servers.
    pub(crate) fn new(rt: &'r A, alloc: Global, servers: &[Server<'t>]) -> TestDialer<'r, 't, A> {
        let mut coming = VecDeque::new(alloc);
        for server in servers {
            let stream = ServerStream {
                reader: Mouth {
                    left: server.sends,
                    piece: server.piece,
                    ends: server.ends,
                },
                writer: Ear {
                    bytes: Vec::new(alloc),
                    room: server.takes,
                },
            };
            coming.push_back(stream).expect(rt, "memory");
        }
        TestDialer {
            rt,
            coming,
            left: Vec::new(alloc),
        }
    }
}

impl<'r, 't, A: Abort> Dialer for TestDialer<'r, 't, A> {
    type Reader = Mouth<'t>;

    type Writer = Ear;

    ghost streams = { λ dialer. Some (record { coming = dialer.coming.items; left = dialer.left.items }) };

    fn dial(&mut self) -> io::Result<ServerStream<Mouth<'t>, Ear>> {
        match self.coming.pop_front() {
            Some(stream) => Ok(stream),
            None => Err(io::Error::from(ErrorKind::ConnectionRefused)),
        }
    }

    fn leave(&mut self, stream: ServerStream<Mouth<'t>, Ear>)
        ensures left { LeavesStream stream.entry
            (Some (record { coming = self.old.coming.items; left = self.old.left.items }))
            (Some (record { coming = self.new.coming.items; left = self.new.left.items })) }
    {
        self.left.push(stream).expect(self.rt, "memory");
    }
}

/// A run of a client: what it asks as, its input, the servers, and what it prints and how it ends.
#[derive(Clone, Copy)]
pub(crate) struct Case<'t> {
    pub(crate) plan: AskPlan,
    pub(crate) input: &'t [u8],
    pub(crate) servers: &'t [Server<'t>],
    pub(crate) printed: &'t [u8],
    pub(crate) ended: Result<(), AskFault>,
}

/// Checks a run, and what each server was sent.
pub(crate) fn expect_run<'t>(rt: &impl Abort, alloc: Global, name: &str, case: Case<'t>) {
    let mut dialer = TestDialer::new(rt, alloc, case.servers);
    let mut input = case.input;
    let mut printed: Vec<u8> = Vec::new(alloc);
    let ended = ask_all(alloc, case.plan, &mut input, &mut dialer, &mut printed);
    assert!(rt; ended == case.ended, "{name}: how it ended");
    assert!(rt;
        printed.as_slice() == case.printed,
        "{name}: what it printed"
    );
    assert!(rt;
        dialer.left.len() == case.servers.len(),
        "{name}: how many servers it needed"
    );
    for (stream, server) in dialer.left.iter().zip(case.servers) {
        assert!(rt;
            stream.writer.bytes.as_slice() == server.asked,
            "{name}: what it asked"
        );
    }
}
