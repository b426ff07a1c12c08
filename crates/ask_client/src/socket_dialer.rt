//! Connections over sockets.
ghost use Rattle.std.specs.Prelude.{◌≡◌, None};
ghost use Rattle.ask_client.specs.Connections.{LeavesStream};

use crate::dialer::Dialer;
use crate::server_stream::ServerStream;
use std::net::{Net, OpenStream, SocketAddr};
use std::time::{Clock, Duration};
use std::{io, thread};

// How long it waits before each connection but the first, in milliseconds.
const PAUSE: u64 = 300;

/// Connects to a socket's address, and waits a moment before each connection but the first. What is
/// written is sent at once. It doesn't say which its connections are.
#[derive(Drop)]
pub struct SocketDialer<'a, R: Net + Clock> {
    rt: &'a R,
    address: SocketAddr,
    patience: Option<Duration>,
    has_dialed: bool,
}

impl<'a, R: Net + Clock> SocketDialer<'a, R> {
    /// Connects to this address. A connection, a read or a write that takes longer than the patience
    /// fails; without one each waits for ever.
    pub fn new(rt: &'a R, address: SocketAddr, patience: Option<Duration>) -> SocketDialer<'a, R> {
        SocketDialer {
            rt,
            address,
            patience,
            has_dialed: false,
        }
    }

    // Connects once.
    fn connect(&self) -> io::Result<R::Stream> {
        match self.patience {
            Some(limit) => self.rt.connect_timeout(self.address, limit),
            None => self.rt.connect(self.address),
        }
    }
}

impl<'a, R: Net + Clock> Dialer for SocketDialer<'a, R> {
    type Reader = R::Stream;

    type Writer = R::Stream;

    ghost streams = { λ dialer. None };

    // A connection is read through one handle of its socket, and written through another.
    fn dial(&mut self) -> io::Result<ServerStream<R::Stream, R::Stream>> {
        if self.has_dialed {
            thread::sleep(self.rt, Duration::from_millis(PAUSE));
        }
        self.has_dialed = true;
        let reader = self.connect()?;
        set_up(&reader, self.patience)?;
        let writer = reader.try_clone()?;
        Ok(ServerStream { reader, writer })
    }

    // Its socket is closed.
    fn leave(&mut self, stream: ServerStream<R::Stream, R::Stream>)
        ensures left { LeavesStream stream None None }
    {
        drop(stream);
    }
}

// What is written is sent at once, and each read and each write waits this long.
fn set_up<T: OpenStream>(stream: &T, patience: Option<Duration>) -> io::Result<()> {
    stream.set_nodelay(true)?;
    stream.set_read_timeout(patience)?;
    stream.set_write_timeout(patience)
}
