//! Where connections are made.
ghost use Rattle.std.specs.Prelude.{◌≡◌, Option, IfOk, OnErr};
ghost use Rattle.ask_client.specs.Connections.{DialerStreams, DialsNext, LeavesStream};

use crate::server_stream::ServerStream;
use std::io;
use std::io::{Read, Write};
use std::net::OpenStream;

/// Makes connections to a server, one after another.
///
/// A dialer that says which they are makes those that are coming, in that order, and adds each one to
/// those that were left as it was left.
pub trait Dialer {
    /// Where the bytes that the server sends are read.
    type Reader: Read + OpenStream + Drop;

    /// Where the bytes that the server gets are written.
    type Writer: Write + Drop;

    /// Its connections, if the dialer says which they are.
    ghost streams: { Self → Option (DialerStreams Self.Reader Self.Writer) };

    /// Makes the next connection.
    fn dial(&mut self) -> io::Result<ServerStream<Self::Reader, Self::Writer>>
        ensures next { IfOk result (λ stream. DialsNext stream (streams self.old) (streams self.new)) }
        ensures refused { OnErr result (streams self.new ≡ streams self.old) };

    /// Leaves a connection: nothing is read from it any more, or written to it.
    fn leave(&mut self, stream: ServerStream<Self::Reader, Self::Writer>)
        ensures left { LeavesStream stream (streams self.old) (streams self.new) };
}
