//! Devices whose errors are noted.
ghost use Rattle.ask_client.specs.Connections.{LeavesStream};

use crate::device::Device;
use crate::trouble::Trouble;
use ask_client::{Dialer, ServerStream};
use sb_checkpoint::{FileWithSpare, StoreFault};
use std::io;
use std::io::{ErrorKind, Read, Write};
use std::net::{OpenListener, SocketAddr};

/// A device that is watched: it does what it did before, and each error of the system is noted with
/// the device's name. So the system's words can be told, which the contracts' faults don't have. What is
/// read of standard input is kept, as far as a line at fault is shown.
#[derive(Drop)]
pub struct Watch<'t, 'd, T> {
    /// What is read, written, or listened at.
    pub inner: T,
    /// Its name.
    pub device: Device<'d>,
    /// Where its errors are noted.
    pub trouble: &'t Trouble<'d>,
}

impl<R: Read> Read for Watch<'_, '_, R> {
    ghost remaining = { λ watch. R.remaining watch.inner };

    fn read(&mut self, buf: &mut [u8]) -> io::Result<usize> {
        let done = self.inner.read(buf);
        if let Ok(count) = &done {
            self.trouble.keep_input(self.device, &buf[..*count]);
        }
        self.trouble.noted(self.device, done)
    }
}

impl<W: Write> Write for Watch<'_, '_, W> {
    ghost contents = { λ watch. W.contents watch.inner };

    fn write(&mut self, buf: &[u8]) -> io::Result<usize> {
        let done = self.inner.write(buf);
        self.trouble.noted(self.device, done)
    }

    fn flush(&mut self) -> io::Result<()> {
        let done = self.inner.flush();
        self.trouble.noted(self.device, done)
    }
}

// A file's name is the device's, and the spare's is that of its spare. Reading says no words.
impl<P: FileWithSpare> FileWithSpare for Watch<'_, '_, P> {
    ghost content = { λ watch. P.content watch.inner };

    ghost spare = { λ watch. P.spare watch.inner };

    ghost IsHonest = { λ watch. P.IsHonest watch.inner };

    fn write_spare(&mut self, bytes: &[u8]) -> io::Result<()> {
        let done = self.inner.write_spare(bytes);
        self.trouble.noted(self.device.spare(), done)
    }

    fn place_spare(&mut self) -> io::Result<()> {
        let done = self.inner.place_spare();
        self.trouble.noted(self.device, done)
    }

    // A spare that isn't there is what a failure before this one left.
    fn remove_spare(&mut self) -> io::Result<()> {
        let done = self.inner.remove_spare();
        if let Err(error) = &done {
            if error.kind() != ErrorKind::NotFound {
                self.trouble.note(self.device.spare(), error);
            }
        }
        done
    }

    fn read(&mut self) -> Result<Option<Vec<u8>>, StoreFault> {
        self.inner.read()
    }

    fn has_content(&mut self, bytes: &[u8]) -> Result<bool, StoreFault> {
        self.inner.has_content(bytes)
    }
}

impl<L: OpenListener> OpenListener for Watch<'_, '_, L> {
    type Stream = L::Stream;

    fn accept(&self) -> io::Result<(L::Stream, SocketAddr)> {
        let done = self.inner.accept();
        self.trouble.noted(self.device, done)
    }

    fn local_addr(&self) -> io::Result<SocketAddr> {
        let done = self.inner.local_addr();
        self.trouble.noted(self.device, done)
    }
}

impl<D: Dialer> Dialer for Watch<'_, '_, D> {
    type Reader = D::Reader;

    type Writer = D::Writer;

    ghost streams = { λ watch. D.streams watch.inner };

    fn dial(&mut self) -> io::Result<ServerStream<D::Reader, D::Writer>> {
        let done = self.inner.dial();
        self.trouble.noted(self.device, done)
    }

    fn leave(&mut self, stream: ServerStream<D::Reader, D::Writer>)
        ensures left { LeavesStream stream (D.streams self.old.inner) (D.streams self.new.inner) }
    {
        self.inner.leave(stream);
    }
}
