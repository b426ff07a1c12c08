//! What the system refused and where, and the input of which a line may be at fault.
ghost use Rattle.std.specs.Prelude.{◌≡◌};

use crate::beginning::Beginning;
use crate::device::Device;
use crate::line_notes::line_note;
use sb_log::Reason;
use std::alloc::Global;
use std::cell::{Cell, RefCell};
use std::io::ErrorKind;
use std::{fmt, io};

/// What a fault's contract doesn't say: the last error that the system gave and the device that it was
/// of, and the beginning of the input.
#[derive(Drop)]
pub struct Trouble<'a> {
    device: Cell<Option<Device<'a>>>,
    reason: Reason,
    input: RefCell<Beginning>,
}

impl<'a> Trouble<'a> {
    /// There was no error yet, and no input.
    pub fn new(alloc: Global) -> Trouble<'a> {
        Trouble {
            device: Cell::new(None),
            reason: Reason::new(),
            input: RefCell::new(Beginning::new(alloc)),
        }
    }

    /// Notes an error of a device. An interrupted call is none: it is repeated.
    pub fn note(&self, device: Device<'a>, error: &io::Error) {
        if error.kind() != ErrorKind::Interrupted {
            self.device.set(Some(device));
            self.reason.note(error);
        }
    }

    /// What was done with a device. If that failed, the error is noted.
    pub fn noted<V>(&self, device: Device<'a>, done: io::Result<V>) -> io::Result<V>
        ensures { result ≡ done }
    {
        if let Err(error) = &done {
            self.note(device, error);
        }
        done
    }

    /// The last error, if there was one and the system has words for it.
    pub fn cause(&self) -> Option<Cause<'a>> {
        match (self.device.get(), self.reason.error()) {
            (Some(device), Some(error)) => Some(Cause { device, error }),
            _ => None,
        }
    }

    /// Keeps a piece of the input, if it is one.
    pub(crate) fn keep_input(&self, device: Device<'a>, piece: &[u8]) {
        if device == Device::Input {
            if let Ok(mut input) = self.input.try_borrow_mut() {
                input.extend(piece);
            }
        }
    }

    /// What is told of the input's line of this number. Nothing if it isn't there, was too far behind
    /// to be kept, or memory is refused.
    pub fn line_note(&self, alloc: Global, number: usize) -> Option<Vec<u8>> {
        let Ok(input) = self.input.try_borrow() else {
            return None;
        };
        let line = input.line(number)?;
        line_note(alloc, number, line).ok()
    }
}

/// Why a device failed, in the system's words.
#[derive(Drop)]
pub struct Cause<'a> {
    /// The device.
    pub device: Device<'a>,
    /// The system's error.
    pub error: io::Error,
}

impl Cause<'_> {
    /// Whether whoever read the output closed it, and so wants no more of it.
    pub(crate) fn is_closed_output(&self) -> bool {
        self.device == Device::Output && self.error.kind() == ErrorKind::BrokenPipe
    }
}

impl fmt::Display for Cause<'_> {
    fn fmt<W: fmt::Write>(&self, f: &mut fmt::Formatter<W>) -> fmt::Result {
        let (device, error) = (self.device, &self.error);
        write!(f, "smallbank: {device}: {error}")
    }
}
