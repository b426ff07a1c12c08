//! What the program reads, writes and listens at.
use std::fmt;
use std::net::SocketAddr;

/// What the program reads, writes, or listens at.
#[derive(Clone, Copy, Debug, PartialEq, Eq)]
pub enum Device<'a> {
    /// Standard input.
    Input,
    /// Standard output.
    Output,
    /// The file of this name in this folder.
    File {
        /// The folder, as it was given.
        folder: &'a str,
        /// The file's name.
        name: &'a str,
    },
    /// The spare of this file: it is written beside it, and then takes its place.
    Spare {
        /// The folder, as it was given.
        folder: &'a str,
        /// The name of the file that it is a spare of.
        name: &'a str,
    },
    /// The file at this path, as it was given.
    Path(&'a str),
    /// This address of this machine, or of the server that is asked.
    Address(SocketAddr),
}

impl<'a> Device<'a> {
    /// The spare of a file. Nothing else has one.
    pub(crate) fn spare(self) -> Device<'a> {
        match self {
            Device::File { folder, name } => Device::Spare { folder, name },
            other => other,
        }
    }
}

impl fmt::Display for Device<'_> {
    fn fmt<W: fmt::Write>(&self, f: &mut fmt::Formatter<W>) -> fmt::Result {
        match self {
            Device::Input => f.write_str("standard input"),
            Device::Output => f.write_str("standard output"),
            Device::File { folder, name } => write!(f, "{folder}/{name}"),
            Device::Spare { folder, name } => write!(f, "{folder}/{name}.tmp"),
            Device::Path(path) => f.write_str(path),
            Device::Address(address) => write!(f, "{address}"),
        }
    }
}
