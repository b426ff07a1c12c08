//! How a fault of a log's file is told.
use sb_log::LogFault;
use std::{fmt, io};

/// The file name of a log.
pub const LOG: &str = "log";

/// A fault of a file in a log's folder, with the system's words for it, if it has some.
#[derive(Drop)]
pub struct LogReport<'a> {
    /// The folder, as it was given.
    pub folder: &'a str,
    /// The file's name.
    pub name: &'a str,
    /// The fault.
    pub fault: LogFault,
    /// Why the system refused a call.
    pub error: Option<io::Error>,
}

impl fmt::Display for LogReport<'_> {
    fn fmt<W: fmt::Write>(&self, f: &mut fmt::Formatter<W>) -> fmt::Result {
        let (folder, name, fault) = (self.folder, self.name, self.fault);
        match (fault, &self.error) {
            (LogFault::Device, Some(error)) => {
                write!(f, "smallbank: log: {folder}/{name}: {error}")
            }
            (LogFault::Damaged { behind, .. }, _) => {
                write!(
                    f,
                    "smallbank: log: {fault}\nsmallbank: log: {behind} bytes follow"
                )
            }
            _ => write!(f, "smallbank: log: {fault}"),
        }
    }
}

/// What is told of a log's end that was cut off.
#[derive(Drop)]
pub struct CutReport {
    /// How many bytes.
    pub bytes: usize,
}

impl fmt::Display for CutReport {
    fn fmt<W: fmt::Write>(&self, f: &mut fmt::Formatter<W>) -> fmt::Result {
        let bytes = self.bytes;
        write!(
            f,
            "smallbank: log: cut {bytes} bytes of a record that wasn't whole"
        )
    }
}
