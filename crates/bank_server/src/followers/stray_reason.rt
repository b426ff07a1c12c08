//! Why a follower strayed.
use sb_rows::Name;
use std::fmt;

/// Why a follower strayed: it couldn't work, or this is where it differs from node 0.
#[derive(Clone, Copy, Debug, PartialEq, Eq)]
pub enum StrayReason {
    /// Its thread couldn't be started: memory or a thread was refused.
    NoThread,
    /// Memory was refused to it.
    OutOfMemory,
    /// It was sent bytes that aren't a frame.
    Frame,
    /// Something is unfinished, on it or on node 0.
    Unfinished,
    /// The first number to which it has another reply, or to which only one of both has a reply.
    Entry(u64),
    /// It has another number of customers, or one that node 0 has no name for.
    Customers,
    /// The first customer of the opening whose balances differ.
    Customer(Name),
}

impl fmt::Display for StrayReason {
    fn fmt<W: fmt::Write>(&self, f: &mut fmt::Formatter<W>) -> fmt::Result {
        match self {
            StrayReason::NoThread => f.write_str("no thread"),
            StrayReason::OutOfMemory => f.write_str("out of memory"),
            StrayReason::Frame => f.write_str("bad frame"),
            StrayReason::Unfinished => f.write_str("unfinished"),
            StrayReason::Entry(number) => write!(f, "differs at entry {number}"),
            StrayReason::Customers => f.write_str("differs in its customers"),
            StrayReason::Customer(name) => write_customer(f, name),
        }
    }
}

// Writes at which customer it differs.
fn write_customer<W: fmt::Write>(f: &mut fmt::Formatter<W>, name: &Name) -> fmt::Result {
    f.write_str("differs at customer ")?;
    for byte in name.text() {
        f.write_char(*byte as char)?;
    }
    Ok(())
}
