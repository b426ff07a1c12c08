//! How a bank is served.
use std::net::IpAddr;

/// How a bank is served.
#[derive(Clone, Copy, Debug, PartialEq, Eq)]
pub struct Plan {
    /// The address of this machine at which clients come.
    pub host: IpAddr,
    /// How many sessions there are.
    pub sessions: usize,
    /// How many clients are served at once: 1 to 1,000. Without a number it is one after another.
    pub clients: Option<usize>,
    /// How many nodes execute the log: 1 to 16.
    pub nodes: usize,
    /// How many threads work for node 0: 0 to 16. With 0 it works alone.
    pub workers: usize,
    /// Whether node 0 puts a checkpoint into its store after each session.
    pub saves: bool,
    /// How many seconds each read and each write waits for a client or, of many at once, for how many
    /// seconds a client may be silent; `None` is for ever.
    pub patience: Option<usize>,
    /// Whether nothing is told of a session on standard error as it ends.
    pub is_quiet: bool,
}
