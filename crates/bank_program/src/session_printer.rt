//! Sessions that are told on standard error.
ghost use Rattle.std.specs.Prelude.{◌≡◌};

use crate::session_note::SessionNote;
use bank_clients::{SessionNotes, Traffic};
use bank_server::AskCounts;

/// Tells on standard error what went over a client's connection, as it is left.
#[derive(Drop)]
pub struct SessionPrinter {
    rt: HostRuntime,
    is_quiet: bool,
}

impl SessionPrinter {
    /// Tells nothing if it is to be quiet.
    pub fn new(rt: &HostRuntime, is_quiet: bool) -> SessionPrinter
        ensures { result.is_quiet ≡ is_quiet }
    {
        SessionPrinter { rt: *rt, is_quiet }
    }
}

impl SessionNotes for SessionPrinter {
    fn note_session(&self, counts: AskCounts, traffic: Traffic) {
        if !self.is_quiet {
            SessionNote::new(&self.rt, counts, traffic).print_to_stderr(&self.rt);
        }
    }
}
