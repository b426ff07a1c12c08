//! Notes of the sessions that are over.
use crate::traffic::Traffic;
use bank_server::AskCounts;

/// Notes each session as its client is left.
pub trait SessionNotes {
    /// Notes a session whose client had these asks, and what went over its connection.
    fn note_session(&self, counts: AskCounts, traffic: Traffic);
}
