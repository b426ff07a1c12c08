//! The connections of clients who are served at once.
ghost use Rattle.std.specs.Prelude.{◌≡◌, ◌≢◌, ◌≤◌, ◌<◌, ◌∷◌, ℕ, List, [], length, take, true};
ghost use Rattle.bank_clients.specs.History.{TakesBytes};
ghost use Rattle.bank_clients.specs.Sessions.{IsUnsent};

use bank_server::{Arrivals, AskCounts};
use std::io;

/// The connections of clients, each at a place of its own. What clients send arrives there, and what
/// they get goes out there. Only [`Connections::wait`] waits, and it waits for any of them.
///
/// A place has one client at a time: another one's pieces come from there once the one before was left.
pub trait Connections: Arrivals {
    /// The places whose connections take more again, as the last wait found.
    ghost writable_places: { Self → List ℕ };

    /// Waits until something arrives, a connection takes more, or one fails.
    ///
    /// Fails if the device fails.
    fn wait(&mut self) -> io::Result<()>
        ensures coming { Self.coming self.new ≡ Self.coming self.old }
        ensures sent { (Self.outgoing self.new).sent ≡ (Self.outgoing self.old).sent }
        // A connection that took less than it was given takes no more, or is writable.
        ensures unsent { (place : ℕ) → IsUnsent (Self.outgoing self.old).full (writable_places self.old) place
            → IsUnsent (Self.outgoing self.new).full (writable_places self.new) place };

    /// The places whose connections take more again, as the last wait found.
    fn writable(&self) -> &[usize]
        ensures { result.now ≡ writable_places self.now };

    /// Sends as many of these bytes as the connection at a place takes by now, and answers how many.
    fn send(&mut self, place: usize, bytes: &[u8]) -> usize
        ensures count { result ≤ length bytes.now }
        ensures sent { TakesBytes (Self.outgoing self.old).sent (Self.outgoing self.new).sent
            ((place, take result bytes.now) ∷ []) }
        ensures full { result < length bytes.now → (Self.outgoing self.new).full place ≡ true }
        ensures others { (other : ℕ) → other ≢ place
            → (Self.outgoing self.new).full other ≡ (Self.outgoing self.old).full other }
        ensures writable { writable_places self.new ≡ writable_places self.old }
        ensures coming { Self.coming self.new ≡ Self.coming self.old };

    /// Leaves the client at a place, which had these asks, and which another one can have then. One at
    /// fault is notified that nothing more comes, and what it still sends is skipped for a while, and never
    /// arrives.
    fn leave(&mut self, place: usize, is_at_fault: bool, counts: AskCounts)
        ensures coming { Self.coming self.new ≡ Self.coming self.old }
        ensures sent { (Self.outgoing self.new).sent ≡ (Self.outgoing self.old).sent }
        ensures others { (other : ℕ) → other ≢ place
            → IsUnsent (Self.outgoing self.old).full (writable_places self.old) other
            → IsUnsent (Self.outgoing self.new).full (writable_places self.new) other };
}
