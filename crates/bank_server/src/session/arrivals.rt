//! Where what clients send arrives.
ghost use Rattle.std.specs.Prelude.{◌≡◌, ◌≤◌, ℕ, List, Option, [], ◌∷◌, length, IfNone, IfSome};
ghost use Rattle.bank_server.specs.Clients.{OutgoingOf, TakesFromFront, TakesOfThem, piece_of};

/// What came from a client, as one read of its connection.
#[derive(Clone, Copy, Debug, PartialEq, Eq)]
pub struct Arrival {
    /// The client's place among the clients.
    pub client: usize,
    /// How many bytes were read: 0 at the client's end, and `None` if its connection failed.
    pub read: Option<usize>,
}

/// Where what clients send arrives.
pub trait Arrivals {
    /// What is still to come, in order, if that is known: whose piece, and the piece.
    ghost coming: { Self → Option (List (ℕ × Option (List ℕ))) };

    /// How many pieces of that have come by now, if that is known.
    ghost here: { Self → Option ℕ };

    /// What goes out to clients. Whoever takes arrivals leaves it as it is.
    ghost outgoing: { Self → OutgoingOf };

    /// The next arrival, whose bytes are at the front of the chunk then. `None` if nothing more has
    /// come by now.
    fn next(&mut self, chunk: &mut [u8]) -> Option<Arrival>
        ensures within { IfSome result (λ arrival. IfSome arrival.read (λ count. count ≤ length chunk.new)) }
        ensures next { IfSome result (λ arrival. TakesFromFront (coming self.old) (coming self.new)
            ((arrival.client, piece_of chunk.new arrival.read) ∷ [])) }
        ensures one { IfSome result (λ arrival. TakesOfThem 1 (here self.old) (here self.new)) }
        ensures none { IfNone result ((coming self.new ≡ coming self.old)
            × IfSome (here self.old) (λ count. count ≡ 0)) }
        ensures outgoing { outgoing self.new ≡ outgoing self.old };

    /// A whole frame has come from this client: where clients may be silent for some time, its time begins anew.
    fn heard(&mut self, _client: usize)
        ensures coming { coming self.new ≡ coming self.old }
        ensures here { here self.new ≡ here self.old }
        ensures outgoing { outgoing self.new ≡ outgoing self.old }
    {}
}
