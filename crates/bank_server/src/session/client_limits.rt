//! The limits of a client.
ghost use Rattle.std.specs.Prelude.{◌≡◌, ◌^◌, ◌-◌};

/// How many asks of a client may wait for a flush, and how much it may leave unread.
#[derive(Clone, Copy, Debug, PartialEq, Eq)]
pub struct ClientLimits {
    /// The most asks that may wait for a flush.
    pub asks: usize,
    /// The most bytes of outcomes that the client may leave unread.
    pub unread: usize,
}

impl ClientLimits {
    /// The limits of a client that is served beside others.
    pub fn beside_others() -> ClientLimits
        ensures { result ≡ record { asks = 65536; unread = 4194304 } }
    {
        ClientLimits {
            asks: 65_536,
            unread: 4_194_304,
        }
    }

    /// The limits of a client that is served alone: what it is told is written before more is read.
    pub fn alone() -> ClientLimits
        ensures asks { result.asks ≡ 2000000 }
        ensures unread { result.unread ≡ 2 ^ 64 - 1 }
    {
        ClientLimits {
            asks: 2_000_000,
            unread: usize::MAX,
        }
    }
}
