//! An address that no other machine reaches.
ghost use Rattle.std.specs.Prelude.{◌≡◌};
ghost use Rattle.std.specs.Net.Socket.{socket_ip, socket_port};
ghost use Rattle.program_words.specs.Words.{IsThisMachine};

use std::net::{IpAddr, Ipv4Addr, SocketAddr};

/// This port of this machine. No other machine can reach it.
pub fn here(port: u16) -> SocketAddr
    ensures machine { IsThisMachine (socket_ip result) }
    ensures port { socket_port result ≡ port }
{
    SocketAddr::new(IpAddr::V4(Ipv4Addr::new(127, 0, 0, 1)), port)
}
