//! Errors of accepting a client that are the client's own.
ghost use Rattle.std.specs.Prelude.{◌↔◌, IsTrue};
ghost use Rattle.bank_clients.specs.ClientErrors.{IsOfAClient};

use std::io::ErrorKind;

/// Whether an error says only that the client or the way to it is gone, and nothing of the device.
/// Linux reports such errors as it accepts a client.
pub fn is_of_a_client(kind: ErrorKind) -> bool
    ensures { IsTrue result ↔ IsOfAClient kind }
{
    matches!(
        kind,
        ErrorKind::ConnectionAborted
            | ErrorKind::ConnectionReset
            | ErrorKind::HostUnreachable
            | ErrorKind::NetworkUnreachable
            | ErrorKind::NetworkDown
            | ErrorKind::TimedOut
            | ErrorKind::Interrupted
    )
}
