//! The address where the server listens.
ghost use Rattle.std.specs.Prelude.{IfErr};
ghost use Rattle.std.specs.Net.Socket.{socket_port};
ghost use Rattle.bank_service.specs.ServeFaults.{IsPortFault};

use crate::device::Device;
use crate::trouble::Trouble;
use bank_server::RunFault;
use bank_service::ServeFault;
use mio::net::TcpListener;
use std::io;
use std::io::ErrorKind;
use std::net::{Net, SocketAddr};

/// Listens at this address of this machine, and with port 0 at any free port of it.
///
/// Fails with [`ServeFault::PortTaken`] if another program listens there, and otherwise with a
/// failed device. The system's error is noted.
pub fn listen<N: Net>(
    net: &N,
    address: SocketAddr,
    trouble: &Trouble<'_>,
) -> Result<N::Listener, ServeFault>
    ensures fault { IfErr result (IsPortFault (socket_port address)) }
{
    listener_of(address, trouble, net.bind(address))
}

/// Listens as [`listen`] does, for many clients at once: more of them may come before they are accepted,
/// and no call waits for them.
pub fn listen_for_many(
    net: &impl Net,
    address: SocketAddr,
    trouble: &Trouble<'_>,
) -> Result<TcpListener, ServeFault>
    ensures fault { IfErr result (IsPortFault (socket_port address)) }
{
    listener_of(address, trouble, TcpListener::bind(net, address))
}

// A listener at this address, unless there is none.
fn listener_of<L: Drop>(
    address: SocketAddr,
    trouble: &Trouble<'_>,
    made: io::Result<L>,
) -> Result<L, ServeFault>
    ensures fault { IfErr result (IsPortFault (socket_port address)) }
{
    match trouble.noted(Device::Address(address), made) {
        Ok(listener) => Ok(listener),
        Err(error) if error.kind() == ErrorKind::AddrInUse => {
            Err(ServeFault::PortTaken(address.port()))
        }
        Err(_) => Err(ServeFault::Run(RunFault::Device)),
    }
}
