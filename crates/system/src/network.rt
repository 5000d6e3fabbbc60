//! Sockets of this machine, and a clock for them.

ghost use Rattle.std.specs.Prelude.{◌≡◌, IfOk};
ghost use Rattle.std.specs.Net.Addr.{IsLoopbackV4, IsLoopbackV6, MatchIp};
ghost use Rattle.std.specs.Net.Socket.{socket_ip};

use std::io::{self, ErrorKind};
use std::net::{Net, SocketAddr, TcpListener, TcpStream};
use std::time::{Clock, Duration};

/// The network within this machine, and its clock. Sockets at other addresses than the loopback ones are refused.
#[derive(Drop)]
pub struct Network {
    rt: HostRuntime,
}

impl Network {
    /// The network of this runtime.
    pub fn new(rt: HostRuntime) -> Network {
        Network { rt }
    }
}

/// The address, if it is a loopback address.
fn own(address: SocketAddr) -> io::Result<SocketAddr>
    ensures same { IfOk result (λ own. own ≡ address) }
    ensures own { IfOk result (λ own. MatchIp (socket_ip own) IsLoopbackV4 IsLoopbackV6) }
{
    if address.ip().is_loopback() {
        Ok(address)
    } else {
        Err(io::Error::from(ErrorKind::AddrNotAvailable))
    }
}

impl Net for Network {
    type Stream = TcpStream;

    type Listener = TcpListener;

    fn bind(&self, address: SocketAddr) -> io::Result<TcpListener>
        ensures { IfOk result (λ _. MatchIp (socket_ip address) IsLoopbackV4 IsLoopbackV6) }
    {
        self.rt.bind(own(address)?)
    }

    fn connect(&self, address: SocketAddr) -> io::Result<TcpStream>
        ensures { IfOk result (λ _. MatchIp (socket_ip address) IsLoopbackV4 IsLoopbackV6) }
    {
        self.rt.connect(own(address)?)
    }
}

impl Clock for Network {
    fn monotonic(&self) -> io::Result<Duration> {
        self.rt.monotonic()
    }

    fn since_1970(&self) -> io::Result<Duration> {
        self.rt.since_1970()
    }
}
