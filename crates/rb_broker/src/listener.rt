ghost use Rattle.std.specs.Prelude.{◌≡◌, IfErr};
ghost use Rattle.rb_ending.specs.declared.broker_fault.BrokerFault.TheVariants.{Listen};

use libc::net::listen;
use os::FromRawFd;
use rb_ending::BrokerFault;
use rb_options::ServeOptions;
use rb_serving::limit_accepts;
use std::io;
use std::net::{Ipv4Addr, SocketAddr, SocketAddrV4, TcpListener};
use std::os::fd::AsRawFd;

// As many connections wait for an accept as the system lets.
const BACKLOG: i32 = i32::MAX;

/// Where a server listens.
#[derive(Drop)]
pub enum Place {
    /// At an address that is not bound yet.
    Unbound(SocketAddr),
    /// By a listener that it was handed.
    Handed(TcpListener),
}

impl Place {
    /// The port of 127.0.0.1 that the options name. The fault is `Listen`, if they say that this process was handed a
    /// listener, and there is none at that address.
    pub fn of(options: &ServeOptions) -> Result<Place, BrokerFault>
        ensures { IfErr result (λ fault. fault ≡ Listen) }
    {
        let address = SocketAddr::V4(SocketAddrV4::new(Ipv4Addr::LOCALHOST, options.port));
        match options.socket {
            Some(number) => Ok(Place::Handed(handed_listener(number, address)?)),
            None => Ok(Place::Unbound(address)),
        }
    }

    /// The listener, which is bound now if it was not handed. The fault is `Listen`.
    pub fn listener(self, rt: &HostRuntime) -> Result<TcpListener, BrokerFault>
        ensures { IfErr result (λ fault. fault ≡ Listen) }
    {
        match self {
            Place::Handed(listener) => Ok(listener),
            Place::Unbound(address) => TcpListener::bind(rt, address).map_err(
                |_| BrokerFault::Listen,
            ),
        }
    }
}

// The listener that this process was handed under this number, if there is one at this address. It may be in a mode
// in which no accept waits, as systemd's are.
fn handed_listener(number: u16, address: SocketAddr) -> Result<TcpListener, BrokerFault>
    ensures { IfErr result (λ fault. fault ≡ Listen) }
{
    let listener = unsafe { TcpListener::from_raw_fd(i32::from(number)) };
    match listens_at(&listener, address) {
        Ok(true) => Ok(listener),
        _ => Err(BrokerFault::Listen),
    }
}

// Whether this is a listener at this address. Its accepts then wait for as long as it takes, whatever an earlier server
// told it.
fn listens_at(listener: &TcpListener, address: SocketAddr) -> io::Result<bool> {
    if listener.local_addr()? != address {
        return Ok(false);
    }
    listener.set_nonblocking(false)?;
    limit_accepts(listener, None)?;
    Ok(listen(listener.as_raw_fd(), BACKLOG) == 0)
}
