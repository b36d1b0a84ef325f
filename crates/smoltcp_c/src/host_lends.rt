//! A host lent from the memory that C gave: the functions with raw pointers, proved by hand.
ghost use Rattle.std.specs.Prelude.{◌≡◌, None, Some, is_some, true};
ghost use Rattle.std.specs.Borrow.{follows};
ghost use Rattle.std.specs.Ptr.{as_ptr};
ghost use types.Logic.{sem};
ghost use Rattle.smoltcp_c.specs.contracts.host.Host.{the_row as host_row};
ghost use Rattle.smoltcp_c.specs.contracts.host.HostHandle.{the_row as handle_row};

use crate::clock::Clock;
use crate::host::{Host, HostHandle, HostRoom};
use sock_dgram::{icmp, raw, udp};
use sock_tcp::Socket;

/// Where a socket of a host lies.
#[repr(C)]
#[derive(Clone, Copy)]
pub struct SocketAt {
    pub at: *mut u8,
}

impl HostHandle {
    /// The host: what is done to it is done to the handle's.
    pub fn host(&mut self) -> &mut Host
        ensures* writes_back { sem 𝓛 (follows handle_row host_row self.entry.ghost_name
            result.ghost_name (λ w. record self.old { host = w })) }
        ensures value { result.now ≡ self.old.host }
    {
        unsafe { &mut *(self.at as *mut Host) }
    }
}

impl HostRoom {
    /// Puts the host there.
    pub fn fill(&mut self, host: Host)
        requires empty { self.old.made ≡ None }
        ensures made { self.new ≡ record self.old { made = Some host } }
    {
        unsafe {
            (self.at as *mut Host).write(host);
        }
    }

    /// Moves the host out, and leaves room for another.
    pub fn take(&mut self) -> Host
        requires there { is_some self.old.made ≡ true }
        ensures host { self.old.made ≡ Some result }
        ensures empty { self.new ≡ record self.old { made = None } }
    {
        unsafe { (self.at as *mut Host).read() }
    }
}

/// Where the socket lies.
pub fn tcp_place(socket: &Socket<'static, Clock>) -> SocketAt
    ensures { result.at ≡ as_ptr socket.entry }
{
    SocketAt {
        at: socket as *const Socket<'static, Clock> as *mut u8,
    }
}

/// Where the socket lies.
pub fn udp_place(socket: &udp::Socket<'static>) -> SocketAt
    ensures { result.at ≡ as_ptr socket.entry }
{
    SocketAt {
        at: socket as *const udp::Socket<'static> as *mut u8,
    }
}

/// Where the socket lies.
pub fn icmp_place(socket: &icmp::Socket<'static>) -> SocketAt
    ensures { result.at ≡ as_ptr socket.entry }
{
    SocketAt {
        at: socket as *const icmp::Socket<'static> as *mut u8,
    }
}

/// Where the socket lies.
pub fn raw_place(socket: &raw::Socket<'static>) -> SocketAt
    ensures { result.at ≡ as_ptr socket.entry }
{
    SocketAt {
        at: socket as *const raw::Socket<'static> as *mut u8,
    }
}
