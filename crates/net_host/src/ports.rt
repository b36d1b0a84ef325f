//! Connections and ports that sockets of a set have, and a port that none has.
ghost use Rattle.std.specs.Prelude.{◌≡◌, ◌↔◌, ◌<◌, IsTrue};
ghost use Rattle.net_host.specs.Ports.{Binds, Connects, FindsFree, IsBetween, at_port, port_after};
ghost use Rattle.net_host.specs.Walks.{Finds};

use crate::slot::Slot;
use smoltcp_socket::wire::{IpAddress, IpEndpoint};
use smoltcp_socket::{Socket, tcp};
use sock_tcp::TsvalSource;

// How many ports there are for programs that ask for none (RFC 6335, section 6).
const PORTS: u32 = 16384;

const FIRST_PORT: u32 = 49152;

// Whether the socket has the connection between these two.
fn is_between<G: TsvalSource>(
    tcp: &tcp::Socket<'_, G>,
    local: &IpEndpoint,
    remote: &IpEndpoint,
) -> bool
    ensures { IsTrue result ↔ IsBetween local.now remote.now tcp.now.control_block }
{
    match (tcp.local_endpoint(), tcp.remote_endpoint()) {
        (Some(here), Some(there)) => here == *local && there == *remote,
        _ => false,
    }
}

impl<'a, G: TsvalSource> Slot<'a, G> {
    fn connects(&self, local: &IpEndpoint, remote: &IpEndpoint) -> bool
        ensures { IsTrue result ↔ Connects local.now remote.now self.now }
    {
        match &self.socket {
            Some(Socket::Tcp(tcp)) => is_between(tcp, local, remote),
            _ => false,
        }
    }

    fn binds(&self, port: u16) -> bool
        ensures { IsTrue result ↔ Binds port self.now }
    {
        match &self.socket {
            Some(Socket::Udp(udp)) => udp.endpoint().port == port,
            _ => false,
        }
    }
}

/// The first socket with the connection between these two.
pub(crate) fn connection<G: TsvalSource>(
    slots: &[Slot<'_, G>],
    local: &IpEndpoint,
    remote: &IpEndpoint,
) -> Option<usize>
    ensures { Finds (Connects local.now remote.now) slots.now result }
{
    for (i, slot) in slots.iter().enumerate() {
        if slot.connects(local, remote) {
            return Some(i);
        }
    }
    None
}

/// The first UDP socket that is bound to this port.
pub(crate) fn binding<G: TsvalSource>(slots: &[Slot<'_, G>], port: u16) -> Option<usize>
    ensures { Finds (Binds port) slots.now result }
{
    for (i, slot) in slots.iter().enumerate() {
        if slot.binds(port) {
            return Some(i);
        }
    }
    None
}

fn port_after(start: u16, k: u32) -> u16
    requires { k < 16384 }
    ensures { result ≡ port_after start k }
{
    (FIRST_PORT + (start as u32 + k) % PORTS) as u16
}

/// A port from which no connection to this endpoint begins: the first from one on.
pub(crate) fn free_port<G: TsvalSource>(
    slots: &[Slot<'_, G>],
    addr: IpAddress,
    remote: &IpEndpoint,
    start: u16,
) -> Option<u16>
    ensures { FindsFree (λ p s. Connects (at_port addr p) remote.now s) slots.now start result }
{
    for k in 0..PORTS {
        let port = port_after(start, k);
        if connection(slots, &IpEndpoint { addr, port }, remote).is_none() {
            return Some(port);
        }
    }
    None
}

/// A port to which no UDP socket is bound: the first from one on.
pub(crate) fn free_binding<G: TsvalSource>(slots: &[Slot<'_, G>], start: u16) -> Option<u16>
    ensures { FindsFree (λ p s. Binds p s) slots.now start result }
{
    for k in 0..PORTS {
        let port = port_after(start, k);
        if binding(slots, port).is_none() {
            return Some(port);
        }
    }
    None
}
