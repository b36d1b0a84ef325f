//! From each kind of socket to the enum, and back.
ghost use Rattle.std.specs.Prelude.{IsTrue};

use crate::host::Host;
use smoltcp_socket::storage::{PacketBuffer, RingBuffer};
use smoltcp_socket::wire::IpListenEndpoint;
use smoltcp_socket::{AnySocket, PollAt, Socket, icmp, raw, tcp, udp};
use std::test::Fail;

// Which downcasts give a socket: to raw, ICMP, UDP, TCP, and to the enum.
fn kinds(socket: &Socket<'_>) -> [bool; 5] {
    [
        raw::Socket::downcast(socket).is_some(),
        icmp::Socket::downcast(socket).is_some(),
        udp::Socket::downcast(socket).is_some(),
        tcp::Socket::downcast(socket).is_some(),
        Socket::downcast(socket).is_some(),
    ]
}

// A socket that goes into the enum comes back out of it, whatever its kind.
fn comes_back<'a, G: Drop, T: AnySocket<'a, G>>(socket: T) -> bool
    ensures { IsTrue result }
{
    let whole = socket.upcast();
    T::downcast(&whole).is_some()
}

const PORT_53: IpListenEndpoint = IpListenEndpoint {
    addr: None,
    port: 53,
};

// Binds the UDP socket that is lent for writing, where no TCP socket is.
fn binds(socket: &mut Socket<'_>) -> bool {
    if tcp::Socket::downcast_mut(socket).is_some() {
        return false;
    }
    match udp::Socket::downcast_mut(socket) {
        Some(lent) => lent.bind(PORT_53).is_ok(),
        None => false,
    }
}

fn is_bound(socket: &Socket<'_>) -> bool {
    match udp::Socket::downcast(socket) {
        Some(lent) => lent.endpoint() == PORT_53,
        None => false,
    }
}

fn polls(socket: &Socket<'_>) -> PollAt {
    socket.poll_at(&Host::new(None))
}

// Of a UDP socket: what is written through the loan is in the enum.
fn is_udp(socket: &mut Socket<'_>) -> [bool; 3] {
    [
        kinds(socket) == [false, false, true, false, true],
        binds(socket),
        is_bound(socket),
    ]
}

fn is_tcp(socket: &Socket<'_>) -> bool {
    kinds(socket) == [false, false, false, true, true] && polls(socket) == PollAt::Ingress
}

#[test]
fn udp_among_kinds(rt: HostRuntime) -> Result<(), Fail> {
    let socket = udp::Socket::new(
        PacketBuffer::new(&mut [], &mut []),
        PacketBuffer::new(&mut [], &mut []),
    );
    let mut socket = socket.upcast();
    assert!(rt; is_udp(&mut socket) == [true; 3]);
    Ok(())
}

#[test]
fn tcp_among_kinds(rt: HostRuntime) -> Result<(), Fail> {
    let socket = tcp::Socket::new(RingBuffer::new(&mut []), RingBuffer::new(&mut []));
    let socket = socket.upcast();
    let is_tcp = is_tcp(&socket);
    assert!(rt; [is_tcp, comes_back(socket)] == [true; 2]);
    Ok(())
}
