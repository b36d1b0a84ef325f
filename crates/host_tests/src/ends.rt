//! What a program is told of: connections that end, others that take their place, and datagrams that arrive.

use crate::hosts::{
    CLIENT, Host, OneSocket, SERVER, connect, connect_from, emit, listen, receive, state,
};
use net_host::{Interface, IpCidr, Secret, SocketSet};
use smoltcp_socket::Socket;
use smoltcp_socket::storage::{PacketBuffer, RingBuffer};
use smoltcp_socket::tcp::{self, State};
use smoltcp_socket::time::Instant;
use smoltcp_socket::udp::{self, PacketMetadata, UdpMetadata};
use smoltcp_socket::wire::{IpAddress, IpEndpoint, IpListenEndpoint};
use std::alloc::AllocError;

// All that the two hosts have to say.
fn exchange(client: &mut OneSocket<'_>, server: &mut OneSocket<'_>, seconds: u8) {
    let (mut packet, mut reply) = ([0u8; 1500], [0u8; 1500]);
    for _ in 0..16 {
        let count = emit(client, seconds, &mut packet);
        let answer = receive(server, seconds, &packet[..count], &mut reply);
        receive(client, seconds, &reply[..answer], &mut packet);
        let count = emit(server, seconds, &mut packet);
        let answer = receive(client, seconds, &packet[..count], &mut reply);
        receive(server, seconds, &reply[..answer], &mut packet);
    }
}

fn close(host: &mut OneSocket<'_>) {
    if let Some(socket) = host.sockets.tcp_mut(host.handle) {
        socket.close();
    }
}

fn silence(host: &mut OneSocket<'_>, seconds: u8) {
    let mut packet = [0u8; 1500];
    for _ in 0..16 {
        emit(host, seconds, &mut packet);
    }
}

// Whether it is told that the connection ended, before the host has looked at this second and afterwards, its state
// then, and whether it is told once the socket was lent.
fn told(host: &mut OneSocket<'_>, seconds: u8) -> (bool, bool, Option<State>, bool) {
    let before = host.sockets.ended(0).is_some();
    silence(host, seconds);
    let after = host.sockets.ended(0) == Some(0);
    let is = state(host);
    let _ = host.sockets.tcp_mut(host.handle);
    (before, after, is, host.sockets.ended(0).is_some())
}

type Told = (bool, bool, Option<State>, bool);

// The client's TIME-WAIT; the server's handshake with a client that is gone; and how many SYNs opened the server's
// socket once its connection in TIME-WAIT gave way to another one.
fn run(
    rt: &HostRuntime,
    client: tcp::Socket<'_>,
    server: tcp::Socket<'_>,
    case: u8,
) -> Result<(Told, Option<u64>), AllocError> {
    let mut client = Host::new(rt, CLIENT, client)?;
    let mut server = Host::new(rt, SERVER, server)?;
    listen(&mut server);
    connect(&mut client);
    if case == 1 {
        let (mut packet, mut reply) = ([0u8; 1500], [0u8; 1500]);
        let count = emit(&mut client, 0, &mut packet);
        receive(&mut server, 0, &packet[..count], &mut reply);
        silence(&mut server, 1);
        return Ok((told(&mut server, 40), server.sockets.opened(server.handle)));
    }
    exchange(&mut client, &mut server, 0);
    if case == 0 {
        close(&mut client);
        exchange(&mut client, &mut server, 1);
        close(&mut server);
        exchange(&mut client, &mut server, 2);
        return Ok((told(&mut client, 20), client.sockets.opened(client.handle)));
    }
    close(&mut server);
    exchange(&mut client, &mut server, 1);
    close(&mut client);
    exchange(&mut client, &mut server, 2);
    let resting = state(&server) == Some(State::TimeWait);
    silence(&mut client, 3);
    connect_from(&mut client, 49153);
    exchange(&mut client, &mut server, 4);
    let is = state(&server);
    Ok((
        (resting, false, is, false),
        server.sockets.opened(server.handle),
    ))
}

fn came(rt: &HostRuntime, case: u8) -> Result<(Told, Option<u64>), AllocError> {
    let (mut rx_a, mut tx_a) = ([0u8; 64], [0u8; 64]);
    let (mut rx_b, mut tx_b) = ([0u8; 64], [0u8; 64]);
    let client = tcp::Socket::new(RingBuffer::new(&mut rx_a), RingBuffer::new(&mut tx_a));
    let server = tcp::Socket::new(RingBuffer::new(&mut rx_b), RingBuffer::new(&mut tx_b));
    run(rt, client, server, case)
}

#[test]
fn the_end_of_time_wait_is_told_until_the_socket_is_lent(
    rt: HostRuntime,
) -> Result<(), AllocError> {
    assert!(rt; came(&rt, 0)? == ((false, true, Some(State::Closed), false), Some(0)));
    Ok(())
}

#[test]
fn a_handshake_that_is_given_up_is_told(rt: HostRuntime) -> Result<(), AllocError> {
    assert!(rt; came(&rt, 1)? == ((false, true, Some(State::Listen), false), Some(1)));
    Ok(())
}

#[test]
fn a_connection_in_place_of_another_is_counted(rt: HostRuntime) -> Result<(), AllocError> {
    assert!(rt; came(&rt, 2)? == ((true, false, Some(State::Established), false), Some(2)));
    Ok(())
}

// ---- datagrams

/// A host with one UDP socket, bound to port 5000.
pub(crate) fn one_udp<'a>(
    rt: &HostRuntime,
    address: IpAddress,
    mut socket: udp::Socket<'a>,
) -> Result<(Interface<Secret>, SocketSet<'a>), AllocError> {
    let _ = socket.bind(IpListenEndpoint {
        addr: None,
        port: 5000,
    });
    let mut addresses = Vec::new(rt.alloc());
    addresses.push(IpCidr {
        address,
        prefix_len: 24,
    })?;
    let mut sockets: SocketSet<'_> = SocketSet::new(rt.alloc(), 1)?;
    if sockets.add(Socket::Udp(socket)).is_err() {
        return Err(AllocError);
    }
    Ok((Interface::new(addresses, Secret::new([7; 32])), sockets))
}

fn pass_one(
    rt: &HostRuntime,
    mut from: udp::Socket<'_>,
    to: udp::Socket<'_>,
) -> Result<(Option<usize>, Option<usize>), AllocError> {
    let there = UdpMetadata::from_endpoint(IpEndpoint {
        addr: SERVER,
        port: 5000,
    });
    let (mut packet, mut reply) = ([0u8; 1500], [0u8; 1500]);
    let now = Instant::from_micros(0);
    let _ = from.bind(IpListenEndpoint {
        addr: None,
        port: 5000,
    });
    let _ = from.send_slice(b"hi", there);
    let (mut a, mut on_a) = one_udp(rt, CLIENT, from)?;
    let (mut b, mut on_b) = one_udp(rt, SERVER, to)?;
    let _ = b.emit(&mut on_b, now, &mut reply);
    let before = on_b.touched(0);
    let count = a.emit(&mut on_a, now, &mut packet).unwrap_or(0);
    let _ = a.emit(&mut on_a, now, &mut reply);
    if on_a.ended(0).is_some() {
        return Err(AllocError);
    }
    let _ = b.receive(&mut on_b, now, &packet[..count.min(1500)], &mut reply);
    Ok((before, on_b.touched(0)))
}

#[test]
fn a_datagram_touches_the_socket_that_takes_it(rt: HostRuntime) -> Result<(), AllocError> {
    let (mut places_a, mut bytes_a) = ([PacketMetadata::EMPTY; 2], [0u8; 64]);
    let (mut places_b, mut bytes_b) = ([PacketMetadata::EMPTY; 2], [0u8; 64]);
    let tx = PacketBuffer::new(&mut places_a, &mut bytes_a);
    let from = udp::Socket::new(PacketBuffer::new(&mut [], &mut []), tx);
    let rx = PacketBuffer::new(&mut places_b, &mut bytes_b);
    let to = udp::Socket::new(rx, PacketBuffer::new(&mut [], &mut []));
    assert!(rt; pass_one(&rt, from, to)? == (None, Some(0)));
    Ok(())
}
