//! A router says that a packet was too long for the next hop (RFC 1191, RFC 8201, RFC 5927).

use crate::hosts::{CLIENT, Host, OneSocket, SERVER, connect, emit, listen, port, receive, say};
use smoltcp_socket::storage::RingBuffer;
use smoltcp_socket::tcp;
use smoltcp_socket::wire::{ChecksumCapabilities, IpAddress, IpEndpoint, Ipv6Address};
use std::alloc::AllocError;

// What a router at 10.0.0.9 says to the server of a packet: fragmentation is needed, and the MTU is 256 times `high`.
// It quotes the header and eight bytes; the first byte of the packet's number is changed by `off`.
fn too_long(packet: &[u8; 1500], high: u8, off: u8) -> [u8; 56] {
    let mut said = [0u8; 56];
    let front = [
        69, 0, 0, 56, 0, 0, 0, 0, 64, 1, 0, 0, 10, 0, 0, 9, 10, 0, 0, 2, 3, 4, 0, 0, 0, 0, high, 0,
    ];
    for at in 0..28 {
        said[at] = front[at];
        said[at + 28] = packet[at];
    }
    said[52] = said[52].wrapping_add(off);
    said
}

fn ignore_checksums(host: &mut OneSocket<'_>) {
    host.interface
        .set_checksums(ChecksumCapabilities::ignored());
}

// The handshake; then the server says 1,400 bytes: how long the first packet is.
fn first(client: &mut OneSocket<'_>, server: &mut OneSocket<'_>, packet: &mut [u8; 1500]) -> usize {
    let mut reply = [0u8; 1500];
    let count = emit(client, 0, packet);
    receive(server, 0, &packet[..count], &mut reply);
    let count = emit(server, 0, &mut reply);
    receive(client, 0, &reply[..count], packet);
    let count = emit(client, 0, packet);
    receive(server, 0, &packet[..count], &mut reply);
    say(server, &[7; 1400]);
    emit(server, 0, packet)
}

// How long the first packet was, and how long the next one is once a router says this of it.
fn run(
    rt: &HostRuntime,
    client: tcp::Socket<'_>,
    server: tcp::Socket<'_>,
    high: u8,
    off: u8,
) -> Result<(usize, usize), AllocError> {
    let mut client = Host::new(rt, CLIENT, client)?;
    let mut server = Host::new(rt, SERVER, server)?;
    ignore_checksums(&mut client);
    ignore_checksums(&mut server);
    listen(&mut server);
    connect(&mut client);
    let (mut packet, mut reply) = ([0u8; 1500], [0u8; 1500]);
    let long = first(&mut client, &mut server, &mut packet);
    receive(&mut server, 0, &too_long(&packet, high, off), &mut reply);
    Ok((long, emit(&mut server, 0, &mut packet)))
}

fn of_v6(last: u8) -> IpAddress {
    IpAddress::Ipv6(Ipv6Address([0xfd, 0, 0, 0, 0, 0, 0, 0, 0, 0, 0, 0, 0, 0, 0, last]))
}

fn connect_v6(host: &mut OneSocket<'_>) {
    let Host {
        interface,
        sockets,
        handle,
    } = host;
    let remote = IpEndpoint {
        addr: of_v6(2),
        port: 7,
    };
    if let Some(socket) = sockets.tcp_mut(*handle) {
        let _ = socket.connect(interface.context(), remote, port(49152));
    }
}

// What a router at fd00::9 says to the server: the packet is too big, and the MTU is 256 times `high`. It quotes the
// header and eight bytes.
fn too_big(packet: &[u8; 1500], high: u8) -> [u8; 96] {
    let mut said = [0u8; 96];
    let front = [
        0x60, 0, 0, 0, 0, 56, 58, 64, 0xfd, 0, 0, 0, 0, 0, 0, 0, 0, 0, 0, 0, 0, 0, 0, 9, 0xfd, 0,
        0, 0, 0, 0, 0, 0, 0, 0, 0, 0, 0, 0, 0, 2, 2, 0, 0, 0, 0, 0, high, 0,
    ];
    for at in 0..48 {
        said[at] = front[at];
        said[at + 48] = packet[at];
    }
    said
}

fn run_v6(
    rt: &HostRuntime,
    client: tcp::Socket<'_>,
    server: tcp::Socket<'_>,
    high: u8,
) -> Result<(usize, usize), AllocError> {
    let mut client = Host::new(rt, of_v6(1), client)?;
    let mut server = Host::new(rt, of_v6(2), server)?;
    ignore_checksums(&mut client);
    ignore_checksums(&mut server);
    listen(&mut server);
    connect_v6(&mut client);
    let (mut packet, mut reply) = ([0u8; 1500], [0u8; 1500]);
    let long = first(&mut client, &mut server, &mut packet);
    receive(&mut server, 0, &too_big(&packet, high), &mut reply);
    Ok((long, emit(&mut server, 0, &mut packet)))
}

// By version 4 with this change of the number, else by version 6.
fn came(rt: &HostRuntime, high: u8, off: Option<u8>) -> Result<(usize, usize), AllocError> {
    let (mut rx_a, mut tx_a) = ([0u8; 4096], [0u8; 64]);
    let (mut rx_b, mut tx_b) = ([0u8; 64], [0u8; 2048]);
    let client = tcp::Socket::new(RingBuffer::new(&mut rx_a), RingBuffer::new(&mut tx_a));
    let server = tcp::Socket::new(RingBuffer::new(&mut rx_b), RingBuffer::new(&mut tx_b));
    match off {
        Some(off) => run(rt, client, server, high, off),
        None => run_v6(rt, client, server, high),
    }
}

#[test]
fn what_was_too_long_goes_out_again_at_once(rt: HostRuntime) -> Result<(), AllocError> {
    assert!(rt; came(&rt, 4, Some(0))? == (1440, 1024));
    Ok(())
}

#[test]
fn without_an_mtu_it_is_576_bytes(rt: HostRuntime) -> Result<(), AllocError> {
    assert!(rt; came(&rt, 0, Some(0))? == (1440, 576));
    Ok(())
}

#[test]
fn of_a_number_that_was_not_sent_nothing_is_heard(rt: HostRuntime) -> Result<(), AllocError> {
    assert!(rt; came(&rt, 4, Some(1))? == (1440, 0));
    Ok(())
}

#[test]
fn packet_too_big_of_ipv6_is_heard(rt: HostRuntime) -> Result<(), AllocError> {
    assert!(rt; came(&rt, 5, None)? == (1460, 1280));
    Ok(())
}
