//! How many connections a source may have.

use crate::hosts::SERVER;
use net_host::{Interface, IpCidr, Secret, SocketSet, SynCookies};
use smoltcp_socket::storage::RingBuffer;
use smoltcp_socket::time::Instant;
use smoltcp_socket::wire::{ChecksumCapabilities, IpAddress, IpListenEndpoint, Ipv6Address};
use smoltcp_socket::{Socket, tcp};
use std::alloc::AllocError;

const SERVER_V6: IpAddress = IpAddress::Ipv6(Ipv6Address([
    32, 1, 13, 184, 0, 0, 0, 0, 0, 0, 0, 0, 0, 0, 0, 1,
]));

// A SYN to port 7, from this address and port, over IPv4.
fn syn_v4(last: u8, port: u8) -> [u8; 40] {
    [
        69, 0, 0, 40, 0, 0, 0, 0, 64, 6, 0, 0, 10, 0, 0, last, 10, 0, 0, 2, 200, port, 0, 7, 0, 0,
        0, 9, 0, 0, 0, 0, 80, 2, 16, 0, 0, 0, 0, 0,
    ]
}

// A SYN to port 7 over IPv6, from this subnet, the host in it and the port.
fn syn_v6(subnet: u8, last: u8, port: u8) -> [u8; 60] {
    [
        96, 0, 0, 0, 0, 20, 6, 64, 32, 1, 13, 184, 0, 0, 0, subnet, 0, 0, 0, 0, 0, 0, 0, last, 32,
        1, 13, 184, 0, 0, 0, 0, 0, 0, 0, 0, 0, 0, 0, 1, 200, port, 0, 7, 0, 0, 0, 9, 0, 0, 0, 0,
        80, 2, 16, 0, 0, 0, 0, 0,
    ]
}

fn listens(socket: &mut tcp::Socket<'_>) {
    let _ = socket.listen(IpListenEndpoint {
        addr: None,
        port: 7,
    });
}

// A host with this limit.
fn host(rt: &HostRuntime, most: usize) -> Result<Interface<Secret>, AllocError> {
    let mut addresses = Vec::new(rt.alloc());
    for (address, prefix_len) in [(SERVER, 24), (SERVER_V6, 64)] {
        addresses.push(IpCidr {
            address,
            prefix_len,
        })?;
    }
    let mut interface = Interface::new(addresses, Secret::new([7; 32]));
    interface.set_checksums(ChecksumCapabilities::ignored());
    interface.set_most_of_source(most);
    Ok(interface)
}

// Three packets come one after the other: how many were dropped as one too many, and how many were answered by a
// cookie.
fn came_to(
    interface: &mut Interface<Secret>,
    sockets: &mut SocketSet<'_>,
    packets: [&[u8]; 3],
) -> (u64, u64) {
    let mut reply = [0u8; 1500];
    for packet in packets {
        let _ = interface.receive(sockets, Instant::from_micros(0), packet, &mut reply);
    }
    let counters = interface.counters();
    (counters.too_many, counters.cookies_sent)
}

fn filled<'a>(
    rt: &HostRuntime,
    a: tcp::Socket<'a>,
    b: tcp::Socket<'a>,
    c: tcp::Socket<'a>,
) -> Result<SocketSet<'a>, AllocError> {
    let mut sockets = SocketSet::new(rt.alloc(), 3)?;
    let _ = sockets.add(Socket::Tcp(a));
    let _ = sockets.add(Socket::Tcp(b));
    let _ = sockets.add(Socket::Tcp(c));
    Ok(sockets)
}

// What becomes of SYNs to a host with these sockets.
fn run(
    rt: &HostRuntime,
    sockets: &mut SocketSet<'_>,
    most: usize,
    cookies: bool,
    packets: [&[u8]; 3],
) -> Result<(u64, u64), AllocError> {
    let mut interface = host(rt, most)?;
    if cookies {
        interface.set_syn_cookies(Some(SynCookies::new([9; 32], 2)));
    }
    Ok(came_to(&mut interface, sockets, packets))
}

// What becomes of SYNs to a host with three sockets that listen.
fn came(
    rt: &HostRuntime,
    most: usize,
    cookies: bool,
    packets: [&[u8]; 3],
) -> Result<(u64, u64), AllocError> {
    let (mut rx_a, mut tx_a) = ([0u8; 64], [0u8; 64]);
    let (mut rx_b, mut tx_b) = ([0u8; 64], [0u8; 64]);
    let (mut rx_c, mut tx_c) = ([0u8; 64], [0u8; 64]);
    let mut a = tcp::Socket::new(RingBuffer::new(&mut rx_a), RingBuffer::new(&mut tx_a));
    let mut b = tcp::Socket::new(RingBuffer::new(&mut rx_b), RingBuffer::new(&mut tx_b));
    let mut c = tcp::Socket::new(RingBuffer::new(&mut rx_c), RingBuffer::new(&mut tx_c));
    listens(&mut a);
    listens(&mut b);
    listens(&mut c);
    let mut sockets = filled(rt, a, b, c)?;
    run(rt, &mut sockets, most, cookies, packets)
}

#[test]
fn a_source_has_no_more_connections_than_are_allowed(rt: HostRuntime) -> Result<(), AllocError> {
    let (a, b, c) = (syn_v4(1, 1), syn_v4(1, 2), syn_v4(1, 3));
    assert!(rt; came(&rt, 2, false, [&a, &b, &c])? == (1, 0));
    assert!(rt; came(&rt, 1, false, [&a, &b, &c])? == (2, 0));
    assert!(rt; came(&rt, 0, false, [&a, &b, &c])? == (0, 0));
    assert!(rt; came(&rt, 2, true, [&a, &b, &c])? == (1, 0));
    assert!(rt; came(&rt, 3, true, [&a, &b, &c])? == (0, 1));
    Ok(())
}

#[test]
fn another_source_counts_for_itself(rt: HostRuntime) -> Result<(), AllocError> {
    let (a, b, c) = (syn_v4(1, 1), syn_v4(3, 2), syn_v4(1, 3));
    assert!(rt; came(&rt, 1, false, [&a, &b, &c])? == (1, 0));
    assert!(rt; came(&rt, 1, false, [&a, &a, &b])? == (0, 0));
    Ok(())
}

#[test]
fn a_prefix_of_64_bits_is_one_source(rt: HostRuntime) -> Result<(), AllocError> {
    let (a, b, c) = (syn_v6(1, 1, 1), syn_v6(1, 2, 2), syn_v6(2, 1, 3));
    assert!(rt; came(&rt, 1, false, [&a, &b, &c])? == (1, 0));
    assert!(rt; came(&rt, 1, false, [&a, &c, &b])? == (1, 0));
    assert!(rt; came(&rt, 2, false, [&a, &b, &c])? == (0, 0));
    Ok(())
}
