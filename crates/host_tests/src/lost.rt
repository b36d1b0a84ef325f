//! Datagrams that are lost, and a socket that has had its turns.

use crate::ends::one_udp;
use crate::hosts::{CLIENT, SERVER};
use smoltcp_socket::storage::PacketBuffer;
use smoltcp_socket::time::Instant;
use smoltcp_socket::udp::{self, PacketMetadata, UdpMetadata};
use smoltcp_socket::wire::{IpAddress, IpEndpoint, IpListenEndpoint, Ipv6Address};
use std::alloc::AllocError;

const OF_IPV6: IpAddress = IpAddress::Ipv6(Ipv6Address([
    32, 1, 13, 184, 0, 0, 0, 0, 0, 0, 0, 0, 0, 0, 0, 1,
]));

// So many datagrams of a byte wait to be sent there.
fn fill(socket: &mut udp::Socket<'_>, addr: IpAddress, count: u8) {
    let _ = socket.bind(IpListenEndpoint {
        addr: None,
        port: 5000,
    });
    for _ in 0..count {
        let to = UdpMetadata::from_endpoint(IpEndpoint { addr, port: 5000 });
        let _ = socket.send_slice(b"x", to);
    }
}

// Of two datagrams for a receive queue with one place: how many are lost for that, and how many for nobody.
fn overflow(
    rt: &HostRuntime,
    mut from: udp::Socket<'_>,
    to: udp::Socket<'_>,
) -> Result<(u64, u64), AllocError> {
    let (mut packet, mut reply) = ([0u8; 1500], [0u8; 1500]);
    let now = Instant::from_micros(0);
    fill(&mut from, SERVER, 2);
    let (mut a, mut on_a) = one_udp(rt, CLIENT, from)?;
    let (mut b, mut on_b) = one_udp(rt, SERVER, to)?;
    for _ in 0..2 {
        let count = a.emit(&mut on_a, now, &mut packet).unwrap_or(0);
        let _ = b.receive(&mut on_b, now, &packet[..count.min(1500)], &mut reply);
    }
    Ok((b.counters().full, b.counters().nobody))
}

// How many of so many datagrams go out at one moment, how many were lost for want of a source, the first socket that is
// touched then, and how many go out a microsecond later.
fn sent(
    rt: &HostRuntime,
    mut from: udp::Socket<'_>,
    to: IpAddress,
    count: u8,
) -> Result<(u8, u64, Option<usize>, u8), AllocError> {
    let mut packet = [0u8; 1500];
    fill(&mut from, to, count);
    let (mut a, mut on_a) = one_udp(rt, CLIENT, from)?;
    let mut went = [0u8; 2];
    for (micros, went) in went.iter_mut().enumerate() {
        let now = Instant::from_micros(if micros == 0 { 0 } else { 1 });
        for _ in 0..100u8 {
            if a.emit(&mut on_a, now, &mut packet).unwrap_or(0) == 0 {
                break;
            }
            *went = went.saturating_add(1);
        }
        if micros == 0 && on_a.touched(0).is_some() {
            return Ok((*went, a.counters().unsent, on_a.touched(0), 0));
        }
    }
    let [first, second] = went;
    Ok((first, a.counters().unsent, None, second))
}

fn came(
    rt: &HostRuntime,
    to: IpAddress,
    count: u8,
) -> Result<(u8, u64, Option<usize>, u8), AllocError> {
    let (mut places, mut bytes) = ([PacketMetadata::EMPTY; 80], [0u8; 100]);
    let tx = PacketBuffer::new(&mut places, &mut bytes);
    let from = udp::Socket::new(PacketBuffer::new(&mut [], &mut []), tx);
    sent(rt, from, to, count)
}

#[test]
fn a_datagram_for_a_full_queue_is_counted(rt: HostRuntime) -> Result<(), AllocError> {
    let (mut places_a, mut bytes_a) = ([PacketMetadata::EMPTY; 4], [0u8; 64]);
    let (mut places_b, mut bytes_b) = ([PacketMetadata::EMPTY; 1], [0u8; 64]);
    let tx = PacketBuffer::new(&mut places_a, &mut bytes_a);
    let from = udp::Socket::new(PacketBuffer::new(&mut [], &mut []), tx);
    let rx = PacketBuffer::new(&mut places_b, &mut bytes_b);
    let to = udp::Socket::new(rx, PacketBuffer::new(&mut [], &mut []));
    assert!(rt; overflow(&rt, from, to)? == (1, 0));
    Ok(())
}

#[test]
fn a_datagram_without_a_source_of_its_version_is_counted(
    rt: HostRuntime,
) -> Result<(), AllocError> {
    assert!(rt; came(&rt, OF_IPV6, 2)? == (0, 2, None, 0));
    assert!(rt; came(&rt, SERVER, 2)? == (2, 0, None, 0));
    Ok(())
}

#[test]
fn a_socket_that_had_its_turns_is_not_touched(rt: HostRuntime) -> Result<(), AllocError> {
    assert!(rt; came(&rt, SERVER, 70)? == (64, 0, None, 6));
    Ok(())
}
