//! Sources that no single other host has.

use crate::hosts::CLIENT;
use net_host::{Interface, IpCidr, Secret, SocketSet};
use smoltcp_socket::time::Instant;
use smoltcp_socket::wire::{ChecksumCapabilities, IpAddress, Ipv6Address};
use std::alloc::AllocError;

const HOST: IpAddress = IpAddress::Ipv6(Ipv6Address([
    32, 1, 13, 184, 0, 0, 0, 0, 0, 0, 0, 0, 0, 0, 0, 1,
]));

// How many packets a host drops for their source, where one from this address comes, of protocol 253, which is for
// experiments (RFC 3692): to 10.0.0.1, of a network of 24 bits, or to 2001:db8::1.
fn dropped(rt: &HostRuntime, packet: &[u8]) -> Result<u64, AllocError> {
    let mut addresses = Vec::new(rt.alloc());
    for (address, prefix_len) in [(CLIENT, 24), (HOST, 64)] {
        addresses.push(IpCidr {
            address,
            prefix_len,
        })?;
    }
    let mut interface = Interface::new(addresses, Secret::new([7; 32]));
    interface.set_checksums(ChecksumCapabilities::ignored());
    let mut sockets: SocketSet<'_> = SocketSet::new(rt.alloc(), 1)?;
    let mut reply = [0u8; 1500];
    let _ = interface.receive(&mut sockets, Instant::from_micros(0), packet, &mut reply);
    Ok(interface.counters().source)
}

fn of_v4(rt: &HostRuntime, source: [u8; 4]) -> Result<u64, AllocError> {
    let [a, b, c, d] = source;
    let packet = [
        69, 0, 0, 20, 0, 0, 0, 0, 64, 253, 0, 0, a, b, c, d, 10, 0, 0, 1,
    ];
    dropped(rt, &packet)
}

fn of_v6(rt: &HostRuntime, first: u8, last: u8) -> Result<u64, AllocError> {
    let packet = [
        96, 0, 0, 0, 0, 0, 253, 64, first, 1, 13, 184, 0, 0, 0, 0, 0, 0, 0, 0, 0, 1, 0, last, 32,
        1, 13, 184, 0, 0, 0, 0, 0, 0, 0, 0, 0, 0, 0, 1,
    ];
    let mut packet = packet;
    if first == 0 {
        packet[9..12].copy_from_slice(&[0, 0, 0]);
    }
    dropped(rt, &packet)
}

#[test]
fn a_network_itself_is_no_source(rt: HostRuntime) -> Result<(), AllocError> {
    assert!(rt; of_v4(&rt, [10, 0, 0, 0])? == 1);
    assert!(rt; of_v4(&rt, [10, 0, 0, 255])? == 1);
    assert!(rt; of_v4(&rt, [10, 0, 0, 2])? == 0);
    assert!(rt; of_v4(&rt, [10, 0, 1, 0])? == 0);
    Ok(())
}

#[test]
fn an_address_of_ipv4_in_ipv6_is_no_source(rt: HostRuntime) -> Result<(), AllocError> {
    assert!(rt; of_v6(&rt, 0, 2)? == 1);
    assert!(rt; of_v6(&rt, 32, 2)? == 0);
    Ok(())
}
