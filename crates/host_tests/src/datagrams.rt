//! A datagram that is longer than the MTU.

use crate::hosts::{CLIENT, SERVER};
use net_host::{Interface, IpCidr, Secret, SocketSet};
use smoltcp_socket::storage::PacketBuffer;
use smoltcp_socket::time::Instant;
use smoltcp_socket::udp::{self, PacketMetadata, UdpMetadata};
use smoltcp_socket::wire::{IpEndpoint, IpListenEndpoint};
use smoltcp_socket::{PollAt, Socket};
use std::alloc::AllocError;

const ANY: IpListenEndpoint = IpListenEndpoint {
    addr: None,
    port: 5000,
};

// A datagram of so many bytes, and behind it one of two, leave a host of an MTU of 1500 through a buffer of so many:
// the length of the packet that goes out first, how many were dropped, and whether the host waits then.
fn first(
    rt: &HostRuntime,
    mut socket: udp::Socket<'_>,
    len: usize,
    room: usize,
) -> Result<(usize, u64, bool), AllocError> {
    let to = UdpMetadata::from_endpoint(IpEndpoint {
        addr: SERVER,
        port: 7,
    });
    let (bytes, mut out) = ([7u8; 1600], [0u8; 4000]);
    let _ = socket.bind(ANY);
    let _ = socket.send_slice(&bytes[..len.min(1600)], to);
    let _ = socket.send_slice(b"hi", to);
    let mut addresses = Vec::new(rt.alloc());
    addresses.push(IpCidr {
        address: CLIENT,
        prefix_len: 24,
    })?;
    let mut interface = Interface::new(addresses, Secret::new([7; 32]));
    let mut sockets: SocketSet<'_> = SocketSet::new(rt.alloc(), 1)?;
    if sockets.add(Socket::Udp(socket)).is_err() {
        return Err(AllocError);
    }
    let now = Instant::from_micros(0);
    let room = room.min(4000);
    let count = interface
        .emit(&mut sockets, now, &mut out[..room])
        .unwrap_or(0);
    let waits = interface.poll_at(&sockets) == PollAt::Ingress;
    Ok((count, interface.counters().too_long, waits))
}

fn came(rt: &HostRuntime, len: usize, room: usize) -> Result<(usize, u64, bool), AllocError> {
    let mut places = [PacketMetadata::EMPTY; 4];
    let mut bytes = [0u8; 2000];
    let tx = PacketBuffer::new(&mut places, &mut bytes);
    let rx = PacketBuffer::new(&mut [], &mut []);
    first(rt, udp::Socket::new(rx, tx), len, room)
}

#[test]
fn a_datagram_longer_than_the_mtu_is_dropped_and_the_next_goes_out(
    rt: HostRuntime,
) -> Result<(), AllocError> {
    assert!(rt; came(&rt, 1473, 1500)? == (30, 1, true));
    assert!(rt; came(&rt, 1473, 4000)? == (30, 1, true));
    assert!(rt; came(&rt, 1472, 4000)? == (1500, 0, false));
    Ok(())
}

#[test]
fn a_datagram_waits_for_a_buffer_with_room(rt: HostRuntime) -> Result<(), AllocError> {
    assert!(rt; came(&rt, 1472, 1499)? == (0, 0, false));
    Ok(())
}
