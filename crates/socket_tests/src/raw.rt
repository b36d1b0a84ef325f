//! Raw sockets: slices that they lend, and closures. What their calls answer otherwise is shown by the drills of
//! `socket_drill`.
use crate::host::Host;
use smoltcp_socket::raw::*;
use smoltcp_socket::wire::{IpAddress, IpProtocol, IpRepr, Ipv4Address};
use std::test::Fail;

// 10.0.0.1 to 10.0.0.2, protocol 63, hop limit 64, and four bytes, with its checksum.
const PACKET: [u8; 24] = [
    0x45, 0, 0, 0x18, 0, 0, 0x40, 0, 0x40, 0x3f, 0x26, 0xa5, 10, 0, 0, 1, 10, 0, 0, 2, 0xaa, 0, 0,
    0xff,
];

// The socket's calls without their contracts: the tests prove faster so. Sends these bytes by way of the lent slice.
fn lends(socket: &mut Socket<'_>, data: &[u8]) -> Result<(), SendError> {
    let lent = socket.send(data.len())?;
    lent.copy_from_slice(data);
    Ok(())
}

// Sends two of four bytes by a closure.
fn sends_two(socket: &mut Socket<'_>) -> Result<usize, SendError> {
    socket.send_with(4, |lent| lent.len().min(2))
}

fn hears(socket: &mut Socket<'_>) {
    let (here, there) = (Ipv4Address([10, 0, 0, 1]), Ipv4Address([10, 0, 0, 2]));
    let header = IpRepr::new(
        IpAddress::Ipv4(here),
        IpAddress::Ipv4(there),
        IpProtocol::Unknown(63),
        4,
        64,
    );
    socket.process(&Host::new(None), &header, &[0xaa, 0, 0, 0xff]);
}

// Whether this is the answer for the first packet as a whole, left in its place and then taken.
fn first_is(socket: &mut Socket<'_>, packet: Result<&[u8], RecvError>) -> bool {
    socket.peek() == packet && socket.recv() == packet
}

fn lends_both_ways(socket: &mut Socket<'_>) -> [bool; 3] {
    hears(socket);
    [
        first_is(socket, Ok(&PACKET)),
        lends(socket, &PACKET).is_ok(),
        sends_two(socket) == Ok(2),
    ]
}

#[test]
fn raw_lends_its_slices(rt: HostRuntime) -> Result<(), Fail> {
    let (mut rx_places, mut tx_places) = ([PacketMetadata::EMPTY; 1], [PacketMetadata::EMPTY; 2]);
    let (mut rx_bytes, mut tx_bytes) = ([0u8; 48], [0u8; 48]);
    let mut socket = Socket::new(
        None,
        None,
        PacketBuffer::new(&mut rx_places, &mut rx_bytes),
        PacketBuffer::new(&mut tx_places, &mut tx_bytes),
    );
    assert!(rt; lends_both_ways(&mut socket) == [true; 3]);
    Ok(())
}
