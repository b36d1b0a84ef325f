//! ICMP sockets: slices that they lend, and closures. What their calls answer otherwise is shown by the drills of
//! `socket_drill`.
use crate::host::Host;
use smoltcp_socket::icmp::*;
use smoltcp_socket::wire::{Icmpv4Repr, IpAddress, IpProtocol, Ipv4Address, Ipv4Repr};
use std::test::Fail;

const PEER: Ipv4Address = Ipv4Address([10, 0, 0, 2]);

const THERE: IpAddress = IpAddress::Ipv4(PEER);

// An echo request with the identifier 0x1234, and its checksum.
const ECHO: [u8; 8] = [8, 0, 0xe5, 0xca, 0x12, 0x34, 0, 1];

// The socket's calls without their contracts: the tests prove faster so. Sends these bytes by way of the lent slice.
fn lends(socket: &mut Socket<'_>, data: &[u8]) -> Result<(), SendError> {
    let lent = socket.send(data.len(), THERE)?;
    lent.copy_from_slice(data);
    Ok(())
}

// Sends two of four bytes by a closure.
fn sends_two(socket: &mut Socket<'_>) -> Result<usize, SendError> {
    socket.send_with(4, THERE, |lent| lent.len().min(2))
}

// Takes an echo request from the other side.
fn hears(socket: &mut Socket<'_>) {
    let header = Ipv4Repr {
        src_addr: PEER,
        dst_addr: Ipv4Address([10, 0, 0, 1]),
        next_header: IpProtocol::Icmp,
        payload_len: 8,
        hop_limit: 64,
    };
    let message = Icmpv4Repr::EchoRequest {
        ident: 0x1234,
        seq_no: 1,
        body: &[],
    };
    socket.process_v4(&Host::new(None), &header, &message);
}

fn gives(socket: &mut Socket<'_>, answer: Result<(&[u8], IpAddress), RecvError>) -> bool {
    socket.recv() == answer
}

fn lends_both_ways(socket: &mut Socket<'_>) -> [bool; 3] {
    hears(socket);
    [
        gives(socket, Ok((&ECHO, THERE))),
        lends(socket, &ECHO).is_ok(),
        sends_two(socket) == Ok(2),
    ]
}

#[test]
fn icmp_lends_its_slices(rt: HostRuntime) -> Result<(), Fail> {
    let (mut rx_places, mut tx_places) = ([PacketMetadata::EMPTY; 1], [PacketMetadata::EMPTY; 2]);
    let (mut rx_bytes, mut tx_bytes) = ([0u8; 8], [0u8; 12]);
    let mut socket = Socket::new(
        PacketBuffer::new(&mut rx_places, &mut rx_bytes),
        PacketBuffer::new(&mut tx_places, &mut tx_bytes),
    );
    assert!(rt; lends_both_ways(&mut socket) == [true; 3]);
    Ok(())
}
