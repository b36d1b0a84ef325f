//! UDP sockets: slices that they lend, closures, and a host without an address. What their calls answer otherwise is
//! shown by the drills of `socket_drill`.
use crate::host::Host;
use crate::slices::first;
use smoltcp_socket::udp::*;
use smoltcp_socket::wire::{
    IpAddress, IpEndpoint, IpListenEndpoint, IpProtocol, IpRepr, Ipv4Address, UdpRepr,
};
use std::test::Fail;

const HERE: IpAddress = IpAddress::Ipv4(Ipv4Address([192, 168, 1, 1]));

const THERE: IpAddress = IpAddress::Ipv4(Ipv4Address([192, 168, 1, 2]));

const REMOTE: IpEndpoint = IpEndpoint {
    addr: THERE,
    port: 49500,
};

const REPR: UdpRepr = UdpRepr {
    src_port: 49500,
    dst_port: 53,
};

// What a socket holds of a datagram from the other side.
const CAME: UdpMetadata = UdpMetadata {
    endpoint: REMOTE,
    local_address: Some(HERE),
};

const TEXT: &[u8] = b"abcdefghijklmnopqrstuvwxyzabcdefghijklmn";

// The socket's calls without their contracts: the tests prove faster so.
fn binds(socket: &mut Socket<'_>, addr: Option<IpAddress>) -> bool {
    socket.bind(IpListenEndpoint { addr, port: 53 }).is_ok()
}

// Takes a datagram from the other side.
fn hear(socket: &mut Socket<'_>, payload: &[u8]) {
    let ip_repr = IpRepr::new(THERE, HERE, IpProtocol::Udp, 8, 64);
    socket.process(&Host::new(None), &ip_repr, &REPR, payload);
}

// Sends these bytes by way of the lent slice.
fn lends(socket: &mut Socket<'_>, data: &[u8]) -> Result<(), SendError> {
    let lent = socket.send(data.len(), UdpMetadata::from_endpoint(REMOTE))?;
    lent.copy_from_slice(data);
    Ok(())
}

// Sends 20 of so many bytes by a closure.
fn sends_sevens(socket: &mut Socket<'_>, size: usize) -> Result<usize, SendError> {
    socket.send_with(size, UdpMetadata::from_endpoint(REMOTE), |lent| {
        lent.fill(7);
        lent.len().min(20)
    })
}

// Whether the first datagram that waits has these bytes and came from the other side, left in its place.
fn shows(socket: &mut Socket<'_>, payload: &[u8]) -> bool {
    matches!(socket.peek(), Ok((lent, meta)) if lent == payload && *meta == CAME)
}

// Whether the datagram that a call takes has these bytes and came from the other side.
fn gives(socket: &mut Socket<'_>, payload: &[u8]) -> bool {
    matches!(socket.recv(), Ok((lent, meta)) if lent == payload && meta == CAME)
}

// Whether the bytes of what is emitted are these.
fn emits(socket: &mut Socket<'_>, payload: &[u8]) -> bool {
    let mut same = false;
    let answer = socket.dispatch(
        &mut Host::new(None),
        |_: &mut Host, sent: (IpRepr, UdpRepr, &[u8])| {
            same = sent.2 == payload;
            Ok::<(), ()>(())
        },
    );
    same && answer.is_ok()
}

// What comes is lent, and a datagram for which no source is found leaves without an emit.
fn lends_what_came(socket: &mut Socket<'_>) -> bool {
    let is_bound = binds(socket, None);
    hear(socket, b"abcdef");
    let came = [
        is_bound,
        shows(socket, b"abcdef"),
        gives(socket, b"abcdef"),
        lends(socket, b"lost").is_ok(),
        emits(socket, b"lost"),
    ];
    socket.close();
    came == [true, true, true, true, false]
}

// Around the end of 64, of which the last four are left out.
fn goes_around(socket: &mut Socket<'_>) -> [bool; 7] {
    [
        binds(socket, Some(HERE)),
        lends(socket, first(TEXT, 40)).is_ok(),
        sends_sevens(socket, 21) == Ok(20),
        emits(socket, first(TEXT, 40)),
        lends(socket, first(TEXT, 10)).is_ok(),
        emits(socket, &[7; 20]),
        emits(socket, first(TEXT, 10)),
    ]
}

#[test]
fn udp_lends_its_slices_around_the_end(rt: HostRuntime) -> Result<(), Fail> {
    let mut rx_places = [PacketMetadata::EMPTY; 1];
    let mut rx_bytes = [0u8; 16];
    let mut tx_places = [PacketMetadata::EMPTY; 4];
    let mut tx_bytes = [0u8; 64];
    let mut socket = Socket::new(
        PacketBuffer::new(&mut rx_places, &mut rx_bytes),
        PacketBuffer::new(&mut tx_places, &mut tx_bytes),
    );
    assert!(rt; lends_what_came(&mut socket));
    assert!(rt; goes_around(&mut socket) == [true; 7]);
    Ok(())
}
