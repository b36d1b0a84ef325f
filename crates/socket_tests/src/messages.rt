//! Worked examples of source ports, of timestamps, and of ICMP messages as bytes.

use crate::slices::first;
use control_wire::*;
use ip_wire::{ChecksumCapabilities, IpAddress, Ipv4Address, Ipv6Address};

const A: IpAddress = IpAddress::Ipv4(Ipv4Address([10, 0, 0, 1]));

const B: IpAddress = IpAddress::Ipv4(Ipv4Address([10, 0, 0, 2]));

const V6: Ipv6Address = Ipv6Address([
    0x20, 0x01, 0x0d, 0xb8, 0, 0, 0, 0, 0, 0, 0, 0, 0, 0, 0, 0xfe,
]);

// The source port of a datagram under this checksum.
fn udp_port(high: u8, low: u8) -> Option<u16> {
    let bytes = [0x04, 0xd2, 0, 53, 0, 10, high, low, b'h', b'i'];
    udp_source(&bytes, &A, &B, &ChecksumCapabilities::default())
}

// The source port of a segment with these flags; its checksum is that of a SYN.
fn tcp_port(flags: u8) -> Option<u16> {
    let bytes = [
        0xc0, 0, 0, 80, 0, 0, 0, 0, 0, 0, 0, 0, 0x50, flags, 0, 0, 0xdb, 0x8f, 0, 0,
    ];
    tcp_source(&bytes, &A, &B, &ChecksumCapabilities::default())
}

#[test]
fn source_ports(rt: HostRuntime) {
    // a damaged checksum, and none, which is no damage over IPv4
    let ports = [udp_port(0x7e, 0x67), udp_port(0, 0x67), udp_port(0, 0)];
    assert!(rt; ports == [Some(1234), None, Some(1234)]);
    assert!(rt; [tcp_port(2), tcp_port(16)] == [Some(49152), None]);
}

fn clock() -> u32 {
    7
}

#[test]
fn timestamps_are_echoed(rt: HostRuntime) {
    let came = TcpTimestampRepr::new(5, 6);
    assert!(rt; came.generate_reply(Some(clock)) == Some(TcpTimestampRepr::new(7, 5)));
    assert!(rt; TcpControl::Psh.quash_psh() == TcpControl::None);
}

// Writes a message into a buffer of its length, and answers with that.
fn writes(repr: Icmpv4Repr<'_>, bytes: &mut [u8]) -> usize {
    if repr.buffer_len() == bytes.len() {
        repr.emit(bytes, &ChecksumCapabilities::default());
    }
    IcmpRepr::Ipv4(repr).buffer_len()
}

fn writes_v6(repr: Icmpv6Repr<'_>, bytes: &mut [u8]) -> usize {
    if repr.buffer_len() == bytes.len() {
        repr.emit(&V6, &V6, bytes, &ChecksumCapabilities::default());
    }
    IcmpRepr::Ipv6(repr).buffer_len()
}

fn parsed(bytes: &[u8]) -> Option<Icmpv4Repr<'_>> {
    Icmpv4Repr::parse(bytes, &ChecksumCapabilities::default()).ok()
}

fn parsed_v6(dst: Ipv6Address, bytes: &[u8]) -> Option<Icmpv6Repr<'_>> {
    Icmpv6Repr::parse(&V6, &dst, bytes, &ChecksumCapabilities::default()).ok()
}

// A ping of Windows, whose checksum is seen in many published captures.
fn ping() -> Icmpv4Repr<'static> {
    Icmpv4Repr::EchoRequest {
        ident: 1,
        seq_no: 1,
        body: b"abcdefghijklmnopqrstuvwabcdefghi",
    }
}

#[test]
fn icmpv4_echo(rt: HostRuntime) {
    let mut bytes = [0; 40];
    let answers = [
        writes(ping(), &mut bytes) == 40,
        first(&bytes, 8) == [8, 0, 0x4d, 0x5a, 0, 1, 0, 1].as_slice(),
        parsed(&bytes) == Some(ping()),
        parsed(first(&bytes, 39)).is_none(),
    ];
    assert!(rt; answers == [true; 4]);
}

#[test]
fn icmpv6_echo(rt: HostRuntime) {
    let echo = Icmpv6Repr::EchoRequest {
        ident: 0x1234,
        seq_no: 7,
        body: b"x",
    };
    let mut bytes = [0; 9];
    let answers = [
        writes_v6(echo, &mut bytes) == 9,
        bytes == [128, 0, 0x98, 0x12, 0x12, 0x34, 0, 7, b'x'],
        parsed_v6(V6, &bytes) == Some(echo),
        // the addresses are summed too
        parsed_v6(Ipv6Address([0; 16]), &bytes).is_none(),
    ];
    assert!(rt; answers == [true; 4]);
}
