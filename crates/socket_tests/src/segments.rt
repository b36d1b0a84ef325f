//! Worked examples of segments and datagrams as bytes, worked out by hand (RFC 9293, section 3.1; RFC 7323; RFC 2018;
//! RFC 768).

use crate::slices::first;
use control_wire::{TcpControl, TcpRepr, TcpSeqNumber, TcpTimestampRepr, UdpRepr};
use ip_wire::{ChecksumCapabilities, IpAddress, IpProtocol, IpRepr, Ipv4Address};
use segment_wire::{options, packet, tcp, udp};

const A: IpAddress = IpAddress::Ipv4(Ipv4Address([10, 0, 0, 1]));

const B: IpAddress = IpAddress::Ipv4(Ipv4Address([10, 0, 0, 2]));

// A SYN from port 49152 to 80: MSS 1460, window scale 7, SACK permitted, timestamp 1, and an END.
const SYN: [u8; 40] = [
    0xc0, 0, 0, 80, 0, 0, 0, 1, 0, 0, 0, 0, 0xa0, 2, 0xff, 0xff, 0x6c, 0xb3, 0, 0, 2, 4, 5, 0xb4,
    3, 3, 7, 4, 2, 8, 10, 0, 0, 0, 1, 0, 0, 0, 0, 0,
];

// From port 1234 to 53, with "hi".
const DATAGRAM: [u8; 10] = [0x04, 0xd2, 0, 53, 0, 10, 0x7e, 0x67, b'h', b'i'];

fn syn() -> TcpRepr<'static> {
    TcpRepr {
        src_port: 49152,
        dst_port: 80,
        control: TcpControl::Syn,
        seq_number: TcpSeqNumber(1),
        ack_number: None,
        window_len: 65535,
        window_scale: Some(7),
        max_seg_size: Some(1460),
        sack_permitted: true,
        sack_ranges: [None, None, None],
        timestamp: Some(TcpTimestampRepr { tsval: 1, tsecr: 0 }),
        payload: &[],
    }
}

// The functions without their contracts: the tests prove faster so.
fn written(repr: &TcpRepr<'_>) -> [u8; 40] {
    let mut bytes = [7; 40];
    if repr.buffer_len() == 40 {
        tcp::emit(repr, &mut bytes, &A, &B, &ChecksumCapabilities::default());
    }
    bytes
}

fn read(bytes: &[u8]) -> Option<TcpRepr<'_>> {
    tcp::parse(bytes, &A, &B, &ChecksumCapabilities::default()).ok()
}

fn is_read(bytes: &[u8]) -> bool {
    tcp::parse(bytes, &A, &B, &ChecksumCapabilities::ignored()).is_ok()
}

#[test]
fn a_syn_with_all_options(rt: HostRuntime) {
    assert!(rt; written(&syn()) == SYN);
    assert!(rt; read(&SYN) == Some(syn()));
}

#[test]
fn a_cut_or_damaged_syn_is_refused(rt: HostRuntime) {
    for len in 0..40 {
        assert!(rt; !is_read(first(&SYN, len)));
    }
    assert!(rt; is_read(&SYN));
    let mut damaged = SYN;
    damaged[7] = 2;
    assert!(rt; read(&damaged) == None);
}

// Whether a SYN is read with this octet at this place.
fn is_read_with(at: usize, octet: u8) -> bool {
    let mut bytes = SYN;
    match bytes.get_mut(at) {
        Some(place) => *place = octet,
        None => return false,
    }
    is_read(&bytes)
}

#[test]
fn single_octets_of_a_syn(rt: HostRuntime) {
    for (at, octet, taken) in [
        // SYN and FIN, SYN and RST, both ports' high octets 0
        (13, 3, false),
        (13, 6, false),
        (3, 0, false),
        // a header of 16 and of 60 bytes
        (12, 0x40, false),
        (12, 0xf0, false),
        // an MSS of 3 bytes, a scale of no bytes and of 200
        (21, 3, false),
        (25, 0, false),
        (25, 200, false),
        // an unknown kind is skipped, an END ends
        (20, 99, true),
        (20, 0, true),
        // URG, and an urgent pointer
        (13, 0x22, true),
        (19, 1, true),
    ] {
        assert!(rt; is_read_with(at, octet) == taken);
    }
}

#[test]
fn options_alone(rt: HostRuntime) {
    let bytes = [1, 1, 3, 3, 200, 0, 9, 9];
    match options::read_options(&bytes) {
        Some(options) => assert!(rt; options.window_scale == Some(14)),
        None => assert!(rt; false),
    }
}

fn datagram_written(caps: &ChecksumCapabilities) -> [u8; 10] {
    let (repr, mut bytes) = (
        UdpRepr {
            src_port: 1234,
            dst_port: 53,
        },
        [7; 10],
    );
    udp::emit(&repr, b"hi", &mut bytes, &A, &B, caps);
    bytes
}

fn datagram_read(bytes: &[u8]) -> bool {
    let repr = UdpRepr {
        src_port: 1234,
        dst_port: 53,
    };
    match udp::parse(bytes, &A, &B, &ChecksumCapabilities::default()) {
        Ok((read, payload)) => read == repr && payload == b"hi".as_slice(),
        Err(_) => false,
    }
}

#[test]
fn a_datagram(rt: HostRuntime) {
    assert!(rt; datagram_written(&ChecksumCapabilities::default()) == DATAGRAM);
    assert!(rt; datagram_written(&ChecksumCapabilities::ignored())[6] == 0);
    assert!(rt; datagram_read(&DATAGRAM));
    assert!(rt; !datagram_read(first(&DATAGRAM, 9)));
}

fn ip(protocol: IpProtocol, payload_len: usize) -> IpRepr {
    IpRepr::new(A, B, protocol, payload_len, 64)
}

// The functions that write a packet test what they require of a header that was made without a contract.
fn segment_packet(ip: &IpRepr, repr: &TcpRepr<'_>, caps: &ChecksumCapabilities) -> [u8; 60] {
    let mut bytes = [0; 60];
    let is_whole = ip.header_len() == 20 && ip.payload_len() == 40 && repr.buffer_len() == 40;
    match ip.next_header() {
        IpProtocol::Tcp if is_whole => packet::emit_tcp(ip, repr, &mut bytes, caps),
        _ => {}
    }
    bytes
}

fn datagram_packet(ip: &IpRepr, repr: &UdpRepr, caps: &ChecksumCapabilities) -> [u8; 30] {
    let mut bytes = [0; 30];
    let is_whole = ip.header_len() == 20 && ip.payload_len() == 10;
    match ip.next_header() {
        IpProtocol::Udp if is_whole => packet::emit_udp(ip, repr, b"hi", &mut bytes, caps),
        _ => {}
    }
    bytes
}

fn segment_in(packet: &[u8]) -> Option<(IpRepr, TcpRepr<'_>)> {
    packet::parse_tcp(packet, &ChecksumCapabilities::default()).ok()
}

fn has_datagram(packet: &[u8]) -> bool {
    packet::parse_udp(packet, &ChecksumCapabilities::default()).is_ok()
}

// The bytes behind an IPv4 header without options.
fn behind_header(packet: &[u8]) -> &[u8] {
    packet.get(20..).unwrap_or(&[])
}

#[test]
fn packet_of_a_segment(rt: HostRuntime) {
    let ip = ip(IpProtocol::Tcp, 40);
    let packet = segment_packet(&ip, &syn(), &ChecksumCapabilities::default());
    let answers = [
        behind_header(&packet) == SYN.as_slice(),
        segment_in(&packet) == Some((ip, syn())),
        has_datagram(&packet),
    ];
    assert!(rt; answers == [true, true, false]);
}

#[test]
fn packet_of_a_datagram(rt: HostRuntime) {
    let (src_port, dst_port) = (1234, 53);
    let packet = datagram_packet(
        &ip(IpProtocol::Udp, 10),
        &UdpRepr { src_port, dst_port },
        &ChecksumCapabilities::default(),
    );
    let answers = [
        behind_header(&packet) == DATAGRAM.as_slice(),
        has_datagram(&packet),
        segment_in(&packet).is_none(),
    ];
    assert!(rt; answers == [true; 3]);
}

// Whether the SYN is read behind an IPv4 header with these octets in the place of the flags and the offset.
fn is_read_as_piece(flags: u8, low: u8) -> bool {
    let ip = ip(IpProtocol::Tcp, 40);
    let mut packet = segment_packet(&ip, &syn(), &ChecksumCapabilities::ignored());
    packet[6] = flags;
    packet[7] = low;
    packet::parse_tcp(&packet, &ChecksumCapabilities::ignored()).is_ok()
}

#[test]
fn a_fragment_is_refused(rt: HostRuntime) {
    for (flags, low, taken) in [
        // DF, no flag, the flag that has no meaning
        (0x40, 0, true),
        (0, 0, true),
        (0x80, 0, true),
        // MF, an offset of 8 bytes, of 65528, and of 2048 with MF and DF
        (0x20, 0, false),
        (0, 1, false),
        (0x1f, 0xff, false),
        (0x61, 0, false),
    ] {
        assert!(rt; is_read_as_piece(flags, low) == taken);
    }
}

// Whether the SYN is read behind an IPv6 header, with a fragment header between that says that there is no other piece
// (RFC 8200, section 4.5), or without.
fn is_read_over_ipv6(with_fragment_header: bool) -> bool {
    let mut packet = [0; 88];
    packet[0] = 0x60;
    if with_fragment_header {
        packet[5] = 48;
        packet[6] = 44;
        packet[40] = 6;
        packet[48..].copy_from_slice(&SYN);
    } else {
        packet[5] = 40;
        packet[6] = 6;
        packet[40..80].copy_from_slice(&SYN);
    }
    packet::parse_tcp(&packet, &ChecksumCapabilities::ignored()).is_ok()
}

#[test]
fn a_fragment_header_is_another_protocol(rt: HostRuntime) {
    assert!(rt; is_read_over_ipv6(false));
    assert!(rt; !is_read_over_ipv6(true));
}
