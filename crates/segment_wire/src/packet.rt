//! IP packets of both versions that carry a TCP segment or a UDP datagram.
ghost use Rattle.std.specs.Prelude.{◌≡◌, ◌+◌, ◌≤◌, ◌++◌, drop, take, length, None, option_map, if◌then◌else◌};
ghost use Rattle.ip_wire.specs.Checksum.{is_received, is_sent};
ghost use Rattle.ip_wire.specs.IpHeader.{dst_addr_of, header_len_of, next_header_of, payload_len_of, src_addr_of};
ghost use Rattle.ip_wire.specs.Packet.{header_octets, ipv4_parsed, ipv6_parsed};
ghost use Rattle.ip_wire.specs.declared.protocol.IpProtocol.TheVariants.{Tcp, Udp};
ghost use Rattle.control_wire.specs.Segment.{options_len, segment_header_len, segment_of};
ghost use Rattle.segment_wire.specs.Packet.{carried, carried_if, carried_of, carried_v4, carried_v6, is_fragment};
ghost use Rattle.segment_wire.specs.Packet.{is_whole_v4, is_whole_v6, tcp_packet, tcp_packet_of, tcp_packet_parsed};
ghost use Rattle.segment_wire.specs.Packet.{tcp_of, udp_of, udp_packet, udp_packet_of, udp_packet_parsed, whole_v4_of};
ghost use Rattle.segment_wire.specs.Packet.{whole_v6_of, with_datagram, with_segment};
ghost use Rattle.segment_wire.specs.Tcp.{filled, read_as};
ghost use Rattle.segment_wire.specs.Udp.{datagram_with};

use crate::{tcp, udp};
use control_wire::{TcpRepr, UdpRepr};
use ip_wire::octets::put;
use ip_wire::{
    ChecksumCapabilities, Error, IpAddress, IpRepr, IpVersion, Ipv4Packet, Ipv4Repr, Ipv6Packet,
    Ipv6Repr,
};

/// Writes an IP header and a segment behind it, whose bytes the header counts.
pub fn emit_tcp(ip: &IpRepr, repr: &TcpRepr<'_>, buffer: &mut [u8], caps: &ChecksumCapabilities)
    requires counted { payload_len_of ip.now
        ≡ segment_header_len (segment_of repr.now) + length repr.now.payload.now }
    requires protocol { next_header_of ip.now ≡ Tcp }
    requires options { options_len (segment_of repr.now) ≤ 40 }
    requires room { length buffer.old ≡ header_len_of ip.now + payload_len_of ip.now }
    ensures { buffer.new ≡ tcp_packet caps.now ip.now (segment_of repr.now) }
{
    emit_tcp_with(ip, repr, repr.header_len(), buffer, caps);
}

/// Writes a packet as `emit_tcp`, where the caller knows how many bytes the segment's header has with its options.
#[tactic(auto, using(crate::proofs::Written::payload_behind))]
pub fn emit_tcp_with(
    ip: &IpRepr,
    repr: &TcpRepr<'_>,
    header_len: usize,
    buffer: &mut [u8],
    caps: &ChecksumCapabilities,
)
    requires header { header_len ≡ segment_header_len (segment_of repr.now) }
    requires counted { payload_len_of ip.now
        ≡ segment_header_len (segment_of repr.now) + length repr.now.payload.now }
    requires protocol { next_header_of ip.now ≡ Tcp }
    requires options { options_len (segment_of repr.now) ≤ 40 }
    requires room { length buffer.old ≡ header_len_of ip.now + payload_len_of ip.now }
    ensures { buffer.new ≡ tcp_packet caps.now ip.now (segment_of repr.now) }
{
    put_payload(buffer, ip.header_len() + header_len, repr.payload);
    emit_headers(ip, repr, header_len, buffer, caps);
}

// Writes a payload up to the end. Most segments have none, for which no bytes are copied.
#[tactic(auto, using(crate::proofs::Written::payload_behind, crate::proofs::Written::no_payload))]
fn put_payload(buffer: &mut [u8], at: usize, payload: &[u8])
    requires { length buffer.old ≡ at + length payload.now }
    ensures payload { drop at buffer.new ≡ payload.now }
    ensures length { length buffer.new ≡ length buffer.old }
{
    if payload.is_empty() {
        return;
    }
    put(buffer, at, payload);
}

/// Writes an IP header and the header of a segment before a copy of its payload, which stands in `buffer` already,
/// behind as many bytes as both headers have. The packet is then that of [`emit_tcp`].
pub fn emit_tcp_front(
    ip: &IpRepr,
    repr: &TcpRepr<'_>,
    buffer: &mut [u8],
    caps: &ChecksumCapabilities,
)
    requires counted { payload_len_of ip.now
        ≡ segment_header_len (segment_of repr.now) + length repr.now.payload.now }
    requires protocol { next_header_of ip.now ≡ Tcp }
    requires options { options_len (segment_of repr.now) ≤ 40 }
    requires room { length buffer.old ≡ header_len_of ip.now + payload_len_of ip.now }
    requires payload { drop (header_len_of ip.now + segment_header_len (segment_of repr.now)) buffer.old
        ≡ repr.now.payload.now }
    ensures { buffer.new ≡ tcp_packet caps.now ip.now (segment_of repr.now) }
{
    emit_headers(ip, repr, repr.header_len(), buffer, caps);
}

// Writes both headers, where the segment's has this length.
#[tactic(auto, using(crate::proofs::Written::behind_both))]
fn emit_headers(
    ip: &IpRepr,
    repr: &TcpRepr<'_>,
    header_len: usize,
    buffer: &mut [u8],
    caps: &ChecksumCapabilities,
)
    requires header { header_len ≡ segment_header_len (segment_of repr.now) }
    requires counted { payload_len_of ip.now
        ≡ segment_header_len (segment_of repr.now) + length repr.now.payload.now }
    requires protocol { next_header_of ip.now ≡ Tcp }
    requires options { options_len (segment_of repr.now) ≤ 40 }
    requires room { length buffer.old ≡ header_len_of ip.now + payload_len_of ip.now }
    requires payload { drop (header_len_of ip.now + segment_header_len (segment_of repr.now)) buffer.old
        ≡ repr.now.payload.now }
    ensures { buffer.new ≡ tcp_packet caps.now ip.now (segment_of repr.now) }
{
    ip.emit(buffer, caps);
    let start = ip.header_len();
    tcp::emit_behind(ip, repr, header_len, &mut buffer[start..], caps);
}

/// Writes an IP header and a datagram behind it, whose bytes the header counts.
#[inline(always)]
pub fn emit_udp(
    ip: &IpRepr,
    repr: &UdpRepr,
    payload: &[u8],
    buffer: &mut [u8],
    caps: &ChecksumCapabilities,
)
    requires counted { payload_len_of ip.now ≡ 8 + length payload.now }
    requires protocol { next_header_of ip.now ≡ Udp }
    requires room { length buffer.old ≡ header_len_of ip.now + payload_len_of ip.now }
    ensures { buffer.new ≡ udp_packet caps.now ip.now repr.now payload.now }
{
    ip.emit(buffer, caps);
    let start = ip.header_len();
    udp::emit(
        repr,
        payload,
        &mut buffer[start..],
        &ip.src_addr(),
        &ip.dst_addr(),
        caps,
    );
}

/// The header of a packet and the segment that it carries.
///
/// # Errors
/// An error where its lengths do not fit, a tested checksum of its IPv4 header fails, it is a fragment, its protocol is
/// not TCP, or [`tcp::parse`] refuses the segment. Options of IPv4 are skipped; an extension header of IPv6, also that
/// of a fragment, is another protocol. No address is looked at.
pub fn parse_tcp<'a>(
    packet: &'a [u8],
    caps: &ChecksumCapabilities,
) -> Result<(IpRepr, TcpRepr<'a>), Error>
    ensures { read_as tcp_packet_of result ≡ tcp_packet_parsed caps.now packet.now }
{
    let Some((ip, bytes)) = carried_if(packet, 6, caps) else {
        return Err(Error);
    };
    let repr = tcp::parse_behind(&ip, bytes, caps)?;
    Ok((ip, repr))
}

/// Reads a packet, as [`parse_tcp`], into `ip` and `repr`. Whether it carries a segment: else they say nothing.
///
/// An answer that is handed up by value is copied at each return.
#[tactic(auto, unfolding(crate::specs::Packet::carried))]
pub fn read_tcp<'a>(
    packet: &'a [u8],
    caps: &ChecksumCapabilities,
    ip: &mut IpRepr,
    repr: &mut TcpRepr<'a>,
) -> bool
    ensures { with_segment ip.new (filled result (segment_of repr.new)) ≡ tcp_packet_parsed caps.now packet.now }
{
    match IpVersion::of_packet(packet) {
        Ok(IpVersion::Ipv4) => read_v4(packet, caps, ip, repr),
        Ok(IpVersion::Ipv6) => read_v6(packet, caps, ip, repr),
        Err(Error) => false,
    }
}

fn read_v4<'a>(
    packet: &'a [u8],
    caps: &ChecksumCapabilities,
    ip: &mut IpRepr,
    repr: &mut TcpRepr<'a>,
) -> bool
    ensures { with_segment ip.new (filled result (segment_of repr.new))
        ≡ tcp_of (is_received caps.now.tcp) (carried_if 6 (if is_whole_v4 packet.now
        then carried_v4 packet.now (ipv4_parsed (is_received caps.now.ipv4) packet.now) else None)) }
{
    let Some((header, bytes)) = whole_v4(packet, caps) else {
        return false;
    };
    if u8::from(header.next_header) != 6 {
        return false;
    }
    *ip = IpRepr::Ipv4(header);
    let src = IpAddress::Ipv4(header.src_addr);
    let dst = IpAddress::Ipv4(header.dst_addr);
    tcp::parse_into(repr, bytes, &src, &dst, caps)
}

// The header of a whole packet, and what stands behind it.
#[inline(always)]
fn whole_v4<'a>(packet: &'a [u8], caps: &ChecksumCapabilities) -> Option<(Ipv4Repr, &'a [u8])>
    ensures { option_map whole_v4_of result ≡ (if is_whole_v4 packet.now
        then carried_v4 packet.now (ipv4_parsed (is_received caps.now.ipv4) packet.now) else None) }
{
    let packet = Ipv4Packet::new_checked(packet).ok()?;
    if is_fragment(&packet) {
        return None;
    }
    let repr = Ipv4Repr::parse(&packet, caps).ok()?;
    Some((repr, packet.payload()))
}

fn read_v6<'a>(
    packet: &'a [u8],
    caps: &ChecksumCapabilities,
    ip: &mut IpRepr,
    repr: &mut TcpRepr<'a>,
) -> bool
    ensures { with_segment ip.new (filled result (segment_of repr.new))
        ≡ tcp_of (is_received caps.now.tcp) (carried_if 6 (if is_whole_v6 packet.now
        then carried_v6 packet.now (ipv6_parsed packet.now) else None)) }
{
    let Some((header, bytes)) = whole_v6(packet) else {
        return false;
    };
    if u8::from(header.next_header) != 6 {
        return false;
    }
    *ip = IpRepr::Ipv6(header);
    let src = IpAddress::Ipv6(header.src_addr);
    let dst = IpAddress::Ipv6(header.dst_addr);
    tcp::parse_into(repr, bytes, &src, &dst, caps)
}

#[inline(always)]
fn whole_v6(packet: &[u8]) -> Option<(Ipv6Repr, &[u8])>
    ensures { option_map whole_v6_of result
        ≡ (if is_whole_v6 packet.now then carried_v6 packet.now (ipv6_parsed packet.now) else None) }
{
    let packet = Ipv6Packet::new_checked(packet).ok()?;
    let repr = Ipv6Repr::parse(&packet).ok()?;
    Some((repr, packet.payload()))
}

/// The header of a packet, and the header and the payload of the datagram that it carries.
///
/// # Errors
/// An error where its lengths do not fit, a tested checksum of its IPv4 header fails, it is a fragment, its protocol is
/// not UDP, or [`udp::parse`] refuses the datagram. Options, extension headers and addresses as in [`parse_tcp`].
pub fn parse_udp<'a>(
    packet: &'a [u8],
    caps: &ChecksumCapabilities,
) -> Result<(IpRepr, UdpRepr, &'a [u8]), Error>
    ensures { read_as udp_packet_of result ≡ udp_packet_parsed caps.now packet.now }
{
    let Some((ip, bytes)) = carried_if(packet, 17, caps) else {
        return Err(Error);
    };
    let (repr, payload) = udp::parse(bytes, &ip.src_addr(), &ip.dst_addr(), caps)?;
    Ok((ip, repr, payload))
}

/// Reads a packet, as [`parse_udp`], into `ip`, `repr` and `payload`. Whether it carries a datagram: else they say
/// nothing.
///
/// An answer that is handed up by value is copied at each return.
#[tactic(auto, unfolding(crate::specs::Packet::carried))]
pub fn read_udp<'a>(
    packet: &'a [u8],
    caps: &ChecksumCapabilities,
    ip: &mut IpRepr,
    repr: &mut UdpRepr,
    payload: &mut &'a [u8],
) -> bool
    ensures { with_datagram ip.new (filled result (datagram_with repr.new payload.new))
        ≡ udp_packet_parsed caps.now packet.now }
{
    match IpVersion::of_packet(packet) {
        Ok(IpVersion::Ipv4) => read_udp_v4(packet, caps, ip, repr, payload),
        Ok(IpVersion::Ipv6) => read_udp_v6(packet, caps, ip, repr, payload),
        Err(Error) => false,
    }
}

fn read_udp_v4<'a>(
    packet: &'a [u8],
    caps: &ChecksumCapabilities,
    ip: &mut IpRepr,
    repr: &mut UdpRepr,
    payload: &mut &'a [u8],
) -> bool
    ensures { with_datagram ip.new (filled result (datagram_with repr.new payload.new))
        ≡ udp_of (is_received caps.now.udp) (carried_if 17 (if is_whole_v4 packet.now
        then carried_v4 packet.now (ipv4_parsed (is_received caps.now.ipv4) packet.now) else None)) }
{
    let Some((header, bytes)) = whole_v4(packet, caps) else {
        return false;
    };
    if u8::from(header.next_header) != 17 {
        return false;
    }
    *ip = IpRepr::Ipv4(header);
    let src = IpAddress::Ipv4(header.src_addr);
    let dst = IpAddress::Ipv4(header.dst_addr);
    udp::parse_into(repr, payload, bytes, &src, &dst, caps)
}

fn read_udp_v6<'a>(
    packet: &'a [u8],
    caps: &ChecksumCapabilities,
    ip: &mut IpRepr,
    repr: &mut UdpRepr,
    payload: &mut &'a [u8],
) -> bool
    ensures { with_datagram ip.new (filled result (datagram_with repr.new payload.new))
        ≡ udp_of (is_received caps.now.udp) (carried_if 17 (if is_whole_v6 packet.now
        then carried_v6 packet.now (ipv6_parsed packet.now) else None)) }
{
    let Some((header, bytes)) = whole_v6(packet) else {
        return false;
    };
    if u8::from(header.next_header) != 17 {
        return false;
    }
    *ip = IpRepr::Ipv6(header);
    let src = IpAddress::Ipv6(header.src_addr);
    let dst = IpAddress::Ipv6(header.dst_addr);
    udp::parse_into(repr, payload, bytes, &src, &dst, caps)
}

// The header and what stands behind it, where that is of this protocol.
fn carried_if<'a>(
    packet: &'a [u8],
    protocol: u8,
    caps: &ChecksumCapabilities,
) -> Option<(IpRepr, &'a [u8])>
    ensures { option_map carried_of result ≡ carried_if protocol (carried (is_received caps.now.ipv4) packet.now) }
{
    let (ip, bytes) = carried(packet, caps)?;
    if u8::from(ip.next_header()) != protocol {
        return None;
    }
    Some((ip, bytes))
}

/// The header of a packet of either version, and what stands behind it.
///
/// None where its lengths do not fit, a tested checksum of its IPv4 header fails, or it is a fragment of IPv4. Bytes
/// behind the packet's end are left away.
#[tactic(auto, unfolding(crate::specs::Packet::carried))]
pub fn carried<'a>(packet: &'a [u8], caps: &ChecksumCapabilities) -> Option<(IpRepr, &'a [u8])>
    ensures { option_map carried_of result ≡ carried (is_received caps.now.ipv4) packet.now }
{
    match IpVersion::of_packet(packet).ok()? {
        IpVersion::Ipv4 => carried_v4(packet, caps),
        IpVersion::Ipv6 => carried_v6(packet),
    }
}

fn carried_v4<'a>(packet: &'a [u8], caps: &ChecksumCapabilities) -> Option<(IpRepr, &'a [u8])>
    ensures { option_map carried_of result ≡ (if is_whole_v4 packet.now
        then carried_v4 packet.now (ipv4_parsed (is_received caps.now.ipv4) packet.now) else None) }
{
    let (repr, bytes) = whole_v4(packet, caps)?;
    Some((IpRepr::Ipv4(repr), bytes))
}

/// Whether a packet is a fragment, that is, whether its payload is one of several pieces of another packet's: more
/// fragments follow (MF is set), or its offset is not 0 (RFC 791, section 3.1). The other two flags do not matter.
pub fn is_fragment(packet: &Ipv4Packet<'_>) -> bool
    ensures { result ≡ is_fragment packet.now.buffer.now }
{
    let (flags, low) = (packet.buffer[6], packet.buffer[7]);
    let more_follow = flags / 32 % 2 == 1;
    let offset = 256 * (flags % 32) as u16 + low as u16;
    more_follow || offset != 0
}

fn carried_v6(packet: &[u8]) -> Option<(IpRepr, &[u8])>
    ensures { option_map carried_of result
        ≡ (if is_whole_v6 packet.now then carried_v6 packet.now (ipv6_parsed packet.now) else None) }
{
    let (repr, bytes) = whole_v6(packet)?;
    Some((IpRepr::Ipv6(repr), bytes))
}
