//! UDP datagrams as bytes (RFC 768).
ghost use Rattle.std.specs.Prelude.{◌≡◌, ◌+◌, ◌≤◌, ◌++◌, true, false, drop, take, length};
ghost use Rattle.ip_wire.specs.Checksum.{is_received, is_sent};
ghost use Rattle.ip_wire.specs.Octets.{be16, be16_at};
ghost use Rattle.ip_wire.specs.Sum.{complement, sum_after};
ghost use Rattle.segment_wire.specs.Tcp.{read_as};
ghost use Rattle.std.specs.Prelude.{option_map};
ghost use Rattle.segment_wire.specs.Tcp.{filled};
ghost use Rattle.segment_wire.specs.Udp.{datagram_of, datagram_with, ones_if_zero, udp_octets, udp_parsed, udp_with};

use control_wire::{UdpRepr, udp_source};
use ip_wire::octets::{be16, be16_at, behind, put, put_two, word};
use ip_wire::sum::{checksum_after, pseudo_sum, word_of};
use ip_wire::{ChecksumCapabilities, Error, IpAddress};

/// Writes the header and the payload into `buffer`, between these two addresses.
///
/// The length is written modulo 2^16. The checksum is 0 where it is not computed before sending; one that comes to 0 is
/// written as 0xffff.
#[inline(always)]
pub fn emit(
    repr: &UdpRepr,
    payload: &[u8],
    buffer: &mut [u8],
    src_addr: &IpAddress,
    dst_addr: &IpAddress,
    caps: &ChecksumCapabilities,
)
    requires { length buffer.old ≡ 8 + length payload.now }
    ensures { buffer.new ≡ udp_octets (is_sent caps.now.udp) src_addr.now dst_addr.now repr.now payload.now }
{
    if caps.udp.tx() {
        emit_with_checksum(repr, payload, buffer, src_addr, dst_addr);
    } else {
        write(repr, payload, buffer);
    }
}

#[inline(always)]
fn emit_with_checksum(
    repr: &UdpRepr,
    payload: &[u8],
    buffer: &mut [u8],
    src_addr: &IpAddress,
    dst_addr: &IpAddress,
)
    requires { length buffer.old ≡ 8 + length payload.now }
    ensures { buffer.new ≡ udp_octets true src_addr.now dst_addr.now repr.now payload.now }
{
    write(repr, payload, buffer);
    let start = pseudo_sum(src_addr, dst_addr, 17, buffer.len());
    let front = header_sum(start, repr, 8 + payload.len());
    fill_checksum(front, buffer);
}

// Writes it with a checksum of 0.
#[tactic(auto, using(crate::proofs::Written::ends), unfolding(crate::specs::Udp::udp_with))]
fn write(repr: &UdpRepr, payload: &[u8], buffer: &mut [u8])
    requires { length buffer.old ≡ 8 + length payload.now }
    ensures value { buffer.new ≡ udp_with repr.now payload.now 0 }
    ensures length { length buffer.new ≡ length buffer.old }
{
    let [a, b] = be16(repr.src_port as usize);
    let [c, d] = be16(repr.dst_port as usize);
    let [e, f] = be16(buffer.len());
    put_two(buffer, &[a, b, c, d, e, f, 0, 0], payload);
}

// The sum of a header with a checksum of 0, and of what was summed before, worked out from the numbers.
#[tactic(auto, using(crate::proofs::HeaderSums::udp_words))]
fn header_sum(start: u16, repr: &UdpRepr, len: usize) -> u16
    ensures { result ≡ sum_after start (be16 repr.now.src_port ++ (be16 repr.now.dst_port ++ (be16 len ++ be16 0))) }
{
    let total = start as usize + repr.src_port as usize + repr.dst_port as usize + len % 0x10000;
    word_of(total as u64)
}

// Writes the checksum of what was summed before, with the header, and of what stands behind the header.
fn fill_checksum(front: u16, buffer: &mut [u8])
    requires { 8 ≤ length buffer.old }
    ensures { buffer.new ≡ take 6 buffer.old
        ++ (be16 (ones_if_zero (complement (sum_after front (drop 8 buffer.old)))) ++ drop 8 buffer.old) }
{
    let checksum = ones_if_zero(checksum_after(front, behind(buffer, 8)));
    put(buffer, 6, &be16(checksum as usize));
}

fn ones_if_zero(sum: u16) -> u16
    ensures { result ≡ ones_if_zero sum }
{
    if sum == 0 { 0xffff } else { sum }
}

/// The header and the payload of the datagram that the bytes spell, between these two addresses.
///
/// # Errors
/// An error unless its length is from 8 to the bytes that there are, its destination port is not 0, and, where received
/// checksums are tested, its checksum verifies; 0 passes over IPv4 alone. Bytes behind the length are ignored.
pub fn parse<'a>(
    bytes: &'a [u8],
    src_addr: &IpAddress,
    dst_addr: &IpAddress,
    caps: &ChecksumCapabilities,
) -> Result<(UdpRepr, &'a [u8]), Error>
    ensures { read_as datagram_of result
        ≡ udp_parsed (is_received caps.now.udp) src_addr.now dst_addr.now bytes.now }
{
    let Some(src_port) = udp_source(bytes, src_addr, dst_addr, caps) else {
        return Err(Error);
    };
    let dst_port = word(bytes[2], bytes[3]);
    let payload = &bytes[8..be16_at(bytes, 4)];
    Ok((UdpRepr { src_port, dst_port }, payload))
}

/// Reads the datagram that the bytes spell, as [`parse`], into `repr` and `payload`, if it is one; else these are as
/// they were.
#[inline(always)]
pub(crate) fn parse_into<'a>(
    repr: &mut UdpRepr,
    payload: &mut &'a [u8],
    bytes: &'a [u8],
    src_addr: &IpAddress,
    dst_addr: &IpAddress,
    caps: &ChecksumCapabilities,
) -> bool
    ensures { filled result (datagram_with repr.new payload.new)
        ≡ udp_parsed (is_received caps.now.udp) src_addr.now dst_addr.now bytes.now }
{
    let Some(src_port) = udp_source(bytes, src_addr, dst_addr, caps) else {
        return false;
    };
    repr.src_port = src_port;
    repr.dst_port = word(bytes[2], bytes[3]);
    *payload = &bytes[8..be16_at(bytes, 4)];
    true
}
