//! Packets of IPv4 and IPv6: their headers written and read.
ghost use Rattle.std.specs.Prelude.{◌≡◌, ◌+◌, ◌<◌, ◌≤◌, ◌++◌, ◌↔◌, drop, take, length, slice_index, if◌then◌else◌};
ghost use Rattle.std.specs.Result.{IfOk, IsOk, result_ok};
ghost use Rattle.ip_wire.specs.Checksum.{is_received, is_sent};
ghost use Rattle.ip_wire.specs.IpHeader.{header_len_of};
ghost use Rattle.ip_wire.specs.Protocol.{number_of, protocol_of};
ghost use Rattle.ip_wire.specs.Octets.{be16, be16_at};
ghost use Rattle.ip_wire.specs.Sum.{complement, sum_after};
ghost use Rattle.ip_wire.specs.Packet.{IsIpv4, IsIpv6, checksum_filled, checksum_holds, header_octets, ipv4_fields};
ghost use Rattle.ip_wire.specs.Packet.{ipv4_header_len, ipv4_octets, ipv4_parsed, ipv4_payload, ipv4_total_len};
ghost use Rattle.ip_wire.specs.Packet.{ipv4_with, ipv6_fields, ipv6_octets, ipv6_parsed, ipv6_payload};
ghost use Rattle.ip_wire.specs.Packet.{version_number, with_checksum};

use crate::address::{Ipv4Address, Ipv6Address};
use crate::checksum::ChecksumCapabilities;
use crate::malformed::Error;
use crate::octets::{be16, be16_at, put, put_three};
use crate::protocol::IpProtocol;
use crate::repr::{IpRepr, Ipv4Repr, Ipv6Repr};
use crate::sum::{checksum_after, sum_after, sum_of_twenty, sum_with_addresses};

fn emit_ipv6(repr: &Ipv6Repr, buffer: &mut [u8])
    requires { 40 ≤ length buffer.old }
    ensures { buffer.new ≡ ipv6_octets repr.now ++ drop 40 buffer.old }
{
    let [high, low] = be16(repr.payload_len);
    let protocol = u8::from(repr.next_header);
    let head = [0x60, 0, 0, 0, high, low, protocol, repr.hop_limit];
    put_three(buffer, &head, &repr.src_addr.0, &repr.dst_addr.0);
}

fn emit_ipv4(repr: &Ipv4Repr, buffer: &mut [u8], sent: bool)
    requires { 20 ≤ length buffer.old }
    ensures { buffer.new ≡ ipv4_octets sent repr.now ++ drop 20 buffer.old }
{
    let protocol = u8::from(repr.next_header);
    let checksum = checksum_if(repr, protocol, sent);
    write_ipv4(repr, protocol, checksum, buffer);
}

// Before the header is written: what was just written in single bytes is read slowly as words.
fn checksum_if(repr: &Ipv4Repr, protocol: u8, sent: bool) -> u16
    requires { protocol ≡ number_of repr.now.next_header }
    ensures { result ≡ (if sent then complement (sum_after 0 (ipv4_with repr.now 0)) else 0) }
{
    if sent {
        0xffff - header_sum(repr, protocol)
    } else {
        0
    }
}

// The sum of the header with a checksum of 0.
#[tactic(auto, using(crate::proofs::Sums::header_words))]
fn header_sum(repr: &Ipv4Repr, protocol: u8) -> u16
    requires { protocol ≡ number_of repr.now.next_header }
    ensures { result ≡ sum_after 0 (ipv4_with repr.now 0) }
{
    let length = (repr.payload_len % 0x10000 + 20) % 0x10000;
    let total = 0x8500 + length + 256 * repr.hop_limit as usize + protocol as usize;
    sum_with_addresses(total as u64, &repr.src_addr, &repr.dst_addr)
}

#[tactic(auto, using(crate::proofs::Written::total_len))]
fn write_ipv4(repr: &Ipv4Repr, protocol: u8, checksum: u16, buffer: &mut [u8])
    requires room { 20 ≤ length buffer.old }
    requires protocol { protocol ≡ number_of repr.now.next_header }
    ensures { buffer.new ≡ ipv4_with repr.now checksum ++ drop 20 buffer.old }
{
    let [high, low] = be16(repr.payload_len % 0x10000 + 20);
    let [first, second] = be16(checksum as usize);
    let hops = repr.hop_limit;
    let head = [
        0x45, 0, high, low, 0, 0, 0x40, 0, hops, protocol, first, second,
    ];
    let (src, dst) = (repr.src_addr.0, repr.dst_addr.0);
    put_three(buffer, &head, &src, &dst);
}

/// An IPv4 packet: a header with options, and a payload. Bytes may follow it.
#[derive(Debug, Clone, Copy, PartialEq, Eq)]
pub struct Ipv4Packet<'a> {
    /// The bytes at whose beginning the packet stands.
    pub buffer: &'a [u8],
    ghost lengths: { IsIpv4 buffer.now },
}

impl<'a> Ipv4Packet<'a> {
    /// The packet at the beginning of `buffer`.
    ///
    /// # Errors
    /// An error unless the header has at least 20 bytes, and is no longer than the total length, which is no longer
    /// than `buffer`. The version is not looked at.
    pub fn new_checked(buffer: &'a [u8]) -> Result<Ipv4Packet<'a>, Error>
        ensures exact { IsOk result ↔ IsIpv4 buffer.now }
        ensures bytes { IfOk result (λ packet. packet.buffer.now ≡ buffer.now) }
    {
        if buffer.len() < 20 {
            return Err(Error);
        }
        let header = (buffer[0] % 16) as usize * 4;
        let total = be16_at(buffer, 2);
        if header < 20 || total < header || buffer.len() < total {
            return Err(Error);
        }
        Ok(Ipv4Packet { buffer })
    }

    /// The protocol of the payload.
    pub fn next_header(&self) -> IpProtocol
        ensures { result ≡ protocol_of (slice_index self.now.buffer.now 9) }
    {
        IpProtocol::from(self.buffer[9])
    }

    /// The bytes behind the header and its options, up to the total length.
    pub fn payload(&self) -> &'a [u8]
        ensures { result.now ≡ ipv4_payload self.now.buffer.now }
    {
        &self.buffer[self.header_len()..be16_at(self.buffer, 2)]
    }

    // How many bytes the header takes with its options.
    fn header_len(&self) -> usize
        ensures { result ≡ ipv4_header_len self.now.buffer.now }
    {
        (self.buffer[0] % 16) as usize * 4
    }
}

impl Ipv4Packet<'_> {
    /// Writes a checksum into an IPv4 header, whatever it is.
    pub fn set_checksum(packet: &mut [u8], checksum: u16)
        requires { IsIpv4 packet.old }
        ensures { packet.new ≡ with_checksum packet.old checksum }
    {
        write_checksum(packet, checksum);
    }

    /// Writes the checksum of an IPv4 header with its options, so that it verifies.
    #[tactic(auto, using(crate::proofs::Written::checksum_again))]
    pub fn fill_checksum(packet: &mut [u8])
        requires { IsIpv4 packet.old }
        ensures { packet.new ≡ checksum_filled packet.old }
    {
        let header = (packet[0] % 16) as usize * 4;
        write_checksum(packet, 0);
        checksum_header(packet, header);
    }
}

fn write_checksum(packet: &mut [u8], checksum: u16)
    requires { 12 ≤ length packet.old }
    ensures { packet.new ≡ with_checksum packet.old checksum }
{
    put(packet, 10, &be16(checksum as usize));
}

/// An IPv6 packet: a header and a payload. Bytes may follow it.
#[derive(Debug, Clone, Copy, PartialEq, Eq)]
pub struct Ipv6Packet<'a> {
    /// The bytes at whose beginning the packet stands.
    pub buffer: &'a [u8],
    ghost lengths: { IsIpv6 buffer.now },
}

impl<'a> Ipv6Packet<'a> {
    /// The packet at the beginning of `buffer`.
    ///
    /// # Errors
    /// An error unless the header of 40 bytes and the payload length fit into `buffer`. The version is not looked at.
    pub fn new_checked(buffer: &'a [u8]) -> Result<Ipv6Packet<'a>, Error>
        ensures exact { IsOk result ↔ IsIpv6 buffer.now }
        ensures bytes { IfOk result (λ packet. packet.buffer.now ≡ buffer.now) }
    {
        if buffer.len() < 40 || buffer.len() < 40 + be16_at(buffer, 4) {
            return Err(Error);
        }
        Ok(Ipv6Packet { buffer })
    }

    /// The next header: the protocol of the payload, or an extension header.
    pub fn next_header(&self) -> IpProtocol
        ensures { result ≡ protocol_of (slice_index self.now.buffer.now 6) }
    {
        IpProtocol::from(self.buffer[6])
    }

    /// The bytes behind the header, as many as the payload length says.
    pub fn payload(&self) -> &'a [u8]
        ensures { result.now ≡ ipv6_payload self.now.buffer.now }
    {
        &self.buffer[40..40 + be16_at(self.buffer, 4)]
    }
}

impl Ipv4Repr {
    /// The header of a packet, without its options.
    ///
    /// # Errors
    /// An error for another version than 4, and where received checksums are tested for one that does not verify. Not
    /// looked at are the options, the hop limit, the addresses, and the flags and the offset: also the header of a
    /// fragment is read, whose payload is a piece of another packet's.
    #[inline(always)]
    pub fn parse(packet: &Ipv4Packet<'_>, caps: &ChecksumCapabilities) -> Result<Ipv4Repr, Error>
        ensures { result_ok result ≡ ipv4_parsed (is_received caps.now.ipv4) packet.now.buffer.now }
    {
        let bytes = packet.buffer;
        // before the sum, as the lengths were just read for the packet's own check
        let payload_len = be16_at(bytes, 2) - packet.header_len();
        if bytes[0] / 16 != 4 || (caps.ipv4.rx() && !verifies(packet)) {
            return Err(Error);
        }
        Ok(Ipv4Repr::of_fields(bytes, payload_len))
    }

    /// The addresses, the protocol and the hop limit that stand in an IPv4 header, with this payload length.
    pub fn of_fields(bytes: &[u8], payload_len: usize) -> Ipv4Repr
        requires { 20 ≤ length bytes.now }
        ensures { result ≡ ipv4_fields bytes.now payload_len }
    {
        Ipv4Repr {
            src_addr: Ipv4Address(four_at(bytes, 12)),
            dst_addr: Ipv4Address(four_at(bytes, 16)),
            next_header: IpProtocol::from(bytes[9]),
            payload_len,
            hop_limit: bytes[8],
        }
    }
}

fn verifies(packet: &Ipv4Packet<'_>) -> bool
    ensures { result ≡ checksum_holds packet.now.buffer.now }
{
    let header = &packet.buffer[..packet.header_len()];
    if header.len() == 20 {
        return sum_of_twenty(header) == 0xffff;
    }
    sum_after(0, header) == 0xffff
}

impl Ipv6Repr {
    /// The header of a packet.
    ///
    /// # Errors
    /// An error for another version than 6.
    pub fn parse(packet: &Ipv6Packet<'_>) -> Result<Ipv6Repr, Error>
        ensures { result_ok result ≡ ipv6_parsed packet.now.buffer.now }
    {
        let bytes = packet.buffer;
        if bytes[0] / 16 != 6 {
            return Err(Error);
        }
        Ok(Ipv6Repr::of_fields(bytes, be16_at(bytes, 4)))
    }

    /// The addresses, the protocol and the hop limit that stand in an IPv6 header, with this payload length.
    pub fn of_fields(bytes: &[u8], payload_len: usize) -> Ipv6Repr
        requires { 40 ≤ length bytes.now }
        ensures { result ≡ ipv6_fields bytes.now payload_len }
    {
        Ipv6Repr {
            src_addr: Ipv6Address(sixteen_at(bytes, 8)),
            dst_addr: Ipv6Address(sixteen_at(bytes, 24)),
            next_header: IpProtocol::from(bytes[6]),
            payload_len,
            hop_limit: bytes[7],
        }
    }
}

fn four_at(bytes: &[u8], at: usize) -> [u8; 4]
    requires { at + 4 ≤ length bytes.now }
    ensures { result ≡ take 4 (drop at bytes.now) }
{
    let mut octets = [0; 4];
    octets.copy_from_slice(&bytes[at..at + 4]);
    octets
}

fn sixteen_at(bytes: &[u8], at: usize) -> [u8; 16]
    requires { at + 16 ≤ length bytes.now }
    ensures { result ≡ take 16 (drop at bytes.now) }
{
    let mut octets = [0; 16];
    octets.copy_from_slice(&bytes[at..at + 16]);
    octets
}

impl IpRepr {
    /// Writes the header into the first `header_len` bytes of `buffer`; the others stay.
    ///
    /// Lengths are written modulo 2^16. An IPv4 header has no options, may not be fragmented, and its checksum is 0
    /// where it is not computed before sending.
    pub fn emit(&self, buffer: &mut [u8], caps: &ChecksumCapabilities)
        requires { header_len_of self.now ≤ length buffer.old }
        ensures { buffer.new ≡ header_octets (is_sent caps.now.ipv4) self.now
            ++ drop (header_len_of self.now) buffer.old }
    {
        match self {
            IpRepr::Ipv4(repr) => emit_ipv4(repr, buffer, caps.ipv4.tx()),
            IpRepr::Ipv6(repr) => emit_ipv6(repr, buffer),
        }
    }
}

// Writes the checksum of the first `header` bytes as they are.
fn checksum_header(packet: &mut [u8], header: usize)
    requires header { header ≤ length packet.old }
    requires field { 12 ≤ length packet.old }
    ensures { packet.new ≡ with_checksum packet.old (complement (sum_after 0 (take header packet.old))) }
{
    let checksum = checksum_after(0, &packet[..header]);
    write_checksum(packet, checksum);
}
