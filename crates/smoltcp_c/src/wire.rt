//! Segments as IP packets in a buffer.
ghost use Rattle.std.specs.Prelude.{◌≡◌, ◌≤◌, ◌↔◌, IsTrue, length};
ghost use Rattle.control_wire.specs.Segment.{segment_of};
ghost use Rattle.sock_dgram.specs.IcmpDispatch.{any_message, outgoing_of as message_of};
ghost use Rattle.sock_dgram.specs.RawDispatch.{outgoing_of as raw_of};
ghost use Rattle.sock_dgram.specs.UdpDispatch.{outgoing_of};
ghost use Rattle.smoltcp_c.specs.Icmp.{CountsMessage, WritesMessage, with_message};
ghost use Rattle.smoltcp_c.specs.Raw.{WritesRaw, raw_len, with_raw};
ghost use Rattle.smoltcp_c.specs.Udp.{CountsDatagram, WritesDatagram, with_datagram};
ghost use Rattle.smoltcp_c.specs.Wire.{IsCounted, Writes, packet_len, with_packet};

use crate::context::Moment;
use crate::message::write;
use control_wire::{IcmpRepr, TcpRepr, UdpRepr};
use ip_wire::octets::put;
use ip_wire::{ChecksumCapabilities, IpAddress, IpProtocol, IpRepr, Ipv4Address, Ipv6Address};
use net_base::time::Instant;
use segment_wire::packet::{emit_tcp, emit_udp};
use sock_core::Context;

// The longest TCP header, in bytes (RFC 9293, section 3.1).
const LONGEST_HEADER: usize = 60;

/// The longest IP packet, in bytes.
pub const LONGEST_PACKET: usize = 65535;

// Whether the header counts the segment, and both fit a packet.
fn is_counted(ip: &IpRepr, repr: &TcpRepr<'_>) -> bool
    ensures { IsTrue result ↔ IsCounted ip.now (segment_of repr.now) }
{
    let len = repr.buffer_len();
    repr.header_len() <= LONGEST_HEADER
        && ip.payload_len() == len
        && ip.header_len() + len <= LONGEST_PACKET
        && ip.next_header() == IpProtocol::Tcp
}

/// Writes the segment as an IP packet at the beginning of `out`, and answers the packet's length.
pub fn put_packet(ip: &IpRepr, repr: &TcpRepr<'_>, out: &mut [u8]) -> usize
    requires counted { IsCounted ip.now (segment_of repr.now) }
    requires room { packet_len ip.now ≤ length out.old }
    ensures len { result ≡ packet_len ip.now }
    ensures short { result ≤ 65535 }
    ensures bytes { out.new ≡ with_packet ip.now (segment_of repr.now) out.old }
{
    let whole = ip.header_len() + repr.buffer_len();
    let caps = ChecksumCapabilities::default();
    emit_tcp(ip, repr, &mut out[..whole], &caps);
    whole
}

// Whether the header counts the datagram, and both fit a packet.
fn counts_datagram(ip: &IpRepr, payload: &[u8]) -> bool
    ensures { IsTrue result ↔ CountsDatagram ip.now payload.now }
{
    ip.payload_len() == 8 + payload.len()
        && ip.header_len() + ip.payload_len() <= LONGEST_PACKET
        && ip.next_header() == IpProtocol::Udp
}

// Writes the datagram as an IP packet at the beginning of `out`, and answers the packet's length.
fn put_datagram(ip: &IpRepr, repr: &UdpRepr, payload: &[u8], out: &mut [u8]) -> usize
    requires counted { CountsDatagram ip.now payload.now }
    requires room { packet_len ip.now ≤ length out.old }
    ensures len { result ≡ packet_len ip.now }
    ensures bytes { out.new ≡ with_datagram (outgoing_of (ip.now, repr.now, payload.entry)) out.old }
{
    let whole = ip.header_len() + ip.payload_len();
    let caps = ChecksumCapabilities::default();
    emit_udp(ip, repr, payload, &mut out[..whole], &caps);
    whole
}

// Writes the payload behind its header at the beginning of `out`, and answers the packet's length.
#[tactic(auto, using(crate::proofs::RawSending::headed))]
fn put_raw(ip: &IpRepr, payload: &[u8], out: &mut [u8]) -> usize
    requires room { raw_len (raw_of (ip.now, payload)) ≤ length out.old }
    ensures len { result ≡ raw_len (raw_of (ip.now, payload.entry)) }
    ensures bytes { out.new ≡ with_raw (raw_of (ip.now, payload.entry)) out.old }
{
    let start = ip.header_len();
    put(out, start, payload);
    ip.emit(out, &ChecksumCapabilities::default());
    start + payload.len()
}

// Whether the header counts the message, which is of its version, and both fit a packet.
fn counts_message(ip: &IpRepr, repr: &IcmpRepr<'_>) -> bool
    ensures { IsTrue result ↔ CountsMessage ip.now (any_message repr.now) }
{
    match (ip, repr) {
        (IpRepr::Ipv4(header), IcmpRepr::Ipv4(repr)) => {
            header.payload_len == repr.buffer_len() && header.payload_len <= LONGEST_PACKET - 20
        }
        (IpRepr::Ipv6(header), IcmpRepr::Ipv6(repr)) => {
            header.payload_len == repr.buffer_len() && header.payload_len <= LONGEST_PACKET - 40
        }
        _ => false,
    }
}

// Writes the message as an IP packet at the beginning of `out`, and answers the packet's length.
fn put_message(ip: &IpRepr, repr: &IcmpRepr<'_>, out: &mut [u8]) -> usize
    requires counted { CountsMessage ip.now (any_message repr.now) }
    requires room { packet_len ip.now ≤ length out.old }
    ensures len { result ≡ packet_len ip.now }
    ensures bytes { out.new ≡ with_message (message_of (ip.now, repr.now)) out.old }
{
    let whole = ip.header_len() + ip.payload_len();
    write(ip, repr, &mut out[..whole]);
    whole
}

/// The context of a call that writes one packet.
#[derive(Drop)]
pub struct Wire<'w> {
    pub moment: Moment,
    /// The length of the packet that was written, or 0.
    pub len: usize,
    /// Whether a packet was not written since its source was never set.
    pub unsourced: bool,
    pub out: &'w mut [u8],
}

/// There is no room for the packet.
#[derive(Drop)]
pub struct Full;

// What a dispatch answers where `emitted` lets the socket emit into `out`.
macro_rules! sent {
    ($emitted:ident, $socket:ident, $moment:ident, $out:ident) => {{
        let mut wire = $crate::wire::Wire {
            moment: *$moment,
            len: 0,
            unsourced: false,
            out: $out,
        };
        let answer = $emitted($socket, &mut wire);
        $crate::answers::sent_answer(answer, wire.len)
    }};
}

pub(crate) use sent;

impl<'w> Wire<'w> {
    /// Writes the segment as an IP packet at the beginning of `out`, where it fits.
    pub fn write(&mut self, ip: &IpRepr, repr: &TcpRepr<'_>) -> Result<(), Full>
        ensures { Writes ip.now (segment_of repr.now) self.old result self.new }
    {
        if !is_counted(ip, repr) || self.out.len() < ip.header_len() + repr.buffer_len() {
            return Err(Full);
        }
        self.len = put_packet(ip, repr, self.out);
        Ok(())
    }

    /// Writes the datagram as an IP packet at the beginning of `out`, where it fits.
    pub fn write_datagram(
        &mut self,
        ip: &IpRepr,
        repr: &UdpRepr,
        payload: &[u8],
    ) -> Result<(), Full>
        ensures { WritesDatagram (outgoing_of (ip.now, repr.now, payload.entry)) self.old result self.new }
    {
        if !counts_datagram(ip, payload) || self.out.len() < ip.header_len() + ip.payload_len() {
            return Err(Full);
        }
        self.len = put_datagram(ip, repr, payload, self.out);
        Ok(())
    }

    /// Writes the message as an IP packet at the beginning of `out`, where it fits. One from an address that was never
    /// set is not written.
    pub fn write_message(&mut self, ip: &IpRepr, repr: &IcmpRepr<'_>) -> Result<(), Full>
        ensures { WritesMessage (message_of (ip.now, repr.now)) self.old result self.new }
    {
        if ip.src_addr().is_unspecified() {
            self.unsourced = true;
            return Ok(());
        }
        if !counts_message(ip, repr) || self.out.len() < ip.header_len() + ip.payload_len() {
            return Err(Full);
        }
        self.len = put_message(ip, repr, self.out);
        Ok(())
    }

    /// Writes an IP packet with this payload at the beginning of `out`, where it fits.
    pub fn write_raw(&mut self, ip: &IpRepr, payload: &[u8]) -> Result<(), Full>
        ensures { WritesRaw (raw_of (ip.now, payload.entry)) self.old result self.new }
    {
        let len = ip.header_len() + payload.len();
        if LONGEST_PACKET < len || self.out.len() < len {
            return Err(Full);
        }
        self.len = put_raw(ip, payload, self.out);
        Ok(())
    }
}

impl<'w> Context for Wire<'w> {
    ghost facts = { λ r. ⟦<Moment as Context>⟧.facts r.moment };

    ghost word_at = { λ r. ⟦<Moment as Context>⟧.word_at r.moment };

    fn now(&self) -> Instant {
        self.moment.now()
    }

    fn has_ip_addr(&self, addr: IpAddress) -> bool {
        self.moment.has_ip_addr(addr)
    }

    fn get_source_address(&self, dst: &IpAddress) -> Option<IpAddress> {
        self.moment.get_source_address(dst)
    }

    fn get_source_address_ipv4(&self, dst: &Ipv4Address) -> Option<Ipv4Address> {
        self.moment.get_source_address_ipv4(dst)
    }

    fn get_source_address_ipv6(&self, dst: &Ipv6Address) -> Ipv6Address {
        self.moment.get_source_address_ipv6(dst)
    }

    fn is_broadcast(&self, addr: &IpAddress) -> bool {
        self.moment.is_broadcast(addr)
    }

    fn ip_mtu(&self) -> usize {
        self.moment.ip_mtu()
    }

    fn checksum_caps(&self) -> ChecksumCapabilities {
        self.moment.checksum_caps()
    }

    fn rand_u32(&mut self) -> u32 {
        self.moment.rand_u32()
    }
}
