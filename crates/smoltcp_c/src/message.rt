//! ICMP messages in IP packets, as values and as bytes.
ghost use Rattle.std.specs.Prelude.{◌≡◌, ◌+◌, ◌≤◌, ◌++◌, ◌↔◌, IsTrue, true, length, take, drop, option_map};
ghost use Rattle.ip_wire.specs.Packet.{header_octets};
ghost use Rattle.ip_wire.specs.IpHeader.{header_len_of};
ghost use Rattle.control_wire.specs.Icmp.{message_len, message_v4, message_v6};
ghost use Rattle.sock_dgram.specs.IcmpDispatch.{Counts, any_message};
ghost use Rattle.sock_dgram.specs.IcmpFilter.{octets_v4, octets_v6};
ghost use Rattle.smoltcp_c.specs.Context.{facts_in};
ghost use Rattle.smoltcp_c.specs.Icmp.{
  AcceptsMessage,
  carried_message,
  icmp_behind,
  icmp_behind_v4,
  icmp_behind_v6,
  icmp_packet,
  icmp_packet_of,
};
ghost use Rattle.smoltcp_c.specs.Wire.{packet_len};

use crate::context::Moment;
use control_wire::{IcmpRepr, Icmpv4Repr, Icmpv6Repr};
use ip_wire::{ChecksumCapabilities, IpRepr, Ipv4Repr, Ipv6Repr};
use segment_wire::packet::carried;
use sock_dgram::icmp::Socket;

// The protocols' numbers (RFC 792; RFC 4443).
const ICMP: u8 = 1;

const ICMPV6: u8 = 58;

/// A message with the header of its packet.
#[derive(Clone, Copy)]
pub enum Packet<'p> {
    V4(Ipv4Repr, Icmpv4Repr<'p>),
    V6(Ipv6Repr, Icmpv6Repr<'p>),
}

/// The message that the packet carries, if it is one.
#[tactic(auto, unfolding(crate::specs::Icmp::carried_message))]
pub fn read(packet: &[u8]) -> Option<Packet<'_>>
    ensures { option_map icmp_packet_of result ≡ carried_message packet.now }
{
    match carried(packet, &ChecksumCapabilities::default()) {
        None => None,
        Some((ip, bytes)) => behind(&ip, bytes),
    }
}

// The message behind this header.
fn behind<'p>(ip: &IpRepr, bytes: &'p [u8]) -> Option<Packet<'p>>
    ensures { option_map icmp_packet_of result ≡ icmp_behind ip.now bytes.now }
{
    match ip {
        IpRepr::Ipv4(ip) => behind_v4(ip, bytes),
        IpRepr::Ipv6(ip) => behind_v6(ip, bytes),
    }
}

fn behind_v4<'p>(ip: &Ipv4Repr, bytes: &'p [u8]) -> Option<Packet<'p>>
    ensures { option_map icmp_packet_of result ≡ icmp_behind_v4 ip.now bytes.now }
{
    if u8::from(ip.next_header) != ICMP {
        return None;
    }
    match Icmpv4Repr::parse(bytes, &ChecksumCapabilities::default()) {
        Ok(repr) => Some(Packet::V4(*ip, repr)),
        Err(_) => None,
    }
}

fn behind_v6<'p>(ip: &Ipv6Repr, bytes: &'p [u8]) -> Option<Packet<'p>>
    ensures { option_map icmp_packet_of result ≡ icmp_behind_v6 ip.now bytes.now }
{
    if u8::from(ip.next_header) != ICMPV6 {
        return None;
    }
    let caps = ChecksumCapabilities::default();
    match Icmpv6Repr::parse(&ip.src_addr, &ip.dst_addr, bytes, &caps) {
        Ok(repr) => Some(Packet::V6(*ip, repr)),
        Err(_) => None,
    }
}

impl Packet<'_> {
    /// Whether the socket accepts it.
    pub fn is_for(&self, socket: &Socket<'_>, moment: &Moment) -> bool
        ensures { IsTrue result ↔ AcceptsMessage (facts_in moment.now.cx) socket.now (icmp_packet_of self.now) }
    {
        match self {
            Packet::V4(ip, repr) => socket.accepts_v4(moment, ip, repr),
            Packet::V6(ip, repr) => socket.accepts_v6(moment, ip, repr),
        }
    }
}

/// Writes a packet with the message.
pub fn write(ip: &IpRepr, repr: &IcmpRepr<'_>, out: &mut [u8])
    requires counted { Counts ip.now (any_message repr.now) }
    requires room { length out.old ≡ packet_len ip.now }
    ensures { out.new ≡ icmp_packet ip.now (any_message repr.now) }
{
    match (ip, repr) {
        (IpRepr::Ipv4(_), IcmpRepr::Ipv4(repr)) => write_v4(ip, repr, out),
        (IpRepr::Ipv6(header), IcmpRepr::Ipv6(repr)) => write_v6(ip, header, repr, out),
        _ => {}
    }
}

fn write_v4(ip: &IpRepr, repr: &Icmpv4Repr<'_>, out: &mut [u8])
    requires { length out.old ≡ header_len_of ip.now + message_len 20 (message_v4 repr.now) }
    ensures { out.new ≡ header_octets true ip.now ++ octets_v4 (message_v4 repr.now) }
{
    let caps = ChecksumCapabilities::default();
    ip.emit(out, &caps);
    let start = ip.header_len();
    repr.emit(&mut out[start..], &caps);
}

fn write_v6(ip: &IpRepr, header: &Ipv6Repr, repr: &Icmpv6Repr<'_>, out: &mut [u8])
    requires { length out.old ≡ header_len_of ip.now + message_len 40 (message_v6 repr.now) }
    ensures { out.new ≡ header_octets true ip.now ++ octets_v6 header.now (message_v6 repr.now) }
{
    let caps = ChecksumCapabilities::default();
    ip.emit(out, &caps);
    let start = ip.header_len();
    repr.emit(&header.src_addr, &header.dst_addr, &mut out[start..], &caps);
}
