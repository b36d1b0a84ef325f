//! Whether a packet is looked at, by its addresses.
ghost use Rattle.std.specs.Prelude.{◌≡◌, false};
ghost use Rattle.host_groups.specs.Joining.{has_group};
ghost use Rattle.ip_wire.specs.Address.{all_zero};
ghost use Rattle.net_host.specs.Arrivals.{is_martian, is_reserved, is_reserved_v4, is_reserved_v6, kind_of, refusal};
ghost use Rattle.ip_wire.specs.IpHeader.{dst_addr_of, next_header_of, src_addr_of};
ghost use Rattle.ip_wire.specs.Protocol.{number_of};

use crate::counters::Reason;
use host_groups::Groups;
use smoltcp_socket::Context;
use smoltcp_socket::wire::{IpAddress, IpProtocol, IpRepr, Ipv4Address, Ipv6Address};

/// Why the packet is dropped, if it is: its source is one that no single other host has, so that an answer would go to
/// many, to nobody, or come back (RFC 1122, section 3.2.1.3); or its destination is neither
/// an address of the interface (`own`) nor a broadcast, nor a group that was joined.
#[inline(always)]
#[tactic(auto, unfolding(crate::specs::Arrivals::refusal))]
pub(crate) fn refusal<C: Context>(cx: &C, own: bool, groups: &Groups, ip: &IpRepr) -> Option<Reason>
    requires { own ≡ (C.facts cx.now).has_address (dst_addr_of ip.now) }
    ensures { result ≡ refusal (C.facts cx.now)
        (has_group ⟦<IpAddress as PartialEq>⟧.eq groups.now (dst_addr_of ip.now)) ip.now }
{
    if is_martian(cx, &ip.src_addr()) {
        return Some(Reason::Source);
    }
    if own {
        return None;
    }
    refusal_elsewhere(cx, groups, ip)
}

// Why the packet is dropped, where its source is none of these, and its destination no own address.
// Not inlined, as few packets come here.
#[inline(never)]
#[tactic(auto, unfolding(crate::specs::Arrivals::refusal))]
fn refusal_elsewhere<C: Context>(cx: &C, groups: &Groups, ip: &IpRepr) -> Option<Reason>
    requires source { is_martian (C.facts cx.now) (src_addr_of ip.now) ≡ false }
    requires elsewhere { (C.facts cx.now).has_address (dst_addr_of ip.now) ≡ false }
    ensures { result ≡ refusal (C.facts cx.now)
        (has_group ⟦<IpAddress as PartialEq>⟧.eq groups.now (dst_addr_of ip.now)) ip.now }
{
    let to = ip.dst_addr();
    if !cx.is_broadcast(&to) && !groups.has(&to) {
        return Some(Reason::Destination);
    }
    None
}

#[inline(always)]
#[tactic(auto, unfolding(crate::specs::Arrivals::is_martian))]
fn is_martian<C: Context>(cx: &C, addr: &IpAddress) -> bool
    ensures { result ≡ is_martian (C.facts cx.now) addr.now }
{
    addr.is_multicast() || cx.is_broadcast(addr) || cx.has_ip_addr(*addr) || is_reserved(addr)
}

fn is_reserved(addr: &IpAddress) -> bool
    ensures { result ≡ is_reserved addr.now }
{
    match addr {
        IpAddress::Ipv4(addr) => is_reserved_v4(addr),
        IpAddress::Ipv6(addr) => is_reserved_v6(addr),
    }
}

fn is_reserved_v4(addr: &Ipv4Address) -> bool
    ensures { result ≡ is_reserved_v4 addr.now.0 }
{
    addr.0[0] == 0 || addr.0[0] == 127 || 240 <= addr.0[0]
}

fn is_reserved_v6(addr: &Ipv6Address) -> bool
    ensures { result ≡ is_reserved_v6 addr.now.0 }
{
    all_zero(&addr.0[..10])
        && (addr.0[10] == 0 && addr.0[11] == 0 || addr.0[10] == 255 && addr.0[11] == 255)
}

fn all_zero(octets: &[u8]) -> bool
    ensures { result ≡ all_zero octets.now }
{
    octets.iter().all(|octet: &u8| *octet == 0)
}

/// What a packet is looked at as.
#[derive(Debug, Clone, Copy, PartialEq, Eq)]
pub enum Kind {
    /// A TCP segment, to the interface alone.
    Tcp,
    /// A UDP datagram.
    Udp,
    /// An ICMP message of either version, to the interface alone.
    Icmp,
    /// Another protocol.
    Other,
    /// A broadcast or a packet to a group that carries no UDP datagram.
    Foreign,
}

/// What the packet is looked at as; `own` says whether it goes to an address of the interface. A TCP segment, as most,
/// is told by one look.
#[inline(always)]
pub(crate) fn kind_in(own: bool, ip: &IpRepr) -> Kind
    ensures { result ≡ kind_of own (number_of (next_header_of ip.now)) }
{
    match (own, ip.next_header()) {
        (true, IpProtocol::Tcp) => Kind::Tcp,
        (own, protocol) => kind_by(own, protocol),
    }
}

// Not inlined, so that what a segment of TCP runs through stays short.
#[inline(never)]
fn kind_by(own: bool, protocol: IpProtocol) -> Kind
    ensures { result ≡ kind_of own (number_of protocol) }
{
    kind_of(own, u8::from(protocol))
}

fn kind_of(own: bool, number: u8) -> Kind
    ensures { result ≡ kind_of own number }
{
    if number == 17 {
        return Kind::Udp;
    }
    if !own {
        return Kind::Foreign;
    }
    match number {
        6 => Kind::Tcp,
        1 | 58 => Kind::Icmp,
        _ => Kind::Other,
    }
}
