//! What tells a sender that nobody takes its packet.
ghost use Rattle.std.specs.Prelude.{◌≡◌, ◌≤◌, ◌↔◌, ◌&&◌, IsTrue, is_some, length, min, option_map, true};
ghost use Rattle.sock_core.specs.Bounds.{IsMoment};
ghost use Rattle.net_host.specs.Filing.{keys_of};
ghost use Rattle.net_host.specs.Indexing.{AreFiled};
ghost use Rattle.ip_wire.specs.IpHeader.{src_addr_of};
ghost use Rattle.net_host.specs.Filing.{number_of};
ghost use Rattle.net_host.specs.Limits.{allows};
ghost use Rattle.net_host.specs.Messages.{answer_len, if_short, mail_of, with_answer};
ghost use Rattle.net_host.specs.Unreachable.{TakesRaw, TellsOf, error_of, error_v4, error_v6, header_v6};
ghost use Rattle.net_host.specs.Unreachable.{problem_of, quoted_v4, quoted_v6};
ghost use Rattle.net_host.specs.Walks.{Finds, IsAt};
ghost use Rattle.net_host.specs.Unreachable.{spent_for, told_within, wanted};

use crate::filing::{number_of, raw_key};
use crate::find::next_under;
use crate::limit::Limit;
use crate::messages::{Mail, put_answer};
use crate::set::SocketSet;
use crate::slot::Slot;
use host_index::Index;
use smoltcp_socket::time::Instant;
use smoltcp_socket::wire::{
    ChecksumCapabilities, Icmpv4Repr, Icmpv6Repr, IpProtocol, IpRepr, Ipv4Repr, Ipv6Repr,
};
use smoltcp_socket::{Context, Socket};
use sock_tcp::TsvalSource;

// The longest errors, in bytes (RFC 1812, section 4.3.2.3; RFC 4443, section 2.4 c).
const LONGEST_V4: usize = 576;

const LONGEST_V6: usize = 1280;

/// What nobody takes.
#[derive(Clone, Copy)]
pub enum Unmet {
    /// A datagram to this port (RFC 1122, section 4.1.3.1; RFC 4443, section 3.1).
    Port,
    /// A packet of this protocol (RFC 1122, section 3.2.2.1; RFC 4443, section 3.4).
    Protocol,
}

// What an error quotes behind the header: as much as the longest error leaves.
fn quoted_v4(bytes: &[u8], mtu: usize) -> &[u8]
    ensures { result.now ≡ quoted_v4 bytes.now mtu }
{
    let room = mtu.min(LONGEST_V4).saturating_sub(48);
    &bytes[..room.min(bytes.len())]
}

fn quoted_v6(bytes: &[u8], mtu: usize) -> &[u8]
    ensures { result.now ≡ quoted_v6 bytes.now mtu }
{
    let room = mtu.min(LONGEST_V6).saturating_sub(88);
    &bytes[..room.min(bytes.len())]
}

fn error_v4<'p>(reason: u8, ip: &Ipv4Repr, body: &'p [u8]) -> Mail<'p>
    requires { length body.now ≤ 528 }
    ensures { mail_of result ≡ error_v4 reason ip.now body.now }
{
    let header = Ipv4Repr {
        src_addr: ip.dst_addr,
        dst_addr: ip.src_addr,
        next_header: IpProtocol::Icmp,
        payload_len: 28 + body.len(),
        hop_limit: 64,
    };
    let repr = Icmpv4Repr::DstUnreachable {
        reason,
        header: *ip,
        body,
    };
    Mail::V4(header, repr)
}

fn header_v6(ip: &Ipv6Repr, body: &[u8]) -> Ipv6Repr
    requires { length body.now ≤ 1192 }
    ensures { result ≡ header_v6 ip.now body.now }
{
    Ipv6Repr {
        src_addr: ip.dst_addr,
        dst_addr: ip.src_addr,
        next_header: IpProtocol::Icmpv6,
        payload_len: 48 + body.len(),
        hop_limit: 64,
    }
}

fn error_v6<'p>(reason: u8, ip: &Ipv6Repr, body: &'p [u8]) -> Mail<'p>
    requires { length body.now ≤ 1192 }
    ensures { mail_of result ≡ error_v6 reason ip.now body.now }
{
    let repr = Icmpv6Repr::DstUnreachable {
        reason,
        header: *ip,
        body,
    };
    Mail::V6(header_v6(ip, body), repr)
}

// The number that says that nothing follows (RFC 8200, section 4.7).
const NO_NEXT_HEADER: u8 = 59;

// The offset of the byte of an IPv6 header that names the next one, and the code of a next header that is not known
// (RFC 8200, section 3; RFC 4443, section 3.4).
const NEXT_HEADER_AT: u32 = 6;

const UNKNOWN_NEXT_HEADER: u8 = 1;

// The error for a next header that is not known.
fn problem_of<'p>(ip: &Ipv6Repr, body: &'p [u8]) -> Option<Mail<'p>>
    requires { length body.now ≤ 1192 }
    ensures { option_map mail_of result ≡ problem_of ip.now body.now }
{
    if u8::from(ip.next_header) == NO_NEXT_HEADER {
        return None;
    }
    let repr = Icmpv6Repr::ParamProblem {
        reason: UNKNOWN_NEXT_HEADER,
        pointer: NEXT_HEADER_AT,
        header: *ip,
        body,
    };
    Some(Mail::V6(header_v6(ip, body), repr))
}

// The error for a packet that nobody takes.
fn error_of<'p>(unmet: Unmet, ip: &IpRepr, bytes: &'p [u8], mtu: usize) -> Option<Mail<'p>>
    ensures { option_map mail_of result ≡ error_of unmet ip.now bytes.now mtu }
{
    match (unmet, ip) {
        (Unmet::Port, IpRepr::Ipv4(ip)) => Some(error_v4(3, ip, quoted_v4(bytes, mtu))),
        (Unmet::Protocol, IpRepr::Ipv4(ip)) => Some(error_v4(2, ip, quoted_v4(bytes, mtu))),
        (Unmet::Port, IpRepr::Ipv6(ip)) => Some(error_v6(4, ip, quoted_v6(bytes, mtu))),
        (Unmet::Protocol, IpRepr::Ipv6(ip)) => problem_of(ip, quoted_v6(bytes, mtu)),
    }
}

impl<'a, G: TsvalSource> Slot<'a, G> {
    fn takes_raw(&self, ip: &IpRepr) -> bool
        ensures { IsTrue result ↔ TakesRaw ip.now self.now }
    {
        match &self.socket {
            Some(Socket::Raw(raw)) => raw.accepts(ip),
            _ => false,
        }
    }
}

// The first raw socket that takes the packet: a walk through all places.
fn walk_for_raw<G: TsvalSource>(slots: &[Slot<'_, G>], ip: &IpRepr) -> Option<usize>
    ensures { Finds (TakesRaw ip.now) slots.now result }
{
    for (i, slot) in slots.iter().enumerate() {
        if slot.takes_raw(ip) {
            return Some(i);
        }
    }
    None
}

fn takes_raw_at<G: TsvalSource>(slots: &[Slot<'_, G>], place: usize, ip: &IpRepr) -> bool
    ensures { IsTrue result ↔ IsAt (TakesRaw ip.now) slots.now place }
{
    match slots.get(place) {
        Some(slot) => slot.takes_raw(ip),
        None => false,
    }
}

// The first raw socket that takes it, by the places of raw sockets alone, where each place is filed.
fn listed_raw<G: TsvalSource>(slots: &[Slot<'_, G>], index: &Index, ip: &IpRepr) -> Option<usize>
    requires { AreFiled (λ s. keys_of s) slots.now index.now.entries }
    ensures { Finds (TakesRaw ip.now) slots.now result }
{
    let key = raw_key();
    let end = slots.len();
    let mut from = 0;
    while let Some(i) = next_under(index, key, from, end) {
        if takes_raw_at(slots, i, ip) {
            return Some(i);
        }
        from = i + 1;
    }
    None
}

fn raw_by<G: TsvalSource>(
    slots: &[Slot<'_, G>],
    index: &Index,
    complete: bool,
    ip: &IpRepr,
) -> Option<usize>
    requires { complete ≡ true → AreFiled (λ s. keys_of s) slots.now index.now.entries }
    ensures { Finds (TakesRaw ip.now) slots.now result }
{
    if complete {
        listed_raw(slots, index, ip)
    } else {
        walk_for_raw(slots, ip)
    }
}

fn first_raw<G: TsvalSource>(sockets: &mut SocketSet<'_, G>, ip: &IpRepr) -> Option<usize>
    ensures slots { sockets.new.slots ≡ sockets.old.slots }
    ensures finds { Finds (TakesRaw ip.now) sockets.old.slots.items result }
    ensures bounds { sockets.new.bounds ≡ sockets.old.bounds }
    ensures ended { sockets.new.ended ≡ sockets.old.ended }
{
    sockets.settle();
    raw_by(&sockets.slots, &sockets.index, sockets.complete, ip)
}

// The error, for a packet to an own address that no raw socket takes.
fn wanted<'p>(own: bool, raw: bool, error: Option<Mail<'p>>) -> Option<Mail<'p>>
    ensures { option_map mail_of result ≡ wanted own raw (option_map mail_of error.entry) }
{
    if own && !raw { error } else { None }
}

// The error, where the limit allows it.
fn within_limit<'p>(
    limit: &mut Limit,
    ip: &IpRepr,
    now: Instant,
    error: Option<Mail<'p>>,
) -> Option<Mail<'p>>
    requires { IsMoment now.micros }
    ensures told { option_map mail_of result ≡ told_within limit.old ip.now now (option_map mail_of error.entry) }
    ensures limit { limit.new ≡ spent_for (option_map mail_of error.entry) limit.old ip.now now }
{
    match error {
        None => None,
        Some(mail) => {
            if limit.take(number_of(&ip.src_addr()), now) {
                Some(mail)
            } else {
                None
            }
        }
    }
}

// Whether the sender is told, where no raw socket takes the packet.
fn may_tell(own: bool, error: &Option<Mail<'_>>, limit: &Limit, ip: &IpRepr, now: Instant) -> bool
    requires { IsMoment now.micros }
    ensures { result ≡ own && (is_some (option_map mail_of error.now)
        && allows limit.now (number_of (src_addr_of ip.now)) now) }
{
    own && error.is_some() && limit.allows(number_of(&ip.src_addr()), now)
}

/// Tells the sender of a packet that nobody takes: writes the error at the beginning of `out`, and answers its length.
/// 0 where the packet is not to an own address, a raw socket takes it, the limit allows no more, there is no such
/// error, or it does not fit the MTU or the buffer. Whether a raw socket takes it is asked last, since that may need a
/// walk.
pub(crate) fn tell_sender<C: Context, G: TsvalSource>(
    sockets: &mut SocketSet<'_, G>,
    cx: &C,
    limit: &mut Limit,
    unmet: Unmet,
    ip: &IpRepr,
    bytes: &[u8],
    out: &mut [u8],
) -> usize
    ensures slots { sockets.new.slots ≡ sockets.old.slots }
    ensures within { result ≤ length out.old }
    ensures told { TellsOf (C.facts cx.now) unmet ip.now bytes.now sockets.old.slots.items limit.old out.old result
        limit.new out.new }
    ensures bounds { sockets.new.bounds ≡ sockets.old.bounds }
    ensures ended { sockets.new.ended ≡ sockets.old.ended }
{
    let mtu = cx.ip_mtu();
    let own = cx.has_ip_addr(ip.dst_addr());
    let error = error_of(unmet, ip, bytes, mtu);
    if !may_tell(own, &error, limit, ip, cx.now()) {
        return 0;
    }
    let raw = first_raw(sockets, ip);
    let error = wanted(own, raw.is_some(), error);
    let answer = within_limit(limit, ip, cx.now(), error);
    put_answer(&answer, mtu, out, &cx.checksum_caps())
}
