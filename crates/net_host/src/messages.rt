//! ICMP messages: which sockets take a copy, and what answers one.
ghost use Rattle.std.specs.Prelude.{◌≡◌, ◌+◌, ◌<◌, ◌≤◌, ◌++◌, min, Some, length, option_map, true, false};
ghost use Rattle.ip_wire.specs.Checksum.{is_sent};
ghost use Rattle.ip_wire.specs.IpHeader.{header_len_of};
ghost use Rattle.ip_wire.specs.Packet.{header_octets};
ghost use Rattle.control_wire.specs.Icmp.{icmpv4_octets, icmpv6_octets, message_len, message_v4, message_v6};
ghost use Rattle.net_host.specs.Filing.{keys_of};
ghost use Rattle.net_host.specs.Indexing.{AreFiled};
ghost use Rattle.net_host.specs.Messages.{Copies, answer_len, echoed, if_short, mail_in, mail_len, mail_octets};
ghost use Rattle.net_host.specs.Messages.{mail_of};
ghost use Rattle.net_host.specs.Messages.{message_octets, with_message};
ghost use Rattle.net_host.specs.Wire.{packet_len};
ghost use Rattle.sock_dgram.specs.IcmpDispatch.{Counts, any_message};
ghost use Rattle.net_host.specs.Messages.{MailCopies, len_within, sum_within, mail_v4, mail_v6, with_answer};
ghost use Rattle.net_host.specs.Touching.{Touches};
ghost use Rattle.net_host.specs.Walks.{ChangesAt, ChangesEach};

use crate::filing::icmp_key;
use crate::find::next_under;
use crate::slot::Slot;
use crate::touched::touch_if;
use host_bounds::Bounds;
use host_index::Index;
use smoltcp_socket::wire::{
    ChecksumCapabilities, IcmpRepr, Icmpv4Repr, Icmpv6Repr, IpProtocol, IpRepr, Ipv4Repr, Ipv6Repr,
};
use smoltcp_socket::{Context, Socket, icmp};
use sock_tcp::TsvalSource;

/// A message with the header of its packet.
#[derive(Clone, Copy)]
pub enum Mail<'p> {
    V4(Ipv4Repr, Icmpv4Repr<'p>),
    V6(Ipv6Repr, Icmpv6Repr<'p>),
}

/// The message that stands behind a header.
#[tactic(auto, unfolding(crate::specs::Messages::mail_in))]
pub(crate) fn mail_in<'p>(
    caps: &ChecksumCapabilities,
    ip: &IpRepr,
    bytes: &'p [u8],
) -> Option<Mail<'p>>
    ensures { option_map mail_of result ≡ mail_in caps.now ip.now bytes.now }
{
    match ip {
        IpRepr::Ipv4(ip) => mail_v4(caps, ip, bytes),
        IpRepr::Ipv6(ip) => mail_v6(caps, ip, bytes),
    }
}

fn mail_v4<'p>(caps: &ChecksumCapabilities, ip: &Ipv4Repr, bytes: &'p [u8]) -> Option<Mail<'p>>
    ensures { option_map mail_of result ≡ mail_v4 caps.now ip.now bytes.now }
{
    if u8::from(ip.next_header) != 1 {
        return None;
    }
    let repr = Icmpv4Repr::parse(bytes, caps).ok()?;
    Some(Mail::V4(*ip, repr))
}

fn mail_v6<'p>(caps: &ChecksumCapabilities, ip: &Ipv6Repr, bytes: &'p [u8]) -> Option<Mail<'p>>
    ensures { option_map mail_of result ≡ mail_v6 caps.now ip.now bytes.now }
{
    if u8::from(ip.next_header) != 58 {
        return None;
    }
    let repr = Icmpv6Repr::parse(&ip.src_addr, &ip.dst_addr, bytes, caps).ok()?;
    Some(Mail::V6(*ip, repr))
}

impl<'a, G: TsvalSource> Slot<'a, G> {
    // Whether it took one.
    fn copy_message<C: Context>(&mut self, cx: &C, mail: &Mail<'_>) -> bool
        ensures copied { Copies (C.facts cx.now) (mail_of mail.now) self.old self.new }
        ensures same { result ≡ false → self.new ≡ self.old }
    {
        match &mut self.socket {
            Some(Socket::Icmp(icmp)) => copy(icmp, cx, mail),
            _ => false,
        }
    }
}

fn copy<C: Context>(socket: &mut icmp::Socket<'_>, cx: &C, mail: &Mail<'_>) -> bool
    ensures copied { MailCopies (C.facts cx.now) socket.old (mail_of mail.now) socket.new }
    ensures same { result ≡ false → socket.new ≡ socket.old }
{
    match mail {
        Mail::V4(ip, repr) => {
            if !socket.accepts_v4(cx, ip, repr) {
                return false;
            }
            socket.process_v4(cx, ip, repr);
            true
        }
        Mail::V6(ip, repr) => {
            if !socket.accepts_v6(cx, ip, repr) {
                return false;
            }
            socket.process_v6(cx, ip, repr);
            true
        }
    }
}

// Each ICMP socket that accepts the message takes a copy: a walk through all places.
fn copy_to_all<C: Context, G: TsvalSource>(
    slots: &mut Vec<Slot<'_, G>>,
    bounds: &mut Bounds,
    cx: &C,
    mail: &Mail<'_>,
)
    ensures copied { ChangesEach (Copies (C.facts cx.now) (mail_of mail.now)) slots.old.items slots.new.items }
    ensures touched { Touches bounds.old slots.old.items bounds.new slots.new.items }
    ensures len { length bounds.new ≡ length bounds.old }
{
    for i in 0..slots.len() {
        copy_at(slots, bounds, i, cx, mail);
    }
}

fn copy_at<C: Context, G: TsvalSource>(
    slots: &mut Vec<Slot<'_, G>>,
    bounds: &mut Bounds,
    i: usize,
    cx: &C,
    mail: &Mail<'_>,
)
    requires { i < length slots.old.items }
    ensures copied { ChangesAt (Copies (C.facts cx.now) (mail_of mail.now)) slots.old.items i slots.new.items }
    ensures touched { Touches bounds.old slots.old.items bounds.new slots.new.items }
    ensures len { length bounds.new ≡ length bounds.old }
{
    let took = slots[i].copy_message(cx, mail);
    touch_if(bounds, i, took);
}

// A copy for each ICMP socket, by the places of ICMP sockets alone, where each place is filed.
fn copy_to_listed<C: Context, G: TsvalSource>(
    slots: &mut Vec<Slot<'_, G>>,
    bounds: &mut Bounds,
    index: &Index,
    cx: &C,
    mail: &Mail<'_>,
)
    requires { AreFiled (λ s. keys_of s) slots.old.items index.now.entries }
    ensures copied { ChangesEach (Copies (C.facts cx.now) (mail_of mail.now)) slots.old.items slots.new.items }
    ensures touched { Touches bounds.old slots.old.items bounds.new slots.new.items }
    ensures len { length bounds.new ≡ length bounds.old }
{
    let key = icmp_key();
    let end = slots.len();
    let mut from = 0;
    while let Some(i) = next_under(index, key, from, end) {
        copy_at(slots, bounds, i, cx, mail);
        from = i + 1;
    }
}

/// Each ICMP socket that accepts the message takes a copy. Where each place is filed, the others are not looked at.
pub(crate) fn copy_to<C: Context, G: TsvalSource>(
    slots: &mut Vec<Slot<'_, G>>,
    bounds: &mut Bounds,
    index: &Index,
    complete: bool,
    cx: &C,
    mail: &Mail<'_>,
)
    requires { complete ≡ true → AreFiled (λ s. keys_of s) slots.old.items index.now.entries }
    ensures copied { ChangesEach (Copies (C.facts cx.now) (mail_of mail.now)) slots.old.items slots.new.items }
    ensures touched { Touches bounds.old slots.old.items bounds.new slots.new.items }
    ensures len { length bounds.new ≡ length bounds.old }
{
    if complete {
        copy_to_listed(slots, bounds, index, cx, mail);
    } else {
        copy_to_all(slots, bounds, cx, mail);
    }
}

/// The answer to an echo request, with the header that takes it back; none to any other message.
pub(crate) fn echoed<'p>(mail: &Mail<'p>) -> Option<Mail<'p>>
    ensures { option_map mail_of result ≡ echoed (mail_of mail.now) }
{
    match mail {
        Mail::V4(
            ip,
            Icmpv4Repr::EchoRequest {
                ident,
                seq_no,
                body,
            },
        ) => Some(Mail::V4(
            Ipv4Repr {
                src_addr: ip.dst_addr,
                dst_addr: ip.src_addr,
                next_header: IpProtocol::Icmp,
                payload_len: 8 + body.len(),
                hop_limit: 64,
            },
            Icmpv4Repr::EchoReply {
                ident: *ident,
                seq_no: *seq_no,
                body: *body,
            },
        )),
        Mail::V6(
            ip,
            Icmpv6Repr::EchoRequest {
                ident,
                seq_no,
                body,
            },
        ) => Some(Mail::V6(
            Ipv6Repr {
                src_addr: ip.dst_addr,
                dst_addr: ip.src_addr,
                next_header: IpProtocol::Icmpv6,
                payload_len: 8 + body.len(),
                hop_limit: 64,
            },
            Icmpv6Repr::EchoReply {
                ident: *ident,
                seq_no: *seq_no,
                body: *body,
            },
        )),
        _ => None,
    }
}

/// Writes the packet of an answer, if any, at the beginning of `out`, and answers its length, or 0. One that does not
/// fit `room` bytes, or the buffer, is left out.
pub(crate) fn put_answer(
    answer: &Option<Mail<'_>>,
    room: usize,
    out: &mut [u8],
    caps: &ChecksumCapabilities,
) -> usize
    ensures within { result ≤ length out.old }
    ensures len { result ≡ answer_len (if_short (min room (length out.old)) (option_map mail_of answer.now)) }
    ensures bytes { out.new ≡ with_answer caps.now (if_short (min room (length out.old)) (option_map mail_of
        answer.now))
        out.old }
{
    match answer {
        None => 0,
        Some(mail) => put_short(mail, room.min(out.len()), out, caps),
    }
}

fn put_short(mail: &Mail<'_>, room: usize, out: &mut [u8], caps: &ChecksumCapabilities) -> usize
    requires { room ≤ length out.old }
    ensures within { result ≤ length out.old }
    ensures len { result ≡ answer_len (if_short room (Some (mail_of mail.now))) }
    ensures bytes { out.new ≡ with_answer caps.now (if_short room (Some (mail_of mail.now))) out.old }
{
    let Some(len) = len_within(mail, room) else {
        return 0;
    };
    put_mail(mail, &mut out[..len], caps);
    len
}

// The length of its packet, where it fits.
fn len_within(mail: &Mail<'_>, room: usize) -> Option<usize>
    ensures { result ≡ len_within (mail_of mail.now) room }
{
    match mail {
        Mail::V4(_, repr) => sum_within(20, repr.buffer_len(), room),
        Mail::V6(_, repr) => sum_within(40, repr.buffer_len(), room),
    }
}

fn sum_within(header: usize, body: usize, room: usize) -> Option<usize>
    ensures { result ≡ sum_within header body room }
{
    if room < header || room - header < body {
        return None;
    }
    Some(header + body)
}

fn put_mail(mail: &Mail<'_>, out: &mut [u8], caps: &ChecksumCapabilities)
    requires { length out.old ≡ mail_len (mail_of mail.now) }
    ensures { out.new ≡ mail_octets caps.now (mail_of mail.now) }
{
    match mail {
        Mail::V4(header, repr) => put_v4(&IpRepr::Ipv4(*header), repr, out, caps),
        Mail::V6(header, repr) => put_v6(&IpRepr::Ipv6(*header), header, repr, out, caps),
    }
}

fn put_v4(ip: &IpRepr, repr: &Icmpv4Repr<'_>, out: &mut [u8], caps: &ChecksumCapabilities)
    requires { length out.old ≡ header_len_of ip.now + message_len 20 (message_v4 repr.now) }
    ensures { out.new ≡ header_octets (is_sent caps.now.ipv4) ip.now ++ icmpv4_octets caps.now (message_v4 repr.now) }
{
    ip.emit(out, caps);
    let start = ip.header_len();
    repr.emit(&mut out[start..], caps);
}

fn put_v6(
    ip: &IpRepr,
    header: &Ipv6Repr,
    repr: &Icmpv6Repr<'_>,
    out: &mut [u8],
    caps: &ChecksumCapabilities,
)
    requires { length out.old ≡ header_len_of ip.now + message_len 40 (message_v6 repr.now) }
    ensures { out.new ≡ header_octets (is_sent caps.now.ipv4) ip.now
        ++ icmpv6_octets caps.now header.now.src_addr header.now.dst_addr (message_v6 repr.now) }
{
    ip.emit(out, caps);
    let start = ip.header_len();
    repr.emit(&header.src_addr, &header.dst_addr, &mut out[start..], caps);
}

/// Writes the packet of a message at the beginning of `out`, and answers its length.
pub(crate) fn put_message(
    ip: &IpRepr,
    repr: &IcmpRepr<'_>,
    out: &mut [u8],
    caps: &ChecksumCapabilities,
) -> usize
    requires counted { Counts ip.now (any_message repr.now) }
    requires room { packet_len ip.now ≤ length out.old }
    ensures within { result ≤ length out.old }
    ensures len { result ≡ packet_len ip.now }
    ensures bytes { out.new ≡ with_message caps.now ip.now (any_message repr.now) out.old }
{
    let whole = ip.header_len() + ip.payload_len();
    write_message(ip, repr, &mut out[..whole], caps);
    whole
}

fn write_message(ip: &IpRepr, repr: &IcmpRepr<'_>, out: &mut [u8], caps: &ChecksumCapabilities)
    requires counted { Counts ip.now (any_message repr.now) }
    requires room { length out.old ≡ packet_len ip.now }
    ensures { out.new ≡ message_octets caps.now ip.now (any_message repr.now) }
{
    match (ip, repr) {
        (IpRepr::Ipv4(_), IcmpRepr::Ipv4(repr)) => put_v4(ip, repr, out, caps),
        (IpRepr::Ipv6(header), IcmpRepr::Ipv6(repr)) => put_v6(ip, header, repr, out, caps),
        _ => {}
    }
}
