//! The calls of a datagram socket that take and give packets.
ghost use Rattle.std.specs.Prelude.{◌≡◌, ◌↔◌, IsTrue, true, false, None, Some, option_map};
ghost use Rattle.segment_wire.specs.Packet.{Carried, UdpPacket, carried_of, udp_packet_of};
ghost use Rattle.sock_dgram.specs.Datagrams.{poll_moment};
ghost use Rattle.sock_dgram.specs.IcmpDispatch.{outgoing as message_due, outgoing_of as message_of};
ghost use Rattle.sock_dgram.specs.RawDispatch.{outgoing_of as raw_of};
ghost use Rattle.sock_dgram.specs.UdpDispatch.{outgoing_of};
ghost use Rattle.smoltcp_c.specs.Answers.{error_context, not_accepted, sent_answer};
ghost use Rattle.smoltcp_c.specs.Context.{facts_in, is_context};
ghost use Rattle.smoltcp_c.specs.Heard.{Tells, TellsPoll};
ghost use Rattle.smoltcp_c.specs.Icmp.{DispatchesMessage, EmitsMessage, HearsMessage, IcmpPacket};
ghost use Rattle.smoltcp_c.specs.Icmp.{IsFor as IsForIcmp, WritesMessage};
ghost use Rattle.smoltcp_c.specs.Icmp.{carried_message, icmp_packet_of, lacks_source, queued_of, told_unsourced};
ghost use Rattle.smoltcp_c.specs.Raw.{DispatchesRaw, HearsRaw, IsFor as IsForRaw, WritesRaw, carried_packet};
ghost use Rattle.smoltcp_c.specs.Udp.{DispatchesDatagram, EmitsDatagram, HearsDatagram, IsFor as IsForUdp};
ghost use Rattle.smoltcp_c.specs.Sends.{told_unsent};
ghost use Rattle.smoltcp_c.specs.Udp.{WritesDatagram, carried_datagram};

use crate::answers::{ERROR_ADDRESS, NOT_ACCEPTED, OK, flag_answer, sent_answer};
use crate::context::{Cx, Moment, in_context};
use crate::contexts::told;
use crate::handles::{IcmpHandle, RawHandle, UdpHandle};
use crate::message::{Packet, read};
use crate::packets::NO_HEADER;
use crate::wire::{Full, Wire, sent};
use control_wire::{IcmpRepr, UdpRepr};
use ip_wire::{ChecksumCapabilities, IpRepr};
use segment_wire::packet::{carried, read_udp};
use sock_core::PollAt;
use sock_dgram::{icmp, raw, udp};

/// Whether `process` takes an IP packet: 1 where it carries a datagram for the socket, else 0; `ERROR_CONTEXT`.
#[unsafe(no_mangle)]
pub extern "C" fn smoltcp_udp_accepts_nonnull(h: &mut UdpHandle, cx: &Cx, packet: &[u8]) -> i64
    ensures context { is_context cx.entry.now ≡ false → result ≡ error_context }
    ensures answer { is_context cx.entry.now ≡ true
        → Tells (IsForUdp (facts_in cx.entry.now) h.old.socket packet.now) result }
    ensures at { h.new.at ≡ h.old.at }
    ensures same { h.new.socket ≡ h.old.socket }
{
    let moment = in_context!(cx);
    flag_answer(is_for_udp(h.socket(), &moment, packet))
}

fn is_for_udp(socket: &udp::Socket<'_>, moment: &Moment, packet: &[u8]) -> bool
    ensures { IsTrue result ↔ IsForUdp (facts_in moment.now.cx) socket.now packet.now }
{
    let (mut ip, mut repr, mut payload) = (NO_HEADER, NO_PORTS, packet);
    read_datagram(packet, &mut ip, &mut repr, &mut payload) && socket.accepts(moment, &ip, &repr)
}

// What packets are read into.
const NO_PORTS: UdpRepr = UdpRepr {
    src_port: 0,
    dst_port: 0,
};

// Reads the datagram that the packet carries. Whether it carries one.
#[tactic(auto, unfolding(crate::specs::Udp::carried_datagram))]
fn read_datagram<'a>(
    packet: &'a [u8],
    ip: &mut IpRepr,
    repr: &mut UdpRepr,
    payload: &mut &'a [u8],
) -> bool
    ensures none { result ≡ false → carried_datagram packet.now ≡ None }
    ensures some { result ≡ true → carried_datagram packet.now ≡ Some (udp_packet_of (ip.new, repr.new, payload.new)) }
{
    read_udp(packet, &ChecksumCapabilities::default(), ip, repr, payload)
}

/// Takes an IP packet: the datagram that it carries comes behind the receive queue, or is dropped where the queue has
/// no room for it. 0.
///
/// `NOT_ACCEPTED` where the packet is no whole UDP datagram or is not for this socket, `ERROR_CONTEXT`. Nothing changes
/// then.
#[unsafe(no_mangle)]
pub extern "C" fn smoltcp_udp_process_nonnull(h: &mut UdpHandle, cx: &Cx, packet: &[u8]) -> i64
    ensures context { is_context cx.entry.now ≡ false → (result ≡ error_context) × (h.new ≡ h.old) }
    ensures broken { is_context cx.entry.now ≡ true → carried_datagram packet.now ≡ None
        → (result ≡ not_accepted) × (h.new ≡ h.old) }
    ensures table { (p : UdpPacket) → is_context cx.entry.now ≡ true → carried_datagram packet.now ≡ Some p
        → HearsDatagram (facts_in cx.entry.now) h.old.socket p result h.new.socket }
    ensures at { h.new.at ≡ h.old.at }
{
    let moment = in_context!(cx);
    read_by_udp(h.socket(), &moment, packet)
}

// Gives the datagram that the packet carries to the socket.
fn read_by_udp(socket: &mut udp::Socket<'_>, moment: &Moment, packet: &[u8]) -> i64
    ensures broken { carried_datagram packet.now ≡ None → (result ≡ not_accepted) × (socket.new ≡ socket.old) }
    ensures table { (p : UdpPacket) → carried_datagram packet.now ≡ Some p
        → HearsDatagram (facts_in moment.now.cx) socket.old p result socket.new }
{
    let (mut ip, mut repr, mut payload) = (NO_HEADER, NO_PORTS, packet);
    if !read_datagram(packet, &mut ip, &mut repr, &mut payload) {
        return NOT_ACCEPTED;
    }
    heard_by_udp(socket, moment, &ip, &repr, payload)
}

// Gives the datagram to the socket.
fn heard_by_udp(
    socket: &mut udp::Socket<'_>,
    moment: &Moment,
    ip: &IpRepr,
    repr: &UdpRepr,
    payload: &[u8],
) -> i64
    ensures { HearsDatagram (facts_in moment.now.cx) socket.old (udp_packet_of (ip.now, repr.now, payload.entry)) result
        socket.new }
{
    if !socket.accepts(moment, ip, repr) {
        return NOT_ACCEPTED;
    }
    socket.process(moment, ip, repr, payload);
    OK
}

/// Writes the packet of the first datagram of the transmit queue into `out`, and answers its length; the datagram
/// leaves. 0 where none waits.
///
/// `ERROR_ADDRESS` where the first has no source: no address was given with it or bound, and the context has none of
/// its version. It leaves too. `ERROR_ROOM` where `out` is too short for it: the next call gives it again.
/// `ERROR_CONTEXT`.
#[unsafe(no_mangle)]
pub extern "C" fn smoltcp_udp_dispatch_nonnull(h: &mut UdpHandle, cx: &Cx, out: &mut [u8]) -> i64
    ensures context { is_context cx.entry.now ≡ false
        → (result ≡ error_context) × (h.new ≡ h.old) × (out.new ≡ out.old) }
    ensures table { is_context cx.entry.now ≡ true
        → DispatchesDatagram (facts_in cx.entry.now) h.old.socket out.old result h.new.socket out.new }
    ensures at { h.new.at ≡ h.old.at }
{
    let moment = in_context!(cx);
    sent_by_udp(h.socket(), &moment, out)
}

// Writes what is due.
fn sent_by_udp(socket: &mut udp::Socket<'_>, moment: &Moment, out: &mut [u8]) -> i64
    ensures { DispatchesDatagram (facts_in moment.now.cx) socket.old out.old result socket.new out.new }
{
    let waits = socket.poll_at(moment) == PollAt::Now;
    let answer = write_udp(socket, moment, out);
    told_unsent(waits, answer)
}

fn write_udp(socket: &mut udp::Socket<'_>, moment: &Moment, out: &mut [u8]) -> i64
    ensures { EmitsDatagram (facts_in moment.now.cx) socket.old out.old result socket.new out.new }
{
    sent!(emitted_by_udp, socket, moment, out)
}

// Lets the socket emit.
fn emitted_by_udp(socket: &mut udp::Socket<'_>, wire: &mut Wire<'_>) -> Result<(), Full>
    requires { wire.old.len ≡ 0 }
    ensures table { EmitsDatagram (facts_in wire.old.moment.cx) socket.old wire.old.out.now
        (sent_answer result wire.new.len) socket.new wire.new.out.now }
    ensures same_buffer { wire.new.out.ghost_name ≡ wire.old.out.ghost_name }
{
    socket.dispatch(
        wire,
        move |cx: &mut Wire<'_>, sent: (IpRepr, UdpRepr, &[u8])| -> Result<(), Full>
            ensures { WritesDatagram (outgoing_of sent.entry) cx.entry.now result cx.exit.now }
        { cx.write_datagram(&sent.0, &sent.1, sent.2) },
    )
}

// What a dispatch answers: `ERROR_ADDRESS` where a place of the queue was taken and nothing was written.
#[tactic(auto, using(crate::proofs::Unsent::dropped, crate::proofs::Unsent::written, crate::proofs::Unsent::idle))]
fn told_unsent(waits: bool, answer: i64) -> i64
    ensures { result ≡ told_unsent waits answer }
{
    if waits && answer == 0 {
        ERROR_ADDRESS
    } else {
        answer
    }
}

/// When the socket wants its next dispatch: where a place of the transmit queue is taken, writes the context's moment
/// into `at`, and answers 0; else 1. `at` is then as it was, as with the error `ERROR_CONTEXT`.
#[unsafe(no_mangle)]
pub extern "C" fn smoltcp_udp_poll_at_nonnull(h: &mut UdpHandle, cx: &Cx, at: &mut i64) -> i64
    ensures told { TellsPoll cx.entry.now (poll_moment h.old.socket.tx_buffer) at.old result at.new }
    ensures at { h.new.at ≡ h.old.at }
    ensures same { h.new.socket ≡ h.old.socket }
{
    let moment = in_context!(cx);
    told(h.socket().poll_at(&moment), cx, at)
}

/// Whether `process` takes an IP packet: 1 where it carries a message for the socket, else 0; `ERROR_CONTEXT`.
#[unsafe(no_mangle)]
pub extern "C" fn smoltcp_icmp_accepts_nonnull(h: &mut IcmpHandle, cx: &Cx, packet: &[u8]) -> i64
    ensures context { is_context cx.entry.now ≡ false → result ≡ error_context }
    ensures answer { is_context cx.entry.now ≡ true
        → Tells (IsForIcmp (facts_in cx.entry.now) h.old.socket packet.now) result }
    ensures at { h.new.at ≡ h.old.at }
    ensures same { h.new.socket ≡ h.old.socket }
{
    let moment = in_context!(cx);
    flag_answer(is_for_icmp(h.socket(), &moment, packet))
}

fn is_for_icmp(socket: &icmp::Socket<'_>, moment: &Moment, packet: &[u8]) -> bool
    ensures { IsTrue result ↔ IsForIcmp (facts_in moment.now.cx) socket.now packet.now }
{
    match read(packet) {
        None => false,
        Some(found) => found.is_for(socket, moment),
    }
}

/// Takes an IP packet: the message that it carries comes behind the receive queue, or is dropped where the queue has no
/// room for it. 0.
///
/// `NOT_ACCEPTED` where the packet is no whole ICMP message or is not for this socket, `ERROR_CONTEXT`. Nothing changes
/// then.
#[unsafe(no_mangle)]
pub extern "C" fn smoltcp_icmp_process_nonnull(h: &mut IcmpHandle, cx: &Cx, packet: &[u8]) -> i64
    ensures context { is_context cx.entry.now ≡ false → (result ≡ error_context) × (h.new ≡ h.old) }
    ensures broken { is_context cx.entry.now ≡ true → carried_message packet.now ≡ None
        → (result ≡ not_accepted) × (h.new ≡ h.old) }
    ensures table { (p : IcmpPacket) → is_context cx.entry.now ≡ true → carried_message packet.now ≡ Some p
        → HearsMessage (facts_in cx.entry.now) h.old.socket p result h.new.socket }
    ensures at { h.new.at ≡ h.old.at }
{
    let moment = in_context!(cx);
    let Some(found) = read(packet) else {
        return NOT_ACCEPTED;
    };
    heard_by_icmp(h.socket(), &moment, &found)
}

// Gives the message to the socket.
fn heard_by_icmp(socket: &mut icmp::Socket<'_>, moment: &Moment, found: &Packet<'_>) -> i64
    ensures { HearsMessage (facts_in moment.now.cx) socket.old (icmp_packet_of found.now) result socket.new }
{
    if !found.is_for(socket, moment) {
        return NOT_ACCEPTED;
    }
    queue(socket, moment, found);
    OK
}

// Puts the message into the receive queue.
fn queue(socket: &mut icmp::Socket<'_>, moment: &Moment, found: &Packet<'_>)
    ensures { socket.new ≡ queued_of (icmp_packet_of found.now) socket.old }
{
    match found {
        Packet::V4(ip, repr) => socket.process_v4(moment, ip, repr),
        Packet::V6(ip, repr) => socket.process_v6(moment, ip, repr),
    }
}

/// Writes the packet of the first message of the transmit queue into `out`, and answers its length; the message leaves.
/// 0 where none waits, or the first is no echo and no error of its version: it leaves too.
///
/// `ERROR_ADDRESS` where the context has no address of the first's version: it leaves too. `ERROR_ROOM` where `out` is
/// too short for it: the next call gives it again. `ERROR_CONTEXT`.
#[unsafe(no_mangle)]
pub extern "C" fn smoltcp_icmp_dispatch_nonnull(h: &mut IcmpHandle, cx: &Cx, out: &mut [u8]) -> i64
    ensures context { is_context cx.entry.now ≡ false
        → (result ≡ error_context) × (h.new ≡ h.old) × (out.new ≡ out.old) }
    ensures table { is_context cx.entry.now ≡ true
        → DispatchesMessage (facts_in cx.entry.now) h.old.socket out.old result h.new.socket out.new }
    ensures at { h.new.at ≡ h.old.at }
{
    let moment = in_context!(cx);
    sent_by_icmp(h.socket(), &moment, out)
}

// Writes what is due.
fn sent_by_icmp(socket: &mut icmp::Socket<'_>, moment: &Moment, out: &mut [u8]) -> i64
    ensures { DispatchesMessage (facts_in moment.now.cx) socket.old out.old result socket.new out.new }
{
    let mut wire = Wire {
        moment: *moment,
        len: 0,
        unsourced: false,
        out,
    };
    let answer = emitted_by_icmp(socket, &mut wire);
    told_unsourced(wire.unsourced, sent_answer(answer, wire.len))
}

// What a dispatch answers: `ERROR_ADDRESS` where the message has no source.
fn told_unsourced(unsourced: bool, answer: i64) -> i64
    ensures { result ≡ told_unsourced unsourced answer }
{
    if unsourced { ERROR_ADDRESS } else { answer }
}

// Lets the socket emit.
fn emitted_by_icmp(socket: &mut icmp::Socket<'_>, wire: &mut Wire<'_>) -> Result<(), Full>
    requires len { wire.old.len ≡ 0 }
    requires sourced { wire.old.unsourced ≡ false }
    ensures table { EmitsMessage (facts_in wire.old.moment.cx) socket.old wire.old.out.now
        (sent_answer result wire.new.len) socket.new wire.new.out.now }
    ensures unsourced { wire.new.unsourced
        ≡ lacks_source (message_due socket.old (facts_in wire.old.moment.cx)) }
    ensures same_buffer { wire.new.out.ghost_name ≡ wire.old.out.ghost_name }
{
    socket.dispatch(
        wire,
        move |cx: &mut Wire<'_>, sent: (IpRepr, IcmpRepr<'_>)| -> Result<(), Full>
            ensures { WritesMessage (message_of sent.entry) cx.entry.now result cx.exit.now }
        { cx.write_message(&sent.0, &sent.1) },
    )
}

/// When the socket wants its next dispatch, as of a UDP socket.
#[unsafe(no_mangle)]
pub extern "C" fn smoltcp_icmp_poll_at_nonnull(h: &mut IcmpHandle, cx: &Cx, at: &mut i64) -> i64
    ensures told { TellsPoll cx.entry.now (poll_moment h.old.socket.tx_buffer) at.old result at.new }
    ensures at { h.new.at ≡ h.old.at }
    ensures same { h.new.socket ≡ h.old.socket }
{
    let moment = in_context!(cx);
    told(h.socket().poll_at(&moment), cx, at)
}

/// Whether `process` takes an IP packet: 1 where it is whole and for the socket, else 0.
#[unsafe(no_mangle)]
pub extern "C" fn smoltcp_raw_accepts_nonnull(h: &mut RawHandle, packet: &[u8]) -> i64
    ensures answer { Tells (IsForRaw h.old.socket packet.now) result }
    ensures at { h.new.at ≡ h.old.at }
    ensures same { h.new.socket ≡ h.old.socket }
{
    flag_answer(is_for_raw(h.socket(), packet))
}

fn is_for_raw(socket: &raw::Socket<'_>, packet: &[u8]) -> bool
    ensures { IsTrue result ↔ IsForRaw socket.now packet.now }
{
    match whole(packet) {
        None => false,
        Some((ip, _)) => socket.accepts(&ip),
    }
}

// The header of the packet, and what stands behind it.
fn whole(packet: &[u8]) -> Option<(IpRepr, &[u8])>
    ensures { option_map carried_of result ≡ carried_packet packet.now }
{
    carried(packet, &ChecksumCapabilities::default())
}

/// Takes an IP packet: it comes behind the receive queue without the options of its header, or is dropped where the
/// queue has no room for it. 0.
///
/// `NOT_ACCEPTED` where the packet is not whole, as a fragment, or is not for this socket, `ERROR_CONTEXT`. Nothing
/// changes then.
#[unsafe(no_mangle)]
pub extern "C" fn smoltcp_raw_process_nonnull(h: &mut RawHandle, cx: &Cx, packet: &[u8]) -> i64
    ensures context { is_context cx.entry.now ≡ false → (result ≡ error_context) × (h.new ≡ h.old) }
    ensures broken { is_context cx.entry.now ≡ true → carried_packet packet.now ≡ None
        → (result ≡ not_accepted) × (h.new ≡ h.old) }
    ensures table { (p : Carried) → is_context cx.entry.now ≡ true → carried_packet packet.now ≡ Some p
        → HearsRaw h.old.socket p result h.new.socket }
    ensures at { h.new.at ≡ h.old.at }
{
    let moment = in_context!(cx);
    let Some((ip, payload)) = whole(packet) else {
        return NOT_ACCEPTED;
    };
    heard_by_raw(h.socket(), &moment, &ip, payload)
}

// Gives the packet to the socket.
fn heard_by_raw(socket: &mut raw::Socket<'_>, moment: &Moment, ip: &IpRepr, payload: &[u8]) -> i64
    ensures { HearsRaw socket.old (carried_of (ip.now, payload.entry)) result socket.new }
{
    if !socket.accepts(ip) {
        return NOT_ACCEPTED;
    }
    socket.process(moment, ip, payload);
    OK
}

/// Writes the first packet of the transmit queue into `out`, the checksum of an IPv4 header computed, and answers its
/// length; the packet leaves. 0 where none waits, or the first is malformed or not of the socket's version and
/// protocol: it leaves too. `ERROR_ROOM` where `out` is too short for it: the next call gives it again.
/// `ERROR_CONTEXT`.
#[unsafe(no_mangle)]
pub extern "C" fn smoltcp_raw_dispatch_nonnull(h: &mut RawHandle, cx: &Cx, out: &mut [u8]) -> i64
    ensures context { is_context cx.entry.now ≡ false
        → (result ≡ error_context) × (h.new ≡ h.old) × (out.new ≡ out.old) }
    ensures table { is_context cx.entry.now ≡ true
        → DispatchesRaw h.old.socket out.old result h.new.socket out.new }
    ensures at { h.new.at ≡ h.old.at }
{
    let moment = in_context!(cx);
    sent_by_raw(h.socket(), &moment, out)
}

// Writes what is due.
fn sent_by_raw(socket: &mut raw::Socket<'_>, moment: &Moment, out: &mut [u8]) -> i64
    ensures { DispatchesRaw socket.old out.old result socket.new out.new }
{
    sent!(emitted_by_raw, socket, moment, out)
}

// Lets the socket emit.
fn emitted_by_raw(socket: &mut raw::Socket<'_>, wire: &mut Wire<'_>) -> Result<(), Full>
    requires { wire.old.len ≡ 0 }
    ensures table { DispatchesRaw socket.old wire.old.out.now (sent_answer result wire.new.len) socket.new
        wire.new.out.now }
    ensures same_buffer { wire.new.out.ghost_name ≡ wire.old.out.ghost_name }
{
    socket.dispatch(
        wire,
        move |cx: &mut Wire<'_>, sent: (IpRepr, &[u8])| -> Result<(), Full>
            ensures { WritesRaw (raw_of sent.entry) cx.entry.now result cx.exit.now }
        { cx.write_raw(&sent.0, sent.1) },
    )
}

/// When the socket wants its next dispatch, as of a UDP socket.
#[unsafe(no_mangle)]
pub extern "C" fn smoltcp_raw_poll_at_nonnull(h: &mut RawHandle, cx: &Cx, at: &mut i64) -> i64
    ensures told { TellsPoll cx.entry.now (poll_moment h.old.socket.tx_buffer) at.old result at.new }
    ensures at { h.new.at ≡ h.old.at }
    ensures same { h.new.socket ≡ h.old.socket }
{
    let moment = in_context!(cx);
    told(h.socket().poll_at(&moment), cx, at)
}
