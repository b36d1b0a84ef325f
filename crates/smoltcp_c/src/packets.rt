//! The calls of a TCP socket that take and give packets.
ghost use Rattle.std.specs.Prelude.{◌≡◌, ◌<◌, ◌≤◌, ℕ, List, pos, [], length, None, Some, true, false, is_some};
ghost use Rattle.std.specs.Prelude.{option_map};
ghost use Rattle.std.specs.Prelude.{IsTrue};
ghost use Rattle.std.specs.Option.{ForSome};
ghost use Rattle.ip_wire.specs.Checksum.{all_checksums};
ghost use Rattle.ip_wire.specs.declared.checksum.Checksum.TheVariants.{Both};
ghost use Rattle.control_wire.specs.Fits.{FitsPacket};
ghost use Rattle.control_wire.specs.Segment.{segment_of};
ghost use Rattle.segment_wire.specs.Packet.{TcpPacket, tcp_packet_parsed, with_segment};
ghost use Rattle.segment_wire.specs.Tcp.{filled};
ghost use Rattle.sock_tcp.specs.Ended.{ended_by_dispatch, ended_by_segment};
ghost use Rattle.sock_tcp.specs.Process.{reply_of, responded, source_kept};
ghost use Rattle.smoltcp_c.specs.Answers.{sent_answer, error_context, error_room, not_accepted};
ghost use Rattle.smoltcp_c.specs.Context.{is_context};
ghost use Rattle.smoltcp_c.specs.Packets.{size_of, written_over, outcome_in, reply_by, reset_of, Hears, DispatchesInto};
ghost use Rattle.smoltcp_c.specs.Pointed.{Dispatched, lies_so};
ghost use Rattle.smoltcp_c.specs.contracts.clock.Clock.{the_row as clock_row};
ghost use Rattle.smoltcp_c.specs.declared.clock.Clock.{Clock};
ghost use Rattle.sock_tcp.specs.contracts.socket.Socket.{the_row as tcp_row};
ghost use Rattle.sock_tcp.specs.declared.socket.Socket.{Socket};
ghost use Rattle.std.specs.Borrow.{full_share, sem};
ghost use Rattle.std.specs.Ptr.{lies_at};
ghost use denote.Signature.{static_lft};
ghost use Rattle.smoltcp_c.specs.Wire.{Writes};
ghost use Rattle.smoltcp_c.specs.Tcp.{IsSocket, RefusesFor, clock, clock_at, ended, view};

use crate::answers::{ERROR_CONTEXT, ERROR_ROOM, NOT_ACCEPTED, OK};
use crate::clock::Clock;
use crate::context::{Cx, Moment, in_context, is_in_context, moment_in};
use crate::handles::TcpHandle;
use crate::ports::has_ports;
use crate::wire::{Full, Wire, put_packet, sent};
use control_wire::{TcpControl, TcpRepr, TcpSeqNumber};
use ip_wire::{ChecksumCapabilities, IpProtocol, IpRepr, Ipv4Address, Ipv4Repr};
use segment_wire::packet::read_tcp;
use sock_tcp::{Reply, Response, Socket};

// An IPv6 header and the longest TCP header, in bytes: no reply is longer.
const LONGEST_REPLY: usize = 100;

/// Takes an IP packet. The length of the packet that answers it, written at the beginning of `reply`, or 0 for none;
/// `NOT_ACCEPTED` where the packet is no whole TCP segment or is not for this socket; `ERROR_ROOM` where `reply` has
/// less than 100 bytes, `ERROR_CONTEXT`. The socket is as it was then.
#[unsafe(no_mangle)]
pub extern "C" fn smoltcp_tcp_process_nonnull(
    h: &mut TcpHandle,
    cx: &Cx,
    packet: &[u8],
    reply: &mut [u8],
) -> i64
    ensures context { is_context cx.entry.now ≡ false
        → RefusesFor error_context h.old reply.old result h.new reply.new }
    ensures room { is_context cx.entry.now ≡ true → length reply.old < 100
        → RefusesFor error_room h.old reply.old result h.new reply.new }
    ensures broken { is_context cx.entry.now ≡ true → 100 ≤ length reply.old
        → tcp_packet_parsed (all_checksums Both) packet.now ≡ None
        → RefusesFor not_accepted h.old reply.old result h.new reply.new }
    ensures table { (p : TcpPacket) → is_context cx.entry.now ≡ true → 100 ≤ length reply.old
        → tcp_packet_parsed (all_checksums Both) packet.now ≡ Some p
        → Hears cx.entry.now (clock h.old) (view h.old) p.ip p.segment reply.old result (view h.new) (clock h.new)
        reply.new }
    ensures ended { (p : TcpPacket) → is_context cx.entry.now ≡ true → 100 ≤ length reply.old
        → tcp_packet_parsed (all_checksums Both) packet.now ≡ Some p
        → ended h.new ≡ ended_by_segment (view h.old).state p.segment.control (view h.new).state (ended h.old) }
    ensures at { h.new.at ≡ h.old.at }
{
    let moment = in_context!(cx);
    if reply.len() < LONGEST_REPLY {
        return ERROR_ROOM;
    }
    if !has_ports(h, packet) {
        return NOT_ACCEPTED;
    }
    let (mut ip, mut repr) = (NO_HEADER, NO_SEGMENT);
    if !read(packet, &mut ip, &mut repr) {
        return NOT_ACCEPTED;
    }
    heard(h.socket(), &moment, &ip, &repr, reply)
}

// What packets are read into.
pub(crate) const NO_HEADER: IpRepr = IpRepr::Ipv4(Ipv4Repr {
    src_addr: Ipv4Address([0; 4]),
    dst_addr: Ipv4Address([0; 4]),
    next_header: IpProtocol::Tcp,
    payload_len: 0,
    hop_limit: 0,
});

pub(crate) const NO_SEGMENT: TcpRepr<'static> = TcpRepr {
    src_port: 0,
    dst_port: 0,
    control: TcpControl::None,
    seq_number: TcpSeqNumber(0),
    ack_number: None,
    window_len: 0,
    window_scale: None,
    max_seg_size: None,
    sack_permitted: false,
    sack_ranges: [None, None, None],
    timestamp: None,
    payload: &[],
};

/// Reads the segment that the packet carries. Whether it carries one.
pub(crate) fn read<'a>(packet: &'a [u8], ip: &mut IpRepr, repr: &mut TcpRepr<'a>) -> bool
    ensures value { with_segment ip.new (filled result (segment_of repr.new))
        ≡ tcp_packet_parsed (all_checksums Both) packet.now }
    ensures short { IsTrue result → length repr.new.payload.now ≤ 65535 }
{
    read_tcp(packet, &ChecksumCapabilities::default(), ip, repr)
}

// Sets the socket's clock, where it has one.
#[tactic(auto, using(crate::proofs::Clocks::still_stamped))]
fn set_clock(socket: &mut Socket<'_, Clock>, tsval: u32)
    ensures view { socket.new.control_block ≡ socket.old.control_block }
    ensures clock { socket.new.tsval_generator ≡ clock_at socket.old.tsval_generator tsval }
    ensures ended { socket.new.ended ≡ socket.old.ended }
{
    if socket.timestamp_enabled() {
        socket.set_tsval_source(Some(Clock { tsval }));
    }
}

/// Sets the clock of the timestamps that the socket sends, where it sends any, as a context does in `process` and
/// `dispatch`: for a socket of a host, whose calls have none. Answers 0.
#[unsafe(no_mangle)]
pub extern "C" fn smoltcp_tcp_set_tsval_nonnull(h: &mut TcpHandle, tsval: u32) -> i64
    ensures answer { result ≡ pos 0 }
    ensures clock { IsSocket h.old (view h.old) (clock_at (clock h.old) tsval) (ended h.old) h.new }
{
    set_clock(h.socket(), tsval);
    OK
}

// Gives the segment to the socket, and writes the reply.
#[tactic(auto, using(crate::proofs::Endings::stays))]
fn heard(
    socket: &mut Socket<'_, Clock>,
    moment: &Moment,
    ip: &IpRepr,
    repr: &TcpRepr<'_>,
    reply: &mut [u8],
) -> i64
    requires short { length repr.now.payload.now ≤ 65535 }
    requires room { 100 ≤ length reply.old }
    ensures table { Hears moment.now.cx socket.old.tsval_generator socket.old.control_block ip.now
        (segment_of repr.now) reply.old result socket.new.control_block socket.new.tsval_generator reply.new }
    ensures ended { socket.new.ended ≡ ended_by_segment socket.old.control_block.state repr.now.control
        socket.new.control_block.state socket.old.ended }
{
    if !socket.accepts(moment, ip, repr) {
        return NOT_ACCEPTED;
    }
    set_clock(socket, moment.cx.tsval);
    match taken(socket, moment, ip, repr) {
        Response::Nothing => OK,
        Response::Ack(count) => put_answer(socket, Response::Ack(count), ip, repr, reply),
        Response::Rst => put_answer(socket, Response::Rst, ip, repr, reply),
    }
}

// Takes a segment that is for the socket: how it is answered.
#[inline(always)]
fn taken(
    socket: &mut Socket<'_, Clock>,
    moment: &Moment,
    ip: &IpRepr,
    repr: &TcpRepr<'_>,
) -> Response
    requires short { length repr.now.payload.now ≤ 65535 }
    ensures table { responded result socket.new.control_block (segment_of repr.now)
        ≡ outcome_in moment.now.cx socket.old.control_block ip.now (segment_of repr.now) }
    ensures clock { socket.new.tsval_generator
        ≡ source_kept socket.new.control_block.stamps socket.old.tsval_generator }
    ensures ended { socket.new.ended ≡ ended_by_segment socket.old.control_block.state repr.now.control
        socket.new.control_block.state socket.old.ended }
{
    let mut cx = *moment;
    socket.take_segment(&mut cx, ip, repr)
}

// Writes the answer to a segment that was taken, and answers its length.
// Not inlined: most segments are answered by nothing, and the space for a reply is cleared where it is made.
#[inline(never)]
fn put_answer(
    socket: &mut Socket<'_, Clock>,
    response: Response,
    ip: &IpRepr,
    repr: &TcpRepr<'_>,
    out: &mut [u8],
) -> i64
    requires short { length repr.now.payload.now ≤ 65535 }
    requires room { 100 ≤ length out.old }
    ensures view { socket.new.control_block
        ≡ (responded response socket.old.control_block (segment_of repr.now)).view }
    ensures state { socket.new.control_block.state ≡ socket.old.control_block.state }
    ensures answer { result ≡ pos (size_of (reply_by socket.old.tsval_generator repr.now.timestamp ip.now
        (responded response socket.old.control_block (segment_of repr.now)))) }
    ensures bytes { out.new ≡ written_over (reply_by socket.old.tsval_generator repr.now.timestamp ip.now
        (responded response socket.old.control_block (segment_of repr.now))) out.old }
    ensures clock { socket.new.tsval_generator ≡ socket.old.tsval_generator }
    ensures ended { socket.new.ended ≡ socket.old.ended }
{
    let reply = replied(socket, response, ip, repr);
    put_reply(&reply, out)
}

// The reply to a segment that was taken.
fn replied(
    socket: &mut Socket<'_, Clock>,
    response: Response,
    ip: &IpRepr,
    repr: &TcpRepr<'_>,
) -> Option<Reply>
    requires short { length repr.now.payload.now ≤ 65535 }
    ensures view { socket.new.control_block
        ≡ (responded response socket.old.control_block (segment_of repr.now)).view }
    ensures state { socket.new.control_block.state ≡ socket.old.control_block.state }
    ensures clock { socket.new.tsval_generator ≡ socket.old.tsval_generator }
    ensures ended { socket.new.ended ≡ socket.old.ended }
    ensures reply { option_map reply_of result ≡ reply_by socket.old.tsval_generator repr.now.timestamp ip.now
        (responded response socket.old.control_block (segment_of repr.now)) }
    ensures bare { ForSome result (λ r. r.1.payload.now ≡ []) }
    ensures fits { ForSome (option_map reply_of result) (λ r. FitsPacket r.0 r.1) }
{
    socket.reply_by(response, ip, repr)
}

// Writes the reply, if any, and answers its length. There is room for any.
fn put_reply(answer: &Option<Reply>, out: &mut [u8]) -> i64
    requires bare { ForSome answer.now (λ r. r.1.payload.now ≡ []) }
    requires fits { ForSome (option_map reply_of answer.now) (λ r. FitsPacket r.0 r.1) }
    requires room { 100 ≤ length out.old }
    ensures answer { result ≡ pos (size_of (option_map reply_of answer.now)) }
    ensures bytes { out.new ≡ written_over (option_map reply_of answer.now) out.old }
{
    match answer {
        None => OK,
        Some((ip, repr)) => put_packet(ip, repr, out) as i64,
    }
}

/// Writes the packet that is due into `out`, and answers its length, or 0 where none is. `ERROR_ROOM` where `out` is
/// too short for it: the next call gives it again. `ERROR_CONTEXT`.
/// The socket lies at `at`. The pointer comes by value: no handle is written, and C's call ends in a jump.
#[unsafe(no_mangle)]
pub unsafe extern "C" fn smoltcp_tcp_dispatch_nonnull(at: *mut u8, cx: &Cx, out: &mut [u8]) -> i64
    ghost socket: { Socket Clock }
    requires* { sem 𝓛 (lies_at (tcp_row static_lft clock_row) full_share at socket) }
    ensures* { sem 𝓛 (lies_so at (λ after. Dispatched cx.entry.now socket out.old result after out.new)) }
{
    dispatched(&mut *(at as *mut Socket<'static, Clock>), cx, out)
}

// Writes the packet that is due.
#[inline(always)]
fn dispatched(socket: &mut Socket<'static, Clock>, cx: &Cx, out: &mut [u8]) -> i64
    ensures { Dispatched cx.entry.now socket.old out.old result socket.new out.new }
{
    if !is_in_context(cx) {
        return ERROR_CONTEXT;
    }
    if !has_peer(socket) {
        return sent_to_nobody(socket, cx);
    }
    set_clock(socket, cx.tsval);
    sent_in(socket, cx, out)
}

/// Whether there is a peer: else nothing is sent, and nothing is waited for.
#[inline(always)]
#[tactic(auto, using(crate::proofs::Peers::none_there))]
pub(crate) fn has_peer(socket: &Socket<'_, Clock>) -> bool
    ensures { result ≡ false → socket.now.control_block.tuple ≡ None }
{
    socket.remote_endpoint().is_some()
}

// A dispatch of a socket without a peer.
#[inline(always)]
#[tactic(auto, using(crate::proofs::Peers::nothing_sent))]
fn sent_to_nobody(socket: &mut Socket<'_, Clock>, cx: &Cx) -> i64
    requires { socket.old.control_block.tuple ≡ None }
    ensures table { (out : List ℕ) → DispatchesInto cx.entry.now
        (clock_at socket.old.tsval_generator cx.entry.now.tsval) socket.old.control_block out result
        socket.new.control_block out }
    ensures clock { socket.new.tsval_generator ≡ clock_at socket.old.tsval_generator cx.entry.now.tsval }
    ensures view { socket.new.control_block ≡ socket.old.control_block }
    ensures ended { socket.new.ended ≡ socket.old.ended }
{
    set_clock(socket, cx.tsval);
    OK
}

// Writes what is due. Not inlined, so that a dispatch with nobody to send to has no registers to save.
#[inline(never)]
fn sent_in(socket: &mut Socket<'_, Clock>, cx: &Cx, out: &mut [u8]) -> i64
    requires { is_context cx.now ≡ true }
    ensures table { DispatchesInto cx.entry.now socket.old.tsval_generator socket.old.control_block out.old result
        socket.new.control_block out.new }
    ensures clock { socket.new.tsval_generator ≡ socket.old.tsval_generator }
    ensures ended { socket.new.ended ≡ ended_by_dispatch socket.old.control_block.state
        socket.new.control_block.state (is_some socket.new.control_block.remote_last_ts) socket.old.ended }
{
    match moment_in(cx) {
        Some(moment) => sent(socket, &moment, out),
        None => ERROR_CONTEXT,
    }
}

// Writes what is due at this moment.
fn sent(socket: &mut Socket<'_, Clock>, moment: &Moment, out: &mut [u8]) -> i64
    ensures table { DispatchesInto moment.now.cx socket.old.tsval_generator socket.old.control_block out.old result
        socket.new.control_block out.new }
    ensures clock { socket.new.tsval_generator ≡ socket.old.tsval_generator }
    ensures ended { socket.new.ended ≡ ended_by_dispatch socket.old.control_block.state
        socket.new.control_block.state (is_some socket.new.control_block.remote_last_ts) socket.old.ended }
{
    sent!(emitted, socket, moment, out)
}

// Lets the socket emit.
fn emitted(socket: &mut Socket<'_, Clock>, wire: &mut Wire<'_>) -> Result<(), Full>
    requires { wire.old.len ≡ 0 }
    ensures table { DispatchesInto wire.old.moment.cx socket.old.tsval_generator socket.old.control_block
        wire.old.out.now (sent_answer result wire.new.len) socket.new.control_block wire.new.out.now }
    ensures clock { socket.new.tsval_generator ≡ socket.old.tsval_generator }
    ensures ended { socket.new.ended ≡ ended_by_dispatch socket.old.control_block.state
        socket.new.control_block.state (is_some socket.new.control_block.remote_last_ts) socket.old.ended }
    ensures same_buffer { wire.new.out.ghost_name ≡ wire.old.out.ghost_name }
{
    socket.dispatch(
        wire,
        move |cx: &mut Wire<'_>, sent: (IpRepr, TcpRepr<'_>)| -> Result<(), Full>
            ensures { Writes sent.entry.0 (segment_of sent.entry.1) cx.entry.now result cx.exit.now }
        { cx.write(&sent.0, &sent.1) },
    )
}

/// Answers a packet that no socket takes by an RST (RFC 9293, section 3.10.7.1): writes it at the beginning of `reply`,
/// and answers its length. 0 where the packet is an RST; `NOT_ACCEPTED` where it is no whole TCP segment; `ERROR_ROOM`
/// where `reply` has less than 100 bytes. `reply` is as it was then.
#[unsafe(no_mangle)]
pub extern "C" fn smoltcp_tcp_reset_nonnull(packet: &[u8], reply: &mut [u8]) -> i64
    ensures room { length reply.old < 100 → (result ≡ error_room) × (reply.new ≡ reply.old) }
    ensures broken { 100 ≤ length reply.old → tcp_packet_parsed (all_checksums Both) packet.now ≡ None
        → (result ≡ not_accepted) × (reply.new ≡ reply.old) }
    ensures answer { (p : TcpPacket) → 100 ≤ length reply.old
        → tcp_packet_parsed (all_checksums Both) packet.now ≡ Some p
        → result ≡ pos (size_of (reset_of p.ip p.segment)) }
    ensures bytes { (p : TcpPacket) → 100 ≤ length reply.old
        → tcp_packet_parsed (all_checksums Both) packet.now ≡ Some p
        → reply.new ≡ written_over (reset_of p.ip p.segment) reply.old }
{
    if reply.len() < LONGEST_REPLY {
        return ERROR_ROOM;
    }
    let (mut ip, mut repr) = (NO_HEADER, NO_SEGMENT);
    if !read(packet, &mut ip, &mut repr) {
        return NOT_ACCEPTED;
    }
    let answer = reset_of(&ip, &repr);
    put_reply(&answer, reply)
}

// The RST that answers a segment, if it is none itself.
fn reset_of(ip: &IpRepr, repr: &TcpRepr<'_>) -> Option<Reply>
    requires short { length repr.now.payload.now ≤ 65535 }
    ensures reply { option_map reply_of result ≡ reset_of ip.now (segment_of repr.now) }
    ensures bare { ForSome result (λ r. r.1.payload.now ≡ []) }
    ensures fits { ForSome (option_map reply_of result) (λ r. FitsPacket r.0 r.1) }
{
    match repr.control {
        TcpControl::Rst => None,
        _ => Some(Socket::rst_reply(ip, repr)),
    }
}
