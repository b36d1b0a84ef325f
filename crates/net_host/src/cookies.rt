//! SYN cookies: a SYN is answered and no socket holds it, and who answers that is believed (RFC 4987, section 3.6).
ghost use Rattle.std.specs.Prelude.{◌≡◌, ◌<◌, ◌≤◌, ◌-◌, ◌&&◌, IfSome, length, [], min, nat_le, option_map, slice_get};
ghost use Rattle.std.specs.Prelude.{Some};
ghost use Rattle.std.specs.Option.{ForSome};
ghost use Rattle.control_wire.specs.Fits.{FitsPacket};
ghost use Rattle.control_wire.specs.Segment.{segment_of};
ghost use Rattle.sock_core.specs.Bounds.{IsMtu};
ghost use Rattle.sock_tcp.specs.Due.{ip_header_len, mtu_for};
ghost use Rattle.sock_tcp.specs.Process.{reply_of};
ghost use Rattle.host_cookies.specs.Numbers.{awaited};
ghost use Rattle.net_host.specs.Cookies.{AnswersAreBelieved, BelievesAwaited, acked_by, answer_number, answer_of};
ghost use Rattle.net_host.specs.Cookies.{AnswersSyn, OffersAreHeard, kept_or, plain_answer};
ghost use Rattle.net_host.specs.Cookies.{call_of, class_awaited, class_if, class_told, course_of, course_under};
ghost use Rattle.net_host.specs.Cookies.{doubted_by, is_anybody, is_garbage, noted};
ghost use Rattle.net_host.specs.Cookies.{noted_on, opening_of, room_at, room_in, syn_before, tested_if};
ghost use Rattle.net_host.specs.Resting.{is_opening};

use crate::offers::{
    add_options, clock_at, clock_brought, own_at, sack_brought, scale_brought, told_by, told_to,
};
use crate::rest::opens;
use crate::segments::Taker;
use crate::slot::Slot;
use control_wire::TcpSeqNumber;
use host_cookies::cookies::{answers_are_recognised, class_in};
use host_cookies::offer::offers_come_back;
use host_cookies::{Call, SynCookies, class_of, mss_of};
use smoltcp_socket::time::Instant;
use smoltcp_socket::wire::{
    ChecksumCapabilities, IpAddress, IpProtocol, IpRepr, Ipv4Address, Ipv6Address, TcpControl,
    TcpRepr,
};
use smoltcp_socket::{Context, Socket};
use sock_tcp::{Reply, TsvalSource};

/// What becomes of a segment where SYNs may be answered without a socket.
#[derive(Debug, Clone, Copy, PartialEq, Eq)]
pub enum Course {
    /// What becomes of it where they are not.
    Plain,
    /// What becomes of an acknowledgement that no socket takes and that carries no valid cookie.
    Doubted,
    /// A SYN is answered with this number, and the listener at this place is kept.
    Answered(usize, u32),
    /// An acknowledgement of this number: the SYN before it, which told this class, goes to its taker, and then itself.
    Believed(u8, u32),
    /// Nothing, as its source has too many connections.
    Dropped,
}

/// A context whose next word is a number that was told.
#[derive(Drop)]
pub struct Told<'c, C> {
    pub(crate) cx: &'c C,
    pub(crate) word: u32,
}

impl<'c, C: Context> Context for Told<'c, C> {
    ghost facts = { λ t. C.facts t.cx.now };

    ghost word_at = { λ t k. t.word };

    fn now(&self) -> Instant {
        self.cx.now()
    }

    fn has_ip_addr(&self, addr: IpAddress) -> bool {
        self.cx.has_ip_addr(addr)
    }

    fn get_source_address(&self, dst: &IpAddress) -> Option<IpAddress> {
        self.cx.get_source_address(dst)
    }

    fn get_source_address_ipv4(&self, dst: &Ipv4Address) -> Option<Ipv4Address> {
        self.cx.get_source_address_ipv4(dst)
    }

    fn get_source_address_ipv6(&self, dst: &Ipv6Address) -> Ipv6Address {
        self.cx.get_source_address_ipv6(dst)
    }

    fn is_broadcast(&self, addr: &IpAddress) -> bool {
        self.cx.is_broadcast(addr)
    }

    fn ip_mtu(&self) -> usize {
        self.cx.ip_mtu()
    }

    fn checksum_caps(&self) -> ChecksumCapabilities {
        self.cx.checksum_caps()
    }

    fn rand_u32(&mut self) -> u32 {
        self.word
    }
}

fn call_of(ip: &IpRepr, repr: &TcpRepr<'_>, number: TcpSeqNumber) -> Call
    ensures { result ≡ call_of ip.now (segment_of repr.now) number }
{
    Call {
        remote: ip.src_addr(),
        local: ip.dst_addr(),
        remote_port: repr.src_port,
        local_port: repr.dst_port,
        number: number.0,
    }
}

// What an acknowledgement that may answer a SYN|ACK acknowledges.
fn acked_by(repr: &TcpRepr<'_>) -> Option<TcpSeqNumber>
    ensures { result ≡ acked_by (segment_of repr.now) }
{
    match repr.control {
        TcpControl::Syn | TcpControl::Rst => None,
        _ => repr.ack_number,
    }
}

/// The SYN before an acknowledgement, which told this class, with the options that its timestamp brings back.
pub(crate) fn syn_before(repr: &TcpRepr<'_>, class: u8) -> TcpRepr<'static>
    ensures segment { segment_of result ≡ syn_before (segment_of repr.now) class }
    ensures bare { result.payload.now ≡ [] }
{
    let mut syn = TcpRepr::bare(repr.src_port, repr.dst_port);
    syn.control = TcpControl::Syn;
    syn.seq_number = repr.seq_number.minus(1);
    syn.window_len = repr.window_len;
    syn.max_seg_size = mss_of(class);
    syn.window_scale = scale_brought(repr.timestamp);
    syn.sack_permitted = sack_brought(repr.timestamp);
    syn.timestamp = clock_brought(repr.timestamp);
    syn
}

// The class of the SYN that this number answers.
fn class_told(
    cookies: &SynCookies,
    now: Instant,
    ip: &IpRepr,
    repr: &TcpRepr<'_>,
    number: TcpSeqNumber,
) -> Option<u8>
    ensures { result ≡ class_told cookies.now now.micros ip.now (segment_of repr.now) number }
{
    let call = call_of(ip, repr, repr.seq_number.minus(1));
    cookies.recognised(&call, told_by(repr.timestamp), number.0, now.micros)
}

fn doubted_by(cookies: &SynCookies, now: Instant, ip: &IpRepr, repr: &TcpRepr<'_>) -> Course
    ensures { result ≡ doubted_by cookies.now now.micros ip.now (segment_of repr.now)
        (acked_by (segment_of repr.now)) }
{
    match acked_by(repr) {
        None => Course::Plain,
        Some(ack) => {
            let number = ack.minus(1);
            match class_told(cookies, now, ip, repr, number) {
                Some(class) => Course::Believed(class, number.0),
                None => Course::Doubted,
            }
        }
    }
}

/// The class that a segment tells that no socket takes, where it may acknowledge an answer and one is awaited.
pub(crate) fn class_if<C: Context>(
    cookies: &Option<SynCookies>,
    taker: Taker,
    cx: &C,
    repr: &TcpRepr<'_>,
) -> Option<u8>
    ensures value { result ≡ class_if cookies.now taker (C.facts cx.now).now (segment_of repr.now) }
    ensures bound { IfSome result (λ n. n < 8) }
{
    match (cookies, taker) {
        (Some(cookies), Taker::Nobody) => class_awaited(cookies, cx.now(), repr),
        _ => None,
    }
}

fn class_awaited(cookies: &SynCookies, now: Instant, repr: &TcpRepr<'_>) -> Option<u8>
    ensures value { result
        ≡ class_awaited (awaited cookies.now.answered now.micros) (acked_by (segment_of repr.now)) }
    ensures bound { IfSome result (λ n. n < 8) }
{
    if !cookies.awaits(now.micros) {
        return None;
    }
    match acked_by(repr) {
        Some(ack) => Some(class_in(ack.minus(1).0)),
        None => None,
    }
}

fn is_anybody(taker: Taker) -> bool
    ensures { result ≡ is_anybody taker }
{
    !matches!(taker, Taker::Nobody)
}

// As long as an answer is awaited, and where the SYN before it is not for nobody: a stray segment to a port that nobody
// serves costs no test of its number.
fn tested(
    cookies: &SynCookies,
    again: Taker,
    now: Instant,
    ip: &IpRepr,
    repr: &TcpRepr<'_>,
) -> Course
    ensures { result ≡ tested_if (awaited cookies.now.answered now.micros && is_anybody again) cookies.now now.micros
        ip.now (segment_of repr.now) }
{
    if cookies.awaits(now.micros) && is_anybody(again) {
        doubted_by(cookies, now, ip, repr)
    } else {
        Course::Plain
    }
}

/// An answer that goes out is noted.
pub(crate) fn note_on(cookies: &mut Option<SynCookies>, course: Course, now: Instant)
    ensures { cookies.new ≡ noted_on course now.micros cookies.old }
{
    if let Course::Answered(..) = course {
        note(cookies, now);
    }
}

fn note(cookies: &mut Option<SynCookies>, now: Instant)
    ensures { cookies.new ≡ noted now.micros cookies.old }
{
    if let Some(cookies) = cookies {
        cookies.note(now.micros);
    }
}

fn is_garbage(repr: &TcpRepr<'_>) -> bool
    ensures { result ≡ is_garbage (segment_of repr.now) }
{
    match repr.control {
        TcpControl::None => repr.payload.len() == 1,
        _ => false,
    }
}

/// An acknowledgement that is believed, as its socket hears it: without the octet that a keep-alive has.
pub(crate) fn opening_of<'p>(repr: &TcpRepr<'p>) -> TcpRepr<'p>
    ensures segment { segment_of result ≡ opening_of (segment_of repr.now) }
    ensures small { length result.payload.now ≤ length repr.now.payload.now }
{
    let mut opening = *repr;
    if is_garbage(repr) {
        opening.payload = &[];
    }
    opening
}

fn kept_or(
    cookies: &SynCookies,
    own: Option<u8>,
    place: usize,
    now: Instant,
    ip: &IpRepr,
    repr: &TcpRepr<'_>,
) -> Course
    ensures { result ≡ kept_or (nat_le cookies.now.kept_from place && is_opening (segment_of repr.now)) place
        (answer_number cookies.now own now.micros ip.now (segment_of repr.now)) }
{
    if cookies.kept_from() <= place && opens(repr) {
        let call = call_of(ip, repr, repr.seq_number);
        let class = class_of(repr.max_seg_size);
        let number = cookies.number(&call, class, told_to(own, repr), now.micros);
        Course::Answered(place, number)
    } else {
        Course::Plain
    }
}

fn course_under(
    cookies: &SynCookies,
    own: Option<u8>,
    taker: Taker,
    again: Taker,
    now: Instant,
    ip: &IpRepr,
    repr: &TcpRepr<'_>,
) -> Course
    ensures { result ≡ course_under cookies.now own taker again now.micros ip.now (segment_of repr.now) }
{
    match taker {
        Taker::Listener(place) => kept_or(cookies, own, place, now, ip, repr),
        Taker::Nobody => tested(cookies, again, now, ip, repr),
        _ => Course::Plain,
    }
}

/// What becomes of a segment that this taker has, and the SYN before it this one. `own` is the taker's window scale
/// (`own_of`).
pub(crate) fn course_of<C: Context>(
    cookies: &Option<SynCookies>,
    own: Option<u8>,
    taker: Taker,
    again: Taker,
    cx: &C,
    ip: &IpRepr,
    repr: &TcpRepr<'_>,
) -> Course
    ensures { result ≡ course_of cookies.now own taker again (C.facts cx.now).now ip.now (segment_of repr.now) }
{
    match cookies {
        None => Course::Plain,
        Some(cookies) => course_under(cookies, own, taker, again, cx.now(), ip, repr),
    }
}

// ---- the answer

impl<G> Slot<'_, G> {
    fn room(&self) -> usize
        ensures { result ≡ room_in self.now.socket }
    {
        match &self.socket {
            Some(Socket::Tcp(tcp)) => tcp.recv_capacity(),
            _ => 0,
        }
    }
}

// How many bytes the receive buffer of the socket at this place holds.
fn room_at<G>(slots: &[Slot<'_, G>], place: usize) -> usize
    ensures { result ≡ room_at (slice_get slots.now place) }
{
    match slots.get(place) {
        Some(slot) => slot.room(),
        None => 0,
    }
}

// The size of a segment that the host may receive.
fn own_mss<C: Context>(cx: &C, own: &IpAddress) -> u16
    ensures { result ≡ mtu_for own.now (C.facts cx.now).mtu - ip_header_len own.now - 20 }
{
    let mtu = cx.ip_mtu();
    match own {
        IpAddress::Ipv4(_) => (mtu - 40) as u16,
        IpAddress::Ipv6(_) => (mtu.max(576) - 60) as u16,
    }
}

fn plain_answer<C: Context>(
    cx: &C,
    room: usize,
    number: u32,
    ip: &IpRepr,
    repr: &TcpRepr<'_>,
) -> TcpRepr<'static>
    ensures segment { segment_of result ≡ plain_answer (C.facts cx.now) room number ip.now (segment_of repr.now) }
    ensures bare { result.payload.now ≡ [] }
{
    let mut answer = TcpRepr::bare(repr.dst_port, repr.src_port);
    answer.control = TcpControl::Syn;
    answer.seq_number = TcpSeqNumber(number);
    answer.ack_number = Some(repr.seq_number.plus(1));
    answer.window_len = room.min(65535) as u16;
    answer.max_seg_size = Some(own_mss(cx, &ip.dst_addr()));
    answer
}

// The SYN|ACK that answers a SYN with this number, by a listener with this window scale and this clock.
#[tactic(auto, using(crate::proofs::CookieAnswers::answer_fits))]
fn answer_of<C: Context>(
    cx: &C,
    own: Option<u8>,
    clock: Option<u32>,
    room: usize,
    number: u32,
    ip: &IpRepr,
    repr: &TcpRepr<'_>,
) -> Reply
    requires { IfSome own (λ n. n ≤ 14) }
    ensures reply { reply_of result ≡ answer_of (C.facts cx.now) own clock room number ip.now (segment_of repr.now) }
    ensures bare { result.1.payload.now ≡ [] }
    ensures fits { FitsPacket result.0 (segment_of result.1) }
{
    let mut answer = plain_answer(cx, room, number, ip, repr);
    add_options(own, clock, repr, &mut answer);
    let header = IpRepr::new(
        ip.dst_addr(),
        ip.src_addr(),
        IpProtocol::Tcp,
        answer.buffer_len(),
        64,
    );
    (header, answer)
}

/// The SYN|ACK of the listener at this place, with this number.
// Not inlined, as few segments come here.
#[inline(never)]
pub(crate) fn answer_at<C: Context, G: TsvalSource>(
    slots: &[Slot<'_, G>],
    place: usize,
    cx: &C,
    number: u32,
    ip: &IpRepr,
    repr: &TcpRepr<'_>,
) -> Reply
    ensures reply { AnswersSyn G.tells (C.facts cx.now) (slice_get slots.now place) number ip.now (segment_of repr.now)
        (Some (reply_of result)) }
    ensures bare { result.1.payload.now ≡ [] }
    ensures fits { FitsPacket result.0 (segment_of result.1) }
{
    let own = own_at(slots, place);
    let clock = clock_at(slots, place);
    answer_of(cx, own, clock, room_at(slots, place), number, ip, repr)
}

/// Where no socket takes it, the acknowledgement of an answer is believed within 64 seconds: as of the class that the
/// SYN told, and of the number of the answer; and the SYN that the socket hears before it has the window scale, the
/// SACK permission and the timestamp that it offered, where the answer has a timestamp. None is believed once no answer
/// is awaited, 128 seconds after the last, nor where the SYN before it is for nobody.
pub fn answers_are_believed()
    ensures believed { AnswersAreBelieved }
    ensures heard { OffersAreHeard }
    ensures awaited { BelievesAwaited }
{
    answers_are_recognised();
    offers_come_back();
}
