//! Which socket takes a TCP segment, and what becomes of it.
ghost use Rattle.std.specs.Prelude.{◌≡◌, ◌↔◌, ◌<◌, ◌≤◌, ◌+◌, IsTrue, IfSome, length, [], option_map, slice_get, true, false};
ghost use Rattle.std.specs.Option.{ForSome};
ghost use Rattle.control_wire.specs.Fits.{FitsPacket};
ghost use Rattle.control_wire.specs.Segment.{segment_of};
ghost use Rattle.sock_core.specs.Bounds.{IsMoment};
ghost use Rattle.sock_tcp.specs.Process.{Opens, reply_of};
ghost use Rattle.net_host.specs.Asking.{can_open, can_renew, can_take, taker_key, under};
ghost use Rattle.net_host.specs.Filing.{keys_of};
ghost use Rattle.net_host.specs.Indexing.{IsSettled};
ghost use Rattle.net_host.specs.Resting.{Reopens, Rests, anew, is_opening};
ghost use Rattle.net_host.specs.Segments.{Hears, HearsAt, IsTaker, NoneTakes, SendsWithin, TakenBy};
ghost use Rattle.net_host.specs.Segments.{TakesSegment, as_is, is_rst, opened_by, reset_of};
ghost use Rattle.net_host.specs.Touching.{Touches};
ghost use Rattle.net_host.specs.Walks.{Finds, IsAt, Nowhere};

use crate::asked::Asked;
use crate::filing::{connection_key, listener_key, number_of};
use crate::find::{Sought, first_if_any, first_sought};
use crate::limit::Limit;
use crate::rest::{any_server, oldest, opens};
use crate::set::SocketSet;
use crate::slot::Slot;
use smoltcp_socket::time::Instant;
use smoltcp_socket::wire::{IpRepr, TcpControl, TcpRepr};
use smoltcp_socket::{Context, Socket, tcp};
use sock_tcp::{Reply, TsvalSource};

/// Who takes a segment, by its place in the set.
#[derive(Debug, Clone, Copy, PartialEq, Eq)]
pub enum Taker {
    /// A connection.
    Connection(usize),
    /// A connection in TIME-WAIT, which a later SYN opens again.
    Reopened(usize),
    /// A socket that listens.
    Listener(usize),
    /// A socket in TIME-WAIT, which listens again as no other does.
    Reused(usize),
    /// No socket now, though the port is served.
    Busy,
    /// No socket.
    Nobody,
}

impl<'a, G: TsvalSource> Slot<'a, G> {
    pub(crate) fn takes_segment<C: Context>(
        &self,
        cx: &C,
        listening: bool,
        ip: &IpRepr,
        repr: &TcpRepr<'_>,
    ) -> bool
        ensures { IsTrue result ↔ TakesSegment listening ip.now (segment_of repr.now) self.now }
    {
        match &self.socket {
            Some(Socket::Tcp(tcp)) => {
                tcp.is_listening() == listening
                    && tcp.accepts(cx, ip, repr)
                    && (listening || tcp.remote_endpoint().is_some())
            }
            _ => false,
        }
    }

    fn hear<C: Context>(
        &mut self,
        cx: &mut C,
        listening: bool,
        ip: &IpRepr,
        repr: &TcpRepr<'_>,
        reply: &mut Option<Reply>,
    )
        requires accepted { TakesSegment listening ip.now (segment_of repr.now) self.old }
        requires small { length repr.now.payload.now ≤ 65535 }
        ensures heard { Hears C.facts C.word_at G.tells as_is (opened_by listening (segment_of repr.now)) self.old
            cx.old ip.now (segment_of repr.now) reply.new self.new cx.new }
        ensures bare { ForSome reply.new (λ r. r.1.payload.now ≡ []) }
        ensures fits { ForSome (option_map reply_of reply.new) (λ r. FitsPacket r.0 r.1) }
    {
        if listening && opens(repr) {
            self.opened = self.opened.wrapping_add(1);
        }
        match &mut self.socket {
            Some(Socket::Tcp(tcp)) => match tcp.process(cx, ip, repr) {
                // apart, as mostly nothing is answered, and a copy of nothing is as long as one of an answer
                Some(answer) => *reply = Some(answer),
                None => *reply = None,
            },
            _ => *reply = None,
        }
    }

    // It listens again on its endpoint, and hears the SYN.
    #[tactic(auto, unfolding(sock_tcp::specs::Opening::listened, sock_tcp::specs::Opening::renewed))]
    fn hear_anew<C: Context>(
        &mut self,
        cx: &mut C,
        ip: &IpRepr,
        repr: &TcpRepr<'_>,
        reply: &mut Option<Reply>,
    )
        requires opening { is_opening (segment_of repr.now) ≡ true }
        requires rests { Rests ip.now (segment_of repr.now) self.old }
        requires small { length repr.now.payload.now ≤ 65535 }
        ensures heard { Hears C.facts C.word_at G.tells anew (opened_by true (segment_of repr.now)) self.old
            cx.old ip.now (segment_of repr.now) reply.new self.new cx.new }
        ensures bare { ForSome reply.new (λ r. r.1.payload.now ≡ []) }
        ensures fits { ForSome (option_map reply_of reply.new) (λ r. FitsPacket r.0 r.1) }
    {
        self.opened = self.opened.wrapping_add(1);
        match &mut self.socket {
            Some(Socket::Tcp(tcp)) => {
                let _ = tcp.listen(tcp.listen_endpoint());
                match tcp.process(cx, ip, repr) {
                    Some(answer) => *reply = Some(answer),
                    None => *reply = None,
                }
            }
            _ => *reply = None,
        }
    }
}

// The first socket that takes the segment, of those that listen or of the others.
#[inline(always)]
pub(crate) fn first_taker<C: Context, G: TsvalSource>(
    sockets: &SocketSet<'_, G>,
    cx: &C,
    listening: bool,
    ip: &IpRepr,
    repr: &TcpRepr<'_>,
    asked: &mut Asked,
) -> Option<usize>
    requires { IsSettled (λ s. keys_of s) sockets.now.complete sockets.now.slots.items sockets.now.index.entries
        sockets.now.free }
    ensures first { Finds (TakesSegment listening ip.now (segment_of repr.now)) sockets.now.slots.items result }
    ensures asked { sockets.now.complete ≡ true → asked.new.count
        ≤ asked.old.count + (under sockets.now.index.entries (taker_key listening ip.now (segment_of repr.now)) + 1) }
{
    if sockets.complete {
        found_taker(sockets, cx, listening, ip, repr, asked)
    } else {
        walk_for_taker(&sockets.slots, cx, listening, ip, repr)
    }
}

// By the index.
#[inline(always)]
fn found_taker<C: Context, G: TsvalSource>(
    sockets: &SocketSet<'_, G>,
    cx: &C,
    listening: bool,
    ip: &IpRepr,
    repr: &TcpRepr<'_>,
    asked: &mut Asked,
) -> Option<usize>
    requires settled { IsSettled (λ s. keys_of s) sockets.now.complete sockets.now.slots.items sockets.now.index.entries
        sockets.now.free }
    requires complete { sockets.now.complete ≡ true }
    ensures first { Finds (TakesSegment listening ip.now (segment_of repr.now)) sockets.now.slots.items result }
    ensures asked { asked.new.count
        ≤ asked.old.count + (under sockets.now.index.entries (taker_key listening ip.now (segment_of repr.now)) + 1) }
{
    if listening {
        let key = listener_key(repr.dst_port);
        first_if_any(
            &sockets.slots,
            &sockets.index,
            key,
            cx,
            Sought::Listener,
            ip,
            repr,
            asked,
        )
    } else {
        let key = connection_key(&ip.src_addr(), repr.dst_port, repr.src_port);
        first_sought(
            &sockets.slots,
            &sockets.index,
            key,
            cx,
            Sought::Connection,
            ip,
            repr,
            asked,
        )
    }
}

fn walk_for_taker<C: Context, G: TsvalSource>(
    slots: &[Slot<'_, G>],
    cx: &C,
    listening: bool,
    ip: &IpRepr,
    repr: &TcpRepr<'_>,
) -> Option<usize>
    ensures { Finds (TakesSegment listening ip.now (segment_of repr.now)) slots.now result }
{
    for (i, slot) in slots.iter().enumerate() {
        if slot.takes_segment(cx, listening, ip, repr) {
            return Some(i);
        }
    }
    None
}

/// Who takes the segment, as `IsTaker` says.
pub(crate) fn who_takes<C: Context, G: TsvalSource>(
    sockets: &SocketSet<'_, G>,
    cx: &C,
    ip: &IpRepr,
    repr: &TcpRepr<'_>,
    asked: &mut Asked,
) -> Taker
    requires { IsSettled (λ s. keys_of s) sockets.now.complete sockets.now.slots.items sockets.now.index.entries
        sockets.now.free }
    ensures taker { IsTaker sockets.now.slots.items ip.now (segment_of repr.now) result }
    ensures asked { sockets.now.complete ≡ true → asked.new.count
        ≤ asked.old.count + (can_take sockets.now.index.entries ip.now (segment_of repr.now) + 3) }
{
    match first_taker(sockets, cx, false, ip, repr, asked) {
        Some(i) => {
            if sockets.slots[i].reopens(ip, repr) {
                Taker::Reopened(i)
            } else {
                Taker::Connection(i)
            }
        }
        None => listener(sockets, cx, ip, repr, asked),
    }
}

// Whether the connection at this place takes the segment, as it is.
#[inline(always)]
fn goes_on_with<C: Context, G: TsvalSource>(
    slots: &[Slot<'_, G>],
    i: usize,
    cx: &C,
    ip: &IpRepr,
    repr: &TcpRepr<'_>,
) -> bool
    ensures taken { result ≡ true → IsAt (TakesSegment false ip.now (segment_of repr.now)) slots.now i }
    ensures open { result ≡ true → IfSome (slice_get slots.now i) (λ x. Reopens ip.now (segment_of repr.now) x → ⊥) }
{
    match slots.get(i) {
        Some(slot) => slot.takes_segment(cx, false, ip, repr) && !slot.reopens(ip, repr),
        None => false,
    }
}

/// The connection that takes the segment, by one look where its place is known, as mostly. Where the answer is none, it
/// says nothing.
#[inline(always)]
pub(crate) fn known_taker<C: Context, G: TsvalSource>(
    sockets: &mut SocketSet<'_, G>,
    cx: &C,
    ip: &IpRepr,
    repr: &TcpRepr<'_>,
) -> Option<usize>
    ensures slots { sockets.new.slots ≡ sockets.old.slots }
    ensures bounds { sockets.new.bounds ≡ sockets.old.bounds }
    ensures ended { sockets.new.ended ≡ sockets.old.ended }
    ensures taker { IfSome result
        (λ i. IsTaker sockets.old.slots.items ip.now (segment_of repr.now) (Taker.Connection i)) }
{
    let key = connection_key(&ip.src_addr(), repr.dst_port, repr.src_port);
    match sockets.known_place(key) {
        Some(i) if sockets.complete && goes_on_with(&sockets.slots, i, cx, ip, repr) => Some(i),
        _ => None,
    }
}

// Whether a socket that listens may take the segment: with an ACK or as an RST none does (RFC 9293, section 3.10.7.2).
fn may_open(repr: &TcpRepr<'_>) -> bool
    ensures { IsTrue result ↔ Opens (segment_of repr.now) }
{
    repr.ack_number.is_none() && !matches!(repr.control, TcpControl::Rst)
}

// Who takes a segment that is for no connection. Where it cannot open one, no listener is asked.
#[tactic(auto, using(crate::proofs::Listeners::nobody))]
fn listener<C: Context, G: TsvalSource>(
    sockets: &SocketSet<'_, G>,
    cx: &C,
    ip: &IpRepr,
    repr: &TcpRepr<'_>,
    asked: &mut Asked,
) -> Taker
    requires settled { IsSettled (λ s. keys_of s) sockets.now.complete sockets.now.slots.items sockets.now.index.entries
        sockets.now.free }
    requires none { Nowhere (TakesSegment false ip.now (segment_of repr.now)) sockets.now.slots.items }
    ensures taker { IsTaker sockets.now.slots.items ip.now (segment_of repr.now) result }
    ensures asked { sockets.now.complete ≡ true → asked.new.count
        ≤ asked.old.count + (can_open sockets.now.index.entries repr.now.dst_port + 2) }
{
    if !may_open(repr) {
        return Taker::Nobody;
    }
    match first_taker(sockets, cx, true, ip, repr, asked) {
        Some(i) => Taker::Listener(i),
        None => {
            if opens(repr) {
                rested(sockets, cx, ip, repr, asked)
            } else {
                Taker::Nobody
            }
        }
    }
}

// Who takes a SYN for which no socket listens.
fn rested<C: Context, G: TsvalSource>(
    sockets: &SocketSet<'_, G>,
    cx: &C,
    ip: &IpRepr,
    repr: &TcpRepr<'_>,
    asked: &mut Asked,
) -> Taker
    requires settled { IsSettled (λ s. keys_of s) sockets.now.complete sockets.now.slots.items sockets.now.index.entries
        sockets.now.free }
    requires none { NoneTakes sockets.now.slots.items ip.now (segment_of repr.now) }
    requires opening { is_opening (segment_of repr.now) ≡ true }
    ensures taker { IsTaker sockets.now.slots.items ip.now (segment_of repr.now) result }
    ensures asked { sockets.now.complete ≡ true → asked.new.count
        ≤ asked.old.count + (can_renew sockets.now.index.entries repr.now.dst_port + 1) }
{
    match oldest(sockets, ip, repr, asked) {
        Some((i, _)) => Taker::Reused(i),
        None => match any_server(sockets, cx, ip, repr, asked) {
            Some(_) => Taker::Busy,
            None => Taker::Nobody,
        },
    }
}

// The socket at this place takes the segment.
fn hear_there<C: Context, G: TsvalSource>(
    slots: &mut Vec<Slot<'_, G>>,
    i: usize,
    cx: &mut C,
    listening: bool,
    ip: &IpRepr,
    repr: &TcpRepr<'_>,
    reply: &mut Option<Reply>,
)
    requires within { i < length slots.old.items }
    requires accepted { IfSome (slice_get slots.old.items i) (TakesSegment listening ip.now (segment_of repr.now)) }
    requires small { length repr.now.payload.now ≤ 65535 }
    ensures heard { HearsAt C.facts C.word_at G.tells as_is (opened_by listening (segment_of repr.now))
        slots.old.items i cx.old ip.now (segment_of repr.now) reply.new slots.new.items cx.new }
    ensures bare { ForSome reply.new (λ r. r.1.payload.now ≡ []) }
    ensures fits { ForSome (option_map reply_of reply.new) (λ r. FitsPacket r.0 r.1) }
{
    slots[i].hear(cx, listening, ip, repr, reply);
}

// The socket at this place listens again, and takes the SYN.
fn hear_anew_there<C: Context, G: TsvalSource>(
    slots: &mut Vec<Slot<'_, G>>,
    i: usize,
    cx: &mut C,
    ip: &IpRepr,
    repr: &TcpRepr<'_>,
    reply: &mut Option<Reply>,
)
    requires within { i < length slots.old.items }
    requires opening { is_opening (segment_of repr.now) ≡ true }
    requires rests { IfSome (slice_get slots.old.items i) (Rests ip.now (segment_of repr.now)) }
    requires small { length repr.now.payload.now ≤ 65535 }
    ensures heard { HearsAt C.facts C.word_at G.tells anew (opened_by true (segment_of repr.now))
        slots.old.items i cx.old ip.now (segment_of repr.now) reply.new slots.new.items cx.new }
    ensures bare { ForSome reply.new (λ r. r.1.payload.now ≡ []) }
    ensures fits { ForSome (option_map reply_of reply.new) (λ r. FitsPacket r.0 r.1) }
{
    slots[i].hear_anew(cx, ip, repr, reply);
}

/// The socket at this place takes the segment. The reply is written where it is wanted: given back, it would be copied
/// by each caller on the way, with nearly every packet.
#[inline(always)]
pub(crate) fn hear_at<C: Context, G: TsvalSource>(
    sockets: &mut SocketSet<'_, G>,
    i: usize,
    cx: &mut C,
    listening: bool,
    ip: &IpRepr,
    repr: &TcpRepr<'_>,
    reply: &mut Option<Reply>,
)
    requires within { i < length sockets.old.slots.items }
    requires accepted { IfSome (slice_get sockets.old.slots.items i)
        (TakesSegment listening ip.now (segment_of repr.now)) }
    requires small { length repr.now.payload.now ≤ 65535 }
    ensures heard { HearsAt C.facts C.word_at G.tells as_is (opened_by listening (segment_of repr.now))
        sockets.old.slots.items i cx.old ip.now (segment_of repr.now) reply.new sockets.new.slots.items cx.new }
    ensures bare { ForSome reply.new (λ r. r.1.payload.now ≡ []) }
    ensures fits { ForSome (option_map reply_of reply.new) (λ r. FitsPacket r.0 r.1) }
    ensures touched { Touches sockets.old.bounds sockets.old.slots.items sockets.new.bounds
        sockets.new.slots.items }
    ensures ended { sockets.new.ended ≡ sockets.old.ended }
{
    sockets.lend(i);
    hear_there(&mut sockets.slots, i, cx, listening, ip, repr, reply);
}

/// The socket at this place listens again, and takes the SYN.
// Not inlined, as few segments come here.
#[inline(never)]
pub(crate) fn hear_anew_at<C: Context, G: TsvalSource>(
    sockets: &mut SocketSet<'_, G>,
    i: usize,
    cx: &mut C,
    ip: &IpRepr,
    repr: &TcpRepr<'_>,
    reply: &mut Option<Reply>,
)
    requires within { i < length sockets.old.slots.items }
    requires opening { is_opening (segment_of repr.now) ≡ true }
    requires rests { IfSome (slice_get sockets.old.slots.items i) (Rests ip.now (segment_of repr.now)) }
    requires small { length repr.now.payload.now ≤ 65535 }
    ensures heard { HearsAt C.facts C.word_at G.tells anew (opened_by true (segment_of repr.now))
        sockets.old.slots.items i cx.old ip.now (segment_of repr.now) reply.new sockets.new.slots.items cx.new }
    ensures bare { ForSome reply.new (λ r. r.1.payload.now ≡ []) }
    ensures fits { ForSome (option_map reply_of reply.new) (λ r. FitsPacket r.0 r.1) }
    ensures touched { Touches sockets.old.bounds sockets.old.slots.items sockets.new.bounds
        sockets.new.slots.items }
    ensures ended { sockets.new.ended ≡ sockets.old.ended }
{
    sockets.lend(i);
    hear_anew_there(&mut sockets.slots, i, cx, ip, repr, reply);
}

/// The RST that answers a segment for no socket, unless it is one itself.
// Not inlined, as few segments come here.
#[inline(never)]
fn refuse(ip: &IpRepr, repr: &TcpRepr<'_>) -> Option<Reply>
    requires { length repr.now.payload.now ≤ 65535 }
    ensures answer { option_map reply_of result ≡ reset_of ip.now (segment_of repr.now) }
    ensures bare { ForSome result (λ r. r.1.payload.now ≡ []) }
    ensures fits { ForSome (option_map reply_of result) (λ r. FitsPacket r.0 r.1) }
{
    if repr.control == TcpControl::Rst {
        return None;
    }
    Some(tcp::Socket::rst_reply(ip, repr))
}

fn is_rst(reply: &Option<Reply>) -> bool
    ensures { result ≡ is_rst reply.now }
{
    match reply {
        None => false,
        Some((_, repr)) => repr.control == TcpControl::Rst,
    }
}

/// What goes out of what answers a segment: an RST only where the limit allows its sender one more.
pub(crate) fn keep_within(limit: &mut Limit, now: Instant, ip: &IpRepr, reply: &mut Option<Reply>)
    requires moment { IsMoment now.micros }
    requires bare { ForSome reply.old (λ r. r.1.payload.now ≡ []) }
    requires fits { ForSome (option_map reply_of reply.old) (λ r. FitsPacket r.0 r.1) }
    ensures sent { SendsWithin limit.old now ip.now reply.old reply.new limit.new }
    ensures bare { ForSome reply.new (λ r. r.1.payload.now ≡ []) }
    ensures fits { ForSome (option_map reply_of reply.new) (λ r. FitsPacket r.0 r.1) }
{
    if is_rst(reply) && !limit.take(number_of(&ip.src_addr()), now) {
        *reply = None;
    }
}

/// The segment goes to its taker, or is refused; the reply is written where it is wanted, as `hear_at` does. Of the
/// limit on RSTs nothing is taken yet.
#[tactic(auto, using(crate::proofs::Touching::touches_none))]
pub(crate) fn take_segment<C: Context, G: TsvalSource>(
    sockets: &mut SocketSet<'_, G>,
    cx: &mut C,
    taker: Taker,
    ip: &IpRepr,
    repr: &TcpRepr<'_>,
    reply: &mut Option<Reply>,
)
    requires taker { IsTaker sockets.old.slots.items ip.now (segment_of repr.now) taker }
    requires small { length repr.now.payload.now ≤ 65535 }
    ensures taken { TakenBy C.facts C.word_at G.tells taker sockets.old.slots.items cx.old ip.now
        (segment_of repr.now) reply.new sockets.new.slots.items cx.new }
    ensures bare { ForSome reply.new (λ r. r.1.payload.now ≡ []) }
    ensures fits { ForSome (option_map reply_of reply.new) (λ r. FitsPacket r.0 r.1) }
    ensures touched { Touches sockets.old.bounds sockets.old.slots.items sockets.new.bounds
        sockets.new.slots.items }
    ensures ended { sockets.new.ended ≡ sockets.old.ended }
{
    match taker {
        Taker::Connection(i) => hear_at(sockets, i, cx, false, ip, repr, reply),
        Taker::Listener(i) => hear_at(sockets, i, cx, true, ip, repr, reply),
        Taker::Reopened(i) | Taker::Reused(i) => hear_anew_at(sockets, i, cx, ip, repr, reply),
        Taker::Busy => *reply = None,
        Taker::Nobody => *reply = refuse(ip, repr),
    }
}
