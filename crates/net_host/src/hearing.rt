//! A segment arrives at a set of sockets.
ghost use Rattle.std.specs.Prelude.{◌≡◌, ◌<◌, ◌≤◌, ◌+◌, ◌*◌, IfSome, length, [], option_map, slice_get, true, false};
ghost use Rattle.std.specs.Option.{ForSome};
ghost use Rattle.control_wire.specs.Fits.{FitsPacket};
ghost use Rattle.control_wire.specs.Segment.{segment_of};
ghost use Rattle.sock_tcp.specs.Process.{reply_of};
ghost use Rattle.net_host.specs.Asking.{can_take};
ghost use Rattle.net_host.specs.Cookies.{AnswersSegment, BelievedBy, HearsBoth, HearsIf, HearsSyn, IsAgain, OpensOn};
ghost use Rattle.net_host.specs.Cookies.{TakenOn, class_if, course_among, syn_before};
ghost use Rattle.net_host.specs.Crowding.{IsLimited, dropped_if};
ghost use Rattle.net_host.specs.Filing.{keys_of};
ghost use Rattle.net_host.specs.Indexing.{IsSettled};
ghost use Rattle.net_host.specs.Resting.{Rests, anew, is_opening};
ghost use Rattle.net_host.specs.Segments.{IsTaker, TakesSegment, as_is};
ghost use Rattle.net_host.specs.Touching.{Touches};

use crate::answered::hear_out_there;
use crate::asked::Asked;
use crate::cookies::{Course, Told, answer_at, class_if, course_of, opening_of, syn_before};
use crate::crowding::{dropped_if, is_limited};
use crate::filing::connection_key;
use crate::limit::Limit;
use crate::offers::own_of;
use crate::replies::put_reply;
use crate::segments::{Taker, hear_anew_at, hear_at, keep_within, take_segment, who_takes};
use crate::set::SocketSet;
use crate::slot::Slot;
use crate::unsent::pass_at;
use host_cookies::SynCookies;
use smoltcp_socket::Context;
use smoltcp_socket::wire::{IpRepr, TcpRepr};
use sock_tcp::{Reply, TsvalSource};

/// Who takes a segment, and what becomes of it.
#[derive(Debug, Clone, Copy, PartialEq, Eq)]
pub struct Heard {
    pub course: Course,
    pub taker: Taker,
    /// Who takes the SYN before an acknowledgement that may be believed.
    pub again: Taker,
    /// Whether it is dropped, as its source has too many connections.
    pub dropped: bool,
}

fn who_again<C: Context, G: TsvalSource>(
    sockets: &SocketSet<'_, G>,
    cx: &C,
    class: Option<u8>,
    ip: &IpRepr,
    repr: &TcpRepr<'_>,
    asked: &mut Asked,
) -> Taker
    requires { IsSettled (λ s. keys_of s) sockets.now.complete sockets.now.slots.items sockets.now.index.entries
        sockets.now.free }
    ensures again { IsAgain class sockets.now.slots.items ip.now (segment_of repr.now) result }
    ensures asked { sockets.now.complete ≡ true → asked.new.count
        ≤ asked.old.count + (can_take sockets.now.index.entries ip.now (segment_of repr.now) + 3) }
{
    match class {
        Some(class) => who_opens(sockets, cx, class, ip, repr, asked),
        None => Taker::Nobody,
    }
}

// Who takes the SYN before it.
// Not inlined, as few segments come here.
#[inline(never)]
fn who_opens<C: Context, G: TsvalSource>(
    sockets: &SocketSet<'_, G>,
    cx: &C,
    class: u8,
    ip: &IpRepr,
    repr: &TcpRepr<'_>,
    asked: &mut Asked,
) -> Taker
    requires { IsSettled (λ s. keys_of s) sockets.now.complete sockets.now.slots.items sockets.now.index.entries
        sockets.now.free }
    ensures taker { IsTaker sockets.now.slots.items ip.now (syn_before (segment_of repr.now) class) result }
    ensures asked { sockets.now.complete ≡ true → asked.new.count
        ≤ asked.old.count + (can_take sockets.now.index.entries ip.now (segment_of repr.now) + 3) }
{
    let syn = syn_before(repr, class);
    who_takes(sockets, cx, ip, &syn, asked)
}

// The socket at this place hears the SYN, and draws this number. Its SYN|ACK has gone out: that it has told its window,
// and so takes what the peer sends right behind its acknowledgement, the socket learns by a dispatch into nothing.
#[tactic(auto, using(crate::proofs::Touching::touches_then))]
fn open_with<C: Context, G: TsvalSource>(
    sockets: &mut SocketSet<'_, G>,
    i: usize,
    cx: &C,
    number: u32,
    ip: &IpRepr,
    syn: &TcpRepr<'_>,
)
    requires within { i < length sockets.old.slots.items }
    requires accepted { IfSome (slice_get sockets.old.slots.items i) (TakesSegment true ip.now (segment_of syn.now)) }
    requires small { length syn.now.payload.now ≤ 65535 }
    ensures len { length sockets.new.slots.items ≡ length sockets.old.slots.items }
    ensures heard { HearsSyn C.facts C.word_at G.tells as_is sockets.old.slots.items i cx.now number ip.now
        (segment_of syn.now) sockets.new.slots.items }
    ensures touched { Touches sockets.old.bounds sockets.old.slots.items sockets.new.bounds
        sockets.new.slots.items }
    ensures ended { sockets.new.ended ≡ sockets.old.ended }
{
    let mut told = Told { cx, word: number };
    let mut answer = None;
    hear_at(sockets, i, &mut told, true, ip, syn, &mut answer);
    let _ = pass_at(sockets, i, &mut told);
}

// So too a socket in TIME-WAIT, which listens again first.
#[tactic(auto, using(crate::proofs::Touching::touches_then))]
fn open_anew_with<C: Context, G: TsvalSource>(
    sockets: &mut SocketSet<'_, G>,
    i: usize,
    cx: &C,
    number: u32,
    ip: &IpRepr,
    syn: &TcpRepr<'_>,
)
    requires within { i < length sockets.old.slots.items }
    requires opening { is_opening (segment_of syn.now) ≡ true }
    requires rests { IfSome (slice_get sockets.old.slots.items i) (Rests ip.now (segment_of syn.now)) }
    requires small { length syn.now.payload.now ≤ 65535 }
    ensures len { length sockets.new.slots.items ≡ length sockets.old.slots.items }
    ensures heard { HearsSyn C.facts C.word_at G.tells anew sockets.old.slots.items i cx.now number ip.now
        (segment_of syn.now) sockets.new.slots.items }
    ensures touched { Touches sockets.old.bounds sockets.old.slots.items sockets.new.bounds
        sockets.new.slots.items }
    ensures ended { sockets.new.ended ≡ sockets.old.ended }
{
    let mut told = Told { cx, word: number };
    let mut answer = None;
    hear_anew_at(sockets, i, &mut told, ip, syn, &mut answer);
    let _ = pass_at(sockets, i, &mut told);
}

fn takes_there<C: Context, G: TsvalSource>(
    slots: &[Slot<'_, G>],
    i: usize,
    cx: &C,
    ip: &IpRepr,
    repr: &TcpRepr<'_>,
) -> bool
    requires { i < length slots.now }
    ensures yes { result ≡ true → IfSome (slice_get slots.now i) (TakesSegment false ip.now (segment_of repr.now)) }
    ensures no { result ≡ false
        → IfSome (slice_get slots.now i) (λ x. TakesSegment false ip.now (segment_of repr.now) x → ⊥) }
{
    slots[i].takes_segment(cx, false, ip, repr)
}

// The socket at this place hears the segment, if it takes it.
#[tactic(auto, using(crate::proofs::Touching::touches_none))]
fn hear_if<C: Context, G: TsvalSource>(
    sockets: &mut SocketSet<'_, G>,
    i: usize,
    cx: &mut C,
    ip: &IpRepr,
    repr: &TcpRepr<'_>,
) -> Option<Reply>
    requires within { i < length sockets.old.slots.items }
    requires small { length repr.now.payload.now ≤ 65535 }
    ensures heard { HearsIf C.facts C.word_at G.tells sockets.old.slots.items i cx.old ip.now (segment_of repr.now)
        result sockets.new.slots.items cx.new }
    ensures bare { ForSome result (λ r. r.1.payload.now ≡ []) }
    ensures fits { ForSome (option_map reply_of result) (λ r. FitsPacket r.0 r.1) }
    ensures touched { Touches sockets.old.bounds sockets.old.slots.items sockets.new.bounds
        sockets.new.slots.items }
    ensures ended { sockets.new.ended ≡ sockets.old.ended }
{
    let mut reply = None;
    if takes_there(&sockets.slots, i, cx, ip, repr) {
        hear_at(sockets, i, cx, false, ip, repr, &mut reply);
    }
    reply
}

// The socket at this place hears the SYN before the segment, and then the segment.
#[tactic(auto, using(crate::proofs::Touching::touches_then))]
fn hear_both<C: Context, G: TsvalSource>(
    sockets: &mut SocketSet<'_, G>,
    i: usize,
    cx: &mut C,
    class: u8,
    number: u32,
    ip: &IpRepr,
    repr: &TcpRepr<'_>,
) -> Option<Reply>
    requires within { i < length sockets.old.slots.items }
    requires accepted { IfSome (slice_get sockets.old.slots.items i)
        (TakesSegment true ip.now (syn_before (segment_of repr.now) class)) }
    requires small { length repr.now.payload.now ≤ 65535 }
    ensures heard { HearsBoth C.facts C.word_at G.tells as_is sockets.old.slots.items i cx.old class number ip.now
        (segment_of repr.now) result sockets.new.slots.items cx.new }
    ensures bare { ForSome result (λ r. r.1.payload.now ≡ []) }
    ensures fits { ForSome (option_map reply_of result) (λ r. FitsPacket r.0 r.1) }
    ensures touched { Touches sockets.old.bounds sockets.old.slots.items sockets.new.bounds
        sockets.new.slots.items }
    ensures ended { sockets.new.ended ≡ sockets.old.ended }
{
    let syn = syn_before(repr, class);
    open_with(sockets, i, cx, number, ip, &syn);
    hear_if(sockets, i, cx, ip, repr)
}

// So too a socket in TIME-WAIT, which listens again first.
#[tactic(auto, using(crate::proofs::Touching::touches_then))]
fn hear_both_anew<C: Context, G: TsvalSource>(
    sockets: &mut SocketSet<'_, G>,
    i: usize,
    cx: &mut C,
    class: u8,
    number: u32,
    ip: &IpRepr,
    repr: &TcpRepr<'_>,
) -> Option<Reply>
    requires within { i < length sockets.old.slots.items }
    requires rests { IfSome (slice_get sockets.old.slots.items i)
        (Rests ip.now (syn_before (segment_of repr.now) class)) }
    requires small { length repr.now.payload.now ≤ 65535 }
    ensures heard { HearsBoth C.facts C.word_at G.tells anew sockets.old.slots.items i cx.old class number ip.now
        (segment_of repr.now) result sockets.new.slots.items cx.new }
    ensures bare { ForSome result (λ r. r.1.payload.now ≡ []) }
    ensures fits { ForSome (option_map reply_of result) (λ r. FitsPacket r.0 r.1) }
    ensures touched { Touches sockets.old.bounds sockets.old.slots.items sockets.new.bounds
        sockets.new.slots.items }
    ensures ended { sockets.new.ended ≡ sockets.old.ended }
{
    let syn = syn_before(repr, class);
    open_anew_with(sockets, i, cx, number, ip, &syn);
    hear_if(sockets, i, cx, ip, repr)
}

// An acknowledgement is believed.
// Not inlined, as few segments come here.
#[inline(never)]
#[tactic(auto, using(crate::proofs::Touching::touches_none))]
fn believe<C: Context, G: TsvalSource>(
    sockets: &mut SocketSet<'_, G>,
    cx: &mut C,
    again: Taker,
    class: u8,
    number: u32,
    ip: &IpRepr,
    repr: &TcpRepr<'_>,
) -> Option<Reply>
    requires again { IsTaker sockets.old.slots.items ip.now (syn_before (segment_of repr.now) class) again }
    requires small { length repr.now.payload.now ≤ 65535 }
    ensures heard { BelievedBy C.facts C.word_at G.tells again class number sockets.old.slots.items cx.old ip.now
        (segment_of repr.now) result sockets.new.slots.items cx.new }
    ensures bare { ForSome result (λ r. r.1.payload.now ≡ []) }
    ensures fits { ForSome (option_map reply_of result) (λ r. FitsPacket r.0 r.1) }
    ensures touched { Touches sockets.old.bounds sockets.old.slots.items sockets.new.bounds
        sockets.new.slots.items }
    ensures ended { sockets.new.ended ≡ sockets.old.ended }
{
    match again {
        Taker::Listener(i) => hear_both(sockets, i, cx, class, number, ip, repr),
        Taker::Reused(i) => hear_both_anew(sockets, i, cx, class, number, ip, repr),
        _ => None,
    }
}

// The segment goes to its taker, is answered or believed; the reply is written where it is wanted, as
// `hear_at` does.
#[tactic(auto, using(crate::proofs::Touching::touches_none))]
fn take_heard<C: Context, G: TsvalSource>(
    sockets: &mut SocketSet<'_, G>,
    cx: &mut C,
    heard: &Heard,
    ip: &IpRepr,
    repr: &TcpRepr<'_>,
    reply: &mut Option<Reply>,
)
    requires taker { IsTaker sockets.old.slots.items ip.now (segment_of repr.now) heard.now.taker }
    requires opens { OpensOn heard.now.course sockets.old.slots.items ip.now (segment_of repr.now) heard.now.again }
    requires small { length repr.now.payload.now ≤ 65535 }
    ensures taken { TakenOn C.facts C.word_at G.tells heard.now.course heard.now.taker heard.now.again
        sockets.old.slots.items cx.old ip.now (segment_of repr.now) reply.new sockets.new.slots.items cx.new }
    ensures bare { ForSome reply.new (λ r. r.1.payload.now ≡ []) }
    ensures fits { ForSome (option_map reply_of reply.new) (λ r. FitsPacket r.0 r.1) }
    ensures touched { Touches sockets.old.bounds sockets.old.slots.items sockets.new.bounds
        sockets.new.slots.items }
    ensures ended { sockets.new.ended ≡ sockets.old.ended }
{
    match heard.course {
        Course::Plain | Course::Doubted => {
            take_segment(sockets, cx, heard.taker, ip, repr, reply);
        }
        Course::Answered(place, number) => {
            *reply = Some(answer_at(&sockets.slots, place, cx, number, ip, repr));
        }
        Course::Believed(class, number) => {
            let opening = opening_of(repr);
            *reply = believe(sockets, cx, heard.again, class, number, ip, &opening);
        }
        Course::Dropped => *reply = None,
    }
}

// Who takes the segment, and what becomes of it. Asked are at most the sockets that can take it or the SYN before it,
// and six.
fn heard_by<C: Context, G: TsvalSource>(
    sockets: &SocketSet<'_, G>,
    cx: &C,
    cookies: &Option<SynCookies>,
    most: usize,
    ip: &IpRepr,
    repr: &TcpRepr<'_>,
    asked: &mut Asked,
) -> Heard
    requires { IsSettled (λ s. keys_of s) sockets.now.complete sockets.now.slots.items sockets.now.index.entries
        sockets.now.free }
    ensures course { result.course ≡ dropped_if result.dropped (course_among sockets.now.slots.items cookies.now
        result.taker result.again (C.facts cx.now).now ip.now (segment_of repr.now)) }
    ensures dropped { IsLimited most sockets.now.slots.items ip.now (segment_of repr.now) result.taker (course_among
        sockets.now.slots.items cookies.now result.taker result.again (C.facts cx.now).now ip.now
        (segment_of repr.now)) result.dropped }
    ensures taker { IsTaker sockets.now.slots.items ip.now (segment_of repr.now) result.taker }
    ensures again { IsAgain (class_if cookies.now result.taker (C.facts cx.now).now (segment_of repr.now))
        sockets.now.slots.items ip.now (segment_of repr.now) result.again }
    ensures asked { length sockets.now.slots.items ≤ 1073741824 → asked.new.count
        ≤ asked.old.count + 2 * (can_take sockets.now.index.entries ip.now (segment_of repr.now) + 3) }
{
    let taker = who_takes(sockets, cx, ip, repr, asked);
    let class = class_if(cookies, taker, cx, repr);
    let again = who_again(sockets, cx, class, ip, repr, asked);
    let own = own_of(&sockets.slots, taker);
    let course = course_of(cookies, own, taker, again, cx, ip, repr);
    let dropped = is_limited(sockets, most, taker, course, ip, repr);
    Heard {
        course: dropped_if(dropped, course),
        taker,
        again,
        dropped,
    }
}

/// The connection at this place, which takes the segment, hears it: the length of the packet that answers it, at the
/// beginning of `out`, or 0.
#[inline(always)]
#[tactic(auto, using(crate::proofs::KnownAnswers::known_answers))]
pub(crate) fn hear_known<C: Context, G: TsvalSource>(
    sockets: &mut SocketSet<'_, G>,
    i: usize,
    cx: &mut C,
    limit: &mut Limit,
    ip: &IpRepr,
    repr: &TcpRepr<'_>,
    out: &mut [u8],
) -> usize
    requires taker { IsTaker sockets.old.slots.items ip.now (segment_of repr.now) (Taker.Connection i) }
    requires small { length repr.now.payload.now ≤ 65535 }
    requires room { 100 ≤ length out.old }
    ensures within { result ≤ length out.old }
    ensures heard { AnswersSegment C.facts C.word_at G.tells Course.Plain (Taker.Connection i)
        Taker.Nobody sockets.old.slots.items cx.old limit.old ip.now (segment_of repr.now) out.old result
        sockets.new.slots.items cx.new limit.new out.new }
    ensures touched { Touches sockets.old.bounds sockets.old.slots.items sockets.new.bounds
        sockets.new.slots.items }
    ensures ended { sockets.new.ended ≡ sockets.old.ended }
{
    sockets.lend(i);
    hear_out_there(&mut sockets.slots, i, cx, limit, ip, repr, out)
}

/// A segment arrives, and who takes it is looked for: who took it, and the length of the packet that answers it, at the
/// beginning of `out`, or 0.
pub(crate) fn hear_sought<C: Context, G: TsvalSource>(
    sockets: &mut SocketSet<'_, G>,
    cx: &mut C,
    limit: &mut Limit,
    cookies: &Option<SynCookies>,
    most: usize,
    ip: &IpRepr,
    repr: &TcpRepr<'_>,
    out: &mut [u8],
) -> (Heard, usize)
    requires small { length repr.now.payload.now ≤ 65535 }
    requires room { 100 ≤ length out.old }
    ensures within { result.1 ≤ length out.old }
    ensures course { result.0.course ≡ dropped_if result.0.dropped (course_among sockets.old.slots.items cookies.now
        result.0.taker result.0.again (C.facts cx.old).now ip.now (segment_of repr.now)) }
    ensures dropped { IsLimited most sockets.old.slots.items ip.now (segment_of repr.now) result.0.taker (course_among
        sockets.old.slots.items cookies.now result.0.taker result.0.again (C.facts cx.old).now ip.now
        (segment_of repr.now)) result.0.dropped }
    ensures taker { IsTaker sockets.old.slots.items ip.now (segment_of repr.now) result.0.taker }
    ensures again { IsAgain (class_if cookies.now result.0.taker (C.facts cx.old).now (segment_of repr.now))
        sockets.old.slots.items ip.now (segment_of repr.now) result.0.again }
    ensures heard { AnswersSegment C.facts C.word_at G.tells result.0.course result.0.taker result.0.again
        sockets.old.slots.items cx.old limit.old ip.now (segment_of repr.now) out.old result.1 sockets.new.slots.items
        cx.new limit.new out.new }
    ensures touched { Touches sockets.old.bounds sockets.old.slots.items sockets.new.bounds
        sockets.new.slots.items }
    ensures ended { sockets.new.ended ≡ sockets.old.ended }
{
    let caps = cx.checksum_caps();
    let now = cx.now();
    sockets.settle_for(connection_key(&ip.src_addr(), repr.dst_port, repr.src_port));
    let mut asked = Asked::none();
    let heard = heard_by(sockets, cx, cookies, most, ip, repr, &mut asked);
    let mut reply = None;
    take_heard(sockets, cx, &heard, ip, repr, &mut reply);
    keep_within(limit, now, ip, &mut reply);
    let len = put_reply(&reply, out, &caps);
    (heard, len)
}
