//! Guards look at sockets that may want to be asked by now, up to the first that is due.
ghost use Rattle.std.specs.Prelude.{ℕ, None, ◌≡◌, ◌<◌, ◌<ℤ◌, ◌≤◌, IfSome, length, slice_get, slice_set, false, true};
ghost use Rattle.host_bounds.specs.Bounding.{KeepsBut, at_once, bound_at};
ghost use Rattle.sock_core.specs.Bounds.{IsMoment};
ghost use Rattle.sock_core.specs.declared.context.PollAt.TheVariants.{Time};
ghost use Rattle.sock_tcp.specs.View.{moment_of};
ghost use Rattle.net_host.specs.Looking.{LooksIn, LooksNext, asked_under, bound_of, is_seen};
ghost use Rattle.net_host.specs.Telling.{TellsEnds};
ghost use Rattle.net_host.specs.Touching.{NoneIsMarked, UnmarksIn};
ghost use Rattle.net_host.specs.Turns.{Watches, asked_of, is_due};
ghost use Rattle.net_host.specs.Walks.{ChangesAt};

use crate::lent_turns::watch_at;
use crate::limits::Limits;
use crate::set::SocketSet;
use crate::slot::Slot;
use crate::turn::is_reached;
use smoltcp_socket::time::Instant;
use smoltcp_socket::{Context, PollAt};
use sock_tcp::TsvalSource;

// The bound of a socket that asks for now: a mark is the least, and says that the socket may have changed.
pub(crate) const SOONEST: i64 = i64::MIN + 1;

/// A moment before which a socket need not be asked that asks for this one.
pub(crate) fn bound_of(poll: PollAt) -> i64
    ensures value { result ≡ bound_of poll }
    ensures later { at_once <ℤ result }
{
    match poll {
        PollAt::Now => SOONEST,
        PollAt::Time(at) => bound_by(at),
        PollAt::Ingress => i64::MAX,
    }
}

fn bound_by(at: Instant) -> i64
    ensures value { result ≡ bound_of (Time at) }
    ensures later { at_once <ℤ result }
{
    if i64::MAX <= at.micros {
        return i64::MAX - 1;
    }
    if SOONEST < at.micros {
        at.micros
    } else {
        SOONEST
    }
}

impl<'a, G: TsvalSource> Slot<'a, G> {
    // When the socket wants to speak, and whether it may and wants to now.
    fn asks<C: Context>(&self, cx: &C) -> (PollAt, bool)
        ensures asked { result.0 ≡ asked_of self.now.guard.phase self.now.guard.end self.now.guard.last
            self.now.socket (C.facts cx.now) }
        ensures due { result.1 ≡ is_due (C.facts cx.now) self.now }
    {
        let now = cx.now();
        let asked = self.asked(cx);
        (
            asked,
            is_reached(asked, now) && self.guard.may_take_turn(now),
        )
    }
}

fn asks_at<C: Context, G: TsvalSource>(slots: &[Slot<'_, G>], i: usize, cx: &C) -> (PollAt, bool)
    requires { i < length slots.now }
    ensures asked { IfSome (slice_get slots.now i) (λ s. result.0 ≡ asked_of s.guard.phase s.guard.end s.guard.last
        s.socket (C.facts cx.now)) }
    ensures due { IfSome (slice_get slots.now i) (λ s. result.1 ≡ is_due (C.facts cx.now) s) }
{
    slots[i].asks(cx)
}

// It need not be asked before the moment that it asks for.
fn put_off<G: TsvalSource>(sockets: &mut SocketSet<'_, G>, i: usize, asked: PollAt)
    requires within { i < length sockets.old.slots.items }
    requires seen { IfSome (slice_get sockets.old.slots.items i) (λ s. is_seen sockets.old.terms.guards s ≡ true) }
    requires asked { IfSome (slice_get sockets.old.slots.items i) (λ s. asked ≡ asked_under sockets.old.terms.mtu s) }
    ensures slots { sockets.new.slots ≡ sockets.old.slots }
    ensures terms { sockets.new.terms ≡ sockets.old.terms }
    ensures ended { sockets.new.ended ≡ sockets.old.ended }
    ensures bounds { sockets.new.bounds ≡ slice_set sockets.old.bounds i (bound_of asked) }
    ensures later { at_once <ℤ bound_of asked }
{
    sockets.bounds.set(i, bound_of(asked));
}

// The guard at this place has looked: it need not be asked before the moment that its socket asks for, unless that is
// due, as it has its turn then. Whether it is.
#[inline(always)]
fn note_at<C: Context, G: TsvalSource>(sockets: &mut SocketSet<'_, G>, i: usize, cx: &C) -> bool
    requires within { i < length sockets.old.slots.items }
    requires mtu { sockets.old.terms.mtu ≡ (C.facts cx.now).mtu }
    requires seen { IfSome (slice_get sockets.old.slots.items i) (λ s. is_seen sockets.old.terms.guards s ≡ true) }
    ensures slots { sockets.new.slots ≡ sockets.old.slots }
    ensures terms { sockets.new.terms ≡ sockets.old.terms }
    ensures due { IfSome (slice_get sockets.old.slots.items i) (λ s. result ≡ is_due (C.facts cx.now) s) }
    ensures ended { sockets.new.ended ≡ sockets.old.ended }
    ensures bounds { KeepsBut i sockets.old.bounds sockets.new.bounds }
    ensures later { result ≡ false → at_once <ℤ bound_at sockets.new.bounds i }
{
    let (asked, due) = asks_at(&sockets.slots, i, cx);
    if due {
        return true;
    }
    put_off(sockets, i, asked);
    false
}

fn is_idle_at<G: TsvalSource>(
    slots: &[Slot<'_, G>],
    i: usize,
    limits: &Limits,
    now: Instant,
) -> bool
    requires within { i < length slots.now }
    requires moment { IsMoment now.micros }
    ensures looked { result ≡ true → IfSome (slice_get slots.now i) (λ s. Watches limits.now now s s) }
    ensures seen { result ≡ true → IfSome (slice_get slots.now i) (λ s. is_seen limits.now s ≡ true) }
{
    slots[i].is_idle(limits, now)
}

// The guard at this place looks, where that may change something.
fn watch_unless_idle<G: TsvalSource>(sockets: &mut SocketSet<'_, G>, i: usize, now: Instant)
    requires within { i < length sockets.old.slots.items }
    requires moment { IsMoment now.micros }
    ensures looked { ChangesAt (Watches sockets.old.terms.guards now) sockets.old.slots.items i
        sockets.new.slots.items }
    ensures terms { sockets.new.terms ≡ sockets.old.terms }
    ensures seen { IfSome (slice_get sockets.new.slots.items i) (λ s. is_seen sockets.old.terms.guards s ≡ true) }
    ensures bounds { KeepsBut i sockets.old.bounds sockets.new.bounds }
    ensures ends { TellsEnds sockets.old.slots.items sockets.old.ended sockets.new.slots.items sockets.new.ended }
{
    if !is_idle_at(&sockets.slots, i, &sockets.terms.guards, now) {
        watch_at(sockets, i, now);
    }
}

// The guard at this place looks. Whether its socket is due then. Not inlined, so that a search that finds nobody saves
// few registers.
#[inline(never)]
fn look_at<C: Context, G: TsvalSource>(sockets: &mut SocketSet<'_, G>, i: usize, cx: &C) -> bool
    requires within { i < length sockets.old.slots.items }
    requires mtu { sockets.old.terms.mtu ≡ (C.facts cx.now).mtu }
    ensures looked { ChangesAt (Watches sockets.old.terms.guards (moment_of (C.facts cx.now))) sockets.old.slots.items
        i sockets.new.slots.items }
    ensures terms { sockets.new.terms ≡ sockets.old.terms }
    ensures due { IfSome (slice_get sockets.new.slots.items i) (λ s. result ≡ is_due (C.facts cx.now) s) }
    ensures bounds { KeepsBut i sockets.old.bounds sockets.new.bounds }
    ensures later { result ≡ false → at_once <ℤ bound_at sockets.new.bounds i }
    ensures ends { TellsEnds sockets.old.slots.items sockets.old.ended sockets.new.slots.items sockets.new.ended }
{
    watch_unless_idle(sockets, i, cx.now());
    note_at(sockets, i, cx)
}

// Guards look at the sockets that may want to be asked by now, from one place on and before another, up to the first
// that is due.
#[inline(always)]
fn due_between<C: Context, G: TsvalSource>(
    sockets: &mut SocketSet<'_, G>,
    cx: &C,
    start: usize,
    end: usize,
) -> Option<usize>
    requires within { end ≤ length sockets.old.slots.items }
    requires mtu { sockets.old.terms.mtu ≡ (C.facts cx.now).mtu }
    ensures looked { LooksIn (C.facts cx.now) sockets.old.terms.guards start end sockets.old.slots.items result
        sockets.new.slots.items }
    ensures unmarked { result ≡ None → UnmarksIn start end sockets.old.bounds sockets.new.bounds }
    ensures terms { sockets.new.terms ≡ sockets.old.terms }
    ensures ends { TellsEnds sockets.old.slots.items sockets.old.ended sockets.new.slots.items sockets.new.ended }
{
    let now = cx.now().micros;
    let mut from = start;
    while let Some(i) = sockets.bounds.next(from, end, now) {
        if look_at(sockets, i, cx) {
            return Some(i);
        }
        from = i + 1;
    }
    None
}

/// The next slot that is due, in turn: from the slot whose turn it is on, and then before it.
pub(crate) fn next_due<C: Context, G: TsvalSource>(
    sockets: &mut SocketSet<'_, G>,
    cx: &C,
    turn: usize,
) -> Option<usize>
    requires { sockets.old.terms.mtu ≡ (C.facts cx.now).mtu }
    ensures looked { LooksNext (C.facts cx.now) sockets.old.terms.guards turn sockets.old.slots.items result
        sockets.new.slots.items }
    ensures unmarked { result ≡ None → NoneIsMarked sockets.new.bounds }
    ensures terms { sockets.new.terms ≡ sockets.old.terms }
    ensures ends { TellsEnds sockets.old.slots.items sockets.old.ended sockets.new.slots.items sockets.new.ended }
{
    if sockets.bounds.are_after(cx.now().micros) {
        return None;
    }
    let count = sockets.slots.len();
    let start = turn.min(count);
    match due_between(sockets, cx, start, count) {
        Some(i) => Some(i),
        None => due_between(sockets, cx, 0, start),
    }
}
