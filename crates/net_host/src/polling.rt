//! When the first of the sockets wants to speak.
ghost use Rattle.std.specs.Prelude.{◌≡◌, ◌<◌, ◌<ℤ◌, IfSome, length, slice_get};
ghost use Rattle.host_bounds.specs.Bounding.{IsBelowAll};
ghost use Rattle.sock_tcp.specs.Polls.{earlier};
ghost use Rattle.net_host.specs.Looking.{is_at_most, soonest};
ghost use Rattle.net_host.specs.Speaking.{earliest};
ghost use Rattle.net_host.specs.Turns.{slot_poll};

use crate::looking::SOONEST;
use crate::set::SocketSet;
use crate::slot::Slot;
use smoltcp_socket::time::Instant;
use smoltcp_socket::{Context, PollAt};
use sock_tcp::TsvalSource;

/// When the first of the sockets wants to speak.
pub(crate) fn earliest<C: Context, G: TsvalSource>(sockets: &SocketSet<'_, G>, cx: &C) -> PollAt
    ensures { result ≡ earliest (C.facts cx.now) sockets.now.slots.items }
{
    match by_bounds(sockets, cx) {
        Some(poll) => poll,
        None => walk_for_earliest(&sockets.slots, cx),
    }
}

// The least bound, where it is still to come: a socket asks for it, and none for an earlier moment. Else what a socket
// with the least bound asks for.
fn by_bounds<C: Context, G: TsvalSource>(sockets: &SocketSet<'_, G>, cx: &C) -> Option<PollAt>
    ensures { IfSome result (λ p. p ≡ earliest (C.facts cx.now) sockets.now.slots.items) }
{
    let least = sockets.bounds.least();
    if least <= SOONEST || sockets.terms.mtu != cx.ip_mtu() {
        return None;
    }
    if cx.now().micros < least && least < i64::MAX - 1 {
        return Some(PollAt::Time(Instant { micros: least }));
    }
    let i = sockets.bounds.next(0, sockets.bounds.len(), least)?;
    at_bound(sockets, i, least, cx)
}

fn poll_there<C: Context, G: TsvalSource>(slots: &[Slot<'_, G>], i: usize, cx: &C) -> PollAt
    requires { i < length slots.now }
    ensures { IfSome (slice_get slots.now i) (λ s. result ≡ slot_poll s (C.facts cx.now)) }
{
    slots[i].poll_at(cx)
}

// When the socket at the place with the least bound wants to be asked.
fn at_bound<C: Context, G: TsvalSource>(
    sockets: &SocketSet<'_, G>,
    i: usize,
    least: i64,
    cx: &C,
) -> Option<PollAt>
    requires within { i < length sockets.now.slots.items }
    requires mtu { sockets.now.terms.mtu ≡ (C.facts cx.now).mtu }
    requires clear { soonest <ℤ least }
    requires least { IsBelowAll least sockets.now.bounds }
    ensures { IfSome result (λ p. p ≡ earliest (C.facts cx.now) sockets.now.slots.items) }
{
    let poll = poll_there(&sockets.slots, i, cx);
    if is_at_most(poll, least) {
        return Some(poll);
    }
    None
}

fn is_at_most(poll: PollAt, least: i64) -> bool
    ensures { result ≡ is_at_most poll least }
{
    match poll {
        PollAt::Now => false,
        PollAt::Time(at) => at.micros <= least,
        PollAt::Ingress => i64::MAX <= least,
    }
}

fn walk_for_earliest<C: Context, G: TsvalSource>(slots: &[Slot<'_, G>], cx: &C) -> PollAt
    ensures { result ≡ earliest (C.facts cx.now) slots.now }
{
    slots
        .iter()
        .fold(PollAt::Ingress, |first: PollAt, slot: &Slot<'_, G>| {
            earlier(first, slot.poll_at(cx))
        })
}

fn earlier(poll: PollAt, other: PollAt) -> PollAt
    ensures { result ≡ earlier poll other }
{
    match (poll, other) {
        (PollAt::Now, _) | (_, PollAt::Now) => PollAt::Now,
        (PollAt::Ingress, _) => other,
        (_, PollAt::Ingress) => poll,
        (PollAt::Time(at), PollAt::Time(then)) => {
            PollAt::Time(if at.micros <= then.micros { at } else { then })
        }
    }
}
