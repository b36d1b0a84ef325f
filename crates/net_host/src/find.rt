//! Walks through the places under a key.
ghost use Rattle.std.specs.Prelude.{◌≡◌, ◌↔◌, ◌≤◌, ◌+◌, IfSome, IsTrue, nat_lt, if◌then◌else◌, Some, None, true};
ghost use Rattle.control_wire.specs.Segment.{segment_of};
ghost use Rattle.host_index.specs.Entries.{IsSortedByRank, Splits, rank};
ghost use Rattle.net_host.specs.Asking.{resting, under};
ghost use Rattle.net_host.specs.Entries.{FindsEarliestListed, FindsListed, FindsUnder, IsFirstListed};
ghost use Rattle.net_host.specs.Filing.{rest_major};
ghost use Rattle.net_host.specs.Finding.{Fits, RestsAt, with_minor};
ghost use Rattle.net_host.specs.Resting.{RestsUntil};
ghost use Rattle.net_host.specs.Sides.{IsSide, IsSideOf};

use crate::asked::Asked;
use crate::filing::{order, rest_major};
use crate::slot::Slot;
use host_index::{Entry, Index};
use smoltcp_socket::Context;
use smoltcp_socket::time::Instant;
use smoltcp_socket::wire::{IpRepr, TcpRepr};
use sock_tcp::TsvalSource;

/// What is looked for, for a segment.
#[derive(Debug, Clone, Copy, PartialEq, Eq)]
pub enum Sought {
    /// A connection that accepts it.
    Connection,
    /// A socket that listens and accepts it.
    Listener,
    /// A socket that serves its port.
    Server,
}

/// Where an entry stands, seen from those under a key.
#[derive(Debug, Clone, Copy, PartialEq, Eq)]
pub enum Side {
    Before,
    Under,
    Behind,
}

pub(crate) fn stands(entry: Entry, key: Entry) -> Side
    requires { key.place ≡ 0 }
    ensures { IsSide entry key result }
{
    if entry.major < key.major || entry.major == key.major && entry.minor < key.minor {
        return Side::Before;
    }
    if entry.major == key.major && entry.minor == key.minor {
        return Side::Under;
    }
    Side::Behind
}

fn stands_of(entry: Entry, major: u128) -> Side
    ensures { IsSideOf entry major result }
{
    if entry.major < major {
        return Side::Before;
    }
    if entry.major == major {
        return Side::Under;
    }
    Side::Behind
}

impl<'a, G: TsvalSource> Slot<'a, G> {
    pub(crate) fn fits<C: Context>(
        &self,
        cx: &C,
        sought: Sought,
        ip: &IpRepr,
        repr: &TcpRepr<'_>,
    ) -> bool
        ensures { IsTrue result ↔ Fits sought ip.now (segment_of repr.now) self.now }
    {
        match sought {
            Sought::Connection => self.takes_segment(cx, false, ip, repr),
            Sought::Listener => self.takes_segment(cx, true, ip, repr),
            Sought::Server => self.serves(ip, repr),
        }
    }
}

/// The first place under the key, where that is known and its socket fits.
#[inline(always)]
#[tactic(auto, using(crate::proofs::Runs::known_fits))]
pub(crate) fn known_in<C: Context, G: TsvalSource>(
    slots: &[Slot<'_, G>],
    index: &Index,
    key: Entry,
    cx: &C,
    sought: Sought,
    ip: &IpRepr,
    repr: &TcpRepr<'_>,
    asked: &mut Asked,
) -> Option<usize>
    requires { key.place ≡ 0 }
    ensures first { IfSome result
        (λ i. IsFirstListed (Fits sought ip.now (segment_of repr.now)) slots.now index.now.entries key i) }
    ensures asked { asked.new.count ≤ asked.old.count + 1 }
{
    match index.known(key) {
        Some(place) => {
            if asked.fits_at(slots, place, cx, sought, ip, repr) {
                Some(place)
            } else {
                None
            }
        }
        None => None,
    }
}

/// The first place under the key whose socket fits.
#[inline(always)]
pub(crate) fn first_in<C: Context, G: TsvalSource>(
    slots: &[Slot<'_, G>],
    index: &Index,
    key: Entry,
    cx: &C,
    sought: Sought,
    ip: &IpRepr,
    repr: &TcpRepr<'_>,
    asked: &mut Asked,
) -> Option<usize>
    requires { key.place ≡ 0 }
    ensures found { FindsListed (Fits sought ip.now (segment_of repr.now)) slots.now index.now.entries key result }
    ensures asked { asked.new.count ≤ asked.old.count + (under index.now.entries key + 1) }
{
    match known_in(slots, index, key, cx, sought, ip, repr, asked) {
        Some(place) => Some(place),
        None => first_from(
            slots,
            index,
            index.lower(key),
            key,
            cx,
            sought,
            ip,
            repr,
            asked,
        ),
    }
}

/// The first slot under a key that takes the segment, where each entry mostly stands behind the key, as where nothing
/// listens: that is seen by one look.
#[inline(always)]
#[tactic(auto, using(crate::proofs::Runs::none_listed))]
pub(crate) fn first_if_any<C: Context, G: TsvalSource>(
    slots: &[Slot<'_, G>],
    index: &Index,
    key: Entry,
    cx: &C,
    sought: Sought,
    ip: &IpRepr,
    repr: &TcpRepr<'_>,
    asked: &mut Asked,
) -> Option<usize>
    requires { key.place ≡ 0 }
    ensures found { FindsListed (Fits sought ip.now (segment_of repr.now)) slots.now index.now.entries key result }
    ensures asked { asked.new.count ≤ asked.old.count + (under index.now.entries key + 1) }
{
    let _count = slots.len(); // for its bound
    if index.is_behind(key) {
        return None;
    }
    first_in(slots, index, key, cx, sought, ip, repr, asked)
}

/// The first slot under a key that takes the segment, where the key was sought, and the first slot under it is not
/// known or does not fit.
#[inline(always)]
pub(crate) fn first_sought<C: Context, G: TsvalSource>(
    slots: &[Slot<'_, G>],
    index: &Index,
    key: Entry,
    cx: &C,
    sought: Sought,
    ip: &IpRepr,
    repr: &TcpRepr<'_>,
    asked: &mut Asked,
) -> Option<usize>
    requires { key.place ≡ 0 }
    ensures found { FindsListed (Fits sought ip.now (segment_of repr.now)) slots.now index.now.entries key result }
    ensures asked { asked.new.count ≤ asked.old.count + under index.now.entries key }
{
    let from = index.lower(key);
    first_from(slots, index, from, key, cx, sought, ip, repr, asked)
}

// The first slot under the key that takes the segment, from where the entries under it begin.
#[inline(always)]
fn first_from<C: Context, G: TsvalSource>(
    slots: &[Slot<'_, G>],
    index: &Index,
    from: usize,
    key: Entry,
    cx: &C,
    sought: Sought,
    ip: &IpRepr,
    repr: &TcpRepr<'_>,
    asked: &mut Asked,
) -> Option<usize>
    requires key { key.place ≡ 0 }
    requires splits { Splits index.now.entries (rank key) from }
    requires sorted { IsSortedByRank index.now.entries }
    ensures found { FindsListed (Fits sought ip.now (segment_of repr.now)) slots.now index.now.entries key result }
    ensures asked { asked.new.count ≤ asked.old.count + under index.now.entries key }
{
    let _count = slots.len(); // for its bound
    for p in from..index.len() {
        let entry = index.get(p);
        match stands(entry, key) {
            Side::Before => {}
            Side::Under => {
                if asked.fits_at(slots, entry.place, cx, sought, ip, repr) {
                    return Some(entry.place);
                }
            }
            Side::Behind => return None,
        }
    }
    None
}

/// The place that rests until the earliest moment, of those in TIME-WAIT that listened for the segment.
pub(crate) fn earliest_in<G: TsvalSource>(
    slots: &[Slot<'_, G>],
    index: &Index,
    ip: &IpRepr,
    repr: &TcpRepr<'_>,
    asked: &mut Asked,
) -> Option<(usize, Instant)>
    ensures found { FindsEarliestListed (λ t x. RestsUntil ip.now (segment_of repr.now) t x) slots.now
        index.now.entries (rest_major repr.now.dst_port) result }
    ensures asked { asked.new.count ≤ asked.old.count + resting index.now.entries repr.now.dst_port }
{
    let _count = slots.len(); // for its bound
    let major = rest_major(repr.dst_port);
    let key = Entry {
        major,
        minor: 0,
        place: 0,
    };
    let start = index.lower(key);
    for p in start..index.len() {
        let entry = index.get(p);
        match stands_of(entry, major) {
            Side::Before => {}
            Side::Under => {
                if let Some(until) = rests_at(slots, entry, ip, repr, asked) {
                    return Some((entry.place, until));
                }
            }
            Side::Behind => return None,
        }
    }
    None
}

// Until when the socket rests that the entry leads to, where the entry says the same.
fn rests_at<G: TsvalSource>(
    slots: &[Slot<'_, G>],
    entry: Entry,
    ip: &IpRepr,
    repr: &TcpRepr<'_>,
    asked: &mut Asked,
) -> Option<Instant>
    ensures rests { RestsAt ip.now (segment_of repr.now) slots.now entry result }
    ensures asked { asked.new.count ≤ asked.old.count + 1 }
{
    match slots.get(entry.place) {
        None => None,
        Some(slot) => match asked.rests_until(slot, ip, repr) {
            None => None,
            Some(until) => has_minor(order(until), entry.minor, until),
        },
    }
}

// The place, where it is before the end.
fn if_before(place: usize, end: usize) -> Option<usize>
    ensures { result ≡ (if nat_lt place end then Some place else None) }
{
    if place < end { Some(place) } else { None }
}

/// The first place from one on, and before another, that has an entry under the key.
pub(crate) fn next_under(index: &Index, key: Entry, start: usize, end: usize) -> Option<usize>
    requires { key.place ≡ 0 }
    ensures { FindsUnder index.now.entries key start end result }
{
    let p = index.lower(Entry {
        major: key.major,
        minor: key.minor,
        place: start,
    });
    if index.len() <= p {
        return None;
    }
    let entry = index.get(p);
    match stands(entry, key) {
        Side::Before => None,
        Side::Under => if_before(entry.place, end),
        Side::Behind => None,
    }
}

fn has_minor(order: Option<u64>, minor: u64, until: Instant) -> Option<Instant>
    ensures { result ≡ with_minor order minor until }
{
    match order {
        Some(order) if order == minor => Some(until),
        _ => None,
    }
}
