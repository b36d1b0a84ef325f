//! Which socket takes a UDP datagram, and what becomes of it.
ghost use Rattle.std.specs.Prelude.{◌≡◌, ◌↔◌, ◌<◌, IsTrue, IfSome, length, slice_get, Some};
ghost use Rattle.net_host.specs.Datagrams.{HeardBy, Hears, TakesDatagram};
ghost use Rattle.net_host.specs.Entries.{FindsListed};
ghost use Rattle.net_host.specs.Walks.{Finds, IsAt};

use crate::find::{Side, stands};
use crate::slot::Slot;
use host_index::{Entry, Index};
use smoltcp_socket::wire::{IpRepr, UdpRepr};
use smoltcp_socket::{Context, Socket};
use sock_tcp::TsvalSource;

impl<'a, G: TsvalSource> Slot<'a, G> {
    fn takes_datagram<C: Context>(&self, cx: &C, ip: &IpRepr, repr: &UdpRepr) -> bool
        ensures { IsTrue result ↔ TakesDatagram (C.facts cx.now) ip.now repr.now self.now }
    {
        match &self.socket {
            Some(Socket::Udp(udp)) => udp.accepts(cx, ip, repr),
            _ => false,
        }
    }

    // Whether there was room for it.
    fn hear_datagram<C: Context>(
        &mut self,
        cx: &C,
        ip: &IpRepr,
        repr: &UdpRepr,
        payload: &[u8],
    ) -> bool
        requires { TakesDatagram (C.facts cx.now) ip.now repr.now self.old }
        ensures { Hears ip.now repr.now payload.now result self.old self.new }
    {
        match &mut self.socket {
            Some(Socket::Udp(udp)) => udp.queue_datagram(ip, repr, payload),
            _ => true,
        }
    }
}

/// The first socket that takes the datagram, in the order of handles.
pub(crate) fn first_for_datagram<C: Context, G: TsvalSource>(
    slots: &[Slot<'_, G>],
    cx: &C,
    ip: &IpRepr,
    repr: &UdpRepr,
) -> Option<usize>
    ensures { Finds (TakesDatagram (C.facts cx.now) ip.now repr.now) slots.now result }
{
    for (i, slot) in slots.iter().enumerate() {
        if slot.takes_datagram(cx, ip, repr) {
            return Some(i);
        }
    }
    None
}

fn hear_datagram_at<C: Context, G: TsvalSource>(
    slots: &mut Vec<Slot<'_, G>>,
    i: usize,
    cx: &C,
    ip: &IpRepr,
    repr: &UdpRepr,
    payload: &[u8],
) -> bool
    requires within { i < length slots.old.items }
    requires accepted { IfSome (slice_get slots.old.items i) (TakesDatagram (C.facts cx.now) ip.now repr.now) }
    ensures { HeardBy (Some i) slots.old.items ip.now repr.now payload.now result slots.new.items }
{
    slots[i].hear_datagram(cx, ip, repr, payload)
}

/// The datagram goes to the first socket that takes it, if any. Whether there was room for it there.
pub(crate) fn hear_found<C: Context, G: TsvalSource>(
    slots: &mut Vec<Slot<'_, G>>,
    found: Option<usize>,
    cx: &C,
    ip: &IpRepr,
    repr: &UdpRepr,
    payload: &[u8],
) -> bool
    requires { Finds (TakesDatagram (C.facts cx.now) ip.now repr.now) slots.old.items found }
    ensures { HeardBy found slots.old.items ip.now repr.now payload.now result slots.new.items }
{
    match found {
        Some(i) => hear_datagram_at(slots, i, cx, ip, repr, payload),
        None => true,
    }
}

fn takes_at<C: Context, G: TsvalSource>(
    slots: &[Slot<'_, G>],
    place: usize,
    cx: &C,
    ip: &IpRepr,
    repr: &UdpRepr,
) -> bool
    ensures { IsTrue result ↔ IsAt (TakesDatagram (C.facts cx.now) ip.now repr.now) slots.now place }
{
    match slots.get(place) {
        Some(slot) => slot.takes_datagram(cx, ip, repr),
        None => false,
    }
}

/// The first place under the key whose socket takes the datagram.
pub(crate) fn first_under<C: Context, G: TsvalSource>(
    slots: &[Slot<'_, G>],
    index: &Index,
    key: Entry,
    cx: &C,
    ip: &IpRepr,
    repr: &UdpRepr,
) -> Option<usize>
    requires { key.place ≡ 0 }
    ensures { FindsListed (TakesDatagram (C.facts cx.now) ip.now repr.now) slots.now index.now.entries key
        result }
{
    let _count = slots.len(); // for its bound
    for p in index.lower(key)..index.len() {
        let entry = index.get(p);
        match stands(entry, key) {
            Side::Before => {}
            Side::Under => {
                if takes_at(slots, entry.place, cx, ip, repr) {
                    return Some(entry.place);
                }
            }
            Side::Behind => return None,
        }
    }
    None
}
