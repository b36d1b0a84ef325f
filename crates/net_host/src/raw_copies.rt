//! A copy of a packet to each raw socket that accepts it.
ghost use Rattle.std.specs.Prelude.{◌≡◌, ◌<◌, length, true, false};
ghost use Rattle.net_host.specs.Filing.{keys_of};
ghost use Rattle.net_host.specs.Indexing.{AreFiled};
ghost use Rattle.net_host.specs.RawCopies.{CopiesPacket, TakesCopy};
ghost use Rattle.net_host.specs.Touching.{Touches};
ghost use Rattle.net_host.specs.Walks.{ChangesAt, ChangesEach};

use crate::filing::raw_key;
use crate::find::next_under;
use crate::slot::Slot;
use crate::touched::touch_if;
use host_bounds::Bounds;
use host_index::Index;
use smoltcp_socket::wire::IpRepr;
use smoltcp_socket::{Context, Socket, raw};
use sock_tcp::TsvalSource;

impl<'a, G: TsvalSource> Slot<'a, G> {
    // Whether it took one.
    fn copy_packet<C: Context>(&mut self, cx: &C, ip: &IpRepr, payload: &[u8]) -> bool
        ensures copied { CopiesPacket (C.facts cx.now) ip.now payload.now self.old self.new }
        ensures same { result ≡ false → self.new ≡ self.old }
    {
        match &mut self.socket {
            Some(Socket::Raw(raw)) => take_copy(raw, cx, ip, payload),
            _ => false,
        }
    }
}

#[tactic(auto, unfolding(crate::specs::RawCopies::TakesCopy))]
fn take_copy<C: Context>(socket: &mut raw::Socket<'_>, cx: &C, ip: &IpRepr, payload: &[u8]) -> bool
    ensures copied { TakesCopy (C.facts cx.now) ip.now payload.now socket.old socket.new }
    ensures same { result ≡ false → socket.new ≡ socket.old }
{
    if !socket.accepts(ip) {
        return false;
    }
    socket.process(cx, ip, payload);
    true
}

// Each raw socket that accepts the packet takes a copy: a walk through all places.
fn copy_packet_to_all<C: Context, G: TsvalSource>(
    slots: &mut Vec<Slot<'_, G>>,
    bounds: &mut Bounds,
    cx: &C,
    ip: &IpRepr,
    payload: &[u8],
)
    ensures copied { ChangesEach (CopiesPacket (C.facts cx.now) ip.now payload.now) slots.old.items slots.new.items }
    ensures touched { Touches bounds.old slots.old.items bounds.new slots.new.items }
    ensures len { length bounds.new ≡ length bounds.old }
{
    for i in 0..slots.len() {
        copy_packet_at(slots, bounds, i, cx, ip, payload);
    }
}

fn copy_packet_at<C: Context, G: TsvalSource>(
    slots: &mut Vec<Slot<'_, G>>,
    bounds: &mut Bounds,
    i: usize,
    cx: &C,
    ip: &IpRepr,
    payload: &[u8],
)
    requires { i < length slots.old.items }
    ensures copied { ChangesAt (CopiesPacket (C.facts cx.now) ip.now payload.now) slots.old.items i slots.new.items }
    ensures touched { Touches bounds.old slots.old.items bounds.new slots.new.items }
    ensures len { length bounds.new ≡ length bounds.old }
{
    let took = slots[i].copy_packet(cx, ip, payload);
    touch_if(bounds, i, took);
}

// A copy for each raw socket, by the places of raw sockets alone, where each place is filed.
fn copy_packet_to_listed<C: Context, G: TsvalSource>(
    slots: &mut Vec<Slot<'_, G>>,
    bounds: &mut Bounds,
    index: &Index,
    cx: &C,
    ip: &IpRepr,
    payload: &[u8],
)
    requires { AreFiled (λ s. keys_of s) slots.old.items index.now.entries }
    ensures copied { ChangesEach (CopiesPacket (C.facts cx.now) ip.now payload.now) slots.old.items slots.new.items }
    ensures touched { Touches bounds.old slots.old.items bounds.new slots.new.items }
    ensures len { length bounds.new ≡ length bounds.old }
{
    let key = raw_key();
    let end = slots.len();
    let mut from = 0;
    while let Some(i) = next_under(index, key, from, end) {
        copy_packet_at(slots, bounds, i, cx, ip, payload);
        from = i + 1;
    }
}

/// Each raw socket that accepts the packet takes a copy. Where each place is filed, the others are not looked at.
// Not inlined, as few hosts have a raw socket.
#[inline(never)]
pub(crate) fn copy_packet_to<C: Context, G: TsvalSource>(
    slots: &mut Vec<Slot<'_, G>>,
    bounds: &mut Bounds,
    index: &Index,
    complete: bool,
    cx: &C,
    ip: &IpRepr,
    payload: &[u8],
)
    requires { complete ≡ true → AreFiled (λ s. keys_of s) slots.old.items index.now.entries }
    ensures copied { ChangesEach (CopiesPacket (C.facts cx.now) ip.now payload.now) slots.old.items slots.new.items }
    ensures touched { Touches bounds.old slots.old.items bounds.new slots.new.items }
    ensures len { length bounds.new ≡ length bounds.old }
{
    if complete {
        copy_packet_to_listed(slots, bounds, index, cx, ip, payload);
    } else {
        copy_packet_to_all(slots, bounds, cx, ip, payload);
    }
}
