//! What sockets of the other kinds take, in a set with an index.
ghost use Rattle.std.specs.Prelude.{ℕ, ◌≡◌, IfNone, IfSome, length, slice_get, slice_set, true, false};
ghost use Rattle.host_bounds.specs.Bounding.{at_once};
ghost use Rattle.net_host.specs.Datagrams.{HeardBy, TakesDatagram};
ghost use Rattle.net_host.specs.Filing.{keys_of};
ghost use Rattle.net_host.specs.Indexing.{IsSettled};
ghost use Rattle.net_host.specs.Messages.{Copies, mail_of};
ghost use Rattle.net_host.specs.RawCopies.{CopiesPacket, is_raw};
ghost use Rattle.net_host.specs.Touching.{Touches};
ghost use Rattle.net_host.specs.Walks.{ChangesEach, Finds};

use crate::datagrams::{first_for_datagram, first_under, hear_found};
use crate::filing::{raw_key, udp_key};
use crate::messages::{Mail, copy_to};
use crate::raw_copies::copy_packet_to;
use crate::set::SocketSet;
use host_bounds::Bounds;
use smoltcp_socket::Context;
use smoltcp_socket::wire::{IpRepr, UdpRepr};
use sock_tcp::TsvalSource;

// Whether no socket is a raw one, by one look at the index. Where the answer is no, it says nothing.
fn has_no_raw<G: TsvalSource>(sockets: &SocketSet<'_, G>) -> bool
    requires { IsSettled (λ s. keys_of s) sockets.now.complete sockets.now.slots.items sockets.now.index.entries
        sockets.now.free }
    ensures { result ≡ true → (k : ℕ) → IfSome (slice_get sockets.now.slots.items k) (λ s. is_raw s ≡ false) }
{
    let _count = sockets.slots.len(); // for its bound
    sockets.complete && sockets.index.is_behind(raw_key())
}

/// Each raw socket that accepts the packet takes a copy.
#[inline(always)]
pub(crate) fn copy_packet<C: Context, G: TsvalSource>(
    sockets: &mut SocketSet<'_, G>,
    cx: &C,
    ip: &IpRepr,
    payload: &[u8],
)
    ensures copied { ChangesEach (CopiesPacket (C.facts cx.now) ip.now payload.now) sockets.old.slots.items
        sockets.new.slots.items }
    ensures touched { Touches sockets.old.bounds sockets.old.slots.items sockets.new.bounds
        sockets.new.slots.items }
    ensures ended { sockets.new.ended ≡ sockets.old.ended }
{
    sockets.settle(); // a place that was lent may have a raw socket now
    if has_no_raw(sockets) {
        return;
    }
    sockets.settled = false;
    let complete = sockets.complete;
    copy_packet_to(
        &mut sockets.slots,
        &mut sockets.bounds,
        &sockets.index,
        complete,
        cx,
        ip,
        payload,
    );
}

/// Each ICMP socket that accepts the message takes a copy.
pub(crate) fn copy_mail<C: Context, G: TsvalSource>(
    sockets: &mut SocketSet<'_, G>,
    cx: &C,
    mail: &Mail<'_>,
)
    ensures copied { ChangesEach (Copies (C.facts cx.now) (mail_of mail.now)) sockets.old.slots.items
        sockets.new.slots.items }
    ensures touched { Touches sockets.old.bounds sockets.old.slots.items sockets.new.bounds
        sockets.new.slots.items }
    ensures ended { sockets.new.ended ≡ sockets.old.ended }
{
    sockets.settle();
    sockets.settled = false;
    let complete = sockets.complete;
    copy_to(
        &mut sockets.slots,
        &mut sockets.bounds,
        &sockets.index,
        complete,
        cx,
        mail,
    );
}

// The first socket that takes the datagram, by the index where it is complete.
fn datagram_taker<C: Context, G: TsvalSource>(
    sockets: &SocketSet<'_, G>,
    cx: &C,
    ip: &IpRepr,
    repr: &UdpRepr,
) -> Option<usize>
    requires { IsSettled (λ s. keys_of s) sockets.now.complete sockets.now.slots.items sockets.now.index.entries
        sockets.now.free }
    ensures { Finds (TakesDatagram (C.facts cx.now) ip.now repr.now) sockets.now.slots.items result }
{
    if sockets.complete {
        let key = udp_key(repr.dst_port);
        first_under(&sockets.slots, &sockets.index, key, cx, ip, repr)
    } else {
        first_for_datagram(&sockets.slots, cx, ip, repr)
    }
}

// The place that is found, if any, is to be asked at once.
fn touch_found(bounds: &mut Bounds, found: Option<usize>)
    ensures found { IfSome found (λ i. bounds.new ≡ slice_set bounds.old i at_once) }
    ensures none { IfNone found (bounds.new ≡ bounds.old) }
    ensures len { length bounds.new ≡ length bounds.old }
{
    if let Some(i) = found {
        bounds.put_at_once(i);
    }
}

/// A datagram arrives: the place of the first socket that takes it, if any, and whether there was room for it there.
pub(crate) fn hear_datagram_of<C: Context, G: TsvalSource>(
    sockets: &mut SocketSet<'_, G>,
    cx: &C,
    ip: &IpRepr,
    repr: &UdpRepr,
    payload: &[u8],
) -> (Option<usize>, bool)
    ensures finds { Finds (TakesDatagram (C.facts cx.now) ip.now repr.now) sockets.old.slots.items result.0 }
    ensures heard { HeardBy result.0 sockets.old.slots.items ip.now repr.now payload.now result.1
        sockets.new.slots.items }
    ensures touched { Touches sockets.old.bounds sockets.old.slots.items sockets.new.bounds
        sockets.new.slots.items }
    ensures ended { sockets.new.ended ≡ sockets.old.ended }
{
    sockets.settle();
    let found = datagram_taker(sockets, cx, ip, repr);
    sockets.settled = false;
    touch_found(&mut sockets.bounds, found);
    let room = hear_found(&mut sockets.slots, found, cx, ip, repr, payload);
    (found, room)
}
