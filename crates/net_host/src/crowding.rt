//! How many connections a source has.
ghost use Rattle.std.specs.Prelude.{◌≡◌, ◌<◌, ◌≤◌, length, true, false};
ghost use Rattle.ip_wire.specs.IpHeader.{src_addr_of};
ghost use Rattle.control_wire.specs.Segment.{segment_of};
ghost use Rattle.net_host.specs.Crowding.{AreFewer, Comes, IsLimited, begins, dropped_if, first_of, is_new, last_of};
ghost use Rattle.net_host.specs.Filing.{keys_of, number_of};
ghost use Rattle.net_host.specs.Indexing.{IsSettled};
ghost use Rattle.net_host.specs.Spans.{LieWithin};

use crate::cookies::Course;
use crate::filing::number_of;
use crate::rest::opens;
use crate::segments::Taker;
use crate::set::SocketSet;
use host_index::{Entry, Index};
use smoltcp_socket::wire::{IpRepr, TcpRepr};
use sock_tcp::TsvalSource;

// How many addresses a prefix of 64 bits has.
const PREFIX: u128 = 0x1_0000_0000_0000_0000;

// The first address of a source, as a number.
fn first_of(number: u128) -> u128
    ensures { result ≡ first_of number }
{
    let prefix = number / PREFIX;
    if prefix == 0 { number } else { prefix * PREFIX }
}

// The last address of a source, as a number.
fn last_of(number: u128) -> u128
    ensures { result ≡ last_of number }
{
    let prefix = number / PREFIX;
    if prefix == 0 {
        number
    } else {
        prefix * PREFIX + 0xffff_ffff_ffff_ffff
    }
}

// Whether so many entries stand from one address to another: by a look at where the last of them would stand. So it
// costs no more where there are many.
fn stand_within(index: &Index, first: u128, last: u128, count: usize) -> bool
    requires { 0 < count }
    ensures { result ≡ false → LieWithin index.now.entries first last count }
{
    let key = Entry {
        major: first,
        minor: 0,
        place: 0,
    };
    let place = index.lower(key).saturating_add(count - 1);
    if place >= index.len() {
        return false;
    }
    index.get(place).major <= last
}

// Whether a source has so many connections. Where the index is not complete, it counts as one that has.
fn is_crowded<G: TsvalSource>(sockets: &SocketSet<'_, G>, most: usize, ip: &IpRepr) -> bool
    requires { IsSettled (λ s. keys_of s) sockets.now.complete sockets.now.slots.items sockets.now.index.entries
        sockets.now.free }
    ensures few { result ≡ false → 0 < most → AreFewer (Comes (number_of (src_addr_of ip.now)))
        sockets.now.slots.items most }
    ensures unlimited { most ≡ 0 → result ≡ false }
{
    let _count = sockets.slots.len(); // for its bound
    if most == 0 {
        return false;
    }
    if !sockets.complete {
        return true;
    }
    let number = number_of(&ip.src_addr());
    stand_within(&sockets.index, first_of(number), last_of(number), most)
}

fn is_new(taker: Taker) -> bool
    ensures { result ≡ is_new taker }
{
    matches!(taker, Taker::Listener(_) | Taker::Reused(_))
}

// Whether a connection begins, or is offered by a cookie.
fn begins(course: Course, taker: Taker, repr: &TcpRepr<'_>) -> bool
    ensures { result ≡ begins course taker (segment_of repr.now) }
{
    match course {
        Course::Plain => is_new(taker) && opens(repr),
        Course::Answered(..) | Course::Believed(..) => true,
        Course::Doubted | Course::Dropped => false,
    }
}

/// Whether a segment of this course is dropped, as its source has as many connections as are allowed, which is 0 where
/// any number is.
pub(crate) fn is_limited<G: TsvalSource>(
    sockets: &SocketSet<'_, G>,
    most: usize,
    taker: Taker,
    course: Course,
    ip: &IpRepr,
    repr: &TcpRepr<'_>,
) -> bool
    requires { IsSettled (λ s. keys_of s) sockets.now.complete sockets.now.slots.items sockets.now.index.entries
        sockets.now.free }
    ensures { IsLimited most sockets.now.slots.items ip.now (segment_of repr.now) taker course result }
{
    if most == 0 || !begins(course, taker, repr) {
        return false;
    }
    is_crowded(sockets, most, ip)
}

/// The course, or that of a segment that is dropped.
pub(crate) fn dropped_if(dropped: bool, course: Course) -> Course
    ensures { result ≡ dropped_if dropped course }
{
    if dropped { Course::Dropped } else { course }
}
