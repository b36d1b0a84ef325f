//! Connections in TIME-WAIT that give way to a SYN, and sockets that serve a port.
ghost use Rattle.std.specs.Prelude.{◌≡◌, ◌↔◌, ◌≤◌, ◌+◌, IsTrue, Some, true};
ghost use Rattle.net_host.specs.Asking.{resting, under};
ghost use Rattle.net_host.specs.Entries.{is_ordered};
ghost use Rattle.control_wire.specs.Segment.{segment_of};
ghost use Rattle.sock_tcp.specs.Process.{IsToListener};
ghost use Rattle.net_host.specs.Filing.{keys_of, server_key};
ghost use Rattle.net_host.specs.Indexing.{IsSettled};
ghost use Rattle.net_host.specs.Resting.{FindsOldest, OnlyOf, Reopens, RestsFor, RestsUntil, Serves, earlier_of};
ghost use Rattle.net_host.specs.Resting.{is_above, is_opening};
ghost use Rattle.net_host.specs.Resting.{is_serving};
ghost use Rattle.net_host.specs.Walks.{Finds};

use crate::asked::Asked;
use crate::filing::{is_ordered, server_key};
use crate::find::{Sought, earliest_in, first_in};
use crate::set::SocketSet;
use crate::slot::Slot;
use control_wire::TcpSeqNumber;
use smoltcp_socket::tcp::State;
use smoltcp_socket::time::Instant;
use smoltcp_socket::wire::{IpListenEndpoint, IpRepr, TcpControl, TcpRepr};
use smoltcp_socket::{Context, Socket, tcp};
use sock_tcp::TsvalSource;

/// Whether the segment is a SYN without an ACK.
pub(crate) fn opens(repr: &TcpRepr<'_>) -> bool
    ensures { result ≡ is_opening (segment_of repr.now) }
{
    matches!((repr.control, repr.ack_number), (TcpControl::Syn, None))
}

// Whether a number stands behind another, by less than half of the circle.
fn is_above(a: TcpSeqNumber, b: TcpSeqNumber) -> bool
    ensures { result ≡ is_above a b }
{
    let distance = a.since(b);
    0 < distance && distance < 1 << 31
}

// Whether the segment is for a listener on this endpoint.
#[inline(always)]
fn is_to_listener(endpoint: &IpListenEndpoint, ip: &IpRepr, repr: &TcpRepr<'_>) -> bool
    ensures { IsTrue result ↔ IsToListener endpoint.now ip.now (segment_of repr.now) }
{
    let addressed = match endpoint.addr {
        None => true,
        Some(addr) => ip.dst_addr() == addr,
    };
    addressed && repr.dst_port == endpoint.port && repr.dst_port != 0
}

// Whether the socket is in TIME-WAIT, listened for the segment, and has nothing left to read.
fn rests_for<G>(tcp: &tcp::Socket<'_, G>, ip: &IpRepr, repr: &TcpRepr<'_>) -> bool
    ensures { IsTrue result ↔ RestsFor tcp.now.control_block ip.now (segment_of repr.now) }
{
    tcp.state() == State::TimeWait
        && !tcp.can_recv()
        && is_to_listener(&tcp.listen_endpoint(), ip, repr)
}

// The moment, where it is within 2^61 microseconds of zero.
fn if_ordered(end: Option<Instant>) -> Option<Instant>
    ensures { OnlyOf (λ t. (end ≡ Some t) × (is_ordered t ≡ true)) result }
{
    match end {
        Some(end) if is_ordered(end) => Some(end),
        _ => None,
    }
}

fn is_serving(state: State) -> bool
    ensures { result ≡ is_serving state }
{
    !matches!(state, State::Closed | State::Listen | State::TimeWait)
}

impl<'a, G: TsvalSource> Slot<'a, G> {
    /// Whether the SYN opens the connection here again.
    pub(crate) fn reopens(&self, ip: &IpRepr, repr: &TcpRepr<'_>) -> bool
        ensures { IsTrue result ↔ Reopens ip.now (segment_of repr.now) self.now }
    {
        match &self.socket {
            Some(Socket::Tcp(tcp)) => {
                opens(repr)
                    && rests_for(tcp, ip, repr)
                    && is_above(repr.seq_number, tcp.receive_next())
            }
            _ => false,
        }
    }

    // Until when the socket rests that may listen again for the segment.
    pub(crate) fn rests_until(&self, ip: &IpRepr, repr: &TcpRepr<'_>) -> Option<Instant>
        ensures { OnlyOf (λ t. RestsUntil ip.now (segment_of repr.now) t self.now) result }
    {
        match &self.socket {
            Some(Socket::Tcp(tcp)) => {
                if rests_for(tcp, ip, repr) {
                    if_ordered(tcp.time_wait_end())
                } else {
                    None
                }
            }
            _ => None,
        }
    }

    pub(crate) fn serves(&self, ip: &IpRepr, repr: &TcpRepr<'_>) -> bool
        ensures { IsTrue result ↔ Serves ip.now (segment_of repr.now) self.now }
    {
        match &self.socket {
            Some(Socket::Tcp(tcp)) => {
                is_serving(tcp.state()) && is_to_listener(&tcp.listen_endpoint(), ip, repr)
            }
            _ => false,
        }
    }
}

/// The socket that has rested longest, of those that may listen again for the segment, and until when it rests.
pub(crate) fn oldest<G: TsvalSource>(
    sockets: &SocketSet<'_, G>,
    ip: &IpRepr,
    repr: &TcpRepr<'_>,
    asked: &mut Asked,
) -> Option<(usize, Instant)>
    requires { IsSettled (λ s. keys_of s) sockets.now.complete sockets.now.slots.items sockets.now.index.entries
        sockets.now.free }
    ensures oldest { FindsOldest ip.now (segment_of repr.now) sockets.now.slots.items result }
    ensures asked { sockets.now.complete ≡ true
        → asked.new.count ≤ asked.old.count + resting sockets.now.index.entries repr.now.dst_port }
{
    if sockets.complete {
        earliest_in(&sockets.slots, &sockets.index, ip, repr, asked)
    } else {
        walk_for_oldest(&sockets.slots, ip, repr)
    }
}

fn walk_for_oldest<G: TsvalSource>(
    slots: &[Slot<'_, G>],
    ip: &IpRepr,
    repr: &TcpRepr<'_>,
) -> Option<(usize, Instant)>
    ensures { FindsOldest ip.now (segment_of repr.now) slots.now result }
{
    let mut found = None;
    for i in 0..slots.len() {
        found = earlier(found, i, slots[i].rests_until(ip, repr));
    }
    found
}

fn earlier(
    found: Option<(usize, Instant)>,
    i: usize,
    until: Option<Instant>,
) -> Option<(usize, Instant)>
    ensures { result ≡ earlier_of found i until }
{
    match (found, until) {
        (None, Some(until)) => Some((i, until)),
        (Some((_, least)), Some(until)) if until.micros < least.micros => Some((i, until)),
        _ => found,
    }
}

/// A socket with a connection that was opened on the port of the segment.
pub(crate) fn any_server<C: Context, G: TsvalSource>(
    sockets: &SocketSet<'_, G>,
    cx: &C,
    ip: &IpRepr,
    repr: &TcpRepr<'_>,
    asked: &mut Asked,
) -> Option<usize>
    requires { IsSettled (λ s. keys_of s) sockets.now.complete sockets.now.slots.items sockets.now.index.entries
        sockets.now.free }
    ensures first { Finds (Serves ip.now (segment_of repr.now)) sockets.now.slots.items result }
    ensures asked { sockets.now.complete ≡ true → asked.new.count
        ≤ asked.old.count + (under sockets.now.index.entries (server_key repr.now.dst_port) + 1) }
{
    if sockets.complete {
        let key = server_key(repr.dst_port);
        first_in(
            &sockets.slots,
            &sockets.index,
            key,
            cx,
            Sought::Server,
            ip,
            repr,
            asked,
        )
    } else {
        walk_for_server(&sockets.slots, ip, repr)
    }
}

fn walk_for_server<G: TsvalSource>(
    slots: &[Slot<'_, G>],
    ip: &IpRepr,
    repr: &TcpRepr<'_>,
) -> Option<usize>
    ensures { Finds (Serves ip.now (segment_of repr.now)) slots.now result }
{
    for (i, slot) in slots.iter().enumerate() {
        if slot.serves(ip, repr) {
            return Some(i);
        }
    }
    None
}
