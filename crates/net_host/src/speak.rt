//! Who speaks next.
ghost use Rattle.std.specs.Prelude.{◌≡◌, ◌<◌, ◌≤◌, ◌+◌, IfOk, Ok, is_err, length, max, slice_get, true};
ghost use Rattle.net_host.specs.Facts.{facts_by};
ghost use Rattle.net_host.specs.Kinds.{is_tcp_at};
ghost use Rattle.net_host.specs.Speaking.{Due, Speaks, TurnAt};
ghost use Rattle.net_host.specs.Looking.{Unseen};
ghost use Rattle.net_host.specs.Telling.{TellsEnds};
ghost use Rattle.net_host.specs.Touching.{NoneIsMarked};
ghost use Rattle.net_host.specs.Walks.{Nowhere};

use crate::counters::Counters;
use crate::environment::Environment;
use crate::inner::InterfaceInner;
use crate::lent_turns::{tell_if_over, turn_there};
use crate::looking::next_due;
use crate::set::SocketSet;
use crate::slot::Slot;
use crate::wire::{Sent, TooShort};
use host_context::Words;
use smoltcp_socket::Socket;
use smoltcp_socket::wire::IpAddress;
use sock_tcp::TsvalSource;

// The socket at this place has its turn: apart from `emit`, which mostly finds nobody to speak, so that it stays short.
#[inline(never)]
fn turn_at<G: TsvalSource>(
    sockets: &mut SocketSet<'_, G>,
    i: usize,
    environment: &Environment,
    out: &mut [u8],
) -> (Result<(), TooShort>, Sent)
    requires { i < length sockets.old.slots.items }
    ensures within { result.1.len ≤ length out.old }
    ensures fits { result.1.len ≤ max environment.entry.now.mtu 576 }
    ensures short { is_err result.0 ≡ true → length out.old < max environment.entry.now.mtu 576 }
    ensures table { TurnAt (facts_by ⟦<IpAddress as PartialEq>⟧.eq environment.entry.now) G.tells
        sockets.old.slots.items i out.old result.0 result.1 sockets.new.slots.items out.new }
    ensures terms { sockets.new.terms ≡ sockets.old.terms }
    ensures ended { sockets.new.ended ≡ sockets.old.ended }
{
    sockets.lend(i);
    turn_there(&mut sockets.slots, i, environment, out)
}

// Whether a TCP socket is at this place.
fn is_tcp_at<G>(slots: &[Slot<'_, G>], i: usize) -> bool
    ensures { result ≡ is_tcp_at (slice_get slots.now i) }
{
    match slots.get(i) {
        Some(slot) => matches!(&slot.socket, Some(Socket::Tcp(_))),
        None => false,
    }
}

/// The sockets that are due have their turns, from the place whose turn it is on, until one of them has written a
/// packet: its length, or 0 where none is due. Before each turn guards look at the sockets that may want to be asked.
/// A packet that is longer than the MTU, or that cannot be made, is dropped and counted. `TooShort` where the packet
/// does not fit; its socket offers it again.
pub(crate) fn speak<W: Words, G: TsvalSource>(
    sockets: &mut SocketSet<'_, G>,
    turn: &mut usize,
    counters: &mut Counters,
    cx: &InterfaceInner<W>,
    out: &mut [u8],
) -> Result<usize, TooShort>
    requires { sockets.old.terms.mtu ≡ cx.now.environment.mtu }
    ensures table { Speaks (facts_by ⟦<IpAddress as PartialEq>⟧.eq cx.now.environment) G.tells
        sockets.old.terms.guards sockets.old.slots.items turn.old counters.old out.old result
        sockets.new.slots.items turn.new counters.new out.new }
    ensures within { IfOk result (λ n. n ≤ length out.old) }
    ensures fits { IfOk result (λ n. n ≤ max cx.now.environment.mtu 576) }
    ensures short { is_err result ≡ true → length out.old < max cx.now.environment.mtu 576 }
    ensures quiet { result ≡ Ok 0 → Nowhere (Due (facts_by ⟦<IpAddress as PartialEq>⟧.eq cx.now.environment))
        sockets.new.slots.items }
    ensures seen { result ≡ Ok 0 → Nowhere (Unseen sockets.old.terms.guards) sockets.new.slots.items }
    ensures ends { TellsEnds sockets.old.slots.items sockets.old.ended sockets.new.slots.items sockets.new.ended }
    ensures asleep { result ≡ Ok 0 → NoneIsMarked sockets.new.bounds }
{
    speak_on(sockets, turn, counters, cx, out)
}

fn speak_on<W: Words, G: TsvalSource>(
    sockets: &mut SocketSet<'_, G>,
    turn: &mut usize,
    counters: &mut Counters,
    cx: &InterfaceInner<W>,
    out: &mut [u8],
) -> Result<usize, TooShort>
    requires { sockets.old.terms.mtu ≡ cx.now.environment.mtu }
    ensures within { IfOk result (λ n. n ≤ length out.old) }
    ensures fits { IfOk result (λ n. n ≤ max cx.now.environment.mtu 576) }
    ensures short { is_err result ≡ true → length out.old < max cx.now.environment.mtu 576 }
    ensures table { Speaks (facts_by ⟦<IpAddress as PartialEq>⟧.eq cx.now.environment) G.tells
        sockets.old.terms.guards sockets.old.slots.items turn.old counters.old out.old result
        sockets.new.slots.items turn.new counters.new out.new }
    ensures ends { TellsEnds sockets.old.slots.items sockets.old.ended sockets.new.slots.items sockets.new.ended }
    ensures asleep { result ≡ Ok 0 → NoneIsMarked sockets.new.bounds }
{
    while let Some(i) = next_due(sockets, cx, *turn) {
        *turn = i + 1;
        let (answer, sent) = turn_at(sockets, i, &cx.environment, out);
        tell_if_over(sockets, i);
        if answer.is_err() {
            return Err(TooShort);
        }
        let len = sent.len;
        if len > 0 {
            return Ok(len);
        }
        let of_tcp = is_tcp_at(&sockets.slots, i);
        counters.count_lost(sent.lost, of_tcp);
    }
    Ok(0)
}
