//! A guard looks at its socket, and a socket has its turn, in a set with an index.
ghost use Rattle.std.specs.Prelude.{◌≡◌, ◌<◌, ◌≤◌, IfSome, is_err, length, max, slice_get, slice_set, true, false};
ghost use Rattle.host_bounds.specs.Bounding.{at_once};
ghost use Rattle.host_bounds.specs.Marking.{Sets};
ghost use Rattle.sock_core.specs.Bounds.{IsMoment};
ghost use Rattle.net_host.specs.Facts.{facts_by};
ghost use Rattle.net_host.specs.Speaking.{TurnAt};
ghost use Rattle.net_host.specs.Guards.{has_ended};
ghost use Rattle.net_host.specs.Remembered.{moment_from};
ghost use Rattle.net_host.specs.Sights.{IsSightOf};
ghost use Rattle.net_host.specs.Telling.{TellsEnds, TellsHere, is_over, is_over_at, is_over_in};
ghost use Rattle.net_host.specs.Turns.{Watches};
ghost use Rattle.net_host.specs.Walks.{ChangesAt};

use crate::environment::Environment;
use crate::guard::GuardSettings;
use crate::limits::Limits;
use crate::set::SocketSet;
use crate::sight::Sight;
use crate::slot::Slot;
use crate::wire::{Sent, TooShort};
use smoltcp_socket::Socket;
use smoltcp_socket::tcp::State;
use smoltcp_socket::time::Instant;
use smoltcp_socket::wire::IpAddress;
use sock_tcp::TsvalSource;

// Whether there is no connection in this state.
fn is_over(state: State) -> bool
    ensures { result ≡ is_over state }
{
    matches!(state, State::Closed | State::Listen)
}

impl<'a, G> Slot<'a, G> {
    // Whether there is a TCP socket with no connection here.
    fn is_over(&self) -> bool
        ensures { result ≡ is_over_in self.now.socket }
    {
        match &self.socket {
            Some(Socket::Tcp(tcp)) => is_over(tcp.state()),
            _ => false,
        }
    }
}

fn is_over_at<G>(slots: &[Slot<'_, G>], i: usize) -> bool
    ensures { result ≡ is_over_at (slice_get slots.now i) }
{
    match slots.get(i) {
        Some(slot) => slot.is_over(),
        None => false,
    }
}

/// The program is told where the TCP socket at this place has no connection after its turn.
#[inline(always)]
pub(crate) fn tell_if_over<G: TsvalSource>(sockets: &mut SocketSet<'_, G>, i: usize)
    requires { i < length sockets.old.slots.items }
    ensures slots { sockets.new.slots ≡ sockets.old.slots }
    ensures terms { sockets.new.terms ≡ sockets.old.terms }
    ensures told { TellsHere sockets.new.slots.items i sockets.old.ended sockets.new.ended }
{
    if is_over_at(&sockets.slots, i) {
        sockets.tell_end(i);
    }
}

fn sight_at<G: TsvalSource>(slots: &[Slot<'_, G>], i: usize, limits: &Limits, now: Instant) -> Sight
    requires within { i < length slots.now }
    requires moment { IsMoment now.micros }
    ensures { IfSome (slice_get slots.now i) (λ s. IsSightOf limits.now now result s) }
{
    slots[i].sight(limits, now)
}

fn keep_there<G: TsvalSource>(
    slots: &mut Vec<Slot<'_, G>>,
    i: usize,
    limits: &Limits,
    now: Instant,
    sight: &Sight,
)
    requires within { i < length slots.old.items }
    requires moment { IsMoment now.micros }
    requires seen { IfSome (slice_get slots.old.items i) (λ s. IsSightOf limits.now now sight.now s) }
    requires kept { has_ended (moment_from sight.now.end) now ≡ false }
    ensures { ChangesAt (Watches limits.now now) slots.old.items i slots.new.items }
{
    slots[i].keep(limits, now, sight);
}

fn watch_there<G: TsvalSource>(
    slots: &mut Vec<Slot<'_, G>>,
    i: usize,
    settings: &GuardSettings,
    now: Instant,
)
    requires within { i < length slots.old.items }
    requires moment { IsMoment now.micros }
    ensures { ChangesAt (Watches settings.now now) slots.old.items i slots.new.items }
{
    slots[i].watch(settings, now);
}

// The guard of the socket at this place ends its connection. Not inlined, as few looks come here.
#[inline(never)]
fn watch_lent<G: TsvalSource>(
    sockets: &mut SocketSet<'_, G>,
    i: usize,
    settings: &GuardSettings,
    now: Instant,
)
    requires within { i < length sockets.old.slots.items }
    requires moment { IsMoment now.micros }
    ensures looked { ChangesAt (Watches settings.now now) sockets.old.slots.items i sockets.new.slots.items }
    ensures terms { sockets.new.terms ≡ sockets.old.terms }
    ensures ended { Sets i sockets.old.ended sockets.new.ended }
    ensures bounds { sockets.new.bounds ≡ slice_set sockets.old.bounds i at_once }
{
    sockets.lend(i);
    watch_there(&mut sockets.slots, i, settings, now);
    sockets.tell_end(i);
}

// What is not ended keeps its keys.
fn watch_kept<G: TsvalSource>(sockets: &mut SocketSet<'_, G>, i: usize, now: Instant, sight: &Sight)
    requires within { i < length sockets.old.slots.items }
    requires moment { IsMoment now.micros }
    requires seen { IfSome (slice_get sockets.old.slots.items i)
        (λ s. IsSightOf sockets.old.terms.guards now sight.now s) }
    requires kept { has_ended (moment_from sight.now.end) now ≡ false }
    ensures looked { ChangesAt (Watches sockets.old.terms.guards now) sockets.old.slots.items i
        sockets.new.slots.items }
    ensures terms { sockets.new.terms ≡ sockets.old.terms }
    ensures ended { sockets.new.ended ≡ sockets.old.ended }
    ensures bounds { sockets.new.bounds ≡ slice_set sockets.old.bounds i at_once }
{
    sockets.bounds.put_at_once(i);
    sockets.settled = false;
    keep_there(&mut sockets.slots, i, &sockets.terms.guards, now, sight);
}

/// The guard of the socket at this place looks at it.
pub(crate) fn watch_at<G: TsvalSource>(sockets: &mut SocketSet<'_, G>, i: usize, now: Instant)
    requires within { i < length sockets.old.slots.items }
    requires moment { IsMoment now.micros }
    ensures looked { ChangesAt (Watches sockets.old.terms.guards now) sockets.old.slots.items i
        sockets.new.slots.items }
    ensures terms { sockets.new.terms ≡ sockets.old.terms }
    ensures ends { TellsEnds sockets.old.slots.items sockets.old.ended sockets.new.slots.items sockets.new.ended }
    ensures bounds { sockets.new.bounds ≡ slice_set sockets.old.bounds i at_once }
{
    let sight = sight_at(&sockets.slots, i, &sockets.terms.guards, now);
    if sight.is_over(now) {
        let guards = sockets.terms.guards.settings();
        watch_lent(sockets, i, &guards, now);
    } else {
        watch_kept(sockets, i, now, &sight);
    }
}

/// The socket at this place has its turn.
pub(crate) fn turn_there<G: TsvalSource>(
    slots: &mut Vec<Slot<'_, G>>,
    i: usize,
    environment: &Environment,
    out: &mut [u8],
) -> (Result<(), TooShort>, Sent)
    requires { i < length slots.old.items }
    ensures within { result.1.len ≤ length out.old }
    ensures fits { result.1.len ≤ max environment.entry.now.mtu 576 }
    ensures short { is_err result.0 ≡ true → length out.old < max environment.entry.now.mtu 576 }
    ensures table { TurnAt (facts_by ⟦<IpAddress as PartialEq>⟧.eq environment.entry.now) G.tells slots.old.items i
        out.old
        result.0 result.1 slots.new.items out.new }
{
    slots[i].take_turn(environment, out)
}
