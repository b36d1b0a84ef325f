//! What a host does with one socket and its guard: looks at it, asks when it wants to speak, and lets it speak.
ghost use Rattle.std.specs.Prelude.{◌≡◌, ◌<◌, ◌≤◌, is_err, length, max, true, false};
ghost use Rattle.sock_core.specs.Bounds.{IsMoment};
ghost use Rattle.net_host.specs.Facts.{facts_by};
ghost use Rattle.net_host.specs.Guards.{has_ended};
ghost use Rattle.net_host.specs.Kinds.{is_tcp};
ghost use Rattle.net_host.specs.Looking.{is_seen};
ghost use Rattle.net_host.specs.Remembered.{moment_from};
ghost use Rattle.net_host.specs.Sights.{IsSightOf};
ghost use Rattle.net_base.specs.declared.time.Instant.{Instant};
ghost use Rattle.sock_tcp.specs.Polls.{is_reached};
ghost use Rattle.net_host.specs.Turns.{SlotEmits, TakesTurn, Watches, asked_of, delayed, slot_poll};

use crate::emission::{emit_icmp, emit_raw, emit_tcp, emit_udp};
use crate::environment::Environment;
use crate::guard::GuardSettings;
use crate::limits::Limits;
use crate::sight::Sight;
use crate::slot::Slot;
use crate::watching::not_before;
use crate::wire::{Sent, TooShort};
use smoltcp_socket::time::{Duration, Instant};
use smoltcp_socket::wire::IpAddress;
use smoltcp_socket::{Context, PollAt, Socket};
use sock_tcp::TsvalSource;

// The least time: a socket that may not speak at a moment waits so long.
const NEXT: Duration = Duration { micros: 1 };

const NOTHING_SENT: Sent = Sent {
    len: 0,
    lost: false,
};

impl<'a, G: TsvalSource> Slot<'a, G> {
    /// The guard of a TCP socket looks at it, as `Guard::watch`.
    pub(crate) fn watch(&mut self, settings: &GuardSettings, now: Instant)
        requires { IsMoment now.micros }
        ensures { Watches settings.now now self.old self.new }
    {
        match &mut self.socket {
            Some(Socket::Tcp(tcp)) => self.guard.watch(settings, tcp, now),
            _ => {}
        }
    }

    /// What the guard of a TCP socket sees of it.
    pub(crate) fn sight(&self, limits: &Limits, now: Instant) -> Sight
        requires { IsMoment now.micros }
        ensures { IsSightOf limits.now now result self.now }
    {
        match &self.socket {
            Some(Socket::Tcp(tcp)) => self.guard.sight(limits, tcp, now),
            _ => Sight::none(),
        }
    }

    /// Does what `watch` does where the state seen at this time is not older than its limit.
    pub(crate) fn keep(&mut self, limits: &Limits, now: Instant, sight: &Sight)
        requires moment { IsMoment now.micros }
        requires seen { IsSightOf limits.now now sight.now self.old }
        requires kept { has_ended (moment_from sight.now.end) now ≡ false }
        ensures { Watches limits.now now self.old self.new }
    {
        match &mut self.socket {
            Some(Socket::Tcp(tcp)) => self.guard.keep(limits, tcp, now, sight),
            _ => {}
        }
    }

    /// Whether that changes nothing; where the answer is no, it says nothing.
    pub(crate) fn is_idle(&self, limits: &Limits, now: Instant) -> bool
        requires { IsMoment now.micros }
        ensures looked { result ≡ true → Watches limits.now now self.now self.now }
        ensures seen { result ≡ true → is_seen limits.now self.now ≡ true }
    {
        match &self.socket {
            Some(Socket::Tcp(tcp)) => self.guard.is_idle(limits, tcp, now),
            _ => true,
        }
    }

    /// When the socket wants to speak, as its guard allows.
    pub(crate) fn poll_at<C: Context>(&self, cx: &C) -> PollAt
        ensures { result ≡ slot_poll self.now (C.facts cx.now) }
    {
        let now = cx.now();
        let asked = self.asked(cx);
        delayed(self.guard.may_take_turn(now), now, asked)
    }

    /// When it wants to speak at the earliest.
    pub(crate) fn asked<C: Context>(&self, cx: &C) -> PollAt
        ensures { result ≡ asked_of self.now.guard.phase self.now.guard.end self.now.guard.last self.now.socket
            (C.facts cx.now) }
    {
        match &self.socket {
            Some(Socket::Tcp(tcp)) => self.guard.poll_at(tcp.poll_at(cx)),
            _ => self.asked_beside_tcp(cx),
        }
    }

    // When a UDP, ICMP or raw socket wants to send. Not inlined, so that a TCP socket is asked after two tests.
    #[inline(never)]
    fn asked_beside_tcp<C: Context>(&self, cx: &C) -> PollAt
        requires { is_tcp self.now.socket ≡ false }
        ensures { result ≡ asked_of self.now.guard.phase self.now.guard.end self.now.guard.last self.now.socket
            (C.facts cx.now) }
    {
        match &self.socket {
            Some(Socket::Udp(udp)) => self.guard.poll_at(udp.poll_at(cx)),
            Some(Socket::Icmp(icmp)) => self.guard.poll_at(icmp.poll_at(cx)),
            Some(Socket::Raw(raw)) => self.guard.poll_at(raw.poll_at(cx)),
            _ => PollAt::Ingress,
        }
    }

    /// Lets it speak, where its guard allows it.
    pub(crate) fn take_turn(
        &mut self,
        environment: &Environment,
        out: &mut [u8],
    ) -> (Result<(), TooShort>, Sent)
        ensures within { result.1.len ≤ length out.old }
        ensures fits { result.1.len ≤ max environment.entry.now.mtu 576 }
        ensures short { is_err result.0 ≡ true → length out.old < max environment.entry.now.mtu 576 }
        ensures table { TakesTurn (facts_by ⟦<IpAddress as PartialEq>⟧.eq environment.entry.now) G.tells self.old
            out.old
            result.0 result.1 self.new out.new }
    {
        if !self.guard.take_turn(environment.moment()) {
            return (Ok(()), NOTHING_SENT);
        }
        self.dispatch(environment, out)
    }

    fn dispatch(
        &mut self,
        environment: &Environment,
        out: &mut [u8],
    ) -> (Result<(), TooShort>, Sent)
        ensures within { result.1.len ≤ length out.old }
        ensures fits { result.1.len ≤ max environment.entry.now.mtu 576 }
        ensures short { is_err result.0 ≡ true → length out.old < max environment.entry.now.mtu 576 }
        ensures table { SlotEmits (facts_by ⟦<IpAddress as PartialEq>⟧.eq environment.entry.now) G.tells self.old
            out.old
            result.0 result.1 self.new out.new }
    {
        match &mut self.socket {
            Some(Socket::Tcp(tcp)) => emit_tcp(tcp, environment, out),
            Some(Socket::Udp(udp)) => emit_udp(udp, environment, out),
            Some(Socket::Icmp(icmp)) => emit_icmp(icmp, environment, out),
            Some(Socket::Raw(raw)) => emit_raw(raw, environment, out),
            None => (Ok(()), NOTHING_SENT),
        }
    }
}

/// Not before the next moment, where the socket may not speak at this one.
pub(crate) fn delayed(may: bool, now: Instant, asked: PollAt) -> PollAt
    requires { IsMoment now.micros }
    ensures { result ≡ delayed may now asked }
{
    if may {
        return asked;
    }
    not_before(now + NEXT, asked)
}

/// Whether the moment is now or was before.
pub(crate) fn is_reached(poll: PollAt, now: Instant) -> bool
    ensures { result ≡ is_reached poll now }
{
    match poll {
        PollAt::Now => true,
        PollAt::Time(at) => at <= now,
        PollAt::Ingress => false,
    }
}
