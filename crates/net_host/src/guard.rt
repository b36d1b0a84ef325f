//! Limits that a host sets its TCP connections, so that no peer keeps it busy for ever or keeps its sockets taken.
ghost use Rattle.std.specs.Prelude.{◌≡◌, Some, None, true, false};
ghost use Rattle.sock_core.specs.Bounds.{IsMoment};
ghost use Rattle.host_guard.specs.Guarding.{taken_at};
ghost use Rattle.sock_tcp.specs.Timers.{IsLastTs};
ghost use Rattle.net_host.specs.Guards.{last_left};
ghost use Rattle.net_host.specs.Remembered.{IsTold, moment_from, nothing, phase_from};
ghost use Rattle.net_host.specs.declared.guard.Phase.TheVariants.{Free};

use crate::sight::Sight;
use control_wire::TcpSeqNumber;
use net_base::time::{Duration, Instant};
use std::marker::Model;

/// How long after a dispatch in FIN-WAIT-2 there is none. Nothing but acknowledgements is left to send in this state,
/// and with a probe timer that is left over every dispatch emits one: so they are 50 in a second at most.
pub const PACE: Duration = Duration { micros: 20_000 };

/// How many dispatches a socket has at one moment at most: more than the 45 segments of full size that a queue of 65536
/// bytes holds, so that only what goes on without end is cut.
pub const TURNS: u8 = 64;

/// How long a peer may leave a connection of the host waiting; no limit where there is none. A limit of more than 2^60
/// microseconds counts as so many.
#[derive(Debug, Clone, Copy)]
pub struct GuardSettings {
    /// Of a handshake that a SYN began, until SYN-RECEIVED is left. It is given up without an RST, so that a client
    /// whose segments were lost tries again (RFC 6298, section 5.7): the socket listens again.
    pub handshake: Option<Duration>,
    /// Of FIN-WAIT-2, and of bytes or a FIN that wait in FIN-WAIT-1, CLOSING or LAST-ACK while nothing is newly
    /// acknowledged: a peer that takes bytes slowly is not cut off. The connection is aborted.
    pub closing: Option<Duration>,
    /// Of bytes that wait in ESTABLISHED or CLOSE-WAIT while nothing is newly acknowledged, whatever windows and other
    /// segments come meanwhile (RFC 6429; R2 of RFC 9293, section 3.8.3). The connection is aborted.
    pub window: Option<Duration>,
    /// The user timeout that each socket is given (RFC 9293, section 3.9.1); where there is none, each keeps its own.
    pub timeout: Option<Duration>,
}

/// What only the peer can end.
#[derive(Debug, Clone, Copy, PartialEq, Eq)]
pub enum Phase {
    /// Nothing.
    Free,
    /// SYN-RECEIVED.
    Handshake,
    FinWait2,
    /// FIN-WAIT-1, CLOSING or LAST-ACK: bytes or a FIN wait, of which the first has this number (SND.UNA).
    Closing(TcpSeqNumber),
    /// ESTABLISHED or CLOSE-WAIT while bytes wait, of which the first has this number.
    Stuck(TcpSeqNumber),
}

// A phase without its number.
#[derive(Debug, Clone, Copy, PartialEq, Eq)]
pub(crate) enum Kind {
    Free,
    Handshake,
    FinWait2,
    Closing,
    Stuck,
}

// What stands for no moment: no moment of a guard is the least.
pub(crate) const NO_MOMENT: i64 = i64::MIN;

/// What a host remembers beside a socket: what the peer is waited for and since when, counted from the first look that
/// saw it, and when that is to end; when the socket was last dispatched in FIN-WAIT-2; when it was last dispatched at
/// all, and how often at that moment.
///
/// It takes 40 bytes, as its moments are numbers: an `Option` of one takes sixteen bytes.
#[derive(Drop)]
pub struct Guard {
    pub(crate) since: i64,
    pub(crate) end: i64,
    pub(crate) last: i64,
    moment: i64,
    // of the first byte that waits, in `Closing` and `Stuck`
    pub(crate) number: TcpSeqNumber,
    pub(crate) kind: Kind,
    taken: u8,
}

impl Model for Guard {
    ghost use Rattle.sock_tcp.specs.Timers.{IsLastTs};
    ghost use Rattle.net_host.specs.Remembered.{Remembered, moment_from, phase_from};

    ghost Value = { Remembered };

    ghost view = { λ g. record {
      phase = phase_from g.kind g.number;
      since = moment_from g.since;
      end = moment_from g.end;
      last = moment_from g.last;
      moment = moment_from g.moment;
      taken = g.taken;
    } };

    // so a moment that is later by a limit fits its type
    ghost invariant = { λ g. IsLastTs (moment_from g.since) × IsLastTs (moment_from g.last) };
}

// The moment of so many microseconds, or none.
fn moment_from(micros: i64) -> Option<Instant>
    ensures { result ≡ moment_from micros }
{
    if micros == NO_MOMENT {
        return None;
    }
    Some(Instant { micros })
}

// The number of the moment, or of none.
fn micros_of(moment: Option<Instant>) -> i64
    requires { IsTold moment }
    ensures { moment_from result ≡ moment }
{
    match moment {
        None => NO_MOMENT,
        Some(moment) => moment.micros,
    }
}

// How often a socket was dispatched at this moment: no lawful one is the number of none.
fn taken_at(moment: i64, taken: u8, now: Instant) -> u8
    requires { IsMoment now.micros }
    ensures { result ≡ taken_at (moment_from moment) taken now }
{
    if moment == now.micros { taken } else { 0 }
}

fn phase_from(kind: Kind, number: TcpSeqNumber) -> Phase
    ensures { result ≡ phase_from kind number }
{
    match kind {
        Kind::Free => Phase::Free,
        Kind::Handshake => Phase::Handshake,
        Kind::FinWait2 => Phase::FinWait2,
        Kind::Closing => Phase::Closing(number),
        Kind::Stuck => Phase::Stuck(number),
    }
}

// The phase without its number, and that number.
fn parts_of(phase: Phase) -> (Kind, TcpSeqNumber)
    ensures { phase_from result.0 result.1 ≡ phase }
{
    match phase {
        Phase::Free => (Kind::Free, TcpSeqNumber(0)),
        Phase::Handshake => (Kind::Handshake, TcpSeqNumber(0)),
        Phase::FinWait2 => (Kind::FinWait2, TcpSeqNumber(0)),
        Phase::Closing(number) => (Kind::Closing, number),
        Phase::Stuck(number) => (Kind::Stuck, number),
    }
}

impl Guard {
    /// Of a socket that nothing is remembered of.
    pub fn new() -> Guard
        ensures { result ≡ nothing }
    {
        Guard {
            since: NO_MOMENT,
            end: NO_MOMENT,
            last: NO_MOMENT,
            moment: NO_MOMENT,
            number: TcpSeqNumber(0),
            kind: Kind::Free,
            taken: 0,
        }
    }

    /// What the peer is waited for.
    pub fn phase(&self) -> Phase
        ensures { result ≡ self.now.phase }
    {
        phase_from(self.kind, self.number)
    }

    /// Since when.
    pub fn since(&self) -> Option<Instant>
        ensures value { result ≡ self.now.since }
        ensures lawful { IsLastTs result }
    {
        moment_from(self.since)
    }

    /// When that is to end.
    pub fn end(&self) -> Option<Instant>
        ensures { result ≡ self.now.end }
    {
        moment_from(self.end)
    }

    /// When the socket was last dispatched in FIN-WAIT-2.
    pub fn last(&self) -> Option<Instant>
        ensures value { result ≡ self.now.last }
        ensures lawful { IsLastTs result }
    {
        moment_from(self.last)
    }

    /// When it was last dispatched.
    pub fn moment(&self) -> Option<Instant>
        ensures { result ≡ self.now.moment }
    {
        moment_from(self.moment)
    }

    /// How often it was dispatched at that moment.
    pub fn taken(&self) -> u8
        ensures { result ≡ self.now.taken }
    {
        self.taken
    }

    /// How often it was dispatched at this moment.
    pub(crate) fn taken_at(&self, now: Instant) -> u8
        requires { IsMoment now.micros }
        ensures { result ≡ taken_at self.now.moment self.now.taken now }
    {
        taken_at(self.moment, self.taken, now)
    }

    // Whether nothing is waited for, and nothing is remembered but turns; where the answer is no, it says nothing.
    pub(crate) fn waits_for_nothing(&self) -> bool
        ensures phase { result ≡ true → self.now.phase ≡ Free }
        ensures since { result ≡ true → self.now.since ≡ None }
        ensures end { result ≡ true → self.now.end ≡ None }
        ensures last { result ≡ true → self.now.last ≡ None }
    {
        matches!(self.kind, Kind::Free)
            && self.since == NO_MOMENT
            && self.end == NO_MOMENT
            && self.last == NO_MOMENT
    }

    // The peer is waited for.
    pub(crate) fn wait(&mut self, phase: Phase, since: Option<Instant>, end: Option<Instant>)
        requires since { IsLastTs since }
        requires end { IsTold end }
        ensures { self.new ≡ record self.old { phase = phase; since = since; end = end } }
    {
        (self.kind, self.number) = parts_of(phase);
        self.since = micros_of(since);
        self.end = micros_of(end);
    }

    // What was seen is remembered, where it has not lasted too long.
    pub(crate) fn remember(&mut self, sight: &Sight)
        requires { IsLastTs (moment_from sight.now.since) }
        ensures phase { self.new.phase ≡ phase_from sight.now.kind sight.now.number }
        ensures since { self.new.since ≡ moment_from sight.now.since }
        ensures end { self.new.end ≡ moment_from sight.now.end }
        ensures last { self.new.last ≡ last_left false (phase_from sight.now.kind sight.now.number) self.old.last }
        ensures moment { self.new.moment ≡ self.old.moment }
        ensures taken { self.new.taken ≡ self.old.taken }
    {
        self.kind = sight.kind;
        self.number = sight.number;
        self.since = sight.since;
        self.end = sight.end;
        if !matches!(sight.kind, Kind::FinWait2) {
            self.last = NO_MOMENT;
        }
    }

    // The last dispatch in FIN-WAIT-2.
    pub(crate) fn set_last(&mut self, last: Option<Instant>)
        requires { IsLastTs last }
        ensures { self.new ≡ record self.old { last = last } }
    {
        self.last = micros_of(last);
    }

    // So many dispatches at this moment.
    pub(crate) fn count(&mut self, now: Instant, taken: u8)
        requires { IsMoment now.micros }
        ensures { self.new ≡ record self.old { moment = Some now; taken = taken } }
    {
        self.moment = micros_of(Some(now));
        self.taken = taken;
    }
}
