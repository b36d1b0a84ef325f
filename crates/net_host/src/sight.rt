//! What a guard sees of its socket, as numbers: what the peer is waited for is told by a table, without a branch for
//! each state.
ghost use Rattle.std.specs.Prelude.{◌≡◌, None, false, true};
ghost use Rattle.sock_core.specs.Bounds.{IsMoment};
ghost use Rattle.sock_tcp.specs.Timers.{IsLastTs};
ghost use Rattle.control_wire.specs.declared.seq_number.TcpSeqNumber.{TcpSeqNumber};
ghost use Rattle.net_base.specs.declared.time.Instant.{Instant};
ghost use Rattle.net_host.specs.Guards.{end_of, has_ended, lawful_limit, limit_from, limit_of, phase_of};
ghost use Rattle.net_host.specs.Guards.{same_phase, since_by};
ghost use Rattle.net_host.specs.Remembered.{moment_from, phase_from};
ghost use Rattle.net_host.specs.declared.guard.Kind.TheVariants.{Free};
ghost use Rattle.net_host.specs.declared.guard.Phase.TheVariants as Phase;
ghost use Rattle.net_host.specs.Sights.{IsSight, kind_by, kind_in};

use crate::guard::{Guard, Kind, NO_MOMENT};
use crate::limits::Limits;
use control_wire::TcpSeqNumber;
use net_base::time::{Duration, Instant};
use sock_tcp::{Socket, State};

/// What the peer is waited for, the number of the first byte that waits, since when, and when that is to end.
#[derive(Debug, Clone, Copy)]
pub struct Sight {
    pub(crate) kind: Kind,
    pub(crate) number: TcpSeqNumber,
    pub(crate) since: i64,
    pub(crate) end: i64,
}

// By the state alone, in the order of the states.
static KINDS: [Kind; 11] = [
    Kind::Free,
    Kind::Free,
    Kind::Free,
    Kind::Handshake,
    Kind::Stuck,
    Kind::Closing,
    Kind::FinWait2,
    Kind::Stuck,
    Kind::Closing,
    Kind::Closing,
    Kind::Free,
];

// By the state alone; `Stuck` where it is for the bytes that wait to say. Read from a table, so that
// what follows does not go a way of its own for each state.
#[inline(always)]
fn kind_in(state: State) -> Kind
    ensures { result ≡ kind_in state }
{
    KINDS[state as usize]
}

#[inline(always)]
fn kind_by(kind: Kind, empty: bool) -> Kind
    ensures { result ≡ kind_by kind empty }
{
    match kind {
        Kind::Stuck if empty => Kind::Free,
        _ => kind,
    }
}

/// What the peer is waited for.
#[inline(always)]
#[tactic(auto, using(crate::proofs::Sights::kind_of))]
pub(crate) fn kind_of<G>(socket: &Socket<'_, G>) -> Kind
    ensures { phase_from result socket.now.control_block.local_seq_no ≡ phase_of socket.now.control_block }
{
    let empty = socket.send_queue() == 0;
    kind_by(kind_in(socket.state()), empty)
}

// Whether the peer is waited for, for what it was.
#[inline(always)]
fn is_same(kind: Kind, number: TcpSeqNumber, before: Kind, old: TcpSeqNumber) -> bool
    ensures { result ≡ same_phase (phase_from kind number) (phase_from before old) }
{
    match kind {
        Kind::Free => false,
        Kind::Stuck | Kind::Closing => {
            number.0 == old.0 && matches!(before, Kind::Stuck | Kind::Closing)
        }
        _ => kind == before,
    }
}

// Since when: the earlier of what was known and now.
#[inline(always)]
#[tactic(auto, using(crate::proofs::Sights::was_moment))]
fn since_of(same: bool, since: i64, now: Instant) -> i64
    requires moment { IsMoment now.micros }
    requires since { IsLastTs (moment_from since) }
    ensures value { moment_from result ≡ since_by same (moment_from since) now }
    ensures lawful { IsMoment result }
{
    if same && since != NO_MOMENT && since <= now.micros {
        since
    } else {
        now.micros
    }
}

// When that is to end.
#[inline(always)]
fn end_of(limit: (bool, u64), since: i64) -> i64
    requires { IsMoment since }
    ensures { moment_from result ≡ end_of (lawful_limit (limit_from limit.0 limit.1)) (moment_from since) }
{
    if limit.0 {
        let delay = Duration {
            micros: limit.1.min(1 << 60),
        };
        let end = Instant { micros: since } + delay;
        end.micros
    } else {
        NO_MOMENT
    }
}

// Whether there is this moment, and it has come.
#[inline(always)]
fn has_come(end: i64, now: Instant) -> bool
    ensures { result ≡ has_ended (moment_from end) now }
{
    end != NO_MOMENT && end <= now.micros
}

impl Sight {
    /// Nothing is waited for.
    pub(crate) fn none() -> Sight
        ensures kind { result.kind ≡ Free }
        ensures since { moment_from result.since ≡ None }
        ensures end { moment_from result.end ≡ None }
    {
        Sight {
            kind: Kind::Free,
            number: TcpSeqNumber(0),
            since: NO_MOMENT,
            end: NO_MOMENT,
        }
    }

    /// Whether it has lasted too long by now.
    pub(crate) fn is_over(&self, now: Instant) -> bool
        ensures { result ≡ has_ended (moment_from self.now.end) now }
    {
        has_come(self.end, now)
    }
}

impl Guard {
    // What is waited for since it was seen first, where that is something.
    #[inline(always)]
    fn waits(&self, limits: &Limits, kind: Kind, number: TcpSeqNumber, now: Instant) -> Sight
        requires some { kind ≡ Free → ⊥ }
        requires moment { IsMoment now.micros }
        ensures kind { result.kind ≡ kind }
        ensures number { result.number ≡ number }
        ensures since { moment_from result.since
            ≡ since_by (same_phase (phase_from kind number) self.now.phase) self.now.since now }
        ensures end { moment_from result.end
            ≡ end_of (limit_of limits.now (phase_from kind number)) (moment_from result.since) }
        ensures lawful { IsMoment result.since }
    {
        let same = is_same(kind, number, self.kind, self.number);
        let since = since_of(same, self.since, now);
        let end = end_of(limits.of_kind(kind), since);
        Sight {
            kind,
            number,
            since,
            end,
        }
    }

    /// Whether bytes wait in ESTABLISHED or CLOSE-WAIT, the first with the number that it had at the last look.
    #[inline(always)]
    #[tactic(auto, using(crate::proofs::Idle::same_number))]
    pub(crate) fn still_waits<G>(&self, socket: &Socket<'_, G>) -> bool
        ensures before { result ≡ true → self.now.phase ≡ Phase.Stuck socket.now.control_block.local_seq_no }
        ensures phase { result ≡ true
            → phase_of socket.now.control_block ≡ Phase.Stuck socket.now.control_block.local_seq_no }
        ensures last { result ≡ true → self.now.last ≡ None }
    {
        matches!(self.kind, Kind::Stuck)
            && matches!(kind_of(socket), Kind::Stuck)
            && socket.send_unacknowledged().0 == self.number.0
            && self.last == NO_MOMENT
    }

    /// Whether such bytes are waited for from the same moment on and as long as at the last look, and not too long yet.
    #[inline(always)]
    pub(crate) fn goes_on(&self, limits: &Limits, now: Instant) -> bool
        requires { IsMoment now.micros }
        ensures since { result ≡ true → since_by true self.now.since now ≡ self.now.since }
        ensures end { result ≡ true → end_of (lawful_limit limits.now.window) self.now.since ≡ self.now.end }
        ensures kept { result ≡ true → has_ended self.now.end now ≡ false }
    {
        let since = since_of(true, self.since, now);
        let end = end_of(limits.of_bytes(), since);
        since == self.since && end == self.end && !has_come(self.end, now)
    }

    /// What the guard sees of the socket at this moment.
    #[tactic(auto, using(crate::proofs::Sights::seen, crate::proofs::Sights::seen_free))]
    pub(crate) fn sight<G>(&self, limits: &Limits, socket: &Socket<'_, G>, now: Instant) -> Sight
        requires { IsMoment now.micros }
        ensures { IsSight limits.now now socket.now.control_block self.now result }
    {
        let kind = kind_of(socket);
        let number = socket.send_unacknowledged();
        match kind {
            Kind::Free => Sight::none(),
            // apart, as most that wait are such
            Kind::Stuck => self.waits(limits, Kind::Stuck, number, now),
            _ => self.waits(limits, kind, number, now),
        }
    }
}
