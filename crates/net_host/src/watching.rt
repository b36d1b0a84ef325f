//! What a guard does: it looks at its socket, and says when the socket may speak.
ghost use Rattle.std.specs.Prelude.{◌≡◌, ◌≤◌, ◌^◌, false, true};
ghost use Rattle.std.specs.Option.{ForSome};
ghost use Rattle.sock_core.specs.Bounds.{IsMoment};
ghost use Rattle.sock_tcp.specs.Polls.{earlier};
ghost use Rattle.sock_tcp.specs.Timers.{IsLastTs, after};
ghost use Rattle.host_guard.specs.Guarding.{not_before};
ghost use Rattle.net_host.specs.Guards.{end_of, ended_if, given_up, guarded_poll, has_ended, last_after, last_left};
ghost use Rattle.net_host.specs.Guards.{lawful_limit, limit_of, may_in, moment_left, no_limits, phase_in, phase_left};
ghost use Rattle.net_host.specs.Guards.{paced, phase_of};
ghost use Rattle.net_host.specs.Guards.{same_phase, since_by, since_in, stuck_by, usual, with_timeout};
ghost use Rattle.net_host.specs.Looking.{has_timeout, seen_with};
ghost use Rattle.net_host.specs.Remembered.{IsTold, moment_from};
ghost use Rattle.net_host.specs.Sights.{IsSight};
ghost use Rattle.net_host.specs.declared.guard.Phase.TheVariants.{FinWait2, Free};
ghost use Rattle.net_base.specs.declared.time.Instant.{Instant};
ghost use Rattle.net_host.specs.Watching.{Asks, Looks, may_turn};

use crate::guard::{Guard, GuardSettings, Kind, PACE, Phase, TURNS};
use crate::limits::Limits;
use crate::sight::{Sight, kind_of};
use control_wire::TcpSeqNumber;
use net_base::time::{Duration, Instant};
use smoltcp_socket::PollAt;
use sock_tcp::{Socket, State};

impl GuardSettings {
    /// The limits of a new interface: 30 seconds for a handshake, a minute for what is closing and for silence, two
    /// minutes for bytes of which none is acknowledged.
    pub fn new() -> GuardSettings
        ensures { result ≡ usual }
    {
        GuardSettings {
            handshake: Some(Duration { micros: 30_000_000 }),
            closing: Some(Duration { micros: 60_000_000 }),
            window: Some(Duration {
                micros: 120_000_000,
            }),
            timeout: Some(Duration { micros: 60_000_000 }),
        }
    }

    /// No limits. What is left is that a socket has at most `TURNS` dispatches at one moment, and its pace in
    /// FIN-WAIT-2.
    pub fn off() -> GuardSettings
        ensures { result ≡ no_limits }
    {
        GuardSettings {
            handshake: None,
            closing: None,
            window: None,
            timeout: None,
        }
    }

    fn limit_of(&self, phase: Phase) -> Option<Duration>
        ensures value { result ≡ limit_of self.now phase }
        ensures short { ForSome result (λ d. d.micros ≤ 2 ^ 61) }
    {
        match phase {
            Phase::Free => None,
            Phase::Handshake => lawful(self.handshake),
            Phase::Stuck(_) => lawful(self.window),
            _ => lawful(self.closing),
        }
    }
}

fn lawful(limit: Option<Duration>) -> Option<Duration>
    ensures value { result ≡ lawful_limit limit }
    ensures short { ForSome result (λ d. d.micros ≤ 2 ^ 61) }
{
    match limit {
        None => None,
        Some(limit) => Some(Duration {
            micros: limit.micros.min(1 << 60),
        }),
    }
}

impl Guard {
    /// Looks at the socket at this moment. Sets the user timeout, and ends what has lasted longer than its limit,
    /// counted from the first look that saw it, whatever has come from the peer since: a handshake without an RST, the
    /// rest by an abort. Of bytes or a FIN that wait it is counted from the first look that saw SND.UNA where it is,
    /// whatever states came since. Where the time goes back, it is counted from the earlier moment.
    pub fn watch<G>(&mut self, settings: &GuardSettings, socket: &mut Socket<'_, G>, now: Instant)
        requires { IsMoment now.micros }
        ensures looks { Looks settings.now now socket.old.control_block self.old self.new socket.new.control_block }
        ensures generator { socket.new.tsval_generator ≡ socket.old.tsval_generator }
    {
        let phase = phase_of(socket);
        let since = since_in(phase, self.phase(), self.since(), now);
        let end = end_of(settings.limit_of(phase), since);
        let over = has_ended(end, now);
        set_timeout(socket, lawful(settings.timeout));
        end_if(over, phase, socket);
        self.note(over, phase, since, end);
    }

    /// Whether `watch` changes nothing at this moment: nothing is waited for, or bytes are as when the guard looked
    /// last, and the socket has the user timeout that is set. Most sockets that are looked at are such, and are spared
    /// the rest. Where the answer is no, it says nothing.
    #[tactic(auto, using(crate::proofs::Idle::looks, crate::proofs::Idle::seen))]
    pub(crate) fn is_idle<G>(&self, limits: &Limits, socket: &Socket<'_, G>, now: Instant) -> bool
        requires { IsMoment now.micros }
        ensures looked { result ≡ true
            → Looks limits.now now socket.now.control_block self.now self.now socket.now.control_block }
        ensures seen { result ≡ true → seen_with limits.now self.now.phase self.now.since self.now.end
            socket.now.control_block ≡ true }
    {
        if self.still_waits(socket) {
            return self.goes_on(limits, now) && has_timeout(limits.timeout(), socket.timeout());
        }
        self.waits_for_nothing()
            && is_free(socket)
            && has_timeout(limits.timeout(), socket.timeout())
    }

    /// Does what `watch` does where the state seen of the socket at this time is not older than its limit.
    #[tactic(auto, using(crate::proofs::Sights::looks))]
    pub(crate) fn keep<G>(
        &mut self,
        limits: &Limits,
        socket: &mut Socket<'_, G>,
        now: Instant,
        sight: &Sight,
    )
        requires moment { IsMoment now.micros }
        requires seen { IsSight limits.now now socket.old.control_block self.old sight.now }
        requires kept { has_ended (moment_from sight.now.end) now ≡ false }
        ensures looks { Looks limits.now now socket.old.control_block self.old self.new socket.new.control_block }
        ensures generator { socket.new.tsval_generator ≡ socket.old.tsval_generator }
    {
        set_timeout(socket, lawful(limits.timeout()));
        self.remember(sight);
    }

    fn note(&mut self, over: bool, phase: Phase, since: Option<Instant>, end: Option<Instant>)
        requires since { IsLastTs since }
        requires end { IsTold end }
        ensures phase { self.new.phase ≡ phase_left over phase }
        ensures since { self.new.since ≡ moment_left over since }
        ensures end { self.new.end ≡ moment_left over end }
        ensures last { self.new.last ≡ last_left over phase self.old.last }
        ensures moment { self.new.moment ≡ self.old.moment }
        ensures taken { self.new.taken ≡ self.old.taken }
    {
        if over {
            self.wait(Phase::Free, None, None);
            self.set_last(None);
        } else {
            self.wait(phase, since, end);
            self.set_last(last_left(phase, self.last()));
        }
    }

    /// Whether `take_turn` would allow a dispatch at this moment.
    pub fn may_take_turn(&self, now: Instant) -> bool
        requires { IsMoment now.micros }
        ensures { result ≡ may_turn self.now now }
    {
        self.taken_at(now) < TURNS && self.is_in_pace(now)
    }

    // In FIN-WAIT-2, whether the last dispatch was long enough ago.
    fn is_in_pace(&self, now: Instant) -> bool
        ensures { result ≡ may_in self.now.phase self.now.last now }
    {
        match self.kind {
            Kind::FinWait2 => is_in_pace(self.last(), now),
            _ => true,
        }
    }

    /// Whether the socket may be dispatched at this moment: at most `TURNS` times, and in FIN-WAIT-2 not within `PACE`
    /// of the last dispatch that was allowed there. What is allowed is remembered, so that a loop which asks before
    /// each dispatch ends, however often it is begun at one moment.
    pub fn take_turn(&mut self, now: Instant) -> bool
        requires { IsMoment now.micros }
        ensures turn { result ≡ may_turn self.old now }
        ensures asks { Asks now self.old self.new }
    {
        let taken = self.taken_at(now);
        let may = taken < TURNS && self.is_in_pace(now);
        if may {
            self.count(now, taken + 1);
            self.set_last(last_after(self.phase(), self.last(), now));
        } else {
            self.count(now, taken);
        }
        may
    }

    /// When the host is to look at the socket next, whose own `poll_at` answered `asked`: in FIN-WAIT-2 not before
    /// `PACE` after the last dispatch, and at the latest when what the peer is waited for is to end.
    pub fn poll_at(&self, asked: PollAt) -> PollAt
        ensures { result ≡ guarded_poll self.now.phase self.now.end self.now.last asked }
    {
        let asked = self.paced(asked);
        match self.end() {
            None => asked,
            Some(end) => earlier(asked, end),
        }
    }

    // In FIN-WAIT-2 not before `PACE` after the last dispatch.
    fn paced(&self, asked: PollAt) -> PollAt
        ensures { result ≡ paced self.now.phase self.now.last asked }
    {
        match self.kind {
            Kind::FinWait2 => behind(self.last(), asked),
            _ => asked,
        }
    }
}

// ---- what is waited for

fn phase_of<G>(socket: &Socket<'_, G>) -> Phase
    ensures { result ≡ phase_of socket.now.control_block }
{
    let empty = socket.send_queue() == 0;
    phase_in(socket.state(), empty, socket.send_unacknowledged())
}

fn phase_in(state: State, empty: bool, una: TcpSeqNumber) -> Phase
    ensures { result ≡ phase_in state empty una }
{
    match state {
        State::SynReceived => Phase::Handshake,
        State::FinWait2 => Phase::FinWait2,
        State::FinWait1 | State::Closing | State::LastAck => Phase::Closing(una),
        State::Established | State::CloseWait => stuck_by(empty, una),
        _ => Phase::Free,
    }
}

#[tactic(auto, using(crate::proofs::Sights::is_free))]
fn is_free<G>(socket: &Socket<'_, G>) -> bool
    ensures { result ≡ true → phase_of socket.now.control_block ≡ Free }
{
    matches!(kind_of(socket), Kind::Free)
}

// Whether a socket has the user timeout that is set, if one is.
fn has_timeout(limit: Option<Duration>, timeout: Option<Duration>) -> bool
    ensures { result ≡ has_timeout (lawful_limit limit) timeout }
{
    match (lawful(limit), timeout) {
        (None, _) => true,
        (Some(limit), Some(timeout)) => limit.micros == timeout.micros,
        (Some(_), None) => false,
    }
}

fn stuck_by(empty: bool, una: TcpSeqNumber) -> Phase
    ensures { result ≡ stuck_by empty una }
{
    if empty {
        Phase::Free
    } else {
        Phase::Stuck(una)
    }
}

fn same_phase(phase: Phase, before: Phase) -> bool
    ensures { result ≡ same_phase phase before }
{
    match (phase, before) {
        (Phase::Handshake, Phase::Handshake) | (Phase::FinWait2, Phase::FinWait2) => true,
        (Phase::Stuck(a), Phase::Stuck(b))
        | (Phase::Stuck(a), Phase::Closing(b))
        | (Phase::Closing(a), Phase::Stuck(b))
        | (Phase::Closing(a), Phase::Closing(b)) => a.0 == b.0,
        _ => false,
    }
}

fn since_in(phase: Phase, before: Phase, since: Option<Instant>, now: Instant) -> Option<Instant>
    requires moment { IsMoment now.micros }
    requires since { IsLastTs since }
    ensures value { result ≡ since_in phase before since now }
    ensures lawful { IsLastTs result }
{
    match phase {
        Phase::Free => None,
        _ => since_by(same_phase(phase, before), since, now),
    }
}

fn since_by(same: bool, since: Option<Instant>, now: Instant) -> Option<Instant>
    requires moment { IsMoment now.micros }
    requires since { IsLastTs since }
    ensures value { result ≡ since_by same since now }
    ensures lawful { IsLastTs result }
{
    match (same, since) {
        (true, Some(since)) if since.micros <= now.micros => Some(since),
        _ => Some(now),
    }
}

fn end_of(limit: Option<Duration>, since: Option<Instant>) -> Option<Instant>
    requires limit { ForSome limit (λ d. d.micros ≤ 2 ^ 61) }
    requires since { IsLastTs since }
    ensures value { result ≡ end_of limit since }
    ensures told { IsTold result }
{
    match (limit, since) {
        (Some(limit), Some(since)) => Some(after(since, limit)),
        _ => None,
    }
}

fn has_ended(end: Option<Instant>, now: Instant) -> bool
    ensures { result ≡ has_ended end now }
{
    match end {
        None => false,
        Some(end) => end <= now,
    }
}

fn last_left(phase: Phase, last: Option<Instant>) -> Option<Instant>
    requires { IsLastTs last }
    ensures value { result ≡ last_left false phase last }
    ensures lawful { IsLastTs result }
{
    match phase {
        Phase::FinWait2 => last,
        _ => None,
    }
}

// The last dispatch in FIN-WAIT-2 once one was allowed now.
fn last_after(phase: Phase, last: Option<Instant>, now: Instant) -> Option<Instant>
    requires last { IsLastTs last }
    requires moment { IsMoment now.micros }
    ensures value { result ≡ last_after true phase last now }
    ensures lawful { IsLastTs result }
{
    match phase {
        Phase::FinWait2 => Some(now),
        _ => last,
    }
}

// ---- what becomes of the socket

fn set_timeout<G>(socket: &mut Socket<'_, G>, timeout: Option<Duration>)
    requires { ForSome timeout (λ d. d.micros ≤ 2 ^ 61) }
    ensures socket { socket.new.control_block ≡ with_timeout timeout socket.old.control_block }
    ensures generator { socket.new.tsval_generator ≡ socket.old.tsval_generator }
{
    if timeout.is_some() {
        socket.set_timeout(timeout);
    }
}

fn end_if<G>(over: bool, phase: Phase, socket: &mut Socket<'_, G>)
    ensures socket { socket.new.control_block ≡ ended_if over phase socket.old.control_block }
    ensures generator { socket.new.tsval_generator ≡ socket.old.tsval_generator }
{
    match (over, phase) {
        (false, _) => {}
        (true, Phase::Handshake) => give_up(socket),
        (true, _) => socket.abort(),
    }
}

// No RST goes out where the socket listens again.
fn give_up<G>(socket: &mut Socket<'_, G>)
    ensures socket { socket.new.control_block ≡ given_up socket.old.control_block }
    ensures generator { socket.new.tsval_generator ≡ socket.old.tsval_generator }
{
    let endpoint = socket.listen_endpoint();
    socket.abort();
    if endpoint.port != 0 {
        let _ = socket.listen(endpoint);
    }
}

// ---- moments

fn is_in_pace(last: Option<Instant>, now: Instant) -> bool
    ensures { result ≡ may_in FinWait2 last now }
{
    match last {
        Some(last) => PACE.micros <= (now - last).micros,
        None => true,
    }
}

fn behind(last: Option<Instant>, asked: PollAt) -> PollAt
    requires { IsLastTs last }
    ensures { result ≡ paced FinWait2 last asked }
{
    match last {
        Some(last) => not_before(after(last, PACE), asked),
        None => asked,
    }
}

fn after(moment: Instant, delay: Duration) -> Instant
    requires moment { IsMoment moment.micros }
    requires short { delay.micros ≤ 2 ^ 61 }
    ensures { result ≡ after moment delay }
{
    moment + delay
}

/// What is asked for, but not before a moment.
pub(crate) fn not_before(moment: Instant, asked: PollAt) -> PollAt
    ensures { result ≡ not_before moment asked }
{
    match asked {
        PollAt::Now => PollAt::Time(moment),
        PollAt::Time(at) => PollAt::Time(if moment.micros <= at.micros {
            at
        } else {
            moment
        }),
        PollAt::Ingress => PollAt::Ingress,
    }
}

fn earlier(asked: PollAt, end: Instant) -> PollAt
    ensures { result ≡ earlier asked (PollAt.Time end) }
{
    match asked {
        PollAt::Now => PollAt::Now,
        PollAt::Time(at) => PollAt::Time(if at.micros <= end.micros { at } else { end }),
        PollAt::Ingress => PollAt::Time(end),
    }
}
