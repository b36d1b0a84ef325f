//! The retransmission timer once a segment was heard, by the rules of the RFCs (RFC 6298, section 5; RFC 6582, section
//! 3.2).
ghost use Rattle.std.specs.Prelude.{◌≡◌, length};
ghost use Rattle.sock_core.specs.Bounds.{IsMoment};
ghost use Rattle.sock_tcp.specs.Due.{flight};
ghost use Rattle.sock_tcp.specs.Rfc.Recovery.{begun_by, gone_on_from, has_timer, heard_for, is_later_partial, kept_if};
ghost use Rattle.sock_tcp.specs.Rfc.Recovery.{left_running, probe_soonest, running, soonest, timer_after, waited_for};
ghost use Rattle.sock_tcp.specs.Timers.{IsTimer};

use crate::control_block::ControlBlock;
use crate::recovery::Before;
use crate::rules::Rules;
use crate::state::State;
use crate::tail::sooner;
use crate::timer::Timer;
use net_base::time::Instant;
use sock_core::rtte::RttEstimator;

// Where no fast retransmission is to come, the retransmission timer goes on as it was.
fn gone_on_from(timer: Timer, now: Instant, rtte: &RttEstimator) -> Timer
    requires { IsMoment now.micros }
    ensures value { result ≡ gone_on_from timer now rtte.now }
    ensures lawful { IsTimer result }
{
    match timer {
        Timer::Retransmit { .. } => timer,
        _ => Timer::retransmit(now, rtte),
    }
}

// A probe that begins comes a retransmission timeout after the last segment that took numbers, where that is sooner.
fn soonest(idle_at: Option<Instant>, at: Instant) -> Instant
    ensures { result ≡ soonest idle_at at }
{
    match idle_at {
        None => at,
        Some(idle) => sooner(at, idle),
    }
}

fn probe_soonest(idle_at: Option<Instant>, timer: Timer) -> Timer
    requires { IsTimer timer }
    ensures value { result ≡ probe_soonest idle_at timer }
    ensures lawful { IsTimer result }
{
    match timer {
        Timer::ZeroWindowProbe { expires_at, delay } => Timer::ZeroWindowProbe {
            expires_at: soonest(idle_at, expires_at),
            delay,
        },
        _ => timer,
    }
}

impl Before {
    // Of the partial acknowledgements the first alone begins the retransmission timer anew.
    fn is_later_partial(&self, after: &ControlBlock<'_>) -> bool
        ensures { result ≡ is_later_partial self.now after.now }
    {
        self.recovery.is_acked() && self.is_partial(after)
    }

    // Of a later partial acknowledgement the retransmission timer is as it was.
    fn kept(&self, after: &ControlBlock<'_>, timer: Timer) -> Timer
        requires { IsTimer timer }
        ensures value { result ≡ kept_if (is_later_partial self.now after.now) self.now.timer timer }
        ensures lawful { IsTimer result }
    {
        if !self.is_later_partial(after) {
            return timer;
        }
        match (self.timer, timer) {
            (Timer::Retransmit { .. }, Timer::Retransmit { .. }) => self.timer,
            _ => timer,
        }
    }

    // What runs while nothing is marked.
    fn left_running(&self, after: &ControlBlock<'_>, now: Instant) -> Timer
        requires { IsMoment now.micros }
        ensures value { result ≡ left_running self.now after.now now }
        ensures lawful { IsTimer result }
    {
        let timer = self.kept(after, after.running(now));
        match self.timer {
            Timer::ZeroWindowProbe { .. } => timer,
            _ => probe_soonest(after.idle_at(), timer),
        }
    }

    fn heard_for(&self, after: &ControlBlock<'_>, now: Instant) -> Timer
        requires { IsMoment now.micros }
        ensures value { result ≡ heard_for self.now after.now now }
        ensures lawful { IsTimer result }
    {
        if self.tells_controller(after) {
            return Timer::FastRetransmit;
        }
        if self.is_called(after) {
            return gone_on_from(self.timer, now, &after.rtte);
        }
        let waits = self.waits_tail(after);
        let alone = after.is_alone();
        let running = self.left_running(after, now);
        running.or_tail(waits, now, &after.rtte, alone)
    }

    fn waited_for(&self, after: &ControlBlock<'_>, now: Instant) -> Timer
        requires { IsMoment now.micros }
        ensures value { result ≡ waited_for self.now after.now now }
        ensures lawful { IsTimer result }
    {
        let timer = self.heard_for(after, now);
        self.with_late(after, timer, now)
    }

    pub(crate) fn timer_after(&self, after: &ControlBlock<'_>, now: Instant) -> Timer
        requires { IsMoment now.micros }
        ensures value { result ≡ timer_after self.now after.now now }
        ensures lawful { IsTimer result }
    {
        if after.state.has_timer() {
            self.waited_for(after, now)
        } else {
            after.timer
        }
    }
}

impl State {
    // Its timer is one for acknowledgements.
    fn has_timer(self) -> bool
        ensures { result ≡ has_timer self }
    {
        matches!(self, State::SynReceived | State::FinWait2) || self.carries_data()
    }
}

impl<'a> ControlBlock<'a> {
    // The timer once that of a retransmission is over: a window is probed for where there is none, and bytes wait.
    #[inline(always)]
    pub(crate) fn timer_begun(&self, now: Instant) -> Timer
        requires { IsMoment now.micros }
        ensures value { result ≡ begun_by self.now.rules self.now.remote_win_len (length self.now.tx_buffer.bytes) now
            self.now.keep_alive self.now.rtte }
        ensures lawful { IsTimer result }
    {
        match self.rules {
            Rules::Rfc if self.remote_win_len == 0 && !self.tx_buffer.is_empty() => {
                Timer::probe(now, &self.rtte)
            }
            _ => Timer::idle(now, self.keep_alive()),
        }
    }

    // A timer runs whenever something is in flight, and none for a window while there is nothing to send.
    fn running(&self, now: Instant) -> Timer
        requires { IsMoment now.micros }
        ensures value { result ≡ running self.now.timer (flight self.now) (length self.now.tx_buffer.bytes)
            self.now.keep_alive self.now.rtte now }
        ensures lawful { IsTimer result }
    {
        match self.timer {
            Timer::Idle { .. } if self.flight() != 0 => Timer::retransmit(now, &self.rtte),
            Timer::ZeroWindowProbe { .. } if self.tx_buffer.len() <= self.flight() => {
                if self.flight() == 0 {
                    Timer::idle(now, self.keep_alive())
                } else {
                    Timer::retransmit(now, &self.rtte)
                }
            }
            timer => timer,
        }
    }
}
