//! What a control block may have or not have: each value stands beside a flag, since the `Option` of a moment takes as
//! many bytes as two moments.
ghost use Rattle.std.specs.Prelude.{◌≡◌};
ghost use Rattle.sock_tcp.specs.Kept.{delay_kept};
ghost use Rattle.sock_tcp.specs.Timers.{IsLastTs};
ghost use Rattle.sock_tcp.specs.View.{IsShort};

use crate::control_block::ControlBlock;
use crate::timer::AckDelayTimer;
use control_wire::TcpSeqNumber;
use net_base::time::{Duration, Instant};
use sock_core::kept::kept;

/// Which of its variants an [`AckDelayTimer`] has.
#[derive(Debug, Clone, Copy)]
pub enum DelayKind {
    /// `Idle`.
    Idle,
    /// `Waiting`.
    Waiting,
    /// `Immediate`.
    Immediate,
}

impl DelayKind {
    // The timer that waits until this moment, if it does.
    #[inline(always)]
    fn until(self, moment: Instant) -> AckDelayTimer
        ensures { result ≡ delay_kept self moment }
    {
        match self {
            DelayKind::Idle => AckDelayTimer::Idle,
            DelayKind::Waiting => AckDelayTimer::Waiting(moment),
            DelayKind::Immediate => AckDelayTimer::Immediate,
        }
    }
}

impl<'a> ControlBlock<'a> {
    pub(crate) fn timeout(&self) -> Option<Duration>
        ensures value { result ≡ self.now.timeout }
        ensures short { IsShort result }
    {
        kept(self.has_timeout, self.timeout)
    }

    pub(crate) fn keep_timeout(&mut self, timeout: Option<Duration>)
        requires { IsShort timeout }
        ensures view { self.new ≡ record self.old { timeout = timeout } }
        ensures stamps { self.new.stamps ≡ self.old.stamps }
    {
        match timeout {
            Some(timeout) => {
                self.has_timeout = true;
                self.timeout = timeout;
            }
            None => self.has_timeout = false,
        }
    }

    pub(crate) fn keep_alive(&self) -> Option<Duration>
        ensures value { result ≡ self.now.keep_alive }
        ensures short { IsShort result }
    {
        kept(self.has_keep_alive, self.keep_alive)
    }

    pub(crate) fn keep_keep_alive(&mut self, interval: Option<Duration>)
        requires { IsShort interval }
        ensures view { self.new ≡ record self.old { keep_alive = interval } }
        ensures stamps { self.new.stamps ≡ self.old.stamps }
    {
        match interval {
            Some(interval) => {
                self.has_keep_alive = true;
                self.keep_alive = interval;
            }
            None => self.has_keep_alive = false,
        }
    }

    pub(crate) fn ack_delay(&self) -> Option<Duration>
        ensures { result ≡ self.now.ack_delay }
    {
        kept(self.has_ack_delay, self.ack_delay)
    }

    pub(crate) fn keep_ack_delay(&mut self, delay: Option<Duration>)
        requires { IsShort delay }
        ensures view { self.new ≡ record self.old { ack_delay = delay } }
        ensures stamps { self.new.stamps ≡ self.old.stamps }
    {
        match delay {
            Some(delay) => {
                self.has_ack_delay = true;
                self.ack_delay = delay;
            }
            None => self.has_ack_delay = false,
        }
    }

    pub(crate) fn remote_last_ts(&self) -> Option<Instant>
        ensures value { result ≡ self.now.remote_last_ts }
        ensures lawful { IsLastTs result }
    {
        kept(self.has_remote_last_ts, self.remote_last_ts)
    }

    pub(crate) fn idle_at(&self) -> Option<Instant>
        ensures { result ≡ self.now.idle_at }
    {
        kept(self.has_idle_at, self.idle_at)
    }

    pub(crate) fn local_rx_last_seq(&self) -> Option<TcpSeqNumber>
        ensures { result ≡ self.now.local_rx_last_seq }
    {
        kept(self.has_local_rx_last_seq, self.local_rx_last_seq)
    }

    pub(crate) fn local_rx_last_ack(&self) -> Option<TcpSeqNumber>
        ensures { result ≡ self.now.local_rx_last_ack }
    {
        kept(self.has_local_rx_last_ack, self.local_rx_last_ack)
    }

    pub(crate) fn ack_delay_timer(&self) -> AckDelayTimer
        ensures { result ≡ self.now.ack_delay_timer }
    {
        self.ack_delay_kind.until(self.ack_delay_until)
    }
}
