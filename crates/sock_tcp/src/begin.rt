//! How a dispatch begins (RFC 9293, section 3.8; RFC 6298, section 5; RFC 5681, section 3.2).
ghost use Rattle.std.specs.Prelude.{◌≡◌};
ghost use Rattle.sock_core.specs.Bounds.{IsMoment};
ghost use Rattle.sock_tcp.specs.View.{moment_of};
ghost use Rattle.sock_tcp.specs.Due.{flight, flight_lost, is_due, usable};
ghost use Rattle.sock_tcp.specs.Begin.{last_ts_set, readied, retransmission_begun, fast_retransmission_marked};
ghost use Rattle.sock_core.specs.Congestion.{congestion_window};
ghost use Rattle.sock_tcp.specs.Begin.{after_timers, probing_begun};
ghost use Rattle.sock_tcp.specs.Rfc.Recovery.{marked_by};
ghost use Rattle.sock_tcp.specs.Timers.{IsTimer};
ghost use Rattle.sock_tcp.specs.Begin.{is_paused, begun, nothing_due, before_emit_to, before_emit};

use crate::control_block::ControlBlock;
use crate::poll::is_reached;
use crate::rules::Rules;
use crate::scoreboard::NOTHING_TOLD;
use crate::state::State;
use crate::timer::{Timer, is_over};
use crate::tuple::Tuple;
use net_base::time::Instant;
use sock_core::Context;
use sock_core::congestion::Controller;

// Whether the interface still has the local address of the connection.
pub(crate) fn has_local_address<C: Context>(cx: &C, tuple: &Tuple) -> bool
    ensures { result ≡ (C.facts cx.now).has_address tuple.now.local.addr }
{
    cx.has_ip_addr(tuple.local.addr)
}

impl<'a> ControlBlock<'a> {
    // The user timeout counts from the last segment that was heard (`take_window`), and, where none was since the
    // connection was asked for or since bytes joined an empty queue, from the first dispatch after that.
    #[tactic(auto, unfolding(crate::specs::Begin::last_ts_set))]
    fn set_last_ts(&mut self, now: Instant)
        requires { IsMoment now.micros }
        ensures table { self.new ≡ last_ts_set self.old now }
        ensures stamps { self.new.stamps ≡ self.old.stamps }
    {
        if !self.has_remote_last_ts {
            self.has_remote_last_ts = true;
            self.remote_last_ts = now;
        }
    }

    // The controller is told that a segment may go out.
    #[tactic(auto, unfolding(crate::specs::Begin::readied))]
    fn set_last_ts_and_tell(&mut self, now: Instant)
        requires { IsMoment now.micros }
        ensures table { self.new ≡ readied self.old now }
        ensures stamps { self.new.stamps ≡ self.old.stamps }
    {
        self.set_last_ts(now);
        self.congestion_controller.pre_transmit(now);
    }

    // All behind SND.UNA is sent again, also what was told by SACK. The timer is idle until a segment goes out, or by
    // the RFCs' rules a window is probed for; it is not over any longer: where the window lets nothing out now, a timer
    // that stays over would want the next dispatch at once, again and again.
    #[tactic(auto, unfolding(crate::specs::Begin::retransmission_begun))]
    fn begin_retransmission(&mut self, now: Instant)
        requires { IsMoment now.micros }
        ensures table { self.new ≡ retransmission_begun self.old now }
        ensures stamps { self.new.stamps ≡ self.old.stamps }
    {
        let flight = self.flight();
        self.undo = self
            .undo
            .timed_out(self.rules, self.recovery, &self.congestion_controller);
        self.congestion_controller.on_rto(now, flight);
        self.recovery = self.recovery.timed_out(self.rules, self.remote_last_seq);
        self.sacked = NOTHING_TOLD;
        self.remote_last_seq = self.local_seq_no;
        self.rtte.on_rto();
        self.rtte.on_retransmit();
        self.timer = self.timer_begun(now);
    }

    // What of the queue the peer's window lets out.
    fn usable(&self) -> usize
        ensures { result ≡ usable self.now }
    {
        self.remote_win_len.min(self.tx_buffer.len())
    }

    // What was in flight when a loss is told: by the RFCs' rules what both windows let out, also where the host heard
    // many segments and has not let it out yet, without what went out beyond the congestion window.
    pub(crate) fn flight_lost(&self) -> usize
        ensures { result ≡ flight_lost self.now.rules (flight self.now) (usable self.now)
            (congestion_window self.now.congestion_controller) }
    {
        let flight = self.flight();
        match self.rules {
            Rules::Smoltcp => flight,
            Rules::Rfc => flight
                .max(self.usable())
                .min(self.congestion_controller.window()),
        }
    }

    // The timer once a fast retransmission is due.
    fn timer_marked(&self, now: Instant) -> Timer
        requires { IsMoment now.micros }
        ensures value { result ≡ marked_by self.now.rules now self.now.keep_alive self.now.rtte }
        ensures lawful { IsTimer result }
    {
        match self.rules {
            Rules::Smoltcp => Timer::idle(now, self.keep_alive()),
            Rules::Rfc => Timer::retransmit(now, &self.rtte),
        }
    }

    // A fast retransmission is marked.
    #[tactic(auto, unfolding(crate::specs::Begin::fast_retransmission_marked))]
    fn mark_fast_retransmission(&mut self, now: Instant)
        requires { IsMoment now.micros }
        ensures table { self.new ≡ fast_retransmission_marked self.old now }
        ensures stamps { self.new.stamps ≡ self.old.stamps }
    {
        let flight = self.flight_lost();
        self.undo = self.undo.marked(self.rules, &self.congestion_controller);
        self.congestion_controller.on_loss(now, flight);
        self.pending_fast_retransmit = true;
        self.rtte.on_retransmit();
        self.timer = self.timer_marked(now);
    }

    // A window is to be probed for: by the RFCs' rules with the byte at SND.UNA.
    fn begin_probe(&mut self)
        ensures table { self.new ≡ probing_begun self.old.rules self.old }
        ensures stamps { self.new.stamps ≡ self.old.stamps }
    {
        if let Rules::Rfc = self.rules {
            self.recovery = self.recovery.timed_out(self.rules, self.remote_last_seq);
            self.remote_last_seq = self.local_seq_no;
            self.rtte.on_retransmit();
        }
    }

    // What the moments that have passed change.
    #[inline(always)]
    #[tactic(auto, unfolding(crate::specs::Begin::after_timers))]
    fn heed_timers(&mut self, now: Instant)
        requires { IsMoment now.micros }
        ensures table { self.new ≡ after_timers self.old now }
        ensures stamps { self.new.stamps ≡ self.old.stamps }
    {
        if is_reached(self.timeout_poll(), now) {
            self.state = State::Closed;
            return;
        }
        match self.timer {
            Timer::Retransmit { expires_at } => {
                if is_over(expires_at, now) {
                    if self.may_speak_now() {
                        self.probe_tail(now);
                    } else {
                        self.begin_retransmission(now);
                    }
                }
            }
            Timer::FastRetransmit => self.mark_fast_retransmission(now),
            Timer::ZeroWindowProbe { expires_at, .. } => {
                if is_over(expires_at, now) {
                    self.begin_probe();
                }
            }
            _ => {}
        }
    }

    // Whether it is a SYN|ACK that waits.
    pub(crate) fn is_paused(&self) -> bool
        ensures { result ≡ is_paused self.now.state self.now.synack_paused }
    {
        matches!(self.state, State::SynReceived) && self.synack_paused
    }

    // What comes before the reasons; whether the dispatch goes on to the peer.
    #[tactic(auto, unfolding(crate::specs::Begin::begun))]
    fn begin<C: Context>(&mut self, cx: &C) -> bool
        ensures table { record { view = self.new; goes_on = result } ≡ begun self.old (C.facts cx.now) }
        ensures stamps { self.new.stamps ≡ self.old.stamps }
    {
        let has_address = match &self.tuple {
            None => return false,
            Some(tuple) => has_local_address(cx, tuple),
        };
        if !has_address {
            self.reset();
            return false;
        }
        let now = cx.now();
        self.set_last_ts_and_tell(now);
        self.heed_timers(now);
        !self.is_paused()
    }

    // Nothing is due: TIME-WAIT may be over.
    #[tactic(auto, unfolding(crate::specs::Begin::nothing_due))]
    fn end_time_wait(&mut self, now: Instant)
        ensures table { self.new ≡ nothing_due self.old now }
        ensures stamps { self.new.stamps ≡ self.old.stamps }
    {
        if self.timer.is_close_over(now) {
            match self.rules {
                Rules::Smoltcp => self.reset(),
                // What was received can be read.
                Rules::Rfc => self.drop_connection(),
            }
        }
    }

    // The reasons; whether something is due to the peer.
    fn look_for_reason<C: Context>(&mut self, cx: &C) -> bool
        ensures table { record { view = self.new; goes_on = result }
            ≡ before_emit_to self.old.tuple self.old (C.facts cx.now) }
        ensures stamps { self.new.stamps ≡ self.old.stamps }
    {
        let due = match &self.tuple {
            None => return false,
            Some(tuple) => self.is_due(cx, tuple),
        };
        if !due {
            self.end_time_wait(cx.now());
        }
        due
    }

    // The beginning and the reasons; whether a segment goes out to the peer.
    #[tactic(auto, unfolding(crate::specs::Begin::before_emit))]
    pub(crate) fn before_emit<C: Context>(&mut self, cx: &C) -> bool
        ensures table { record { view = self.new; goes_on = result } ≡ before_emit self.old (C.facts cx.now) }
        ensures stamps { self.new.stamps ≡ self.old.stamps }
    {
        if !self.begin(cx) {
            return false;
        }
        self.look_for_reason(cx)
    }
}
