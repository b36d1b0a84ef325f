//! What `dispatch` does next, and why, asked for beforehand (RFC 9293, section 3.8).
ghost use Rattle.std.specs.Prelude.{◌≡◌, Some, length};
ghost use Rattle.sock_core.specs.Bounds.{IsMoment};
ghost use Rattle.sock_tcp.specs.Next.{due_reason, has_fin, is_timed_out, last_or, reason_by, reason_of, reason_text};
ghost use Rattle.sock_tcp.specs.Next.{reason_to};
ghost use Rattle.sock_tcp.specs.Next.{timed_reason, timer_reason, unpaused_reason, waiting_reason};
ghost use Rattle.sock_tcp.specs.Rfc.TailLoss.{probes_tail};
ghost use Rattle.sock_tcp.specs.Rfc.UserTimeout.{timeout_of};
ghost use Rattle.sock_tcp.specs.Poll.{poll_moment};
ghost use Rattle.sock_tcp.specs.View.{IsShort, moment_of};

use crate::begin::has_local_address;
use crate::control_block::ControlBlock;
use crate::poll::is_reached;
use crate::rules::Rules;
use crate::socket::Socket;
use crate::timer::{Timer, after, is_over};
use crate::tuple::Tuple;
use net_base::time::{Duration, Instant};
use sock_core::{Context, PollAt};
use std::fmt;

/// What the next `dispatch` does, and why. Up to `WindowProbe` it is what comes before the reasons to emit: what goes
/// out then follows from what that changes.
#[derive(Debug, Clone, Copy, PartialEq, Eq)]
pub enum Reason {
    /// Nothing: there is no connection.
    NoPeer,
    /// The interface has lost the local address: the socket is reset, and emits nothing. As smoltcp.
    AddressGone,
    /// The user timeout is over: the connection ends with an RST (RFC 9293, section 3.8.3).
    UserTimeout,
    /// By the RFCs' rules: a tail-loss probe, or the hole of a loss that was waited for (RFC 8985, sections 6.2 and 7).
    TailLossProbe,
    /// The retransmission timer is over: all behind SND.UNA goes out again (RFC 6298, section 5).
    RetransmissionTimeout,
    /// Duplicate acknowledgements tell of a loss: the segment at SND.UNA goes out again (RFC 5681, section 3.2).
    FastRetransmission,
    /// The window of the peer is closed, and its probe is due (RFC 9293, section 3.8.6.1).
    WindowProbe,
    /// Nothing: the SYN|ACK waits until it is let go (`pause_synack`).
    Paused,
    /// The RST of a connection that ended here (RFC 9293, section 3.10.5).
    Reset,
    /// What was lost goes out again, in a fast recovery (RFC 5681, section 3.2; RFC 6675, section 5).
    Retransmission,
    /// Bytes that both windows let out (RFC 9293, section 3.8), after a timeout what was sent before.
    Data,
    /// The SYN, or the SYN|ACK (RFC 9293, section 3.5).
    Syn,
    /// The FIN, with the bytes before it (RFC 9293, section 3.6).
    Fin,
    /// An acknowledgement whose delay is over (RFC 9293, section 3.8.6.3), or by the RFCs' rules bytes that waited for
    /// a larger window (section 3.8.6.2.1).
    Delayed,
    /// A receive window that has doubled since it was sent (RFC 9293, section 3.8.6). As smoltcp.
    WindowUpdate,
    /// A keep-alive (RFC 9293, section 3.8.4).
    KeepAlive,
    /// TIME-WAIT is over, and the connection ends (RFC 9293, section 3.10.8).
    TimeWaitOver,
    /// Nothing is due until then, as `poll_at` returns it.
    Waits(PollAt),
}

impl Reason {
    /// What the reason prints.
    pub fn text(self) -> &'static str
        ensures { result.now ≡ reason_text self }
    {
        match self {
            Reason::NoPeer => "no connection",
            Reason::AddressGone => "local address gone",
            Reason::UserTimeout => "user timeout",
            Reason::TailLossProbe => "tail-loss probe",
            Reason::RetransmissionTimeout => "retransmission timeout",
            Reason::FastRetransmission => "fast retransmission",
            Reason::WindowProbe => "window probe",
            Reason::Paused => "SYN|ACK paused",
            Reason::Reset => "RST of a closed socket",
            Reason::Retransmission => "retransmission",
            Reason::Data => "data",
            Reason::Syn => "SYN",
            Reason::Fin => "FIN",
            Reason::Delayed => "acknowledgement or data whose delay is over",
            Reason::WindowUpdate => "window update",
            Reason::KeepAlive => "keep-alive",
            Reason::TimeWaitOver => "TIME-WAIT is over",
            Reason::Waits(_) => "waits",
        }
    }
}

impl fmt::Display for Reason {
    ghost output = { λ r. Some (reason_text r) };

    fn fmt<W: fmt::Write>(&self, f: &mut fmt::Formatter<W>) -> fmt::Result {
        write!(f, "{}", self.text())
    }
}

impl<'a> ControlBlock<'a> {
    fn waiting_reason(&self, now: Instant, poll: PollAt) -> Reason
        ensures { result ≡ waiting_reason self.now now poll }
    {
        if self.timer.is_close_over(now) {
            Reason::TimeWaitOver
        } else {
            Reason::Waits(poll)
        }
    }

    fn timed_reason(&self, now: Instant, poll: PollAt) -> Reason
        ensures { result ≡ timed_reason self.now now poll }
    {
        if is_reached(self.held_poll(), now) {
            return Reason::Delayed;
        }
        if self.window_doubled() {
            return Reason::WindowUpdate;
        }
        if self.timer.is_keep_alive_over(now) {
            return Reason::KeepAlive;
        }
        self.waiting_reason(now, poll)
    }

    fn has_fin(&self) -> bool
        ensures { result ≡ has_fin self.now }
    {
        let end = self.local_seq_no.plus(self.tx_buffer.len());
        self.state.is_closing() && self.remote_last_seq == end
    }

    fn due_reason(&self, mss: usize, now: Instant, poll: PollAt) -> Reason
        ensures { result ≡ due_reason self.now mss now poll }
    {
        if self.state.is_closed() {
            return Reason::Reset;
        }
        if self.pending_fast_retransmit && !self.tx_buffer.is_empty() {
            return Reason::Retransmission;
        }
        let out = self.sendable();
        if out != 0 && !self.is_held_back(out, mss) {
            return Reason::Data;
        }
        if self.state.is_opening() && self.flight() == 0 {
            return Reason::Syn;
        }
        if self.has_fin() {
            return Reason::Fin;
        }
        self.timed_reason(now, poll)
    }

    fn unpaused_reason(&self, mss: usize, now: Instant, poll: PollAt) -> Reason
        ensures { result ≡ unpaused_reason self.now mss now poll }
    {
        if self.is_paused() {
            Reason::Paused
        } else {
            self.due_reason(mss, now, poll)
        }
    }

    fn timer_reason(&self, mss: usize, now: Instant, poll: PollAt) -> Reason
        ensures { result ≡ timer_reason self.now.timer self.now mss now poll }
    {
        match self.timer {
            Timer::Retransmit { expires_at } if is_over(expires_at, now) => {
                Reason::RetransmissionTimeout
            }
            Timer::FastRetransmit => Reason::FastRetransmission,
            Timer::ZeroWindowProbe { expires_at, .. } if is_over(expires_at, now) => {
                Reason::WindowProbe
            }
            _ => self.unpaused_reason(mss, now, poll),
        }
    }

    // How long the peer may be silent.
    #[tactic(auto, unfolding(crate::specs::Rfc::UserTimeout::timeout_by))]
    fn running_timeout(&self) -> Option<Duration>
        ensures value { result ≡ timeout_of self.now }
        ensures short { IsShort result }
    {
        match self.rules {
            Rules::Smoltcp => self.timeout(),
            Rules::Rfc => self.silence(),
        }
    }

    fn is_timed_out(&self, now: Instant) -> bool
        requires { IsMoment now.micros }
        ensures { result ≡ is_timed_out self.now now }
    {
        let last = match self.remote_last_ts() {
            None => now,
            Some(last) => last,
        };
        match self.running_timeout() {
            None => false,
            Some(timeout) => is_over(after(last, timeout), now),
        }
    }

    // Where the retransmission timer is over, and a probe or a hole goes out in place of all.
    fn probes_tail(&self, now: Instant) -> bool
        ensures { result ≡ probes_tail self.now now }
    {
        match self.timer {
            Timer::Retransmit { expires_at } => self.may_speak_now() && is_over(expires_at, now),
            _ => false,
        }
    }

    #[tactic(auto, unfolding(crate::specs::Next::reason_by))]
    fn reason(&self, mss: usize, now: Instant, poll: PollAt) -> Reason
        requires { IsMoment now.micros }
        ensures { result ≡ reason_by self.now mss now poll }
    {
        if self.is_timed_out(now) {
            return Reason::UserTimeout;
        }
        if self.probes_tail(now) {
            return Reason::TailLossProbe;
        }
        self.timer_reason(mss, now, poll)
    }

    fn reason_here<C: Context>(&self, cx: &C, mss: usize) -> Reason
        ensures { result ≡ reason_by self.now mss (moment_of (C.facts cx.now)) (poll_moment self.now (C.facts cx.now)) }
    {
        let poll = self.poll_at(cx);
        self.reason(mss, cx.now(), poll)
    }

    fn reason_toward<C: Context>(&self, cx: &C, tuple: &Tuple) -> Reason
        ensures { result ≡ reason_to (Some tuple.now) self.now (C.facts cx.now) }
    {
        if !has_local_address(cx, tuple) {
            return Reason::AddressGone;
        }
        self.reason_here(cx, self.effective_mss(cx, tuple))
    }

    #[tactic(auto, unfolding(crate::specs::Next::reason_of))]
    fn next<C: Context>(&self, cx: &C) -> Reason
        ensures { result ≡ reason_of self.now (C.facts cx.now) }
    {
        match &self.tuple {
            None => Reason::NoPeer,
            Some(tuple) => self.reason_toward(cx, tuple),
        }
    }
}

impl<'a, G> Socket<'a, G> {
    /// What [`Socket::dispatch`] does next in this context, and why. Nothing changes. What a reason says of `dispatch`:
    /// `reasons::reasons_say_what_goes_out`.
    pub fn next<C: Context>(&self, cx: &C) -> Reason
        ensures { result ≡ reason_of self.now.control_block (C.facts cx.now) }
    {
        self.control_block.next(cx)
    }
}
