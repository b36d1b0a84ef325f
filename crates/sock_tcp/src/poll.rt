//! When a socket wants its next dispatch.
ghost use Rattle.std.specs.Prelude.{◌≡◌, IsTrue, Some, false};
ghost use Rattle.sock_tcp.specs.Polls.{is_reached, earlier, timer_poll};
ghost use Rattle.sock_tcp.specs.Poll.{is_due_by, is_due_now, poll_moment, poll_moment_by};
ghost use Rattle.sock_tcp.specs.Window.{next_ack};
ghost use Rattle.sock_tcp.specs.Due.{ack_due, held_poll, window_doubled};
ghost use Rattle.sock_core.specs.Facts.{Facts};
ghost use Rattle.sock_tcp.specs.declared.tuple.Tuple.{Tuple};
ghost use Rattle.sock_tcp.specs.Work.{has_work};

use crate::control_block::ControlBlock;
use crate::socket::Socket;
use crate::state::State;
use crate::timer::{Timer, is_over};
use net_base::time::Instant;
use sock_core::{Context, PollAt};

// Whether the poll moment is now or was before.
pub(crate) fn is_reached(poll: PollAt, now: Instant) -> bool
    ensures { result ≡ is_reached poll now }
{
    match poll {
        PollAt::Now => true,
        PollAt::Time(at) => is_over(at, now),
        PollAt::Ingress => false,
    }
}

// The earlier of two poll moments.
pub(crate) fn earlier(poll: PollAt, other: PollAt) -> PollAt
    ensures { result ≡ earlier poll other }
{
    match (poll, other) {
        (PollAt::Now, _) => PollAt::Now,
        (PollAt::Ingress, _) => other,
        (PollAt::Time(_), PollAt::Now) => PollAt::Now,
        (PollAt::Time(_), PollAt::Ingress) => poll,
        (PollAt::Time(at), PollAt::Time(then)) => {
            PollAt::Time(if at.micros <= then.micros { at } else { then })
        }
    }
}

impl<'a> ControlBlock<'a> {
    #[tactic(auto, unfolding(crate::specs::Work::has_work))]
    fn has_work(&self) -> bool
        ensures { result ≡ has_work self.now }
    {
        self.state.works(
            self.tuple.is_some(),
            self.tx_buffer.is_empty(),
            self.synack_paused,
        )
    }

    fn is_due_by(&self, mss: usize) -> bool
        ensures { result ≡ is_due_by self.now mss }
    {
        self.remote_last_ts().is_none()
            || self.state.is_closed()
            || self.data_due_by(mss)
            || self.window_doubled()
    }

    #[tactic(auto, unfolding(crate::specs::Poll::poll_moment, crate::specs::Due::data_due))]
    pub(crate) fn poll_at<C: Context>(&self, cx: &C) -> PollAt
        ensures { result ≡ poll_moment self.now (C.facts cx.now) }
    {
        let tuple = match &self.tuple {
            None => return PollAt::Ingress,
            Some(tuple) => tuple,
        };
        if self.is_quiet() {
            return self.timer_or(self.timeout_poll());
        }
        self.poll_at_in_full(self.effective_mss(cx, tuple))
    }

    // The poll moment of a socket with a peer, by all that it may wait for, with segments of up to so many bytes. Not
    // inlined, so that the path of a quiet socket has no registers to save; and of the context it takes the one number,
    // which then need not lie in memory.
    #[inline(never)]
    fn poll_at_in_full(&self, mss: usize) -> PollAt
        ensures { result ≡ poll_moment_by self.now mss }
    {
        if self.is_due_by(mss) {
            return PollAt::Now;
        }
        let timeout = self.timeout_poll();
        match self.held_poll() {
            PollAt::Ingress => self.timer_or(timeout),
            held => earlier(self.timer.poll_at(), earlier(timeout, held)),
        }
    }

    // Whether this is a connection that is open both ways, with nothing queued and nothing to tell. Most sockets that
    // are asked are such, and are spared the questions for the others. Where the answer is no, it says nothing.
    #[tactic(auto, using(crate::proofs::Quiet::no_reason, crate::proofs::Quiet::waits_for_a_segment))]
    fn is_quiet(&self) -> bool
        ensures due { IsTrue result → (t : Tuple) (f : Facts) → is_due_now self.now t f ≡ false }
        ensures held { IsTrue result → held_poll self.now ≡ PollAt.Ingress }
    {
        match (self.state, self.remote_last_ts()) {
            (State::Established, Some(_)) => self.tx_buffer.is_empty() && self.has_told_all(),
            _ => false,
        }
    }

    // Whether the peer was told what it is to be told: the last acknowledgement that was sent is for all that came, and
    // a window field that told the free space now would be 0, or less than twice the one that went out with it.
    #[tactic(auto, using(crate::proofs::Quiet::no_window, crate::proofs::Quiet::not_doubled))]
    fn has_told_all(&self) -> bool
        ensures acknowledged { IsTrue result → ack_due self.now ≡ false }
        ensures window { IsTrue result → window_doubled self.now ≡ false }
    {
        let told = self.remote_last_win;
        let field = self.space_field();
        self.has_acknowledged() && (field == 0 || field / 2 < told)
    }

    // Whether the last acknowledgement that was sent is for all that came.
    #[tactic(auto, using(crate::proofs::Quiet::same_number, crate::proofs::Quiet::not_owed))]
    fn has_acknowledged(&self) -> bool
        ensures number { IsTrue result → self.now.remote_last_ack ≡ Some (next_ack self.now) }
        ensures acknowledged { IsTrue result → ack_due self.now ≡ false }
    {
        match self.remote_last_ack {
            Some(ack) => ack == self.next_ack(),
            None => false,
        }
    }

    // The earlier of what the timer waits for and another moment: that one, in a socket that is idle, as most are that
    // are asked.
    fn timer_or(&self, other: PollAt) -> PollAt
        ensures { result ≡ earlier (timer_poll self.now.timer) other }
    {
        match self.timer {
            Timer::Idle {
                keep_alive_at: None,
            } => other,
            timer => earlier(timer.poll_at(), other),
        }
    }
}

impl<'a, G> Socket<'a, G> {
    /// When the socket wants its next `dispatch`, in this context: at once, at a moment, or after the next segment
    /// that it takes. Before that a `dispatch` emits nothing.
    pub fn poll_at<C: Context>(&self, cx: &C) -> PollAt
        ensures { result ≡ poll_moment self.now.control_block (C.facts cx.now) }
    {
        self.control_block.poll_at(cx)
    }
}

impl<'a, G> Socket<'a, G> {
    /// Whether the connection has something left to do: bytes in the transmit queue in ESTABLISHED and CLOSE-WAIT; a
    /// SYN in SYN-SENT, and in SYN-RECEIVED unless it is paused; the own FIN in FIN-WAIT-1, CLOSING and LAST-ACK; the
    /// end of TIME-WAIT; the RST in CLOSED while there is a peer. smoltcp has no such call.
    pub fn has_work(&self) -> bool
        ensures { result ≡ has_work self.now.control_block }
    {
        self.control_block.has_work()
    }
}
