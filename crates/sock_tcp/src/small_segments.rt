//! Which small segments wait by the RFCs' rules, and how long (RFC 9293, section 3.8.6.2.1).
ghost use Rattle.std.specs.Prelude.{◌≡◌, ◌&&◌, ◌==◌, length, min, not};
ghost use Rattle.sock_tcp.specs.Due.{ack_poll, congestion_left, flight, held_poll, may_wait, sendable};
ghost use Rattle.sock_tcp.specs.Rfc.SmallSegments.{held_by, is_cut_by, is_cut_by_network, is_cut_by_window};
ghost use Rattle.sock_tcp.specs.Rfc.SmallSegments.{larger, moment_at, sends_again, small_poll};
ghost use Rattle.sock_tcp.specs.Rfc.SmallSegments.{waits_alone};
ghost use Rattle.sock_tcp.specs.Window.{has_window};
ghost use Rattle.sock_tcp.specs.declared.rules.Rules.TheVariants.{Rfc};

use crate::control_block::ControlBlock;
use crate::poll::earlier;
use crate::recovery::{Before, Recovery};
use crate::rules::Rules;
use crate::state::State;
use net_base::time::Instant;
use sock_core::PollAt;

impl Recovery {
    // What goes out at SND.UNA may have been sent before.
    fn sends_again(self) -> bool
        ensures { result ≡ sends_again self }
    {
        matches!(self, Recovery::Fast { .. } | Recovery::Timeout { .. })
    }
}

fn moment_at(at: Option<Instant>) -> PollAt
    ensures { result ≡ moment_at at }
{
    match at {
        None => PollAt::Ingress,
        Some(at) => PollAt::Time(at),
    }
}

impl<'a> ControlBlock<'a> {
    // Whether one may wait with nothing in flight: the peer told a window of more than twice this one, and none of it
    // may have been sent before.
    fn waits_alone(&self) -> bool
        ensures { result ≡ waits_alone Rfc self.now.recovery self.now.idle_at self.now.remote_win_len
            self.now.largest_window }
    {
        self.remote_win_len < self.largest_window / 2
            && (self.has_idle_at && !self.recovery.sends_again())
    }

    // Whether the peer's window makes the next segment smaller than one of `mss` bytes, or the congestion window does
    // of half as many: it waits for an acknowledgement, for a larger window, or for the moment at which it goes out.
    // Both windows let out so much.
    #[inline(never)]
    fn is_cut(&self, out: usize, mss: usize) -> bool
        requires { out ≡ sendable self.now }
        ensures { result ≡ is_cut_by Rfc (waits_alone Rfc self.now.recovery self.now.idle_at self.now.remote_win_len
            self.now.largest_window) (flight self.now) self.now.remote_win_len (length self.now.tx_buffer.bytes)
            (congestion_left self.now) mss }
    {
        self.is_cut_by_network(out, mss) || self.is_cut_by_window(mss)
    }

    fn is_cut_by_network(&self, out: usize, mss: usize) -> bool
        ensures { result ≡ is_cut_by_network (flight self.now)
            (min self.now.remote_win_len (length self.now.tx_buffer.bytes)) out mss }
    {
        if out >= mss / 2 {
            return false;
        }
        let flight = self.flight();
        let usable = self.remote_win_len.min(self.tx_buffer.len());
        out < usable.saturating_sub(flight) && flight != 0
    }

    fn is_cut_by_window(&self, mss: usize) -> bool
        ensures { result ≡ is_cut_by_window (waits_alone Rfc self.now.recovery self.now.idle_at self.now.remote_win_len
            self.now.largest_window) (flight self.now) self.now.remote_win_len (length self.now.tx_buffer.bytes)
            (congestion_left self.now) mss }
    {
        let flight = self.flight();
        let usable = self.remote_win_len.saturating_sub(flight);
        self.remote_win_len < self.tx_buffer.len()
            && ((flight != 0 || self.waits_alone())
                && (usable < mss && usable <= self.congestion_left()))
    }

    #[inline(always)]
    pub(crate) fn is_cut_short(&self, out: usize, mss: usize) -> bool
        requires { out ≡ sendable self.now }
        ensures { result ≡ is_cut_by self.now.rules (may_wait self.now) (flight self.now) self.now.remote_win_len
            (length self.now.tx_buffer.bytes) (congestion_left self.now) mss }
    {
        match self.rules {
            Rules::Smoltcp => false,
            Rules::Rfc => self.is_cut(out, mss),
        }
    }

    // From when on what may go out with nothing in flight does so.
    fn small_poll(&self) -> PollAt
        ensures { result ≡ small_poll ((flight self.now == 0) && not (sendable self.now == 0)) self.now.idle_at }
    {
        if self.flight() == 0 && self.sendable() != 0 {
            moment_at(self.idle_at())
        } else {
            PollAt::Ingress
        }
    }

    // From when on an acknowledgement goes out, or bytes that wait. By smoltcp's rules, which each poll asks, this
    // spares a call of its own.
    #[inline(always)]
    pub(crate) fn held_poll(&self) -> PollAt
        ensures { result ≡ held_poll self.now }
    {
        match self.rules {
            Rules::Smoltcp => self.ack_poll(),
            Rules::Rfc => self.held_by_rfc(),
        }
    }

    #[inline(never)]
    fn held_by_rfc(&self) -> PollAt
        ensures { result ≡ held_by Rfc (ack_poll self.now)
            (small_poll ((flight self.now == 0) && not (sendable self.now == 0)) self.now.idle_at) }
    {
        earlier(self.ack_poll(), self.small_poll())
    }
}

impl Before {
    // The largest window that the peer told, from the segment on that opens.
    pub(crate) fn largest_after(&self, after: &ControlBlock<'_>) -> usize
        ensures { result ≡ larger (has_window self.now.state) after.now.largest_window after.now.remote_win_len }
    {
        match self.state {
            State::Listen | State::SynSent => after.remote_win_len,
            _ => after.largest_window.max(after.remote_win_len),
        }
    }
}
