//! Reno (RFC 5681), as smoltcp's, and the window by bytes (RFC 3465) and at the opening (RFC 6928).
ghost use Rattle.std.specs.Prelude.{◌≡◌, ◌||◌, not, nat_lt};
ghost use Rattle.sock_core.specs.Congestion.{bounded, capped, deflated, fresh_reno, growth, growth_in_bytes, halved};
ghost use Rattle.sock_core.specs.Congestion.{initial_window, most_growth, reno_acked, reno_counted, reno_grows};
ghost use Rattle.sock_core.specs.Congestion.{reno_on_ack, reno_on_bytes_acked, reno_on_dup_ack, reno_on_loss};
ghost use Rattle.sock_core.specs.Congestion.{reno_on_partial_ack, reno_on_rto, reno_opened, reno_partially_acked};
ghost use Rattle.sock_core.specs.Congestion.{reno_restarted, reno_undone};
ghost use Rattle.sock_core.specs.Congestion.{reno_begins_anew, reno_post_transmit, reno_recovers, reno_recovery_window};
ghost use Rattle.sock_core.specs.Congestion.{step_towards};
ghost use Rattle.sock_core.specs.Congestion.{reno_pre_transmit, reno_with_mss, reno_with_remote_window};

use crate::congestion::Controller;
use crate::rtte::RttEstimator;
use net_base::time::Instant;
use std::marker::Model;

/// Reno: slow start, congestion avoidance, fast retransmit and fast recovery (RFC 5681).
/// Sums and products stop at the greatest `usize`; in congestion avoidance a window of 0 counts as 1.
#[derive(Debug, Clone, Copy)]
pub struct Reno {
    cwnd: usize,
    mss: usize,
    rwnd: usize,
    ssthresh: usize,
    in_timeout: bool,
    in_recovery: bool,
}

impl Model for Reno {
    ghost use Rattle.sock_core.specs.Reno.{RenoNumbers};

    ghost Value = { RenoNumbers };

    ghost view = { λ r. record {
      cwnd = r.cwnd;
      mss = r.mss;
      rwnd = r.rwnd;
      ssthresh = r.ssthresh;
      in_timeout = r.in_timeout;
      in_recovery = r.in_recovery;
    } };

    ghost inverse = { λ r. record {
      cwnd = r.cwnd;
      mss = r.mss;
      rwnd = r.rwnd;
      ssthresh = r.ssthresh;
      in_timeout = r.in_timeout;
      in_recovery = r.in_recovery;
    } };
}

impl Reno {
    /// A window of 2048 bytes, segments of 1024, and no threshold yet.
    pub fn new() -> Reno
        ensures { result ≡ fresh_reno }
    {
        Reno {
            cwnd: 2048,
            mss: 1024,
            rwnd: 65536,
            ssthresh: usize::MAX,
            in_timeout: false,
            in_recovery: false,
        }
    }

    /// The window, in bytes, at which slow start ends.
    pub fn ssthresh(&self) -> usize
        ensures { result ≡ self.now.ssthresh }
    {
        self.ssthresh
    }

    /// How many bytes may be in the network in a fast recovery that counts what is there: the threshold (RFC 6675,
    /// section 5). Else the window.
    pub fn recovery_window(&self) -> usize
        ensures { result ≡ reno_recovery_window self.now }
    {
        if self.in_recovery {
            self.bounded(self.ssthresh)
        } else {
            self.cwnd
        }
    }

    /// A loss was none: window and threshold are at least these, as before it.
    #[tactic(auto, unfolding(crate::specs::Congestion::reno_undone))]
    pub fn undo(&mut self, window: usize, threshold: usize)
        ensures { self.new ≡ reno_undone self.old window threshold }
    {
        self.cwnd = self.cwnd.max(window);
        self.ssthresh = self.ssthresh.max(threshold);
        self.in_recovery = false;
    }

    /// The maximum segment size.
    pub(crate) fn mss(&self) -> usize
        ensures { result ≡ self.now.mss }
    {
        self.mss
    }

    /// Whether it is in a fast recovery.
    pub(crate) fn recovers(&self) -> bool
        ensures { result ≡ self.now.in_recovery }
    {
        self.in_recovery
    }

    /// Whether it is in congestion avoidance.
    pub(crate) fn avoids(&self) -> bool
        ensures { result ≡ not (self.now.in_recovery || nat_lt self.now.cwnd self.now.ssthresh) }
    {
        !(self.in_recovery || self.cwnd < self.ssthresh)
    }

    /// How far `len` acknowledged bytes of a window of them lead towards a larger one (RFC 9438, section 4.4).
    pub(crate) fn step_towards(&self, target: u64, len: usize) -> usize
        ensures { result ≡ step_towards self.now target len }
    {
        let most = self.cwnd.saturating_add(self.cwnd / 2) as u64;
        let further = target.min(most).saturating_sub(self.cwnd as u64) as usize;
        further.saturating_mul(len.min(self.cwnd)) / self.cwnd.max(1)
    }

    /// A fast recovery begins, with this threshold.
    pub(crate) fn recover(&mut self, threshold: usize)
        ensures { self.new ≡ reno_recovers self.old threshold }
    {
        self.ssthresh = threshold;
        self.cwnd = threshold
            .min(self.rwnd)
            .saturating_add(self.mss.saturating_mul(3));
        self.in_recovery = true;
    }

    /// A timeout: sending begins anew with a segment, and where it is the first one with this threshold.
    pub(crate) fn begin_anew(&mut self, threshold: usize)
        ensures { self.new ≡ reno_begins_anew self.old threshold }
    {
        if !self.in_timeout {
            self.ssthresh = threshold;
        }
        self.cwnd = self.mss;
        self.in_timeout = true;
        self.in_recovery = false;
    }

    // At most the peer's window, and at least a segment.
    fn bounded(&self, window: usize) -> usize
        ensures { result ≡ bounded self.now window }
    {
        window.min(self.rwnd).max(self.mss)
    }

    // How far an acknowledgement of `len` bytes opens the window.
    pub(crate) fn growth(&self, len: usize) -> usize
        ensures { result ≡ growth self.now len }
    {
        if self.cwnd < self.ssthresh {
            len.min(self.mss)
        } else {
            (self.mss.saturating_mul(self.mss) / self.cwnd.max(1)).max(1)
        }
    }

    // How far the window opens, counted in bytes (RFC 3465, sections 2.1 and 2.3; RFC 9406, section 4.2).
    pub(crate) fn growth_in_bytes(&self, len: usize, careful: bool) -> usize
        ensures { result ≡ growth_in_bytes self.now len careful }
    {
        if self.cwnd < self.ssthresh {
            len.min(self.most_growth(careful))
        } else {
            (self.mss.saturating_mul(len.min(self.cwnd)) / self.cwnd.max(1)).max(1)
        }
    }

    // Eight segments, where packets are not paced (RFC 9406, section 4.3); after a timeout one (RFC 3465, section 2.3).
    fn most_growth(&self, careful: bool) -> usize
        ensures { result ≡ most_growth self.now careful }
    {
        if careful {
            self.mss
        } else {
            self.mss.saturating_mul(8)
        }
    }

    // RFC 6928, section 2.
    fn initial_window(&self) -> usize
        ensures { result ≡ initial_window self.now }
    {
        let least = self.mss.saturating_mul(2);
        self.mss.saturating_mul(10).min(least.max(14_600))
    }

    // Half of the bytes that are sent and not yet acknowledged, and at least two segments (RFC 5681, section 3.1).
    fn halved(&self, in_flight: usize) -> usize
        ensures { result ≡ halved self.now in_flight }
    {
        (in_flight / 2).max(self.mss.saturating_mul(2))
    }

    // The window of a fast recovery that goes on once `len` bytes are acknowledged (RFC 6582, section 3.2, step 3).
    fn deflated(&self, len: usize) -> usize
        ensures { result ≡ deflated self.now len }
    {
        let more = if len < self.mss { 0 } else { self.mss };
        self.cwnd
            .saturating_sub(len)
            .saturating_add(more)
            .max(self.mss)
    }

    // An acknowledgement of `len` bytes, but not of all that was sent before a loss.
    #[tactic(auto, unfolding(crate::specs::Congestion::reno_partially_acked))]
    fn gain_in_part(&mut self, len: usize)
        ensures { self.new ≡ reno_partially_acked self.old len }
    {
        if self.in_recovery {
            self.cwnd = self.deflated(len);
        } else {
            self.gain(len);
        }
    }

    // Bytes are acknowledged, which ends a time of timeouts and a fast recovery, and opens the window so far.
    pub(crate) fn grow(&mut self, more: usize)
        ensures { self.new ≡ reno_grows self.old more }
    {
        self.cwnd = if self.in_recovery {
            self.ssthresh
        } else {
            self.bounded(self.cwnd.saturating_add(more))
        };
        self.in_timeout = false;
        self.in_recovery = false;
    }

    // An acknowledgement of `len` bytes.
    #[tactic(auto, unfolding(crate::specs::Congestion::reno_acked))]
    fn gain(&mut self, len: usize)
        ensures { self.new ≡ reno_acked self.old len }
    {
        if len == 0 {
            return;
        }
        self.grow(self.growth(len));
    }

    // An acknowledgement of `len` bytes, counted in bytes.
    #[tactic(auto, unfolding(crate::specs::Congestion::reno_counted))]
    fn count(&mut self, len: usize, careful: bool)
        ensures { self.new ≡ reno_counted self.old len careful }
    {
        if len > 0 {
            self.grow(self.growth_in_bytes(len, careful));
        }
    }
}

impl Controller for Reno {
    ghost window_of = { λ r. r.cwnd };

    ghost after_remote_window = { reno_with_remote_window };

    ghost after_ack = { reno_on_ack };

    ghost after_partial_ack = { reno_on_partial_ack };

    ghost after_bytes_acked = { λ r now len careful rtt. reno_on_bytes_acked r now len careful };

    ghost after_open = { reno_opened };

    ghost after_restart = { reno_restarted };

    ghost after_dup_ack = { reno_on_dup_ack };

    ghost after_rto = { reno_on_rto };

    ghost after_loss = { reno_on_loss };

    ghost after_pre_transmit = { reno_pre_transmit };

    ghost after_post_transmit = { reno_post_transmit };

    ghost after_mss = { reno_with_mss };

    fn window(&self) -> usize {
        self.cwnd
    }

    fn set_remote_window(&mut self, remote_window: usize) {
        self.rwnd = self.rwnd.max(remote_window);
    }

    #[tactic(auto, unfolding(crate::specs::Congestion::reno_on_ack))]
    fn on_ack(&mut self, _now: Instant, len: usize, _in_flight: usize, _rtt: &RttEstimator) {
        self.gain(len);
    }

    #[tactic(auto, unfolding(crate::specs::Congestion::reno_on_partial_ack))]
    fn on_partial_ack(&mut self, _now: Instant, len: usize) {
        self.gain_in_part(len);
    }

    #[tactic(auto, unfolding(crate::specs::Congestion::reno_on_bytes_acked))]
    fn on_bytes_acked(&mut self, _now: Instant, len: usize, careful: bool, _rtt: &RttEstimator) {
        self.count(len, careful);
    }

    #[tactic(auto, unfolding(crate::specs::Congestion::reno_restarted))]
    fn restart(&mut self) {
        self.cwnd = self.cwnd.min(self.initial_window());
    }

    #[tactic(auto, unfolding(crate::specs::Congestion::reno_opened))]
    fn open(&mut self, mss: usize) {
        self.mss = mss.max(1);
        self.cwnd = self.initial_window();
    }

    #[tactic(auto, unfolding(crate::specs::Congestion::reno_on_dup_ack, crate::specs::Congestion::reno_dup_acked))]
    fn on_dup_ack(&mut self, _now: Instant, len: usize, _in_flight: usize) {
        if self.in_recovery {
            self.cwnd = self.bounded(self.cwnd.saturating_add(len));
        }
    }

    #[tactic(auto, unfolding(crate::specs::Congestion::reno_on_rto, crate::specs::Congestion::reno_timed_out))]
    fn on_rto(&mut self, _now: Instant, in_flight: usize) {
        self.begin_anew(self.halved(in_flight));
    }

    #[tactic(auto, unfolding(crate::specs::Congestion::reno_on_loss, crate::specs::Congestion::reno_lost))]
    fn on_loss(&mut self, _now: Instant, in_flight: usize) {
        if self.in_recovery {
            return;
        }
        self.recover(self.halved(in_flight));
    }

    #[tactic(auto, unfolding(crate::specs::Congestion::reno_pre_transmit))]
    fn pre_transmit(&mut self, _now: Instant) {}

    #[tactic(auto, unfolding(crate::specs::Congestion::reno_post_transmit))]
    fn post_transmit(&mut self, _now: Instant, _len: usize) {}

    fn set_mss(&mut self, mss: usize) {
        self.mss = mss;
    }
}
