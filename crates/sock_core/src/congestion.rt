//! Congestion control: how many bytes may be in flight (RFC 5681). As smoltcp's Reno, CUBIC (RFC 9438), or none.
ghost use Rattle.std.specs.Prelude.{◌≡◌, ℕ, ◌-◌, ◌^◌, ◌<◌, ◌≤◌, Bool, List};
ghost use Rattle.sock_core.specs.Reno.{RenoNumbers};
ghost use Rattle.sock_core.specs.Congestion.{fresh_reno, reno_acked};
ghost use Rattle.sock_core.specs.Congestion.{bytes_acked, congestion_window, acked, dup_acked, lost, opened};
ghost use Rattle.sock_core.specs.Congestion.{restarted, threshold_of, timed_out, undone};
ghost use Rattle.sock_core.specs.Congestion.{partially_acked, pre_transmitted, post_transmitted, recovery_window};
ghost use Rattle.sock_core.specs.Estimator.{Estimator};
ghost use Rattle.net_base.specs.declared.time.Instant.{Instant};
ghost use Rattle.sock_core.specs.Congestion.{with_mss, with_remote_window, Call, AcksNothing, KeepsThreshold};

pub use crate::cubic::Cubic;
pub use crate::reno::Reno;
use crate::rtte::RttEstimator;
use net_base::time::Instant;

/// Decides how many bytes may be in flight. Counts are bytes.
///
/// What each call leaves depends on the controller as it was and on what the call is told, as in smoltcp's trait.
pub trait Controller {
    ghost use Rattle.std.specs.Prelude.{Bool};
    ghost use Rattle.net_base.specs.declared.time.Instant.{Instant};
    ghost use Rattle.sock_core.specs.Estimator.{Estimator};

    // the window, and what each call leaves
    ghost window_of: { Self → ℕ };

    ghost after_remote_window: { Self → ℕ → Self };

    ghost after_ack: { Self → Instant → ℕ → ℕ → Estimator → Self };

    ghost after_partial_ack: { Self → Instant → ℕ → Self };

    ghost after_bytes_acked: { Self → Instant → ℕ → Bool → Estimator → Self };

    ghost after_open: { Self → ℕ → Self };

    ghost after_restart: { Self → Self };

    ghost after_dup_ack: { Self → Instant → ℕ → ℕ → Self };

    ghost after_rto: { Self → Instant → ℕ → Self };

    ghost after_loss: { Self → Instant → ℕ → Self };

    ghost after_pre_transmit: { Self → Instant → Self };

    ghost after_post_transmit: { Self → Instant → ℕ → Self };

    ghost after_mss: { Self → ℕ → Self };

    /// How many bytes may be in flight.
    fn window(&self) -> usize
        ensures { result ≡ window_of self.now };

    /// The peer gave this window.
    fn set_remote_window(&mut self, remote_window: usize)
        ensures { self.new ≡ after_remote_window self.old remote_window };

    /// An acknowledgement that is no duplicate came, of `len` bytes, after which `in_flight` are unacknowledged.
    fn on_ack(&mut self, now: Instant, len: usize, in_flight: usize, rtt: &RttEstimator)
        ensures { self.new ≡ after_ack self.old now len in_flight rtt.now };

    /// An acknowledgement of `len` bytes came in a fast recovery, but not of all that was sent before it: the recovery
    /// goes on (RFC 6582, section 3.2).
    fn on_partial_ack(&mut self, now: Instant, len: usize)
        ensures { self.new ≡ after_partial_ack self.old now len };

    /// An acknowledgement of `len` new bytes came, and the window is to grow by bytes, not by acknowledgements (RFC
    /// 3465). `careful` says that not all that was sent before a timeout is acknowledged yet.
    fn on_bytes_acked(&mut self, now: Instant, len: usize, careful: bool, rtt: &RttEstimator)
        ensures { self.new ≡ after_bytes_acked self.old now len careful rtt.now };

    /// A connection was opened to a peer with this maximum segment size: the initial window is that of RFC 6928.
    fn open(&mut self, mss: usize)
        ensures { self.new ≡ after_open self.old mss };

    /// Sending begins again, after nothing was sent for a retransmission timeout: the window is at most the initial
    /// one (RFC 5681, section 4.1).
    fn restart(&mut self)
        ensures { self.new ≡ after_restart self.old };

    /// A duplicate acknowledgement came, which tells that `len` bytes, a segment, left the network.
    fn on_dup_ack(&mut self, now: Instant, len: usize, in_flight: usize)
        ensures { self.new ≡ after_dup_ack self.old now len in_flight };

    /// The retransmission timer ran out.
    fn on_rto(&mut self, now: Instant, in_flight: usize)
        ensures { self.new ≡ after_rto self.old now in_flight };

    /// Duplicate acknowledgements tell that a segment was lost.
    fn on_loss(&mut self, now: Instant, in_flight: usize)
        ensures { self.new ≡ after_loss self.old now in_flight };

    /// A segment may go out.
    fn pre_transmit(&mut self, now: Instant)
        ensures { self.new ≡ after_pre_transmit self.old now };

    /// A segment that takes `len` sequence numbers went out.
    fn post_transmit(&mut self, now: Instant, len: usize)
        ensures { self.new ≡ after_post_transmit self.old now len };

    /// The peer's maximum segment size.
    fn set_mss(&mut self, mss: usize)
        ensures { self.new ≡ after_mss self.old mss };
}

/// No congestion control: any number of bytes may be in flight.
#[derive(Debug, Clone, Copy)]
pub struct NoControl;

/// A controller of any kind.
#[derive(Debug, Clone, Copy)]
pub enum AnyController {
    /// No congestion control.
    None(NoControl),
    /// Reno.
    Reno(Reno),
    /// CUBIC.
    Cubic(Cubic),
}

impl AnyController {
    /// Reno.
    pub fn new() -> AnyController
        ensures { result ≡ AnyController.Reno fresh_reno }
    {
        AnyController::Reno(Reno::new())
    }

    /// How many bytes may be in the network in a fast recovery that counts what is there (RFC 6675, section 5). Else
    /// the window.
    pub fn recovery_window(&self) -> usize
        ensures { result ≡ recovery_window self.now }
    {
        match self {
            AnyController::None(none) => none.window(),
            AnyController::Reno(reno) => reno.recovery_window(),
            AnyController::Cubic(cubic) => cubic.recovery_window(),
        }
    }

    /// The window, in bytes, at which slow start ends. Without congestion control the greatest `usize`.
    pub fn threshold(&self) -> usize
        ensures { result ≡ threshold_of self.now }
    {
        match self {
            AnyController::None(_) => usize::MAX,
            AnyController::Reno(reno) => reno.ssthresh(),
            AnyController::Cubic(cubic) => cubic.ssthresh(),
        }
    }

    /// A loss of which it was told was none: its window and threshold are at least these, as before it, and a fast
    /// recovery is over (RFC 4015, section 3.2).
    #[tactic(auto, unfolding(crate::specs::Congestion::undone))]
    pub fn undo(&mut self, window: usize, threshold: usize)
        ensures { self.new ≡ undone self.old window threshold }
    {
        match self {
            AnyController::None(_) => {}
            AnyController::Reno(reno) => reno.undo(window, threshold),
            AnyController::Cubic(cubic) => cubic.undo(window, threshold),
        }
    }
}

/// An acknowledgement of zero bytes changes nothing.
pub fn ack_of_nothing_changes_nothing()
    ensures { (c : AnyController) (now : Instant) (flight : ℕ) (rtte : Estimator) → acked c now 0 flight rtte ≡ c }
{}

/// A second timeout keeps Reno's threshold, unless new data was acknowledged since the first.
pub fn second_timeout_keeps_threshold()
    ensures { (r : RenoNumbers) (f l : ℕ) (calls : List Call) → AcksNothing calls → KeepsThreshold r f calls l }
{}

/// After an acknowledgement of new data Reno's window is at least a segment, where its threshold is.
pub fn window_holds_a_segment()
    ensures { (r : RenoNumbers) (n : ℕ) → 0 < n → r.mss ≤ r.ssthresh → r.mss ≤ (reno_acked r n).cwnd }
{}

impl Controller for NoControl {
    ghost window_of = { λ c. 2 ^ 64 - 1 };

    ghost after_remote_window = { λ c n. c };

    ghost after_ack = { λ c now len flight rtt. c };

    ghost after_partial_ack = { λ c now len. c };

    ghost after_bytes_acked = { λ c now len careful rtt. c };

    ghost after_open = { λ c mss. c };

    ghost after_restart = { λ c. c };

    ghost after_dup_ack = { λ c now len flight. c };

    ghost after_rto = { λ c now flight. c };

    ghost after_loss = { λ c now flight. c };

    ghost after_pre_transmit = { λ c now. c };

    ghost after_post_transmit = { λ c now len. c };

    ghost after_mss = { λ c n. c };

    fn window(&self) -> usize {
        usize::MAX
    }

    fn set_remote_window(&mut self, _remote_window: usize) {}

    fn on_ack(&mut self, _now: Instant, _len: usize, _in_flight: usize, _rtt: &RttEstimator) {}

    fn on_partial_ack(&mut self, _now: Instant, _len: usize) {}

    fn on_bytes_acked(&mut self, _now: Instant, _len: usize, _careful: bool, _rtt: &RttEstimator) {}

    fn open(&mut self, _mss: usize) {}

    fn restart(&mut self) {}

    fn on_dup_ack(&mut self, _now: Instant, _len: usize, _in_flight: usize) {}

    fn on_rto(&mut self, _now: Instant, _in_flight: usize) {}

    fn on_loss(&mut self, _now: Instant, _in_flight: usize) {}

    fn pre_transmit(&mut self, _now: Instant) {}

    fn post_transmit(&mut self, _now: Instant, _len: usize) {}

    fn set_mss(&mut self, _mss: usize) {}
}

impl Controller for AnyController {
    ghost window_of = { congestion_window };

    ghost after_remote_window = { with_remote_window };

    ghost after_ack = { acked };

    ghost after_partial_ack = { partially_acked };

    ghost after_bytes_acked = { bytes_acked };

    ghost after_open = { opened };

    ghost after_restart = { restarted };

    ghost after_dup_ack = { dup_acked };

    ghost after_rto = { timed_out };

    ghost after_loss = { lost };

    ghost after_pre_transmit = { pre_transmitted };

    ghost after_post_transmit = { post_transmitted };

    ghost after_mss = { with_mss };

    fn window(&self) -> usize {
        match self {
            AnyController::None(none) => none.window(),
            AnyController::Reno(reno) => reno.window(),
            AnyController::Cubic(cubic) => cubic.window(),
        }
    }

    #[tactic(auto, unfolding(crate::specs::Congestion::with_remote_window))]
    fn set_remote_window(&mut self, remote_window: usize) {
        match self {
            AnyController::None(none) => none.set_remote_window(remote_window),
            AnyController::Reno(reno) => reno.set_remote_window(remote_window),
            AnyController::Cubic(cubic) => cubic.set_remote_window(remote_window),
        }
    }

    #[tactic(auto, unfolding(crate::specs::Congestion::acked))]
    fn on_ack(&mut self, now: Instant, len: usize, in_flight: usize, rtt: &RttEstimator) {
        match self {
            AnyController::None(none) => none.on_ack(now, len, in_flight, rtt),
            AnyController::Reno(reno) => reno.on_ack(now, len, in_flight, rtt),
            AnyController::Cubic(cubic) => cubic.on_ack(now, len, in_flight, rtt),
        }
    }

    #[tactic(auto, unfolding(crate::specs::Congestion::partially_acked))]
    fn on_partial_ack(&mut self, now: Instant, len: usize) {
        match self {
            AnyController::None(none) => none.on_partial_ack(now, len),
            AnyController::Reno(reno) => reno.on_partial_ack(now, len),
            AnyController::Cubic(cubic) => cubic.on_partial_ack(now, len),
        }
    }

    #[tactic(auto, unfolding(crate::specs::Congestion::bytes_acked))]
    fn on_bytes_acked(&mut self, now: Instant, len: usize, careful: bool, rtt: &RttEstimator) {
        match self {
            AnyController::None(none) => none.on_bytes_acked(now, len, careful, rtt),
            AnyController::Reno(reno) => reno.on_bytes_acked(now, len, careful, rtt),
            AnyController::Cubic(cubic) => cubic.on_bytes_acked(now, len, careful, rtt),
        }
    }

    #[tactic(auto, unfolding(crate::specs::Congestion::opened))]
    fn open(&mut self, mss: usize) {
        match self {
            AnyController::None(none) => none.open(mss),
            AnyController::Reno(reno) => reno.open(mss),
            AnyController::Cubic(cubic) => cubic.open(mss),
        }
    }

    #[tactic(auto, unfolding(crate::specs::Congestion::restarted))]
    fn restart(&mut self) {
        match self {
            AnyController::None(none) => none.restart(),
            AnyController::Reno(reno) => reno.restart(),
            AnyController::Cubic(cubic) => cubic.restart(),
        }
    }

    #[tactic(auto, unfolding(crate::specs::Congestion::dup_acked))]
    fn on_dup_ack(&mut self, now: Instant, len: usize, in_flight: usize) {
        match self {
            AnyController::None(none) => none.on_dup_ack(now, len, in_flight),
            AnyController::Reno(reno) => reno.on_dup_ack(now, len, in_flight),
            AnyController::Cubic(cubic) => cubic.on_dup_ack(now, len, in_flight),
        }
    }

    #[tactic(auto, unfolding(crate::specs::Congestion::timed_out))]
    fn on_rto(&mut self, now: Instant, in_flight: usize) {
        match self {
            AnyController::None(none) => none.on_rto(now, in_flight),
            AnyController::Reno(reno) => reno.on_rto(now, in_flight),
            AnyController::Cubic(cubic) => cubic.on_rto(now, in_flight),
        }
    }

    #[tactic(auto, unfolding(crate::specs::Congestion::lost))]
    fn on_loss(&mut self, now: Instant, in_flight: usize) {
        match self {
            AnyController::None(none) => none.on_loss(now, in_flight),
            AnyController::Reno(reno) => reno.on_loss(now, in_flight),
            AnyController::Cubic(cubic) => cubic.on_loss(now, in_flight),
        }
    }

    #[tactic(auto, unfolding(crate::specs::Congestion::pre_transmitted))]
    fn pre_transmit(&mut self, now: Instant) {
        match self {
            AnyController::None(none) => none.pre_transmit(now),
            AnyController::Reno(reno) => reno.pre_transmit(now),
            AnyController::Cubic(cubic) => cubic.pre_transmit(now),
        }
    }

    #[tactic(auto, unfolding(crate::specs::Congestion::post_transmitted))]
    fn post_transmit(&mut self, now: Instant, len: usize) {
        match self {
            AnyController::None(none) => none.post_transmit(now, len),
            AnyController::Reno(reno) => reno.post_transmit(now, len),
            AnyController::Cubic(cubic) => cubic.post_transmit(now, len),
        }
    }

    #[tactic(auto, unfolding(crate::specs::Congestion::with_mss))]
    fn set_mss(&mut self, mss: usize) {
        match self {
            AnyController::None(none) => none.set_mss(mss),
            AnyController::Reno(reno) => reno.set_mss(mss),
            AnyController::Cubic(cubic) => cubic.set_mss(mss),
        }
    }
}
