//! The estimator of round-trip times and of the retransmission timeout (RFC 6298).
ghost use Rattle.std.specs.Prelude.{is_some, ◌≡◌, ◌*◌, ◌≤◌, List, true, if◌then◌else◌, Some, None};
ghost use Rattle.sock_core.specs.Estimator.{fresh_estimator, sampled, sent, acked, backed_off, retransmitted};
ghost use Rattle.sock_core.specs.Estimator.{begun_anew, begun_with, bounded_below, is_backed_off, IsWait};
ghost use Rattle.sock_core.specs.Estimator.{smoothed_by, timeout_of, AreSmall, IsTimeout, srtt_of, rttvar_of};
ghost use Rattle.sock_core.specs.Estimator.{stamped, echoed, is_awaited};
ghost use Rattle.sock_core.specs.Estimator.{Call, after_calls};

use crate::kept::kept;
use crate::seq::before;
use control_wire::TcpSeqNumber;
use net_base::time::{Duration, Instant};
use std::marker::Model;

// All in milliseconds.
const INITIAL_TIMEOUT: u32 = 1_000;

const LEAST_TIMEOUT: u32 = 1_000;

const TIMEOUT_AFTER_LOST_SYN: u32 = 3_000;

const LONGEST_TIMEOUT: u32 = 60_000;

const LEAST_MARGIN: u32 = 5;

const LONGEST_SAMPLE: u32 = 1 << 28;

// How many timeouts without a sample between them clear the measurement.
const TIMEOUTS_TO_CLEAR: u8 = 3;

/// A measurement of round-trip times, in milliseconds.
#[derive(Debug, Clone, Copy)]
pub struct Smoothed {
    /// The smoothed round-trip time (SRTT), at most 2^28 in an estimator.
    pub srtt: u32,
    /// The variation of the round-trip time (RTTVAR), at most 2^28 in an estimator.
    pub rttvar: u32,
}

/// A number whose acknowledgement is waited for, and when what lies before it was sent.
#[derive(Debug, Clone, Copy)]
pub struct Timing {
    /// When it was sent.
    pub at: Instant,
    /// The number.
    pub number: TcpSeqNumber,
}

/// A timestamp whose echo is waited for, and when it was sent.
#[derive(Debug, Clone, Copy)]
pub struct StampTiming {
    /// When a segment was sent with it.
    pub at: Instant,
    /// The timestamp, TSval (RFC 7323, section 3.2).
    pub stamp: u32,
}

/// Estimates how long a segment and its acknowledgement travel, and from that how long to wait for an acknowledgement
/// before a segment is sent again (RFC 6298).
///
/// The timeout is between 1,000 and 60,000 milliseconds, unless another lowest one is set. One number at a time is
/// timed, and none that was sent again; that is timed by its timestamp, where the socket says which it has.
// A moment stands beside a flag, and is 0 without it: an `Option` of one takes eight bytes more.
#[derive(Debug, Clone, Copy)]
pub struct RttEstimator {
    // when what lies before `timed` was sent
    timed_at: Instant,
    // when a segment was sent with the timestamp `stamp`
    stamped_at: Instant,
    smoothed: Option<Smoothed>,
    highest: Option<TcpSeqNumber>,
    timed: TcpSeqNumber,
    stamp: u32,
    rto: u32,
    least: u32,
    backoffs: u8,
    is_timed: bool,
    is_stamped: bool,
}

impl Model for RttEstimator {
    ghost use Rattle.std.specs.Prelude.{◌≡◌, is_some};
    ghost use Rattle.sock_core.specs.Kept.{is_kept, kept, or_blank};
    ghost use Rattle.sock_core.specs.declared.rtte.Timing.{Timing};
    ghost use Rattle.sock_core.specs.declared.rtte.StampTiming.{StampTiming};
    ghost use Rattle.sock_core.specs.Estimator.{Estimator, IsEstimator, no_stamp, no_timing};

    ghost Value = { Estimator };

    ghost view = { λ e. record {
      smoothed = e.smoothed;
      rto = e.rto;
      timing = kept e.is_timed (record { at = e.timed_at; number = e.timed });
      stamp_timing = kept e.is_stamped (record { at = e.stamped_at; stamp = e.stamp });
      highest = e.highest;
      backoffs = e.backoffs;
      least = e.least;
    } };

    ghost invariant = { λ e.
        IsEstimator e.smoothed e.rto e.backoffs e.least
        × (or_blank no_timing (kept e.is_timed (record { at = e.timed_at; number = e.timed }))
        ≡ record { at = e.timed_at; number = e.timed })
        × (or_blank no_stamp (kept e.is_stamped (record { at = e.stamped_at; stamp = e.stamp }))
        ≡ record { at = e.stamped_at; stamp = e.stamp }) };

    ghost inverse = { λ e. record {
      timed_at = (or_blank no_timing e.timing).at;
      stamped_at = (or_blank no_stamp e.stamp_timing).at;
      smoothed = e.smoothed;
      highest = e.highest;
      timed = (or_blank no_timing e.timing).number;
      stamp = (or_blank no_stamp e.stamp_timing).stamp;
      rto = e.rto;
      least = e.least;
      backoffs = e.backoffs;
      is_timed = is_some e.timing;
      is_stamped = is_some e.stamp_timing;
    } };

    ghost inverse_ok = { λ e h i. record {
      timed_at = (h.1 i).at;
      stamped_at = (h.2 i).at;
      smoothed = e.smoothed;
      highest = e.highest;
      timed = (h.1 i).number;
      stamp = (h.2 i).stamp;
      rto = e.rto;
      least = e.least;
      backoffs = e.backoffs;
      is_timed = is_kept {A = Timing} e.is_timed (record { at = e.timed_at; number = e.timed }) i;
      is_stamped = is_kept {A = StampTiming} e.is_stamped (record { at = e.stamped_at; stamp = e.stamp }) i;
    } };
}

impl Default for RttEstimator {
    ghost is_default = { λ e. e ≡ fresh_estimator };

    /// No measurement, and a timeout of a second.
    fn default() -> Self {
        RttEstimator {
            timed_at: Instant::ZERO,
            stamped_at: Instant::ZERO,
            smoothed: None,
            highest: None,
            timed: TcpSeqNumber(0),
            stamp: 0,
            rto: INITIAL_TIMEOUT,
            least: LEAST_TIMEOUT,
            backoffs: 0,
            is_timed: false,
            is_stamped: false,
        }
    }
}

/// After any calls of a fresh estimator the timeout is between 1,000 and 60,000 milliseconds.
pub fn timeout_stays_in_range()
    ensures { (calls : List Call) → IsTimeout (after_calls calls fresh_estimator).rto }
{}

impl RttEstimator {
    /// How long to wait for an acknowledgement.
    pub fn retransmission_timeout(&self) -> Duration
        ensures value { result.micros ≡ self.now.rto * 1000 }
        ensures range { IsWait self.now.rto }
    {
        Duration::from_millis(self.rto as u64)
    }

    /// The smoothed round-trip time (SRTT), in milliseconds. 0 without a measurement.
    pub fn srtt(&self) -> u32
        ensures { result ≡ srtt_of self.now.smoothed }
    {
        match self.smoothed {
            None => 0,
            Some(smoothed) => smoothed.srtt,
        }
    }

    /// The variation of the round-trip time (RTTVAR), in milliseconds. 0 without a measurement.
    pub fn rttvar(&self) -> u32
        ensures { result ≡ rttvar_of self.now.smoothed }
    {
        match self.smoothed {
            None => 0,
            Some(smoothed) => smoothed.rttvar,
        }
    }

    fn timing(&self) -> Option<Timing>
        ensures { result ≡ self.now.timing }
    {
        kept(
            self.is_timed,
            Timing {
                at: self.timed_at,
                number: self.timed,
            },
        )
    }

    fn keep_timing(&mut self, at: Instant, number: TcpSeqNumber)
        ensures { self.new ≡ record self.old { timing = Some (record { at = at; number = number }) } }
    {
        self.timed_at = at;
        self.timed = number;
        self.is_timed = true;
    }

    fn end_timing(&mut self)
        ensures { self.new ≡ record self.old { timing = None } }
    {
        self.timed_at = Instant::ZERO;
        self.timed = TcpSeqNumber(0);
        self.is_timed = false;
    }

    fn stamp_timing(&self) -> Option<StampTiming>
        ensures { result ≡ self.now.stamp_timing }
    {
        kept(
            self.is_stamped,
            StampTiming {
                at: self.stamped_at,
                stamp: self.stamp,
            },
        )
    }

    fn keep_stamp_timing(&mut self, at: Instant, stamp: u32)
        ensures { self.new ≡ record self.old { stamp_timing = Some (record { at = at; stamp = stamp }) } }
    {
        self.stamped_at = at;
        self.stamp = stamp;
        self.is_stamped = true;
    }

    fn end_stamp_timing(&mut self)
        ensures { self.new ≡ record self.old { stamp_timing = None } }
    {
        self.stamped_at = Instant::ZERO;
        self.stamp = 0;
        self.is_stamped = false;
    }

    /// Takes a round-trip time, in milliseconds, of which at most 2^28 count (RFC 6298, section 2).
    #[tactic(auto, unfolding(crate::specs::Estimator::sampled))]
    pub fn sample(&mut self, new_rtt: u32)
        ensures { self.new ≡ sampled self.old new_rtt }
    {
        let smoothed = smoothed_by(self.smoothed, new_rtt.min(LONGEST_SAMPLE));
        self.smoothed = Some(smoothed);
        self.rto = timeout_of(self.least, smoothed);
        self.backoffs = 0;
    }

    /// The numbers before `number` are sent. A new highest one is timed where none is.
    #[tactic(auto, unfolding(crate::specs::Estimator::sent))]
    pub fn on_send(&mut self, now: Instant, number: TcpSeqNumber)
        ensures { self.new ≡ sent self.old now number }
    {
        let is_highest = match self.highest {
            None => true,
            Some(highest) => before(highest, number),
        };
        if is_highest {
            self.highest = Some(number);
            if !self.is_timed {
                self.keep_timing(now, number);
            }
        }
    }

    /// The numbers before `number` are acknowledged. Where the timed one is among them, the time since it was sent, in
    /// whole milliseconds, is a sample, and nothing is timed any more.
    #[tactic(auto, using(crate::proofs::Estimators::sampled_cut), unfolding(crate::specs::Estimator::acked))]
    pub fn on_ack(&mut self, now: Instant, number: TcpSeqNumber)
        ensures { self.new ≡ acked self.old now number }
    {
        let Some(timing) = self.timing() else {
            return;
        };
        if before(number, timing.number) {
            return;
        }
        let elapsed = (now - timing.at).total_millis();
        self.sample(elapsed.min(LONGEST_SAMPLE as u64) as u32);
        self.end_timing();
        self.end_stamp_timing();
    }

    /// Something is sent again with the timestamp `stamp`. Where neither a number nor a timestamp is timed, that one is
    /// (RFC 7323, section 4).
    #[tactic(auto, unfolding(crate::specs::Estimator::stamped))]
    pub fn on_stamp(&mut self, now: Instant, stamp: u32)
        ensures { self.new ≡ stamped self.old now stamp }
    {
        if !self.is_timed && !self.is_stamped {
            self.keep_stamp_timing(now, stamp);
        }
    }

    /// Something new is acknowledged, by a segment that echoes the timestamp `echo`. Where that is the timed one, the
    /// time since it was sent, in whole milliseconds, is a sample, also of what was sent more than once (RFC 6298,
    /// section 3). A later one ends the timing without. Call it after `on_ack`. Answers whether it gave a sample.
    #[tactic(auto, using(crate::proofs::Estimators::sampled_cut), unfolding(crate::specs::Estimator::echoed))]
    pub fn on_echo(&mut self, now: Instant, echo: u32) -> bool
        ensures state { self.new ≡ echoed self.old now echo }
        ensures sample { result ≡ is_awaited self.old.stamp_timing echo }
    {
        let Some(timing) = self.stamp_timing() else {
            return false;
        };
        if echo == timing.stamp {
            let elapsed = (now - timing.at).total_millis();
            self.sample(elapsed.min(LONGEST_SAMPLE as u64) as u32);
            self.end_stamp_timing();
            return true;
        }
        if before(TcpSeqNumber(timing.stamp), TcpSeqNumber(echo)) {
            self.end_stamp_timing();
        }
        false
    }

    /// The retransmission timer ran out: the timeout doubles (RFC 6298, section 5.5), and each third time without a
    /// sample between the measurement is cleared. A timestamp is waited for no longer, since all is sent again.
    #[tactic(auto, unfolding(crate::specs::Estimator::backed_off))]
    pub fn on_rto(&mut self)
        ensures { self.new ≡ backed_off self.old }
    {
        self.rto = (self.rto * 2).min(LONGEST_TIMEOUT);
        self.end_stamp_timing();
        self.backoffs += 1;
        if self.backoffs == TIMEOUTS_TO_CLEAR {
            self.backoffs = 0;
            self.smoothed = None;
        }
    }

    /// What was sent is sent again, so that no acknowledgement tells a round-trip time: no number is timed any more.
    #[tactic(auto, unfolding(crate::specs::Estimator::retransmitted))]
    pub fn on_retransmit(&mut self)
        ensures { self.new ≡ retransmitted self.old }
    {
        self.end_timing();
    }

    /// The lowest timeout that a sample makes, in milliseconds.
    pub fn least_timeout(&self) -> u32
        ensures value { result ≡ self.now.least }
        ensures range { IsWait result }
    {
        self.least
    }

    /// Sets the lowest timeout that a sample makes, 1 to 60,000 milliseconds: 1,000 in a new estimator, as RFC 6298,
    /// section 2.4, recommends. The timeout stays as it is until the next sample.
    #[tactic(auto, unfolding(crate::specs::Estimator::bounded_below))]
    pub fn set_least_timeout(&mut self, least: u32)
        requires { IsWait least }
        ensures { self.new ≡ bounded_below self.old least }
    {
        self.least = least;
    }

    /// A new one with the same lowest timeout.
    pub fn renewed(&self) -> RttEstimator
        ensures { result ≡ begun_with self.now.least }
    {
        RttEstimator {
            least: self.least,
            ..RttEstimator::default()
        }
    }

    /// Whether there is a measurement.
    pub fn is_measured(&self) -> bool
        ensures { result ≡ is_some self.now.smoothed }
    {
        self.smoothed.is_some()
    }

    /// Whether a SYN was sent again, and nothing was measured since.
    pub fn is_backed_off(&self) -> bool
        ensures { result ≡ is_backed_off self.now }
    {
        self.smoothed.is_none() && self.rto > INITIAL_TIMEOUT
    }

    /// Bytes begin to go out, once the SYN is acknowledged: where it was sent again, the timeout is three seconds,
    /// however long the SYN was waited for (RFC 6298, rule 5.7).
    #[tactic(auto, unfolding(crate::specs::Estimator::begun_anew))]
    pub fn begin_anew(&mut self)
        ensures { self.new ≡ begun_anew self.old }
    {
        if self.is_backed_off() {
            self.rto = TIMEOUT_AFTER_LOST_SYN;
            self.backoffs = 0;
        }
    }
}

// The measurement with one more sample.
fn smoothed_by(smoothed: Option<Smoothed>, sample: u32) -> Smoothed
    requires small { AreSmall smoothed }
    requires cut { sample ≤ 268435456 }
    ensures value { result ≡ smoothed_by smoothed sample }
    ensures small { AreSmall (Some result) }
{
    match smoothed {
        None => Smoothed {
            srtt: sample,
            rttvar: sample / 2,
        },
        Some(Smoothed { srtt, rttvar }) => Smoothed {
            srtt: (7 * srtt + sample).div_ceil(8),
            rttvar: (3 * rttvar + srtt.abs_diff(sample)).div_ceil(4),
        },
    }
}

// The timeout of a measurement.
fn timeout_of(least: u32, smoothed: Smoothed) -> u32
    requires small { AreSmall (Some smoothed) }
    requires least { IsWait least }
    ensures value { result ≡ timeout_of least smoothed }
    ensures range { IsWait result }
{
    let margin = LEAST_MARGIN.max(4 * smoothed.rttvar);
    (smoothed.srtt + margin).max(least).min(LONGEST_TIMEOUT)
}
