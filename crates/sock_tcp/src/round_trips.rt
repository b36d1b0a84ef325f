//! Round trips by timestamps, by the RFCs' rules (RFC 6298, section 3; RFC 7323, section 4).
//!
//! What is kept is the timestamp and the time of the first segment that is sent again while nothing is timed. An echo
//! of it gives a sample. An echo of a later timestamp ends the timing, as that sending or its acknowledgement was lost;
//! an earlier one, or none, changes nothing. A timeout and a sample by numbers end the timing, and a fast
//! retransmission does not.
ghost use Rattle.std.specs.Prelude.{◌≡◌};
ghost use Rattle.sock_core.specs.Bounds.{IsMoment};
ghost use Rattle.sock_tcp.specs.Rfc.Idle.{idle_by, restarted_by};
ghost use Rattle.sock_tcp.specs.Rfc.RoundTrips.{begun_again, echo_of, echo_taken, sending_measured, stamp_of};
ghost use Rattle.sock_tcp.specs.Timers.{IsTimer};
ghost use Rattle.sock_tcp.specs.declared.rules.Rules.TheVariants.{Rfc};

use crate::control_block::ControlBlock;
use crate::emission::Emitted;
use crate::rules::Rules;
use crate::timer::Timer;
use control_wire::TcpTimestampRepr;
use net_base::time::Instant;
use sock_core::rtte::RttEstimator;

// The timestamp that a segment has.
#[inline(always)]
pub(crate) fn stamp_of(timestamp: Option<TcpTimestampRepr>) -> Option<u32>
    ensures { result ≡ stamp_of timestamp }
{
    match timestamp {
        None => None,
        Some(timestamp) => Some(timestamp.tsval),
    }
}

// The timestamp that it echoes.
pub(crate) fn echo_of(timestamp: Option<TcpTimestampRepr>) -> Option<u32>
    ensures { result ≡ echo_of timestamp }
{
    match timestamp {
        None => None,
        Some(timestamp) => Some(timestamp.tsecr),
    }
}

impl Timer {
    // Where a sample was taken, the retransmission timer begins anew.
    fn begun_again(self, sample: bool, now: Instant, rtte: &RttEstimator) -> Timer
        requires moment { IsMoment now.micros }
        requires lawful { IsTimer self }
        ensures value { result ≡ begun_again sample self now rtte.now }
        ensures lawful { IsTimer result }
    {
        match self {
            Timer::Retransmit { .. } if sample => Timer::retransmit(now, rtte),
            _ => self,
        }
    }
}

impl<'a> ControlBlock<'a> {
    // Something goes out that takes numbers: it is timed, and by the RFCs' rules the socket was idle no longer.
    #[inline(always)]
    pub(crate) fn measure_sending(&mut self, now: Instant, emitted: &Emitted)
        requires { IsMoment now.micros }
        ensures view { self.new ≡ record self.old {
          rtte = sending_measured self.old now emitted.now;
          congestion_controller = restarted_by self.old.rules self.old.idle_at now self.old.congestion_controller;
          idle_at = idle_by self.old.rules self.old.idle_at now self.old.rtte;
        } }
    {
        match self.rules {
            Rules::Smoltcp => self.rtte.on_send(now, emitted.end),
            Rules::Rfc => {
                self.restart_if_idle(now);
                self.measure_by_rfc(now, emitted);
            }
        }
    }

    fn measure_by_rfc(&mut self, now: Instant, emitted: &Emitted)
        requires { self.old.rules ≡ Rfc }
        ensures view { self.new ≡ record self.old { rtte = sending_measured self.old now emitted.now } }
    {
        self.rtte.on_send(now, emitted.end);
        if let Some(stamp) = emitted.stamp {
            if !self.state.is_opening() {
                self.rtte.on_stamp(now, stamp);
            }
        }
    }

    // A segment was heard with this echo; news: it acknowledges something new.
    pub(crate) fn take_echo(&mut self, news: bool, echo: Option<u32>, now: Instant)
        requires { IsMoment now.micros }
        ensures { self.new ≡ echo_taken news echo self.old now }
    {
        if let (true, Some(echo)) = (news, echo) {
            let sample = self.rtte.on_echo(now, echo);
            self.timer = self.timer.begun_again(sample, now, &self.rtte);
        }
    }
}
