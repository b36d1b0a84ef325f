//! What a user may set.
ghost use Rattle.std.specs.Prelude.{◌≡◌, ◌*◌, Some};
ghost use Rattle.sock_core.specs.Estimator.{bounded_below, IsWait};
ghost use Rattle.sock_tcp.specs.Settings.{kind_of, of_kind, keep_alive_timer, least_timeout_of};
ghost use Rattle.sock_tcp.specs.Closing.{keep_alive_set};
ghost use Rattle.sock_tcp.specs.View.{IsShort};

use crate::control_block::ControlBlock;
use crate::socket::Socket;
use crate::timer::Timer;
use net_base::time::{Duration, Instant};
use sock_core::congestion::{AnyController, Cubic, NoControl, Reno};

/// The kinds of congestion control.
#[derive(Debug, Clone, Copy, PartialEq, Eq)]
pub enum CongestionControl {
    /// None: any number of bytes may be in flight.
    None,
    /// Reno (RFC 5681).
    Reno,
    /// CUBIC (RFC 9438).
    Cubic,
}

// The longest that the lowest retransmission timeout may be, in milliseconds.
const LONGEST: u64 = 60_000;

// In whole milliseconds, between one and a minute.
fn least_timeout(duration: Duration) -> u32
    ensures value { result ≡ least_timeout_of duration }
    ensures range { IsWait result }
{
    duration.total_millis().min(LONGEST).max(1) as u32
}

impl CongestionControl {
    // A new controller of the kind.
    pub(crate) fn controller(self) -> AnyController
        ensures { result ≡ of_kind self }
    {
        match self {
            CongestionControl::None => AnyController::None(NoControl),
            CongestionControl::Reno => AnyController::Reno(Reno::new()),
            CongestionControl::Cubic => AnyController::Cubic(Cubic::new()),
        }
    }
}

impl<'a> ControlBlock<'a> {
    pub(crate) fn congestion_control(&self) -> CongestionControl
        ensures { result ≡ kind_of self.now.congestion_controller }
    {
        match self.congestion_controller {
            AnyController::None(_) => CongestionControl::None,
            AnyController::Reno(_) => CongestionControl::Reno,
            AnyController::Cubic(_) => CongestionControl::Cubic,
        }
    }

    pub(crate) fn set_keep_alive(&mut self, interval: Option<Duration>)
        requires { IsShort interval }
        ensures { self.new ≡ keep_alive_set self.old interval }
    {
        self.keep_keep_alive(interval);
        if let (
            Some(_),
            Timer::Idle {
                keep_alive_at: None,
            },
        ) = (interval, self.timer)
        {
            self.timer = Timer::Idle {
                keep_alive_at: Some(Instant::ZERO),
            };
        }
    }
}

impl<'a, G> Socket<'a, G> {
    /// The kind of congestion control; Reno in a new socket.
    pub fn congestion_control(&self) -> CongestionControl
        ensures { result ≡ kind_of self.now.control_block.congestion_controller }
    {
        self.control_block.congestion_control()
    }

    /// Puts in a new controller of this kind, also where there is one of the kind.
    pub fn set_congestion_control(&mut self, congestion_control: CongestionControl)
        ensures control_block { self.new.control_block
            ≡ record self.old.control_block { congestion_controller = of_kind congestion_control } }
        ensures generator { self.new.tsval_generator ≡ self.old.tsval_generator }
        ensures ended { self.new.ended ≡ self.old.ended }
    {
        self.control_block.congestion_controller = congestion_control.controller();
    }

    /// How long the peer may be silent before the connection is aborted; for ever where there is none, as in a new
    /// socket; five minutes once `Rules::Rfc` is chosen (RFC 9293, section 3.9.1.1).
    pub fn timeout(&self) -> Option<Duration>
        ensures { result ≡ self.now.control_block.timeout }
    {
        self.control_block.timeout()
    }

    /// Sets the user timeout, of at most 2^61 microseconds, or none. It counts from the last segment that was heard, or
    /// from the first dispatch since bytes joined an empty queue. By `Rules::Rfc` it runs while a SYN, bytes or a FIN
    /// are not acknowledged (RFC 5482), and on an idle connection with keep-alives an interval longer, so that it ends
    /// one whose peer does not answer them; by smoltcp's rules it always runs.
    pub fn set_timeout(&mut self, duration: Option<Duration>)
        requires { IsShort duration }
        ensures control_block { self.new.control_block ≡ record self.old.control_block { timeout = duration } }
        ensures generator { self.new.tsval_generator ≡ self.old.tsval_generator }
        ensures ended { self.new.ended ≡ self.old.ended }
    {
        self.control_block.keep_timeout(duration);
    }

    /// The lowest retransmission timeout that a measured round trip makes: a second in a new socket (RFC 6298, section
    /// 2.4).
    pub fn min_rto(&self) -> Duration
        ensures { result.micros ≡ self.now.control_block.rtte.least * 1000 }
    {
        Duration::from_millis(self.control_block.rtte.least_timeout() as u64)
    }

    /// Sets the lowest retransmission timeout, for all connections from now on: in whole milliseconds, where less than
    /// one counts as one, and more than a minute as a minute. It counts from the next measured round trip on; before
    /// the first the timeout is a second, or three (RFC 6298, sections 2.1 and 5.7). Linux has 200 milliseconds.
    /// smoltcp has no such call.
    pub fn set_min_rto(&mut self, duration: Duration)
        ensures control_block { self.new.control_block ≡ record self.old.control_block {
          rtte = bounded_below self.old.control_block.rtte (least_timeout_of duration);
        } }
        ensures generator { self.new.tsval_generator ≡ self.old.tsval_generator }
        ensures ended { self.new.ended ≡ self.old.ended }
    {
        self.control_block
            .rtte
            .set_least_timeout(least_timeout(duration));
    }

    /// How long an acknowledgement may wait for data to go with: 10 milliseconds in a new socket.
    pub fn ack_delay(&self) -> Option<Duration>
        ensures { result ≡ self.now.control_block.ack_delay }
    {
        self.control_block.ack_delay()
    }

    /// Sets how long an acknowledgement may wait, at most 2^61 microseconds, or lets none wait.
    pub fn set_ack_delay(&mut self, duration: Option<Duration>)
        requires { IsShort duration }
        ensures control_block { self.new.control_block ≡ record self.old.control_block { ack_delay = duration } }
        ensures generator { self.new.tsval_generator ≡ self.old.tsval_generator }
        ensures ended { self.new.ended ≡ self.old.ended }
    {
        self.control_block.keep_ack_delay(duration);
    }

    /// Whether small segments wait while bytes are in flight (RFC 9293, section 3.7.4); they do in a new socket.
    pub fn nagle_enabled(&self) -> bool
        ensures { result ≡ self.now.control_block.nagle }
    {
        self.control_block.nagle
    }

    /// Sets whether small segments wait while bytes are in flight.
    pub fn set_nagle_enabled(&mut self, enabled: bool)
        ensures control_block { self.new.control_block ≡ record self.old.control_block { nagle = enabled } }
        ensures generator { self.new.tsval_generator ≡ self.old.tsval_generator }
        ensures ended { self.new.ended ≡ self.old.ended }
    {
        self.control_block.nagle = enabled;
    }

    /// How long a connection is idle before a keep-alive goes out; none does in a new socket (RFC 9293, section 3.8.4).
    pub fn keep_alive(&self) -> Option<Duration>
        ensures { result ≡ self.now.control_block.keep_alive }
    {
        self.control_block.keep_alive()
    }

    /// Sets the interval of keep-alives, of at most 2^61 microseconds, or lets none go out. Where none is to come and
    /// nothing else is waited for, the first goes out at the next dispatch.
    pub fn set_keep_alive(&mut self, interval: Option<Duration>)
        requires { IsShort interval }
        ensures control_block { self.new.control_block ≡ keep_alive_set self.old.control_block interval }
        ensures generator { self.new.tsval_generator ≡ self.old.tsval_generator }
        ensures ended { self.new.ended ≡ self.old.ended }
    {
        self.control_block.set_keep_alive(interval);
    }

    /// The hop limit of what is sent, where one is set; 64 where none is, as in a new socket.
    pub fn hop_limit(&self) -> Option<u8>
        ensures { result ≡ self.now.control_block.hop_limit }
    {
        self.control_block.hop_limit
    }

    /// Sets the hop limit of what is sent, 1 to 255, or none for 64 (RFC 1122, section 3.2.1.7). Replies always have
    /// 64.
    pub fn set_hop_limit(&mut self, hop_limit: Option<u8>)
        requires { hop_limit ≡ Some 0 → ⊥ }
        ensures control_block { self.new.control_block ≡ record self.old.control_block { hop_limit = hop_limit } }
        ensures generator { self.new.tsval_generator ≡ self.old.tsval_generator }
        ensures ended { self.new.ended ≡ self.old.ended }
    {
        self.control_block.hop_limit = hop_limit;
    }

    /// Lets a SYN|ACK wait, or go out, as smoltcp.
    pub fn pause_synack(&mut self, pause: bool)
        ensures control_block { self.new.control_block ≡ record self.old.control_block { synack_paused = pause } }
        ensures generator { self.new.tsval_generator ≡ self.old.tsval_generator }
        ensures ended { self.new.ended ≡ self.old.ended }
    {
        self.control_block.synack_paused = pause;
    }
}
