//! What a socket has measured of its connection. smoltcp keeps these to itself.
ghost use Rattle.std.specs.Prelude.{◌≡◌, ◌*◌};
ghost use Rattle.sock_core.specs.Congestion.{congestion_window};
ghost use Rattle.sock_core.specs.Estimator.{srtt_of};
ghost use Rattle.sock_tcp.specs.Ends.{close_end};
ghost use Rattle.sock_tcp.specs.Window.{next_ack};

use crate::socket::Socket;
use crate::timer::Timer;
use control_wire::TcpSeqNumber;
use net_base::time::{Duration, Instant};
use sock_core::congestion::Controller;

impl<'a, G> Socket<'a, G> {
    /// The peer's window as it gave it last (SND.WND; RFC 9293, section 3.3.1), in bytes.
    pub fn remote_window(&self) -> usize
        ensures { result ≡ self.now.control_block.remote_win_len }
    {
        self.control_block.remote_win_len
    }

    /// The number of the first byte that the peer has not acknowledged (SND.UNA; RFC 9293, section 3.3.1).
    pub fn send_unacknowledged(&self) -> TcpSeqNumber
        ensures { result ≡ self.now.control_block.local_seq_no }
    {
        self.control_block.local_seq_no
    }

    /// The number of the next byte that is expected of the peer (RCV.NXT; RFC 9293, section 3.3.1).
    pub fn receive_next(&self) -> TcpSeqNumber
        ensures { result ≡ next_ack self.now.control_block }
    {
        self.control_block.next_ack()
    }

    /// When TIME-WAIT ends, in this state (RFC 9293, section 3.4.2).
    pub fn time_wait_end(&self) -> Option<Instant>
        ensures { result ≡ close_end self.now.control_block.timer }
    {
        match self.control_block.timer {
            Timer::Close { expires_at } => Some(expires_at),
            _ => None,
        }
    }

    /// How many bytes congestion control lets be in flight (RFC 5681, section 3.1); 2^64 - 1 without a controller.
    pub fn congestion_window(&self) -> usize
        ensures { result ≡ congestion_window self.now.control_block.congestion_controller }
    {
        self.control_block.congestion_controller.window()
    }

    /// The smoothed round-trip time (SRTT; RFC 6298, section 2), in milliseconds; 0 before the first measurement.
    pub fn smoothed_round_trip(&self) -> u32
        ensures { result ≡ srtt_of self.now.control_block.rtte.smoothed }
    {
        self.control_block.rtte.srtt()
    }

    /// How long the socket waits for an acknowledgement before it sends again (RTO; RFC 6298, section 2): 1 to 60
    /// seconds.
    pub fn retransmission_timeout(&self) -> Duration
        ensures { result.micros ≡ self.now.control_block.rtte.rto * 1000 }
    {
        self.control_block.rtte.retransmission_timeout()
    }
}
