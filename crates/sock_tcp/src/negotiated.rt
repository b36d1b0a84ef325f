//! What the two sides of a connection agreed on.
ghost use Rattle.std.specs.Prelude.{◌≡◌, ◌≤◌};
ghost use Rattle.sock_tcp.specs.Negotiated.{negotiated};

use crate::socket::Socket;
use crate::state::State;

/// What the two SYNs of a connection agreed on, and the peer's window.
#[derive(Debug, Clone, Copy, PartialEq, Eq)]
pub struct Negotiated {
    /// The longest payload of a segment that the peer takes, in bytes, options included: its MSS option, of which less
    /// than 48 counts as 48, or 536 (RFC 9293, section 3.7.1). The MTU may allow less.
    pub remote_mss: usize,
    /// By how many bits the peer's window fields are shifted, at most 14; none where its SYN had no such option (RFC
    /// 7323, section 2).
    pub remote_win_scale: Option<u8>,
    /// By how many bits the own window fields are shifted, at most 14: 0 where the peer's SYN had no such option.
    pub local_win_scale: u8,
    /// Segments carry timestamps (RFC 7323, section 3).
    pub timestamps: bool,
    /// The peer permits SACK (RFC 2018, section 2), which the socket always does.
    pub sack: bool,
    /// The peer's window, SND.WND, in bytes: how many may be on their way.
    pub remote_window: usize,
}

impl<'a, G> Socket<'a, G> {
    /// What was agreed: none in CLOSED, LISTEN and SYN-SENT, where no SYN of a peer was taken.
    pub fn negotiated(&self) -> Option<Negotiated>
        ensures { result ≡ negotiated self.now.control_block }
    {
        let block = &self.control_block;
        match block.state {
            State::Closed | State::Listen | State::SynSent => None,
            _ => Some(Negotiated {
                remote_mss: block.remote_mss,
                remote_win_scale: block.remote_win_scale,
                local_win_scale: block.remote_win_shift,
                timestamps: block.stamps,
                sack: block.remote_has_sack,
                remote_window: block.remote_win_len,
            }),
        }
    }

    /// By how many bits the own window fields are shifted, in each state: in LISTEN what the SYN|ACK will tell, where
    /// the peer's SYN has the option (RFC 7323, section 2).
    pub fn local_win_scale(&self) -> u8
        ensures value { result ≡ self.now.control_block.remote_win_shift }
        ensures bound { result ≤ 14 }
    {
        self.control_block.remote_win_shift
    }
}
