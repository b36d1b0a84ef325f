//! Why a raw socket refuses to send.
ghost use Rattle.std.specs.Prelude.{Some};
ghost use Rattle.sock_dgram.specs.Texts.{raw_send_error_text};

use std::error::Error;
use std::fmt;

/// Why a call that sends is refused, as smoltcp.
#[derive(Debug, Clone, Copy, PartialEq, Eq)]
pub enum SendError {
    /// The transmit buffer has no place left, or not enough bytes in one piece.
    BufferFull,
}

impl fmt::Display for SendError {
    ghost output = { λ e. Some (raw_send_error_text e) };

    fn fmt<W: fmt::Write>(&self, f: &mut fmt::Formatter<W>) -> fmt::Result {
        match self {
            SendError::BufferFull => write!(f, "buffer full"),
        }
    }
}

impl Error for SendError {}
