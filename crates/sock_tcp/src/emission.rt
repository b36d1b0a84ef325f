//! What a dispatch emits a segment for, and what is kept of one that went out.
ghost use Rattle.std.specs.Prelude.{◌≡◌, ◌≤◌, length};
ghost use Rattle.control_wire.specs.Segment.{segment_of};
ghost use Rattle.sock_tcp.specs.Sent.{emitted_as};

use crate::round_trips::stamp_of;
use control_wire::{TcpRepr, TcpSeqNumber};

/// What a dispatch emits a segment for.
#[derive(Clone, Copy)]
pub enum Kind {
    /// Data, a SYN, a FIN, an acknowledgement or an RST.
    Plain,
    /// A byte goes into a window that leaves nothing (RFC 9293, section 3.8.6.1).
    Probe,
    /// A byte that the peer has acknowledged asks whether it is there (RFC 9293, section 3.8.4).
    KeepAlive,
}

/// What is kept of a segment once it went out.
#[derive(Clone, Copy)]
pub struct Emitted {
    /// What it was emitted for.
    pub kind: Kind,
    /// Its sequence number.
    pub seq_number: TcpSeqNumber,
    /// How many sequence numbers it takes.
    pub len: usize,
    /// The sequence number behind them.
    pub end: TcpSeqNumber,
    /// The acknowledgement that it carries.
    pub ack_number: Option<TcpSeqNumber>,
    /// Its window field.
    pub window_len: u16,
    /// The timestamp that it has, TSval.
    pub stamp: Option<u32>,
}

impl Emitted {
    // What is kept of this segment.
    pub(crate) fn of(kind: Kind, repr: &TcpRepr<'_>) -> Emitted
        requires { length repr.now.payload.now ≤ 65535 }
        ensures { result ≡ emitted_as kind (segment_of repr.now) }
    {
        let len = repr.segment_len();
        Emitted {
            kind,
            seq_number: repr.seq_number,
            len,
            end: repr.seq_number.plus(len),
            ack_number: repr.ack_number,
            window_len: repr.window_len,
            stamp: stamp_of(repr.timestamp),
        }
    }
}
