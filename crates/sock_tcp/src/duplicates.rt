//! Bytes that came twice, which an acknowledgement tells by its first SACK block (RFC 2883, section 4).
ghost use Rattle.std.specs.Prelude.{◌≡◌, ◌≤◌, length, option_map};
ghost use Rattle.control_wire.specs.Segment.{Segment};
ghost use Rattle.control_wire.specs.Seq.{seq_sub};
ghost use Rattle.sock_tcp.specs.Process.{answered, responded};
ghost use Rattle.sock_tcp.specs.Rfc.Duplicates.{came_before, came_from, with_duplicate};
ghost use Rattle.sock_tcp.specs.View.{View};
ghost use Rattle.sock_tcp.specs.Window.{next_ack};

use crate::control_block::ControlBlock;
use crate::process::Answer;
use crate::refused::is_plain;
use control_wire::{TcpRepr, TcpSeqNumber};

/// How a segment is answered.
#[derive(Debug, Clone, Copy, PartialEq, Eq)]
pub enum Response {
    /// Not at all.
    Nothing,
    /// By an acknowledgement. Where so many of the segment's first bytes came before, its first SACK block tells them.
    Ack(u32),
    /// By an RST.
    Rst,
}

impl Answer {
    // An acknowledgement tells that so many bytes came before.
    #[inline(always)]
    pub(crate) fn telling(self, count: u32) -> Response
        ensures { (v : View) (s : Segment) → responded result v s
            ≡ record {
              view = (answered self v s).view;
              reply = option_map (with_duplicate count s) (answered self v s).reply;
            } }
    {
        match self {
            Answer::Nothing => Response::Nothing,
            Answer::Ack => Response::Ack(count),
            Answer::Rst => Response::Rst,
        }
    }

    // It tells of none.
    #[inline(always)]
    #[tactic(auto, unfolding(crate::specs::Replies::ack_segment))]
    pub(crate) fn plain(self) -> Response
        ensures { (v : View) (s : Segment) → responded result v s ≡ answered self v s }
    {
        match self {
            Answer::Nothing => Response::Nothing,
            Answer::Ack => Response::Ack(0),
            Answer::Rst => Response::Rst,
        }
    }
}

impl<'a> ControlBlock<'a> {
    // How many bytes from this number on came before: up to RCV.NXT, or to the end of a range that is held.
    #[inline(always)]
    fn came_from(&self, number: TcpSeqNumber) -> usize
        ensures { result ≡ came_from self.now number (seq_sub (next_ack self.now) number) }
    {
        let next = self.next_ack();
        let back = next.since(number);
        if back <= self.rx_buffer.capacity() {
            return back.saturating_sub(if self.rx_fin_received { 1 } else { 0 });
        }
        let offset = number.since(next);
        match self.rx_buffer.range_around(offset) {
            None => 0,
            Some((_, end)) => end.saturating_sub(offset),
        }
    }

    // How many of a segment's first bytes came before.
    #[inline(always)]
    pub(crate) fn came_before(&self, repr: &TcpRepr<'_>) -> u32
        requires { length repr.now.payload.now ≤ 65535 }
        ensures { result
            ≡ came_before self.now repr.now.control repr.now.seq_number (length repr.now.payload.now) }
    {
        if self.remote_has_sack && (self.is_heeding() && is_plain(repr.control)) {
            repr.payload.len().min(self.came_from(repr.seq_number)) as u32
        } else {
            0
        }
    }
}
