//! The receive window (RFC 9293, section 3.10.7.4; RFC 7323, section 2).
ghost use Rattle.std.specs.Prelude.{◌≡◌, ◌≤◌, ◌<◌, ◌^◌, length};
ghost use Rattle.control_wire.specs.Seq.{seq_sub};
ghost use Rattle.sock_tcp.specs.Advance.{counted_control};
ghost use Rattle.sock_tcp.specs.Window.{next_ack, kept_between, receive_window, starts_inside, is_inside, cut_of};
ghost use Rattle.sock_tcp.specs.Window.{accepted_window, cut_bytes, honored_window};

use crate::control_block::ControlBlock;
use crate::rules::Rules;
use control_wire::{TcpControl, TcpSeqNumber};
use sock_core::seq::{before, later, not_after};

/// The receive window: its left edge, and the number behind its last one.
#[derive(Clone, Copy)]
pub struct Window {
    /// The left edge, RCV.NXT.
    pub start: TcpSeqNumber,
    /// The number behind the window's last.
    pub end: TcpSeqNumber,
}

/// A part of a segment's payload.
#[derive(Clone, Copy)]
pub struct Cut {
    /// How many bytes stand before it.
    pub skip: usize,
    /// How many bytes it has, where the payload has so many.
    pub count: usize,
    /// How far its first byte lies past RCV.NXT.
    pub offset: usize,
}

impl Cut {
    // The part of a payload that the cut names.
    pub(crate) fn of(self, payload: &[u8]) -> &[u8]
        ensures { result.now ≡ cut_bytes self payload.now }
    {
        let from = self.skip.min(payload.len());
        let count = self.count.min(payload.len() - from);
        &payload[from..from + count]
    }
}

impl Window {
    // The control bit that counts, of a segment of `length` bytes inside the window.
    #[tactic(auto, unfolding(crate::specs::Advance::counted_control))]
    pub(crate) fn counted_control(
        &self,
        control: TcpControl,
        number: TcpSeqNumber,
        length: usize,
    ) -> TcpControl
        requires { length < 2 ^ 32 }
        ensures { result ≡ counted_control control self.now number length }
    {
        match control {
            TcpControl::Psh => TcpControl::None,
            TcpControl::Fin
                if before(self.start, number) || before(self.end, number.plus(length)) => {
                TcpControl::None
            }
            _ => control,
        }
    }

    // Whether a number lies from the left edge on, and before the right one.
    pub(crate) fn starts_inside(&self, number: TcpSeqNumber) -> bool
        ensures { result ≡ starts_inside self.now number }
    {
        not_after(self.start, number) && before(number, self.end)
    }

    // Whether a segment of `length` bytes lies inside (RFC 9293, section 3.10.7.4).
    #[inline(always)]
    #[tactic(auto, unfolding(crate::specs::Window::is_inside))]
    pub(crate) fn is_inside(&self, number: TcpSeqNumber, length: usize) -> bool
        requires { length < 2 ^ 32 }
        ensures { result ≡ is_inside self.now number length }
    {
        match (length, self.start == self.end) {
            (0, _) if number == self.start.minus(1) => false,
            (0, true) => number == self.start,
            (0, false) => self.starts_inside(number),
            (_, true) => false,
            (_, false) => {
                let end = number.plus(length);
                self.starts_inside(number) || before(self.start, end) && not_after(end, self.end)
            }
        }
    }

    // The part of such a segment that lies in the window.
    #[tactic(auto, unfolding(crate::specs::Window::cut_of))]
    pub(crate) fn cut(&self, number: TcpSeqNumber, length: usize) -> Cut
        requires { length < 2 ^ 32 }
        ensures { result ≡ cut_of self.now number length }
    {
        let start = later(self.start, number);
        let end = number.plus(length);
        let end = if before(end, self.end) { end } else { self.end };
        Cut {
            skip: start.since(number),
            count: end.since(start),
            offset: start.since(self.start),
        }
    }
}

impl<'a> ControlBlock<'a> {
    // RCV.NXT.
    pub(crate) fn next_ack(&self) -> TcpSeqNumber
        ensures { result ≡ next_ack self.now }
    {
        self.remote_seq_no.plus(self.rx_buffer.len())
    }

    // An edge, kept from `start` to `limit`.
    fn kept_between(start: TcpSeqNumber, limit: TcpSeqNumber, edge: TcpSeqNumber) -> TcpSeqNumber
        ensures { result ≡ kept_between start limit edge }
    {
        if before(edge, start) {
            start
        } else if before(limit, edge) {
            limit
        } else {
            edge
        }
    }

    #[tactic(auto, unfolding(crate::specs::Window::receive_window))]
    pub(crate) fn receive_window(&self) -> Window
        ensures window { result ≡ receive_window self.now }
        ensures within { seq_sub result.end result.start ≤ length self.now.rx_buffer.held }
    {
        let start = self.next_ack();
        start.in_range(); // for its contract
        let end = match self.remote_last_ack {
            None => start,
            Some(ack) => {
                let edge = ack.plus((self.remote_last_win as usize) << self.remote_win_shift);
                edge.in_range(); // for its contract
                Self::kept_between(start, start.plus(self.rx_buffer.window()), edge)
            }
        };
        Window { start, end }
    }

    // The window that honors whatever was told once (RFC 7323, section 2.4); RSTs and blocks of SACK are tested by
    // it too.
    #[tactic(auto, unfolding(crate::specs::Window::honored_window))]
    pub(crate) fn honored_window(&self) -> Window
        ensures { result ≡ honored_window self.now }
    {
        let start = self.next_ack();
        let end = match self.remote_last_ack {
            None => start,
            Some(_) => start.plus(self.rx_buffer.window()),
        };
        Window { start, end }
    }

    // The window in which a segment is taken, by the socket's rules.
    pub(crate) fn accepted_window(&self) -> Window
        ensures { result ≡ accepted_window self.now.rules self.now }
    {
        match self.rules {
            Rules::Smoltcp => self.receive_window(),
            Rules::Rfc => self.honored_window(),
        }
    }
}
