//! What undoes a recovery that was for nothing, by the RFCs' rules: segments came late and were not lost, as the echo
//! of a timestamp tells (RFC 3522) or, without timestamps, D-SACKs of all that went out again (RFC 3708).
ghost use Rattle.std.specs.Prelude.{◌≡◌, ◌≤◌, ◌<◌, ◌^◌, length};
ghost use Rattle.control_wire.specs.Segment.{segment_of};
ghost use Rattle.sock_tcp.specs.Rfc.Recovery.{controller_told, is_decided, is_decided_by, is_told_twice, is_undone};
ghost use Rattle.sock_tcp.specs.Rfc.Recovery.{undone_if};
ghost use Rattle.sock_tcp.specs.Rfc.Recovery.{spared, twice_in, twice_told, undo_after, undone_by_blocks};
ghost use Rattle.sock_tcp.specs.Rfc.Recovery.{undone_by_echo};
ghost use Rattle.sock_tcp.specs.Rfc.Undo.{counted_again, first_of, is_older, may_undo, nothing_to_undo, saved};
ghost use Rattle.sock_tcp.specs.Rfc.Undo.{sent_again};
ghost use Rattle.sock_tcp.specs.Rfc.Undo.{undo_marked, undo_sent, undo_timed_out};

use crate::control_block::ControlBlock;
use crate::emission::Emitted;
use crate::recovery::{Before, Recovery};
use crate::rules::Rules;
use control_wire::{TcpRepr, TcpSeqNumber};
use net_base::time::Instant;
use sock_core::congestion::{AnyController, Controller};
use sock_core::seq::before;

/// What is kept of the time before a recovery, until it is known whether that was for nothing. Smoltcp's rules keep
/// nothing.
#[derive(Debug, Clone, Copy)]
pub struct Undo {
    /// The congestion window before it, in bytes; 0 before a timeout, after which the window grows up to that anew.
    pub window: usize,
    /// The threshold before it, in bytes; 0 where there is nothing to undo.
    pub threshold: usize,
    /// The timestamp of what went out again first.
    pub stamp: Option<u32>,
    /// How many bytes went out again of which no D-SACK told that they came twice.
    pub resent: usize,
}

/// There is nothing to undo.
pub const NOTHING_TO_UNDO: Undo = Undo {
    window: 0,
    threshold: 0,
    stamp: None,
    resent: 0,
};

// A segment echoes a timestamp from before this one.
fn is_older(echo: Option<u32>, stamp: Option<u32>) -> bool
    ensures { result ≡ is_older echo stamp }
{
    match (echo, stamp) {
        (Some(echo), Some(stamp)) => before(TcpSeqNumber(echo), TcpSeqNumber(stamp)),
        _ => false,
    }
}

// The timestamp that went out first.
fn first_of(stamp: Option<u32>, next: Option<u32>) -> Option<u32>
    ensures { result ≡ first_of stamp next }
{
    match stamp {
        None => next,
        Some(_) => stamp,
    }
}

impl Undo {
    fn saved(window: usize, threshold: usize) -> Undo
        ensures { result ≡ saved window threshold }
    {
        Undo {
            window,
            threshold,
            stamp: None,
            resent: 0,
        }
    }

    fn may_undo(self) -> bool
        ensures { result ≡ may_undo self }
    {
        self.threshold != 0
    }

    // A recovery begins, before the controller hears of it.
    #[inline(always)]
    pub(crate) fn marked(self, rules: Rules, controller: &AnyController) -> Undo
        ensures { result ≡ undo_marked rules self controller.now }
    {
        match rules {
            Rules::Smoltcp => self,
            Rules::Rfc => Undo::saved(controller.window(), controller.threshold()),
        }
    }

    // The retransmission timer is over, before the controller hears of it: the first of several counts, and none that
    // ends a recovery.
    pub(crate) fn timed_out(
        self,
        rules: Rules,
        recovery: Recovery,
        controller: &AnyController,
    ) -> Undo
        ensures { result ≡ undo_timed_out rules recovery self controller.now }
    {
        match (rules, recovery) {
            (Rules::Smoltcp, _) | (Rules::Rfc, Recovery::Timeout { .. }) => self,
            (Rules::Rfc, Recovery::Fast { .. }) => NOTHING_TO_UNDO,
            (Rules::Rfc, _) => Undo::saved(0, controller.window().max(controller.threshold())),
        }
    }

    fn sent_again(self, emitted: &Emitted) -> Undo
        ensures { result ≡ sent_again self emitted.now }
    {
        Undo {
            window: self.window,
            threshold: self.threshold,
            stamp: first_of(self.stamp, emitted.stamp),
            resent: self.resent.saturating_add(emitted.len),
        }
    }

    // A segment went out in a recovery, with SND.NXT there.
    pub(crate) fn sent(self, recovery: Recovery, next: TcpSeqNumber, emitted: &Emitted) -> Undo
        ensures { result ≡ undo_sent recovery self next emitted.now }
    {
        match recovery {
            Recovery::Fast { .. } if before(emitted.seq_number, next) && emitted.len != 0 => {
                self.sent_again(emitted)
            }
            Recovery::Timeout { .. } if emitted.len != 0 => self.sent_again(emitted),
            _ => self,
        }
    }

    // So many bytes came twice.
    fn counted(self, twice: usize) -> Undo
        ensures { result ≡ counted_again self twice }
    {
        Undo {
            window: self.window,
            threshold: self.threshold,
            stamp: self.stamp,
            resent: self.resent.saturating_sub(twice),
        }
    }
}

impl Recovery {
    // The first echo of something new tells whether it was for nothing.
    fn is_decided(self) -> bool
        ensures { result ≡ is_decided_by self }
    {
        matches!(self, Recovery::Fast { .. } | Recovery::Timeout { .. })
    }

    // A fast recovery that was for nothing is over.
    pub(crate) fn spared(self, undone: bool) -> Recovery
        ensures { result ≡ spared undone self }
    {
        match self {
            Recovery::Fast { .. } if undone => Recovery::Open,
            _ => self,
        }
    }
}

impl Before {
    // The recovery was for nothing, as the echo tells.
    fn is_undone_by_echo(&self, after: &ControlBlock<'_>) -> bool
        ensures { result ≡ undone_by_echo self.now after.now }
    {
        self.is_news(after) && (self.recovery.is_decided() && is_older(self.echo, after.undo.stamp))
    }

    // Or D-SACKs of all that went out again, where there are no timestamps.
    fn is_undone_by_blocks(&self, after: &ControlBlock<'_>) -> bool
        ensures { result ≡ undone_by_blocks self.now after.now }
    {
        let all = after.undo.resent != 0 && after.undo.resent <= self.twice;
        self.echo.is_none() && all
    }

    // The recovery was for nothing.
    pub(crate) fn is_undone(&self, after: &ControlBlock<'_>) -> bool
        ensures { result ≡ is_undone self.now after.now }
    {
        after.undo.may_undo() && (self.is_undone_by_echo(after) || self.is_undone_by_blocks(after))
    }

    // It was not, as the first echo of something new tells.
    fn is_decided(&self, after: &ControlBlock<'_>) -> bool
        ensures { result ≡ is_decided self.now after.now }
    {
        self.is_news(after) && (self.recovery.is_decided() && self.echo.is_some())
    }

    pub(crate) fn undo_after(&self, after: &ControlBlock<'_>) -> Undo
        ensures { result ≡ undo_after self.now after.now }
    {
        if self.is_undone(after) || self.is_decided(after) {
            NOTHING_TO_UNDO
        } else {
            after.undo.counted(self.twice)
        }
    }

    // The controller as it is told of the segment, and that a recovery was for nothing.
    pub(crate) fn controller_told(&self, after: &ControlBlock<'_>, now: Instant) -> AnyController
        ensures { result ≡ controller_told self.now after.now now }
    {
        let mut controller = self.controller_after(after, now);
        if self.is_undone(after) {
            controller.undo(after.undo.window, after.undo.threshold);
        }
        controller
    }
}

// A block of bytes that are acknowledged.
fn twice_in(ack: TcpSeqNumber, block: (u32, u32)) -> usize
    ensures { result ≡ twice_in ack block }
{
    let (left, right) = (TcpSeqNumber(block.0), TcpSeqNumber(block.1));
    if before(left, right) && !before(ack, right) {
        right.since(left)
    } else {
        0
    }
}

impl<'a> ControlBlock<'a> {
    // How many bytes came twice, as the first block of a segment tells that is taken in this window.
    pub(crate) fn told_twice(&self, repr: &TcpRepr<'_>) -> usize
        requires { length repr.now.payload.now ≤ 65535 }
        ensures { result ≡ twice_told self.now (segment_of repr.now) }
    {
        let [first, _, _] = repr.sack_ranges;
        match (repr.ack_number, first) {
            (Some(ack), Some(block))
                if self.remote_has_sack
                    && self
                        .honored_window()
                        .is_inside(repr.seq_number, repr.payload.len()) => { twice_in(ack, block) }
            _ => 0,
        }
    }
}
