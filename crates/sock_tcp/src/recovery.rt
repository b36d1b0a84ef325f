//! Loss by the rules of the RFCs: recovery (RFC 6675, RFC 6582) and duplicates (RFC 5681, RFC 5827).
ghost use Rattle.std.specs.Prelude.{◌≡◌, ◌≤◌, length};
ghost use Rattle.control_wire.specs.Segment.{segment_of};
ghost use Rattle.sock_core.specs.Bounds.{IsMoment};
ghost use Rattle.sock_tcp.specs.Rfc.Recovery.{before_it, before_of, begins, bytes_counted, controller_after};
ghost use Rattle.sock_tcp.specs.Rfc.Recovery.{duplicates_after};
ghost use Rattle.sock_tcp.specs.Rfc.Recovery.{estimator_after, gone_on, highest_of, is_acked, is_bare_control};
ghost use Rattle.sock_tcp.specs.Rfc.Recovery.{is_called, is_recovering};
ghost use Rattle.sock_tcp.specs.Rfc.Recovery.{is_counted, is_early, is_fast, is_news, is_opened, is_over, is_partial};
ghost use Rattle.sock_tcp.specs.Rfc.Recovery.{is_timed_out, is_uncounted, is_void, marks, may_resend, recovered};
ghost use Rattle.sock_tcp.specs.Rfc.Recovery.{recovery_after, repeats_by, resends, segments_out, tells_controller};
ghost use Rattle.sock_tcp.specs.Rfc.Recovery.{tells_loss, timed_out_by, told_of_bytes};

use crate::control_block::ControlBlock;
use crate::round_trips::echo_of;
use crate::rules::Rules;
use crate::scoreboard::Scoreboard;
use crate::state::State;
use crate::timer::Timer;
use control_wire::{TcpControl, TcpRepr, TcpSeqNumber};
use net_base::time::Instant;
use sock_core::congestion::{AnyController, Controller};
use sock_core::rtte::RttEstimator;
use sock_core::seq::{before, later};

/// What goes on of a loss. Smoltcp's rules keep it `Open`.
#[derive(Debug, Clone, Copy)]
pub enum Recovery {
    /// Nothing.
    Open,
    /// A fast retransmission went out, and not all that was sent before it is acknowledged (RFC 6582, section 3.2).
    Fast {
        /// The number behind what was sent before it.
        point: TcpSeqNumber,
        /// The number behind what was sent again since, HighRxt (RFC 6675, section 2).
        high_rxt: TcpSeqNumber,
        /// The number behind all that was sent when SND.UNA moved last, or holes began to go out again.
        resent_at: TcpSeqNumber,
        /// Whether something new was acknowledged since it began.
        acked: bool,
        /// Whether something was sent again behind new bytes that went out since then.
        trailed: bool,
        /// Whether the segment at SND.UNA was lost again, and is still to go out.
        una_lost: bool,
    },
    /// A tail-loss probe went out, and nothing behind what was sent before it is acknowledged (RFC 8985, section 7).
    Probe {
        /// The number of the segment that was the last one.
        start: TcpSeqNumber,
        /// The number behind it.
        end: TcpSeqNumber,
        /// Whether that segment went out again; else new bytes did.
        again: bool,
    },
    /// The retransmission timer was over, and not all that was sent before that is acknowledged.
    Timeout {
        /// The number behind what was sent before it.
        point: TcpSeqNumber,
    },
}

/// What is kept of a socket while a segment is heard.
#[derive(Clone, Copy)]
pub struct Before {
    /// Its state.
    pub state: State,
    /// Its timer.
    pub timer: Timer,
    /// SND.UNA.
    pub una: TcpSeqNumber,
    /// SND.WND.
    pub window: usize,
    /// How many duplicate acknowledgements had come.
    pub duplicates: u8,
    /// What went on of a loss, with a probe left out of which the segment says that it came twice.
    pub recovery: Recovery,
    /// The congestion controller.
    pub controller: AnyController,
    /// Whether the segment is a duplicate acknowledgement, whatever its window.
    pub repeats: bool,
    /// Whether it tells something new by SACK.
    pub telling: bool,
    /// What was told by SACK, with what it tells.
    pub sacked: Scoreboard,
    /// The timestamp that the segment echoes, TSecr.
    pub echo: Option<u32>,
    /// How many bytes came twice, as its first SACK block tells.
    pub twice: usize,
}

// Neither a SYN, an RST nor a FIN.
pub(crate) fn is_bare(control: TcpControl) -> bool
    ensures { result ≡ is_bare_control control }
{
    matches!(control, TcpControl::None | TcpControl::Psh)
}

pub(crate) fn is_fast(timer: Timer) -> bool
    ensures { result ≡ is_fast timer }
{
    matches!(timer, Timer::FastRetransmit)
}

impl Recovery {
    pub(crate) fn is_over(self) -> bool
        ensures { result ≡ is_over self }
    {
        matches!(self, Recovery::Open | Recovery::Probe { .. })
    }

    // Holes go out again.
    fn is_recovering(self) -> bool
        ensures { result ≡ is_recovering self }
    {
        matches!(self, Recovery::Fast { .. })
    }

    // An acknowledgement of all that was sent before ends it.
    fn gone_on(self, una: TcpSeqNumber) -> Recovery
        ensures { result ≡ gone_on self una }
    {
        match self {
            Recovery::Open | Recovery::Probe { .. } => self,
            Recovery::Fast { point, .. } | Recovery::Timeout { point } => {
                if before(una, point) {
                    self
                } else {
                    Recovery::Open
                }
            }
        }
    }

    // The number behind all that was sent, where SND.NXT is this one.
    pub(crate) fn highest(self, next: TcpSeqNumber) -> TcpSeqNumber
        ensures { result ≡ highest_of self next }
    {
        match self {
            Recovery::Open | Recovery::Probe { .. } => next,
            Recovery::Fast { point, .. } | Recovery::Timeout { point } => later(next, point),
        }
    }

    // Something new was acknowledged since a fast retransmission went out.
    pub(crate) fn is_acked(self) -> bool
        ensures { result ≡ is_acked self }
    {
        match self {
            Recovery::Fast { acked, .. } => acked,
            _ => false,
        }
    }

    fn is_timed_out(self) -> bool
        ensures { result ≡ is_timed_out self }
    {
        matches!(self, Recovery::Timeout { .. })
    }

    // The retransmission timer is over, with SND.NXT there.
    #[inline(always)]
    pub(crate) fn timed_out(self, rules: Rules, next: TcpSeqNumber) -> Recovery
        ensures { result ≡ timed_out_by rules self next }
    {
        match rules {
            Rules::Smoltcp => self,
            Rules::Rfc => Recovery::Timeout {
                point: self.highest(next),
            },
        }
    }
}

impl Before {
    // SND.UNA has moved.
    pub(crate) fn is_news(&self, after: &ControlBlock<'_>) -> bool
        ensures { result ≡ is_news self.now after.now }
    {
        self.una != after.local_seq_no
    }

    // None, though smoltcp's rules count it or begin the count anew: of a peer that tells by SACK one that tells
    // nothing new, of another one a larger window.
    fn is_void(&self, after: &ControlBlock<'_>) -> bool
        ensures { result ≡ is_void self.now after.now }
    {
        let grown = self.window < after.remote_win_len;
        self.repeats && (!self.telling && (after.remote_has_sack || grown))
    }

    // A duplicate that smoltcp's rules do not count: it tells something new by SACK.
    fn is_uncounted(&self, after: &ControlBlock<'_>) -> bool
        ensures { result ≡ is_uncounted self.now after.now }
    {
        let counted = self.repeats && self.window == after.remote_win_len;
        self.telling && (!self.is_news(after) && !counted)
    }

    // Smoltcp's rules call for a fast retransmission.
    pub(crate) fn is_called(&self, after: &ControlBlock<'_>) -> bool
        ensures { result ≡ is_called self.now after.now }
    {
        is_fast(after.timer) && !is_fast(self.timer)
    }

    // It was counted as a duplicate by smoltcp's rules, and is one.
    fn is_counted(&self, after: &ControlBlock<'_>) -> bool
        ensures { result ≡ is_counted self.now after.now }
    {
        let counted = self.duplicates < after.local_rx_dup_acks && !self.is_void(after);
        self.repeats && (self.window == after.remote_win_len && counted)
    }

    // One duplicate less than the segments that are out, where these are few and all that is queued was sent.
    fn is_early(&self, after: &ControlBlock<'_>) -> bool
        ensures { result ≡ is_early self.now after.now }
    {
        let out = after.segments_out();
        let duplicates = after.local_rx_dup_acks as usize;
        self.is_counted(after)
            && (after.tx_buffer.len() <= after.flight() && (out < 4 && duplicates + 1 == out))
    }

    // The third duplicate, or an earlier one that suffices.
    fn tells_loss(&self, after: &ControlBlock<'_>) -> bool
        ensures { result ≡ tells_loss self.now after.now }
    {
        let third = self.is_uncounted(after) && self.duplicates == 2;
        self.is_called(after) && !self.is_void(after)
            || (third
                || (self.is_early(after)
                    || (self.is_probe_told(after) || self.is_told_lost(after))))
    }

    // Of new bytes, but not of all that was sent before a fast retransmission.
    pub(crate) fn is_partial(&self, after: &ControlBlock<'_>) -> bool
        ensures { result ≡ is_partial self.now after.now }
    {
        match self.recovery {
            Recovery::Fast { point, .. } => {
                self.is_news(after) && before(after.local_seq_no, point)
            }
            _ => false,
        }
    }

    // Duplicates begin a recovery, where none goes on, and the loss is not waited for.
    fn begins(&self, after: &ControlBlock<'_>) -> bool
        ensures { result ≡ begins self.now after.now }
    {
        after.may_resend()
            && (self.tells_loss(after) && (self.recovery.is_over() && !self.is_waited(after)))
    }

    // A hole goes out again, or the segment at SND.UNA.
    fn resends(&self, after: &ControlBlock<'_>) -> bool
        ensures { result ≡ resends self.now after.now }
    {
        self.begins(after) || after.may_resend() && (self.shows_hole(after) || self.lets_out(after))
    }

    // The dispatch that sends it tells the controller of a loss: one begins, or that was not told yet.
    pub(crate) fn tells_controller(&self, after: &ControlBlock<'_>) -> bool
        ensures { result ≡ tells_controller self.now after.now }
    {
        self.begins(after) || is_fast(self.timer) && self.resends(after)
    }

    // In a recovery that goes on, of which the controller was told, what goes out again is marked at once.
    fn marks(&self, after: &ControlBlock<'_>) -> bool
        ensures { result ≡ marks self.now after.now }
    {
        self.recovery.is_recovering()
            && (!is_fast(self.timer)
                && (after.may_resend() && (self.shows_hole(after) || self.lets_out(after))))
    }

    pub(crate) fn recovery_after(&self, after: &ControlBlock<'_>) -> Recovery
        ensures { result ≡ recovery_after self.now after.now }
    {
        if !after.state.carries_data() {
            return Recovery::Open;
        }
        if self.begins(after) {
            return Recovery::Fast {
                point: after.remote_last_seq,
                high_rxt: after.local_seq_no,
                resent_at: after.remote_last_seq,
                acked: false,
                trailed: false,
                una_lost: false,
            };
        }
        let recovery = self.again(after).spared(self.is_undone(after));
        recovery.gone_on(after.local_seq_no)
    }

    pub(crate) fn duplicates_after(&self, after: &ControlBlock<'_>) -> u8
        ensures { result ≡ duplicates_after self.now after.now }
    {
        if self.is_void(after) {
            self.duplicates
        } else if self.is_uncounted(after) {
            self.duplicates.saturating_add(1)
        } else {
            after.local_rx_dup_acks
        }
    }

    // Bytes begin to go out.
    fn is_opened(&self, after: &ControlBlock<'_>) -> bool
        ensures { result ≡ is_opened self.now after.now }
    {
        self.state.is_opening() && !after.state.is_opening()
    }

    // The controller as it was, with the window that came.
    pub(crate) fn controller_before(&self, after: &ControlBlock<'_>) -> AnyController
        ensures { result ≡ before_it self.now after.now }
    {
        let mut controller = self.controller;
        controller.set_remote_window(after.remote_win_len);
        controller
    }

    // How many bytes a congestion window of this size grows by: none where the application holds back what goes out,
    // and not the window, of which less than half was queued.
    fn bytes_counted(&self, after: &ControlBlock<'_>, window: usize) -> usize
        ensures { result ≡ bytes_counted self.now after.now window }
    {
        let count = after.local_seq_no.since(self.una);
        let queued = after.tx_buffer.len() + count;
        if 2 * queued < window
            && (self.recovery.is_over() && !self.recovery.is_repaired(after.local_seq_no))
        {
            0
        } else {
            count
        }
    }

    // The controller is told of the bytes that are acknowledged, or that the connection is open.
    fn told_of_bytes(&self, after: &ControlBlock<'_>, now: Instant) -> AnyController
        ensures { result ≡ told_of_bytes self.now after.now now }
    {
        if self.is_opened(after) && !after.rtte.is_backed_off() {
            let mut controller = after.congestion_controller;
            controller.open(after.remote_mss);
            return controller;
        }
        if self.is_news(after) && self.state.carries_data() {
            let mut controller = self.told_repaired(after, now);
            let count = self.bytes_counted(after, controller.window());
            controller.on_bytes_acked(now, count, self.recovery.is_timed_out(), &after.rtte);
            return controller;
        }
        after.congestion_controller
    }

    // What the congestion controller is told.
    pub(crate) fn controller_after(&self, after: &ControlBlock<'_>, now: Instant) -> AnyController
        ensures { result ≡ controller_after self.now after.now now }
    {
        if self.is_partial(after) {
            let mut controller = self.controller_before(after);
            controller.on_partial_ack(now, after.local_seq_no.since(self.una));
            return controller;
        }
        if self.lets_out(after) || self.is_void(after) {
            return self.controller_before(after);
        }
        if self.is_uncounted(after) {
            let mut controller = after.congestion_controller;
            controller.on_dup_ack(now, after.remote_mss, after.flight());
            return controller;
        }
        self.told_of_bytes(after, now)
    }

    fn estimator_after(&self, after: &ControlBlock<'_>) -> RttEstimator
        ensures { result ≡ estimator_after self.now after.now }
    {
        let mut rtte = after.rtte;
        if self.is_opened(after) {
            rtte.begin_anew();
        } else if self.marks(after) {
            rtte.on_retransmit();
        }
        rtte
    }
}

impl<'a> ControlBlock<'a> {
    // Whether it is a duplicate acknowledgement, whatever its window.
    fn repeats(&self, repr: &TcpRepr<'_>) -> bool
        ensures { result ≡ repeats_by repr.now.ack_number self.now repr.now.control (length repr.now.payload.now) }
    {
        match repr.ack_number {
            None => false,
            Some(ack) => {
                is_bare(repr.control) && self.is_duplicate(ack, repr.payload.len(), false)
            }
        }
    }

    fn segments_out(&self) -> usize
        ensures { result ≡ segments_out self.now }
    {
        self.flight().div_ceil(self.remote_mss.max(1))
    }

    // There are bytes to send again.
    pub(crate) fn may_resend(&self) -> bool
        ensures { result ≡ may_resend self.now }
    {
        self.state.carries_data() && !self.tx_buffer.is_empty()
    }

    // What is kept of the socket while this segment is heard.
    #[tactic(auto, unfolding(crate::specs::Rfc::Recovery::before_of))]
    pub(crate) fn before(&self, repr: &TcpRepr<'_>) -> Before
        requires { length repr.now.payload.now ≤ 65535 }
        ensures { result ≡ before_of self.now (segment_of repr.now) }
    {
        let telling = self.is_telling(repr);
        Before {
            state: self.state,
            timer: self.timer,
            una: self.local_seq_no,
            window: self.remote_win_len,
            duplicates: self.local_rx_dup_acks,
            recovery: self.recovery_heard(repr),
            controller: self.congestion_controller,
            repeats: self.repeats(repr),
            telling,
            sacked: self.sacked_by(telling, repr),
            echo: echo_of(repr.timestamp),
            twice: self.told_twice(repr),
        }
    }

    // What is done of loss, once a segment was heard.
    #[tactic(auto, unfolding(crate::specs::Rfc::Recovery::recovered))]
    pub(crate) fn recover(&mut self, before: &Before, now: Instant)
        requires { IsMoment now.micros }
        ensures { self.new ≡ recovered before.now self.old now }
    {
        self.take_echo(before.is_news(self), before.echo, now);
        let timer = before.timer_after(self, now);
        let rtte = before.estimator_after(self);
        let duplicates = before.duplicates_after(self);
        let controller = before.controller_told(self, now);
        let recovery = before.recovery_after(self);
        let sacked = before.sacked_after(self);
        let largest = before.largest_after(self);
        let undone = before.is_undone(self);
        let marked = (self.pending_fast_retransmit || before.marks(self)) && !undone;
        let undo = before.undo_after(self);
        let reordering = before.reordering_after(self);
        self.timer = timer;
        self.rtte = rtte;
        self.local_rx_dup_acks = duplicates;
        self.pending_fast_retransmit = marked;
        self.congestion_controller = controller;
        self.recovery = recovery;
        self.sacked = sacked;
        self.largest_window = largest;
        self.undo = undo;
        self.reordering = reordering;
    }
}
