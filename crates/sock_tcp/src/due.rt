//! Whether a dispatch has anything to send (RFC 9293, section 3.8).
ghost use Rattle.std.specs.Prelude.{◌≡◌, ◌≤◌, ◌<◌, ◌^◌};
ghost use Rattle.sock_core.specs.Bounds.{IsMoment};
ghost use Rattle.sock_tcp.specs.View.{moment_of};
ghost use Rattle.std.specs.Prelude.{count_by, is_some};
ghost use Rattle.sock_tcp.specs.Due.{control_due, effective_mss, mss_within, own_mss, ranges_room, tells_within};
ghost use Rattle.sock_tcp.specs.Due.{timestamp_room};
ghost use Rattle.sock_tcp.specs.Sack.{sack_ranges};
ghost use Rattle.sock_tcp.specs.Due.{flight, limited, congestion_left, sendable, waits_by_nagle, is_held_back};
ghost use Rattle.sock_tcp.specs.Due.{data_due, data_due_by, ack_due};
ghost use Rattle.sock_tcp.specs.Due.{ack_poll};
ghost use Rattle.sock_tcp.specs.Due.{edge_sent, field_left, is_doubled, window_doubled, is_due};

use crate::control_block::ControlBlock;
use crate::poll::is_reached;
use crate::recovery::Recovery;
use crate::rules::Rules;
use crate::tuple::Tuple;
use control_wire::TcpSeqNumber;
use control_wire::tcp::sack_count;
use ip_wire::IpAddress;
use sock_core::congestion::Controller;
use sock_core::seq::before;
use sock_core::{Context, PollAt};

// How much of each segment a timestamp takes.
const TIMESTAMP_ROOM: usize = 12;

// And three ranges with it.
const MOST_OPTIONS: usize = 36;

// Over IPv6 less counts as this: its links carry 1280 bytes (RFC 8200, section 5).
const LEAST_IPV6_MTU: usize = 576;

// The MSS that this side may receive (RFC 6691).
pub(crate) fn own_mss<C: Context>(cx: &C, tuple: &Tuple) -> usize
    ensures value { result ≡ own_mss (C.facts cx.now) tuple.now }
    ensures small { result ≤ 65535 }
{
    let mtu = cx.ip_mtu();
    match tuple.local.addr {
        IpAddress::Ipv4(_) => mtu - 20 - 20,
        IpAddress::Ipv6(_) => mtu.max(LEAST_IPV6_MTU) - 40 - 20,
    }
}

impl<'a> ControlBlock<'a> {
    // How much of each segment a timestamp option takes.
    #[inline(always)]
    pub(crate) fn timestamp_room(&self) -> usize
        ensures { result ≡ timestamp_room self.now.stamps }
    {
        if self.stamps { TIMESTAMP_ROOM } else { 0 }
    }

    // A segment that is no reply tells what is held, with this own MSS.
    #[inline(always)]
    pub(crate) fn tells_ranges(&self, own: usize) -> bool
        ensures { result ≡ tells_within self.now own }
    {
        match self.rules {
            Rules::Smoltcp => false,
            Rules::Rfc => {
                self.remote_has_sack && !self.rx_buffer.holds_nothing() && own > MOST_OPTIONS
            }
        }
    }

    // How much of each segment the ranges take, with a timestamp.
    #[inline(never)]
    fn ranges_room(&self) -> usize
        ensures { result ≡ ranges_room self.now.stamps (count_by is_some (sack_ranges self.now)) }
    {
        let stamp = if self.stamps { 10 } else { 0 };
        let count = sack_count(&self.sack_ranges());
        let ranges = if count == 0 { 0 } else { 2 + 8 * count };
        (stamp + ranges + 3) / 4 * 4
    }

    // How many bytes a segment carries, with this own MSS. Not inlined, and the context is not handed over, so that by
    // smoltcp's rules it need not lie in memory.
    #[inline(never)]
    fn rfc_mss(&self, own: usize) -> usize
        ensures { result ≡ mss_within self.now own }
    {
        let room = if self.tells_ranges(own) {
            self.ranges_room()
        } else {
            self.timestamp_room()
        };
        own.min(self.remote_mss).saturating_sub(room)
    }

    pub(crate) fn effective_mss<C: Context>(&self, cx: &C, tuple: &Tuple) -> usize
        ensures value { result ≡ effective_mss self.now tuple.now (C.facts cx.now) }
        ensures small { result ≤ 65535 }
    {
        let own = own_mss(cx, tuple);
        match self.rules {
            Rules::Smoltcp => {
                let mss = own.min(self.remote_mss);
                mss.saturating_sub(self.timestamp_room())
            }
            Rules::Rfc => self.rfc_mss(own),
        }
    }

    // How much was sent and is not acknowledged.
    pub(crate) fn flight(&self) -> usize
        ensures value { result ≡ flight self.now }
        ensures small { result < 2 ^ 32 }
    {
        self.remote_last_seq.since(self.local_seq_no)
    }

    // What the first two duplicates let out beyond the congestion window, a segment each (RFC 3042), or what was told
    // while a loss is waited for, or a tail-loss probe of new bytes.
    fn limited(&self) -> usize
        ensures { result ≡ limited self.now }
    {
        match (self.rules, self.recovery) {
            (Rules::Rfc, Recovery::Probe { again: false, .. }) => self.remote_mss,
            (Rules::Rfc, Recovery::Open) | (Rules::Rfc, Recovery::Probe { .. }) => {
                ((self.local_rx_dup_acks.min(2) as usize) * self.remote_mss).max(self.told_late())
            }
            _ => 0,
        }
    }

    // What the congestion window leaves. By smoltcp's rules, which each dispatch asks, this spares a call of its own.
    #[inline(always)]
    pub(crate) fn congestion_left(&self) -> usize
        ensures { result ≡ congestion_left self.now }
    {
        match self.rules {
            Rules::Smoltcp => {
                let window = self.congestion_controller.window();
                window.saturating_sub(self.flight())
            }
            Rules::Rfc => self.congestion_left_by_rfc(),
        }
    }

    #[inline(never)]
    fn congestion_left_by_rfc(&self) -> usize
        ensures { result ≡ congestion_left self.now }
    {
        if self.is_counted() {
            return self.recovery_left();
        }
        let window = self.congestion_controller.window();
        window.saturating_sub(self.flight().saturating_sub(self.limited()))
    }

    // What of the transmit queue both windows let go out.
    pub(crate) fn sendable(&self) -> usize
        ensures { result ≡ sendable self.now }
    {
        self.remote_win_len
            .min(self.tx_buffer.len())
            .saturating_sub(self.flight())
            .min(self.congestion_left())
    }

    // Nagle: a small segment waits while bytes are in flight (RFC 9293, section 3.7.4). Both windows let out so much.
    fn waits_by_nagle(&self, out: usize, mss: usize) -> bool
        requires { out ≡ sendable self.now }
        ensures { result ≡ waits_by_nagle self.now mss }
    {
        self.nagle && self.flight() != 0 && out < mss && !self.state.is_closing()
    }

    pub(crate) fn is_held_back(&self, out: usize, mss: usize) -> bool
        requires { out ≡ sendable self.now }
        ensures { result ≡ is_held_back self.now mss }
    {
        self.waits_by_nagle(out, mss) || self.is_cut_short(out, mss)
    }

    #[inline(always)]
    #[tactic(auto, unfolding(crate::specs::Due::data_due))]
    pub(crate) fn data_due<C: Context>(&self, cx: &C, tuple: &Tuple) -> bool
        ensures { result ≡ data_due self.now tuple.now (C.facts cx.now) }
    {
        if self.tx_buffer.is_empty() {
            return self.control_due();
        }
        self.data_due_by(self.effective_mss(cx, tuple))
    }

    // Whether data is due, in segments of up to so many bytes.
    #[inline(always)]
    pub(crate) fn data_due_by(&self, mss: usize) -> bool
        ensures { result ≡ data_due_by self.now mss }
    {
        if self.tx_buffer.is_empty() {
            return self.control_due();
        }
        let marked = self.pending_fast_retransmit;
        let out = self.sendable();
        let some = out != 0 && !self.is_held_back(out, mss);
        marked || some || self.control_due()
    }

    // Whether a SYN or a FIN is due: all that can be while nothing is queued, as in most sockets that are asked.
    fn control_due(&self) -> bool
        ensures { result ≡ control_due self.now }
    {
        let syn = self.state.is_opening() && self.flight() == 0;
        let end = self.local_seq_no.plus(self.tx_buffer.len());
        let fin = self.state.is_closing() && self.remote_last_seq == end;
        syn || fin
    }

    #[tactic(auto, unfolding(crate::specs::Due::ack_due))]
    fn ack_due(&self) -> bool
        ensures { result ≡ ack_due self.now }
    {
        match self.remote_last_ack {
            None => false,
            Some(ack) => before(ack, self.next_ack()),
        }
    }

    // From when on an acknowledgement goes out.
    pub(crate) fn ack_poll(&self) -> PollAt
        ensures { result ≡ ack_poll self.now }
    {
        if self.ack_due() {
            self.ack_delay_timer().poll_at()
        } else {
            PollAt::Ingress
        }
    }

    // The window field that would tell what is left of the window sent last, up to this edge.
    fn field_left(&self, edge: TcpSeqNumber) -> usize
        ensures { result ≡ field_left self.now edge }
    {
        let next = self.next_ack();
        if before(edge, next) {
            0
        } else {
            (edge.since(next) >> self.remote_win_shift).min(65535)
        }
    }

    fn is_doubled(&self) -> bool
        ensures { result ≡ is_doubled self.now self.now.remote_last_ack }
    {
        let ack = match self.remote_last_ack {
            None => return false,
            Some(ack) => ack,
        };
        let edge = ack.plus((self.remote_last_win as usize) << self.remote_win_shift);
        let field = self.space_field() as usize;
        field != 0 && field / 2 >= self.field_left(edge)
    }

    // Whether the window has at least doubled since it was sent, and its right edge may move on.
    #[tactic(auto, unfolding(crate::specs::Due::window_doubled))]
    pub(crate) fn window_doubled(&self) -> bool
        ensures { result ≡ window_doubled self.now }
    {
        self.state.tells_window() && self.is_doubled() && self.may_grow()
    }

    // The reasons to send, in their order.
    #[tactic(auto, unfolding(crate::specs::Due::is_due))]
    pub(crate) fn is_due<C: Context>(&self, cx: &C, tuple: &Tuple) -> bool
        ensures { result ≡ is_due self.now tuple.now (C.facts cx.now) }
    {
        let now = cx.now();
        self.data_due(cx, tuple)
            || is_reached(self.held_poll(), now)
            || self.window_doubled()
            || self.state.is_closed()
            || self.timer.is_keep_alive_over(now)
            || self.timer.is_probe_over(now)
    }
}
