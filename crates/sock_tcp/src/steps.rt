//! The steps of `process` behind the state table, one method each (RFC 9293, section 3.10.7.4).
ghost use Rattle.std.specs.Prelude.{◌≡◌, ◌≤◌, ◌<◌, ◌+◌, ◌^◌, length, not, false};
ghost use Rattle.control_wire.specs.Segment.{segment_of};
ghost use Rattle.sock_core.specs.Bounds.{IsMoment};
ghost use Rattle.sock_core.specs.Received.{makes_fifth_range};
ghost use Rattle.sock_tcp.specs.Same.{SameQueues};
ghost use Rattle.sock_tcp.specs.Window.{next_ack};
ghost use Rattle.sock_tcp.specs.Steps.{window_taken, is_window_changed, released, is_duplicate, duplicate_counted};
ghost use Rattle.sock_tcp.specs.Steps.{ack_counted, una_advanced, acknowledged, timestamp_taken};
ghost use Rattle.sock_tcp.specs.Steps.{timer_acked, begins_probe, goes_on_probing, probe_set, timer_set, heard, joined};
ghost use Rattle.sock_tcp.specs.Steps.{is_ack_owed, is_second};
ghost use Rattle.sock_tcp.specs.Steps.{ack_delayed, moves_recent};
ghost use Rattle.sock_tcp.specs.Timers.{IsTimer};

use crate::acked::Acked;
use crate::control_block::ControlBlock;
use crate::kept::DelayKind;
use crate::rules::Rules;
use crate::timer::{AckDelayTimer, Timer, after};
use control_wire::{TcpControl, TcpRepr, TcpSeqNumber};
use net_base::time::Instant;
use sock_core::congestion::Controller;
use sock_core::seq::{before, later, not_after};

// As many duplicates of an acknowledgement call for a fast retransmission (RFC 5681, section 3.2).
const DUPLICATES: u8 = 3;

// The interval of probes goes on to double, by the RFCs' rules, where the byte of one is acknowledged.
fn goes_on_probing(rules: Rules, timer: Timer) -> bool
    ensures { result ≡ goes_on_probing rules timer }
{
    match (rules, timer) {
        (Rules::Rfc, Timer::ZeroWindowProbe { .. }) => true,
        _ => false,
    }
}

impl<'a> ControlBlock<'a> {
    // The peer's window: whether it is another than before.
    #[tactic(auto, unfolding(crate::specs::Steps::window_taken))]
    fn take_window(&mut self, now: Instant, control: TcpControl, field: u16) -> bool
        requires { IsMoment now.micros }
        ensures view { self.new ≡ window_taken self.old now control field }
        ensures changed { result ≡ is_window_changed self.old control field }
        ensures queues { SameQueues self.old self.new }
    {
        let scale = self.remote_win_scale.unwrap_or(0);
        let window = match control {
            TcpControl::Syn => field as usize,
            _ => (field as usize) << scale,
        };
        let changed = window != self.remote_win_len;
        self.has_remote_last_ts = true;
        self.remote_last_ts = now;
        self.remote_win_len = window;
        self.congestion_controller.set_remote_window(window);
        changed
    }

    #[tactic(auto, unfolding(crate::specs::Steps::released))]
    fn release(&mut self, count: usize)
        requires { count ≤ length self.old.tx_buffer.bytes }
        ensures view { self.new ≡ released self.old count }
        ensures received { self.new.rx_buffer ≡ self.old.rx_buffer }
    {
        self.tx_buffer.dequeue_allocated(count);
    }

    pub(crate) fn is_duplicate(&self, ack: TcpSeqNumber, length: usize, changed: bool) -> bool
        ensures { result ≡ is_duplicate self.now ack length changed }
    {
        let is_last = match self.local_rx_last_ack() {
            None => false,
            Some(last) => last == ack,
        };
        is_last && before(ack, self.remote_last_seq) && length == 0 && !changed
    }

    #[tactic(auto, unfolding(crate::specs::Steps::duplicate_counted))]
    fn count_duplicate(&mut self, now: Instant)
        ensures view { self.new ≡ duplicate_counted self.old now }
        ensures received { self.new.rx_buffer ≡ self.old.rx_buffer }
    {
        self.local_rx_dup_acks = self.local_rx_dup_acks.saturating_add(1);
        if self.local_rx_dup_acks == DUPLICATES {
            self.timer = Timer::FastRetransmit;
        }
        let flight = self.flight();
        self.congestion_controller
            .on_dup_ack(now, self.remote_mss, flight);
    }

    #[tactic(auto, unfolding(crate::specs::Steps::ack_counted))]
    fn count_ack(&mut self, now: Instant, ack: TcpSeqNumber, count: usize)
        ensures view { self.new ≡ ack_counted self.old now ack count }
        ensures received { self.new.rx_buffer ≡ self.old.rx_buffer }
    {
        self.local_rx_dup_acks = 0;
        self.has_local_rx_last_ack = true;
        self.local_rx_last_ack = ack;
        self.rtte.on_ack(now, ack);
        let flight = self.flight().saturating_sub(count);
        self.congestion_controller
            .on_ack(now, count, flight, &self.rtte);
    }

    #[tactic(auto, unfolding(crate::specs::Steps::una_advanced))]
    fn advance_una(&mut self, ack: TcpSeqNumber)
        ensures view { self.new ≡ una_advanced self.old ack }
        ensures received { self.new.rx_buffer ≡ self.old.rx_buffer }
    {
        self.local_seq_no = ack;
        self.remote_last_seq = later(self.remote_last_seq, ack);
    }

    // The acknowledgement of `count` bytes, on a segment with `length` bytes of payload.
    #[tactic(auto, unfolding(crate::specs::Steps::acknowledged))]
    fn acknowledge(
        &mut self,
        ack: Option<TcpSeqNumber>,
        now: Instant,
        count: usize,
        length: usize,
        changed: bool,
    )
        ensures view { self.new ≡ acknowledged self.old ack now count length changed }
        ensures received { self.new.rx_buffer ≡ self.old.rx_buffer }
    {
        let ack = match ack {
            None => return,
            Some(ack) => ack,
        };
        if self.is_duplicate(ack, length, changed) {
            self.count_duplicate(now);
        } else {
            self.count_ack(now, ack, count);
        }
        self.advance_una(ack);
    }

    // Whether it is a SYN, or its number lies not behind the acknowledgement that was sent last.
    fn moves_recent(&self, repr: &TcpRepr<'_>) -> bool
        ensures { result ≡ moves_recent repr.now.control self.now.remote_last_ack repr.now.seq_number }
    {
        match (repr.control, self.remote_last_ack) {
            (TcpControl::Syn, _) | (_, None) => true,
            (_, Some(last)) => not_after(repr.seq_number, last),
        }
    }

    #[tactic(auto, unfolding(crate::specs::Steps::timestamp_taken))]
    fn take_timestamp(&mut self, repr: &TcpRepr<'_>)
        ensures view { self.new ≡ timestamp_taken self.old (segment_of repr.now) }
        ensures received { self.new.rx_buffer ≡ self.old.rx_buffer }
    {
        match (repr.timestamp, self.rules) {
            (None, _) => {}
            (Some(_), Rules::Rfc) if !self.moves_recent(repr) => {}
            (Some(timestamp), _) => self.last_remote_tsval = timestamp.tsval,
        }
        self.note_window(repr);
    }

    // The timer after an acknowledgement.
    fn timer_acked(&self, now: Instant, acked: Acked) -> Timer
        requires { IsMoment now.micros }
        ensures value { result ≡ timer_acked self.now.timer self.now now acked }
        ensures lawful { IsTimer result }
    {
        match self.timer {
            Timer::Idle { .. } => Timer::idle(now, self.keep_alive()),
            Timer::Retransmit { .. } | Timer::FastRetransmit => {
                if acked.all {
                    Timer::idle(now, self.keep_alive())
                } else if acked.len == 0 {
                    self.timer
                } else {
                    Timer::retransmit(now, &self.rtte)
                }
            }
            Timer::ZeroWindowProbe { .. } | Timer::Close { .. } => self.timer,
        }
    }

    fn begins_probe(&self, timer: Timer, acked: Acked) -> bool
        ensures { result ≡ begins_probe timer self.now acked }
    {
        let goes_on = goes_on_probing(self.rules, timer);
        !self.tx_buffer.is_empty() && (timer.is_idle() || (acked.len != 0 && !goes_on))
    }

    // Probes begin while the peer has no window, and end when it has one.
    fn probe_set(&self, timer: Timer, now: Instant, acked: Acked) -> Timer
        requires moment { IsMoment now.micros }
        requires lawful { IsTimer timer }
        ensures value { result ≡ probe_set timer self.now now acked }
        ensures lawful { IsTimer result }
    {
        match (self.remote_win_len, timer) {
            (0, _) if self.begins_probe(timer, acked) => Timer::probe(now, &self.rtte),
            (0, _) => timer,
            (_, Timer::ZeroWindowProbe { .. }) => Timer::idle(now, self.keep_alive()),
            _ => timer,
        }
    }

    #[tactic(auto, unfolding(crate::specs::Steps::timer_set))]
    fn set_timer(&mut self, now: Instant, acked: Acked)
        requires { IsMoment now.micros }
        ensures view { self.new ≡ timer_set self.old now acked }
        ensures received { self.new.rx_buffer ≡ self.old.rx_buffer }
    {
        let timer = self.timer_acked(now, acked);
        self.timer = self.probe_set(timer, now, acked);
    }

    // The steps behind the state table, up to the timer.
    #[tactic(auto, unfolding(crate::specs::Steps::heard, crate::specs::Steps::window_taken))]
    pub(crate) fn hear(&mut self, now: Instant, acked: Acked, repr: &TcpRepr<'_>)
        requires moment { IsMoment now.micros }
        requires acked { acked.len ≤ length self.old.tx_buffer.bytes }
        ensures view { self.new ≡ heard self.old now acked (segment_of repr.now) }
        ensures received { self.new.rx_buffer ≡ self.old.rx_buffer }
    {
        let changed = self.take_window(now, repr.control, repr.window_len);
        self.release(acked.len);
        self.acknowledge(repr.ack_number, now, acked.len, repr.payload.len(), changed);
        self.take_timestamp(repr);
        self.set_timer(now, acked);
    }

    // The bytes join the queue, or are held, or are refused: whether they were taken.
    #[tactic(auto, unfolding(crate::specs::Steps::joined, sock_core::specs::Received::taken_in))]
    pub(crate) fn join(&mut self, offset: usize, bytes: &[u8]) -> bool
        requires some { 0 < length bytes.now }
        requires fits { offset + length bytes.now ≤ length self.old.rx_buffer.held }
        ensures view { self.new ≡ joined self.old offset bytes.now }
        ensures answer { result ≡ not (makes_fifth_range self.old.rx_buffer offset bytes.now) }
        ensures refused { result ≡ false → self.new ≡ self.old }
    {
        self.rx_buffer.take_in(offset, bytes)
    }

    // Whether the last acknowledgement sent, and `count` bytes behind it, lie before RCV.NXT.
    fn is_ack_owed(&self, count: usize) -> bool
        requires { count < 2 ^ 32 }
        ensures { result ≡ is_ack_owed self.now.remote_last_ack count (next_ack self.now) }
    {
        match self.remote_last_ack {
            None => false,
            Some(ack) => before(ack.plus(count), self.next_ack()),
        }
    }

    // More than a segment is unacknowledged.
    fn is_second(&self) -> bool
        ensures { result ≡ is_second self.now.rules self.now }
    {
        match self.rules {
            Rules::Smoltcp => self.is_ack_owed(self.remote_mss),
            Rules::Rfc => true,
        }
    }

    #[tactic(auto, unfolding(crate::specs::Steps::ack_delayed))]
    pub(crate) fn delay_ack(&mut self, now: Instant)
        requires { IsMoment now.micros }
        ensures { self.new ≡ ack_delayed self.old now }
    {
        let delay = match self.ack_delay() {
            None => return,
            Some(delay) => delay,
        };
        if !self.is_ack_owed(0) {
            return;
        }
        match self.ack_delay_timer() {
            AckDelayTimer::Idle => {
                self.ack_delay_kind = DelayKind::Waiting;
                self.ack_delay_until = after(now, delay);
            }
            AckDelayTimer::Waiting(_) => {
                if self.is_second() {
                    self.ack_delay_kind = DelayKind::Immediate;
                }
            }
            AckDelayTimer::Immediate => {}
        }
    }
}
