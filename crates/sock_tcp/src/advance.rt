//! The state table of `process` (RFC 9293, section 3.10.7).
ghost use Rattle.std.specs.Prelude.{◌≡◌, ◌<◌, ◌^◌, length, true, false};
ghost use Rattle.ip_wire.specs.Address.{SameVersion};
ghost use Rattle.control_wire.specs.Segment.{segment_of};
ghost use Rattle.sock_core.specs.Bounds.{IsMoment};
ghost use Rattle.sock_tcp.specs.Draw.{draws, Draws};
ghost use Rattle.sock_tcp.specs.Advance.{options_taken, fallen_back, dropped, syn_received, syn_answered, moved_to};
ghost use Rattle.sock_tcp.specs.Advance.{fin_counted, nothing_new_by, waiting, continues, stops, advanced};
ghost use Rattle.sock_tcp.specs.declared.state.State.TheVariants.{TimeWait};
ghost use Rattle.sock_tcp.specs.Arrival.{arrival};
ghost use Rattle.sock_tcp.specs.Process.{tuple_of};
ghost use Rattle.sock_tcp.specs.Same.{SameQueues};
ghost use Rattle.sock_tcp.specs.View.{FinSays};
ghost use Rattle.sock_tcp.specs.Verdict.{verdict_of};
ghost use Rattle.sock_tcp.specs.declared.verdict.Verdict.TheVariants.{Pass};

use crate::acked::Acked;
use crate::control_block::ControlBlock;
use crate::rules::Rules;
use crate::state::State;
use crate::timer::Timer;
use crate::tuple::Tuple;
use control_wire::{TcpControl, TcpRepr, TcpSeqNumber};
use ip_wire::IpRepr;
use net_base::time::Instant;
use sock_core::Context;
use sock_core::congestion::Controller;
use sock_core::seq::before;

// The smallest MSS that a peer is taken to have.
const MIN_MSS: usize = 48;

// The largest shift of a window (RFC 7323, section 2.3).
const MAX_SCALE: u8 = 14;

/// What comes after the state table, or after the checks before it.
#[derive(Clone, Copy)]
pub enum Next {
    /// The other steps.
    Continue,
    /// Nothing.
    Stop,
    /// A challenge ACK, and nothing else.
    Challenge,
}

// In LAST-ACK, with an acknowledgement of nothing new: by smoltcp's rules it is challenged.
fn nothing_new(rules: Rules) -> Next
    ensures { result ≡ nothing_new_by rules }
{
    match rules {
        Rules::Smoltcp => Next::Challenge,
        Rules::Rfc => Next::Continue,
    }
}

impl<'a> ControlBlock<'a> {
    // The options of a SYN (RFC 9293, section 3.2; RFC 7323, sections 2.2 and 3.2; RFC 2018, section 2).
    #[tactic(auto, unfolding(crate::specs::Advance::options_taken))]
    fn take_options(&mut self, repr: &TcpRepr<'_>)
        ensures view { self.new ≡ options_taken self.old (segment_of repr.now) }
        ensures queues { SameQueues self.old self.new }
    {
        self.remote_seq_no = repr.seq_number.plus(1);
        match repr.max_seg_size {
            Some(size) if size != 0 => {
                self.remote_mss = (size as usize).max(MIN_MSS);
                self.congestion_controller.set_mss(self.remote_mss);
            }
            _ => {}
        }
        self.remote_has_sack = repr.sack_permitted;
        match repr.window_scale {
            Some(scale) => self.remote_win_scale = Some(scale.min(MAX_SCALE)),
            None => {
                self.remote_win_scale = None;
                self.remote_win_shift = 0;
            }
        }
        self.stamps = self.stamps && repr.timestamp.is_some();
    }

    // An RST in SYN-RECEIVED: a listener listens again.
    #[tactic(auto, unfolding(crate::specs::Advance::fallen_back))]
    fn fall_back(&mut self) -> Next
        requires { self.old.rx_fin_received ≡ false }
        ensures table { record { view = self.new; next = result } ≡ stops (fallen_back self.old) }
        ensures queues { SameQueues self.old self.new }
    {
        self.state = match self.listen_endpoint.port {
            0 => State::Closed,
            _ => State::Listen,
        };
        self.tuple = None;
        Next::Stop
    }

    // CLOSED, and what was received can be read.
    pub(crate) fn drop_connection(&mut self)
        ensures view { self.new ≡ dropped self.old }
    {
        self.state = State::Closed;
        self.tuple = None;
    }

    fn end(&mut self, next: Next) -> Next
        ensures view { self.new ≡ dropped self.old }
        ensures next { result ≡ next }
    {
        self.drop_connection();
        next
    }

    #[tactic(auto, unfolding(crate::specs::Advance::syn_received, crate::specs::Advance::options_taken))]
    fn receive_syn(&mut self, now: Instant, tuple: Tuple, word: u32, repr: &TcpRepr<'_>) -> Next
        requires moment { IsMoment now.micros }
        requires versions { SameVersion tuple.local.addr tuple.remote.addr }
        requires no_fin { self.old.rx_fin_received ≡ false }
        ensures table { record { view = self.new; next = result }
            ≡ continues (syn_received self.old now tuple word (segment_of repr.now)) }
        ensures queues { SameQueues self.old self.new }
    {
        self.take_options(repr);
        self.state = State::SynReceived;
        self.tuple = Some(tuple);
        self.local_seq_no = TcpSeqNumber(word);
        self.remote_last_seq = TcpSeqNumber(word);
        self.timer = Timer::idle(now, self.keep_alive());
        Next::Continue
    }

    #[tactic(auto, unfolding(crate::specs::Advance::syn_answered, crate::specs::Advance::options_taken))]
    fn take_syn_answer(&mut self, repr: &TcpRepr<'_>) -> Next
        requires { self.old.rx_fin_received ≡ false }
        ensures table { record { view = self.new; next = result }
            ≡ continues (syn_answered self.old (segment_of repr.now)) }
        ensures queues { SameQueues self.old self.new }
    {
        self.take_options(repr);
        self.state = match repr.ack_number {
            None => State::SynReceived,
            Some(_) => State::Established,
        };
        self.remote_last_seq = self.local_seq_no.plus(1);
        self.remote_last_ack = Some(repr.seq_number);
        Next::Continue
    }

    fn move_to(&mut self, state: State) -> Next
        requires { FinSays state self.old.rx_fin_received }
        ensures { record { view = self.new; next = result } ≡ continues (moved_to state self.old) }
    {
        self.state = state;
        Next::Continue
    }

    // The FIN of the peer takes a number.
    #[tactic(auto, unfolding(crate::specs::Advance::fin_counted))]
    fn count_fin(&mut self, state: State) -> Next
        requires { FinSays state true }
        ensures table { record { view = self.new; next = result } ≡ continues (fin_counted state self.old) }
        ensures queues { SameQueues self.old self.new }
    {
        self.state = state;
        self.remote_seq_no = self.remote_seq_no.plus(1);
        self.rx_fin_received = true;
        Next::Continue
    }

    // TIME-WAIT lasts from now on.
    fn wait(&mut self, now: Instant) -> Next
        requires { IsMoment now.micros }
        ensures table { record { view = self.new; next = result } ≡ continues (waiting now self.old) }
        ensures queues { SameQueues self.old self.new }
    {
        self.state = State::TimeWait;
        self.timer = Timer::close(now);
        Next::Continue
    }

    // The FIN of the peer comes when ours is acknowledged.
    fn count_last_fin(&mut self, now: Instant) -> Next
        requires { IsMoment now.micros }
        ensures table { record { view = self.new; next = result }
            ≡ continues (waiting now (fin_counted TimeWait self.old)) }
        ensures queues { SameQueues self.old self.new }
    {
        self.count_fin(State::TimeWait);
        self.wait(now)
    }

    // The state table: by state, by the control bit that counts, and by whether our own FIN is acknowledged.
    #[tactic(auto, unfolding(crate::specs::Advance::advanced))]
    pub(crate) fn advance<C: Context>(
        &mut self,
        cx: &mut C,
        now: Instant,
        control: TcpControl,
        acked: Acked,
        ip_repr: &IpRepr,
        repr: &TcpRepr<'_>,
    ) -> Next
        requires moment { IsMoment now.micros }
        ensures table { record { view = self.new; next = result }
            ≡ advanced self.old control (arrival now (tuple_of ip_repr.now (segment_of repr.now)) (C.word_at cx.old 0)
            (segment_of repr.now)) acked }
        ensures queues { SameQueues self.old self.new }
        ensures context { Draws (draws Pass self.old.state control) C.facts C.word_at cx.old cx.new }
    {
        match (self.state, control, acked.fin) {
            (State::SynReceived, TcpControl::Rst, _) => self.fall_back(),
            (_, TcpControl::Rst, _) => self.end(Next::Stop),
            (State::Listen, TcpControl::Syn, _) => {
                let word = cx.rand_u32();
                self.receive_syn(now, Tuple::of_segment(ip_repr, repr), word, repr)
            }
            (State::SynSent, TcpControl::Syn, _) => self.take_syn_answer(repr),
            (State::SynReceived, TcpControl::None, _) => self.move_to(State::Established),
            (State::SynReceived, TcpControl::Fin, _) => self.count_fin(State::CloseWait),
            (State::Established, TcpControl::None, _) => Next::Continue,
            (State::Established, TcpControl::Fin, _) => self.count_fin(State::CloseWait),
            (State::FinWait1, TcpControl::None, true) => self.move_to(State::FinWait2),
            (State::FinWait1, TcpControl::None, false) => Next::Continue,
            (State::FinWait1, TcpControl::Fin, true) => self.count_last_fin(now),
            (State::FinWait1, TcpControl::Fin, false) => self.count_fin(State::Closing),
            (State::FinWait2, TcpControl::None, _) => Next::Continue,
            (State::FinWait2, TcpControl::Fin, _) => self.count_last_fin(now),
            (State::CloseWait, TcpControl::None, _) => Next::Continue,
            (State::Closing, TcpControl::None, true) => self.wait(now),
            (State::Closing, TcpControl::None, false) => Next::Continue,
            (State::LastAck, TcpControl::None, true) => self.end(Next::Continue),
            (State::LastAck, TcpControl::None, false) if acked.len == 0 => {
                nothing_new(self.rules)
            }
            (State::LastAck, TcpControl::None, false) => Next::Continue,
            _ => Next::Stop,
        }
    }
}
