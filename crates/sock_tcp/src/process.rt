//! `accepts` and `process` (RFC 9293, section 3.10.7).
ghost use Rattle.std.specs.Prelude.{◌≡◌, ◌+◌, ◌≤◌, ◌↔◌, IsTrue, length, option_map, [], None};
ghost use Rattle.std.specs.Option.{ForSome};
ghost use Rattle.control_wire.specs.Segment.{Segment, segment_of};
ghost use Rattle.sock_core.specs.Bounds.{IsMoment};
ghost use Rattle.sock_tcp.specs.Verdict.{verdict_of};
ghost use Rattle.sock_tcp.specs.declared.verdict.Verdict.TheVariants.{Pass};
ghost use Rattle.sock_tcp.specs.View.{moment_of};
ghost use Rattle.sock_tcp.specs.Arrival.{arrival};
ghost use Rattle.sock_tcp.specs.Process.{IsToListener, IsAddressed, Opens, Accepts, tuple_of, has_window};
ghost use Rattle.sock_tcp.specs.Process.{answered, challenged, close_restarted, outside, bytes_taken};
ghost use Rattle.sock_tcp.specs.Process.{without_place};
ghost use Rattle.sock_tcp.specs.Process.{by_verdict, closed_then, processed_inside, tested, processed};
ghost use Rattle.sock_tcp.specs.Process.{responded, told_then};
ghost use Rattle.sock_tcp.specs.Draw.{draws, Draws};
ghost use Rattle.sock_tcp.specs.Rfc.Recovery.{recovered_by};
ghost use Rattle.sock_tcp.specs.Rfc.Windows.{ack_heeded, windowed};
ghost use Rattle.sock_tcp.specs.Window.{accepted_window};
ghost use Rattle.sock_tcp.specs.declared.rules.Rules.TheVariants.{Rfc};

use crate::advance::Next;
use crate::control_block::ControlBlock;
use crate::duplicates::Response;
use crate::rules::Rules;
use crate::state::State;
use crate::timer::{CHALLENGE_INTERVAL, Timer, after};
use crate::tuple::Tuple;
use crate::verdict::Verdict;
use crate::window::Window;
use control_wire::{TcpControl, TcpRepr};
use ip_wire::{IpListenEndpoint, IpRepr};
use net_base::time::Instant;
use sock_core::Context;

// How a segment is answered.
#[derive(Clone, Copy)]
pub enum Answer {
    // Not at all.
    Nothing,
    // By an acknowledgement.
    Ack,
    // By an RST.
    Rst,
}

// What the receive window takes of a segment: the control bit that counts, and the bytes, the first of which stands so
// far past RCV.NXT.
#[derive(Clone, Copy)]
pub(crate) struct Taken<'b> {
    pub(crate) control: TcpControl,
    pub(crate) offset: usize,
    pub(crate) bytes: &'b [u8],
}

// Whether a segment goes to a listener on this endpoint.
fn is_to_listener(endpoint: &IpListenEndpoint, ip_repr: &IpRepr, repr: &TcpRepr<'_>) -> bool
    ensures { IsTrue result ↔ IsToListener endpoint.now ip_repr.now (segment_of repr.now) }
{
    let addressed = match endpoint.addr {
        None => true,
        Some(addr) => ip_repr.dst_addr() == addr,
    };
    addressed && repr.dst_port == endpoint.port && repr.dst_port != 0
}

// Whether a segment can open a connection.
fn opens(repr: &TcpRepr<'_>) -> bool
    ensures { IsTrue result ↔ Opens (segment_of repr.now) }
{
    repr.ack_number.is_none() && !matches!(repr.control, TcpControl::Rst)
}

impl<'a> ControlBlock<'a> {
    fn is_addressed(&self, ip_repr: &IpRepr, repr: &TcpRepr<'_>) -> bool
        ensures { IsTrue result
            ↔ IsAddressed self.now.tuple self.now.listen_endpoint ip_repr.now (segment_of repr.now) }
    {
        match &self.tuple {
            Some(tuple) => tuple.is_of_segment(ip_repr, repr),
            None => is_to_listener(&self.listen_endpoint, ip_repr, repr),
        }
    }

    pub(crate) fn accepts(&self, ip_repr: &IpRepr, repr: &TcpRepr<'_>) -> bool
        ensures { IsTrue result ↔ Accepts self.now ip_repr.now (segment_of repr.now) }
    {
        match self.state {
            State::Closed => false,
            State::Listen => opens(repr) && self.is_addressed(ip_repr, repr),
            _ => self.is_addressed(ip_repr, repr),
        }
    }

    fn has_window(&self) -> bool
        ensures { result ≡ has_window self.now.state }
    {
        !matches!(self.state, State::Listen | State::SynSent)
    }

    // An ACK, at most one a second.
    #[tactic(auto, unfolding(crate::specs::Inside::challenged))]
    fn challenge(&mut self, now: Instant) -> Answer
        requires { IsMoment now.micros }
        ensures table { (s : Segment) → answered result self.new s ≡ challenged self.old now s }
        ensures stamps { self.new.stamps ≡ self.old.stamps }
    {
        if now.micros < self.challenge_ack_timer.micros {
            return Answer::Nothing;
        }
        self.challenge_ack_timer = after(now, CHALLENGE_INTERVAL);
        Answer::Ack
    }

    // In TIME-WAIT its time begins anew.
    #[tactic(auto, unfolding(crate::specs::Inside::close_restarted))]
    fn restart_close(&mut self, now: Instant)
        requires { IsMoment now.micros }
        ensures { self.new ≡ close_restarted self.old now }
    {
        if let State::TimeWait = self.state {
            self.timer = Timer::close(now);
        }
    }

    // The answer to a segment outside of the window. One with bytes is answered each time, whatever the limit on
    // challenge ACKs (RFC 5961, section 7) says: its sender has not heard that they came, and sends them until it does.
    // One without is what two sides could answer each other with for ever.
    #[tactic(auto, unfolding(crate::specs::Inside::outside))]
    pub(crate) fn answer_outside(&mut self, now: Instant, repr: &TcpRepr<'_>) -> Answer
        requires { IsMoment now.micros }
        ensures table { answered result self.new (segment_of repr.now)
            ≡ outside self.old now (segment_of repr.now) }
    {
        match (repr.control, repr.payload.len()) {
            (TcpControl::Rst, _) => Answer::Nothing,
            (TcpControl::Syn, _) | (_, 0) => {
                self.restart_close(now);
                self.challenge(now)
            }
            _ => {
                self.restart_close(now);
                Answer::Ack
            }
        }
    }

    // The answer to bytes for which there is no place.
    fn answer_without_place(&self) -> Answer
        ensures { (s : Segment) → answered result self.now s ≡ without_place self.now.rules self.now s }
    {
        match self.rules {
            Rules::Smoltcp => Answer::Nothing,
            Rules::Rfc => Answer::Ack,
        }
    }

    // The bytes that the window takes, the first of them so far past RCV.NXT; an ACK tells of a gap.
    #[inline(always)]
    #[tactic(auto, unfolding(crate::specs::Inside::bytes_taken))]
    fn take_bytes(&mut self, now: Instant, offset: usize, bytes: &[u8]) -> Answer
        requires moment { IsMoment now.micros }
        requires fits { offset + length bytes.now ≤ length self.old.rx_buffer.held }
        ensures table { (s : Segment) → answered result self.new s ≡ bytes_taken self.old now offset bytes.now s }
    {
        if bytes.is_empty() {
            return Answer::Nothing;
        }
        let had_no_gap = self.rx_buffer.holds_nothing();
        if !self.join(offset, bytes) {
            return self.answer_without_place();
        }
        self.delay_ack(now);
        if had_no_gap && self.rx_buffer.holds_nothing() {
            return Answer::Nothing;
        }
        Answer::Ack
    }

    // The state table, and the steps behind it.
    #[tactic(auto, unfolding(crate::specs::Inside::processed_inside))]
    pub(crate) fn process_inside<C: Context>(
        &mut self,
        cx: &mut C,
        now: Instant,
        taken: Taken<'_>,
        ip_repr: &IpRepr,
        repr: &TcpRepr<'_>,
    ) -> Answer
        requires moment { IsMoment now.micros }
        requires passed { verdict_of self.old repr.now.control repr.now.ack_number ≡ Pass }
        requires fits { taken.offset + length taken.bytes.now ≤ length self.old.rx_buffer.held }
        ensures table { answered result self.new (segment_of repr.now)
            ≡ processed_inside self.old (arrival now (tuple_of ip_repr.now (segment_of repr.now)) (C.word_at cx.old 0)
            (segment_of repr.now)) taken.entry.control taken.entry.offset taken.entry.bytes.now }
        ensures context { Draws (draws Pass self.old.state taken.entry.control) C.facts C.word_at cx.old cx.new }
    {
        let acked = self.acked_by_passing(repr.control, repr.ack_number);
        match self.advance(cx, now, taken.control, acked, ip_repr, repr) {
            Next::Stop => Answer::Nothing,
            Next::Challenge => self.challenge(now),
            Next::Continue => {
                self.hear(now, acked, repr);
                self.take_bytes(now, taken.offset, taken.bytes)
            }
        }
    }

    // The window test, and the cut.
    #[inline(always)]
    fn process_passed<C: Context>(
        &mut self,
        cx: &mut C,
        now: Instant,
        window: Window,
        ip_repr: &IpRepr,
        repr: &TcpRepr<'_>,
    ) -> Answer
        requires moment { IsMoment now.micros }
        requires passed { verdict_of self.old repr.now.control repr.now.ack_number ≡ Pass }
        requires small { length repr.now.payload.now ≤ 65535 }
        requires window { window ≡ accepted_window self.old.rules self.old }
        ensures table { answered result self.new (segment_of repr.now)
            ≡ tested (has_window self.old.state) self.old (arrival now (tuple_of ip_repr.now (segment_of repr.now))
            (C.word_at cx.old 0) (segment_of repr.now)) }
        ensures context { Draws (draws Pass self.old.state repr.now.control) C.facts C.word_at cx.old cx.new }
    {
        if !self.has_window() {
            let taken = Taken {
                control: repr.control,
                offset: 0,
                bytes: &[],
            };
            return self.process_inside(cx, now, taken, ip_repr, repr);
        }
        let (number, length) = (repr.seq_number, repr.payload.len());
        number.in_range(); // for its contract
        if !window.is_inside(number, length) {
            return self.refuse(cx, now, &window, ip_repr, repr);
        }
        let cut = window.cut(number, length);
        let bytes = cut.of(repr.payload);
        let taken = Taken {
            control: window.counted_control(repr.control, number, length),
            offset: cut.offset,
            bytes,
        };
        self.has_local_rx_last_seq = true;
        self.local_rx_last_seq = number;
        self.process_inside(cx, now, taken, ip_repr, repr)
    }

    // By the RFCs' rules: what is done of loss comes behind.
    #[inline(never)]
    #[tactic(auto, using(crate::proofs::Recovering::said_then))]
    fn process_and_recover<C: Context>(
        &mut self,
        cx: &mut C,
        now: Instant,
        ip_repr: &IpRepr,
        repr: &TcpRepr<'_>,
    ) -> Answer
        requires moment { IsMoment now.micros }
        requires passed { verdict_of self.old repr.now.control repr.now.ack_number ≡ Pass }
        requires small { length repr.now.payload.now ≤ 65535 }
        ensures table { answered result self.new (segment_of repr.now)
            ≡ recovered_by Rfc self.old now (segment_of repr.now) (tested (has_window self.old.state) self.old
            (arrival now (tuple_of ip_repr.now (segment_of repr.now)) (C.word_at cx.old 0) (segment_of repr.now))) }
        ensures context { Draws (draws Pass self.old.state repr.now.control) C.facts C.word_at cx.old cx.new }
    {
        let before = self.before(repr);
        let window = self.accepted_window();
        let answer = self.process_passed(cx, now, window, ip_repr, repr);
        self.recover(&before, now);
        answer
    }

    // By the RFCs' rules: an older segment counts as telling the window that is known.
    #[inline(never)]
    fn process_by_rfc<C: Context>(
        &mut self,
        cx: &mut C,
        now: Instant,
        ip_repr: &IpRepr,
        repr: &TcpRepr<'_>,
    ) -> Answer
        requires moment { IsMoment now.micros }
        requires passed { verdict_of self.old repr.now.control
            (ack_heeded Rfc self.old (segment_of repr.now) repr.now.ack_number) ≡ Pass }
        requires small { length repr.now.payload.now ≤ 65535 }
        ensures table { answered result self.new (segment_of repr.now)
            ≡ recovered_by Rfc self.old now (windowed Rfc self.old (segment_of repr.now))
            (tested (has_window self.old.state) self.old (arrival now (tuple_of ip_repr.now (segment_of repr.now))
            (C.word_at cx.old 0) (windowed Rfc self.old (segment_of repr.now)))) }
        ensures context { Draws (draws Pass self.old.state repr.now.control) C.facts C.word_at cx.old cx.new }
    {
        let windowed = self.windowed(repr);
        self.process_and_recover(cx, now, ip_repr, &windowed)
    }

    // And a close that waited is done then.
    #[inline(always)]
    fn process_and_close<C: Context>(
        &mut self,
        cx: &mut C,
        now: Instant,
        ip_repr: &IpRepr,
        repr: &TcpRepr<'_>,
    ) -> Answer
        requires moment { IsMoment now.micros }
        requires passed { verdict_of self.old repr.now.control
            (ack_heeded Rfc self.old (segment_of repr.now) repr.now.ack_number) ≡ Pass }
        requires small { length repr.now.payload.now ≤ 65535 }
        ensures table { answered result self.new (segment_of repr.now)
            ≡ closed_then Rfc (recovered_by Rfc self.old now (windowed Rfc self.old (segment_of repr.now))
            (tested (has_window self.old.state) self.old (arrival now (tuple_of ip_repr.now (segment_of repr.now))
            (C.word_at cx.old 0) (windowed Rfc self.old (segment_of repr.now))))) }
        ensures context { Draws (draws Pass self.old.state repr.now.control) C.facts C.word_at cx.old cx.new }
    {
        let answer = self.process_by_rfc(cx, now, ip_repr, repr);
        self.close_late();
        answer
    }

    // And the answer tells what came twice.
    #[inline(always)]
    fn process_and_tell<C: Context>(
        &mut self,
        cx: &mut C,
        now: Instant,
        ip_repr: &IpRepr,
        repr: &TcpRepr<'_>,
    ) -> Response
        requires moment { IsMoment now.micros }
        requires passed { verdict_of self.old repr.now.control
            (ack_heeded Rfc self.old (segment_of repr.now) repr.now.ack_number) ≡ Pass }
        requires small { length repr.now.payload.now ≤ 65535 }
        ensures table { responded result self.new (segment_of repr.now)
            ≡ told_then Rfc self.old (segment_of repr.now) (closed_then Rfc (recovered_by Rfc self.old now
            (windowed Rfc self.old (segment_of repr.now)) (tested (has_window self.old.state) self.old
            (arrival now (tuple_of ip_repr.now (segment_of repr.now)) (C.word_at cx.old 0)
            (windowed Rfc self.old (segment_of repr.now)))))) }
        ensures context { Draws (draws Pass self.old.state repr.now.control) C.facts C.word_at cx.old cx.new }
    {
        let count = self.came_before(repr);
        let answer = self.process_and_close(cx, now, ip_repr, repr);
        answer.telling(count)
    }

    // By the socket's rules.
    #[inline(always)]
    fn process_by_rules<C: Context>(
        &mut self,
        cx: &mut C,
        now: Instant,
        ip_repr: &IpRepr,
        repr: &TcpRepr<'_>,
    ) -> Response
        requires moment { IsMoment now.micros }
        requires passed { verdict_of self.old repr.now.control
            (ack_heeded self.old.rules self.old (segment_of repr.now) repr.now.ack_number) ≡ Pass }
        requires small { length repr.now.payload.now ≤ 65535 }
        ensures table { responded result self.new (segment_of repr.now)
            ≡ by_verdict self.old.rules Pass self.old (arrival now (tuple_of ip_repr.now (segment_of repr.now))
            (C.word_at cx.old 0) (windowed self.old.rules self.old (segment_of repr.now))) }
        ensures context { Draws (draws Pass self.old.state repr.now.control) C.facts C.word_at cx.old cx.new }
    {
        match self.rules {
            Rules::Smoltcp => {
                let window = self.receive_window();
                self.process_passed(cx, now, window, ip_repr, repr).plain()
            }
            Rules::Rfc => self.process_and_tell(cx, now, ip_repr, repr),
        }
    }

    #[inline(always)]
    #[tactic(auto, unfolding(crate::specs::Process::processed_by))]
    pub(crate) fn process<C: Context>(
        &mut self,
        cx: &mut C,
        ip_repr: &IpRepr,
        repr: &TcpRepr<'_>,
    ) -> Response
        requires { length repr.now.payload.now ≤ 65535 }
        ensures table { responded result self.new (segment_of repr.now)
            ≡ processed self.old (moment_of (C.facts cx.old)) (C.word_at cx.old 0) ip_repr.now (segment_of repr.now) }
        ensures context { Draws (draws (verdict_of self.old repr.now.control repr.now.ack_number) self.old.state
            repr.now.control) C.facts C.word_at cx.old cx.new }
        ensures stamps { IsTrue self.new.stamps → IsTrue self.old.stamps }
    {
        let now = cx.now();
        match self.verdict_by_rules(now, repr) {
            Verdict::Drop => Response::Nothing,
            Verdict::Reset => Response::Rst,
            Verdict::Challenge => self.challenge(now).plain(),
            Verdict::Pass => self.process_by_rules(cx, now, ip_repr, repr),
        }
    }
}
