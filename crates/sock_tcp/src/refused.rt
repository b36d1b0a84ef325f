//! What a segment outside of the receive window does, by the rules of the socket (RFC 9293, section 3.10.7.4).
ghost use Rattle.std.specs.Prelude.{◌≡◌, ◌≤◌, ℕ, [], length, true};
ghost use Rattle.control_wire.specs.Segment.{segment_of};
ghost use Rattle.sock_core.specs.Bounds.{IsMoment};
ghost use Rattle.sock_core.specs.Received.{room_of};
ghost use Rattle.sock_tcp.specs.Arrival.{arrival};
ghost use Rattle.sock_tcp.specs.Draw.{draws, Draws};
ghost use Rattle.sock_tcp.specs.Explain.{refused_row, rfc_refused_row};
ghost use Rattle.control_wire.specs.declared.tcp.TcpControl.TheVariants as control;
ghost use Rattle.sock_tcp.specs.Process.{answered, has_window, processed_inside, tuple_of};
ghost use Rattle.sock_tcp.specs.Rfc.Refused.{acks_something, is_heard_outside, is_near, is_next_fin, is_plain_control};
ghost use Rattle.sock_tcp.specs.Rfc.Refused.{answered_outside, refused, rfc_refused, then_answered};
ghost use Rattle.sock_tcp.specs.declared.tuple.Tuple.{Tuple};
ghost use Rattle.sock_tcp.specs.Verdict.{verdict_of};
ghost use Rattle.sock_tcp.specs.Window.{accepted_window, honored_window};
ghost use Rattle.sock_tcp.specs.declared.verdict.Verdict.TheVariants.{Pass};

use crate::acked::Acked;
use crate::control_block::ControlBlock;
use crate::explain::{Row, answered_row, fin_row, place_row};
use crate::process::{Answer, Taken};
use crate::rules::Rules;
use crate::state::State;
use crate::window::Window;
use control_wire::{TcpControl, TcpRepr};
use ip_wire::IpRepr;
use net_base::time::Instant;
use sock_core::Context;
use sock_core::seq::not_after;

// Whether the number of its FIN is the window's left edge.
fn is_next_fin(window: &Window, repr: &TcpRepr<'_>) -> bool
    requires { length repr.now.payload.now ≤ 65535 }
    ensures { result ≡ is_next_fin repr.now.control window.now repr.now.seq_number (length repr.now.payload.now) }
{
    match repr.control {
        TcpControl::Fin => repr.seq_number.plus(repr.payload.len()) == window.start,
        _ => false,
    }
}

pub(crate) fn is_plain(control: TcpControl) -> bool
    ensures { result ≡ is_plain_control control }
{
    !matches!(control, TcpControl::Rst | TcpControl::Syn)
}

impl<'a> ControlBlock<'a> {
    // Whether its acknowledgement and its window are heard.
    fn is_heard_outside(&self, window: &Window, acked: Acked, repr: &TcpRepr<'_>) -> bool
        requires { window.now ≡ honored_window self.now }
        ensures { result ≡ is_heard_outside self.now (segment_of repr.now) acked }
    {
        let room = self.rx_buffer.capacity();
        let number = repr.seq_number;
        let news = acked.len != 0 || acked.fin;
        is_plain(repr.control)
            && not_after(window.start.minus(room), number)
            && not_after(number, window.end.plus(1))
            && (news || not_after(window.start, number))
    }

    // A segment that was heard is answered, unless the connection has ended by it.
    fn answer_unless_ended(&mut self, now: Instant, repr: &TcpRepr<'_>) -> Answer
        requires moment { IsMoment now.micros }
        ensures { (t : Tuple) (word : ℕ) → answered result self.new (segment_of repr.now)
            ≡ answered_outside self.old (arrival now t word (segment_of repr.now)) }
    {
        match self.state {
            State::Closed => Answer::Nothing,
            _ => self.answer_outside(now, repr),
        }
    }

    // Its acknowledgement and its window are heard, and then it is answered.
    #[tactic(auto, using(crate::proofs::Refusing::then_said))]
    fn hear_outside<C: Context>(
        &mut self,
        cx: &mut C,
        now: Instant,
        ip_repr: &IpRepr,
        repr: &TcpRepr<'_>,
    ) -> Answer
        requires moment { IsMoment now.micros }
        requires passed { verdict_of self.old repr.now.control repr.now.ack_number ≡ Pass }
        ensures table { answered result self.new (segment_of repr.now)
            ≡ then_answered (processed_inside self.old (arrival now (tuple_of ip_repr.now (segment_of repr.now))
            (C.word_at cx.old 0) (segment_of repr.now)) control.None 0 [])
            (arrival now (tuple_of ip_repr.now (segment_of repr.now)) (C.word_at cx.old 0) (segment_of repr.now)) }
        ensures context { Draws (draws Pass self.old.state control.None) C.facts C.word_at cx.old cx.new }
    {
        let taken = Taken {
            control: TcpControl::None,
            offset: 0,
            bytes: &[],
        };
        match self.process_inside(cx, now, taken, ip_repr, repr) {
            Answer::Nothing => self.answer_unless_ended(now, repr),
            answer => answer,
        }
    }

    // By RFC 9293.
    #[tactic(auto, unfolding(crate::specs::Rfc::Refused::rfc_refused))]
    fn refuse_by_rfc<C: Context>(
        &mut self,
        cx: &mut C,
        now: Instant,
        window: &Window,
        ip_repr: &IpRepr,
        repr: &TcpRepr<'_>,
    ) -> Answer
        requires moment { IsMoment now.micros }
        requires passed { verdict_of self.old repr.now.control repr.now.ack_number ≡ Pass }
        requires small { length repr.now.payload.now ≤ 65535 }
        requires window { window.now ≡ honored_window self.old }
        requires has_window { has_window self.old.state ≡ true }
        ensures table { answered result self.new (segment_of repr.now)
            ≡ rfc_refused self.old (arrival now (tuple_of ip_repr.now (segment_of repr.now)) (C.word_at cx.old 0)
            (segment_of repr.now)) }
        ensures context { Draws (draws Pass self.old.state repr.now.control) C.facts C.word_at cx.old cx.new }
    {
        if is_next_fin(window, repr) {
            let taken = Taken {
                control: TcpControl::Fin,
                offset: 0,
                bytes: &[],
            };
            return self.process_inside(cx, now, taken, ip_repr, repr);
        }
        let acked = self.acked_by_passing(repr.control, repr.ack_number);
        if self.is_heard_outside(window, acked, repr) {
            self.hear_outside(cx, now, ip_repr, repr)
        } else {
            self.answer_outside(now, repr)
        }
    }

    // Not inlined: few segments lie outside.
    #[inline(never)]
    pub(crate) fn refuse<C: Context>(
        &mut self,
        cx: &mut C,
        now: Instant,
        window: &Window,
        ip_repr: &IpRepr,
        repr: &TcpRepr<'_>,
    ) -> Answer
        requires moment { IsMoment now.micros }
        requires passed { verdict_of self.old repr.now.control repr.now.ack_number ≡ Pass }
        requires small { length repr.now.payload.now ≤ 65535 }
        requires window { window.now ≡ accepted_window self.old.rules self.old }
        requires has_window { has_window self.old.state ≡ true }
        ensures table { answered result self.new (segment_of repr.now)
            ≡ refused self.old.rules self.old (arrival now (tuple_of ip_repr.now (segment_of repr.now))
            (C.word_at cx.old 0) (segment_of repr.now)) }
        ensures context { Draws (draws Pass self.old.state repr.now.control) C.facts C.word_at cx.old cx.new }
    {
        match self.rules {
            Rules::Smoltcp => self.answer_outside(now, repr),
            Rules::Rfc => self.refuse_by_rfc(cx, now, window, ip_repr, repr),
        }
    }

    // The row of a segment outside, by RFC 9293.
    fn rfc_refused_row(&self, window: &Window, repr: &TcpRepr<'_>) -> Row
        requires small { length repr.now.payload.now ≤ 65535 }
        requires window { window.now ≡ honored_window self.now }
        ensures { result ≡ rfc_refused_row window.now self.now (segment_of repr.now) }
    {
        if is_next_fin(window, repr) {
            return fin_row(self.state);
        }
        let acked = self.acked(repr.control, repr.ack_number);
        if self.is_heard_outside(window, acked, repr) {
            Row::HeardOutside
        } else {
            place_row(window, repr.seq_number)
        }
    }

    pub(crate) fn refused_row(&self, window: &Window, repr: &TcpRepr<'_>) -> Row
        requires small { length repr.now.payload.now ≤ 65535 }
        requires window { window.now ≡ accepted_window self.now.rules self.now }
        ensures { result ≡ refused_row self.now.rules window.now self.now (segment_of repr.now) }
    {
        match self.rules {
            Rules::Smoltcp => answered_row(repr.control, window, repr.seq_number),
            Rules::Rfc => self.rfc_refused_row(window, repr),
        }
    }
}
