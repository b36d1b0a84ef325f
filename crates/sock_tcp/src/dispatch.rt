//! `dispatch` (RFC 9293, section 3.8).
ghost use Rattle.std.specs.Prelude.{◌≡◌, ◌≤◌, ◌<◌, ◌^◌, length, is_some};
ghost use Rattle.control_wire.specs.Segment.{segment_of};
ghost use Rattle.sock_core.specs.Bounds.{IsMoment};
ghost use Rattle.sock_tcp.specs.Sent.{emitted_as, after_any, after_probe, snd_nxt_moved, sending_timed};
ghost use Rattle.sock_tcp.specs.Sent.{after_sending, after_emit};
ghost use Rattle.sock_tcp.specs.Dispatch.{EmitsIf, Dispatches};
ghost use Rattle.sock_tcp.specs.Ended.{ended_by_dispatch};

use crate::content::NO_HEADER;
use crate::control_block::ControlBlock;
use crate::emission::{Emitted, Kind};
use crate::ended::by_dispatch;
use crate::generator::TsvalSource;
use crate::kept::DelayKind;
use crate::recovery::Recovery;
use crate::socket::Socket;
use crate::state::State;
use control_wire::TcpRepr;
use ip_wire::IpRepr;
use net_base::time::Instant;
use sock_core::Context;
use sock_core::congestion::Controller;
use sock_core::seq::later;

impl<'a> ControlBlock<'a> {
    // What any segment changes.
    #[tactic(auto, unfolding(crate::specs::Sent::after_any))]
    fn after_any(&mut self, now: Instant)
        requires { IsMoment now.micros }
        ensures view { self.new ≡ after_any self.old now }
        ensures stamps { self.new.stamps ≡ self.old.stamps }
    {
        self.timer = self.timer.keep_alive_renewed(now, self.keep_alive());
        self.ack_delay_kind = DelayKind::Idle;
        self.pending_fast_retransmit = self.pending_fast_retransmit && !self.state.carries_data();
    }

    #[tactic(auto, unfolding(crate::specs::Sent::after_probe))]
    fn after_probe(&mut self, now: Instant)
        requires { IsMoment now.micros }
        ensures view { self.new ≡ after_probe self.old now }
        ensures stamps { self.new.stamps ≡ self.old.stamps }
    {
        self.timer = self.timer.probe_doubled(now);
    }

    #[tactic(auto, unfolding(crate::specs::Sent::snd_nxt_moved))]
    fn move_snd_nxt(&mut self, emitted: &Emitted)
        ensures view { self.new ≡ snd_nxt_moved self.old emitted.now }
        ensures stamps { self.new.stamps ≡ self.old.stamps }
    {
        if let Recovery::Fast { .. } | Recovery::Timeout { .. } = self.recovery {
            self.undo = self.undo.sent(self.recovery, self.remote_last_seq, emitted);
            self.recovery = self.recovery.resent(self.remote_last_seq, emitted);
        }
        self.remote_last_seq = later(self.remote_last_seq, emitted.end);
        self.remote_last_ack = emitted.ack_number;
        self.remote_last_win = emitted.window_len;
        if self.state.is_closed() {
            self.tuple = None;
        }
    }

    // What takes sequence numbers is timed, and waited for.
    #[tactic(auto, unfolding(crate::specs::Sent::sending_timed))]
    fn time_sending(&mut self, now: Instant, emitted: &Emitted)
        requires { IsMoment now.micros }
        ensures view { self.new ≡ sending_timed self.old now emitted.now }
        ensures stamps { self.new.stamps ≡ self.old.stamps }
    {
        if emitted.len == 0 {
            return;
        }
        if let Recovery::Fast { .. } = self.recovery {
            self.pending_fast_retransmit = self.pending_fast_retransmit || self.goes_on();
        }
        self.timer = self.timer.retransmit_unless_set(now, &self.rtte);
        self.measure_sending(now, emitted);
        self.congestion_controller.post_transmit(now, emitted.len);
    }

    #[tactic(auto, unfolding(crate::specs::Sent::after_sending))]
    fn after_sending(&mut self, now: Instant, emitted: &Emitted)
        requires { IsMoment now.micros }
        ensures view { self.new ≡ after_sending self.old now emitted.now }
        ensures stamps { self.new.stamps ≡ self.old.stamps }
    {
        self.after_any(now);
        match emitted.kind {
            Kind::Plain => {
                self.move_snd_nxt(emitted);
                self.time_sending(now, emitted);
                self.arm_tail(now, emitted.len);
            }
            Kind::Probe => self.after_probe(now),
            Kind::KeepAlive => {}
        }
    }

    // What an emit leaves: where it failed, the socket is as it was.
    #[inline(always)]
    fn after_emit(&mut self, ok: bool, now: Instant, emitted: &Emitted)
        requires { IsMoment now.micros }
        ensures view { self.new ≡ after_emit ok self.old now emitted.now }
        ensures stamps { self.new.stamps ≡ self.old.stamps }
    {
        if ok {
            self.after_sending(now, emitted);
        }
    }

    // The one call of `emit`, if there is a peer and the state emits at all.
    pub(crate) fn emit_due<
        C: Context,
        E,
        F: FnOnce(&mut C, (IpRepr, TcpRepr<'_>)) -> Result<(), E>,
    >(&mut self, cx: &mut C, stamp: Option<u32>, emit: F) -> Result<(), E>
        requires callable { F.IsAlwaysCallable emit }
        requires stamped { is_some stamp ≡ self.old.stamps }
        ensures table { EmitsIf F.FnOnce emit (C.facts cx.old) stamp self.old.tuple self.old cx.old result self.new
            cx.new }
        ensures stamps { self.new.stamps ≡ self.old.stamps }
    {
        let tuple = match &self.tuple {
            None => return Ok(()),
            Some(tuple) => tuple,
        };
        let now = cx.now();
        let payload = self.payload(cx, tuple);
        self.sends_packets(cx, tuple, stamp, payload); // for its contract
        let mut packet = (NO_HEADER, self.plain(tuple, stamp));
        let kind = match self.finish_packet(cx, tuple, payload, &mut packet) {
            None => return Ok(()),
            Some(kind) => kind,
        };
        let emitted = Emitted::of(kind, &packet.1);
        self.number_packet(&mut packet);
        let result = emit(cx, packet);
        self.after_emit(result.is_ok(), now, &emitted);
        result
    }
}

impl<'a, G: TsvalSource> Socket<'a, G> {
    /// Emits at most one segment: calls `emit` once with it, or does not call it where nothing is due. A timestamp that
    /// goes out is one that the source of timestamps tells; how often that is asked is in no contract.
    ///
    /// First what the moments that have passed ask for: with the local address gone, the socket is reset; the user
    /// timeout closes it; the retransmission timer lets all behind SND.UNA go out again. The reasons to emit are, in
    /// this order: data, a SYN or a FIN; an acknowledgement whose delay is over; a window that has doubled; the RST of
    /// a closed socket; a keep-alive; a probe. Without one, TIME-WAIT may end.
    ///
    /// What is emitted can be written as a packet of at most 65535 bytes: a window scale is at most 14, no SACK ranges
    /// stand beside the SACK permission, and the options take at most 40 bytes.
    ///
    /// # Errors
    /// The error that `emit` answers is passed on; the socket then stands as it did before the emit, and the next
    /// `dispatch` offers the segment again.
    pub fn dispatch<C: Context, E, F: FnOnce(&mut C, (IpRepr, TcpRepr<'_>)) -> Result<(), E>>(
        &mut self,
        cx: &mut C,
        emit: F,
    ) -> Result<(), E>
        requires callable { F.IsAlwaysCallable emit }
        ensures table { Dispatches F.FnOnce emit (C.facts cx.old) G.tells self.old.tsval_generator
            self.old.control_block cx.old result self.new.control_block cx.new }
        ensures generator { self.new.tsval_generator ≡ self.old.tsval_generator }
        ensures ended { self.new.ended ≡ ended_by_dispatch self.old.control_block.state self.new.control_block.state
            (is_some self.new.control_block.remote_last_ts) self.old.ended }
    {
        let before = self.control_block.state;
        let result = self.emit_next(cx, emit);
        self.note_end(before);
        result
    }

    // What `dispatch` does, but for why a connection ended.
    #[inline(always)]
    fn emit_next<C: Context, E, F: FnOnce(&mut C, (IpRepr, TcpRepr<'_>)) -> Result<(), E>>(
        &mut self,
        cx: &mut C,
        emit: F,
    ) -> Result<(), E>
        requires callable { F.IsAlwaysCallable emit }
        ensures table { Dispatches F.FnOnce emit (C.facts cx.old) G.tells self.old.tsval_generator
            self.old.control_block cx.old result self.new.control_block cx.new }
        ensures generator { self.new.tsval_generator ≡ self.old.tsval_generator }
        ensures ended { self.new.ended ≡ self.old.ended }
    {
        if !self.control_block.before_emit(cx) {
            return Ok(());
        }
        let stamp = self.tsval();
        self.control_block.emit_due(cx, stamp, emit)
    }

    // Why the connection ended, where it did in a dispatch that began in this state.
    #[inline(always)]
    fn note_end(&mut self, before: State)
        ensures control_block { self.new.control_block ≡ self.old.control_block }
        ensures generator { self.new.tsval_generator ≡ self.old.tsval_generator }
        ensures ended { self.new.ended ≡ ended_by_dispatch before self.old.control_block.state
            (is_some self.old.control_block.remote_last_ts) self.old.ended }
    {
        let block = &self.control_block;
        self.ended = by_dispatch(
            before,
            block.state,
            block.remote_last_ts().is_some(),
            self.ended,
        );
    }
}
