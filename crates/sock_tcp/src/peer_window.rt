//! Which segment tells the peer's window, by the RFCs' rules (RFC 9293, section 3.10.7.4).
ghost use Rattle.std.specs.Prelude.{◌≡◌, length};
ghost use Rattle.control_wire.specs.Segment.{segment_of};
ghost use Rattle.sock_tcp.specs.Rfc.Windows.{ack_heeded, acks_before, brings, field_kept, is_heeding};
ghost use Rattle.sock_tcp.specs.Rfc.Windows.{is_ignored, is_newer, is_old_ack, wl1_by, wl2_by, windowed};
ghost use Rattle.sock_tcp.specs.declared.rules.Rules.TheVariants.{Rfc};

use crate::control_block::ControlBlock;
use crate::rules::Rules;
use crate::state::State;
use control_wire::{TcpControl, TcpRepr, TcpSeqNumber};
use sock_core::seq::before;

fn acks_before(ack: Option<TcpSeqNumber>, wl2: TcpSeqNumber) -> bool
    ensures { result ≡ acks_before ack wl2 }
{
    match ack {
        None => false,
        Some(ack) => before(ack, wl2),
    }
}

// It has bytes or a FIN.
fn brings(repr: &TcpRepr<'_>) -> bool
    ensures { result ≡ brings repr.now.control (length repr.now.payload.now) }
{
    match repr.control {
        TcpControl::None | TcpControl::Psh => !repr.payload.is_empty(),
        TcpControl::Fin => true,
        _ => false,
    }
}

impl<'a> ControlBlock<'a> {
    // The segment is no older than the one that told the window last.
    pub(crate) fn is_newer(&self, repr: &TcpRepr<'_>) -> bool
        ensures { result ≡ is_newer self.now.snd_wl1 self.now.snd_wl2 (segment_of repr.now) }
    {
        match repr.control {
            TcpControl::Syn => true,
            _ => {
                before(self.snd_wl1, repr.seq_number)
                    || self.snd_wl1 == repr.seq_number
                        && !acks_before(repr.ack_number, self.snd_wl2)
            }
        }
    }

    // Its acknowledgement comes from before SND.UNA, and it brings bytes or a FIN.
    fn is_ignored(&self, repr: &TcpRepr<'_>) -> bool
        ensures { result ≡ is_ignored self.now (segment_of repr.now) repr.now.ack_number }
    {
        match repr.ack_number {
            None => false,
            Some(ack) => { self.is_heeding() && (brings(repr) && self.is_old_ack(ack)) }
        }
    }

    pub(crate) fn is_heeding(&self) -> bool
        ensures { result ≡ is_heeding self.now.state }
    {
        !matches!(
            self.state,
            State::Closed | State::Listen | State::SynSent | State::SynReceived
        )
    }

    fn is_old_ack(&self, ack: TcpSeqNumber) -> bool
        ensures { result ≡ is_old_ack self.now ack }
    {
        before(ack, self.local_seq_no) && self.local_seq_no.since(ack) <= self.largest_window
    }

    // The acknowledgement that it counts as having.
    pub(crate) fn ack_heeded(&self, repr: &TcpRepr<'_>) -> Option<TcpSeqNumber>
        ensures { result ≡ ack_heeded Rfc self.now (segment_of repr.now) repr.now.ack_number }
    {
        if self.is_ignored(repr) {
            Some(self.local_seq_no.plus(0))
        } else {
            repr.ack_number
        }
    }

    // The field that tells what is left of the window, up to the same right edge.
    fn field_kept(&self, repr: &TcpRepr<'_>) -> u16
        ensures { result ≡ field_kept self.now (segment_of repr.now) }
    {
        let count = self.acked(repr.control, self.ack_heeded(repr)).len;
        let left = self.remote_win_len.saturating_sub(count);
        (left >> self.remote_win_scale.unwrap_or(0)).min(65535) as u16
    }

    // The segment with the window that it counts as telling.
    #[inline(always)]
    pub(crate) fn windowed<'s>(&self, repr: &TcpRepr<'s>) -> TcpRepr<'s>
        ensures segment { segment_of result ≡ windowed Rfc self.now (segment_of repr.now) }
        ensures control { result.control ≡ repr.now.control }
        ensures ack { result.ack_number ≡ ack_heeded Rfc self.now (segment_of repr.now) repr.now.ack_number }
        ensures payload { result.payload.now ≡ repr.now.payload.now }
    {
        let mut repr = *repr;
        let ignored = self.is_ignored(&repr);
        if !self.is_newer(&repr) || ignored {
            repr.window_len = self.field_kept(&repr);
        }
        if ignored {
            repr.ack_number = Some(self.local_seq_no.plus(0));
        }
        repr
    }

    // A segment that is heard becomes the one that told the window, unless it is older.
    #[inline(always)]
    pub(crate) fn note_window(&mut self, repr: &TcpRepr<'_>)
        ensures view { self.new ≡ record self.old {
          snd_wl1 = wl1_by self.old.rules self.old.snd_wl1 self.old.snd_wl2 (segment_of repr.now);
          snd_wl2 = wl2_by self.old.rules self.old.snd_wl1 self.old.snd_wl2 (segment_of repr.now);
        } }
    {
        if let Rules::Rfc = self.rules {
            self.note_newer(repr);
        }
    }

    #[inline(never)]
    fn note_newer(&mut self, repr: &TcpRepr<'_>)
        ensures view { self.new ≡ record self.old {
          snd_wl1 = wl1_by Rfc self.old.snd_wl1 self.old.snd_wl2 (segment_of repr.now);
          snd_wl2 = wl2_by Rfc self.old.snd_wl1 self.old.snd_wl2 (segment_of repr.now);
        } }
    {
        if !self.is_newer(repr) {
            return;
        }
        self.snd_wl1 = repr.seq_number;
        if let Some(ack) = repr.ack_number {
            self.snd_wl2 = ack;
        }
    }
}
