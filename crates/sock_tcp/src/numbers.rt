//! The number of what is sent without bytes, by the RFCs' rules (RFC 9293, sections 3.4 and 3.10.7.4).
ghost use Rattle.std.specs.Prelude.{◌≡◌};
ghost use Rattle.control_wire.specs.Segment.{segment_of};
ghost use Rattle.sock_tcp.specs.Rfc.Numbers.{highest_number, number_out_by, numbered, renumbered};

use crate::control_block::ControlBlock;
use crate::rules::Rules;
use control_wire::{TcpRepr, TcpSeqNumber};
use ip_wire::IpRepr;

impl<'a> ControlBlock<'a> {
    // SND.MAX, and at most one behind the transmit queue.
    fn highest_number(&self) -> TcpSeqNumber
        ensures { result ≡ highest_number self.now }
    {
        let most = self.tx_buffer.len() + 1;
        self.local_seq_no.plus(self.sent().min(most))
    }

    // The number of a segment that has the number `otherwise` else.
    #[inline(always)]
    fn number_out(&self, is_bare: bool, otherwise: TcpSeqNumber) -> TcpSeqNumber
        ensures { result ≡ number_out_by is_bare self.now.rules self.now otherwise }
    {
        match self.rules {
            Rules::Rfc if is_bare => self.highest_number(),
            _ => otherwise,
        }
    }

    // What a dispatch emits, where it takes no number.
    #[inline(always)]
    pub(crate) fn number_packet(&self, packet: &mut (IpRepr, TcpRepr<'_>))
        ensures header { packet.new.0 ≡ packet.old.0 }
        ensures segment { segment_of packet.new.1 ≡ numbered self.now (segment_of packet.old.1) }
    {
        let is_bare = packet.1.segment_len() == 0;
        packet.1.seq_number = self.number_out(is_bare, packet.1.seq_number);
    }

    // What answers a segment: an acknowledgement, of a socket that is not closed.
    pub(crate) fn number_reply(&self, reply: TcpRepr<'static>) -> TcpRepr<'static>
        ensures segment { segment_of result ≡ renumbered self.now (segment_of reply.entry) }
        ensures payload { result.payload.now ≡ reply.entry.payload.now }
    {
        let is_ack = reply.is_empty() && !self.state.is_closed();
        let mut reply = reply;
        reply.seq_number = self.number_out(is_ack, reply.seq_number);
        reply
    }
}
