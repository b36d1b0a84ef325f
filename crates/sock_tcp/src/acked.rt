//! How much an acknowledgement covers (RFC 9293, section 3.10.7.4).
ghost use Rattle.std.specs.Prelude.{◌≡◌, ◌≤◌, ◌^◌, length};
ghost use Rattle.sock_tcp.specs.Acked.{syn_place, acked_of};
ghost use Rattle.sock_tcp.specs.Verdict.{verdict_of};
ghost use Rattle.sock_tcp.specs.declared.verdict.Verdict.TheVariants.{Pass};

use crate::control_block::ControlBlock;
use crate::state::State;
use control_wire::{TcpControl, TcpSeqNumber};
use sock_core::seq::not_after;

/// How much an acknowledgement covers.
#[derive(Clone, Copy)]
pub struct Acked {
    /// How many bytes of the transmit queue.
    pub len: usize,
    /// Whether the own FIN is among it.
    pub fin: bool,
    /// Whether it is all that was sent.
    pub all: bool,
}

const NOTHING: Acked = Acked {
    len: 0,
    fin: false,
    all: false,
};

impl<'a> ControlBlock<'a> {
    // 1 where a SYN of our own is unacknowledged.
    fn syn_place(&self) -> usize
        ensures { result ≡ syn_place self.now.state }
    {
        match self.state {
            State::SynSent | State::SynReceived => 1,
            _ => 0,
        }
    }

    #[tactic(auto, unfolding(crate::specs::Acked::acked_at))]
    pub(crate) fn acked(&self, control: TcpControl, ack: Option<TcpSeqNumber>) -> Acked
        ensures { result ≡ acked_of self.now control ack }
    {
        let ack = match (control, ack) {
            (TcpControl::Rst, _) | (_, None) => return NOTHING,
            (_, Some(ack)) => ack,
        };
        let count = ack
            .since(self.local_seq_no)
            .saturating_sub(self.syn_place());
        let fin = self.fin_place() == 1 && count == self.tx_buffer.len() + 1;
        Acked {
            len: if fin { count - 1 } else { count },
            fin,
            all: not_after(self.remote_last_seq, ack),
        }
    }

    // What it acknowledges where the verdict is known: no more bytes than are there.
    pub(crate) fn acked_by_passing(&self, control: TcpControl, ack: Option<TcpSeqNumber>) -> Acked
        requires { verdict_of self.now control ack ≡ Pass }
        ensures value { result ≡ acked_of self.now control ack }
        ensures fits { result.len ≤ length self.now.tx_buffer.bytes }
    {
        self.local_seq_no.in_range(); // for its contract
        match ack {
            None => self.acked(control, None),
            Some(number) => {
                number.in_range(); // for its contract
                self.acked(control, Some(number))
            }
        }
    }
}
