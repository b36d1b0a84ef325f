//! Reading and writing the byte queues (RFC 9293, sections 3.10.2 and 3.10.3).
ghost use Rattle.std.specs.Prelude.{◌≡◌, ◌≤◌, ◌^◌, ℕ, List, length};
ghost use Rattle.std.specs.Fn.{FnOnceReturnsAt, FnOnceReturnsAtMut};
ghost use Rattle.sock_tcp.specs.Queues.{may_send, can_send, receives, may_recv, can_recv};
ghost use Rattle.sock_tcp.specs.Queues.{last_ts_from, timer_after, queued, written, Sends, SendsWith};
ghost use Rattle.sock_tcp.specs.Queues.{recv_check, read_off, Drops, Reads, ReadsWith, lent_bytes, Peeks, PeeksInto};

use crate::control_block::ControlBlock;
use crate::error::{RecvError, SendError};
use crate::state::State;
use crate::timer::Timer;
use net_base::time::Instant;

impl<'a> ControlBlock<'a> {
    pub(crate) fn may_send(&self) -> bool
        ensures { result ≡ may_send self.now.state }
    {
        matches!(self.state, State::Established | State::CloseWait)
    }

    pub(crate) fn can_send(&self) -> bool
        ensures { result ≡ can_send self.now }
    {
        self.may_send() && !self.tx_buffer.is_full()
    }

    pub(crate) fn can_recv(&self) -> bool
        ensures { result ≡ can_recv self.now }
    {
        !self.rx_buffer.is_empty()
    }

    fn receives(&self) -> bool
        ensures { result ≡ receives self.now.state }
    {
        matches!(
            self.state,
            State::Established | State::FinWait1 | State::FinWait2
        )
    }

    pub(crate) fn may_recv(&self) -> bool
        ensures { result ≡ may_recv self.now }
    {
        self.receives() || self.can_recv()
    }

    // What a call that brought `count` bytes into the queue does beside.
    fn note_queued(&mut self, was_empty: bool, count: usize)
        ensures { self.new ≡ record self.old {
          remote_last_ts = last_ts_from was_empty self.old count;
          timer = timer_after self.old count;
        } }
    {
        if count == 0 {
            return;
        }
        if was_empty {
            self.has_remote_last_ts = false;
        }
        if self.remote_win_len == 0 && self.timer.is_idle() {
            // The call has no context to ask for the time, so the first probe is due at once, as smoltcp's.
            let delay = self.rtte.retransmission_timeout();
            self.timer = Timer::ZeroWindowProbe {
                expires_at: Instant::ZERO + delay,
                delay,
            };
        }
    }

    #[tactic(auto, unfolding(crate::specs::Queues::queued))]
    pub(crate) fn send_slice(&mut self, data: &[u8]) -> Result<usize, SendError>
        ensures table { Sends self.old «data».now result self.new }
        ensures stamps { self.new.stamps ≡ self.old.stamps }
        ensures small { length self.new.tx_buffer.bytes ≤ 2 ^ 30 }
    {
        if !self.may_send() {
            return Err(SendError::InvalidState);
        }
        let was_empty = self.tx_buffer.is_empty();
        let count = self.tx_buffer.enqueue_slice(data);
        self.note_queued(was_empty, count);
        Ok(count)
    }

    #[tactic(auto, unfolding(crate::specs::Queues::queued))]
    pub(crate) fn send<R, F: FnOnce(&mut [u8]) -> (usize, R)>(
        &mut self,
        f: F,
    ) -> Result<R, SendError>
        requires callable { F.IsAlwaysCallable f }
        requires sized { (s : List ℕ) (r : _) (s' : List ℕ) → FnOnceReturnsAtMut F.FnOnce f s r s' → r.0 ≤ length s }
        ensures table { SendsWith (FnOnceReturnsAtMut F.FnOnce f) self.old result self.new }
        ensures stamps { self.new.stamps ≡ self.old.stamps }
        ensures small { length self.new.tx_buffer.bytes ≤ 2 ^ 30 }
    {
        if !self.may_send() {
            return Err(SendError::InvalidState);
        }
        let was_empty = self.tx_buffer.is_empty();
        let (count, result) = self.tx_buffer.enqueue_many_with(f);
        self.note_queued(was_empty, count);
        Ok(result)
    }

    // Whether bytes can be read, and if not, why.
    fn check_recv(&self) -> Result<(), RecvError>
        ensures { result ≡ recv_check self.now }
    {
        if self.may_recv() {
            Ok(())
        } else if self.rx_fin_received {
            Err(RecvError::Finished)
        } else {
            Err(RecvError::InvalidState)
        }
    }

    #[tactic(auto, unfolding(crate::specs::Queues::read_off))]
    pub(crate) fn recv_slice(&mut self, data: &mut [u8]) -> Result<usize, RecvError>
        ensures table { Reads self.old «data».old result self.new «data».new }
        ensures stamps { self.new.stamps ≡ self.old.stamps }
    {
        self.check_recv()?;
        let count = self.rx_buffer.dequeue_slice(data);
        self.remote_seq_no = self.remote_seq_no.plus(count);
        Ok(count)
    }

    #[tactic(auto, using(crate::proofs::Lending::first_within), unfolding(crate::specs::Queues::read_off))]
    pub(crate) fn recv<R, F: FnOnce(&[u8]) -> (usize, R)>(&mut self, f: F) -> Result<R, RecvError>
        requires callable { F.IsAlwaysCallable f }
        requires sized { (s : List ℕ) (r : _) → FnOnceReturnsAt F.FnOnce f s r → r.0 ≤ length s }
        ensures table { ReadsWith (FnOnceReturnsAt F.FnOnce f) self.old result self.new }
        ensures stamps { self.new.stamps ≡ self.old.stamps }
    {
        self.check_recv()?;
        let (count, result) = self.rx_buffer.dequeue_many_with(f);
        self.remote_seq_no = self.remote_seq_no.plus(count);
        Ok(result)
    }

    #[tactic(auto, unfolding(crate::specs::Queues::read_off))]
    pub(crate) fn consume(&mut self, count: usize) -> Result<usize, RecvError>
        ensures table { Drops self.old count result self.new }
        ensures stamps { self.new.stamps ≡ self.old.stamps }
    {
        self.check_recv()?;
        let count = self.rx_buffer.consume(count);
        self.remote_seq_no = self.remote_seq_no.plus(count);
        Ok(count)
    }

    pub(crate) fn peek(&self, size: usize) -> Result<&[u8], RecvError>
        ensures { Peeks self.now size (lent_bytes result) }
    {
        self.check_recv()?;
        Ok(self.rx_buffer.peek(size))
    }

    pub(crate) fn peek_slice(&self, data: &mut [u8]) -> Result<usize, RecvError>
        ensures { PeeksInto self.now «data».old result «data».new }
    {
        self.check_recv()?;
        Ok(self.rx_buffer.peek_slice(data))
    }
}
