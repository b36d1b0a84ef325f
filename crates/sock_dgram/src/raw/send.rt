//! Packets that the program sends.
ghost use Rattle.std.specs.Prelude.{◌≡◌, ◌≤◌, ◌++◌, ℕ, List, [], ◌∷◌, length, take, drop, cond, is_ok, IfOk, OnErr};
ghost use Rattle.std.specs.Borrow.{sem};
ghost use Rattle.std.specs.Fn.{FnOnceReturnsAtMut};
ghost use Rattle.net_base.specs.Packets.{made_room, end_of, Claims, Enqueues};
ghost use Rattle.sock_dgram.specs.Datagrams.{answered, stored};
ghost use Rattle.sock_dgram.specs.Raw.{waiting, send_answer};
ghost use Rattle.sock_dgram.specs.RawCalls.{Effect, SendSlice};
ghost use Rattle.sock_dgram.specs.RawLends.{LendsPacket};
ghost use Rattle.sock_dgram.specs.Transfers.{Writes};

use crate::queue::store;
use crate::raw::error::SendError;
use crate::raw::socket::Socket;

impl<'a> Socket<'a> {
    // Puts a packet of `size` bytes behind the others, as they stand in the payload storage. Answers whether there was
    // room, and where they begin.
    pub(crate) fn claim(&mut self, size: usize) -> (bool, usize)
        ensures queue { Claims size tt self.old.tx_buffer result.0 result.1 self.new.tx_buffer }
        ensures same { self.new ≡ record self.old { tx_buffer = self.new.tx_buffer } }
    {
        self.tx_buffer.claim(size, ())
    }

    /// Puts a packet of `size` bytes, its IP header included, into the transmit queue, and lends its bytes. What stands
    /// in them as the borrow ends is the packet.
    ///
    /// # Errors
    /// `BufferFull` as `send_slice`; the queue then stays as it was.
    pub fn send(&mut self, size: usize) -> Result<&mut [u8], SendError>
        ensures* after { sem 𝓛 (LendsPacket size self.entry result) }
        ensures answer { answered result ≡ send_answer self.old size }
        ensures size { IfOk result (λ bytes. length bytes.now ≡ size) }
        ensures value { IfOk result (λ bytes. bytes.now
            ≡ take size (drop (end_of (made_room size self.old.tx_buffer)) self.old.tx_buffer.storage)) }
    {
        let (taken, from) = self.claim(size);
        if !taken {
            return Err(SendError::BufferFull);
        }
        Ok(self.tx_buffer.part_mut(from, size))
    }

    /// Puts a packet whose bytes `f` writes into the transmit queue: `f` is lent `max_size` bytes and answers how many
    /// of them, from the first on, are the packet. This count is answered.
    ///
    /// # Errors
    /// `BufferFull` as `send_slice`, for a packet of `max_size` bytes; the queue then stays as it was.
    pub fn send_with<F: FnOnce(&mut [u8]) -> usize>(
        &mut self,
        max_size: usize,
        f: F,
    ) -> Result<usize, SendError>
        requires callable { F.IsAlwaysCallable f }
        requires sized { (s : List ℕ) (r : _) (s' : List ℕ) → FnOnceReturnsAtMut F.FnOnce f s r s' → r ≤ length s }
        ensures answer { answered result ≡ send_answer self.old max_size }
        ensures ok { IfOk result (λ kept. Enqueues
            (FnOnceReturnsAtMut F.FnOnce f) max_size tt self.old.tx_buffer kept self.new.tx_buffer) }
        ensures refused { OnErr result (self.new.tx_buffer ≡ made_room max_size self.old.tx_buffer) }
        ensures kept { OnErr result (waiting self.new ≡ waiting self.old) }
        ensures same { self.new ≡ record self.old { tx_buffer = self.new.tx_buffer } }
        ensures effect { Writes F.FnOnce result max_size tt f self.old.tx_buffer self.new.tx_buffer }
    {
        self.tx_buffer
            .enqueue_with_infallible(max_size, (), f)
            .map_err(|_| SendError::BufferFull)
    }

    /// Puts a packet of these bytes, its IP header first, into the transmit queue.
    ///
    /// # Errors
    /// `BufferFull` where the transmit buffer has no room for it; the queue then stays as it was.
    pub fn send_slice(&mut self, data: &[u8]) -> Result<(), SendError>
        ensures answer { result ≡ send_answer self.old (length «data».now) }
        ensures view { self.new ≡ record self.old { tx_buffer = stored tt «data».now self.old.tx_buffer } }
        ensures queue { waiting self.new
            ≡ cond (is_ok result) (waiting self.old ++ (tt, «data».now) ∷ []) (waiting self.old) }
        ensures effect { Effect (SendSlice «data».now result) self.old self.new }
    {
        if !store(&mut self.tx_buffer, (), data) {
            return Err(SendError::BufferFull);
        }
        Ok(())
    }
}
