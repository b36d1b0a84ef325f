//! ICMP messages that the program sends.
ghost use Rattle.std.specs.Prelude.{◌≡◌, ◌≤◌, ◌++◌, ℕ, List, [], ◌∷◌, length, take, drop, cond, is_ok, true, false};
ghost use Rattle.std.specs.Prelude.{not, IfOk, OnErr};
ghost use Rattle.std.specs.Borrow.{sem};
ghost use Rattle.std.specs.Fn.{FnOnceReturnsAtMut};
ghost use Rattle.ip_wire.specs.Address.{is_unspecified};
ghost use Rattle.net_base.specs.Packets.{made_room, end_of, Claims, Enqueues};
ghost use Rattle.sock_dgram.specs.Datagrams.{answered};
ghost use Rattle.sock_dgram.specs.Icmp.{waiting, send_answer, after_send, refused_send};
ghost use Rattle.sock_dgram.specs.IcmpCalls.{Effect, SendSlice};
ghost use Rattle.sock_dgram.specs.IcmpLends.{LendsMessage};
ghost use Rattle.sock_dgram.specs.Transfers.{Writes};

use crate::error::SendError;
use crate::icmp::socket::Socket;
use crate::queue::store;
use ip_wire::IpAddress;

impl<'a> Socket<'a> {
    // Puts a message of `size` bytes behind the others, as they stand in the payload storage. Answers whether it may be
    // sent so, whether there was room, and where its bytes begin.
    pub(crate) fn claim(&mut self, size: usize, endpoint: IpAddress) -> (bool, bool, usize)
        ensures sendable { result.0 ≡ not (is_unspecified endpoint) }
        ensures queue { result.0 ≡ true → Claims size endpoint self.old.tx_buffer result.1 result.2 self.new.tx_buffer }
        ensures refused { result.0 ≡ false → self.new ≡ self.old }
        ensures same { self.new ≡ record self.old { tx_buffer = self.new.tx_buffer } }
    {
        if endpoint.is_unspecified() {
            return (false, false, 0);
        }
        let (taken, from) = self.tx_buffer.claim(size, endpoint);
        (true, taken, from)
    }

    /// Puts an ICMP message of `size` bytes into the transmit queue, and lends its bytes. What stands in them as the
    /// borrow ends is the message.
    ///
    /// # Errors
    /// `Unaddressable` and `BufferFull` as `send_slice`; the queue then stays as it was.
    pub fn send(&mut self, size: usize, endpoint: IpAddress) -> Result<&mut [u8], SendError>
        ensures* after { sem 𝓛 (LendsMessage size endpoint self.entry result) }
        ensures answer { answered result ≡ send_answer self.old endpoint size }
        ensures size { IfOk result (λ bytes. length bytes.now ≡ size) }
        ensures value { IfOk result (λ bytes. bytes.now
            ≡ take size (drop (end_of (made_room size self.old.tx_buffer)) self.old.tx_buffer.storage)) }
    {
        let (sendable, taken, from) = self.claim(size, endpoint);
        if !sendable {
            return Err(SendError::Unaddressable);
        }
        if !taken {
            return Err(SendError::BufferFull);
        }
        Ok(self.tx_buffer.part_mut(from, size))
    }

    /// Puts an ICMP message whose bytes `f` writes into the transmit queue: `f` is lent `max_size` bytes and answers
    /// how many of them, from the first on, are the message. This count is answered.
    ///
    /// # Errors
    /// `Unaddressable` and `BufferFull` as `send_slice`, for a message of `max_size` bytes; the queue then stays as it
    /// was.
    pub fn send_with<F: FnOnce(&mut [u8]) -> usize>(
        &mut self,
        max_size: usize,
        endpoint: IpAddress,
        f: F,
    ) -> Result<usize, SendError>
        requires callable { F.IsAlwaysCallable f }
        requires sized { (s : List ℕ) (r : _) (s' : List ℕ) → FnOnceReturnsAtMut F.FnOnce f s r s' → r ≤ length s }
        ensures answer { answered result ≡ send_answer self.old endpoint max_size }
        ensures ok { IfOk result (λ kept. Enqueues
            (FnOnceReturnsAtMut F.FnOnce f) max_size endpoint self.old.tx_buffer kept self.new.tx_buffer) }
        ensures refused { OnErr result (self.new ≡ refused_send self.old endpoint max_size) }
        ensures kept { OnErr result (waiting self.new ≡ waiting self.old) }
        ensures same { self.new ≡ record self.old { tx_buffer = self.new.tx_buffer } }
        ensures effect { Writes F.FnOnce result max_size endpoint f self.old.tx_buffer self.new.tx_buffer }
    {
        if endpoint.is_unspecified() {
            return Err(SendError::Unaddressable);
        }
        self.tx_buffer
            .enqueue_with_infallible(max_size, endpoint, f)
            .map_err(|_| SendError::BufferFull)
    }

    /// Puts an ICMP message of these bytes into the transmit queue.
    ///
    /// # Errors
    /// `Unaddressable` where the destination is unspecified; else `BufferFull` where the transmit buffer has no room
    /// for it. A refusal leaves the queue as it was. The socket need not be open.
    pub fn send_slice(&mut self, data: &[u8], endpoint: IpAddress) -> Result<(), SendError>
        ensures answer { result ≡ send_answer self.old endpoint (length «data».now) }
        ensures view { self.new ≡ after_send self.old endpoint «data».now }
        ensures queue { waiting self.new ≡ cond (is_ok result) (waiting self.old ++ (endpoint, «data».now) ∷ [])
            (waiting self.old) }
        ensures effect { Effect (SendSlice «data».now endpoint result) self.old self.new }
    {
        if endpoint.is_unspecified() {
            return Err(SendError::Unaddressable);
        }
        if !store(&mut self.tx_buffer, endpoint, data) {
            return Err(SendError::BufferFull);
        }
        Ok(())
    }
}
