//! Datagrams that the program sends.
ghost use Rattle.std.specs.Prelude.{◌≡◌, ◌≤◌, ◌++◌, ℕ, List, [], ◌∷◌, length, take, drop, cond, is_ok, true, false};
ghost use Rattle.std.specs.Prelude.{IfOk, OnErr};
ghost use Rattle.std.specs.Borrow.{sem};
ghost use Rattle.std.specs.Fn.{FnOnceReturnsAtMut};
ghost use Rattle.net_base.specs.Packets.{made_room, end_of, Claims, Enqueues};
ghost use Rattle.sock_dgram.specs.Datagrams.{answered};
ghost use Rattle.sock_dgram.specs.Udp.{waiting, is_possible_source, known_source, is_sendable, send_answer};
ghost use Rattle.sock_dgram.specs.Udp.{after_send, refused_send};
ghost use Rattle.sock_dgram.specs.UdpCalls.{Effect, SendSlice};
ghost use Rattle.sock_dgram.specs.UdpLends.{LendsDatagram};
ghost use Rattle.sock_dgram.specs.Transfers.{Writes};

use crate::error::SendError;
use crate::queue::store;
use crate::udp::socket::{Socket, UdpMetadata};
use ip_wire::IpAddress;

// Whether a source that is known is of the destination's version.
fn is_possible_source(source: Option<IpAddress>, dst: IpAddress) -> bool
    ensures { result ≡ is_possible_source source dst }
{
    match source {
        None => true,
        Some(source) => source.version() == dst.version(),
    }
}

impl<'a> Socket<'a> {
    // The address given, else the bound one.
    pub(crate) fn known_source(&self, meta: &UdpMetadata) -> Option<IpAddress>
        ensures { result ≡ known_source meta.now.local_address self.now.endpoint.addr }
    {
        meta.local_address.or(self.endpoint.addr)
    }

    /// Whether `send` takes such a datagram where there is room: the socket is open, the destination has an address and
    /// a port, and the source, where it is known, is of its version of IP.
    pub fn is_sendable(&self, meta: &UdpMetadata) -> bool
        ensures { result ≡ is_sendable self.now meta.now }
    {
        self.is_open()
            && !meta.endpoint.addr.is_unspecified()
            && meta.endpoint.port != 0
            && is_possible_source(self.known_source(meta), meta.endpoint.addr)
    }

    // Puts a datagram of `size` bytes behind the others, as they stand in the payload storage. Answers whether it may
    // be sent so, whether there was room, and where its bytes begin.
    pub(crate) fn claim(&mut self, size: usize, meta: UdpMetadata) -> (bool, bool, usize)
        ensures sendable { result.0 ≡ is_sendable self.old meta }
        ensures queue { result.0 ≡ true → Claims size meta self.old.tx_buffer result.1 result.2 self.new.tx_buffer }
        ensures refused { result.0 ≡ false → self.new ≡ self.old }
        ensures same { self.new ≡ record self.old { tx_buffer = self.new.tx_buffer } }
    {
        if !self.is_sendable(&meta) {
            return (false, false, 0);
        }
        let (taken, from) = self.tx_buffer.claim(size, meta);
        (true, taken, from)
    }

    /// Puts a datagram of `size` bytes into the transmit queue, and lends its bytes. What stands in them as the borrow
    /// ends is the payload.
    ///
    /// # Errors
    /// `Unaddressable` and `BufferFull` as `send_slice`; the queue then stays as it was.
    pub fn send(&mut self, size: usize, meta: UdpMetadata) -> Result<&mut [u8], SendError>
        ensures* after { sem 𝓛 (LendsDatagram size meta self.entry result) }
        ensures answer { answered result ≡ send_answer self.old meta size }
        ensures size { IfOk result (λ bytes. length bytes.now ≡ size) }
        ensures value { IfOk result (λ bytes. bytes.now
            ≡ take size (drop (end_of (made_room size self.old.tx_buffer)) self.old.tx_buffer.storage)) }
    {
        let (sendable, taken, from) = self.claim(size, meta);
        if !sendable {
            return Err(SendError::Unaddressable);
        }
        if !taken {
            return Err(SendError::BufferFull);
        }
        Ok(self.tx_buffer.part_mut(from, size))
    }

    /// Puts a datagram whose bytes `f` writes into the transmit queue: `f` is lent `max_size` bytes and answers how
    /// many of them, from the first on, are the payload. This count is answered.
    ///
    /// # Errors
    /// `Unaddressable` and `BufferFull` as `send_slice`, for a datagram of `max_size` bytes; the queue then stays as it
    /// was.
    pub fn send_with<F: FnOnce(&mut [u8]) -> usize>(
        &mut self,
        max_size: usize,
        meta: UdpMetadata,
        f: F,
    ) -> Result<usize, SendError>
        requires callable { F.IsAlwaysCallable f }
        requires sized { (s : List ℕ) (r : _) (s' : List ℕ) → FnOnceReturnsAtMut F.FnOnce f s r s' → r ≤ length s }
        ensures answer { answered result ≡ send_answer self.old meta max_size }
        ensures ok { IfOk result (λ kept. Enqueues
            (FnOnceReturnsAtMut F.FnOnce f) max_size meta self.old.tx_buffer kept self.new.tx_buffer) }
        ensures refused { OnErr result (self.new ≡ refused_send self.old meta max_size) }
        ensures kept { OnErr result (waiting self.new ≡ waiting self.old) }
        ensures same { self.new ≡ record self.old { tx_buffer = self.new.tx_buffer } }
        ensures effect { Writes F.FnOnce result max_size meta f self.old.tx_buffer self.new.tx_buffer }
    {
        if !self.is_sendable(&meta) {
            return Err(SendError::Unaddressable);
        }
        self.tx_buffer
            .enqueue_with_infallible(max_size, meta, f)
            .map_err(|_| SendError::BufferFull)
    }

    /// Puts a datagram of these bytes into the transmit queue.
    ///
    /// # Errors
    /// `Unaddressable` where the socket is not open, the destination's address is unspecified or its port zero, or the
    /// source (the address given, else the bound one) is of another version of IP than the destination; else
    /// `BufferFull` where the transmit buffer has no room for it. A refusal leaves the queue as it was.
    pub fn send_slice(&mut self, data: &[u8], meta: UdpMetadata) -> Result<(), SendError>
        ensures answer { result ≡ send_answer self.old meta (length «data».now) }
        ensures view { self.new ≡ after_send self.old meta «data».now }
        ensures queue { waiting self.new ≡ cond (is_ok result) (waiting self.old ++ (meta, «data».now) ∷ [])
            (waiting self.old) }
        ensures effect { Effect (SendSlice «data».now meta result) self.old self.new }
    {
        if !self.is_sendable(&meta) {
            return Err(SendError::Unaddressable);
        }
        if !store(&mut self.tx_buffer, meta, data) {
            return Err(SendError::BufferFull);
        }
        Ok(())
    }
}
