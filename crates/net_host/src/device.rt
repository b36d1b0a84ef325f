//! What carries the packets of an interface.
ghost use Rattle.std.specs.Prelude.{◌≡◌, ◌≤◌, ℕ, Bool, List, length};

/// A device that carries IP packets, as smoltcp's with the medium `Ip`.
///
/// What its calls do is told by ghost members, of which an implementation may say as much as it knows: `λ _ _ _ _. Unit
/// {0}` of `receives` and `λ _ _ _. Unit {0}` of `transmits` say nothing.
pub trait Device {
    // the largest IP packet that it carries
    ghost mtu: { Self → ℕ };

    // whether a packet may be handed to it now
    ghost has_room: { Self → Bool };

    // what `receive` does: the device before, the answer, the buffer after, the device after
    ghost receives: { Self → ℕ → List ℕ → Self → Type 0 };

    // what `transmit` does: the device before, the packet, the device after
    ghost transmits: { Self → List ℕ → Self → Type 0 };

    /// The largest IP packet that it carries, in bytes.
    fn max_transmission_unit(&self) -> usize
        ensures { result ≡ mtu self.now };

    /// Whether a packet may be handed to it now. Where not, nothing is received either, as it may have to be answered.
    fn has_room(&self) -> bool
        ensures { result ≡ has_room self.now };

    /// Takes the next packet that arrived, to the beginning of `packet`, and answers its length in bytes; 0 where none
    /// waits. It never waits itself.
    fn receive(&mut self, packet: &mut [u8]) -> usize
        ensures within { result ≤ length packet.old }
        ensures arrived { receives self.old result packet.new self.new };

    /// Sends a packet, of one byte at least. It never waits; what it cannot send after all is lost, as on any network.
    fn transmit(&mut self, packet: &[u8])
        ensures { transmits self.old packet.now self.new };
}
