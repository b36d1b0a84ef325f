//! What a packet buffer lends of its payload bytes for writing.
ghost use Rattle.std.specs.Prelude.{◌≡◌, ◌+◌, ◌≤◌, ◌↔◌, length, take, drop, IfOk, IsOk, IsTrue};
ghost use Rattle.std.specs.Borrow.{sem};
ghost use Rattle.net_base.specs.PacketLends.{LendsPacket, LendsPart};
ghost use Rattle.net_base.specs.Packets.{end_of, made_room, takes};

use crate::packet_buffer::{Full, PacketBuffer};

impl<'a, H> PacketBuffer<'a, H> {
    /// The `size` payload bytes from `from` on, for writing: the bytes of a packet that `claim` appended, until the
    /// next change.
    pub fn part_mut(&mut self, from: usize, size: usize) -> &mut [u8]
        requires { from + size ≤ length self.old.storage }
        ensures* after { sem 𝓛 (LendsPart H.row from size self.entry result) }
        ensures value { result.now ≡ take size (drop from self.old.storage) }
    {
        let all = self.all();
        &mut all[from..from + size]
    }
}

impl<'a, H: Copy> PacketBuffer<'a, H> {
    /// Appends a packet, and lends its `size` bytes for writing. What stands in them as the borrow ends is the packet.
    ///
    /// # Errors
    /// `Full` where no place is left, or `size` bytes in one piece are not; nothing changes then.
    pub fn enqueue(&mut self, size: usize, header: H) -> Result<&mut [u8], Full>
        ensures* after { sem 𝓛 (LendsPacket H.row size header self.entry result) }
        ensures variant { IsOk result ↔ IsTrue (takes size self.old) }
        ensures size { IfOk result (λ bytes. length bytes.now ≡ size) }
        ensures value { IfOk result (λ bytes. bytes.now
            ≡ take size (drop (end_of (made_room size self.old)) self.old.storage)) }
    {
        let (taken, from) = self.claim(size, header);
        if !taken {
            return Err(Full);
        }
        Ok(self.part_mut(from, size))
    }
}
