//! A place for one packet.
ghost use Rattle.std.specs.Prelude.{◌≡◌, ◌==◌, ◌++◌, [], length, min, take, drop};

use std::marker::Model;

/// How long a packet may be, in bytes.
pub const LONGEST: usize = 1500;

/// A packet of at most 1500 bytes, or none.
#[derive(Drop)]
pub struct Packet {
    bytes: [u8; 1500],
    len: usize,
}

impl Model for Packet {
    ghost use Rattle.std.specs.Prelude.{ℕ, List, ◌≤◌, take};

    ghost Value = { List ℕ };

    ghost view = { λ p. take p.len p.bytes };

    ghost invariant = { λ p. p.len ≤ 1500 };
}

impl Packet {
    /// None.
    pub fn none() -> Packet
        ensures { result ≡ [] }
    {
        Packet {
            bytes: [0; 1500],
            len: 0,
        }
    }

    /// Whether there is none.
    pub fn is_none(&self) -> bool
        ensures { result ≡ length self.now == 0 }
    {
        self.len == 0
    }

    /// Puts a packet in the place of what was there: the first 1500 bytes of one that is longer.
    pub fn put(&mut self, packet: &[u8])
        ensures { self.new ≡ take 1500 packet.now }
    {
        let len = LONGEST.min(packet.len());
        self.bytes[..len].copy_from_slice(&packet[..len]);
        self.len = len;
    }

    /// Takes the packet out, to the beginning of `room`, and answers its length; what does not fit is lost.
    pub fn take_to(&mut self, room: &mut [u8]) -> usize
        ensures len { result ≡ min (length self.old) (length room.old) }
        ensures bytes { room.new ≡ take result self.old ++ drop result room.old }
        ensures taken { self.new ≡ [] }
    {
        let len = self.len.min(room.len());
        room[..len].copy_from_slice(&self.bytes[..len]);
        self.len = 0;
        len
    }
}
