//! One end of a link, which is a device of its host.
ghost use Rattle.std.specs.Prelude.{◌≡◌, ◌==◌, [], length, take};
ghost use Rattle.host_link.specs.Passing.{Passed, Received};

use crate::packet::{LONGEST, Packet};
use net_host::Device;
use std::mem;

/// One end of a link in memory: a packet that arrived, and one that was sent, of at most 1500 bytes each.
#[derive(Drop)]
pub struct Link {
    arrived: Packet,
    sent: Packet,
}

impl Link {
    /// An end where nothing arrived, and nothing was sent.
    pub fn new() -> Link
        ensures { result ≡ record { arrived = []; sent = [] } }
    {
        Link {
            arrived: Packet::none(),
            sent: Packet::none(),
        }
    }

    /// What each end sent arrives at the other, in the place of what arrived there before.
    pub fn pass(&mut self, other: &mut Link)
        ensures here { Passed other.old self.new }
        ensures there { Passed self.old other.new }
    {
        let (here, there) = (Packet::none(), Packet::none());
        self.arrived = mem::replace(&mut other.sent, there);
        other.arrived = mem::replace(&mut self.sent, here);
    }
}

impl Device for Link {
    ghost mtu = { λ link. 1500 };

    ghost has_room = { λ link. length link.sent == 0 };

    ghost receives = { λ before n packet after. Received before n packet after };

    ghost transmits = { λ before packet after. after ≡ record before { sent = take 1500 packet } };

    fn max_transmission_unit(&self) -> usize {
        LONGEST
    }

    fn has_room(&self) -> bool {
        self.sent.is_none()
    }

    fn receive(&mut self, packet: &mut [u8]) -> usize {
        self.arrived.take_to(packet)
    }

    fn transmit(&mut self, packet: &[u8]) {
        self.sent.put(packet);
    }
}
