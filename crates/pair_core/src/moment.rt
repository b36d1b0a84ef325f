//! The context of one call.
ghost use Rattle.std.specs.Prelude.{◌≡◌, ◌<◌, ◌^◌};
ghost use Rattle.sock_core.specs.Bounds.{IsMoment, IsHostMtu};

use ip_wire::{ChecksumCapabilities, IpAddress, Ipv4Address, Ipv6Address};
use net_base::time::Instant;
use sock_core::Context;

/// The context of one call: its moment, the random word, whether the address is there, and the largest IP packet.
#[derive(Debug, Clone, Copy, PartialEq, Eq)]
pub struct Moment {
    /// The time, within 2^61 microseconds of zero.
    pub now: Instant,
    /// What a random word is, however often one is drawn.
    pub word: u32,
    /// Whether the interface has the socket's local address.
    pub has_address: bool,
    /// The length of the largest IP packet in bytes, from 576 to 65535.
    pub ip_mtu: usize,
    pub ghost moment: { IsMoment now.micros },
    pub ghost mtu: { IsHostMtu ip_mtu },
    pub ghost fits: { word < 2 ^ 32 },
}

impl Moment {
    /// The context of a call at `now`, which is within 2^61 microseconds of zero; `ip_mtu` is from 576 to 65535 bytes.
    pub fn new(now: Instant, word: u32, has_address: bool, ip_mtu: usize) -> Moment
        requires moment { IsMoment now.micros }
        requires mtu { IsHostMtu ip_mtu }
        ensures now { result.now ≡ now }
        ensures word { result.word ≡ word }
        ensures address { result.has_address ≡ has_address }
        ensures mtu { result.ip_mtu ≡ ip_mtu }
    {
        Moment {
            now,
            word,
            has_address,
            ip_mtu,
        }
    }
}

// A moment has no source address, and no address is a broadcast one: no call of a pair asks for them.
impl Context for Moment {
    ghost use Rattle.pair_core.specs.Moments.{facts_of};

    ghost facts = { facts_of };

    ghost word_at = { λ m _. m.word };

    fn now(&self) -> Instant {
        self.now
    }

    fn has_ip_addr(&self, _addr: IpAddress) -> bool {
        self.has_address
    }

    fn get_source_address(&self, _dst: &IpAddress) -> Option<IpAddress> {
        None
    }

    fn get_source_address_ipv4(&self, _dst: &Ipv4Address) -> Option<Ipv4Address> {
        None
    }

    fn get_source_address_ipv6(&self, _dst: &Ipv6Address) -> Ipv6Address {
        Ipv6Address([0; 16])
    }

    fn is_broadcast(&self, _addr: &IpAddress) -> bool {
        false
    }

    fn ip_mtu(&self) -> usize {
        self.ip_mtu
    }

    fn checksum_caps(&self) -> ChecksumCapabilities {
        ChecksumCapabilities::default()
    }

    fn rand_u32(&mut self) -> u32 {
        self.word
    }
}
