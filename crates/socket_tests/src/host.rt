//! The context of all tests.
ghost use Rattle.std.specs.Prelude.{None, true, false, replicate};
ghost use Rattle.sock_core.specs.Bounds.{IsMoment};

use smoltcp_socket::Context;
use smoltcp_socket::time::Instant;
use smoltcp_socket::wire::{ChecksumCapabilities, IpAddress, Ipv4Address, Ipv6Address};

// A host that has every address. Datagrams of IPv4 go out from `addr`, where there is one. Each random word is `word`.
#[derive(Drop)]
pub(crate) struct Host {
    pub(crate) addr: Option<Ipv4Address>,
    pub(crate) caps: ChecksumCapabilities,
    now: Instant,
    word: u32,
    ghost moment: { IsMoment now.micros },
}

impl Host {
    // A host at moment 0 whose checksums are all sent and tested.
    pub(crate) fn new(addr: Option<Ipv4Address>) -> Host {
        Host {
            addr,
            caps: ChecksumCapabilities::default(),
            now: Instant::ZERO,
            word: 7,
        }
    }

    // A host of TCP sockets, so many milliseconds after the start.
    pub(crate) fn at(millis: u16, word: u32) -> Host {
        Host {
            addr: None,
            caps: ChecksumCapabilities::default(),
            now: Instant::from_millis(millis as i64),
            word,
        }
    }
}

impl Context for Host {
    ghost facts = { λ h. record {
      now = h.now.micros;
      mtu = 1500;
      has_address = λ _. true;
      source = λ _. None;
      source_ipv4 = λ _. h.addr;
      source_ipv6 = λ _. record { 0 = replicate 16 0 };
      broadcast = λ _. false;
      checksums = h.caps;
    } };

    ghost word_at = { λ h _. h.word };

    fn now(&self) -> Instant {
        self.now
    }

    fn has_ip_addr(&self, _addr: IpAddress) -> bool {
        true
    }

    fn get_source_address(&self, _dst: &IpAddress) -> Option<IpAddress> {
        None
    }

    fn get_source_address_ipv4(&self, _dst: &Ipv4Address) -> Option<Ipv4Address> {
        self.addr
    }

    fn get_source_address_ipv6(&self, _dst: &Ipv6Address) -> Ipv6Address {
        Ipv6Address([0; 16])
    }

    fn is_broadcast(&self, _addr: &IpAddress) -> bool {
        false
    }

    fn ip_mtu(&self) -> usize {
        1500
    }

    fn checksum_caps(&self) -> ChecksumCapabilities {
        self.caps
    }

    fn rand_u32(&mut self) -> u32 {
        self.word
    }
}
