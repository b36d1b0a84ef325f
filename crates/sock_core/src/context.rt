//! What a socket asks of the interface that holds it, and when it wants to be served next.
ghost use Rattle.std.specs.Prelude.{◌≡◌, ◌↔◌, ℕ, ◌+◌, Bool, Option};
ghost use Rattle.std.specs.Option.{ForSome};
ghost use Rattle.ip_wire.specs.Address.{SameVersion};
ghost use Rattle.std.specs.declared.cmp.Ordering.TheVariants.{Equal};
ghost use Rattle.std.specs.Cmp.{IsTotalOrder};
ghost use Rattle.sock_core.specs.Facts.{Facts, IsLawful};
ghost use Rattle.sock_core.specs.PollOrder.{poll_order};

use ip_wire::{ChecksumCapabilities, IpAddress, Ipv4Address, Ipv6Address};
use net_base::time::Instant;

/// The interface as a socket sees it during one call.
///
/// Of these calls only `rand_u32` changes the context, and it changes only the words to come.
pub trait Context {
    // what the context answers, its words apart
    ghost facts: { Self → Facts };

    // the words that it will answer, in order
    ghost word_at: { Self → ℕ → ℕ };

    /// The moment of the call, within 2^61 microseconds of zero.
    fn now(&self) -> Instant
        ensures value { result.micros ≡ (facts self.now).now }
        ensures lawful { IsLawful (facts self.now) };

    /// Whether the interface has this address.
    fn has_ip_addr(&self, addr: IpAddress) -> bool
        ensures { result ≡ (facts self.now).has_address addr };

    /// The address from which a packet to `dst` is sent, of the version of `dst`; none where there is none.
    fn get_source_address(&self, dst: &IpAddress) -> Option<IpAddress>
        ensures value { result ≡ (facts self.now).source dst.now }
        ensures version { ForSome result (λ s. SameVersion s dst.now) };

    /// The IPv4 address from which a packet to `dst` is sent; none where there is none.
    fn get_source_address_ipv4(&self, dst: &Ipv4Address) -> Option<Ipv4Address>
        ensures { result ≡ (facts self.now).source_ipv4 dst.now };

    /// The IPv6 address from which a packet to `dst` is sent; there always is one.
    fn get_source_address_ipv6(&self, dst: &Ipv6Address) -> Ipv6Address
        ensures { result ≡ (facts self.now).source_ipv6 dst.now };

    /// Whether a packet to this address goes to every host of a network.
    fn is_broadcast(&self, addr: &IpAddress) -> bool
        ensures { result ≡ (facts self.now).broadcast addr.now };

    /// The largest IP packet, in octets: from 68 to 65535. Over IPv6 less than 576 counts as that: its links carry 1280
    /// (RFC 8200, section 5).
    fn ip_mtu(&self) -> usize
        ensures value { result ≡ (facts self.now).mtu }
        ensures lawful { IsLawful (facts self.now) };

    /// Which checksums are computed and tested here, and which by the device.
    fn checksum_caps(&self) -> ChecksumCapabilities
        ensures { result ≡ (facts self.now).checksums };

    /// The next random word.
    fn rand_u32(&mut self) -> u32
        ensures word { result ≡ word_at self.old 0 }
        ensures same { facts self.new ≡ facts self.old }
        ensures words { (k : ℕ) → word_at self.new k ≡ word_at self.old (k + 1) };
}

/// When a socket wants its next `dispatch`: at once, at a moment, or after the next packet that comes in.
///
/// Ordered so: `Now`, then `Time` by its moment, then `Ingress`.
#[derive(Debug, Clone, Copy, PartialEq, Eq, PartialOrd, Ord)]
pub enum PollAt {
    /// At once.
    Now,
    /// At the moment.
    Time(Instant),
    /// After the next packet that comes in, and not before.
    Ingress,
}

/// Poll moments stand in one total order: `Now`, then `Time` by its moment, then `Ingress`. Only equal ones are ordered
/// as equal.
pub fn poll_moments_are_ordered()
    ensures order { (p q : PollAt) → ⟦<PollAt as Ord>⟧.cmp p q ≡ poll_order p q }
    ensures total { IsTotalOrder poll_order }
    ensures equal { (p q : PollAt) → (poll_order p q ≡ Equal) ↔ (p ≡ q) }
{}
