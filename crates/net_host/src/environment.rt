//! What an interface knows of its network.
ghost use Rattle.std.specs.Prelude.{◌≡◌, max, min, pos, option_map};
ghost use Rattle.std.specs.Option.{ForSome};
ghost use Rattle.std.specs.Str.{bytes_eq};
ghost use Rattle.std.specs.List.{find, list_any};
ghost use Rattle.ip_wire.specs.Address.{SameVersion, same_version};
ghost use Rattle.ip_wire.specs.Checksum.{all_checksums};
ghost use Rattle.ip_wire.specs.declared.checksum.Checksum.TheVariants.{Both};
ghost use Rattle.sock_core.specs.Bounds.{IsMoment, IsMtu};
ghost use Rattle.net_host.specs.Moments.{lawful_micros};
ghost use Rattle.net_host.specs.Addresses.{covers, is_broadcast, is_directed, source_of};

use crate::cidr::{IpCidr, is_limited_broadcast};
use ip_wire::octets::be32_at;
use smoltcp_socket::time::Instant;
use smoltcp_socket::wire::{ChecksumCapabilities, IpAddress};

/// The addresses of an interface, its MTU, the checksums that are computed here, and the moment.
#[derive(Drop)]
pub struct Environment {
    pub(crate) addresses: Vec<IpCidr>,
    pub(crate) now: Instant,
    pub(crate) mtu: usize,
    pub(crate) checksums: ChecksumCapabilities,
    // so every moment is one that a context may have, and the MTU one that it may answer
    ghost moment: { IsMoment now.micros },
    ghost size: { IsMtu mtu },
}

impl Environment {
    pub(crate) fn new(addresses: Vec<IpCidr>) -> Environment
        ensures addresses { result.addresses ≡ addresses }
        ensures now { result.now.micros ≡ pos 0 }
        ensures mtu { result.mtu ≡ 1500 }
        ensures checksums { result.checksums ≡ all_checksums Both }
    {
        Environment {
            addresses,
            now: Instant::ZERO,
            mtu: 1500,
            checksums: ChecksumCapabilities::default(),
        }
    }

    /// The moment.
    pub(crate) fn moment(&self) -> Instant
        ensures value { result ≡ self.entry.now.now }
        ensures lawful { IsMoment result.micros }
    {
        self.now
    }

    /// Sets the moment, within 2^60 microseconds of zero; one that is further away counts as the nearest of these.
    pub(crate) fn set_now(&mut self, now: Instant)
        ensures now { self.new.now.micros ≡ lawful_micros now.micros }
        ensures same { (self.new.addresses ≡ self.old.addresses) × (self.new.mtu ≡ self.old.mtu)
            × (self.new.checksums ≡ self.old.checksums) }
    {
        self.now = lawful(now);
    }

    pub(crate) fn set_mtu(&mut self, mtu: usize)
        ensures mtu { self.new.mtu ≡ max 68 (min mtu 65535) }
        ensures same { (self.new.addresses ≡ self.old.addresses) × (self.new.now ≡ self.old.now)
            × (self.new.checksums ≡ self.old.checksums) }
    {
        self.mtu = mtu.min(65535).max(68);
    }

    #[inline(always)]
    pub(crate) fn has_ip_addr(&self, addr: &IpAddress) -> bool
        ensures { result ≡ list_any (λ c. ⟦<IpAddress as PartialEq>⟧.eq c.address addr.now)
            self.entry.now.addresses.items }
    {
        has_address(&self.addresses, addr)
    }

    pub(crate) fn source(&self, dst: &IpAddress) -> Option<IpAddress>
        ensures value { result ≡ source_of self.entry.now.addresses.items dst.now }
        ensures version { ForSome result (λ s. SameVersion s dst.now) }
    {
        self.chosen(dst)
    }

    fn chosen(&self, dst: &IpAddress) -> Option<IpAddress>
        ensures { result ≡ source_of self.entry.now.addresses.items dst.now }
    {
        match self.network_of(dst) {
            Some(own) => Some(own),
            None => self.first_of_version(dst),
        }
    }

    fn network_of(&self, dst: &IpAddress) -> Option<IpAddress>
        ensures { result ≡ option_map (λ c. c.address) (find (λ c. covers c dst.now) self.entry.now.addresses.items) }
    {
        let found = self.addresses.iter().find(|c: &&IpCidr| c.contains(dst))?;
        Some(found.address)
    }

    fn first_of_version(&self, dst: &IpAddress) -> Option<IpAddress>
        ensures { result ≡ option_map (λ c. c.address) (find (λ c. same_version c.address dst.now)
            self.entry.now.addresses.items) }
    {
        let found = self
            .addresses
            .iter()
            .find(|c: &&IpCidr| c.address.version() == dst.version())?;
        Some(found.address)
    }

    #[inline(always)]
    pub(crate) fn is_broadcast(&self, addr: &IpAddress) -> bool
        ensures { result ≡ is_broadcast self.entry.now.addresses.items addr.now }
    {
        is_limited_broadcast(addr) || self.is_directed_broadcast(addr)
    }

    #[inline(always)]
    fn is_directed_broadcast(&self, addr: &IpAddress) -> bool
        ensures { result ≡ list_any (λ c. is_directed c addr.now) self.entry.now.addresses.items }
    {
        has_directed(&self.addresses, addr)
    }
}

// A loop of its own takes the place of the library's `any`, which is called.
#[inline(always)]
fn has_address(addresses: &[IpCidr], addr: &IpAddress) -> bool
    ensures { result ≡ list_any (λ c. ⟦<IpAddress as PartialEq>⟧.eq c.address addr.now) addresses.now }
{
    for i in 0..addresses.len() {
        if is_same_address(&addresses[i].address, addr) {
            return true;
        }
    }
    false
}

#[inline(always)]
fn has_directed(addresses: &[IpCidr], addr: &IpAddress) -> bool
    ensures { result ≡ list_any (λ c. is_directed c addr.now) addresses.now }
{
    for i in 0..addresses.len() {
        if addresses[i].is_broadcast(addr) {
            return true;
        }
    }
    false
}

// The same as `==`, without a call, as each packet has its addresses compared.
#[inline(always)]
fn is_same_address(a: &IpAddress, b: &IpAddress) -> bool
    ensures { result ≡ ⟦<IpAddress as PartialEq>⟧.eq a.now b.now }
{
    match (a, b) {
        (IpAddress::Ipv4(a), IpAddress::Ipv4(b)) => are_same_octets(&a.0, &b.0),
        (IpAddress::Ipv6(a), IpAddress::Ipv6(b)) => *a == *b,
        _ => false,
    }
}

// The same as `==`, as numbers: the compiler compares single bytes else.
#[inline(always)]
fn are_same_octets(a: &[u8; 4], b: &[u8; 4]) -> bool
    ensures { result ≡ bytes_eq a.now b.now }
{
    let _numbers = (be32_at(a, 0), be32_at(b, 0)); // for their bytes' range
    u32::from_be_bytes(*a) == u32::from_be_bytes(*b)
}

// No moment is further from zero, in microseconds: some 36,000 years.
const FARTHEST: i64 = 1 << 60;

fn lawful(now: Instant) -> Instant
    ensures value { result.micros ≡ lawful_micros now.micros }
    ensures lawful { IsMoment result.micros }
{
    let micros = if now.micros < -FARTHEST {
        -FARTHEST
    } else if FARTHEST < now.micros {
        FARTHEST
    } else {
        now.micros
    };
    Instant { micros }
}
