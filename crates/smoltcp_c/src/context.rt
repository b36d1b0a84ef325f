//! The context of one call.
ghost use Rattle.std.specs.Prelude.{◌≡◌, ◌<◌, ◌^◌, is_some};
ghost use Rattle.std.specs.Option.{ForSome};
ghost use Rattle.sock_core.specs.Bounds.{IsMoment, IsMtu};
ghost use Rattle.smoltcp_c.specs.Context.{is_context, facts_in, own_v4, own_v6};

use ip_wire::{ChecksumCapabilities, IpAddress, Ipv4Address, Ipv6Address};
use net_base::time::Instant;
use sock_core::Context;

// In microseconds: moments lie within this of zero.
const FAR: i64 = 1 << 61;

const LEAST_MTU: u32 = 68;

const LARGEST_MTU: u32 = 65535;

/// What a call is told of the interface.
#[repr(C)]
#[derive(Clone, Copy)]
pub struct Cx {
    /// The moment, in microseconds, within 2^61 of zero.
    pub now: i64,
    /// A random word.
    pub word: u32,
    /// The value of the timestamps' clock (RFC 7323).
    pub tsval: u32,
    /// The largest IP packet, from 68 to 65535 bytes; over IPv6 less than 576 counts as that.
    pub ip_mtu: u32,
    /// The interface's IPv4 address; all zeros where it has none.
    pub v4: [u8; 4],
    /// The interface's IPv6 address; all zeros where it has none.
    pub v6: [u8; 16],
}

/// A context of C whose time, MTU and random number are within their ranges.
#[derive(Clone, Copy)]
pub struct Moment {
    pub cx: Cx,
    pub ghost moment: { IsMoment cx.now },
    pub ghost mtu: { IsMtu cx.ip_mtu },
    pub ghost fits: { cx.word < 2 ^ 32 },
}

/// None where the moment or the MTU is out of range.
pub fn moment_in(cx: &Cx) -> Option<Moment>
    ensures range { is_some result ≡ is_context cx.entry.now }
    ensures value { ForSome result (λ m. m.cx ≡ cx.entry.now) }
{
    let cx = *cx;
    if cx.now < -FAR || FAR < cx.now || cx.ip_mtu < LEAST_MTU || LARGEST_MTU < cx.ip_mtu {
        return None;
    }
    Some(Moment { cx })
}

/// Whether the moment and the MTU are within their ranges.
pub fn is_in_context(cx: &Cx) -> bool
    ensures { result ≡ is_context cx.entry.now }
{
    moment_in(cx).is_some()
}

// The context of a call, within its ranges; where it is out of them, the call ends with `ERROR_CONTEXT`.
macro_rules! in_context {
    ($cx:ident) => {
        match $crate::context::moment_in($cx) {
            Some(moment) => moment,
            None => return $crate::answers::ERROR_CONTEXT,
        }
    };
}

pub(crate) use in_context;

// The address of version 4, where it was set.
fn own_v4(cx: &Cx) -> Option<Ipv4Address>
    ensures { result ≡ own_v4 cx.entry.now }
{
    let own = Ipv4Address(cx.v4);
    if own.is_unspecified() {
        return None;
    }
    Some(own)
}

// The address of version 6, where it was set.
fn own_v6(cx: &Cx) -> Option<Ipv6Address>
    ensures { result ≡ own_v6 cx.entry.now }
{
    let own = Ipv6Address(cx.v6);
    if own.is_unspecified() {
        return None;
    }
    Some(own)
}

impl Context for Moment {
    ghost facts = { λ m. facts_in m.cx };

    ghost word_at = { λ m _. m.cx.word };

    fn now(&self) -> Instant {
        Instant {
            micros: self.cx.now,
        }
    }

    fn has_ip_addr(&self, addr: IpAddress) -> bool {
        match addr {
            IpAddress::Ipv4(addr) => addr == Ipv4Address(self.cx.v4) && !addr.is_unspecified(),
            IpAddress::Ipv6(addr) => addr == Ipv6Address(self.cx.v6) && !addr.is_unspecified(),
        }
    }

    fn get_source_address(&self, dst: &IpAddress) -> Option<IpAddress> {
        match dst {
            IpAddress::Ipv4(_) => own_v4(&self.cx).map(IpAddress::Ipv4),
            IpAddress::Ipv6(_) => own_v6(&self.cx).map(IpAddress::Ipv6),
        }
    }

    fn get_source_address_ipv4(&self, _dst: &Ipv4Address) -> Option<Ipv4Address> {
        Some(Ipv4Address(self.cx.v4))
    }

    fn get_source_address_ipv6(&self, _dst: &Ipv6Address) -> Ipv6Address {
        Ipv6Address(self.cx.v6)
    }

    fn is_broadcast(&self, _addr: &IpAddress) -> bool {
        false
    }

    fn ip_mtu(&self) -> usize {
        self.cx.ip_mtu as usize
    }

    fn checksum_caps(&self) -> ChecksumCapabilities {
        ChecksumCapabilities::default()
    }

    fn rand_u32(&mut self) -> u32 {
        self.cx.word
    }
}
