//! Addresses with ports.
ghost use Rattle.std.specs.Prelude.{◌≡◌, ◌+◌, ◌<◌, ◌≤◌, [], ◌∷◌, Some, None, length};
ghost use Rattle.std.specs.Char.{digit_char};
ghost use Rattle.std.specs.Fmt.{WritesOnOk};
ghost use Rattle.ip_wire.specs.Endpoint.{addr_text, endpoint_text, four_groups, group_text, ipv4_text, ipv6_text};
ghost use Rattle.ip_wire.specs.Endpoint.{two_groups};

use crate::address::{IpAddress, Ipv4Address, Ipv6Address};
use std::fmt;

/// An address and a port.
#[derive(Debug, Clone, Copy, PartialEq, Eq, PartialOrd, Ord)]
pub struct IpEndpoint {
    /// The address.
    pub addr: IpAddress,
    /// The port, or 0 for none.
    pub port: u16,
}

/// A port, and an address where only segments to that one are wanted.
#[derive(Debug, Clone, Copy, PartialEq, Eq, PartialOrd, Ord)]
pub struct IpListenEndpoint {
    /// The address, or None for any.
    pub addr: Option<IpAddress>,
    /// The port, or 0 for none.
    pub port: u16,
}

impl IpEndpoint {
    /// This port at this address.
    pub const fn new(addr: IpAddress, port: u16) -> IpEndpoint
        ensures addr { result.addr ≡ addr }
        ensures port { result.port ≡ port }
    {
        IpEndpoint { addr, port }
    }
}

impl Default for IpListenEndpoint {
    ghost is_default = { λ e. e ≡ record { addr = None; port = 0 } };

    /// No address, and port 0.
    fn default() -> IpListenEndpoint {
        IpListenEndpoint {
            addr: None,
            port: 0,
        }
    }
}

impl From<IpEndpoint> for IpListenEndpoint {
    ghost from_gives = { λ e l. l ≡ record { addr = Some e.addr; port = e.port } };

    fn from(endpoint: IpEndpoint) -> IpListenEndpoint {
        IpListenEndpoint {
            addr: Some(endpoint.addr),
            port: endpoint.port,
        }
    }
}

/// `10.0.0.1:80`, and for IPv6 `[..]:80` with eight groups of four lower-case hexadecimal digits.
impl fmt::Display for IpEndpoint {
    ghost output = { λ e. Some (endpoint_text e) };

    fn fmt<W: fmt::Write>(&self, f: &mut fmt::Formatter<W>) -> fmt::Result {
        address(f, &self.addr)?;
        let port = self.port;
        write!(f, ":{port}")
    }
}

fn address<W: fmt::Write>(f: &mut fmt::Formatter<W>, addr: &IpAddress) -> fmt::Result
    ensures { WritesOnOk W.write_str_gives f.old result (addr_text addr.now) f.new }
{
    match addr {
        IpAddress::Ipv4(addr) => ipv4(f, addr),
        IpAddress::Ipv6(addr) => {
            f.write_str("[")?;
            ipv6(f, addr)?;
            f.write_str("]")
        }
    }
}

fn ipv4<W: fmt::Write>(f: &mut fmt::Formatter<W>, addr: &Ipv4Address) -> fmt::Result
    ensures { WritesOnOk W.write_str_gives f.old result (ipv4_text addr.now.0) f.new }
{
    let [a, b, c, d] = addr.0;
    write!(f, "{a}.{b}.{c}.{d}")
}

#[tactic(auto, unfolding(crate::specs::Endpoint::ipv6_text))]
fn ipv6<W: fmt::Write>(f: &mut fmt::Formatter<W>, addr: &Ipv6Address) -> fmt::Result
    ensures { WritesOnOk W.write_str_gives f.old result (ipv6_text addr.now.0) f.new }
{
    four_groups(f, &addr.0, 0)?;
    f.write_str(":")?;
    four_groups(f, &addr.0, 8)
}

// Four groups of two octets each.
#[tactic(auto, unfolding(crate::specs::Endpoint::four_groups))]
fn four_groups<W: fmt::Write>(f: &mut fmt::Formatter<W>, octets: &[u8], start: usize) -> fmt::Result
    requires { start + 8 ≤ length octets.now }
    ensures { WritesOnOk W.write_str_gives f.old result (four_groups octets.now start) f.new }
{
    two_groups(f, octets, start)?;
    f.write_str(":")?;
    two_groups(f, octets, start + 4)
}

// Two of them, with a colon between.
#[tactic(auto, unfolding(crate::specs::Endpoint::two_groups))]
fn two_groups<W: fmt::Write>(f: &mut fmt::Formatter<W>, octets: &[u8], start: usize) -> fmt::Result
    requires { start + 4 ≤ length octets.now }
    ensures { WritesOnOk W.write_str_gives f.old result (two_groups octets.now start) f.new }
{
    let first = Group(octets[start], octets[start + 1]);
    let second = Group(octets[start + 2], octets[start + 3]);
    write!(f, "{first}:{second}")
}

// Two octets, printed as four hexadecimal digits.
#[derive(Clone, Copy)]
struct Group(u8, u8);

#[tactic(auto, unfolding(crate::specs::Endpoint::group_text))]
impl fmt::Display for Group {
    ghost output = { λ g. Some (group_text g.0 g.1) };

    fn fmt<W: fmt::Write>(&self, f: &mut fmt::Formatter<W>) -> fmt::Result {
        digit(f, self.0 / 16)?;
        digit(f, self.0 % 16)?;
        digit(f, self.1 / 16)?;
        digit(f, self.1 % 16)
    }
}

// One hexadecimal digit.
fn digit<W: fmt::Write>(f: &mut fmt::Formatter<W>, d: u8) -> fmt::Result
    requires { d < 16 }
    ensures { WritesOnOk W.write_str_gives f.old result (digit_char d ∷ []) f.new }
{
    let code = if d < 10 { b'0' + d } else { b'a' + (d - 10) };
    f.write_char(char::from(code))
}
