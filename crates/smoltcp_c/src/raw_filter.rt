//! Which packets a raw socket takes, as numbers.
ghost use Rattle.std.specs.Prelude.{◌≡◌, ◌==◌, None, Some};
ghost use Rattle.smoltcp_c.specs.Raw.{protocol_in, protocol_told, version_in, version_told};

use ip_wire::{IpProtocol, IpVersion};

/// Which packets a raw socket takes.
#[repr(C)]
#[derive(Clone, Copy)]
pub struct RawFilter {
    /// The version of IP: 4 or 6, or 0 for both.
    pub version: u8,
    /// 0 for the protocol below alone, another number for any.
    pub any_protocol: u8,
    /// The number of the protocol.
    pub protocol: u8,
}

/// The version of IP, or none for both; None where the number is no version.
#[tactic(auto, unfolding(crate::specs::Raw::version_in))]
pub fn version_in(version: u8) -> Option<Option<IpVersion>>
    ensures { result ≡ version_in version }
{
    if version == 0 {
        return Some(None);
    }
    if version == 4 {
        return Some(Some(IpVersion::Ipv4));
    }
    if version == 6 {
        return Some(Some(IpVersion::Ipv6));
    }
    None
}

/// The protocol, or none for any.
pub fn protocol_in(filter: &RawFilter) -> Option<IpProtocol>
    ensures { result ≡ protocol_in filter.now }
{
    if filter.any_protocol != 0 {
        return None;
    }
    Some(IpProtocol::from(filter.protocol))
}

/// 4 or 6, or 0 for both.
pub fn version_of(version: Option<IpVersion>) -> i64
    ensures { result ≡ version_told version }
{
    match version {
        None => 0,
        Some(IpVersion::Ipv4) => 4,
        Some(IpVersion::Ipv6) => 6,
    }
}

/// The number of the protocol, or -1 for any.
pub fn protocol_of(protocol: Option<IpProtocol>) -> i64
    ensures { result ≡ protocol_told protocol }
{
    match protocol {
        None => -1,
        Some(protocol) => u8::from(protocol) as i64,
    }
}
