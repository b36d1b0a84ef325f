//! Addresses and endpoints as numbers.
ghost use Rattle.std.specs.Prelude.{◌≡◌, ◌==◌, false};
ghost use Rattle.smoltcp_c.specs.Numbers.{address_in, address_or_none_told, address_told, endpoint_in, endpoint_told};
ghost use Rattle.smoltcp_c.specs.Numbers.{listen_in, listen_told};

use ip_wire::{IpAddress, IpEndpoint, IpListenEndpoint, Ipv4Address, Ipv6Address};

/// An address: none where `version` is 0, `v4` where it is 4, else `v6`.
#[repr(C)]
#[derive(Clone, Copy, Default)]
pub struct Address {
    pub version: u8,
    pub v4: [u8; 4],
    pub v6: [u8; 16],
}

/// An address and a port.
#[repr(C)]
#[derive(Clone, Copy, Default)]
pub struct Endpoint {
    pub addr: Address,
    pub port: u16,
}

const NO_ADDRESS: Address = Address {
    version: 0,
    v4: [0; 4],
    v6: [0; 16],
};

/// The address that the numbers stand for: of IPv4 where the version is 4, else of IPv6.
pub fn address_in(n: &Address) -> IpAddress
    ensures { result ≡ address_in n.now }
{
    if n.version == 4 {
        return IpAddress::Ipv4(Ipv4Address(n.v4));
    }
    IpAddress::Ipv6(Ipv6Address(n.v6))
}

/// The numbers for an address, with the version 4 or 6. The bytes of the other version are 0.
pub fn address_of(address: IpAddress) -> Address
    ensures value { address_in result ≡ address }
    ensures told { result ≡ address_told address }
    ensures some { (result.version == 0) ≡ false }
{
    match address {
        IpAddress::Ipv4(address) => {
            let v4 = address.0;
            Address {
                version: 4,
                v4,
                v6: [0; 16],
            }
        }
        IpAddress::Ipv6(address) => {
            let v6 = address.0;
            Address {
                version: 6,
                v4: [0; 4],
                v6,
            }
        }
    }
}

/// The numbers for an address, with the version 0 where there is none.
pub fn address_or_none_of(address: Option<IpAddress>) -> Address
    ensures { result ≡ address_or_none_told address }
{
    match address {
        None => NO_ADDRESS,
        Some(address) => address_of(address),
    }
}

/// The endpoint that the numbers stand for, of any version.
pub fn endpoint_in(n: &Endpoint) -> IpEndpoint
    ensures { result ≡ endpoint_in n.now }
{
    IpEndpoint {
        addr: address_in(&n.addr),
        port: n.port,
    }
}

/// The numbers for an endpoint.
pub fn endpoint_of(endpoint: IpEndpoint) -> Endpoint
    ensures value { endpoint_in result ≡ endpoint }
    ensures told { result ≡ endpoint_told endpoint }
{
    Endpoint {
        addr: address_of(endpoint.addr),
        port: endpoint.port,
    }
}

/// The endpoint that the numbers stand for, without an address where the version is 0.
pub fn listen_in(n: &Endpoint) -> IpListenEndpoint
    ensures { result ≡ listen_in n.now }
{
    if n.addr.version == 0 {
        return IpListenEndpoint {
            addr: None,
            port: n.port,
        };
    }
    IpListenEndpoint {
        addr: Some(address_in(&n.addr)),
        port: n.port,
    }
}

/// The numbers for an endpoint, with the version 0 where it has no address.
pub fn listen_of(endpoint: IpListenEndpoint) -> Endpoint
    ensures value { listen_in result ≡ endpoint }
    ensures told { result ≡ listen_told endpoint }
{
    match endpoint.addr {
        None => Endpoint {
            addr: NO_ADDRESS,
            port: endpoint.port,
        },
        Some(address) => Endpoint {
            addr: address_of(address),
            port: endpoint.port,
        },
    }
}

/// No address, and port 0.
pub const NO_ENDPOINT: Endpoint = Endpoint {
    addr: NO_ADDRESS,
    port: 0,
};
