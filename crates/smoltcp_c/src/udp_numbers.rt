//! Where a datagram came from or goes to, as numbers.
ghost use Rattle.std.specs.Prelude.{◌≡◌};
ghost use Rattle.smoltcp_c.specs.Udp.{address_or_none, metadata_in, metadata_told};

use crate::endpoints::{
    Address, Endpoint, address_in, address_or_none_of, endpoint_in, endpoint_of,
};
use ip_wire::IpAddress;
use sock_dgram::udp::UdpMetadata;

/// Where a datagram came from or goes to, and the own address.
#[repr(C)]
#[derive(Clone, Copy)]
pub struct UdpNumbers {
    /// The other side.
    pub endpoint: Endpoint,
    /// Of a datagram that came, the address that it was sent to. Of one to send, the address to send it from; where
    /// there is none, the bound address, else the context's.
    pub local_address: Address,
}

fn address_or_none(n: &Address) -> Option<IpAddress>
    ensures { result ≡ address_or_none n.now }
{
    if n.version == 0 {
        return None;
    }
    Some(address_in(n))
}

/// What the numbers stand for.
pub fn metadata_in(n: &UdpNumbers) -> UdpMetadata
    ensures { result ≡ metadata_in n.now }
{
    UdpMetadata {
        endpoint: endpoint_in(&n.endpoint),
        local_address: address_or_none(&n.local_address),
    }
}

/// The numbers for it.
pub fn numbers_of(meta: &UdpMetadata) -> UdpNumbers
    ensures { result ≡ metadata_told meta.now }
{
    UdpNumbers {
        endpoint: endpoint_of(meta.endpoint),
        local_address: address_or_none_of(meta.local_address),
    }
}
