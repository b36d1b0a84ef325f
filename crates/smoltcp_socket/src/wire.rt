//! What goes over the wire, as values: addresses, endpoints, headers, segments and messages.

pub use control_wire::{
    IcmpRepr, Icmpv4Repr, Icmpv6Repr, TcpControl, TcpRepr, TcpSeqNumber, TcpTimestampGenerator,
    TcpTimestampRepr, UdpRepr, tcp_source, udp_source,
};
pub use ip_wire::{
    Checksum, ChecksumCapabilities, Error, IpAddress, IpEndpoint, IpListenEndpoint, IpProtocol,
    IpRepr, IpVersion, Ipv4Address, Ipv4Packet, Ipv4Repr, Ipv6Address, Ipv6Packet, Ipv6Repr,
};
