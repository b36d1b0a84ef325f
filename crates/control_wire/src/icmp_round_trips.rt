//! Laws: ICMP messages that are written are read again.
ghost use Rattle.std.specs.Prelude.{◌≡◌, Bool, Some, true};
ghost use Rattle.ip_wire.specs.Checksum.{is_sent};
ghost use Rattle.ip_wire.specs.Octets.{IsOctets};
ghost use Rattle.ip_wire.specs.declared.address.Ipv6Address.{Ipv6Address};
ghost use Rattle.ip_wire.specs.declared.checksum.ChecksumCapabilities.{ChecksumCapabilities};
ghost use Rattle.ip_wire.specs.declared.repr.Ipv4Repr.{Ipv4Repr};
ghost use Rattle.ip_wire.specs.declared.repr.Ipv6Repr.{Ipv6Repr};
ghost use Rattle.control_wire.specs.Icmp.{Message, icmpv4_octets, icmpv4_parsed, icmpv6_octets, icmpv6_parsed};
ghost use Rattle.control_wire.specs.IcmpRoundTrip.{IsV4, IsV6};

use ip_wire::sum::{checksums_verify, sums_are_words};

/// A message over IPv4 that `emit` wrote parses to itself, where a checksum that is tested was also sent.
pub fn icmpv4_reads_back()
    ensures { (caps : ChecksumCapabilities) (tested : Bool) (m : Message Ipv4Repr) → IsV4 m
        → (tested ≡ true → is_sent caps.icmpv4 ≡ true) → icmpv4_parsed tested (icmpv4_octets caps m) ≡ Some m }
{
    checksums_verify();
}

/// A message over IPv6 is read back as it was written, between the same two addresses.
pub fn icmpv6_reads_back()
    ensures { (caps : ChecksumCapabilities) (tested : Bool) (src dst : Ipv6Address) (m : Message Ipv6Repr) → IsV6 m
        → IsOctets src.0 → IsOctets dst.0 → (tested ≡ true → is_sent caps.icmpv6 ≡ true)
        → icmpv6_parsed tested src dst (icmpv6_octets caps src dst m) ≡ Some m }
{
    checksums_verify();
    sums_are_words();
}
