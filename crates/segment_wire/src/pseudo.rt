//! The sum of the pseudo header of a segment that stands behind an IP header.
ghost use Rattle.std.specs.Prelude.{◌≡◌, ◌<◌, ◌^◌};
ghost use Rattle.ip_wire.specs.IpHeader.{dst_addr_of, src_addr_of};
ghost use Rattle.ip_wire.specs.Sum.{pseudo_sum, swapped_word};
ghost use Rattle.ip_wire.specs.declared.address.IpAddress.TheVariants.{Ipv4};

use ip_wire::sum::{pseudo_sum, swapped_octets};
use ip_wire::{IpAddress, IpRepr, Ipv4Repr};

/// What comes to `pseudo_sum` between the addresses of the header, of a segment of so many bytes: numbers, and others
/// with the low byte first. The addresses are read where they stand, and the sum is folded with the segment's alone.
#[inline(always)]
#[tactic(auto, using(crate::proofs::PseudoSums::alone))]
pub(crate) fn pseudo_parts(ip: &IpRepr, length: usize) -> (u64, u64)
    ensures value { swapped_word result.0 result.1 ≡ pseudo_sum (src_addr_of ip.now) (dst_addr_of ip.now) 6 length }
    ensures start { result.0 < 2 ^ 33 }
    ensures swapped { result.1 < 2 ^ 33 }
{
    match ip {
        IpRepr::Ipv4(header) => pseudo_parts_v4(header, length),
        IpRepr::Ipv6(header) => {
            let sum = pseudo_sum(
                &IpAddress::Ipv6(header.src_addr),
                &IpAddress::Ipv6(header.dst_addr),
                6,
                length,
            );
            (sum as u64, 0)
        }
    }
}

#[inline(always)]
#[tactic(auto, using(crate::proofs::PseudoSums::of_v4))]
fn pseudo_parts_v4(header: &Ipv4Repr, length: usize) -> (u64, u64)
    ensures value { swapped_word result.0 result.1
        ≡ pseudo_sum (Ipv4 header.now.src_addr) (Ipv4 header.now.dst_addr) 6 length }
    ensures start { result.0 < 2 ^ 33 }
    ensures swapped { result.1 < 2 ^ 33 }
{
    let addresses = swapped_octets(&header.src_addr.0) + swapped_octets(&header.dst_addr.0);
    (length as u64 % 0x1_0000_0000 + 6, addresses)
}
