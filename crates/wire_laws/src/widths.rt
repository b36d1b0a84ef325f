//! What the types of a segment and of a header say of their numbers. No function does anything.
ghost use Rattle.std.specs.Prelude.{◌≡◌, ◌<◌, ◌^◌};
ghost use Rattle.ip_wire.specs.Octets.{IsOctets};
ghost use Rattle.control_wire.specs.Segment.{segment_of};
ghost use Rattle.segment_wire.specs.RoundTrip.{NumberFits, SizeFits, StampFits};
ghost use Rattle.wire_laws.specs.Fields.{AddressesFit, HasWidths, HeaderFits, RangeFits, RangesFit};

use control_wire::{TcpRepr, TcpSeqNumber, TcpTimestampRepr};
use ip_wire::{IpRepr, Ipv4Repr, Ipv6Repr};

fn octets(bytes: &[u8])
    ensures { IsOctets bytes.now }
{}

fn number(number: Option<TcpSeqNumber>)
    ensures { NumberFits number }
{
    if let Some(number) = number {
        number.in_range();
    }
}

fn size(size: Option<u16>)
    ensures { SizeFits size }
{
    if let Some(size) = size {
        let _size = size;
    }
}

fn stamp(stamp: Option<TcpTimestampRepr>)
    ensures { StampFits stamp }
{
    if let Some(stamp) = stamp {
        let _stamp = stamp;
    }
}

fn range(range: Option<(u32, u32)>)
    ensures { RangeFits range }
{
    if let Some(range) = range {
        let (_begin, _end) = range;
    }
}

#[tactic(auto, using(crate::proofs::Fields::ranges_fit))]
fn ranges(ranges: &[Option<(u32, u32)>; 3])
    ensures { RangesFit ranges.now }
{
    range(ranges[0]);
    range(ranges[1]);
    range(ranges[2]);
}

fn ipv4(header: &Ipv4Repr)
    ensures { AddressesFit 4 header.now.src_addr.0 header.now.dst_addr.0 header.now.hop_limit }
{
    octets(&header.src_addr.0);
    octets(&header.dst_addr.0);
    let _hops = header.hop_limit;
}

fn ipv6(header: &Ipv6Repr)
    ensures { AddressesFit 16 header.now.src_addr.0 header.now.dst_addr.0 header.now.hop_limit }
{
    octets(&header.src_addr.0);
    octets(&header.dst_addr.0);
    let _hops = header.hop_limit;
}

fn header(ip_repr: &IpRepr)
    ensures { HeaderFits ip_repr.now }
{
    match ip_repr {
        IpRepr::Ipv4(header) => ipv4(header),
        IpRepr::Ipv6(header) => ipv6(header),
    }
}

/// Says that the numbers of a header and of a segment have the bits of their types.
pub fn has_widths(ip_repr: &IpRepr, repr: &TcpRepr<'_>)
    ensures { HasWidths ip_repr.now (segment_of repr.now) }
{
    header(ip_repr);
    number(repr.ack_number);
    size(repr.max_seg_size);
    stamp(repr.timestamp);
    ranges(&repr.sack_ranges);
    octets(repr.payload);
    repr.seq_number.in_range();
    let (_src, _dst, _window) = (repr.src_port, repr.dst_port, repr.window_len);
}
