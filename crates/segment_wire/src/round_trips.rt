//! Laws: segments, datagrams and packets that are written are read again.
ghost use Rattle.std.specs.Prelude.{◌≡◌, ◌+◌, ◌++◌, Bool, List, ℕ, Some, length, true};
ghost use Rattle.ip_wire.specs.Address.{octets_of};
ghost use Rattle.ip_wire.specs.IpHeader.{next_header_of, payload_len_of};
ghost use Rattle.ip_wire.specs.Octets.{IsOctets};
ghost use Rattle.ip_wire.specs.declared.address.IpAddress.{IpAddress};
ghost use Rattle.ip_wire.specs.declared.checksum.ChecksumCapabilities.{ChecksumCapabilities};
ghost use Rattle.ip_wire.specs.declared.protocol.IpProtocol.TheVariants.{Tcp, Udp};
ghost use Rattle.ip_wire.specs.declared.repr.IpRepr.{IpRepr};
ghost use Rattle.control_wire.specs.Segment.{Segment, segment_header_len};
ghost use Rattle.control_wire.specs.declared.udp.UdpRepr.{UdpRepr};
ghost use Rattle.segment_wire.specs.Packet.{tcp_packet, tcp_packet_parsed, udp_packet, udp_packet_parsed};
ghost use Rattle.segment_wire.specs.RoundTrip.{IsDatagram, IsHeader, IsWritable, TestsWhatIsSent};
ghost use Rattle.segment_wire.specs.Tcp.{tcp_octets, tcp_parsed};
ghost use Rattle.segment_wire.specs.Udp.{udp_octets, udp_parsed};

use ip_wire::round_trips::{ipv4_reads_back, ipv6_reads_back};
use ip_wire::sum::{checksums_verify, ones_verify_for_zero, sums_are_words};

/// A segment that `emit` wrote parses to itself, where a checksum that is tested was also sent.
pub fn tcp_reads_back()
    ensures { (sent tested : Bool) (src dst : IpAddress) (s : Segment) → IsWritable s → IsOctets (octets_of src)
        → IsOctets (octets_of dst) → (tested ≡ true → sent ≡ true)
        → tcp_parsed tested src dst (tcp_octets sent src dst s) ≡ Some s }
{
    checksums_verify();
    sums_are_words();
}

/// A datagram that `emit` wrote parses to itself, with its payload, where a checksum that is tested was also
/// sent.
pub fn udp_reads_back()
    ensures { (sent tested : Bool) (src dst : IpAddress) (u : UdpRepr) (payload : List ℕ) → IsDatagram u payload
        → IsOctets (octets_of src) → IsOctets (octets_of dst) → (tested ≡ true → sent ≡ true)
        → udp_parsed tested src dst (udp_octets sent src dst u payload)
        ≡ Some (record { header = u; payload = payload }) }
{
    checksums_verify();
    ones_verify_for_zero();
    sums_are_words();
}

/// A packet that `emit_tcp` or `emit_udp` wrote parses to itself, where each checksum that is tested was also sent, and
/// whatever stands behind it, as the padding of a short Ethernet frame.
pub fn packets_read_back()
    ensures tcp { (sender receiver : ChecksumCapabilities) (ip : IpRepr) (s : Segment) (rest : List ℕ) → IsHeader ip
        → next_header_of ip ≡ Tcp → payload_len_of ip ≡ segment_header_len s + length s.payload → IsWritable s
        → TestsWhatIsSent sender receiver
        → tcp_packet_parsed receiver (tcp_packet sender ip s ++ rest) ≡ Some (record { ip = ip; segment = s }) }
    ensures udp { (sender receiver : ChecksumCapabilities) (ip : IpRepr) (u : UdpRepr) (payload rest : List ℕ)
        → IsHeader ip → next_header_of ip ≡ Udp → payload_len_of ip ≡ 8 + length payload → IsDatagram u payload
        → TestsWhatIsSent sender receiver
        → udp_packet_parsed receiver (udp_packet sender ip u payload ++ rest)
        ≡ Some (record { ip = ip; datagram = record { header = u; payload = payload } }) }
{
    checksums_verify();
    ones_verify_for_zero();
    sums_are_words();
    ipv4_reads_back();
    ipv6_reads_back();
}
