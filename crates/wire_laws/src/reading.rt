//! What is read of a packet may come to a socket.
ghost use Rattle.std.specs.Prelude.{◌≡◌, IfOk};
ghost use Rattle.control_wire.specs.Segment.{segment_of};
ghost use Rattle.segment_wire.specs.Packet.{tcp_packet_of, tcp_packet_parsed};
ghost use Rattle.segment_wire.specs.Tcp.{read_as};
ghost use Rattle.wire_laws.specs.Survival.{MayCome};

use control_wire::TcpRepr;
use ip_wire::{ChecksumCapabilities, Error, IpRepr};
use segment_wire::packet::parse_tcp;

/// Whatever `parse_tcp` reads, of any bytes whatever, may be handed to a socket that accepts it, and answered by
/// `reply` and `rst_reply`: its ports are not 0, and its payload has at most 65535 bytes.
pub fn what_is_read_may_come<'a>(
    packet: &'a [u8],
    caps: &ChecksumCapabilities,
) -> Result<(IpRepr, TcpRepr<'a>), Error>
    ensures call { read_as tcp_packet_of result ≡ tcp_packet_parsed caps.now packet.now }
    ensures may_come { IfOk result (λ p. MayCome (segment_of p.1)) }
{
    parse_tcp(packet, caps)
}
