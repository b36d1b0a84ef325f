//! Whether the ports of a packet are a socket's: a test of a few numbers before the packet is read and its checksum
//! worked out.
ghost use Rattle.std.specs.Prelude.{◌≡◌};
ghost use Rattle.smoltcp_c.specs.Ports.{has_ports, ports_by, start_of};
ghost use Rattle.smoltcp_c.specs.Tcp.{view};

use crate::clock::Clock;
use crate::handles::TcpHandle;
use ip_wire::octets::be16_at;
use ip_wire::{IpEndpoint, IpListenEndpoint, IpVersion};
use sock_tcp::Socket;

// Where what the packet carries begins.
fn start_of(packet: &[u8]) -> usize
    ensures { result ≡ start_of packet.now }
{
    match IpVersion::of_packet(packet) {
        Ok(IpVersion::Ipv4) => (packet[0] % 16) as usize * 4,
        Ok(IpVersion::Ipv6) => 40,
        Err(_) => 0,
    }
}

// Whether the ports are those of the two ends, or the destination's is that of the listener.
fn ports_by(
    local: Option<IpEndpoint>,
    remote: Option<IpEndpoint>,
    listener: IpListenEndpoint,
    src: usize,
    dst: usize,
) -> bool
    ensures { result ≡ ports_by local remote listener src dst }
{
    match (local, remote) {
        (Some(local), Some(remote)) => local.port as usize == dst && remote.port as usize == src,
        _ => listener.port as usize == dst,
    }
}

// Whether the packet has ports, and they are the socket's.
#[tactic(auto, unfolding(crate::specs::Ports::has_ports))]
fn are_ports(socket: &Socket<'_, Clock>, packet: &[u8]) -> bool
    ensures { result ≡ has_ports socket.now.control_block packet.now }
{
    let start = start_of(packet);
    start + 4 <= packet.len()
        && ports_by(
            socket.local_endpoint(),
            socket.remote_endpoint(),
            socket.listen_endpoint(),
            be16_at(packet, start),
            be16_at(packet, start + 2),
        )
}

/// Whether the packet has ports, and they are the socket's. If not, it is not for this socket.
pub fn has_ports(h: &mut TcpHandle, packet: &[u8]) -> bool
    ensures value { result ≡ has_ports (view h.old) packet.now }
    ensures same { h.new ≡ h.old }
{
    are_ports(h.socket(), packet)
}
