//! Replies as packets in a buffer.
ghost use Rattle.std.specs.Prelude.{◌≡◌, ◌≤◌, ◌++◌, length, [], option_map};
ghost use Rattle.std.specs.Option.{ForSome};
ghost use Rattle.ip_wire.specs.Checksum.{is_sent};
ghost use Rattle.ip_wire.specs.Packet.{header_octets};
ghost use Rattle.control_wire.specs.Fits.{FitsPacket};
ghost use Rattle.control_wire.specs.Segment.{segment_header_len, segment_of};
ghost use Rattle.sock_tcp.specs.Process.{reply_of};
ghost use Rattle.net_host.specs.Wire.{CountsDatagram, IsCounted, packet_len, raw_len, reply_len, with_datagram};
ghost use Rattle.net_host.specs.Wire.{with_raw, with_reply, with_segment};

use segment_wire::packet::{emit_tcp_with, emit_udp};
use smoltcp_socket::wire::{ChecksumCapabilities, IpRepr, TcpRepr, UdpRepr};
use sock_tcp::Reply;

/// An IPv6 header and the longest TCP header, in bytes: no reply of a TCP socket is longer.
pub(crate) const LONGEST_REPLY: usize = 100;

/// Writes a packet at the beginning of `out`, and answers its length.
pub(crate) fn put_segment(
    ip: &IpRepr,
    repr: &TcpRepr<'_>,
    out: &mut [u8],
    caps: &ChecksumCapabilities,
) -> usize
    requires counted { IsCounted ip.now (segment_of repr.now) }
    requires room { packet_len ip.now ≤ length out.old }
    ensures within { result ≤ length out.old }
    ensures len { result ≡ packet_len ip.now }
    ensures bytes { out.new ≡ with_segment caps.now ip.now (segment_of repr.now) out.old }
{
    put_segment_with(ip, repr, repr.header_len(), out, caps)
}

/// Writes a segment where the number of bytes of its header is known. Not inlined, as two ways lead here.
#[inline(never)]
pub(crate) fn put_segment_with(
    ip: &IpRepr,
    repr: &TcpRepr<'_>,
    header_len: usize,
    out: &mut [u8],
    caps: &ChecksumCapabilities,
) -> usize
    requires header { header_len ≡ segment_header_len (segment_of repr.now) }
    requires counted { IsCounted ip.now (segment_of repr.now) }
    requires room { packet_len ip.now ≤ length out.old }
    ensures within { result ≤ length out.old }
    ensures len { result ≡ packet_len ip.now }
    ensures bytes { out.new ≡ with_segment caps.now ip.now (segment_of repr.now) out.old }
{
    let whole = ip.header_len() + ip.payload_len();
    emit_tcp_with(ip, repr, header_len, &mut out[..whole], caps);
    whole
}

/// Writes a packet with this datagram at the beginning of `out`, and answers its length.
pub(crate) fn put_datagram(
    ip: &IpRepr,
    repr: &UdpRepr,
    payload: &[u8],
    out: &mut [u8],
    caps: &ChecksumCapabilities,
) -> usize
    requires counted { CountsDatagram ip.now payload.now }
    requires room { packet_len ip.now ≤ length out.old }
    ensures within { result ≤ length out.old }
    ensures len { result ≡ packet_len ip.now }
    ensures bytes { out.new ≡ with_datagram caps.now ip.now repr.now payload.now out.old }
{
    let whole = ip.header_len() + ip.payload_len();
    emit_udp(ip, repr, payload, &mut out[..whole], caps);
    whole
}

/// Writes a packet with this payload at the beginning of `out`, and answers its length.
pub(crate) fn put_raw(
    ip: &IpRepr,
    payload: &[u8],
    out: &mut [u8],
    caps: &ChecksumCapabilities,
) -> usize
    requires room { raw_len ip.now payload.now ≤ length out.old }
    ensures within { result ≤ length out.old }
    ensures len { result ≡ raw_len ip.now payload.now }
    ensures bytes { out.new ≡ with_raw caps.now ip.now payload.now out.old }
{
    let whole = ip.header_len() + payload.len();
    write_raw(ip, payload, &mut out[..whole], caps);
    whole
}

fn write_raw(ip: &IpRepr, payload: &[u8], out: &mut [u8], caps: &ChecksumCapabilities)
    requires { length out.old ≡ raw_len ip.now payload.now }
    ensures { out.new ≡ header_octets (is_sent caps.now.ipv4) ip.now ++ payload.now }
{
    ip.emit(out, caps);
    let start = ip.header_len();
    out[start..].copy_from_slice(payload);
}

/// Writes the reply, if any, at the beginning of `out`, and answers its length, or 0.
pub(crate) fn put_reply(reply: &Option<Reply>, out: &mut [u8], caps: &ChecksumCapabilities) -> usize
    requires bare { ForSome reply.now (λ r. r.1.payload.now ≡ []) }
    requires fits { ForSome (option_map reply_of reply.now) (λ r. FitsPacket r.0 r.1) }
    requires room { 100 ≤ length out.old }
    ensures within { result ≤ length out.old }
    ensures len { result ≡ reply_len (option_map reply_of reply.now) }
    ensures bytes { out.new ≡ with_reply caps.now (option_map reply_of reply.now) out.old }
{
    match reply {
        None => 0,
        Some((ip, repr)) => put_segment(ip, repr, out, caps),
    }
}
