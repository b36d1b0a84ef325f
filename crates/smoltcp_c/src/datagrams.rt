//! The calls of UDP, ICMP (RFC 792, RFC 4443) and raw sockets that take no context and no packet of the interface.
ghost use Rattle.std.specs.Prelude.{◌≡◌, ◌≤◌, ◌<◌, ◌^◌, [], pos, length, true, false, None, Option, Some, is_some};
ghost use Rattle.std.specs.Prelude.{IfOk};
ghost use Rattle.ip_wire.specs.declared.protocol.IpVersion.{IpVersion};
ghost use Rattle.net_base.specs.Packets.{Dequeues, first_packet, packets_with, skipped};
ghost use Rattle.sock_dgram.specs.Addressed.{after_bind};
ghost use Rattle.sock_dgram.specs.Datagrams.{copied, copy_answer, stored, with_metadata};
ghost use Rattle.sock_dgram.specs.Icmp.{after_send as after_send_icmp, bind_answer as answer_of_icmp};
ghost use Rattle.sock_dgram.specs.Icmp.{fresh as fresh_icmp, send_answer as send_answer_icmp};
ghost use Rattle.sock_dgram.specs.Raw.{fresh as fresh_raw, send_answer as send_answer_raw};
ghost use Rattle.sock_dgram.specs.Udp.{after_send as after_send_udp, bind_answer as answer_of_udp, closed};
ghost use Rattle.sock_dgram.specs.Udp.{fresh as fresh_udp, send_answer as send_answer_udp};
ghost use Rattle.smoltcp_c.specs.Answers.{bind_answer, copied_answer, datagram_answer, error_range, error_room};
ghost use Rattle.smoltcp_c.specs.Icmp.{address_written, icmp_endpoint_in, with_socket as with_icmp};
ghost use Rattle.smoltcp_c.specs.Numbers.{address_in, byte_or_none, listen_in, listen_told};
ghost use Rattle.smoltcp_c.specs.Raw.{packet_answer, protocol_in, version_in, with_socket as with_raw};
ghost use Rattle.smoltcp_c.specs.Udp.{is_packet, longest_payload, metadata_in, metadata_written};
ghost use Rattle.smoltcp_c.specs.Udp.{with_socket as with_udp};

use crate::answers::{ERROR_RANGE, ERROR_ROOM, OK, bind_answer, datagram_answer, refused_copy};
use crate::endpoints::{Address, Endpoint, address_in, address_of, listen_in, listen_of};
use crate::handles::{
    IcmpHandle, IcmpPlaceRoom, IcmpPlaces, IcmpRoom, RawHandle, RawPlaceRoom, RawPlaces, RawRoom,
    UdpHandle, UdpPlaceRoom, UdpPlaces, UdpRoom,
};
use crate::memory::Bytes;
use crate::raw_filter::{RawFilter, protocol_in, version_in};
use crate::settings::byte_or_none;
use crate::udp_numbers::{UdpNumbers, metadata_in, numbers_of};
use crate::wire::LONGEST_PACKET;
use ip_wire::IpAddress;
use sock_dgram::error::RecvError;
use sock_dgram::{icmp, raw, udp};

/// Makes a place of a queue in the room: nothing stands in it. Answers 0.
#[unsafe(no_mangle)]
pub extern "C" fn smoltcp_udp_place_nonnull(room: &mut UdpPlaceRoom) -> i64
    requires empty { room.old.made ≡ None }
    ensures answer { result ≡ pos 0 }
    ensures at { room.new.at ≡ room.old.at }
    ensures made { is_some room.new.made ≡ true }
{
    room.fill(udp::PacketMetadata::EMPTY);
    OK
}

/// Makes a socket that is not open in the room. Each of its two queues has places for so many datagrams, and at most
/// 2^30 bytes for their payloads. The five pieces of memory are the socket's until it is released. Answers 0.
#[unsafe(no_mangle)]
pub extern "C" fn smoltcp_udp_init_nonnull(
    rx_places: UdpPlaces,
    rx: Bytes,
    tx_places: UdpPlaces,
    tx: Bytes,
    room: &mut UdpRoom,
) -> i64
    requires empty { room.old.made ≡ None }
    requires rx_places { rx_places.len ≤ 2 ^ 30 }
    requires rx { rx.len ≤ 2 ^ 30 }
    requires tx_places { tx_places.len ≤ 2 ^ 30 }
    requires tx { tx.len ≤ 2 ^ 30 }
    ensures answer { result ≡ pos 0 }
    ensures at { room.new.at ≡ room.old.at }
    ensures made { room.new.made ≡ Some (fresh_udp (packets_with [] rx_places.len rx.bytes 0)
        (packets_with [] tx_places.len tx.bytes 0)) }
{
    let rx = udp::PacketBuffer::new(rx_places.lend(), rx.lend());
    let tx = udp::PacketBuffer::new(tx_places.lend(), tx.lend());
    room.fill(udp::Socket::new(rx, tx));
    OK
}

/// Opens the socket for datagrams to this port, and to this address where one is given. 0, or an error:
/// `ERROR_ADDRESS` where the port is 0, else `ERROR_STATE` where the socket is open. The socket is as it was then.
#[unsafe(no_mangle)]
pub extern "C" fn smoltcp_udp_bind_nonnull(h: &mut UdpHandle, endpoint: &Endpoint) -> i64
    ensures answer { result ≡ bind_answer (answer_of_udp h.old.socket (listen_in endpoint.now)) }
    ensures socket { h.new ≡ with_udp h.old (after_bind (answer_of_udp h.old.socket (listen_in endpoint.now))
        h.old.socket (listen_in endpoint.now)) }
{
    let endpoint = listen_in(endpoint);
    bind_answer(h.socket().bind(endpoint))
}

/// Closes the socket: it is bound to nothing, and both queues are empty. Answers 0.
#[unsafe(no_mangle)]
pub extern "C" fn smoltcp_udp_close_nonnull(h: &mut UdpHandle) -> i64
    ensures answer { result ≡ pos 0 }
    ensures closed { h.new ≡ with_udp h.old (closed h.old.socket) }
{
    h.socket().close();
    OK
}

/// Writes what the socket is bound to into `out`: its port is 0 where it is not open, its version 0 where it has no
/// address. Answers 0.
#[unsafe(no_mangle)]
pub extern "C" fn smoltcp_udp_endpoint_nonnull(h: &mut UdpHandle, out: &mut Endpoint) -> i64
    ensures answer { result ≡ pos 0 }
    ensures told { out.new ≡ listen_told h.old.socket.endpoint }
    ensures at { h.new.at ≡ h.old.at }
    ensures same { h.new.socket ≡ h.old.socket }
{
    *out = listen_of(h.socket().endpoint());
    OK
}

/// Sets the hop limit of what is sent, or 64 where the number is 0. Answers 0.
#[unsafe(no_mangle)]
pub extern "C" fn smoltcp_udp_set_hop_limit_nonnull(h: &mut UdpHandle, hop_limit: u8) -> i64
    ensures answer { result ≡ pos 0 }
    ensures set { h.new ≡ with_udp h.old (record h.old.socket { hop_limit = byte_or_none hop_limit }) }
{
    h.socket().set_hop_limit(byte_or_none(hop_limit));
    OK
}

/// Puts a datagram of these bytes into the transmit queue. 0.
///
/// `ERROR_ADDRESS` where the socket is not open, the destination's address is unspecified or its port 0, or the source
/// (the address given, else the bound one) is of another version of IP; `ERROR_ROOM` where the queue has no room for
/// it, or its packet would have more than 65535 bytes. Nothing changes then.
#[unsafe(no_mangle)]
pub extern "C" fn smoltcp_udp_send_nonnull(h: &mut UdpHandle, meta: &UdpNumbers, data: &[u8]) -> i64
    ensures long { is_packet (metadata_in meta.now) (length «data».now) ≡ false
        → (result ≡ error_room) × (h.new ≡ h.old) }
    ensures answer { is_packet (metadata_in meta.now) (length «data».now) ≡ true
        → result ≡ datagram_answer (send_answer_udp h.old.socket (metadata_in meta.now) (length «data».now)) }
    ensures socket { is_packet (metadata_in meta.now) (length «data».now) ≡ true
        → h.new ≡ with_udp h.old (after_send_udp h.old.socket (metadata_in meta.now) «data».now) }
    ensures refused { (result ≡ pos 0 → ⊥) → h.new ≡ h.old }
{
    let meta = metadata_in(meta);
    if !is_packet(&meta, data.len()) {
        return ERROR_ROOM;
    }
    datagram_answer(h.socket().send_slice(data, meta))
}

// Whether a datagram of so many bytes fits a packet.
pub(crate) fn is_packet(meta: &udp::UdpMetadata, len: usize) -> bool
    ensures { result ≡ is_packet meta.now len }
{
    len <= longest_payload(meta.endpoint.addr)
}

// How many bytes of payload a packet to this address has at most.
fn longest_payload(dst: IpAddress) -> usize
    ensures { result ≡ longest_payload dst }
{
    match dst {
        IpAddress::Ipv4(_) => LONGEST_PACKET - 28,
        IpAddress::Ipv6(_) => LONGEST_PACKET - 48,
    }
}

/// Takes the first datagram of the receive queue. Copies its payload to the beginning of `data`, and answers how many
/// bytes it has; `meta` is then where it came from and went to.
///
/// `ERROR_EMPTY` where none waits, `ERROR_ROOM` where `data` is shorter than the payload: the datagram is lost then.
/// With both `meta` and `data` are as they were.
#[unsafe(no_mangle)]
#[tactic(auto, using(crate::proofs::Copied::copied_within))]
pub extern "C" fn smoltcp_udp_recv_nonnull(
    h: &mut UdpHandle,
    meta: &mut UdpNumbers,
    data: &mut [u8],
) -> i64
    ensures answer { result ≡ copied_answer (copy_answer (first_packet h.old.socket.rx_buffer) (length «data».old)) }
    ensures told { meta.new
        ≡ metadata_written (copy_answer (first_packet h.old.socket.rx_buffer) (length «data».old)) meta.old }
    ensures bytes { «data».new ≡ copied (first_packet h.old.socket.rx_buffer) «data».old }
    ensures queue { Dequeues h.old.socket.rx_buffer h.new.socket.rx_buffer }
    ensures same { h.new ≡ with_udp h.old (record h.old.socket { rx_buffer = h.new.socket.rx_buffer }) }
{
    let room = data.len();
    tell_datagram(h.socket().recv_slice(data), meta, room)
}

/// Copies the payload of the first datagram of the receive queue as `recv` does; the datagram stays.
#[unsafe(no_mangle)]
#[tactic(auto, using(crate::proofs::Copied::copied_within))]
pub extern "C" fn smoltcp_udp_peek_nonnull(
    h: &mut UdpHandle,
    meta: &mut UdpNumbers,
    data: &mut [u8],
) -> i64
    ensures answer { result ≡ copied_answer (copy_answer (first_packet h.old.socket.rx_buffer) (length «data».old)) }
    ensures told { meta.new
        ≡ metadata_written (copy_answer (first_packet h.old.socket.rx_buffer) (length «data».old)) meta.old }
    ensures bytes { «data».new ≡ copied (first_packet h.old.socket.rx_buffer) «data».old }
    ensures same { h.new
        ≡ with_udp h.old (record h.old.socket { rx_buffer = skipped h.old.socket.rx_buffer }) }
{
    let room = data.len();
    tell_datagram(peeked(h.socket(), data), meta, room)
}

// Copies the first datagram, which stays.
fn peeked(
    socket: &mut udp::Socket<'_>,
    data: &mut [u8],
) -> Result<(usize, udp::UdpMetadata), RecvError>
    ensures answer { result ≡ copy_answer (first_packet socket.old.rx_buffer) (length «data».old) }
    ensures bytes { «data».new ≡ copied (first_packet socket.old.rx_buffer) «data».old }
    ensures same { socket.new ≡ record socket.old { rx_buffer = skipped socket.old.rx_buffer } }
{
    match socket.peek_slice(data) {
        Ok((size, meta)) => Ok((size, *meta)),
        Err(error) => Err(error),
    }
}

// Writes where a datagram came from, where one did, and answers how many bytes it has: at most as many as there was
// room for.
fn tell_datagram(
    answer: Result<(usize, udp::UdpMetadata), RecvError>,
    meta: &mut UdpNumbers,
    room: usize,
) -> i64
    requires within { IfOk answer (λ r. r.0 ≤ room) }
    requires short { room < 2 ^ 63 }
    ensures answer { result ≡ copied_answer answer }
    ensures told { meta.new ≡ metadata_written answer meta.old }
{
    match answer {
        Ok((count, from)) => {
            *meta = numbers_of(&from);
            count.min(room) as i64
        }
        Err(error) => refused_copy(error),
    }
}

// The longest message: its packet, over IPv6, has 65535 bytes.
pub(crate) const LONGEST_MESSAGE: usize = 65495;

/// Which messages a socket takes: 0 none, 1 echoes with the identifier, 2 errors about TCP segments that were sent from
/// the endpoint, else errors about UDP datagrams that were.
#[repr(C)]
#[derive(Clone, Copy)]
pub struct IcmpEndpoint {
    pub kind: u8,
    pub ident: u16,
    pub endpoint: Endpoint,
}

fn icmp_endpoint_in(n: &IcmpEndpoint) -> icmp::Endpoint
    ensures { result ≡ icmp_endpoint_in n.now }
{
    match n.kind {
        0 => icmp::Endpoint::Unspecified,
        1 => icmp::Endpoint::Ident(n.ident),
        2 => icmp::Endpoint::Tcp(listen_in(&n.endpoint)),
        _ => icmp::Endpoint::Udp(listen_in(&n.endpoint)),
    }
}

/// Makes a place of a queue in the room: nothing stands in it. Answers 0.
#[unsafe(no_mangle)]
pub extern "C" fn smoltcp_icmp_place_nonnull(room: &mut IcmpPlaceRoom) -> i64
    requires empty { room.old.made ≡ None }
    ensures answer { result ≡ pos 0 }
    ensures at { room.new.at ≡ room.old.at }
    ensures made { is_some room.new.made ≡ true }
{
    room.fill(icmp::PacketMetadata::EMPTY);
    OK
}

/// Makes a socket that is not open in the room. Each of its two queues has places for so many messages, and at most
/// 2^30 bytes for them. The five pieces of memory are the socket's until it is released. Answers 0.
#[unsafe(no_mangle)]
pub extern "C" fn smoltcp_icmp_init_nonnull(
    rx_places: IcmpPlaces,
    rx: Bytes,
    tx_places: IcmpPlaces,
    tx: Bytes,
    room: &mut IcmpRoom,
) -> i64
    requires empty { room.old.made ≡ None }
    requires rx_places { rx_places.len ≤ 2 ^ 30 }
    requires rx { rx.len ≤ 2 ^ 30 }
    requires tx_places { tx_places.len ≤ 2 ^ 30 }
    requires tx { tx.len ≤ 2 ^ 30 }
    ensures answer { result ≡ pos 0 }
    ensures at { room.new.at ≡ room.old.at }
    ensures made { room.new.made ≡ Some (fresh_icmp (packets_with [] rx_places.len rx.bytes 0)
        (packets_with [] tx_places.len tx.bytes 0)) }
{
    let rx = icmp::PacketBuffer::new(rx_places.lend(), rx.lend());
    let tx = icmp::PacketBuffer::new(tx_places.lend(), tx.lend());
    room.fill(icmp::Socket::new(rx, tx));
    OK
}

/// Opens the socket for these messages. 0, or an error: `ERROR_ADDRESS` where it names none or has no port, else
/// `ERROR_STATE` where the socket is open. The socket is as it was then.
#[unsafe(no_mangle)]
pub extern "C" fn smoltcp_icmp_bind_nonnull(h: &mut IcmpHandle, endpoint: &IcmpEndpoint) -> i64
    ensures answer { result ≡ bind_answer (answer_of_icmp h.old.socket (icmp_endpoint_in endpoint.now)) }
    ensures socket { h.new ≡ with_icmp h.old (after_bind (answer_of_icmp h.old.socket (icmp_endpoint_in endpoint.now))
        h.old.socket (icmp_endpoint_in endpoint.now)) }
{
    let endpoint = icmp_endpoint_in(endpoint);
    bind_answer(h.socket().bind(endpoint))
}

/// Sets the hop limit of what is sent, or 64 where the number is 0. Answers 0.
#[unsafe(no_mangle)]
pub extern "C" fn smoltcp_icmp_set_hop_limit_nonnull(h: &mut IcmpHandle, hop_limit: u8) -> i64
    ensures answer { result ≡ pos 0 }
    ensures set { h.new ≡ with_icmp h.old (record h.old.socket { hop_limit = byte_or_none hop_limit }) }
{
    h.socket().set_hop_limit(byte_or_none(hop_limit));
    OK
}

/// Puts a message of these bytes to `remote` into the transmit queue. 0.
///
/// `ERROR_ADDRESS` where the address is unspecified; `ERROR_ROOM` where the queue has no room for it, or it has more
/// than 65495 bytes. Nothing changes then. One that is no echo and no error of the address's version leaves the queue
/// without a packet. The socket need not be open.
#[unsafe(no_mangle)]
pub extern "C" fn smoltcp_icmp_send_nonnull(
    h: &mut IcmpHandle,
    remote: &Address,
    data: &[u8],
) -> i64
    ensures long { 65495 < length «data».now → (result ≡ error_room) × (h.new ≡ h.old) }
    ensures answer { length «data».now ≤ 65495
        → result ≡ datagram_answer (send_answer_icmp h.old.socket (address_in remote.now) (length «data».now)) }
    ensures socket { length «data».now ≤ 65495
        → h.new ≡ with_icmp h.old (after_send_icmp h.old.socket (address_in remote.now) «data».now) }
    ensures refused { (result ≡ pos 0 → ⊥) → h.new ≡ h.old }
{
    if LONGEST_MESSAGE < data.len() {
        return ERROR_ROOM;
    }
    let remote = address_in(remote);
    datagram_answer(h.socket().send_slice(data, remote))
}

/// Takes the first message of the receive queue. Copies it to the beginning of `data`, and answers how many bytes it
/// has; `remote` is then the address that it came from.
///
/// `ERROR_EMPTY` where none waits, `ERROR_ROOM` where `data` is shorter than it: the message is lost then. With both
/// `remote` and `data` are as they were.
#[unsafe(no_mangle)]
#[tactic(auto, using(crate::proofs::Copied::copied_within))]
pub extern "C" fn smoltcp_icmp_recv_nonnull(
    h: &mut IcmpHandle,
    remote: &mut Address,
    data: &mut [u8],
) -> i64
    ensures answer { result ≡ copied_answer (copy_answer (first_packet h.old.socket.rx_buffer) (length «data».old)) }
    ensures told { remote.new
        ≡ address_written (copy_answer (first_packet h.old.socket.rx_buffer) (length «data».old)) remote.old }
    ensures bytes { «data».new ≡ copied (first_packet h.old.socket.rx_buffer) «data».old }
    ensures queue { Dequeues h.old.socket.rx_buffer h.new.socket.rx_buffer }
    ensures same { h.new ≡ with_icmp h.old (record h.old.socket { rx_buffer = h.new.socket.rx_buffer }) }
{
    let room = data.len();
    tell_message(h.socket().recv_slice(data), remote, room)
}

// Writes where a message came from, where one did, and answers how many bytes it has: at most as many as there was room
// for.
fn tell_message(
    answer: Result<(usize, IpAddress), RecvError>,
    remote: &mut Address,
    room: usize,
) -> i64
    requires within { IfOk answer (λ r. r.0 ≤ room) }
    requires short { room < 2 ^ 63 }
    ensures answer { result ≡ copied_answer answer }
    ensures told { remote.new ≡ address_written answer remote.old }
{
    match answer {
        Ok((count, from)) => {
            *remote = address_of(from);
            count.min(room) as i64
        }
        Err(error) => refused_copy(error),
    }
}

/// Makes a place of a queue in the room: nothing stands in it. Answers 0.
#[unsafe(no_mangle)]
pub extern "C" fn smoltcp_raw_place_nonnull(room: &mut RawPlaceRoom) -> i64
    requires empty { room.old.made ≡ None }
    ensures answer { result ≡ pos 0 }
    ensures at { room.new.at ≡ room.old.at }
    ensures made { is_some room.new.made ≡ true }
{
    room.fill(raw::PacketMetadata::EMPTY);
    OK
}

/// Makes a socket in the room, for the packets of the filter. Each of its two queues has places for so many packets,
/// and at most 2^30 bytes for them. The five pieces of memory are the socket's until it is released. 0, or
/// `ERROR_RANGE` where the filter's version is not 0, 4 or 6: then no socket is made, and what the buffers lie in is
/// lost.
#[unsafe(no_mangle)]
pub extern "C" fn smoltcp_raw_init_nonnull(
    rx_places: RawPlaces,
    rx: Bytes,
    tx_places: RawPlaces,
    tx: Bytes,
    filter: &RawFilter,
    room: &mut RawRoom,
) -> i64
    requires empty { room.old.made ≡ None }
    requires rx_places { rx_places.len ≤ 2 ^ 30 }
    requires rx { rx.len ≤ 2 ^ 30 }
    requires tx_places { tx_places.len ≤ 2 ^ 30 }
    requires tx { tx.len ≤ 2 ^ 30 }
    ensures at { room.new.at ≡ room.old.at }
    ensures range { version_in filter.now.version ≡ None → (result ≡ error_range) × (room.new.made ≡ None) }
    ensures answer { (v : Option IpVersion) → version_in filter.now.version ≡ Some v → result ≡ pos 0 }
    ensures made { (v : Option IpVersion) → version_in filter.now.version ≡ Some v
        → room.new.made ≡ Some (fresh_raw v (protocol_in filter.now) (packets_with [] rx_places.len rx.bytes 0)
        (packets_with [] tx_places.len tx.bytes 0)) }
{
    let rx = raw::PacketBuffer::new(rx_places.lend(), rx.lend());
    let tx = raw::PacketBuffer::new(tx_places.lend(), tx.lend());
    let Some(version) = version_in(filter.version) else {
        return ERROR_RANGE;
    };
    room.fill(raw::Socket::new(version, protocol_in(filter), rx, tx));
    OK
}

/// Puts a packet of these bytes, its IP header first, into the transmit queue. 0.
///
/// `ERROR_ROOM` where the queue has no room for it, or it has more than 65535 bytes. Nothing changes then.
#[unsafe(no_mangle)]
pub extern "C" fn smoltcp_raw_send_nonnull(h: &mut RawHandle, data: &[u8]) -> i64
    ensures long { 65535 < length «data».now → (result ≡ error_room) × (h.new ≡ h.old) }
    ensures answer { length «data».now ≤ 65535
        → result ≡ packet_answer (send_answer_raw h.old.socket (length «data».now)) }
    ensures socket { length «data».now ≤ 65535 → h.new ≡ with_raw h.old
        (record h.old.socket { tx_buffer = stored tt «data».now h.old.socket.tx_buffer }) }
    ensures refused { (result ≡ pos 0 → ⊥) → h.new ≡ h.old }
{
    if LONGEST_PACKET < data.len() {
        return ERROR_ROOM;
    }
    packet_answer(h.socket().send_slice(data))
}

// 0, or `ERROR_ROOM`.
pub(crate) fn packet_answer(answer: Result<(), raw::SendError>) -> i64
    ensures { result ≡ packet_answer answer }
{
    match answer {
        Ok(()) => OK,
        Err(raw::SendError::BufferFull) => ERROR_ROOM,
    }
}

/// Takes the first packet of the receive queue. Copies it to the beginning of `data`, and answers how many bytes it
/// has.
///
/// `ERROR_EMPTY` where none waits, `ERROR_ROOM` where `data` is shorter than it: the packet is lost then. With both
/// `data` is as it was.
#[unsafe(no_mangle)]
#[tactic(auto, using(crate::proofs::Copied::bytes_within))]
pub extern "C" fn smoltcp_raw_recv_nonnull(h: &mut RawHandle, data: &mut [u8]) -> i64
    ensures answer { result ≡ copied_answer (copy_answer (first_packet h.old.socket.rx_buffer) (length «data».old)) }
    ensures bytes { «data».new ≡ copied (first_packet h.old.socket.rx_buffer) «data».old }
    ensures queue { Dequeues h.old.socket.rx_buffer h.new.socket.rx_buffer }
    ensures same { h.new ≡ with_raw h.old (record h.old.socket { rx_buffer = h.new.socket.rx_buffer }) }
{
    let room = data.len();
    tell_packet(h.socket().recv_slice(data), room)
}

/// Copies the first packet of the receive queue as `recv` does; the packet stays.
#[unsafe(no_mangle)]
#[tactic(auto, using(crate::proofs::Copied::bytes_within))]
pub extern "C" fn smoltcp_raw_peek_nonnull(h: &mut RawHandle, data: &mut [u8]) -> i64
    ensures answer { result ≡ copied_answer (copy_answer (first_packet h.old.socket.rx_buffer) (length «data».old)) }
    ensures bytes { «data».new ≡ copied (first_packet h.old.socket.rx_buffer) «data».old }
    ensures same { h.new
        ≡ with_raw h.old (record h.old.socket { rx_buffer = skipped h.old.socket.rx_buffer }) }
{
    let room = data.len();
    tell_packet(h.socket().peek_slice(data), room)
}

// How many bytes were copied: at most as many as there was room for.
fn tell_packet(answer: Result<usize, RecvError>, room: usize) -> i64
    requires within { IfOk answer (λ n. n ≤ room) }
    requires short { room < 2 ^ 63 }
    ensures { result ≡ copied_answer (with_metadata (tt {0}) answer) }
{
    match answer {
        Ok(count) => count.min(room) as i64,
        Err(error) => refused_copy(error),
    }
}
