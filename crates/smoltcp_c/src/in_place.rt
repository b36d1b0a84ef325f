//! The calls of UDP, ICMP and raw sockets that lend a packet where it lies in its queue.
ghost use Rattle.std.specs.Prelude.{◌≡◌, ◌≤◌, ◌<◌, pos, length, true, false};
ghost use Rattle.net_base.specs.Packets.{Dequeues, first_packet, made_room, skipped};
ghost use Rattle.sock_dgram.specs.Icmp.{refused_send as refused_send_icmp};
ghost use Rattle.sock_dgram.specs.Icmp.{send_answer as send_answer_icmp};
ghost use Rattle.sock_dgram.specs.Raw.{send_answer as send_answer_raw};
ghost use Rattle.sock_dgram.specs.Udp.{refused_send as refused_send_udp};
ghost use Rattle.sock_dgram.specs.Udp.{send_answer as send_answer_udp};
ghost use Rattle.smoltcp_c.specs.Answers.{datagram_answer, error_room};
ghost use Rattle.smoltcp_c.specs.Icmp.{with_socket as with_icmp};
ghost use Rattle.smoltcp_c.specs.InPlace.{JoinsIf, RefusedIf, TellsFirst, TellsRoom, lent_answer, told_first};
ghost use Rattle.smoltcp_c.specs.Numbers.{address_in, address_told};
ghost use Rattle.smoltcp_c.specs.Raw.{packet_answer, with_socket as with_raw};
ghost use Rattle.smoltcp_c.specs.Udp.{is_packet, metadata_in, metadata_told, with_socket as with_udp};

use crate::answers::{ERROR_EMPTY, ERROR_ROOM, datagram_answer};
use crate::datagrams::{LONGEST_MESSAGE, is_packet, packet_answer};
use crate::endpoints::{Address, address_in, address_of};
use crate::handles::{IcmpHandle, RawHandle, UdpHandle};
use crate::lends::place;
use crate::memory::Place;
use crate::udp_numbers::{UdpNumbers, metadata_in, numbers_of};
use crate::wire::LONGEST_PACKET;
use ip_wire::IpAddress;
use sock_dgram::error::SendError;
use sock_dgram::{icmp, raw, udp};

/// Puts a datagram of `size` bytes into the transmit queue, and writes into `out` where they lie. 0. They may be
/// written until the next call on the socket: what stands there then is the payload.
///
/// Refused as `send`; the queue holds the same datagrams then.
#[unsafe(no_mangle)]
pub extern "C" fn smoltcp_udp_send_place_nonnull(
    h: &mut UdpHandle,
    meta: &UdpNumbers,
    size: usize,
    out: &mut Place,
) -> i64
    ensures long { is_packet (metadata_in meta.now) size ≡ false
        → (result ≡ error_room) × ((h.new ≡ h.old) × (out.new ≡ out.old)) }
    ensures answer { is_packet (metadata_in meta.now) size ≡ true
        → result ≡ datagram_answer (send_answer_udp h.old.socket (metadata_in meta.now) size) }
    ensures place { is_packet (metadata_in meta.now) size ≡ true
        → TellsRoom size (send_answer_udp h.old.socket (metadata_in meta.now) size) out.old out.new }
    ensures joins { is_packet (metadata_in meta.now) size ≡ true
        → JoinsIf (send_answer_udp h.old.socket (metadata_in meta.now) size) size (metadata_in meta.now)
        h.old.socket.tx_buffer h.new.socket.tx_buffer }
    ensures refused { is_packet (metadata_in meta.now) size ≡ true
        → RefusedIf (send_answer_udp h.old.socket (metadata_in meta.now) size)
        (refused_send_udp h.old.socket (metadata_in meta.now) size) h.new.socket }
    ensures same { h.new ≡ with_udp h.old (record h.old.socket { tx_buffer = h.new.socket.tx_buffer }) }
{
    let meta = metadata_in(meta);
    if !is_packet(&meta, size) {
        return ERROR_ROOM;
    }
    datagram_answer(place_datagram(h.socket(), meta, size, out))
}

fn place_datagram(
    socket: &mut udp::Socket<'_>,
    meta: udp::UdpMetadata,
    size: usize,
    out: &mut Place,
) -> Result<(), SendError>
    ensures answer { result ≡ send_answer_udp socket.old meta size }
    ensures place { TellsRoom size result out.old out.new }
    ensures joins { JoinsIf result size meta socket.old.tx_buffer socket.new.tx_buffer }
    ensures refused { RefusedIf result (refused_send_udp socket.old meta size) socket.new }
    ensures same { socket.new ≡ record socket.old { tx_buffer = socket.new.tx_buffer } }
{
    let mut lent = *out;
    socket.send_with(
        size,
        meta,
        |bytes: &mut [u8]| -> usize
            ensures { (result ≡ length bytes.old) × (bytes.new ≡ bytes.old) }
        {
            lent = place(bytes);
            bytes.len()
        },
    )?;
    *out = Place {
        at: lent.at,
        len: size,
    };
    Ok(())
}

/// Takes the first datagram of the receive queue: writes into `out` where its payload lies, and into `meta` where it
/// came from and went to, and answers how many bytes it has. They may be read until the next call on the socket.
///
/// `ERROR_EMPTY` where none waits: `meta` and `out` are as they were then.
#[unsafe(no_mangle)]
pub extern "C" fn smoltcp_udp_recv_place_nonnull(
    h: &mut UdpHandle,
    meta: &mut UdpNumbers,
    out: &mut Place,
) -> i64
    ensures answer { result ≡ lent_answer (first_packet h.old.socket.rx_buffer) }
    ensures told { meta.new ≡ told_first metadata_told (first_packet h.old.socket.rx_buffer) meta.old }
    ensures place { TellsFirst (first_packet h.old.socket.rx_buffer) out.old out.new }
    ensures queue { Dequeues h.old.socket.rx_buffer h.new.socket.rx_buffer }
    ensures same { h.new ≡ with_udp h.old (record h.old.socket { rx_buffer = h.new.socket.rx_buffer }) }
{
    take_datagram(h.socket(), meta, out)
}

fn take_datagram(socket: &mut udp::Socket<'_>, meta: &mut UdpNumbers, out: &mut Place) -> i64
    ensures answer { result ≡ lent_answer (first_packet socket.old.rx_buffer) }
    ensures told { meta.new ≡ told_first metadata_told (first_packet socket.old.rx_buffer) meta.old }
    ensures place { TellsFirst (first_packet socket.old.rx_buffer) out.old out.new }
    ensures queue { Dequeues socket.old.rx_buffer socket.new.rx_buffer }
    ensures same { socket.new ≡ record socket.old { rx_buffer = socket.new.rx_buffer } }
{
    match socket.recv() {
        Err(_) => ERROR_EMPTY,
        Ok((bytes, from)) => {
            *meta = numbers_of(&from);
            *out = place(bytes);
            bytes.len() as i64
        }
    }
}

/// Lends the first datagram of the receive queue as `recv_place` does; the datagram stays.
#[unsafe(no_mangle)]
pub extern "C" fn smoltcp_udp_peek_place_nonnull(
    h: &mut UdpHandle,
    meta: &mut UdpNumbers,
    out: &mut Place,
) -> i64
    ensures answer { result ≡ lent_answer (first_packet h.old.socket.rx_buffer) }
    ensures told { meta.new ≡ told_first metadata_told (first_packet h.old.socket.rx_buffer) meta.old }
    ensures place { TellsFirst (first_packet h.old.socket.rx_buffer) out.old out.new }
    ensures same { h.new
        ≡ with_udp h.old (record h.old.socket { rx_buffer = skipped h.old.socket.rx_buffer }) }
{
    show_datagram(h.socket(), meta, out)
}

fn show_datagram(socket: &mut udp::Socket<'_>, meta: &mut UdpNumbers, out: &mut Place) -> i64
    ensures answer { result ≡ lent_answer (first_packet socket.old.rx_buffer) }
    ensures told { meta.new ≡ told_first metadata_told (first_packet socket.old.rx_buffer) meta.old }
    ensures place { TellsFirst (first_packet socket.old.rx_buffer) out.old out.new }
    ensures same { socket.new ≡ record socket.old { rx_buffer = skipped socket.old.rx_buffer } }
{
    match socket.peek() {
        Err(_) => ERROR_EMPTY,
        Ok((bytes, from)) => {
            *meta = numbers_of(from);
            *out = place(bytes);
            bytes.len() as i64
        }
    }
}

/// Puts a message of `size` bytes to `remote` into the transmit queue, and writes into `out` where they lie. 0. They
/// may be written until the next call on the socket: what stands there then is the message.
///
/// Refused as `send`; the queue holds the same messages then.
#[unsafe(no_mangle)]
pub extern "C" fn smoltcp_icmp_send_place_nonnull(
    h: &mut IcmpHandle,
    remote: &Address,
    size: usize,
    out: &mut Place,
) -> i64
    ensures long { 65495 < size → (result ≡ error_room) × ((h.new ≡ h.old) × (out.new ≡ out.old)) }
    ensures answer { size ≤ 65495
        → result ≡ datagram_answer (send_answer_icmp h.old.socket (address_in remote.now) size) }
    ensures place { size ≤ 65495
        → TellsRoom size (send_answer_icmp h.old.socket (address_in remote.now) size) out.old out.new }
    ensures joins { size ≤ 65495 → JoinsIf (send_answer_icmp h.old.socket (address_in remote.now) size) size
        (address_in remote.now) h.old.socket.tx_buffer h.new.socket.tx_buffer }
    ensures refused { size ≤ 65495 → RefusedIf (send_answer_icmp h.old.socket (address_in remote.now) size)
        (refused_send_icmp h.old.socket (address_in remote.now) size) h.new.socket }
    ensures same { h.new ≡ with_icmp h.old (record h.old.socket { tx_buffer = h.new.socket.tx_buffer }) }
{
    if LONGEST_MESSAGE < size {
        return ERROR_ROOM;
    }
    let remote = address_in(remote);
    datagram_answer(place_message(h.socket(), remote, size, out))
}

fn place_message(
    socket: &mut icmp::Socket<'_>,
    remote: IpAddress,
    size: usize,
    out: &mut Place,
) -> Result<(), SendError>
    ensures answer { result ≡ send_answer_icmp socket.old remote size }
    ensures place { TellsRoom size result out.old out.new }
    ensures joins { JoinsIf result size remote socket.old.tx_buffer socket.new.tx_buffer }
    ensures refused { RefusedIf result (refused_send_icmp socket.old remote size) socket.new }
    ensures same { socket.new ≡ record socket.old { tx_buffer = socket.new.tx_buffer } }
{
    let mut lent = *out;
    socket.send_with(
        size,
        remote,
        |bytes: &mut [u8]| -> usize
            ensures { (result ≡ length bytes.old) × (bytes.new ≡ bytes.old) }
        {
            lent = place(bytes);
            bytes.len()
        },
    )?;
    *out = Place {
        at: lent.at,
        len: size,
    };
    Ok(())
}

/// Takes the first message of the receive queue: writes into `out` where it lies, and into `remote` the address that it
/// came from, and answers how many bytes it has. They may be read until the next call on the socket.
///
/// `ERROR_EMPTY` where none waits: `remote` and `out` are as they were then.
#[unsafe(no_mangle)]
pub extern "C" fn smoltcp_icmp_recv_place_nonnull(
    h: &mut IcmpHandle,
    remote: &mut Address,
    out: &mut Place,
) -> i64
    ensures answer { result ≡ lent_answer (first_packet h.old.socket.rx_buffer) }
    ensures told { remote.new ≡ told_first address_told (first_packet h.old.socket.rx_buffer) remote.old }
    ensures place { TellsFirst (first_packet h.old.socket.rx_buffer) out.old out.new }
    ensures queue { Dequeues h.old.socket.rx_buffer h.new.socket.rx_buffer }
    ensures same { h.new ≡ with_icmp h.old (record h.old.socket { rx_buffer = h.new.socket.rx_buffer }) }
{
    take_message(h.socket(), remote, out)
}

fn take_message(socket: &mut icmp::Socket<'_>, remote: &mut Address, out: &mut Place) -> i64
    ensures answer { result ≡ lent_answer (first_packet socket.old.rx_buffer) }
    ensures told { remote.new ≡ told_first address_told (first_packet socket.old.rx_buffer) remote.old }
    ensures place { TellsFirst (first_packet socket.old.rx_buffer) out.old out.new }
    ensures queue { Dequeues socket.old.rx_buffer socket.new.rx_buffer }
    ensures same { socket.new ≡ record socket.old { rx_buffer = socket.new.rx_buffer } }
{
    match socket.recv() {
        Err(_) => ERROR_EMPTY,
        Ok((bytes, from)) => {
            *remote = address_of(from);
            *out = place(bytes);
            bytes.len() as i64
        }
    }
}

/// Puts a packet of `size` bytes, its IP header first, into the transmit queue, and writes into `out` where they lie.
/// 0. They may be written until the next call on the socket: what stands there then is the packet.
///
/// Refused as `send`; the queue holds the same packets then.
#[unsafe(no_mangle)]
pub extern "C" fn smoltcp_raw_send_place_nonnull(
    h: &mut RawHandle,
    size: usize,
    out: &mut Place,
) -> i64
    ensures long { 65535 < size → (result ≡ error_room) × ((h.new ≡ h.old) × (out.new ≡ out.old)) }
    ensures answer { size ≤ 65535 → result ≡ packet_answer (send_answer_raw h.old.socket size) }
    ensures place { size ≤ 65535 → TellsRoom size (send_answer_raw h.old.socket size) out.old out.new }
    ensures joins { size ≤ 65535 → JoinsIf (send_answer_raw h.old.socket size) size tt h.old.socket.tx_buffer
        h.new.socket.tx_buffer }
    ensures refused { size ≤ 65535 → RefusedIf (send_answer_raw h.old.socket size)
        (record h.old.socket { tx_buffer = made_room size h.old.socket.tx_buffer }) h.new.socket }
    ensures same { h.new ≡ with_raw h.old (record h.old.socket { tx_buffer = h.new.socket.tx_buffer }) }
{
    if LONGEST_PACKET < size {
        return ERROR_ROOM;
    }
    packet_answer(place_packet(h.socket(), size, out))
}

fn place_packet(
    socket: &mut raw::Socket<'_>,
    size: usize,
    out: &mut Place,
) -> Result<(), raw::SendError>
    ensures answer { result ≡ send_answer_raw socket.old size }
    ensures place { TellsRoom size result out.old out.new }
    ensures joins { JoinsIf result size tt socket.old.tx_buffer socket.new.tx_buffer }
    ensures refused { RefusedIf result (record socket.old { tx_buffer = made_room size socket.old.tx_buffer })
        socket.new }
    ensures same { socket.new ≡ record socket.old { tx_buffer = socket.new.tx_buffer } }
{
    let mut lent = *out;
    socket.send_with(
        size,
        |bytes: &mut [u8]| -> usize
            ensures { (result ≡ length bytes.old) × (bytes.new ≡ bytes.old) }
        {
            lent = place(bytes);
            bytes.len()
        },
    )?;
    *out = Place {
        at: lent.at,
        len: size,
    };
    Ok(())
}

/// Takes the first packet of the receive queue: writes into `out` where it lies, and answers how many bytes it has.
/// They may be read until the next call on the socket.
///
/// `ERROR_EMPTY` where none waits: `out` is as it was then.
#[unsafe(no_mangle)]
pub extern "C" fn smoltcp_raw_recv_place_nonnull(h: &mut RawHandle, out: &mut Place) -> i64
    ensures answer { result ≡ lent_answer (first_packet h.old.socket.rx_buffer) }
    ensures place { TellsFirst (first_packet h.old.socket.rx_buffer) out.old out.new }
    ensures queue { Dequeues h.old.socket.rx_buffer h.new.socket.rx_buffer }
    ensures same { h.new ≡ with_raw h.old (record h.old.socket { rx_buffer = h.new.socket.rx_buffer }) }
{
    take_packet(h.socket(), out)
}

fn take_packet(socket: &mut raw::Socket<'_>, out: &mut Place) -> i64
    ensures answer { result ≡ lent_answer (first_packet socket.old.rx_buffer) }
    ensures place { TellsFirst (first_packet socket.old.rx_buffer) out.old out.new }
    ensures queue { Dequeues socket.old.rx_buffer socket.new.rx_buffer }
    ensures same { socket.new ≡ record socket.old { rx_buffer = socket.new.rx_buffer } }
{
    match socket.recv() {
        Err(_) => ERROR_EMPTY,
        Ok(bytes) => {
            *out = place(bytes);
            bytes.len() as i64
        }
    }
}

/// Lends the first packet of the receive queue as `recv_place` does; the packet stays.
#[unsafe(no_mangle)]
pub extern "C" fn smoltcp_raw_peek_place_nonnull(h: &mut RawHandle, out: &mut Place) -> i64
    ensures answer { result ≡ lent_answer (first_packet h.old.socket.rx_buffer) }
    ensures place { TellsFirst (first_packet h.old.socket.rx_buffer) out.old out.new }
    ensures same { h.new
        ≡ with_raw h.old (record h.old.socket { rx_buffer = skipped h.old.socket.rx_buffer }) }
{
    show_packet(h.socket(), out)
}

fn show_packet(socket: &mut raw::Socket<'_>, out: &mut Place) -> i64
    ensures answer { result ≡ lent_answer (first_packet socket.old.rx_buffer) }
    ensures place { TellsFirst (first_packet socket.old.rx_buffer) out.old out.new }
    ensures same { socket.new ≡ record socket.old { rx_buffer = skipped socket.old.rx_buffer } }
{
    match socket.peek() {
        Err(_) => ERROR_EMPTY,
        Ok(bytes) => {
            *out = place(bytes);
            bytes.len() as i64
        }
    }
}
