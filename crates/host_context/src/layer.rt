//! The interface layer of a host with TCP sockets: what is due goes out, and what arrives is offered to a socket.
ghost use Rattle.std.specs.Prelude.{◌≡◌, ◌≤◌, [], length, None, Some, IfOk, OnErr, option_map};
ghost use Rattle.std.specs.Option.{ForSome};
ghost use Rattle.control_wire.specs.Fits.{FitsPacket};
ghost use Rattle.control_wire.specs.Segment.{segment_of};
ghost use Rattle.segment_wire.specs.Packet.{TcpPacket, tcp_packet_parsed};
ghost use Rattle.sock_tcp.specs.Dispatch.{Dispatches};
ghost use Rattle.sock_tcp.specs.Process.{Accepts, reply_of, source_kept};
ghost use Rattle.sock_tcp.specs.Replies.{IsReplyStamp, echoed};
ghost use Rattle.host_context.specs.Layer.{Hears, IsFor, PutsTcp, Refuses, puts_tcp, with_reply};
ghost use Rattle.host_context.specs.Outbox.{octets};

use crate::interface::Interface;
use crate::outbox::Outbox;
use crate::words::Words;
use segment_wire::packet;
use smoltcp_socket::Context;
use smoltcp_socket::tcp::Socket;
use smoltcp_socket::wire::{IpRepr, TcpRepr};
use sock_tcp::{Reply, TsvalSource};
use std::alloc::AllocError;

/// Emits at most one packet of the socket, into the outbox.
///
/// # Errors
/// Where memory is wanting for it, the packets in the outbox are those of before, and the socket offers it again.
pub fn dispatch_tcp<W: Words, G: TsvalSource>(
    socket: &mut Socket<'_, G>,
    interface: &mut Interface<W, Outbox>,
) -> Result<(), AllocError>
    ensures table { Dispatches puts_tcp tt (⟦<Interface<W, Outbox> as Context>⟧.facts interface.old) G.tells
        socket.old.tsval_generator socket.old.control_block interface.old result socket.new.control_block
        interface.new }
    ensures generator { socket.new.tsval_generator ≡ socket.old.tsval_generator }
    ensures kept { OnErr result (interface.new.outbox.packets.items ≡ interface.old.outbox.packets.items) }
    ensures same { interface.new ≡ record interface.old { outbox = interface.new.outbox } }
{
    socket.dispatch(
        interface,
        move |cx: &mut Interface<W, Outbox>, sent: (IpRepr, TcpRepr<'_>)| -> Result<(), AllocError>
            ensures { PutsTcp sent.entry.0 (segment_of sent.entry.1) cx.entry.now result cx.exit.now }
        { put_tcp(cx, &sent.0, &sent.1) },
    )
}

// Adds the packet of a segment.
fn put_tcp<W: Words>(
    interface: &mut Interface<W, Outbox>,
    ip: &IpRepr,
    repr: &TcpRepr<'_>,
) -> Result<(), AllocError>
    ensures { PutsTcp ip.now (segment_of repr.now) interface.old result interface.new }
{
    let caps = interface.checksum_caps();
    interface.outbox.emit_tcp(ip, repr, &caps)?;
    Ok(())
}

/// Offers a packet to the socket, and says whether the socket took it. What the socket answers goes into the outbox.
///
/// A packet that is malformed, or that carries no segment, is for no socket; nothing changes then.
///
/// # Errors
/// Where memory is wanting for the answer, the socket has taken the segment, the packets in the outbox are those of
/// before, and the answer is lost, as a packet may be.
pub fn receive_tcp<W: Words, G: TsvalSource>(
    socket: &mut Socket<'_, G>,
    interface: &mut Interface<W, Outbox>,
    bytes: &[u8],
) -> Result<bool, AllocError>
    ensures broken { tcp_packet_parsed interface.old.checksums bytes.now ≡ None
        → Refuses socket.old.control_block socket.old.tsval_generator interface.old result socket.new.control_block
        socket.new.tsval_generator interface.new }
    ensures foreign { (p : TcpPacket) → tcp_packet_parsed interface.old.checksums bytes.now ≡ Some p
        → (IsFor socket.old.control_block p → ⊥)
        → Refuses socket.old.control_block socket.old.tsval_generator interface.old result socket.new.control_block
        socket.new.tsval_generator interface.new }
    ensures table { (p : TcpPacket) → tcp_packet_parsed interface.old.checksums bytes.now ≡ Some p
        → IsFor socket.old.control_block p
        → Hears ⟦<Interface<W, Outbox> as Context>⟧.facts ⟦<Interface<W, Outbox> as Context>⟧.word_at
        (IsReplyStamp G.tells socket.new.tsval_generator (echoed socket.new.control_block p.segment.timestamp))
        socket.old.control_block interface.old p result socket.new.control_block interface.new }
    ensures kept { OnErr result (interface.new.outbox.packets.items ≡ interface.old.outbox.packets.items) }
    ensures generator { (p : TcpPacket) → tcp_packet_parsed interface.old.checksums bytes.now ≡ Some p
        → IsFor socket.old.control_block p → socket.new.tsval_generator
        ≡ source_kept socket.new.control_block.stamps socket.old.tsval_generator }
{
    let caps = interface.checksums;
    let Ok((ip, repr)) = packet::parse_tcp(bytes, &caps) else {
        return Ok(false);
    };
    if repr.payload.len() > 65535 || !socket.accepts(interface, &ip, &repr) {
        return Ok(false);
    }
    hear(socket, interface, &ip, &repr)
}

// The socket takes the segment, and its answer goes into the outbox. Of what a call does to a context only the facts
// and the words are known: so the packets are held apart meanwhile.
fn hear<W: Words, G: TsvalSource>(
    socket: &mut Socket<'_, G>,
    interface: &mut Interface<W, Outbox>,
    ip: &IpRepr,
    repr: &TcpRepr<'_>,
) -> Result<bool, AllocError>
    requires accepted { Accepts socket.old.control_block ip.now (segment_of repr.now) }
    requires small { length repr.now.payload.now ≤ 65535 }
    ensures table { (p : TcpPacket) → record { ip = ip.now; segment = segment_of repr.now } ≡ p
        → Hears ⟦<Interface<W, Outbox> as Context>⟧.facts ⟦<Interface<W, Outbox> as Context>⟧.word_at
        (IsReplyStamp G.tells socket.new.tsval_generator (echoed socket.new.control_block p.segment.timestamp))
        socket.old.control_block interface.old p result socket.new.control_block interface.new }
    ensures kept { OnErr result (interface.new.outbox.packets.items ≡ interface.old.outbox.packets.items) }
    ensures generator { socket.new.tsval_generator
        ≡ source_kept socket.new.control_block.stamps socket.old.tsval_generator }
{
    let packets = hold(interface);
    let answer = socket.process(interface, ip, repr);
    put_back(interface, packets);
    put_answer(interface, &answer)?;
    Ok(true)
}

// The packets of the outbox, which is empty meanwhile.
fn hold<W: Words>(interface: &mut Interface<W, Outbox>) -> Vec<Vec<u8>>
    ensures packets { result.items ≡ interface.old.outbox.packets.items }
    ensures same { interface.new ≡ record interface.old { outbox = interface.new.outbox } }
{
    interface.outbox.take()
}

// These are the packets of the outbox again.
fn put_back<W: Words>(interface: &mut Interface<W, Outbox>, packets: Vec<Vec<u8>>)
    ensures packets { interface.new.outbox.packets.items ≡ packets.items }
    ensures same { interface.new ≡ record interface.old { outbox = interface.new.outbox } }
{
    interface.outbox.packets = packets;
}

// Adds the packet of the answer, if any.
fn put_answer<W: Words>(
    interface: &mut Interface<W, Outbox>,
    answer: &Option<Reply>,
) -> Result<(), AllocError>
    requires fits { ForSome (option_map reply_of answer.now) (λ r. FitsPacket r.0 r.1) }
    ensures added { IfOk result (λ _. octets interface.new.outbox.packets.items
        ≡ with_reply interface.old.checksums (octets interface.old.outbox.packets.items) answer.now) }
    ensures kept { OnErr result (interface.new.outbox.packets.items ≡ interface.old.outbox.packets.items) }
    ensures same { interface.new ≡ record interface.old { outbox = interface.new.outbox } }
{
    match answer {
        None => Ok(()),
        Some((ip, repr)) => put_tcp(interface, ip, repr),
    }
}

/// The packets in the outbox, which is empty afterwards.
pub fn take_packets<W>(interface: &mut Interface<W, Outbox>) -> Vec<Vec<u8>>
    ensures packets { result.items ≡ interface.old.outbox.packets.items }
    ensures empty { interface.new.outbox.packets.items ≡ [] }
{
    interface.outbox.take()
}
