//! What a socket emits, into a buffer.
ghost use Rattle.std.specs.Prelude.{◌≡◌, ◌<◌, ◌≤◌, is_err, length, max, true};
ghost use Rattle.control_wire.specs.Segment.{segment_of};
ghost use Rattle.sock_tcp.specs.Dispatch.{Dispatches};
ghost use Rattle.net_host.specs.Facts.{facts_by};
ghost use Rattle.net_host.specs.Sheets.{Writes, WritesDatagram, WritesMessage, WritesRaw, writing, writing_datagram};
ghost use Rattle.net_host.specs.Sheets.{writing_message, writing_raw};
ghost use Rattle.ip_wire.specs.Checksum.{is_sent};
ghost use Rattle.sock_dgram.specs.RawDispatch as raw_dispatch;
ghost use Rattle.sock_dgram.specs.UdpDispatch.{Dispatched};
ghost use Rattle.net_host.specs.SheetOf.{KeepsWire, sheet_of};
ghost use Rattle.net_host.specs.Emissions.{DispatchesDatagram, DispatchesMessage, DispatchesRaw, DispatchesSegment};
ghost use Rattle.sock_dgram.specs.IcmpDispatch as icmp_dispatch;
ghost use Rattle.sock_dgram.specs.IcmpDispatch.{any_message};

use crate::environment::Environment;
use crate::wire::{Sent, TooShort, Wire};
use smoltcp_socket::wire::{IcmpRepr, IpAddress, IpRepr, TcpRepr, UdpRepr};
use smoltcp_socket::{icmp, raw, tcp, udp};
use sock_tcp::TsvalSource;

// Lets the socket emit.
fn emit_segment<G: TsvalSource>(
    socket: &mut tcp::Socket<'_, G>,
    wire: &mut Wire<'_>,
) -> Result<(), TooShort>
    ensures table { Dispatches writing tt
        (facts_by ⟦<IpAddress as PartialEq>⟧.eq wire.old.environment.now) G.tells socket.old.tsval_generator
        socket.old.control_block (sheet_of wire.old) result socket.new.control_block (sheet_of wire.new) }
    ensures generator { socket.new.tsval_generator ≡ socket.old.tsval_generator }
    ensures kept { KeepsWire wire.old result wire.new }
{
    socket.dispatch(
        wire,
        move |cx: &mut Wire<'_>, sent: (IpRepr, TcpRepr<'_>)| -> Result<(), TooShort>
            ensures written { Writes sent.entry.0 (segment_of sent.entry.1)
                (sheet_of cx.entry.now) result (sheet_of cx.exit.now) }
            ensures kept { KeepsWire cx.entry.now result cx.exit.now }
        { cx.write_segment(&sent.0, &sent.1) },
    )
}

/// Lets the socket emit into the buffer. What its dispatch answered, and what was sent; where the buffer is too short,
/// the socket offers the packet again.
pub(crate) fn emit_tcp<G: TsvalSource>(
    socket: &mut tcp::Socket<'_, G>,
    environment: &Environment,
    out: &mut [u8],
) -> (Result<(), TooShort>, Sent)
    ensures table { DispatchesSegment (facts_by ⟦<IpAddress as PartialEq>⟧.eq environment.entry.now) G.tells
        socket.old.tsval_generator socket.old.control_block out.old result.0 result.1 socket.new.control_block
        out.new }
    ensures within { result.1.len ≤ length out.old }
    ensures fits { result.1.len ≤ max environment.entry.now.mtu 576 }
    ensures short { is_err result.0 ≡ true → length out.old < max environment.entry.now.mtu 576 }
    ensures generator { socket.new.tsval_generator ≡ socket.old.tsval_generator }
{
    let mut wire = Wire {
        environment,
        out,
        len: 0,
        lost: false,
    };
    let answer = emit_segment(socket, &mut wire);
    let sent = Sent {
        len: wire.len,
        lost: wire.lost,
    };
    (answer, sent)
}

// Lets the socket emit.
fn emit_datagram(socket: &mut udp::Socket<'_>, wire: &mut Wire<'_>) -> Result<(), TooShort>
    ensures table { Dispatched writing_datagram tt socket.old
        (facts_by ⟦<IpAddress as PartialEq>⟧.eq wire.old.environment.now) (sheet_of wire.old) result
        (sheet_of wire.new) socket.new }
    ensures kept { KeepsWire wire.old result wire.new }
{
    socket.dispatch(
        wire,
        move |cx: &mut Wire<'_>, sent: (IpRepr, UdpRepr, &[u8])| -> Result<(), TooShort>
            ensures written { WritesDatagram sent.entry.0 sent.entry.1 sent.entry.2.now (sheet_of cx.entry.now) result
                (sheet_of cx.exit.now) }
            ensures kept { KeepsWire cx.entry.now result cx.exit.now }
        { cx.write_datagram(&sent.0, &sent.1, sent.2) },
    )
}

/// Dispatches a UDP socket into `out`.
// Not inlined, so that the turn of a TCP socket stays short.
#[inline(never)]
pub(crate) fn emit_udp(
    socket: &mut udp::Socket<'_>,
    environment: &Environment,
    out: &mut [u8],
) -> (Result<(), TooShort>, Sent)
    ensures table { DispatchesDatagram (facts_by ⟦<IpAddress as PartialEq>⟧.eq environment.entry.now) socket.old out.old
        result.0 result.1 socket.new out.new }
    ensures within { result.1.len ≤ length out.old }
    ensures fits { result.1.len ≤ max environment.entry.now.mtu 576 }
    ensures short { is_err result.0 ≡ true → length out.old < max environment.entry.now.mtu 576 }
{
    let mut wire = Wire {
        environment,
        out,
        len: 0,
        lost: false,
    };
    let answer = emit_datagram(socket, &mut wire);
    let sent = Sent {
        len: wire.len,
        lost: wire.lost,
    };
    (answer, sent)
}

// Lets the socket emit.
fn emit_message(socket: &mut icmp::Socket<'_>, wire: &mut Wire<'_>) -> Result<(), TooShort>
    ensures table { icmp_dispatch.Dispatched writing_message tt socket.old
        (facts_by ⟦<IpAddress as PartialEq>⟧.eq wire.old.environment.now) (sheet_of wire.old) result
        (sheet_of wire.new) socket.new }
    ensures kept { KeepsWire wire.old result wire.new }
{
    socket.dispatch(
        wire,
        move |cx: &mut Wire<'_>, sent: (IpRepr, IcmpRepr<'_>)| -> Result<(), TooShort>
            ensures written { WritesMessage sent.entry.0 (any_message sent.entry.1) (sheet_of cx.entry.now) result
                (sheet_of cx.exit.now) }
            ensures kept { KeepsWire cx.entry.now result cx.exit.now }
        { cx.write_message(&sent.0, &sent.1) },
    )
}

/// Dispatches an ICMP socket into `out`.
// Not inlined, so that the turn of a TCP socket stays short.
#[inline(never)]
pub(crate) fn emit_icmp(
    socket: &mut icmp::Socket<'_>,
    environment: &Environment,
    out: &mut [u8],
) -> (Result<(), TooShort>, Sent)
    ensures table { DispatchesMessage (facts_by ⟦<IpAddress as PartialEq>⟧.eq environment.entry.now) socket.old out.old
        result.0 result.1 socket.new out.new }
    ensures within { result.1.len ≤ length out.old }
    ensures fits { result.1.len ≤ max environment.entry.now.mtu 576 }
    ensures short { is_err result.0 ≡ true → length out.old < max environment.entry.now.mtu 576 }
{
    let mut wire = Wire {
        environment,
        out,
        len: 0,
        lost: false,
    };
    let answer = emit_message(socket, &mut wire);
    let sent = Sent {
        len: wire.len,
        lost: wire.lost,
    };
    (answer, sent)
}

// Lets the socket emit.
fn emit_packet(socket: &mut raw::Socket<'_>, wire: &mut Wire<'_>) -> Result<(), TooShort>
    ensures table { raw_dispatch.Dispatched writing_raw tt (is_sent wire.old.environment.now.checksums.ipv4) socket.old
        (sheet_of wire.old) result (sheet_of wire.new) socket.new }
    ensures kept { KeepsWire wire.old result wire.new }
{
    socket.dispatch(
        wire,
        move |cx: &mut Wire<'_>, sent: (IpRepr, &[u8])| -> Result<(), TooShort>
            ensures written { WritesRaw sent.entry.0 sent.entry.1.now (sheet_of cx.entry.now) result
                (sheet_of cx.exit.now) }
            ensures kept { KeepsWire cx.entry.now result cx.exit.now }
        { cx.write_raw(&sent.0, sent.1) },
    )
}

/// Dispatches a raw socket into `out`.
// Not inlined, so that the turn of a TCP socket stays short.
#[inline(never)]
pub(crate) fn emit_raw(
    socket: &mut raw::Socket<'_>,
    environment: &Environment,
    out: &mut [u8],
) -> (Result<(), TooShort>, Sent)
    ensures table { DispatchesRaw (facts_by ⟦<IpAddress as PartialEq>⟧.eq environment.entry.now) socket.old out.old
        result.0 result.1 socket.new out.new }
    ensures within { result.1.len ≤ length out.old }
    ensures fits { result.1.len ≤ max environment.entry.now.mtu 576 }
    ensures short { is_err result.0 ≡ true → length out.old < max environment.entry.now.mtu 576 }
{
    let mut wire = Wire {
        environment,
        out,
        len: 0,
        lost: false,
    };
    let answer = emit_packet(socket, &mut wire);
    let sent = Sent {
        len: wire.len,
        lost: wire.lost,
    };
    (answer, sent)
}
