//! The sockets of a host: put in, and taken out.
ghost use Rattle.std.specs.Prelude.{◌≡◌, IfSome, None, Some, is_some, true, pos};
ghost use Rattle.net_host.specs.Slots.{Empties, Fills, IsFree, icmp_at, raw_at, tcp_at, udp_at};
ghost use Rattle.net_host.specs.Walks.{ChangesAt, Finds};
ghost use Rattle.smoltcp_socket.specs.declared.socket.Socket.TheVariants as kinds;
ghost use Rattle.smoltcp_c.specs.Answers.{error_room};
ghost use Rattle.smoltcp_c.specs.Host.{found_answer, interface, named, slots};

use crate::answers::{ERROR_ROOM, ERROR_SOCKET, OK};
use crate::handles::{IcmpRoom, RawRoom, TcpRoom, UdpRoom};
use crate::host::HostHandle;
use crate::host_numbers::{SocketId, id_of, named};
use smoltcp_socket::Socket;

// The socket moves out of its room into the host; where no place is free, it moves back.
macro_rules! add {
    ($h:ident, $room:ident, $out:ident, $kind:path) => {
        match $h.host().sockets.add($kind($room.take())) {
            Ok(handle) => {
                *$out = id_of(handle);
                OK
            }
            Err(socket) => {
                if let $kind(socket) = socket {
                    $room.fill(socket);
                }
                ERROR_ROOM
            }
        }
    };
}

// The socket moves out of the host into the room, where it is of this kind.
macro_rules! remove {
    ($h:ident, $id:ident, $room:ident, $kind:path) => {{
        let id = named($id);
        let sockets = &mut $h.host().sockets;
        if !matches!(sockets.get(id), Some($kind(_))) {
            return ERROR_SOCKET;
        }
        if let Some($kind(socket)) = sockets.remove(id) {
            $room.fill(socket);
        }
        OK
    }};
}

/// Moves the TCP socket out of the room into the first place of the host that is free, and writes its name into `out`.
/// 0; `ERROR_ROOM` where no place is free, with nothing changed.
#[unsafe(no_mangle)]
pub extern "C" fn smoltcp_host_add_tcp_nonnull(
    h: &mut HostHandle,
    room: &mut TcpRoom,
    out: &mut SocketId,
) -> i64
    requires there { is_some room.old.made ≡ true }
    ensures first { result ≡ pos 0 → Finds IsFree (slots h.old) (Some out.new.index) }
    ensures filled { result ≡ pos 0 → IfSome room.old.made
        (λ s. ChangesAt (Fills (kinds.Tcp s) (named out.new)) (slots h.old) out.new.index (slots h.new)) }
    ensures empty { result ≡ pos 0 → room.new.made ≡ None }
    ensures full { (result ≡ pos 0 → ⊥) → (result ≡ error_room) × Finds IsFree (slots h.old) None }
    ensures refused { (result ≡ pos 0 → ⊥) → (out.new ≡ out.old) × (room.new.made ≡ room.old.made)
        × (h.new.host ≡ h.old.host) }
    ensures interface { interface h.new ≡ interface h.old }
    ensures at { (h.new.at ≡ h.old.at) × (room.new.at ≡ room.old.at) }
{
    add!(h, room, out, Socket::Tcp)
}

/// Moves the TCP socket of this name out of the host into the room. 0; `ERROR_SOCKET` where the host has no such socket
/// of this kind, with nothing changed.
#[unsafe(no_mangle)]
pub extern "C" fn smoltcp_host_remove_tcp_nonnull(
    h: &mut HostHandle,
    id: &SocketId,
    room: &mut TcpRoom,
) -> i64
    requires empty { room.old.made ≡ None }
    ensures answer { result ≡ found_answer (tcp_at (slots h.old) (named id.now)) }
    ensures socket { room.new.made ≡ tcp_at (slots h.old) (named id.now) }
    ensures emptied { IfSome (tcp_at (slots h.old) (named id.now))
        (λ s. ChangesAt (Empties (kinds.Tcp s)) (slots h.old) id.now.index (slots h.new)) }
    ensures missing { tcp_at (slots h.old) (named id.now) ≡ None → h.new.host ≡ h.old.host }
    ensures interface { interface h.new ≡ interface h.old }
    ensures at { (h.new.at ≡ h.old.at) × (room.new.at ≡ room.old.at) }
{
    remove!(h, id, room, Socket::Tcp)
}

/// Moves the UDP socket out of the room into the first place of the host that is free, and writes its name into `out`.
/// 0; `ERROR_ROOM` where no place is free, with nothing changed.
#[unsafe(no_mangle)]
pub extern "C" fn smoltcp_host_add_udp_nonnull(
    h: &mut HostHandle,
    room: &mut UdpRoom,
    out: &mut SocketId,
) -> i64
    requires there { is_some room.old.made ≡ true }
    ensures first { result ≡ pos 0 → Finds IsFree (slots h.old) (Some out.new.index) }
    ensures filled { result ≡ pos 0 → IfSome room.old.made
        (λ s. ChangesAt (Fills (kinds.Udp s) (named out.new)) (slots h.old) out.new.index (slots h.new)) }
    ensures empty { result ≡ pos 0 → room.new.made ≡ None }
    ensures full { (result ≡ pos 0 → ⊥) → (result ≡ error_room) × Finds IsFree (slots h.old) None }
    ensures refused { (result ≡ pos 0 → ⊥) → (out.new ≡ out.old) × (room.new.made ≡ room.old.made)
        × (h.new.host ≡ h.old.host) }
    ensures interface { interface h.new ≡ interface h.old }
    ensures at { (h.new.at ≡ h.old.at) × (room.new.at ≡ room.old.at) }
{
    add!(h, room, out, Socket::Udp)
}

/// Moves the UDP socket of this name out of the host into the room. 0; `ERROR_SOCKET` where the host has no such socket
/// of this kind, with nothing changed.
#[unsafe(no_mangle)]
pub extern "C" fn smoltcp_host_remove_udp_nonnull(
    h: &mut HostHandle,
    id: &SocketId,
    room: &mut UdpRoom,
) -> i64
    requires empty { room.old.made ≡ None }
    ensures answer { result ≡ found_answer (udp_at (slots h.old) (named id.now)) }
    ensures socket { room.new.made ≡ udp_at (slots h.old) (named id.now) }
    ensures emptied { IfSome (udp_at (slots h.old) (named id.now))
        (λ s. ChangesAt (Empties (kinds.Udp s)) (slots h.old) id.now.index (slots h.new)) }
    ensures missing { udp_at (slots h.old) (named id.now) ≡ None → h.new.host ≡ h.old.host }
    ensures interface { interface h.new ≡ interface h.old }
    ensures at { (h.new.at ≡ h.old.at) × (room.new.at ≡ room.old.at) }
{
    remove!(h, id, room, Socket::Udp)
}

/// Moves the ICMP socket out of the room into the first place of the host that is free, and writes its name into `out`.
/// 0; `ERROR_ROOM` where no place is free, with nothing changed.
#[unsafe(no_mangle)]
pub extern "C" fn smoltcp_host_add_icmp_nonnull(
    h: &mut HostHandle,
    room: &mut IcmpRoom,
    out: &mut SocketId,
) -> i64
    requires there { is_some room.old.made ≡ true }
    ensures first { result ≡ pos 0 → Finds IsFree (slots h.old) (Some out.new.index) }
    ensures filled { result ≡ pos 0 → IfSome room.old.made
        (λ s. ChangesAt (Fills (kinds.Icmp s) (named out.new)) (slots h.old) out.new.index (slots h.new)) }
    ensures empty { result ≡ pos 0 → room.new.made ≡ None }
    ensures full { (result ≡ pos 0 → ⊥) → (result ≡ error_room) × Finds IsFree (slots h.old) None }
    ensures refused { (result ≡ pos 0 → ⊥) → (out.new ≡ out.old) × (room.new.made ≡ room.old.made)
        × (h.new.host ≡ h.old.host) }
    ensures interface { interface h.new ≡ interface h.old }
    ensures at { (h.new.at ≡ h.old.at) × (room.new.at ≡ room.old.at) }
{
    add!(h, room, out, Socket::Icmp)
}

/// Moves the ICMP socket of this name out of the host into the room. 0; `ERROR_SOCKET` where the host has no such
/// socket of this kind, with nothing changed.
#[unsafe(no_mangle)]
pub extern "C" fn smoltcp_host_remove_icmp_nonnull(
    h: &mut HostHandle,
    id: &SocketId,
    room: &mut IcmpRoom,
) -> i64
    requires empty { room.old.made ≡ None }
    ensures answer { result ≡ found_answer (icmp_at (slots h.old) (named id.now)) }
    ensures socket { room.new.made ≡ icmp_at (slots h.old) (named id.now) }
    ensures emptied { IfSome (icmp_at (slots h.old) (named id.now))
        (λ s. ChangesAt (Empties (kinds.Icmp s)) (slots h.old) id.now.index (slots h.new)) }
    ensures missing { icmp_at (slots h.old) (named id.now) ≡ None → h.new.host ≡ h.old.host }
    ensures interface { interface h.new ≡ interface h.old }
    ensures at { (h.new.at ≡ h.old.at) × (room.new.at ≡ room.old.at) }
{
    remove!(h, id, room, Socket::Icmp)
}

/// Moves the raw socket out of the room into the first place of the host that is free, and writes its name into `out`.
/// 0; `ERROR_ROOM` where no place is free, with nothing changed.
#[unsafe(no_mangle)]
pub extern "C" fn smoltcp_host_add_raw_nonnull(
    h: &mut HostHandle,
    room: &mut RawRoom,
    out: &mut SocketId,
) -> i64
    requires there { is_some room.old.made ≡ true }
    ensures first { result ≡ pos 0 → Finds IsFree (slots h.old) (Some out.new.index) }
    ensures filled { result ≡ pos 0 → IfSome room.old.made
        (λ s. ChangesAt (Fills (kinds.Raw s) (named out.new)) (slots h.old) out.new.index (slots h.new)) }
    ensures empty { result ≡ pos 0 → room.new.made ≡ None }
    ensures full { (result ≡ pos 0 → ⊥) → (result ≡ error_room) × Finds IsFree (slots h.old) None }
    ensures refused { (result ≡ pos 0 → ⊥) → (out.new ≡ out.old) × (room.new.made ≡ room.old.made)
        × (h.new.host ≡ h.old.host) }
    ensures interface { interface h.new ≡ interface h.old }
    ensures at { (h.new.at ≡ h.old.at) × (room.new.at ≡ room.old.at) }
{
    add!(h, room, out, Socket::Raw)
}

/// Moves the raw socket of this name out of the host into the room. 0; `ERROR_SOCKET` where the host has no such socket
/// of this kind, with nothing changed.
#[unsafe(no_mangle)]
pub extern "C" fn smoltcp_host_remove_raw_nonnull(
    h: &mut HostHandle,
    id: &SocketId,
    room: &mut RawRoom,
) -> i64
    requires empty { room.old.made ≡ None }
    ensures answer { result ≡ found_answer (raw_at (slots h.old) (named id.now)) }
    ensures socket { room.new.made ≡ raw_at (slots h.old) (named id.now) }
    ensures emptied { IfSome (raw_at (slots h.old) (named id.now))
        (λ s. ChangesAt (Empties (kinds.Raw s)) (slots h.old) id.now.index (slots h.new)) }
    ensures missing { raw_at (slots h.old) (named id.now) ≡ None → h.new.host ≡ h.old.host }
    ensures interface { interface h.new ≡ interface h.old }
    ensures at { (h.new.at ≡ h.old.at) × (room.new.at ≡ room.old.at) }
{
    remove!(h, id, room, Socket::Raw)
}
