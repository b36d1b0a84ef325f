//! The sockets of a host, lent: where each lies, and which were touched.
ghost use Rattle.std.specs.Prelude.{ℕ, ◌≡◌, ◌+◌, IfSome, None, Some, length, option_map, pos, slice_set};
ghost use Rattle.host_bounds.specs.Bounding.{FindsReached, at_once, bound_at};
ghost use Rattle.net_host.specs.Slots.{handle_at, icmp_at, opened_at, raw_at, tcp_at, udp_at};
ghost use Rattle.net_host.specs.Telling.{FindsEnd};
ghost use Rattle.smoltcp_c.specs.Host.{IsContext, Tells, found_answer, id_told, interface, named, slots, source_for};
ghost use Rattle.smoltcp_c.specs.Host.{v4_of, v6_of};

use crate::answers::{ERROR_SOCKET, OK};
use crate::context::Cx;
use crate::endpoints::{Address, address_in};
use crate::host::HostHandle;
use crate::host_lends::{SocketAt, icmp_place, raw_place, tcp_place, udp_place};
use crate::host_numbers::{SocketId, id_of, named};
use host_context::Words;
use ip_wire::IpAddress;
use net_host::Secret;
use smoltcp_socket::Socket;

// Where the socket lies, where it is of this kind: it may change, so its place is lent.
macro_rules! lend {
    ($h:ident, $id:ident, $out:ident, $kind:path, $place:ident) => {{
        let id = named($id);
        let sockets = &mut $h.host().sockets;
        sockets.lend_out(id.index);
        match sockets.get(id) {
            Some($kind(socket)) => {
                *$out = $place(socket);
                OK
            }
            _ => ERROR_SOCKET,
        }
    }};
}

/// Lends the TCP socket of this name: writes where it lies into `out`, and answers 0; `ERROR_SOCKET` where the host has
/// no such socket of this kind, with `out` as it was. Until the next call of the host, calls of a TCP socket may be
/// made on what lies there; the host sees then what they did.
#[unsafe(no_mangle)]
pub extern "C" fn smoltcp_host_tcp_nonnull(
    h: &mut HostHandle,
    id: &SocketId,
    out: &mut SocketAt,
) -> i64
    ensures answer { result ≡ found_answer (tcp_at (slots h.old) (named id.now)) }
    ensures missing { tcp_at (slots h.old) (named id.now) ≡ None → out.new ≡ out.old }
    ensures slots { slots h.new ≡ slots h.old }
    ensures marked { bound_at h.new.host.sockets.bounds id.now.index ≡ at_once }
    ensures bounds { h.new.host.sockets.bounds ≡ slice_set h.old.host.sockets.bounds id.now.index at_once }
    ensures interface { interface h.new ≡ interface h.old }
    ensures at { h.new.at ≡ h.old.at }
{
    lend!(h, id, out, Socket::Tcp, tcp_place)
}

/// Lends the UDP socket of this name: writes where it lies into `out`, and answers 0; `ERROR_SOCKET` where the host has
/// no such socket of this kind, with `out` as it was. Until the next call of the host, calls of a UDP socket may be
/// made on what lies there; the host sees then what they did.
#[unsafe(no_mangle)]
pub extern "C" fn smoltcp_host_udp_nonnull(
    h: &mut HostHandle,
    id: &SocketId,
    out: &mut SocketAt,
) -> i64
    ensures answer { result ≡ found_answer (udp_at (slots h.old) (named id.now)) }
    ensures missing { udp_at (slots h.old) (named id.now) ≡ None → out.new ≡ out.old }
    ensures slots { slots h.new ≡ slots h.old }
    ensures marked { bound_at h.new.host.sockets.bounds id.now.index ≡ at_once }
    ensures bounds { h.new.host.sockets.bounds ≡ slice_set h.old.host.sockets.bounds id.now.index at_once }
    ensures interface { interface h.new ≡ interface h.old }
    ensures at { h.new.at ≡ h.old.at }
{
    lend!(h, id, out, Socket::Udp, udp_place)
}

/// Lends the ICMP socket of this name: writes where it lies into `out`, and answers 0; `ERROR_SOCKET` where the host
/// has no such socket of this kind, with `out` as it was. Until the next call of the host, calls of an ICMP socket may
/// be made on what lies there; the host sees then what they did.
#[unsafe(no_mangle)]
pub extern "C" fn smoltcp_host_icmp_nonnull(
    h: &mut HostHandle,
    id: &SocketId,
    out: &mut SocketAt,
) -> i64
    ensures answer { result ≡ found_answer (icmp_at (slots h.old) (named id.now)) }
    ensures missing { icmp_at (slots h.old) (named id.now) ≡ None → out.new ≡ out.old }
    ensures slots { slots h.new ≡ slots h.old }
    ensures marked { bound_at h.new.host.sockets.bounds id.now.index ≡ at_once }
    ensures bounds { h.new.host.sockets.bounds ≡ slice_set h.old.host.sockets.bounds id.now.index at_once }
    ensures interface { interface h.new ≡ interface h.old }
    ensures at { h.new.at ≡ h.old.at }
{
    lend!(h, id, out, Socket::Icmp, icmp_place)
}

/// Lends the raw socket of this name: writes where it lies into `out`, and answers 0; `ERROR_SOCKET` where the host has
/// no such socket of this kind, with `out` as it was. Until the next call of the host, calls of a raw socket may be
/// made on what lies there; the host sees then what they did.
#[unsafe(no_mangle)]
pub extern "C" fn smoltcp_host_raw_nonnull(
    h: &mut HostHandle,
    id: &SocketId,
    out: &mut SocketAt,
) -> i64
    ensures answer { result ≡ found_answer (raw_at (slots h.old) (named id.now)) }
    ensures missing { raw_at (slots h.old) (named id.now) ≡ None → out.new ≡ out.old }
    ensures slots { slots h.new ≡ slots h.old }
    ensures marked { bound_at h.new.host.sockets.bounds id.now.index ≡ at_once }
    ensures bounds { h.new.host.sockets.bounds ≡ slice_set h.old.host.sockets.bounds id.now.index at_once }
    ensures interface { interface h.new ≡ interface h.old }
    ensures at { h.new.at ≡ h.old.at }
{
    lend!(h, id, out, Socket::Raw, raw_place)
}

/// Writes the name of the socket at this place of the host into `out`, and answers 1; 0 where none is there, with `out`
/// as it was.
#[unsafe(no_mangle)]
pub extern "C" fn smoltcp_host_at_nonnull(
    h: &mut HostHandle,
    index: usize,
    out: &mut SocketId,
) -> i64
    ensures told { Tells (option_map (λ s. id_told s) (handle_at (slots h.old) index)) out.old result out.new }
    ensures at { h.new.at ≡ h.old.at }
    ensures same { h.new.host ≡ h.old.host }
{
    match h.host().sockets.handle_at(index) {
        Some(handle) => {
            *out = id_of(handle);
            1
        }
        None => 0,
    }
}

/// Writes the first place from one on whose socket took a packet or was lent since `emit` last asked it, into
/// `out`, and answers 1; 0 where there is none, with `out` as it was.
#[unsafe(no_mangle)]
pub extern "C" fn smoltcp_host_touched_nonnull(
    h: &mut HostHandle,
    from: usize,
    out: &mut usize,
) -> i64
    ensures found { result ≡ pos 1 → FindsReached h.old.host.sockets.bounds from
        (length h.old.host.sockets.bounds) at_once (Some out.new) }
    ensures none { (result ≡ pos 1 → ⊥) → (result ≡ pos 0) × (out.new ≡ out.old)
        × FindsReached h.old.host.sockets.bounds from (length h.old.host.sockets.bounds) at_once None }
    ensures at { h.new.at ≡ h.old.at }
    ensures same { h.new.host ≡ h.old.host }
{
    match h.host().sockets.touched(from) {
        Some(place) => {
            *out = place;
            1
        }
        None => 0,
    }
}

/// Writes the first place from one on whose connection ended within `emit`, by a timer, its guard or an address that
/// was lost, since it was lent last, into `out`, and answers 1; 0 where there is none, with `out` as it was. As
/// `SocketSet::ended`.
#[unsafe(no_mangle)]
pub extern "C" fn smoltcp_host_ended_nonnull(
    h: &mut HostHandle,
    from: usize,
    out: &mut usize,
) -> i64
    ensures found { result ≡ pos 1
        → FindsEnd h.old.host.sockets.ended from (length (slots h.old)) (Some out.new) }
    ensures none { (result ≡ pos 1 → ⊥) → (result ≡ pos 0) × (out.new ≡ out.old)
        × FindsEnd h.old.host.sockets.ended from (length (slots h.old)) None }
    ensures at { h.new.at ≡ h.old.at }
    ensures same { h.new.host ≡ h.old.host }
{
    match h.host().sockets.ended(from) {
        Some(place) => {
            *out = place;
            1
        }
        None => 0,
    }
}

/// Writes how many SYNs have opened the socket of this name since it was added, modulo 2^64, into `out`, and answers 0;
/// `ERROR_SOCKET` where the host has no socket of this name, with `out` as it was. As `SocketSet::opened`.
#[unsafe(no_mangle)]
pub extern "C" fn smoltcp_host_opened_nonnull(
    h: &mut HostHandle,
    id: &SocketId,
    out: &mut u64,
) -> i64
    ensures answer { result ≡ found_answer (opened_at (slots h.old) (named id.now)) }
    ensures told { IfSome (opened_at (slots h.old) (named id.now)) (λ n. out.new ≡ n) }
    ensures missing { opened_at (slots h.old) (named id.now) ≡ None → out.new ≡ out.old }
    ensures at { h.new.at ≡ h.old.at }
    ensures same { h.new.host ≡ h.old.host }
{
    match h.host().sockets.opened(named(id)) {
        Some(count) => {
            *out = count;
            OK
        }
        None => ERROR_SOCKET,
    }
}

/// Writes the context of a call into `out`, for a connection to this address: the host's moment and MTU, a fresh random
/// word, and the own address from which packets go there, zeros where there is none. Answers 0.
#[unsafe(no_mangle)]
pub extern "C" fn smoltcp_host_context_nonnull(
    h: &mut HostHandle,
    remote: &Address,
    out: &mut Cx,
) -> i64
    ensures answer { result ≡ pos 0 }
    ensures told { IsContext h.old remote.now (⟦<Secret as Words>⟧.word_at (interface h.old).inner.words 0) out.new }
    ensures words { (k : ℕ) → ⟦<Secret as Words>⟧.word_at (interface h.new).inner.words k
        ≡ ⟦<Secret as Words>⟧.word_at (interface h.old).inner.words (k + 1) }
    ensures environment { (interface h.new).inner.environment ≡ (interface h.old).inner.environment }
    ensures interface { ((interface h.new).turn ≡ (interface h.old).turn)
        × ((interface h.new).resets ≡ (interface h.old).resets) × ((interface h.new).errors ≡ (interface h.old).errors)
        × ((interface h.new).counters ≡ (interface h.old).counters)
        × ((interface h.new).guards ≡ (interface h.old).guards)
        × ((interface h.new).cookies ≡ (interface h.old).cookies)
        × ((interface h.new).groups ≡ (interface h.old).groups) }
    ensures sockets { h.new.host.sockets ≡ h.old.host.sockets }
    ensures at { h.new.at ≡ h.old.at }
{
    let interface = &mut h.host().interface;
    let source = interface.get_source_address(&address_in(remote));
    *out = Cx {
        now: interface.now().micros,
        word: interface.rand_u32(),
        tsval: 0,
        ip_mtu: interface.ip_mtu() as u32,
        v4: v4_of(&source),
        v6: v6_of(&source),
    };
    OK
}

fn v4_of(source: &Option<IpAddress>) -> [u8; 4]
    ensures { result ≡ v4_of source.now }
{
    match source {
        Some(IpAddress::Ipv4(own)) => own.0,
        _ => [0; 4],
    }
}

fn v6_of(source: &Option<IpAddress>) -> [u8; 16]
    ensures { result ≡ v6_of source.now }
{
    match source {
        Some(IpAddress::Ipv6(own)) => own.0,
        _ => [0; 16],
    }
}
