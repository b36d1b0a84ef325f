//! Sockets and places of their queues in the memory of the caller.
ghost use Rattle.std.specs.Prelude.{Bool, Option};
ghost use Rattle.std.specs.Borrow.{full_share};
ghost use Rattle.std.specs.Coded.{coded_option};
ghost use Rattle.std.specs.Ptr.{lies_at};
ghost use denote.Signature.{static_lft};
ghost use Rattle.ip_wire.specs.declared.address.IpAddress.{IpAddress};
ghost use Rattle.net_base.specs.declared.packet_buffer.PacketMetadata.{PacketMetadata};
ghost use Rattle.sock_dgram.specs.Icmp.{View as IcmpView};
ghost use Rattle.sock_dgram.specs.Raw.{View as RawView};
ghost use Rattle.sock_dgram.specs.Udp.{View as UdpView};
ghost use Rattle.sock_dgram.specs.contracts.icmp.socket.Socket.{the_row as icmp_row};
ghost use Rattle.sock_dgram.specs.contracts.raw.socket.Socket.{the_row as raw_row};
ghost use Rattle.sock_dgram.specs.contracts.udp.socket.Socket.{the_row as udp_row};
ghost use Rattle.sock_dgram.specs.declared.icmp.socket.Socket.{the_code as icmp_code};
ghost use Rattle.sock_dgram.specs.declared.raw.socket.Socket.{the_code as raw_code};
ghost use Rattle.sock_dgram.specs.declared.udp.socket.Socket.{the_code as udp_code};
ghost use Rattle.sock_dgram.specs.declared.udp.socket.UdpMetadata.{UdpMetadata};
ghost use Rattle.sock_tcp.specs.contracts.socket.Socket.{the_row as tcp_row};
ghost use Rattle.sock_tcp.specs.declared.socket.Socket.{Socket};
ghost use Rattle.smoltcp_c.specs.Memory.{held_at, items_at, items_if};
ghost use Rattle.smoltcp_c.specs.Places.{icmp_place_row, raw_place_row, udp_place_row};
ghost use Rattle.smoltcp_c.specs.contracts.clock.Clock.{the_row as clock_row};
ghost use Rattle.smoltcp_c.specs.declared.clock.Clock.{Clock};

use std::marker::Model;

/// A TCP socket that lies at `at`.
#[repr(C)]
pub struct TcpHandle {
    pub at: *mut u8,
    pub ghost socket: { Socket Clock },
}

impl Model for TcpHandle {
    ghost also_owns = { λ h. lies_at (tcp_row static_lft clock_row) full_share h.at h.socket };
}

/// Room for a TCP socket at `at`, or the socket that was made there.
#[repr(C)]
pub struct TcpRoom {
    pub at: *mut u8,
    pub ghost made: { Option (Socket Clock) },
}

impl Model for TcpRoom {
    ghost also_owns = { λ r. held_at (tcp_row static_lft clock_row) r.at r.made };
}

/// A UDP socket that lies at `at`.
#[repr(C)]
pub struct UdpHandle {
    pub at: *mut u8,
    pub ghost socket: { UdpView } by { udp_code },
}

impl Model for UdpHandle {
    ghost also_owns = { λ h. lies_at (udp_row static_lft) full_share h.at h.socket };
}

/// Room for a UDP socket at `at`, or the socket that was made there.
#[repr(C)]
pub struct UdpRoom {
    pub at: *mut u8,
    pub ghost made: { Option UdpView } by { coded_option udp_code },
}

impl Model for UdpRoom {
    ghost also_owns = { λ r. held_at (udp_row static_lft) r.at r.made };
}

/// Room for a place of a queue at `at`, or the place that was made there.
#[repr(C)]
pub struct UdpPlaceRoom {
    pub at: *mut u8,
    pub ghost made: { Option (PacketMetadata UdpMetadata) },
}

impl Model for UdpPlaceRoom {
    ghost also_owns = { λ r. held_at udp_place_row r.at r.made };
}

/// Places of a queue that nothing else uses from now on.
#[repr(C)]
pub struct UdpPlaces {
    pub at: *mut u8,
    pub len: usize,
}

impl Model for UdpPlaces {
    ghost also_owns = { λ p. items_at udp_place_row p.at p.len };
}

/// Places that were a socket's and are C's again, or none yet.
#[repr(C)]
#[derive(Drop)]
pub struct UdpPlacesBack {
    pub at: *mut u8,
    pub len: usize,
    pub ghost given: { Bool },
}

impl Model for UdpPlacesBack {
    ghost also_owns = { λ p. items_if udp_place_row p.at p.len p.given };
}

/// An ICMP socket that lies at `at`.
#[repr(C)]
pub struct IcmpHandle {
    pub at: *mut u8,
    pub ghost socket: { IcmpView } by { icmp_code },
}

impl Model for IcmpHandle {
    ghost also_owns = { λ h. lies_at (icmp_row static_lft) full_share h.at h.socket };
}

/// Room for an ICMP socket at `at`, or the socket that was made there.
#[repr(C)]
pub struct IcmpRoom {
    pub at: *mut u8,
    pub ghost made: { Option IcmpView } by { coded_option icmp_code },
}

impl Model for IcmpRoom {
    ghost also_owns = { λ r. held_at (icmp_row static_lft) r.at r.made };
}

/// Room for a place of a queue at `at`, or the place that was made there.
#[repr(C)]
pub struct IcmpPlaceRoom {
    pub at: *mut u8,
    pub ghost made: { Option (PacketMetadata IpAddress) },
}

impl Model for IcmpPlaceRoom {
    ghost also_owns = { λ r. held_at icmp_place_row r.at r.made };
}

/// Places of a queue that nothing else uses from now on.
#[repr(C)]
pub struct IcmpPlaces {
    pub at: *mut u8,
    pub len: usize,
}

impl Model for IcmpPlaces {
    ghost also_owns = { λ p. items_at icmp_place_row p.at p.len };
}

/// Places that were a socket's and are C's again, or none yet.
#[repr(C)]
#[derive(Drop)]
pub struct IcmpPlacesBack {
    pub at: *mut u8,
    pub len: usize,
    pub ghost given: { Bool },
}

impl Model for IcmpPlacesBack {
    ghost also_owns = { λ p. items_if icmp_place_row p.at p.len p.given };
}

/// A raw socket that lies at `at`.
#[repr(C)]
pub struct RawHandle {
    pub at: *mut u8,
    pub ghost socket: { RawView } by { raw_code },
}

impl Model for RawHandle {
    ghost also_owns = { λ h. lies_at (raw_row static_lft) full_share h.at h.socket };
}

/// Room for a raw socket at `at`, or the socket that was made there.
#[repr(C)]
pub struct RawRoom {
    pub at: *mut u8,
    pub ghost made: { Option RawView } by { coded_option raw_code },
}

impl Model for RawRoom {
    ghost also_owns = { λ r. held_at (raw_row static_lft) r.at r.made };
}

/// Room for a place of a queue at `at`, or the place that was made there.
#[repr(C)]
pub struct RawPlaceRoom {
    pub at: *mut u8,
    pub ghost made: { Option (PacketMetadata (Unit {0})) },
}

impl Model for RawPlaceRoom {
    ghost also_owns = { λ r. held_at raw_place_row r.at r.made };
}

/// Places of a queue that nothing else uses from now on.
#[repr(C)]
pub struct RawPlaces {
    pub at: *mut u8,
    pub len: usize,
}

impl Model for RawPlaces {
    ghost also_owns = { λ p. items_at raw_place_row p.at p.len };
}

/// Places that were a socket's and are C's again, or none yet.
#[repr(C)]
#[derive(Drop)]
pub struct RawPlacesBack {
    pub at: *mut u8,
    pub len: usize,
    pub ghost given: { Bool },
}

impl Model for RawPlacesBack {
    ghost also_owns = { λ p. items_if raw_place_row p.at p.len p.given };
}
