//! Sockets and bytes lent from the memory that C gave: the functions with raw pointers, proved by hand.
ghost use Rattle.std.specs.Prelude.{◌≡◌, ◌≤◌, ◌^◌, length, None, Some, is_some, true};
ghost use Rattle.std.specs.Borrow.{follows};
ghost use Rattle.std.specs.Ptr.{as_ptr};
ghost use denote.Signature.{static_lft};
ghost use types.Logic.{sem};
ghost use Rattle.smoltcp_c.specs.contracts.clock.Clock.{the_row as clock_row};
ghost use Rattle.sock_tcp.specs.contracts.socket.Socket.{the_row as socket_row};
ghost use Rattle.smoltcp_c.specs.contracts.handles.TcpHandle.{the_row as handle_row};
ghost use Rattle.smoltcp_c.specs.contracts.handles.IcmpHandle.{the_row as icmp_handle_row};
ghost use Rattle.smoltcp_c.specs.contracts.handles.RawHandle.{the_row as raw_handle_row};
ghost use Rattle.smoltcp_c.specs.contracts.handles.UdpHandle.{the_row as udp_handle_row};
ghost use Rattle.sock_dgram.specs.contracts.icmp.socket.Socket.{the_row as icmp_row};
ghost use Rattle.sock_dgram.specs.contracts.raw.socket.Socket.{the_row as raw_row};
ghost use Rattle.sock_dgram.specs.contracts.udp.socket.Socket.{the_row as udp_row};

use crate::clock::Clock;
use crate::handles::{
    IcmpHandle, IcmpPlaceRoom, IcmpPlaces, IcmpPlacesBack, IcmpRoom, RawHandle, RawPlaceRoom,
    RawPlaces, RawPlacesBack, RawRoom, TcpHandle, TcpRoom, UdpHandle, UdpPlaceRoom, UdpPlaces,
    UdpPlacesBack, UdpRoom,
};
use crate::memory::{Bytes, BytesBack, Place};
use sock_dgram::{icmp, raw, udp};
use sock_tcp::Socket;

impl TcpHandle {
    /// The socket: what is done to it is done to the handle's.
    pub fn socket(&mut self) -> &mut Socket<'static, Clock>
        ensures* writes_back { sem 𝓛 (follows handle_row (socket_row static_lft clock_row) self.entry.ghost_name
            result.ghost_name (λ w. record self.old { socket = w })) }
        ensures value { result.now ≡ self.old.socket }
    {
        unsafe { &mut *(self.at as *mut Socket<'static, Clock>) }
    }
}

impl TcpRoom {
    /// Puts the socket there.
    pub fn fill(&mut self, socket: Socket<'static, Clock>)
        requires empty { self.old.made ≡ None }
        ensures made { self.new ≡ record self.old { made = Some socket.entry } }
    {
        unsafe {
            (self.at as *mut Socket<'static, Clock>).write(socket);
        }
    }

    /// Moves the socket out, and leaves room for another.
    pub fn take(&mut self) -> Socket<'static, Clock>
        requires there { is_some self.old.made ≡ true }
        ensures socket { self.old.made ≡ Some result }
        ensures empty { self.new ≡ record self.old { made = None } }
    {
        unsafe { (self.at as *mut Socket<'static, Clock>).read() }
    }
}

impl IcmpHandle {
    /// The socket: what is done to it is done to the handle's.
    pub fn socket(&mut self) -> &mut icmp::Socket<'static>
        ensures* writes_back { sem 𝓛 (follows icmp_handle_row (icmp_row static_lft) self.entry.ghost_name
            result.ghost_name (λ w. record self.old { socket = w })) }
        ensures value { result.now ≡ self.old.socket }
    {
        unsafe { &mut *(self.at as *mut icmp::Socket<'static>) }
    }
}

impl IcmpRoom {
    /// Puts the socket there.
    pub fn fill(&mut self, socket: icmp::Socket<'static>)
        requires empty { self.old.made ≡ None }
        ensures made { self.new ≡ record self.old { made = Some socket.entry } }
    {
        unsafe {
            (self.at as *mut icmp::Socket<'static>).write(socket);
        }
    }

    /// Moves the socket out, and leaves room for another.
    pub fn take(&mut self) -> icmp::Socket<'static>
        requires there { is_some self.old.made ≡ true }
        ensures socket { self.old.made ≡ Some result }
        ensures empty { self.new ≡ record self.old { made = None } }
    {
        unsafe { (self.at as *mut icmp::Socket<'static>).read() }
    }
}

impl IcmpPlaceRoom {
    /// Puts the place there.
    pub fn fill(&mut self, place: icmp::PacketMetadata)
        requires empty { self.old.made ≡ None }
        ensures made { self.new ≡ record self.old { made = Some place } }
    {
        unsafe {
            (self.at as *mut icmp::PacketMetadata).write(place);
        }
    }
}

impl IcmpPlaces {
    /// The places, as a borrow that never ends.
    pub fn lend(self) -> &'static mut [icmp::PacketMetadata]
        requires short { self.len ≤ 2 ^ 30 }
        ensures len { self.len ≡ length result.now }
    {
        let IcmpPlaces { at, len } = self;
        unsafe { std::slice::from_raw_parts_mut(at as *mut icmp::PacketMetadata, len) }
    }
}

impl IcmpPlacesBack {
    /// Of places that were lent so, and that nothing else uses any more.
    pub fn of(places: &'static mut [icmp::PacketMetadata]) -> IcmpPlacesBack
        ensures len { result.len ≡ length places.old }
        ensures given { result.given ≡ true }
    {
        IcmpPlacesBack {
            at: places.as_mut_ptr() as *mut u8,
            len: places.len(),
        }
    }
}

impl UdpHandle {
    /// The socket: what is done to it is done to the handle's.
    pub fn socket(&mut self) -> &mut udp::Socket<'static>
        ensures* writes_back { sem 𝓛 (follows udp_handle_row (udp_row static_lft) self.entry.ghost_name
            result.ghost_name (λ w. record self.old { socket = w })) }
        ensures value { result.now ≡ self.old.socket }
    {
        unsafe { &mut *(self.at as *mut udp::Socket<'static>) }
    }
}

impl UdpRoom {
    /// Puts the socket there.
    pub fn fill(&mut self, socket: udp::Socket<'static>)
        requires empty { self.old.made ≡ None }
        ensures made { self.new ≡ record self.old { made = Some socket.entry } }
    {
        unsafe {
            (self.at as *mut udp::Socket<'static>).write(socket);
        }
    }

    /// Moves the socket out, and leaves room for another.
    pub fn take(&mut self) -> udp::Socket<'static>
        requires there { is_some self.old.made ≡ true }
        ensures socket { self.old.made ≡ Some result }
        ensures empty { self.new ≡ record self.old { made = None } }
    {
        unsafe { (self.at as *mut udp::Socket<'static>).read() }
    }
}

impl UdpPlaceRoom {
    /// Puts the place there.
    pub fn fill(&mut self, place: udp::PacketMetadata)
        requires empty { self.old.made ≡ None }
        ensures made { self.new ≡ record self.old { made = Some place } }
    {
        unsafe {
            (self.at as *mut udp::PacketMetadata).write(place);
        }
    }
}

impl UdpPlaces {
    /// The places, as a borrow that never ends.
    pub fn lend(self) -> &'static mut [udp::PacketMetadata]
        requires short { self.len ≤ 2 ^ 30 }
        ensures len { self.len ≡ length result.now }
    {
        let UdpPlaces { at, len } = self;
        unsafe { std::slice::from_raw_parts_mut(at as *mut udp::PacketMetadata, len) }
    }
}

impl UdpPlacesBack {
    /// Of places that were lent so, and that nothing else uses any more.
    pub fn of(places: &'static mut [udp::PacketMetadata]) -> UdpPlacesBack
        ensures len { result.len ≡ length places.old }
        ensures given { result.given ≡ true }
    {
        UdpPlacesBack {
            at: places.as_mut_ptr() as *mut u8,
            len: places.len(),
        }
    }
}

impl RawHandle {
    /// The socket: what is done to it is done to the handle's.
    pub fn socket(&mut self) -> &mut raw::Socket<'static>
        ensures* writes_back { sem 𝓛 (follows raw_handle_row (raw_row static_lft) self.entry.ghost_name
            result.ghost_name (λ w. record self.old { socket = w })) }
        ensures value { result.now ≡ self.old.socket }
    {
        unsafe { &mut *(self.at as *mut raw::Socket<'static>) }
    }
}

impl RawRoom {
    /// Puts the socket there.
    pub fn fill(&mut self, socket: raw::Socket<'static>)
        requires empty { self.old.made ≡ None }
        ensures made { self.new ≡ record self.old { made = Some socket.entry } }
    {
        unsafe {
            (self.at as *mut raw::Socket<'static>).write(socket);
        }
    }

    /// Moves the socket out, and leaves room for another.
    pub fn take(&mut self) -> raw::Socket<'static>
        requires there { is_some self.old.made ≡ true }
        ensures socket { self.old.made ≡ Some result }
        ensures empty { self.new ≡ record self.old { made = None } }
    {
        unsafe { (self.at as *mut raw::Socket<'static>).read() }
    }
}

impl RawPlaceRoom {
    /// Puts the place there.
    pub fn fill(&mut self, place: raw::PacketMetadata)
        requires empty { self.old.made ≡ None }
        ensures made { self.new ≡ record self.old { made = Some place } }
    {
        unsafe {
            (self.at as *mut raw::PacketMetadata).write(place);
        }
    }
}

impl RawPlaces {
    /// The places, as a borrow that never ends.
    pub fn lend(self) -> &'static mut [raw::PacketMetadata]
        requires short { self.len ≤ 2 ^ 30 }
        ensures len { self.len ≡ length result.now }
    {
        let RawPlaces { at, len } = self;
        unsafe { std::slice::from_raw_parts_mut(at as *mut raw::PacketMetadata, len) }
    }
}

impl RawPlacesBack {
    /// Of places that were lent so, and that nothing else uses any more.
    pub fn of(places: &'static mut [raw::PacketMetadata]) -> RawPlacesBack
        ensures len { result.len ≡ length places.old }
        ensures given { result.given ≡ true }
    {
        RawPlacesBack {
            at: places.as_mut_ptr() as *mut u8,
            len: places.len(),
        }
    }
}

impl Bytes {
    /// The bytes, as a borrow that never ends.
    pub fn lend(self) -> &'static mut [u8]
        requires short { self.len ≤ 2 ^ 30 }
        ensures bytes { result.now ≡ self.bytes }
        ensures len { self.len ≡ length result.now }
    {
        let Bytes { at, len } = self;
        unsafe { std::slice::from_raw_parts_mut(at, len) }
    }
}

impl BytesBack {
    /// Of bytes that were lent so, and that nothing else uses any more.
    pub fn of(bytes: &'static mut [u8]) -> BytesBack
        ensures len { result.len ≡ length bytes.old }
        ensures given { result.given ≡ true }
    {
        BytesBack {
            at: bytes.as_mut_ptr(),
            len: bytes.len(),
        }
    }
}

/// Where the bytes lie.
pub fn place(bytes: &[u8]) -> Place
    ensures at { result.at ≡ as_ptr bytes.entry }
    ensures len { result.len ≡ length bytes.now }
{
    Place {
        at: bytes.as_ptr(),
        len: bytes.len(),
    }
}
