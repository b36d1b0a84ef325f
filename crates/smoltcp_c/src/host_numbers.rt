//! What C tells a host, and is told of it, as numbers.
ghost use Rattle.std.specs.Prelude.{◌≡◌, ◌==◌, ◌||◌};
ghost use Rattle.smoltcp_c.specs.Host.{cidr_in, counters_told, guards_in, id_told, is_address, named};
ghost use Rattle.smoltcp_c.specs.Numbers.{micros_in};

use crate::endpoints::{Address, address_in};
use crate::settings::micros_in;
use net_host::counters::Counters as Counted;
use net_host::{GuardSettings, IpCidr, SocketHandle};

/// An address, and how many of its first bits are those of its network: at most 32 of IPv4, and 128 of IPv6; more count
/// as so many.
#[repr(C)]
#[derive(Clone, Copy)]
pub struct Cidr {
    pub address: Address,
    pub prefix_len: u8,
}

/// Secret bytes, drawn anew at each start of the program.
#[repr(C)]
#[derive(Clone, Copy)]
pub struct Key {
    pub bytes: [u8; 32],
}

/// Names a socket of a host. A socket that is put where another one was removed has another name.
#[repr(C)]
#[derive(Clone, Copy)]
pub struct SocketId {
    pub index: usize,
    pub generation: u64,
}

/// How long a peer may leave a TCP connection waiting, in microseconds; below 0, as long as it likes. More than 2^60
/// count as so many.
#[repr(C)]
#[derive(Clone, Copy)]
pub struct Guards {
    /// Of a handshake that a SYN began. It is given up without an RST: the socket listens again.
    pub handshake: i64,
    /// Of FIN-WAIT-2, and of bytes or a FIN that wait in FIN-WAIT-1, CLOSING or LAST-ACK with nothing newly
    /// acknowledged. The connection is aborted.
    pub closing: i64,
    /// Of bytes that wait in ESTABLISHED or CLOSE-WAIT with nothing newly acknowledged, whatever windows come meanwhile
    /// (RFC 6429; R2 of RFC 9293, section 3.8.3). The connection is aborted.
    pub window: i64,
    /// The user timeout that each socket is given (RFC 9293, section 3.9.1); below 0, each keeps its own.
    pub timeout: i64,
}

/// How many packets were dropped, by their reasons, what became of SYN cookies, and how many packets of sockets were
/// dropped, as they were longer than the MTU, or as none could be made.
#[repr(C)]
#[derive(Clone, Copy)]
pub struct Counters {
    pub malformed: u64,
    pub source: u64,
    pub destination: u64,
    pub protocol: u64,
    pub segment: u64,
    pub datagram: u64,
    pub message: u64,
    pub busy: u64,
    pub nobody: u64,
    pub full: u64,
    pub cookies_sent: u64,
    pub cookies_taken: u64,
    pub cookies_wrong: u64,
    pub too_many: u64,
    pub too_long: u64,
    pub unsent: u64,
}

/// Whether the numbers stand for an address of IPv4 or IPv6.
pub fn is_address(n: &Address) -> bool
    ensures { result ≡ is_address n.now }
{
    n.version == 4 || n.version == 6
}

/// The address and its prefix.
pub fn cidr_in(n: &Cidr) -> IpCidr
    ensures { result ≡ cidr_in n.now }
{
    IpCidr {
        address: address_in(&n.address),
        prefix_len: n.prefix_len,
    }
}

/// The handle that the numbers stand for.
pub fn named(id: &SocketId) -> SocketHandle
    ensures { result ≡ named id.now }
{
    SocketHandle {
        index: id.index,
        generation: id.generation,
    }
}

/// The numbers for a handle.
pub fn id_of(handle: SocketHandle) -> SocketId
    ensures { result ≡ id_told handle }
{
    SocketId {
        index: handle.index,
        generation: handle.generation,
    }
}

/// The limits that the numbers stand for.
pub fn guards_in(n: &Guards) -> GuardSettings
    ensures { result ≡ guards_in n.now }
{
    GuardSettings {
        handshake: micros_in(n.handshake),
        closing: micros_in(n.closing),
        window: micros_in(n.window),
        timeout: micros_in(n.timeout),
    }
}

/// The numbers of what was counted.
pub fn counters_of(c: Counted) -> Counters
    ensures { result ≡ counters_told c }
{
    Counters {
        malformed: c.malformed,
        source: c.source,
        destination: c.destination,
        protocol: c.protocol,
        segment: c.segment,
        datagram: c.datagram,
        message: c.message,
        busy: c.busy,
        nobody: c.nobody,
        full: c.full,
        cookies_sent: c.cookies_sent,
        cookies_taken: c.cookies_taken,
        cookies_wrong: c.cookies_wrong,
        too_many: c.too_many,
        too_long: c.too_long,
        unsent: c.unsent,
    }
}
