//! How much memory sockets take.
ghost use Rattle.std.specs.Prelude.{◌≡◌, pos};
ghost use Rattle.smoltcp_c.specs.Sizes.{sizes};

use crate::answers::OK;
use crate::clock::Clock;
use sock_dgram::{icmp, raw, udp};
use sock_tcp::Socket;
use std::mem::size_of;

/// The size of each kind of socket, and of a place of its queues, in bytes.
#[repr(C)]
#[derive(Clone, Copy)]
pub struct Sizes {
    pub tcp: usize,
    pub udp: usize,
    pub udp_place: usize,
    pub raw: usize,
    pub raw_place: usize,
    pub icmp: usize,
    pub icmp_place: usize,
}

/// Writes the sizes into `out`. Answers 0.
#[unsafe(no_mangle)]
pub extern "C" fn smoltcp_sizes_nonnull(out: &mut Sizes) -> i64
    ensures answer { result ≡ pos 0 }
    ensures told { out.new ≡ sizes }
{
    *out = Sizes {
        tcp: size_of::<Socket<'static, Clock>>(),
        udp: size_of::<udp::Socket<'static>>(),
        udp_place: size_of::<udp::PacketMetadata>(),
        raw: size_of::<raw::Socket<'static>>(),
        raw_place: size_of::<raw::PacketMetadata>(),
        icmp: size_of::<icmp::Socket<'static>>(),
        icmp_place: size_of::<icmp::PacketMetadata>(),
    };
    OK
}
