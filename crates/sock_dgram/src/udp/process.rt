//! Datagrams that come in.
ghost use Rattle.std.specs.Prelude.{◌≡◌, ◌↔◌, ◌++◌, [], ◌∷◌, IsTrue, length, cond};
ghost use Rattle.net_base.specs.Packets.{takes};
ghost use Rattle.sock_dgram.specs.Datagrams.{stored};
ghost use Rattle.sock_dgram.specs.Udp.{received, IsAddressed, Accepts, metadata_of};
ghost use Rattle.sock_dgram.specs.UdpCalls.{Effect, Process};

use crate::queue::store;
use crate::udp::socket::{Socket, UdpMetadata};
use control_wire::UdpRepr;
use ip_wire::{IpAddress, IpEndpoint, IpRepr};
use sock_core::Context;

// Whether a datagram to `dst` is for a socket that is bound to this address, or to none.
fn is_addressed<C: Context>(cx: &C, bound: Option<IpAddress>, dst: IpAddress) -> bool
    ensures { IsTrue result ↔ IsAddressed bound (C.facts cx.now) dst }
{
    match bound {
        None => true,
        Some(bound) => bound == dst || cx.is_broadcast(&dst) || dst.is_multicast(),
    }
}

impl<'a> Socket<'a> {
    /// Whether a datagram is for this socket: its port is the bound one, and the bound address is absent or the
    /// datagram's destination, or the destination is a broadcast or multicast address.
    pub fn accepts<C: Context>(&self, cx: &C, ip_repr: &IpRepr, repr: &UdpRepr) -> bool
        ensures { IsTrue result ↔ Accepts self.now (C.facts cx.now) ip_repr.now repr.now }
    {
        self.endpoint.port == repr.dst_port
            && is_addressed(cx, self.endpoint.addr, ip_repr.dst_addr())
    }

    /// Puts a datagram that `accepts` holds of into the receive queue, with the endpoint it came from and the address
    /// it went to. Where the receive buffer has no room for it, it is dropped.
    /// That `accepts` holds of it is not required.
    pub fn process<C: Context>(&mut self, _cx: &C, ip_repr: &IpRepr, repr: &UdpRepr, payload: &[u8])
        ensures view { self.new ≡ record self.old {
          rx_buffer = stored
              (metadata_of ip_repr.now repr.now) payload.now self.old.rx_buffer;
        } }
        ensures queue { received self.new ≡ cond (takes (length payload.now) self.old.rx_buffer)
            (received self.old ++ (metadata_of ip_repr.now repr.now, payload.now) ∷ []) (received self.old) }
        ensures effect { Effect (Process ip_repr.now repr.now payload.now) self.old self.new }
    {
        let _ = self.queue_datagram(ip_repr, repr, payload);
    }

    /// Does what `process` does, and returns whether there was room for the datagram.
    pub fn queue_datagram(&mut self, ip_repr: &IpRepr, repr: &UdpRepr, payload: &[u8]) -> bool
        ensures room { result ≡ takes (length payload.now) self.old.rx_buffer }
        ensures view { self.new ≡ record self.old {
          rx_buffer = stored
              (metadata_of ip_repr.now repr.now) payload.now self.old.rx_buffer;
        } }
        ensures queue { received self.new ≡ cond (takes (length payload.now) self.old.rx_buffer)
            (received self.old ++ (metadata_of ip_repr.now repr.now, payload.now) ∷ []) (received self.old) }
        ensures effect { Effect (Process ip_repr.now repr.now payload.now) self.old self.new }
    {
        let meta = UdpMetadata {
            endpoint: IpEndpoint {
                addr: ip_repr.src_addr(),
                port: repr.src_port,
            },
            local_address: Some(ip_repr.dst_addr()),
        };
        store(&mut self.rx_buffer, meta, payload)
    }
}
