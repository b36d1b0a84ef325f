//! Packets that come in.
ghost use Rattle.std.specs.Prelude.{◌≡◌, ◌↔◌, ◌++◌, [], ◌∷◌, IsTrue, length, cond};
ghost use Rattle.net_base.specs.Packets.{takes};
ghost use Rattle.ip_wire.specs.Checksum.{is_sent};
ghost use Rattle.ip_wire.specs.Packet.{header_octets};
ghost use Rattle.sock_dgram.specs.Datagrams.{stored};
ghost use Rattle.sock_dgram.specs.Raw.{received, Accepts, whole_packet};
ghost use Rattle.sock_dgram.specs.RawCalls.{Effect, Process};

use crate::queue::store_both;
use crate::raw::socket::Socket;
use ip_wire::{ChecksumCapabilities, IpRepr};
use sock_core::Context;

impl<'a> Socket<'a> {
    /// Whether a packet is for this socket: its version of IP and its protocol are those asked for, where any are.
    pub fn accepts(&self, ip_repr: &IpRepr) -> bool
        ensures { IsTrue result ↔ Accepts self.now ip_repr.now }
    {
        self.ip_version()
            .is_none_or(|version| version == ip_repr.version())
            && self
                .ip_protocol()
                .is_none_or(|protocol| protocol == ip_repr.next_header())
    }

    /// Puts a packet into the receive queue: its header as `IpRepr::emit` writes it with the checksum settings of the
    /// context, and its payload. Where the receive buffer has no room for it, it is dropped.
    #[tactic(auto, using(crate::proofs::Storing::stored_queue))]
    pub fn process<C: Context>(&mut self, cx: &C, ip_repr: &IpRepr, payload: &[u8])
        ensures view { self.new ≡ record self.old {
          rx_buffer = stored tt (whole_packet (C.facts cx.now).checksums ip_repr.now payload.now) self.old.rx_buffer;
        } }
        ensures queue { let packet = whole_packet (C.facts cx.now).checksums ip_repr.now payload.now in
            received self.new ≡ cond (takes (length packet) self.old.rx_buffer)
            (received self.old ++ (tt, packet) ∷ []) (received self.old) }
        ensures effect { Effect (Process (C.facts cx.now) ip_repr.now payload.now) self.old self.new }
    {
        let caps = cx.checksum_caps();
        let mut octets = [0; 40];
        let header = written(ip_repr, &caps, &mut octets);
        store_both(&mut self.rx_buffer, (), header, payload);
    }
}

// The header, written to the beginning of these octets.
fn written<'o>(ip_repr: &IpRepr, caps: &ChecksumCapabilities, octets: &'o mut [u8; 40]) -> &'o [u8]
    ensures { result.now ≡ header_octets (is_sent caps.now.ipv4) ip_repr.now }
{
    let len = ip_repr.header_len();
    ip_repr.emit(octets.as_mut_slice(), caps);
    &octets[..len]
}
