//! Datagrams that go out.
ghost use Rattle.std.specs.Prelude.{◌≡◌, ◌+◌, false, length, option_map, IfSome, if◌then◌else◌};
ghost use Rattle.ip_wire.specs.IpHeader.{next_header_of, payload_len_of};
ghost use Rattle.ip_wire.specs.declared.protocol.IpProtocol.TheVariants.{Udp};
ghost use Rattle.control_wire.specs.Datagram.{udp_header_len};
ghost use Rattle.net_base.specs.Packets.{starts_padded};
ghost use Rattle.sock_dgram.specs.Datagrams.{poll_moment};
ghost use Rattle.sock_dgram.specs.UdpDispatch.{source_of, from_source, outgoing, outgoing_of, outgoing_with};
ghost use Rattle.sock_dgram.specs.UdpDispatch.{Dispatched};
ghost use Rattle.sock_core.specs.Emission.{Emits};

use crate::queue::{hops_of, poll_moment};
use crate::udp::socket::{Socket, UdpMetadata};
use control_wire::UdpRepr;
use ip_wire::{IpAddress, IpProtocol, IpRepr};
use sock_core::{Context, PollAt};

impl<'a> Socket<'a> {
    // The address that a datagram is sent from.
    fn source_of<C: Context>(&self, cx: &C, meta: &UdpMetadata) -> Option<IpAddress>
        ensures { result ≡ source_of self.now (C.facts cx.now) meta.now }
    {
        self.known_source(meta)
            .or_else(|| cx.get_source_address(&meta.endpoint.addr))
    }

    /// The headers with which `dispatch` sends a datagram of these bytes: for a caller that keeps no queue.
    ///
    /// None where the datagram has no source, or one of another version of IP than its destination.
    pub fn prepared<C: Context>(
        &self,
        cx: &C,
        meta: &UdpMetadata,
        payload: &[u8],
    ) -> Option<(IpRepr, UdpRepr)>
        ensures value { option_map (outgoing_with payload.now) result
            ≡ from_source self.now meta.now payload.now (source_of self.now (C.facts cx.now) meta.now) }
        ensures counted { IfSome result (λ h. payload_len_of h.0 ≡ udp_header_len + length payload.now) }
        ensures protocol { IfSome result (λ h. next_header_of h.0 ≡ Udp) }
    {
        let source = self.source_of(cx, meta)?;
        if source.version() != meta.endpoint.addr.version() {
            return None;
        }
        let repr = UdpRepr {
            src_port: self.endpoint.port,
            dst_port: meta.endpoint.port,
        };
        let ip_repr = IpRepr::new(
            source,
            meta.endpoint.addr,
            IpProtocol::Udp,
            repr.header_len() + payload.len(),
            hops_of(self.hop_limit),
        );
        Some((ip_repr, repr))
    }

    // The first datagram, where it has a source.
    fn outgoing<C: Context>(&self, cx: &C) -> Option<(IpRepr, UdpRepr, &[u8])>
        requires packet { starts_padded self.now.tx_buffer.entries ≡ false }
        ensures { option_map outgoing_of result ≡ outgoing self.now (C.facts cx.now) }
    {
        let (meta, payload) = self.tx_buffer.first().ok()?;
        let (ip_repr, repr) = self.prepared(cx, meta, payload)?;
        Some((ip_repr, repr, payload))
    }

    // The one call of `emit`, if there is something to emit.
    fn emit_first<C: Context, E, F: FnOnce(&mut C, (IpRepr, UdpRepr, &[u8])) -> Result<(), E>>(
        &self,
        cx: &mut C,
        emit: F,
    ) -> Result<(), E>
        requires callable { F.IsAlwaysCallable emit }
        requires packet { starts_padded self.now.tx_buffer.entries ≡ false }
        ensures { Emits F.FnOnce outgoing_of emit (outgoing self.now (C.facts cx.old)) cx.old result cx.new }
    {
        match self.outgoing(cx) {
            None => Ok(()),
            Some(outgoing) => emit(cx, outgoing),
        }
    }

    /// Emits the first datagram of the transmit queue: calls `emit` once with it. Where the queue is empty, nothing
    /// happens; a datagram without a source address (none given, none bound, and the context has none) leaves the queue
    /// without an emit. A source of another version of IP than the destination counts as none.
    ///
    /// # Errors
    /// The error that `emit` answers is passed on; the datagram then stays first, and the next `dispatch` offers it
    /// again.
    #[tactic(auto, using(crate::proofs::Emitting::dequeues_skipped))]
    pub fn dispatch<C: Context, E, F: FnOnce(&mut C, (IpRepr, UdpRepr, &[u8])) -> Result<(), E>>(
        &mut self,
        cx: &mut C,
        emit: F,
    ) -> Result<(), E>
        requires callable { F.IsAlwaysCallable emit }
        ensures table { Dispatched F.FnOnce emit self.old (C.facts cx.old) cx.old result cx.new self.new }
    {
        self.tx_buffer.skip_padding();
        self.emit_first(cx, emit)?;
        self.tx_buffer.take_first();
        Ok(())
    }

    /// When the socket wants its next `dispatch`: `Ingress` where no place of the transmit buffer is taken, else `Now`.
    pub fn poll_at<C: Context>(&self, _cx: &C) -> PollAt
        ensures { result ≡ poll_moment self.now.tx_buffer }
    {
        poll_moment(&self.tx_buffer)
    }
}
