//! Messages that go out.
ghost use Rattle.std.specs.Prelude.{◌≡◌, false, option_map, IfSome};
ghost use Rattle.control_wire.specs.Icmp.{icmpv4_parsed, icmpv6_parsed};
ghost use Rattle.net_base.specs.Packets.{starts_padded};
ghost use Rattle.sock_core.specs.Emission.{Emits};
ghost use Rattle.sock_dgram.specs.IcmpDispatch.{Counts, any_message, from_ipv4, from_ipv6, to_remote, outgoing};
ghost use Rattle.sock_dgram.specs.IcmpDispatch.{outgoing_of, Dispatched};
ghost use Rattle.sock_dgram.specs.Addressed.{hops_of};

use crate::icmp::socket::Socket;
use crate::queue::hops_of;
use control_wire::{IcmpRepr, Icmpv4Repr, Icmpv6Repr};
use ip_wire::{
    ChecksumCapabilities, IpAddress, IpProtocol, IpRepr, Ipv4Address, Ipv4Repr, Ipv6Address,
    Ipv6Repr,
};
use sock_core::Context;

impl<'a> Socket<'a> {
    fn outgoing_v4<'b>(
        &self,
        src_addr: Ipv4Address,
        dst_addr: Ipv4Address,
        bytes: &'b [u8],
    ) -> Option<(IpRepr, IcmpRepr<'b>)>
        ensures value { option_map outgoing_of result
            ≡ from_ipv4 (hops_of self.now.hop_limit) src_addr dst_addr (icmpv4_parsed false bytes.now) }
        ensures counted { IfSome result (λ s. Counts s.0 (any_message s.1)) }
    {
        let repr = Icmpv4Repr::parse(bytes, &ChecksumCapabilities::ignored()).ok()?;
        let ip_repr = Ipv4Repr {
            src_addr,
            dst_addr,
            next_header: IpProtocol::Icmp,
            payload_len: repr.buffer_len(),
            hop_limit: hops_of(self.hop_limit),
        };
        Some((IpRepr::Ipv4(ip_repr), IcmpRepr::Ipv4(repr)))
    }

    fn outgoing_v6<'b>(
        &self,
        src_addr: Ipv6Address,
        dst_addr: Ipv6Address,
        bytes: &'b [u8],
    ) -> Option<(IpRepr, IcmpRepr<'b>)>
        ensures value { option_map outgoing_of result
            ≡ from_ipv6 (hops_of self.now.hop_limit) src_addr dst_addr
            (icmpv6_parsed false src_addr dst_addr bytes.now) }
        ensures counted { IfSome result (λ s. Counts s.0 (any_message s.1)) }
    {
        let caps = ChecksumCapabilities::ignored();
        let repr = Icmpv6Repr::parse(&src_addr, &dst_addr, bytes, &caps).ok()?;
        let ip_repr = Ipv6Repr {
            src_addr,
            dst_addr,
            next_header: IpProtocol::Icmpv6,
            payload_len: repr.buffer_len(),
            hop_limit: hops_of(self.hop_limit),
        };
        Some((IpRepr::Ipv6(ip_repr), IcmpRepr::Ipv6(repr)))
    }

    /// What `dispatch` sends of a message of these bytes to `remote`: for a caller that keeps no queue.
    ///
    /// None where it has no source or is malformed. Its checksum is not tested.
    #[tactic(auto, unfolding(crate::specs::IcmpDispatch::to_remote))]
    pub fn prepared<'b, C: Context>(
        &self,
        cx: &C,
        remote: IpAddress,
        bytes: &'b [u8],
    ) -> Option<(IpRepr, IcmpRepr<'b>)>
        ensures value { option_map outgoing_of result
            ≡ to_remote (hops_of self.now.hop_limit) (C.facts cx.now) remote bytes.now }
        ensures counted { IfSome result (λ s. Counts s.0 (any_message s.1)) }
    {
        match remote {
            IpAddress::Ipv4(dst) => {
                let src = cx.get_source_address_ipv4(&dst)?;
                self.outgoing_v4(src, dst, bytes)
            }
            IpAddress::Ipv6(dst) => {
                let src = cx.get_source_address_ipv6(&dst);
                self.outgoing_v6(src, dst, bytes)
            }
        }
    }

    // The first message, the same.
    fn outgoing<C: Context>(&self, cx: &C) -> Option<(IpRepr, IcmpRepr<'_>)>
        requires packet { starts_padded self.now.tx_buffer.entries ≡ false }
        ensures { option_map outgoing_of result ≡ outgoing self.now (C.facts cx.now) }
    {
        let (remote, bytes) = self.tx_buffer.first().ok()?;
        self.prepared(cx, *remote, bytes)
    }

    // The one call of `emit`, if there is something to emit.
    fn emit_first<C: Context, E, F: FnOnce(&mut C, (IpRepr, IcmpRepr<'_>)) -> Result<(), E>>(
        &self,
        cx: &mut C,
        emit: F,
    ) -> Result<(), E>
        requires callable { F.IsAlwaysCallable emit }
        requires packet { starts_padded self.now.tx_buffer.entries ≡ false }
        ensures { Emits F.FnOnce outgoing_of emit (outgoing self.now (C.facts cx.old)) cx.old result cx.new }
    {
        match self.outgoing(cx) {
            None => Ok(()),
            Some(outgoing) => emit(cx, outgoing),
        }
    }

    /// Emits the first message of the transmit queue: calls `emit` once with it. Where the queue is empty, nothing
    /// happens; a message over IPv4 for which the context has no source address, and a malformed one, leave the queue
    /// without an emit. The checksum of a message is not tested.
    ///
    /// # Errors
    /// The error that `emit` answers is passed on; the message then stays first, and the next `dispatch` offers it
    /// again.
    #[tactic(auto, using(crate::proofs::Emitting::dequeues_skipped))]
    pub fn dispatch<C: Context, E, F: FnOnce(&mut C, (IpRepr, IcmpRepr<'_>)) -> Result<(), E>>(
        &mut self,
        cx: &mut C,
        emit: F,
    ) -> Result<(), E>
        requires callable { F.IsAlwaysCallable emit }
        ensures table { Dispatched F.FnOnce emit self.old (C.facts cx.old) cx.old result cx.new self.new }
    {
        self.tx_buffer.skip_padding();
        self.emit_first(cx, emit)?;
        self.tx_buffer.take_first();
        Ok(())
    }
}
