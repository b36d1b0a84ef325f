//! Messages that come in.
ghost use Rattle.std.specs.Prelude.{◌≡◌, ◌≤◌, ◌↔◌, ◌++◌, [], ◌∷◌, IsTrue, length, cond};
ghost use Rattle.std.specs.Option.{ForSome};
ghost use Rattle.control_wire.specs.Icmp.{message_len, message_v4, message_v6};
ghost use Rattle.net_base.specs.Packets.{takes};
ghost use Rattle.ip_wire.specs.declared.address.IpAddress.TheVariants as address;
ghost use Rattle.sock_dgram.specs.Datagrams.{stored_as};
ghost use Rattle.sock_dgram.specs.Icmp.{received};
ghost use Rattle.sock_dgram.specs.IcmpCalls.{Effect, ProcessV4, ProcessV6};
ghost use Rattle.sock_dgram.specs.IcmpFilter.{Accepts, Ends, TakesError, TakesIdent, ends_v4, ends_v6, octets_v4};
ghost use Rattle.sock_dgram.specs.IcmpFilter.{octets_v6, queued_v4, queued_v6};

use crate::icmp::endpoint::Endpoint;
use crate::icmp::socket::{PacketBuffer, Socket};
use control_wire::{Icmpv4Repr, Icmpv6Repr, tcp_source, udp_source};
use ip_wire::{ChecksumCapabilities, IpAddress, IpListenEndpoint, Ipv4Repr, Ipv6Repr};
use sock_core::Context;

// Whether an address is the bound one, where one is bound.
fn is_to(endpoint: &IpListenEndpoint, to: IpAddress) -> bool
    ensures { IsTrue result ↔ ForSome endpoint.now.addr (λ a. to ≡ a) }
{
    match endpoint.addr {
        None => true,
        Some(addr) => to == addr,
    }
}

impl<'a> Socket<'a> {
    fn takes_ident(&self, ident: u16) -> bool
        ensures { IsTrue result ↔ TakesIdent self.now.endpoint ident }
    {
        matches!(self.endpoint, Endpoint::Ident(bound) if bound == ident)
    }

    // Whether an error that came to `to` is for this socket: it quotes a packet between these addresses.
    fn takes_error<C: Context>(
        &self,
        cx: &C,
        to: IpAddress,
        src: IpAddress,
        dst: IpAddress,
        body: &[u8],
    ) -> bool
        ensures { IsTrue result
            ↔ TakesError self.now.endpoint (C.facts cx.now) to (record { src = src; dst = dst }) body.now }
    {
        let caps = cx.checksum_caps();
        match self.endpoint {
            Endpoint::Udp(endpoint) => {
                is_to(&endpoint, to) && udp_source(body, &src, &dst, &caps) == Some(endpoint.port)
            }
            Endpoint::Tcp(endpoint) => {
                is_to(&endpoint, to) && tcp_source(body, &src, &dst, &caps) == Some(endpoint.port)
            }
            Endpoint::Unspecified | Endpoint::Ident(_) => false,
        }
    }

    /// Whether a message over IPv4 is for this socket: an echo with the bound identifier, or an error that quotes a
    /// UDP datagram or a TCP segment which parses whole and was sent from the bound port, and which came to the bound
    /// address, where one is bound.
    pub fn accepts_v4<C: Context>(
        &self,
        cx: &C,
        ip_repr: &Ipv4Repr,
        icmp_repr: &Icmpv4Repr<'_>,
    ) -> bool
        ensures { IsTrue result ↔ Accepts ends_v4 self.now.endpoint (C.facts cx.now)
            (address.Ipv4 ip_repr.now.dst_addr) (message_v4 icmp_repr.now) }
    {
        match icmp_repr {
            Icmpv4Repr::EchoRequest { ident, .. } | Icmpv4Repr::EchoReply { ident, .. } => {
                self.takes_ident(*ident)
            }
            Icmpv4Repr::DstUnreachable { header, body, .. }
            | Icmpv4Repr::TimeExceeded { header, body, .. } => self.takes_error(
                cx,
                IpAddress::Ipv4(ip_repr.dst_addr),
                IpAddress::Ipv4(header.src_addr),
                IpAddress::Ipv4(header.dst_addr),
                body,
            ),
        }
    }

    /// Whether a message over IPv6 is for this socket; never a parameter problem, as in smoltcp.
    pub fn accepts_v6<C: Context>(
        &self,
        cx: &C,
        ip_repr: &Ipv6Repr,
        icmp_repr: &Icmpv6Repr<'_>,
    ) -> bool
        ensures { IsTrue result ↔ Accepts ends_v6 self.now.endpoint (C.facts cx.now)
            (address.Ipv6 ip_repr.now.dst_addr) (message_v6 icmp_repr.now) }
    {
        match icmp_repr {
            Icmpv6Repr::EchoRequest { ident, .. } | Icmpv6Repr::EchoReply { ident, .. } => {
                self.takes_ident(*ident)
            }
            Icmpv6Repr::DstUnreachable { header, body, .. }
            | Icmpv6Repr::TimeExceeded { header, body, .. } => self.takes_error(
                cx,
                IpAddress::Ipv6(ip_repr.dst_addr),
                IpAddress::Ipv6(header.src_addr),
                IpAddress::Ipv6(header.dst_addr),
                body,
            ),
            Icmpv6Repr::ParamProblem { .. } => false,
        }
    }

    /// Puts a message over IPv4 that `accepts_v4` holds of into the receive queue, with its checksum and with the
    /// address that it came from. Where the receive buffer has no room for it, it is dropped.
    #[tactic(auto, using(crate::proofs::Storing::stored_queue))]
    pub fn process_v4<C: Context>(
        &mut self,
        _cx: &C,
        ip_repr: &Ipv4Repr,
        icmp_repr: &Icmpv4Repr<'_>,
    )
        ensures view { self.new ≡ record self.old {
          rx_buffer = queued_v4 ip_repr.now (message_v4 icmp_repr.now) self.old.rx_buffer;
        } }
        ensures queue { received self.new
            ≡ cond (takes (message_len 20 (message_v4 icmp_repr.now)) self.old.rx_buffer)
            (received self.old ++ (address.Ipv4 ip_repr.now.src_addr, octets_v4 (message_v4 icmp_repr.now)) ∷ [])
            (received self.old) }
        ensures effect { Effect (ProcessV4 ip_repr.now (message_v4 icmp_repr.now)) self.old self.new }
    {
        let remote = IpAddress::Ipv4(ip_repr.src_addr);
        store_v4(&mut self.rx_buffer, remote, icmp_repr);
    }

    /// Queues a message over IPv6 that the socket accepts; it is dropped where the queue has no room.
    #[tactic(auto, using(crate::proofs::Storing::stored_queue))]
    pub fn process_v6<C: Context>(
        &mut self,
        _cx: &C,
        ip_repr: &Ipv6Repr,
        icmp_repr: &Icmpv6Repr<'_>,
    )
        ensures view { self.new ≡ record self.old {
          rx_buffer = queued_v6 ip_repr.now (message_v6 icmp_repr.now) self.old.rx_buffer;
        } }
        ensures queue { received self.new
            ≡ cond (takes (message_len 40 (message_v6 icmp_repr.now)) self.old.rx_buffer)
            (received self.old
            ++ (address.Ipv6 ip_repr.now.src_addr, octets_v6 ip_repr.now (message_v6 icmp_repr.now)) ∷ [])
            (received self.old) }
        ensures effect { Effect (ProcessV6 ip_repr.now (message_v6 icmp_repr.now)) self.old self.new }
    {
        let remote = IpAddress::Ipv6(ip_repr.src_addr);
        store_v6(&mut self.rx_buffer, remote, ip_repr, icmp_repr);
    }
}

// Puts the message into the queue, with its checksum and with this address.
fn store_v4(buffer: &mut PacketBuffer<'_>, remote: IpAddress, icmp_repr: &Icmpv4Repr<'_>)
    ensures { buffer.new ≡ stored_as (message_len 20 (message_v4 icmp_repr.now)) remote
        (octets_v4 (message_v4 icmp_repr.now)) buffer.old }
{
    let size = icmp_repr.buffer_len();
    let (taken, from) = buffer.claim(size, remote);
    if !taken {
        return;
    }
    let lent = buffer.part_mut(from, size);
    icmp_repr.emit(lent, &ChecksumCapabilities::default());
}

fn store_v6(
    buffer: &mut PacketBuffer<'_>,
    remote: IpAddress,
    ip_repr: &Ipv6Repr,
    icmp_repr: &Icmpv6Repr<'_>,
)
    ensures { buffer.new ≡ stored_as (message_len 40 (message_v6 icmp_repr.now)) remote
        (octets_v6 ip_repr.now (message_v6 icmp_repr.now)) buffer.old }
{
    let size = icmp_repr.buffer_len();
    let (taken, from) = buffer.claim(size, remote);
    if !taken {
        return;
    }
    let lent = buffer.part_mut(from, size);
    let caps = ChecksumCapabilities::default();
    icmp_repr.emit(&ip_repr.src_addr, &ip_repr.dst_addr, lent, &caps);
}
