//! A router says that a packet of a connection was too long for the next hop (RFC 1191, RFC 8201).
ghost use Rattle.std.specs.Prelude.{◌≡◌, ◌<◌, ◌≤◌, IfSome, drop, false, length, slice_get};
ghost use Rattle.control_wire.specs.Segment.{segment_of};
ghost use Rattle.ip_wire.specs.Checksum.{is_received};
ghost use Rattle.sock_core.specs.Bounds.{IsMoment};
ghost use Rattle.control_wire.specs.Icmp.{is_message, quoted_v4, quoted_v6, v6_start};
ghost use Rattle.net_host.specs.PathMtu.{HearsSaid, HearsTooBig, IsOf, Narrows, answer_to, back_v4, back_v6};
ghost use Rattle.net_host.specs.PathMtu.{quotes_v4, quotes_v6, said_of, too_big_in, too_big_v4, too_big_v6};
ghost use Rattle.net_host.specs.Receiving.{TakesIcmp};
ghost use Rattle.net_host.specs.Touching.{Touches};
ghost use Rattle.sock_tcp.specs.View.{moment_of};
ghost use Rattle.net_host.specs.Walks.{ChangesAt, Finds};

use crate::asked::Asked;
use crate::interface::Interface;
use crate::segments::first_taker;
use crate::set::SocketSet;
use crate::slot::Slot;
use host_context::Words;
use ip_wire::octets::{be16_at, be32_at, behind};
use ip_wire::sum::{pseudo_sum, sum_after};
use smoltcp_socket::time::Instant;
use smoltcp_socket::wire::{
    ChecksumCapabilities, IpAddress, IpProtocol, IpRepr, Ipv4Repr, Ipv6Repr, TcpControl, TcpRepr,
    TcpSeqNumber,
};
use smoltcp_socket::{Context, Socket};
use sock_tcp::TsvalSource;

/// What a router says of a packet that was too long.
#[derive(Debug, Clone, Copy)]
pub struct TooBig {
    /// The header of what the packet's peer would answer.
    pub back: IpRepr,
    /// The ports of the packet: its own, and the peer's.
    pub local_port: u16,
    pub remote_port: u16,
    /// Its sequence number.
    pub number: TcpSeqNumber,
    /// The MTU of the next hop; 0 where the router does not tell it.
    pub mtu: usize,
}

// The first eight bytes of a segment have its ports and its number.
fn said_of(back: IpRepr, bytes: &[u8], mtu: usize) -> TooBig
    requires { 8 ≤ length bytes.now }
    ensures { result ≡ said_of back bytes.now mtu }
{
    TooBig {
        back,
        local_port: be16_at(bytes, 0) as u16,
        remote_port: be16_at(bytes, 2) as u16,
        number: TcpSeqNumber(be32_at(bytes, 4)),
        mtu,
    }
}

fn back_v4(header: &Ipv4Repr) -> IpRepr
    ensures { result ≡ back_v4 header.now }
{
    IpRepr::Ipv4(Ipv4Repr {
        src_addr: header.dst_addr,
        dst_addr: header.src_addr,
        next_header: IpProtocol::Tcp,
        payload_len: 0,
        hop_limit: 64,
    })
}

fn back_v6(header: &Ipv6Repr) -> IpRepr
    ensures { result ≡ back_v6 header.now }
{
    IpRepr::Ipv6(Ipv6Repr {
        src_addr: header.dst_addr,
        dst_addr: header.src_addr,
        next_header: IpProtocol::Tcp,
        payload_len: 0,
        hop_limit: 64,
    })
}

// The packet that is quoted.
#[tactic(auto, unfolding(control_wire::specs::Icmp::quoted_v4))]
fn quotes_v4(mtu: usize, packet: &[u8]) -> Option<TooBig>
    ensures { result ≡ quotes_v4 mtu (quoted_v4 packet.now) }
{
    if packet.len() < 28 {
        return None;
    }
    let header = (packet[0] % 16) as usize * 4;
    if packet[0] / 16 != 4 || header < 20 || packet.len() < header + 8 {
        return None;
    }
    let ip = Ipv4Repr::of_fields(packet, packet.len() - header);
    if u8::from(ip.next_header) != 6 {
        return None;
    }
    Some(said_of(back_v4(&ip), behind(packet, header), mtu))
}

#[tactic(auto, unfolding(control_wire::specs::Icmp::quoted_v6))]
fn quotes_v6(mtu: usize, packet: &[u8]) -> Option<TooBig>
    ensures { result ≡ quotes_v6 mtu (quoted_v6 packet.now) }
{
    if packet.len() < 48 || packet[0] / 16 != 6 {
        return None;
    }
    let ip = Ipv6Repr::of_fields(packet, packet.len() - 40);
    if u8::from(ip.next_header) != 6 {
        return None;
    }
    Some(said_of(back_v6(&ip), behind(packet, 40), mtu))
}

fn is_message(tested: bool, start: u16, bytes: &[u8]) -> bool
    ensures { result ≡ is_message tested start bytes.now }
{
    bytes.len() >= 8 && (!tested || sum_after(start, bytes) == 0xffff)
}

fn too_big_v4(tested: bool, bytes: &[u8]) -> Option<TooBig>
    ensures { result ≡ too_big_v4 tested bytes.now }
{
    if bytes.len() < 8 || bytes[0] != 3 || bytes[1] != 4 || !is_message(tested, 0, bytes) {
        return None;
    }
    quotes_v4(be16_at(bytes, 6), behind(bytes, 8))
}

fn too_big_v6(tested: bool, ip: &Ipv6Repr, bytes: &[u8]) -> Option<TooBig>
    ensures { result ≡ too_big_v6 tested ip.now bytes.now }
{
    if bytes.len() < 8 || bytes[0] != 2 {
        return None;
    }
    let src = IpAddress::Ipv6(ip.src_addr);
    let dst = IpAddress::Ipv6(ip.dst_addr);
    if !is_message(tested, pseudo_sum(&src, &dst, 58, bytes.len()), bytes) {
        return None;
    }
    quotes_v6(be32_at(bytes, 4) as usize, behind(bytes, 8))
}

/// What the message behind the header says of a packet that was too long, if that is what it says.
#[tactic(auto, unfolding(crate::specs::PathMtu::too_big_in))]
pub(crate) fn too_big_in(caps: &ChecksumCapabilities, ip: &IpRepr, bytes: &[u8]) -> Option<TooBig>
    ensures { result ≡ too_big_in caps.now ip.now bytes.now }
{
    match ip {
        IpRepr::Ipv4(ip) if u8::from(ip.next_header) == 1 => too_big_v4(caps.icmpv4.rx(), bytes),
        IpRepr::Ipv6(ip) if u8::from(ip.next_header) == 58 => {
            too_big_v6(caps.icmpv6.rx(), ip, bytes)
        }
        _ => None,
    }
}

impl TooBig {
    // What the packet's peer would answer.
    fn answer(&self) -> TcpRepr<'static>
        ensures { segment_of result ≡ answer_to self.now }
    {
        TcpRepr {
            src_port: self.remote_port,
            dst_port: self.local_port,
            control: TcpControl::None,
            seq_number: TcpSeqNumber(0),
            ack_number: None,
            window_len: 0,
            window_scale: None,
            max_seg_size: None,
            sack_permitted: false,
            sack_ranges: [None, None, None],
            timestamp: None,
            payload: &[],
        }
    }
}

impl<'a, G: TsvalSource> Slot<'a, G> {
    // Whether the connection hears it.
    fn narrow(&mut self, now: Instant, said: &TooBig) -> bool
        requires { IsMoment now.micros }
        ensures { Narrows now said.now result self.old self.new }
    {
        match &mut self.socket {
            Some(Socket::Tcp(tcp)) => {
                let took = tcp.is_outstanding(said.number);
                if took {
                    tcp.set_path_mtu(now, said.mtu);
                }
                took
            }
            _ => false,
        }
    }
}

fn narrow_there<G: TsvalSource>(
    slots: &mut Vec<Slot<'_, G>>,
    i: usize,
    now: Instant,
    said: &TooBig,
) -> bool
    requires within { i < length slots.old.items }
    requires moment { IsMoment now.micros }
    ensures { ChangesAt (Narrows now said.now result) slots.old.items i slots.new.items }
{
    slots[i].narrow(now, said)
}

// The connection at this place hears it, if the number is one that it sent.
fn narrow_at<G: TsvalSource>(
    sockets: &mut SocketSet<'_, G>,
    i: usize,
    now: Instant,
    said: &TooBig,
) -> bool
    requires within { i < length sockets.old.slots.items }
    requires moment { IsMoment now.micros }
    ensures narrows { ChangesAt (Narrows now said.now result) sockets.old.slots.items i sockets.new.slots.items }
    ensures touched { Touches sockets.old.bounds sockets.old.slots.items sockets.new.bounds
        sockets.new.slots.items }
    ensures ended { sockets.new.ended ≡ sockets.old.ended }
{
    sockets.lend(i);
    narrow_there(&mut sockets.slots, i, now, said)
}

fn connection_of<C: Context, G: TsvalSource>(
    sockets: &mut SocketSet<'_, G>,
    cx: &C,
    said: &TooBig,
) -> Option<usize>
    ensures slots { sockets.new.slots ≡ sockets.old.slots }
    ensures finds { Finds (IsOf said.now) sockets.old.slots.items result }
    ensures bounds { sockets.new.bounds ≡ sockets.old.bounds }
    ensures ended { sockets.new.ended ≡ sockets.old.ended }
{
    sockets.settle();
    let mut asked = Asked::none();
    first_taker(sockets, cx, false, &said.back, &said.answer(), &mut asked)
}

// Whether a connection hears it.
fn hear_too_big<C: Context, G: TsvalSource>(
    sockets: &mut SocketSet<'_, G>,
    cx: &C,
    said: &TooBig,
) -> bool
    ensures heard { HearsTooBig (moment_of (C.facts cx.now)) said.now sockets.old.slots.items result
        sockets.new.slots.items }
    ensures touched { Touches sockets.old.bounds sockets.old.slots.items sockets.new.bounds
        sockets.new.slots.items }
    ensures ended { sockets.new.ended ≡ sockets.old.ended }
{
    match connection_of(sockets, cx, said) {
        Some(i) => narrow_at(sockets, i, cx.now(), said),
        None => false,
    }
}

/// A connection hears that a packet of its own was too long, where that is said: whether one did.
#[tactic(auto, using(crate::proofs::Touching::touches_none))]
pub(crate) fn hear_said<C: Context, G: TsvalSource>(
    sockets: &mut SocketSet<'_, G>,
    cx: &C,
    said: &Option<TooBig>,
) -> bool
    ensures heard { HearsSaid (moment_of (C.facts cx.now)) said.now sockets.old.slots.items result
        sockets.new.slots.items }
    ensures touched { Touches sockets.old.bounds sockets.old.slots.items sockets.new.bounds
        sockets.new.slots.items }
    ensures ended { sockets.new.ended ≡ sockets.old.ended }
{
    match said {
        Some(said) => hear_too_big(sockets, cx, said),
        None => false,
    }
}

impl<W: Words> Interface<W> {
    // Not inlined, as `take_other`.
    #[inline(never)]
    #[tactic(auto, using(crate::proofs::Touching::touches_then))]
    pub(crate) fn take_icmp<G: TsvalSource>(
        &mut self,
        sockets: &mut SocketSet<'_, G>,
        ip: &IpRepr,
        bytes: &[u8],
        out: &mut [u8],
    ) -> usize
        ensures within { result ≤ length out.old }
        ensures table { TakesIcmp ⟦<IpAddress as PartialEq>⟧.eq W.word_at G.tells ip.now bytes.now self.old
            sockets.old.slots.items out.old result self.new sockets.new.slots.items out.new }
        ensures touched { Touches sockets.old.bounds sockets.old.slots.items sockets.new.bounds
            sockets.new.slots.items }
        ensures ended { sockets.new.ended ≡ sockets.old.ended }
    {
        let said = too_big_in(&self.inner.checksum_caps(), ip, bytes);
        let took = hear_said(sockets, &self.inner, &said);
        self.take_message(sockets, took, ip, bytes, out)
    }
}
