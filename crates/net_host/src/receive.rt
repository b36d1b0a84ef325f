//! What becomes of a packet that arrives.
ghost use Rattle.std.specs.Prelude.{◌≡◌, ◌≤◌, nat_le, length, option_map};
ghost use Rattle.segment_wire.specs.Udp.{datagram_of};
ghost use Rattle.control_wire.specs.Segment.{segment_of};
ghost use Rattle.net_host.specs.Counts.{counted};
ghost use Rattle.ip_wire.specs.IpHeader.{dst_addr_of};
ghost use Rattle.host_groups.specs.Joining.{has_group};
ghost use Rattle.net_host.specs.Passing.{passed};
ghost use Rattle.net_host.specs.Receiving.{ByAddresses, ByKind, ByPassed, IfShort, TakesDatagramOf, TakesOther};
ghost use Rattle.net_host.specs.Receiving.{TakesPacket, TellsIf};
ghost use Rattle.net_host.specs.Receiving.{ByMail, TakesCarried, TakesMail, TakesSegment, TakesTcp, TakesUdp};
ghost use Rattle.net_host.specs.Receiving.{counted_again, counted_for, counted_if, counted_on, datagram_in};
ghost use Rattle.net_host.specs.Messages.{mail_in, mail_of};
ghost use Rattle.net_host.specs.Arrivals.{refusal};
ghost use Rattle.net_host.specs.Facts.{facts_by};
ghost use Rattle.net_host.specs.Touching.{Touches};

use crate::arrival::{Kind, kind_in, refusal};
use crate::cookies::{Course, note_on};
use crate::copies::{copy_mail, copy_packet, hear_datagram_of};
use crate::counters::{Counters, Reason};
use crate::hearing::{Heard, hear_known, hear_sought};
use crate::interface::Interface;
use crate::messages::{Mail, echoed, mail_in, put_answer};
use crate::passing::passed;
use crate::segments::{Taker, known_taker};
use crate::set::SocketSet;
use crate::unreachable::{Unmet, tell_sender};
use host_context::Words;
use segment_wire::packet::carried;
use segment_wire::{tcp, udp};
use smoltcp_socket::Context;
use smoltcp_socket::wire::{
    ChecksumCapabilities, IpAddress, IpRepr, TcpControl, TcpRepr, TcpSeqNumber, UdpRepr,
};
use sock_tcp::TsvalSource;

impl<W: Words> Interface<W> {
    // The first row that fits. A packet of IPv4, which has no extension headers, goes on from here, so that the
    // compiler knows the version in all that follows.
    #[tactic(auto, using(crate::proofs::Touching::touches_none), unfolding(crate::specs::Passing::passed))]
    pub(crate) fn take_packet<G: TsvalSource>(
        &mut self,
        sockets: &mut SocketSet<'_, G>,
        packet: &[u8],
        out: &mut [u8],
    ) -> usize
        requires { 100 ≤ length out.old }
        ensures within { result ≤ length out.old }
        ensures table { TakesPacket ⟦<IpAddress as PartialEq>⟧.eq W.word_at G.tells packet.now self.old
            sockets.old.slots.items
            out.old
            result self.new sockets.new.slots.items out.new }
        ensures touched { Touches sockets.old.bounds sockets.old.slots.items sockets.new.bounds
            sockets.new.slots.items }
        ensures ended { sockets.new.ended ≡ sockets.old.ended }
    {
        let caps = self.inner.checksum_caps();
        match carried(packet, &caps) {
            None => self.drop_packet(Reason::Malformed),
            Some((IpRepr::Ipv4(header), bytes)) => {
                self.take_carried(sockets, &IpRepr::Ipv4(header), bytes, out)
            }
            Some((ip, bytes)) => self.take_whole(sockets, &ip, bytes, out),
        }
    }

    // Behind its extension headers.
    // Not inlined, so that what a packet of IPv4 runs through stays short.
    #[inline(never)]
    #[tactic(auto, using(crate::proofs::Touching::touches_none))]
    fn take_whole<G: TsvalSource>(
        &mut self,
        sockets: &mut SocketSet<'_, G>,
        ip: &IpRepr,
        bytes: &[u8],
        out: &mut [u8],
    ) -> usize
        requires { 100 ≤ length out.old }
        ensures within { result ≤ length out.old }
        ensures table { ByPassed ⟦<IpAddress as PartialEq>⟧.eq W.word_at G.tells (passed ip.now bytes.now) self.old
            sockets.old.slots.items out.old result self.new sockets.new.slots.items out.new }
        ensures touched { Touches sockets.old.bounds sockets.old.slots.items sockets.new.bounds
            sockets.new.slots.items }
        ensures ended { sockets.new.ended ≡ sockets.old.ended }
    {
        match passed(ip, bytes) {
            None => self.drop_packet(Reason::Malformed),
            Some((ip, bytes)) => self.take_carried(sockets, &ip, bytes, out),
        }
    }

    fn drop_packet(&mut self, reason: Reason) -> usize
        ensures len { result ≡ 0 }
        ensures counted { self.new ≡ record self.old { counters = counted reason self.old.counters } }
    {
        self.counters.count(reason);
        0
    }

    // Inlined, as the rows that follow, where the version is known.
    #[inline(always)]
    #[tactic(auto, using(crate::proofs::Touching::touches_none))]
    fn take_carried<G: TsvalSource>(
        &mut self,
        sockets: &mut SocketSet<'_, G>,
        ip: &IpRepr,
        bytes: &[u8],
        out: &mut [u8],
    ) -> usize
        requires { 100 ≤ length out.old }
        ensures within { result ≤ length out.old }
        ensures table { ByAddresses ⟦<IpAddress as PartialEq>⟧.eq W.word_at G.tells
            (refusal (facts_by ⟦<IpAddress as PartialEq>⟧.eq self.old.inner.environment)
            (has_group ⟦<IpAddress as PartialEq>⟧.eq self.old.groups (dst_addr_of ip.now)) ip.now) ip.now bytes.now
            self.old sockets.old.slots.items out.old result self.new sockets.new.slots.items out.new }
        ensures touched { Touches sockets.old.bounds sockets.old.slots.items sockets.new.bounds
            sockets.new.slots.items }
        ensures ended { sockets.new.ended ≡ sockets.old.ended }
    {
        let own = self.inner.has_ip_addr(ip.dst_addr());
        match refusal(&self.inner, own, &self.groups, ip) {
            Some(reason) => self.drop_packet(reason),
            None => self.take_looked_at(sockets, own, ip, bytes, out),
        }
    }

    #[inline(always)]
    #[tactic(auto, using(crate::proofs::Touching::touches_then))]
    fn take_looked_at<G: TsvalSource>(
        &mut self,
        sockets: &mut SocketSet<'_, G>,
        own: bool,
        ip: &IpRepr,
        bytes: &[u8],
        out: &mut [u8],
    ) -> usize
        requires own { own ≡ (facts_by ⟦<IpAddress as PartialEq>⟧.eq self.old.inner.environment).has_address
            (dst_addr_of ip.now) }
        requires room { 100 ≤ length out.old }
        ensures within { result ≤ length out.old }
        ensures table { TakesCarried ⟦<IpAddress as PartialEq>⟧.eq W.word_at G.tells ip.now bytes.now self.old
            sockets.old.slots.items out.old result self.new sockets.new.slots.items out.new }
        ensures touched { Touches sockets.old.bounds sockets.old.slots.items sockets.new.bounds
            sockets.new.slots.items }
        ensures ended { sockets.new.ended ≡ sockets.old.ended }
    {
        copy_packet(sockets, &self.inner, ip, bytes);
        let kind = kind_in(own, ip);
        self.take_kind(sockets, kind, ip, bytes, out)
    }

    #[inline(always)]
    #[tactic(auto, using(crate::proofs::Touching::touches_none))]
    fn take_kind<G: TsvalSource>(
        &mut self,
        sockets: &mut SocketSet<'_, G>,
        kind: Kind,
        ip: &IpRepr,
        bytes: &[u8],
        out: &mut [u8],
    ) -> usize
        requires { 100 ≤ length out.old }
        ensures within { result ≤ length out.old }
        ensures table { ByKind ⟦<IpAddress as PartialEq>⟧.eq W.word_at G.tells kind ip.now bytes.now self.old
            sockets.old.slots.items out.old result self.new sockets.new.slots.items out.new }
        ensures touched { Touches sockets.old.bounds sockets.old.slots.items sockets.new.bounds
            sockets.new.slots.items }
        ensures ended { sockets.new.ended ≡ sockets.old.ended }
    {
        match kind {
            Kind::Tcp => self.take_tcp(sockets, ip, bytes, out),
            Kind::Udp => self.take_udp(sockets, ip, bytes, out),
            Kind::Icmp => self.take_icmp(sockets, ip, bytes, out),
            Kind::Other => self.take_other(sockets, ip, bytes, out),
            Kind::Foreign => self.drop_packet(Reason::Destination),
        }
    }

    // Not inlined, so that what a segment of TCP runs through stays short.
    #[inline(never)]
    #[tactic(auto, using(crate::proofs::Touching::touches_none))]
    fn take_other<G: TsvalSource>(
        &mut self,
        sockets: &mut SocketSet<'_, G>,
        ip: &IpRepr,
        bytes: &[u8],
        out: &mut [u8],
    ) -> usize
        ensures within { result ≤ length out.old }
        ensures table { TakesOther ⟦<IpAddress as PartialEq>⟧.eq W.word_at G.tells ip.now bytes.now self.old
            sockets.old.slots.items out.old result self.new sockets.new.slots.items out.new }
        ensures touched { Touches sockets.old.bounds sockets.old.slots.items sockets.new.bounds
            sockets.new.slots.items }
        ensures ended { sockets.new.ended ≡ sockets.old.ended }
    {
        self.counters.count(Reason::Protocol);
        tell_sender(
            sockets,
            &self.inner,
            &mut self.errors,
            Unmet::Protocol,
            ip,
            bytes,
            out,
        )
    }

    // Not inlined, as `take_other`.
    #[inline(never)]
    #[tactic(auto, using(crate::proofs::Touching::touches_none))]
    fn take_udp<G: TsvalSource>(
        &mut self,
        sockets: &mut SocketSet<'_, G>,
        ip: &IpRepr,
        bytes: &[u8],
        out: &mut [u8],
    ) -> usize
        ensures within { result ≤ length out.old }
        ensures table { TakesUdp ⟦<IpAddress as PartialEq>⟧.eq W.word_at G.tells ip.now bytes.now self.old
            sockets.old.slots.items out.old result self.new sockets.new.slots.items out.new }
        ensures touched { Touches sockets.old.bounds sockets.old.slots.items sockets.new.bounds
            sockets.new.slots.items }
        ensures ended { sockets.new.ended ≡ sockets.old.ended }
    {
        let caps = self.inner.checksum_caps();
        match datagram_in(&caps, ip, bytes) {
            None => self.drop_packet(Reason::Datagram),
            Some((repr, payload)) => self.take_datagram(sockets, ip, bytes, &repr, payload, out),
        }
    }

    #[tactic(auto, using(crate::proofs::Touching::touches_none, crate::proofs::Touching::touches_then))]
    fn take_datagram<G: TsvalSource>(
        &mut self,
        sockets: &mut SocketSet<'_, G>,
        ip: &IpRepr,
        bytes: &[u8],
        repr: &UdpRepr,
        payload: &[u8],
        out: &mut [u8],
    ) -> usize
        ensures within { result ≤ length out.old }
        ensures table { TakesDatagramOf ⟦<IpAddress as PartialEq>⟧.eq W.word_at G.tells ip.now bytes.now
            (record { header = repr.now; payload = payload.now }) self.old sockets.old.slots.items out.old result
            self.new sockets.new.slots.items out.new }
        ensures touched { Touches sockets.old.bounds sockets.old.slots.items sockets.new.bounds
            sockets.new.slots.items }
        ensures ended { sockets.new.ended ≡ sockets.old.ended }
    {
        let (found, room) = hear_datagram_of(sockets, &self.inner, ip, repr, payload);
        count_found(&mut self.counters, found, room);
        self.tell_if(sockets, found, ip, bytes, out)
    }

    // The sender is told, where no socket takes the datagram.
    fn tell_if<G: TsvalSource>(
        &mut self,
        sockets: &mut SocketSet<'_, G>,
        found: Option<usize>,
        ip: &IpRepr,
        bytes: &[u8],
        out: &mut [u8],
    ) -> usize
        ensures slots { sockets.new.slots ≡ sockets.old.slots }
        ensures within { result ≤ length out.old }
        ensures told { TellsIf ⟦<IpAddress as PartialEq>⟧.eq W.word_at G.tells found
            (facts_by ⟦<IpAddress as PartialEq>⟧.eq self.old.inner.environment) ip.now bytes.now
            sockets.old.slots.items self.old.errors out.old result self.new.errors out.new }
        ensures interface { self.new ≡ record self.old { errors = self.new.errors } }
        ensures bounds { sockets.new.bounds ≡ sockets.old.bounds }
        ensures ended { sockets.new.ended ≡ sockets.old.ended }
    {
        match found {
            Some(_) => 0,
            None => tell_sender(
                sockets,
                &self.inner,
                &mut self.errors,
                Unmet::Port,
                ip,
                bytes,
                out,
            ),
        }
    }

    // What a connection heard of it is not counted.
    #[tactic(auto, using(crate::proofs::Touching::touches_none))]
    pub(crate) fn take_message<G: TsvalSource>(
        &mut self,
        sockets: &mut SocketSet<'_, G>,
        heard: bool,
        ip: &IpRepr,
        bytes: &[u8],
        out: &mut [u8],
    ) -> usize
        ensures within { result ≤ length out.old }
        ensures table { ByMail ⟦<IpAddress as PartialEq>⟧.eq W.word_at G.tells heard
            (mail_in self.old.inner.environment.checksums ip.now bytes.now) self.old sockets.old.slots.items out.old
            result self.new sockets.new.slots.items out.new }
        ensures touched { Touches sockets.old.bounds sockets.old.slots.items sockets.new.bounds
            sockets.new.slots.items }
        ensures ended { sockets.new.ended ≡ sockets.old.ended }
    {
        let caps = self.inner.checksum_caps();
        match mail_in(&caps, ip, bytes) {
            None if heard => 0,
            None => self.drop_packet(Reason::Message),
            Some(mail) => self.take_mail(sockets, &mail, out),
        }
    }

    fn take_mail<G: TsvalSource>(
        &self,
        sockets: &mut SocketSet<'_, G>,
        mail: &Mail<'_>,
        out: &mut [u8],
    ) -> usize
        ensures within { result ≤ length out.old }
        ensures table { TakesMail ⟦<IpAddress as PartialEq>⟧.eq W.word_at G.tells (mail_of mail.now) self.now
            sockets.old.slots.items out.old result self.now sockets.new.slots.items out.new }
        ensures touched { Touches sockets.old.bounds sockets.old.slots.items sockets.new.bounds
            sockets.new.slots.items }
        ensures ended { sockets.new.ended ≡ sockets.old.ended }
    {
        copy_mail(sockets, &self.inner, mail);
        let answer = echoed(mail);
        let caps = self.inner.checksum_caps();
        put_answer(&answer, self.inner.ip_mtu(), out, &caps)
    }

    // Not inlined, as it has what a segment runs through, and two callers: one of each version of IP.
    #[inline(never)]
    #[tactic(auto, using(crate::proofs::Touching::touches_none))]
    fn take_tcp<G: TsvalSource>(
        &mut self,
        sockets: &mut SocketSet<'_, G>,
        ip: &IpRepr,
        bytes: &[u8],
        out: &mut [u8],
    ) -> usize
        requires { 100 ≤ length out.old }
        ensures within { result ≤ length out.old }
        ensures table { TakesTcp ⟦<IpAddress as PartialEq>⟧.eq W.word_at G.tells ip.now bytes.now self.old
            sockets.old.slots.items
            out.old result self.new sockets.new.slots.items out.new }
        ensures touched { Touches sockets.old.bounds sockets.old.slots.items sockets.new.bounds
            sockets.new.slots.items }
        ensures ended { sockets.new.ended ≡ sockets.old.ended }
    {
        let caps = self.inner.checksum_caps();
        let mut repr = unread(bytes);
        if !tcp::parse_behind_into(&mut repr, ip, bytes, &caps) {
            return self.drop_packet(Reason::Segment);
        }
        self.take_short(sockets, ip, &repr, out)
    }

    #[tactic(auto, using(crate::proofs::Touching::touches_none))]
    fn take_short<G: TsvalSource>(
        &mut self,
        sockets: &mut SocketSet<'_, G>,
        ip: &IpRepr,
        repr: &TcpRepr<'_>,
        out: &mut [u8],
    ) -> usize
        requires { 100 ≤ length out.old }
        ensures within { result ≤ length out.old }
        ensures table { IfShort ⟦<IpAddress as PartialEq>⟧.eq W.word_at G.tells (nat_le (length repr.now.payload.now)
            65535)
            ip.now (segment_of repr.now) self.old sockets.old.slots.items out.old result self.new
            sockets.new.slots.items out.new }
        ensures touched { Touches sockets.old.bounds sockets.old.slots.items sockets.new.bounds
            sockets.new.slots.items }
        ensures ended { sockets.new.ended ≡ sockets.old.ended }
    {
        if repr.payload.len() <= 65535 {
            self.take_segment(sockets, ip, repr, out)
        } else {
            self.drop_packet(Reason::Segment)
        }
    }

    // One for a connection whose place is known goes a short way.
    #[inline(always)]
    fn take_segment<G: TsvalSource>(
        &mut self,
        sockets: &mut SocketSet<'_, G>,
        ip: &IpRepr,
        repr: &TcpRepr<'_>,
        out: &mut [u8],
    ) -> usize
        requires small { length repr.now.payload.now ≤ 65535 }
        requires room { 100 ≤ length out.old }
        ensures within { result ≤ length out.old }
        ensures table { TakesSegment ⟦<IpAddress as PartialEq>⟧.eq W.word_at G.tells ip.now (segment_of repr.now)
            self.old
            sockets.old.slots.items out.old result self.new sockets.new.slots.items out.new }
        ensures touched { Touches sockets.old.bounds sockets.old.slots.items sockets.new.bounds
            sockets.new.slots.items }
        ensures ended { sockets.new.ended ≡ sockets.old.ended }
    {
        match known_taker(sockets, &self.inner, ip, repr) {
            Some(i) => hear_known(sockets, i, &mut self.inner, &mut self.resets, ip, repr, out),
            None => self.seek_taker(sockets, ip, repr, out),
        }
    }

    // Not inlined, so that what a segment for a connection runs through stays short.
    #[inline(never)]
    fn seek_taker<G: TsvalSource>(
        &mut self,
        sockets: &mut SocketSet<'_, G>,
        ip: &IpRepr,
        repr: &TcpRepr<'_>,
        out: &mut [u8],
    ) -> usize
        requires small { length repr.now.payload.now ≤ 65535 }
        requires room { 100 ≤ length out.old }
        ensures within { result ≤ length out.old }
        ensures table { TakesSegment ⟦<IpAddress as PartialEq>⟧.eq W.word_at G.tells ip.now (segment_of repr.now)
            self.old
            sockets.old.slots.items out.old result self.new sockets.new.slots.items out.new }
        ensures touched { Touches sockets.old.bounds sockets.old.slots.items sockets.new.bounds
            sockets.new.slots.items }
        ensures ended { sockets.new.ended ≡ sockets.old.ended }
    {
        let now = self.inner.environment.now;
        let (heard, len) = hear_sought(
            sockets,
            &mut self.inner,
            &mut self.resets,
            &self.cookies,
            self.most_of_source,
            ip,
            repr,
            out,
        );
        count_heard(&mut self.counters, &heard);
        note_on(&mut self.cookies, heard.course, now);
        len
    }
}

// What a segment is read into.
fn unread(bytes: &[u8]) -> TcpRepr<'_> {
    TcpRepr {
        src_port: 0,
        dst_port: 0,
        control: TcpControl::None,
        seq_number: TcpSeqNumber(0),
        ack_number: None,
        window_len: 0,
        window_scale: None,
        max_seg_size: None,
        sack_permitted: false,
        sack_ranges: [None, None, None],
        timestamp: None,
        payload: bytes,
    }
}

fn count_taker(counters: &mut Counters, taker: Taker)
    ensures { counters.new ≡ counted_for taker counters.old }
{
    match taker {
        Taker::Busy => counters.count(Reason::Busy),
        Taker::Nobody => counters.count(Reason::Nobody),
        _ => {}
    }
}

fn count_again(counters: &mut Counters, again: Taker)
    ensures { counters.new ≡ counted_again again counters.old }
{
    match again {
        Taker::Listener(_) | Taker::Reused(_) => counters.count_taken(),
        _ => counters.count(Reason::Busy),
    }
}

fn count_heard(counters: &mut Counters, heard: &Heard)
    ensures { counters.new ≡ counted_on heard.now.course heard.now.taker heard.now.again counters.old }
{
    match heard.course {
        Course::Plain => count_taker(counters, heard.taker),
        Course::Doubted => {
            count_taker(counters, heard.taker);
            counters.count_wrong();
        }
        Course::Answered(..) => counters.count_sent(),
        Course::Believed(..) => count_again(counters, heard.again),
        Course::Dropped => counters.count(Reason::TooMany),
    }
}

fn count_found(counters: &mut Counters, found: Option<usize>, room: bool)
    ensures { counters.new ≡ counted_if found room counters.old }
{
    match found {
        None => counters.count(Reason::Nobody),
        Some(_) => {
            if !room {
                counters.count(Reason::Full);
            }
        }
    }
}

// The UDP datagram that stands behind a header.
#[tactic(auto, unfolding(crate::specs::Receiving::datagram_in))]
fn datagram_in<'p>(
    caps: &ChecksumCapabilities,
    ip: &IpRepr,
    bytes: &'p [u8],
) -> Option<(UdpRepr, &'p [u8])>
    ensures { option_map datagram_of result ≡ datagram_in caps.now ip.now bytes.now }
{
    udp::parse(bytes, &ip.src_addr(), &ip.dst_addr(), caps).ok()
}
