//! Packets that were emitted, as bytes.
ghost use Rattle.std.specs.Prelude.{◌≡◌, ◌≤◌, ◌++◌, ◌+◌, ◌↔◌, IsTrue, [], ◌∷◌, IfOk, cond, drop, length, OnErr};
ghost use Rattle.control_wire.specs.Icmp.{icmpv4_octets, icmpv6_octets, message_v4, message_v6};
ghost use Rattle.control_wire.specs.Segment.{segment_of};
ghost use Rattle.ip_wire.specs.Checksum.{is_sent};
ghost use Rattle.ip_wire.specs.IpHeader.{header_len_of};
ghost use Rattle.ip_wire.specs.Packet.{header_octets};
ghost use Rattle.segment_wire.specs.Packet.{tcp_packet, udp_packet};
ghost use Rattle.host_context.specs.Outbox.{CarriesTcp, CarriesUdp, icmp_packet, octets, with_packet};

use segment_wire::packet;
use smoltcp_socket::wire::{
    ChecksumCapabilities, IcmpRepr, Icmpv4Repr, Icmpv6Repr, IpProtocol, IpRepr, Ipv6Repr, TcpRepr,
    UdpRepr,
};
use std::alloc::{AllocError, Global};
use std::mem;

/// The packets that were emitted and not taken out yet, the oldest first.
///
/// The sockets emit no packet whose header does not count what it carries. A call that is refused for want of memory
/// leaves the packets as they were.
#[derive(Drop)]
pub struct Outbox {
    alloc: Global,
    pub(crate) packets: Vec<Vec<u8>>,
}

impl Outbox {
    /// An empty one.
    pub fn new(alloc: Global) -> Outbox
        ensures { result.packets.items ≡ [] }
    {
        Outbox {
            alloc,
            packets: Vec::new(alloc),
        }
    }

    /// The packets in it, which is empty afterwards.
    pub fn take(&mut self) -> Vec<Vec<u8>>
        ensures packets { result.items ≡ self.old.packets.items }
        ensures empty { self.new.packets.items ≡ [] }
    {
        let empty = Vec::new(self.alloc);
        mem::replace(&mut self.packets, empty)
    }

    #[tactic(auto, using(crate::proofs::Added::octets_added))]
    fn add(&mut self, packet: Vec<u8>) -> Result<(), AllocError>
        ensures added { IfOk result (λ _. octets self.new.packets.items
            ≡ octets self.old.packets.items ++ packet.items ∷ []) }
        ensures kept { OnErr result (self.new.packets.items ≡ self.old.packets.items) }
    {
        self.packets.push(packet)?;
        Ok(())
    }

    /// Adds an IP packet with this segment, and says whether its header counts it; where not, nothing is added.
    ///
    /// # Errors
    /// An error where there is no memory for it; nothing is added then.
    pub fn emit_tcp(
        &mut self,
        ip: &IpRepr,
        repr: &TcpRepr<'_>,
        caps: &ChecksumCapabilities,
    ) -> Result<bool, AllocError>
        ensures counted { IfOk result (λ r. IsTrue r ↔ CarriesTcp ip.now (segment_of repr.now)) }
        ensures added { IfOk result (λ r. octets self.new.packets.items
            ≡ cond r (octets self.old.packets.items ++ tcp_packet caps.now ip.now (segment_of repr.now) ∷ [])
            (octets self.old.packets.items)) }
        ensures kept { OnErr result (self.new.packets.items ≡ self.old.packets.items) }
    {
        if !carries_tcp(ip, repr) {
            return Ok(false);
        }
        let mut bytes = self.with_room_before(ip.header_len() + repr.header_len(), repr.payload)?;
        packet::emit_tcp_front(ip, repr, bytes.as_mut_slice(), caps);
        self.add(bytes)?;
        Ok(true)
    }

    // A payload behind the room for the headers of its packet, which have 100 bytes at most. A packet that is filled
    // with zeros first is written twice.
    fn with_room_before(&self, room: usize, payload: &[u8]) -> Result<Vec<u8>, AllocError>
        requires { room ≤ 100 }
        ensures length { IfOk result (λ v. length v.items ≡ room + length payload.now) }
        ensures payload { IfOk result (λ v. drop room v.items ≡ payload.now) }
    {
        let mut bytes = Vec::with_capacity(self.alloc, room + payload.len())?;
        bytes.resize(room, 0)?;
        bytes.extend_from_slice(payload)?;
        Ok(bytes)
    }

    /// Adds a packet with this UDP datagram. False where the header does not carry it: then nothing is added.
    ///
    /// # Errors
    /// An error where there is no memory for it; nothing is added then.
    pub fn emit_udp(
        &mut self,
        ip: &IpRepr,
        repr: &UdpRepr,
        payload: &[u8],
        caps: &ChecksumCapabilities,
    ) -> Result<bool, AllocError>
        ensures counted { IfOk result (λ r. IsTrue r ↔ CarriesUdp ip.now (length payload.now)) }
        ensures added { IfOk result (λ r. octets self.new.packets.items
            ≡ cond r (octets self.old.packets.items ++ udp_packet caps.now ip.now repr.now payload.now ∷ [])
            (octets self.old.packets.items)) }
        ensures kept { OnErr result (self.new.packets.items ≡ self.old.packets.items) }
    {
        if !carries_udp(ip, payload) {
            return Ok(false);
        }
        let mut bytes = vec![in self.alloc; 0u8; ip.header_len() + 8 + payload.len()]?;
        packet::emit_udp(ip, repr, payload, bytes.as_mut_slice(), caps);
        self.add(bytes)?;
        Ok(true)
    }

    /// Adds an IP packet with this payload, whatever it is.
    ///
    /// # Errors
    /// An error where there is no memory for it; nothing is added then.
    pub fn emit_raw(
        &mut self,
        ip: &IpRepr,
        payload: &[u8],
        caps: &ChecksumCapabilities,
    ) -> Result<(), AllocError>
        ensures added { IfOk result (λ _. octets self.new.packets.items ≡ octets self.old.packets.items
            ++ (header_octets (is_sent caps.now.ipv4) ip.now ++ payload.now) ∷ []) }
        ensures kept { OnErr result (self.new.packets.items ≡ self.old.packets.items) }
    {
        let mut bytes = self.with_room_before(ip.header_len(), payload)?;
        ip.emit(bytes.as_mut_slice(), caps);
        self.add(bytes)
    }

    /// Adds an IP packet with this ICMP message; one of the other version than the header's is dropped.
    ///
    /// # Errors
    /// An error where there is no memory for it; nothing is added then.
    pub fn emit_icmp(
        &mut self,
        ip: &IpRepr,
        repr: &IcmpRepr<'_>,
        caps: &ChecksumCapabilities,
    ) -> Result<(), AllocError>
        ensures added { IfOk result (λ _. octets self.new.packets.items
            ≡ with_packet (octets self.old.packets.items) (icmp_packet caps.now ip.now repr.now)) }
        ensures kept { OnErr result (self.new.packets.items ≡ self.old.packets.items) }
    {
        match (ip, repr) {
            (IpRepr::Ipv4(_), IcmpRepr::Ipv4(message)) => self.emit_icmpv4(ip, message, caps),
            (IpRepr::Ipv6(header), IcmpRepr::Ipv6(message)) => {
                self.emit_icmpv6(ip, header, message, caps)
            }
            _ => Ok(()),
        }
    }

    fn emit_icmpv4(
        &mut self,
        ip: &IpRepr,
        message: &Icmpv4Repr<'_>,
        caps: &ChecksumCapabilities,
    ) -> Result<(), AllocError>
        ensures added { IfOk result (λ _. octets self.new.packets.items ≡ octets self.old.packets.items
            ++ (header_octets (is_sent caps.now.ipv4) ip.now ++ icmpv4_octets caps.now (message_v4 message.now)) ∷ []) }
        ensures kept { OnErr result (self.new.packets.items ≡ self.old.packets.items) }
    {
        let mut bytes = vec![in self.alloc; 0u8; message.buffer_len()]?;
        message.emit(bytes.as_mut_slice(), caps);
        self.emit_raw(ip, bytes.as_slice(), caps)
    }

    fn emit_icmpv6(
        &mut self,
        ip: &IpRepr,
        header: &Ipv6Repr,
        message: &Icmpv6Repr<'_>,
        caps: &ChecksumCapabilities,
    ) -> Result<(), AllocError>
        ensures added { IfOk result (λ _. octets self.new.packets.items ≡ octets self.old.packets.items
            ++ (header_octets (is_sent caps.now.ipv4) ip.now
            ++ icmpv6_octets caps.now header.now.src_addr header.now.dst_addr (message_v6 message.now)) ∷ []) }
        ensures kept { OnErr result (self.new.packets.items ≡ self.old.packets.items) }
    {
        let mut bytes = vec![in self.alloc; 0u8; message.buffer_len()]?;
        message.emit(
            &header.src_addr,
            &header.dst_addr,
            bytes.as_mut_slice(),
            caps,
        );
        self.emit_raw(ip, bytes.as_slice(), caps)
    }
}

// Whether the header counts the segment.
fn carries_tcp(ip: &IpRepr, repr: &TcpRepr<'_>) -> bool
    ensures { IsTrue result ↔ CarriesTcp ip.now (segment_of repr.now) }
{
    repr.header_len() <= 60
        && ip.payload_len() == repr.buffer_len()
        && ip.next_header() == IpProtocol::Tcp
}

// Whether the header counts a datagram of this payload.
fn carries_udp(ip: &IpRepr, payload: &[u8]) -> bool
    ensures { IsTrue result ↔ CarriesUdp ip.now (length payload.now) }
{
    ip.payload_len() >= 8
        && ip.payload_len() - 8 == payload.len()
        && ip.next_header() == IpProtocol::Udp
}
