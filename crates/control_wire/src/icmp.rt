//! ICMP messages of both versions (RFC 792; RFC 4443).
ghost use Rattle.std.specs.Prelude.{◌≡◌, ◌+◌, ◌≤◌, ◌++◌, length, take, drop};
ghost use Rattle.ip_wire.specs.Checksum.{is_received, is_sent};
ghost use Rattle.ip_wire.specs.Octets.{be16};
ghost use Rattle.ip_wire.specs.Packet.{ipv4_octets, ipv6_octets};
ghost use Rattle.ip_wire.specs.Sum.{complement, sum_after};
ghost use Rattle.control_wire.specs.Icmp.{Exceeded, Problem, Unreachable, as_error, echo_octets, error_octets};
ghost use Rattle.control_wire.specs.Icmp.{icmp_len};
ghost use Rattle.control_wire.specs.Icmp.{problem_octets};
ghost use Rattle.control_wire.specs.Icmp.{icmpv4_message, icmpv4_octets, icmpv4_parsed, icmpv6_message};
ghost use Rattle.control_wire.specs.Icmp.{icmpv6_octets, icmpv6_parsed, message_len, message_v4, message_v6};
ghost use Rattle.control_wire.specs.Icmp.{quoted_v4, quoted_v6, seen, taken, v4_with, v6_start, v6_with};

use ip_wire::octets::{be16, be16_at, be32_at, behind, put, put_three, put_two, word};
use ip_wire::sum::{checksum_after, pseudo_sum, sum_after};
use ip_wire::{ChecksumCapabilities, Error, IpAddress, IpRepr, Ipv4Repr, Ipv6Address, Ipv6Repr};

/// An ICMP message over IPv4: an echo, or an error that quotes the packet that it speaks of.
#[derive(Debug, Clone, Copy, PartialEq, Eq)]
pub enum Icmpv4Repr<'a> {
    /// Type 8.
    EchoRequest {
        ident: u16,
        seq_no: u16,
        body: &'a [u8],
    },
    /// Type 0.
    EchoReply {
        ident: u16,
        seq_no: u16,
        body: &'a [u8],
    },
    /// Type 3. The reason is the code.
    DstUnreachable {
        reason: u8,
        header: Ipv4Repr,
        body: &'a [u8],
    },
    /// Type 11. The reason is the code.
    TimeExceeded {
        reason: u8,
        header: Ipv4Repr,
        body: &'a [u8],
    },
}

/// An ICMP message over IPv6.
#[derive(Debug, Clone, Copy, PartialEq, Eq)]
pub enum Icmpv6Repr<'a> {
    /// Type 128.
    EchoRequest {
        ident: u16,
        seq_no: u16,
        body: &'a [u8],
    },
    /// Type 129.
    EchoReply {
        ident: u16,
        seq_no: u16,
        body: &'a [u8],
    },
    /// Type 1. The reason is the code.
    DstUnreachable {
        reason: u8,
        header: Ipv6Repr,
        body: &'a [u8],
    },
    /// Type 3. The reason is the code.
    TimeExceeded {
        reason: u8,
        header: Ipv6Repr,
        body: &'a [u8],
    },
    /// Type 4 (RFC 4443, section 3.4). The reason is the code; the pointer says at which byte of the packet that is
    /// quoted the problem is.
    ParamProblem {
        reason: u8,
        pointer: u32,
        header: Ipv6Repr,
        body: &'a [u8],
    },
}

/// An ICMP message of either version.
#[derive(Debug, Clone, Copy, PartialEq, Eq)]
pub enum IcmpRepr<'a> {
    Ipv4(Icmpv4Repr<'a>),
    Ipv6(Icmpv6Repr<'a>),
}

impl IcmpRepr<'_> {
    /// How many bytes the message takes.
    pub fn buffer_len(&self) -> usize
        ensures { result ≡ icmp_len self.now }
    {
        match self {
            IcmpRepr::Ipv4(repr) => repr.buffer_len(),
            IcmpRepr::Ipv6(repr) => repr.buffer_len(),
        }
    }
}

impl<'a> Icmpv4Repr<'a> {
    /// How many bytes the message takes.
    pub fn buffer_len(&self) -> usize
        ensures { result ≡ message_len 20 (message_v4 self.now) }
    {
        match self {
            Icmpv4Repr::EchoRequest { body, .. } | Icmpv4Repr::EchoReply { body, .. } => 8
                + body.len(),
            Icmpv4Repr::DstUnreachable { body, .. } | Icmpv4Repr::TimeExceeded { body, .. } => 28
                + body.len(),
        }
    }

    /// Writes the message into `buffer_len` bytes. The checksum is 0 where it is not computed before sending; that of a
    /// quoted header too.
    pub fn emit(&self, buffer: &mut [u8], caps: &ChecksumCapabilities)
        requires { length buffer.old ≡ message_len 20 (message_v4 self.now) }
        ensures { buffer.new ≡ icmpv4_octets caps.now (message_v4 self.now) }
    {
        self.write(buffer, caps);
        if caps.icmpv4.tx() {
            fill_checksum(0, buffer);
        }
    }

    // Writes it with a checksum of 0.
    fn write(&self, buffer: &mut [u8], caps: &ChecksumCapabilities)
        requires { length buffer.old ≡ message_len 20 (message_v4 self.now) }
        ensures value { buffer.new ≡ v4_with caps.now (message_v4 self.now) 0 }
        ensures room { 8 ≤ length buffer.new }
    {
        match self {
            Icmpv4Repr::EchoRequest {
                ident,
                seq_no,
                body,
            } => write_echo(buffer, 8, *ident, *seq_no, body),
            Icmpv4Repr::EchoReply {
                ident,
                seq_no,
                body,
            } => write_echo(buffer, 0, *ident, *seq_no, body),
            Icmpv4Repr::DstUnreachable {
                reason,
                header,
                body,
            } => { write_error(buffer, 3, *reason, &header_v4(header, caps), body) }
            Icmpv4Repr::TimeExceeded {
                reason,
                header,
                body,
            } => { write_error(buffer, 11, *reason, &header_v4(header, caps), body) }
        }
    }

    /// The message that the bytes spell.
    ///
    /// # Errors
    /// An error unless there are 8 bytes of one of the four types, an echo has code 0, an error quotes a header of IPv4
    /// and at least 8 bytes behind it, and, where received checksums are tested, the checksum verifies. The lengths in
    /// a quoted header are not tested; its payload length is the count of bytes that are quoted behind it.
    pub fn parse(bytes: &'a [u8], caps: &ChecksumCapabilities) -> Result<Icmpv4Repr<'a>, Error>
        ensures { seen message_v4 result ≡ icmpv4_parsed (is_received caps.now.icmpv4) bytes.now }
    {
        if bytes.len() < 8 || (caps.icmpv4.rx() && sum_after(0, bytes) != 0xffff) {
            return Err(Error);
        }
        Icmpv4Repr::parse_unchecked(bytes)
    }

    // The message that 8 bytes or more spell, whatever their checksum.
    #[tactic(auto, unfolding(crate::specs::Icmp::icmpv4_message))]
    fn parse_unchecked(bytes: &'a [u8]) -> Result<Icmpv4Repr<'a>, Error>
        requires { 8 ≤ length bytes.now }
        ensures { seen message_v4 result ≡ icmpv4_message bytes.now }
    {
        let (ident, seq_no) = (word(bytes[4], bytes[5]), word(bytes[6], bytes[7]));
        let body = &bytes[8..];
        match (bytes[0], bytes[1]) {
            (8, 0) => Ok(Icmpv4Repr::EchoRequest {
                ident,
                seq_no,
                body,
            }),
            (0, 0) => Ok(Icmpv4Repr::EchoReply {
                ident,
                seq_no,
                body,
            }),
            (3, reason) => unreachable_v4(reason, body),
            (11, reason) => exceeded_v4(reason, body),
            _ => Err(Error),
        }
    }
}

fn unreachable_v4(reason: u8, packet: &[u8]) -> Result<Icmpv4Repr<'_>, Error>
    ensures { seen message_v4 result ≡ as_error (Unreachable reason) (quoted_v4 packet.now) }
{
    match quoted_v4(packet) {
        Some((header, body)) => Ok(Icmpv4Repr::DstUnreachable {
            reason,
            header,
            body,
        }),
        None => Err(Error),
    }
}

fn exceeded_v4(reason: u8, packet: &[u8]) -> Result<Icmpv4Repr<'_>, Error>
    ensures { seen message_v4 result ≡ as_error (Exceeded reason) (quoted_v4 packet.now) }
{
    match quoted_v4(packet) {
        Some((header, body)) => Ok(Icmpv4Repr::TimeExceeded {
            reason,
            header,
            body,
        }),
        None => Err(Error),
    }
}

// The header that is quoted, and what stands behind it.
#[tactic(auto, unfolding(crate::specs::Icmp::quoted_v4))]
fn quoted_v4(packet: &[u8]) -> Option<(Ipv4Repr, &[u8])>
    ensures { taken result ≡ quoted_v4 packet.now }
{
    if packet.len() < 28 {
        return None;
    }
    let header = (packet[0] % 16) as usize * 4;
    if packet[0] / 16 != 4 || header < 20 || packet.len() < header + 8 {
        return None;
    }
    Some((
        Ipv4Repr::of_fields(packet, packet.len() - header),
        &packet[header..],
    ))
}

fn header_v4(header: &Ipv4Repr, caps: &ChecksumCapabilities) -> [u8; 20]
    ensures { result ≡ ipv4_octets (is_sent caps.now.ipv4) header.now }
{
    let mut octets = [0; 20];
    IpRepr::Ipv4(*header).emit(&mut octets, caps);
    octets
}

impl<'a> Icmpv6Repr<'a> {
    /// How many bytes the message takes.
    pub fn buffer_len(&self) -> usize
        ensures { result ≡ message_len 40 (message_v6 self.now) }
    {
        match self {
            Icmpv6Repr::EchoRequest { body, .. } | Icmpv6Repr::EchoReply { body, .. } => 8
                + body.len(),
            Icmpv6Repr::DstUnreachable { body, .. }
            | Icmpv6Repr::TimeExceeded { body, .. }
            | Icmpv6Repr::ParamProblem { body, .. } => 48 + body.len(),
        }
    }

    /// Writes the message into `buffer_len` bytes. The checksum, which also sums the addresses of the packet, is 0
    /// where it is not computed before sending.
    pub fn emit(
        &self,
        src: &Ipv6Address,
        dst: &Ipv6Address,
        buffer: &mut [u8],
        caps: &ChecksumCapabilities,
    )
        requires { length buffer.old ≡ message_len 40 (message_v6 self.now) }
        ensures { buffer.new ≡ icmpv6_octets caps.now src.now dst.now (message_v6 self.now) }
    {
        self.write(buffer);
        if caps.icmpv6.tx() {
            fill_checksum(pseudo_header(src, dst, buffer.len()), buffer);
        }
    }

    // Writes it with a checksum of 0.
    fn write(&self, buffer: &mut [u8])
        requires { length buffer.old ≡ message_len 40 (message_v6 self.now) }
        ensures value { buffer.new ≡ v6_with (message_v6 self.now) 0 }
        ensures room { 8 ≤ length buffer.new }
    {
        match self {
            Icmpv6Repr::EchoRequest {
                ident,
                seq_no,
                body,
            } => write_echo(buffer, 128, *ident, *seq_no, body),
            Icmpv6Repr::EchoReply {
                ident,
                seq_no,
                body,
            } => write_echo(buffer, 129, *ident, *seq_no, body),
            Icmpv6Repr::DstUnreachable {
                reason,
                header,
                body,
            } => { write_error(buffer, 1, *reason, &header_v6(header), body) }
            Icmpv6Repr::TimeExceeded {
                reason,
                header,
                body,
            } => { write_error(buffer, 3, *reason, &header_v6(header), body) }
            Icmpv6Repr::ParamProblem {
                reason,
                pointer,
                header,
                body,
            } => { write_problem(buffer, *reason, *pointer, &header_v6(header), body) }
        }
    }

    /// The message that the bytes spell.
    ///
    /// # Errors
    /// An error unless there are 8 bytes of one of the five types, an echo has code 0, an error quotes a header of IPv6
    /// and at least 8 bytes behind it, and, where received checksums are tested, the checksum verifies. The lengths in
    /// a quoted header are not tested; its payload length is the count of bytes that are quoted behind it.
    pub fn parse(
        src: &Ipv6Address,
        dst: &Ipv6Address,
        bytes: &'a [u8],
        caps: &ChecksumCapabilities,
    ) -> Result<Icmpv6Repr<'a>, Error>
        ensures { seen message_v6 result ≡ icmpv6_parsed (is_received caps.now.icmpv6) src.now dst.now bytes.now }
    {
        if bytes.len() < 8
            || (caps.icmpv6.rx()
                && sum_after(pseudo_header(src, dst, bytes.len()), bytes) != 0xffff)
        {
            return Err(Error);
        }
        Icmpv6Repr::parse_unchecked(bytes)
    }

    // The message that 8 bytes or more spell, whatever their checksum.
    #[tactic(auto, unfolding(crate::specs::Icmp::icmpv6_message))]
    fn parse_unchecked(bytes: &'a [u8]) -> Result<Icmpv6Repr<'a>, Error>
        requires { 8 ≤ length bytes.now }
        ensures { seen message_v6 result ≡ icmpv6_message bytes.now }
    {
        let (ident, seq_no) = (word(bytes[4], bytes[5]), word(bytes[6], bytes[7]));
        let body = &bytes[8..];
        match (bytes[0], bytes[1]) {
            (128, 0) => Ok(Icmpv6Repr::EchoRequest {
                ident,
                seq_no,
                body,
            }),
            (129, 0) => Ok(Icmpv6Repr::EchoReply {
                ident,
                seq_no,
                body,
            }),
            (1, reason) => unreachable_v6(reason, body),
            (3, reason) => exceeded_v6(reason, body),
            (4, reason) => problem_v6(reason, be32_at(bytes, 4), body),
            _ => Err(Error),
        }
    }
}

fn unreachable_v6(reason: u8, packet: &[u8]) -> Result<Icmpv6Repr<'_>, Error>
    ensures { seen message_v6 result ≡ as_error (Unreachable reason) (quoted_v6 packet.now) }
{
    match quoted_v6(packet) {
        Some((header, body)) => Ok(Icmpv6Repr::DstUnreachable {
            reason,
            header,
            body,
        }),
        None => Err(Error),
    }
}

fn exceeded_v6(reason: u8, packet: &[u8]) -> Result<Icmpv6Repr<'_>, Error>
    ensures { seen message_v6 result ≡ as_error (Exceeded reason) (quoted_v6 packet.now) }
{
    match quoted_v6(packet) {
        Some((header, body)) => Ok(Icmpv6Repr::TimeExceeded {
            reason,
            header,
            body,
        }),
        None => Err(Error),
    }
}

fn problem_v6(reason: u8, pointer: u32, packet: &[u8]) -> Result<Icmpv6Repr<'_>, Error>
    ensures { seen message_v6 result ≡ as_error (Problem reason pointer) (quoted_v6 packet.now) }
{
    match quoted_v6(packet) {
        Some((header, body)) => Ok(Icmpv6Repr::ParamProblem {
            reason,
            pointer,
            header,
            body,
        }),
        None => Err(Error),
    }
}

// The header that is quoted, and what stands behind it.
#[tactic(auto, unfolding(crate::specs::Icmp::quoted_v6))]
fn quoted_v6(packet: &[u8]) -> Option<(Ipv6Repr, &[u8])>
    ensures { taken result ≡ quoted_v6 packet.now }
{
    if packet.len() < 48 || packet[0] / 16 != 6 {
        return None;
    }
    Some((
        Ipv6Repr::of_fields(packet, packet.len() - 40),
        behind(packet, 40),
    ))
}

fn header_v6(header: &Ipv6Repr) -> [u8; 40]
    ensures { result ≡ ipv6_octets header.now }
{
    let mut octets = [0; 40];
    IpRepr::Ipv6(*header).emit(&mut octets, &ChecksumCapabilities::ignored());
    octets
}

fn pseudo_header(src: &Ipv6Address, dst: &Ipv6Address, length: usize) -> u16
    ensures { result ≡ v6_start src.now dst.now length }
{
    pseudo_sum(&IpAddress::Ipv6(*src), &IpAddress::Ipv6(*dst), 58, length)
}

#[tactic(auto, using(crate::proofs::Messages::ends))]
fn write_echo(buffer: &mut [u8], kind: u8, ident: u16, seq_no: u16, body: &[u8])
    requires { length buffer.old ≡ 8 + length body.now }
    ensures value { buffer.new ≡ echo_octets kind ident seq_no body.now 0 }
    ensures length { length buffer.new ≡ length buffer.old }
{
    let [a, b] = be16(ident as usize);
    let [c, d] = be16(seq_no as usize);
    put_two(buffer, &[kind, 0, 0, 0, a, b, c, d], body);
}

#[tactic(auto, using(crate::proofs::Messages::ends))]
fn write_error(buffer: &mut [u8], kind: u8, reason: u8, header: &[u8], body: &[u8])
    requires { length buffer.old ≡ 8 + length header.now + length body.now }
    ensures value { buffer.new ≡ error_octets kind reason header.now body.now 0 }
    ensures length { length buffer.new ≡ length buffer.old }
{
    put_three(buffer, &[kind, reason, 0, 0, 0, 0, 0, 0], header, body);
}

#[tactic(auto, using(crate::proofs::Messages::ends))]
fn write_problem(buffer: &mut [u8], reason: u8, pointer: u32, header: &[u8], body: &[u8])
    requires { length buffer.old ≡ 8 + length header.now + length body.now }
    ensures value { buffer.new ≡ problem_octets 4 reason pointer header.now body.now 0 }
    ensures length { length buffer.new ≡ length buffer.old }
{
    let [a, b] = be16((pointer >> 16) as usize);
    let [c, d] = be16((pointer % 65536) as usize);
    put_three(buffer, &[4, reason, 0, 0, a, b, c, d], header, body);
}

// Writes the checksum of the bytes as they are, and of what was summed before.
fn fill_checksum(start: u16, buffer: &mut [u8])
    requires { 8 ≤ length buffer.old }
    ensures { buffer.new ≡ take 2 buffer.old
        ++ (be16 (complement (sum_after start buffer.old)) ++ drop 4 buffer.old) }
{
    let checksum = checksum_after(start, buffer);
    put(buffer, 2, &be16(checksum as usize));
}
