//! TCP segments as bytes (RFC 9293, section 3.1).
ghost use Rattle.std.specs.Prelude.{◌≡◌, ◌+◌, ◌-◌, ◌≤◌, ◌<◌, ◌^◌, ◌++◌, ◌/◌, ◌*◌, IsTrue, true, drop, take, length};
ghost use Rattle.std.specs.Prelude.{option_map};
ghost use Rattle.ip_wire.specs.Checksum.{is_received, is_sent};
ghost use Rattle.ip_wire.specs.IpHeader.{dst_addr_of, src_addr_of};
ghost use Rattle.ip_wire.specs.Octets.{be16};
ghost use Rattle.ip_wire.specs.Sum.{pseudo_sum, swapped_word};
ghost use Rattle.ip_wire.specs.declared.address.IpAddress.{IpAddress};
ghost use Rattle.control_wire.specs.Segment.{options_len, segment_header_len, segment_of};
ghost use Rattle.control_wire.specs.Source.{sum_holds, tcp_header_len};
ghost use Rattle.segment_wire.specs.Options.{no_options, options_octets, options_read};
ghost use Rattle.segment_wire.specs.Tcp.{ack_bit, ack_field, ack_of, control_bits, control_of};
ghost use Rattle.segment_wire.specs.Tcp.{filled, is_head, options_of, read_as, segment_at, segment_if};
ghost use Rattle.segment_wire.specs.Tcp.{tcp_checksum, tcp_header, tcp_octets, tcp_parsed, tcp_with, with_options};

use crate::options::{NO_OPTIONS, TcpOptions, be32_at, no_options, read_options};
use crate::pseudo::pseudo_parts;
use crate::write::{fill_checksum, header_sum, write_front};
use control_wire::source::{at_most_one, sum_holds};
use control_wire::{TcpControl, TcpRepr, TcpSeqNumber};
use ip_wire::octets::{be16_at, behind, put, word};
use ip_wire::sum::{pseudo_sum, sum_after_wide, sum_of_twenty_after};
use ip_wire::{ChecksumCapabilities, Error, IpAddress, IpRepr};

/// Writes the segment into `buffer_len` bytes, between these two addresses.
///
/// The options stand in the order MSS, window scale, SACK permitted, SACK, timestamp, and END fills the header up to a
/// multiple of 4 bytes. They take 40 bytes at most. Of the flags FIN, SYN, RST, PSH and ACK alone are set; the urgent
/// pointer is 0. The checksum is 0 where it is not computed before sending.
#[tactic(auto, using(crate::proofs::Written::payload_behind))]
pub fn emit(
    repr: &TcpRepr<'_>,
    buffer: &mut [u8],
    src_addr: &IpAddress,
    dst_addr: &IpAddress,
    caps: &ChecksumCapabilities,
)
    requires room { length buffer.old ≡ segment_header_len (segment_of repr.now) + length repr.now.payload.now }
    requires options { options_len (segment_of repr.now) ≤ 40 }
    ensures { buffer.new ≡ tcp_octets (is_sent caps.now.tcp) src_addr.now dst_addr.now (segment_of repr.now) }
{
    put(buffer, repr.header_len(), repr.payload);
    emit_front(repr, buffer, src_addr, dst_addr, caps);
}

/// Writes the segment's header, with its options and its checksum, before a copy of its payload, which stands in
/// `buffer` already, behind `header_len` bytes. The bytes are then those of [`emit`]. So a new buffer need not be
/// filled first.
#[tactic(auto, using(crate::proofs::PseudoSums::alone), unfolding(crate::specs::Tcp::tcp_with))]
pub fn emit_front(
    repr: &TcpRepr<'_>,
    buffer: &mut [u8],
    src_addr: &IpAddress,
    dst_addr: &IpAddress,
    caps: &ChecksumCapabilities,
)
    requires room { segment_header_len (segment_of repr.now) ≤ length buffer.old }
    requires payload { drop (segment_header_len (segment_of repr.now)) buffer.old ≡ repr.now.payload.now }
    requires options { options_len (segment_of repr.now) ≤ 40 }
    ensures { buffer.new ≡ tcp_octets (is_sent caps.now.tcp) src_addr.now dst_addr.now (segment_of repr.now) }
{
    let header_len = repr.header_len();
    write_front(repr, header_len, buffer);
    if caps.tcp.tx() {
        let start = pseudo_sum(src_addr, dst_addr, 6, buffer.len());
        write_checksum(repr, header_len, start as u64, 0, buffer);
    }
}

/// Writes the segment's header, of so many bytes, as [`emit_front`], behind this IP header, which has the addresses.
#[tactic(auto, unfolding(crate::specs::Tcp::tcp_with))]
pub(crate) fn emit_behind(
    ip: &IpRepr,
    repr: &TcpRepr<'_>,
    len: usize,
    buffer: &mut [u8],
    caps: &ChecksumCapabilities,
)
    requires counted { len ≡ segment_header_len (segment_of repr.now) }
    requires room { segment_header_len (segment_of repr.now) ≤ length buffer.old }
    requires payload { drop (segment_header_len (segment_of repr.now)) buffer.old ≡ repr.now.payload.now }
    requires options { options_len (segment_of repr.now) ≤ 40 }
    ensures { buffer.new ≡ tcp_octets (is_sent caps.now.tcp) (src_addr_of ip.now) (dst_addr_of ip.now)
        (segment_of repr.now) }
{
    write_front(repr, len, buffer);
    if caps.tcp.tx() {
        let (start, swapped) = pseudo_parts(ip, buffer.len());
        write_checksum(repr, len, start, swapped, buffer);
    }
}

// Writes the checksum of a segment that has 0 in its place, behind a pseudo header of this sum, not folded.
fn write_checksum(
    repr: &TcpRepr<'_>,
    header_len: usize,
    start: u64,
    swapped: u64,
    buffer: &mut [u8],
)
    requires counted { header_len ≡ segment_header_len (segment_of repr.now) }
    requires written { buffer.old ≡ tcp_with (segment_of repr.now) 0 }
    requires room { 20 ≤ length buffer.old }
    requires options { options_len (segment_of repr.now) ≤ 40 }
    requires start { start < 2 ^ 33 }
    requires swapped { swapped < 2 ^ 33 }
    ensures { (src dst : IpAddress) → swapped_word start swapped ≡ pseudo_sum src dst 6 (length buffer.old)
        → buffer.new ≡ tcp_octets true src dst (segment_of repr.now) }
{
    let front = start + header_sum(repr, header_len);
    fill_checksum(front, swapped, buffer);
}

/// The segment that the bytes spell, between these two addresses.
///
/// # Errors
/// An error unless the header has at least 20 bytes and no more than there are, no port is 0, one at most of FIN, SYN
/// and RST is set, the options are whole up to an END, as [`read_options`], and, where received checksums are tested,
/// the checksum verifies. PSH beside one of the three is not kept, nor are URG and its pointer, as smoltcp.
pub fn parse<'a>(
    bytes: &'a [u8],
    src_addr: &IpAddress,
    dst_addr: &IpAddress,
    caps: &ChecksumCapabilities,
) -> Result<TcpRepr<'a>, Error>
    ensures { read_as segment_of result ≡ tcp_parsed (is_received caps.now.tcp) src_addr.now dst_addr.now bytes.now }
{
    if !is_head(bytes) || (caps.tcp.rx() && !sum_holds(bytes, src_addr, dst_addr, 6)) {
        return Err(Error);
    }
    read(bytes)
}

/// The segment that the bytes spell behind this IP header, as [`parse`] between its addresses.
///
/// # Errors
/// As [`parse`] says.
pub fn parse_behind<'a>(
    ip: &IpRepr,
    bytes: &'a [u8],
    caps: &ChecksumCapabilities,
) -> Result<TcpRepr<'a>, Error>
    ensures { read_as segment_of result
        ≡ tcp_parsed (is_received caps.now.tcp) (src_addr_of ip.now) (dst_addr_of ip.now) bytes.now }
{
    if !is_head(bytes) || (caps.tcp.rx() && !sum_holds_behind(ip, bytes)) {
        return Err(Error);
    }
    read(bytes)
}

/// Reads the segment that the bytes spell behind this IP header, as [`parse_behind`], into `repr`. Whether there is
/// one: else `repr` has no meaning.
///
/// So a segment without options, as most, is written once, where it is wanted.
#[inline(always)]
#[tactic(auto, using(crate::proofs::Steps::bare_filled, crate::proofs::Steps::options_filled))]
pub fn parse_behind_into<'a>(
    repr: &mut TcpRepr<'a>,
    ip: &IpRepr,
    bytes: &'a [u8],
    caps: &ChecksumCapabilities,
) -> bool
    ensures { filled result (segment_of repr.new)
        ≡ tcp_parsed (is_received caps.now.tcp) (src_addr_of ip.now) (dst_addr_of ip.now) bytes.now }
{
    if caps.tcp.rx() && !sum_holds_behind(ip, bytes) {
        return false;
    }
    if !is_head(bytes) {
        return false; // behind the sum, whose call would have what was read of the head put aside
    }
    fill(repr, bytes, &no_options());
    let octets = options_of(bytes);
    if octets.is_empty() {
        return true;
    }
    fill_options(repr, octets)
}

// Sets the fields of the options. Not inlined, so that a segment without any is read by short code.
#[inline(never)]
fn fill_options(repr: &mut TcpRepr<'_>, octets: &[u8]) -> bool
    ensures { filled result (segment_of repr.new)
        ≡ option_map (with_options (segment_of repr.old)) (options_read 0 no_options octets.now) }
{
    match read_options(octets) {
        Some(options) => {
            repr.window_scale = options.window_scale;
            repr.max_seg_size = options.max_seg_size;
            repr.sack_permitted = options.sack_permitted;
            let ranges = options.sack_ranges;
            repr.sack_ranges = ranges;
            repr.timestamp = options.timestamp;
            true
        }
        None => false,
    }
}

// Whether the checksum verifies.
fn sum_holds_behind(ip: &IpRepr, bytes: &[u8]) -> bool
    ensures { result ≡ sum_holds (src_addr_of ip.now) (dst_addr_of ip.now) 6 bytes.now }
{
    let (start, swapped) = pseudo_parts(ip, bytes.len());
    sum_after_wide(start, swapped, bytes) == 0xffff
}

// The segment that the bytes spell, where its options are whole.
#[inline(always)]
fn read<'a>(bytes: &'a [u8]) -> Result<TcpRepr<'a>, Error>
    requires least { 20 ≤ tcp_header_len bytes.now }
    requires fits { tcp_header_len bytes.now ≤ length bytes.now }
    ensures { read_as segment_of result
        ≡ segment_if bytes.now (options_read 0 no_options (options_of bytes.now)) }
{
    match read_options(options_of(bytes)) {
        Some(options) => Ok(segment_at(bytes, &options)),
        None => Err(Error),
    }
}

/// Reads the segment that the bytes spell, as [`parse`], into `repr`. Whether there is one: else `repr` is as it was.
///
/// An answer that is handed up by value is copied at each return.
#[inline(always)]
#[tactic(auto, using(crate::proofs::Bare::none_read))]
pub fn parse_into<'a>(
    repr: &mut TcpRepr<'a>,
    bytes: &'a [u8],
    src_addr: &IpAddress,
    dst_addr: &IpAddress,
    caps: &ChecksumCapabilities,
) -> bool
    ensures { filled result (segment_of repr.new)
        ≡ tcp_parsed (is_received caps.now.tcp) src_addr.now dst_addr.now bytes.now }
{
    if !is_head(bytes) || (caps.tcp.rx() && !verifies(bytes, src_addr, dst_addr)) {
        return false;
    }
    if options_of(bytes).is_empty() {
        fill(repr, bytes, &NO_OPTIONS);
        return true;
    }
    fill_whole(repr, bytes)
}

// Whether the checksum holds. Of a header alone, as of an acknowledgement, with no loop.
#[inline(always)]
fn verifies(bytes: &[u8], src_addr: &IpAddress, dst_addr: &IpAddress) -> bool
    ensures { result ≡ sum_holds src_addr.now dst_addr.now 6 bytes.now }
{
    if bytes.len() == 20 {
        return sum_of_twenty_after(pseudo_sum(src_addr, dst_addr, 6, 20), bytes) == 0xffff;
    }
    sum_holds(bytes, src_addr, dst_addr, 6)
}

// Sets each field, where the options are whole. Not inlined, so that a segment without any is read by short code.
#[inline(never)]
fn fill_whole<'a>(repr: &mut TcpRepr<'a>, bytes: &'a [u8]) -> bool
    requires least { 20 ≤ tcp_header_len bytes.now }
    requires fits { tcp_header_len bytes.now ≤ length bytes.now }
    ensures { filled result (segment_of repr.new)
        ≡ segment_if bytes.now (options_read 0 no_options (options_of bytes.now)) }
{
    match read_options(options_of(bytes)) {
        Some(options) => {
            fill(repr, bytes, &options);
            true
        }
        None => false,
    }
}

// Sets each field.
#[inline(always)]
fn fill<'a>(repr: &mut TcpRepr<'a>, bytes: &'a [u8], options: &TcpOptions)
    requires least { 20 ≤ tcp_header_len bytes.now }
    requires fits { tcp_header_len bytes.now ≤ length bytes.now }
    ensures { segment_of repr.new ≡ segment_at bytes.now options.now }
{
    let flags = bytes[13];
    repr.src_port = word(bytes[0], bytes[1]);
    repr.dst_port = word(bytes[2], bytes[3]);
    repr.control = control_of(flags);
    repr.seq_number = TcpSeqNumber(be32_at(bytes, 4));
    repr.ack_number = ack_of(flags, be32_at(bytes, 8));
    repr.window_len = word(bytes[14], bytes[15]);
    repr.window_scale = options.window_scale;
    repr.max_seg_size = options.max_seg_size;
    repr.sack_permitted = options.sack_permitted;
    repr.sack_ranges = options.sack_ranges;
    repr.timestamp = options.timestamp;
    repr.payload = behind(bytes, (bytes[12] / 16) as usize * 4);
}

#[tactic(auto, unfolding(crate::specs::Tcp::is_head))]
fn is_head(bytes: &[u8]) -> bool
    ensures value { result ≡ is_head bytes.now }
    ensures least { IsTrue result → 20 ≤ tcp_header_len bytes.now }
    ensures fits { IsTrue result → tcp_header_len bytes.now ≤ length bytes.now }
{
    if bytes.len() < 20 {
        return false;
    }
    let header = (bytes[12] / 16) as usize * 4;
    20 <= header
        && header <= bytes.len()
        && be16_at(bytes, 0) != 0
        && be16_at(bytes, 2) != 0
        && at_most_one(bytes[13] % 8)
}

fn options_of(bytes: &[u8]) -> &[u8]
    requires least { 20 ≤ tcp_header_len bytes.now }
    requires fits { tcp_header_len bytes.now ≤ length bytes.now }
    ensures { result.now ≡ options_of bytes.now }
{
    let header = (bytes[12] / 16) as usize * 4;
    &bytes[20..header]
}

fn segment_at<'a>(bytes: &'a [u8], options: &TcpOptions) -> TcpRepr<'a>
    requires least { 20 ≤ tcp_header_len bytes.now }
    requires fits { tcp_header_len bytes.now ≤ length bytes.now }
    ensures { segment_of result ≡ segment_at bytes.now options.now }
{
    let flags = bytes[13];
    TcpRepr {
        src_port: word(bytes[0], bytes[1]),
        dst_port: word(bytes[2], bytes[3]),
        control: control_of(flags),
        seq_number: TcpSeqNumber(be32_at(bytes, 4)),
        ack_number: ack_of(flags, be32_at(bytes, 8)),
        window_len: word(bytes[14], bytes[15]),
        window_scale: options.window_scale,
        max_seg_size: options.max_seg_size,
        sack_permitted: options.sack_permitted,
        sack_ranges: options.sack_ranges,
        timestamp: options.timestamp,
        payload: behind(bytes, (bytes[12] / 16) as usize * 4),
    }
}

// The control of each number of the four low flags: it is read where it stands, with no jump by what a peer sends.
static CONTROLS: [TcpControl; 16] = [
    TcpControl::None,
    TcpControl::Fin,
    TcpControl::Syn,
    TcpControl::None,
    TcpControl::Rst,
    TcpControl::None,
    TcpControl::None,
    TcpControl::None,
    TcpControl::Psh,
    TcpControl::Fin,
    TcpControl::Syn,
    TcpControl::Psh,
    TcpControl::Rst,
    TcpControl::Psh,
    TcpControl::Psh,
    TcpControl::Psh,
];

fn control_of(flags: u8) -> TcpControl
    ensures { result ≡ control_of flags }
{
    CONTROLS[(flags % 16) as usize]
}

fn ack_of(flags: u8, number: u32) -> Option<TcpSeqNumber>
    ensures { result ≡ ack_of flags number }
{
    if flags / 16 % 2 == 1 {
        Some(TcpSeqNumber(number))
    } else {
        None
    }
}
