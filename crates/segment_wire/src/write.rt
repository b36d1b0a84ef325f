//! The pieces of a TCP header, written one behind the other. `header_len` is how many bytes it takes with its options,
//! worked out once for all of them.
ghost use Rattle.std.specs.Prelude.{ℕ, ◌≡◌, ◌+◌, ◌-◌, ◌≤◌, ◌<◌, ◌^◌, ◌++◌, ◌∷◌, [], count_by, is_some, drop, take};
ghost use Rattle.std.specs.Prelude.{length};
ghost use Rattle.ip_wire.specs.Octets.{be16, be32};
ghost use Rattle.ip_wire.specs.Sum.{complement, sum_after, swapped_word, word_of};
ghost use Rattle.control_wire.specs.Segment.{options_len, segment_header_len, segment_of};
ghost use Rattle.segment_wire.specs.Options.{mss_octets, options_octets, padding, permitted_octets, range_octets};
ghost use Rattle.segment_wire.specs.Options.{ranges_octets, sack_if, sack_octets, scale_octets, stamp_octets};
ghost use Rattle.segment_wire.specs.Tcp.{ack_bit, ack_field, control_bits, tcp_header, tcp_with};

use control_wire::tcp::sack_count;
use control_wire::{TcpControl, TcpRepr, TcpSeqNumber, TcpTimestampRepr};
use ip_wire::octets::{be16, behind, put};
use ip_wire::sum::sum_after_wide;

/// Writes the segment's header, with a checksum of 0. What stands behind it stays.
pub fn write_front(repr: &TcpRepr<'_>, header_len: usize, buffer: &mut [u8])
    requires counted { header_len ≡ segment_header_len (segment_of repr.now) }
    requires room { segment_header_len (segment_of repr.now) ≤ length buffer.old }
    requires options { options_len (segment_of repr.now) ≤ 40 }
    ensures value { buffer.new ≡ tcp_header (segment_of repr.now) 0 ++ (options_octets (segment_of repr.now)
        ++ drop (segment_header_len (segment_of repr.now)) buffer.old) }
    ensures length { length buffer.new ≡ length buffer.old }
{
    let (front, _behind) = buffer.split_at_mut(header_len);
    write_header(repr, header_len, front);
}

// Writes a header with a checksum of 0 into as many bytes as it has.
#[tactic(auto, using(crate::proofs::Written::whole))]
fn write_header(repr: &TcpRepr<'_>, header_len: usize, front: &mut [u8])
    requires counted { header_len ≡ segment_header_len (segment_of repr.now) }
    requires room { length front.old ≡ segment_header_len (segment_of repr.now) }
    requires options { options_len (segment_of repr.now) ≤ 40 }
    ensures value { front.new ≡ tcp_header (segment_of repr.now) 0 ++ options_octets (segment_of repr.now) }
    ensures length { length front.new ≡ length front.old }
{
    options_count(repr);
    let at = append(front, 0, &header(repr, header_len));
    put_options(repr, header_len, front, at);
}

// Says that the options' bytes are as many as the header counts, which a proof does not see by itself.
fn options_count(repr: &TcpRepr<'_>)
    ensures { length (mss_octets repr.now.max_seg_size) + (length (scale_octets repr.now.window_scale)
        + (length (permitted_octets repr.now.sack_permitted) + (length (sack_octets repr.now.sack_ranges)
        + length (stamp_octets repr.now.timestamp)))) ≡ options_len (segment_of repr.now) }
{}

fn header(repr: &TcpRepr<'_>, header_len: usize) -> [u8; 20]
    requires counted { header_len ≡ segment_header_len (segment_of repr.now) }
    requires options { options_len (segment_of repr.now) ≤ 40 }
    ensures { result ≡ tcp_header (segment_of repr.now) 0 }
{
    let [a, b] = be16(repr.src_port as usize);
    let [c, d] = be16(repr.dst_port as usize);
    let [e, f, g, h] = be32(repr.seq_number.0);
    let [i, j, k, l] = be32(ack_field(repr.ack_number));
    let offset = (header_len / 4 * 16) as u8;
    let flags = control_bits(repr.control) + ack_bit(repr.ack_number);
    let [m, n] = be16(repr.window_len as usize);
    [
        a, b, c, d, e, f, g, h, i, j, k, l, offset, flags, m, n, 0, 0, 0, 0,
    ]
}

/// What a header with a checksum of 0 adds to a sum that is not folded. It is worked out from the numbers: what was
/// just written in single bytes is read slowly as words.
pub fn header_sum(repr: &TcpRepr<'_>, header_len: usize) -> u64
    requires counted { header_len ≡ segment_header_len (segment_of repr.now) }
    requires options { options_len (segment_of repr.now) ≤ 40 }
    ensures value { (start : ℕ) → sum_after (word_of start) (tcp_header (segment_of repr.now) 0)
        ≡ word_of (start + result) }
    ensures small { result < 2 ^ 34 }
{
    let ports = repr.src_port as u64 + repr.dst_port as u64;
    let numbers = repr.seq_number.0 as u64 + ack_field(repr.ack_number) as u64;
    let flags = (control_bits(repr.control) + ack_bit(repr.ack_number)) as u64;
    let rest = (header_len / 4 * 16) as u64 * 256 + flags + repr.window_len as u64;
    ports + numbers + rest
}

fn control_bits(control: TcpControl) -> u8
    ensures value { result ≡ control_bits control }
    ensures small { result ≤ 8 }
{
    match control {
        TcpControl::None => 0,
        TcpControl::Fin => 1,
        TcpControl::Syn => 2,
        TcpControl::Rst => 4,
        TcpControl::Psh => 8,
    }
}

fn ack_bit(number: Option<TcpSeqNumber>) -> u8
    ensures value { result ≡ ack_bit number }
    ensures small { result ≤ 16 }
{
    match number {
        None => 0,
        Some(_) => 16,
    }
}

fn ack_field(number: Option<TcpSeqNumber>) -> u32
    ensures { result ≡ ack_field number }
{
    match number {
        None => 0,
        Some(number) => number.0,
    }
}

// A number as four bytes.
fn be32(number: u32) -> [u8; 4]
    ensures { result ≡ be32 number }
{
    let [a, b] = be16((number / 65536) as usize);
    let [c, d] = be16(number as usize);
    [a, b, c, d]
}

// Writes the options, and END up to the end of the header.
#[tactic(auto, using(crate::proofs::Written::six, crate::proofs::Written::no_octets))]
fn put_options(repr: &TcpRepr<'_>, header_len: usize, buffer: &mut [u8], at: usize) -> usize
    requires counted { header_len ≡ segment_header_len (segment_of repr.now) }
    requires start { at ≡ 20 }
    requires room { segment_header_len (segment_of repr.now) ≤ length buffer.old }
    ensures at { result ≡ segment_header_len (segment_of repr.now) }
    ensures value { take result buffer.new ≡ take at buffer.old ++ options_octets (segment_of repr.now) }
    ensures length { length buffer.new ≡ length buffer.old }
{
    options_count(repr);
    if header_len == 20 {
        return at; // most segments have none: one test in place of six
    }
    let [a, b, c] = repr.sack_ranges;
    let at = put_mss(buffer, at, repr.max_seg_size);
    let at = put_scale(buffer, at, repr.window_scale);
    let at = put_permitted(buffer, at, repr.sack_permitted);
    let count = sack_count(&repr.sack_ranges);
    let at = put_sack(buffer, at, count == 0, count, a, b, c);
    let at = put_stamp(buffer, at, repr.timestamp);
    put_padding(buffer, at, header_len - at)
}

// Writes `piece` at `at`. Answers where it ends.
#[tactic(auto, using(crate::proofs::Written::front_kept))]
fn append(buffer: &mut [u8], at: usize, piece: &[u8]) -> usize
    requires { at + length piece.now ≤ length buffer.old }
    ensures at { result ≡ at + length piece.now }
    ensures value { take result buffer.new ≡ take at buffer.old ++ piece.now }
    ensures length { length buffer.new ≡ length buffer.old }
{
    put(buffer, at, piece);
    at + piece.len()
}

#[tactic(auto, using(crate::proofs::Written::nothing_more))]
fn put_mss(buffer: &mut [u8], at: usize, size: Option<u16>) -> usize
    requires { at + length (mss_octets size) ≤ length buffer.old }
    ensures at { result ≡ at + length (mss_octets size) }
    ensures value { take result buffer.new ≡ take at buffer.old ++ mss_octets size }
    ensures length { length buffer.new ≡ length buffer.old }
{
    let Some(size) = size else {
        return at;
    };
    let [high, low] = be16(size as usize);
    append(buffer, at, &[2, 4, high, low])
}

#[tactic(auto, using(crate::proofs::Written::nothing_more))]
fn put_scale(buffer: &mut [u8], at: usize, bits: Option<u8>) -> usize
    requires { at + length (scale_octets bits) ≤ length buffer.old }
    ensures at { result ≡ at + length (scale_octets bits) }
    ensures value { take result buffer.new ≡ take at buffer.old ++ scale_octets bits }
    ensures length { length buffer.new ≡ length buffer.old }
{
    let Some(bits) = bits else {
        return at;
    };
    append(buffer, at, &[3, 3, bits])
}

#[tactic(auto, using(crate::proofs::Written::nothing_more))]
fn put_permitted(buffer: &mut [u8], at: usize, permitted: bool) -> usize
    requires { at + length (permitted_octets permitted) ≤ length buffer.old }
    ensures at { result ≡ at + length (permitted_octets permitted) }
    ensures value { take result buffer.new ≡ take at buffer.old ++ permitted_octets permitted }
    ensures length { length buffer.new ≡ length buffer.old }
{
    if !permitted {
        return at;
    }
    append(buffer, at, &[4, 2])
}

#[tactic(auto, using(crate::proofs::Written::nothing_more))]
fn put_stamp(buffer: &mut [u8], at: usize, stamp: Option<TcpTimestampRepr>) -> usize
    requires { at + length (stamp_octets stamp) ≤ length buffer.old }
    ensures at { result ≡ at + length (stamp_octets stamp) }
    ensures value { take result buffer.new ≡ take at buffer.old ++ stamp_octets stamp }
    ensures length { length buffer.new ≡ length buffer.old }
{
    let Some(stamp) = stamp else {
        return at;
    };
    let [a, b, c, d] = be32(stamp.tsval);
    let [e, f, g, h] = be32(stamp.tsecr);
    append(buffer, at, &[8, 10, a, b, c, d, e, f, g, h])
}

#[tactic(auto, using(crate::proofs::Written::nothing_more))]
fn put_range(buffer: &mut [u8], at: usize, range: Option<(u32, u32)>) -> usize
    requires { at + length (range_octets range) ≤ length buffer.old }
    ensures at { result ≡ at + length (range_octets range) }
    ensures value { take result buffer.new ≡ take at buffer.old ++ range_octets range }
    ensures length { length buffer.new ≡ length buffer.old }
{
    let Some((from, to)) = range else {
        return at;
    };
    let [a, b, c, d] = be32(from);
    let [e, f, g, h] = be32(to);
    append(buffer, at, &[a, b, c, d, e, f, g, h])
}

#[tactic(auto, using(crate::proofs::Written::nothing_more))]
fn put_padding(buffer: &mut [u8], at: usize, count: usize) -> usize
    requires few { count ≤ 3 }
    requires room { at + count ≤ length buffer.old }
    ensures at { result ≡ at + count }
    ensures value { take result buffer.new ≡ take at buffer.old ++ take count (0 ∷ 0 ∷ 0 ∷ []) }
    ensures length { length buffer.new ≡ length buffer.old }
{
    if count == 0 {
        return at;
    }
    append(buffer, at, &[0, 0, 0][..count])
}

/// Writes the checksum of a segment, of what was summed before, with its header, and of what stands behind the header.
pub fn fill_checksum(front: u64, swapped: u64, buffer: &mut [u8])
    requires room { 20 ≤ length buffer.old }
    requires front { front < 2 ^ 40 }
    requires swapped { swapped < 2 ^ 36 }
    ensures { buffer.new ≡ take 16 buffer.old
        ++ (be16 (complement (sum_after (swapped_word front swapped) (drop 20 buffer.old))) ++ drop 18 buffer.old) }
{
    let checksum = 0xffff - sum_after_wide(front, swapped, behind(buffer, 20));
    put(buffer, 16, &be16(checksum as usize));
}

// The option's kind and length stand before the blocks.
#[tactic(auto, using(crate::proofs::Written::nothing_more, crate::proofs::Written::two))]
fn put_sack(
    buffer: &mut [u8],
    at: usize,
    none: bool,
    count: usize,
    a: Option<(u32, u32)>,
    b: Option<(u32, u32)>,
    c: Option<(u32, u32)>,
) -> usize
    requires few { count ≤ 3 }
    requires room { at + length (sack_if none count (a ∷ b ∷ c ∷ [])) ≤ length buffer.old }
    ensures at { result ≡ at + length (sack_if none count (a ∷ b ∷ c ∷ [])) }
    ensures value { take result buffer.new ≡ take at buffer.old ++ sack_if none count (a ∷ b ∷ c ∷ []) }
    ensures length { length buffer.new ≡ length buffer.old }
{
    if none {
        return at;
    }
    let at = append(buffer, at, &[5, (2 + 8 * count) as u8]);
    put_ranges(buffer, at, a, b, c)
}

#[tactic(auto, using(crate::proofs::Written::three))]
fn put_ranges(
    buffer: &mut [u8],
    at: usize,
    a: Option<(u32, u32)>,
    b: Option<(u32, u32)>,
    c: Option<(u32, u32)>,
) -> usize
    requires { at + length (ranges_octets (a ∷ b ∷ c ∷ [])) ≤ length buffer.old }
    ensures at { result ≡ at + length (ranges_octets (a ∷ b ∷ c ∷ [])) }
    ensures value { take result buffer.new ≡ take at buffer.old ++ ranges_octets (a ∷ b ∷ c ∷ []) }
    ensures length { length buffer.new ≡ length buffer.old }
{
    let at = put_range(buffer, at, a);
    let at = put_range(buffer, at, b);
    put_range(buffer, at, c)
}
