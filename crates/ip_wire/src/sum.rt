//! Checksums: ones' complement sums of 16-bit words (RFC 1071).
ghost use Rattle.std.specs.Prelude.{◌≡◌, ◌+◌, ◌*◌, ◌/◌, ℕ, List, ◌∷◌, ◌++◌, ◌<◌, ◌≤◌, ◌^◌, drop, length};
ghost use Rattle.ip_wire.specs.Octets.{IsOctets, be16};
ghost use Rattle.ip_wire.specs.Address.{octets_of};
ghost use Rattle.ip_wire.specs.Sum.{IsEven, all_ones, complement, le16_at, le32_at, le64_at, ones_add, pseudo_sum};
ghost use Rattle.ip_wire.specs.Sum.{sum_after, swapped_word, word_of};

use crate::address::{IpAddress, Ipv4Address};
use crate::octets::be32_at;

/// The sum of two words, a carry out of the sixteen bits added at the other end.
pub fn ones_add(a: u16, b: u16) -> u16
    ensures { result ≡ ones_add a b }
{
    let total = a as u32 + b as u32;
    if total < 0x10000 {
        total as u16
    } else {
        (total - 0xffff) as u16
    }
}

/// Adds the 16-bit words of `bytes` to a sum, in one pass. An odd last byte is padded with 0.
///
/// A sum over pieces is worked out piece by piece, where all but the last have an even length.
#[tactic(auto, using(crate::proofs::Sums::after_start))]
pub fn sum_after(start: u16, bytes: &[u8]) -> u16
    ensures { result ≡ sum_after start bytes.now }
{
    sum_after_wide(start as u64, 0, bytes)
}

/// The sum of the Internet checksum (RFC 1071) of `bytes` behind `start` and `swapped`; the latter's words have the low
/// byte first. Neither sum need be folded, and a segment without a payload has nothing more to be read.
#[inline(always)]
#[tactic(auto, using(crate::proofs::Sums::after_nothing))]
pub fn sum_after_wide(start: u64, swapped: u64, bytes: &[u8]) -> u16
    requires start { start < 2 ^ 40 }
    requires swapped { swapped < 2 ^ 36 }
    ensures { result ≡ sum_after (swapped_word start swapped) bytes.now }
{
    if bytes.is_empty() {
        return swapped_word(start, swapped);
    }
    sum_by_eights(start, swapped, bytes)
}

#[inline(never)]
fn sum_by_eights(start: u64, swapped: u64, bytes: &[u8]) -> u16
    requires start { start < 2 ^ 40 }
    requires swapped { swapped < 2 ^ 36 }
    ensures { result ≡ sum_after (swapped_word start swapped) bytes.now }
{
    let mut total = swapped as u128;
    let mut at = 0;
    while at < bytes.len() / 128 * 128 {
        total = add_sixty_four(total, bytes, at);
        total = add_sixty_four(total, bytes, at + 64);
        at += 128;
    }
    while at < bytes.len() / 32 * 32 {
        total = add_thirty_two(total, bytes, at);
        at += 32;
    }
    while at < bytes.len() / 8 * 8 {
        total = add_eight(total, bytes, at);
        at += 8;
    }
    swapped_word(start, add_few(narrowed(total), bytes))
}

fn add_sixty_four(total: u128, bytes: &[u8], at: usize) -> u128
    requires small { total < 2 ^ 64 * at + 2 ^ 36 }
    requires room { at + 64 ≤ length bytes.now }
    ensures value { (start : ℕ) → sum_after (swapped_word start result) (drop (at + 64) bytes.now)
        ≡ sum_after (swapped_word start total) (drop at bytes.now) }
    ensures small { result < 2 ^ 64 * (at + 64) + 2 ^ 36 }
{
    let first = add_thirty_two(total, bytes, at);
    add_thirty_two(first, bytes, at + 32)
}

// Adds the 32 bytes from `at` on to a wide sum, as numbers of eight bytes with the lowest first, which x86-64 loads
// without a swap: the sum's two bytes are then swapped too (RFC 1071, section 2 (B)). An addition of eight bytes and
// one of its carry take the place of two additions of four.
fn add_thirty_two(total: u128, bytes: &[u8], at: usize) -> u128
    requires small { total < 2 ^ 64 * at + 2 ^ 36 }
    requires room { at + 32 ≤ length bytes.now }
    ensures value { (start : ℕ) → sum_after (swapped_word start result) (drop (at + 32) bytes.now)
        ≡ sum_after (swapped_word start total) (drop at bytes.now) }
    ensures small { result < 2 ^ 64 * (at + 32) + 2 ^ 36 }
{
    let first = total + le64_at(bytes, at) + le64_at(bytes, at + 8);
    first + le64_at(bytes, at + 16) + le64_at(bytes, at + 24)
}

fn add_eight(total: u128, bytes: &[u8], at: usize) -> u128
    requires small { total < 2 ^ 64 * at + 2 ^ 36 }
    requires room { at + 8 ≤ length bytes.now }
    ensures value { (start : ℕ) → sum_after (swapped_word start result) (drop (at + 8) bytes.now)
        ≡ sum_after (swapped_word start total) (drop at bytes.now) }
    ensures small { result < 2 ^ 64 * (at + 8) + 2 ^ 36 }
{
    total + le64_at(bytes, at)
}

// The number of the eight bytes at `at`, the lowest first.
fn le64_at(bytes: &[u8], at: usize) -> u128
    requires { at + 8 ≤ length bytes.now }
    ensures value { result ≡ le64_at bytes.now at }
    ensures small { result < 2 ^ 64 }
{
    (le32_at(bytes, at) + 0x1_0000_0000 * le32_at(bytes, at + 4)) as u128
}

// A wide sum with its upper half added to the lower one, and again: it comes to the same.
fn narrowed(total: u128) -> u64
    ensures value { (start : ℕ) → swapped_word start result ≡ swapped_word start total }
    ensures small { result < 2 ^ 33 }
{
    halved(carried(total))
}

// A wide sum with its upper half added to the lower one, and the carry of that.
fn carried(total: u128) -> u64
    ensures { (start : ℕ) → swapped_word start result ≡ swapped_word start total }
{
    let once = total % 0x1_0000_0000_0000_0000 + total / 0x1_0000_0000_0000_0000;
    (once % 0x1_0000_0000_0000_0000 + once / 0x1_0000_0000_0000_0000) as u64
}

// Adds the last bytes, fewer than eight, to a wide sum: each test looks at one bit of how many there are.
fn add_few(total: u64, bytes: &[u8]) -> u64
    requires { total < 2 ^ 33 }
    ensures value { (start : ℕ) → swapped_word start result
        ≡ sum_after (swapped_word start total) (drop (length bytes.now / 8 * 8) bytes.now) }
    ensures small { result < 2 ^ 35 }
{
    add_last(add_pair(add_four(total, bytes), bytes), bytes)
}

// Adds the four bytes behind the last eight, where there are as many.
fn add_four(total: u64, bytes: &[u8]) -> u64
    requires { total < 2 ^ 33 }
    ensures value { (start : ℕ) → sum_after (swapped_word start result) (drop (length bytes.now / 4 * 4) bytes.now)
        ≡ sum_after (swapped_word start total) (drop (length bytes.now / 8 * 8) bytes.now) }
    ensures small { result < 2 ^ 34 }
{
    if bytes.len() % 8 < 4 {
        return total;
    }
    total + le32_at(bytes, bytes.len() / 8 * 8)
}

// Adds the two bytes behind the last four, where there are as many.
fn add_pair(total: u64, bytes: &[u8]) -> u64
    requires { total < 2 ^ 34 }
    ensures value { (start : ℕ) → sum_after (swapped_word start result) (drop (length bytes.now / 2 * 2) bytes.now)
        ≡ sum_after (swapped_word start total) (drop (length bytes.now / 4 * 4) bytes.now) }
    ensures small { result < 2 ^ 34 + 2 ^ 16 }
{
    if bytes.len() % 4 < 2 {
        return total;
    }
    total + le16_at(bytes, bytes.len() / 4 * 4)
}

// Adds the last byte, where it has no other beside it.
fn add_last(total: u64, bytes: &[u8]) -> u64
    requires { total < 2 ^ 34 + 2 ^ 16 }
    ensures value { (start : ℕ) → swapped_word start result
        ≡ sum_after (swapped_word start total) (drop (length bytes.now / 2 * 2) bytes.now) }
    ensures small { result < 2 ^ 35 }
{
    if bytes.len() % 2 == 0 {
        return total;
    }
    total + bytes[bytes.len() - 1] as u64
}

// The number of the four bytes at `at`, the lowest first.
fn le32_at(bytes: &[u8], at: usize) -> u64
    requires { at + 4 ≤ length bytes.now }
    ensures value { result ≡ le32_at bytes.now at }
    ensures small { result < 2 ^ 32 }
{
    le16_at(bytes, at) + 65536 * le16_at(bytes, at + 2)
}

fn le16_at(bytes: &[u8], at: usize) -> u64
    requires { at + 2 ≤ length bytes.now }
    ensures value { result ≡ le16_at bytes.now at }
    ensures small { result < 65536 }
{
    bytes[at] as u64 + 256 * bytes[at + 1] as u64
}

// A wide sum with its upper half added to the lower one: it comes to the same.
fn halved(total: u64) -> u64
    ensures word { (more : ℕ) → word_of (result + more) ≡ word_of (total + more) }
    ensures value { (start : ℕ) → swapped_word start result ≡ swapped_word start total }
    ensures small { result < 2 ^ 33 }
{
    total % 0x1_0000_0000 + total / 0x1_0000_0000
}

// A start and a wide sum of numbers with the lowest byte first, as a word.
fn swapped_word(start: u64, total: u64) -> u16
    requires start { start < 2 ^ 40 }
    requires total { total < 2 ^ 37 }
    ensures { result ≡ swapped_word start total }
{
    folded(start + 256 * total)
}

// A wide sum as a word, each carry added at the other end.
#[tactic(auto, using(crate::proofs::Sums::quarters))]
fn folded(total: u64) -> u16
    requires { total < 2 ^ 47 }
    ensures { result ≡ word_of total }
{
    both_halves((total % 0x10000 + total / 0x10000) as u32)
}

// The two halves of a number added up: beside them stand the same two in the other order, so that the carry of one sum
// is added to the other. No test and no jump.
#[tactic(auto, using(crate::proofs::Sums::rotated))]
fn both_halves(total: u32) -> u16
    ensures { result ≡ word_of total }
{
    let rotated = total % 0x10000 * 0x10000 + total / 0x10000;
    ((total as u64 + rotated as u64) / 0x10000 % 0x10000) as u16
}

/// The sum of 20 bytes, as a header without options has, with no loop and no call.
#[inline(always)]
pub fn sum_of_twenty(octets: &[u8]) -> u16
    requires { length octets.now ≡ 20 }
    ensures { result ≡ sum_after 0 octets.now }
{
    sum_of_twenty_after(0, octets)
}

/// The sum of 20 bytes, as [`sum_of_twenty`], and of what was summed before.
#[inline(always)]
pub fn sum_of_twenty_after(start: u16, octets: &[u8]) -> u16
    requires { length octets.now ≡ 20 }
    ensures { result ≡ sum_after start octets.now }
{
    let first = le32_at(octets, 0) + le32_at(octets, 4) + le32_at(octets, 8);
    swapped_word(
        start as u64,
        first + le32_at(octets, 12) + le32_at(octets, 16),
    )
}

/// The checksum of `bytes`, and of what was summed before: the complement of the sum.
pub fn checksum_after(start: u16, bytes: &[u8]) -> u16
    ensures { result ≡ complement (sum_after start bytes.now) }
{
    0xffff - sum_after(start, bytes)
}

/// The sum of the pseudo header of a packet whose payload has `length` bytes, of this protocol (RFC 8200, section 8.1;
/// for IPv4 RFC 9293, section 3.1).
// Inlined, so that no address is put into a value of either version for it.
#[inline(always)]
pub fn pseudo_sum(src: &IpAddress, dst: &IpAddress, protocol: u8, length: usize) -> u16
    ensures { result ≡ pseudo_sum src.now dst.now protocol length }
{
    let rest = length as u64 % 0x1_0000_0000 + protocol as u64;
    word_of(addresses_sum(src, dst) + rest)
}

// The sum of both addresses, not folded.
#[inline(always)]
fn addresses_sum(src: &IpAddress, dst: &IpAddress) -> u64
    ensures value { (total : ℕ) → sum_after (sum_after (word_of total) (octets_of src.now)) (octets_of dst.now)
        ≡ word_of (total + result) }
    ensures small { result < 2 ^ 35 }
{
    match (src, dst) {
        (IpAddress::Ipv4(src), IpAddress::Ipv4(dst)) => four_octets(&src.0) + four_octets(&dst.0),
        _ => long_addresses_sum(src, dst),
    }
}

// The sum of two addresses of IPv6. Not inlined, so that a sum over IPv4 keeps no registers for these words.
#[inline(never)]
fn long_addresses_sum(src: &IpAddress, dst: &IpAddress) -> u64
    ensures value { (total : ℕ) → sum_after (sum_after (word_of total) (octets_of src.now)) (octets_of dst.now)
        ≡ word_of (total + result) }
    ensures small { result < 2 ^ 35 }
{
    address_sum(src) + address_sum(dst)
}

/// The sum of words that were added up without a carry at the other end, up to 2^62.
pub fn word_of(total: u64) -> u16
    requires { total < 2 ^ 62 }
    ensures { result ≡ word_of total }
{
    folded(halved(total))
}

/// The sum of two IPv4 addresses and of words that were added up before.
#[tactic(auto, using(crate::proofs::Sums::addresses_after))]
pub fn sum_with_addresses(total: u64, src: &Ipv4Address, dst: &Ipv4Address) -> u16
    requires { total < 2 ^ 60 }
    ensures { result ≡ sum_after (word_of total) (src.now.0 ++ dst.now.0) }
{
    swapped_word(
        halved(total),
        swapped_octets(&src.0) + swapped_octets(&dst.0),
    )
}

/// The octets of an IPv4 address as a number, the lowest first: what they add to a sum of such numbers.
pub fn swapped_octets(octets: &[u8; 4]) -> u64
    ensures value { (start total : ℕ) → sum_after (swapped_word start total) octets.now
        ≡ swapped_word start (total + result) }
    ensures length { length octets.now ≡ 4 }
    ensures small { result < 2 ^ 32 }
{
    le32_at(octets, 0)
}

// The sum of an address as numbers of four bytes, not folded.
fn address_sum(address: &IpAddress) -> u64
    ensures value { (total : ℕ) → sum_after (word_of total) (octets_of address.now) ≡ word_of (total + result) }
    ensures small { result < 2 ^ 34 }
{
    match address {
        IpAddress::Ipv4(address) => four_octets(&address.0),
        IpAddress::Ipv6(address) => sixteen_octets(&address.0),
    }
}

fn four_octets(octets: &[u8; 4]) -> u64
    ensures value { (total : ℕ) → sum_after (word_of total) octets.now ≡ word_of (total + result) }
    ensures small { result < 2 ^ 34 }
{
    be32_at(octets, 0) as u64
}

fn sixteen_octets(octets: &[u8; 16]) -> u64
    ensures value { (total : ℕ) → sum_after (word_of total) octets.now ≡ word_of (total + result) }
    ensures small { result < 2 ^ 34 }
{
    let first = be32_at(octets, 0) as u64 + be32_at(octets, 4) as u64;
    first + be32_at(octets, 8) as u64 + be32_at(octets, 12) as u64
}

/// A sum over two pieces of which the first has an even length is that of both.
pub fn sums_continue()
    ensures { (start : ℕ) (front back : List ℕ) → IsEven (length front)
        → sum_after start (front ++ back) ≡ sum_after (sum_after start front) back }
{}

/// With the checksum in place of a word that was 0, the sum is the word of only ones.
pub fn checksums_verify()
    ensures { (start : ℕ) (front back : List ℕ) → start < 2 ^ 16 → IsOctets front → IsOctets back
        → IsEven (length front) → sum_after start (front
        ++ (be16 (complement (sum_after start (front ++ 0 ∷ 0 ∷ back))) ++ back)) ≡ all_ones }
{}

/// Where the checksum would be 0, the word of only ones in its place verifies as well (RFC 768).
pub fn ones_verify_for_zero()
    ensures { (start : ℕ) (front back : List ℕ) → start < 2 ^ 16 → IsOctets front → IsOctets back
        → IsEven (length front) → sum_after start (front ++ 0 ∷ 0 ∷ back) ≡ all_ones
        → sum_after start (front ++ (255 ∷ 255 ∷ back)) ≡ all_ones }
{}

/// A sum of bytes is a word.
pub fn sums_are_words()
    ensures { (start : ℕ) (octets : List ℕ) → start < 2 ^ 16 → IsOctets octets → sum_after start octets < 2 ^ 16 }
{}
