//! The pcap format (draft-ietf-opsawg-pcap): a header of 24 bytes, and then packets, each behind a header of 16 bytes.
ghost use Rattle.std.specs.Prelude.{◌≡◌, ◌<◌, ◌≤◌, ◌+◌, ◌*◌, ◌^◌, ◌++◌, ℕ, length, drop, true, false, Ok};
ghost use Rattle.ip_wire.specs.Octets.{be32, be32_at};
ghost use Rattle.pcap.specs.Pcap.{le32_at, number_at, format_of, record_of, magic_of};
ghost use Rattle.pcap.specs.Pcap.{stream_header, record_header, micros_of};

use ip_wire::octets::{be16, be32_at, put_three};
use thiserror::Error;

/// The length of a stream's header, in bytes.
pub const HEADER: usize = 24;

/// The length of a record's header, in bytes.
pub const RECORD: usize = 16;

/// The longest packet that is read or written, in bytes: the longest of IPv4.
pub const LONGEST: usize = 65535;

// LINKTYPE_RAW: each packet begins with its IPv4 or IPv6 header.
const RAW: u32 = 101;

/// What is wrong with a stream.
#[derive(Debug, Clone, Copy, PartialEq, Eq, Error)]
pub enum PcapError {
    #[error("not a pcap stream")]
    Magic,
    #[error("not a stream of raw IP packets (LINKTYPE_RAW)")]
    LinkType,
    #[error("a packet of more than 65535 bytes")]
    TooLong,
    #[error("the stream ends inside a header or a packet")]
    Cut,
}

/// How the numbers of a stream are written.
#[derive(Debug, Clone, Copy, PartialEq, Eq)]
pub struct Format {
    /// Whether the first byte of a number is its lowest.
    pub little: bool,
    /// Whether the parts of a second are nanoseconds, and not microseconds.
    pub nanos: bool,
}

/// The header of a record.
#[derive(Debug, Clone, Copy, PartialEq, Eq)]
pub struct Record {
    /// When the packet came, in microseconds.
    pub micros: u64,
    /// How many bytes of it follow, at most 65535. Where none does, no packet came, and only time went by.
    pub len: usize,
    /// Whether those are all of its bytes.
    pub whole: bool,
}

impl Format {
    /// Reads the header of a stream.
    ///
    /// # Errors
    /// `Magic` where it begins with none of the four magic numbers, `LinkType` where its packets are not raw IP.
    #[tactic(auto, unfolding(crate::specs::Pcap::format_of))]
    pub fn of_header(header: &[u8]) -> Result<Format, PcapError>
        requires { length header.now ≡ 24 }
        ensures { result ≡ format_of header.now }
    {
        let format = of_magic(be32_at(header, 0))?;
        if format.number_at(header, 20) % 0x1000_0000 == RAW {
            Ok(format)
        } else {
            Err(PcapError::LinkType)
        }
    }

    /// Reads the header of a record.
    ///
    /// # Errors
    /// `TooLong` where more than 65535 bytes follow.
    #[tactic(auto, unfolding(crate::specs::Pcap::record_of))]
    pub fn record(&self, header: &[u8]) -> Result<Record, PcapError>
        requires { length header.now ≡ 16 }
        ensures { result ≡ record_of self.now header.now }
    {
        let len = self.number_at(header, 8) as usize;
        if len > LONGEST {
            return Err(PcapError::TooLong);
        }
        Ok(Record {
            micros: self.micros(self.number_at(header, 0), self.number_at(header, 4)),
            len,
            whole: self.number_at(header, 12) as usize <= len,
        })
    }

    fn micros(&self, secs: u32, part: u32) -> u64
        requires seconds { secs < 2 ^ 32 }
        requires parts { part < 2 ^ 32 }
        ensures { result ≡ micros_of self.now secs part }
    {
        secs as u64 * 1_000_000 + if self.nanos { part / 1000 } else { part } as u64
    }

    // The number of the four bytes at `at`.
    fn number_at(&self, bytes: &[u8], at: usize) -> u32
        requires { at + 4 ≤ length bytes.now }
        ensures value { result ≡ number_at self.now bytes.now at }
        ensures small { result < 2 ^ 32 }
    {
        if self.little {
            le32_at(bytes, at)
        } else {
            be32_at(bytes, at)
        }
    }
}

fn of_magic(magic: u32) -> Result<Format, PcapError>
    ensures { result ≡ magic_of magic }
{
    let (little, nanos) = match magic {
        0xa1b2_c3d4 => (false, false),
        0xa1b2_3c4d => (false, true),
        0xd4c3_b2a1 => (true, false),
        0x4d3c_b2a1 => (true, true),
        _ => return Err(PcapError::Magic),
    };
    Ok(Format { little, nanos })
}

fn le32_at(bytes: &[u8], at: usize) -> u32
    requires { at + 4 ≤ length bytes.now }
    ensures value { result ≡ le32_at bytes.now at }
    ensures small { result < 2 ^ 32 }
{
    bytes[at] as u32
        + 256 * bytes[at + 1] as u32
        + 65536 * bytes[at + 2] as u32
        + 16777216 * bytes[at + 3] as u32
}

/// The header of a stream of raw IP packets with microseconds, the highest byte of each number first.
#[tactic(auto, unfolding(crate::specs::Pcap::stream_header))]
pub fn stream_header() -> [u8; HEADER]
    ensures { result ≡ stream_header }
{
    [
        0xa1, 0xb2, 0xc3, 0xd4, 0, 2, 0, 4, 0, 0, 0, 0, 0, 0, 0, 0, 0, 0, 0xff, 0xff, 0, 0, 0, 101,
    ]
}

/// Writes the header of the record of a packet of `len` bytes into the first 16 bytes of `buffer`. The seconds count
/// modulo 2^32.
#[tactic(auto, unfolding(crate::specs::Pcap::record_header))]
pub fn put_record_header(buffer: &mut [u8], micros: u64, len: usize)
    requires { 16 ≤ length buffer.old }
    ensures value { buffer.new ≡ record_header micros len ++ drop 16 buffer.old }
    ensures length { length buffer.new ≡ length buffer.old }
{
    let (secs, part) = (be32(micros / 1_000_000), be32(micros % 1_000_000));
    put_three(buffer, &secs, &part, &twice(be32(len as u64)));
}

fn be32(number: u64) -> [u8; 4]
    ensures { result ≡ be32 number }
{
    let [a, b] = be16((number / 65536) as usize);
    let [c, d] = be16(number as usize);
    [a, b, c, d]
}

fn twice(number: [u8; 4]) -> [u8; 8]
    ensures { result ≡ number ++ number }
{
    let [a, b, c, d] = number;
    [a, b, c, d, a, b, c, d]
}

/// The written header of a stream is read back.
#[tactic(auto, unfolding(crate::specs::Pcap::format_of, crate::specs::Pcap::stream_header))]
pub fn header_reads_back()
    ensures { format_of stream_header ≡ Ok (record { little = false; nanos = false }) }
{}

/// The written header of a record is read back, where its second fits 32 bits.
#[tactic(auto, unfolding(crate::specs::Pcap::record_of, crate::specs::Pcap::record_header))]
pub fn records_read_back()
    ensures { (micros len : ℕ) → micros < 2 ^ 32 * 1000000 → len ≤ 65535
        → record_of (record { little = false; nanos = false }) (record_header micros len)
        ≡ Ok (record { micros = micros; len = len; whole = true }) }
{}
