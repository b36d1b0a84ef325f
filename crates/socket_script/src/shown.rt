//! What is printed of packets and bytes.
ghost use Rattle.std.specs.Prelude.{◌≡◌, ◌++◌, Some};
ghost use Rattle.control_wire.specs.Segment.{segment_of};
ghost use Rattle.sock_pair.specs.ReplayLines.{ack_text};
ghost use Rattle.socket_script.specs.Shown.{head_text, mss_text, options_text, range_text};
ghost use Rattle.socket_script.specs.Shown.{sack_text, scale_text, stamp_text};

use crate::packet::{Kind, Packet};
use control_wire::{TcpRepr, TcpSeqNumber, TcpTimestampRepr};
use ip_wire::{IpAddress, IpEndpoint, IpRepr};
use sock_pair::script::flags;
use sock_pair::script::values::is_text;
use std::fmt;

// So many bytes of a payload are shown.
const SHOWN: usize = 64;

/// Printable ASCII.
#[derive(Clone, Copy)]
pub struct Ascii<'t>(pub &'t [u8]);

impl fmt::Display for Ascii<'_> {
    fn fmt<W: fmt::Write>(&self, f: &mut fmt::Formatter<W>) -> fmt::Result {
        for byte in self.0 {
            f.write_char(char::from(*byte))?;
        }
        Ok(())
    }
}

/// Two hexadecimal digits for each byte.
#[derive(Clone, Copy)]
pub struct Hex<'t>(pub &'t [u8]);

impl fmt::Display for Hex<'_> {
    fn fmt<W: fmt::Write>(&self, f: &mut fmt::Formatter<W>) -> fmt::Result {
        for byte in self.0 {
            write!(f, "{byte:02x}")?;
        }
        Ok(())
    }
}

/// How many bytes were read, and which: as they are where all are printable ASCII.
#[derive(Clone, Copy)]
pub struct ReadBytes<'t>(pub &'t [u8]);

impl fmt::Display for ReadBytes<'_> {
    fn fmt<W: fmt::Write>(&self, f: &mut fmt::Formatter<W>) -> fmt::Result {
        let (bytes, len) = (self.0, self.0.len());
        if bytes.is_empty() {
            return f.write_str("read 0");
        }
        if is_text(bytes) {
            let text = Ascii(bytes);
            return write!(f, "read {len} {text}");
        }
        let digits = Hex(bytes);
        write!(f, "read {len} bytes {digits}")
    }
}

/// An address, as `10.0.0.1`, or in brackets eight groups of four hexadecimal digits.
#[derive(Clone, Copy)]
pub struct Address(pub IpAddress);

impl fmt::Display for Address {
    fn fmt<W: fmt::Write>(&self, f: &mut fmt::Formatter<W>) -> fmt::Result {
        match self.0 {
            IpAddress::Ipv4(addr) => {
                let [a, b, c, d] = addr.0;
                write!(f, "{a}.{b}.{c}.{d}")
            }
            IpAddress::Ipv6(addr) => {
                f.write_str("[")?;
                for (at, octet) in addr.0.iter().enumerate() {
                    if at > 0 && at % 2 == 0 {
                        f.write_str(":")?;
                    }
                    write!(f, "{octet:02x}")?;
                }
                f.write_str("]")
            }
        }
    }
}

// An acknowledgement number, or `-`.
#[derive(Clone, Copy)]
struct Ack(Option<TcpSeqNumber>);

impl fmt::Display for Ack {
    ghost output = { λ a. Some (ack_text a.0) };

    fn fmt<W: fmt::Write>(&self, f: &mut fmt::Formatter<W>) -> fmt::Result {
        match self.0 {
            None => f.write_str("-"),
            Some(number) => {
                let number = number.0;
                write!(f, "{number}")
            }
        }
    }
}

// `FLAGS seq N ack N win N len N`
#[derive(Clone, Copy)]
struct Segment<'s>(&'s TcpRepr<'static>, usize);

impl fmt::Display for Segment<'_> {
    ghost output = { λ s. Some (head_text s.0.now.control s.0.now.ack_number s.0.now.seq_number.0
        s.0.now.window_len s.1) };

    fn fmt<W: fmt::Write>(&self, f: &mut fmt::Formatter<W>) -> fmt::Result {
        let (repr, len) = (self.0, self.1);
        let flags = flags(repr.control, repr.ack_number.is_some());
        let (seq, ack, win) = (repr.seq_number.0, Ack(repr.ack_number), repr.window_len);
        write!(f, "{flags} seq {seq} ack {ack} win {win} len {len}")
    }
}

// ` mss N`, or nothing.
#[derive(Clone, Copy)]
struct Mss(Option<u16>);

impl fmt::Display for Mss {
    ghost output = { λ m. Some (mss_text m.0) };

    fn fmt<W: fmt::Write>(&self, f: &mut fmt::Formatter<W>) -> fmt::Result {
        match self.0 {
            None => Ok(()),
            Some(mss) => write!(f, " mss {mss}"),
        }
    }
}

// ` scale N`, or nothing.
#[derive(Clone, Copy)]
struct Scale(Option<u8>);

impl fmt::Display for Scale {
    ghost output = { λ s. Some (scale_text s.0) };

    fn fmt<W: fmt::Write>(&self, f: &mut fmt::Formatter<W>) -> fmt::Result {
        match self.0 {
            None => Ok(()),
            Some(scale) => write!(f, " scale {scale}"),
        }
    }
}

// ` range START END`, or nothing.
#[derive(Clone, Copy)]
struct Range(Option<(u32, u32)>);

impl fmt::Display for Range {
    ghost output = { λ r. Some (range_text r.0) };

    fn fmt<W: fmt::Write>(&self, f: &mut fmt::Formatter<W>) -> fmt::Result {
        match self.0 {
            None => Ok(()),
            Some((start, end)) => write!(f, " range {start} {end}"),
        }
    }
}

// ` range START END` for each.
#[derive(Clone, Copy)]
struct Ranges(Option<(u32, u32)>, Option<(u32, u32)>, Option<(u32, u32)>);

impl fmt::Display for Ranges {
    ghost output = { λ r. Some (range_text r.0 ++ (range_text r.1 ++ range_text r.2)) };

    fn fmt<W: fmt::Write>(&self, f: &mut fmt::Formatter<W>) -> fmt::Result {
        let (first, second, third) = (Range(self.0), Range(self.1), Range(self.2));
        write!(f, "{first}{second}{third}")
    }
}

// ` ts VALUE ECHO`, or nothing.
#[derive(Clone, Copy)]
struct Stamp(Option<TcpTimestampRepr>);

impl fmt::Display for Stamp {
    ghost output = { λ s. Some (stamp_text s.0) };

    fn fmt<W: fmt::Write>(&self, f: &mut fmt::Formatter<W>) -> fmt::Result {
        match self.0 {
            None => Ok(()),
            Some(stamp) => {
                let TcpTimestampRepr { tsval, tsecr } = stamp;
                write!(f, " ts {tsval} {tsecr}")
            }
        }
    }
}

// ` sack` where SACK is permitted.
fn sack(permitted: bool) -> &'static str
    ensures { result.now ≡ sack_text permitted }
{
    match permitted {
        true => " sack",
        false => "",
    }
}

// The options of a segment.
#[derive(Clone, Copy)]
struct Options<'s>(&'s TcpRepr<'static>);

impl fmt::Display for Options<'_> {
    ghost output = { λ o. Some (options_text (segment_of o.0.now)) };

    fn fmt<W: fmt::Write>(&self, f: &mut fmt::Formatter<W>) -> fmt::Result {
        let repr = self.0;
        let (mss, scale) = (Mss(repr.max_seg_size), Scale(repr.window_scale));
        let (sack, stamp) = (sack(repr.sack_permitted), Stamp(repr.timestamp));
        let [first, second, third] = repr.sack_ranges;
        let ranges = Ranges(first, second, third);
        write!(f, "{mss}{scale}{sack}{ranges}{stamp}")
    }
}

// ` data TEXT` where the payload is short and printable.
#[derive(Clone, Copy)]
struct Data<'t>(&'t [u8]);

impl fmt::Display for Data<'_> {
    fn fmt<W: fmt::Write>(&self, f: &mut fmt::Formatter<W>) -> fmt::Result {
        if self.0.is_empty() || self.0.len() > SHOWN || !is_text(self.0) {
            return Ok(());
        }
        let text = Ascii(self.0);
        write!(f, " data {text}")
    }
}

/// A packet of a socket, whose own endpoint and peer are these.
#[derive(Clone, Copy)]
pub struct Shown<'s> {
    pub packet: &'s Packet,
    pub here: IpEndpoint,
    pub peer: IpEndpoint,
}

impl fmt::Display for Shown<'_> {
    fn fmt<W: fmt::Write>(&self, f: &mut fmt::Formatter<W>) -> fmt::Result {
        let Packet { ip, kind, payload } = self.packet;
        let bytes = payload.as_slice();
        match kind {
            Kind::Tcp(repr) => {
                let (segment, options) = (Segment(repr, bytes.len()), Options(repr));
                let (route, data) = (self.route(ip, repr.src_port, repr.dst_port), Data(bytes));
                write!(f, "{segment}{options}{route}{data}")
            }
            Kind::Udp(repr) => {
                let (from, to) = (
                    IpEndpoint::new(ip.src_addr(), repr.src_port),
                    IpEndpoint::new(ip.dst_addr(), repr.dst_port),
                );
                let (hop, len, data) = (ip.hop_limit(), bytes.len(), Data(bytes));
                write!(f, "from {from} to {to} hop {hop} len {len}{data}")
            }
            Kind::Icmp => {
                let (route, digits) = (Hops(ip), Hex(bytes));
                write!(f, "{route} bytes {digits}")
            }
            Kind::Raw => {
                let (route, digits) = (Hops(ip), Hex(bytes));
                let protocol = u8::from(ip.next_header());
                write!(f, "{route} protocol {protocol} bytes {digits}")
            }
        }
    }
}

impl Shown<'_> {
    fn route(&self, ip: &IpRepr, src_port: u16, dst_port: u16) -> Route {
        let (from, to) = (
            IpEndpoint::new(ip.src_addr(), src_port),
            IpEndpoint::new(ip.dst_addr(), dst_port),
        );
        Route {
            ends: if from == self.here && to == self.peer {
                None
            } else {
                Some((from, to))
            },
            hop: ip.hop_limit(),
        }
    }
}

// ` from ENDPOINT to ENDPOINT` where these are not the usual ones, and ` hop N` where that is not 64.
#[derive(Clone, Copy)]
struct Route {
    ends: Option<(IpEndpoint, IpEndpoint)>,
    hop: u8,
}

impl fmt::Display for Route {
    fn fmt<W: fmt::Write>(&self, f: &mut fmt::Formatter<W>) -> fmt::Result {
        if let Some((from, to)) = self.ends {
            write!(f, " from {from} to {to}")?;
        }
        let hop = self.hop;
        if hop == 64 {
            return Ok(());
        }
        write!(f, " hop {hop}")
    }
}

// `from ADDRESS to ADDRESS hop N`
#[derive(Clone, Copy)]
struct Hops<'s>(&'s IpRepr);

impl fmt::Display for Hops<'_> {
    fn fmt<W: fmt::Write>(&self, f: &mut fmt::Formatter<W>) -> fmt::Result {
        let (from, to) = (Address(self.0.src_addr()), Address(self.0.dst_addr()));
        let hop = self.0.hop_limit();
        write!(f, "from {from} to {to} hop {hop}")
    }
}
