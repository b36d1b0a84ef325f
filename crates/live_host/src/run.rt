//! Reads the packets of one stream and writes those of the host to another.
ghost use Rattle.std.specs.Prelude.{◌<◌, ◌≤◌};

use crate::clock::{Clock, Sockets};
use crate::fault::Fault;
use crate::host::{Counts, Host, LiveHost};
use crate::outbox::Outbox;
use crate::slot::Slot;
use host_context::Words;
use net_host::{GuardSettings, Interface, IpCidr, Secret, SocketHandle, SocketSet, SynCookies};
use pcap::stream::{Format, HEADER, LONGEST, PcapError, RECORD, Record, stream_header};
use smoltcp_socket::storage::{PacketBuffer, RingBuffer};
use smoltcp_socket::tcp::{CongestionControl, Rules};
use smoltcp_socket::time::Duration;
use smoltcp_socket::wire::{IpAddress, IpListenEndpoint, Ipv4Address, Ipv6Address};
use smoltcp_socket::{Socket, tcp, udp};
use std::alloc::{AllocError, Global};
use std::cell::Cell;
use std::io::{ErrorKind, Read, Write};

/// At most so many TCP sockets.
pub const MOST_SOCKETS: usize = 10_000;

// The size of each buffer of a TCP socket, in bytes, and that of many sockets, and of a few by the RFCs' rules, whose
// windows a link with a long round trip can fill.
const BUFFER: usize = 65536;

pub const LARGE_BUFFER: usize = 1_048_576;

pub const LEAST_BUFFER: usize = 512;

const SMALL_BUFFER: usize = 8192;

// More sockets than these have small buffers, and no more than those have large ones.
const FEW: usize = 512;

const VERY_FEW: usize = 32;

// How many datagrams wait each way, and how many bytes they have together.
const PLACES: usize = 8;

const DATAGRAMS: usize = 8192;

// The lowest retransmission timeout by the RFCs' rules: more than twice what a Linux peer delays an acknowledgement, of
// which Linux itself waits twice as long, and FreeBSD 30 milliseconds.
const LEAST_TIMEOUT: Duration = Duration { micros: 100_000 };

// How long a handshake may last: time for the SYN|ACK to be sent again three times, and less than the 30 seconds of a
// new interface, since few sockets are soon taken by SYNs from addresses where nobody is.
const HANDSHAKE: Duration = Duration { micros: 10_000_000 };

// The UDP port of the echo service (RFC 862).
const ECHO: IpListenEndpoint = IpListenEndpoint {
    addr: None,
    port: 7,
};

/// The host's address, the key of its random words, the rules of its sockets, and how many they are.
#[derive(Clone, Copy)]
pub struct Setup {
    /// The IPv4 address; the IPv6 address ends in it.
    pub addr: Ipv4Address,
    /// The key.
    pub seed: u64,
    /// The rules of each TCP socket.
    pub rules: Rules,
    /// The congestion control of each.
    pub congestion: CongestionControl,
    /// How many TCP sockets.
    pub sockets: usize,
    /// The size of each of their buffers, in bytes, up to 1 MB; of none by the rules and the number of sockets.
    pub buffer: Option<usize>,
}

/// Runs a host until its input ends.
pub fn run<R: Read, W: Write>(
    alloc: Global,
    setup: Setup,
    input: &mut R,
    output: &mut W,
) -> Result<Counts, Fault> {
    let size = buffer_size(&setup);
    let Ok(mut bytes) = vec![in alloc; 0u8; setup.sockets.min(MOST_SOCKETS) * 2 * size] else {
        return Err(Fault::Memory);
    };
    let (mut rx_places, mut tx_places) = (
        [udp::PacketMetadata::EMPTY; PLACES],
        [udp::PacketMetadata::EMPTY; PLACES],
    );
    let (mut rx, mut tx) = ([0u8; DATAGRAMS], [0u8; DATAGRAMS]);
    let mut udp = udp::Socket::new(
        PacketBuffer::new(&mut rx_places, &mut rx),
        PacketBuffer::new(&mut tx_places, &mut tx),
    );
    let _ = udp.bind(ECHO);
    let millis = Cell::new(0);
    let clock = Clock::new(&millis);
    match host(alloc, setup, clock, bytes.as_mut_slice(), size, udp) {
        Ok(host) => {
            let mut host = host;
            match exchange(&mut host, input, output) {
                Ok(()) => Ok(host.counts()),
                Err(fault) => Err(fault),
            }
        }
        Err(_) => Err(Fault::Memory),
    }
}

fn buffer_size(setup: &Setup) -> usize
    ensures most { result ≤ 1048576 }
    ensures some { 0 < result }
{
    if let Some(size) = setup.buffer {
        return size.clamp(LEAST_BUFFER, LARGE_BUFFER);
    }
    if setup.sockets <= VERY_FEW && setup.rules == Rules::Rfc {
        return LARGE_BUFFER;
    }
    if setup.sockets <= FEW {
        BUFFER
    } else {
        SMALL_BUFFER
    }
}

// Makes the sockets and the host.
fn host<'a>(
    alloc: Global,
    setup: Setup,
    clock: Clock<'a>,
    bytes: &'a mut [u8],
    size: usize,
    udp: udp::Socket<'a>,
) -> Result<LiveHost<'a>, AllocError>
    requires { 0 < size }
{
    let addresses = addresses(alloc, setup.addr)?;
    let outbox = Outbox::new(alloc)?;
    let mut slots = Vec::new(alloc);
    let mut sockets = SocketSet::new(alloc, setup.sockets.saturating_add(1))?;
    match add_sockets(alloc, &mut sockets, &mut slots, setup, bytes, size, udp) {
        Ok(udp) => {
            let interface = interface(addresses, setup);
            let kept_from = kept_from(setup.sockets, setup.rules);
            Ok(Host::new(
                alloc, interface, clock, sockets, slots, udp, kept_from, outbox,
            ))
        }
        Err(error) => Err(error),
    }
}

fn interface(addresses: Vec<IpCidr>, setup: Setup) -> Interface<Secret> {
    let mut interface = Interface::new(addresses, secret(setup.seed));
    interface.set_guards(GuardSettings {
        handshake: Some(HANDSHAKE),
        ..GuardSettings::new()
    });
    interface.set_answer_key(answer_key(setup.seed));
    if setup.rules == Rules::Rfc {
        let kept_from = kept_from(setup.sockets, setup.rules);
        interface.set_syn_cookies(Some(SynCookies::new(cookie_key(setup.seed), kept_from)));
    }
    interface
}

// Makes the TCP sockets, each over two pieces of the bytes, and the UDP socket behind them, whose handle it answers.
fn add_sockets<'a>(
    alloc: Global,
    sockets: &mut Sockets<'a>,
    slots: &mut Vec<Slot>,
    setup: Setup,
    bytes: &'a mut [u8],
    size: usize,
    udp: udp::Socket<'a>,
) -> Result<SocketHandle, AllocError>
    requires { 0 < size }
{
    let mut buffers = bytes.chunks_exact_mut(size);
    for _ in 0..setup.sockets {
        let (Some(rx), Some(tx)) = (buffers.next(), buffers.next()) else {
            break;
        };
        let handle = add_tcp(sockets, rx, tx, setup)?;
        slots.push(Slot::new(alloc, handle))?;
    }
    match sockets.add(Socket::Udp(udp)) {
        Ok(handle) => Ok(handle),
        Err(_) => Err(AllocError),
    }
}

fn add_tcp<'a>(
    sockets: &mut Sockets<'a>,
    rx: &'a mut [u8],
    tx: &'a mut [u8],
    setup: Setup,
) -> Result<SocketHandle, AllocError> {
    // a socket wants to know that
    if rx.len() > LARGE_BUFFER || tx.len() > LARGE_BUFFER {
        return Err(AllocError);
    }
    let mut socket = tcp::Socket::closed(RingBuffer::new(rx), RingBuffer::new(tx), None);
    if setup.rules == Rules::Rfc {
        let _ = socket.set_rules(Rules::Rfc);
        socket.set_min_rto(LEAST_TIMEOUT);
        socket.set_congestion_control(setup.congestion);
    }
    match sockets.add(Socket::Tcp(socket)) {
        Ok(handle) => Ok(handle),
        Err(_) => Err(AllocError),
    }
}

// The address, of a network of 256, and the one over IPv6 that ends in it.
fn addresses(alloc: Global, addr: Ipv4Address) -> Result<Vec<IpCidr>, AllocError> {
    let Ipv4Address([a, b, c, d]) = addr;
    let over_ipv6 = [0xfd, 0, 0, 0, 0, 0, 0, 0, 0, 0, 0, 0, a, b, c, d];
    let mut addresses = Vec::new(alloc);
    addresses.push(IpCidr {
        address: IpAddress::Ipv4(addr),
        prefix_len: 24,
    })?;
    addresses.push(IpCidr {
        address: IpAddress::Ipv6(Ipv6Address(over_ipv6)),
        prefix_len: 112,
    })?;
    Ok(addresses)
}

// The seed's octets, what the key is for, and zeros.
fn key(seed: u64, purpose: u8) -> [u8; 32] {
    let [a, b, c, d, e, f, g, h] = seed.to_le_bytes();
    [
        a, b, c, d, e, f, g, h, purpose, 0, 0, 0, 0, 0, 0, 0, 0, 0, 0, 0, 0, 0, 0, 0, 0, 0, 0, 0,
        0, 0, 0, 0,
    ]
}

fn secret(seed: u64) -> Secret {
    Secret::new(key(seed, 0))
}

fn cookie_key(seed: u64) -> [u8; 32] {
    key(seed, 1)
}

fn answer_key(seed: u64) -> u64 {
    u64::from_le_bytes(random(key(seed, 2)))
}

// The first octets of the words under a key, as no peer may learn anything of the seed.
fn random(key: [u8; 32]) -> [u8; 8] {
    let mut words = Secret::new(key);
    let (a, b) = (words.next(), words.next());
    let ([a, b, c, d], [e, f, g, h]) = (a.to_le_bytes(), b.to_le_bytes());
    [a, b, c, d, e, f, g, h]
}

// By the RFCs' rules the last quarter of the TCP sockets is kept for peers that answer a SYN cookie.
fn kept_from(sockets: usize, rules: Rules) -> usize {
    if rules == Rules::Rfc {
        sockets - sockets / 4
    } else {
        sockets
    }
}

// Each record is answered before the next is read.
fn exchange<R: Read, W: Write>(
    host: &mut LiveHost<'_>,
    input: &mut R,
    output: &mut W,
) -> Result<(), Fault> {
    let mut header = [0u8; HEADER];
    if fill(input, &mut header)? < HEADER {
        return Err(Fault::Pcap(PcapError::Cut));
    }
    let format = match Format::of_header(&header) {
        Ok(format) => format,
        Err(error) => return Err(Fault::Pcap(error)),
    };
    put(output, &stream_header())?;
    let mut packet = [0u8; LONGEST];
    for _ in 0..u64::MAX {
        match next(input, format)? {
            Some(record) => take(host, record, &mut packet, input, output)?,
            None => break,
        }
    }
    Ok(())
}

// Reads the packet of a record, and writes what answers it.
fn take<R: Read, W: Write>(
    host: &mut LiveHost<'_>,
    record: Record,
    packet: &mut [u8; LONGEST],
    input: &mut R,
    output: &mut W,
) -> Result<(), Fault> {
    let len = record.len.min(LONGEST);
    if fill(input, &mut packet[..len])? < len {
        return Err(Fault::Pcap(PcapError::Cut));
    }
    if host.receive(record.micros, &packet[..len]).is_err() {
        return Err(Fault::Memory);
    }
    put(output, host.records())
}

// The next record's header; none where the stream ends before it.
fn next<R: Read>(input: &mut R, format: Format) -> Result<Option<Record>, Fault> {
    let mut header = [0u8; RECORD];
    match fill(input, &mut header)? {
        0 => Ok(None),
        RECORD => match format.record(&header) {
            Ok(record) => Ok(Some(record)),
            Err(error) => Err(Fault::Pcap(error)),
        },
        _ => Err(Fault::Pcap(PcapError::Cut)),
    }
}

// Reads until the buffer is full or the stream ends, and says how many bytes came.
fn fill<R: Read>(input: &mut R, buffer: &mut [u8]) -> Result<usize, Fault> {
    let mut filled = 0usize;
    for _ in 0..=LONGEST {
        if filled >= buffer.len() {
            break;
        }
        match input.read(&mut buffer[filled..]) {
            Ok(0) => break,
            Ok(count) => filled = filled.saturating_add(count).min(buffer.len()),
            Err(error) if error.kind() == ErrorKind::Interrupted => {}
            Err(_) => return Err(Fault::Read),
        }
    }
    Ok(filled)
}

fn put<W: Write>(output: &mut W, bytes: &[u8]) -> Result<(), Fault> {
    if bytes.is_empty() {
        return Ok(());
    }
    match output.write_all(bytes) {
        Ok(()) => Ok(()),
        Err(_) => Err(Fault::Write),
    }
}
