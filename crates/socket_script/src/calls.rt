//! The calls of a socket, and what is written of their answers.
ghost use Rattle.sock_core.specs.Bounds.{IsMoment};
ghost use Rattle.sock_tcp.specs.View.{IsShort};

use crate::clock::Clock;
use crate::getters::{endpoints, measures, poll, queues, settings, state};
use crate::line::{Line, Part};
use crate::outbox::Host;
use crate::seat::{Now, Seat};
use crate::shown::{Ascii, ReadBytes};
use crate::takes::take;
use drill_lines::places::bytes_of_hex;
use drill_lines::request::{Bytes, Call, Counted, Optional, Place, Plain, Switch};
use ip_wire::{IpEndpoint, IpListenEndpoint};
use smoltcp_socket::time::{Duration, Instant};
use smoltcp_socket::udp::UdpMetadata;
use smoltcp_socket::{Socket, icmp, raw, tcp, udp};
use std::alloc::Global;
use std::fmt;
use std::fmt::Write;

// What is written where the call is none of such a socket.
const NO_SUCH_CALL: &str = "no-such-call";

/// Makes a call and writes its answer.
pub fn perform(seat: &mut Seat<'_>, alloc: Global, now: Now, call: &Call<'_>, line: &mut Line) {
    match call {
        Call::Plain(plain) => perform_plain(seat, *plain, line),
        Call::Switch(which, on) => {
            let known = set_switch(&mut seat.socket, *which, *on);
            done(known, line)
        }
        Call::Counted(which, count) => perform_counted(seat, alloc, now, *which, *count, line),
        Call::Optional(which, number) => {
            let known = set_optional(&mut seat.socket, *which, *number);
            done(known, line)
        }
        Call::Bytes(which, word) => give(seat, alloc, *which, word, line),
        Call::Take(fields) => take(seat, alloc, now, fields, line),
        _ => perform_other(seat, call, line),
    }
}

// `done`, where the socket has such a call.
fn done(known: bool, line: &mut Line) {
    line.say(if known { "done" } else { NO_SUCH_CALL })
}

fn perform_other(seat: &mut Seat<'_>, call: &Call<'_>, line: &mut Line) {
    match call {
        Call::Listen(place) => listen(seat, *place, line),
        Call::Bind(place) => bind(seat, *place, line),
        Call::Congestion(control) => {
            let known = set_congestion(&mut seat.socket, *control);
            done(known, line)
        }
        Call::Rules(rules) => {
            let known = set_rules(&mut seat.socket, *rules);
            done(known, line)
        }
        Call::Checksums(checksum) => {
            seat.ipv4 = *checksum;
            line.say("done")
        }
        Call::Ends(here, peer) => {
            seat.here = *here;
            seat.peer = *peer;
            line.say("done")
        }
        _ => line.say(NO_SUCH_CALL),
    }
}

fn perform_plain(seat: &mut Seat<'_>, plain: Plain, line: &mut Line) {
    match plain {
        Plain::Close => {
            let known = close(&mut seat.socket);
            done(known, line)
        }
        Plain::Abort => {
            let known = abort(&mut seat.socket);
            done(known, line)
        }
        Plain::State => state(&seat.socket, line),
        Plain::Queues => queues(&seat.socket, line),
        Plain::Settings => settings(&seat.socket, line),
        Plain::Endpoints => endpoints(&seat.socket, line),
        Plain::Measures => measures(&seat.socket, line),
    }
}

fn close(socket: &mut Socket<'_, Clock>) -> bool {
    match socket {
        Socket::Tcp(socket) => socket.close(),
        Socket::Udp(socket) => socket.close(),
        _ => return false,
    }
    true
}

fn abort(socket: &mut Socket<'_, Clock>) -> bool {
    match socket {
        Socket::Tcp(socket) => socket.abort(),
        _ => return false,
    }
    true
}

fn set_switch(socket: &mut Socket<'_, Clock>, which: Switch, on: bool) -> bool {
    let Socket::Tcp(socket) = socket else {
        return false;
    };
    match which {
        Switch::Nagle => socket.set_nagle_enabled(on),
        Switch::Pause => socket.pause_synack(on),
    }
    true
}

fn set_congestion(socket: &mut Socket<'_, Clock>, control: tcp::CongestionControl) -> bool {
    let Socket::Tcp(socket) = socket else {
        return false;
    };
    socket.set_congestion_control(control);
    true
}

// An open socket keeps its rules, as `settings` shows.
fn set_rules(socket: &mut Socket<'_, Clock>, rules: tcp::Rules) -> bool {
    let Socket::Tcp(socket) = socket else {
        return false;
    };
    let _ = socket.set_rules(rules);
    true
}

fn set_optional(socket: &mut Socket<'_, Clock>, which: Optional, number: Option<u32>) -> bool {
    match which {
        Optional::HopLimit => set_hop_limit(socket, hops(number)),
        _ => set_tcp(socket, which, number),
    }
}

// A hop limit: none for none, for 0, and for more than 255.
fn hops(number: Option<u32>) -> Option<u8> {
    match number {
        Some(number) if 0 < number && number <= 255 => Some(number as u8),
        _ => None,
    }
}

fn set_hop_limit(socket: &mut Socket<'_, Clock>, limit: Option<u8>) -> bool {
    if limit == Some(0) {
        return false;
    }
    match socket {
        Socket::Tcp(socket) => socket.set_hop_limit(limit),
        Socket::Udp(socket) => socket.set_hop_limit(limit),
        Socket::Icmp(socket) => socket.set_hop_limit(limit),
        Socket::Raw(_) => return false,
    }
    true
}

fn set_tcp(socket: &mut Socket<'_, Clock>, which: Optional, number: Option<u32>) -> bool {
    let Socket::Tcp(socket) = socket else {
        return false;
    };
    match which {
        Optional::Timestamps => socket.set_tsval_source(number.map(Clock)),
        _ => set_duration(socket, which, number),
    }
    true
}

fn set_duration(socket: &mut tcp::Socket<'_, Clock>, which: Optional, millis: Option<u32>) {
    let duration = duration_of(millis);
    match which {
        Optional::Timeout => socket.set_timeout(duration),
        Optional::AckDelay => socket.set_ack_delay(duration),
        _ => socket.set_keep_alive(duration),
    }
}

fn duration_of(millis: Option<u32>) -> Option<Duration>
    ensures { IsShort result }
{
    match millis {
        None => None,
        Some(millis) => Some(Duration {
            micros: millis as u64 * 1000,
        }),
    }
}

// `opened`, or the refusal behind these words.
fn opened<E: fmt::Display>(answer: Result<(), E>, refused: &str, line: &mut Line)
where
    E: Drop,
{
    match answer {
        Ok(()) => line.say("opened"),
        Err(error) => {
            line.put("% ", &[Part::Text(refused)]);
            line.show(error);
        }
    }
}

fn listen(seat: &mut Seat<'_>, place: Place, line: &mut Line) {
    let here = IpListenEndpoint::from(seat.here);
    match (&mut seat.socket, listen_place(place, here)) {
        (Socket::Tcp(socket), Some(at)) => opened(socket.listen(at), "listen-refused", line),
        _ => line.say(NO_SUCH_CALL),
    }
}

fn listen_place(place: Place, here: IpListenEndpoint) -> Option<IpListenEndpoint> {
    match place {
        Place::Here => Some(here),
        Place::At(at) => Some(at),
        Place::Messages(_) => None,
    }
}

fn bind(seat: &mut Seat<'_>, place: Place, line: &mut Line) {
    let here = IpListenEndpoint::from(seat.here);
    match (&mut seat.socket, place) {
        (Socket::Icmp(socket), Place::Messages(endpoint)) => {
            opened(socket.bind(endpoint), "bind-refused", line)
        }
        (Socket::Udp(socket), Place::Here) => opened(socket.bind(here), "bind-refused", line),
        (Socket::Udp(socket), Place::At(at)) => opened(socket.bind(at), "bind-refused", line),
        _ => line.say(NO_SUCH_CALL),
    }
}

fn perform_counted(
    seat: &mut Seat<'_>,
    alloc: Global,
    now: Now,
    which: Counted,
    count: u32,
    line: &mut Line,
) {
    match which {
        Counted::Connect => connect(seat, alloc, now, line),
        Counted::Fill => fill(seat, alloc, count as usize, line),
        Counted::Recv => read(seat, alloc, count as usize, true, line),
        Counted::Peek => read(seat, alloc, count as usize, false, line),
        Counted::Poll => tell_poll(seat, alloc, now, line),
        Counted::PathMtu => set_path_mtu(seat, now, count as usize, line),
        Counted::Dispatch | Counted::Fail | Counted::Gone => {
            let mut host = host_for(seat, alloc, now, which);
            seat.dispatch(&mut host, line)
        }
    }
}

fn fill(seat: &mut Seat<'_>, alloc: Global, count: usize, line: &mut Line) {
    match vec![in alloc; b'x'; count] {
        Ok(bytes) => send(seat, bytes.as_slice(), line),
        Err(_) => line.cut(),
    }
}

fn instant(millis: u32) -> Instant
    ensures { IsMoment result.micros }
{
    Instant {
        micros: millis as i64 * 1000,
    }
}

// At the clock's moment.
fn set_path_mtu(seat: &mut Seat<'_>, now: Now, mtu: usize, line: &mut Line) {
    match &mut seat.socket {
        Socket::Tcp(socket) => {
            socket.set_path_mtu(instant(now.millis), mtu);
            line.say("done")
        }
        _ => line.say(NO_SUCH_CALL),
    }
}

fn tell_poll(seat: &Seat<'_>, alloc: Global, now: Now, line: &mut Line) {
    let host = seat.host(alloc, now, false);
    poll(&seat.socket, &host, line)
}

// The context of a dispatch.
fn host_for(seat: &Seat<'_>, alloc: Global, now: Now, which: Counted) -> Host {
    match which {
        Counted::Gone => seat.host_elsewhere(alloc, now),
        Counted::Fail => seat.host(alloc, now, true),
        _ => seat.host(alloc, now, false),
    }
}

fn connect(seat: &mut Seat<'_>, alloc: Global, now: Now, line: &mut Line) {
    let mut host = seat.host(alloc, now, false);
    let (peer, here) = (seat.peer, IpListenEndpoint::from(seat.here));
    match &mut seat.socket {
        Socket::Tcp(socket) => {
            let answer = socket.connect(&mut host, peer, here);
            opened(answer, "connect-refused", line)
        }
        _ => line.say(NO_SUCH_CALL),
    }
}

// `accepted N`, or the refusal.
fn accepted<E: fmt::Display + Drop>(answer: Result<usize, E>, line: &mut Line) {
    match answer {
        Ok(count) => line.put("accepted %", &[Part::Count(count)]),
        Err(error) => {
            line.say("send-refused ");
            line.show(error);
        }
    }
}

// Sends the bytes of a word.
fn give(seat: &mut Seat<'_>, alloc: Global, which: Bytes, word: &[u8], line: &mut Line) {
    match which {
        Bytes::Send => send(seat, word, line),
        Bytes::SendHex => match bytes_of_hex(alloc, word) {
            Ok(bytes) => send(seat, bytes.as_slice(), line),
            Err(_) => line.cut(),
        },
        Bytes::Write => write_text(seat, alloc, word, line),
    }
}

fn send(seat: &mut Seat<'_>, bytes: &[u8], line: &mut Line) {
    let (peer, len) = (seat.peer, bytes.len());
    match &mut seat.socket {
        Socket::Tcp(socket) => accepted(socket.send_slice(bytes), line),
        Socket::Udp(socket) => accepted(send_udp(socket, bytes, peer), line),
        Socket::Icmp(socket) => accepted(send_icmp(socket, bytes, peer), line),
        Socket::Raw(socket) => accepted(send_raw(socket, bytes), line),
    }
}

fn send_udp(
    socket: &mut udp::Socket<'_>,
    bytes: &[u8],
    peer: IpEndpoint,
) -> Result<usize, udp::SendError> {
    socket.send_slice(bytes, UdpMetadata::from_endpoint(peer))?;
    Ok(bytes.len())
}

fn send_icmp(
    socket: &mut icmp::Socket<'_>,
    bytes: &[u8],
    peer: IpEndpoint,
) -> Result<usize, icmp::SendError> {
    socket.send_slice(bytes, peer.addr)?;
    Ok(bytes.len())
}

fn send_raw(socket: &mut raw::Socket<'_>, bytes: &[u8]) -> Result<usize, raw::SendError> {
    socket.send_slice(bytes)?;
    Ok(bytes.len())
}

// Writes a text by `write_str`, which keeps what fits.
fn write_text(seat: &mut Seat<'_>, alloc: Global, word: &[u8], line: &mut Line) {
    let mut text = String::new(alloc);
    if write!(text, "{}", Ascii(word)).is_err() {
        line.cut();
        return;
    }
    match &mut seat.socket {
        Socket::Tcp(socket) => line.say(match socket.write_str(text.as_str()) {
            Ok(()) => "done",
            Err(_) => "write-refused",
        }),
        _ => line.say(NO_SUCH_CALL),
    }
}

// The bytes that were read, as many as there are, or the refusal.
fn read_bytes<E: fmt::Display + Drop>(answer: Result<usize, E>, bytes: &[u8], line: &mut Line) {
    match answer {
        Ok(count) => line.show(ReadBytes(&bytes[..count.min(bytes.len())])),
        Err(error) => {
            line.say("recv-refused ");
            line.show(error);
        }
    }
}

// What comes first, which is taken, or only looked at.
fn read(seat: &mut Seat<'_>, alloc: Global, size: usize, takes: bool, line: &mut Line) {
    match vec![in alloc; 0u8; size] {
        Ok(bytes) => {
            let mut bytes = bytes;
            read_into(&mut seat.socket, bytes.as_mut_slice(), takes, line);
        }
        Err(_) => line.cut(),
    }
}

fn read_into(socket: &mut Socket<'_, Clock>, out: &mut [u8], takes: bool, line: &mut Line) {
    match socket {
        Socket::Tcp(socket) => read_bytes(read_tcp(socket, out, takes), out, line),
        Socket::Udp(socket) => came_udp(read_udp(socket, out, takes), out, line),
        Socket::Icmp(socket) if takes => came_icmp(socket.recv_slice(out), out, line),
        Socket::Icmp(_) => line.say(NO_SUCH_CALL),
        Socket::Raw(socket) => read_bytes(read_raw(socket, out, takes), out, line),
    }
}

fn read_tcp(
    socket: &mut tcp::Socket<'_, Clock>,
    out: &mut [u8],
    takes: bool,
) -> Result<usize, tcp::RecvError> {
    match takes {
        true => socket.recv_slice(out),
        false => socket.peek_slice(out),
    }
}

fn read_udp(
    socket: &mut udp::Socket<'_>,
    out: &mut [u8],
    takes: bool,
) -> Result<(usize, UdpMetadata), udp::RecvError> {
    match takes {
        true => socket.recv_slice(out),
        false => peek_udp(socket, out),
    }
}

fn read_raw(
    socket: &mut raw::Socket<'_>,
    out: &mut [u8],
    takes: bool,
) -> Result<usize, raw::RecvError> {
    match takes {
        true => socket.recv_slice(out),
        false => socket.peek_slice(out),
    }
}

// The bytes of a datagram, where it came from, and to which address.
fn came_udp(answer: Result<(usize, UdpMetadata), udp::RecvError>, bytes: &[u8], line: &mut Line) {
    match answer {
        Ok((count, meta)) => {
            read_bytes::<udp::RecvError>(Ok(count), bytes, line);
            line.say(" from ");
            line.show(meta);
            if let Some(addr) = meta.local_address {
                line.put(" to %", &[Part::Address(addr)]);
            }
        }
        Err(error) => read_bytes(Err(error), bytes, line),
    }
}

fn came_icmp(
    answer: Result<(usize, ip_wire::IpAddress), icmp::RecvError>,
    bytes: &[u8],
    line: &mut Line,
) {
    match answer {
        Ok((count, addr)) => {
            read_bytes::<icmp::RecvError>(Ok(count), bytes, line);
            line.put(" from %", &[Part::Address(addr)]);
        }
        Err(error) => read_bytes(Err(error), bytes, line),
    }
}

fn peek_udp(
    socket: &mut udp::Socket<'_>,
    out: &mut [u8],
) -> Result<(usize, UdpMetadata), udp::RecvError> {
    let (count, meta) = socket.peek_slice(out)?;
    Ok((count, *meta))
}
