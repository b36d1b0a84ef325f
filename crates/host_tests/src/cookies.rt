//! A connection that begins with a cookie.

use crate::hosts::{
    CLIENT, Host, OneSocket, SERVER, connect, emit, listen, receive, say, state, waiting,
};
use net_host::SynCookies;
use smoltcp_socket::storage::RingBuffer;
use smoltcp_socket::tcp::{self, State};
use smoltcp_socket::time::Duration;
use smoltcp_socket::wire::ChecksumCapabilities;
use std::alloc::AllocError;

// What came of cookies, the state of the socket, and how many bytes wait there to be read.
fn told(host: &OneSocket<'_>) -> ([u64; 3], Option<State>, usize) {
    let counters = host.interface.counters();
    (
        [
            counters.cookies_sent,
            counters.cookies_taken,
            counters.cookies_wrong,
        ],
        state(host),
        waiting(host),
    )
}

// The client's SYN is answered, and no socket takes it; its acknowledgement, with two bytes and at that moment, opens
// one.
fn opens(client: &mut OneSocket<'_>, server: &mut OneSocket<'_>, heard: u8) -> bool {
    let (mut packet, mut reply) = ([0u8; 1500], [0u8; 1500]);
    let count = emit(client, 0, &mut packet);
    let count = receive(server, 1, &packet[..count], &mut reply);
    let waits = told(server) == ([1, 0, 0], Some(State::Listen), 0);
    receive(client, 1, &reply[..count], &mut packet);
    say(client, b"hi");
    let count = emit(client, 1, &mut packet);
    receive(server, heard, &packet[..count], &mut reply);
    waits
}

fn run(
    rt: &HostRuntime,
    client: tcp::Socket<'_>,
    server: tcp::Socket<'_>,
    kept_from: usize,
    heard: u8,
) -> Result<(bool, [u64; 3], Option<State>, usize), AllocError> {
    let mut client = Host::new(rt, CLIENT, client)?;
    let mut server = Host::new(rt, SERVER, server)?;
    let cookies = SynCookies::new([9; 32], kept_from);
    server.interface.set_syn_cookies(Some(cookies));
    listen(&mut server);
    connect(&mut client);
    let waits = opens(&mut client, &mut server, heard);
    let (counts, state, bytes) = told(&server);
    Ok((waits, counts, state, bytes))
}

fn came(
    rt: &HostRuntime,
    kept_from: usize,
    heard: u8,
) -> Result<(bool, [u64; 3], Option<State>, usize), AllocError> {
    let (mut rx_a, mut tx_a) = ([0u8; 64], [0u8; 64]);
    let (mut rx_b, mut tx_b) = ([0u8; 64], [0u8; 64]);
    let client = tcp::Socket::new(RingBuffer::new(&mut rx_a), RingBuffer::new(&mut tx_a));
    let server = tcp::Socket::new(RingBuffer::new(&mut rx_b), RingBuffer::new(&mut tx_b));
    run(rt, client, server, kept_from, heard)
}

#[test]
fn a_cookie_opens_a_connection_that_takes_bytes_at_once(rt: HostRuntime) -> Result<(), AllocError> {
    assert!(rt; came(&rt, 0, 64)? == (true, [1, 1, 0], Some(State::Established), 2));
    Ok(())
}

#[test]
fn an_old_cookie_opens_none(rt: HostRuntime) -> Result<(), AllocError> {
    assert!(rt; came(&rt, 0, 200)? == (true, [1, 0, 0], Some(State::Listen), 0));
    Ok(())
}

#[test]
fn an_open_place_takes_the_syn(rt: HostRuntime) -> Result<(), AllocError> {
    assert!(rt; came(&rt, 1, 2)? == (false, [0, 0, 0], Some(State::SynReceived), 0));
    Ok(())
}

fn with_cookies<'a>(
    rt: &HostRuntime,
    socket: tcp::Socket<'a>,
) -> Result<OneSocket<'a>, AllocError> {
    let mut host = Host::new(rt, SERVER, socket)?;
    host.interface
        .set_syn_cookies(Some(SynCookies::new([9; 32], 0)));
    listen(&mut host);
    Ok(host)
}

// The client opens a connection to the server by a cookie, and sends a byte, which is acknowledged. What it sends of
// its own 20 seconds later, which is a keep-alive, goes to a host that is the server begun anew, under its key; `heard`
// says whether that has answered the SYN, too.
fn keeps_alive(
    client: &mut OneSocket<'_>,
    server: &mut OneSocket<'_>,
    anew: &mut OneSocket<'_>,
    heard: bool,
) {
    let (mut packet, mut reply) = ([0u8; 1500], [0u8; 1500]);
    let count = emit(client, 0, &mut packet);
    if heard {
        receive(anew, 1, &packet[..count], &mut reply);
    }
    let count = receive(server, 1, &packet[..count], &mut reply);
    receive(client, 1, &reply[..count], &mut packet);
    say(client, b"G");
    let count = emit(client, 1, &mut packet);
    receive(server, 1, &packet[..count], &mut reply);
    let count = emit(server, 2, &mut reply);
    receive(client, 2, &reply[..count], &mut packet);
    let count = emit(client, 20, &mut packet);
    receive(anew, 20, &packet[..count], &mut reply);
}

fn came_anew(
    rt: &HostRuntime,
    heard: bool,
) -> Result<([u64; 3], Option<State>, usize), AllocError> {
    let (mut rx_a, mut tx_a) = ([0u8; 64], [0u8; 64]);
    let (mut rx_b, mut tx_b) = ([0u8; 64], [0u8; 64]);
    let (mut rx_c, mut tx_c) = ([0u8; 64], [0u8; 64]);
    let mut client = tcp::Socket::new(RingBuffer::new(&mut rx_a), RingBuffer::new(&mut tx_a));
    let server = tcp::Socket::new(RingBuffer::new(&mut rx_b), RingBuffer::new(&mut tx_b));
    let anew = tcp::Socket::new(RingBuffer::new(&mut rx_c), RingBuffer::new(&mut tx_c));
    client.set_keep_alive(Some(Duration::from_micros(10_000_000)));
    let mut client = Host::new(rt, CLIENT, client)?;
    let mut server = with_cookies(rt, server)?;
    let mut anew = with_cookies(rt, anew)?;
    connect(&mut client);
    keeps_alive(&mut client, &mut server, &mut anew, heard);
    Ok(told(&anew))
}

#[test]
fn the_octet_of_a_keep_alive_is_not_taken(rt: HostRuntime) -> Result<(), AllocError> {
    assert!(rt; came_anew(&rt, true)? == ([1, 1, 0], Some(State::Established), 0));
    Ok(())
}

#[test]
fn nobody_is_believed_where_no_answer_went_out(rt: HostRuntime) -> Result<(), AllocError> {
    assert!(rt; came_anew(&rt, false)? == ([0, 0, 0], Some(State::Listen), 0));
    Ok(())
}

fn ignore_checksums(host: &mut OneSocket<'_>) {
    host.interface
        .set_checksums(ChecksumCapabilities::ignored());
}

// Once an answer is awaited, the client's acknowledgement of another number comes, to that port of the server: the
// length of what answers it, and how many are counted as wrong.
fn stray(
    rt: &HostRuntime,
    client: tcp::Socket<'_>,
    server: tcp::Socket<'_>,
    closed: bool,
) -> Result<(usize, u64), AllocError> {
    let mut client = Host::new(rt, CLIENT, client)?;
    let mut server = with_cookies(rt, server)?;
    ignore_checksums(&mut client);
    ignore_checksums(&mut server);
    let (mut packet, mut reply) = ([0u8; 1500], [0u8; 1500]);
    connect(&mut client);
    let count = emit(&mut client, 0, &mut packet);
    let count = receive(&mut server, 1, &packet[..count], &mut reply);
    receive(&mut client, 1, &reply[..count], &mut packet);
    let count = emit(&mut client, 1, &mut packet);
    packet[28] = packet[28].wrapping_add(1);
    if closed {
        packet[23] = 8;
    }
    let count = receive(&mut server, 1, &packet[..count], &mut reply);
    Ok((count, server.interface.counters().cookies_wrong))
}

fn came_astray(rt: &HostRuntime, closed: bool) -> Result<(usize, u64), AllocError> {
    let (mut rx_a, mut tx_a) = ([0u8; 64], [0u8; 64]);
    let (mut rx_b, mut tx_b) = ([0u8; 64], [0u8; 64]);
    let client = tcp::Socket::new(RingBuffer::new(&mut rx_a), RingBuffer::new(&mut tx_a));
    let server = tcp::Socket::new(RingBuffer::new(&mut rx_b), RingBuffer::new(&mut tx_b));
    stray(rt, client, server, closed)
}

#[test]
fn no_number_is_tested_for_a_port_that_nobody_serves(rt: HostRuntime) -> Result<(), AllocError> {
    assert!(rt; came_astray(&rt, false)? == (40, 1));
    assert!(rt; came_astray(&rt, true)? == (40, 0));
    Ok(())
}
