//! Segments that are answered by an RST, and how often.

use crate::hosts::{CLIENT, Host, OneSocket, SERVER, connect, emit, listen, receive};
use smoltcp_socket::storage::RingBuffer;
use smoltcp_socket::tcp;
use smoltcp_socket::wire::ChecksumCapabilities;
use std::alloc::AllocError;

fn ignore_checksums(host: &mut OneSocket<'_>) {
    host.interface
        .set_checksums(ChecksumCapabilities::ignored());
}

// The same packet comes to a host so many times in one second: how often it is answered.
fn answers(host: &mut OneSocket<'_>, packet: &[u8], times: u8) -> usize {
    let mut reply = [0u8; 1500];
    let mut count = 0usize;
    for _ in 0..times {
        if receive(host, 1, packet, &mut reply) > 0 {
            count = count.saturating_add(1);
        }
    }
    count
}

// The client's SYN opens a socket of the server; then its acknowledgement of another number comes 60 times: how often
// it is answered.
fn came(rt: &HostRuntime) -> Result<usize, AllocError> {
    let (mut rx_a, mut tx_a) = ([0u8; 64], [0u8; 64]);
    let (mut rx_b, mut tx_b) = ([0u8; 64], [0u8; 64]);
    let client = tcp::Socket::new(RingBuffer::new(&mut rx_a), RingBuffer::new(&mut tx_a));
    let server = tcp::Socket::new(RingBuffer::new(&mut rx_b), RingBuffer::new(&mut tx_b));
    let mut client = Host::new(rt, CLIENT, client)?;
    let mut server = Host::new(rt, SERVER, server)?;
    ignore_checksums(&mut client);
    ignore_checksums(&mut server);
    let (mut packet, mut reply) = ([0u8; 1500], [0u8; 1500]);
    listen(&mut server);
    connect(&mut client);
    let count = emit(&mut client, 0, &mut packet);
    receive(&mut server, 0, &packet[..count], &mut reply);
    let count = emit(&mut server, 0, &mut reply);
    receive(&mut client, 0, &reply[..count], &mut packet);
    let count = emit(&mut client, 0, &mut packet);
    packet[28] = packet[28].wrapping_add(1);
    Ok(answers(&mut server, &packet[..count], 60))
}

// An answer takes 20 to 36.4 milliseconds of its bucket, and 980 may be taken ahead: 27 to 50 answers at once.
fn is_bucket(count: usize) -> bool {
    27 <= count && count <= 50
}

#[test]
fn resets_of_a_handshake_are_limited(rt: HostRuntime) -> Result<(), AllocError> {
    let count = came(&rt)?;
    assert!(rt; is_bucket(count));
    Ok(())
}

// A SYN to a port that nobody serves, from this host of 10.0.0.0/24.
fn stray(last: u8) -> [u8; 40] {
    [
        69, 0, 0, 40, 0, 0, 0, 0, 64, 6, 0, 0, 10, 0, 0, last, 10, 0, 0, 2, 200, 1, 0, 9, 0, 0, 0,
        9, 0, 0, 0, 0, 80, 2, 16, 0, 0, 0, 0, 0,
    ]
}

// A host answers 200 strays of one source, by this key; then one of each of 20 others: how many of each.
fn answered(rt: &HostRuntime, key: u64) -> Result<(usize, usize), AllocError> {
    let (mut rx, mut tx) = ([0u8; 64], [0u8; 64]);
    let socket = tcp::Socket::new(RingBuffer::new(&mut rx), RingBuffer::new(&mut tx));
    let mut host = Host::new(rt, SERVER, socket)?;
    ignore_checksums(&mut host);
    host.interface.set_answer_key(key);
    let first = answers(&mut host, &stray(1), 200);
    let mut others = 0usize;
    for last in 10..30 {
        others = others.saturating_add(answers(&mut host, &stray(last), 1));
    }
    Ok((first, others))
}

#[test]
fn a_source_does_not_take_what_others_are_answered(rt: HostRuntime) -> Result<(), AllocError> {
    let (first, others) = answered(&rt, 0x1234_5678_9abc_def1)?;
    assert!(rt; is_bucket(first));
    assert!(rt; others >= 15);
    Ok(())
}

#[test]
fn how_many_answers_there_are_differs_by_the_key(rt: HostRuntime) -> Result<(), AllocError> {
    let mut same = 0usize;
    let (first, _) = answered(&rt, 1)?;
    for key in [2u64, 3, 5, 7, 11, 13] {
        let (other, _) = answered(&rt, key)?;
        if other == first {
            same = same.saturating_add(1);
        }
    }
    assert!(rt; same < 6);
    Ok(())
}
