//! How long a peer may leave a connection waiting: counted from what it acknowledged last.

use crate::hosts::{CLIENT, Host, OneSocket, SERVER, connect, emit, listen, receive, say, state};
use net_host::GuardSettings;
use smoltcp_socket::storage::RingBuffer;
use smoltcp_socket::tcp::{self, State};
use std::alloc::AllocError;

// A packet of one host, if it has one, and what answers it. Whether it had one.
fn pass(from: &mut OneSocket<'_>, to: &mut OneSocket<'_>, seconds: u8) -> bool {
    let (mut packet, mut reply) = ([0u8; 1500], [0u8; 1500]);
    let count = emit(from, seconds, &mut packet);
    let answer = receive(to, seconds, &packet[..count], &mut reply);
    receive(from, seconds, &reply[..answer], &mut packet);
    count > 0
}

fn exchange(client: &mut OneSocket<'_>, server: &mut OneSocket<'_>, seconds: u8) {
    for _ in 0..16 {
        let went = pass(client, server, seconds);
        if !pass(server, client, seconds) && !went {
            return;
        }
    }
}

// How many bytes are read, 24 at most.
fn read(host: &mut OneSocket<'_>) -> usize {
    let mut bytes = [0u8; 24];
    match host.sockets.tcp_mut(host.handle) {
        Some(socket) => socket.recv_slice(&mut bytes).unwrap_or(0),
        None => 0,
    }
}

fn close(host: &mut OneSocket<'_>) {
    if let Some(socket) = host.sockets.tcp_mut(host.handle) {
        socket.close();
    }
}

// The server says 250 bytes and closes, and the client, whose buffer is small, reads 24 of them each 20 seconds: how
// many it has read after four minutes.
fn read_slowly(client: &mut OneSocket<'_>, server: &mut OneSocket<'_>) -> usize {
    say(server, &[7; 250]);
    close(server);
    let mut count: usize = 0;
    for step in 0..12u8 {
        let seconds = step.saturating_mul(20);
        exchange(client, server, seconds);
        count = count.saturating_add(read(client));
        exchange(client, server, seconds);
    }
    count
}

// The server says something, of which nothing arrives; what the client says arrives, with its window, each 20 seconds.
// The state of the server after so many steps.
fn say_to_nobody(
    client: &mut OneSocket<'_>,
    server: &mut OneSocket<'_>,
    steps: u8,
) -> Option<State> {
    let (mut packet, mut reply) = ([0u8; 1500], [0u8; 1500]);
    say(server, b"hi");
    for step in 0..steps {
        let seconds = step.saturating_mul(20);
        say(client, b"x");
        let count = emit(client, seconds, &mut packet);
        receive(server, seconds, &packet[..count], &mut reply);
        emit(server, seconds, &mut packet);
    }
    state(server)
}

fn run(
    rt: &HostRuntime,
    client: tcp::Socket<'_>,
    server: tcp::Socket<'_>,
    steps: u8,
) -> Result<(usize, Option<State>), AllocError> {
    let mut client = Host::new(rt, CLIENT, client)?;
    let mut server = Host::new(rt, SERVER, server)?;
    let mut guards = GuardSettings::new();
    guards.timeout = None;
    server.interface.set_guards(guards);
    client.interface.set_guards(GuardSettings::off());
    listen(&mut server);
    connect(&mut client);
    exchange(&mut client, &mut server, 0);
    if steps == 0 {
        return Ok((read_slowly(&mut client, &mut server), None));
    }
    Ok((0, say_to_nobody(&mut client, &mut server, steps)))
}

fn came(rt: &HostRuntime, steps: u8) -> Result<(usize, Option<State>), AllocError> {
    let (mut rx_a, mut tx_a) = ([0u8; 64], [0u8; 64]);
    let (mut rx_b, mut tx_b) = ([0u8; 64], [0u8; 256]);
    let client = tcp::Socket::new(RingBuffer::new(&mut rx_a), RingBuffer::new(&mut tx_a));
    let server = tcp::Socket::new(RingBuffer::new(&mut rx_b), RingBuffer::new(&mut tx_b));
    run(rt, client, server, steps)
}

#[test]
fn a_slow_reader_gets_all_that_was_said_before_the_close(
    rt: HostRuntime,
) -> Result<(), AllocError> {
    assert!(rt; came(&rt, 0)?.0 == 250);
    Ok(())
}

#[test]
fn a_peer_that_acknowledges_nothing_is_kept_for_two_minutes(
    rt: HostRuntime,
) -> Result<(), AllocError> {
    assert!(rt; came(&rt, 6)?.1 == Some(State::Established));
    assert!(rt; came(&rt, 8)?.1 == Some(State::Closed));
    Ok(())
}
