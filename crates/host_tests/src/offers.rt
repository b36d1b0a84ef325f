//! What a connection that begins with a cookie has of window scale, SACK and timestamps (RFC 7323, RFC 2018).

use crate::hosts::{CLIENT, Host, OneSocket, SERVER, connect, emit, listen, receive, say};
use net_host::SynCookies;
use smoltcp_socket::storage::RingBuffer;
use smoltcp_socket::wire::ChecksumCapabilities;
use smoltcp_socket::{Socket, tcp};
use std::alloc::AllocError;

// A clock that stands, at 3 more than a multiple of 32.
fn clock() -> u32 {
    1_000_003
}

// What a side has agreed on.
#[derive(Debug, Clone, Copy, PartialEq, Eq)]
struct Side {
    remote_scale: Option<u8>,
    own_scale: u8,
    timestamps: bool,
    sack: bool,
    remote_window: usize,
}

fn agreed(host: &OneSocket<'_>) -> Option<Side> {
    match host.sockets.get(host.handle)? {
        Socket::Tcp(socket) => {
            let agreed = socket.negotiated()?;
            Some(Side {
                remote_scale: agreed.remote_win_scale,
                own_scale: agreed.local_win_scale,
                timestamps: agreed.timestamps,
                sack: agreed.sack,
                remote_window: agreed.remote_window,
            })
        }
        _ => None,
    }
}

// What both sides have, and how many cookies were taken and were wrong.
type Opened = (Option<Side>, Option<Side>, [u64; 2]);

fn opened(client: &OneSocket<'_>, server: &OneSocket<'_>) -> Opened {
    let counters = server.interface.counters();
    (
        agreed(client),
        agreed(server),
        [counters.cookies_taken, counters.cookies_wrong],
    )
}

// The octet of an acknowledgement that has the lowest bits of TSecr: the option comes first.
const ECHO: usize = 49;

// The client's SYN is answered by a cookie, and its acknowledgement comes with these bits of TSecr changed.
fn exchange(client: &mut OneSocket<'_>, server: &mut OneSocket<'_>, changed: u8) {
    let (mut packet, mut reply) = ([0u8; 1500], [0u8; 1500]);
    let count = emit(client, 0, &mut packet);
    let count = receive(server, 1, &packet[..count], &mut reply);
    receive(client, 1, &reply[..count], &mut packet);
    say(client, b"hi");
    let count = emit(client, 1, &mut packet);
    packet[ECHO] ^= changed;
    receive(server, 1, &packet[..count], &mut reply);
}

fn run(
    rt: &HostRuntime,
    client: tcp::Socket<'_>,
    server: tcp::Socket<'_>,
    changed: u8,
) -> Result<Opened, AllocError> {
    let mut client = Host::new(rt, CLIENT, client)?;
    let mut server = Host::new(rt, SERVER, server)?;
    client
        .interface
        .set_checksums(ChecksumCapabilities::ignored());
    server
        .interface
        .set_checksums(ChecksumCapabilities::ignored());
    server
        .interface
        .set_syn_cookies(Some(SynCookies::new([9; 32], 0)));
    listen(&mut server);
    connect(&mut client);
    exchange(&mut client, &mut server, changed);
    Ok(opened(&client, &server))
}

// Where the client, and the server, has a clock for timestamps.
fn came(
    rt: &HostRuntime,
    client_stamps: bool,
    server_stamps: bool,
    changed: u8,
) -> Result<Opened, AllocError> {
    let (mut rx_a, mut tx_a) = ([0u8; 262_144], [0u8; 64]);
    let (mut rx_b, mut tx_b) = ([0u8; 131_072], [0u8; 64]);
    let mut client = tcp::Socket::new(RingBuffer::new(&mut rx_a), RingBuffer::new(&mut tx_a));
    let mut server = tcp::Socket::new(RingBuffer::new(&mut rx_b), RingBuffer::new(&mut tx_b));
    if client_stamps {
        client.set_tsval_generator(Some(clock));
    }
    if server_stamps {
        server.set_tsval_generator(Some(clock));
    }
    run(rt, client, server, changed)
}

// By the buffers: 2^18 octets are told in 16 bits with a scale of 3, and 2^17 with one of 2.
#[test]
fn a_cookie_keeps_what_the_syn_offers(rt: HostRuntime) -> Result<(), AllocError> {
    let client = Side {
        remote_scale: Some(2),
        own_scale: 3,
        timestamps: true,
        sack: true,
        remote_window: 65535,
    };
    let server = Side {
        remote_scale: Some(3),
        own_scale: 2,
        timestamps: true,
        sack: true,
        remote_window: 262_144,
    };
    assert!(rt; came(&rt, true, true, 0)? == (Some(client), Some(server), [1, 0]));
    Ok(())
}

const PLAIN: Side = Side {
    remote_scale: None,
    own_scale: 0,
    timestamps: false,
    sack: false,
    remote_window: 65535,
};

#[test]
fn without_timestamps_on_both_sides_a_cookie_keeps_none(rt: HostRuntime) -> Result<(), AllocError> {
    assert!(rt; came(&rt, true, false, 0)? == (Some(PLAIN), Some(PLAIN), [1, 0]));
    assert!(rt; came(&rt, false, true, 0)? == (Some(PLAIN), Some(PLAIN), [1, 0]));
    assert!(rt; came(&rt, false, false, 0)? == (Some(PLAIN), Some(PLAIN), [1, 0]));
    Ok(())
}

// Each of the five bits: four of the scale, and that of SACK.
#[test]
fn who_changes_what_was_told_is_not_believed(rt: HostRuntime) -> Result<(), AllocError> {
    for bit in [1, 2, 4, 8, 16] {
        let (_, server, counts) = came(&rt, true, true, bit)?;
        assert!(rt; server == None && counts == [0, 1]);
    }
    Ok(())
}
