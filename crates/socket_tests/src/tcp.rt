//! TCP sockets: closures over their queues, a clock that is a function, and replies that no socket makes. What calls
//! answer otherwise is shown by the drills of `socket_drill`.
use crate::host::Host;
use crate::tcp_calls::Tcp;
use smoltcp_socket::tcp::*;
use smoltcp_socket::wire::{
    IpAddress, IpEndpoint, IpListenEndpoint, IpProtocol, IpRepr, Ipv4Address, TcpControl, TcpRepr,
    TcpSeqNumber,
};
use std::test::Fail;

const A: IpEndpoint = IpEndpoint {
    addr: IpAddress::Ipv4(Ipv4Address([10, 0, 0, 1])),
    port: 49152,
};

const B: IpEndpoint = IpEndpoint {
    addr: IpAddress::Ipv4(Ipv4Address([10, 0, 0, 2])),
    port: 80,
};

fn at(endpoint: IpEndpoint) -> IpListenEndpoint {
    IpListenEndpoint {
        addr: Some(endpoint.addr),
        port: endpoint.port,
    }
}

// Takes a segment of the peer where the socket accepts it.
fn hear(socket: &mut Tcp<'_>, cx: &mut Host, repr: &TcpRepr<'_>) -> bool {
    let ip_repr = IpRepr::new(B.addr, A.addr, IpProtocol::Tcp, 20, 64);
    if repr.payload.len() > 65535 || !socket.0.accepts(cx, &ip_repr, repr) {
        return false;
    }
    socket.0.process(cx, &ip_repr, repr).is_none()
}

fn answer<'a>(control: TcpControl, seq: u32, payload: &'a [u8]) -> TcpRepr<'a> {
    TcpRepr {
        src_port: B.port,
        dst_port: A.port,
        control,
        seq_number: TcpSeqNumber(seq),
        ack_number: Some(TcpSeqNumber(1001)),
        window_len: 64,
        window_scale: None,
        max_seg_size: None,
        sack_permitted: false,
        sack_ranges: [None; 3],
        timestamp: None,
        payload,
    }
}

// The sequence number of what is emitted, and how many bytes it carries.
fn emitted(socket: &mut Tcp<'_>, cx: &mut Host) -> Option<(u32, usize)> {
    let mut seen = None;
    let _ = socket
        .0
        .dispatch(cx, |_: &mut Host, sent: (IpRepr, TcpRepr<'_>)| {
            seen = Some((sent.1.seq_number.0, sent.1.payload.len()));
            Ok::<(), ()>(())
        });
    seen
}

fn reads(socket: &mut Tcp<'_>, want: &[u8]) -> bool {
    let mut bytes = [0u8; 8];
    match socket.recv_slice(&mut bytes) {
        Ok(count) if count <= 8 => &bytes[..count] == want,
        _ => false,
    }
}

// Connects a new socket, by a SYN|ACK made by hand.
fn establish(socket: &mut Tcp<'_>, cx: &mut Host) {
    let _ = socket.connect(cx, B, at(A));
    let _ = emitted(socket, cx);
    let _ = hear(socket, cx, &answer(TcpControl::Syn, 5000, &[]));
}

// How many bytes a closure is lent that takes none, for sending and for receiving.
fn lent(socket: &mut Tcp<'_>) -> (Result<usize, SendError>, Result<usize, RecvError>) {
    (
        socket.0.send(|free| (0, free.len())),
        socket.0.recv(|queue| (0, queue.len())),
    )
}

// Queues "hi" by a closure that writes it to the free bytes.
fn writes_hi(socket: &mut Tcp<'_>) -> Result<(), SendError> {
    socket.0.send(|free| {
        let count = free.len().min(2);
        free[..count].copy_from_slice(&b"hi".as_slice()[..count]);
        (count, ())
    })
}

// Whether both peeks show what came, the first of them two bytes of it.
fn peeks(socket: &mut Tcp<'_>, two: &[u8], all: &[u8]) -> bool {
    let mut bytes = [0u8; 8];
    matches!(socket.0.peek(2), Ok(seen) if seen == two)
        && socket.0.peek_slice(&mut bytes) == Ok(all.len())
        && bytes.starts_with(all)
}

// Takes the first byte by a closure.
fn first_byte(socket: &mut Tcp<'_>) -> Result<Option<u8>, RecvError> {
    socket
        .0
        .recv(|queue| (queue.len().min(1), queue.first().copied()))
}

// A closure takes nothing, another writes two bytes, and they go out.
fn sends_by_a_closure(socket: &mut Tcp<'_>, cx: &mut Host) -> bool {
    let calls = (lent(socket), writes_hi(socket), socket.sending());
    let went_out = emitted(socket, cx);
    calls == ((Ok(4), Ok(0)), Ok(()), (true, true, 4, 2)) && went_out == Some((1001, 2))
}

// Takes three bytes from the peer, which acknowledges two.
fn hears_three(socket: &mut Tcp<'_>, cx: &mut Host) -> bool {
    let mut data = answer(TcpControl::Psh, 5001, b"xyz");
    data.ack_number = Some(TcpSeqNumber(1003));
    hear(socket, cx, &data)
}

// Peeks leave what came; a closure takes a byte, and a slice the others.
fn reads_by_a_closure(socket: &mut Tcp<'_>) -> bool {
    let came = socket.receiving();
    let seen = (
        peeks(socket, b"xy", b"xyz"),
        first_byte(socket),
        reads(socket, b"yz"),
    );
    let ends = (came, socket.receiving());
    seen == (true, Ok(Some(b'x')), true) && ends == ((true, true, 4, 3), (true, false, 4, 0))
}

// All of these in turn, of a socket that is connected, and that it keeps to each.
fn keeps_to_its_calls(socket: &mut Tcp<'_>, cx: &mut Host) -> [bool; 3] {
    [
        sends_by_a_closure(socket, cx),
        hears_three(socket, cx),
        reads_by_a_closure(socket),
    ]
}

#[test]
fn closures_write_and_read(rt: HostRuntime) -> Result<(), Fail> {
    let mut rx = [0u8; 4];
    let mut tx = [0u8; 4];
    let mut cx = Host::at(0, 1000);
    let mut socket = Tcp::new(&mut rx, &mut tx);
    establish(&mut socket, &mut cx);
    assert!(rt; keeps_to_its_calls(&mut socket, &mut cx) == [true; 3]);
    Ok(())
}

// The control bits, the number and the acknowledgement of an answer.
type Answer = (TcpControl, u32, Option<TcpSeqNumber>);

fn answer_of(repr: &TcpRepr<'_>) -> Answer {
    (repr.control, repr.seq_number.0, repr.ack_number)
}

// The RST that answers a segment, if one does, with the endpoints that it goes between.
fn rst_of(ip_repr: &IpRepr, repr: &TcpRepr<'_>) -> Option<(IpEndpoint, IpEndpoint, Answer)> {
    if repr.payload.len() > 65535 || repr.control == TcpControl::Rst {
        return None;
    }
    let (ip, rst) = Socket::rst_reply(ip_repr, repr);
    let (addr, port) = (ip.src_addr(), rst.src_port);
    let from = IpEndpoint { addr, port };
    let (addr, port) = (ip.dst_addr(), rst.dst_port);
    Some((from, IpEndpoint { addr, port }, answer_of(&rst)))
}

// A reply without content.
fn reply_to(ip_repr: &IpRepr, repr: &TcpRepr<'_>) -> (Answer, usize, u8) {
    let (ip, reply) = Socket::reply(ip_repr, repr);
    (answer_of(&reply), ip.payload_len(), ip.hop_limit())
}

#[test]
fn replies_turn_the_segment_round(rt: HostRuntime) -> Result<(), Fail> {
    let ip_repr = IpRepr::new(B.addr, A.addr, IpProtocol::Tcp, 24, 255);
    let mut syn = answer(TcpControl::Syn, 5000, &[]);
    syn.ack_number = None;
    let data = answer(TcpControl::None, 5001, b"x");
    let of_syn = (TcpControl::Rst, 0, Some(TcpSeqNumber(5001)));
    let of_data = (TcpControl::Rst, 1001, None);
    let answers = [
        rst_of(&ip_repr, &syn) == Some((A, B, of_syn)),
        rst_of(&ip_repr, &data) == Some((A, B, of_data)),
        reply_to(&ip_repr, &syn) == ((TcpControl::None, 0, None), 20, 64),
    ];
    assert!(rt; answers == [true; 3]);
    Ok(())
}

pub(crate) fn clock() -> u32 {
    7
}

fn timed(socket: &mut Tcp<'_>, is_there: bool) -> bool {
    socket.set_clock(is_there);
    socket.timestamp_enabled()
}

// Timestamps are enabled while there is a clock.
fn shows_its_clock(socket: &mut Tcp<'_>) -> bool {
    let before = socket.timestamp_enabled();
    [before, timed(socket, true), timed(socket, false)] == [false, true, false]
}

#[test]
fn timestamps_want_a_clock(rt: HostRuntime) -> Result<(), Fail> {
    assert!(rt; shows_its_clock(&mut Tcp::new(&mut [], &mut [])));
    Ok(())
}
