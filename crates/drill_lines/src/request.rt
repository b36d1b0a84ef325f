//! What a line of a drill asks for.

use crate::fields::Fields;
use crate::room::Room;
use ip_wire::{Checksum, IpEndpoint, IpListenEndpoint};
use smoltcp_socket::icmp;
use smoltcp_socket::tcp::{CongestionControl, Rules};

/// Lines of a call and a socket alone.
#[derive(Clone, Copy)]
pub enum Plain {
    Close,
    Abort,
    State,
    Queues,
    Settings,
    Endpoints,
    Measures,
}

/// Lines with `on` or `off`.
#[derive(Clone, Copy)]
pub enum Switch {
    Nagle,
    Pause,
}

/// Lines with a number.
#[derive(Clone, Copy)]
pub enum Counted {
    Connect,
    Fill,
    Recv,
    Peek,
    Dispatch,
    Fail,
    Gone,
    Poll,
    PathMtu,
}

/// Lines with a number, or `-` for none.
#[derive(Clone, Copy)]
pub enum Optional {
    Timeout,
    AckDelay,
    KeepAlive,
    HopLimit,
    Timestamps,
}

/// Lines with bytes.
#[derive(Clone, Copy)]
pub enum Bytes {
    Send,
    SendHex,
    Write,
}

/// What a socket is bound to, or listens on.
#[derive(Clone, Copy)]
pub enum Place {
    /// The own address and port.
    Here,
    /// Another place.
    At(IpListenEndpoint),
    /// Of an ICMP socket.
    Messages(icmp::Endpoint),
}

/// A call of a socket.
#[derive(Clone, Copy)]
pub enum Call<'t> {
    Plain(Plain),
    Switch(Switch, bool),
    Counted(Counted, u32),
    Optional(Optional, Option<u32>),
    Bytes(Bytes, &'t [u8]),
    Listen(Place),
    Bind(Place),
    Congestion(CongestionControl),
    Rules(Rules),
    Checksums(Checksum),
    Ends(IpEndpoint, IpEndpoint),
    Take(Fields<'t>),
}

/// Which of the packets that a socket emitted.
#[derive(Clone, Copy)]
pub enum Which {
    Last,
    /// Counted from 1.
    Number(usize),
}

/// What a socket is expected to say.
#[derive(Clone, Copy)]
pub enum Expected<'t> {
    /// This is its state.
    State(&'t [u8]),
    /// It wants to be served at this moment: `now`, `ingress`, or milliseconds.
    Poll(&'t [u8]),
}

/// What a line asks for. Sockets are told by their places among those of the example.
#[derive(Clone, Copy)]
pub enum Request<'t> {
    /// A new example of this name begins.
    Example(&'t [u8]),
    /// A socket is made.
    Make(Room),
    /// The moment of the calls to come.
    Clock(u32),
    /// The random word of the calls to come.
    Word(u32),
    /// A call of a socket.
    Call(usize, Call<'t>),
    /// What the first socket emitted goes to the second.
    Deliver(usize, Which, usize),
    /// The line of the latest event is expected to be this.
    Line(&'t [u8]),
    /// A socket is expected to say this.
    Expect(usize, Expected<'t>),
}
