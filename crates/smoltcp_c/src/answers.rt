//! The numbers that the calls answer.
ghost use Rattle.std.specs.Prelude.{◌≡◌, ◌^◌, min, pos};
ghost use Rattle.smoltcp_c.specs.Answers.{listen_answer, connect_answer, bind_answer, datagram_answer, refused_copy};
ghost use Rattle.smoltcp_c.specs.Answers.{send_answer, recv_answer, sent_answer, flag_answer, state_answer, UpTo30};

use crate::memory::LARGEST;
use crate::wire::{Full, LONGEST_PACKET};
use sock_dgram::error::{BindError, RecvError as CopyError, SendError as DatagramError};
use sock_tcp::{ConnectError, ListenError, RecvError, SendError, State};

/// The call was done.
pub const OK: i64 = 0;

/// The socket is in a state in which the call is refused.
pub const ERROR_STATE: i64 = -1;

/// A port or an address is missing, or of another version.
pub const ERROR_ADDRESS: i64 = -2;

/// The peer has closed, and all that it sent was read.
pub const ERROR_FINISHED: i64 = -3;

/// The context's moment or its MTU is out of range.
pub const ERROR_CONTEXT: i64 = -5;

/// A buffer or a queue has too little room for a packet.
pub const ERROR_ROOM: i64 = -6;

/// A number is out of its range.
pub const ERROR_RANGE: i64 = -9;

/// No packet waits.
pub const ERROR_EMPTY: i64 = -11;

/// The heap has too little memory.
pub const ERROR_MEMORY: i64 = -12;

/// The host has no socket of this name and kind.
pub const ERROR_SOCKET: i64 = -13;

/// Another socket has the connection or the port, or no port is free.
pub const ERROR_IN_USE: i64 = -14;

/// The packet is not for this socket.
pub const NOT_ACCEPTED: i64 = -8;

// The number for what a call that opens a socket answered.
macro_rules! opened {
    ($answer:ident, $error:ident) => {
        match $answer {
            Ok(()) => OK,
            Err($error::InvalidState) => ERROR_STATE,
            Err($error::Unaddressable) => ERROR_ADDRESS,
        }
    };
}

/// The number for what `listen` answered: 0, `ERROR_STATE` or `ERROR_ADDRESS`.
pub fn listen_answer(answer: Result<(), ListenError>) -> i64
    ensures { result ≡ listen_answer answer }
{
    opened!(answer, ListenError)
}

/// The number for what `connect` answered: 0, `ERROR_STATE` or `ERROR_ADDRESS`.
pub fn connect_answer(answer: Result<(), ConnectError>) -> i64
    ensures { result ≡ connect_answer answer }
{
    opened!(answer, ConnectError)
}

/// The number for what `bind` of a UDP or ICMP socket answered: 0, `ERROR_STATE` or `ERROR_ADDRESS`.
pub fn bind_answer(answer: Result<(), BindError>) -> i64
    ensures { result ≡ bind_answer answer }
{
    opened!(answer, BindError)
}

/// The number for what `send_slice` of a UDP or ICMP socket answered: 0, `ERROR_ADDRESS` or `ERROR_ROOM`.
pub fn datagram_answer(answer: Result<(), DatagramError>) -> i64
    ensures { result ≡ datagram_answer answer }
{
    match answer {
        Ok(()) => OK,
        Err(DatagramError::Unaddressable) => ERROR_ADDRESS,
        Err(DatagramError::BufferFull) => ERROR_ROOM,
    }
}

/// The number for why no packet was copied: `ERROR_EMPTY` or `ERROR_ROOM`.
pub fn refused_copy(error: CopyError) -> i64
    ensures { result ≡ refused_copy error }
{
    match error {
        CopyError::Exhausted => ERROR_EMPTY,
        CopyError::Truncated => ERROR_ROOM,
    }
}

/// A count: 2^30 at most.
pub fn count_answer(count: usize) -> i64
    ensures { result ≡ pos (min count (2 ^ 30)) }
{
    count.min(LARGEST) as i64
}

/// The number for what `send` of a TCP socket answered: how many bytes it took, or `ERROR_STATE`.
pub fn send_answer(answer: Result<usize, SendError>) -> i64
    requires { UpTo30 answer }
    ensures { result ≡ send_answer answer }
{
    match answer {
        Ok(count) => count as i64,
        Err(_) => ERROR_STATE,
    }
}

/// The number for what `recv` of a TCP socket answered: how many bytes it gave, `ERROR_STATE`, or `ERROR_FINISHED`.
pub fn recv_answer(answer: Result<usize, RecvError>) -> i64
    requires { UpTo30 answer }
    ensures { result ≡ recv_answer answer }
{
    match answer {
        Ok(count) => count as i64,
        Err(RecvError::InvalidState) => ERROR_STATE,
        Err(RecvError::Finished) => ERROR_FINISHED,
    }
}

/// The number for what `dispatch` of a TCP socket answered: how many bytes the packet has that it wrote, 0 where none
/// was due, or `ERROR_ROOM`.
pub fn sent_answer(answer: Result<(), Full>, len: usize) -> i64
    ensures { result ≡ sent_answer answer len }
{
    match answer {
        Ok(()) => len.min(LONGEST_PACKET) as i64,
        Err(Full) => ERROR_ROOM,
    }
}

/// 1 for true, 0 for false.
pub fn flag_answer(flag: bool) -> i64
    ensures { result ≡ flag_answer flag }
{
    if flag { 1 } else { 0 }
}

/// The number of a state: 0 for CLOSED to 10 for TIME-WAIT.
pub fn state_answer(state: State) -> i64
    ensures { result ≡ state_answer state }
{
    match state {
        State::Closed => 0,
        State::Listen => 1,
        State::SynSent => 2,
        State::SynReceived => 3,
        State::Established => 4,
        State::FinWait1 => 5,
        State::FinWait2 => 6,
        State::CloseWait => 7,
        State::Closing => 8,
        State::LastAck => 9,
        State::TimeWait => 10,
    }
}
