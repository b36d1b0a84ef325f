//! The clock of the timestamps that the sockets send (RFC 7323, section 3).

use net_host::SocketSet;
use smoltcp_socket::tcp;
use sock_tcp::TsvalSource;
use std::cell::Cell;

/// A TCP socket of the host.
pub type TcpSocket<'a> = tcp::Socket<'a, Clock<'a>>;

/// The sockets of the host.
pub type Sockets<'a> = SocketSet<'a, Clock<'a>>;

/// A clock of milliseconds, which all sockets of a host read. It stands while the host works at one moment, and does
/// not go back: a peer takes what has an earlier timestamp for an old segment (RFC 7323, section 5).
#[derive(Clone, Copy)]
pub struct Clock<'c> {
    millis: &'c Cell<u64>,
}

impl<'c> Clock<'c> {
    /// The clock whose time stands here.
    pub fn new(millis: &'c Cell<u64>) -> Clock<'c> {
        Clock { millis }
    }

    /// It is so many microseconds past the start now, at the least.
    pub fn advance(self, micros: u64) {
        self.millis.set(self.millis.get().max(micros / 1000));
    }
}

impl TsvalSource for Clock<'_> {
    // a clause knows nothing of what a cell holds
    ghost tells = { λ _ _. Unit {0} };

    fn tsval(&self) -> u32 {
        (self.millis.get() % (1 << 32)) as u32
    }
}
