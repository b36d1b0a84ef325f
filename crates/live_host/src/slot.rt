//! What runs on a TCP socket of the host.

use crate::clock::{Clock, TcpSocket};
use crate::http::Http;
use crate::page::Traffic;
use crate::pattern::{PIECE, Patterns};
use crate::service::Service;
use net_host::SocketHandle;
use smoltcp_socket::tcp::{Rules, State};
use smoltcp_socket::time::Duration;
use std::alloc::{AllocError, Global};

// How many pieces one socket may move before the next one has its turn.
const PIECES: usize = 32;

// A peer that has been silent for so long is asked whether it is there: soon enough that answers may be lost.
const KEEP_ALIVE: Duration = Duration { micros: 15_000_000 };

/// A socket of the set, and what runs on it.
#[derive(Drop)]
pub struct Slot {
    /// Names the socket.
    pub handle: SocketHandle,
    service: Service,
    http: Http,
    traffic: Traffic,
    // it was last seen without a connection
    rested: bool,
}

impl Slot {
    /// A socket that nothing runs on.
    pub fn new(alloc: Global, handle: SocketHandle) -> Slot {
        Slot {
            handle,
            service: Service::Echo,
            http: Http::new(alloc),
            traffic: Traffic {
                received: 0,
                sent: 0,
            },
            rested: true,
        }
    }

    /// The socket waits for a connection to the service; one that is still there is given up. By the RFCs' rules it
    /// offers timestamps, each time anew, as a client without them takes the clock away.
    pub fn listen<'a>(&mut self, socket: &mut TcpSocket<'a>, service: Service, clock: Clock<'a>) {
        socket.abort();
        self.service = service;
        self.rested = true;
        socket.set_keep_alive(Some(KEEP_ALIVE));
        if socket.rules() == Rules::Rfc {
            socket.set_tsval_source(Some(clock));
        }
        let _ = socket.listen(service.endpoint());
    }

    // Nothing has come and nothing has gone.
    fn renew(&mut self, alloc: Global) {
        self.rested = false;
        self.http = Http::new(alloc);
        self.traffic = Traffic {
            received: 0,
            sent: 0,
        };
    }

    /// Lets the service read and write. A connection begins anew with SYN-RECEIVED, also of a socket in TIME-WAIT that
    /// was taken for it; with a cookie it is ESTABLISHED at once.
    pub fn serve(
        &mut self,
        alloc: Global,
        socket: &mut TcpSocket<'_>,
        patterns: &Patterns,
    ) -> Result<(), AllocError> {
        match socket.state() {
            State::SynReceived => {
                self.renew(alloc);
                return Ok(());
            }
            State::Closed | State::Listen | State::TimeWait => {
                self.rested = true;
                return Ok(());
            }
            _ if self.rested => self.renew(alloc),
            _ => {}
        }
        match self.service {
            Service::Echo => echo(socket),
            Service::Discard => discard(socket),
            Service::Chargen => self.generate(socket, patterns),
            Service::Http => self.http.serve(alloc, patterns, socket, &mut self.traffic)?,
        }
        // the client has closed, and all that it sent has been read
        if socket.state() == State::CloseWait
            && !socket.can_recv()
            && self.service != Service::Http
        {
            socket.close();
        }
        Ok(())
    }

    fn generate(&mut self, socket: &mut TcpSocket<'_>, patterns: &Patterns) {
        for _ in 0..PIECES {
            let Ok(count) = socket.send_slice(patterns.lines(self.traffic.sent)) else {
                break;
            };
            if count == 0 {
                break;
            }
            self.traffic.sent = self.traffic.sent.wrapping_add(count as u64);
        }
    }
}

fn echo(socket: &mut TcpSocket<'_>) {
    let mut bytes = [0u8; PIECE];
    for _ in 0..PIECES {
        let room = socket
            .send_capacity()
            .saturating_sub(socket.send_queue())
            .min(PIECE);
        if room == 0 {
            break;
        }
        let Ok(count) = socket.recv_slice(&mut bytes[..room]) else {
            break;
        };
        if count == 0 {
            break;
        }
        let _ = socket.send_slice(&bytes[..count]);
    }
}

fn discard(socket: &mut TcpSocket<'_>) {
    for _ in 0..PIECES {
        if !matches!(socket.recv(|bytes: &[u8]| (bytes.len(), bytes.len())), Ok(count) if count > 0)
        {
            break;
        }
    }
}
