//! One request and its answer (RFC 9110, RFC 9112).

use crate::clock::TcpSocket;
use crate::page::{Traffic, answer};
use crate::pattern::{PIECE, Patterns};
use crate::request::{LONGEST_HEAD, Request};
use smoltcp_socket::tcp;
use smoltcp_socket::tcp::State;
use std::alloc::{AllocError, Global};

// How many pieces one socket may send before the next one has its turn.
const PIECES: usize = 32;

/// A server of one request.
#[derive(Drop)]
pub struct Http {
    head: [u8; LONGEST_HEAD],
    // how many bytes of the head have come
    filled: usize,
    answer: Option<Answer>,
}

// An answer: its text, and the bytes behind it, of each how many are sent.
#[derive(Drop)]
struct Answer {
    text: String,
    sent: usize,
    bytes: u64,
    bytes_sent: u64,
}

impl Http {
    /// A server that waits for its request.
    pub fn new(_alloc: Global) -> Http {
        Http {
            head: [0; LONGEST_HEAD],
            filled: 0,
            answer: None,
        }
    }

    /// Reads the request, or goes on with its answer, and closes behind that.
    pub fn serve(
        &mut self,
        alloc: Global,
        patterns: &Patterns,
        socket: &mut TcpSocket<'_>,
        traffic: &mut Traffic,
    ) -> Result<(), AllocError> {
        if self.answer.is_none() {
            self.read(alloc, socket, traffic)?;
        }
        match &mut self.answer {
            Some(answer) => answer.send(patterns, socket, traffic),
            None => {
                // no request comes any more
                if socket.state() == State::CloseWait && !socket.can_recv() {
                    socket.close();
                }
            }
        }
        Ok(())
    }

    fn read(
        &mut self,
        alloc: Global,
        socket: &mut TcpSocket<'_>,
        traffic: &mut Traffic,
    ) -> Result<(), AllocError> {
        let filled = self.filled.min(LONGEST_HEAD);
        let Ok(count) = socket.recv_slice(&mut self.head[filled..]) else {
            return Ok(());
        };
        self.filled = filled.saturating_add(count).min(LONGEST_HEAD);
        traffic.received = traffic.received.wrapping_add(count as u64);
        let request = Request::of(&self.head[..self.filled]);
        if request == Request::Unfinished {
            return Ok(());
        }
        let text = answer(alloc, request, socket, *traffic)?;
        let bytes = match request {
            Request::Bytes(count) => count,
            _ => 0,
        };
        self.answer = Some(Answer {
            text,
            sent: 0,
            bytes,
            bytes_sent: 0,
        });
        Ok(())
    }
}

impl Answer {
    // Sends what fits, and closes behind the last byte. What the client still sends is taken and forgotten.
    fn send(&mut self, patterns: &Patterns, socket: &mut TcpSocket<'_>, traffic: &mut Traffic) {
        let _ = socket.recv(|bytes: &[u8]| (bytes.len(), ()));
        for _ in 0..PIECES {
            let count = self.send_piece(patterns, socket);
            if count == 0 {
                break;
            }
            traffic.sent = traffic.sent.wrapping_add(count as u64);
        }
        if self.sent >= self.text.len() && self.bytes_sent >= self.bytes {
            socket.close();
        }
    }

    fn send_piece(&mut self, patterns: &Patterns, socket: &mut TcpSocket<'_>) -> usize {
        if self.sent < self.text.len() {
            let count = socket
                .send_slice(&self.text.as_bytes()[self.sent..])
                .unwrap_or(0);
            self.sent = self.sent.saturating_add(count);
            count
        } else {
            let count = self.send_bytes(patterns, socket);
            self.bytes_sent = self.bytes_sent.saturating_add(count as u64);
            count
        }
    }

    fn send_bytes(&mut self, patterns: &Patterns, socket: &mut TcpSocket<'_>) -> usize {
        let left = self.bytes.saturating_sub(self.bytes_sent);
        let count = if left < PIECE as u64 {
            left as usize
        } else {
            PIECE
        };
        if count == 0 {
            return 0;
        }
        let piece = patterns.numbers(self.bytes_sent);
        socket.send_slice(&piece[..count]).unwrap_or(0)
    }
}
