//! Why a call is refused.
ghost use Rattle.std.specs.Prelude.{◌≡◌, Some};
ghost use Rattle.sock_tcp.specs.Texts.{listen_error_text, connect_error_text, send_error_text, recv_error_text};

use std::error::Error;
use std::fmt;

/// Why `listen` is refused, as smoltcp.
#[derive(Debug, Clone, Copy, PartialEq, Eq)]
pub enum ListenError {
    /// The socket is open, and does not listen on this endpoint.
    InvalidState,
    /// The port is zero.
    Unaddressable,
}

impl fmt::Display for ListenError {
    ghost output = { λ e. Some (listen_error_text e) };

    fn fmt<W: fmt::Write>(&self, f: &mut fmt::Formatter<W>) -> fmt::Result {
        match self {
            ListenError::InvalidState => write!(f, "invalid state"),
            ListenError::Unaddressable => write!(f, "unaddressable destination"),
        }
    }
}

impl Error for ListenError {}

/// Why `connect` is refused, as smoltcp.
#[derive(Debug, Clone, Copy, PartialEq, Eq)]
pub enum ConnectError {
    /// The socket is open.
    InvalidState,
    /// A port is zero, an address is unspecified or missing, or the two are of different versions.
    Unaddressable,
}

impl fmt::Display for ConnectError {
    ghost output = { λ e. Some (connect_error_text e) };

    fn fmt<W: fmt::Write>(&self, f: &mut fmt::Formatter<W>) -> fmt::Result {
        match self {
            ConnectError::InvalidState => write!(f, "invalid state"),
            ConnectError::Unaddressable => write!(f, "unaddressable destination"),
        }
    }
}

impl Error for ConnectError {}

/// Why a call that sends is refused, as smoltcp.
#[derive(Debug, Clone, Copy, PartialEq, Eq)]
pub enum SendError {
    /// The state does not allow it.
    InvalidState,
}

impl SendError {
    /// What the error prints.
    pub fn text(self) -> &'static str
        ensures { result.now ≡ send_error_text self }
    {
        match self {
            SendError::InvalidState => "invalid state",
        }
    }
}

impl fmt::Display for SendError {
    ghost output = { λ e. Some (send_error_text e) };

    fn fmt<W: fmt::Write>(&self, f: &mut fmt::Formatter<W>) -> fmt::Result {
        write!(f, "{}", self.text())
    }
}

impl Error for SendError {}

/// Why a call that receives is refused, as smoltcp.
#[derive(Debug, Clone, Copy, PartialEq, Eq)]
pub enum RecvError {
    /// The state does not allow it.
    InvalidState,
    /// The peer closed, and all its bytes were read. No call answers it yet.
    Finished,
}

impl RecvError {
    /// What the error prints.
    pub fn text(self) -> &'static str
        ensures { result.now ≡ recv_error_text self }
    {
        match self {
            RecvError::InvalidState => "invalid state",
            RecvError::Finished => "operation finished",
        }
    }
}

impl fmt::Display for RecvError {
    ghost output = { λ e. Some (recv_error_text e) };

    fn fmt<W: fmt::Write>(&self, f: &mut fmt::Formatter<W>) -> fmt::Result {
        write!(f, "{}", self.text())
    }
}

impl Error for RecvError {}
