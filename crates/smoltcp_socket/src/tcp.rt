//! TCP sockets (RFC 9293), and what goes with them.

pub use sock_core::{RttEstimator, before, congestion, later, not_after, window_shift};
pub use sock_tcp::{
    CongestionControl, ConnectError, Generator, ListenError, Reason, RecvError, Reply, Row, Rules,
    RulesError, SendError, Socket, SocketBuffer, State,
};
