//! The datagram sockets of smoltcp.
#![tactic(auto)]

pub mod error;
pub mod icmp;
mod queue;
pub mod raw;
pub mod udp;
