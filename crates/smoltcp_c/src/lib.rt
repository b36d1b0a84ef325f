//! Proved sockets for C: a socket lies in memory of the caller, with its buffers. No call allocates, keeps anything
//! elsewhere, or calls back.
#![tactic(auto)]

pub mod answers;
pub mod asked;
pub mod clock;
pub mod context;
pub mod contexts;
pub mod datagram_packets;
pub mod datagrams;
pub mod endpoints;
pub mod ends;
pub mod handles;
pub mod host;
pub mod host_lends;
pub mod host_lent;
pub mod host_numbers;
pub mod host_opening;
pub mod host_packets;
pub mod host_settings;
pub mod host_setup;
pub mod host_sockets;
pub mod in_place;
pub mod lends;
pub mod memory;
pub mod message;
pub mod packets;
pub mod ports;
pub mod raw_filter;
pub mod reasons;
pub mod release;
pub mod settings;
pub mod sizes;
pub mod streams;
pub mod tcp;
pub mod udp_numbers;
pub mod wire;
