//! Limits that a host sets its TCP connections, so that no peer keeps it busy for ever or keeps its sockets taken.
#![tactic(auto)]

pub mod guard;

pub use guard::Guard;
