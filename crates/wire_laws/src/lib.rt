//! Laws: what the TCP sockets emit survives the wire.
#![tactic(auto)]

pub mod reading;
pub mod survival;
pub mod widths;
