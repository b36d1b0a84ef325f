//! TCP segments and UDP datagrams as bytes, alone and in IP packets of both versions.
#![tactic(auto)]

pub mod options;
pub mod packet;
mod pseudo;
pub mod round_trips;
pub mod tcp;
pub mod udp;
mod write;
