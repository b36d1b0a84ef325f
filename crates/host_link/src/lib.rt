//! A link in memory between two hosts of one program, for examples and tests.
#![tactic(auto)]

pub mod link;
pub mod packet;

pub use link::Link;
