//! What the programs of the benchmark have in common: conversations, what they are made of, and a wire that is not
//! reliable.
#![tactic(auto)]

pub mod clock;
pub mod conversation;
pub mod digest;
pub mod random;
pub mod wire;
pub mod work;
