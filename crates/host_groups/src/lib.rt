//! Groups that an interface has joined, of which there are at most four.
#![tactic(auto)]

pub mod joining;

pub use joining::{Groups, MulticastError};
