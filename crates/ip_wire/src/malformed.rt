//! What a packet is refused with.
ghost use Rattle.std.specs.Prelude.{Some, codes};

use std::fmt;

/// The bytes are no packet of the form that was asked for.
#[derive(Debug, Clone, Copy, PartialEq, Eq)]
pub struct Error;

impl fmt::Display for Error {
    ghost output = { λ _. Some (codes "malformed packet") };

    fn fmt<W: fmt::Write>(&self, f: &mut fmt::Formatter<W>) -> fmt::Result {
        write!(f, "malformed packet")
    }
}

impl std::error::Error for Error {}
