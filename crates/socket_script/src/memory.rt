//! Why a run cannot go on.

use crate::tally::Unwritten;

/// Why a run cannot go on.
#[derive(Clone, Copy)]
pub enum Halt {
    /// The output cannot be written.
    Write,
    /// Memory ran out.
    Memory,
}

impl From<Unwritten> for Halt {
    fn from(_error: Unwritten) -> Halt {
        Halt::Write
    }
}
