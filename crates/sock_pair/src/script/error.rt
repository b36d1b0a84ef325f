//! Why a text is no script.
ghost use Rattle.std.specs.Prelude.{◌≡◌, Some};
ghost use Rattle.std.specs.Fmt.{WritesOnOk};
ghost use Rattle.sock_pair.specs.ScriptFaults.{at_line, fault_text};

use std::alloc::{AllocError, AllocFailed};
use std::error::Error;
use std::fmt;

/// Why a text was not read as a script, with the number of the line, counted from 1.
#[derive(Debug, Clone, Copy, PartialEq, Eq)]
pub enum ScriptError {
    /// The first line that is not skipped does not begin with `pair`, or there is none.
    NoPairLine { line: usize },
    /// The line's first word names no event.
    UnknownEvent { line: usize },
    /// The line has more or fewer words than its event wants.
    WrongNumberOfWords { line: usize },
    /// A word of the line is not of its form, or beyond its limit.
    BadWord { line: usize },
    /// Memory ran out.
    Memory,
}

impl fmt::Display for ScriptError {
    ghost output = { λ e. Some (fault_text e) };

    fn fmt<W: fmt::Write>(&self, f: &mut fmt::Formatter<W>) -> fmt::Result {
        match self {
            ScriptError::NoPairLine { line } => at_line(f, *line, "no pair line"),
            ScriptError::UnknownEvent { line } => at_line(f, *line, "unknown event"),
            ScriptError::WrongNumberOfWords { line } => at_line(f, *line, "wrong number of words"),
            ScriptError::BadWord { line } => at_line(f, *line, "bad word"),
            ScriptError::Memory => f.write_str("out of memory"),
        }
    }
}

#[tactic(auto, unfolding(crate::specs::ScriptFaults::at_line))]
fn at_line<W: fmt::Write>(f: &mut fmt::Formatter<W>, line: usize, what: &str) -> fmt::Result
    ensures { WritesOnOk W.write_str_gives f.old result (at_line line what.now) f.new }
{
    write!(f, "line {line}: ")?;
    f.write_str(what)
}

impl Error for ScriptError {}

impl From<AllocError> for ScriptError {
    ghost use Rattle.sock_pair.specs.declared.script.error.ScriptError.TheVariants.{Memory};

    ghost from_gives = { λ _ e. e ≡ Memory };

    fn from(_error: AllocError) -> ScriptError {
        ScriptError::Memory
    }
}

impl<T: Drop> From<AllocFailed<T>> for ScriptError {
    ghost use Rattle.sock_pair.specs.declared.script.error.ScriptError.TheVariants.{Memory};

    ghost from_gives = { λ _ e. e ≡ Memory };

    fn from(_error: AllocFailed<T>) -> ScriptError {
        ScriptError::Memory
    }
}
