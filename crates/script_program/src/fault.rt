//! Why a program failed, and its exit status.
ghost use Rattle.std.specs.Prelude.{◌≡◌};
ghost use Rattle.script_program.specs.declared.fault.Fault.TheVariants as fault;

use crate::advice::wrong_with;
use sock_pair::script::{End, ScriptError};
use std::alloc::Global;
use std::io;
use std::process::ExitCode;
use thiserror::Error;

/// Why a program failed: wrong arguments, or how its run of the script ended.
#[derive(Debug, Drop, Error)]
pub enum Fault {
    /// The arguments are not these.
    #[error("usage: {0}")]
    Usage(&'static str),
    /// The text is no script. The second part is empty, or a line feed and what is wrong with the line.
    #[error("{0}{1}")]
    Script(ScriptError, String),
    /// The script cannot be read.
    #[error("read failed")]
    Read,
    /// The file of this name cannot be opened.
    #[error("read failed\n{0}: {1}")]
    Open(String, io::Error),
    /// The output cannot be written.
    #[error("write failed")]
    Write,
    /// Memory ran out.
    #[error("out of memory")]
    Memory,
}

impl Fault {
    /// The exit status: 1 for wrong arguments and for a text that is no script, 2 for a stream that failed, 3 for want
    /// of memory.
    #[tactic(auto, unfolding(sock_pair::specs::ReplayEnds::status_of))]
    pub fn status(&self) -> u8
        ensures { result ≡ elim self.now [
          | fault.Usage usage ↦ 1
          | fault.Script e advice ↦ 1
          | fault.Read ↦ 2
          | fault.Open name e ↦ 2
          | fault.Write ↦ 2
          | fault.Memory ↦ 3
        ] }
    {
        match self {
            Fault::Usage(_) => 1,
            Fault::Script(error, _) => End::Script(*error).status(),
            Fault::Read | Fault::Open(..) => End::Read.status(),
            Fault::Write => End::Write.status(),
            Fault::Memory => End::Memory.status(),
        }
    }
}

/// What the end of a script's run is for the program; `text` is the script.
pub fn fault_of(alloc: Global, end: End, text: &[u8]) -> Result<(), Fault> {
    match end {
        End::Done => Ok(()),
        End::Script(error) => Err(Fault::Script(error, second_line(alloc, &error, text))),
        End::Read => Err(Fault::Read),
        End::Write => Err(Fault::Write),
        End::Memory => Err(Fault::Memory),
    }
}

// What stands behind the text of a script's fault: nothing where there is no memory for it.
fn second_line(alloc: Global, error: &ScriptError, text: &[u8]) -> String {
    let written = match wrong_with(error, text) {
        Some(advice) => format!(in alloc; "\n{advice}"),
        None => return String::new(alloc),
    };
    match written {
        Ok(line) => line,
        Err(_) => String::new(alloc),
    }
}

/// Ends a program: a fault is printed on standard error.
pub fn exit_code(rt: &HostRuntime, ended: Result<(), Fault>) -> ExitCode {
    match ended {
        Ok(()) => ExitCode::SUCCESS,
        Err(fault) => {
            let status = fault.status();
            let _ = rt.eprintln(fault);
            ExitCode::from(status)
        }
    }
}
