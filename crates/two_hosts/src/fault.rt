//! Why the program failed.
ghost use Rattle.std.specs.Prelude.{◌≡◌};
ghost use Rattle.two_hosts.specs.declared.fault.Fault.TheVariants as fault;

use std::alloc::AllocError;
use thiserror::Error;

/// Why the program failed.
#[derive(Debug, Drop, Error)]
pub enum Fault {
    #[error("usage: two_hosts [SEED [LOSS]], LOSS at most 100; --help says more")]
    Usage,
    #[error("write failed")]
    Write,
    #[error("out of memory")]
    Memory,
}

impl Fault {
    /// The exit status: 1 for wrong arguments, 2 where standard output fails, 3 without memory.
    pub fn status(&self) -> u8
        ensures { result ≡ elim self.now [ fault.Usage ↦ 1 | fault.Write ↦ 2 | fault.Memory ↦ 3 ] }
    {
        match self {
            Fault::Usage => 1,
            Fault::Write => 2,
            Fault::Memory => 3,
        }
    }
}

impl From<AllocError> for Fault {
    ghost use Rattle.two_hosts.specs.declared.fault.Fault.TheVariants.{Memory};

    ghost from_gives = { λ _ e. e ≡ Memory };

    fn from(_error: AllocError) -> Fault {
        Fault::Memory
    }
}
