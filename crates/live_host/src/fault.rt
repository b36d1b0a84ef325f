//! Why the program failed.
ghost use Rattle.std.specs.Prelude.{◌≡◌};
ghost use Rattle.live_host.specs.declared.fault.Fault.TheVariants as fault;

use pcap::stream::PcapError;
use thiserror::Error;

/// Why the program failed.
#[derive(Debug, Drop, Error)]
pub enum Fault {
    #[error("usage: live_host ADDRESS [SEED [RULES [SOCKETS [BUFFER]]]]; --help says more")]
    Usage,
    #[error(transparent)]
    Pcap(PcapError),
    #[error("read failed")]
    Read,
    #[error("write failed")]
    Write,
    #[error("out of memory")]
    Memory,
}

impl Fault {
    /// The exit status: 1 for wrong arguments and a wrong stream, 2 where a stream fails, 3 without memory.
    pub fn status(&self) -> u8
        ensures { result ≡ elim self.now
            [ fault.Usage ↦ 1 | fault.Pcap e ↦ 1 | fault.Read ↦ 2 | fault.Write ↦ 2 | fault.Memory ↦ 3 ] }
    {
        match self {
            Fault::Usage => 1,
            Fault::Pcap(_) => 1,
            Fault::Read => 2,
            Fault::Write => 2,
            Fault::Memory => 3,
        }
    }
}
