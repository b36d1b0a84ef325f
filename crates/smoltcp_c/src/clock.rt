//! The clock of the timestamps that a socket sends (RFC 7323, section 3).
ghost use Rattle.std.specs.Prelude.{◌≡◌};

use sock_tcp::TsvalSource;

/// A clock that stands: its value during one call.
#[derive(Debug, Clone, Copy)]
pub struct Clock {
    pub tsval: u32,
}

impl TsvalSource for Clock {
    ghost tells = { λ c t. t ≡ c.tsval };

    fn tsval(&self) -> u32 {
        self.tsval
    }
}
