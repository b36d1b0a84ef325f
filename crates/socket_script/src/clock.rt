//! The clock of a socket's timestamps.

use sock_tcp::TsvalSource;

/// A clock that stands: each timestamp has this value.
#[derive(Clone, Copy)]
pub struct Clock(pub u32);

impl TsvalSource for Clock {
    ghost use Rattle.std.specs.Prelude.{◌≡◌};

    ghost tells = { λ s t. t ≡ s.0 };

    fn tsval(&self) -> u32 {
        self.0
    }
}
