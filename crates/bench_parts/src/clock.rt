//! A clock of timestamps that stands still.
ghost use Rattle.std.specs.Prelude.{◌≡◌};

use sock_tcp::TsvalSource;

/// The clock.
#[derive(Debug, Clone, Copy)]
pub struct Clock;

impl TsvalSource for Clock {
    ghost tells = { λ _ t. t ≡ 7000000 };

    fn tsval(&self) -> u32 {
        7_000_000
    }
}
