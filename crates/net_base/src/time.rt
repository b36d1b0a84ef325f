//! Moments and lengths of time, in whole microseconds.
ghost use Rattle.std.specs.Prelude.{◌≡◌, ◌*◌, ◌/◌, ◌<◌, ◌^◌, pos, ◌+ℤ◌, ◌-ℤ◌, ◌*ℤ◌, FitsSigned, int_div, unsigned_abs};
ghost use Rattle.std.specs.Int.{w64};

use std::ops::{Add, Mul, Sub};

/// A moment: so many microseconds after a start that the caller chooses, or before it.
#[derive(Debug, Clone, Copy, PartialEq, Eq, PartialOrd, Ord)]
pub struct Instant {
    /// Microseconds after the start; below zero before it.
    pub micros: i64,
}

impl Instant {
    /// The start itself.
    pub const ZERO: Instant = Instant { micros: 0 };

    /// The moment so many microseconds after the start.
    pub const fn from_micros(micros: i64) -> Instant
        ensures { result ≡ record { micros = micros } }
    {
        Instant { micros }
    }

    /// The moment so many milliseconds after the start, where it fits 64 bits in microseconds.
    pub const fn from_millis(millis: i64) -> Instant
        requires { FitsSigned w64 (millis *ℤ pos 1000) }
        ensures { result ≡ record { micros = millis *ℤ pos 1000 } }
    {
        Instant::from_micros(millis * 1000)
    }

    /// The moment so many seconds after the start, where it fits 64 bits in microseconds.
    pub const fn from_secs(secs: i64) -> Instant
        requires { FitsSigned w64 (secs *ℤ pos 1000000) }
        ensures { result ≡ record { micros = secs *ℤ pos 1000000 } }
    {
        Instant::from_micros(secs * 1_000_000)
    }

    /// The whole milliseconds after the start; what is left over is cut off, towards the start.
    pub const fn total_millis(&self) -> i64
        ensures { result ≡ int_div self.now.micros (pos 1000) }
    {
        self.micros / 1_000
    }
}

/// A length of time, in microseconds.
#[derive(Debug, Clone, Copy, PartialEq, Eq, PartialOrd, Ord)]
pub struct Duration {
    /// How many microseconds.
    pub micros: u64,
}

impl Duration {
    /// No time at all.
    pub const ZERO: Duration = Duration { micros: 0 };

    /// So many microseconds.
    pub const fn from_micros(micros: u64) -> Duration
        ensures { result ≡ record { micros = micros } }
    {
        Duration { micros }
    }

    /// So many milliseconds, where they fit 64 bits in microseconds.
    pub const fn from_millis(millis: u64) -> Duration
        requires { millis * 1000 < 2 ^ 64 }
        ensures { result ≡ record { micros = millis * 1000 } }
    {
        Duration::from_micros(millis * 1000)
    }

    /// So many seconds, where they fit 64 bits in microseconds.
    pub const fn from_secs(secs: u64) -> Duration
        requires { secs * 1000000 < 2 ^ 64 }
        ensures { result ≡ record { micros = secs * 1000000 } }
    {
        Duration::from_micros(secs * 1_000_000)
    }

    /// The whole milliseconds of it; what is left over is cut off.
    pub const fn total_millis(&self) -> u64
        ensures { result ≡ self.now.micros / 1000 }
    {
        self.micros / 1000
    }
}

/// The moment `rhs` later, where it fits 64 bits.
impl Add<Duration> for Instant {
    type Output = Instant;

    ghost can_add = { λ t d. FitsSigned w64 (t.micros +ℤ pos d.micros) };

    ghost add_gives = { λ t d r. r ≡ record { micros = t.micros +ℤ pos d.micros } };

    fn add(self, rhs: Duration) -> Instant {
        Instant {
            micros: self.micros.checked_add_unsigned(rhs.micros).unwrap(),
        }
    }
}

/// How far two moments are apart, whichever is the earlier.
impl Sub<Instant> for Instant {
    type Output = Duration;

    ghost sub_gives = { λ s t r. r ≡ record { micros = unsigned_abs (s.micros -ℤ t.micros) } };

    fn sub(self, rhs: Instant) -> Duration {
        Duration {
            micros: self.micros.abs_diff(rhs.micros),
        }
    }
}

/// `rhs` times as long, where it fits 64 bits.
impl Mul<u32> for Duration {
    type Output = Duration;

    ghost can_mul = { λ d k. d.micros * k < 2 ^ 64 };

    ghost mul_gives = { λ d k r. r ≡ record { micros = d.micros * k } };

    fn mul(self, rhs: u32) -> Duration {
        Duration {
            micros: self.micros * rhs as u64,
        }
    }
}
