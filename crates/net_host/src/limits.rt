//! The limits that a host sets its TCP connections, as numbers.
ghost use Rattle.std.specs.Prelude.{◌≡◌, ◌<◌, if◌then◌else◌, true};
ghost use Rattle.control_wire.specs.declared.seq_number.TcpSeqNumber.{TcpSeqNumber};
ghost use Rattle.net_host.specs.Guards.{is_given, lawful_limit, limit_from, limit_of};
ghost use Rattle.net_host.specs.Remembered.{phase_from};
ghost use Rattle.net_host.specs.declared.guard.Kind.TheVariants.{Free};

use crate::guard::{GuardSettings, Kind};
use net_base::time::Duration;
use std::marker::Model;

/// The limits of `GuardSettings`. Each `emit` compares them with those that its set was asked under last: five numbers
/// side by side, which takes a fifth of what four `Option`s do.
#[derive(Drop)]
pub struct Limits {
    // in microseconds; anything where there is none
    handshake: u64,
    closing: u64,
    window: u64,
    timeout: u64,
    // whether there is one: 1, 2, 4 and 8 of those that there are
    given: u8,
}

impl Model for Limits {
    ghost use Rattle.net_host.specs.Guards.{is_given, limit_from};
    ghost use Rattle.net_host.specs.declared.guard.GuardSettings.{GuardSettings};

    ghost Value = { GuardSettings };

    ghost view = { λ l. record {
      handshake = limit_from (is_given l.given 1) l.handshake;
      closing = limit_from (is_given l.given 2) l.closing;
      window = limit_from (is_given l.given 4) l.window;
      timeout = limit_from (is_given l.given 8) l.timeout;
    } };
}

// Whether there is a limit, and its microseconds.
fn parts_of(limit: Option<Duration>) -> (bool, u64)
    ensures { limit_from result.0 result.1 ≡ limit }
{
    match limit {
        None => (false, 0),
        Some(limit) => (true, limit.micros),
    }
}

fn limit_from(given: bool, micros: u64) -> Option<Duration>
    ensures { result ≡ limit_from given micros }
{
    if given {
        Some(Duration { micros })
    } else {
        None
    }
}

// Whether there is which, as one number.
fn given_of(handshake: bool, closing: bool, window: bool, timeout: bool) -> u8
    ensures handshake { is_given result 1 ≡ handshake }
    ensures closing { is_given result 2 ≡ closing }
    ensures window { is_given result 4 ≡ window }
    ensures timeout { is_given result 8 ≡ timeout }
{
    digit(handshake, 1) + digit(closing, 2) + digit(window, 4) + digit(timeout, 8)
}

fn digit(given: bool, place: u8) -> u8
    ensures { result ≡ (if given then place else 0) }
{
    if given { place } else { 0 }
}

// Whether there is the one of this place.
fn is_given(given: u8, place: u8) -> bool
    requires { 0 < place }
    ensures { result ≡ is_given given place }
{
    given / place % 2 == 1
}

impl Limits {
    /// The settings as numbers.
    pub fn of(settings: &GuardSettings) -> Limits
        ensures { result ≡ settings.now }
    {
        let (has_handshake, handshake) = parts_of(settings.handshake);
        let (has_closing, closing) = parts_of(settings.closing);
        let (has_window, window) = parts_of(settings.window);
        let (has_timeout, timeout) = parts_of(settings.timeout);
        Limits {
            handshake,
            closing,
            window,
            timeout,
            given: given_of(has_handshake, has_closing, has_window, has_timeout),
        }
    }

    /// What the numbers stand for.
    pub fn settings(&self) -> GuardSettings
        ensures { result ≡ self.now }
    {
        GuardSettings {
            handshake: limit_from(is_given(self.given, 1), self.handshake),
            closing: limit_from(is_given(self.given, 2), self.closing),
            window: limit_from(is_given(self.given, 4), self.window),
            timeout: limit_from(is_given(self.given, 8), self.timeout),
        }
    }

    /// The limit of what the peer is waited for: whether there is one, and its microseconds.
    #[inline(always)]
    pub(crate) fn of_kind(&self, kind: Kind) -> (bool, u64)
        requires { kind ≡ Free → ⊥ }
        ensures { (n : TcpSeqNumber)
            → lawful_limit (limit_from result.0 result.1) ≡ limit_of self.now (phase_from kind n) }
    {
        match kind {
            Kind::Stuck => (is_given(self.given, 4), self.window),
            Kind::Handshake => (is_given(self.given, 1), self.handshake),
            _ => (is_given(self.given, 2), self.closing),
        }
    }

    /// The limit of bytes that wait in ESTABLISHED or CLOSE-WAIT.
    #[inline(always)]
    pub(crate) fn of_bytes(&self) -> (bool, u64)
        ensures { limit_from result.0 result.1 ≡ self.now.window }
    {
        (is_given(self.given, 4), self.window)
    }

    /// The user timeout.
    pub(crate) fn timeout(&self) -> Option<Duration>
        ensures { result ≡ self.now.timeout }
    {
        limit_from(is_given(self.given, 8), self.timeout)
    }

    // Whether the numbers are the same; they may differ where there is no limit. `&` compares them side by side.
    pub(crate) fn are(&self, other: &Limits) -> bool
        ensures { result ≡ true → self.now ≡ other.now }
    {
        (self.handshake == other.handshake)
            & (self.closing == other.closing)
            & (self.window == other.window)
            & (self.timeout == other.timeout)
            & (self.given == other.given)
    }
}
