//! Who is answered without a socket, and whose answer is believed.
ghost use Rattle.std.specs.Prelude.{◌≡◌, ◌<◌, ◌/◌, IfSome, None, Some};
ghost use Rattle.rand_chacha.specs.ChaCha.{key_of};
ghost use Rattle.host_cookies.specs.Numbers.{awaited, number_at, numbered, recognised, recognised_by, step_of};
ghost use Rattle.host_cookies.specs.Laws.{AnswersAreRecognised};

use crate::call::Call;
use crate::mix::{mixed, tag_of};
use rand_chacha::ChaCha20Rng;
use rand_core::SeedableRng;

// A step of time, in microseconds.
const STEP: u128 = 64_000_000;

/// Answers to SYNs that hold no socket (RFC 4987, section 3.6).
#[derive(Clone, Copy, Drop)]
pub struct SynCookies {
    pub(crate) key: [u8; 32],
    pub(crate) kept_from: usize,
    // the moment of the last answer, in microseconds
    pub(crate) answered: Option<i64>,
}

impl SynCookies {
    /// Under this key, which has to be drawn anew at each start of the program, and be told to nobody. The sockets of
    /// a set from the place `kept_from` on are kept for peers that answer: as long as one of those alone listens for
    /// a SYN, the SYN is answered, and no socket takes it.
    pub fn new(key: [u8; 32], kept_from: usize) -> SynCookies
        ensures key { result.key ≡ key }
        ensures kept_from { result.kept_from ≡ kept_from }
        ensures answered { result.answered ≡ None }
    {
        SynCookies {
            key,
            kept_from,
            answered: None,
        }
    }

    /// From which place on sockets are kept for peers that answer.
    pub fn kept_from(&self) -> usize
        ensures { result ≡ self.now.kept_from }
    {
        self.kept_from
    }

    /// A SYN is answered at this moment, in microseconds.
    pub fn note(&mut self, micros: i64)
        ensures { self.new ≡ record self.old { answered = Some micros } }
    {
        self.answered = Some(micros);
    }

    /// Whether an acknowledgement of an answer may come at this time, in microseconds: the last one that was noted went
    /// out up to 64 seconds before the step of time that this lies in, or later.
    pub fn awaits(&self, micros: i64) -> bool
        ensures { result ≡ awaited self.now.answered micros }
    {
        match self.answered {
            None => false,
            Some(at) => step_of(micros) <= step_of(at) + 1,
        }
    }

    /// The number of the answer to a SYN that told a largest segment of this class, at this moment in microseconds.
    /// `told` stands for what else the answer tells of the SYN (`told_number`, or 0).
    pub fn number(&self, call: &Call, class: u8, told: u16, micros: i64) -> u32
        requires { class < 8 }
        ensures { result ≡ number_at (key_of self.now.key) call.now (step_of micros) class told }
    {
        let mut words = ChaCha20Rng::from_seed(self.key);
        let tag = tag_of(&mut words, call);
        numbered(&mut words, tag, step_of(micros), class, told)
    }

    /// The class of the SYN that a number of this moment, or of up to 64 seconds before, answers, where it is that of
    /// an answer to this call that told the same.
    pub fn recognised(&self, call: &Call, told: u16, number: u32, micros: i64) -> Option<u8>
        ensures value { result ≡ recognised (key_of self.now.key) call.now (step_of micros) told number }
        ensures bound { IfSome result (λ n. n < 8) }
    {
        let mut words = ChaCha20Rng::from_seed(self.key);
        let tag = tag_of(&mut words, call);
        recognised(&mut words, tag, step_of(micros), told, number)
    }
}

fn step_of(micros: i64) -> u64
    ensures value { result ≡ step_of micros }
    ensures bound { result < 4398046511104 }
{
    ((i128::from(micros) + 9_223_372_036_854_775_808).unsigned_abs() / STEP) as u64
}

fn numbered(words: &mut ChaCha20Rng, tag: u64, step: u64, class: u8, told: u16) -> u32
    requires class { class < 8 }
    requires step { step < 4398046511104 }
    ensures value { result ≡ numbered words.old.key tag step class told }
    ensures key { words.new.key ≡ words.old.key }
{
    let place = (step * 8 + u64::from(class)) * 65536 + u64::from(told);
    let mix = mixed(words, tag, place) % 536_870_912;
    u32::from(class) * 536_870_912 + mix as u32
}

fn recognised(words: &mut ChaCha20Rng, tag: u64, step: u64, told: u16, number: u32) -> Option<u8>
    requires { step < 4398046511104 }
    ensures value { result ≡ recognised_by words.old.key tag step told number }
    ensures bound { IfSome result (λ n. n < 8) }
{
    let class = class_in(number);
    if number == numbered(words, tag, step, class, told)
        || number == numbered(words, tag, step.saturating_sub(1), class, told)
    {
        Some(class)
    } else {
        None
    }
}

/// The class that a number tells, whether it is of an answer or not.
pub fn class_in(number: u32) -> u8
    ensures value { result ≡ number / 536870912 }
    ensures bound { result < 8 }
{
    (number / 536_870_912) as u8
}

/// Within 64 seconds the number of an answer is recognised, as of the class of its SYN and of what it told: of the same
/// step of time, or of the next one.
pub fn answers_are_recognised()
    ensures { AnswersAreRecognised }
{}
