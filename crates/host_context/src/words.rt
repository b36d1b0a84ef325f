//! The random words of the sockets: initial sequence numbers, and the ports that nobody chose.
ghost use Rattle.std.specs.Prelude.{◌≡◌, ℕ, ◌+◌, ◌/◌, ◌^◌};
ghost use Rattle.host_context.specs.Words.{step, state_at};

/// A source of random words.
pub trait Words {
    // the words that it will answer, in order
    ghost word_at: { Self → ℕ → ℕ };

    /// The next word.
    fn next(&mut self) -> u32
        ensures word { result ≡ word_at self.old 0 }
        ensures words { (k : ℕ) → word_at self.new k ≡ word_at self.old (k + 1) };
}

/// A linear congruential generator (Knuth, MMIX): the same words from the same seed, so that a run can be repeated.
/// Whoever sees some of them can tell the others: a host on a network where anybody may listen wants better ones.
#[derive(Debug, Clone, Copy, PartialEq, Eq, Drop)]
pub struct Seeded {
    /// What the next word is made of: at first, the seed.
    pub state: u64,
}

impl Words for Seeded {
    ghost word_at = { λ w k. state_at w.state k / 2 ^ 32 };

    #[tactic(auto, unfolding(crate::specs::Words::state_at))]
    fn next(&mut self) -> u32 {
        self.state = self
            .state
            .wrapping_mul(6364136223846793005)
            .wrapping_add(1442695040888963407);
        (self.state >> 32) as u32
    }
}
