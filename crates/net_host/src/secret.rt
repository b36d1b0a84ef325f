//! Random words that nobody can tell who does not know the secret.
ghost use Rattle.std.specs.Prelude.{◌≡◌, ◌+◌, ◌%◌, ◌^◌};
ghost use Rattle.rand_chacha.specs.ChaCha.{of_seed, word_at as word_of};

use host_context::Words;
use rand_chacha::ChaCha20Rng;
use rand_core::SeedableRng;
use rand_core::utils::NextWord;

/// The words of ChaCha20 under a key of 32 secret bytes, a fresh one for every draw: initial sequence numbers of one
/// connection tell nothing of another's (RFC 6528). The bytes have to be drawn anew at each start of the program.
/// They repeat after 2^68 words.
#[derive(Drop)]
pub struct Secret {
    pub(crate) generator: ChaCha20Rng,
}

impl Secret {
    /// The words under this key, from the first on.
    pub fn new(key: [u8; 32]) -> Secret
        ensures { result.generator ≡ of_seed key }
    {
        Secret {
            generator: ChaCha20Rng::from_seed(key),
        }
    }
}

impl Words for Secret {
    ghost word_at = { λ w k. word_of 10 w.generator.key w.generator.stream ((w.generator.word_pos + k) % 2 ^ 68) };

    fn next(&mut self) -> u32 {
        let _place = self.generator.get_word_pos(); // for its bound
        self.generator.next_word()
    }
}
