//! The names of an example's sockets.

ghost use Rattle.std.specs.Prelude.{◌≡◌, ◌++◌, ◌∷◌, [], IfOk, bytes_eq};
ghost use Rattle.drill_lines.specs.Names.{is_free_in, place_among, place_in, words_in};

use std::alloc::{AllocFailed, Global};

/// An example has at most so many sockets.
pub const MOST: usize = 16;

/// The names of the sockets that an example has made so far, in their order.
#[derive(Drop)]
pub struct Names<'t> {
    alloc: Global,
    names: Vec<&'t [u8]>,
}

impl<'t> Names<'t> {
    /// No names.
    #[tactic(auto, unfolding(crate::specs::Names::words_in))]
    pub fn new(alloc: Global) -> Names<'t>
        ensures { words_in result.names.items ≡ [] }
    {
        Names {
            alloc,
            names: Vec::new(alloc),
        }
    }

    /// The place of a name, counted from 0; none for a word that names no socket.
    #[tactic(auto, using(crate::proofs::NameLemmas::placed))]
    pub fn place_of(&self, word: &[u8]) -> Option<usize>
        ensures { result ≡ place_in (words_in self.now.names.items) word.now }
    {
        place_among(self.names.as_slice(), word)
    }

    /// Whether a socket can have this name: none has it, and there is room for one more.
    #[tactic(auto, unfolding(crate::specs::Names::is_free_in), using(crate::proofs::NameLemmas::count))]
    pub fn is_free(&self, word: &[u8]) -> bool
        ensures { result ≡ is_free_in (words_in self.now.names.items) word.now }
    {
        self.names.len() < MOST && self.place_of(word).is_none()
    }

    /// Adds a name.
    #[tactic(auto, using(crate::proofs::NameLemmas::added))]
    pub fn add(&mut self, word: &'t [u8]) -> Result<(), AllocFailed<&'t [u8]>>
        ensures { IfOk result (λ _. words_in self.new.names.items ≡ words_in self.old.names.items ++ word.now ∷ []) }
    {
        self.names.push(word)
    }

    /// Forgets all names.
    #[tactic(auto, unfolding(crate::specs::Names::words_in))]
    pub fn clear(&mut self)
        ensures { words_in self.new.names.items ≡ [] }
    {
        self.names = Vec::new(self.alloc);
    }
}

#[tactic(auto, unfolding(crate::specs::Names::place_among))]
fn place_among(names: &[&[u8]], word: &[u8]) -> Option<usize>
    ensures { result ≡ place_among names.now word.now }
{
    names.iter().position(
        |name| -> bool
            ensures { result ≡ bytes_eq name.now.now word.entry.now }
        { *name == word },
    )
}
