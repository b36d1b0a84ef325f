//! Bits of many places, in words of 64, and of each word whether it is not 0.
ghost use Rattle.std.specs.Prelude.{ℕ, ◌≡◌, ◌+◌, ◌*◌, ◌<◌, ◌≤◌, ◌/◌, IfOk, length, nat_eq, true};
ghost use Rattle.std.specs.Int.{bit_at};
ghost use Rattle.host_bounds.specs.Marking.{AllMarked, Clears, FindsOne, IsBusy, IsEmpty, IsFull, IsNextMark, Sets};
ghost use Rattle.host_bounds.specs.Marking.{bit_of};

use std::alloc::{AllocError, Global};
use std::marker::Model;

// How many bits a word has.
const BITS: usize = 64;

/// Marks of many places, the first of which is found without a look at each.
#[derive(Drop)]
pub struct Marks {
    // a bit for each place
    places: Vec<u64>,
    // a bit for each word of these, set where it is not 0
    words: Vec<u64>,
}

impl Model for Marks {
    ghost use Rattle.std.specs.Prelude.{ℕ, List};
    ghost use Rattle.host_bounds.specs.Marking.{AreNoted};

    ghost Value = { List ℕ };

    ghost view = { λ m. m.places.items };

    ghost invariant = { λ m. AreNoted m.places.items m.words.items };
}

impl Marks {
    /// Marks of so many places, each of which is marked. They take 1/8 byte a place.
    ///
    /// # Errors
    /// An error where there is no memory for them.
    pub fn new(alloc: Global, count: usize) -> Result<Marks, AllocError>
        ensures len { IfOk result (λ m. length m ≡ count / 64 + 1) }
        ensures room { IfOk result (λ m. count / 64 < length m) }
        ensures marked { IfOk result (λ m. AllMarked m) }
    {
        let words = count / BITS + 1;
        Ok(Marks {
            places: all_ones(alloc, words)?,
            words: all_ones(alloc, words / BITS + 1)?,
        })
    }

    /// This place is marked.
    pub fn put_on(&mut self, place: usize)
        requires { place / 64 < length self.old }
        ensures { Sets place self.old self.new }
    {
        put_on(&mut self.places, &mut self.words, place);
    }

    /// This place is not marked any more.
    pub fn take_off(&mut self, place: usize)
        requires { place / 64 < length self.old }
        ensures { Clears place self.old self.new }
    {
        take_off(&mut self.places, &mut self.words, place);
    }

    /// Each place is marked.
    pub fn reset(&mut self)
        ensures len { length self.new ≡ length self.old }
        ensures marked { AllMarked self.new }
    {
        set_all(&mut self.places);
        set_all(&mut self.words);
    }

    /// No place is marked.
    pub fn clear(&mut self)
        ensures len { length self.new ≡ length self.old }
        ensures none { (k : ℕ) → bit_of self.new k ≡ 0 }
    {
        clear_all(&mut self.places);
        clear_all(&mut self.words);
    }

    /// Whether this place is marked; none is that is not there.
    pub fn is_on(&self, place: usize) -> bool
        ensures { result ≡ nat_eq (bit_of self.now place) 1 }
    {
        match self.places.get(place / BITS) {
            Some(word) => (*word >> (place % BITS)) % 2 == 1,
            None => false,
        }
    }

    /// The next place that is marked, from one on, or one behind all.
    pub fn next(&self, start: usize) -> usize
        ensures behind { start ≤ result }
        ensures before { (k : ℕ) → start ≤ k → k < result → bit_of self.now k ≡ 0 }
        ensures marked { result < 18446744073709551615 → result / 64 < length self.now → bit_of self.now result ≡ 1 }
    {
        next_in(&self.places, &self.words, start)
    }
}

// So many words of ones.
fn all_ones(alloc: Global, count: usize) -> Result<Vec<u64>, AllocError>
    ensures len { IfOk result (λ v. length v.items ≡ count) }
    ensures ones { IfOk result (λ v. IsFull v.items) }
{
    let mut words = vec![in alloc; 0u64; count]?;
    set_all(&mut words);
    Ok(words)
}

// All bits are ones now.
fn set_all(words: &mut Vec<u64>)
    ensures len { length words.new.items ≡ length words.old.items }
    ensures ones { IsFull words.new.items }
{
    words.fill(u64::MAX);
}

// All bits are zeros now.
fn clear_all(words: &mut Vec<u64>)
    ensures len { length words.new.items ≡ length words.old.items }
    ensures zeros { IsEmpty words.new.items }
{
    words.fill(0);
}

// The bit of this place is a one now.
fn set_bit(words: &mut Vec<u64>, place: usize)
    requires { place / 64 < length words.old.items }
    ensures { Sets place words.old.items words.new.items }
{
    let word = place / BITS;
    words[word] |= 1 << (place % BITS);
}

// The bit of this place is a zero now. Whether the others of its word are, too.
fn clear_bit(words: &mut Vec<u64>, place: usize) -> bool
    requires { place / 64 < length words.old.items }
    ensures cleared { Clears place words.old.items words.new.items }
    ensures empty { result ≡ true → (k : ℕ) → k / 64 ≡ place / 64 → bit_of words.new.items k ≡ 0 }
{
    let word = place / BITS;
    let left = words[word] & !(1 << (place % BITS));
    words[word] = left;
    left == 0
}

fn put_on(marks: &mut Vec<u64>, words: &mut Vec<u64>, place: usize)
    requires within { place / 64 < length marks.old.items }
    requires above { place / 64 / 64 < length words.old.items }
    requires busy { IsBusy marks.old.items words.old.items }
    ensures set { Sets place marks.old.items marks.new.items }
    ensures len { length words.new.items ≡ length words.old.items }
    ensures busy { IsBusy marks.new.items words.new.items }
{
    set_bit(marks, place);
    set_bit(words, place / BITS);
}

fn take_off(marks: &mut Vec<u64>, words: &mut Vec<u64>, place: usize)
    requires within { place / 64 < length marks.old.items }
    requires above { place / 64 / 64 < length words.old.items }
    requires busy { IsBusy marks.old.items words.old.items }
    ensures cleared { Clears place marks.old.items marks.new.items }
    ensures len { length words.new.items ≡ length words.old.items }
    ensures busy { IsBusy marks.new.items words.new.items }
{
    if clear_bit(marks, place) {
        clear_bit(words, place / BITS);
    }
}

// How many zeros a word has from this bit on, and before a one.
fn zeros_from(word: u64, bit: usize) -> usize
    requires { bit < 64 }
    ensures within { result ≤ 64 }
    ensures zeros { (i : ℕ) → bit ≤ i → i < bit + result → bit_at word i ≡ 0 }
{
    let rest = word >> bit;
    rest.trailing_zeros() as usize
}

// A place before which there are zeros alone, from one on.
fn first_one(words: &[u64], start: usize) -> usize
    ensures { (k : ℕ) → start ≤ k → k < result → bit_of words.now k ≡ 0 }
{
    let mut word = start / BITS;
    let mut bit = start % BITS;
    while word < words.len() {
        let zeros = zeros_from(words[word], bit);
        if bit + zeros < BITS {
            return word.saturating_mul(BITS).saturating_add(bit + zeros);
        }
        word += 1;
        bit = 0;
    }
    word.saturating_mul(BITS)
}

// The first one of a word from this bit on, counted from there.
fn one_from(word: u64, bit: usize) -> Option<usize>
    requires { bit < 64 }
    ensures { FindsOne word bit result }
{
    let rest = word >> bit;
    if rest == 0 {
        return None;
    }
    Some(rest.trailing_zeros() as usize)
}

// The next place that is marked: mostly one of the same word.
fn next_in(marks: &[u64], words: &[u64], start: usize) -> usize
    requires busy { IsBusy marks.now words.now }
    requires few { length marks.now ≤ 288230376151711744 }
    ensures { IsNextMark marks.now start result }
{
    let word = start / BITS;
    if marks.len() <= word {
        return start;
    }
    match one_from(marks[word], start % BITS) {
        Some(zeros) => start + zeros,
        None => next_behind(marks, words, start),
    }
}

// The next place that is marked in a word behind this place's. Not inlined, as few searches come here.
#[inline(never)]
fn next_behind(marks: &[u64], words: &[u64], start: usize) -> usize
    requires busy { IsBusy marks.now words.now }
    requires few { length marks.now ≤ 288230376151711744 }
    requires none { (k : ℕ) → start ≤ k → k / 64 ≡ start / 64 → bit_of marks.now k ≡ 0 }
    ensures { IsNextMark marks.now start result }
{
    let mut word = start / BITS + 1;
    while word < marks.len() {
        if let Some(zeros) = one_from(marks[word], 0) {
            return word * BITS + zeros;
        }
        word = first_one(words, word + 1).max(word + 1);
    }
    word.saturating_mul(BITS)
}
