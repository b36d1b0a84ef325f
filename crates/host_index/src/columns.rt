//! The two keys of each place, in columns of 30 bytes a place together.
ghost use Rattle.std.specs.Prelude.{ℕ, ◌≡◌, ◌≤◌, ◌<◌, ◌+◌, ◌*◌, ◌/◌, IfOk, length, min, true, false};
ghost use Rattle.host_index.specs.Columns.{AreAsMany, Frees, IsPut, Puts, PutsFirst, PutsSecond, entry_in};
ghost use Rattle.host_index.specs.declared.entry.Which.TheVariants.{First, Second};
ghost use Rattle.host_index.specs.Columns.{first_in, fits, is_free, number_of, second_in};

use crate::entry::{Entry, Which};
use std::alloc::{AllocError, Global};

// The first part of no first key: an address of a group.
const NO_MAJOR: u128 = u128::MAX;

// The second part of no second key.
const NO_MINOR: u64 = u64::MAX;

// The first part of a second key is from here on within sixteen bits.
const LEAST: u128 = 65536;

// How many places there are at most, so that the number of each key fits 32 bits.
const MOST: usize = 1 << 30;

/// The keys of many places.
///
/// The key of number `2 * place` is the first of a place, whose second part fits 32 bits; the next number is the second
/// one's, whose first part is from 65536 to 131071. A key is free where none was put there.
#[derive(Drop)]
pub(crate) struct Columns {
    pub(crate) majors: Vec<u128>,
    pub(crate) minors: Vec<u32>,
    // of second keys: the first part less 65536, and the second part
    pub(crate) doors: Vec<u16>,
    pub(crate) moments: Vec<u64>,
}

/// The number of a key.
pub(crate) fn number_of(which: Which, place: usize) -> usize
    requires { place < 1073741824 }
    ensures { result ≡ number_of which place }
{
    match which {
        Which::First => 2 * place,
        Which::Second => 2 * place + 1,
    }
}

impl Columns {
    /// Columns of so many places, or of as many as there are at most, where all is free.
    pub(crate) fn new(alloc: Global, count: usize) -> Result<Columns, AllocError>
        ensures as_many { IfOk result (λ c. AreAsMany c) }
        ensures places { IfOk result (λ c. length c.majors.items ≡ min count 1073741824) }
        ensures free { IfOk result (λ c. (n : ℕ) → n / 2 < length c.majors.items → is_free c n ≡ true) }
    {
        let count = count.min(MOST);
        Ok(Columns {
            majors: vec![in alloc; NO_MAJOR; count]?,
            minors: vec![in alloc; 0u32; count]?,
            doors: vec![in alloc; 0u16; count]?,
            moments: vec![in alloc; NO_MINOR; count]?,
        })
    }

    /// How many places there are.
    pub(crate) fn len(&self) -> usize
        ensures { result ≡ length self.now.majors.items }
    {
        self.majors.len()
    }

    fn first(&self, place: usize) -> Entry
        requires { AreAsMany self.now }
        ensures { result ≡ first_in self.now place }
    {
        if place >= self.majors.len() {
            return Entry {
                major: 0,
                minor: 0,
                place,
            };
        }
        Entry {
            major: self.majors[place],
            minor: u64::from(self.minors[place]),
            place,
        }
    }

    fn second(&self, place: usize) -> Entry
        requires { AreAsMany self.now }
        ensures { result ≡ second_in self.now place }
    {
        if place >= self.majors.len() {
            return Entry {
                major: LEAST,
                minor: 0,
                place,
            };
        }
        Entry {
            major: LEAST + u128::from(self.doors[place]),
            minor: self.moments[place],
            place,
        }
    }

    /// The place under the key of this number.
    pub(crate) fn get(&self, number: usize) -> Entry
        requires { AreAsMany self.now }
        ensures { result ≡ entry_in self.now number }
    {
        if number % 2 == 0 {
            self.first(number / 2)
        } else {
            self.second(number / 2)
        }
    }

    /// Whether the second key of this place has the least first part, where it has one.
    pub(crate) fn is_least_door(&self, place: usize) -> bool {
        match self.doors.get(place) {
            Some(door) => *door == 0,
            None => false,
        }
    }

    /// Whether this key is there. Where the answer is no, it says nothing.
    pub(crate) fn has(&self, which: Which, entry: Entry) -> bool
        requires { AreAsMany self.now }
        ensures there { result ≡ true → IsPut (number_of which entry.place) entry self.now }
        ensures exact { result ≡ false → IsPut (number_of which entry.place) entry self.now → ⊥ }
    {
        match which {
            Which::First => self.has_first(entry),
            Which::Second => self.has_second(entry),
        }
    }

    fn has_first(&self, entry: Entry) -> bool
        requires { AreAsMany self.now }
        ensures there { result ≡ true → IsPut (2 * entry.place) entry self.now }
        ensures exact { result ≡ false → IsPut (2 * entry.place) entry self.now → ⊥ }
    {
        entry.place < self.majors.len()
            && entry.major != NO_MAJOR
            && self.majors[entry.place] == entry.major
            && u64::from(self.minors[entry.place]) == entry.minor
    }

    fn has_second(&self, entry: Entry) -> bool
        requires { AreAsMany self.now }
        ensures there { result ≡ true → IsPut (2 * entry.place + 1) entry self.now }
        ensures exact { result ≡ false → IsPut (2 * entry.place + 1) entry self.now → ⊥ }
    {
        entry.place < self.majors.len()
            && entry.minor != NO_MINOR
            && self.moments[entry.place] == entry.minor
            && LEAST + u128::from(self.doors[entry.place]) == entry.major
    }

    /// Whether the key of this number is free, or of no place.
    pub(crate) fn is_free(&self, number: usize) -> bool
        requires { AreAsMany self.now }
        ensures taken { result ≡ false
            → (number / 2 < length self.now.majors.items) × (is_free self.now number ≡ false) }
        ensures free { result ≡ true → number / 2 < length self.now.majors.items → is_free self.now number ≡ true }
    {
        if number % 2 == 0 {
            self.majors.len() <= number / 2 || self.majors[number / 2] == NO_MAJOR
        } else {
            self.majors.len() <= number / 2 || self.moments[number / 2] == NO_MINOR
        }
    }

    /// Puts a key of a place where it is free. Whether it was, and the key is one that fits there.
    pub(crate) fn put(&mut self, which: Which, entry: Entry) -> bool
        requires { AreAsMany self.old }
        ensures put { result ≡ true → Puts (number_of which entry.place) entry self.old self.new }
        ensures done { entry.place < length self.old.majors.items
            → is_free self.old (number_of which entry.place) ≡ true → fits which entry ≡ true → result ≡ true }
        ensures within { result ≡ true → entry.place < length self.old.majors.items }
        ensures same { result ≡ false → self.new ≡ self.old }
    {
        if self.len() <= entry.place {
            return false;
        }
        match which {
            Which::First => self.put_first(entry),
            Which::Second => self.put_second(entry),
        }
    }

    fn put_first(&mut self, entry: Entry) -> bool
        requires as_many { AreAsMany self.old }
        requires within { entry.place < length self.old.majors.items }
        ensures put { result ≡ true → PutsFirst entry self.old self.new }
        ensures done { is_free self.old (2 * entry.place) ≡ true → fits First entry ≡ true → result ≡ true }
        ensures same { result ≡ false → self.new ≡ self.old }
    {
        let Ok(minor) = u32::try_from(entry.minor) else {
            return false;
        };
        if self.majors[entry.place] != NO_MAJOR || entry.major == NO_MAJOR {
            return false;
        }
        self.majors[entry.place] = entry.major;
        self.minors[entry.place] = minor;
        true
    }

    fn put_second(&mut self, entry: Entry) -> bool
        requires as_many { AreAsMany self.old }
        requires within { entry.place < length self.old.majors.items }
        ensures put { result ≡ true → PutsSecond entry self.old self.new }
        ensures done { is_free self.old (2 * entry.place + 1) ≡ true → fits Second entry ≡ true → result ≡ true }
        ensures same { result ≡ false → self.new ≡ self.old }
    {
        if entry.major < LEAST || 2 * LEAST <= entry.major || entry.minor == NO_MINOR {
            return false;
        }
        if self.moments[entry.place] != NO_MINOR {
            return false;
        }
        self.doors[entry.place] = (entry.major - LEAST) as u16;
        self.moments[entry.place] = entry.minor;
        true
    }

    /// The key of this number is free.
    pub(crate) fn free(&mut self, number: usize)
        requires { AreAsMany self.old }
        ensures { Frees number self.old self.new }
    {
        let place = number / 2;
        if self.len() <= place {
            return;
        }
        if number % 2 == 0 {
            self.majors[place] = NO_MAJOR;
        } else {
            self.moments[place] = NO_MINOR;
        }
    }
}
