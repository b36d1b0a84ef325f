//! An index: places under keys, in order.
ghost use Rattle.std.specs.Prelude.{ℕ, ◌≡◌, ◌<◌, ◌≤◌, ◌*◌, ◌/◌, ◌^◌, IfNone};
ghost use Rattle.std.specs.Prelude.{IfOk, IfSome, length, get_or, min, nat_lt, true, false};
ghost use Rattle.std.specs.Prelude.{[]};
ghost use Rattle.host_index.specs.Columns.{AreAsMany, Frees, IsPut, Puts, entry_in, is_free, number_of};
ghost use Rattle.host_index.specs.Entries.{IsFirst, IsSortedByRank, Keeps, KeepsBut, KeepsElsewhere, Splits, entry_at};
ghost use Rattle.host_index.specs.Entries.{has, nothing, rank};
ghost use Rattle.host_index.specs.Filing.{HasPlaceFor, IsSecondOf, SameMemory, places_of};
ghost use Rattle.host_index.specs.Indexing.{AreBefore, BeginBetween, IsOrdered, entries_in, number_at};
ghost use Rattle.host_index.specs.Known.{IsFirstIn};

use crate::columns::{Columns, number_of};
use crate::entry::{Entry, Which, entry_of, is_entry, is_key_less, is_less, least_key};
use crate::guesses::Guesses;
use crate::known::Known;
use std::alloc::{AllocError, Global};
use std::marker::Model;

// Among how many numbers one is looked for that goes.
const WINDOW: usize = 32;

/// Entries in order, of keys and of places under a key: of each place at most one first and one second key.
///
/// An entry takes four bytes beside its columns, so that little is moved where one is added or removed.
#[derive(Drop)]
pub struct Index {
    columns: Columns,
    // the numbers of the keys
    order: Vec<u32>,
    // the key that was sought last, and where its entries begin
    sought: Entry,
    begins: usize,
    // first places under keys that were sought or added: a place that is known is mostly the right one
    known: Known,
    guesses: Guesses,
}

impl Model for Index {
    ghost use Rattle.std.specs.Prelude.{vec_capacity};
    ghost use Rattle.host_index.specs.Filing.{Filing};
    ghost use Rattle.host_index.specs.Indexing.{entries_in};
    ghost use Rattle.host_index.specs.Known.{Knows};

    ghost Value = { Filing };

    ghost view = { λ i. record {
      entries = entries_in i.columns i.order.items;
      order = i.order.items;
      columns = i.columns;
      room = vec_capacity i.order;
      firsts = vec_capacity i.known.places;
    } };

    ghost invariant = { λ i. Knows i.columns i.order.items i.sought i.begins i.known.places.items
        (vec_capacity i.order) };
}

// The place that has this key as its first one, where the key has this number.
fn place_under(columns: &Columns, number: u32, key: Entry) -> Option<u32>
    requires { AreAsMany columns.now }
    ensures { IfSome result
        (λ place. (number ≡ 2 * place) × (entry_in columns.now number ≡ entry_at key place)) }
{
    let entry = columns.get(number as usize);
    if number % 2 == 0 && entry.major == key.major && entry.minor == key.minor {
        Some(number / 2)
    } else {
        None
    }
}

// The first place under the key, where the entries of the key begin here and it is the place's first key.
fn first_under(columns: &Columns, order: &[u32], key: Entry, begins: usize) -> Option<u32>
    requires as_many { AreAsMany columns.now }
    requires ordered { IsOrdered columns.now order.now }
    requires begins { Splits (entries_in columns.now order.now) (rank key) begins }
    ensures { IfSome result (λ place. IsFirstIn columns.now order.now key place) }
{
    match order.get(begins) {
        Some(number) if key.place == 0 => place_under(columns, *number, key),
        _ => None,
    }
}

// The entry at this place of the order.
fn entry_at(columns: &Columns, order: &[u32], place: usize) -> Entry
    requires as_many { AreAsMany columns.now }
    requires within { place < length order.now }
    ensures { result ≡ entry_in columns.now (number_at order.now place) }
{
    columns.get(order[place] as usize)
}

// Where the entries under a key begin, which is from one place of the order on and not behind another. Not inlined, as
// three ways lead here that mostly spare it.
#[inline(never)]
fn lower_between(columns: &Columns, order: &[u32], key: Entry, from: usize, end: usize) -> usize
    requires as_many { AreAsMany columns.now }
    requires ordered { IsOrdered columns.now order.now }
    requires begins { BeginBetween columns.now order.now (rank key) from end }
    ensures { Splits (entries_in columns.now order.now) (rank key) result }
{
    let mut low = from;
    let mut high = end;
    while low < high {
        let middle = low + (high - low) / 2;
        if is_less(entry_at(columns, order, middle), key) {
            low = middle + 1;
        } else {
            high = middle;
        }
    }
    low
}

// Whether an entry stands before the key, where one is at this place of the order. Inlined, as a call takes as long as
// the look.
#[inline(always)]
fn is_before_at(columns: &Columns, order: &[u32], place: usize, key: Entry) -> bool
    requires as_many { AreAsMany columns.now }
    requires within { place < length order.now }
    ensures { result ≡ nat_lt (rank (entry_in columns.now (number_at order.now place))) (rank key) }
{
    is_less(entry_at(columns, order, place), key)
}

// Whether all entries before this place of the order stand before the key.
fn is_behind_them(columns: &Columns, order: &[u32], place: usize, key: Entry) -> bool
    requires as_many { AreAsMany columns.now }
    requires ordered { IsOrdered columns.now order.now }
    requires within { place ≤ length order.now }
    ensures { result ≡ true → AreBefore columns.now order.now (rank key) place }
{
    place == 0 || is_before_at(columns, order, place - 1, key)
}

fn is_there(order: &[u32], place: usize, number: usize) -> bool
    ensures within { result ≡ true → place < length order.now }
    ensures number { result ≡ true → number_at order.now place ≡ number }
{
    match order.get(place) {
        Some(there) => *there as usize == number,
        None => false,
    }
}

// The place, where it is the first under the key, as its first key, which stands at this place of the order.
#[tactic(auto, using(crate::proofs::Firsts::first_here))]
fn first_at(columns: &Columns, order: &[u32], at: usize, key: Entry, place: usize) -> Option<u32>
    requires as_many { AreAsMany columns.now }
    requires ordered { IsOrdered columns.now order.now }
    requires least { key.place ≡ 0 }
    ensures { IfSome result (λ place. IsFirstIn columns.now order.now key place) }
{
    if columns.has(Which::First, entry_of(key, place))
        && is_there(order, at, number_of(Which::First, place))
        && is_behind_them(columns, order, at, key)
    {
        Some(place as u32)
    } else {
        None
    }
}

// Where the entries under a key begin, by a search.
fn lower(columns: &Columns, order: &[u32], key: Entry) -> usize
    requires as_many { AreAsMany columns.now }
    requires ordered { IsOrdered columns.now order.now }
    ensures { Splits (entries_in columns.now order.now) (rank key) result }
{
    lower_between(columns, order, key, 0, order.len())
}

// What `lower` returns, by one look where no entry stands behind the key, as where the ports of connections rise.
#[inline(always)]
#[tactic(auto, using(crate::proofs::Numbers::splits_behind))]
fn lower_or_end(columns: &Columns, order: &[u32], key: Entry) -> usize
    requires as_many { AreAsMany columns.now }
    requires ordered { IsOrdered columns.now order.now }
    ensures { Splits (entries_in columns.now order.now) (rank key) result }
{
    let end = order.len();
    if is_behind_them(columns, order, end, key) {
        return end;
    }
    lower(columns, order, key)
}

// What `lower` returns, by two looks where the guess is right, else by a search before or behind it.
#[inline(always)]
#[tactic(auto, using(crate::proofs::Numbers::splits_here))]
fn lower_by(columns: &Columns, order: &[u32], key: Entry, guess: usize) -> usize
    requires as_many { AreAsMany columns.now }
    requires ordered { IsOrdered columns.now order.now }
    ensures { Splits (entries_in columns.now order.now) (rank key) result }
{
    if guess >= order.len() {
        return lower_or_end(columns, order, key);
    }
    if is_before_at(columns, order, guess, key) {
        return lower_between(columns, order, key, guess + 1, order.len());
    }
    if is_behind_them(columns, order, guess, key) {
        return guess;
    }
    lower_between(columns, order, key, 0, guess)
}

// Where a number stands, of a few from this place of the order on: keys that go one after another mostly stand near,
// and these looks at numbers side by side spare a search.
fn near(order: &[u32], number: u32, from: usize) -> Option<usize>
    ensures within { IfSome result (λ p. p < length order.now) }
    ensures there { IfSome result (λ p. number_at order.now p ≡ number) }
{
    let end = from.saturating_add(WINDOW).min(order.len());
    for place in from..end {
        if order[place] == number {
            return Some(place);
        }
    }
    None
}

impl Index {
    /// An index of so many places, at most 2^30, with room for two entries each, and for the first places under 256
    /// keys.
    ///
    /// # Errors
    /// An error where there is no memory for it.
    pub fn new(alloc: Global, count: usize) -> Result<Index, AllocError>
        ensures none { IfOk result (λ x. x.entries ≡ []) }
        ensures places { IfOk result (λ x. places_of x ≡ min count 1073741824) }
        ensures free { IfOk result (λ x. (n : ℕ) → n / 2 < places_of x → is_free x.columns n ≡ true) }
        ensures room { IfOk result (λ x. x.room ≡ 2 * places_of x) }
    {
        let columns = Columns::new(alloc, count)?;
        let order = Vec::with_capacity(alloc, columns.len().saturating_mul(2))?;
        Ok(Index {
            columns,
            order,
            sought: least_key(),
            begins: 0,
            known: Known::new(alloc)?,
            guesses: Guesses::new(),
        })
    }

    /// How many entries it has.
    pub fn len(&self) -> usize
        ensures { result ≡ length self.now.entries }
    {
        self.order.len()
    }

    /// One of them.
    pub fn get(&self, place: usize) -> Entry
        requires { place < length self.now.entries }
        ensures { result ≡ get_or self.now.entries place nothing }
    {
        entry_at(&self.columns, &self.order, place)
    }

    /// Where the entries under this key begin. It is not searched for where it was sought last, or where the guess for
    /// second keys that rest is right.
    pub fn lower(&self, key: Entry) -> usize
        ensures splits { Splits self.now.entries (rank key) result }
        ensures sorted { IsSortedByRank self.now.entries }
    {
        if is_entry(key, self.sought) {
            return self.begins;
        }
        lower_by(&self.columns, &self.order, key, self.guesses.rests)
    }

    /// Seeks a key, so that `known` tells the first place under it, and `lower` does not search for it until an entry
    /// is added or removed, or another key is sought.
    pub fn seek(&mut self, key: Entry)
        ensures { self.new ≡ self.old }
    {
        if self.known(key).is_none() && !is_entry(key, self.sought) {
            self.search(key);
        }
    }

    // Apart from `seek`, which mostly knows the key, so that it saves few registers.
    #[inline(never)]
    fn search(&mut self, key: Entry)
        ensures { self.new ≡ self.old }
    {
        self.begins = lower_or_end(&self.columns, &self.order, key);
        self.sought = key;
        self.learn();
    }

    // The first place under the key that was sought is known.
    fn learn(&mut self)
        ensures { self.new ≡ self.old }
    {
        let first = first_under(&self.columns, &self.order, self.sought, self.begins);
        self.known.learn(self.sought, first);
    }

    /// The first place under this key, where the key was sought; none where that is not known.
    #[tactic(auto, using(crate::proofs::Firsts::known_is_first))]
    pub fn known(&self, key: Entry) -> Option<usize>
        ensures { IfSome result (λ place. IsFirst self.now.entries key place) }
    {
        let place = self.known.get(key);
        if self.columns.has(Which::First, entry_of(key, place)) {
            Some(place)
        } else {
            None
        }
    }

    /// Whether a place has this key and no other, or none where none is given. Where the answer is no, it says nothing.
    #[tactic(auto, using(crate::proofs::Firsts::put_is_there))]
    pub fn is_filed(&self, which: Which, place: usize, key: Option<&Entry>) -> bool
        ensures filed { result ≡ true → IfSome key.entry (λ e. has self.now.entries (entry_at e.now place) ≡ true) }
        ensures there { result ≡ true → IfSome key.entry (λ e. IsPut (number_of which place) (entry_at e.now place)
            self.now.columns) }
        ensures exact { result ≡ false → IfSome key.entry (λ e. IsPut (number_of which place) (entry_at e.now place)
            self.now.columns → ⊥) }
        ensures none { result ≡ true → IfNone key.entry (place < places_of self.now
            → is_free self.now.columns (number_of which place) ≡ true) }
        ensures one { result ≡ false → IfNone key.entry ((place < places_of self.now)
            × (is_free self.now.columns (number_of which place) ≡ false)) }
    {
        match key {
            Some(key) => self.columns.has(which, entry_of(*key, place)),
            None => place >= self.columns.len() || self.columns.is_free(number_of(which, place)),
        }
    }

    /// Whether each entry stands behind all that there could be under this key, by one look. Where the answer is no, it
    /// says nothing.
    pub fn is_behind(&self, key: Entry) -> bool
        ensures { result ≡ true → (k : ℕ) → k < 2 ^ 64 → has self.now.entries (entry_at key k) ≡ false }
    {
        match self.order.first() {
            Some(number) => is_key_less(key, self.columns.get(*number as usize)),
            None => true,
        }
    }

    /// Adds an entry of a place of its own that has no such key yet, where the key is one that fits and the place's
    /// other key is another. Whether it did. No memory is asked for.
    pub fn add(&mut self, which: Which, entry: Entry) -> bool
        ensures added { result ≡ true → has self.new.entries entry ≡ true }
        ensures done { HasPlaceFor self.old which entry → result ≡ true }
        ensures put { result ≡ true → Puts (number_of which entry.place) entry self.old.columns self.new.columns }
        ensures kept { Keeps self.old.entries self.new.entries }
        ensures memory { SameMemory self.old self.new }
    {
        let guess = self.guesses.to_add(which, entry, self.order.len());
        let place = lower_by(&self.columns, &self.order, entry, guess);
        let added = self.put_at(place, which, entry);
        if added && which == Which::First {
            self.learn_at(place, entry_of(entry, 0), entry.place);
        }
        added
    }

    fn put_at(&mut self, place: usize, which: Which, entry: Entry) -> bool
        requires { Splits self.old.entries (rank entry) place }
        ensures added { result ≡ true → has self.new.entries entry ≡ true }
        ensures done { HasPlaceFor self.old which entry → result ≡ true }
        ensures put { result ≡ true → Puts (number_of which entry.place) entry self.old.columns self.new.columns }
        ensures kept { Keeps self.old.entries self.new.entries }
        ensures memory { SameMemory self.old self.new }
    {
        if self.order.len() >= self.order.capacity() {
            return false;
        }
        if self.stands_at(place, entry) {
            return false;
        }
        if !self.columns.put(which, entry) {
            return false;
        }
        let number = number_of(which, entry.place) as u32;
        self.sought = least_key();
        self.begins = 0;
        self.known.forget(entry);
        self.guesses.note_added(which, entry, place);
        self.order.insert(place, number).is_ok()
    }

    // The place is known as the first under the key, where it is, and was added at this place of the order.
    fn learn_at(&mut self, at: usize, key: Entry, place: usize)
        requires { key.place ≡ 0 }
        ensures { self.new ≡ self.old }
    {
        let first = first_at(&self.columns, &self.order, at, key, place);
        self.known.learn(key, first);
    }

    // Whether an entry stands at this place of the order that is not behind this one, as those of other places are.
    fn stands_at(&self, place: usize, entry: Entry) -> bool
        requires { Splits self.now.entries (rank entry) place }
        ensures behind { result ≡ false → place < length self.now.entries
            → rank entry < rank (get_or self.now.entries place nothing) }
        ensures same { result ≡ true → IsSecondOf self.now place entry }
    {
        place < self.order.len()
            && self.order[place] as usize / 2 == entry.place
            && !is_less(entry, self.get(place))
    }

    fn take_out(&mut self, place: usize)
        requires { place < length self.old.entries }
        ensures kept { KeepsBut (get_or self.old.entries place nothing) self.old.entries self.new.entries }
        ensures frees { Frees (number_at self.old.order place) self.old.columns self.new.columns }
        ensures memory { SameMemory self.old self.new }
    {
        let number = self.order.remove(place);
        self.sought = least_key();
        self.begins = 0;
        self.columns.free(number as usize);
    }

    /// Removes a key of a place, whatever it is.
    pub fn unfile(&mut self, which: Which, place: usize)
        ensures kept { KeepsElsewhere place self.old.entries self.new.entries }
        ensures frees { Frees (number_of which place) self.old.columns self.new.columns }
        ensures memory { SameMemory self.old self.new }
    {
        if place >= self.columns.len() {
            return;
        }
        let number = number_of(which, place);
        if !self.columns.is_free(number) {
            self.take(which, number);
        }
    }

    // Removes the key of this number, where it stands.
    fn take(&mut self, which: Which, number: usize)
        requires within { number / 2 < length self.old.columns.majors.items }
        requires taken { is_free self.old.columns number ≡ false }
        ensures kept { KeepsElsewhere (number / 2) self.old.entries self.new.entries }
        ensures frees { Frees number self.old.columns self.new.columns }
        ensures memory { SameMemory self.old self.new }
    {
        let opens = self.columns.is_least_door(number / 2);
        let place = self.stands(number, self.guesses.to_remove(which, opens));
        self.take_out(place);
        self.note_removed(which, opens, place);
    }

    fn note_removed(&mut self, which: Which, opens: bool, place: usize)
        ensures { self.new ≡ self.old }
    {
        self.guesses.note_removed(which, opens, place);
    }

    // Where the key of this number stands.
    #[tactic(auto, using(crate::proofs::Numbers::stands_there))]
    fn stands(&self, number: usize, from: usize) -> usize
        requires within { number / 2 < length self.now.columns.majors.items }
        requires taken { is_free self.now.columns number ≡ false }
        ensures within { result < length self.now.order }
        ensures number { number_at self.now.order result ≡ number }
        ensures entry { get_or self.now.entries result nothing ≡ entry_in self.now.columns number }
        ensures length { length self.now.entries ≡ length self.now.order }
    {
        match near(&self.order, number as u32, from) {
            Some(place) => place,
            None => lower(&self.columns, &self.order, self.columns.get(number)),
        }
    }
}
