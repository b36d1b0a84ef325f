//! A place is filed under other keys.
ghost use Rattle.std.specs.Prelude.{◌≡◌, ◌<◌, false, true};
ghost use Rattle.host_index.specs.Columns.{number_of};
ghost use Rattle.host_index.specs.Entries.{Keeps, KeepsElsewhere, entry_at};
ghost use Rattle.host_index.specs.Filing.{SameMemory, places_of};
ghost use Rattle.host_index.specs.declared.entry.Which.TheVariants.{First, Second};
ghost use Rattle.net_host.specs.Indexing.{are_filed, is_under};
ghost use Rattle.net_host.specs.Refiling.{HasKey, HasOnly, IsApart, KeepsOthers, can_file, fits_key};

use crate::key::{Key, Keys};
use host_index::{Entry, Index, Which};

fn entry_at(key: &Entry, place: usize) -> Entry
    ensures { result ≡ entry_at key.now place }
{
    Entry {
        major: key.major,
        minor: key.minor,
        place,
    }
}

// Whether the place is filed under this key and no other.
#[inline(always)]
fn has_key(index: &Index, which: Which, place: usize, key: &Key) -> bool
    ensures filed { result ≡ true → is_under index.now.entries place key.now ≡ true }
    ensures there { result ≡ true → HasKey which place key.now index.now }
    ensures exact { result ≡ false → HasKey which place key.now index.now → ⊥ }
{
    match key {
        Key::Nothing => index.is_filed(which, place, None),
        Key::Under(key) => index.is_filed(which, place, Some(key)),
    }
}

// What the place is filed under is removed, unless it is this key.
#[inline(always)]
fn unfile(index: &mut Index, which: Which, place: usize, key: &Key)
    ensures kept { KeepsElsewhere place index.old.entries index.new.entries }
    ensures only { place < places_of index.old → HasOnly which place key.now index.new.columns }
    ensures others { KeepsOthers (number_of which place) index.old.columns index.new.columns }
    ensures memory { SameMemory index.old index.new }
{
    if !has_key(index, which, place, key) {
        index.unfile(which, place);
    }
}

#[inline(always)]
fn file(index: &mut Index, which: Which, place: usize, key: &Key) -> bool
    ensures filed { result ≡ true → is_under index.new.entries place key.now ≡ true }
    ensures kept { Keeps index.old.entries index.new.entries }
    ensures done { place < places_of index.old → fits_key which key.now ≡ true
        → HasOnly which place key.now index.old.columns → IsApart which place key.now index.old.columns
        → result ≡ true }
    ensures only { result ≡ true → place < places_of index.old → HasOnly which place key.now index.new.columns }
    ensures others { result ≡ true → KeepsOthers (number_of which place) index.old.columns index.new.columns }
    ensures memory { SameMemory index.old index.new }
{
    if has_key(index, which, place, key) {
        return true;
    }
    match key {
        Key::Nothing => false,
        Key::Under(key) => index.add(which, entry_at(key, place)),
    }
}

/// The place is filed under these keys, and not under others any more. Whether it was: it is where it is a place of the
/// index and its keys can be filed, and no memory is asked for. No other place is filed otherwise.
pub(crate) fn refile(index: &mut Index, place: usize, keys: &Keys) -> bool
    ensures filed { result ≡ true → are_filed index.new.entries place keys.now ≡ true }
    ensures others { KeepsElsewhere place index.old.entries index.new.entries }
    ensures whole { place < places_of index.old → can_file keys.now ≡ true → result ≡ true }
    ensures memory { SameMemory index.old index.new }
{
    unfile(index, Which::First, place, &keys.first);
    unfile(index, Which::Second, place, &keys.second);
    file_both(index, place, keys)
}

fn file_both(index: &mut Index, place: usize, keys: &Keys) -> bool
    ensures filed { result ≡ true → are_filed index.new.entries place keys.now ≡ true }
    ensures kept { Keeps index.old.entries index.new.entries }
    ensures whole { place < places_of index.old → can_file keys.now ≡ true
        → HasOnly First place keys.now.first index.old.columns → HasOnly Second place keys.now.second index.old.columns
        → result ≡ true }
    ensures memory { SameMemory index.old index.new }
{
    let first = file(index, Which::First, place, &keys.first);
    let second = file(index, Which::Second, place, &keys.second);
    first && second
}
