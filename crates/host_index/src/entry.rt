//! Places under keys.
ghost use Rattle.std.specs.Prelude.{◌≡◌, ◌&&◌, ◌||◌, nat_eq, nat_lt};
ghost use Rattle.host_index.specs.Entries.{entry_at, is_entry, nothing, rank};

/// A place under a key.
#[derive(Debug, Clone, Copy, PartialEq, Eq)]
pub struct Entry {
    /// The first part of the key.
    pub major: u128,
    /// The second part.
    pub minor: u64,
    /// The place.
    pub place: usize,
}

/// Which of the two keys of a place.
#[derive(Debug, Clone, Copy, PartialEq, Eq)]
pub enum Which {
    First,
    Second,
}

pub(crate) fn is_less(a: Entry, b: Entry) -> bool
    ensures { result ≡ nat_lt (rank a) (rank b) }
{
    a.major < b.major
        || a.major == b.major && (a.minor < b.minor || a.minor == b.minor && a.place < b.place)
}

pub(crate) fn is_entry(a: Entry, b: Entry) -> bool
    ensures { result ≡ is_entry a b }
{
    a.major == b.major && a.minor == b.minor && a.place == b.place
}

// Whether the key of one stands before that of the other.
pub(crate) fn is_key_less(a: Entry, b: Entry) -> bool
    ensures { result ≡ (nat_lt a.major b.major || (nat_eq a.major b.major && nat_lt a.minor b.minor)) }
{
    a.major < b.major || a.major == b.major && a.minor < b.minor
}

// The entry of a place under the key of another.
pub(crate) fn entry_of(key: Entry, place: usize) -> Entry
    ensures { result ≡ entry_at key place }
{
    Entry {
        major: key.major,
        minor: key.minor,
        place,
    }
}

// A key that no entry stands before.
pub(crate) fn least_key() -> Entry
    ensures { result ≡ nothing }
{
    Entry {
        major: 0,
        minor: 0,
        place: 0,
    }
}
