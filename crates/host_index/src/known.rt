//! First places under keys that were sought.
ghost use Rattle.std.specs.Prelude.{ℕ, ◌≡◌, ◌<◌, ◌^◌, IfOk, slice_set, vec_capacity};
ghost use Rattle.host_index.specs.Known.{known_at, learned, slot_of};

use crate::entry::Entry;
use std::alloc::{AllocError, Global};

// How many keys are known at once.
const COUNT: usize = 256;

// What stands for no place: no place is so far on.
const NO_PLACE: u32 = u32::MAX;

/// For some keys a place each. Two keys may want the same room, and the later one has it: a peer who chooses his keys
/// so has each of them searched for, as all are without this.
#[derive(Drop)]
pub(crate) struct Known {
    pub(crate) places: Vec<u32>,
}

// The room of a key.
fn slot_of(key: Entry) -> usize
    ensures { result ≡ slot_of key }
{
    let major = (key.major % 256) as usize;
    let high = (key.minor / 65536 % 256) as usize;
    let low = (key.minor % 256) as usize;
    (major + high + low) % COUNT
}

impl Known {
    /// No key is known.
    pub(crate) fn new(alloc: Global) -> Result<Known, AllocError> {
        Ok(Known {
            places: vec![in alloc; NO_PLACE; COUNT]?,
        })
    }

    /// The place of this key, or of one that has its room, or one that is no place.
    pub(crate) fn get(&self, key: Entry) -> usize
        ensures { result ≡ known_at self.now.places.items key }
    {
        match self.places.get(slot_of(key)) {
            Some(place) => *place as usize,
            None => NO_PLACE as usize,
        }
    }

    /// This place is the key's, if it is given.
    pub(crate) fn learn(&mut self, key: Entry, place: Option<u32>)
        ensures learned { self.new.places.items ≡ learned self.old.places.items key place }
        ensures memory { vec_capacity self.new.places ≡ vec_capacity self.old.places }
    {
        if let Some(place) = place {
            self.put(key, place);
        }
    }

    fn put(&mut self, key: Entry, place: u32)
        ensures put { self.new.places.items ≡ slice_set self.old.places.items (slot_of key) place }
        ensures memory { vec_capacity self.new.places ≡ vec_capacity self.old.places }
    {
        if let Some(known) = self.places.get_mut(slot_of(key)) {
            *known = place;
        }
    }

    /// Neither the key nor another that has its room has a place.
    pub(crate) fn forget(&mut self, key: Entry)
        ensures put { self.new.places.items ≡ slice_set self.old.places.items (slot_of key) 4294967295 }
        ensures memory { vec_capacity self.new.places ≡ vec_capacity self.old.places }
    {
        self.put(key, NO_PLACE);
    }
}
