//! The first of the places that are marked, kept beside the marks, so that where one is marked none is searched for.
ghost use Rattle.std.specs.Prelude.{ℕ, ◌≡◌, ◌/◌, ◌≤◌, ◌<◌, List, false, length};
ghost use Rattle.host_bounds.specs.Marking.{Clears, IsFirstMark, Sets, bit_of};

use crate::marks::Marks;

// No place.
const NONE: usize = usize::MAX;

/// Before which place none is marked, and whether none behind it is.
#[derive(Debug, Clone, Copy, PartialEq, Eq)]
pub(crate) struct FirstMark {
    pub(crate) place: usize,
    pub(crate) alone: bool,
}

impl FirstMark {
    /// Of any marks.
    pub(crate) fn of_any() -> FirstMark
        ensures place { result.place ≡ 0 }
        ensures alone { result.alone ≡ false }
    {
        FirstMark {
            place: 0,
            alone: false,
        }
    }

    /// A place, one of so many, is marked now.
    pub(crate) fn put_on(&mut self, place: usize, count: usize)
        ensures { (ms ns : List ℕ) → Sets place ms ns → IsFirstMark ms count self.old.place self.old.alone
            → IsFirstMark ns count self.new.place self.new.alone }
    {
        if place < self.place {
            self.alone = count <= self.place;
            self.place = place;
        } else if self.place < place {
            self.alone = false;
        }
    }

    /// A place, one of so many, is marked no longer.
    pub(crate) fn take_off(&mut self, marks: &Marks, place: usize, count: usize)
        requires { (k : ℕ) → k < count → k / 64 < length marks.now }
        ensures { (ms : List ℕ) → Clears place ms marks.now → IsFirstMark ms count self.old.place self.old.alone
            → IsFirstMark marks.now count self.new.place self.new.alone }
    {
        if place == self.place {
            self.place = if self.alone {
                NONE
            } else {
                mark_behind(marks, place, count)
            };
        }
    }

    /// The next place from one on that is marked, or one behind all.
    #[inline(always)]
    pub(crate) fn next(&self, marks: &Marks, start: usize) -> usize
        ensures behind { start ≤ result }
        ensures before { (count : ℕ) → IsFirstMark marks.now count self.now.place self.now.alone
            → (k : ℕ) → start ≤ k → k < result → k < count → bit_of marks.now k ≡ 0 }
        ensures marked { (count : ℕ) → IsFirstMark marks.now count self.now.place self.now.alone
            → ((k : ℕ) → k < count → k / 64 < length marks.now) → result < 18446744073709551615 → result < count
            → bit_of marks.now result ≡ 1 }
    {
        if start <= self.place {
            return self.place;
        }
        if self.alone {
            return NONE;
        }
        marks.next(start)
    }
}

// The next place from one on that is marked, of so many.
#[inline(always)]
fn mark_behind(marks: &Marks, start: usize, count: usize) -> usize
    requires { (k : ℕ) → k < count → k / 64 < length marks.now }
    ensures marked { result < count → bit_of marks.now result ≡ 1 }
    ensures before { (k : ℕ) → start ≤ k → k < result → k < count → bit_of marks.now k ≡ 0 }
{
    let found = marks.next(start);
    if count <= found { NONE } else { found }
}
