//! Lower bounds of the moments at which places want to be asked.
ghost use Rattle.std.specs.Prelude.{ℕ, ◌≡◌, ◌≤◌, ◌<◌, ◌<ℤ◌, IfOk, length, slice_set, true};
ghost use Rattle.std.specs.List.{All};
ghost use Rattle.host_bounds.specs.Bounding.{FindsReached, IsBelowAll, IsGreatest, at_once, bound_at};

use crate::first_mark::FirstMark;
use crate::marks::Marks;
use crate::times::Times;
use std::alloc::{AllocError, Global};
use std::marker::Model;

/// For each of many places a moment, in microseconds, before which it need not be asked: `i64::MIN` where it is to be
/// asked at once, `i64::MAX` where never.
#[derive(Drop)]
pub struct Bounds {
    // each place that is to be asked at once is marked
    marks: Marks,
    // of each place what its bound was last, when it was not the least
    times: Times,
    first: FirstMark,
}

impl Model for Bounds {
    ghost use Rattle.std.specs.Prelude.{ℤ, List};
    ghost use Rattle.host_bounds.specs.Marking.{AreKept, merged};

    ghost Value = { List ℤ };

    ghost view = { λ b. merged 0 b.marks b.times };

    ghost invariant = { λ b. AreKept b.marks b.times b.first.place b.first.alone };
}

impl Bounds {
    /// Bounds of so many places, each of which is to be asked at once. They take 8.7 bytes a place.
    ///
    /// # Errors
    /// An error where there is no memory for them.
    pub fn new(alloc: Global, count: usize) -> Result<Bounds, AllocError>
        ensures len { IfOk result (λ b. length b ≡ count) }
        ensures least { IfOk result (λ b. All (λ m. m ≡ at_once) b) }
    {
        Ok(Bounds {
            marks: Marks::new(alloc, count)?,
            times: Times::new(alloc, count)?,
            first: FirstMark::of_any(),
        })
    }

    /// How many places there are.
    pub fn len(&self) -> usize
        ensures { result ≡ length self.now }
    {
        self.times.len()
    }

    /// Sets the bound of a place; of none where it is not there.
    #[inline(always)]
    pub fn set(&mut self, place: usize, bound: i64)
        ensures { self.new ≡ slice_set self.old place bound }
    {
        if bound == i64::MIN {
            self.put_at_once(place);
        } else if place < self.len() {
            self.time(place, bound);
        }
    }

    /// Sets the bound of a place to the least, which says that it is to be asked at once; of none where it is not
    /// there.
    pub fn put_at_once(&mut self, place: usize)
        ensures { self.new ≡ slice_set self.old place at_once }
    {
        if place < self.len() && !self.marks.is_on(place) {
            self.mark(place);
        }
    }

    fn mark(&mut self, place: usize)
        requires { place < length self.old }
        ensures { self.new ≡ slice_set self.old place at_once }
    {
        self.marks.put_on(place);
        self.first.put_on(place, self.times.len());
    }

    fn time(&mut self, place: usize, bound: i64)
        requires there { place < length self.old }
        requires later { at_once <ℤ bound }
        ensures { self.new ≡ slice_set self.old place bound }
    {
        let marked = self.marks.is_on(place);
        if marked {
            self.marks.take_off(place);
            self.first.take_off(&self.marks, place, self.times.len());
        }
        self.times.set(place, bound);
    }

    /// Each place is to be asked at once.
    pub fn reset(&mut self)
        ensures len { length self.new ≡ length self.old }
        ensures least { All (λ m. m ≡ at_once) self.new }
    {
        self.marks.reset();
        self.first = FirstMark::of_any();
    }

    /// The bound of a place; the least where it is not there.
    pub fn get(&self, place: usize) -> i64
        ensures { result ≡ bound_at self.now place }
    {
        if self.marks.is_on(place) {
            return i64::MIN;
        }
        self.times.get(place)
    }

    /// Whether no place wants to be asked by now, as the highest bounds tell; they may not tell it.
    pub fn are_after(&self, now: i64) -> bool
        ensures { result ≡ true → (k : ℕ) → k < length self.now → now <ℤ bound_at self.now k }
    {
        now < self.least()
    }

    // Before this place, or the end, no place from one on wants to be asked by now.
    fn first(&self, start: usize, end: usize, now: i64) -> usize
        requires { end ≤ length self.now }
        ensures within { result ≤ end }
        ensures before { (k : ℕ) → start ≤ k → k < result → now <ℤ bound_at self.now k }
    {
        let near = self.first.next(&self.marks, start).min(end);
        match self.times.next(start, near, now) {
            Some(place) => place,
            None => near,
        }
    }

    /// The first place that may want to be asked by now, from one on and before another.
    pub fn next(&self, start: usize, end: usize, now: i64) -> Option<usize>
        requires { end ≤ length self.now }
        ensures { FindsReached self.now start end now result }
    {
        if end <= start {
            return None;
        }
        if now < self.times.least() {
            let near = self.first.next(&self.marks, start);
            if end <= near {
                return None;
            }
            return Some(near);
        }
        self.search(start, end, now)
    }

    // What `next` returns where a time may be reached: apart from it, so that it saves few registers.
    #[inline(never)]
    fn search(&self, start: usize, end: usize, now: i64) -> Option<usize>
        requires { end ≤ length self.now }
        ensures { FindsReached self.now start end now result }
    {
        let first = self.first(start, end, now).max(start);
        if end <= first {
            return None;
        }
        self.first_between(first, end, now)
    }

    fn first_between(&self, start: usize, end: usize, now: i64) -> Option<usize>
        requires { end ≤ length self.now }
        ensures { FindsReached self.now start end now result }
    {
        for place in start..end {
            if self.get(place) <= now {
                return Some(place);
            }
        }
        None
    }

    /// The first moment at which a place wants to be asked: the latest where there is no place, and the least where one
    /// may want to be asked at once.
    pub fn least(&self) -> i64
        ensures below { IsBelowAll result self.now }
        ensures greatest { at_once <ℤ result → IsGreatest result self.now }
    {
        if self.first.place < self.len() {
            return i64::MIN;
        }
        self.times.least()
    }
}
