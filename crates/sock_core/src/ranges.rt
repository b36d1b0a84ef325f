//! Which bytes of a stream are held ahead of those that are still missing: at most four ranges in a fixed table.
ghost use Rattle.std.specs.Prelude.{◌≡◌, ℕ, ◌+◌, ◌<◌, ◌≤◌, ◌==◌, ◌^◌, List, [], length, take, drop, slice_get};
ghost use Rattle.net_base.specs.Ranges.{edges, Apart, IsTidy, run_after};
ghost use Rattle.sock_core.specs.HeldRanges.{HeldRanges, offset_of, place_at, offsets, AllNear, JoinsRun};
ghost use Rattle.sock_core.specs.HeldRanges.{refused_or, run_removed, added, Agree};

use net_base::assembler::{Range, with_range};
use std::marker::Model;

// How many separate ranges there may be.
const MOST: usize = 4;

// A range, as the place of its first byte and the place behind its last, modulo 2^32.
#[derive(Debug, Clone, Copy, PartialEq, Eq)]
struct Places {
    start: u32,
    end: u32,
}

const NONE: Places = Places { start: 0, end: 0 };

/// The ranges of bytes that are held behind the next byte to be taken, the front: at most four, in order, apart by at
/// least one byte, the first at least one byte behind the front.
///
/// Places count bytes modulo 2^32. What is held reaches at most 2^30 bytes behind the front.
#[derive(Debug, Drop)]
pub struct Ranges {
    places: [Places; 4],
    // the ranges stand in the table from `first` on, before `end`
    first: usize,
    end: usize,
    front: u32,
}

/// The addition was refused, since it would have made a fifth range.
#[derive(Debug, Clone, Copy, PartialEq, Eq)]
pub struct TooManyRanges;

impl Model for Ranges {
    ghost use Rattle.sock_core.specs.HeldRanges.{HeldRanges, table_offsets, IsTable};

    ghost Value = { HeldRanges };

    ghost view = { λ t. record { front = t.front; ranges = table_offsets t.front t.first t.end t.places } };

    ghost invariant = { λ t. IsTable t.front t.first t.end t.places };
}

impl Ranges {
    /// Nothing is held, and the front is place 0.
    pub fn new() -> Ranges
        ensures { result ≡ record { front = 0; ranges = [] } }
    {
        Ranges::at(0)
    }

    /// Nothing is held, and the front is the place given.
    pub fn at(front: u32) -> Ranges
        ensures { result ≡ record { front = front; ranges = [] } }
    {
        Ranges {
            places: [NONE; 4],
            first: 0,
            end: 0,
            front,
        }
    }

    /// Whether nothing is held.
    pub fn is_empty(&self) -> bool
        ensures { result ≡ (length self.now.ranges == 0) }
    {
        self.first == self.end
    }

    /// The place of the next byte to be taken: so many bytes, modulo 2^32, came before it.
    pub fn front(&self) -> u32
        ensures { result ≡ self.now.front }
    {
        self.front
    }

    /// How many ranges are held, at most 4. They are in order, apart by at least one byte, and the first begins at
    /// least one byte behind the front.
    pub fn len(&self) -> usize
        ensures count { result ≡ length self.now.ranges }
        ensures tidy { IsTidy self.now.ranges }
    {
        self.end - self.first
    }

    /// The range that stands at `index` in their order, counted from 0: its first offset from the front, and the offset
    /// behind its last.
    pub fn get(&self, index: usize) -> Option<(usize, usize)>
        ensures { result ≡ slice_get (edges self.now.ranges) index }
    {
        if self.end - self.first <= index {
            return None;
        }
        let held = self.places[self.first + index];
        Some((offset(self.front, held.start), offset(self.front, held.end)))
    }

    /// Adds the `len` offsets from `offset` on, counted from the front. Then the run of offsets from 0 on is taken out:
    /// the front moves behind it, and its length is answered. The length is 0 where offset 0 was not added.
    ///
    /// # Errors
    /// Refused exactly where `offset` is not 0 and the addition would make a fifth range; then nothing changes.
    pub fn add_then_remove_front(
        &mut self,
        offset: usize,
        len: usize,
    ) -> Result<usize, TooManyRanges>
        requires some { 0 < len }
        requires small { offset + len ≤ 2 ^ 30 }
        ensures answer { result ≡ refused_or offset len self.old.ranges (run_after offset len self.old.ranges) }
        ensures after { self.new ≡ added offset len self.old }
    {
        if offset == 0 {
            return Ok(self.take_front(len));
        }
        self.add_behind(offset, len)
    }

    // The first `len` offsets come: the run from the front leaves with the ranges that it reaches. The others stay as
    // they are kept.
    fn take_front(&mut self, len: usize) -> usize
        requires some { 0 < len }
        requires small { len ≤ 2 ^ 30 }
        ensures answer { result ≡ run_after 0 len self.old.ranges }
        ensures after { self.new ≡ run_removed 0 len self.old }
    {
        let (reached, run) = run_from(&self.places[self.first..self.end], self.front, len);
        self.first += reached;
        self.front = self.front.wrapping_add(run as u32);
        run
    }

    // Adds offsets behind the front.
    fn add_behind(&mut self, offset: usize, len: usize) -> Result<usize, TooManyRanges>
        requires behind { 0 < offset }
        requires some { 0 < len }
        requires small { offset + len ≤ 2 ^ 30 }
        ensures answer { result ≡ refused_or offset len self.old.ranges 0 }
        ensures after { self.new ≡ added offset len self.old }
    {
        let held = &self.places[self.first..self.end];
        let ranges = as_offsets(held, self.front);
        let joined = with_range(&ranges[..held.len()], offset, offset + len);
        if joined.count > MOST {
            return Err(TooManyRanges);
        }
        self.places = as_places(&joined.ranges[..joined.count], self.front);
        self.first = 0;
        self.end = joined.count;
        Ok(0)
    }
}

/// The table and the assembler agree: on every list of additions they answer the same and then hold the same offsets.
pub fn agrees_with_assembler()
    ensures { (calls : List (ℕ × ℕ)) (h : HeldRanges) → Agree calls h }
{}

// How far a place stands behind the front.
fn offset(front: u32, place: u32) -> usize
    ensures value { result ≡ offset_of front place }
    ensures small { result < 2 ^ 32 }
{
    place.wrapping_sub(front) as usize
}

// The place so far behind the front.
fn place(front: u32, offset: usize) -> u32
    requires { offset < 2 ^ 32 }
    ensures { result ≡ place_at front offset }
{
    front.wrapping_add(offset as u32)
}

// How many of the ranges a run of `len` offsets from the front reaches, one after the other, and how long it then is.
fn run_from(held: &[Places], front: u32, len: usize) -> (usize, usize)
    ensures within { result.0 ≤ length held.now }
    ensures joined { JoinsRun len (offsets front held.now) result.1 (offsets front (drop result.0 held.now)) }
{
    let mut run = len;
    for (index, range) in held.iter().enumerate() {
        if run < offset(front, range.start) {
            return (index, run);
        }
        run = run.max(offset(front, range.end));
    }
    (held.len(), run)
}

// The ranges as offsets from the front.
fn as_offsets(held: &[Places], front: u32) -> [Range; 4]
    requires { length held.now ≤ 4 }
    ensures long { length result ≡ 4 }
    ensures ranges { take (length held.now) result ≡ offsets front held.now }
{
    let mut all = [Range { start: 0, end: 0 }; 4];
    for (index, range) in held.iter().enumerate() {
        all[index] = Range {
            start: offset(front, range.start),
            end: offset(front, range.end),
        };
    }
    all
}

// The ranges as places, where they end at most 2^30 behind the front.
fn as_places(ranges: &[Range], front: u32) -> [Places; 4]
    requires few { length ranges.now ≤ 4 }
    requires apart { Apart 1 ranges.now }
    requires near { AllNear ranges.now }
    ensures long { length result ≡ 4 }
    ensures places { offsets front (take (length ranges.now) result) ≡ ranges.now }
{
    let mut all = [NONE; 4];
    for (index, range) in ranges.iter().enumerate() {
        all[index] = Places {
            start: place(front, range.start),
            end: place(front, range.end),
        };
    }
    all
}
