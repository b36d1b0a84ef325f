//! Deadlines of slots none of which is due at once: levels of bounds.
ghost use Rattle.std.specs.Prelude.{ℕ, ◌≡◌, ◌≤◌, ◌<◌, ◌/◌, ◌<ℤ◌, ◌≤ℤ◌, IfOk, length, slice_set, true};
ghost use Rattle.std.specs.List.{All};
ghost use Rattle.host_bounds.specs.Bounding.{Covers, FindsReached, IsBelowAll, IsGreatest, IsLayered, at_once};
ghost use Rattle.host_bounds.specs.Bounding.{bound_at, first_top};

use crate::levels::{FAN_OUT, first_between, least_between, least_bounds, mend};
use std::alloc::{AllocError, Global};
use std::marker::Model;

/// For each of many places a moment before which it need not be asked.
#[derive(Drop)]
pub(crate) struct Times {
    places: Vec<i64>,
    // of each 16 places, none of which has a lower one
    blocks: Vec<i64>,
    // of each 16 blocks
    groups: Vec<i64>,
    // of all groups
    top: i64,
}

impl Model for Times {
    ghost use Rattle.std.specs.Prelude.{ℤ, List};
    ghost use Rattle.host_bounds.specs.Bounding.{IsTopped};

    ghost Value = { List ℤ };

    ghost view = { λ b. b.places.items };

    ghost invariant = { λ b. IsTopped b.top b.places.items b.blocks.items b.groups.items };
}

impl Times {
    /// Times of so many places, each of which is to be asked at once. They take 8.5 bytes a place.
    pub(crate) fn new(alloc: Global, count: usize) -> Result<Times, AllocError>
        ensures len { IfOk result (λ b. length b ≡ count) }
        ensures least { IfOk result (λ b. All (λ m. m ≡ at_once) b) }
    {
        let blocks = count.div_ceil(FAN_OUT);
        Ok(Times {
            places: least_bounds(alloc, count)?,
            blocks: least_bounds(alloc, blocks)?,
            groups: least_bounds(alloc, blocks.div_ceil(FAN_OUT))?,
            top: first_top(count),
        })
    }

    /// How many places there are.
    pub(crate) fn len(&self) -> usize
        ensures { result ≡ length self.now }
    {
        self.places.len()
    }

    /// Sets the bound of a place; of none where it is not there.
    pub(crate) fn set(&mut self, place: usize, bound: i64)
        ensures { self.new ≡ slice_set self.old place bound }
    {
        if place < self.places.len() && self.get(place) != bound {
            self.set_there(place, bound);
        }
    }

    fn set_there(&mut self, place: usize, bound: i64)
        requires { place < length self.old }
        ensures { self.new ≡ slice_set self.old place bound }
    {
        let was = self.places[place];
        self.places[place] = bound;
        let was = mend(&self.places, &mut self.blocks, place, was);
        // mostly no bound above it changes
        if self.blocks[place / FAN_OUT] == was {
            return;
        }
        let was = mend(&self.blocks, &mut self.groups, place / FAN_OUT, was);
        if self.groups[place / FAN_OUT / FAN_OUT] != was {
            self.top = least_between(&self.groups, 0, self.groups.len());
        }
    }

    /// The bound of a place; the least where it is not there.
    pub(crate) fn get(&self, place: usize) -> i64
        ensures { result ≡ bound_at self.now place }
    {
        match self.places.get(place) {
            Some(bound) => *bound,
            None => i64::MIN,
        }
    }

    // The next place whose block may have one that wants to be asked by now: this one, or one before which none does.
    fn skip(&self, place: usize, now: i64) -> usize
        requires { place < length self.now }
        ensures behind { place ≤ result }
        ensures before { (k : ℕ) → place ≤ k → k < result → k < length self.now → now <ℤ bound_at self.now k }
    {
        let block = place / FAN_OUT;
        let group = block / FAN_OUT;
        if now < self.groups[group] {
            return (group + 1) * FAN_OUT * FAN_OUT;
        }
        if now < self.blocks[block] {
            let stop = self.blocks.len().min((group + 1) * FAN_OUT);
            return next_block(&self.places, &self.blocks, place, stop, now);
        }
        place
    }

    /// The first place that may want to be asked by now, from one on and before another.
    pub(crate) fn next(&self, start: usize, end: usize, now: i64) -> Option<usize>
        requires { end ≤ length self.now }
        ensures { FindsReached self.now start end now result }
    {
        let mut place = start;
        while place < end {
            let next = self.skip(place, now);
            if next == place {
                let stop = end.min((place / FAN_OUT + 1) * FAN_OUT);
                if let Some(found) = first_between(&self.places, place, stop, now) {
                    return Some(found);
                }
                place = stop;
            } else {
                place = next;
            }
        }
        None
    }

    /// The first moment at which a place wants to be asked; the latest where there is none.
    pub(crate) fn least(&self) -> i64
        ensures below { IsBelowAll result self.now }
        ensures greatest { IsGreatest result self.now }
    {
        self.top
    }
}

// The first of so many moments, all the least.
fn first_top(count: usize) -> i64
    ensures { result ≡ first_top count }
{
    if count == 0 { i64::MAX } else { i64::MIN }
}

// Where the next block of this place's group begins whose bound is reached by now, or the next group.
#[tactic(auto, using(crate::proofs::Layers::none_between))]
fn next_block(places: &[i64], blocks: &[i64], place: usize, stop: usize, now: i64) -> usize
    requires covers { Covers places.now blocks.now }
    requires within { stop ≤ length blocks.now }
    requires there { place / 16 < stop }
    requires after { now <ℤ bound_at blocks.now (place / 16) }
    ensures behind { place ≤ result }
    ensures before { (k : ℕ) → place ≤ k → k < result → k < length places.now → now <ℤ bound_at places.now k }
{
    let next = match first_between(blocks, place / FAN_OUT + 1, stop, now) {
        Some(block) => block,
        None => stop,
    };
    next.saturating_mul(FAN_OUT)
}
