//! Bounds of 16 places each, above those of the places.
ghost use Rattle.std.specs.Prelude.{ℤ, ◌≡◌, ◌≤◌, ◌≤ℤ◌, ◌<◌, ◌/◌, IfOk, length};
ghost use Rattle.std.specs.List.{All};
ghost use Rattle.host_bounds.specs.Bounding.{Covers, CoversBut, FindsReached, IsBelow, IsBelowIn, IsGreatestOf};
ghost use Rattle.host_bounds.specs.Bounding.{KeepsBut};
ghost use Rattle.host_bounds.specs.Bounding.{Nears, NearsBut, Reaches, at_once, bound_at, latest};

use std::alloc::{AllocError, Global};

/// How many places have one bound above them.
pub const FAN_OUT: usize = 16;

/// So many bounds, all the least.
pub(crate) fn least_bounds(alloc: Global, count: usize) -> Result<Vec<i64>, AllocError>
    ensures len { IfOk result (λ v. length v.items ≡ count) }
    ensures least { IfOk result (λ v. All (λ b. b ≡ at_once) v.items) }
{
    let mut bounds = Vec::with_capacity(alloc, count)?;
    for _ in 0..count {
        bounds.push(i64::MIN)?;
    }
    Ok(bounds)
}

/// The least of these bounds.
pub(crate) fn least_between(bounds: &[i64], start: usize, end: usize) -> i64
    requires order { start ≤ end }
    requires within { end ≤ length bounds.now }
    ensures below { IsBelow result bounds.now start end }
    ensures greatest { IsGreatestOf result bounds.now start end }
{
    let mut least = i64::MAX;
    for bound in &bounds[start..end] {
        if *bound < least {
            least = *bound;
        }
    }
    least
}

/// The first of these bounds that is reached by now.
pub(crate) fn first_between(bounds: &[i64], start: usize, end: usize, now: i64) -> Option<usize>
    requires order { start ≤ end }
    requires within { end ≤ length bounds.now }
    ensures { FindsReached bounds.now start end now result }
{
    for (i, bound) in bounds[start..end].iter().enumerate() {
        if *bound <= now {
            return Some(start + i);
        }
    }
    None
}

// The least bound of the 16 places that this one is among.
fn least_beside(bounds: &[i64], place: usize) -> i64
    requires { place < length bounds.now }
    ensures below { IsBelowIn result bounds.now (place / 16) }
    ensures greatest { (n : ℤ) → n ≤ℤ latest → IsBelowIn n bounds.now (place / 16) → n ≤ℤ result }
{
    let start = place - place % FAN_OUT;
    let end = bounds.len().min(start + FAN_OUT);
    least_between(bounds, start, end)
}

/// The bound of a place was changed: the one above it is made to bound it again. What that was.
pub(crate) fn mend(low: &[i64], high: &mut Vec<i64>, place: usize, was: i64) -> i64
    requires within { place < length low.now }
    requires reaches { Reaches low.now high.old.items }
    requires others { CoversBut place low.now high.old.items }
    requires was { bound_at high.old.items (place / 16) ≤ℤ was }
    requires near { NearsBut place was low.now high.old.items }
    ensures result { result ≡ bound_at high.old.items (place / 16) }
    ensures covers { Covers low.now high.new.items }
    ensures near { Nears low.now high.new.items }
    ensures kept { KeepsBut (place / 16) high.old.items high.new.items }
{
    let above = place / FAN_OUT;
    let old = high[above];
    if low[place] < old {
        high[above] = low[place];
    } else if was == old {
        high[above] = least_beside(low, place);
    }
    old
}
