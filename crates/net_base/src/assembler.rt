//! A set of offsets, as at most four ranges. As smoltcp's assembler.
ghost use Rattle.std.specs.Prelude.{◌≡◌, ℕ, ◌+◌, ◌<◌, ◌≤◌, ◌==◌, ◌&&◌, ◌||◌, not, nat_lt, List, [], length, take};
ghost use Rattle.std.specs.Prelude.{drop, false, ◌^◌, if◌then◌else◌};
ghost use Rattle.std.specs.Iterator.{YieldsFirst, item_count};
ghost use Rattle.net_base.specs.declared.assembler.Range.{Range};
ghost use Rattle.net_base.specs.Ranges.{insert_range, lowered, edges, run_after, ranges_after, is_refused, is_within};
ghost use Rattle.net_base.specs.Ranges.{is_held, Adds, Apart, IsTidy};
ghost use Rattle.net_base.specs.Held.{IsKept, Joins};
ghost use Rattle.net_base.specs.Ring.{overwrite};

use std::marker::Model;

// How many separate ranges there may be.
const MOST: usize = 4;

/// The offsets from `start` on that are below `end`.
#[derive(Debug, Clone, Copy, PartialEq, Eq)]
pub struct Range {
    /// The first offset.
    pub start: usize,
    /// The offset behind the last.
    pub end: usize,
}

const NONE: Range = Range { start: 0, end: 0 };

/// A set of offsets counted from a front, as at most four separate ranges: which bytes of a stream came ahead of those
/// that are still missing.
///
/// Offset 0 is never in it: a run of offsets from 0 on is taken out at once, and the front moves to its end.
#[derive(Debug, Drop)]
pub struct Assembler {
    ranges: [Range; 4],
    count: usize,
}

/// The addition was refused, since it would have made a fifth range.
#[derive(Debug, Clone, Copy, PartialEq, Eq)]
pub struct TooManyHoles;

impl Model for Assembler {
    ghost use Rattle.std.specs.Prelude.{◌≡◌, List, ◌≤◌, length, take};
    ghost use Rattle.net_base.specs.declared.assembler.Range.{Range};
    ghost use Rattle.net_base.specs.Ranges.{Apart};

    ghost Value = { List Range };

    ghost view = { λ a. take a.count a.ranges };

    ghost invariant = { λ a. (length a.ranges ≡ 4) × (a.count ≤ 4) × Apart 1 (take a.count a.ranges) };
}

impl Assembler {
    /// The empty set.
    pub fn new() -> Self
        ensures { result ≡ [] }
    {
        Assembler {
            ranges: [NONE; 4],
            count: 0,
        }
    }

    /// Whether no offset is in the set.
    pub fn is_empty(&self) -> bool
        ensures { result ≡ (length self.now == 0) }
    {
        self.count == 0
    }

    /// The ranges in order, each as its first offset and the offset behind its last. They are apart by at least one
    /// offset, and the first begins at offset 1 or later.
    pub fn iter_data(&self) -> AssemblerIter<'_>
        ensures ranges { result ≡ edges self.now }
        ensures tidy { IsTidy self.now }
    {
        AssemblerIter {
            ranges: &self.ranges[..self.count],
        }
    }

    /// Adds the `size` offsets from `offset` on. Then the run of offsets from 0 on is taken out and its length
    /// answered, and the other offsets fall by this length. The length is 0 where offset 0 was not added.
    ///
    /// # Errors
    /// Refused exactly where `offset` is not 0 and the addition would make a fifth range; then nothing changes.
    #[tactic(auto, using(crate::proofs::Sets::additions))]
    pub fn add_then_remove_front(
        &mut self,
        offset: usize,
        size: usize,
    ) -> Result<usize, TooManyHoles>
        requires some { 0 < size }
        requires small { offset + size ≤ 2 ^ 30 }
        ensures answer { result ≡ (if is_refused offset size self.old then Err (record {})
            else Ok (run_after offset size self.old)) }
        ensures after { self.new ≡ (if is_refused offset size self.old then self.old
            else ranges_after offset size self.old) }
    {
        let joined = with_range(&self.ranges[..self.count], offset, offset + size);
        if offset == 0 {
            let run = joined.ranges[0].end;
            self.ranges = lowered(&joined.ranges[1..joined.count], run);
            self.count = joined.count - 1;
            return Ok(run);
        }
        if joined.count > MOST {
            return Err(TooManyHoles);
        }
        self.ranges.copy_from_slice(&joined.ranges[..MOST]);
        self.count = joined.count;
        Ok(0)
    }
}

/// The ranges that an assembler holds, from the first that is left on.
#[derive(Debug, Drop)]
pub struct AssemblerIter<'a> {
    ranges: &'a [Range],
}

impl<'a> Model for AssemblerIter<'a> {
    ghost use Rattle.std.specs.Prelude.{ℕ, List};
    ghost use Rattle.net_base.specs.Ranges.{edges};

    ghost Value = { List (ℕ × ℕ) };

    ghost view = { λ i. edges i.ranges.now };
}

impl<'a> Iterator for AssemblerIter<'a> {
    type Item = (usize, usize);

    ghost next_gives = { YieldsFirst (λ rest. rest) };

    ghost remaining = { item_count (λ rest. rest) };

    fn next(&mut self) -> Option<(usize, usize)> {
        let (first, others) = self.ranges.split_first()?;
        self.ranges = others;
        Some((first.start, first.end))
    }
}

/// What an addition that is not refused does to the set: exactly the offsets that were in it or are added are held
/// after it, counted from the end of the run; the run reaches from 0 to the first offset that is not held; the ranges
/// after it are in order, apart, at most four, and none begins at 0.
pub fn adds()
    ensures { (o n : ℕ) (rs : List Range) → IsTidy rs → 0 < n → is_refused o n rs ≡ false
        → Adds o n rs (run_after o n rs) (ranges_after o n rs) }
{}

/// When an addition is refused: exactly where its offset is not 0, and the offsets that are in the set or added make
/// more than four separate ranges.
pub fn refuses_a_fifth_range()
    ensures { (o n : ℕ) (rs qs : List Range) → IsTidy rs → 0 < n → Apart 0 qs
        → ((k : ℕ) → is_held qs k ≡ (is_within o (o + n) k || is_held rs k)) → is_refused o n rs
        ≡ (not (o == 0) && nat_lt 4 (length qs)) }
{}

/// What the bytes written at an offset do to the bytes held.
pub fn joins()
    ensures { (rs : List Range) (spare ys : List ℕ) (o : ℕ) → IsKept rs (length spare) → 0 < length ys
        → o + length ys ≤ length spare → is_refused o (length ys) rs ≡ false
        → Joins rs spare o ys (run_after o (length ys) rs) (ranges_after o (length ys) rs) (drop
        (run_after o (length ys) rs) (overwrite spare o ys)) }
{}

// The ranges counted from the offset `by`.
fn lowered(ranges: &[Range], by: usize) -> [Range; 4]
    requires { length ranges.now ≤ 4 }
    ensures long { length result ≡ 4 }
    ensures ranges { take (length ranges.now) result ≡ lowered by ranges.now }
{
    let mut all = [NONE; 4];
    let mut count = 0;
    for range in ranges {
        all[count] = Range {
            start: range.start.saturating_sub(by),
            end: range.end.saturating_sub(by),
        };
        count += 1;
    }
    all
}

/// Ranges that a new one was joined with.
#[derive(Debug, Drop)]
pub struct Joined {
    /// The ranges in order; those past `count` say nothing.
    pub ranges: [Range; 5],
    /// How many there are.
    pub count: usize,
}

/// The at most four `ranges` with the offsets from `start` to `end` added, in order and apart: the first `count` of the
/// answer's ranges.
pub fn with_range(ranges: &[Range], start: usize, end: usize) -> Joined
    requires { length ranges.now ≤ 4 }
    ensures count { result.count ≤ 5 }
    ensures some { 0 < result.count }
    ensures long { length result.ranges ≡ 5 }
    ensures ranges { take result.count result.ranges ≡ insert_range start end ranges.now }
{
    let mut all = [NONE; 5];
    let mut count = 0;
    let mut low = start;
    let mut high = end;
    let mut placed = false;
    for range in ranges {
        if placed || range.end < low {
            all[count] = *range;
            count += 1;
            continue;
        }
        if range.start <= high {
            low = low.min(range.start);
            high = high.max(range.end);
            continue;
        }
        all[count] = Range {
            start: low,
            end: high,
        };
        all[count + 1] = *range;
        count += 2;
        placed = true;
    }
    if !placed {
        all[count] = Range {
            start: low,
            end: high,
        };
        count += 1;
    }
    Joined { ranges: all, count }
}
