//! A queue over a lent slice, which goes around its end. As smoltcp's ring buffer.
ghost use Rattle.std.specs.Prelude.{◌≡◌, ◌+◌, ◌-◌, ◌<◌, ◌≤◌, ◌==◌, ◌⊎◌, List, [], ◌∷◌, ◌++◌, length, take, drop, min};
ghost use Rattle.std.specs.Fn.{FnOnceReturnsAtMut, FnOnceReturnsAt};
ghost use Rattle.net_base.specs.Ring.{ring, ring_of, empty_ring, capacity_of, overwrite, cells_from, queue_piece};
ghost use Rattle.net_base.specs.Ring.{restarted, appended, shortened, emptied, DequeuesWith, EnqueuesWith, LeavesRun};

use std::marker::Model;

/// A queue of items in a lent slice. The places behind the queue are spare: they can be written before they join it.
///
/// The queue begins at a place of the slice and goes around its end, so what is lent in one piece may be shorter than
/// what is there: it ends where the queue or the spare places do, or at the slice's end.
#[derive(Debug, Drop)]
pub struct RingBuffer<'a, T> {
    storage: &'a mut [T],
    read_at: usize,
    length: usize,
}

impl<'a, T> Model for RingBuffer<'a, T> {
    ghost use Rattle.std.specs.Prelude.{◌≤◌, length as length_of};
    ghost use Rattle.net_base.specs.Ring.{Ring, ring_code, ring_of};

    ghost Value = { Ring T };

    ghost coded = { ring_code T.code };

    ghost view = { λ r. ring_of r.read_at r.length r.storage.now };

    ghost invariant = { λ r. (r.read_at ≤ length_of r.storage.now) × (r.length ≤ length_of r.storage.now) };
}

impl<'a, T: Copy> RingBuffer<'a, T> {
    /// An empty queue, all of whose places are spare and hold what stood in `storage`.
    #[tactic(auto, using(crate::proofs::Cells::new_ring))]
    pub fn new(storage: &'a mut [T]) -> Self
        ensures { result ≡ empty_ring storage.old }
    {
        RingBuffer {
            storage,
            read_at: 0,
            length: 0,
        }
    }

    /// The queue of `count` items that begins at the place `read_at` of `storage` and goes around its end: one that was
    /// taken apart by `into_parts`. The other places are spare.
    pub fn from_parts(storage: &'a mut [T], read_at: usize, count: usize) -> Self
        requires begins { read_at ≤ length storage.old }
        requires fits { count ≤ length storage.old }
        ensures { result ≡ ring_of read_at count storage.old }
    {
        RingBuffer {
            storage,
            read_at,
            length: count,
        }
    }

    /// The slice, the place at which the queue begins, and how many items it holds.
    pub fn into_parts(self) -> (&'a mut [T], usize, usize)
        ensures begins { result.1 ≤ length result.0.now }
        ensures fits { result.2 ≤ length result.0.now }
        ensures parts { ring_of result.1 result.2 result.0.now ≡ self.entry }
    {
        let RingBuffer {
            storage,
            read_at,
            length,
        } = self;
        (storage, read_at, length)
    }

    /// How many items the queue can hold.
    pub fn capacity(&self) -> usize
        ensures { result ≡ capacity_of self.now }
    {
        self.storage.len()
    }

    /// How many items the queue holds.
    pub fn len(&self) -> usize
        ensures { result ≡ length self.now.queue }
    {
        self.length
    }

    /// Whether the queue holds no item.
    pub fn is_empty(&self) -> bool
        ensures { result ≡ (length self.now.queue == 0) }
    {
        self.length == 0
    }

    /// Whether no place is spare.
    pub fn is_full(&self) -> bool
        ensures { result ≡ (length self.now.spare == 0) }
    {
        self.length == self.storage.len()
    }

    /// How many places are spare: the capacity less the queue's length.
    pub fn window(&self) -> usize
        ensures { result ≡ length self.now.spare }
    {
        self.storage.len() - self.length
    }

    /// Empties the queue. It starts anew at the slice's first place.
    #[tactic(auto, using(crate::proofs::Cells::cleared))]
    pub fn clear(&mut self)
        ensures { self.new ≡ emptied self.old }
    {
        self.read_at = 0;
        self.length = 0;
    }

    /// Appends the longest beginning of `items` that fits, and answers its length. An empty queue begins anew at the
    /// slice's first place.
    pub fn enqueue_slice(&mut self, items: &[T]) -> usize
        ensures count { result ≡ min (length items.now) (length self.old.spare) }
        ensures after { self.new ≡ appended (restarted self.old) (take result items.now) }
        ensures capacity { capacity_of self.new ≡ capacity_of self.old }
    {
        self.restart_if_empty();
        let count = items.len().min(self.storage.len() - self.length);
        self.write_behind(&items[..count]);
        count
    }

    /// Lends `f` the spare places behind the queue, up to the slice's end. `f` answers how many items it wrote at their
    /// beginning, and these join the queue; its answer is passed on. An empty queue begins anew at the slice's first
    /// place.
    pub fn enqueue_many_with<R, F: FnOnce(&mut [T]) -> (usize, R)>(&mut self, f: F) -> (usize, R)
        requires callable { F.IsAlwaysCallable f }
        requires sized { (s : List T) (r : _) (s' : List T) → FnOnceReturnsAtMut F.FnOnce f s r s' → r.0 ≤ length s }
        ensures call { EnqueuesWith (FnOnceReturnsAtMut F.FnOnce f) self.old result self.new }
        ensures capacity { capacity_of self.new ≡ capacity_of self.old }
    {
        self.restart_if_empty();
        let from = place(self.storage.len(), self.read_at, self.length);
        let count = (self.storage.len() - self.length).min(self.storage.len() - from);
        let (size, outcome) = lend(self.storage, from, count, f);
        self.length += size;
        (size, outcome)
    }

    /// Moves the first items into the beginning of `out`, as many as there are and fit, and answers their count. The
    /// rest of `out` stays as it was.
    pub fn dequeue_slice(&mut self, out: &mut [T]) -> usize
        ensures count { result ≡ min (length out.old) (length self.old.queue) }
        ensures read { out.new ≡ take result self.old.queue ++ drop result out.old }
        ensures after { self.new ≡ shortened self.old result }
    {
        let count = self.read_allocated(0, out);
        self.dequeue_allocated(count);
        count
    }

    /// Lends `f` the queue, up to the slice's end. `f` answers how many of these items to remove, from the first on;
    /// its answer is passed on.
    pub fn dequeue_many_with<R, F: FnOnce(&[T]) -> (usize, R)>(&mut self, f: F) -> (usize, R)
        requires callable { F.IsAlwaysCallable f }
        requires sized { (s : List T) (r : _) → FnOnceReturnsAt F.FnOnce f s r → r.0 ≤ length s }
        ensures { DequeuesWith (FnOnceReturnsAt F.FnOnce f) self.old result self.new }
    {
        let len = self.length;
        let lent = self.get_allocated(0, len);
        let (size, outcome) = show(lent, f);
        self.dequeue_allocated(size);
        (size, outcome)
    }

    /// The queue from `offset` on, up to the slice's end, but at most `count` items.
    #[tactic(auto, using(crate::proofs::Cells::no_piece, crate::proofs::Cells::piece_read))]
    pub fn get_allocated(&self, offset: usize, count: usize) -> &[T]
        ensures value { result.now ≡ take (min count (queue_piece self.now offset)) (drop offset self.now.queue) }
        ensures empty { length result.now ≡ 0 → (count ≡ 0) ⊎ (length self.now.queue ≤ offset) }
    {
        if self.length <= offset {
            return &[];
        }
        let from = place(self.storage.len(), self.read_at, offset);
        let count = count
            .min(self.length - offset)
            .min(self.storage.len() - from);
        &self.storage[from..from + count]
    }

    /// Copies items from `offset` on into the beginning of `out`, as many as there are and fit, and answers their
    /// count. The rest of `out` stays as it was.
    #[tactic(auto, using(crate::proofs::Cells::items_read))]
    pub fn read_allocated(&self, offset: usize, out: &mut [T]) -> usize
        ensures count { result ≡ min (length out.old) (length self.now.queue - offset) }
        ensures read { out.new ≡ take result (drop offset self.now.queue) ++ drop result out.old }
    {
        if self.length <= offset {
            return 0;
        }
        let count = out.len().min(self.length - offset);
        read_cells(self.storage, self.read_at, offset, &mut out[..count]);
        count
    }

    /// Removes the first `count` items, of which there are so many. Their places come behind the spare ones, which keep
    /// their offsets from the queue's end.
    #[tactic(auto, using(crate::proofs::Cells::dequeued))]
    pub fn dequeue_allocated(&mut self, count: usize)
        requires { count ≤ length self.old.queue }
        ensures { self.new ≡ shortened self.old count }
    {
        self.read_at = place(self.storage.len(), self.read_at, count);
        self.length -= count;
    }

    /// Writes `items` to the spare places from `offset` on, counted from the queue's end, as far as these reach, and
    /// answers how many were written. The queue stays as it was.
    #[tactic(auto, using(crate::proofs::Cells::items_written))]
    pub fn write_unallocated(&mut self, offset: usize, items: &[T]) -> usize
        ensures count { result ≡ min (length items.now) (length self.old.spare - offset) }
        ensures after { self.new ≡ ring self.old.queue (overwrite self.old.spare offset (take result items.now))
            self.old.until_end }
    {
        let window = self.storage.len() - self.length;
        if window <= offset {
            return 0;
        }
        let count = items.len().min(window - offset);
        write_cells(
            self.storage,
            self.read_at,
            self.length + offset,
            &items[..count],
        );
        count
    }

    /// The first `count` spare places, of which there are so many, join the queue with what stands in them. The offsets
    /// of the others fall by `count`.
    #[tactic(auto, using(crate::proofs::Cells::enqueued))]
    pub fn enqueue_unallocated(&mut self, count: usize)
        requires { count ≤ length self.old.spare }
        ensures { self.new ≡ ring (self.old.queue ++ take count self.old.spare) (drop count self.old.spare)
            self.old.until_end }
    {
        self.length += count;
    }

    // Appends one item.
    #[inline(always)]
    pub(crate) fn enqueue_one(&mut self, item: T)
        requires { 0 < length self.old.spare }
        ensures { self.new ≡ ring (self.old.queue ++ item ∷ []) (drop 1 self.old.spare) self.old.until_end }
    {
        let at = place(self.storage.len(), self.read_at, self.length);
        self.storage[at] = item;
        self.length += 1;
    }

    // The first item of a queue that is not empty.
    pub(crate) fn front(&self) -> T
        requires { 0 < length self.now.queue }
        ensures { self.now.queue ≡ result ∷ drop 1 self.now.queue }
    {
        self.storage[place(self.storage.len(), self.read_at, 0)]
    }

    // An empty queue starts anew at the slice's first place, so that its items stand in one piece.
    #[tactic(auto, using(crate::proofs::Cells::restarts))]
    fn restart_if_empty(&mut self)
        ensures after { self.new ≡ restarted self.old }
        ensures same { length self.new.spare ≡ length self.old.spare }
    {
        if self.length == 0 {
            self.read_at = 0;
        }
    }

    // Appends `items`, which fit.
    #[tactic(auto, using(crate::proofs::Cells::written_behind, crate::proofs::Cells::spare_fits))]
    fn write_behind(&mut self, items: &[T])
        requires { length items.now ≤ length self.old.spare }
        ensures { self.new ≡ appended self.old items.now }
    {
        write_cells(self.storage, self.read_at, self.length, items);
        self.length += items.len();
    }
}

// The place `offset` places on from `at`, around the end.
pub(crate) fn place(capacity: usize, at: usize, offset: usize) -> usize
    requires at_within { at ≤ capacity }
    requires offset_within { offset ≤ capacity }
    ensures within { result ≤ capacity }
    ensures low { at + offset < capacity → result ≡ at + offset }
    ensures high { capacity ≤ at + offset → result + capacity ≡ at + offset }
{
    let run = capacity - at;
    if offset < run {
        at + offset
    } else {
        offset - run
    }
}

// Writes `items` over the places from `offset` on, counted from `at`.
fn write_cells<T: Copy>(places: &mut [T], at: usize, offset: usize, items: &[T])
    requires at_within { at ≤ length places.old }
    requires fits { offset + length items.now ≤ length places.old }
    ensures { cells_from at places.new ≡ overwrite (cells_from at places.old) offset items.now }
{
    let from = place(places.len(), at, offset);
    let run = places.len() - from;
    if items.len() <= run {
        places[from..from + items.len()].copy_from_slice(items);
    } else {
        let (front, back) = items.split_at(run);
        places[from..].copy_from_slice(front);
        places[..back.len()].copy_from_slice(back);
    }
}

// Copies the places from `offset` on, counted from `at`, into `out`.
fn read_cells<T: Copy>(places: &[T], at: usize, offset: usize, out: &mut [T])
    requires at_within { at ≤ length places.now }
    requires fits { offset + length out.old ≤ length places.now }
    ensures { out.new ≡ take (length out.old) (drop offset (cells_from at places.now)) }
{
    let from = place(places.len(), at, offset);
    let run = places.len() - from;
    let count = out.len();
    if count <= run {
        out.copy_from_slice(&places[from..from + count]);
    } else {
        let (front, back) = out.split_at_mut(run);
        front.copy_from_slice(&places[from..]);
        back.copy_from_slice(&places[..count - run]);
    }
}

// Lends `count` places from `from` on.
pub(crate) fn lend<T, R, F: FnOnce(&mut [T]) -> (usize, R)>(
    places: &mut [T],
    from: usize,
    count: usize,
    f: F,
) -> (usize, R)
    requires fits { from + count ≤ length places.old }
    requires callable { F.IsAlwaysCallable f }
    requires sized { (s : List T) (r : _) (s' : List T) → FnOnceReturnsAtMut F.FnOnce f s r s' → r.0 ≤ length s }
    ensures size { result.0 ≤ count }
    ensures left { LeavesRun (FnOnceReturnsAtMut F.FnOnce f) places.old from count result places.new }
{
    f(&mut places[from..from + count])
}

// Lends all of `places` for reading.
fn show<T, R, F: FnOnce(&[T]) -> (usize, R)>(places: &[T], f: F) -> (usize, R)
    requires callable { F.IsAlwaysCallable f }
    requires sized { (s : List T) (r : _) → FnOnceReturnsAt F.FnOnce f s r → r.0 ≤ length s }
    ensures size { result.0 ≤ length places.now }
    ensures met { FnOnceReturnsAt F.FnOnce f places.now result }
{
    f(places)
}
