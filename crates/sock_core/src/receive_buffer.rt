//! The receive buffer of a stream socket: the bytes that came in order, and those that came ahead of a gap.
ghost use Rattle.std.specs.Prelude.{◌≡◌, ℕ, ◌+◌, ◌≤◌, ◌<◌, ◌^◌, ◌++◌, ◌==◌, not, List, Option, None};
ghost use Rattle.std.specs.Prelude.{length, take, drop, min, is_some, slice_get, true};
ghost use Rattle.std.specs.Fn.{FnOnceReturnsAt};
ghost use Rattle.net_base.specs.Ranges.{edges, is_held, Apart};
ghost use Rattle.net_base.specs.Ring.{capacity_of};
ghost use Rattle.sock_core.specs.Received.{Received, receiving, room_of, byte_at, holds_nothing, ranges_of};
ghost use Rattle.sock_core.specs.Received.{makes_fifth_range, taken_in, handed_out, cleared, range_around};
ghost use Rattle.sock_core.specs.Received.{IsLetIn, TakesIn, JoinsAtOnce, DequeuesBytesWith, IsWireRange};
ghost use Rattle.sock_core.specs.Received.{ReachesAsOffsets};
ghost use Rattle.sock_core.specs.Received.{first_piece};

use crate::ranges::Ranges;
use net_base::ring_buffer::RingBuffer;
use std::marker::Model;

/// The bytes of a stream that came and were not read: those that came in order are the queue, and those that came ahead
/// of a gap are held for the window's places behind it.
///
/// At most four ranges are held, apart by at least one place, and never the place behind the queue.
#[derive(Debug, Drop)]
pub struct ReceiveBuffer<'a> {
    ring: RingBuffer<'a, u8>,
    ranges: Ranges,
}

impl<'a> Model for ReceiveBuffer<'a> {
    ghost use Rattle.std.specs.Prelude.{◌≤◌, ◌^◌, length};
    ghost use Rattle.net_base.specs.Held.{IsKept};
    ghost use Rattle.net_base.specs.Ring.{capacity_of};
    ghost use Rattle.sock_core.specs.Received.{Received, received, shown};

    ghost Value = { Received };

    ghost view = { λ b. received b.ring.queue (shown b.ranges.ranges b.ring.spare) b.ring.until_end };

    ghost invariant = { λ b. (capacity_of b.ring ≤ 2 ^ 30) × IsKept b.ranges.ranges (length b.ring.spare) };
}

/// Bytes that come and are not refused: the queue grows by the run from its end on, and what stays held is counted
/// from its new end.
pub fn takes_in()
    ensures { (b : Received) (o : ℕ) (ys : List ℕ) → IsLetIn b o ys → TakesIn b (taken_in b o ys) o ys }
{}

/// Bytes that come in order join the queue at once, and behind them what was held there.
pub fn joins_at_once()
    ensures { (b : Received) (ys : List ℕ) → JoinsAtOnce b (taken_in b 0 ys) ys }
{}

/// What is held stays where it is when bytes are read, and nothing is held in a cleared buffer.
pub fn keeps_held()
    ensures read { (b : Received) (n k : ℕ) → byte_at (handed_out b n).held k ≡ byte_at b.held k }
    ensures cleared { (b : Received) (k : ℕ) → byte_at (cleared b).held k ≡ None }
{}

/// The ranges are in order and apart, and hold exactly the offsets at which a byte is held.
pub fn ranges_are_held()
    ensures apart { (hs : List (Option ℕ)) → Apart 0 (ranges_of hs) }
    ensures held { (hs : List (Option ℕ)) (k : ℕ) → is_held (ranges_of hs) k ≡ is_some (byte_at hs k) }
{}

/// A range lies around a number, as wire numbers compare, exactly where its offsets lie around the number's distance
/// past the queue's end, RCV.NXT.
pub fn reaches_in_wire_numbers()
    ensures { (nxt number lo hi : ℕ) → IsWireRange nxt number lo hi → ReachesAsOffsets nxt number lo hi }
{}

impl<'a> ReceiveBuffer<'a> {
    /// The ring's queue is the buffer's, and nothing is held. The ring has at most 2^30 places.
    #[tactic(auto, using(crate::proofs::Receiving::nothing_shown))]
    pub fn new(ring: RingBuffer<'a, u8>) -> ReceiveBuffer<'a>
        requires { capacity_of ring ≤ 2 ^ 30 }
        ensures { result ≡ receiving ring.entry }
    {
        ReceiveBuffer {
            ring,
            ranges: Ranges::new(),
        }
    }

    /// The ring, whose queue is the buffer's. What was held behind it is not told any more.
    #[tactic(auto, using(crate::proofs::ReceiveBuffers::room_is))]
    pub fn into_ring(self) -> RingBuffer<'a, u8>
        ensures queue { result.queue ≡ self.entry.bytes }
        ensures places { capacity_of result ≡ room_of self.entry }
    {
        let ReceiveBuffer { ring, ranges: _ } = self;
        ring
    }

    /// What is always so: there are at most 2^30 places and four ranges, and the place behind the queue is free.
    #[tactic(auto, using(crate::proofs::ReceiveBuffers::bounds))]
    pub fn keeps_bounds(&self)
        ensures size { room_of self.now ≤ 2 ^ 30 }
        ensures few { length (ranges_of self.now.held) ≤ 4 }
        ensures first { byte_at self.now.held 0 ≡ None }
    {
        // each for its contract
        self.ring.len();
        self.ranges.len();
    }

    /// How many bytes the queue has when the buffer is full.
    #[tactic(auto, using(crate::proofs::ReceiveBuffers::room_is))]
    pub fn capacity(&self) -> usize
        ensures { result ≡ room_of self.now }
    {
        self.ring.capacity()
    }

    /// How many bytes the queue has.
    pub fn len(&self) -> usize
        ensures { result ≡ length self.now.bytes }
    {
        self.ring.len()
    }

    /// Whether the queue has no byte.
    pub fn is_empty(&self) -> bool
        ensures { result ≡ (length self.now.bytes == 0) }
    {
        self.ring.is_empty()
    }

    /// How many bytes fit behind the queue, those that are held counted among them.
    #[tactic(auto, using(crate::proofs::ReceiveBuffers::window_is))]
    pub fn window(&self) -> usize
        ensures { result ≡ length self.now.held }
    {
        self.ring.window()
    }

    /// Whether no byte is held ahead of a gap.
    #[tactic(auto, using(crate::proofs::ReceiveBuffers::holds_nothing_is))]
    pub fn holds_nothing(&self) -> bool
        ensures { result ≡ holds_nothing self.now.held }
    {
        self.ranges.is_empty()
    }

    /// Forgets all bytes.
    #[tactic(auto, using(crate::proofs::ReceiveBuffers::is_cleared, crate::proofs::ReceiveBuffers::cleared_room))]
    pub fn clear(&mut self)
        ensures after { self.new ≡ cleared self.old }
        ensures room { room_of self.new ≡ room_of self.old }
    {
        self.ring.clear();
        self.ranges = Ranges::new();
    }

    /// Takes bytes that lie in the window, the first of them at the offset from the queue's end, and answers whether it
    /// did.
    ///
    /// They replace what was held there. Then the run of held bytes from the queue's end on joins the queue. They are
    /// refused exactly where they lie behind the queue's end and would make a fifth range; then nothing changes.
    pub fn take_in(&mut self, offset: usize, bytes: &[u8]) -> bool
        requires some { 0 < length bytes.now }
        requires fits { offset + length bytes.now ≤ length self.old.held }
        ensures answer { result ≡ not (makes_fifth_range self.old offset bytes.now) }
        ensures after { self.new ≡ taken_in self.old offset bytes.now }
        ensures room { room_of self.new ≡ room_of self.old }
    {
        match self.ranges.add_then_remove_front(offset, bytes.len()) {
            Err(_) => false,
            Ok(run) => {
                self.ring.write_unallocated(offset, bytes);
                self.ring.enqueue_unallocated(run);
                true
            }
        }
    }

    /// Moves the queue's first bytes into the beginning of `out`, as many as there are and fit, and answers how many.
    /// The rest of `out` stays as it was.
    #[tactic(auto, using(crate::proofs::ReceiveBuffers::is_handed_out, crate::proofs::ReceiveBuffers::handed_out_room))]
    pub fn dequeue_slice(&mut self, out: &mut [u8]) -> usize
        ensures count { result ≡ min (length out.old) (length self.old.bytes) }
        ensures read { out.new ≡ take result self.old.bytes ++ drop result out.old }
        ensures after { self.new ≡ handed_out self.old result }
        ensures room { room_of self.new ≡ room_of self.old }
    {
        self.ring.dequeue_slice(out)
    }

    /// Drops the queue's first bytes, as many as there are but at most `count`, and answers how many.
    #[tactic(auto, using(crate::proofs::ReceiveBuffers::is_handed_out, crate::proofs::ReceiveBuffers::handed_out_room))]
    pub fn consume(&mut self, count: usize) -> usize
        ensures count { result ≡ min «count» (length self.old.bytes) }
        ensures after { self.new ≡ handed_out self.old result }
        ensures room { room_of self.new ≡ room_of self.old }
    {
        let count = count.min(self.ring.len());
        self.ring.dequeue_allocated(count);
        count
    }

    /// Lends `f` the queue, up to the slice's end. `f` answers how many of these bytes to remove, from the first on;
    /// its answer is passed on.
    #[tactic(auto, using(crate::proofs::ReceiveBuffers::reads_room))]
    pub fn dequeue_many_with<R, F: FnOnce(&[u8]) -> (usize, R)>(&mut self, f: F) -> (usize, R)
        requires callable { F.IsAlwaysCallable f }
        requires sized { (s : List ℕ) (r : _) → FnOnceReturnsAt F.FnOnce f s r → r.0 ≤ length s }
        ensures call { DequeuesBytesWith (FnOnceReturnsAt F.FnOnce f) self.old result self.new }
        ensures room { room_of self.new ≡ room_of self.old }
    {
        self.ring.dequeue_many_with(f)
    }

    /// The queue, up to the slice's end, but at most `size` bytes.
    pub fn peek(&self, size: usize) -> &[u8]
        ensures { result.now ≡ take (min size (first_piece self.now)) self.now.bytes }
    {
        self.ring.get_allocated(0, size)
    }

    /// Copies the queue's first bytes into the beginning of `out`, as many as there are and fit, and answers how many.
    /// The rest of `out` stays as it was, and so does the queue.
    pub fn peek_slice(&self, out: &mut [u8]) -> usize
        ensures count { result ≡ min (length out.old) (length self.now.bytes) }
        ensures read { out.new ≡ take result self.now.bytes ++ drop result out.old }
    {
        self.ring.read_allocated(0, out)
    }

    /// The range of held bytes that stands at `index` in their order, counted from 0: its first offset from the queue's
    /// end, and the offset behind its last.
    #[tactic(auto, using(crate::proofs::ReceiveBuffers::range_at_is))]
    pub fn range_at(&self, index: usize) -> Option<(usize, usize)>
        ensures { result ≡ slice_get (edges (ranges_of self.now.held)) index }
    {
        self.ranges.get(index)
    }

    /// The first range of held bytes that begins at or before `offset` and ends at or behind it.
    pub fn range_around(&self, offset: usize) -> Option<(usize, usize)>
        ensures { result ≡ range_around (edges (ranges_of self.now.held)) offset }
    {
        for index in 0..self.ranges.len() {
            if let Some((start, end)) = self.ranges.get(index) {
                if start <= offset && offset <= end {
                    return Some((start, end));
                }
            }
        }
        None
    }
}
