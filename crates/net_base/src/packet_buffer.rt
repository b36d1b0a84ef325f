//! A queue of packets, each with a header, over lent places and lent bytes. As smoltcp's packet buffer.
//!
//! A packet's bytes stand in one piece. Where they don't fit before the end of the payload storage but fit at its
//! beginning, the bytes up to the end become padding: an entry with no header, which is in no list of packets.
ghost use Rattle.std.specs.Prelude.{◌≡◌, ℕ, ◌+◌, ◌-◌, ◌<◌, ◌≤◌, ◌==◌, ◌&&◌, nat_le, ◌↔◌, List, [], ◌∷◌, ◌++◌, length};
ghost use Rattle.std.specs.Prelude.{take, drop, min, true, false, Some, None, IfOk, IfSome, OnErr, IsOk, IsSome};
ghost use Rattle.std.specs.Prelude.{IsTrue, if◌then◌else◌, nat_lt};
ghost use Rattle.std.specs.Fn.{FnOnceReturnsAtMut};
ghost use Rattle.std.specs.Borrow.{sem};
ghost use Rattle.net_base.specs.Ring.{LeavesRun, overwrite};
ghost use Rattle.net_base.specs.Packets.{Packets, packets_with, packets, headers, taken, end_of, run_of, room_of};
ghost use Rattle.net_base.specs.Packets.{first_bytes, first_header, starts_padded, without_first, skipped, appended};
ghost use Rattle.net_base.specs.Packets.{restarted, fits, padded_for, made_room, takes, with_storage, written_behind};
ghost use Rattle.net_base.specs.Packets.{first_packet, Dequeues, Claims, WritesBoth, WritesFirst, TakesFirst};
ghost use Rattle.net_base.specs.Packets.{AppendsWith, Enqueues};
ghost use Rattle.net_base.specs.PacketLends.{LendsAll, ShowsFirst, TakesPacket, with_packet};

use crate::ring_buffer::{RingBuffer, place};
use std::marker::Model;

/// A place of a packet buffer.
#[derive(Debug, Clone, Copy, PartialEq, Eq)]
pub struct PacketMetadata<H> {
    size: usize,
    header: Option<H>,
}

impl<H> PacketMetadata<H> {
    /// A place that nothing stands in, to make the storage of a new buffer of.
    pub const EMPTY: PacketMetadata<H> = PacketMetadata {
        size: 0,
        header: None,
    };
}

/// No place is left, or not enough bytes.
#[derive(Debug, Clone, Copy, PartialEq, Eq)]
pub struct Full;

/// No packet is there.
#[derive(Debug, Clone, Copy, PartialEq, Eq)]
pub struct Empty;

/// A queue of packets, each a header and its bytes.
#[derive(Debug, Drop)]
pub struct PacketBuffer<'a, H> {
    payload: &'a mut [u8],
    metadata: RingBuffer<'a, PacketMetadata<H>>,
    start: usize,
    length: usize,
}

impl<'a, H> Model for PacketBuffer<'a, H> {
    ghost use Rattle.net_base.specs.Packets.{Packets, packets_code};

    ghost Value = { Packets H };

    ghost coded = { packets_code H.code };

    ghost use Rattle.net_base.specs.PacketsInside.{packets_of, IsLaid};

    ghost view = { λ p. packets_of p.metadata p.payload.now p.start p.length };

    ghost invariant = { λ p. IsLaid p.metadata p.payload.now p.start p.length };
}

impl<'a, H> PacketBuffer<'a, H> {
    // Lends all payload bytes.
    pub(crate) fn all(&mut self) -> &mut [u8]
        ensures* writes_back { sem 𝓛 (LendsAll H.row self.entry result) }
        ensures value { result.now ≡ self.old.storage }
    {
        self.payload
    }
}

impl<'a, H: Copy> PacketBuffer<'a, H> {
    /// An empty buffer of as many places and payload bytes as the slices have.
    pub fn new(metadata: &'a mut [PacketMetadata<H>], payload: &'a mut [u8]) -> Self
        ensures { result ≡ packets_with [] (length metadata.old) payload.old 0 }
    {
        PacketBuffer {
            metadata: RingBuffer::new(metadata),
            payload,
            start: 0,
            length: 0,
        }
    }

    /// The two slices: what stands in the places is not told any more.
    #[tactic(auto, using(crate::proofs::Cells::storage_is))]
    pub fn into_slices(self) -> (&'a mut [PacketMetadata<H>], &'a mut [u8])
        ensures places { length result.0.now ≡ self.entry.places }
        ensures payload { result.1.now ≡ self.entry.storage }
    {
        let PacketBuffer {
            payload,
            metadata,
            start: _,
            length: _,
        } = self;
        let (places, _, _) = metadata.into_parts();
        (places, payload)
    }

    /// Removes all packets.
    pub fn reset(&mut self)
        ensures { self.new ≡ packets_with [] self.old.places self.old.storage 0 }
    {
        self.metadata.clear();
        self.start = 0;
        self.length = 0;
    }

    /// How many places there are.
    pub fn packet_capacity(&self) -> usize
        ensures { result ≡ self.now.places }
    {
        self.metadata.capacity()
    }

    /// How many payload bytes there are.
    pub fn payload_capacity(&self) -> usize
        ensures { result ≡ length self.now.storage }
    {
        self.payload.len()
    }

    /// How many payload bytes are taken, padding included.
    #[tactic(auto, using(crate::proofs::Entries::taken_view))]
    pub fn payload_bytes_count(&self) -> usize
        ensures { result ≡ taken self.now.entries }
    {
        self.length
    }

    /// Whether no place is taken. Padding takes one.
    #[tactic(auto, using(crate::proofs::Entries::empty_view))]
    pub fn is_empty(&self) -> bool
        ensures { result ≡ (length self.now.entries == 0) }
    {
        self.metadata.is_empty()
    }

    /// Whether every place is taken. Padding takes one.
    #[tactic(auto, using(crate::proofs::Entries::full_view, crate::proofs::Entries::places_within))]
    pub fn is_full(&self) -> bool
        ensures full { result ≡ (length self.now.entries == self.now.places) }
        ensures within { length self.now.entries ≤ self.now.places }
    {
        self.metadata.is_full()
    }

    // How many payload bytes are free.
    #[tactic(auto, using(crate::proofs::Entries::room_free))]
    fn room(&self) -> usize
        ensures { result ≡ room_of self.now }
    {
        self.payload.len() - self.length
    }

    // How many of them stand behind the entries in one piece.
    fn run_len(&self) -> usize
        ensures run { result ≡ run_of self.now }
        ensures start { self.now.start ≤ length self.now.storage - 1 }
        ensures taken { taken self.now.entries ≤ length self.now.storage }
    {
        let end = place(self.payload.len(), self.start, self.length);
        (self.payload.len() - self.length).min(self.payload.len() - end)
    }

    // An empty payload ring starts anew at the storage's first place.
    #[tactic(auto, using(crate::proofs::Entries::restarts))]
    fn restart(&mut self)
        ensures after { self.new ≡ restarted self.old }
        ensures entries { self.new.entries ≡ self.old.entries }
        ensures places { self.new.places ≡ self.old.places }
    {
        if self.length == 0 {
            self.start = 0;
        }
    }

    // The `size` bytes that stand behind the entries become one more. Answers where they begin.
    // Inlined as `claim`, so that the header is copied once.
    #[inline(always)]
    fn append(&mut self, size: usize, header: Option<H>) -> usize
        requires place { length self.old.entries < self.old.places }
        requires fits { size ≤ run_of self.old }
        ensures from { result ≡ end_of self.old }
        ensures within { result + size ≤ length self.old.storage }
        ensures after { self.new ≡ appended header size self.old }
        ensures written { (left : List ℕ) → length left ≡ size
            → with_storage self.new (overwrite self.new.storage result left) ≡ written_behind header left self.old }
    {
        let from = place(self.payload.len(), self.start, self.length);
        self.length += size;
        self.metadata.enqueue_one(PacketMetadata { size, header });
        from
    }

    // Whether two places are free at least.
    #[tactic(auto, using(crate::proofs::Entries::two_view))]
    fn has_two_places(&self) -> bool
        ensures { result ≡ nat_lt (length self.now.entries + 1) self.now.places }
    {
        1 < self.metadata.window()
    }

    // Where `size` bytes fit in the free places that are not behind the entries, and a place is left for padding too,
    // the run behind the entries becomes padding. Answers whether `size` bytes now fit behind the entries, with a place
    // for them; where not, nothing changed.
    #[tactic(auto, unfolding(crate::specs::Packets::padded_for))]
    fn pad_for(&mut self, size: usize) -> bool
        requires { length self.old.entries < self.old.places }
        ensures after { self.new ≡ (if fits size self.old then padded_for size self.old else self.old) }
        ensures fits { result ≡ fits size self.old }
        ensures room { result ≡ true → (size ≤ run_of self.new) × (length self.new.entries < self.new.places) }
    {
        let run = self.run_len();
        if size <= run {
            return true;
        }
        if self.room() - run < size || !self.has_two_places() {
            return false;
        }
        self.append(run, None);
        true
    }

    // Room for `size` bytes where no payload byte is taken: all of the storage is free.
    #[tactic(auto, using(crate::proofs::PacketLists::bare_room))]
    fn restart_for(&mut self, size: usize) -> bool
        requires place { length self.old.entries < self.old.places }
        requires none { taken self.old.entries ≡ 0 }
        ensures after { self.new ≡ made_room size self.old }
        ensures takes { result ≡ takes size self.old }
        ensures room { result ≡ true → (size ≤ run_of self.new) × (length self.new.entries < self.new.places) }
    {
        if self.payload_capacity() < size {
            return false;
        }
        self.restart();
        true
    }

    // Whether no payload byte is taken.
    #[tactic(auto, using(crate::proofs::Entries::bare_view))]
    fn is_bare(&self) -> bool
        ensures { result ≡ (taken self.now.entries == 0) }
    {
        self.length == 0
    }

    // Makes room for an entry of `size` bytes behind the others. Answers whether there is room; where not, nothing
    // changed.
    #[tactic(auto, using(crate::proofs::PacketLists::other_room))]
    fn make_room(&mut self, size: usize) -> bool
        ensures after { self.new ≡ made_room size self.old }
        ensures takes { result ≡ takes size self.old }
        ensures room { result ≡ true → (size ≤ run_of self.new) × (length self.new.entries < self.new.places) }
    {
        if self.is_full() {
            return false;
        }
        if self.is_bare() {
            return self.restart_for(size);
        }
        self.pad_for(size)
    }

    /// Appends a packet of `size` bytes as they stand in the storage. Answers whether there was room, and where they
    /// begin; `part_mut` lends them. The first step of `enqueue`, for a caller that lends on what that lends.
    #[inline(always)]
    pub fn claim(&mut self, size: usize, header: H) -> (bool, usize)
        ensures { Claims size header self.old result.0 result.1 self.new }
    {
        if !self.make_room(size) {
            return (false, 0);
        }
        (true, self.append(size, Some(header)))
    }

    // Appends an entry of the first of the `size` bytes behind the others, as `f` leaves them.
    fn append_with<F: FnOnce(&mut [u8]) -> usize>(
        &mut self,
        size: usize,
        header: Option<H>,
        f: F,
    ) -> usize
        requires place { length self.old.entries < self.old.places }
        requires fits { size ≤ run_of self.old }
        requires callable { F.IsAlwaysCallable f }
        requires sized { (s : List ℕ) (r : _) (s' : List ℕ) → FnOnceReturnsAtMut F.FnOnce f s r s' → r ≤ length s }
        ensures { AppendsWith (FnOnceReturnsAtMut F.FnOnce f) size header self.old result self.new }
    {
        let from = place(self.payload.len(), self.start, self.length);
        let kept = lend_bytes(self.payload, from, size, f);
        self.length += kept;
        self.metadata
            .enqueue_one(PacketMetadata { size: kept, header });
        kept
    }

    /// Appends a packet whose bytes `f` writes: it is lent `max_size` bytes and answers how many of them, from the
    /// first on, to keep. This count is answered.
    ///
    /// # Errors
    /// `Full` where no place is left, or `max_size` bytes in one piece are not; nothing changes then.
    pub fn enqueue_with_infallible<F: FnOnce(&mut [u8]) -> usize>(
        &mut self,
        max_size: usize,
        header: H,
        f: F,
    ) -> Result<usize, Full>
        requires callable { F.IsAlwaysCallable f }
        requires sized { (s : List ℕ) (r : _) (s' : List ℕ) → FnOnceReturnsAtMut F.FnOnce f s r s' → r ≤ length s }
        ensures variant { IsOk result ↔ IsTrue (takes max_size self.old) }
        ensures err { OnErr result (self.new ≡ made_room max_size self.old) }
        ensures kept { OnErr result (packets self.new.entries ≡ packets self.old.entries) }
        ensures ok { IfOk result (λ kept. Enqueues
            (FnOnceReturnsAtMut F.FnOnce f) max_size header self.old kept self.new) }
    {
        if !self.make_room(max_size) {
            return Err(Full);
        }
        Ok(self.append_with(max_size, Some(header), f))
    }

    // Whether the first entry is padding.
    fn starts_padded(&self) -> bool
        ensures { result ≡ starts_padded self.now.entries }
    {
        !self.metadata.is_empty() && self.metadata.front().header.is_none()
    }

    // Takes the first entry. Answers its header, and where its bytes stand and how many.
    fn drop_first(&mut self) -> (Option<H>, (usize, usize))
        requires { 0 < length self.old.entries }
        ensures after { self.new ≡ without_first self.old }
        ensures header { result.0 ≡ first_header self.old.entries }
        ensures place { result.1.0 + result.1.1 ≤ length self.old.storage }
        ensures bytes { first_bytes self.old.entries ≡ take result.1.1 (drop result.1.0 self.old.storage) }
    {
        let first = self.metadata.front();
        let size = first.size;
        let from = self.start;
        self.metadata.dequeue_allocated(1);
        self.start = place(self.payload.len(), from, size);
        self.length -= size;
        (first.header, (from, size))
    }

    /// Padding that stands first leaves. The first step of `peek`, `dequeue` and `dequeue_with`, for a caller that
    /// lends on what `first` lends.
    pub fn skip_padding(&mut self)
        ensures after { self.new ≡ skipped self.old }
        ensures same { packets self.new.entries ≡ packets self.old.entries }
        ensures packet { starts_padded self.new.entries ≡ false }
    {
        while self.starts_padded() {
            self.drop_first();
        }
    }

    /// The `size` payload bytes from `from` on: the bytes of a packet that `take_first` took, until the next change.
    pub fn part(&self, from: usize, size: usize) -> &[u8]
        requires { from + size ≤ length self.now.storage }
        ensures { result.now ≡ take size (drop from self.now.storage) }
    {
        &self.payload[from..from + size]
    }

    /// The header and the bytes of the first packet, where no padding stands first.
    ///
    /// # Errors
    /// `Empty` where there is none.
    pub fn first(&self) -> Result<(&H, &[u8]), Empty>
        requires packet { starts_padded self.now.entries ≡ false }
        ensures variant { IsOk result ↔ (0 < length (packets self.now.entries)) }
        ensures value { IfOk result (λ r. first_packet self.now ≡ Some (r.0.now, r.1.now)) }
    {
        match self.metadata.get_allocated(0, 1).first() {
            Some(
                PacketMetadata {
                    size,
                    header: Some(header),
                },
            ) => Ok((header, self.part(self.start, *size))),
            _ => Err(Empty),
        }
    }

    /// Lends the header and the bytes of the first packet, which stays.
    ///
    /// # Errors
    /// `Empty` where there is none.
    pub fn peek(&mut self) -> Result<(&H, &[u8]), Empty>
        ensures* after { sem 𝓛 (ShowsFirst H.row self.entry) }
        ensures variant { IsOk result ↔ (0 < length (packets self.old.entries)) }
        ensures value { IfOk result (λ r. first_packet self.old ≡ Some (r.0.now, r.1.now)) }
    {
        self.skip_padding();
        self.first()
    }

    /// Takes the first packet. Answers its header, where in the payload storage its bytes stand, and how many they are;
    /// `part` lends them. `None` where there is no packet.
    ///
    /// The two steps of `dequeue`, for a caller that lends the bytes on and says what it then is.
    // Inlined, so that a caller that wants no header copies none.
    #[inline(always)]
    pub fn take_first(&mut self) -> Option<(H, (usize, usize))>
        ensures variant { IsSome result ↔ (0 < length (packets self.old.entries)) }
        ensures after { Dequeues self.old self.new }
        ensures within { IfSome result (λ r. r.1.0 + r.1.1 ≤ length self.new.storage) }
        ensures some { IfSome result (λ r. first_packet self.old
            ≡ Some (r.0, take r.1.1 (drop r.1.0 self.new.storage))) }
    {
        self.skip_padding();
        if self.is_empty() {
            return None;
        }
        let (header, place) = self.drop_first();
        Some((header?, place))
    }

    /// Takes the first packet, and lends its bytes.
    ///
    /// # Errors
    /// `Empty` where there is none.
    pub fn dequeue(&mut self) -> Result<(H, &[u8]), Empty>
        ensures* after { sem 𝓛 (TakesPacket H.row self.entry) }
        ensures variant { IsOk result ↔ (0 < length (packets self.old.entries)) }
        ensures value { IfOk result (λ r. first_packet self.old ≡ Some (r.0, r.1.now)) }
    {
        let taken = self.take_first();
        self.lent(taken)
    }

    // The bytes of a packet that `take_first` took, beside its header. `Empty` where it took none.
    fn lent(&self, taken: Option<(H, (usize, usize))>) -> Result<(H, &[u8]), Empty>
        requires { IfSome taken (λ t. t.1.0 + t.1.1 ≤ length self.now.storage) }
        ensures variant { IsOk result ↔ IsSome taken }
        ensures value { IfOk result (λ r. IfSome taken (λ t. (t.0 ≡ r.0)
            × (take t.1.1 (drop t.1.0 self.now.storage) ≡ r.1.now))) }
    {
        match taken {
            Some((header, (from, size))) => Ok((header, self.part(from, size))),
            None => Err(Empty),
        }
    }

    // The header of the first entry, where that is a packet.
    fn first_header(&self) -> Option<H>
        ensures { result ≡ first_header self.now.entries }
    {
        if self.metadata.is_empty() {
            return None;
        }
        self.metadata.front().header
    }

    // Lends `f` this header and the bytes of the first entry.
    fn write_first<R, F: FnOnce(&H, &mut [u8]) -> R>(&mut self, header: &H, f: F) -> R
        requires some { 0 < length self.old.entries }
        requires callable { F.IsAlwaysCallable f }
        ensures { WritesFirst (WritesBoth F.FnOnce f header.now) self.old result self.new }
    {
        let size = self.metadata.front().size;
        lend_packet(self.payload, self.start, size, header, f)
    }

    /// Lends `f` the header and the bytes of the first packet, these for writing. Where `f` answers `Ok`, the packet
    /// leaves; where it answers `Err`, it stays first, with its bytes as `f` left them. `f`'s answer is passed on.
    ///
    /// # Errors
    /// `Empty` where there is no packet.
    pub fn dequeue_with<R, E, F: FnOnce(&H, &mut [u8]) -> Result<R, E>>(
        &mut self,
        f: F,
    ) -> Result<Result<R, E>, Empty>
        requires callable { F.IsAlwaysCallable f }
        ensures variant { IsOk result ↔ (0 < length (packets self.old.entries)) }
        ensures err { OnErr result (self.new ≡ skipped self.old) }
        ensures empty { OnErr result ((packets self.old.entries ≡ []) × (packets self.new.entries ≡ [])) }
        ensures ok { IfOk result (λ outcome. TakesFirst (WritesBoth F.FnOnce f) self.old outcome self.new) }
    {
        self.skip_padding();
        let Some(header) = self.first_header() else {
            return Err(Empty);
        };
        let outcome = self.write_first(&header, f);
        if outcome.is_ok() {
            self.drop_first();
        }
        Ok(outcome)
    }
}

// Lends `count` bytes from `from` on.
fn lend_bytes<F: FnOnce(&mut [u8]) -> usize>(
    places: &mut [u8],
    from: usize,
    count: usize,
    f: F,
) -> usize
    requires fits { from + count ≤ length places.old }
    requires callable { F.IsAlwaysCallable f }
    requires sized { (s : List ℕ) (r : _) (s' : List ℕ) → FnOnceReturnsAtMut F.FnOnce f s r s' → r ≤ length s }
    ensures size { result ≤ count }
    ensures left { LeavesRun (FnOnceReturnsAtMut F.FnOnce f) places.old from count result places.new }
{
    f(&mut places[from..from + count])
}

// Lends `count` bytes from `from` on, beside a header.
fn lend_packet<H, R, F: FnOnce(&H, &mut [u8]) -> R>(
    places: &mut [u8],
    from: usize,
    count: usize,
    header: &H,
    f: F,
) -> R
    requires fits { from + count ≤ length places.old }
    requires callable { F.IsAlwaysCallable f }
    ensures { LeavesRun (WritesBoth F.FnOnce f header.now) places.old from count result places.new }
{
    f(header, &mut places[from..from + count])
}

/// Making room for a packet adds padding at most, which is in no list of packets.
#[tactic(auto, using(crate::proofs::PacketLists::made_room_packets))]
pub fn room_keeps_packets<H: Copy>()
    ensures { (size : ℕ) (p : Packets H) → packets (made_room size p).entries ≡ packets p.entries }
{}

/// Where there is no room for a packet, it stays as it is: a refusal changes nothing.
#[tactic(auto, using(crate::proofs::PacketLists::refused_room))]
pub fn refusal_changes_nothing<H: Copy>()
    ensures { (size : ℕ) (p : Packets H) → takes size p ≡ false → made_room size p ≡ p }
{}

/// Whatever is left in the bytes that `enqueue` lends, the packets have the headers of before, and then the new one.
#[tactic(auto, using(crate::proofs::Headers::enqueued_headers))]
pub fn enqueue_keeps_the_order<H: Copy>()
    ensures { (size : ℕ) (header : H) (p : Packets H) (left : List ℕ) → headers (packets
        (with_packet size header p left).entries) ≡ headers (packets p.entries) ++ header ∷ [] }
{}

/// The packets are the same once the padding in front of them is gone.
#[tactic(auto, using(crate::proofs::PacketLists::packets_skipped))]
pub fn skipping_keeps_packets<H: Copy>()
    ensures { (p : Packets H) → packets (skipped p).entries ≡ packets p.entries }
{}

/// With a free place and no payload byte taken, a packet is taken exactly where it is at most as long as the payload
/// storage.
#[tactic(auto, using(crate::proofs::PacketLists::takes_empty))]
pub fn empty_payload_takes_all_that_fits<H: Copy>()
    ensures { (size : ℕ) (p : Packets H) → length p.entries < p.places → taken p.entries ≡ 0 → takes size p
        ≡ nat_le size (length p.storage) }
{}
