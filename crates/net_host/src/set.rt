//! A set of sockets of all kinds.
ghost use Rattle.std.specs.Prelude.{◌≡◌, ◌<◌, ◌≤◌, ◌↔◌, IfOk, IfErr, OnErr, IfSome, IfNone, IsTrue, length, nat_eq, false};
ghost use Rattle.std.specs.Prelude.{min, option_map, slice_set, Some, None, true};
ghost use Rattle.host_index.specs.Filing.{places_of};
ghost use Rattle.std.specs.Fn.{FnOnceReturnsAtMut};
ghost use Rattle.std.specs.List.{All};
ghost use Rattle.host_bounds.specs.Bounding.{at_once};
ghost use Rattle.host_bounds.specs.Marking.{Clears, bit_of};
ghost use Rattle.net_host.specs.Slots.{Empties, Fills, IsFirstFree, IsFree, handle_at, icmp_at, opened_at, raw_at};
ghost use Rattle.net_host.specs.Slots.{socket_at};
ghost use Rattle.net_host.specs.Slots.{LeavesAny, LeavesTcp, tcp_at, udp_at};
ghost use Rattle.net_host.specs.Walks.{ChangesAt, Finds, FindsAmong, IsAt};

use crate::filed::Filed;
use crate::slot::{Slot, SocketHandle};
use host_bounds::{Bounds, Marks};
use host_index::Index;
use smoltcp_socket::{Socket, icmp, raw, tcp, udp};
use sock_tcp::{Generator, TsvalSource};
use std::alloc::{AllocError, Global};

/// Sockets of all kinds, each under a handle. As smoltcp's, but that its room is made once.
///
/// `G` is the type of a TCP socket's source of timestamps, and is left out.
pub type SocketSet<'a, G = Generator> = Filed<Slot<'a, G>>;

impl<'a, G: TsvalSource> Filed<Slot<'a, G>> {
    /// A set with room for so many sockets. Nothing is allocated afterwards. Its index, its marks and its bounds take
    /// 47 bytes a socket and a kilobyte beside.
    ///
    /// # Errors
    /// An error where there is no memory for it.
    pub fn new(alloc: Global, capacity: usize) -> Result<SocketSet<'a, G>, AllocError>
        ensures capacity { IfOk result (λ s. length s.slots.items ≡ capacity) }
        ensures free { IfOk result (λ s. All IsFirstFree s.slots.items) }
        ensures complete { IfOk result (λ s. s.complete ≡ true) }
        ensures places { IfOk result (λ s. places_of s.index ≡ min capacity 1073741824) }
    {
        let mut slots = Vec::with_capacity(alloc, capacity)?;
        for _ in 0..capacity {
            slots.push(Slot::free())?;
        }
        let index = Index::new(alloc, capacity)?;
        let free = Marks::new(alloc, capacity)?;
        let mut ended = Marks::new(alloc, capacity)?;
        ended.clear();
        let bounds = Bounds::new(alloc, capacity)?;
        Ok(Filed::of_free(slots, index, free, ended, bounds))
    }

    /// Whether the socket of a segment is found by an index of addresses and ports, so that no packet costs a walk
    /// through the set: always in a set of at most 2^30 sockets.
    pub fn is_indexed(&self) -> bool
        ensures value { result ≡ self.now.complete }
        ensures always { length self.now.slots.items ≤ 1073741824 → result ≡ true }
    {
        self.complete
    }

    /// How many sockets it has room for.
    pub fn capacity(&self) -> usize
        ensures { result ≡ length self.now.slots.items }
    {
        self.slots.len()
    }

    /// The handle of the socket at this place, of as many as `capacity` says; none where no socket is there.
    pub fn handle_at(&self, index: usize) -> Option<SocketHandle>
        ensures { result ≡ handle_at self.now.slots.items index }
    {
        match self.slots.get(index) {
            Some(slot) => slot.handle(index),
            None => None,
        }
    }

    /// Puts the socket into the first place that is free. Where none is, it is given back.
    ///
    /// # Errors
    /// The socket, where no place is free.
    pub fn add(&mut self, socket: Socket<'a, G>) -> Result<SocketHandle, Socket<'a, G>>
        ensures first { IfOk result (λ h. Finds IsFree self.old.slots.items (Some h.index)) }
        ensures filled { IfOk result
            (λ h. ChangesAt (Fills socket.entry h) self.old.slots.items h.index self.new.slots.items) }
        ensures full { OnErr result (Finds IsFree self.old.slots.items None) }
        ensures same { IfErr result (λ s. (s ≡ socket.entry) × (self.new ≡ self.old)) }
        ensures touched { IfOk result (λ h. self.new.bounds ≡ slice_set self.old.bounds h.index at_once) }
        ensures ended { IfOk result (λ h. Clears h.index self.old.ended self.new.ended) }
    {
        match self.first_free() {
            None => Err(socket),
            Some(index) => {
                self.lend_out(index);
                Ok(fill(&mut self.slots, index, socket))
            }
        }
    }

    // The first place that is free. The marks tell of each place but the one that was lent.
    fn first_free(&self) -> Option<usize>
        ensures { Finds IsFree self.now.slots.items result }
    {
        let found = first_marked(&self.slots, &self.free);
        match self.lent {
            Some(place) => sooner(&self.slots, found, place),
            None => found,
        }
    }

    /// Takes the socket out; none where the set has no socket of this handle. Afterwards no socket has it.
    pub fn remove(&mut self, handle: SocketHandle) -> Option<Socket<'a, G>>
        ensures socket { result ≡ socket_at self.old.slots.items handle }
        ensures emptied { IfSome result
            (λ s. ChangesAt (Empties s) self.old.slots.items handle.index self.new.slots.items) }
        ensures stale { IfNone result (self.new.slots.items ≡ self.old.slots.items) }
        ensures touched { self.new.bounds ≡ slice_set self.old.bounds handle.index at_once }
        ensures ended { Clears handle.index self.old.ended self.new.ended }
    {
        self.lend_out(handle.index);
        take_at(&mut self.slots, handle)
    }

    /// The socket of this handle.
    pub fn get(&self, handle: SocketHandle) -> Option<&Socket<'a, G>>
        ensures { option_map (λ s. s.now) result ≡ socket_at self.now.slots.items handle }
    {
        match self.slots.get(handle.index) {
            Some(slot) => slot.held(handle.generation),
            None => None,
        }
    }

    /// How many SYNs have opened the socket of a handle since it was added, modulo 2^64; `None` where the handle names
    /// none. Each is a connection of its own: where the number has grown, the one before is over.
    pub fn opened(&self, handle: SocketHandle) -> Option<u64>
        ensures { result ≡ opened_at self.now.slots.items handle }
    {
        match self.slots.get(handle.index) {
            Some(slot) => slot.opened(handle.generation),
            None => None,
        }
    }

    /// Calls a function with the socket of a handle, and answers what it answers; `None` where the handle names none.
    /// Each other socket is as it was, and this one keeps its handle and its guard.
    pub fn with<R, F: FnOnce(&mut Socket<'a, G>) -> R>(
        &mut self,
        handle: SocketHandle,
        f: F,
    ) -> Option<R>
        requires { F.IsAlwaysCallable f }
        ensures called { IfSome result (λ r. ChangesAt (LeavesAny
            (λ s t. FnOnceReturnsAtMut F.FnOnce f s r t) handle.generation) self.old.slots.items handle.index
            self.new.slots.items) }
        ensures stale { IfNone result (self.new.slots.items ≡ self.old.slots.items) }
        ensures none { IfNone result (socket_at self.old.slots.items handle ≡ None) }
        ensures touched { self.new.bounds ≡ slice_set self.old.bounds handle.index at_once }
        ensures ended { Clears handle.index self.old.ended self.new.ended }
    {
        self.lend_out(handle.index);
        with_at(&mut self.slots, handle, f)
    }

    /// Calls a function with the TCP socket of a handle, as `with`; `None` where the handle names none of this kind.
    pub fn with_tcp<R, F: FnOnce(&mut tcp::Socket<'a, G>) -> R>(
        &mut self,
        handle: SocketHandle,
        f: F,
    ) -> Option<R>
        requires { F.IsAlwaysCallable f }
        ensures called { IfSome result (λ r. ChangesAt (LeavesTcp
            (λ s t. FnOnceReturnsAtMut F.FnOnce f s r t) handle.generation) self.old.slots.items handle.index
            self.new.slots.items) }
        ensures stale { IfNone result (self.new.slots.items ≡ self.old.slots.items) }
        ensures none { IfNone result (tcp_at self.old.slots.items handle ≡ None) }
        ensures touched { self.new.bounds ≡ slice_set self.old.bounds handle.index at_once }
        ensures ended { Clears handle.index self.old.ended self.new.ended }
    {
        self.lend_out(handle.index);
        with_tcp_at(&mut self.slots, handle, f)
    }

    /// Borrows the socket of a handle for writing; `None` where the handle names none.
    pub fn get_mut(&mut self, handle: SocketHandle) -> Option<&mut Socket<'a, G>>
        ensures { option_map (λ s. s.now) result ≡ socket_at self.old.slots.items handle }
    {
        let slot = self.place_mut(handle.index)?;
        if slot.generation != handle.generation {
            return None;
        }
        slot.socket.as_mut()
    }
}

/// The sockets of one kind.
impl<'a, G: TsvalSource> Filed<Slot<'a, G>> {
    /// The TCP socket of this handle, lent with every call of it; none where the handle's socket is of another kind.
    pub fn tcp_mut(&mut self, handle: SocketHandle) -> Option<&mut tcp::Socket<'a, G>>
        ensures { option_map (λ s. s.now) result ≡ tcp_at self.old.slots.items handle }
    {
        match self.get_mut(handle)? {
            Socket::Tcp(tcp) => Some(tcp),
            _ => None,
        }
    }

    /// Borrows a UDP socket for writing; `None` where the handle names none of this kind.
    pub fn udp_mut(&mut self, handle: SocketHandle) -> Option<&mut udp::Socket<'a>>
        ensures { option_map (λ s. s.now) result ≡ udp_at self.old.slots.items handle }
    {
        match self.get_mut(handle)? {
            Socket::Udp(udp) => Some(udp),
            _ => None,
        }
    }

    /// Borrows an ICMP socket for writing; `None` where the handle names none of this kind.
    pub fn icmp_mut(&mut self, handle: SocketHandle) -> Option<&mut icmp::Socket<'a>>
        ensures { option_map (λ s. s.now) result ≡ icmp_at self.old.slots.items handle }
    {
        match self.get_mut(handle)? {
            Socket::Icmp(icmp) => Some(icmp),
            _ => None,
        }
    }

    /// Borrows a raw socket for writing; `None` where the handle names none of this kind.
    pub fn raw_mut(&mut self, handle: SocketHandle) -> Option<&mut raw::Socket<'a>>
        ensures { option_map (λ s. s.now) result ≡ raw_at self.old.slots.items handle }
    {
        match self.get_mut(handle)? {
            Socket::Raw(raw) => Some(raw),
            _ => None,
        }
    }
}

fn is_free_at<G>(slots: &[Slot<'_, G>], place: usize) -> bool
    ensures { IsTrue result ↔ IsAt IsFree slots.now place }
{
    match slots.get(place) {
        Some(slot) => slot.is_free(),
        None => false,
    }
}

// The first place that is free, of those that are marked.
fn first_marked<G>(slots: &[Slot<'_, G>], free: &Marks) -> Option<usize>
    ensures { FindsAmong (λ k. bit_of free.now k ≡ 1) (λ s. IsFree s) slots.now result }
{
    let mut place = free.next(0);
    while place < slots.len() {
        if is_free_at(slots, place) {
            return Some(place);
        }
        place = free.next(place + 1);
    }
    None
}

// This place, where it is free and before the one that was found among the others.
fn sooner<G>(slots: &[Slot<'_, G>], found: Option<usize>, place: usize) -> Option<usize>
    requires { FindsAmong (λ k. nat_eq k place ≡ false) (λ s. IsFree s) slots.now found }
    ensures { Finds IsFree slots.now result }
{
    if !is_free_at(slots, place) {
        return found;
    }
    match found {
        Some(i) => Some(i.min(place)),
        None => Some(place),
    }
}

fn fill<'a, G: TsvalSource>(
    slots: &mut Vec<Slot<'a, G>>,
    index: usize,
    socket: Socket<'a, G>,
) -> SocketHandle
    requires { index < length slots.old.items }
    ensures index { result.index ≡ index }
    ensures filled { ChangesAt (Fills socket.entry result) slots.old.items index slots.new.items }
{
    slots[index].fill(index, socket)
}

fn with_at<'a, G: TsvalSource, R, F: FnOnce(&mut Socket<'a, G>) -> R>(
    slots: &mut Vec<Slot<'a, G>>,
    handle: SocketHandle,
    f: F,
) -> Option<R>
    requires { F.IsAlwaysCallable f }
    ensures called { IfSome result (λ r. ChangesAt (LeavesAny (λ s t. FnOnceReturnsAtMut F.FnOnce f s r t)
        handle.generation) slots.old.items handle.index slots.new.items) }
    ensures stale { IfNone result (slots.new.items ≡ slots.old.items) }
    ensures none { IfNone result (socket_at slots.old.items handle ≡ None) }
{
    if slots.len() <= handle.index {
        return None;
    }
    slots[handle.index].with(handle.generation, f)
}

fn with_tcp_at<'a, G: TsvalSource, R, F: FnOnce(&mut tcp::Socket<'a, G>) -> R>(
    slots: &mut Vec<Slot<'a, G>>,
    handle: SocketHandle,
    f: F,
) -> Option<R>
    requires { F.IsAlwaysCallable f }
    ensures called { IfSome result (λ r. ChangesAt (LeavesTcp (λ s t. FnOnceReturnsAtMut F.FnOnce f s r t)
        handle.generation) slots.old.items handle.index slots.new.items) }
    ensures stale { IfNone result (slots.new.items ≡ slots.old.items) }
    ensures none { IfNone result (tcp_at slots.old.items handle ≡ None) }
{
    if slots.len() <= handle.index {
        return None;
    }
    slots[handle.index].with_tcp(handle.generation, f)
}

fn take_at<'a, G: TsvalSource>(
    slots: &mut Vec<Slot<'a, G>>,
    handle: SocketHandle,
) -> Option<Socket<'a, G>>
    ensures socket { result ≡ socket_at slots.old.items handle }
    ensures emptied { IfSome result (λ s. ChangesAt (Empties s) slots.old.items handle.index slots.new.items) }
    ensures stale { IfNone result (slots.new.items ≡ slots.old.items) }
{
    if slots.len() <= handle.index {
        return None;
    }
    slots[handle.index].take(handle.generation)
}
