//! One place of a set of sockets.
ghost use Rattle.std.specs.Fn.{FnOnceReturnsAtMut};
ghost use Rattle.std.specs.Prelude.{◌≡◌, ◌↔◌, IsTrue, IfSome, IfNone, Some, None, option_map};
ghost use Rattle.net_host.specs.Slots.{IsFirstFree, IsFree, Fills, Empties, LeavesAny, LeavesTcp, handle_of, held};
ghost use Rattle.net_host.specs.Slots.{opened_under, tcp_in};

use crate::guard::Guard;
use smoltcp_socket::{Socket, tcp};
use sock_tcp::{Generator, TsvalSource};

/// Names a socket of a set. A socket that is put where another one was removed has another handle.
#[derive(Debug, Clone, Copy, PartialEq, Eq)]
pub struct SocketHandle {
    /// Its place in the set, below `capacity`.
    pub index: usize,
    /// One more than the number of sockets that were removed from this place before, modulo 2^64: a handle of zeros
    /// names no socket.
    pub generation: u64,
}

/// A place for a socket, and what the host remembers beside it.
#[derive(Drop)]
pub struct Slot<'a, G = Generator> {
    // one more than the number of sockets that were removed from here
    pub(crate) generation: u64,
    pub(crate) socket: Option<Socket<'a, G>>,
    pub(crate) guard: Guard,
    // how many SYNs opened the socket that is here
    pub(crate) opened: u64,
}

impl<'a, G> Slot<'a, G> {
    /// A place with no socket.
    pub(crate) fn free() -> Slot<'a, G>
        ensures { IsFirstFree result }
    {
        Slot {
            generation: 1,
            socket: None,
            guard: Guard::new(),
            opened: 0,
        }
    }

    /// Whether there is no socket.
    pub(crate) fn is_free(&self) -> bool
        ensures { IsTrue result ↔ IsFree self.now }
    {
        self.socket.is_none()
    }

    /// The handle of the socket that is here, at this place of its set.
    pub(crate) fn handle(&self, index: usize) -> Option<SocketHandle>
        ensures { result ≡ handle_of index self.now.generation self.now.socket }
    {
        match &self.socket {
            Some(_) => Some(SocketHandle {
                index,
                generation: self.generation,
            }),
            None => None,
        }
    }

    /// The socket that is here under this generation.
    pub(crate) fn held(&self, generation: u64) -> Option<&Socket<'a, G>>
        ensures { option_map (λ s. s.now) result ≡ held (Some self.now) generation }
    {
        if self.generation != generation {
            return None;
        }
        self.socket.as_ref()
    }

    /// How many SYNs opened the socket that is here under this generation.
    pub(crate) fn opened(&self, generation: u64) -> Option<u64>
        ensures { result ≡ opened_under (Some self.now) generation }
    {
        match &self.socket {
            Some(_) if self.generation == generation => Some(self.opened),
            _ => None,
        }
    }
}

impl<'a, G: TsvalSource> Slot<'a, G> {
    /// Puts a socket here.
    pub(crate) fn fill(&mut self, index: usize, socket: Socket<'a, G>) -> SocketHandle
        ensures index { result.index ≡ index }
        ensures filled { Fills socket.entry result self.old self.new }
    {
        self.socket = Some(socket);
        self.guard = Guard::new();
        self.opened = 0;
        SocketHandle {
            index,
            generation: self.generation,
        }
    }

    /// Calls a function with the socket that is here under this generation.
    pub(crate) fn with<R, F: FnOnce(&mut Socket<'a, G>) -> R>(
        &mut self,
        generation: u64,
        f: F,
    ) -> Option<R>
        requires { F.IsAlwaysCallable f }
        ensures called { IfSome result (λ r. LeavesAny (λ s t. FnOnceReturnsAtMut F.FnOnce f s r t) generation self.old
            self.new) }
        ensures stale { IfNone result (self.new ≡ self.old) }
        ensures none { IfNone result (held (Some self.old) generation ≡ None) }
    {
        if self.generation != generation {
            return None;
        }
        match &mut self.socket {
            Some(socket) => Some(f(socket)),
            None => None,
        }
    }

    /// Calls a function with the TCP socket that is here under this generation.
    pub(crate) fn with_tcp<R, F: FnOnce(&mut tcp::Socket<'a, G>) -> R>(
        &mut self,
        generation: u64,
        f: F,
    ) -> Option<R>
        requires { F.IsAlwaysCallable f }
        ensures called { IfSome result (λ r. LeavesTcp (λ s t. FnOnceReturnsAtMut F.FnOnce f s r t) generation self.old
            self.new) }
        ensures stale { IfNone result (self.new ≡ self.old) }
        ensures none { IfNone result (tcp_in (held (Some self.old) generation) ≡ None) }
    {
        if self.generation != generation {
            return None;
        }
        match &mut self.socket {
            Some(Socket::Tcp(tcp)) => Some(f(tcp)),
            _ => None,
        }
    }

    /// Takes the socket out that is here under this generation.
    pub(crate) fn take(&mut self, generation: u64) -> Option<Socket<'a, G>>
        ensures socket { result ≡ held (Some self.old) generation }
        ensures emptied { IfSome result (λ s. Empties s self.old self.new) }
        ensures stale { IfNone result (self.new ≡ self.old) }
    {
        if self.generation != generation {
            return None;
        }
        let socket = self.socket.take()?;
        self.generation = self.generation.wrapping_add(1);
        Some(socket)
    }
}
