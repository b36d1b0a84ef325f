//! A UDP socket is bound from an interface: to a port that is given, or to one that none has.
ghost use Rattle.std.specs.Prelude.{◌≡◌, ◌<◌, IfSome, IsSome, is_some, length, slice_get};
ghost use Rattle.net_host.specs.Bindings.{BindsBy, BindsFrom, BindsIf, FindsBinding, IsGivenFree, SlotBinds};
ghost use Rattle.net_host.specs.Bindings.{bind_refused, bound_answer};
ghost use Rattle.net_host.specs.Facts.{facts_by};
ghost use Rattle.net_host.specs.Slots.{udp_at, udp_in};
ghost use Rattle.net_host.specs.Walks.{ChangesAt};

use crate::filed::Filed;
use crate::interface::Interface;
use crate::opening::{OpenError, draw_start, given_port};
use crate::ports::{binding, free_binding};
use crate::set::SocketSet;
use crate::slot::{Slot, SocketHandle};
use host_context::Words;
use smoltcp_socket::udp::BindError;
use smoltcp_socket::wire::{IpAddress, IpListenEndpoint};
use smoltcp_socket::{Context, Socket};
use sock_tcp::TsvalSource;

fn bind_refused(error: BindError) -> OpenError
    ensures { result ≡ bind_refused error }
{
    match error {
        BindError::InvalidState => OpenError::InvalidState,
        BindError::Unaddressable => OpenError::Unaddressable,
    }
}

fn bound_answer(answer: Result<(), BindError>, port: u16) -> Result<u16, OpenError>
    ensures { result ≡ bound_answer answer port }
{
    match answer {
        Ok(()) => Ok(port),
        Err(error) => Err(bind_refused(error)),
    }
}

impl<'a, G: TsvalSource> Slot<'a, G> {
    fn bind(&mut self, addr: Option<IpAddress>, port: u16) -> Result<u16, OpenError>
        requires { IsSome (udp_in self.old.socket) }
        ensures { SlotBinds self.old addr port result self.new }
    {
        match &mut self.socket {
            Some(Socket::Udp(udp)) => {
                let answer = udp.bind(IpListenEndpoint { addr, port });
                bound_answer(answer, port)
            }
            _ => Err(OpenError::NoSocket),
        }
    }
}

fn bind_there<G: TsvalSource>(
    slots: &mut Vec<Slot<'_, G>>,
    i: usize,
    addr: Option<IpAddress>,
    port: u16,
) -> Result<u16, OpenError>
    requires within { i < length slots.old.items }
    requires udp { IfSome (slice_get slots.old.items i) (λ s. IsSome (udp_in s.socket)) }
    ensures { ChangesAt (λ before after. SlotBinds before addr port result after) slots.old.items i slots.new.items }
{
    slots[i].bind(addr, port)
}

impl<'a, G: TsvalSource> Filed<Slot<'a, G>> {
    // Whether a UDP socket has the handle.
    fn has_udp(&self, handle: SocketHandle) -> bool
        ensures { result ≡ is_some (udp_at self.now.slots.items handle) }
    {
        matches!(self.get(handle), Some(Socket::Udp(_)))
    }

    fn bind(
        &mut self,
        handle: SocketHandle,
        addr: Option<IpAddress>,
        port: u16,
    ) -> Result<u16, OpenError>
        ensures { BindsIf (udp_at self.old.slots.items handle) self.old.slots.items handle.index addr port result
            self.new.slots.items }
    {
        if !self.has_udp(handle) {
            return Err(OpenError::NoSocket);
        }
        self.lend_out(handle.index);
        bind_there(&mut self.slots, handle.index, addr, port)
    }
}

fn given_free<G: TsvalSource>(slots: &[Slot<'_, G>], port: u16) -> Option<u16>
    ensures { IsGivenFree port slots.now result }
{
    given_port(binding(slots, port), port)
}

// The port, where there is one: that which is asked for, or of 0 a free one.
fn find_binding<G: TsvalSource>(slots: &[Slot<'_, G>], port: u16, start: u16) -> Option<u16>
    ensures { FindsBinding port slots.now start result }
{
    if port == 0 {
        return free_binding(slots, start);
    }
    given_free(slots, port)
}

// At the port, where there is one.
fn bind_from<G: TsvalSource>(
    sockets: &mut SocketSet<'_, G>,
    handle: SocketHandle,
    addr: Option<IpAddress>,
    port: Option<u16>,
) -> Result<u16, OpenError>
    ensures { BindsFrom port sockets.old.slots.items handle addr result sockets.new.slots.items }
{
    match port {
        Some(port) => sockets.bind(handle, addr, port),
        None => Err(OpenError::InUse),
    }
}

fn bind_by<C: Context, G: TsvalSource>(
    sockets: &mut SocketSet<'_, G>,
    handle: SocketHandle,
    cx: &mut C,
    endpoint: IpListenEndpoint,
) -> Result<u16, OpenError>
    ensures { BindsBy C.facts C.word_at sockets.old.slots.items handle endpoint cx.old result sockets.new.slots.items
        cx.new }
{
    let start = draw_start(cx);
    let port = find_binding(&sockets.slots, endpoint.port, start);
    bind_from(sockets, handle, endpoint.addr, port)
}

impl<W: Words> Interface<W> {
    /// Binds a UDP socket of the set, and returns its port: the port given, or of 0 one that no UDP socket of the set
    /// is bound to, of 49152 to 65535, the first from a random one on (RFC 6056, section 3.3.1). Then as `bind` of the
    /// socket, at the address given, or at any.
    ///
    /// It looks at each socket of the set, for a free port at each of the few ports that are tried.
    ///
    /// # Errors
    /// In this order: `InUse` where another UDP socket of the set is bound to the port, at whichever address, or all
    /// ports are taken; `NoSocket` where no UDP socket has the handle; `InvalidState` where it is bound. A refusal
    /// changes nothing, but draws a random number.
    pub fn bind_udp<G: TsvalSource>(
        &mut self,
        sockets: &mut SocketSet<'_, G>,
        handle: SocketHandle,
        endpoint: IpListenEndpoint,
    ) -> Result<u16, OpenError>
        ensures bound { BindsBy (λ c. facts_by ⟦<IpAddress as PartialEq>⟧.eq c.environment)
            (λ c k. W.word_at c.words k) sockets.old.slots.items handle endpoint self.old.inner result
            sockets.new.slots.items self.new.inner }
        ensures same { (self.new.turn ≡ self.old.turn) × (self.new.resets ≡ self.old.resets)
            × (self.new.errors ≡ self.old.errors) × (self.new.counters ≡ self.old.counters)
            × (self.new.guards ≡ self.old.guards) × (self.new.cookies ≡ self.old.cookies)
            × (self.new.groups ≡ self.old.groups)
            × (self.new.most_of_source ≡ self.old.most_of_source) }
    {
        bind_by(sockets, handle, &mut self.inner, endpoint)
    }
}
