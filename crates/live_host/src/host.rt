//! The host: its services, on the sockets of an interface.
ghost use Rattle.std.specs.Prelude.{◌<◌, IfSome, length};

use crate::clock::{Clock, Sockets};
use crate::outbox::Outbox;
use crate::pattern::Patterns;
use crate::service::{SERVICES, Service};
use crate::slot::Slot;
use net_host::{Interface, Secret, SocketHandle};
use smoltcp_socket::tcp::State;
use smoltcp_socket::time::Instant;
use smoltcp_socket::{Context, Socket};
use std::alloc::{AllocError, Global};

// At most so many packets go out at one moment; the outbox has no room for more, unless they are short.
const PACKETS: usize = 16_384;

// So many sockets are looked at for one that can listen, at each packet and for each service, so that a flood of SYNs
// costs no walk through all of them.
const LOOKS: usize = 32;

/// What came of the packets that arrived.
#[derive(Clone, Copy)]
pub struct Counts {
    /// Packets that arrived.
    pub arrived: u64,
    /// Of these, with a wrong header, checksum or length.
    pub malformed: u64,
    /// For another address or protocol, from an address that no single other host has, or a fragment.
    pub unwanted: u64,
    /// Segments and datagrams for no socket.
    pub refused: u64,
}

/// A host with one interface. The set is a type parameter, as the check does not yet state a struct that has one in a
/// field, and so is the clock, which lives as long.
#[derive(Drop)]
pub struct Host<S, C> {
    alloc: Global,
    interface: Interface<Secret>,
    clock: C,
    sockets: S,
    // the TCP sockets, each at the place of the set that its socket has
    slots: Vec<Slot>,
    udp: SocketHandle,
    // of each service the slot that was the last to listen for it
    listeners: [Option<usize>; 4],
    // the places from here on are kept for peers that answer a SYN cookie
    kept_from: usize,
    // from where on the next socket is looked for that can listen, before those that are kept, and among them
    next: usize,
    next_kept: usize,
    outbox: Outbox,
    patterns: Patterns,
    arrived: u64,
}

/// A host with these sockets.
pub type LiveHost<'a> = Host<Sockets<'a>, Clock<'a>>;

impl<'a> Host<Sockets<'a>, Clock<'a>> {
    /// A host whose TCP sockets stand at the first places of the set, and the UDP socket behind them. The clock is the
    /// one that they read.
    pub fn new(
        alloc: Global,
        interface: Interface<Secret>,
        clock: Clock<'a>,
        sockets: Sockets<'a>,
        slots: Vec<Slot>,
        udp: SocketHandle,
        kept_from: usize,
        outbox: Outbox,
    ) -> LiveHost<'a> {
        Host {
            alloc,
            interface,
            clock,
            sockets,
            slots,
            udp,
            listeners: [None; 4],
            kept_from,
            next: 0,
            next_kept: kept_from,
            outbox,
            patterns: Patterns::new(),
            arrived: 0,
        }
    }

    /// What came of the packets so far.
    pub fn counts(&self) -> Counts {
        let dropped = self.interface.counters();
        Counts {
            arrived: self.arrived,
            malformed: dropped
                .malformed
                .wrapping_add(dropped.segment)
                .wrapping_add(dropped.datagram)
                .wrapping_add(dropped.message),
            unwanted: dropped
                .source
                .wrapping_add(dropped.destination)
                .wrapping_add(dropped.protocol),
            refused: dropped.busy.wrapping_add(dropped.nobody),
        }
    }

    /// The records of the packets that are to be written.
    pub fn records(&self) -> &[u8] {
        self.outbox.records()
    }

    /// Takes an IP packet at a moment, in microseconds; one of no bytes only says what time it is. What the sockets
    /// answer, and what is due, waits to be written afterwards, in place of what waited before.
    /// A moment of more than 2^60 microseconds counts as so many.
    pub fn receive(&mut self, micros: u64, packet: &[u8]) -> Result<(), AllocError> {
        let now = moment(micros);
        let clock = self.clock;
        clock.advance(micros);
        self.outbox.begin(micros);
        self.listen();
        if !packet.is_empty() {
            self.arrived = self.arrived.wrapping_add(1);
            self.take(now, packet);
        }
        self.serve()?;
        self.echo_datagram();
        self.speak(now);
        Ok(())
    }

    fn take(&mut self, now: Instant, packet: &[u8]) {
        let Some(reply) = self.outbox.room() else {
            return;
        };
        let answer = self
            .interface
            .receive(&mut self.sockets, now, packet, reply);
        self.outbox.add(answer.unwrap_or(0));
    }

    // The services run whose connections may have changed.
    fn serve(&mut self) -> Result<(), AllocError> {
        let mut from = 0usize;
        for _ in 0..=self.slots.len() {
            let Some(place) = self.sockets.touched(from) else {
                break;
            };
            self.serve_at(place)?;
            from = place.saturating_add(1);
        }
        Ok(())
    }

    fn serve_at(&mut self, place: usize) -> Result<(), AllocError> {
        let Some(slot) = self.slots.get_mut(place) else {
            return Ok(());
        };
        let Some(socket) = self.sockets.tcp_mut(slot.handle) else {
            return Ok(());
        };
        slot.serve(self.alloc, socket, &self.patterns)
    }

    // What is due goes out, as far as there is room.
    fn speak(&mut self, now: Instant) {
        for _ in 0..PACKETS {
            let Some(room) = self.outbox.room() else {
                return;
            };
            match self.interface.emit(&mut self.sockets, now, room) {
                Ok(count) if count > 0 => self.outbox.add(count),
                _ => return,
            }
        }
    }
}

// Who listens.
impl LiveHost<'_> {
    // Keeps a socket waiting for each service, where one can.
    fn listen(&mut self) {
        for (i, service) in SERVICES.iter().enumerate() {
            if !self.has_listener(i) {
                self.open(i, *service);
            }
        }
    }

    fn has_listener(&self, i: usize) -> bool {
        match self.listeners.get(i) {
            Some(Some(place)) => self.state(*place) == Some(State::Listen),
            _ => false,
        }
    }

    // Whether it is the one that listens for a service.
    fn is_listener(&self, place: usize) -> bool {
        for listener in &self.listeners {
            if *listener == Some(place) {
                return true;
            }
        }
        false
    }

    fn state(&self, place: usize) -> Option<State> {
        match self.sockets.get(self.slots.get(place)?.handle)? {
            Socket::Tcp(socket) => Some(socket.state()),
            _ => None,
        }
    }

    fn open(&mut self, i: usize, service: Service) {
        let Some(place) = self.spare() else {
            return;
        };
        let Some(slot) = self.slots.get_mut(place) else {
            return;
        };
        let clock = self.clock;
        if let Some(socket) = self.sockets.tcp_mut(slot.handle) {
            slot.listen(socket, service, clock);
            if let Some(listener) = self.listeners.get_mut(i) {
                *listener = Some(place);
            }
        }
    }

    // A place that is kept only where no other may listen.
    fn spare(&mut self) -> Option<usize> {
        let (open, next) = self.spare_between(0, self.kept_from, self.next);
        self.next = next;
        if open.is_some() {
            return open;
        }
        let (kept, next) = self.spare_between(self.kept_from, self.slots.len(), self.next_kept);
        self.next_kept = next;
        kept
    }

    // Of the next few of these places the first that is closed or whose handshake was given up, else the first in
    // TIME-WAIT; and where to go on. So no socket stays with the service that it listened for last: SYNs to one port
    // take none from the others for longer than a handshake may last.
    fn spare_between(&self, start: usize, end: usize, next: usize) -> (Option<usize>, usize) {
        let (mut place, mut resting) = (next, None);
        for _ in 0..LOOKS.min(end.saturating_sub(start)) {
            let here = place;
            place = if here.saturating_add(1) < end {
                here.saturating_add(1)
            } else {
                start
            };
            match self.state(here) {
                Some(State::Closed) => return (Some(here), place),
                Some(State::Listen) if !self.is_listener(here) => return (Some(here), place),
                Some(State::TimeWait) if resting.is_none() => resting = Some(here),
                _ => {}
            }
        }
        (resting, place)
    }
}

// Datagrams.
impl LiveHost<'_> {
    fn has_datagram(&self) -> bool {
        match self.sockets.get(self.udp) {
            Some(Socket::Udp(udp)) => udp.can_recv(),
            _ => false,
        }
    }

    // Sends a datagram back that came to an address of the host alone (RFC 1122, section 3.2.1.3: no other is a
    // source), unless it came from a port of such a service: two of them would answer each other for ever.
    fn echo_datagram(&mut self) {
        if !self.has_datagram() {
            return;
        }
        let Some(udp) = self.sockets.udp_mut(self.udp) else {
            return;
        };
        let mut bytes = [0u8; 2048];
        if let Ok((count, from)) = udp.recv_slice(&mut bytes) {
            let own = match from.local_address {
                Some(addr) => self.interface.context().has_ip_addr(addr),
                None => false,
            };
            if own && Service::of_port(from.endpoint.port).is_none() {
                let _ = udp.send_slice(&bytes[..count], from);
            }
        }
    }
}

fn moment(micros: u64) -> Instant {
    Instant::from_micros(micros.min(1 << 60) as i64)
}
