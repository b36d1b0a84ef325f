//! An interface takes what arrived at a device, and hands out what its sockets have to say.
ghost use Rattle.std.specs.Prelude.{◌≡◌, ◌≤◌, ◌<◌, ◌+◌, IfOk, IsTrue, is_err, length, max, min, true, false, nat_lt};
ghost use Rattle.sock_tcp.specs.Polls.{is_reached};
ghost use Rattle.sock_tcp.specs.View.{moment_of};
ghost use Rattle.net_host.specs.Facts.{facts_by};
ghost use Rattle.net_host.specs.Polling.{Emits, EmitsUpTo, FitsTo, Hears, HearsUpTo, Idles, Polls, Sends, SendsIf, had};
ghost use Rattle.net_host.specs.Speaking.{Due, earliest};
ghost use Rattle.net_host.specs.Walks.{Nowhere};

use crate::device::Device;
use crate::interface::Interface;
use crate::replies::LONGEST_REPLY;
use crate::set::SocketSet;
use crate::wire::TooShort;
use host_context::Words;
use smoltcp_socket::time::Instant;
use smoltcp_socket::wire::IpAddress;
use sock_tcp::TsvalSource;

/// How many packets a `poll` takes at most, and how many turns it gives at most.
pub const POLL_BURST: usize = 64;

// The packet at the beginning of a buffer is sent, or there is none.
fn send<D: Device>(device: &mut D, out: &[u8], len: usize)
    requires { len ≤ length out.now }
    ensures { SendsIf D.transmits (nat_lt 0 len) len out.now device.old device.new }
{
    if len > 0 {
        device.transmit(&out[..len]);
    }
}

// What `emit` wrote is sent. Whether a socket had a packet.
fn send_answer<D: Device>(device: &mut D, out: &[u8], answer: Result<usize, TooShort>) -> bool
    requires { IfOk answer (λ n. n ≤ length out.now) }
    ensures had { result ≡ had answer }
    ensures sent { Sends D.transmits answer out.now device.old device.new }
{
    match answer {
        Ok(len) => {
            send(device, out, len);
            len > 0
        }
        Err(_) => true,
    }
}

// Whether there is room for a packet of this MTU, and for what answers one.
fn have_room(mtu: usize, packet: &[u8], reply: &[u8]) -> bool
    ensures no { result ≡ false
        → (max 68 (min mtu 65535) ≤ length packet.now) × (max (max 68 (min mtu 65535)) 100 ≤ length reply.now) → ⊥ }
    ensures yes { result ≡ true → 100 ≤ length reply.now }
{
    let mtu = mtu.min(65535).max(68);
    mtu <= packet.len() && mtu.max(LONGEST_REPLY) <= reply.len()
}

impl<W: Words> Interface<W> {
    /// Takes the packets that arrived at the device, and then gives the sockets that are due their turns, until the
    /// device has no room: at most `POLL_BURST` of each, and each by a `receive` or an `emit` at this moment, whose
    /// answer the device sends. How many of both; 0 if none arrived and none was due. Fewer packets are taken only if
    /// the device has no room or no packet more, and fewer turns given only if it has no room or no socket is due; so
    /// whatever arrives, sockets have their turns.
    ///
    /// The MTU becomes the device's. Where fewer than `POLL_BURST` are answered and the device has room, no socket is
    /// due, and `poll_at` lies after this moment; else call it again, for what is left.
    ///
    /// A packet of a socket that is longer than `packet` stays with its socket, and counts as a turn: only one over
    /// IPv6 can be, with an MTU below 576.
    ///
    /// `packet` and `reply` are room for a packet each, whatever is in them.
    ///
    /// # Errors
    /// `TooShort` where one of them is shorter than the MTU, or `reply` than 100 bytes; nothing happens then.
    pub fn poll<D: Device, G: TsvalSource>(
        &mut self,
        sockets: &mut SocketSet<'_, G>,
        now: Instant,
        device: &mut D,
        packet: &mut [u8],
        reply: &mut [u8],
    ) -> Result<usize, TooShort>
        ensures refused { IsTrue (is_err result) → (self.new ≡ self.old) × (sockets.new ≡ sockets.old)
            × (device.new ≡ device.old) }
        ensures room { (max 68 (min (D.mtu device.old) 65535) ≤ length packet.old)
            × (max (max 68 (min (D.mtu device.old) 65535)) 100 ≤ length reply.old) → is_err result ≡ false }
        ensures within { IfOk result (λ n. n ≤ 128) }
        ensures polled { IfOk result (λ n. Polls ⟦<IpAddress as PartialEq>⟧.eq W.word_at G.tells D.has_room D.receives
            D.transmits now (D.mtu device.old) n self.old sockets.old.slots.items device.old self.new
            sockets.new.slots.items device.new) }
        ensures quiet { IfOk result (λ n. n < 64 → D.has_room device.new ≡ true → Nowhere (Due
            (facts_by ⟦<IpAddress as PartialEq>⟧.eq self.new.inner.environment)) sockets.new.slots.items) }
        ensures later { IfOk result (λ n. n < 64 → D.has_room device.new ≡ true → is_reached (earliest
            (facts_by ⟦<IpAddress as PartialEq>⟧.eq self.new.inner.environment) sockets.new.slots.items)
            (moment_of (facts_by ⟦<IpAddress as PartialEq>⟧.eq self.new.inner.environment)) ≡ false) }
    {
        let mtu = device.max_transmission_unit();
        if !have_room(mtu, packet, reply) {
            return Err(TooShort);
        }
        self.fit(mtu);
        let heard = self.hear_all(sockets, now, device, packet, reply);
        let spoken = self.emit_all(sockets, now, device, packet);
        Ok(heard + spoken)
    }

    fn fit(&mut self, mtu: usize)
        ensures { FitsTo mtu self.old self.new }
    {
        self.set_mtu(mtu);
    }

    // The next packet that arrived. Whether there was one.
    fn hear_next<D: Device, G: TsvalSource>(
        &mut self,
        sockets: &mut SocketSet<'_, G>,
        now: Instant,
        device: &mut D,
        packet: &mut [u8],
        reply: &mut [u8],
    ) -> bool
        requires { 100 ≤ length reply.old }
        ensures heard { result ≡ true → Hears ⟦<IpAddress as PartialEq>⟧.eq W.word_at G.tells D.receives D.transmits now
            self.old sockets.old.slots.items device.old self.new sockets.new.slots.items device.new }
        ensures none { result ≡ false → (self.new ≡ self.old) × (sockets.new.slots.items ≡ sockets.old.slots.items)
            × Idles D.has_room D.receives device.old device.new }
    {
        if !device.has_room() {
            return false;
        }
        let len = device.receive(packet);
        if len == 0 {
            return false;
        }
        let count = self.receive_at(sockets, now, &packet[..len], reply);
        send(device, reply, count);
        true
    }

    fn hear_all<D: Device, G: TsvalSource>(
        &mut self,
        sockets: &mut SocketSet<'_, G>,
        now: Instant,
        device: &mut D,
        packet: &mut [u8],
        reply: &mut [u8],
    ) -> usize
        requires { 100 ≤ length reply.old }
        ensures within { result ≤ 64 }
        ensures heard { HearsUpTo ⟦<IpAddress as PartialEq>⟧.eq W.word_at G.tells D.receives D.transmits now D.has_room
            result self.old sockets.old.slots.items device.old self.new sockets.new.slots.items device.new }
    {
        let mut count = 0;
        while count < POLL_BURST && self.hear_next(sockets, now, device, packet, reply) {
            count += 1;
        }
        count
    }

    // The next socket that is due. Whether it had a packet.
    fn emit_next<D: Device, G: TsvalSource>(
        &mut self,
        sockets: &mut SocketSet<'_, G>,
        now: Instant,
        device: &mut D,
        packet: &mut [u8],
    ) -> bool
        ensures emitted { Emits ⟦<IpAddress as PartialEq>⟧.eq G.tells D.transmits now result self.old
            sockets.old.slots.items device.old self.new sockets.new.slots.items device.new }
        ensures quiet { result ≡ false → Nowhere (Due (facts_by ⟦<IpAddress as PartialEq>⟧.eq
            self.new.inner.environment)) sockets.new.slots.items }
        ensures later { result ≡ false → is_reached (earliest (facts_by ⟦<IpAddress as PartialEq>⟧.eq
            self.new.inner.environment) sockets.new.slots.items) (moment_of (facts_by ⟦<IpAddress as PartialEq>⟧.eq
            self.new.inner.environment)) ≡ false }
    {
        let answer = self.emit(sockets, now, packet);
        send_answer(device, packet, answer)
    }

    fn emit_all<D: Device, G: TsvalSource>(
        &mut self,
        sockets: &mut SocketSet<'_, G>,
        now: Instant,
        device: &mut D,
        packet: &mut [u8],
    ) -> usize
        ensures within { result ≤ 64 }
        ensures emitted { EmitsUpTo ⟦<IpAddress as PartialEq>⟧.eq G.tells D.transmits now D.has_room result self.old
            sockets.old.slots.items device.old self.new sockets.new.slots.items device.new }
        ensures quiet { result < 64 → D.has_room device.new ≡ true → Nowhere (Due (facts_by
            ⟦<IpAddress as PartialEq>⟧.eq self.new.inner.environment)) sockets.new.slots.items }
        ensures later { result < 64 → D.has_room device.new ≡ true → is_reached (earliest (facts_by
            ⟦<IpAddress as PartialEq>⟧.eq self.new.inner.environment) sockets.new.slots.items) (moment_of (facts_by
            ⟦<IpAddress as PartialEq>⟧.eq self.new.inner.environment)) ≡ false }
    {
        let mut count = 0;
        while count < POLL_BURST && device.has_room() {
            if !self.emit_next(sockets, now, device, packet) {
                return count;
            }
            count += 1;
        }
        count
    }
}
