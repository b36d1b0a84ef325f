//! Packets that go out.
ghost use Rattle.std.specs.Prelude.{◌≡◌, ◌↔◌, IsTrue, Err, false, option_map};
ghost use Rattle.net_base.specs.Packets.{first_packet, starts_padded};
ghost use Rattle.ip_wire.specs.Checksum.{is_sent};
ghost use Rattle.ip_wire.specs.Packet.{IsIpv4};
ghost use Rattle.sock_dgram.specs.Raw.{waiting};
ghost use Rattle.sock_dgram.specs.RawDispatch.{outgoing_of, Plans, parsed_first, is_sound_ipv4, prepared, parsed};
ghost use Rattle.sock_dgram.specs.RawDispatch.{EmitsFirst, first_prepared, offered, prepared_buffer, Dispatched};

use crate::raw::socket::Socket;
use ip_wire::{
    ChecksumCapabilities, IpRepr, IpVersion, Ipv4Packet, Ipv4Repr, Ipv6Packet, Ipv6Repr,
};
use sock_core::Context;

impl<'a> Socket<'a> {
    // Sets the checksum of the first packet, and drops the padding in front of it. To do so again changes nothing of
    // what is offered.
    fn prepare_first(&mut self, sent: bool)
        ensures after { self.new ≡ record self.old { tx_buffer = prepared_buffer sent self.old.tx_buffer } }
        ensures queue { waiting self.new ≡ first_prepared sent (waiting self.old) }
        ensures again { offered sent (first_packet self.new.tx_buffer)
            ≡ offered sent (first_packet self.old.tx_buffer) }
        ensures packet { starts_padded self.new.tx_buffer.entries ≡ false }
    {
        let _ = self.tx_buffer.dequeue_with(
            move |_header: &(), bytes: &mut [u8]| -> Result<(), ()>
                ensures stays { result ≡ Err tt }
                ensures bytes { bytes.new ≡ prepared sent bytes.old }
            {
                prepare(bytes, sent);
                Err(())
            },
        );
    }

    // The first packet, where it is one that the socket sends.
    fn outgoing(&self) -> Option<(IpRepr, &[u8])>
        requires packet { starts_padded self.now.tx_buffer.entries ≡ false }
        ensures { Plans self.now (parsed_first (first_packet self.now.tx_buffer)) (option_map outgoing_of result) }
    {
        let (_, bytes) = self.tx_buffer.first().ok()?;
        let (ip_repr, payload) = parsed(bytes)?;
        if !self.accepts(&ip_repr) {
            return None;
        }
        Some((ip_repr, payload))
    }

    // The one call of `emit`, if there is something to emit.
    fn emit_first<C: Context, E, F: FnOnce(&mut C, (IpRepr, &[u8])) -> Result<(), E>>(
        &self,
        cx: &mut C,
        emit: F,
    ) -> Result<(), E>
        requires callable { F.IsAlwaysCallable emit }
        requires packet { starts_padded self.now.tx_buffer.entries ≡ false }
        ensures { EmitsFirst F.FnOnce emit self.now cx.old result cx.new }
    {
        match self.outgoing() {
            None => Ok(()),
            Some(outgoing) => emit(cx, outgoing),
        }
    }

    /// Emits the first packet of the transmit queue: calls `emit` once with its header and its payload. Where the queue
    /// is empty, nothing happens; a packet that is malformed, or of another version of IP or protocol than the
    /// socket's, leaves the queue without an emit.
    ///
    /// The checksum of an IPv4 header is filled before, or set to 0 where the context's settings leave it to the
    /// device.
    ///
    /// # Errors
    /// The error that `emit` answers is passed on; the packet then stays first, and the next `dispatch` offers it
    /// again.
    pub fn dispatch<C: Context, E, F: FnOnce(&mut C, (IpRepr, &[u8])) -> Result<(), E>>(
        &mut self,
        cx: &mut C,
        emit: F,
    ) -> Result<(), E>
        requires callable { F.IsAlwaysCallable emit }
        ensures table { Dispatched F.FnOnce emit (is_sent (C.facts cx.old).checksums.ipv4) self.old cx.old
            result cx.new self.new }
    {
        let sent = cx.checksum_caps().ipv4.tx();
        self.prepare_first(sent);
        self.emit_first(cx, emit)?;
        self.tx_buffer.take_first();
        Ok(())
    }
}

// Whether the lengths that an IPv4 packet states of itself fit.
fn is_sound_ipv4(packet: &[u8]) -> bool
    ensures value { result ≡ is_sound_ipv4 packet.now }
    ensures sound { IsTrue result → IsIpv4 packet.now }
{
    Ipv4Packet::new_checked(packet).is_ok()
}

// Sets the checksum of an IPv4 packet.
#[tactic(auto, unfolding(crate::specs::RawDispatch::prepared))]
fn prepare(packet: &mut [u8], sent: bool)
    ensures { packet.new ≡ prepared sent packet.old }
{
    let Ok(IpVersion::Ipv4) = IpVersion::of_packet(packet) else {
        return;
    };
    if !is_sound_ipv4(packet) {
        return;
    }
    if sent {
        Ipv4Packet::fill_checksum(packet);
    } else {
        Ipv4Packet::set_checksum(packet, 0);
    }
}

// A packet's header and its payload, whatever its checksum.
#[tactic(auto, unfolding(crate::specs::RawDispatch::parsed))]
fn parsed(packet: &[u8]) -> Option<(IpRepr, &[u8])>
    ensures { option_map outgoing_of result ≡ parsed packet.now }
{
    match IpVersion::of_packet(packet).ok()? {
        IpVersion::Ipv4 => {
            let packet = Ipv4Packet::new_checked(packet).ok()?;
            let repr = Ipv4Repr::parse(&packet, &ChecksumCapabilities::ignored()).ok()?;
            Some((IpRepr::Ipv4(repr), packet.payload()))
        }
        IpVersion::Ipv6 => {
            let packet = Ipv6Packet::new_checked(packet).ok()?;
            let repr = Ipv6Repr::parse(&packet).ok()?;
            Some((IpRepr::Ipv6(repr), packet.payload()))
        }
    }
}
