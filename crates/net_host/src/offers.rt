//! What the answer to a SYN tells by its timestamp, and what an acknowledgement brings back: the window scale and SACK
//! (RFC 7323, sections 2.2 and 3.2; RFC 2018, section 2).
ghost use Rattle.std.specs.Prelude.{◌≡◌, ◌<◌, ◌≤◌, IfSome, slice_get};
ghost use Rattle.control_wire.specs.Segment.{segment_of};
ghost use Rattle.sock_tcp.specs.Content.{scale_back};
ghost use Rattle.net_host.specs.Cookies.{TellsAt, TellsIn, clock_brought, own_at, own_in, own_of, sack_brought};
ghost use Rattle.net_host.specs.Cookies.{scale_brought, told_by, told_to, with_options};

use crate::segments::Taker;
use crate::slot::Slot;
use control_wire::TcpTimestampRepr;
use host_cookies::{offer_bits, sack_in, scale_in, stamped, told_number};
use smoltcp_socket::Socket;
use smoltcp_socket::wire::TcpRepr;
use sock_tcp::TsvalSource;

impl<G: TsvalSource> Slot<'_, G> {
    // The own window scale, where the socket sends timestamps.
    fn own_scale(&self) -> Option<u8>
        ensures value { result ≡ own_in self.now.socket }
        ensures bound { IfSome result (λ n. n ≤ 14) }
    {
        match &self.socket {
            Some(Socket::Tcp(tcp)) => {
                if tcp.timestamp_enabled() {
                    Some(tcp.local_win_scale())
                } else {
                    None
                }
            }
            _ => None,
        }
    }

    // The value of the socket's clock, where it has one.
    fn clock(&self) -> Option<u32>
        ensures { TellsIn G.tells self.now.socket result }
    {
        match &self.socket {
            Some(Socket::Tcp(tcp)) => tcp.tsval(),
            _ => None,
        }
    }
}

/// The own window scale of the socket at this place, where it sends timestamps.
pub(crate) fn own_at<G: TsvalSource>(slots: &[Slot<'_, G>], place: usize) -> Option<u8>
    ensures value { result ≡ own_at (slice_get slots.now place) }
    ensures bound { IfSome result (λ n. n ≤ 14) }
{
    match slots.get(place) {
        Some(slot) => slot.own_scale(),
        None => None,
    }
}

/// The same of who listens.
pub(crate) fn own_of<G: TsvalSource>(slots: &[Slot<'_, G>], taker: Taker) -> Option<u8>
    ensures { result ≡ own_of slots.now taker }
{
    match taker {
        Taker::Listener(place) => own_at(slots, place),
        _ => None,
    }
}

/// The value of the clock of the socket at this place, where it has one.
pub(crate) fn clock_at<G: TsvalSource>(slots: &[Slot<'_, G>], place: usize) -> Option<u32>
    ensures { TellsAt G.tells (slice_get slots.now place) result }
{
    match slots.get(place) {
        Some(slot) => slot.clock(),
        None => None,
    }
}

/// What the number of an answer stands for, beside the class.
pub(crate) fn told_to(own: Option<u8>, syn: &TcpRepr<'_>) -> u16
    ensures { result ≡ told_to own syn.now.timestamp (segment_of syn.now) }
{
    match (own, syn.timestamp) {
        (Some(_), Some(_)) => told_number(offer_bits(syn.window_scale, syn.sack_permitted)),
        _ => 0,
    }
}

/// The same, by the timestamp of an acknowledgement.
pub(crate) fn told_by(stamp: Option<TcpTimestampRepr>) -> u16
    ensures { result ≡ told_by stamp }
{
    match stamp {
        None => 0,
        Some(stamp) => told_number((stamp.tsecr % 32) as u8),
    }
}

/// The window scale that an acknowledgement brings back.
pub(crate) fn scale_brought(stamp: Option<TcpTimestampRepr>) -> Option<u8>
    ensures { result ≡ scale_brought stamp }
{
    match stamp {
        None => None,
        Some(stamp) => scale_in(stamp.tsecr),
    }
}

/// Whether it brings back that SACK is permitted.
pub(crate) fn sack_brought(stamp: Option<TcpTimestampRepr>) -> bool
    ensures { result ≡ sack_brought stamp }
{
    match stamp {
        None => false,
        Some(stamp) => sack_in(stamp.tsecr),
    }
}

/// The timestamp of the SYN before it: the peer's clock, which echoes nothing.
pub(crate) fn clock_brought(stamp: Option<TcpTimestampRepr>) -> Option<TcpTimestampRepr>
    ensures { result ≡ clock_brought stamp }
{
    match stamp {
        None => None,
        Some(stamp) => Some(TcpTimestampRepr::new(stamp.tsval, 0)),
    }
}

// The own window scale is told to a peer that tells one.
fn scale_back(scale: Option<u8>, shift: u8) -> Option<u8>
    ensures { result ≡ scale_back scale shift }
{
    match scale {
        None => None,
        Some(_) => Some(shift),
    }
}

/// The options of an answer to this SYN that has a timestamp, where the listener sends them.
pub(crate) fn add_options(
    own: Option<u8>,
    clock: Option<u32>,
    syn: &TcpRepr<'_>,
    answer: &mut TcpRepr<'static>,
)
    ensures segment { segment_of answer.new
        ≡ with_options own clock syn.now.timestamp (segment_of syn.now) (segment_of answer.old) }
    ensures payload { answer.new.payload ≡ answer.old.payload }
{
    if let (Some(shift), Some(clock), Some(stamp)) = (own, clock, syn.timestamp) {
        let bits = offer_bits(syn.window_scale, syn.sack_permitted);
        answer.window_scale = scale_back(syn.window_scale, shift);
        answer.sack_permitted = syn.sack_permitted;
        answer.timestamp = Some(TcpTimestampRepr::new(stamped(clock, bits), stamp.tsval));
    }
}
