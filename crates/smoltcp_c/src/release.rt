//! Sockets are let go of, and their memory is C's again.
ghost use Rattle.std.specs.Prelude.{◌≡◌, pos, length, None, is_some, true};
ghost use Rattle.net_base.specs.Ring.{capacity_of};
ghost use Rattle.smoltcp_c.specs.Release.{GivesBack, is_released, left_by_release, may_release, release_answer};
ghost use Rattle.smoltcp_c.specs.Release.{IsBack, bytes_of, places_of, rx_room, tx_room};

use crate::answers::{ERROR_STATE, OK};
use crate::clock::Clock;
use crate::handles::{
    IcmpPlacesBack, IcmpRoom, RawPlacesBack, RawRoom, TcpRoom, UdpPlacesBack, UdpRoom,
};
use crate::memory::BytesBack;
use net_base::ring_buffer::RingBuffer;
use sock_tcp::{Socket, State};

/// Lets go of the socket, which leaves room for another, and writes into `rx` and `tx` where its buffers lie, which are
/// the caller's again. Answers 0. Bytes that were not read are gone.
///
/// `ERROR_STATE` where the socket is not CLOSED (in TIME-WAIT it is not), or a peer has yet to be told by an RST.
/// Nothing changes then.
#[unsafe(no_mangle)]
pub extern "C" fn smoltcp_tcp_release_nonnull(
    room: &mut TcpRoom,
    rx: &mut BytesBack,
    tx: &mut BytesBack,
) -> i64
    requires there { is_some room.old.made ≡ true }
    ensures answer { result ≡ release_answer room.old.made }
    ensures at { room.new.at ≡ room.old.at }
    ensures made { room.new.made ≡ left_by_release room.old.made }
    ensures rx { GivesBack (is_released room.old.made) (rx_room room.old.made) rx.old rx.new }
    ensures tx { GivesBack (is_released room.old.made) (tx_room room.old.made) tx.old tx.new }
{
    let socket = room.take();
    if may_release(&socket) {
        let (received, sent) = socket.into_buffers();
        *rx = BytesBack::of(storage(received));
        *tx = BytesBack::of(storage(sent));
        return OK;
    }
    room.fill(socket);
    ERROR_STATE
}

// The slice of a ring.
#[tactic(auto, using(net_base::proofs::Cells::storage_is))]
fn storage(ring: RingBuffer<'static, u8>) -> &'static mut [u8]
    ensures { length result.now ≡ capacity_of ring.entry }
{
    let (bytes, _, _) = ring.into_parts();
    bytes
}

// Whether the socket is CLOSED, and no peer has yet to be told by an RST.
fn may_release(socket: &Socket<'_, Clock>) -> bool
    ensures { result ≡ may_release socket.now.control_block }
{
    matches!(socket.state(), State::Closed) && socket.remote_endpoint().is_none()
}

/// Lets go of the socket, which leaves room for another, and writes where the places and bytes of its queues lie, which
/// are the caller's again. The datagrams in them are gone. Answers 0.
#[unsafe(no_mangle)]
pub extern "C" fn smoltcp_udp_release_nonnull(
    room: &mut UdpRoom,
    rx_places: &mut UdpPlacesBack,
    rx: &mut BytesBack,
    tx_places: &mut UdpPlacesBack,
    tx: &mut BytesBack,
) -> i64
    requires there { is_some room.old.made ≡ true }
    ensures answer { result ≡ pos 0 }
    ensures at { room.new.at ≡ room.old.at }
    ensures made { room.new.made ≡ None }
    ensures rx_places { IsBack (places_of (λ s. s.rx_buffer) room.old.made) rx_places.new.len rx_places.new.given }
    ensures rx { IsBack (bytes_of (λ s. s.rx_buffer) room.old.made) rx.new.len rx.new.given }
    ensures tx_places { IsBack (places_of (λ s. s.tx_buffer) room.old.made) tx_places.new.len tx_places.new.given }
    ensures tx { IsBack (bytes_of (λ s. s.tx_buffer) room.old.made) tx.new.len tx.new.given }
{
    let (received, sent) = room.take().into_buffers();
    let (places, bytes) = received.into_slices();
    *rx_places = UdpPlacesBack::of(places);
    *rx = BytesBack::of(bytes);
    let (places, bytes) = sent.into_slices();
    *tx_places = UdpPlacesBack::of(places);
    *tx = BytesBack::of(bytes);
    OK
}

/// Lets go of the socket, which leaves room for another, and writes where the places and bytes of its queues lie, which
/// are the caller's again. The packets in them are gone. Answers 0.
#[unsafe(no_mangle)]
pub extern "C" fn smoltcp_raw_release_nonnull(
    room: &mut RawRoom,
    rx_places: &mut RawPlacesBack,
    rx: &mut BytesBack,
    tx_places: &mut RawPlacesBack,
    tx: &mut BytesBack,
) -> i64
    requires there { is_some room.old.made ≡ true }
    ensures answer { result ≡ pos 0 }
    ensures at { room.new.at ≡ room.old.at }
    ensures made { room.new.made ≡ None }
    ensures rx_places { IsBack (places_of (λ s. s.rx_buffer) room.old.made) rx_places.new.len rx_places.new.given }
    ensures rx { IsBack (bytes_of (λ s. s.rx_buffer) room.old.made) rx.new.len rx.new.given }
    ensures tx_places { IsBack (places_of (λ s. s.tx_buffer) room.old.made) tx_places.new.len tx_places.new.given }
    ensures tx { IsBack (bytes_of (λ s. s.tx_buffer) room.old.made) tx.new.len tx.new.given }
{
    let (received, sent) = room.take().into_buffers();
    let (places, bytes) = received.into_slices();
    *rx_places = RawPlacesBack::of(places);
    *rx = BytesBack::of(bytes);
    let (places, bytes) = sent.into_slices();
    *tx_places = RawPlacesBack::of(places);
    *tx = BytesBack::of(bytes);
    OK
}

/// Lets go of the socket, which leaves room for another, and writes where the places and bytes of its queues lie, which
/// are the caller's again. The messages in them are gone. Answers 0.
#[unsafe(no_mangle)]
pub extern "C" fn smoltcp_icmp_release_nonnull(
    room: &mut IcmpRoom,
    rx_places: &mut IcmpPlacesBack,
    rx: &mut BytesBack,
    tx_places: &mut IcmpPlacesBack,
    tx: &mut BytesBack,
) -> i64
    requires there { is_some room.old.made ≡ true }
    ensures answer { result ≡ pos 0 }
    ensures at { room.new.at ≡ room.old.at }
    ensures made { room.new.made ≡ None }
    ensures rx_places { IsBack (places_of (λ s. s.rx_buffer) room.old.made) rx_places.new.len rx_places.new.given }
    ensures rx { IsBack (bytes_of (λ s. s.rx_buffer) room.old.made) rx.new.len rx.new.given }
    ensures tx_places { IsBack (places_of (λ s. s.tx_buffer) room.old.made) tx_places.new.len tx_places.new.given }
    ensures tx { IsBack (bytes_of (λ s. s.tx_buffer) room.old.made) tx.new.len tx.new.given }
{
    let (received, sent) = room.take().into_buffers();
    let (places, bytes) = received.into_slices();
    *rx_places = IcmpPlacesBack::of(places);
    *rx = BytesBack::of(bytes);
    let (places, bytes) = sent.into_slices();
    *tx_places = IcmpPlacesBack::of(places);
    *tx = BytesBack::of(bytes);
    OK
}
