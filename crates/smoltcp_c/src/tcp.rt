//! The calls of a TCP socket that take no context and no packet.
ghost use Rattle.std.specs.Prelude.{◌≡◌, ◌+◌, ◌≤◌, ◌^◌, pos, length, None, option_map};
ghost use Rattle.std.specs.Option.{ForSome};
ghost use Rattle.smoltcp_c.specs.Answers.{listen_answer};
ghost use Rattle.smoltcp_c.specs.Numbers.{TellsEnd, listen_in, listen_told};
ghost use Rattle.net_base.specs.Ring.{empty_ring};
ghost use Rattle.sock_core.specs.Received.{receiving};
ghost use Rattle.sock_tcp.specs.Closing.{closed, aborted};
ghost use Rattle.sock_tcp.specs.Opening.{Listens};
ghost use Rattle.sock_tcp.specs.Queue.{queue_of};
ghost use Rattle.sock_tcp.specs.Ended.{ended_by_abort, ended_by_close};
ghost use Rattle.smoltcp_c.specs.Ends.{ended_by_answer};
ghost use Rattle.smoltcp_c.specs.Tcp.{Answers, clock, ended, made_over, view, IsSocket};

use crate::answers::{OK, listen_answer};
use crate::clock::Clock;
use crate::endpoints::{Endpoint, endpoint_of, listen_in, listen_of};
use crate::handles::{TcpHandle, TcpRoom};
use crate::memory::Bytes;
use ip_wire::IpEndpoint;
use net_base::ring_buffer::RingBuffer;
use sock_tcp::{Rules, Socket};

/// Makes a closed socket over the two buffers, of at most 2^30 bytes each, in the room. The socket has the RFCs' rules
/// and no source of timestamps. The three pieces of memory are the socket's until it is released. Answers 0.
#[unsafe(no_mangle)]
pub extern "C" fn smoltcp_tcp_init_nonnull(room: &mut TcpRoom, rx: Bytes, tx: Bytes) -> i64
    requires empty { room.old.made ≡ None }
    requires rx { rx.len ≤ 2 ^ 30 }
    requires tx { tx.len ≤ 2 ^ 30 }
    ensures answer { result ≡ pos 0 }
    ensures at { room.new.at ≡ room.old.at }
    ensures made { ForSome room.new.made (λ s. s.control_block
        ≡ made_over (receiving (empty_ring rx.bytes)) (queue_of (empty_ring tx.bytes))) }
    ensures clock { ForSome room.new.made (λ s. s.tsval_generator ≡ None) }
    ensures ended { ForSome room.new.made (λ s. s.ended ≡ None) }
{
    let rx = RingBuffer::new(rx.lend());
    let tx = RingBuffer::new(tx.lend());
    room.fill(closed_over(rx, tx));
    OK
}

// A closed socket by the RFCs' rules: who writes C has no programs for smoltcp's.
#[tactic(auto, unfolding(sock_tcp::specs::View::fresh))]
fn closed_over(rx: RingBuffer<'static, u8>, tx: RingBuffer<'static, u8>) -> Socket<'static, Clock>
    requires rx { length rx.queue + length rx.spare ≤ 2 ^ 30 }
    requires tx { length tx.queue + length tx.spare ≤ 2 ^ 30 }
    ensures socket { result.control_block ≡ made_over (receiving rx.entry) (queue_of tx.entry) }
    ensures clock { result.tsval_generator ≡ None }
    ensures ended { result.ended ≡ None }
{
    let mut socket = Socket::closed(rx, tx, None);
    let _ = socket.set_rules(Rules::Rfc);
    socket
}

/// Waits for a peer on this endpoint. 0, or an error: `ERROR_ADDRESS` where the port is 0, `ERROR_STATE` where the
/// socket is open but does not listen on this endpoint.
#[unsafe(no_mangle)]
#[tactic(auto, using(crate::proofs::Endings::by_listen))]
pub extern "C" fn smoltcp_tcp_listen_nonnull(h: &mut TcpHandle, endpoint: &Endpoint) -> i64
    ensures table { Answers listen_answer (λ r. Listens (view h.old) (listen_in endpoint.now) r (view h.new)) result }
    ensures same { IsSocket h.old (view h.new) (clock h.old) (ended_by_answer result (ended h.old)) h.new }
{
    let endpoint = listen_in(endpoint);
    listen_answer(h.socket().listen(endpoint))
}

/// Closes the transmit half: nothing more can be sent, and a FIN follows what was. Answers 0.
#[unsafe(no_mangle)]
pub extern "C" fn smoltcp_tcp_close_nonnull(h: &mut TcpHandle) -> i64
    ensures answer { result ≡ pos 0 }
    ensures closed { IsSocket h.old (closed (view h.old)) (clock h.old)
        (ended_by_close (view h.old).state (ended h.old)) h.new }
{
    h.socket().close();
    OK
}

/// Ends the connection at once: the socket is CLOSED, and where it has a peer, the next dispatch sends an RST.
/// Answers 0.
#[unsafe(no_mangle)]
pub extern "C" fn smoltcp_tcp_abort_nonnull(h: &mut TcpHandle) -> i64
    ensures answer { result ≡ pos 0 }
    ensures aborted { IsSocket h.old (aborted (view h.old)) (clock h.old)
        (ended_by_abort (view h.old).state (ended h.old)) h.new }
{
    h.socket().abort();
    OK
}

/// Writes the own endpoint into `out`, where there is a peer, and answers 1; else 0, with `out` as it was.
#[unsafe(no_mangle)]
pub extern "C" fn smoltcp_tcp_local_endpoint_nonnull(h: &mut TcpHandle, out: &mut Endpoint) -> i64
    ensures told { TellsEnd (option_map (λ t. t.local) (view h.old).tuple) out.old result out.new }
    ensures at { h.new.at ≡ h.old.at }
    ensures same { h.new.socket ≡ h.old.socket }
{
    tell_end(h.socket().local_endpoint(), out)
}

/// Writes the peer's endpoint into `out`, where there is a peer, and answers 1; else 0, with `out` as it was.
#[unsafe(no_mangle)]
pub extern "C" fn smoltcp_tcp_remote_endpoint_nonnull(h: &mut TcpHandle, out: &mut Endpoint) -> i64
    ensures told { TellsEnd (option_map (λ t. t.remote) (view h.old).tuple) out.old result out.new }
    ensures at { h.new.at ≡ h.old.at }
    ensures same { h.new.socket ≡ h.old.socket }
{
    tell_end(h.socket().remote_endpoint(), out)
}

// Writes the endpoint, if any, and answers whether there is one.
fn tell_end(end: Option<IpEndpoint>, out: &mut Endpoint) -> i64
    ensures { TellsEnd end out.old result out.new }
{
    match end {
        None => 0,
        Some(end) => {
            *out = endpoint_of(end);
            1
        }
    }
}

/// Writes the endpoint on which the socket listens, or listened last, into `out`: its port is 0 where there is none,
/// its version 0 where it has no address. Answers 0.
#[unsafe(no_mangle)]
pub extern "C" fn smoltcp_tcp_listen_endpoint_nonnull(h: &mut TcpHandle, out: &mut Endpoint) -> i64
    ensures answer { result ≡ pos 0 }
    ensures told { out.new ≡ listen_told (view h.old).listen_endpoint }
    ensures at { h.new.at ≡ h.old.at }
    ensures same { h.new.socket ≡ h.old.socket }
{
    *out = listen_of(h.socket().listen_endpoint());
    OK
}
