//! The calls of a TCP socket that ask for a context, but for those with packets.
ghost use Rattle.std.specs.Prelude.{◌≡◌, true, false};
ghost use Rattle.sock_core.specs.declared.context.PollAt.TheVariants.{Ingress};
ghost use Rattle.sock_tcp.specs.Opening.{after_connect, connect_answer as answer_of};
ghost use Rattle.sock_tcp.specs.Poll.{poll_moment};
ghost use Rattle.smoltcp_c.specs.Answers.{connect_answer, error_context};
ghost use Rattle.smoltcp_c.specs.Context.{facts_in, is_context};
ghost use Rattle.smoltcp_c.specs.Heard.{moment_told, poll_told};
ghost use Rattle.smoltcp_c.specs.Packets.{ends_in, poll_answer, poll_written};
ghost use Rattle.smoltcp_c.specs.Ends.{ended_by_answer};
ghost use Rattle.smoltcp_c.specs.contracts.clock.Clock.{the_row as clock_row};
ghost use Rattle.smoltcp_c.specs.declared.clock.Clock.{Clock};
ghost use Rattle.sock_tcp.specs.contracts.socket.Socket.{the_row as tcp_row};
ghost use Rattle.sock_tcp.specs.declared.socket.Socket.{Socket};
ghost use Rattle.std.specs.Borrow.{full_share, sem};
ghost use Rattle.std.specs.Ptr.{lies_at};
ghost use denote.Signature.{static_lft};
ghost use Rattle.smoltcp_c.specs.Tcp.{Refuses, clock, ended, view, IsSocket};

use crate::answers::{OK, connect_answer};
use crate::clock::Clock;
use crate::context::{Cx, Moment, in_context, is_in_context, moment_in};
use crate::endpoints::{Endpoint, endpoint_in, listen_in};
use crate::handles::TcpHandle;
use crate::packets::has_peer;
use sock_core::PollAt;
use sock_tcp::Socket;

/// Opens a connection to `remote`, from the local address given, else from the context's. 0, or an error:
/// `ERROR_STATE` where the socket is open, `ERROR_ADDRESS` where a port or an address is missing or the two addresses
/// are of different versions, `ERROR_CONTEXT`. The socket is as it was then.
#[unsafe(no_mangle)]
pub extern "C" fn smoltcp_tcp_connect_nonnull(
    h: &mut TcpHandle,
    cx: &Cx,
    remote: &Endpoint,
    local: &Endpoint,
) -> i64
    ensures context { is_context cx.entry.now ≡ false → Refuses error_context h.old result h.new }
    ensures answer { is_context cx.entry.now ≡ true
        → result ≡ connect_answer (answer_of (ends_in cx.entry.now remote.now local.now (view h.old))) }
    ensures socket { is_context cx.entry.now ≡ true → IsSocket h.old
        (after_connect (ends_in cx.entry.now remote.now local.now (view h.old)) (view h.old) cx.entry.now.word)
        (clock h.old) (ended_by_answer result (ended h.old)) h.new }
{
    let moment = in_context!(cx);
    opened(h.socket(), &moment, remote, local)
}

// Opens the connection.
#[tactic(auto, using(crate::proofs::Endings::by_connect))]
fn opened(
    socket: &mut Socket<'_, Clock>,
    moment: &Moment,
    remote: &Endpoint,
    local: &Endpoint,
) -> i64
    ensures answer { result
        ≡ connect_answer (answer_of (ends_in moment.now.cx remote.now local.now socket.old.control_block)) }
    ensures view { socket.new.control_block
        ≡ after_connect (ends_in moment.now.cx remote.now local.now socket.old.control_block)
        socket.old.control_block moment.now.cx.word }
    ensures clock { socket.new.tsval_generator ≡ socket.old.tsval_generator }
    ensures ended { socket.new.ended ≡ ended_by_answer result socket.old.ended }
{
    let mut cx = *moment;
    connect_answer(socket.connect(&mut cx, endpoint_in(remote), listen_in(local)))
}

/// When the socket wants its next dispatch: the moment in microseconds. `i64::MAX` where it wants none before a packet
/// comes, `i64::MIN` where the context is out of its ranges.
/// The socket lies at `at`. The pointer comes by value: no handle is written, and C's call ends in a jump.
#[unsafe(no_mangle)]
pub unsafe extern "C" fn smoltcp_tcp_poll_at_nonnull(at: *mut u8, cx: &Cx) -> i64
    ghost socket: { Socket Clock }
    requires* { sem 𝓛 (lies_at (tcp_row static_lft clock_row) full_share at socket) }
    ensures* { sem 𝓛 (lies_at (tcp_row static_lft clock_row) full_share at socket)
        ∗ ⌜ result ≡ poll_told cx.entry.now (poll_moment socket.control_block (facts_in cx.entry.now)) ⌝ }
{
    awaited(&mut *(at as *mut Socket<'static, Clock>), cx)
}

// What the socket waits for.
#[inline(always)]
#[tactic(auto, using(crate::proofs::Peers::nothing_awaited))]
fn awaited(socket: &mut Socket<'static, Clock>, cx: &Cx) -> i64
    ensures told { result ≡ poll_told cx.entry.now (poll_moment socket.old.control_block (facts_in cx.entry.now)) }
    ensures same { socket.new ≡ socket.old }
{
    if !has_peer(socket) {
        return unheard(cx);
    }
    polled(socket, cx)
}

// What a socket waits for that has no peer: a packet.
#[inline(always)]
fn unheard(cx: &Cx) -> i64
    ensures { result ≡ poll_told cx.entry.now Ingress }
{
    if is_in_context(cx) {
        i64::MAX
    } else {
        i64::MIN
    }
}

// Not inlined, so that a socket with no peer, as each that listens, has no registers to save.
#[inline(never)]
fn polled(socket: &Socket<'_, Clock>, cx: &Cx) -> i64
    ensures { result ≡ poll_told cx.entry.now (poll_moment socket.now.control_block (facts_in cx.entry.now)) }
{
    match moment_in(cx) {
        Some(moment) => moment_told(socket.poll_at(&moment), cx),
        None => i64::MIN,
    }
}

// The moment as a number.
fn moment_told(poll: PollAt, cx: &Cx) -> i64
    ensures { result ≡ moment_told poll cx.entry.now.now }
{
    match poll {
        PollAt::Now => cx.now,
        PollAt::Time(moment) => moment.micros,
        PollAt::Ingress => i64::MAX,
    }
}

/// Writes the moment, and answers whether there is one: 0, or 1 where there is none.
pub fn told(poll: PollAt, cx: &Cx, at: &mut i64) -> i64
    ensures answer { result ≡ poll_answer poll }
    ensures written { at.new ≡ poll_written poll cx.entry.now.now at.old }
{
    match poll {
        PollAt::Now => {
            *at = cx.now;
            OK
        }
        PollAt::Time(moment) => {
            *at = moment.micros;
            OK
        }
        PollAt::Ingress => 1,
    }
}
