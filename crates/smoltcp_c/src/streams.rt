//! The bytes of a TCP connection.
ghost use Rattle.std.specs.Prelude.{◌≡◌, ◌≤◌, ◌^◌, min, length, IfOk};
ghost use Rattle.smoltcp_c.specs.Answers.{send_answer, recv_answer};
ghost use Rattle.sock_tcp.specs.Queues.{Sends, Reads, PeeksInto};
ghost use Rattle.smoltcp_c.specs.Streams.{Commits, Consumes, LendsFree, LendsQueue, TellsPlace, taken_of};
ghost use Rattle.smoltcp_c.specs.Tcp.{Answers, view, IsView};

use crate::answers::{ERROR_RANGE, recv_answer, send_answer};
use crate::clock::Clock;
use crate::handles::TcpHandle;
use crate::lends::place;
use crate::memory::{LARGEST, Place};
use sock_tcp::{RecvError, Socket};

/// Puts as many bytes of a beginning of `data` into the transmit queue as fit, and answers how many. `ERROR_STATE`
/// where the state does not let bytes be sent; nothing changes then.
#[unsafe(no_mangle)]
pub extern "C" fn smoltcp_tcp_send_nonnull(h: &mut TcpHandle, data: &[u8]) -> i64
    ensures table { Answers send_answer (λ r. Sends (view h.old) «data».now r (view h.new)) result }
    ensures same { IsView h.old (view h.new) h.new }
{
    let socket = h.socket();
    socket.send_queue();
    send_answer(socket.send_slice(data))
}

/// Moves as many bytes from the front of the receive queue into `data` as fit, and answers how many. `ERROR_FINISHED`
/// where the peer has closed and all that it sent was read; `ERROR_STATE` where no bytes can come. Nothing changes
/// then.
#[unsafe(no_mangle)]
pub extern "C" fn smoltcp_tcp_recv_nonnull(h: &mut TcpHandle, data: &mut [u8]) -> i64
    ensures table { Answers recv_answer (λ r. Reads (view h.old) «data».old r (view h.new) «data».new) result }
    ensures same { IsView h.old (view h.new) h.new }
{
    let socket = h.socket();
    socket.recv_queue();
    recv_answer(socket.recv_slice(data))
}

/// Copies as many bytes from the front of the receive queue into `data` as fit, and answers how many. The bytes stay.
/// Refused as `recv`; nothing changes then.
#[unsafe(no_mangle)]
pub extern "C" fn smoltcp_tcp_peek_slice_nonnull(h: &mut TcpHandle, data: &mut [u8]) -> i64
    ensures table { Answers recv_answer (λ r. PeeksInto (view h.old) «data».old r «data».new) result }
    ensures at { h.new.at ≡ h.old.at }
    ensures same { h.new.socket ≡ h.old.socket }
{
    let socket = h.socket();
    socket.recv_queue();
    recv_answer(socket.peek_slice(data))
}

/// Lends the receive queue up to the end of its ring's storage, but at most `size` bytes: writes into `out` where these
/// bytes lie and how many they are, and answers how many. Refused as `recv`; `out` is as it was then. The bytes stay:
/// they may be read until the next call on the socket, and `consume` drops them.
#[unsafe(no_mangle)]
pub extern "C" fn smoltcp_tcp_peek_nonnull(h: &mut TcpHandle, size: usize, out: &mut Place) -> i64
    ensures told { LendsQueue (view h.old) size out.old result out.new }
    ensures at { h.new.at ≡ h.old.at }
    ensures same { h.new.socket ≡ h.old.socket }
{
    let socket = h.socket();
    socket.recv_queue();
    tell_place(socket.peek(size), out)
}

// Writes where the bytes lie, if they are there.
fn tell_place(bytes: Result<&[u8], RecvError>, out: &mut Place) -> i64
    requires short { IfOk bytes (λ b. length b.now ≤ 2 ^ 30) }
    ensures { TellsPlace bytes.entry out.old result out.new }
{
    match bytes {
        Err(error) => recv_answer(Err(error)),
        Ok(bytes) => {
            *out = place(bytes);
            bytes.len() as i64
        }
    }
}

/// Drops so many bytes from the front of the receive queue, and answers how many. `ERROR_RANGE` where it has fewer;
/// refused as `recv`. Nothing changes then.
#[unsafe(no_mangle)]
pub extern "C" fn smoltcp_tcp_consume_nonnull(h: &mut TcpHandle, count: usize) -> i64
    ensures table { Consumes (view h.old) count result (view h.new) }
    ensures same { IsView h.old (view h.new) h.new }
{
    consumed(h.socket(), count)
}

/// Lends the free places behind the transmit queue that stand in one piece: writes into `out` where they lie and how
/// many they are, and answers how many. `ERROR_STATE` where the state does not let bytes be sent; nothing changes then.
/// Bytes may be written there until the next call on the socket, and `commit` sends them.
#[unsafe(no_mangle)]
pub extern "C" fn smoltcp_tcp_reserve_nonnull(h: &mut TcpHandle, out: &mut Place) -> i64
    ensures table { LendsFree (view h.old) out.old result out.new (view h.new) }
    ensures same { IsView h.old (view h.new) h.new }
{
    reserved(h.socket(), out)
}

/// Puts the first `count` bytes of what `reserve` lends into the transmit queue, as they stand there, and answers how
/// many. `ERROR_RANGE` where it lends fewer, with the queue as it was; `ERROR_STATE` as `reserve`.
#[unsafe(no_mangle)]
pub extern "C" fn smoltcp_tcp_commit_nonnull(h: &mut TcpHandle, count: usize) -> i64
    ensures table { Commits (view h.old) count result (view h.new) }
    ensures same { IsView h.old (view h.new) h.new }
{
    committed(h.socket(), count)
}

// Drops the bytes, where they are there.
#[tactic(auto, using(crate::proofs::Lent::beyond_queue, crate::proofs::Lent::dropped))]
fn consumed(socket: &mut Socket<'_, Clock>, count: usize) -> i64
    ensures table { Consumes socket.old.control_block count result socket.new.control_block }
    ensures clock { socket.new.tsval_generator ≡ socket.old.tsval_generator }
    ensures ended { socket.new.ended ≡ socket.old.ended }
{
    if socket.may_recv() && socket.recv_queue() < count {
        return ERROR_RANGE;
    }
    socket.recv_queue();
    recv_answer(socket.consume(count))
}

// Writes where the free places lie, where bytes may be sent.
fn reserved(socket: &mut Socket<'_, Clock>, out: &mut Place) -> i64
    ensures table { LendsFree socket.old.control_block out.old result out.new socket.new.control_block }
    ensures clock { socket.new.tsval_generator ≡ socket.old.tsval_generator }
    ensures ended { socket.new.ended ≡ socket.old.ended }
{
    socket.send_queue();
    let lent = socket.send(
        move |places: &mut [u8]| -> (usize, Place)
            ensures { (result.0 ≡ 0) × (result.1.len ≡ length places.old) × (places.new ≡ places.old) }
        { (0, place(places)) },
    );
    match lent {
        Err(error) => send_answer(Err(error)),
        Ok(free) => {
            *out = free;
            free.len.min(LARGEST) as i64
        }
    }
}

// Sends the bytes, where there are so many places.
fn committed(socket: &mut Socket<'_, Clock>, count: usize) -> i64
    ensures table { Commits socket.old.control_block count result socket.new.control_block }
    ensures clock { socket.new.tsval_generator ≡ socket.old.tsval_generator }
    ensures ended { socket.new.ended ≡ socket.old.ended }
{
    socket.send_queue();
    let sent = socket.send(
        move |places: &mut [u8]| -> (usize, usize)
            ensures { (result.0 ≡ taken_of count (length places.old)) × (result.1 ≡ length places.old)
                × (places.new ≡ places.old) }
        {
            let there = places.len();
            (if count <= there { count } else { 0 }, there)
        },
    );
    match sent {
        Err(error) => send_answer(Err(error)),
        Ok(there) => if count <= there {
            count.min(LARGEST) as i64
        } else {
            ERROR_RANGE
        },
    }
}
