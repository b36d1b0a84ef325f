//! What a socket is asked by a number: flags, sizes and settings.
ghost use Rattle.std.specs.Prelude.{◌≡◌};
ghost use Rattle.sock_tcp.specs.Queues.{can_recv, can_send, may_send};
ghost use Rattle.smoltcp_c.specs.Answers.{flag_answer, state_answer};
ghost use Rattle.smoltcp_c.specs.Asked.{icmp_told, raw_told, setting_told, tcp_told, udp_told};
ghost use Rattle.smoltcp_c.specs.Tcp.{view};

use crate::answers::{ERROR_RANGE, count_answer, flag_answer, state_answer};
use crate::clock::Clock;
use crate::handles::{IcmpHandle, RawHandle, TcpHandle, UdpHandle};
use crate::raw_filter::{protocol_of, version_of};
use crate::settings::{byte_told, kind_told, micros_told, rules_told};
use sock_tcp::Socket;

// What a socket with two queues of packets is asked; or else by the numbers that follow.
macro_rules! of_queues {
    ($socket:ident, $what:ident, $($n:literal => $answer:expr),*) => {
        match $what {
            0 => flag_answer($socket.can_send()),
            1 => flag_answer($socket.can_recv()),
            2 => count_answer($socket.send_queue()),
            3 => count_answer($socket.recv_queue()),
            6 => count_answer($socket.packet_send_capacity()),
            7 => count_answer($socket.packet_recv_capacity()),
            8 => count_answer($socket.payload_send_capacity()),
            9 => count_answer($socket.payload_recv_capacity()),
            $($n => $answer,)*
            _ => ERROR_RANGE,
        }
    };
}

/// Answers what a UDP socket is asked: 0 `can_send`, 1 `can_recv`, 2 `send_queue`, 3 `recv_queue`, 4 `is_open`,
/// 5 `hop_limit` (0 where none is set, for 64), 6 `packet_send_capacity`, 7 `packet_recv_capacity`,
/// 8 `payload_send_capacity`, 9 `payload_recv_capacity`. Flags are 1 or 0, and numbers 2^30 at most. `ERROR_RANGE` for
/// another question.
#[unsafe(no_mangle)]
#[tactic(auto, unfolding(crate::specs::Asked::udp_told))]
pub extern "C" fn smoltcp_udp_ask_nonnull(h: &mut UdpHandle, what: u32) -> i64
    ensures answer { result ≡ udp_told what h.old.socket }
    ensures at { h.new.at ≡ h.old.at }
    ensures same { h.new.socket ≡ h.old.socket }
{
    let socket = h.socket();
    of_queues!(socket, what, 4 => flag_answer(socket.is_open()), 5 => byte_told(socket.hop_limit()))
}

/// Answers what an ICMP socket is asked, as a UDP socket.
#[unsafe(no_mangle)]
#[tactic(auto, unfolding(crate::specs::Asked::icmp_told))]
pub extern "C" fn smoltcp_icmp_ask_nonnull(h: &mut IcmpHandle, what: u32) -> i64
    ensures answer { result ≡ icmp_told what h.old.socket }
    ensures at { h.new.at ≡ h.old.at }
    ensures same { h.new.socket ≡ h.old.socket }
{
    let socket = h.socket();
    of_queues!(socket, what, 4 => flag_answer(socket.is_open()), 5 => byte_told(socket.hop_limit()))
}

/// Answers what a raw socket is asked, as a UDP socket, but for 4 and 5; 10 `ip_version`, which is 4, 6, or 0 for both,
/// and 11 `ip_protocol`, the number of the protocol, or -1 for any.
#[unsafe(no_mangle)]
#[tactic(auto, unfolding(crate::specs::Asked::raw_told))]
pub extern "C" fn smoltcp_raw_ask_nonnull(h: &mut RawHandle, what: u32) -> i64
    ensures answer { result ≡ raw_told what h.old.socket }
    ensures at { h.new.at ≡ h.old.at }
    ensures same { h.new.socket ≡ h.old.socket }
{
    let socket = h.socket();
    of_queues!(socket, what, 10 => version_of(socket.ip_version()), 11 => protocol_of(socket.ip_protocol()))
}

/// Answers what a TCP socket is asked: 2 to 5 as a UDP socket, 12 `is_listening`, 13 `is_active`, 14 `has_work`,
/// 15 `may_recv`, 16 `send_capacity`, 17 `recv_capacity`, 18 `timeout`, 19 `keep_alive`, 20 `ack_delay` (all three in
/// microseconds, or -1 for none), 21 `nagle_enabled`, 22 `congestion_control` (0 none, 1 Reno, 2 CUBIC), 23
/// `timestamp_enabled`, 24 `rules` (0 smoltcp's, 1 the RFCs'), 25 `min_rto` in microseconds. `ERROR_RANGE` for another
/// question.
#[unsafe(no_mangle)]
pub extern "C" fn smoltcp_tcp_ask_nonnull(h: &mut TcpHandle, what: u32) -> i64
    ensures answer { result ≡ tcp_told what (view h.old) }
    ensures at { h.new.at ≡ h.old.at }
    ensures same { h.new.socket ≡ h.old.socket }
{
    told_by_tcp(h.socket(), what)
}

#[tactic(auto, unfolding(crate::specs::Asked::tcp_told))]
fn told_by_tcp(socket: &Socket<'_, Clock>, what: u32) -> i64
    ensures { result ≡ tcp_told what socket.now.control_block }
{
    match what {
        2 => socket.send_queue() as i64,
        3 => socket.recv_queue() as i64,
        4 => flag_answer(socket.is_open()),
        12 => flag_answer(socket.is_listening()),
        13 => flag_answer(socket.is_active()),
        14 => flag_answer(socket.has_work()),
        15 => flag_answer(socket.may_recv()),
        16 => {
            socket.send_queue();
            socket.send_capacity() as i64
        }
        17 => {
            socket.recv_queue();
            socket.recv_capacity() as i64
        }
        _ => setting_told(socket, what),
    }
}

#[tactic(auto, unfolding(crate::specs::Asked::setting_told))]
fn setting_told(socket: &Socket<'_, Clock>, what: u32) -> i64
    ensures { result ≡ setting_told what socket.now.control_block }
{
    match what {
        5 => byte_told(socket.hop_limit()),
        18 => micros_told(socket.timeout()),
        19 => micros_told(socket.keep_alive()),
        20 => micros_told(socket.ack_delay()),
        21 => flag_answer(socket.nagle_enabled()),
        22 => kind_told(socket.congestion_control()),
        23 => flag_answer(socket.timestamp_enabled()),
        24 => rules_told(socket.rules()),
        25 => micros_told(Some(socket.min_rto())),
        _ => ERROR_RANGE,
    }
}

/// The state of the connection: 0 CLOSED, 1 LISTEN, 2 SYN-SENT, 3 SYN-RECEIVED, 4 ESTABLISHED, 5 FIN-WAIT-1,
/// 6 FIN-WAIT-2, 7 CLOSE-WAIT, 8 CLOSING, 9 LAST-ACK, 10 TIME-WAIT.
#[unsafe(no_mangle)]
pub extern "C" fn smoltcp_tcp_state_nonnull(h: &mut TcpHandle) -> i64
    ensures answer { result ≡ state_answer (view h.old).state }
    ensures at { h.new.at ≡ h.old.at }
    ensures same { h.new.socket ≡ h.old.socket }
{
    state_answer(h.socket().state())
}

/// 1 where the state lets bytes be sent, else 0.
#[unsafe(no_mangle)]
pub extern "C" fn smoltcp_tcp_may_send_nonnull(h: &mut TcpHandle) -> i64
    ensures answer { result ≡ flag_answer (may_send (view h.old).state) }
    ensures at { h.new.at ≡ h.old.at }
    ensures same { h.new.socket ≡ h.old.socket }
{
    flag_answer(h.socket().may_send())
}

/// 1 where `send` would take at least one byte, else 0.
#[unsafe(no_mangle)]
pub extern "C" fn smoltcp_tcp_can_send_nonnull(h: &mut TcpHandle) -> i64
    ensures answer { result ≡ flag_answer (can_send (view h.old)) }
    ensures at { h.new.at ≡ h.old.at }
    ensures same { h.new.socket ≡ h.old.socket }
{
    flag_answer(h.socket().can_send())
}

/// 1 where the receive queue has a byte, else 0.
#[unsafe(no_mangle)]
pub extern "C" fn smoltcp_tcp_can_recv_nonnull(h: &mut TcpHandle) -> i64
    ensures answer { result ≡ flag_answer (can_recv (view h.old)) }
    ensures at { h.new.at ≡ h.old.at }
    ensures same { h.new.socket ≡ h.old.socket }
{
    flag_answer(h.socket().can_recv())
}
