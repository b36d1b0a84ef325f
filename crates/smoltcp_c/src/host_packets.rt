//! What arrives at a host, what goes out of it, and when to look again.
ghost use Rattle.std.specs.Prelude.{◌≡◌, ◌<◌, ◌≤◌, Ok, false, length, max, pos};
ghost use Rattle.sock_tcp.specs.Polls.{is_reached};
ghost use Rattle.sock_tcp.specs.View.{moment_of};
ghost use Rattle.net_host.specs.Facts.{facts_by};
ghost use Rattle.net_host.specs.HostCalls.{EmitsAt, ReceivesAt};
ghost use Rattle.net_host.specs.Looking.{Unseen};
ghost use Rattle.net_host.specs.Speaking.{Due, earliest};
ghost use Rattle.net_host.specs.Touching.{NoneIsMarked, Touches};
ghost use Rattle.net_host.specs.Walks.{Nowhere};
ghost use Rattle.smoltcp_c.specs.Answers.{error_room};
ghost use Rattle.smoltcp_c.specs.Host.{Counts, interface, length_answer, slots};
ghost use Rattle.smoltcp_c.specs.Packets.{poll_answer, poll_written};
ghost use Rattle.smoltcp_c.specs.Tcp.{Answers};

use crate::answers::{ERROR_ROOM, OK};
use crate::clock::Clock;
use crate::host::{Host, HostHandle};
use host_context::Words;
use ip_wire::IpAddress;
use net_base::time::Instant;
use net_host::Secret;
use sock_core::PollAt;
use sock_tcp::TsvalSource;

/// Takes an IP packet that arrives at this moment, in microseconds. The length of the packet that answers it, written
/// at the beginning of `reply`, or 0 for none; as `Interface::receive`. `ERROR_ROOM` where `reply` is shorter than the
/// MTU, or than 100 bytes; nothing happens then.
#[unsafe(no_mangle)]
pub extern "C" fn smoltcp_host_receive_nonnull(
    h: &mut HostHandle,
    now: i64,
    packet: &[u8],
    reply: &mut [u8],
) -> i64
    ensures short { length reply.old < max (interface h.old).inner.environment.mtu 100
        → (result ≡ error_room) × (h.new.host ≡ h.old.host) × (reply.new ≡ reply.old) }
    ensures taken { max (interface h.old).inner.environment.mtu 100 ≤ length reply.old
        → Counts result (λ n. ReceivesAt ⟦<IpAddress as PartialEq>⟧.eq ⟦<Secret as Words>⟧.word_at
        ⟦<Clock as TsvalSource>⟧.tells (record { micros = now }) packet.now (interface h.old) (slots h.old) reply.old n
        (interface h.new) (slots h.new) reply.new) }
    ensures within { max (interface h.old).inner.environment.mtu 100 ≤ length reply.old
        → Counts result (λ n. n ≤ length reply.old) }
    ensures touched { Touches h.old.host.sockets.bounds (slots h.old) h.new.host.sockets.bounds (slots h.new) }
    ensures at { h.new.at ≡ h.old.at }
{
    let host = h.host();
    let now = Instant { micros: now };
    match host
        .interface
        .receive(&mut host.sockets, now, packet, reply)
    {
        Ok(len) => len as i64,
        Err(_) => ERROR_ROOM,
    }
}

/// Writes the next packet of a socket that is due at this moment, in microseconds, into `out`, and answers its length;
/// 0 where no socket is due. As `Interface::emit`: a packet that is longer than the MTU is dropped and counted.
/// `ERROR_ROOM` where `out` is too short for another: its socket offers it again. Where the answer is 0, no socket is
/// touched.
#[unsafe(no_mangle)]
pub extern "C" fn smoltcp_host_emit_nonnull(h: &mut HostHandle, now: i64, out: &mut [u8]) -> i64
    ensures table { Answers length_answer (λ r. EmitsAt ⟦<IpAddress as PartialEq>⟧.eq ⟦<Clock as TsvalSource>⟧.tells
        (record { micros = now }) (interface h.old) (slots h.old) out.old r (interface h.new) (slots h.new) out.new)
        result }
    ensures quiet { result ≡ pos 0 → Nowhere (Due (facts_by ⟦<IpAddress as PartialEq>⟧.eq
        (interface h.new).inner.environment)) (slots h.new) }
    ensures seen { result ≡ pos 0 → Nowhere (Unseen (interface h.old).guards) (slots h.new) }
    ensures later { result ≡ pos 0 → is_reached (earliest (facts_by ⟦<IpAddress as PartialEq>⟧.eq
        (interface h.new).inner.environment) (slots h.new)) (moment_of (facts_by ⟦<IpAddress as PartialEq>⟧.eq
        (interface h.new).inner.environment)) ≡ false }
    ensures asleep { result ≡ pos 0 → NoneIsMarked h.new.host.sockets.bounds }
    ensures at { h.new.at ≡ h.old.at }
{
    let host = h.host();
    let now = Instant { micros: now };
    match host.interface.emit(&mut host.sockets, now, out) {
        Ok(len) => len as i64,
        Err(_) => ERROR_ROOM,
    }
}

/// When `emit` next has something to do: writes the moment in microseconds into `at`, and answers 0; 1 where it has
/// nothing before a packet comes, with `at` as it was. As `Interface::poll_at`: so ask after an `emit` that answered 0.
#[unsafe(no_mangle)]
pub extern "C" fn smoltcp_host_poll_at_nonnull(h: &mut HostHandle, at: &mut i64) -> i64
    ensures answer { result ≡ poll_answer (earliest (facts_by ⟦<IpAddress as PartialEq>⟧.eq
        (interface h.old).inner.environment) (slots h.old)) }
    ensures written { at.new ≡ poll_written (earliest (facts_by ⟦<IpAddress as PartialEq>⟧.eq
        (interface h.old).inner.environment) (slots h.old)) (interface h.old).inner.environment.now.micros at.old }
    ensures at { h.new.at ≡ h.old.at }
    ensures same { h.new.host ≡ h.old.host }
{
    let host = h.host();
    let poll = host.interface.poll_at(&host.sockets);
    tell(poll, host.interface.now(), at)
}

// Writes the moment, and answers whether there is one: 0, or 1 where there is none.
fn tell(poll: PollAt, now: Instant, at: &mut i64) -> i64
    ensures answer { result ≡ poll_answer poll }
    ensures written { at.new ≡ poll_written poll now.micros at.old }
{
    match poll {
        PollAt::Now => {
            *at = now.micros;
            OK
        }
        PollAt::Time(moment) => {
            *at = moment.micros;
            OK
        }
        PollAt::Ingress => 1,
    }
}
