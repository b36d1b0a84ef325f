//! The settings of a host, and what it counts.
ghost use Rattle.std.specs.Prelude.{◌≡◌, None, Some, max, min, pos};
ghost use Rattle.host_groups.specs.Joining.{join_answer, joined, leave_answer, left};
ghost use Rattle.net_host.specs.Limits.{keyed};
ghost use Rattle.smoltcp_c.specs.Numbers.{address_in};
ghost use Rattle.smoltcp_c.specs.Host.{KeepsSockets, counters_told, group_answer, guards_in, interface};

use crate::answers::{ERROR_ADDRESS, ERROR_ROOM, OK};
use crate::endpoints::{Address, address_in};
use crate::host::HostHandle;
use crate::host_numbers::{Counters, Guards, Key, counters_of, guards_in};
use host_groups::MulticastError;
use ip_wire::IpAddress;
use net_host::SynCookies;

/// Sets the largest IP packet, in bytes: 68 to 65535, and the nearest of these for any other. Answers 0.
#[unsafe(no_mangle)]
pub extern "C" fn smoltcp_host_set_mtu_nonnull(h: &mut HostHandle, mtu: usize) -> i64
    ensures answer { result ≡ pos 0 }
    ensures mtu { (interface h.new).inner.environment.mtu ≡ max 68 (min mtu 65535) }
    ensures environment { ((interface h.new).inner.environment.addresses
        ≡ (interface h.old).inner.environment.addresses)
        × ((interface h.new).inner.environment.now ≡ (interface h.old).inner.environment.now)
        × ((interface h.new).inner.environment.checksums ≡ (interface h.old).inner.environment.checksums)
        × ((interface h.new).inner.words ≡ (interface h.old).inner.words) }
    ensures interface { ((interface h.new).turn ≡ (interface h.old).turn)
        × ((interface h.new).resets ≡ (interface h.old).resets) × ((interface h.new).errors ≡ (interface h.old).errors)
        × ((interface h.new).counters ≡ (interface h.old).counters)
        × ((interface h.new).guards ≡ (interface h.old).guards)
        × ((interface h.new).cookies ≡ (interface h.old).cookies)
        × ((interface h.new).groups ≡ (interface h.old).groups)
        × ((interface h.new).most_of_source ≡ (interface h.old).most_of_source) }
    ensures same { KeepsSockets h.old h.new }
{
    h.host().interface.set_mtu(mtu);
    OK
}

/// Sets how long peers may leave TCP connections waiting, from the next `emit` on. Answers 0.
#[unsafe(no_mangle)]
pub extern "C" fn smoltcp_host_set_guards_nonnull(h: &mut HostHandle, guards: &Guards) -> i64
    ensures answer { result ≡ pos 0 }
    ensures guards { (interface h.new).guards ≡ guards_in guards.now }
    ensures interface { ((interface h.new).inner ≡ (interface h.old).inner)
        × ((interface h.new).turn ≡ (interface h.old).turn) × ((interface h.new).resets ≡ (interface h.old).resets)
        × ((interface h.new).errors ≡ (interface h.old).errors)
        × ((interface h.new).counters ≡ (interface h.old).counters)
        × ((interface h.new).cookies ≡ (interface h.old).cookies)
        × ((interface h.new).groups ≡ (interface h.old).groups)
        × ((interface h.new).most_of_source ≡ (interface h.old).most_of_source) }
    ensures same { KeepsSockets h.old h.new }
{
    h.host().interface.set_guards(guards_in(guards));
    OK
}

/// SYNs may be answered without a socket from the next packet on, under this key (RFC 4987, section 3.6): the sockets
/// from the place `kept_from` on are kept for peers that answer. Answers 0.
#[unsafe(no_mangle)]
pub extern "C" fn smoltcp_host_set_syn_cookies_nonnull(
    h: &mut HostHandle,
    key: &Key,
    kept_from: usize,
) -> i64
    ensures answer { result ≡ pos 0 }
    ensures cookies { (interface h.new).cookies ≡ Some (record {
      key = key.now.bytes;
      kept_from = kept_from;
      answered = None;
    }) }
    ensures interface { ((interface h.new).inner ≡ (interface h.old).inner)
        × ((interface h.new).turn ≡ (interface h.old).turn) × ((interface h.new).resets ≡ (interface h.old).resets)
        × ((interface h.new).errors ≡ (interface h.old).errors)
        × ((interface h.new).counters ≡ (interface h.old).counters)
        × ((interface h.new).guards ≡ (interface h.old).guards)
        × ((interface h.new).groups ≡ (interface h.old).groups)
        × ((interface h.new).most_of_source ≡ (interface h.old).most_of_source) }
    ensures same { KeepsSockets h.old h.new }
{
    let cookies = SynCookies::new(key.bytes, kept_from);
    h.host().interface.set_syn_cookies(Some(cookies));
    OK
}

/// No SYN is answered without a socket any more, as in a new host. Answers 0.
#[unsafe(no_mangle)]
pub extern "C" fn smoltcp_host_stop_syn_cookies_nonnull(h: &mut HostHandle) -> i64
    ensures answer { result ≡ pos 0 }
    ensures cookies { (interface h.new).cookies ≡ None }
    ensures interface { ((interface h.new).inner ≡ (interface h.old).inner)
        × ((interface h.new).turn ≡ (interface h.old).turn) × ((interface h.new).resets ≡ (interface h.old).resets)
        × ((interface h.new).errors ≡ (interface h.old).errors)
        × ((interface h.new).counters ≡ (interface h.old).counters)
        × ((interface h.new).guards ≡ (interface h.old).guards)
        × ((interface h.new).groups ≡ (interface h.old).groups)
        × ((interface h.new).most_of_source ≡ (interface h.old).most_of_source) }
    ensures same { KeepsSockets h.old h.new }
{
    h.host().interface.set_syn_cookies(None);
    OK
}

/// Sets how many TCP connections one source may have, from the next packet on: an address of IPv4, or 64 bits of one of
/// IPv6 (in `::/64` each address); 0, as in a new host, allows any number. A SYN that would begin one more is dropped,
/// and so is what a SYN cookie would open. Answers 0.
#[unsafe(no_mangle)]
pub extern "C" fn smoltcp_host_set_most_of_source_nonnull(h: &mut HostHandle, most: usize) -> i64
    ensures answer { result ≡ pos 0 }
    ensures most { (interface h.new).most_of_source ≡ most }
    ensures interface { ((interface h.new).inner ≡ (interface h.old).inner)
        × ((interface h.new).turn ≡ (interface h.old).turn) × ((interface h.new).resets ≡ (interface h.old).resets)
        × ((interface h.new).errors ≡ (interface h.old).errors)
        × ((interface h.new).counters ≡ (interface h.old).counters)
        × ((interface h.new).guards ≡ (interface h.old).guards)
        × ((interface h.new).cookies ≡ (interface h.old).cookies)
        × ((interface h.new).groups ≡ (interface h.old).groups) }
    ensures same { KeepsSockets h.old h.new }
{
    h.host().interface.set_most_of_source(most);
    OK
}

/// Sets the key by which sources share the limits of RSTs and ICMP errors: a random number, which nobody can guess. In
/// a new host it is a constant. Answers 0.
#[unsafe(no_mangle)]
pub extern "C" fn smoltcp_host_set_answer_key_nonnull(h: &mut HostHandle, key: u64) -> i64
    ensures answer { result ≡ pos 0 }
    ensures resets { (interface h.new).resets ≡ keyed key (interface h.old).resets }
    ensures errors { (interface h.new).errors ≡ keyed key (interface h.old).errors }
    ensures interface { ((interface h.new).inner ≡ (interface h.old).inner)
        × ((interface h.new).turn ≡ (interface h.old).turn)
        × ((interface h.new).counters ≡ (interface h.old).counters)
        × ((interface h.new).guards ≡ (interface h.old).guards)
        × ((interface h.new).cookies ≡ (interface h.old).cookies)
        × ((interface h.new).groups ≡ (interface h.old).groups)
        × ((interface h.new).most_of_source ≡ (interface h.old).most_of_source) }
    ensures same { KeepsSockets h.old h.new }
{
    h.host().interface.set_answer_key(key);
    OK
}

fn group_answer(answer: Result<(), MulticastError>) -> i64
    ensures { result ≡ group_answer answer }
{
    match answer {
        Ok(()) => OK,
        Err(MulticastError::GroupTableFull) => ERROR_ROOM,
        Err(MulticastError::Unaddressable) => ERROR_ADDRESS,
    }
}

/// Joins a group: packets to it are taken then, for UDP and raw sockets. 0, or `ERROR_ADDRESS` where the address is
/// none of a group, `ERROR_ROOM` where four others were joined.
#[unsafe(no_mangle)]
pub extern "C" fn smoltcp_host_join_nonnull(h: &mut HostHandle, group: &Address) -> i64
    ensures answer { result ≡ group_answer (join_answer ⟦<IpAddress as PartialEq>⟧.eq (interface h.old).groups
        (address_in group.now)) }
    ensures value { (interface h.new) ≡ record (interface h.old) {
      groups = joined ⟦<IpAddress as PartialEq>⟧.eq (interface h.old).groups (address_in group.now);
    } }
    ensures same { KeepsSockets h.old h.new }
{
    group_answer(h.host().interface.join_multicast_group(address_in(group)))
}

/// Leaves a group, if it was joined. 0, or `ERROR_ADDRESS` where the address is none of a group.
#[unsafe(no_mangle)]
pub extern "C" fn smoltcp_host_leave_nonnull(h: &mut HostHandle, group: &Address) -> i64
    ensures answer { result ≡ group_answer (leave_answer (address_in group.now)) }
    ensures value { (interface h.new) ≡ record (interface h.old) {
      groups = left ⟦<IpAddress as PartialEq>⟧.eq (interface h.old).groups (address_in group.now);
    } }
    ensures same { KeepsSockets h.old h.new }
{
    group_answer(h.host().interface.leave_multicast_group(address_in(group)))
}

/// Writes how many packets were dropped, by their reasons, into `out`. Answers 0.
#[unsafe(no_mangle)]
pub extern "C" fn smoltcp_host_counters_nonnull(h: &mut HostHandle, out: &mut Counters) -> i64
    ensures answer { result ≡ pos 0 }
    ensures told { out.new ≡ counters_told (interface h.old).counters }
    ensures at { h.new.at ≡ h.old.at }
    ensures same { h.new.host ≡ h.old.host }
{
    *out = counters_of(h.host().interface.counters());
    OK
}
