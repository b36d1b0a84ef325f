//! Sockets of a host connect, and are bound, with addresses and ports that the host chooses; its addresses change.
ghost use Rattle.std.specs.Prelude.{◌≡◌, false, map, pos, true};
ghost use Rattle.net_host.specs.Bindings.{BindsBy};
ghost use Rattle.net_host.specs.Facts.{facts_by};
ghost use Rattle.net_host.specs.Openings.{Opens, local_address};
ghost use Rattle.smoltcp_c.specs.Answers.{error_address, error_memory};
ghost use Rattle.smoltcp_c.specs.Host.{KeepsSockets, are_addresses, cidr_in, interface, named, slots, slots_of};
ghost use Rattle.smoltcp_c.specs.HostOpening.{bound_answer, opened_answer, refusal};
ghost use Rattle.smoltcp_c.specs.Numbers.{endpoint_in, listen_in};
ghost use Rattle.smoltcp_c.specs.Tcp.{Answers};

use crate::answers::{ERROR_ADDRESS, ERROR_IN_USE, ERROR_MEMORY, ERROR_SOCKET, ERROR_STATE, OK};
use crate::endpoints::{Endpoint, endpoint_in, listen_in};
use crate::host::{Host, HostHandle};
use crate::host_numbers::{Cidr, SocketId, named};
use crate::host_setup::{addresses_in, are_addresses};
use host_context::Words;
use ip_wire::{IpAddress, IpEndpoint, IpListenEndpoint};
use net_host::{OpenError, Secret, SocketHandle};
use std::alloc::Global;

/// Opens a connection of the TCP socket of this name, from `local`: with version 0 of its address from that from which
/// packets go there, with port 0 from a free port. As `Interface::connect`. 0, or an error: `ERROR_ADDRESS`,
/// `ERROR_IN_USE`, `ERROR_SOCKET`, `ERROR_STATE`.
#[unsafe(no_mangle)]
pub extern "C" fn smoltcp_host_connect_nonnull(
    h: &mut HostHandle,
    id: &SocketId,
    remote: &Endpoint,
    local: &Endpoint,
) -> i64
    ensures opened { Answers (λ r. opened_answer r) (λ r. Opens
        (λ c. facts_by ⟦<IpAddress as PartialEq>⟧.eq c.environment)
        (λ c k. ⟦<Secret as Words>⟧.word_at c.words k)
        (local_address ⟦<IpAddress as PartialEq>⟧.eq (interface h.old).inner.environment.addresses.items
        (listen_in local.now).addr (endpoint_in remote.now).addr) (listen_in local.now).port (slots h.old)
        (named id.now) (interface h.old).inner (endpoint_in remote.now) r (slots h.new) (interface h.new).inner)
        result }
    ensures interface { ((interface h.new).turn ≡ (interface h.old).turn)
        × ((interface h.new).resets ≡ (interface h.old).resets) × ((interface h.new).errors ≡ (interface h.old).errors)
        × ((interface h.new).counters ≡ (interface h.old).counters)
        × ((interface h.new).guards ≡ (interface h.old).guards)
        × ((interface h.new).cookies ≡ (interface h.old).cookies)
        × ((interface h.new).groups ≡ (interface h.old).groups) }
    ensures at { h.new.at ≡ h.old.at }
{
    let host = h.host();
    let answer = connect(host, named(id), endpoint_in(remote), listen_in(local));
    opened_answer(answer)
}

fn connect(
    host: &mut Host,
    handle: SocketHandle,
    remote: IpEndpoint,
    local: IpListenEndpoint,
) -> Result<IpEndpoint, OpenError>
    ensures opened { Opens (λ c. facts_by ⟦<IpAddress as PartialEq>⟧.eq c.environment)
        (λ c k. ⟦<Secret as Words>⟧.word_at c.words k)
        (local_address ⟦<IpAddress as PartialEq>⟧.eq host.old.interface.inner.environment.addresses.items local.addr
        remote.addr) local.port (slots_of host.old) handle host.old.interface.inner remote result (slots_of host.new)
        host.new.interface.inner }
    ensures interface { (host.new.interface.turn ≡ host.old.interface.turn)
        × (host.new.interface.resets ≡ host.old.interface.resets)
        × (host.new.interface.errors ≡ host.old.interface.errors)
        × (host.new.interface.counters ≡ host.old.interface.counters)
        × (host.new.interface.guards ≡ host.old.interface.guards)
        × (host.new.interface.cookies ≡ host.old.interface.cookies)
        × (host.new.interface.groups ≡ host.old.interface.groups) }
{
    host.interface
        .connect(&mut host.sockets, handle, remote, local)
}

fn opened_answer(answer: Result<IpEndpoint, OpenError>) -> i64
    ensures { result ≡ opened_answer answer }
{
    match answer {
        Ok(_) => OK,
        Err(error) => refusal(error),
    }
}

fn refusal(error: OpenError) -> i64
    ensures { result ≡ refusal error }
{
    match error {
        OpenError::Unaddressable => ERROR_ADDRESS,
        OpenError::InUse => ERROR_IN_USE,
        OpenError::NoSocket => ERROR_SOCKET,
        OpenError::InvalidState => ERROR_STATE,
    }
}

/// Binds the UDP socket of this name, at `local`: with version 0 of its address at any, with port 0 at a free port. As
/// `Interface::bind_udp`. The port, or an error: `ERROR_IN_USE`, `ERROR_SOCKET`, `ERROR_STATE`.
#[unsafe(no_mangle)]
pub extern "C" fn smoltcp_host_bind_udp_nonnull(
    h: &mut HostHandle,
    id: &SocketId,
    local: &Endpoint,
) -> i64
    ensures bound { Answers (λ r. bound_answer r) (λ r. BindsBy
        (λ c. facts_by ⟦<IpAddress as PartialEq>⟧.eq c.environment)
        (λ c k. ⟦<Secret as Words>⟧.word_at c.words k) (slots h.old) (named id.now) (listen_in local.now)
        (interface h.old).inner r (slots h.new) (interface h.new).inner) result }
    ensures interface { ((interface h.new).turn ≡ (interface h.old).turn)
        × ((interface h.new).resets ≡ (interface h.old).resets) × ((interface h.new).errors ≡ (interface h.old).errors)
        × ((interface h.new).counters ≡ (interface h.old).counters)
        × ((interface h.new).guards ≡ (interface h.old).guards)
        × ((interface h.new).cookies ≡ (interface h.old).cookies)
        × ((interface h.new).groups ≡ (interface h.old).groups) }
    ensures at { h.new.at ≡ h.old.at }
{
    let host = h.host();
    let answer = host
        .interface
        .bind_udp(&mut host.sockets, named(id), listen_in(local));
    bound_answer(answer)
}

fn bound_answer(answer: Result<u16, OpenError>) -> i64
    ensures { result ≡ bound_answer answer }
{
    match answer {
        Ok(port) => port as i64,
        Err(error) => refusal(error),
    }
}

/// Sets the addresses of the host, from the next packet on: their table is taken from the heap, and the former one goes
/// back. 0, or an error, with nothing changed: `ERROR_ADDRESS` where one of the addresses is of no version,
/// `ERROR_MEMORY` where the heap has too little.
#[unsafe(no_mangle)]
pub extern "C" fn smoltcp_host_set_addresses_nonnull(
    alloc: Global,
    h: &mut HostHandle,
    addresses: &[Cidr],
) -> i64
    ensures unfit { are_addresses addresses.now ≡ false → (result ≡ error_address) × (h.new.host ≡ h.old.host) }
    ensures done { result ≡ pos 0 → ((interface h.new).inner.environment.addresses.items
        ≡ map (λ c. cidr_in c) addresses.now) × KeepsSockets h.old h.new }
    ensures refused { (result ≡ pos 0 → ⊥) → h.new.host ≡ h.old.host }
    ensures memory { are_addresses addresses.now ≡ true → (result ≡ pos 0 → ⊥) → result ≡ error_memory }
    ensures environment { ((interface h.new).inner.environment.now ≡ (interface h.old).inner.environment.now)
        × ((interface h.new).inner.environment.mtu ≡ (interface h.old).inner.environment.mtu)
        × ((interface h.new).inner.environment.checksums ≡ (interface h.old).inner.environment.checksums)
        × ((interface h.new).inner.words ≡ (interface h.old).inner.words) }
    ensures interface { ((interface h.new).turn ≡ (interface h.old).turn)
        × ((interface h.new).resets ≡ (interface h.old).resets) × ((interface h.new).errors ≡ (interface h.old).errors)
        × ((interface h.new).counters ≡ (interface h.old).counters)
        × ((interface h.new).guards ≡ (interface h.old).guards)
        × ((interface h.new).cookies ≡ (interface h.old).cookies)
        × ((interface h.new).groups ≡ (interface h.old).groups) }
    ensures at { h.new.at ≡ h.old.at }
{
    if !are_addresses(addresses) {
        return ERROR_ADDRESS;
    }
    match addresses_in(alloc, addresses) {
        Ok(table) => {
            h.host().interface.set_addresses(table);
            OK
        }
        Err(_) => ERROR_MEMORY,
    }
}
