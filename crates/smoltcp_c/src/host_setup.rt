//! A host is made, and let go of.
ghost use Rattle.std.specs.Prelude.{◌≡◌, IfOk, IfSome, false, true, is_some, length, map, None, pos};
ghost use Rattle.smoltcp_c.specs.Answers.{error_state};
ghost use Rattle.smoltcp_c.specs.Host.{HasNone, IsMade, are_addresses, cidr_in, host_size, init_answer, slots};

use crate::answers::{ERROR_ADDRESS, ERROR_MEMORY, ERROR_STATE, OK};
use crate::host::{Host, HostHandle, HostRoom};
use crate::host_numbers::{Cidr, Key, cidr_in, is_address};
use net_host::{Interface, IpCidr, Secret, SocketSet};
use std::alloc::{AllocError, Global};
use std::mem::size_of;

/// Writes the size of a host into `out`, in bytes. Answers 0.
#[unsafe(no_mangle)]
pub extern "C" fn smoltcp_host_size_nonnull(out: &mut usize) -> i64
    ensures answer { result ≡ pos 0 }
    ensures told { out.new ≡ host_size }
{
    *out = size_of::<Host>();
    OK
}

/// Makes a host in the room, with these addresses and room for so many sockets: its tables are taken from the heap, and
/// nothing is afterwards. The MTU is 1500 bytes, and the limits of peers are the usual ones. 0, or an error:
/// `ERROR_ADDRESS` where one of the addresses is of no version, `ERROR_MEMORY` where the heap has too little.
#[unsafe(no_mangle)]
pub extern "C" fn smoltcp_host_init_nonnull(
    alloc: Global,
    room: &mut HostRoom,
    capacity: usize,
    addresses: &[Cidr],
    key: &Key,
) -> i64
    requires empty { room.old.made ≡ None }
    ensures answer { result ≡ init_answer (are_addresses addresses.now) (is_some room.new.made) }
    ensures refused { are_addresses addresses.now ≡ false → room.new.made ≡ None }
    ensures at { room.new.at ≡ room.old.at }
    ensures made { IfSome room.new.made (IsMade capacity addresses.now key.now) }
{
    if !are_addresses(addresses) {
        return ERROR_ADDRESS;
    }
    match host(alloc, capacity, addresses, key) {
        Ok(host) => {
            room.fill(host);
            OK
        }
        Err(_) => ERROR_MEMORY,
    }
}

pub(crate) fn are_addresses(addresses: &[Cidr]) -> bool
    ensures { result ≡ are_addresses addresses.now }
{
    addresses.iter().all(|c: &Cidr| is_address(&c.address))
}

fn host(alloc: Global, capacity: usize, addresses: &[Cidr], key: &Key) -> Result<Host, AllocError>
    ensures { IfOk result (IsMade capacity addresses.now key.now) }
{
    let addresses = addresses_in(alloc, addresses)?;
    let sockets = SocketSet::new(alloc, capacity)?;
    let interface = Interface::new(addresses, Secret::new(key.bytes));
    Ok(Host { interface, sockets })
}

pub(crate) fn addresses_in(alloc: Global, addresses: &[Cidr]) -> Result<Vec<IpCidr>, AllocError>
    ensures { IfOk result (λ v. v.items ≡ map (λ c. cidr_in c) addresses.now) }
{
    let mut made = Vec::with_capacity(alloc, addresses.len())?;
    for address in addresses {
        made.push(cidr_in(address))?;
    }
    Ok(made)
}

/// Writes into `out` for how many sockets the host has room. Answers 0.
#[unsafe(no_mangle)]
pub extern "C" fn smoltcp_host_capacity_nonnull(h: &mut HostHandle, out: &mut usize) -> i64
    ensures answer { result ≡ pos 0 }
    ensures told { out.new ≡ length (slots h.old) }
    ensures at { h.new.at ≡ h.old.at }
    ensures same { h.new.host ≡ h.old.host }
{
    *out = h.host().sockets.capacity();
    OK
}

/// Lets go of the host, which leaves room for another, and gives its tables back to the heap. Answers 0; `ERROR_STATE`,
/// with nothing changed, where it has a socket yet.
#[unsafe(no_mangle)]
pub extern "C" fn smoltcp_host_release_nonnull(room: &mut HostRoom) -> i64
    requires there { is_some room.old.made ≡ true }
    ensures at { room.new.at ≡ room.old.at }
    ensures done { result ≡ pos 0 → (room.new.made ≡ None) × IfSome room.old.made HasNone }
    ensures refused { (result ≡ pos 0 → ⊥) → (result ≡ error_state) × (room.new.made ≡ room.old.made) }
    ensures none { IfSome room.old.made HasNone → result ≡ pos 0 }
{
    let host = room.take();
    if has_none(&host) {
        return OK;
    }
    room.fill(host);
    ERROR_STATE
}

// Whether it has no socket.
fn has_none(host: &Host) -> bool
    ensures yes { result ≡ true → HasNone host.now }
    ensures no { result ≡ false → HasNone host.now → ⊥ }
{
    host.sockets.iter().next().is_none()
}
