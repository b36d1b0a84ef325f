//! Under which keys the socket of a place is filed.
ghost use Rattle.std.specs.Prelude.{◌≡◌, ◌≤◌, ◌+◌, ◌*◌, IfSome, true};
ghost use Rattle.host_index.specs.Columns.{fits};
ghost use Rattle.host_index.specs.declared.entry.Which.TheVariants.{First, Second};
ghost use Rattle.net_host.specs.Entries.{is_ordered, ordered};
ghost use Rattle.net_host.specs.Filing.{connection_by, first_by, icmp_key, keys_by, keys_of, listener_by, listener_key};
ghost use Rattle.net_host.specs.Filing.{number_of, one_key, opened_by, raw_key, rest_by, rest_major, second_by, server_by};
ghost use Rattle.net_host.specs.Filing.{server_key, udp_key};
ghost use Rattle.net_host.specs.Indexing.{are_filed, is_under, no_keys};
ghost use Rattle.net_host.specs.Looking.{sleeps};
ghost use Rattle.net_host.specs.Refiling.{IsHigh, can_file, fits_key};
ghost use Rattle.sock_tcp.specs.Ends.{close_end};
ghost use Rattle.sock_tcp.specs.declared.state.State.TheVariants.{TimeWait};

use crate::filed::Keyed;
use crate::key::{Key, Keys};
use crate::slot::Slot;
use host_index::{Entry, Index, Which};
use smoltcp_socket::tcp::State;
use smoltcp_socket::time::Instant;
use smoltcp_socket::wire::IpAddress;
use smoltcp_socket::{Socket, tcp};
use sock_tcp::tuple::Tuple;

// No address has a greater number.
const LAST: u128 = u128::MAX - 1;

// An address as a number.
#[tactic(auto, unfolding(crate::specs::Filing::number_of))]
pub(crate) fn number_of(addr: &IpAddress) -> u128
    ensures value { result ≡ number_of addr.now }
    ensures within { result ≤ 340282366920938463463374607431768211454 }
{
    match addr {
        IpAddress::Ipv4(addr) => u128::from(u32::from_be_bytes(addr.0)) + 0xffff_0000_0000,
        IpAddress::Ipv6(addr) => u128::from_be_bytes(addr.0).min(LAST),
    }
}

/// The key of a connection.
pub(crate) fn connection_key(remote: &IpAddress, local_port: u16, remote_port: u16) -> Entry
    ensures value { result ≡ record {
      major = number_of remote.now;
      minor = local_port * 65536 + remote_port;
      place = 0;
    } }
    ensures fits { fits First result ≡ true }
{
    Entry {
        major: number_of(remote),
        minor: u64::from(local_port) * 65536 + u64::from(remote_port),
        place: 0,
    }
}

/// The key of the sockets that listen on a port.
pub(crate) fn listener_key(port: u16) -> Entry
    ensures value { result ≡ listener_key port }
    ensures fits { fits First result ≡ true }
{
    Entry {
        major: 0,
        minor: u64::from(port),
        place: 0,
    }
}

// The second parts of second keys are from here on, and those of first keys below.
const HIGH: u64 = 1 << 32;

/// The key of the sockets that were opened on a port: its first part is that of those in TIME-WAIT on port 0, which
/// there are none of.
pub(crate) fn server_key(port: u16) -> Entry
    ensures value { result ≡ server_key port }
    ensures fits { fits Second result ≡ true }
    ensures high { 4294967296 ≤ result.minor }
{
    Entry {
        major: 65536,
        minor: u64::from(port) + HIGH,
        place: 0,
    }
}

/// The key of the raw sockets: the least, so that whether there is one is seen at once.
pub(crate) fn raw_key() -> Entry
    ensures value { result ≡ raw_key }
    ensures fits { fits First result ≡ true }
{
    Entry {
        major: 0,
        minor: 0,
        place: 0,
    }
}

/// The key of the ICMP sockets.
pub(crate) fn icmp_key() -> Entry
    ensures value { result ≡ icmp_key }
    ensures fits { fits First result ≡ true }
{
    Entry {
        major: 2,
        minor: 1,
        place: 0,
    }
}

/// The key of the UDP sockets that are bound to a port.
pub(crate) fn udp_key(port: u16) -> Entry
    ensures value { result ≡ udp_key port }
    ensures fits { fits First result ≡ true }
{
    Entry {
        major: 3,
        minor: u64::from(port),
        place: 0,
    }
}

/// The first part of the keys of those in TIME-WAIT.
pub(crate) fn rest_major(port: u16) -> u128
    ensures { result ≡ rest_major port }
{
    u128::from(port) + 65536
}

// No moment of a timer is further from zero, in microseconds.
const FARTHEST: i64 = 1 << 61;

// The number of moment 0: that of the first one is 2^32.
const ZERO: i64 = (1 << 61) + (1 << 32);

/// Whether a moment is within 2^61 microseconds of zero.
pub(crate) fn is_ordered(moment: Instant) -> bool
    ensures { result ≡ is_ordered moment }
{
    -FARTHEST <= moment.micros && moment.micros <= FARTHEST
}

/// The moment as a number of the same order, from 2^32 on, where it is within 2^61 microseconds of zero.
pub(crate) fn order(moment: Instant) -> Option<u64>
    ensures value { result ≡ ordered moment }
    ensures within { IfSome result (λ n. n ≤ 4611686022722355200) }
    ensures high { IfSome result (λ n. 4294967296 ≤ n) }
{
    if moment.micros < -FARTHEST || FARTHEST < moment.micros {
        return None;
    }
    Some((moment.micros + ZERO).unsigned_abs())
}

// The key of one in TIME-WAIT.
fn rest_key(minor: u64, port: u16) -> Entry
    requires within { minor ≤ 4611686022722355200 }
    ensures value { result ≡ record { major = rest_major port; minor = minor; place = 0 } }
    ensures fits { fits Second result ≡ true }
{
    Entry {
        major: rest_major(port),
        minor,
        place: 0,
    }
}

fn rest_by(minor: Option<u64>, port: u16) -> Key
    requires within { IfSome minor (λ n. n ≤ 4611686022722355200) }
    requires high { IfSome minor (λ n. 4294967296 ≤ n) }
    ensures value { result ≡ rest_by minor port }
    ensures fits { fits_key Second result ≡ true }
    ensures high { IsHigh result }
{
    match minor {
        Some(minor) => Key::Under(rest_key(minor, port)),
        None => Key::Nothing,
    }
}

fn tuple_of<G>(tcp: &tcp::Socket<'_, G>) -> Option<Tuple>
    ensures { result ≡ tcp.now.control_block.tuple }
{
    match (tcp.local_endpoint(), tcp.remote_endpoint()) {
        (Some(local), Some(remote)) => Some(Tuple { local, remote }),
        _ => None,
    }
}

fn listener_by(tuple: &Option<Tuple>, port: u16) -> Key
    ensures value { result ≡ listener_by tuple.now port }
    ensures fits { fits_key First result ≡ true }
{
    match tuple {
        None => Key::Under(listener_key(port)),
        Some(tuple) => Key::Under(listener_key(tuple.local.port)),
    }
}

fn connection_by(tuple: &Option<Tuple>) -> Key
    ensures value { result ≡ connection_by tuple.now }
    ensures fits { fits_key First result ≡ true }
{
    match tuple {
        None => Key::Nothing,
        Some(tuple) => Key::Under(connection_key(
            &tuple.remote.addr,
            tuple.local.port,
            tuple.remote.port,
        )),
    }
}

fn first_by(state: State, tuple: &Option<Tuple>, port: u16) -> Key
    ensures value { result ≡ first_by state tuple.now port }
    ensures fits { fits_key First result ≡ true }
{
    match state {
        State::Closed => Key::Nothing,
        State::Listen => listener_by(tuple, port),
        _ => connection_by(tuple),
    }
}

// The second key of a socket that was opened on a port.
fn opened_by(state: State, end: Option<Instant>, port: u16) -> Key
    ensures value { result ≡ opened_by state end port }
    ensures fits { fits_key Second result ≡ true }
    ensures high { IsHigh result }
{
    match (state, end) {
        (State::Closed | State::Listen, _) => Key::Nothing,
        (State::TimeWait, Some(end)) => rest_by(order(end), port),
        _ => Key::Under(server_key(port)),
    }
}

// No segment is for a listener on port 0, which is that of those that connected.
fn second_by(state: State, end: Option<Instant>, port: u16) -> Key
    ensures value { result ≡ second_by state end port }
    ensures fits { fits_key Second result ≡ true }
    ensures high { IsHigh result }
{
    if port == 0 {
        return Key::Nothing;
    }
    opened_by(state, end, port)
}

#[tactic(auto, using(crate::proofs::Fileable::two_keys))]
fn keys_by<G>(tcp: &tcp::Socket<'_, G>) -> Keys
    ensures value { result ≡ keys_by tcp.now.control_block }
    ensures can { can_file result ≡ true }
{
    let state = tcp.state();
    let port = tcp.listen_endpoint().port;
    Keys {
        first: first_by(state, &tuple_of(tcp), port),
        second: second_by(state, tcp.time_wait_end(), port),
        free: false,
    }
}

fn one_key(first: Entry) -> Keys
    requires { fits First first ≡ true }
    ensures value { result ≡ one_key first }
    ensures can { can_file result ≡ true }
{
    Keys {
        first: Key::Under(first),
        second: Key::Nothing,
        free: false,
    }
}

fn no_keys() -> Keys
    ensures value { result ≡ no_keys }
    ensures can { can_file result ≡ true }
{
    Keys {
        first: Key::Nothing,
        second: Key::Nothing,
        free: true,
    }
}

// Whether the place is filed under the keys of its socket and no others, told without making them. Where the answer is
// no, it says nothing: so it is of sockets that listen, which are lent once, and of those that are closed, as a place
// that was free is marked so until it is filed.
#[inline(always)]
fn is_connection_filed<G>(tcp: &tcp::Socket<'_, G>, index: &Index, place: usize) -> bool
    ensures { result ≡ true → are_filed index.now.entries place (keys_by tcp.now.control_block) ≡ true }
{
    match tcp.state() {
        State::Closed | State::Listen => false,
        State::TimeWait => is_tuple_filed(tcp, index, place) && is_rest_filed(tcp, index, place),
        _ => is_tuple_filed(tcp, index, place) && is_port_filed(tcp, index, place),
    }
}

#[inline(always)]
fn is_tuple_filed<G>(tcp: &tcp::Socket<'_, G>, index: &Index, place: usize) -> bool
    ensures { result ≡ true → is_under index.now.entries place (connection_by tcp.now.control_block.tuple) ≡ true }
{
    match (tcp.local_endpoint(), tcp.remote_endpoint()) {
        (Some(local), Some(remote)) => {
            let key = connection_key(&remote.addr, local.port, remote.port);
            index.is_filed(Which::First, place, Some(&key))
        }
        _ => false,
    }
}

#[inline(always)]
fn is_port_filed<G>(tcp: &tcp::Socket<'_, G>, index: &Index, place: usize) -> bool
    ensures { result ≡ true
        → is_under index.now.entries place (server_by tcp.now.control_block.listen_endpoint.port) ≡ true }
{
    let port = tcp.listen_endpoint().port;
    if port == 0 {
        index.is_filed(Which::Second, place, None)
    } else {
        index.is_filed(Which::Second, place, Some(&server_key(port)))
    }
}

// Whether one in TIME-WAIT is filed so: by its end where it listened.
#[inline(always)]
fn is_rest_filed<G>(tcp: &tcp::Socket<'_, G>, index: &Index, place: usize) -> bool
    ensures { result ≡ true → is_under index.now.entries place (second_by TimeWait
        (close_end tcp.now.control_block.timer) tcp.now.control_block.listen_endpoint.port) ≡ true }
{
    match second_by(
        State::TimeWait,
        tcp.time_wait_end(),
        tcp.listen_endpoint().port,
    ) {
        Key::Nothing => index.is_filed(Which::Second, place, None),
        Key::Under(key) => index.is_filed(Which::Second, place, Some(&key)),
    }
}

impl<'a, G> Keyed for Slot<'a, G> {
    ghost keys_of = { λ s. keys_of s };

    ghost sleeps = { λ t b s. sleeps t b s };

    fn keys(&self) -> Keys {
        match &self.socket {
            Some(Socket::Tcp(tcp)) => keys_by(tcp),
            Some(Socket::Raw(_)) => one_key(raw_key()),
            Some(Socket::Icmp(_)) => one_key(icmp_key()),
            Some(Socket::Udp(udp)) => one_key(udp_key(udp.endpoint().port)),
            None => no_keys(),
        }
    }

    #[inline(always)]
    fn is_filed(&self, index: &Index, place: usize) -> bool {
        match &self.socket {
            Some(Socket::Tcp(tcp)) => is_connection_filed(tcp, index, place),
            _ => false,
        }
    }
}
