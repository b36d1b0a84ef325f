//! Hosts with one TCP socket.
ghost use Rattle.std.specs.Prelude.{◌≤◌, length};

use net_host::{Interface, IpCidr, Secret, SocketHandle, SocketSet};
use smoltcp_socket::Socket;
use smoltcp_socket::tcp::{self, State};
use smoltcp_socket::time::Instant;
use smoltcp_socket::wire::{IpAddress, IpEndpoint, IpListenEndpoint, Ipv4Address};
use std::alloc::AllocError;

pub(crate) const CLIENT: IpAddress = IpAddress::Ipv4(Ipv4Address([10, 0, 0, 1]));

pub(crate) const SERVER: IpAddress = IpAddress::Ipv4(Ipv4Address([10, 0, 0, 2]));

/// A host with one socket.
#[derive(Drop)]
pub(crate) struct Host<S> {
    pub(crate) interface: Interface<Secret>,
    pub(crate) sockets: S,
    pub(crate) handle: SocketHandle,
}

pub(crate) type OneSocket<'a> = Host<SocketSet<'a>>;

impl<'a> Host<SocketSet<'a>> {
    pub(crate) fn new(
        rt: &HostRuntime,
        address: IpAddress,
        socket: tcp::Socket<'a>,
    ) -> Result<OneSocket<'a>, AllocError> {
        let mut addresses = Vec::new(rt.alloc());
        addresses.push(IpCidr {
            address,
            prefix_len: 24,
        })?;
        let mut sockets = SocketSet::new(rt.alloc(), 1)?;
        let handle = match sockets.add(Socket::Tcp(socket)) {
            Ok(handle) => handle,
            Err(_) => return Err(AllocError),
        };
        Ok(Host {
            interface: Interface::new(addresses, Secret::new([7; 32])),
            sockets,
            handle,
        })
    }
}

pub(crate) fn port(port: u16) -> IpListenEndpoint {
    IpListenEndpoint { addr: None, port }
}

pub(crate) fn listen(host: &mut OneSocket<'_>) {
    if let Some(socket) = host.sockets.tcp_mut(host.handle) {
        let _ = socket.listen(port(7));
    }
}

pub(crate) fn connect(host: &mut OneSocket<'_>) {
    connect_from(host, 49152);
}

pub(crate) fn connect_from(host: &mut OneSocket<'_>, own: u16) {
    let Host {
        interface,
        sockets,
        handle,
    } = host;
    let remote = IpEndpoint {
        addr: SERVER,
        port: 7,
    };
    if let Some(socket) = sockets.tcp_mut(*handle) {
        let _ = socket.connect(interface.context(), remote, port(own));
    }
}

pub(crate) fn state(host: &OneSocket<'_>) -> Option<State> {
    match host.sockets.get(host.handle)? {
        Socket::Tcp(socket) => Some(socket.state()),
        _ => None,
    }
}

/// How many bytes wait to be read.
pub(crate) fn waiting(host: &OneSocket<'_>) -> usize {
    match host.sockets.get(host.handle) {
        Some(Socket::Tcp(socket)) => socket.recv_queue(),
        _ => 0,
    }
}

pub(crate) fn say(host: &mut OneSocket<'_>, bytes: &[u8]) {
    if let Some(socket) = host.sockets.tcp_mut(host.handle) {
        let _ = socket.send_slice(bytes);
    }
}

/// So many seconds after the start.
fn at(seconds: u8) -> Instant {
    Instant::from_micros(i64::from(seconds) * 1_000_000)
}

pub(crate) fn emit(host: &mut OneSocket<'_>, seconds: u8, packet: &mut [u8]) -> usize
    ensures { result ≤ length packet.old }
{
    host.interface
        .emit(&mut host.sockets, at(seconds), packet)
        .unwrap_or(0)
}

pub(crate) fn receive(
    host: &mut OneSocket<'_>,
    seconds: u8,
    packet: &[u8],
    reply: &mut [u8],
) -> usize
    ensures { result ≤ length reply.old }
{
    host.interface
        .receive(&mut host.sockets, at(seconds), packet, reply)
        .unwrap_or(0)
}
