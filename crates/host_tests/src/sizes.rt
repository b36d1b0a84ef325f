//! How much memory a host and a TCP socket take.
use net_host::{Interface, Secret, SocketSet};
use smoltcp_socket::tcp;
use std::mem::size_of;

// As the headers of C ask for it, which live/header compares with these.
const HOST_SIZE: usize = 1552;

const TCP_SIZE: usize = 584;

// As the clock of a socket of C.
#[derive(Debug, Clone, Copy)]
struct Ticks {
    _tsval: u32,
}

#[test]
fn a_host_takes_what_c_asks_for(rt: HostRuntime) {
    assert!(rt; size_of::<(Interface<Secret>, SocketSet<'static>)>() == HOST_SIZE);
}

#[test]
fn a_tcp_socket_takes_what_c_asks_for(rt: HostRuntime) {
    assert!(rt; size_of::<tcp::Socket<'static, Ticks>>() == TCP_SIZE);
}
