//! A dispatch before the moment that `poll_at` tells.
use crate::host::Host;
use crate::tcp_calls::Tcp;
use smoltcp_socket::PollAt;
use smoltcp_socket::tcp::*;
use smoltcp_socket::wire::{IpRepr, TcpRepr};
use std::test::Fail;

// What a dispatch answers whose emit would fail.
fn early(socket: &mut Socket<'_>, cx: &mut Host) -> Result<(), u8> {
    match socket.poll_at(cx) {
        PollAt::Ingress => socket.dispatch(
            cx,
            |_: &mut Host, _sent: (IpRepr, TcpRepr<'_>)| -> Result<(), u8> { Err(1) },
        ),
        _ => Err(2),
    }
}

#[test]
fn a_dispatch_before_its_moment_emits_nothing(rt: HostRuntime) -> Result<(), Fail> {
    let mut socket = Tcp::new(&mut [], &mut []);
    assert!(rt; early(&mut socket.0, &mut Host::at(0, 1000)) == Ok(()));
    Ok(())
}
