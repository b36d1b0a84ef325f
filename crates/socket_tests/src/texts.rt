//! What an error, a state of TCP and the metadata of a datagram print, and what `Debug` of a TCP socket does not.

use crate::tcp::clock;
use crate::tcp_calls::Tcp;
use smoltcp_socket::wire::{IpAddress, IpEndpoint, Ipv4Address};
use smoltcp_socket::{tcp, udp};
use std::fmt;
use std::test::Fail;

fn prints<T: fmt::Display>(rt: &HostRuntime, value: &T, text: &str) -> Result<bool, Fail> {
    let printed = format!(in rt.alloc(); "{value}")?;
    Ok(printed.as_str() == text)
}

#[test]
fn texts(rt: HostRuntime) -> Result<(), Fail> {
    assert!(rt; prints(&rt, &tcp::State::FinWait1, "FIN-WAIT-1")?);
    assert!(rt; prints(&rt, &tcp::RecvError::Finished, "operation finished")?);
    let endpoint = IpEndpoint {
        addr: IpAddress::Ipv4(Ipv4Address([192, 168, 1, 2])),
        port: 49500,
    };
    let meta = udp::UdpMetadata::from_endpoint(endpoint);
    assert!(rt; prints(&rt, &meta, "192.168.1.2:49500")?);
    Ok(())
}

fn later_clock() -> u32 {
    8
}

// A socket with one of two sources of timestamps, by `Debug`.
fn shown(rt: &HostRuntime, is_later: bool) -> Result<String, Fail> {
    let mut socket = Tcp::new(&mut [], &mut []);
    if is_later {
        socket.0.set_tsval_generator(Some(later_clock));
    } else {
        socket.0.set_tsval_generator(Some(clock));
    }
    Ok(format!(in rt.alloc(); "{:?}", socket.0)?)
}

// It shows no address of a function: two sources look alike.
#[test]
fn debug_shows_no_address(rt: HostRuntime) -> Result<(), Fail> {
    assert!(rt; shown(&rt, false)?.as_str() == shown(&rt, true)?.as_str());
    Ok(())
}
