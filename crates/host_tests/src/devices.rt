//! Hosts on a device.
use net_host::{Device, Interface, IpCidr, Secret, SocketSet};
use smoltcp_socket::time::Instant;
use smoltcp_socket::wire::{IpAddress, Ipv6Address};
use std::alloc::AllocError;

const HOST: IpAddress = IpAddress::Ipv6(Ipv6Address([
    32, 1, 13, 184, 0, 0, 0, 0, 0, 0, 0, 0, 0, 0, 0, 1,
]));

// From 2001:db8::2 to the host, four bytes of protocol 253, which is for experiments (RFC 3692).
const PACKET: [u8; 44] = [
    96, 0, 0, 0, 0, 4, 253, 64, 32, 1, 13, 184, 0, 0, 0, 0, 0, 0, 0, 0, 0, 0, 0, 2, 32, 1, 13, 184,
    0, 0, 0, 0, 0, 0, 0, 0, 0, 0, 0, 1, 1, 2, 3, 4,
];

// A device at which that packet arrives again and again, and which keeps the beginning of what it sent last.
#[derive(Drop)]
struct Endless {
    room: bool,
    sent: usize,
    last: [u8; 56],
}

impl Device for Endless {
    ghost mtu = { λ device. 1280 };

    ghost has_room = { λ device. device.room };

    ghost receives = { λ before n packet after. Unit {0} };

    ghost transmits = { λ before packet after. Unit {0} };

    fn max_transmission_unit(&self) -> usize {
        1280
    }

    fn has_room(&self) -> bool {
        self.room
    }

    fn receive(&mut self, packet: &mut [u8]) -> usize {
        if packet.len() < 44 {
            return 0;
        }
        packet[..44].copy_from_slice(&PACKET);
        44
    }

    fn transmit(&mut self, packet: &[u8]) {
        self.sent = self.sent.saturating_add(1);
        if packet.len() >= 56 {
            self.last.copy_from_slice(&packet[..56]);
        }
    }
}

// What a poll of a host without sockets answers, with so much room for packets; and what was sent: how many, and of the
// last one type, code, pointer and the protocol in the header that it quotes.
fn polled(
    rt: &HostRuntime,
    device: &mut Endless,
    room: usize,
) -> Result<(Option<usize>, usize, [u8; 7]), AllocError> {
    let mut addresses = Vec::new(rt.alloc());
    addresses.push(IpCidr {
        address: HOST,
        prefix_len: 64,
    })?;
    let mut interface = Interface::new(addresses, Secret::new([7; 32]));
    let mut sockets: SocketSet<'_> = SocketSet::new(rt.alloc(), 1)?;
    let (mut packet, mut reply) = ([0u8; 1280], [0u8; 1280]);
    let room = room.min(1280);
    let answer = interface.poll(
        &mut sockets,
        Instant::from_micros(0),
        device,
        &mut packet[..room],
        &mut reply,
    );
    let [
        ..,
        kind,
        code,
        _,
        _,
        a,
        b,
        c,
        d,
        _,
        _,
        _,
        _,
        _,
        _,
        protocol,
        _,
    ] = device.last;
    Ok((answer.ok(), device.sent, [kind, code, a, b, c, d, protocol]))
}

fn came(
    rt: &HostRuntime,
    has_room: bool,
    room: usize,
) -> Result<(Option<usize>, usize, [u8; 7]), AllocError> {
    let mut device = Endless {
        room: has_room,
        sent: 0,
        last: [0; 56],
    };
    polled(rt, &mut device, room)
}

#[test]
fn a_flood_is_taken_in_part_and_each_sender_is_told(rt: HostRuntime) -> Result<(), AllocError> {
    let (taken, told, last) = came(&rt, true, 1280)?;
    assert!(rt; (taken, last) == (Some(64), [4, 1, 0, 0, 0, 6, 253]));
    assert!(rt; 27 <= told && told <= 50);
    Ok(())
}

#[test]
fn a_device_without_room_is_not_asked(rt: HostRuntime) -> Result<(), AllocError> {
    assert!(rt; came(&rt, false, 1280)? == (Some(0), 0, [0; 7]));
    Ok(())
}

#[test]
fn a_short_buffer_is_refused(rt: HostRuntime) -> Result<(), AllocError> {
    assert!(rt; came(&rt, true, 1279)? == (None, 0, [0; 7]));
    Ok(())
}
