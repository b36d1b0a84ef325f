//! The raw socket: which packets it takes, and its two queues.
ghost use Rattle.std.specs.Prelude.{◌≡◌, length};
ghost use Rattle.net_base.specs.Packets.{taken};
ghost use Rattle.sock_dgram.specs.Datagrams.{has_place, has_entry, poll_moment};
ghost use Rattle.sock_dgram.specs.Raw.{fresh};

use crate::queue::poll_moment;
use ip_wire::{IpProtocol, IpVersion};
use sock_core::{Context, PollAt};
use std::marker::Model;

/// A place of a packet buffer.
pub type PacketMetadata = net_base::packet_buffer::PacketMetadata<()>;

/// A queue of packets over lent places and lent bytes.
pub type PacketBuffer<'a> = net_base::packet_buffer::PacketBuffer<'a, ()>;

/// A raw socket over two lent buffers: whole IP packets, headers included, go in and out.
#[derive(Debug, Drop)]
pub struct Socket<'a> {
    ip_version: Option<IpVersion>,
    ip_protocol: Option<IpProtocol>,
    pub(crate) rx_buffer: PacketBuffer<'a>,
    pub(crate) tx_buffer: PacketBuffer<'a>,
}

impl<'a> Model for Socket<'a> {
    ghost use Rattle.sock_dgram.specs.Raw.{View};

    ghost Value = { View };

    ghost view = { λ s. record {
      ip_version = s.ip_version;
      ip_protocol = s.ip_protocol;
      rx_buffer = s.rx_buffer;
      tx_buffer = s.tx_buffer;
    } };
}

impl<'a> Socket<'a> {
    /// A socket for packets of this version of IP, or of both, and of this protocol, or of any, over these two buffers.
    pub fn new(
        ip_version: Option<IpVersion>,
        ip_protocol: Option<IpProtocol>,
        rx_buffer: PacketBuffer<'a>,
        tx_buffer: PacketBuffer<'a>,
    ) -> Socket<'a>
        ensures { result ≡ fresh ip_version ip_protocol rx_buffer.entry tx_buffer.entry }
    {
        Socket {
            ip_version,
            ip_protocol,
            rx_buffer,
            tx_buffer,
        }
    }

    /// The two buffers, with what stands in their queues: the receive buffer first.
    pub fn into_buffers(self) -> (PacketBuffer<'a>, PacketBuffer<'a>)
        ensures received { result.0 ≡ self.entry.rx_buffer }
        ensures sent { result.1 ≡ self.entry.tx_buffer }
    {
        let Socket {
            ip_version: _,
            ip_protocol: _,
            rx_buffer,
            tx_buffer,
        } = self;
        (rx_buffer, tx_buffer)
    }

    /// The version of IP of the socket's packets; `None` for both.
    pub fn ip_version(&self) -> Option<IpVersion>
        ensures { result ≡ self.now.ip_version }
    {
        self.ip_version
    }

    /// The protocol of the socket's packets; `None` for any.
    pub fn ip_protocol(&self) -> Option<IpProtocol>
        ensures { result ≡ self.now.ip_protocol }
    {
        self.ip_protocol
    }

    /// Whether the transmit buffer has a free place.
    pub fn can_send(&self) -> bool
        ensures { result ≡ has_place self.now.tx_buffer }
    {
        !self.tx_buffer.is_full()
    }

    /// Whether a place of the receive buffer is taken.
    pub fn can_recv(&self) -> bool
        ensures { result ≡ has_entry self.now.rx_buffer }
    {
        !self.rx_buffer.is_empty()
    }

    /// How many packets the receive buffer has places for.
    pub fn packet_recv_capacity(&self) -> usize
        ensures { result ≡ self.now.rx_buffer.places }
    {
        self.rx_buffer.packet_capacity()
    }

    /// How many packets the transmit buffer has places for.
    pub fn packet_send_capacity(&self) -> usize
        ensures { result ≡ self.now.tx_buffer.places }
    {
        self.tx_buffer.packet_capacity()
    }

    /// How many payload bytes the receive buffer has places for.
    pub fn payload_recv_capacity(&self) -> usize
        ensures { result ≡ length self.now.rx_buffer.storage }
    {
        self.rx_buffer.payload_capacity()
    }

    /// How many payload bytes the transmit buffer has places for.
    pub fn payload_send_capacity(&self) -> usize
        ensures { result ≡ length self.now.tx_buffer.storage }
    {
        self.tx_buffer.payload_capacity()
    }

    /// How many payload bytes of the transmit buffer are taken, padding included.
    pub fn send_queue(&self) -> usize
        ensures { result ≡ taken self.now.tx_buffer.entries }
    {
        self.tx_buffer.payload_bytes_count()
    }

    /// How many payload bytes of the receive buffer are taken, padding included.
    pub fn recv_queue(&self) -> usize
        ensures { result ≡ taken self.now.rx_buffer.entries }
    {
        self.rx_buffer.payload_bytes_count()
    }

    /// When the socket wants its next `dispatch`: `Ingress` where no place of the transmit buffer is taken, else `Now`.
    pub fn poll_at<C: Context>(&self, _cx: &C) -> PollAt
        ensures { result ≡ poll_moment self.now.tx_buffer }
    {
        poll_moment(&self.tx_buffer)
    }
}
