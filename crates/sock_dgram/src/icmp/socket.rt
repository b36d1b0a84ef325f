//! The ICMP socket: what it is bound to, and its two queues.
ghost use Rattle.std.specs.Prelude.{◌≡◌, length, Some};
ghost use Rattle.net_base.specs.Packets.{taken};
ghost use Rattle.sock_dgram.specs.Datagrams.{has_place, has_entry, poll_moment};
ghost use Rattle.sock_dgram.specs.Icmp.{fresh, is_open, bind_answer, after_bind};
ghost use Rattle.sock_dgram.specs.IcmpCalls.{Bind, Effect, SetHopLimit};

use crate::error::BindError;
use crate::icmp::endpoint::Endpoint;
use crate::queue::poll_moment;
use ip_wire::IpAddress;
use sock_core::{Context, PollAt};
use std::marker::Model;

/// A place of a packet buffer.
pub type PacketMetadata = net_base::packet_buffer::PacketMetadata<IpAddress>;

/// A queue of ICMP messages over lent places and lent bytes, each with the address of the other side.
pub type PacketBuffer<'a> = net_base::packet_buffer::PacketBuffer<'a, IpAddress>;

/// An ICMP socket over two lent buffers.
#[derive(Debug, Drop)]
pub struct Socket<'a> {
    pub(crate) endpoint: Endpoint,
    pub(crate) rx_buffer: PacketBuffer<'a>,
    pub(crate) tx_buffer: PacketBuffer<'a>,
    pub(crate) hop_limit: Option<u8>,
}

impl<'a> Model for Socket<'a> {
    ghost use Rattle.sock_dgram.specs.Icmp.{View};

    ghost Value = { View };

    ghost view = { λ s. record {
      endpoint = s.endpoint;
      rx_buffer = s.rx_buffer;
      tx_buffer = s.tx_buffer;
      hop_limit = s.hop_limit;
    } };
}

impl<'a> Socket<'a> {
    /// A socket that is not open, over these two buffers.
    pub fn new(rx_buffer: PacketBuffer<'a>, tx_buffer: PacketBuffer<'a>) -> Socket<'a>
        ensures { result ≡ fresh rx_buffer.entry tx_buffer.entry }
    {
        Socket {
            endpoint: Endpoint::Unspecified,
            rx_buffer,
            tx_buffer,
            hop_limit: None,
        }
    }

    /// The two buffers, with what stands in their queues: the receive buffer first.
    pub fn into_buffers(self) -> (PacketBuffer<'a>, PacketBuffer<'a>)
        ensures received { result.0 ≡ self.entry.rx_buffer }
        ensures sent { result.1 ≡ self.entry.tx_buffer }
    {
        let Socket {
            endpoint: _,
            rx_buffer,
            tx_buffer,
            hop_limit: _,
        } = self;
        (rx_buffer, tx_buffer)
    }

    /// Opens the socket for the messages that the endpoint names.
    ///
    /// # Errors
    /// `Unaddressable` where it names none (`Endpoint::is_specified`); else `InvalidState` where the socket is open. A
    /// refusal changes nothing.
    pub fn bind(&mut self, endpoint: Endpoint) -> Result<(), BindError>
        ensures answer { result ≡ bind_answer self.old endpoint }
        ensures view { self.new ≡ after_bind (bind_answer self.old endpoint) self.old endpoint }
        ensures effect { Effect (Bind endpoint) self.old self.new }
    {
        if !endpoint.is_specified() {
            return Err(BindError::Unaddressable);
        }
        if self.is_open() {
            return Err(BindError::InvalidState);
        }
        self.endpoint = endpoint;
        Ok(())
    }

    /// Whether the socket is bound.
    pub fn is_open(&self) -> bool
        ensures { result ≡ is_open self.now }
    {
        !matches!(self.endpoint, Endpoint::Unspecified)
    }

    /// The hop limit of what is sent; 64 where none is set.
    pub fn hop_limit(&self) -> Option<u8>
        ensures { result ≡ self.now.hop_limit }
    {
        self.hop_limit
    }

    /// Sets the hop limit of what is sent, 1 to 255, or none for 64 (RFC 1122, section 3.2.1.7).
    pub fn set_hop_limit(&mut self, hop_limit: Option<u8>)
        requires { hop_limit ≡ Some 0 → ⊥ }
        ensures view { self.new ≡ record self.old { hop_limit = hop_limit } }
        ensures effect { Effect (SetHopLimit hop_limit) self.old self.new }
    {
        self.hop_limit = hop_limit;
    }

    /// Whether the transmit buffer has a free place.
    pub fn can_send(&self) -> bool
        ensures { result ≡ has_place self.now.tx_buffer }
    {
        !self.tx_buffer.is_full()
    }

    /// Whether a place of the receive buffer is taken.
    pub fn can_recv(&self) -> bool
        ensures { result ≡ has_entry self.now.rx_buffer }
    {
        !self.rx_buffer.is_empty()
    }

    /// How many messages the receive buffer has places for.
    pub fn packet_recv_capacity(&self) -> usize
        ensures { result ≡ self.now.rx_buffer.places }
    {
        self.rx_buffer.packet_capacity()
    }

    /// How many messages the transmit buffer has places for.
    pub fn packet_send_capacity(&self) -> usize
        ensures { result ≡ self.now.tx_buffer.places }
    {
        self.tx_buffer.packet_capacity()
    }

    /// How many payload bytes the receive buffer has places for.
    pub fn payload_recv_capacity(&self) -> usize
        ensures { result ≡ length self.now.rx_buffer.storage }
    {
        self.rx_buffer.payload_capacity()
    }

    /// How many payload bytes the transmit buffer has places for.
    pub fn payload_send_capacity(&self) -> usize
        ensures { result ≡ length self.now.tx_buffer.storage }
    {
        self.tx_buffer.payload_capacity()
    }

    /// How many payload bytes of the transmit buffer are taken, padding included.
    pub fn send_queue(&self) -> usize
        ensures { result ≡ taken self.now.tx_buffer.entries }
    {
        self.tx_buffer.payload_bytes_count()
    }

    /// How many payload bytes of the receive buffer are taken, padding included.
    pub fn recv_queue(&self) -> usize
        ensures { result ≡ taken self.now.rx_buffer.entries }
    {
        self.rx_buffer.payload_bytes_count()
    }

    /// When the socket wants its next `dispatch`: `Ingress` where no place of the transmit buffer is taken, else `Now`.
    pub fn poll_at<C: Context>(&self, _cx: &C) -> PollAt
        ensures { result ≡ poll_moment self.now.tx_buffer }
    {
        poll_moment(&self.tx_buffer)
    }
}
