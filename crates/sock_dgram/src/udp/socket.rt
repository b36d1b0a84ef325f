//! The UDP socket: what it is bound to, and its two queues.
ghost use Rattle.std.specs.Prelude.{◌≡◌, length, Some, None};
ghost use Rattle.net_base.specs.Packets.{taken};
ghost use Rattle.ip_wire.specs.Endpoint.{endpoint_text};
ghost use Rattle.sock_dgram.specs.Datagrams.{has_place, has_entry};
ghost use Rattle.sock_dgram.specs.Udp.{fresh, is_open, bind_answer, after_bind, closed};
ghost use Rattle.sock_dgram.specs.UdpCalls.{Bind, Close, Effect, SetHopLimit};

use crate::error::BindError;
use ip_wire::{IpAddress, IpEndpoint, IpListenEndpoint};
use std::fmt;
use std::marker::Model;

/// Where a datagram came from or goes to, and the own address.
#[derive(Debug, Clone, Copy, PartialEq, Eq)]
pub struct UdpMetadata {
    /// The other side.
    pub endpoint: IpEndpoint,
    /// Of a datagram that came, the address that it was sent to. Of one to send, the address to send it from; where
    /// there is none, the bound address, else one that the context chooses.
    pub local_address: Option<IpAddress>,
}

impl UdpMetadata {
    /// To or from this endpoint, with no own address.
    pub fn from_endpoint(endpoint: IpEndpoint) -> UdpMetadata
        ensures endpoint { result.endpoint ≡ endpoint }
        ensures local_address { result.local_address ≡ None }
    {
        UdpMetadata {
            endpoint,
            local_address: None,
        }
    }
}

/// Prints the endpoint, `10.0.0.1:80`.
impl fmt::Display for UdpMetadata {
    ghost output = { λ m. Some (endpoint_text m.endpoint) };

    fn fmt<W: fmt::Write>(&self, f: &mut fmt::Formatter<W>) -> fmt::Result {
        let endpoint = self.endpoint;
        write!(f, "{endpoint}")
    }
}

/// A place of a packet buffer.
pub type PacketMetadata = net_base::packet_buffer::PacketMetadata<UdpMetadata>;

/// A queue of datagrams over lent places and lent bytes.
pub type PacketBuffer<'a> = net_base::packet_buffer::PacketBuffer<'a, UdpMetadata>;

/// A UDP socket (RFC 768) over two lent buffers.
#[derive(Debug, Drop)]
pub struct Socket<'a> {
    pub(crate) endpoint: IpListenEndpoint,
    pub(crate) rx_buffer: PacketBuffer<'a>,
    pub(crate) tx_buffer: PacketBuffer<'a>,
    pub(crate) hop_limit: Option<u8>,
}

impl<'a> Model for Socket<'a> {
    ghost use Rattle.sock_dgram.specs.Udp.{View};

    ghost Value = { View };

    ghost view = { λ s. record {
      endpoint = s.endpoint;
      rx_buffer = s.rx_buffer;
      tx_buffer = s.tx_buffer;
      hop_limit = s.hop_limit;
    } };
}

impl<'a> Socket<'a> {
    /// A socket that is not open, over these two buffers.
    pub fn new(rx_buffer: PacketBuffer<'a>, tx_buffer: PacketBuffer<'a>) -> Socket<'a>
        ensures { result ≡ fresh rx_buffer.entry tx_buffer.entry }
    {
        Socket {
            endpoint: IpListenEndpoint::default(),
            rx_buffer,
            tx_buffer,
            hop_limit: None,
        }
    }

    /// The two buffers, with what stands in their queues: the receive buffer first.
    pub fn into_buffers(self) -> (PacketBuffer<'a>, PacketBuffer<'a>)
        ensures received { result.0 ≡ self.entry.rx_buffer }
        ensures sent { result.1 ≡ self.entry.tx_buffer }
    {
        let Socket {
            endpoint: _,
            rx_buffer,
            tx_buffer,
            hop_limit: _,
        } = self;
        (rx_buffer, tx_buffer)
    }

    /// Opens the socket for datagrams to this port, and to this address where one is given.
    ///
    /// # Errors
    /// `Unaddressable` where the port is zero; else `InvalidState` where the socket is open. A refusal changes nothing.
    pub fn bind(&mut self, endpoint: IpListenEndpoint) -> Result<(), BindError>
        ensures answer { result ≡ bind_answer self.old endpoint }
        ensures view { self.new ≡ after_bind (bind_answer self.old endpoint) self.old endpoint }
        ensures effect { Effect (Bind endpoint) self.old self.new }
    {
        if endpoint.port == 0 {
            return Err(BindError::Unaddressable);
        }
        if self.is_open() {
            return Err(BindError::InvalidState);
        }
        self.endpoint = endpoint;
        Ok(())
    }

    /// Closes the socket: it is bound to nothing, and both queues are empty.
    pub fn close(&mut self)
        ensures view { self.new ≡ closed self.old }
        ensures effect { Effect Close self.old self.new }
    {
        self.endpoint = IpListenEndpoint::default();
        self.rx_buffer.reset();
        self.tx_buffer.reset();
    }

    /// What the socket is bound to; its port is 0 where it is not open.
    pub fn endpoint(&self) -> IpListenEndpoint
        ensures { result ≡ self.now.endpoint }
    {
        self.endpoint
    }

    /// Whether the socket is bound.
    pub fn is_open(&self) -> bool
        ensures { result ≡ is_open self.now }
    {
        self.endpoint.port != 0
    }

    /// The hop limit of what is sent; 64 where none is set.
    pub fn hop_limit(&self) -> Option<u8>
        ensures { result ≡ self.now.hop_limit }
    {
        self.hop_limit
    }

    /// Sets the hop limit of what is sent, 1 to 255, or none for 64 (RFC 1122, section 3.2.1.7).
    pub fn set_hop_limit(&mut self, hop_limit: Option<u8>)
        requires { hop_limit ≡ Some 0 → ⊥ }
        ensures view { self.new ≡ record self.old { hop_limit = hop_limit } }
        ensures effect { Effect (SetHopLimit hop_limit) self.old self.new }
    {
        self.hop_limit = hop_limit;
    }

    /// Whether the transmit buffer has a free place.
    pub fn can_send(&self) -> bool
        ensures { result ≡ has_place self.now.tx_buffer }
    {
        !self.tx_buffer.is_full()
    }

    /// Whether a place of the receive buffer is taken.
    pub fn can_recv(&self) -> bool
        ensures { result ≡ has_entry self.now.rx_buffer }
    {
        !self.rx_buffer.is_empty()
    }

    /// How many datagrams the receive buffer has places for.
    pub fn packet_recv_capacity(&self) -> usize
        ensures { result ≡ self.now.rx_buffer.places }
    {
        self.rx_buffer.packet_capacity()
    }

    /// How many datagrams the transmit buffer has places for.
    pub fn packet_send_capacity(&self) -> usize
        ensures { result ≡ self.now.tx_buffer.places }
    {
        self.tx_buffer.packet_capacity()
    }

    /// How many payload bytes the receive buffer has places for.
    pub fn payload_recv_capacity(&self) -> usize
        ensures { result ≡ length self.now.rx_buffer.storage }
    {
        self.rx_buffer.payload_capacity()
    }

    /// How many payload bytes the transmit buffer has places for.
    pub fn payload_send_capacity(&self) -> usize
        ensures { result ≡ length self.now.tx_buffer.storage }
    {
        self.tx_buffer.payload_capacity()
    }

    /// How many payload bytes of the transmit buffer are taken, padding included.
    pub fn send_queue(&self) -> usize
        ensures { result ≡ taken self.now.tx_buffer.entries }
    {
        self.tx_buffer.payload_bytes_count()
    }

    /// How many payload bytes of the receive buffer are taken, padding included.
    pub fn recv_queue(&self) -> usize
        ensures { result ≡ taken self.now.rx_buffer.entries }
    {
        self.rx_buffer.payload_bytes_count()
    }
}
