//! UDP headers as values.
ghost use Rattle.std.specs.Prelude.{◌≡◌};
ghost use Rattle.control_wire.specs.Datagram.{udp_header_len};

/// A UDP header: the ports that the datagram comes from and goes to (RFC 768).
#[derive(Debug, Clone, Copy, PartialEq, Eq)]
pub struct UdpRepr {
    /// The sender's port.
    pub src_port: u16,
    /// The receiver's port.
    pub dst_port: u16,
}

impl UdpRepr {
    /// How many bytes the header takes: 8 (RFC 768).
    pub fn header_len(&self) -> usize
        ensures { result ≡ udp_header_len }
    {
        8
    }
}
