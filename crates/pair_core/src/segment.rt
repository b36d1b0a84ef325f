//! A stored segment, which owns its payload.
ghost use Rattle.std.specs.Prelude.{◌≡◌, ◌+◌, ◌<◌, ◌≤◌, ◌^◌, length, vec_len, []};
ghost use Rattle.control_wire.specs.Fits.{FitsPacket};
ghost use Rattle.pair_core.specs.Headers.{segment_at};

use crate::side::Side;
use control_wire::TcpRepr;
use ip_wire::IpRepr;
use std::alloc::Global;

/// The headers of a segment: all of it but its payload.
#[derive(Debug, Clone, Copy, PartialEq, Eq)]
pub struct Header {
    /// The IP header.
    pub ip_repr: IpRepr,
    /// The TCP header, whose payload is left empty.
    pub repr: TcpRepr<'static>,
}

impl Header {
    ghost use Rattle.control_wire.specs.Segment.{segment_of};
    ghost use Rattle.pair_core.specs.Holding.{IsHeaderOf};

    pub(crate) fn of(ip_repr: IpRepr, repr: &TcpRepr<'_>) -> Header
        ensures { IsHeaderOf result ip_repr (segment_of repr.now) }
    {
        Header {
            ip_repr,
            repr: repr.without_payload(),
        }
    }
}

/// A segment that a side emitted, with the counts of its emitter at that moment.
#[derive(Debug, PartialEq, Eq, Drop)]
pub struct Segment {
    /// The side that emitted it.
    pub from: Side,
    /// Its headers.
    pub header: Header,
    /// The bytes that it carries.
    pub payload: Vec<u8>,
    /// How many bytes had left the emitter's transmit queue by acknowledgement.
    pub released_at: u64,
    /// How many bytes had joined the emitter's receive queue.
    pub taken_at: u64,
    pub ghost fits: { FitsPacket header.ip_repr (segment_at header payload.items) },
}

impl Segment {
    ghost use Rattle.control_wire.specs.Segment.{segment_of};
    ghost use Rattle.pair_core.specs.Holding.{stored_of, stored_segment};
    ghost use Rattle.pair_core.specs.PairNetwork.{IsSmall};

    /// The form that a socket reads.
    pub fn as_repr(&self) -> TcpRepr<'_>
        ensures { segment_of result ≡ (stored_of self.now).segment }
    {
        self.header.repr.with_payload(self.payload.as_slice())
    }

    /// Says that it can be written as a packet of at most 65535 bytes and read back.
    pub fn fits(&self)
        ensures { FitsPacket (stored_of self.now).ip (stored_of self.now).segment }
    {
        let _header = &self.header;
    }

    // Says that its numbers have 32 bits, and its payload at most 65535 bytes.
    #[tactic(auto, using(crate::proofs::Captured::short_of))]
    pub(crate) fn in_range(&self)
        ensures numbers { IsSmall (stored_of self.now).segment }
        ensures short { length (stored_of self.now).segment.payload ≤ 65535 }
    {
        self.fits(); // for its contract
        self.header.repr.seq_number.in_range(); // for its contract
        match self.header.repr.ack_number {
            None => {}
            Some(ack) => ack.in_range(),
        }
    }

    /// A reply, which has no payload.
    pub(crate) fn of_reply(
        alloc: Global,
        from: Side,
        header: Header,
        released_at: u64,
        taken_at: u64,
    ) -> Segment
        requires { FitsPacket header.ip_repr (segment_at header []) }
        ensures { stored_of result ≡ stored_segment from header [] released_at taken_at }
    {
        Segment {
            from,
            header,
            payload: Vec::new(alloc),
            released_at,
            taken_at,
        }
    }
}
