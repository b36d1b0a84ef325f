//! Queues over lent memory, which sockets are made of.

pub use net_base::packet_buffer::{Empty, Full};
pub use net_base::{Assembler, PacketBuffer, PacketMetadata, RingBuffer, TooManyHoles};
