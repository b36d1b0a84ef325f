//! UDP sockets (RFC 768): two queues of datagrams, each with the endpoint of the other side.

mod dispatch;
pub mod laws;
mod process;
mod receive;
mod send;
pub mod socket;

pub use crate::error::{BindError, RecvError, SendError};
pub use socket::{PacketBuffer, PacketMetadata, Socket, UdpMetadata};
