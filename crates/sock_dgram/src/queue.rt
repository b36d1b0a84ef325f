//! What the datagram sockets share: adding a packet to a queue, copying its first one, and the hop limit and the moment
//! of what is sent.
ghost use Rattle.std.specs.Prelude.{◌≡◌, ◌+◌, ◌++◌, [], ◌∷◌, length, take, drop, min, cond, false};
ghost use Rattle.net_base.specs.Packets.{packets, takes, first_packet, starts_padded, Dequeues};
ghost use Rattle.sock_dgram.specs.Addressed.{hops_of};
ghost use Rattle.sock_dgram.specs.Datagrams.{stored, copied_of, copy_answer, copied, poll_moment};

use crate::error::RecvError;
use ip_wire::octets::put_two;
use net_base::packet_buffer::PacketBuffer;
use sock_core::PollAt;

// The hop limit of what is sent: 64 where none is set (RFC 1122, section 3.2.1.7).
pub(crate) fn hops_of(hop_limit: Option<u8>) -> u8
    ensures { result ≡ hops_of hop_limit }
{
    hop_limit.unwrap_or(64)
}

// When a socket with this transmit buffer wants its next dispatch.
pub(crate) fn poll_moment<M: Copy>(tx_buffer: &PacketBuffer<'_, M>) -> PollAt
    ensures { result ≡ poll_moment tx_buffer.now }
{
    if tx_buffer.is_empty() {
        PollAt::Ingress
    } else {
        PollAt::Now
    }
}

// Appends a packet, where there is room for it. Answers whether there was.
#[inline(always)]
fn append<M: Copy>(buffer: &mut PacketBuffer<'_, M>, meta: M, data: &[u8]) -> bool
    ensures takes { result ≡ takes (length «data».now) buffer.old }
    ensures after { buffer.new ≡ stored meta «data».now buffer.old }
{
    let size = data.len();
    let (taken, from) = buffer.claim(size, meta);
    if !taken {
        return false;
    }
    buffer.part_mut(from, size).copy_from_slice(data);
    true
}

// Appends a packet, and says what then waits. Inlined, so that the metadata is made where it stays.
#[inline(always)]
#[tactic(auto, using(crate::proofs::Storing::stored_queue))]
pub(crate) fn store<M: Copy>(buffer: &mut PacketBuffer<'_, M>, meta: M, data: &[u8]) -> bool
    ensures takes { result ≡ takes (length «data».now) buffer.old }
    ensures after { buffer.new ≡ stored meta «data».now buffer.old }
    ensures packets { packets buffer.new.entries ≡ cond result (packets buffer.old.entries
        ++ (meta, «data».now) ∷ []) (packets buffer.old.entries) }
{
    append(buffer, meta, data)
}

// Appends a packet that is given in two pieces, where there is room for it.
pub(crate) fn store_both<M: Copy>(
    buffer: &mut PacketBuffer<'_, M>,
    meta: M,
    head: &[u8],
    data: &[u8],
)
    ensures { buffer.new ≡ stored meta (head.now ++ «data».now) buffer.old }
{
    let size = head.len() + data.len();
    let (taken, from) = buffer.claim(size, meta);
    if !taken {
        return;
    }
    put_two(buffer.part_mut(from, size), head, data);
}

// Takes the first packet and copies its bytes into `data`. Answers how many they are, and the metadata.
//
// `Exhausted` where there is none; `Truncated` where `data` is too short: the packet is gone then, and `data` stays as
// it was.
pub(crate) fn take_into<M: Copy>(
    buffer: &mut PacketBuffer<'_, M>,
    data: &mut [u8],
) -> Result<(usize, M), RecvError>
    ensures answer { result ≡ copy_answer (first_packet buffer.old) (length «data».old) }
    ensures bytes { «data».new ≡ copied (first_packet buffer.old) «data».old }
    ensures queue { Dequeues buffer.old buffer.new }
{
    let (meta, (from, size)) = buffer.take_first().ok_or(RecvError::Exhausted)?;
    if data.len() < size {
        return Err(RecvError::Truncated);
    }
    data[..size].copy_from_slice(buffer.part(from, size));
    Ok((size, meta))
}

// Copies the bytes of the first packet into `data`. Answers how many they are, and the metadata.
//
// `Exhausted` where there is none; `Truncated` where `data` is too short, which then stays as it was.
pub(crate) fn copy_first<'b, M: Copy>(
    buffer: &'b PacketBuffer<'_, M>,
    data: &mut [u8],
) -> Result<(usize, &'b M), RecvError>
    requires packet { starts_padded buffer.now.entries ≡ false }
    ensures answer { copied_of result ≡ copy_answer (first_packet buffer.now) (length «data».old) }
    ensures bytes { «data».new ≡ copied (first_packet buffer.now) «data».old }
{
    let (meta, bytes) = buffer.first().map_err(|_| RecvError::Exhausted)?;
    if data.len() < bytes.len() {
        return Err(RecvError::Truncated);
    }
    data[..bytes.len()].copy_from_slice(bytes);
    Ok((bytes.len(), meta))
}
