//! A connection hears a segment, and what it answers is written as a packet.
ghost use Rattle.std.specs.Prelude.{◌≡◌, ◌<◌, ◌≤◌, IfSome, false, length, slice_get};
ghost use Rattle.control_wire.specs.Segment.{segment_of};
ghost use Rattle.sock_tcp.specs.Process.{responded};
ghost use Rattle.sock_tcp.specs.Replies.{IsReplyStamp, echoed};
ghost use Rattle.net_host.specs.Answered.{HearsOut, PutsAnswer};
ghost use Rattle.net_host.specs.Segments.{TakesSegment};
ghost use Rattle.net_host.specs.Walks.{ChangesAt};

use crate::limit::Limit;
use crate::replies::put_reply;
use crate::segments::keep_within;
use crate::slot::Slot;
use smoltcp_socket::wire::{IpRepr, TcpRepr};
use smoltcp_socket::{Context, Socket, tcp};
use sock_tcp::{Response, TsvalSource};

// What goes out of the answer to a segment that the socket took: the length of its packet, at the beginning of `out`.
// Not inlined, as most segments are answered by nothing, and the space for a reply is cleared where it is made.
#[inline(never)]
fn put_answer<C: Context, G: TsvalSource>(
    tcp: &mut tcp::Socket<'_, G>,
    cx: &C,
    limit: &mut Limit,
    response: Response,
    ip: &IpRepr,
    repr: &TcpRepr<'_>,
    out: &mut [u8],
) -> usize
    requires small { length repr.now.payload.now ≤ 65535 }
    requires room { 100 ≤ length out.old }
    ensures within { result ≤ length out.old }
    ensures put { PutsAnswer (IsReplyStamp G.tells tcp.old.tsval_generator
        (echoed tcp.new.control_block repr.now.timestamp)) (C.facts cx.now) limit.old ip.now
        (responded response tcp.old.control_block (segment_of repr.now)) tcp.new.control_block out.old result limit.new
        out.new }
    ensures generator { tcp.new.tsval_generator ≡ tcp.old.tsval_generator }
{
    let caps = cx.checksum_caps();
    let mut reply = tcp.reply_by(response, ip, repr);
    keep_within(limit, cx.now(), ip, &mut reply);
    put_reply(&reply, out, &caps)
}

impl<'a, G: TsvalSource> Slot<'a, G> {
    // The connection here hears the segment: the length of the packet that answers it, at the beginning of `out`.
    #[inline(always)]
    fn hear_out<C: Context>(
        &mut self,
        cx: &mut C,
        limit: &mut Limit,
        ip: &IpRepr,
        repr: &TcpRepr<'_>,
        out: &mut [u8],
    ) -> usize
        requires accepted { TakesSegment false ip.now (segment_of repr.now) self.old }
        requires small { length repr.now.payload.now ≤ 65535 }
        requires room { 100 ≤ length out.old }
        ensures within { result ≤ length out.old }
        ensures heard { HearsOut C.facts C.word_at G.tells self.old cx.old limit.old ip.now (segment_of repr.now)
            out.old result self.new cx.new limit.new out.new }
    {
        match &mut self.socket {
            Some(Socket::Tcp(tcp)) => match tcp.take_segment(cx, ip, repr) {
                Response::Nothing => 0,
                Response::Ack(count) => {
                    put_answer(tcp, cx, limit, Response::Ack(count), ip, repr, out)
                }
                Response::Rst => put_answer(tcp, cx, limit, Response::Rst, ip, repr, out),
            },
            _ => 0,
        }
    }
}

/// The connection at this place hears the segment: the length of the packet that answers it, at the beginning of
/// `out`, or 0.
pub(crate) fn hear_out_there<C: Context, G: TsvalSource>(
    slots: &mut Vec<Slot<'_, G>>,
    i: usize,
    cx: &mut C,
    limit: &mut Limit,
    ip: &IpRepr,
    repr: &TcpRepr<'_>,
    out: &mut [u8],
) -> usize
    requires within { i < length slots.old.items }
    requires accepted { IfSome (slice_get slots.old.items i) (TakesSegment false ip.now (segment_of repr.now)) }
    requires small { length repr.now.payload.now ≤ 65535 }
    requires room { 100 ≤ length out.old }
    ensures within { result ≤ length out.old }
    ensures heard { ChangesAt (λ before after. HearsOut C.facts C.word_at G.tells before cx.old limit.old ip.now
        (segment_of repr.now) out.old result after cx.new limit.new out.new) slots.old.items i slots.new.items }
{
    slots[i].hear_out(cx, limit, ip, repr, out)
}
