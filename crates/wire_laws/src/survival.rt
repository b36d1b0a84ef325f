//! What a socket emits, written as a packet, is read on the other side as the same segment.
//!
//! A law on one call has the call's own table beside it, so that it speaks of what that call answers.
//!
//! No packet has a segment from port 0 or to it. In a pair there is none. A socket alone takes a SYN from port 0, as
//! the table of `accepts` says, and answers to that port: so the laws on single calls have the premise `HasPorts`.
ghost use Rattle.std.specs.Prelude.{◌≡◌, ◌≤◌, length, option_map, slice_get};
ghost use Rattle.std.specs.Option.{ForSome};
ghost use Rattle.control_wire.specs.Fits.{FitsPacket};
ghost use Rattle.control_wire.specs.Segment.{segment_of};
ghost use Rattle.sock_tcp.specs.Dispatch.{Dispatches};
ghost use Rattle.sock_tcp.specs.Process.{Accepts, Processes, reply_of};
ghost use Rattle.sock_tcp.specs.Replies.{IsReplyStamp, bare_reply, echoed, rst_segment, with_header};
ghost use Rattle.wire_laws.specs.Survival.{DispatchesSurviving, Survives, SurvivesWithPorts};

use crate::widths::has_widths;
use control_wire::{TcpControl, TcpRepr};
use ip_wire::IpRepr;
use pair_core::Pair;
use segment_wire::round_trips::packets_read_back;
use sock_core::Context;
use sock_tcp::{Reply, Socket, TsvalSource};

/// A segment that fits a packet survives: where neither of its ports is 0, the octets that `emit_tcp` writes of it,
/// with its IP header, are read by `parse_tcp` as the same header and the same segment.
#[tactic(auto, using(crate::proofs::Fields::survives))]
pub fn what_fits_survives(ip_repr: &IpRepr, repr: &TcpRepr<'_>)
    requires { FitsPacket ip_repr.now (segment_of repr.now) }
    ensures { SurvivesWithPorts ip_repr.now (segment_of repr.now) }
{
    packets_read_back();
    has_widths(ip_repr, repr);
}

fn stored_survives_with_ports<G: TsvalSource>(pair: &Pair<'_, G>, index: usize)
    ensures { ForSome (slice_get pair.now.segments index) (λ t. SurvivesWithPorts t.ip t.segment) }
{
    if index < pair.segments().len() {
        let segment = &pair.segments()[index];
        segment.fits();
        what_fits_survives(&segment.header.ip_repr, &segment.as_repr());
    }
}

/// Every segment of a pair survives the wire: where its bytes arrive unaltered, the other side reads the same segment.
/// Its ports are those of the pair's two ends, and not 0.
#[tactic(auto, using(crate::proofs::Fields::both_ports))]
pub fn segments_survive_the_wire<G: TsvalSource>(pair: &Pair<'_, G>, index: usize)
    ensures { ForSome (slice_get pair.now.segments index) (λ t. Survives t.ip t.segment) }
{
    stored_survives_with_ports(pair, index);
    pair.segment_has_ports(index);
}

/// The answer of `process` to a segment that the socket accepts survives the wire.
pub fn process_answers_a_packet<G: TsvalSource, C: Context>(
    socket: &mut Socket<'_, G>,
    cx: &mut C,
    ip_repr: &IpRepr,
    repr: &TcpRepr<'_>,
) -> Option<Reply>
    requires accepted { Accepts socket.old.control_block ip_repr.now (segment_of repr.now) }
    requires small { length repr.now.payload.now ≤ 65535 }
    ensures call { Processes C.facts C.word_at
        (IsReplyStamp G.tells socket.new.tsval_generator (echoed socket.new.control_block repr.now.timestamp))
        socket.old.control_block cx.old ip_repr.now (segment_of repr.now) result socket.new.control_block cx.new }
    ensures survives { ForSome (option_map reply_of result) (λ r. SurvivesWithPorts r.0 r.1) }
{
    let reply = socket.process(cx, ip_repr, repr);
    survives_if(&reply);
    reply
}

fn survives_if(reply: &Option<Reply>)
    requires { ForSome (option_map reply_of reply.now) (λ r. FitsPacket r.0 r.1) }
    ensures { ForSome (option_map reply_of reply.now) (λ r. SurvivesWithPorts r.0 r.1) }
{
    if let Some((ip_repr, repr)) = reply {
        what_fits_survives(ip_repr, repr);
    }
}

/// What `reply` answers to a segment survives the wire.
pub fn reply_is_a_packet(ip_repr: &IpRepr, repr: &TcpRepr<'_>) -> Reply
    ensures call { reply_of result ≡ with_header ip_repr.now (bare_reply (segment_of repr.now)) }
    ensures survives { SurvivesWithPorts result.0 (segment_of result.1) }
{
    let reply = Socket::reply(ip_repr, repr);
    what_fits_survives(&reply.0, &reply.1);
    reply
}

/// The RST that answers a segment that is none survives the wire.
pub fn rst_reply_is_a_packet(ip_repr: &IpRepr, repr: &TcpRepr<'_>) -> Reply
    requires control { repr.now.control ≡ TcpControl.Rst → ⊥ }
    requires small { length repr.now.payload.now ≤ 65535 }
    ensures call { reply_of result ≡ with_header ip_repr.now (rst_segment (segment_of repr.now)) }
    ensures survives { SurvivesWithPorts result.0 (segment_of result.1) }
{
    let reply = Socket::rst_reply(ip_repr, repr);
    what_fits_survives(&reply.0, &reply.1);
    reply
}

/// What a `dispatch` emits, in whatever state the socket is and whatever came before, survives the wire.
pub fn dispatch_emits_a_packet<
    G: TsvalSource,
    C: Context,
    E,
    F: FnOnce(&mut C, (IpRepr, TcpRepr<'_>)) -> Result<(), E>,
>(socket: &mut Socket<'_, G>, cx: &mut C, emit: F) -> Result<(), E>
    requires callable { F.IsAlwaysCallable emit }
    ensures call { Dispatches F.FnOnce emit (C.facts cx.old) G.tells socket.old.tsval_generator
        socket.old.control_block cx.old result socket.new.control_block cx.new }
    ensures survives { DispatchesSurviving F.FnOnce emit cx.old result cx.new }
{
    packets_read_back();
    socket.dispatch(cx, emit)
}
