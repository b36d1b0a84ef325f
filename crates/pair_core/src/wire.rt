//! What goes between the two sides: the segments that a dispatch emits, and their delivery.
ghost use Rattle.std.specs.Prelude.{◌≡◌, ◌<◌, ◌^◌, ◌++◌, [], length, map, IfOk, OnErr, slice_get, option_map};
ghost use Rattle.std.specs.Prelude.{vec_len, vec_capacity};
ghost use Rattle.pair_core.specs.Holding.{stored_of, kept_at};
ghost use Rattle.std.specs.Option.{ForSome};
ghost use Rattle.control_wire.specs.Fits.{FitsPacket};
ghost use Rattle.sock_tcp.specs.Process.{reply_of};
ghost use Rattle.pair_core.specs.PairSteps.{is_too_old, dispatch_outcome, stored_at, Dispatches, refusal_of};
ghost use Rattle.pair_core.specs.PairSteps.{reply_index, IsUnchanged};
ghost use Rattle.pair_core.specs.Captures.{FitsSent};
ghost use Rattle.pair_core.specs.Aging.{DeliversAt, TakesRoomAt};

use crate::capture::Sent;
use crate::host::Host;
use crate::moment::Moment;
use crate::outcome::{Outcome, PairError};
use crate::segment::{Header, Segment};
use crate::side::Side;
use control_wire::TcpControl;
use sock_tcp::{Reply, Socket, TsvalSource};
use std::alloc::Global;

// By how much a count of a segment's emitter may grow at most while the segment is young.
const AGE_LIMIT: u64 = 0x2000_0000;

/// How many bytes left a side's transmit queue, and joined its receive queue.
#[derive(Clone, Copy)]
pub(crate) struct Counts {
    pub(crate) released: u64,
    pub(crate) taken: u64,
}

/// Whether a segment is too old to be delivered: since it went out, one of its emitter's counts grew by 2^29 or more.
/// No count falls.
pub fn too_old(released_at: u64, released_now: u64, taken_at: u64, taken_now: u64) -> bool
    ensures { result ≡ is_too_old released_at released_now taken_at taken_now }
{
    released_now.saturating_sub(released_at) >= AGE_LIMIT
        || taken_now.saturating_sub(taken_at) >= AGE_LIMIT
}

// What came of a dispatch, whose segment is stored where there is one; there is room for it. Of the room for its
// payload it keeps no more than it needs.
fn store(segments: &mut Vec<Segment>, from: Side, sent: Sent, counts: Counts) -> Outcome
    requires room { vec_len segments.old < vec_capacity segments.old }
    requires fits { FitsSent sent }
    ensures answer { result ≡ dispatch_outcome sent (length (map stored_of segments.old.items)) }
    ensures stored { map stored_of segments.new.items ≡ map stored_of segments.old.items
        ++ stored_at from sent counts.released counts.taken }
{
    match sent {
        Sent::Quiet => Outcome::Quiet,
        Sent::Failed => Outcome::EmitFailed,
        Sent::Emitted(header, mut payload) => {
            payload.shrink_to_fit();
            let index = segments.len();
            segments.push_reserved(Segment {
                from,
                header,
                payload,
                released_at: counts.released,
                taken_at: counts.taken,
            });
            Outcome::Emitted(index)
        }
    }
}

// One dispatch of a side. The room is made first.
pub(crate) fn dispatch<G: TsvalSource>(
    alloc: Global,
    host: &mut Host<'_, G>,
    side: Side,
    segments: &mut Vec<Segment>,
    moment: &Moment,
    fail: bool,
) -> Result<Outcome, PairError>
    ensures step { IfOk result
        (λ o. Dispatches G.tells side moment.entry.now fail o host.old (map stored_of segments.old.items) host.new
        (map stored_of segments.new.items)) }
    ensures memory { OnErr result
        (IsUnchanged host.old (map stored_of segments.old.items) host.new (map stored_of segments.new.items)) }
{
    if let Err(_) = segments.reserve(1) {
        return Err(PairError::Memory);
    }
    let room = match Vec::with_capacity(alloc, host.payload_at_most(moment)) {
        Err(_) => return Err(PairError::Memory),
        Ok(room) => room,
    };
    let counts = host.counts();
    let sent = host.dispatch(moment, room, fail);
    Ok(store(segments, side, sent, counts))
}

// Stores a reply, where there is one, and answers its index; there is room for it.
fn store_reply(
    alloc: Global,
    segments: &mut Vec<Segment>,
    from: Side,
    reply: Option<Reply>,
    counts: Counts,
) -> Option<usize>
    requires room { vec_len segments.old < vec_capacity segments.old }
    requires empty { ForSome reply (λ r. r.1.payload.now ≡ []) }
    requires fits { ForSome (option_map reply_of reply) (λ r. FitsPacket r.0 r.1) }
    ensures answer { result
        ≡ reply_index (length (map stored_of segments.old.items)) (option_map reply_of reply.entry) }
    ensures stored { map stored_of segments.new.items ≡ map stored_of segments.old.items
        ++ kept_at from (option_map reply_of reply.entry) counts.released counts.taken }
{
    match reply {
        None => None,
        Some((ip_repr, repr)) => {
            let index = segments.len();
            let header = Header::of(ip_repr, &repr);
            segments.push_reserved(Segment::of_reply(
                alloc,
                from,
                header,
                counts.released,
                counts.taken,
            ));
            Some(index)
        }
    }
}

// The RST that answers a refused segment, unless that is an RST itself.
#[tactic(auto, using(crate::proofs::Deliveries::refused_by))]
fn refusal(segment: &Segment) -> Option<Reply>
    ensures reply { option_map reply_of result ≡ refusal_of (stored_of segment.now) }
    ensures bare { ForSome result (λ r. r.1.payload.now ≡ []) }
    ensures fits { ForSome (option_map reply_of result) (λ r. FitsPacket r.0 r.1) }
{
    segment.in_range(); // for its contract
    segment.fits(); // for its contract
    match segment.header.repr.control {
        TcpControl::Rst => None,
        _ => Some(Socket::rst_reply(&segment.header.ip_repr, &segment.as_repr())),
    }
}

// One delivery to a side. The room is made first.
pub(crate) fn deliver<G: TsvalSource>(
    alloc: Global,
    emitter: Counts,
    host: &mut Host<'_, G>,
    side: Side,
    segments: &mut Vec<Segment>,
    index: usize,
    moment: &Moment,
) -> Result<Outcome, PairError>
    requires there { index < length segments.old.items }
    requires released { host.old.released < 2 ^ 63 }
    requires taken { host.old.taken < 2 ^ 63 }
    ensures step { IfOk result (λ o. DeliversAt G.tells (slice_get (map stored_of segments.old.items) index)
        emitter.released emitter.taken side moment.entry.now o host.old (map stored_of segments.old.items)
        host.new (map stored_of segments.new.items)) }
    ensures memory { OnErr result
        (IsUnchanged host.old (map stored_of segments.old.items) host.new (map stored_of segments.new.items)) }
    ensures takes_memory { OnErr result
        (TakesRoomAt (slice_get (map stored_of segments.old.items) index) emitter.released emitter.taken host.old) }
{
    let segment = &segments[index];
    if too_old(
        segment.released_at,
        emitter.released,
        segment.taken_at,
        emitter.taken,
    ) {
        return Ok(Outcome::TooOld);
    }
    let accepted = host.accepts(moment, segment);
    if !accepted && segment.header.repr.control == TcpControl::Rst {
        return Ok(Outcome::NotAccepted(None));
    }
    if let Err(_) = segments.reserve(1) {
        return Err(PairError::Memory);
    }
    if accepted {
        let reply = host.deliver(moment, &segments[index]);
        Ok(Outcome::Delivered(store_reply(alloc, segments, side, reply, host.counts())))
    } else {
        let reply = refusal(&segments[index]);
        Ok(Outcome::NotAccepted(store_reply(alloc, segments, side, reply, host.counts())))
    }
}
