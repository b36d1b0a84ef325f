//! The lines that a replay prints. They go to the sink piece by piece, so they take no memory.
ghost use Rattle.std.specs.Prelude.{◌≡◌, ◌++◌, ◌∷◌, [], codes, decimal, false, length, map};
ghost use Rattle.pair_core.specs.Holding.{stored_of};
ghost use Rattle.sock_pair.specs.ReplayLines.{ack_text, bytes_text, closing_text, flags_text, numbered_text};
ghost use Rattle.sock_pair.specs.ReplayLines.{outcome_line, outcome_lines, outcome_text, reply_text, segment_text};
ghost use Rattle.sock_pair.specs.ReplayLines.{side_line, side_lines, side_text};
ghost use Rattle.sock_pair.specs.ReplayStreams.{Takes};

use crate::script::stream::{Sink, StreamFault};
use control_wire::{TcpControl, TcpSeqNumber};
use pair_core::{Outcome, Pair, Segment, Side};
use sock_tcp::TsvalSource;

fn put<W: Sink>(sink: &mut W, text: &str) -> Result<(), StreamFault>
    requires { W.has_failed sink.old ≡ false }
    ensures { Takes (W.contents sink.old) result text.now (W.contents sink.new) (W.has_failed sink.new) }
{
    sink.write_all(text.as_bytes())
}

// One text, and another behind it.
#[tactic(auto, using(crate::proofs::ReplaySinks::takes_after))]
fn put_two<W: Sink>(sink: &mut W, first: &str, second: &str) -> Result<(), StreamFault>
    requires { W.has_failed sink.old ≡ false }
    ensures { Takes (W.contents sink.old) result (first.now ++ second.now) (W.contents sink.new)
        (W.has_failed sink.new) }
{
    match put(sink, first) {
        Ok(()) => put(sink, second),
        Err(fault) => Err(fault),
    }
}

fn put_byte<W: Sink>(sink: &mut W, byte: u8) -> Result<(), StreamFault>
    requires { W.has_failed sink.old ≡ false }
    ensures { Takes (W.contents sink.old) result (byte ∷ []) (W.contents sink.new) (W.has_failed sink.new) }
{
    sink.write_all(&[byte])
}

// A number in decimal digits.
fn put_number<W: Sink>(sink: &mut W, number: usize) -> Result<(), StreamFault>
    requires { W.has_failed sink.old ≡ false }
    ensures { Takes (W.contents sink.old) result (decimal number) (W.contents sink.new) (W.has_failed sink.new) }
{
    if number < 10 {
        return put_byte(sink, b'0' + number as u8);
    }
    put_number(sink, number / 10)?;
    put_byte(sink, b'0' + (number % 10) as u8)
}

// A label and a number.
#[tactic(auto, using(crate::proofs::ReplaySinks::takes_after))]
fn put_count<W: Sink>(sink: &mut W, label: &str, number: usize) -> Result<(), StreamFault>
    requires { W.has_failed sink.old ≡ false }
    ensures { Takes (W.contents sink.old) result (label.now ++ decimal number) (W.contents sink.new)
        (W.has_failed sink.new) }
{
    match put(sink, label) {
        Ok(()) => put_number(sink, number),
        Err(fault) => Err(fault),
    }
}

/// The control bits of a segment, as a replay prints them. None, PSH and FIN are printed with `ACK`, since each such
/// segment has an acknowledgement.
pub fn flags(control: TcpControl, has_ack: bool) -> &'static str
    ensures { result.now ≡ flags_text control has_ack }
{
    match (control, has_ack) {
        (TcpControl::None, _) => "ACK",
        (TcpControl::Psh, _) => "PSH|ACK",
        (TcpControl::Fin, _) => "FIN|ACK",
        (TcpControl::Syn, true) => "SYN|ACK",
        (TcpControl::Syn, false) => "SYN",
        (TcpControl::Rst, true) => "RST|ACK",
        (TcpControl::Rst, false) => "RST",
    }
}

fn put_ack<W: Sink>(sink: &mut W, ack: Option<TcpSeqNumber>) -> Result<(), StreamFault>
    requires { W.has_failed sink.old ≡ false }
    ensures { Takes (W.contents sink.old) result (ack_text ack) (W.contents sink.new) (W.has_failed sink.new) }
{
    match ack {
        None => put(sink, "-"),
        Some(number) => put_number(sink, number.0 as usize),
    }
}

// `FLAGS seq N ack N win N len N`
#[tactic(auto, using(crate::proofs::ReplaySinks::takes_after))]
fn put_segment<W: Sink>(sink: &mut W, segment: &Segment) -> Result<(), StreamFault>
    requires { W.has_failed sink.old ≡ false }
    ensures { Takes (W.contents sink.old) result (segment_text (stored_of segment.now).segment) (W.contents sink.new)
        (W.has_failed sink.new) }
{
    let header = &segment.header.repr;
    put(sink, flags(header.control, header.ack_number.is_some()))?;
    put_count(sink, " seq ", header.seq_number.0 as usize)?;
    put(sink, " ack ")?;
    put_ack(sink, header.ack_number)?;
    put_count(sink, " win ", header.window_len as usize)?;
    put_count(sink, " len ", segment.payload.len())
}

// A segment's index, and the segment.
#[tactic(auto, using(crate::proofs::ReplaySinks::takes_after, crate::proofs::ReplaySinks::appends_nil))]
fn put_numbered<W: Sink>(
    sink: &mut W,
    segments: &[Segment],
    index: usize,
) -> Result<(), StreamFault>
    requires { W.has_failed sink.old ≡ false }
    ensures { Takes (W.contents sink.old) result (numbered_text (map stored_of segments.now) index)
        (W.contents sink.new) (W.has_failed sink.new) }
{
    put_number(sink, index)?;
    match segments.get(index) {
        None => Ok(()),
        Some(segment) => {
            put(sink, " ")?;
            put_segment(sink, segment)
        }
    }
}

// ` reply K SEG`, or nothing.
#[tactic(auto, using(crate::proofs::ReplaySinks::takes_after, crate::proofs::ReplaySinks::appends_nil))]
fn put_reply<W: Sink>(
    sink: &mut W,
    segments: &[Segment],
    reply: Option<usize>,
) -> Result<(), StreamFault>
    requires { W.has_failed sink.old ≡ false }
    ensures { Takes (W.contents sink.old) result (reply_text (map stored_of segments.now) reply) (W.contents sink.new)
        (W.has_failed sink.new) }
{
    match reply {
        None => Ok(()),
        Some(index) => {
            put(sink, " reply ")?;
            put_numbered(sink, segments, index)
        }
    }
}

// A word, and the reply behind it.
#[tactic(auto, using(crate::proofs::ReplaySinks::takes_after))]
fn put_replied<W: Sink>(
    sink: &mut W,
    word: &str,
    segments: &[Segment],
    reply: Option<usize>,
) -> Result<(), StreamFault>
    requires { W.has_failed sink.old ≡ false }
    ensures { Takes (W.contents sink.old) result (word.now ++ reply_text (map stored_of segments.now) reply)
        (W.contents sink.new) (W.has_failed sink.new) }
{
    match put(sink, word) {
        Ok(()) => put_reply(sink, segments, reply),
        Err(fault) => Err(fault),
    }
}

// ` BYTES`, or nothing.
#[tactic(auto, using(crate::proofs::ReplaySinks::takes_after, crate::proofs::ReplaySinks::appends_nil))]
fn put_bytes<W: Sink>(sink: &mut W, bytes: &[u8]) -> Result<(), StreamFault>
    requires { W.has_failed sink.old ≡ false }
    ensures { Takes (W.contents sink.old) result (bytes_text bytes.now) (W.contents sink.new) (W.has_failed sink.new) }
{
    match bytes {
        [] => Ok(()),
        _ => {
            put(sink, " ")?;
            sink.write_all(bytes)
        }
    }
}

// `read N BYTES`
#[tactic(auto, using(crate::proofs::ReplaySinks::takes_after))]
fn put_read<W: Sink>(sink: &mut W, bytes: &[u8]) -> Result<(), StreamFault>
    requires { W.has_failed sink.old ≡ false }
    ensures { Takes (W.contents sink.old) result ((codes "read " ++ decimal (length bytes.now)) ++ bytes_text bytes.now)
        (W.contents sink.new) (W.has_failed sink.new) }
{
    match put_count(sink, "read ", bytes.len()) {
        Ok(()) => put_bytes(sink, bytes),
        Err(fault) => Err(fault),
    }
}

// `emitted K SEG`
#[tactic(auto, using(crate::proofs::ReplaySinks::takes_after))]
fn put_emitted<W: Sink>(sink: &mut W, segments: &[Segment], index: usize) -> Result<(), StreamFault>
    requires { W.has_failed sink.old ≡ false }
    ensures { Takes (W.contents sink.old) result (codes "emitted " ++ numbered_text (map stored_of segments.now) index)
        (W.contents sink.new) (W.has_failed sink.new) }
{
    match put(sink, "emitted ") {
        Ok(()) => put_numbered(sink, segments, index),
        Err(fault) => Err(fault),
    }
}

// The line of an outcome without its line feed.
fn put_outcome<W: Sink>(
    sink: &mut W,
    segments: &[Segment],
    outcome: &Outcome,
) -> Result<(), StreamFault>
    requires { W.has_failed sink.old ≡ false }
    ensures { Takes (W.contents sink.old) result (outcome_text (map stored_of segments.now) outcome.now)
        (W.contents sink.new) (W.has_failed sink.new) }
{
    match outcome {
        Outcome::Opened => put(sink, "opened"),
        Outcome::Done => put(sink, "done"),
        Outcome::Accepted(count) => put_count(sink, "accepted ", *count),
        Outcome::SendRefused(error) => put_two(sink, "send-refused ", error.text()),
        Outcome::Read(bytes) => put_read(sink, bytes.as_slice()),
        Outcome::RecvRefused(error) => put_two(sink, "recv-refused ", error.text()),
        Outcome::Quiet => put(sink, "quiet"),
        Outcome::Emitted(index) => put_emitted(sink, segments, *index),
        Outcome::EmitFailed => put(sink, "emit-failed"),
        Outcome::Delivered(reply) => put_replied(sink, "delivered", segments, *reply),
        Outcome::AlreadyOpened => put(sink, "already-opened"),
        Outcome::NoSegment => put(sink, "no-segment"),
        Outcome::StreamLimit => put(sink, "stream-limit"),
        Outcome::TooOld => put(sink, "too-old"),
        Outcome::NotAccepted(reply) => put_replied(sink, "not-accepted", segments, *reply),
    }
}

#[tactic(auto, using(crate::proofs::ReplaySinks::takes_after))]
fn write_outcome<W: Sink>(
    sink: &mut W,
    segments: &[Segment],
    outcome: &Outcome,
) -> Result<(), StreamFault>
    requires { W.has_failed sink.old ≡ false }
    ensures { Takes (W.contents sink.old) result (outcome_line (map stored_of segments.now) outcome.now)
        (W.contents sink.new) (W.has_failed sink.new) }
{
    match put_outcome(sink, segments, outcome) {
        Ok(()) => put_byte(sink, b'\n'),
        Err(fault) => Err(fault),
    }
}

fn side_name(side: Side) -> &'static str
    ensures { result.now ≡ side_text side }
{
    match side {
        Side::A => "a ",
        Side::B => "b ",
    }
}

// `NAME STATE accepted N handed-out N queued N`, where the name ends with a space.
fn put_closing<W: Sink>(
    sink: &mut W,
    name: &str,
    state: &str,
    accepted: usize,
    handed_out: usize,
    queued: usize,
) -> Result<(), StreamFault>
    requires { W.has_failed sink.old ≡ false }
    ensures { Takes (W.contents sink.old) result (closing_text name.now state.now accepted handed_out queued)
        (W.contents sink.new) (W.has_failed sink.new) }
{
    put(sink, name)?;
    put(sink, state)?;
    put_count(sink, " accepted ", accepted)?;
    put_count(sink, " handed-out ", handed_out)?;
    put_count(sink, " queued ", queued)?;
    put_byte(sink, b'\n')
}

// The closing line of a side: its state, and how many bytes it accepted, handed out and has in its
// receive queue.
fn write_side<W: Sink, G: TsvalSource>(
    sink: &mut W,
    pair: &Pair<'_, G>,
    side: Side,
) -> Result<(), StreamFault>
    requires { W.has_failed sink.old ≡ false }
    ensures { Takes (W.contents sink.old) result (side_line side pair.now) (W.contents sink.new)
        (W.has_failed sink.new) }
{
    let state = pair.socket(side).state().name();
    let accepted = pair.accepted(side).len();
    let handed_out = pair.handed_out(side).len();
    let queued = pair.socket(side).recv_queue();
    put_closing(sink, side_name(side), state, accepted, handed_out, queued)
}

/// Writes the closing lines of a and of b.
#[tactic(auto, using(crate::proofs::ReplaySinks::takes_after))]
pub fn write_sides<W: Sink, G: TsvalSource>(
    sink: &mut W,
    pair: &Pair<'_, G>,
) -> Result<(), StreamFault>
    requires { W.has_failed sink.old ≡ false }
    ensures { Takes (W.contents sink.old) result (side_lines pair.now) (W.contents sink.new) (W.has_failed sink.new) }
{
    match write_side(sink, pair, Side::A) {
        Ok(()) => write_side(sink, pair, Side::B),
        Err(fault) => Err(fault),
    }
}

/// Writes the lines of outcomes, whose segments stand in `segments`.
pub fn write_outcomes<W: Sink>(
    sink: &mut W,
    segments: &[Segment],
    outcomes: &[Outcome],
) -> Result<(), StreamFault>
    requires { W.has_failed sink.old ≡ false }
    ensures { Takes (W.contents sink.old) result (outcome_lines (map stored_of segments.now) outcomes.now)
        (W.contents sink.new) (W.has_failed sink.new) }
{
    for outcome in outcomes {
        write_outcome(sink, segments, outcome)?;
    }
    Ok(())
}
