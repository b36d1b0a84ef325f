//! Segments out of order, and the age of segments.
use crate::pair_tests::{Room, plays};
use crate::replays::OPENING;
use control_wire::TcpSeqNumber;
use sock_pair::{Outcome, Pair, too_old};
use std::alloc::Global;
use std::process::Abort;
use std::test::Fail;

#[test]
fn age_of_segments(rt: HostRuntime) -> Result<(), Fail> {
    assert!(rt; !too_old(0, 536_870_911, 0, 536_870_911));
    assert!(rt; too_old(0, 536_870_912, 0, 0));
    assert!(rt; too_old(5, 5, 7, 536_870_919));
    Ok(())
}

// Whether the event of this index handed out these bytes.
fn is_read(outcomes: &[Outcome], index: usize, bytes: &[u8]) -> bool {
    match outcomes.get(index) {
        Some(Outcome::Read(got)) => got.as_slice() == bytes,
        _ => false,
    }
}

// Whether the SYN of this index offers all that a socket may offer.
fn is_whole_offer(pair: &Pair<'_>, index: usize) -> bool {
    match pair.segments().get(index) {
        None => false,
        Some(stored) => {
            let repr = stored.as_repr();
            repr.sack_permitted && repr.window_scale == Some(0) && repr.max_seg_size == Some(1460)
        }
    }
}

// Whether B's segment of this index acknowledges this number, with a range ahead of it or none.
fn acknowledges(
    pair: &Pair<'_>,
    index: usize,
    ack: u32,
    window: u16,
    range: Option<(u32, u32)>,
) -> bool {
    match pair.segments().get(index) {
        None => false,
        Some(stored) => {
            let repr = stored.as_repr();
            repr.seq_number == TcpSeqNumber(5001)
                && repr.ack_number == Some(TcpSeqNumber(ack))
                && repr.window_len == window
                && repr.sack_ranges == [range, None, None]
        }
    }
}

// Whether the second segment waited for the first, and B's acknowledgements said so.
fn was_reordered(pair: &Pair<'_>, outcomes: &[Outcome]) -> bool {
    is_read(outcomes, 14, b"")
        && is_read(outcomes, 16, b"abcdef")
        && acknowledges(pair, 5, 1001, 64, Some((1004, 1007)))
        && acknowledges(pair, 6, 1007, 58, None)
}

// Plays a script in which the second of two segments comes first.
fn reorders(rt: &(impl Abort), pair: &mut Pair<'_>, alloc: Global, text: &str) -> Result<(), Fail> {
    let outcomes = plays(pair, alloc, text)?;
    assert!(rt; was_reordered(pair, outcomes.as_slice()));
    assert!(rt; is_whole_offer(pair, 0) && is_whole_offer(pair, 1));
    Ok(())
}

#[test]
fn reordered_segments_and_sack(rt: HostRuntime) -> Result<(), Fail> {
    let alloc = rt.alloc();
    let lines = "nagle a off\nsend a abc\ndispatch a 0\nsend a def\ndispatch a 0\n\
        deliver 4 0 0\nrecv b 6\ndeliver 3 0 0\nrecv b 6\n";
    let text = format!(in alloc; "pair 64 64 64 64 1000\n{OPENING}{lines}")?;
    let mut room = Room::new();
    reorders(&rt, &mut room.plain_pair(alloc), alloc, text.as_str())
}
