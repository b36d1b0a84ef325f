//! Runs and replays in which a growth may be refused: `rt try --test --fail-alloc 1..` refuses each in turn.
use crate::pair_tests::Room;
use crate::replays::{MANY, replayed};
use sock_pair::script::{End, ScriptError, parse};
use sock_pair::{Event, Outcome, Pair};
use std::alloc::Global;
use std::process::Abort;
use std::test::Fail;

// Six bytes over a connection, and a connection that was opened, reset and opened again.
const SIX_BYTES: &str = "pair 64 64 64 64 1000\nlisten b\nconnect a 1000\ndispatch a 0\n\
    deliver 0 0 5000\ndispatch b 0\ndeliver 1 0 0\ndispatch a 0\ndeliver 2 0 0\n\
    send a abcdef\ndispatch a 0\ndeliver 3 0 0\n";

const STRAY_SYN: &str = "pair 64 64 64 64 1000\nconnect a 1000\ndispatch a 0\ndeliver 0 0 0\n\
    deliver 1 0 0\n";

const STALE_SYN_ACK: &str = "pair 64 64 64 64 1000\nlisten b\nconnect a 1000\ndispatch a 0\n\
    deliver 0 0 5000\nabort a\ndispatch a 0\ndeliver 1 0 0\ndeliver 0 0 7000\ndispatch b 0\n\
    deliver 2 0 0\ndeliver 3 0 0\n";

// Whether all events are done. Where a growth is refused, those that are left run once more.
fn all_done(pair: &mut Pair<'_>, events: &[Event], outcomes: &mut Vec<Outcome>) -> bool {
    if pair.run(events, outcomes).is_ok() {
        return true;
    }
    match events.get(outcomes.len()..) {
        Some(left) => pair.run(left, outcomes).is_ok(),
        None => false,
    }
}

// The events of a script come to these outcomes, also where a growth is refused between.
fn comes_to(rt: &(impl Abort), alloc: Global, text: &str, want: &[Outcome]) -> Result<(), Fail> {
    let mut room = Room::new();
    let script = match parse(alloc, text.as_bytes()) {
        Err(ScriptError::Memory) => parse(alloc, text.as_bytes())?,
        answer => answer?,
    };
    let mut pair = room.plain_pair(alloc);
    let mut outcomes = Vec::new(alloc);
    assert!(rt; all_done(&mut pair, script.events.as_slice(), &mut outcomes));
    assert!(rt; outcomes.as_slice() == want);
    Ok(())
}

#[test]
fn refused_growths_of_a_run(rt: HostRuntime) -> Result<(), Fail> {
    comes_to(
        &rt,
        rt.alloc(),
        SIX_BYTES,
        &[
            Outcome::Opened,
            Outcome::Opened,
            Outcome::Emitted(0),
            Outcome::Delivered(None),
            Outcome::Emitted(1),
            Outcome::Delivered(None),
            Outcome::Emitted(2),
            Outcome::Delivered(None),
            Outcome::Accepted(6),
            Outcome::Emitted(3),
            Outcome::Delivered(None),
        ],
    )
}

#[test]
fn refused_growths_of_replies(rt: HostRuntime) -> Result<(), Fail> {
    comes_to(
        &rt,
        rt.alloc(),
        STRAY_SYN,
        &[
            Outcome::Opened,
            Outcome::Emitted(0),
            Outcome::NotAccepted(Some(1)),
            Outcome::Delivered(None),
        ],
    )?;
    comes_to(
        &rt,
        rt.alloc(),
        STALE_SYN_ACK,
        &[
            Outcome::Opened,
            Outcome::Opened,
            Outcome::Emitted(0),
            Outcome::Delivered(None),
            Outcome::Done,
            Outcome::Emitted(1),
            Outcome::Delivered(None),
            Outcome::Delivered(None),
            Outcome::Emitted(2),
            Outcome::NotAccepted(Some(3)),
            Outcome::Delivered(None),
        ],
    )
}

const STEPS: &[u8] = b"opened\nopened\nemitted 0 SYN seq 1000 ack - win 64 len 0\ndelivered\n\
    emitted 1 SYN|ACK seq 5000 ack 1001 win 64 len 0\ndelivered\n\
    emitted 2 ACK seq 1001 ack 5001 win 64 len 0\ndelivered\naccepted 6\n\
    emitted 3 PSH|ACK seq 1001 ack 5001 win 64 len 6\ndelivered\n";

const CLOSING: &[u8] = b"a ESTABLISHED accepted 6 handed-out 0 queued 0\n\
    b ESTABLISHED accepted 0 handed-out 0 queued 6\n";

fn is_whole(output: &[u8]) -> bool {
    output.strip_prefix(STEPS) == Some(CLOSING)
}

// Where a growth is refused, lines of steps are written and no closing lines; a second replay writes all.
#[test]
fn refused_growths_of_a_replay(rt: HostRuntime) -> Result<(), Fail> {
    let alloc = rt.alloc();
    let (end, got) = replayed(alloc, SIX_BYTES.as_bytes(), MANY, MANY);
    if end == End::Done {
        assert!(rt; is_whole(got.as_slice()));
        return Ok(());
    }
    assert!(rt; end == End::Memory);
    assert!(rt; end.status() == 3);
    assert!(rt; STEPS.starts_with(got.as_slice()));
    assert!(rt; got.is_empty() || got.ends_with(b"\n"));
    let (end, got) = replayed(alloc, SIX_BYTES.as_bytes(), MANY, MANY);
    assert!(rt; end == End::Done && is_whole(got.as_slice()));
    Ok(())
}
