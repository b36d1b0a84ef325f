//! What moments do to a pair: segments that are held back, sent for a timeout, or kept alive.
use crate::pair_tests::{Room, arrives, emits, happens, is_quiet, joins, listens, sets};
use control_wire::{TcpControl, TcpSeqNumber};
use net_base::time::{Duration, Instant};
use sock_core::PollAt;
use sock_pair::{Event, Interval, Moment, Outcome, Pair, Setting, Side};
use sock_tcp::State;
use std::alloc::Global;
use std::process::Abort;
use std::test::Fail;

fn at(millis: u16) -> Moment {
    Moment::new(Instant::from_millis(millis as i64), 1000, true, 1500)
}

fn dispatch_at(side: Side, millis: u16) -> Event {
    Event::Dispatch {
        side,
        moment: at(millis),
        fail: false,
    }
}

// What a dispatch of A at a moment comes to.
fn dispatches(rt: &(impl Abort), pair: &mut Pair<'_>, millis: u16, outcome: Outcome) {
    happens(rt, pair, &dispatch_at(Side::A, millis), outcome);
}

fn polls(pair: &Pair<'_>, millis: u16) -> PollAt {
    pair.socket(Side::A).poll_at(&at(millis))
}

// Whether the segment of this index resets, from this number on.
fn is_reset(pair: &Pair<'_>, index: usize, seq_number: u32) -> bool {
    match pair.segments().get(index) {
        None => false,
        Some(stored) => {
            let repr = stored.as_repr();
            repr.control == TcpControl::Rst
                && repr.seq_number == TcpSeqNumber(seq_number)
                && repr.ack_number == Some(TcpSeqNumber(0))
                && repr.window_len == 64
        }
    }
}

// A connects, with a timeout of half a second.
fn connects_for_a_while(rt: &(impl Abort), pair: &mut Pair<'_>) {
    let half_second = Interval::new(Some(Duration::from_millis(500)));
    sets(rt, pair, Side::A, Setting::Timeout(half_second));
    joins(rt, pair, Side::A);
    assert!(rt; polls(pair, 0) == PollAt::Now);
    dispatches(rt, pair, 0, Outcome::Emitted(0));
}

// It gives up when no answer came.
fn gives_up(rt: &(impl Abort), pair: &mut Pair<'_>) {
    assert!(rt; polls(pair, 0) == PollAt::Time(Instant::from_millis(500)));
    dispatches(rt, pair, 499, Outcome::Quiet);
    dispatches(rt, pair, 500, Outcome::Emitted(1));
    assert!(rt; pair.socket(Side::A).state() == State::Closed);
    assert!(rt; is_reset(pair, 1, 1001) && polls(pair, 500) == PollAt::Ingress);
}

// A connects, and gives up after half a second.
fn connects_and_gives_up(rt: &(impl Abort), pair: &mut Pair<'_>) {
    connects_for_a_while(rt, pair);
    gives_up(rt, pair);
}

#[test]
fn user_timeout_of_syn(rt: HostRuntime) -> Result<(), Fail> {
    let mut room = Room::new();
    connects_and_gives_up(&rt, &mut room.plain_pair(rt.alloc()));
    Ok(())
}

// A delivery at which B answers from 5000.
fn arrives_from_5000(rt: &(impl Abort), pair: &mut Pair<'_>, index: usize) {
    let moment = Moment::new(Instant::ZERO, 5000, true, 1500);
    let deliver = Event::Deliver { index, moment };
    happens(rt, pair, &deliver, Outcome::Delivered(None));
}

// B listens, A connects from the number 1000, and B answers from 5000.
fn opens(rt: &(impl Abort), pair: &mut Pair<'_>) {
    listens(rt, pair, Side::B);
    joins(rt, pair, Side::A);
    emits(rt, pair, Side::A, 0);
    arrives_from_5000(rt, pair, 0);
    emits(rt, pair, Side::B, 1);
    arrives_from_5000(rt, pair, 1);
    emits(rt, pair, Side::A, 2);
    arrives_from_5000(rt, pair, 2);
}

// The keep-alive at this index: a zero byte before SND.UNA.
fn is_keep_alive(pair: &Pair<'_>, index: usize) -> bool {
    match pair.segments().get(index) {
        None => false,
        Some(stored) => {
            let repr = stored.as_repr();
            repr.seq_number == TcpSeqNumber(1000)
                && repr.ack_number == Some(TcpSeqNumber(5001))
                && repr.window_len == 64
                && repr.payload == b"\0".as_slice()
        }
    }
}

// A pair whose side A, after the handshake, keeps the connection alive each second.
fn keeps_alive(rt: &(impl Abort), pair: &mut Pair<'_>) {
    opens(rt, pair);
    let second = Interval::new(Some(Duration::from_secs(1)));
    sets(rt, pair, Side::A, Setting::KeepAlive(second));
    dispatches(rt, pair, 0, Outcome::Emitted(3));
}

// A keep-alive goes out each second.
fn is_kept_alive(rt: &(impl Abort), pair: &mut Pair<'_>) {
    keeps_alive(rt, pair);
    dispatches(rt, pair, 999, Outcome::Quiet);
    dispatches(rt, pair, 1000, Outcome::Emitted(4));
    assert!(rt; is_keep_alive(pair, 3) && is_keep_alive(pair, 4));
}

#[test]
fn keep_alive_zero_byte(rt: HostRuntime) -> Result<(), Fail> {
    let mut room = Room::new();
    is_kept_alive(&rt, &mut room.plain_pair(rt.alloc()));
    Ok(())
}

// Whether B's segment of this index acknowledges A's SYN, with all 64 bytes free.
fn is_first_ack(pair: &Pair<'_>, index: usize) -> bool {
    match pair.segments().get(index) {
        None => false,
        Some(stored) => {
            let repr = stored.as_repr();
            repr.control == TcpControl::None
                && repr.seq_number == TcpSeqNumber(5001)
                && repr.ack_number == Some(TcpSeqNumber(1001))
                && repr.window_len == 64
                && repr.payload.is_empty()
        }
    }
}

// B answers a keep-alive, and takes no byte of it.
fn answers_keep_alive(rt: &(impl Abort), pair: &mut Pair<'_>) {
    keeps_alive(rt, pair);
    arrives(rt, pair, 3, Some(4));
    assert!(rt; is_first_ack(pair, 4));
    assert!(rt; pair.socket(Side::B).recv_queue() == 0);
}

#[test]
fn keep_alive_is_answered(rt: HostRuntime) -> Result<(), Fail> {
    let mut room = Room::new();
    answers_keep_alive(&rt, &mut room.plain_pair(rt.alloc()));
    Ok(())
}

// Whether the segment of this index is the SYN|ACK that answers A's SYN.
fn is_syn_ack(pair: &Pair<'_>, index: usize) -> bool {
    match pair.segments().get(index) {
        None => false,
        Some(stored) => {
            let repr = stored.as_repr();
            repr.control == TcpControl::Syn && repr.ack_number == Some(TcpSeqNumber(1001))
        }
    }
}

// B answers the SYN when it is no longer paused.
fn waits_with_its_syn_ack(rt: &(impl Abort), pair: &mut Pair<'_>) {
    listens(rt, pair, Side::B);
    sets(rt, pair, Side::B, Setting::Pause(true));
    joins(rt, pair, Side::A);
    emits(rt, pair, Side::A, 0);
    arrives(rt, pair, 0, None);
    is_quiet(rt, pair, Side::B);
    sets(rt, pair, Side::B, Setting::Pause(false));
    emits(rt, pair, Side::B, 1);
    assert!(rt; is_syn_ack(pair, 1));
}

#[test]
fn paused_syn_ack(rt: HostRuntime) -> Result<(), Fail> {
    let mut room = Room::new();
    waits_with_its_syn_ack(&rt, &mut room.plain_pair(rt.alloc()));
    Ok(())
}
