//! How each connection of `examples/stall_*.script` falls asleep with work to do, and what wakes or ends it.
use crate::pair_tests::{Room, happens, plays, sets};
use crate::replays::OPENING;
use net_base::time::{Duration, Instant};
use sock_core::PollAt;
use sock_pair::{Event, Interval, Moment, Outcome, Pair, Setting, Side};
use sock_tcp::State;
use std::alloc::Global;
use std::process::Abort;
use std::test::Fail;

const FIN: &str = "deliver 1 2000 0\nclose b\ndispatch b 2001\ndeliver 3 2001 0\ndeliver 3 2001 0\n\
    deliver 3 2001 0\ndeliver 3 2001 0\ndispatch b 2010\ndispatch b 5000\n";

const WINDOW: &str = "send a abcd\ndispatch a 10\ndeliver 3 20 0\ndispatch b 30\nrecv b 4\n\
    dispatch b 40\ndeliver 5 50 0\nsend a efg\ndispatch a 60\ndeliver 4 70 0\ndispatch a 5000\n";

const PROBE: &str =
    "send a z\ndispatch a 10\ndeliver 3 20 0\nrecv b 1\ndispatch b 40\ndeliver 4 50 0\n\
    send a abcdefgh\ndispatch a 60\nsend a ijk\ndeliver 3 70 0\ndeliver 6 71 0\ndeliver 6 72 0\n\
    deliver 6 73 0\ndispatch a 80\ndeliver 5 90 0\ndispatch b 100\ndeliver 8 110 0\nrecv b 3\n\
    dispatch b 120\ndeliver 9 130 0\nrecv b 5\ndispatch b 140\ndeliver 10 150 0\ndispatch a 5000\n";

const LAST_ACK: &str =
    "send a abcd\ndispatch a 10\ndeliver 3 20 0\nclose b\ndispatch b 30\ndeliver 4 40 0\n\
    dispatch a 50\ndeliver 5 60 0\nsend a e\ndispatch a 1050\ndeliver 6 1060 0\nrecv b 4\n\
    dispatch b 1070\ndeliver 8 1080 0\nsend a fg\ndispatch a 1090\ndeliver 7 1100 0\nclose a\n\
    dispatch a 5000\ndispatch b 5000\n";

const SYN: &str = "connect a 1000\nconnect b 5000\ndispatch a 0\ndispatch b 0\ndeliver 0 10 0\n\
    dispatch b 20\nfail a 2000\ndeliver 1 2010 0\ndeliver 2 2020 0\ndeliver 3 2030 0\ndispatch a 5000\n";

// A moment in seconds.
fn at(secs: u16) -> Moment {
    Moment::new(Instant::from_secs(secs as i64), 0, true, 1500)
}

// What a dispatch of the side at so many seconds comes to.
fn sends(rt: &(impl Abort), pair: &mut Pair<'_>, side: Side, secs: u16, outcome: Outcome) {
    let moment = at(secs);
    let fail = false;
    happens(rt, pair, &Event::Dispatch { side, moment, fail }, outcome);
}

// What a delivery comes to.
fn comes(rt: &(impl Abort), pair: &mut Pair<'_>, index: usize, secs: u16, reply: Option<usize>) {
    let moment = at(secs);
    happens(
        rt,
        pair,
        &Event::Deliver { index, moment },
        Outcome::Delivered(reply),
    );
}

// Neither side waits for anything but a segment, and this one has work to do.
fn sleeps(pair: &Pair<'_>, side: Side) -> bool {
    pair.socket(side).has_work()
        && pair.socket(Side::A).poll_at(&at(1000)) == PollAt::Ingress
        && pair.socket(Side::B).poll_at(&at(1000)) == PollAt::Ingress
}

// Plays the lines, at the end of which this side sleeps.
fn falls_asleep(
    rt: &(impl Abort),
    pair: &mut Pair<'_>,
    alloc: Global,
    lines: (&str, &str),
    side: Side,
) -> Result<(), Fail> {
    let text = format!(in alloc; "pair 1 1 1 1 -\n{}{}", lines.0, lines.1)?;
    plays(pair, alloc, text.as_str())?;
    assert!(rt; sleeps(pair, side));
    Ok(())
}

// Long before a user timeout of five minutes is over, which no line has set.
fn wakes_soon(poll: PollAt) -> bool {
    match poll {
        PollAt::Now => true,
        PollAt::Time(at) => at.micros < 100_000_000,
        PollAt::Ingress => false,
    }
}

// By the RFCs' rules of both sides a moment of its own wakes the side at the end of the lines.
fn stays_awake(
    rt: &(impl Abort),
    pair: &mut Pair<'_>,
    alloc: Global,
    lines: (&str, &str),
    side: Side,
) -> Result<(), Fail> {
    let text = format!(in alloc;
        "pair 1 1 1 1 -\nrules a rfc\nrules b rfc\n{}{}",
        lines.0, lines.1
    )?;
    plays(pair, alloc, text.as_str())?;
    let socket = pair.socket(side);
    assert!(rt; socket.has_work() && wakes_soon(socket.poll_at(&at(1000))));
    Ok(())
}

// PROBE where the copies of 6 tell nothing new to a sender that hears of SACK (RFC 6675, section 2): nothing goes
// out at 80, and each number behind that is one less.
const PROBE_BY_RFC: &str =
    "send a z\ndispatch a 10\ndeliver 3 20 0\nrecv b 1\ndispatch b 40\ndeliver 4 50 0\n\
    send a abcdefgh\ndispatch a 60\nsend a ijk\ndeliver 3 70 0\ndeliver 6 71 0\ndeliver 6 72 0\n\
    deliver 6 73 0\ndispatch a 80\ndeliver 5 90 0\ndispatch b 100\ndeliver 7 110 0\nrecv b 3\n\
    dispatch b 120\ndeliver 8 130 0\nrecv b 5\ndispatch b 140\ndeliver 9 150 0\ndispatch a 5000\n";

// RFC 6298, rule 5.1; RFC 9293, section 3.8.6.1.
#[test]
fn no_stall_sleeps_by_the_rules_of_the_rfcs(rt: HostRuntime) -> Result<(), Fail> {
    let stalls = [
        (64, OPENING, FIN, Side::B),
        (4, OPENING, WINDOW, Side::A),
        (8, OPENING, PROBE_BY_RFC, Side::A),
        (64, "", SYN, Side::A),
        (4, OPENING, LAST_ACK, Side::A),
    ];
    for (window, opening, lines, side) in stalls {
        let mut room = Room::new();
        let mut pair = room.narrow_pair(rt.alloc(), window);
        stays_awake(&rt, &mut pair, rt.alloc(), (opening, lines), side)?;
    }
    Ok(())
}

// What goes on from there: the side sends of its own, and all that it sends then arrives.
const FIN_GOES: &str = "deliver 5 5000 0\n";

const WINDOW_GOES: &str = "dispatch a 10000\ndeliver 7 10000 0\ndispatch b 11000\n\
    deliver 8 11000 0\ndispatch a 11000\ndeliver 9 11000 0\n";

const PROBE_GOES: &str = "deliver 10 5000 0\n";

const SYN_GOES: &str = "deliver 4 5000 0\ndeliver 5 5000 0\n";

const LAST_ACK_GOES: &str = "dispatch a 10000\ndeliver 10 10000 0\ndispatch b 11000\n\
    deliver 11 11000 0\ndispatch a 11000\ndeliver 12 11000 0\ndispatch b 12000\ndeliver 13 12000 0\n";

// `stall_empty_probe`, whose probes have a byte by these rules.
const EMPTY_PROBE: &str =
    "send a z\ndispatch a 10\ndeliver 3 20 0\nrecv b 1\ndispatch b 40\ndeliver 4 50 0\n\
    send a abcdefgh\ndispatch a 60\nsend a ijk\ndeliver 3 70 0\ndeliver 6 71 0\ndeliver 6 72 0\n\
    deliver 6 73 0\ndispatch a 80\ndeliver 5 90 0\ndispatch b 100\ndeliver 7 110 0\nrecv b 8\n\
    dispatch b 120\ndispatch a 5000\n";

const EMPTY_PROBE_GOES: &str = "deliver 9 5000 0\ndispatch b 6000\ndeliver 10 6000 0\n\
    dispatch a 6000\ndeliver 11 6000 0\n";

// `endless_acks`, where nothing goes out without end by these rules.
const ENDLESS: &str = "send a abcde\ndispatch a 0\ndeliver 3 0 0\ndispatch b 10\ndeliver 4 10 0\n\
    close a\nrecv b 1\ndispatch b 10\ndispatch a 1010\n";

const ENDLESS_GOES: &str = "deliver 5 1010 0\ndispatch b 1020\ndeliver 6 1020 0\ndispatch a 3010\n\
    dispatch a 3010\ndispatch a 3010\nclose b\ndispatch b 3020\ndeliver 7 3020 0\n";

// How many bytes of A's came to B, and the state of A, once the lines were played by the RFCs' rules of both sides.
fn comes_to(
    pair: &mut Pair<'_>,
    alloc: Global,
    lines: (&str, &str, &str),
) -> Result<(u64, State), Fail> {
    let text = format!(in alloc;
        "pair 1 1 1 1 -\nrules a rfc\nrules b rfc\n{}{}{}",
        lines.0, lines.1, lines.2
    )?;
    plays(pair, alloc, text.as_str())?;
    Ok((pair.taken(Side::B), pair.socket(Side::A).state()))
}

// By the rules that each is cured by in docs/RULES.md, all bytes arrive, and connections that were closed end.
#[test]
fn each_stall_goes_on_by_the_rules_of_the_rfcs(rt: HostRuntime) -> Result<(), Fail> {
    let stalls = [
        (64, (OPENING, FIN, FIN_GOES), (0, State::CloseWait)),
        (4, (OPENING, WINDOW, WINDOW_GOES), (7, State::Established)),
        (
            8,
            (OPENING, PROBE_BY_RFC, PROBE_GOES),
            (12, State::Established),
        ),
        (64, ("", SYN, SYN_GOES), (0, State::Established)),
        (4, (OPENING, LAST_ACK, LAST_ACK_GOES), (7, State::Closed)),
        (
            8,
            (OPENING, EMPTY_PROBE, EMPTY_PROBE_GOES),
            (12, State::Established),
        ),
        (4, (OPENING, ENDLESS, ENDLESS_GOES), (5, State::TimeWait)),
    ];
    for (window, lines, wanted) in stalls {
        let mut room = Room::new();
        let mut pair = room.narrow_pair(rt.alloc(), window);
        let came = comes_to(&mut pair, rt.alloc(), lines)?;
        assert!(rt; came == wanted);
    }
    Ok(())
}

fn second() -> Interval {
    Interval::new(Some(Duration::from_secs(1)))
}

// The fast retransmission of nothing left its mark, so what a keep-alive is due for goes out as the FIN.
fn fin_goes(rt: &(impl Abort), pair: &mut Pair<'_>) {
    sets(rt, pair, Side::B, Setting::KeepAlive(second()));
    sends(rt, pair, Side::B, 1000, Outcome::Emitted(5));
    comes(rt, pair, 5, 1000, None);
    assert!(rt; pair.socket(Side::A).state() == State::CloseWait);
}

#[test]
fn lost_fin_sleeps_until_a_keep_alive(rt: HostRuntime) -> Result<(), Fail> {
    let mut room = Room::new();
    let mut pair = room.plain_pair(rt.alloc());
    falls_asleep(&rt, &mut pair, rt.alloc(), (OPENING, FIN), Side::B)?;
    fin_goes(&rt, &mut pair);
    Ok(())
}

fn gives_up(rt: &(impl Abort), pair: &mut Pair<'_>) {
    sets(rt, pair, Side::B, Setting::Timeout(second()));
    assert!(rt;
        pair.socket(Side::B).poll_at(&at(1000)) == PollAt::Time(Instant::from_millis(3001))
    );
    sends(rt, pair, Side::B, 1000, Outcome::Emitted(5));
    assert!(rt; pair.socket(Side::B).state() == State::Closed);
}

#[test]
fn lost_fin_sleeps_until_a_timeout(rt: HostRuntime) -> Result<(), Fail> {
    let mut room = Room::new();
    let mut pair = room.plain_pair(rt.alloc());
    falls_asleep(&rt, &mut pair, rt.alloc(), (OPENING, FIN), Side::B)?;
    gives_up(&rt, &mut pair);
    Ok(())
}

// The answer to a keep-alive tells the window, and the bytes go out.
fn window_comes(rt: &(impl Abort), pair: &mut Pair<'_>) {
    sets(rt, pair, Side::A, Setting::KeepAlive(second()));
    sends(rt, pair, Side::A, 1000, Outcome::Emitted(7));
    comes(rt, pair, 7, 1000, Some(8));
    comes(rt, pair, 8, 1000, None);
    sends(rt, pair, Side::A, 1000, Outcome::Emitted(9));
    comes(rt, pair, 9, 1000, None);
    assert!(rt; pair.taken(Side::B) == 7);
}

#[test]
fn late_zero_window_sleeps_until_a_keep_alive(rt: HostRuntime) -> Result<(), Fail> {
    let mut room = Room::new();
    let mut pair = room.narrow_pair(rt.alloc(), 4);
    falls_asleep(&rt, &mut pair, rt.alloc(), (OPENING, WINDOW), Side::A)?;
    window_comes(&rt, &mut pair);
    Ok(())
}

// A keep-alive of A and its answer, from this index on.
fn is_answered(rt: &(impl Abort), pair: &mut Pair<'_>, secs: u16, index: usize) {
    sends(rt, pair, Side::A, secs, Outcome::Emitted(index));
    comes(rt, pair, index, secs, Some(index.saturating_add(1)));
    comes(rt, pair, index.saturating_add(1), secs, None);
}

// The answers to three keep-alives are duplicates, and the bytes go out again.
fn bytes_go(rt: &(impl Abort), pair: &mut Pair<'_>) {
    sets(rt, pair, Side::A, Setting::KeepAlive(second()));
    is_answered(rt, pair, 1000, 11);
    is_answered(rt, pair, 1001, 13);
    is_answered(rt, pair, 1002, 15);
    sends(rt, pair, Side::A, 1002, Outcome::Emitted(17));
    comes(rt, pair, 17, 1002, None);
    assert!(rt; pair.taken(Side::B) == 12);
}

#[test]
fn probe_in_place_of_retransmission_sleeps_until_three_keep_alives(
    rt: HostRuntime,
) -> Result<(), Fail> {
    let mut room = Room::new();
    let mut pair = room.narrow_pair(rt.alloc(), 8);
    falls_asleep(&rt, &mut pair, rt.alloc(), (OPENING, PROBE), Side::A)?;
    bytes_go(&rt, &mut pair);
    Ok(())
}

// What the keep-alive is due for goes out as the SYN|ACK, and its answer opens the connection.
fn syn_goes(rt: &(impl Abort), pair: &mut Pair<'_>) {
    sets(rt, pair, Side::A, Setting::KeepAlive(second()));
    sends(rt, pair, Side::A, 1000, Outcome::Emitted(4));
    comes(rt, pair, 4, 1000, Some(5));
    comes(rt, pair, 5, 1000, None);
    assert!(rt; pair.socket(Side::A).state() == State::Established);
}

#[test]
fn answered_syn_sleeps_until_a_keep_alive(rt: HostRuntime) -> Result<(), Fail> {
    let mut room = Room::new();
    let mut pair = room.plain_pair(rt.alloc());
    falls_asleep(&rt, &mut pair, rt.alloc(), ("", SYN), Side::A)?;
    syn_goes(&rt, &mut pair);
    Ok(())
}

// The answer to a keep-alive tells a window of 4, but acknowledges nothing new: it is challenged, and nothing goes out.
fn is_challenged(rt: &(impl Abort), pair: &mut Pair<'_>, secs: u16, index: usize) {
    sends(rt, pair, Side::A, secs, Outcome::Emitted(index));
    comes(rt, pair, index, secs, Some(index.saturating_add(1)));
    comes(
        rt,
        pair,
        index.saturating_add(1),
        secs,
        Some(index.saturating_add(2)),
    );
    comes(rt, pair, index.saturating_add(2), secs, None);
    sends(rt, pair, Side::A, secs, Outcome::Quiet);
    assert!(rt; pair.taken(Side::B) == 4);
}

fn waits_in_last_ack(rt: &(impl Abort), pair: &mut Pair<'_>) {
    sets(rt, pair, Side::A, Setting::KeepAlive(second()));
    is_challenged(rt, pair, 1000, 10);
    is_challenged(rt, pair, 1001, 13);
    assert!(rt; pair.socket(Side::A).state() == State::LastAck);
}

// The moment of the last segment that said something is 1.1 s, whatever was challenged since.
fn ends_last_ack(rt: &(impl Abort), pair: &mut Pair<'_>) {
    sets(rt, pair, Side::A, Setting::Timeout(second()));
    assert!(rt;
        pair.socket(Side::A).poll_at(&at(1001)) == PollAt::Time(Instant::from_millis(2100))
    );
    sends(rt, pair, Side::A, 1001, Outcome::Emitted(16));
    assert!(rt; pair.socket(Side::A).state() == State::Closed);
}

#[test]
fn last_ack_sleeps_through_keep_alives(rt: HostRuntime) -> Result<(), Fail> {
    let mut room = Room::new();
    let mut pair = room.narrow_pair(rt.alloc(), 4);
    falls_asleep(&rt, &mut pair, rt.alloc(), (OPENING, LAST_ACK), Side::A)?;
    waits_in_last_ack(&rt, &mut pair);
    ends_last_ack(&rt, &mut pair);
    Ok(())
}
