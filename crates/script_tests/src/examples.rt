//! Worked examples of scripts: what each prints. The sizes and the limit are those of its pair line.
use crate::replays::{MANY, OPENED, OPENING, replayed};
use sock_pair::script::End;
use std::alloc::Global;
use std::process::Abort;
use std::test::Fail;

// A name, the pair line's numbers, the lines behind it, and what they print.
type Example = (&'static str, &'static str, &'static str, &'static str);

// The lines behind the pair line that all examples of a table begin with, in two parts, and what they print.
#[derive(Clone, Copy)]
struct Start {
    lines: (&'static str, &'static str),
    output: (&'static str, &'static str),
}

const NOTHING: Start = Start {
    lines: ("", ""),
    output: ("", ""),
};

// A connection that is open.
const AFTER_OPENING: Start = Start {
    lines: (OPENING, ""),
    output: (OPENED, ""),
};

// Then A sends two bytes and a FIN, which B takes.
const AFTER_FIN: Start = Start {
    lines: (
        OPENING,
        "send a hi\nclose a\ndispatch a 0\ndeliver 3 0 0\nrecv b 2\nrecv b 2\n",
    ),
    output: (
        OPENED,
        "accepted 2\ndone\nemitted 3 FIN|ACK seq 1001 ack 5001 win 64 len 2\n\
        delivered\nread 2 hi\nrecv-refused operation finished\n",
    ),
};

// A connects and its SYN opens B, then A aborts and its RST is delivered.
const AFTER_ABORT: Start = Start {
    lines: (
        "listen b\nconnect a 1000\ndispatch a 0\ndeliver 0 0 5000\n",
        "abort a\ndispatch a 0\ndeliver 1 0 0\n",
    ),
    output: (
        "opened\nopened\nemitted 0 SYN seq 1000 ack - win 64 len 0\ndelivered\n",
        "done\nemitted 1 RST|ACK seq 1001 ack 0 win 64 len 0\ndelivered\n",
    ),
};

// A connects, and B does not listen.
const CONNECTING: Start = Start {
    lines: ("connect a 1000\n", ""),
    output: ("opened\n", ""),
};

// Whether an example prints what it says.
fn is_printed(alloc: Global, start: &Start, example: &Example) -> Result<bool, Fail> {
    let (first, second) = start.lines;
    let (_, numbers, lines, _) = example;
    let text = format!(in alloc; "pair {numbers}\n{first}{second}{lines}")?;
    let (first, second) = start.output;
    let want = format!(in alloc; "{first}{second}{}", example.3)?;
    let (end, got) = replayed(alloc, text.as_bytes(), MANY, MANY);
    Ok(end == End::Done && got.as_slice() == want.as_bytes())
}

fn print(
    rt: &(impl Abort),
    alloc: Global,
    start: &Start,
    examples: &[Example],
) -> Result<(), Fail> {
    for example in examples {
        assert!(rt; is_printed(alloc, start, example)?, "{}", example.0);
    }
    Ok(())
}

const SIZES: &str = "64 64 64 64 1000";

// Of a connection that is open.
const OPEN: &[Example] = &[
    (
        "handshake_and_six_bytes",
        SIZES,
        "send a abcdef\ndispatch a 0\ndeliver 3 0 0\n",
        "accepted 6\nemitted 3 PSH|ACK seq 1001 ack 5001 win 64 len 6\ndelivered\n\
        a ESTABLISHED accepted 6 handed-out 0 queued 0\n\
        b ESTABLISHED accepted 0 handed-out 0 queued 6\n",
    ),
    (
        "script_without_limit",
        "64 64 64 64 -",
        "send a abcdef\ndispatch a 0\ndeliver 3 0 0\nrecv b 4\nrecv b 4\nrecv b 4\ndispatch a 0\n",
        "accepted 6\nemitted 3 PSH|ACK seq 1001 ack 5001 win 64 len 6\ndelivered\n\
        read 4 abcd\nread 2 ef\nread 0\nquiet\n\
        a ESTABLISHED accepted 6 handed-out 0 queued 0\n\
        b ESTABLISHED accepted 0 handed-out 6 queued 0\n",
    ),
    (
        "stream_limit_and_refusals",
        "64 64 64 64 10",
        "send a abcdef\nsend a abcde\nsend a abcd\nsend a\ndeliver 99 0 0\nconnect a 1\n",
        "accepted 6\nstream-limit\naccepted 4\naccepted 0\nno-segment\nalready-opened\n\
        a ESTABLISHED accepted 10 handed-out 0 queued 0\n\
        b ESTABLISHED accepted 0 handed-out 0 queued 0\n",
    ),
    (
        "failed_emit_then_retry",
        SIZES,
        "send a abcdef\nfail a 0\ndispatch a 0\n",
        "accepted 6\nemit-failed\nemitted 3 PSH|ACK seq 1001 ack 5001 win 64 len 6\n\
        a ESTABLISHED accepted 6 handed-out 0 queued 0\n\
        b ESTABLISHED accepted 0 handed-out 0 queued 0\n",
    ),
    (
        "challenge_once_a_second",
        SIZES,
        "deliver 1 0 0\ndeliver 1 999 0\ndeliver 1 1000 0\n",
        "delivered reply 3 ACK seq 1001 ack 5001 win 64 len 0\ndelivered\n\
        delivered reply 4 ACK seq 1001 ack 5001 win 64 len 0\n\
        a ESTABLISHED accepted 0 handed-out 0 queued 0\n\
        b ESTABLISHED accepted 0 handed-out 0 queued 0\n",
    ),
    (
        "old_segment_is_acknowledged_again",
        SIZES,
        "send a abcdef\ndispatch a 0\ndeliver 3 0 0\ndeliver 3 0 0\n",
        "accepted 6\nemitted 3 PSH|ACK seq 1001 ack 5001 win 64 len 6\ndelivered\n\
        delivered reply 4 ACK seq 5001 ack 1007 win 58 len 0\n\
        a ESTABLISHED accepted 6 handed-out 0 queued 0\n\
        b ESTABLISHED accepted 0 handed-out 0 queued 6\n",
    ),
    (
        "nagle_holds_small_segment",
        SIZES,
        "send a abc\ndispatch a 0\nsend a def\ndispatch a 0\nnagle a off\ndispatch a 0\n",
        "accepted 3\nemitted 3 PSH|ACK seq 1001 ack 5001 win 64 len 3\n\
        accepted 3\nquiet\ndone\nemitted 4 PSH|ACK seq 1004 ack 5001 win 64 len 3\n\
        a ESTABLISHED accepted 6 handed-out 0 queued 0\n\
        b ESTABLISHED accepted 0 handed-out 0 queued 0\n",
    ),
    (
        "delayed_ack",
        SIZES,
        "send a abcdef\ndispatch a 0\ndeliver 3 0 0\ndispatch b 0\ndispatch b 10\n",
        "accepted 6\nemitted 3 PSH|ACK seq 1001 ack 5001 win 64 len 6\ndelivered\nquiet\n\
        emitted 4 ACK seq 5001 ack 1007 win 58 len 0\n\
        a ESTABLISHED accepted 6 handed-out 0 queued 0\n\
        b ESTABLISHED accepted 0 handed-out 0 queued 6\n",
    ),
    (
        "fast_retransmit",
        SIZES,
        "nagle a off\nsend a abc\ndispatch a 0\nsend a def\ndispatch a 0\nsend a ghi\n\
        dispatch a 0\nsend a jkl\ndispatch a 0\ndeliver 4 0 0\ndeliver 5 0 0\ndeliver 6 0 0\n\
        deliver 7 0 0\ndeliver 8 0 0\ndeliver 9 0 0\nfail a 0\ndispatch a 0\ndeliver 10 0 0\n",
        "done\naccepted 3\nemitted 3 PSH|ACK seq 1001 ack 5001 win 64 len 3\n\
        accepted 3\nemitted 4 PSH|ACK seq 1004 ack 5001 win 64 len 3\n\
        accepted 3\nemitted 5 PSH|ACK seq 1007 ack 5001 win 64 len 3\n\
        accepted 3\nemitted 6 PSH|ACK seq 1010 ack 5001 win 64 len 3\n\
        delivered reply 7 ACK seq 5001 ack 1001 win 64 len 0\n\
        delivered reply 8 ACK seq 5001 ack 1001 win 64 len 0\n\
        delivered reply 9 ACK seq 5001 ack 1001 win 64 len 0\n\
        delivered\ndelivered\ndelivered\nemit-failed\n\
        emitted 10 PSH|ACK seq 1001 ack 5001 win 64 len 12\n\
        delivered reply 11 ACK seq 5001 ack 1013 win 52 len 0\n\
        a ESTABLISHED accepted 12 handed-out 0 queued 0\n\
        b ESTABLISHED accepted 0 handed-out 0 queued 12\n",
    ),
];

// After the FIN: B acknowledges it again, or closes too and waits in LAST-ACK for the acknowledgement of its own.
const CLOSING: &[Example] = &[
    (
        "fin_and_finished",
        SIZES,
        "deliver 3 0 0\n",
        "delivered reply 4 ACK seq 5001 ack 1004 win 64 len 0\n\
        a FIN-WAIT-1 accepted 2 handed-out 0 queued 0\n\
        b CLOSE-WAIT accepted 0 handed-out 2 queued 0\n",
    ),
    (
        "close_both_ways_and_time_wait",
        SIZES,
        "close b\ndispatch b 0\ndeliver 4 0 0\ndispatch a 0\ndeliver 5 0 0\ndispatch a 9999\n",
        "done\nemitted 4 FIN|ACK seq 5001 ack 1004 win 64 len 0\ndelivered\n\
        emitted 5 ACK seq 1004 ack 5002 win 64 len 0\ndelivered\n\
        quiet\na TIME-WAIT accepted 2 handed-out 0 queued 0\n\
        b CLOSED accepted 0 handed-out 2 queued 0\n",
    ),
    (
        "time_wait_ends",
        SIZES,
        "close b\ndispatch b 0\ndeliver 4 0 0\ndispatch a 0\ndeliver 5 0 0\ndispatch a 9999\ndispatch a 10000\n",
        "done\nemitted 4 FIN|ACK seq 5001 ack 1004 win 64 len 0\ndelivered\n\
        emitted 5 ACK seq 1004 ack 5002 win 64 len 0\ndelivered\n\
        quiet\nquiet\na CLOSED accepted 2 handed-out 0 queued 0\n\
        b CLOSED accepted 0 handed-out 2 queued 0\n",
    ),
];

#[test]
fn on_an_open_connection(rt: HostRuntime) -> Result<(), Fail> {
    print(&rt, rt.alloc(), &AFTER_OPENING, OPEN)?;
    print(&rt, rt.alloc(), &AFTER_FIN, CLOSING)
}

const ABORTED: &[Example] = &[
    (
        "reset_after_abort",
        SIZES,
        "",
        "a CLOSED accepted 0 handed-out 0 queued 0\n\
        b LISTEN accepted 0 handed-out 0 queued 0\n",
    ),
    (
        "listener_falls_back_on_rst",
        SIZES,
        "deliver 0 0 5000\n",
        "delivered\na CLOSED accepted 0 handed-out 0 queued 0\n\
        b SYN-RECEIVED accepted 0 handed-out 0 queued 0\n",
    ),
    (
        "stale_syn_after_abort",
        SIZES,
        "deliver 0 0 7000\ndispatch b 0\ndeliver 2 0 0\n",
        "delivered\nemitted 2 SYN|ACK seq 7000 ack 1001 win 64 len 0\n\
        not-accepted reply 3 RST seq 1001 ack - win 0 len 0\n\
        a CLOSED accepted 0 handed-out 0 queued 0\n\
        b SYN-RECEIVED accepted 0 handed-out 0 queued 0\n",
    ),
    (
        "reset_of_a_stale_syn_ack",
        SIZES,
        "deliver 0 0 7000\ndispatch b 0\ndeliver 2 0 0\ndeliver 3 0 0\n",
        "delivered\nemitted 2 SYN|ACK seq 7000 ack 1001 win 64 len 0\n\
        not-accepted reply 3 RST seq 1001 ack - win 0 len 0\ndelivered\n\
        a CLOSED accepted 0 handed-out 0 queued 0\n\
        b LISTEN accepted 0 handed-out 0 queued 0\n",
    ),
];

// B does not listen.
const STRAY: &[Example] = &[
    (
        "reset_of_a_stray_syn",
        SIZES,
        "dispatch a 0\ndeliver 0 0 0\ndeliver 1 0 0\n",
        "emitted 0 SYN seq 1000 ack - win 64 len 0\n\
        not-accepted reply 1 RST|ACK seq 0 ack 1001 win 0 len 0\ndelivered\n\
        a CLOSED accepted 0 handed-out 0 queued 0\n\
        b CLOSED accepted 0 handed-out 0 queued 0\n",
    ),
    (
        "refused_reset_is_not_answered",
        SIZES,
        "dispatch a 0\ndeliver 0 0 0\ndeliver 1 0 0\ndeliver 1 0 0\n",
        "emitted 0 SYN seq 1000 ack - win 64 len 0\n\
        not-accepted reply 1 RST|ACK seq 0 ack 1001 win 0 len 0\ndelivered\n\
        not-accepted\na CLOSED accepted 0 handed-out 0 queued 0\n\
        b CLOSED accepted 0 handed-out 0 queued 0\n",
    ),
    (
        "simultaneous_open",
        SIZES,
        "connect b 5000\ndispatch a 0\ndispatch b 0\ndeliver 0 0 0\ndeliver 1 0 0\n",
        "opened\nemitted 0 SYN seq 1000 ack - win 64 len 0\n\
        emitted 1 SYN seq 5000 ack - win 64 len 0\ndelivered\ndelivered\n\
        a SYN-RECEIVED accepted 0 handed-out 0 queued 0\n\
        b SYN-RECEIVED accepted 0 handed-out 0 queued 0\n",
    ),
    (
        "syn_retransmission",
        SIZES,
        "dispatch a 0\ndispatch a 999\ndispatch a 1000\ndispatch a 2999\ndispatch a 3000\n",
        "emitted 0 SYN seq 1000 ack - win 64 len 0\nquiet\n\
        emitted 1 SYN seq 1000 ack - win 64 len 0\nquiet\n\
        emitted 2 SYN seq 1000 ack - win 64 len 0\n\
        a SYN-SENT accepted 0 handed-out 0 queued 0\nb CLOSED accepted 0 handed-out 0 queued 0\n",
    ),
    (
        "clock_goes_back_on_syn",
        SIZES,
        "dispatch a 5000\ndispatch a 0\ndispatch a 6000\n",
        "emitted 0 SYN seq 1000 ack - win 64 len 0\nquiet\n\
        emitted 1 SYN seq 1000 ack - win 64 len 0\n\
        a SYN-SENT accepted 0 handed-out 0 queued 0\nb CLOSED accepted 0 handed-out 0 queued 0\n",
    ),
];

#[test]
fn without_a_connection(rt: HostRuntime) -> Result<(), Fail> {
    print(&rt, rt.alloc(), &AFTER_ABORT, ABORTED)?;
    print(&rt, rt.alloc(), &CONNECTING, STRAY)
}

// Whole scripts: other windows, other moments, and every emit that fails once.
const WHOLE: &[Example] = &[
    (
        "scaled_window_field",
        "64 64 131072 64 1000",
        "listen b\nconnect a 1000\ndispatch a 0\ndeliver 0 0 5000\ndispatch b 0\ndeliver 1 0 0\n\
        dispatch a 0\ndeliver 2 0 0\nsend a abcdef\ndispatch a 0\ndeliver 3 0 0\ndispatch b 10\n",
        "opened\nopened\nemitted 0 SYN seq 1000 ack - win 64 len 0\ndelivered\n\
        emitted 1 SYN|ACK seq 5000 ack 1001 win 65535 len 0\ndelivered\n\
        emitted 2 ACK seq 1001 ack 5001 win 64 len 0\ndelivered\n\
        accepted 6\nemitted 3 PSH|ACK seq 1001 ack 5001 win 64 len 6\ndelivered\n\
        emitted 4 ACK seq 5001 ack 1007 win 32766 len 0\n\
        a ESTABLISHED accepted 6 handed-out 0 queued 0\n\
        b ESTABLISHED accepted 0 handed-out 0 queued 6\n",
    ),
    (
        "zero_window_probe",
        "64 64 4 64 1000",
        "listen b\nconnect a 1000\ndispatch a 0\ndeliver 0 0 5000\ndispatch b 0\ndeliver 1 0 0\n\
        dispatch a 0\ndeliver 2 0 0\nsend a abcdef\ndispatch a 0\ndeliver 3 0 0\ndispatch b 10\n\
        deliver 4 10 0\ndispatch a 1009\ndispatch a 1010\ndeliver 5 1010 0\n",
        "opened\nopened\nemitted 0 SYN seq 1000 ack - win 64 len 0\ndelivered\n\
        emitted 1 SYN|ACK seq 5000 ack 1001 win 4 len 0\ndelivered\n\
        emitted 2 ACK seq 1001 ack 5001 win 64 len 0\ndelivered\naccepted 6\n\
        emitted 3 ACK seq 1001 ack 5001 win 64 len 4\ndelivered\n\
        emitted 4 ACK seq 5001 ack 1005 win 0 len 0\ndelivered\nquiet\n\
        emitted 5 ACK seq 1005 ack 5001 win 64 len 1\n\
        delivered reply 6 ACK seq 5001 ack 1005 win 0 len 0\n\
        a ESTABLISHED accepted 6 handed-out 0 queued 0\n\
        b ESTABLISHED accepted 0 handed-out 0 queued 4\n",
    ),
    (
        "receiver_without_capacity",
        "64 64 0 64 1000",
        "listen b\nconnect a 1000\ndispatch a 0\ndeliver 0 0 5000\ndispatch b 0\ndeliver 1 0 0\n\
        dispatch a 0\ndeliver 2 0 0\nsend a abcdef\ndispatch a 0\ndispatch a 1000\ndeliver 3 1000 0\n",
        "opened\nopened\nemitted 0 SYN seq 1000 ack - win 64 len 0\ndelivered\n\
        emitted 1 SYN|ACK seq 5000 ack 1001 win 0 len 0\ndelivered\n\
        emitted 2 ACK seq 1001 ack 5001 win 64 len 0\ndelivered\naccepted 6\n\
        quiet\nemitted 3 ACK seq 1001 ack 5001 win 64 len 1\n\
        delivered reply 4 ACK seq 5001 ack 1001 win 0 len 0\n\
        a ESTABLISHED accepted 6 handed-out 0 queued 0\n\
        b ESTABLISHED accepted 0 handed-out 0 queued 0\n",
    ),
    (
        "sequence_numbers_wrap",
        SIZES,
        "listen b\nconnect a 4294967292\ndispatch a 0\ndeliver 0 0 5000\ndispatch b 0\n\
        deliver 1 0 0\ndispatch a 0\ndeliver 2 0 0\nsend a abcdef\ndispatch a 0\n\
        deliver 3 0 0\ndispatch b 10\n",
        "opened\nopened\nemitted 0 SYN seq 4294967292 ack - win 64 len 0\ndelivered\n\
        emitted 1 SYN|ACK seq 5000 ack 4294967293 win 64 len 0\ndelivered\n\
        emitted 2 ACK seq 4294967293 ack 5001 win 64 len 0\ndelivered\naccepted 6\n\
        emitted 3 PSH|ACK seq 4294967293 ack 5001 win 64 len 6\ndelivered\n\
        emitted 4 ACK seq 5001 ack 3 win 58 len 0\n\
        a ESTABLISHED accepted 6 handed-out 0 queued 0\n\
        b ESTABLISHED accepted 0 handed-out 0 queued 6\n",
    ),
    (
        "every_emit_fails_once",
        SIZES,
        "listen b\nconnect a 1000\nfail a 0\ndispatch a 0\n\
        deliver 0 0 5000\nfail b 0\ndispatch b 0\ndeliver 1 0 0\nfail a 0\ndispatch a 0\n\
        deliver 2 0 0\nsend a abcdef\nfail a 0\ndispatch a 0\ndeliver 3 0 0\n",
        "opened\nopened\nemit-failed\nemitted 0 SYN seq 1000 ack - win 64 len 0\n\
        delivered\nemit-failed\nemitted 1 SYN|ACK seq 5000 ack 1001 win 64 len 0\n\
        delivered\nemit-failed\nemitted 2 ACK seq 1001 ack 5001 win 64 len 0\n\
        delivered\naccepted 6\nemit-failed\n\
        emitted 3 PSH|ACK seq 1001 ack 5001 win 64 len 6\ndelivered\n\
        a ESTABLISHED accepted 6 handed-out 0 queued 0\n\
        b ESTABLISHED accepted 0 handed-out 0 queued 6\n",
    ),
    (
        "clock_goes_back_on_data",
        SIZES,
        "listen b\nconnect a 1000\ndispatch a 5000\n\
        deliver 0 5000 5000\ndispatch b 5000\ndeliver 1 4000 0\ndispatch a 4000\n\
        send a abcdef\ndispatch a 4000\ndispatch a 6999\ndispatch a 7000\n",
        "opened\nopened\nemitted 0 SYN seq 1000 ack - win 64 len 0\n\
        delivered\nemitted 1 SYN|ACK seq 5000 ack 1001 win 64 len 0\ndelivered\n\
        emitted 2 ACK seq 1001 ack 5001 win 64 len 0\naccepted 6\n\
        emitted 3 PSH|ACK seq 1001 ack 5001 win 64 len 6\nquiet\n\
        emitted 4 PSH|ACK seq 1001 ack 5001 win 64 len 6\n\
        a ESTABLISHED accepted 6 handed-out 0 queued 0\n\
        b SYN-RECEIVED accepted 0 handed-out 0 queued 0\n",
    ),
];

#[test]
fn of_whole_scripts(rt: HostRuntime) -> Result<(), Fail> {
    print(&rt, rt.alloc(), &NOTHING, WHOLE)
}

// A keep-alive does not wake the first, and the second never falls silent.
const UNENDING: &[Example] = &[
    (
        "stall_last_ack",
        "64 64 4 64 1000",
        "listen b\nconnect a 1000\ndispatch a 0\ndeliver 0 0 5000\ndispatch b 0\n\
        deliver 1 0 0\ndispatch a 0\ndeliver 2 0 0\nsend a abcd\ndispatch a 10\n\
        deliver 3 20 0\nclose b\ndispatch b 30\ndeliver 4 40 0\ndispatch a 50\n\
        deliver 5 60 0\nsend a e\ndispatch a 1050\ndeliver 6 1060 0\nrecv b 4\n\
        dispatch b 1070\ndeliver 8 1080 0\nsend a fg\ndispatch a 1090\ndeliver 7 1100 0\n\
        close a\ndispatch a 5000\ndispatch b 5000\ndispatch a 100000\ndispatch b 100000\n",
        "opened\nopened\nemitted 0 SYN seq 1000 ack - win 64 len 0\ndelivered\n\
        emitted 1 SYN|ACK seq 5000 ack 1001 win 4 len 0\ndelivered\n\
        emitted 2 ACK seq 1001 ack 5001 win 64 len 0\ndelivered\naccepted 4\n\
        emitted 3 PSH|ACK seq 1001 ack 5001 win 64 len 4\ndelivered\ndone\n\
        emitted 4 FIN|ACK seq 5001 ack 1005 win 0 len 0\ndelivered\n\
        emitted 5 ACK seq 1005 ack 5002 win 64 len 0\ndelivered\naccepted 1\n\
        emitted 6 PSH|ACK seq 1005 ack 5002 win 64 len 1\n\
        delivered reply 7 ACK seq 5002 ack 1005 win 0 len 0\nread 4 abcd\n\
        emitted 8 ACK seq 5002 ack 1005 win 4 len 0\ndelivered\naccepted 2\n\
        emitted 9 PSH|ACK seq 1005 ack 5002 win 64 len 3\ndelivered\ndone\nquiet\nquiet\n\
        quiet\nquiet\na LAST-ACK accepted 7 handed-out 0 queued 0\n\
        b FIN-WAIT-2 accepted 0 handed-out 4 queued 0\n",
    ),
    (
        "endless_acks",
        "64 64 4 64 1000",
        "listen b\nconnect a 1000\ndispatch a 0\ndeliver 0 0 5000\ndispatch b 0\n\
        deliver 1 0 0\ndispatch a 0\ndeliver 2 0 0\nsend a abcde\ndispatch a 0\n\
        deliver 3 0 0\ndispatch b 10\ndeliver 4 10 0\nclose a\nrecv b 1\ndispatch b 10\n\
        dispatch a 1010\ndeliver 6 1010 0\ndispatch b 1020\ndeliver 7 1020 0\n\
        dispatch a 3009\ndispatch a 3010\ndispatch a 3010\ndispatch a 3010\ndispatch a 3010\n",
        "opened\nopened\nemitted 0 SYN seq 1000 ack - win 64 len 0\ndelivered\n\
        emitted 1 SYN|ACK seq 5000 ack 1001 win 4 len 0\ndelivered\n\
        emitted 2 ACK seq 1001 ack 5001 win 64 len 0\ndelivered\naccepted 5\n\
        emitted 3 ACK seq 1001 ack 5001 win 64 len 4\ndelivered\n\
        emitted 4 ACK seq 5001 ack 1005 win 0 len 0\ndelivered\ndone\nread 1 a\n\
        emitted 5 ACK seq 5001 ack 1005 win 1 len 0\n\
        emitted 6 FIN|ACK seq 1005 ack 5001 win 64 len 1\ndelivered\n\
        emitted 7 ACK seq 5001 ack 1007 win 0 len 0\ndelivered\nquiet\n\
        emitted 8 ACK seq 1007 ack 5001 win 64 len 0\n\
        emitted 9 ACK seq 1007 ack 5001 win 64 len 0\n\
        emitted 10 ACK seq 1007 ack 5001 win 64 len 0\n\
        emitted 11 ACK seq 1007 ack 5001 win 64 len 0\n\
        a FIN-WAIT-2 accepted 5 handed-out 0 queued 0\n\
        b CLOSE-WAIT accepted 0 handed-out 1 queued 4\n",
    ),
];

#[test]
fn of_what_never_ends(rt: HostRuntime) -> Result<(), Fail> {
    print(&rt, rt.alloc(), &NOTHING, UNENDING)
}
