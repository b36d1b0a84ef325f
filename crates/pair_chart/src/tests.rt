//! What is drawn of worked examples, and how drawing ends where a stream fails or a script has a fault. The numbers are
//! worked out from the rows: the row of event n begins at 104 + 38 n, a segment arrives 9 below that and departs 29
//! below.
use crate::options::{Options, Task};
use script_chart::picture::Picture;
use script_chart::play::draw;
use script_chart::text::Quoted;
use script_program::fault::Fault;
use script_program::input::read_all;
use sock_pair::Side;
use sock_pair::script::{End, ScriptError};
use std::alloc::Global;
use std::io;
use std::io::{Read, Write};
use std::process::Abort;
use std::test::Fail;

// Bytes that were written, up to a fault.
#[derive(Drop)]
struct Page {
    bytes: Vec<u8>,
    // How many bytes it takes before its fault.
    room: usize,
}

impl Write for Page {
    fn write(&mut self, buf: &[u8]) -> io::Result<usize> {
        let count = buf.len().min(self.room);
        if count == 0 && !buf.is_empty() {
            return Err(io::Error::from(io::ErrorKind::BrokenPipe));
        }
        self.bytes.extend_from_slice(&buf[..count])?;
        self.room -= count;
        Ok(count)
    }

    fn flush(&mut self) -> io::Result<()> {
        Ok(())
    }
}

// A reader that only fails.
#[derive(Drop)]
struct Torn;

impl Read for Torn {
    fn read(&mut self, _buf: &mut [u8]) -> io::Result<usize> {
        Err(io::Error::from(io::ErrorKind::BrokenPipe))
    }
}

const PLENTY: usize = 1_000_000;

// The chart with numbers as they are.
const CHART: Picture = Picture::Chart { relative: false };

// How drawing a text ends, and what it writes, where the writer takes so many bytes before its fault.
fn drawn(alloc: Global, text: &str, picture: Picture, room: usize) -> (End, Vec<u8>) {
    // Room for it all, so that a growth that is refused is one of the drawing.
    let bytes = match Vec::with_capacity(alloc, 16_384) {
        Ok(bytes) => bytes,
        Err(_) => Vec::new(alloc),
    };
    let mut page = Page { bytes, room };
    let end = draw(alloc, text.as_bytes(), picture, &mut page);
    (end, page.bytes)
}

const OPENING: &str =
    "pair 64 64 64 64 1000\nlisten b\nconnect a 1000\ndispatch a 0\ndeliver 0 20 5000\n\
    dispatch b 20\ndeliver 1 40 0\ndispatch a 40\ndeliver 2 60 0\n";

// The chart of these lines, after those that open a connection, has these parts, in this order.
fn shows(rt: &(impl Abort), alloc: Global, lines: &str, parts: &[&str]) -> Result<(), Fail> {
    pictures(rt, alloc, lines, CHART, parts)
}

// A picture has these parts, in this order.
fn pictures(
    rt: &(impl Abort),
    alloc: Global,
    lines: &str,
    picture: Picture,
    parts: &[&str],
) -> Result<(), Fail> {
    let text = format!(in alloc; "{OPENING}{lines}")?;
    let (end, bytes) = drawn(alloc, text.as_str(), picture, PLENTY);
    assert!(rt; end == End::Done);
    let chart = String::from_utf8(bytes)?;
    let mut rest = chart.as_str();
    for part in parts {
        let (_, after) = rest.split_once(*part).expect(rt, *part);
        rest = after;
    }
    Ok(())
}

#[test]
fn handshake(rt: HostRuntime) -> Result<(), Fail> {
    shows(
        &rt,
        rt.alloc(),
        "",
        &[
            "<svg xmlns=\"http://www.w3.org/2000/svg\" width=\"1300\" height=\"428\" viewBox=\"0 0 1300 428\">\n",
            "<text class=\"time\" x=\"54\" text-anchor=\"end\" y=\"117\">2</text>\n\
            <text class=\"call\" x=\"980\" y=\"117\">listen: opened</text>\n\
            <text class=\"state\" x=\"980\" y=\"132\">LISTEN</text>\n\
            <text class=\"time\" x=\"54\" text-anchor=\"end\" y=\"155\">3</text>\n\
            <text class=\"call\" x=\"410\" text-anchor=\"end\" y=\"155\">connect 1000: opened</text>\n\
            <text class=\"state\" x=\"410\" text-anchor=\"end\" y=\"170\">SYN-SENT</text>\n\
            <text class=\"time\" x=\"54\" text-anchor=\"end\" y=\"203\">4</text>\n\
            <text class=\"time\" x=\"142\" text-anchor=\"end\" y=\"203\">0</text>\n\
            <text class=\"time\" x=\"54\" text-anchor=\"end\" y=\"231\">5</text>\n\
            <text class=\"time\" x=\"142\" text-anchor=\"end\" y=\"231\">20</text>\n\
            <path class=\"sent\" d=\"M420 209 970 227\"/>\n\
            <text class=\"state\" x=\"980\" y=\"231\">SYN-RECEIVED</text>\n",
            "<path class=\"sent\" d=\"M970 285 420 303\"/>\n",
            ">ESTABLISHED</text>\n",
            "<path class=\"sent\" d=\"M420 361 970 379\"/>\n",
            "<text class=\"state\" x=\"980\" y=\"383\">ESTABLISHED</text>\n",
            "<text class=\"label\" x=\"430\" y=\"203\"><tspan class=\"index\">0</tspan> \
            SYN seq 1000 ack - win 64 len 0 mss 1460 sackOK wscale 0</text>\n",
            ">1</tspan> SYN|ACK seq 5000 ack 1001 win 64 len 0 mss 1460 sackOK wscale 0</text>\n",
            ">2</tspan> ACK seq 1001 ack 5001 win 64 len 0</text>\n</svg>\n",
        ],
    )
}

// The first copy is lost, the second comes twice, and is answered where it came again.
#[test]
fn retransmission(rt: HostRuntime) -> Result<(), Fail> {
    shows(
        &rt,
        rt.alloc(),
        "send a abcdef\ndispatch a 60\ndispatch a 1060\ndeliver 4 1080 0\ndeliver 4 1081 0\n",
        &[
            ">send \"abcdef\": accepted 6</text>\n",
            "<text class=\"mark\" x=\"410\" text-anchor=\"end\" y=\"497\">retransmission</text>\n",
            "<path class=\"sent\" d=\"M420 513 970 531\"/>\n",
            "<path class=\"sent again\" d=\"M420 513 970 569\"/>\n",
            "<path class=\"lost\" d=\"M420 475 540 479\"/>\n",
            "<path class=\"lost reply\" d=\"M970 589 850 593\"/>\n",
            ">3</tspan> PSH|ACK seq 1001 ack 5001 win 64 len 6</text>\n",
            ">4</tspan> PSH|ACK seq 1001 ack 5001 win 64 len 6</text>\n",
            ">5</tspan> ACK seq 5001 ack 1007 win 58 len 0</text>\n</svg>\n",
        ],
    )
}

// The first of three segments is lost: the others are answered by duplicate acknowledgements, and then nothing is due.
const GAP: &str =
    "nagle a off\nsend a abcdef\ndispatch a 60\nsend a ghi\ndispatch a 61\nsend a jkl\ndispatch a 62\n\
    deliver 4 81 0\ndeliver 5 82 0\ndispatch b 90\ndispatch b 91\ndispatch b 92\n";

#[test]
fn numbers_from_the_syn_on(rt: HostRuntime) -> Result<(), Fail> {
    pictures(
        &rt,
        rt.alloc(),
        GAP,
        Picture::Chart { relative: true },
        &[
            ">duplicate ACK 1</text>\n",
            ">duplicate ACK 2</text>\n",
            ">90</text>\n",
            ">dispatch: quiet</text>\n",
            ">21</text>\n",
            ">92</text>\n",
            ">3 times</text>\n",
            ">0</tspan> SYN seq 0 ack - win 64 len 0 mss 1460 sackOK wscale 0</text>\n",
            ">3</tspan> PSH|ACK seq 1 ack 1 win 64 len 6</text>\n",
            ">6</tspan> ACK seq 1 ack 1 win 64 len 0 sack 7-10</text>\n",
            ">7</tspan> ACK seq 1 ack 1 win 64 len 0 sack 7-13</text>\n</svg>\n",
        ],
    )
}

// The frame has 60 ms from 90 to 1150, and 2 numbers from 578 to 84. The window's edge is above it.
#[test]
fn sequence_of_a_handshake(rt: HostRuntime) -> Result<(), Fail> {
    pictures(
        &rt,
        rt.alloc(),
        "",
        Picture::Sequence(Side::A),
        &[
            "<path class=\"acked\" d=\"M796 331H1150\"/>\n\
            <path class=\"window\" d=\"M796 84H1150\"/>\n\
            <path class=\"sent\" d=\"M87 578h6M90 578V331M87 331h6\"/>\n\
            <text class=\"mark\" x=\"96\" y=\"327\">SYN</text>\n</svg>\n",
        ],
    )
}

// A gap in what arrived, and what was lost.
#[test]
fn sequence_of_a_gap(rt: HostRuntime) -> Result<(), Fail> {
    pictures(
        &rt,
        rt.alloc(),
        "nagle a off\nsend a abcdef\ndispatch a 60\nsend a ghi\ndispatch a 61\ndeliver 4 81 0\ndeliver 5 101 0\n\
        dispatch a 1061\n",
        Picture::Sequence(Side::A),
        &[
            "<path class=\"sack\"",
            "<path class=\"lost\"",
            "<path class=\"again\"",
            "</svg>\n",
        ],
    )
}

#[test]
fn close_both_ways(rt: HostRuntime) -> Result<(), Fail> {
    shows(
        &rt,
        rt.alloc(),
        "close a\ndispatch a 60\ndeliver 3 80 0\ndispatch b 90\ndeliver 4 110 0\nclose b\ndispatch b 110\n\
        deliver 5 130 0\ndispatch a 140\ndeliver 6 160 0\ndispatch a 10130\n",
        &[
            ">close: done</text>\n",
            ">FIN-WAIT-1</text>\n",
            "x=\"980\" y=\"497\">CLOSE-WAIT</text>\n",
            "y=\"573\">FIN-WAIT-2</text>\n",
            ">close: done</text>\n",
            "x=\"980\" y=\"626\">LAST-ACK</text>\n",
            "y=\"687\">TIME-WAIT</text>\n",
            "x=\"980\" y=\"763\">CLOSED</text>\n",
            ">dispatch: quiet</text>\n",
            "<text class=\"state\" x=\"410\" text-anchor=\"end\" y=\"816\">CLOSED</text>\n",
            ">3</tspan> FIN|ACK seq 1001 ack 5001 win 64 len 0</text>\n",
            ">4</tspan> ACK seq 5001 ack 1002 win 64 len 0</text>\n",
            ">5</tspan> FIN|ACK seq 5001 ack 1002 win 64 len 0</text>\n",
            ">6</tspan> ACK seq 1002 ack 5002 win 64 len 0</text>\n</svg>\n",
        ],
    )
}

#[test]
fn quoted_bytes(rt: HostRuntime) -> Result<(), Fail> {
    for (bytes, want) in [
        (b"".as_slice(), "\"\""),
        (b"a<b>&c", "\"a&lt;b&gt;&amp;c\""),
        (b"\"\\\x00\xff", "\"\\\"\\\\\\x00\\xff\""),
        (b"abcdefghijkl", "\"abcdefghijkl\""),
        (b"abcdefghijklm", "\"abcdefghijkl..\""),
        (b"abcdefghi\x7f", "\"abcdefghi..\""),
    ] {
        let quoted = Quoted(bytes);
        let text = format!(in rt.alloc(); "{quoted}")?;
        assert!(rt; text.as_str() == want);
    }
    Ok(())
}

#[test]
fn faults(rt: HostRuntime) -> Result<(), Fail> {
    let alloc = rt.alloc();
    let (end, bytes) = drawn(alloc, "pair 64 64 64 64 1000\njump a\n", CHART, PLENTY);
    assert!(rt; end == End::Script(ScriptError::UnknownEvent { line: 2 }));
    assert!(rt; bytes.is_empty());
    assert!(rt; matches!(read_all(alloc, &mut Torn), Err(Fault::Read)));
    Ok(())
}

// The writer fails after each count of bytes in turn, in steps.
#[test]
fn writers_that_fail(rt: HostRuntime) -> Result<(), Fail> {
    let alloc = rt.alloc();
    let (_, want) = drawn(alloc, OPENING, CHART, PLENTY);
    for count in (0..want.len()).step_by(61) {
        let (end, bytes) = drawn(alloc, OPENING, CHART, count);
        assert!(rt; end == End::Write);
        assert!(rt; bytes.len() == count);
        assert!(rt; want.as_slice().starts_with(bytes.as_slice()));
    }
    Ok(())
}

// No event, and then as many as there is memory for: `rt try --test --fail-alloc 1..` refuses each growth in turn.
#[test]
fn charts_are_whole(rt: HostRuntime) -> Result<(), Fail> {
    for text in ["pair 0 0 0 0 -", OPENING] {
        let (end, bytes) = drawn(rt.alloc(), text, CHART, PLENTY);
        assert!(rt; end == End::Done || end == End::Memory);
        assert!(rt; bytes.is_empty() || bytes.as_slice().ends_with(b"</svg>\n"));
        assert!(rt; end == End::Memory || !bytes.is_empty());
    }
    Ok(())
}

// What the words ask for: `chart`, `relative`, `a` or `b`, with `+` where a file is named, or `usage`.
fn asked(alloc: Global, words: &[&str]) -> Result<&'static str, Fail> {
    let mut options = Options::new();
    for word in words {
        if options.take(format!(in alloc; "{word}")?).is_err() {
            return Ok("usage");
        }
    }
    let Ok(task) = options.into_task() else {
        return Ok("usage");
    };
    Ok(match task {
        Task::Draw(Picture::Chart { relative: false }, None) => "chart",
        Task::Draw(Picture::Chart { relative: true }, None) => "relative",
        Task::Draw(Picture::Chart { relative: true }, Some(_)) => "relative+",
        Task::Draw(Picture::Sequence(Side::A), None) => "a",
        Task::Draw(Picture::Sequence(Side::A), Some(_)) => "a+",
        Task::Draw(Picture::Sequence(Side::B), _) => "b",
        Task::Draw(_, Some(_)) => "chart+",
        Task::Help => "help",
    })
}

const WORDS: &[(&[&str], &str)] = &[
    (&[], "chart"),
    (&["F"], "chart+"),
    (&["--relative", "F"], "relative+"),
    (&["F", "--relative"], "relative+"),
    (&["--sequence", "a", "--relative"], "a"),
    (&["--relative", "--sequence", "a"], "a"),
    (&["--sequence", "a", "F"], "a+"),
    (&["F", "--sequence", "a"], "a+"),
    (&["--sequence", "b", "--relative"], "b"),
    (&["--relative", "--relative"], "usage"),
    (&["--sequence", "a", "--sequence", "b"], "usage"),
    (&["--sequence"], "usage"),
    (&["--sequence", "c"], "usage"),
    (&["F", "G"], "usage"),
    (&["--other"], "usage"),
];

#[test]
fn options_in_any_order(rt: HostRuntime) -> Result<(), Fail> {
    for (words, want) in WORDS {
        assert!(rt; asked(rt.alloc(), words)? == *want, "{}", *want);
    }
    Ok(())
}
