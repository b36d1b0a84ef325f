//! What the lines of a script mean, and what is printed of one that is none.
use net_base::time::Instant;
use sock_pair::script::{Script, parse};
use sock_pair::{Event, Moment, Setting, Side};
use std::alloc::Global;
use std::process::Abort;
use std::test::Fail;

const PAIR: &str = "pair 64 64 64 64 1000\n";

// What is printed of the fault of a text.
fn tells(rt: &(impl Abort), alloc: Global, text: &str, want: &str) -> Result<(), Fail> {
    match parse(alloc, text.as_bytes()) {
        Ok(_) => Err(Fail::new("it is a script")),
        Err(error) => {
            let got = error.to_string(alloc)?;
            assert!(rt; got.as_str() == want, "{text}");
            Ok(())
        }
    }
}

fn tells_of_line_two(rt: &(impl Abort), alloc: Global, line: &str, want: &str) -> Result<(), Fail> {
    let text = format!(in alloc; "{PAIR}{line}")?;
    tells(rt, alloc, text.as_str(), want)
}

// Whether the event of this index is this one.
fn is_event(script: &Script, index: usize, want: &Event) -> bool {
    script.events.as_slice().get(index) == Some(want)
}

// Whether these are the events of the script below, which sends these bytes.
fn are_its_events(script: &Script, bytes: Vec<u8>) -> bool {
    let (side, size) = (Side::A, 1_048_576);
    let event = Event::Dispatch {
        side: Side::B,
        moment: Moment::new(Instant::from_secs(1_000_000), 0, true, 1500),
        fail: true,
    };
    is_event(script, 1, &Event::SendSlice { side, bytes })
        && is_event(script, 2, &Event::RecvSlice { side, size })
        && is_event(script, 3, &event)
}

#[test]
fn forms_of_lines(rt: HostRuntime) -> Result<(), Fail> {
    let alloc = rt.alloc();
    let bytes = Vec::from_slice(alloc, b"x!~")?;
    let text =
        "# sizes\n\n  pair 0 1 2 1048576 -\nsend b\n send  a  x!~ \nrecv a 1048576\n   \nfail b 1000000000";
    let script = parse(alloc, text.as_bytes())?;
    assert!(rt; script.sizes == [0, 1, 2, 1_048_576]);
    assert!(rt; script.limit.is_none() && script.events.len() == 4);
    assert!(rt; are_its_events(&script, bytes));
    Ok(())
}

// Whether the event of this index turns Nagle's algorithm on or off for this side.
fn is_nagle(script: &Script, index: usize, side: Side, enabled: bool) -> bool {
    let setting = Setting::Nagle(enabled);
    is_event(script, index, &Event::Set { side, setting })
}

#[test]
fn nagle_is_on_or_off(rt: HostRuntime) -> Result<(), Fail> {
    let alloc = rt.alloc();
    let script = parse(alloc, b"pair 1 1 1 1 -\nnagle a on\nnagle b off")?;
    assert!(rt; script.events.len() == 2);
    assert!(rt; is_nagle(&script, 0, Side::A, true));
    assert!(rt; is_nagle(&script, 1, Side::B, false));
    Ok(())
}

const TEXTS: &[(&str, &str)] = &[
    ("", "line 1: no pair line"),
    ("# a\n\n", "line 3: no pair line"),
    ("pair 64 64 64 1048577 1000", "line 1: bad word"),
    ("pair 64 64 64 64 536870912", "line 1: bad word"),
    ("pair 64 64 64 64", "line 1: wrong number of words"),
];

const LINES: &[(&str, &str)] = &[
    ("jump a", "line 2: unknown event"),
    (PAIR, "line 2: unknown event"),
    ("close", "line 2: wrong number of words"),
    ("deliver 0 0", "line 2: wrong number of words"),
    ("send c x", "line 2: bad word"),
    ("recv a 1048577", "line 2: bad word"),
    ("deliver 00000000000 0 0", "line 2: bad word"),
    ("connect a +1", "line 2: bad word"),
    ("send a x\ty", "line 2: bad word"),
    ("nagle a", "line 2: wrong number of words"),
    ("nagle a yes", "line 2: bad word"),
];

#[test]
fn faults_are_printed(rt: HostRuntime) -> Result<(), Fail> {
    for (text, want) in TEXTS {
        tells(&rt, rt.alloc(), text, want)?;
    }
    for (line, want) in LINES {
        tells_of_line_two(&rt, rt.alloc(), line, want)?;
    }
    Ok(())
}
