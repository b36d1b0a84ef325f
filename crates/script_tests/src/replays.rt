//! How a replay ends, of bad scripts and of streams that fail.
use sock_pair::script::{End, ScriptError, Sink, Source, StreamFault, replay};
use std::alloc::Global;
use std::process::Abort;
use std::test::Fail;

// Bytes that are read in parts, with a fault at a call.
#[derive(Drop)]
struct Text<'a> {
    left: &'a [u8],
    calls_left: usize,
    failed: bool,
}

impl Source for Text<'_> {
    ghost has_failed = { λ s. s.failed };

    fn read(&mut self, buf: &mut [u8]) -> Result<usize, StreamFault> {
        if self.calls_left == 0 {
            self.failed = true;
            return Err(StreamFault);
        }
        self.calls_left -= 1;
        let count = self.left.len().min(buf.len()).min(50);
        let (bytes, left) = self.left.split_at(count);
        buf[..count].copy_from_slice(bytes);
        self.left = left;
        Ok(count)
    }

    fn failed(&self) -> bool {
        self.failed
    }
}

// Bytes that were written, with a fault at a call.
#[derive(Drop)]
struct Page {
    bytes: Vec<u8>,
    calls_left: usize,
    failed: bool,
}

impl Sink for Page {
    ghost has_failed = { λ s. s.failed };

    fn write_all(&mut self, bytes: &[u8]) -> Result<(), StreamFault> {
        if self.calls_left == 0 || self.bytes.extend_from_slice(bytes).is_err() {
            self.failed = true;
            return Err(StreamFault);
        }
        self.calls_left -= 1;
        Ok(())
    }

    fn failed(&self) -> bool {
        self.failed
    }
}

// Room for the output of one script, so that a growth that is refused is one of the replay.
fn room_for_output(alloc: Global) -> Vec<u8> {
    match Vec::with_capacity(alloc, 4096) {
        Ok(bytes) => bytes,
        Err(_) => Vec::new(alloc),
    }
}

// How the replay of a text ends and what it writes, where the reader has so many calls before its
// fault, and the writer too.
pub(crate) fn replayed(alloc: Global, text: &[u8], reads: usize, writes: usize) -> (End, Vec<u8>) {
    let mut reader = Text {
        left: text,
        calls_left: reads,
        failed: false,
    };
    let mut writer = Page {
        bytes: room_for_output(alloc),
        calls_left: writes,
        failed: false,
    };
    let end = replay(alloc, &mut reader, &mut writer);
    let Page { bytes, .. } = writer;
    (end, bytes)
}

pub(crate) const MANY: usize = 1_000_000;

pub(crate) const OPENING: &str =
    "listen b\nconnect a 1000\ndispatch a 0\ndeliver 0 0 5000\ndispatch b 0\n\
    deliver 1 0 0\ndispatch a 0\ndeliver 2 0 0\n";

pub(crate) const OPENED: &str =
    "opened\nopened\nemitted 0 SYN seq 1000 ack - win 64 len 0\ndelivered\n\
    emitted 1 SYN|ACK seq 5000 ack 1001 win 64 len 0\ndelivered\n\
    emitted 2 ACK seq 1001 ack 5001 win 64 len 0\ndelivered\n";

const SIX_BYTES: &str = "send a abcdef\ndispatch a 0\ndeliver 3 0 0\n";

const SIX_BYTES_SENT: &str = "accepted 6\nemitted 3 PSH|ACK seq 1001 ack 5001 win 64 len 6\n\
    delivered\na ESTABLISHED accepted 6 handed-out 0 queued 0\n\
    b ESTABLISHED accepted 0 handed-out 0 queued 6\n";

fn is_refused(rt: &(impl Abort), alloc: Global, text: &[u8], want: ScriptError) {
    let (end, got) = replayed(alloc, text, MANY, MANY);
    assert!(rt; end == End::Script(want));
    assert!(rt; end.status() == 1);
    assert!(rt; got.is_empty());
}

#[test]
fn malformed_scripts(rt: HostRuntime) -> Result<(), Fail> {
    let alloc = rt.alloc();
    is_refused(&rt, alloc, b"", ScriptError::NoPairLine { line: 1 });
    is_refused(
        &rt,
        alloc,
        b"\xff\x00\xfe\x80",
        ScriptError::NoPairLine { line: 1 },
    );
    let unknown = b"pair 64 64 64 64 1000\njump a\n";
    is_refused(&rt, alloc, unknown, ScriptError::UnknownEvent { line: 2 });
    let side = b"pair 64 64 64 64 1000\nsend c x\n";
    is_refused(&rt, alloc, side, ScriptError::BadWord { line: 2 });
    let mut long = Vec::from_slice(alloc, b"pair 64 64 64 64 1000\n")?;
    for _ in 0..10_000 {
        long.push(b'x')?;
    }
    is_refused(
        &rt,
        alloc,
        long.as_slice(),
        ScriptError::UnknownEvent { line: 2 },
    );
    Ok(())
}

// A script runs, or its last line alone has a fault.
fn has_one_fault_at_most(rt: &(impl Abort), alloc: Global, text: &[u8]) {
    let line = 1 + text.iter().filter(|byte| **byte == b'\n').count();
    let (end, got) = replayed(alloc, text, MANY, MANY);
    assert!(rt; (end == End::Done) == !got.is_empty());
    let faults = [
        End::Script(ScriptError::NoPairLine { line }),
        End::Script(ScriptError::UnknownEvent { line }),
        End::Script(ScriptError::WrongNumberOfWords { line }),
    ];
    assert!(rt; end == End::Done || faults.contains(&end), "line {line}");
}

// The script of six bytes, ended behind any of its bytes.
#[test]
fn cut_scripts(rt: HostRuntime) -> Result<(), Fail> {
    let alloc = rt.alloc();
    let text = format!(in alloc; "pair 64 64 64 64 1000\n{OPENING}{SIX_BYTES}")?;
    for cut in 0..text.len() {
        let (bytes, _) = text.as_bytes().split_at(cut);
        has_one_fault_at_most(&rt, alloc, bytes);
    }
    is_refused(&rt, alloc, b"pai", ScriptError::NoPairLine { line: 1 });
    let side = b"pair 64 64 64 64 1000\nlisten b\nconnect a";
    is_refused(
        &rt,
        alloc,
        side,
        ScriptError::WrongNumberOfWords { line: 3 },
    );
    let words = b"pair 64 64 64 64 1000\nlisten b\nconnect a 1000\ndispatch a 0\ndeliver 0 0";
    is_refused(
        &rt,
        alloc,
        words,
        ScriptError::WrongNumberOfWords { line: 5 },
    );
    Ok(())
}

// Whether a replay is done before the reader fails at this call. Where it is not, nothing is written.
fn is_done_by_reads(rt: &(impl Abort), alloc: Global, text: &[u8], reads: usize) -> bool {
    let (end, got) = replayed(alloc, text, reads, MANY);
    if end == End::Done {
        return true;
    }
    assert!(rt; end == End::Read && end.status() == 2);
    assert!(rt; got.is_empty());
    false
}

// Whether a replay is done before the writer fails at this call. Where it is not, the output's beginning is written.
fn is_done_by_writes(
    rt: &(impl Abort),
    alloc: Global,
    text: &[u8],
    writes: usize,
    want: &[u8],
) -> bool {
    let (end, got) = replayed(alloc, text, MANY, writes);
    assert!(rt; want.starts_with(got.as_slice()));
    if end == End::Done {
        return true;
    }
    assert!(rt; end == End::Write && end.status() == 2);
    false
}

fn reads_fail_in_turn(rt: &(impl Abort), alloc: Global, text: &[u8]) {
    for calls in 0..300 {
        if is_done_by_reads(rt, alloc, text, calls) {
            break;
        }
        assert!(rt; calls < 299);
    }
}

fn writes_fail_in_turn(rt: &(impl Abort), alloc: Global, text: &[u8], want: &[u8]) {
    for calls in 0..300 {
        if is_done_by_writes(rt, alloc, text, calls, want) {
            break;
        }
        assert!(rt; calls < 299);
    }
}

// The reader, and then the writer, fails at each of its calls in turn.
#[test]
fn streams_that_fail(rt: HostRuntime) -> Result<(), Fail> {
    let alloc = rt.alloc();
    let text = format!(in alloc; "pair 64 64 64 64 1000\n{OPENING}{SIX_BYTES}")?;
    let want = format!(in alloc; "{OPENED}{SIX_BYTES_SENT}")?;
    reads_fail_in_turn(&rt, alloc, text.as_bytes());
    writes_fail_in_turn(&rt, alloc, text.as_bytes(), want.as_bytes());
    Ok(())
}
