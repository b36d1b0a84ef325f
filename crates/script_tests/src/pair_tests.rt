//! Two sockets of a pair: a source of timestamps, closures that take nothing, settings.
ghost use Rattle.std.specs.Prelude.{◌≡◌, ◌≤◌, ◌^◌, [], MatchOption, length};

use control_wire::{TcpControl, TcpSeqNumber, TcpTimestampGenerator, TcpTimestampRepr};
use ip_wire::{IpAddress, IpEndpoint, Ipv4Address};
use net_base::ring_buffer::RingBuffer;
use net_base::time::{Duration, Instant};
use sock_pair::script::parse;
use sock_pair::{Event, HopLimit, Interval, Moment, Outcome, Pair, Setting, Setup, Side};
use sock_tcp::{CongestionControl, Socket};
use std::alloc::Global;
use std::process::Abort;
use std::test::Fail;

const A: IpEndpoint = IpEndpoint {
    addr: IpAddress::Ipv4(Ipv4Address([10, 0, 0, 1])),
    port: 49152,
};

const B: IpEndpoint = IpEndpoint {
    addr: IpAddress::Ipv4(Ipv4Address([10, 0, 0, 2])),
    port: 80,
};

fn clock_of_a() -> u32 {
    7
}

fn clock_of_b() -> u32 {
    9
}

// Each side has its own.
fn source(is_there: bool, side: Side) -> Option<TcpTimestampGenerator>
    ensures { MatchOption result (Unit {0}) (λ g. IsAlwaysCallable g) }
{
    match (is_there, side) {
        (false, _) => None,
        (true, Side::A) => Some(clock_of_a),
        (true, Side::B) => Some(clock_of_b),
    }
}

// A side with empty buffers, and with a source of timestamps or without one.
fn side<'a>(
    rx: &'a mut [u8; 2000],
    tx: &'a mut [u8; 2000],
    sizes: (usize, usize),
    endpoint: IpEndpoint,
    generator: Option<TcpTimestampGenerator>,
) -> Setup<'a>
    requires { MatchOption generator (Unit {0}) (λ g. IsAlwaysCallable g) }
    ensures rx { (result.rx.queue ≡ []) × (length result.rx.spare ≤ 2 ^ 30) }
    ensures tx { (result.tx.queue ≡ []) × (length result.tx.spare ≤ 2 ^ 30) }
    ensures endpoint { result.endpoint ≡ endpoint }
    ensures generator { MatchOption result.generator (Unit {0}) (λ g. IsAlwaysCallable g) }
{
    Setup {
        rx: RingBuffer::new(&mut rx[..sizes.0.min(2000)]),
        tx: RingBuffer::new(&mut tx[..sizes.1.min(2000)]),
        endpoint,
        generator,
    }
}

// What the buffers of a pair are made of.
#[derive(Drop)]
pub(crate) struct Room {
    arx: [u8; 2000],
    atx: [u8; 2000],
    brx: [u8; 2000],
    btx: [u8; 2000],
}

impl Room {
    pub(crate) fn new() -> Room {
        Room {
            arx: [0; 2000],
            atx: [0; 2000],
            brx: [0; 2000],
            btx: [0; 2000],
        }
    }

    // Two sides whose buffers have `size` bytes, B's receive buffer `brx`, and with a source of timestamps where
    // `clocks` says so.
    fn pair(&mut self, alloc: Global, size: usize, brx: usize, clocks: (bool, bool)) -> Pair<'_> {
        let sources = (source(clocks.0, Side::A), source(clocks.1, Side::B));
        let a = side(&mut self.arx, &mut self.atx, (size, size), A, sources.0);
        let b = side(&mut self.brx, &mut self.btx, (brx, size), B, sources.1);
        Pair::new(alloc, a, b, Some(2000))
    }

    // B's receive buffer has `size` bytes, the others have 64; without any source of timestamps.
    pub(crate) fn narrow_pair(&mut self, alloc: Global, size: usize) -> Pair<'_> {
        self.pair(alloc, 64, size, (false, false))
    }

    // Two sides with buffers of 64 bytes, without any source of timestamps.
    pub(crate) fn plain_pair(&mut self, alloc: Global) -> Pair<'_> {
        self.pair(alloc, 64, 64, (false, false))
    }
}

fn moment() -> Moment {
    Moment::new(Instant::ZERO, 1000, true, 1500)
}

fn dispatch(side: Side) -> Event {
    Event::Dispatch {
        side,
        moment: moment(),
        fail: false,
    }
}

fn deliver(index: usize) -> Event {
    Event::Deliver {
        index,
        moment: moment(),
    }
}

pub(crate) fn happens(rt: &(impl Abort), pair: &mut Pair<'_>, event: &Event, outcome: Outcome) {
    assert!(rt; pair.step(event) == Ok(outcome));
}

pub(crate) fn listens(rt: &(impl Abort), pair: &mut Pair<'_>, side: Side) {
    happens(rt, pair, &Event::Listen { side }, Outcome::Opened);
}

// The side connects to the other, from the number 1000.
pub(crate) fn joins(rt: &(impl Abort), pair: &mut Pair<'_>, side: Side) {
    let moment = moment();
    happens(rt, pair, &Event::Connect { side, moment }, Outcome::Opened);
}

pub(crate) fn sets(rt: &(impl Abort), pair: &mut Pair<'_>, side: Side, setting: Setting) {
    happens(rt, pair, &Event::Set { side, setting }, Outcome::Done);
}

pub(crate) fn emits(rt: &(impl Abort), pair: &mut Pair<'_>, side: Side, index: usize) {
    happens(rt, pair, &dispatch(side), Outcome::Emitted(index));
}

pub(crate) fn is_quiet(rt: &(impl Abort), pair: &mut Pair<'_>, side: Side) {
    happens(rt, pair, &dispatch(side), Outcome::Quiet);
}

// A delivery that the side takes, and the segment that answers it.
pub(crate) fn arrives(rt: &(impl Abort), pair: &mut Pair<'_>, index: usize, reply: Option<usize>) {
    happens(rt, pair, &deliver(index), Outcome::Delivered(reply));
}

// What the events of a script come to.
pub(crate) fn plays(pair: &mut Pair<'_>, alloc: Global, text: &str) -> Result<Vec<Outcome>, Fail> {
    let script = parse(alloc, text.as_bytes())?;
    let mut outcomes = Vec::new(alloc);
    pair.run(script.events.as_slice(), &mut outcomes)?;
    Ok(outcomes)
}

// B listens, A connects, and the three segments of the handshake are delivered.
fn opens(rt: &(impl Abort), pair: &mut Pair<'_>) {
    listens(rt, pair, Side::B);
    joins(rt, pair, Side::A);
    emits(rt, pair, Side::A, 0);
    arrives(rt, pair, 0, None);
    emits(rt, pair, Side::B, 1);
    arrives(rt, pair, 1, None);
    emits(rt, pair, Side::A, 2);
    arrives(rt, pair, 2, None);
}

// A sends these bytes, of which so many are accepted.
fn sends(rt: &(impl Abort), pair: &mut Pair<'_>, bytes: Vec<u8>, count: usize) {
    let side = Side::A;
    let send = Event::SendSlice { side, bytes };
    happens(rt, pair, &send, Outcome::Accepted(count));
}

// A closure of A's takes so many of these bytes.
fn closure_takes(rt: &(impl Abort), pair: &mut Pair<'_>, bytes: Vec<u8>, take: usize) {
    let side = Side::A;
    let send = Event::Send { side, bytes, take };
    happens(rt, pair, &send, Outcome::Accepted(take));
}

// Whether this read hands out these bytes.
fn reads(pair: &mut Pair<'_>, event: &Event, want: &[u8]) -> bool {
    match pair.step(event) {
        Ok(Outcome::Read(got)) => got.as_slice() == want,
        _ => false,
    }
}

fn has_timestamps(pair: &Pair<'_>, side: Side) -> bool {
    pair.socket(side).timestamp_enabled()
}

// Whether the segment of this index has so many bytes of the stream's beginning, and this timestamp.
fn is_full(pair: &Pair<'_>, index: usize, len: usize, timestamp: Option<TcpTimestampRepr>) -> bool {
    match pair.segments().get(index) {
        None => false,
        Some(stored) => {
            let repr = stored.as_repr();
            repr.seq_number == TcpSeqNumber(1001)
                && repr.payload.len() == len
                && repr.control == TcpControl::None
                && repr.timestamp == timestamp
        }
    }
}

// A sends 1500 bytes after the handshake, of which one segment goes out, and Nagle holds the rest back. It has so many
// bytes, and a timestamp where both sides have a generator.
fn sends_a_full_segment(
    rt: &(impl Abort),
    pair: &mut Pair<'_>,
    bytes: Vec<u8>,
    len: usize,
    timestamp: Option<TcpTimestampRepr>,
) {
    opens(rt, pair);
    sends(rt, pair, bytes, 1500);
    emits(rt, pair, Side::A, 3);
    is_quiet(rt, pair, Side::A);
    assert!(rt; is_full(pair, 3, len, timestamp));
    assert!(rt; has_timestamps(pair, Side::A) == timestamp.is_some());
}

// A timestamp takes 12 bytes of each segment: A's has the value of its own source, and echoes that of B's.
#[test]
fn timestamps_shrink_the_segment(rt: HostRuntime) -> Result<(), Fail> {
    let alloc = rt.alloc();
    let bytes = Vec::from_slice(alloc, &[b'x'; 1500])?;
    let mut room = Room::new();
    let mut pair = room.pair(alloc, 2000, 2000, (true, true));
    let stamp = TcpTimestampRepr { tsval: 7, tsecr: 9 };
    sends_a_full_segment(&rt, &mut pair, bytes, 1448, Some(stamp));
    Ok(())
}

#[test]
fn timestamps_need_both_sides(rt: HostRuntime) -> Result<(), Fail> {
    let alloc = rt.alloc();
    let bytes = Vec::from_slice(alloc, &[b'x'; 1500])?;
    let mut room = Room::new();
    let mut pair = room.pair(alloc, 2000, 2000, (true, false));
    sends_a_full_segment(&rt, &mut pair, bytes, 1460, None);
    Ok(())
}

// A's closure takes nothing of the first bytes, and two of the second.
fn closures_take(rt: &(impl Abort), pair: &mut Pair<'_>, first: Vec<u8>, second: Vec<u8>) {
    opens(rt, pair);
    closure_takes(rt, pair, first, 0);
    assert!(rt; pair.socket(Side::A).send_queue() == 0);
    closure_takes(rt, pair, second, 2);
}

// The two bytes arrive. B's closure takes nothing, then one, and a slice the other.
fn closures_read(rt: &(impl Abort), pair: &mut Pair<'_>) {
    emits(rt, pair, Side::A, 3);
    arrives(rt, pair, 3, None);
    let side = Side::B;
    let are_read = [
        reads(pair, &Event::Recv { side, take: 0 }, b""),
        reads(pair, &Event::Recv { side, take: 1 }, b"a"),
        reads(pair, &Event::RecvSlice { side, size: 64 }, b"b"),
    ];
    assert!(rt; are_read == [true; 3] && pair.handed_out(side) == b"ab".as_slice());
}

#[test]
fn closures_that_take_nothing(rt: HostRuntime) -> Result<(), Fail> {
    let alloc = rt.alloc();
    let first = Vec::from_slice(alloc, b"abc")?;
    let second = Vec::from_slice(alloc, b"abc")?;
    let mut room = Room::new();
    let mut pair = room.plain_pair(alloc);
    closures_take(&rt, &mut pair, first, second);
    closures_read(&rt, &mut pair);
    Ok(())
}

// Whether the settings of the socket are those of the test below.
fn is_set(socket: &Socket<'_>) -> bool {
    socket.timeout() == Some(Duration::from_secs(1))
        && socket.ack_delay().is_none()
        && socket.keep_alive() == Some(Duration::from_secs(1))
        && !socket.nagle_enabled()
        && socket.hop_limit() == Some(9)
        && socket.congestion_control() == CongestionControl::None
}

fn set_all(rt: &(impl Abort), pair: &mut Pair<'_>, side: Side) {
    let second = Interval::new(Some(Duration::from_secs(1)));
    for setting in [
        Setting::Timeout(second),
        Setting::AckDelay(Interval::new(None)),
        Setting::KeepAlive(second),
        Setting::Nagle(false),
        Setting::HopLimit(HopLimit::new(Some(9))),
        Setting::Congestion(CongestionControl::None),
        Setting::Pause(true),
    ] {
        sets(rt, pair, side, setting);
    }
    assert!(rt; is_set(pair.socket(side)));
}

#[test]
fn settings_of_a_pair(rt: HostRuntime) -> Result<(), Fail> {
    let mut room = Room::new();
    set_all(&rt, &mut room.plain_pair(rt.alloc()), Side::B);
    Ok(())
}
