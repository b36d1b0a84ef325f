//! One side of a pair: its socket, and what it accepted and handed out.
ghost use Rattle.std.specs.Prelude.{◌≡◌, ◌+◌, ◌-◌, ◌≤◌, ◌<◌, ◌^◌, ◌++◌, ◌↔◌, IsTrue, length, option_map, Some, []};
ghost use Rattle.std.specs.Prelude.{not, false, IfOk, OnOk, OnErr, vec_len, vec_capacity, min, max, take, true};
ghost use Rattle.std.specs.Prelude.{MatchOption, None, is_some};
ghost use Rattle.std.specs.Option.{ForSome};
ghost use Rattle.control_wire.specs.Fits.{FitsPacket};
ghost use Rattle.control_wire.specs.Segment.{segment_of};
ghost use Rattle.sock_core.specs.Received.{receiving};
ghost use Rattle.sock_tcp.specs.View.{fresh};
ghost use Rattle.sock_tcp.specs.Queue.{queue_of};
ghost use Rattle.sock_tcp.specs.Process.{Accepts, processed, reply_of, source_kept};
ghost use Rattle.sock_tcp.specs.Rfc.Numbers.{reply_numbered};
ghost use Rattle.sock_tcp.specs.Replies.{Answers, IsReplyStamp, echoed};
ghost use Rattle.pair_core.specs.Moments.{facts_of};
ghost use Rattle.pair_core.specs.Holding.{stored_of};
ghost use Rattle.pair_core.specs.PairSteps.{ReadTakesMemory, closed_by_segment, processed_at};
ghost use Rattle.pair_core.specs.Pieces.{SendsPiece, ReceivesPiece};
ghost use Rattle.pair_core.specs.Captures.{Holds, FitsSent, SocketDispatches};
ghost use Rattle.pair_core.specs.PairNetwork.{phase_of};
ghost use Rattle.pair_core.specs.PairViews.{new_host};
ghost use Rattle.pair_core.specs.StreamViews.{is_fin_queued};
ghost use Rattle.pair_core.specs.Settings.{set_in};

use crate::capture::{Capture, EmitFailed, Sent};
use crate::moment::Moment;
use crate::outcome::{Outcome, PairError};
use crate::segment::Segment;
use crate::setting::Setting;
use crate::wire::Counts;
use control_wire::{TcpRepr, TcpTimestampGenerator};
use ip_wire::{IpEndpoint, IpListenEndpoint, IpRepr};
use sock_tcp::{Generator, RecvError, Reply, SendError, Socket, SocketBuffer, State, TsvalSource};
use std::alloc::Global;
use std::marker::Model;

/// How a side was opened.
#[derive(Debug, Clone, Copy, PartialEq, Eq)]
pub enum Opening {
    Unopened,
    Listener,
    Connector,
}

/// A call that takes nothing, or a setting.
#[derive(Clone, Copy)]
pub enum Call {
    Listen,
    Close,
    Abort,
    Set(Setting),
}

// The type parameter is the socket's: contracts see the source of timestamps as a value of that type, since a function
// pointer cannot stand in a value itself.
#[derive(Debug, Drop)]
pub(crate) struct Host<'a, G = Generator> {
    pub(crate) socket: Socket<'a, G>,
    pub(crate) endpoint: IpEndpoint,
    pub(crate) opening: Opening,
    pub(crate) accepted: Vec<u8>,
    pub(crate) handed_out: Vec<u8>,
    pub(crate) released: u64,
    pub(crate) taken: u64,
    pub(crate) closed: bool,
}

impl<'a, G> Model for Host<'a, G> {
    ghost use Rattle.pair_core.specs.PairViews.{HostView};

    ghost Value = { HostView G };

    ghost view = { λ h. record {
      control_block = h.socket.control_block;
      endpoint = h.endpoint;
      opening = h.opening;
      accepted = h.accepted.items;
      handed_out = h.handed_out.items;
      released = h.released;
      taken = h.taken;
      closed = h.closed;
      source = h.socket.tsval_generator;
    } };
}

impl<'a> Host<'a> {
    pub(crate) fn new(
        alloc: Global,
        rx: SocketBuffer<'a>,
        tx: SocketBuffer<'a>,
        endpoint: IpEndpoint,
        generator: Option<TcpTimestampGenerator>,
    ) -> Host<'a>
        requires rx { length rx.queue + length rx.spare ≤ 2 ^ 30 }
        requires tx { length tx.queue + length tx.spare ≤ 2 ^ 30 }
        requires generator { MatchOption generator (Unit {0}) (λ g. IsAlwaysCallable g) }
        ensures host { result ≡ new_host (fresh (receiving rx.entry) (queue_of tx.entry)) endpoint result.source }
        ensures source { option_map (λ g. g.call) result.source ≡ generator }
    {
        let mut host = Host::without_timestamps(alloc, rx, tx, endpoint);
        host.socket.set_tsval_generator(generator);
        host
    }
}

impl<'a, G> Host<'a, G> {
    pub(crate) fn without_timestamps(
        alloc: Global,
        rx: SocketBuffer<'a>,
        tx: SocketBuffer<'a>,
        endpoint: IpEndpoint,
    ) -> Host<'a, G>
        requires rx { length rx.queue + length rx.spare ≤ 2 ^ 30 }
        requires tx { length tx.queue + length tx.spare ≤ 2 ^ 30 }
        ensures { result ≡ new_host (fresh (receiving rx.entry) (queue_of tx.entry)) endpoint None }
    {
        Host {
            socket: Socket::closed(rx, tx, None),
            endpoint,
            opening: Opening::Unopened,
            accepted: Vec::new(alloc),
            handed_out: Vec::new(alloc),
            released: 0,
            taken: 0,
            closed: false,
        }
    }
}

impl<'a, G: TsvalSource> Host<'a, G> {
    ghost use Rattle.sock_tcp.specs.Queues.{may_send};
    ghost use Rattle.pair_core.specs.PairCalls.{listening, connecting, OpensAs, SendsIf, Receives, Closes, Aborts};
    ghost use Rattle.pair_core.specs.PairCalls.{Calls, Sets};
    ghost use Rattle.pair_core.specs.PairSteps.{HostDispatches};
    ghost use Rattle.pair_core.specs.PairInvariant.{IsSocket, IsHost, IsReachable};
    ghost use Rattle.ip_wire.specs.Address.{SameVersion};

    pub(crate) fn endpoint(&self) -> IpEndpoint
        ensures { result ≡ self.now.endpoint }
    {
        self.endpoint
    }

    pub(crate) fn counts(&self) -> Counts
        ensures released { result.released ≡ self.now.released }
        ensures taken { result.taken ≡ self.now.taken }
    {
        Counts {
            released: self.released,
            taken: self.taken,
        }
    }

    // Says what its socket keeps, and that the bytes accepted are fewer than 2^63.
    pub(crate) fn in_range(&self)
        ensures socket { IsSocket self.now.control_block }
        ensures accepted { length self.now.accepted < 2 ^ 63 }
    {
        // each for its contract
        self.socket.recv_queue();
        self.socket.send_queue();
        self.socket.state();
        self.accepted.len();
    }

    fn listen_endpoint(&self) -> IpListenEndpoint
        ensures addr { result.addr ≡ Some self.now.endpoint.addr }
        ensures port { result.port ≡ self.now.endpoint.port }
    {
        IpListenEndpoint {
            addr: Some(self.endpoint.addr),
            port: self.endpoint.port,
        }
    }

    fn listen(&mut self) -> Outcome
        requires { IsHost self.old }
        ensures { OpensAs self.old.opening self.old (listening self.old) result self.new }
    {
        if self.opening != Opening::Unopened {
            return Outcome::AlreadyOpened;
        }
        let endpoint = self.listen_endpoint();
        let _ = self.socket.listen(endpoint);
        self.opening = Opening::Listener;
        Outcome::Opened
    }

    pub(crate) fn connect(&mut self, moment: &Moment, remote: IpEndpoint) -> Outcome
        requires host { IsHost self.old }
        requires remote { IsReachable remote }
        requires versions { SameVersion self.old.endpoint.addr remote.addr }
        ensures { OpensAs self.old.opening self.old (connecting self.old moment.entry.now remote) result self.new }
    {
        if self.opening != Opening::Unopened {
            return Outcome::AlreadyOpened;
        }
        let endpoint = self.listen_endpoint();
        let mut cx = *moment;
        let _ = self.socket.connect(&mut cx, remote, endpoint);
        self.opening = Opening::Connector;
        Outcome::Opened
    }

    pub(crate) fn accepted_len(&self) -> usize
        ensures { result ≡ length self.now.accepted }
    {
        self.accepted.len()
    }

    // What fits of the bytes, once there is room to keep all of them: by `send_slice`, or by `send` where the closure
    // takes at most so many.
    pub(crate) fn send(&mut self, bytes: &[u8], take: Option<usize>) -> Result<Outcome, PairError>
        ensures step { IfOk result
            (λ o. SendsIf (may_send self.old.control_block.state) take bytes.now self.old o self.new) }
        ensures memory { OnErr result (self.new ≡ self.old) }
    {
        if let Err(_) = self.accepted.reserve(bytes.len()) {
            return Err(PairError::Memory);
        }
        let sent = match take {
            None => self.socket.send_slice(bytes),
            Some(size) => send_piece(&mut self.socket, bytes, size),
        };
        match sent {
            Err(e) => Ok(Outcome::SendRefused(e)),
            Ok(count) => {
                append(&mut self.accepted, &bytes[..count]);
                Ok(Outcome::Accepted(count))
            }
        }
    }

    // At most so many bytes of the queue, once there is room to keep and to answer them: by `recv`, which takes one
    // piece, or by `recv_slice`.
    pub(crate) fn recv(
        &mut self,
        alloc: Global,
        size: usize,
        piece: bool,
    ) -> Result<Outcome, PairError>
        ensures step { IfOk result (λ o. Receives piece size self.old o self.new) }
        ensures memory { OnErr result (self.new ≡ self.old) }
        ensures takes_memory { OnErr result (ReadTakesMemory size self.old) }
    {
        if piece {
            self.recv_piece(alloc, size)
        } else {
            self.recv_slice(alloc, size)
        }
    }

    fn recv_slice(&mut self, alloc: Global, size: usize) -> Result<Outcome, PairError>
        ensures step { IfOk result (λ o. Receives false size self.old o self.new) }
        ensures memory { OnErr result (self.new ≡ self.old) }
        ensures takes_memory { OnErr result (ReadTakesMemory size self.old) }
    {
        let count = size.min(self.socket.recv_queue());
        let Ok(mut bytes) = room(&mut self.handed_out, alloc, count) else {
            return Err(PairError::Memory);
        };
        match self.socket.recv_slice(bytes.as_mut_slice()) {
            Err(e) => Ok(Outcome::RecvRefused(e)),
            Ok(_) => {
                append(&mut self.handed_out, bytes.as_slice());
                Ok(Outcome::Read(bytes))
            }
        }
    }

    fn recv_piece(&mut self, alloc: Global, size: usize) -> Result<Outcome, PairError>
        ensures step { IfOk result (λ o. Receives true size self.old o self.new) }
        ensures memory { OnErr result (self.new ≡ self.old) }
        ensures takes_memory { OnErr result (ReadTakesMemory size self.old) }
    {
        let count = size.min(self.socket.recv_queue());
        let bytes = room(&mut self.handed_out, alloc, count)?;
        match take_piece(&mut self.socket, bytes) {
            Err(e) => Ok(Outcome::RecvRefused(e)),
            Ok(bytes) => {
                append(&mut self.handed_out, bytes.as_slice());
                Ok(Outcome::Read(bytes))
            }
        }
    }

    // A close in ESTABLISHED or CLOSE-WAIT is what ends the side's stream; one of SYN-RECEIVED may wait for a delivery.
    fn close(&mut self) -> Outcome
        ensures { Closes self.old result self.new }
    {
        if self.socket.may_send() {
            self.closed = true;
        }
        self.socket.close();
        Outcome::Done
    }

    fn abort(&mut self) -> Outcome
        ensures { Aborts self.old result self.new }
    {
        self.socket.abort();
        Outcome::Done
    }

    fn set(&mut self, setting: Setting) -> Outcome
        ensures { Sets setting self.old result self.new }
    {
        set(&mut self.socket, setting);
        Outcome::Done
    }

    pub(crate) fn call(&mut self, call: Call) -> Outcome
        requires { IsHost self.old }
        ensures { Calls call self.old result self.new }
    {
        match call {
            Call::Listen => self.listen(),
            Call::Close => self.close(),
            Call::Abort => self.abort(),
            Call::Set(setting) => self.set(setting),
        }
    }

    // How many bytes the payload of a dispatch has at most: no more than are queued, or the one of a keep-alive, and no
    // more than the largest IP packet. Where nothing is queued, a dispatch asks for a byte of memory, and not for a
    // packet.
    pub(crate) fn payload_at_most(&self, moment: &Moment) -> usize
        ensures { result ≡ min moment.entry.now.ip_mtu (max 1 (length self.entry.now.control_block.tx_buffer.bytes)) }
    {
        moment.ip_mtu.min(self.socket.send_queue().max(1))
    }

    // One dispatch, into a room that was made before.
    pub(crate) fn dispatch(&mut self, moment: &Moment, room: Vec<u8>, fail: bool) -> Sent
        requires empty { room.items ≡ [] }
        requires roomy { min moment.now.ip_mtu (max 1 (length self.old.control_block.tx_buffer.bytes))
            ≤ vec_capacity room }
        ensures table { HostDispatches G.tells moment.entry.now fail self.old result self.new }
        ensures fits { FitsSent result }
    {
        let mut capture = Capture {
            moment: *moment,
            header: None,
            payload: room,
        };
        let answer = self.socket.dispatch(
            &mut capture,
            move |cx: &mut Capture, sent: (IpRepr, TcpRepr<'_>)| -> Result<(), EmitFailed>
                ensures kept { OnOk result
                    (IsTrue (not fail) × Holds cx.entry.now cx.exit.now sent.entry.0 (segment_of sent.entry.1)) }
                ensures err { OnErr result
                    (fail ≡ false → vec_capacity cx.entry.now.payload
                    < vec_len cx.entry.now.payload + length sent.entry.1.payload.now) }
            {
                if fail {
                    Err(EmitFailed)
                } else {
                    cx.store(sent.0, sent.1)
                }
            },
        );
        capture.into_sent(answer)
    }

    pub(crate) fn accepts(&self, moment: &Moment, segment: &Segment) -> bool
        ensures { IsTrue result ↔ Accepts self.now.control_block (stored_of segment.now).ip
            (stored_of segment.now).segment }
    {
        let repr = segment.as_repr();
        self.socket.accepts(moment, &segment.header.ip_repr, &repr)
    }
}

impl<'a, G: TsvalSource> Host<'a, G> {
    ghost use Rattle.pair_core.specs.PairSteps.{delivered_to, processed_by, reply_out};

    // A delivery to this side.
    pub(crate) fn deliver(&mut self, moment: &Moment, segment: &Segment) -> Option<Reply>
        requires accepted { Accepts self.old.control_block (stored_of segment.now).ip (stored_of segment.now).segment }
        requires released { self.old.released < 2 ^ 63 }
        requires taken { self.old.taken < 2 ^ 63 }
        ensures view { self.new ≡ delivered_to self.old moment.entry.now (stored_of segment.now) }
        ensures bare { ForSome result (λ r. r.1.payload.now ≡ []) }
        ensures fits { ForSome (option_map reply_of result) (λ r. FitsPacket r.0 r.1) }
        ensures reply { Answers (IsReplyStamp G.tells self.new.source
            (echoed self.new.control_block (stored_of segment.now).segment.timestamp))
            (stored_of segment.now).ip (reply_out self.old moment.entry.now (stored_of segment.now))
            (option_map reply_of result) }
    {
        let before = self.socket.state();
        let unacknowledged = self.socket.send_queue();
        let queued = self.socket.recv_queue();
        let reply = process(&mut self.socket, moment, segment);
        let left = self.socket.send_queue();
        let joined = self.socket.recv_queue();
        self.released += unacknowledged.saturating_sub(left) as u64;
        self.taken += joined.saturating_sub(queued) as u64;
        let after = self.socket.state();
        self.closed = closed_by_segment(before, after, self.closed);
        reply
    }
}

// Whether the own FIN is queued, and not acknowledged.
fn is_fin_queued(state: State) -> bool
    ensures { result ≡ is_fin_queued (phase_of state) }
{
    matches!(state, State::FinWait1 | State::Closing | State::LastAck)
}

// Whether a side counts as closed, once a segment moved its socket's state.
fn closed_by_segment(before: State, after: State, closed: bool) -> bool
    ensures { result ≡ closed_by_segment before after closed }
{
    if is_fin_queued(after) && !is_fin_queued(before) {
        true
    } else {
        closed
    }
}

// One setter of a socket.
fn set<G: TsvalSource>(socket: &mut Socket<'_, G>, setting: Setting)
    ensures view { socket.new.control_block ≡ set_in setting socket.old.control_block }
    ensures generator { socket.new.tsval_generator ≡ socket.old.tsval_generator }
{
    match setting {
        Setting::Timeout(t) => socket.set_timeout(t.duration),
        Setting::AckDelay(t) => socket.set_ack_delay(t.duration),
        Setting::KeepAlive(t) => socket.set_keep_alive(t.duration),
        Setting::Nagle(on) => socket.set_nagle_enabled(on),
        Setting::HopLimit(n) => socket.set_hop_limit(n.hop_limit),
        Setting::Congestion(kind) => socket.set_congestion_control(kind),
        Setting::Pause(on) => socket.pause_synack(on),
        Setting::Rules(rules) => {
            let _ = socket.set_rules(rules);
        }
    }
}

// A stored segment is processed.
fn process<G: TsvalSource>(
    socket: &mut Socket<'_, G>,
    moment: &Moment,
    segment: &Segment,
) -> Option<Reply>
    requires { Accepts socket.old.control_block (stored_of segment.now).ip (stored_of segment.now).segment }
    ensures view { socket.new.control_block
        ≡ (processed_at socket.old.control_block moment.entry.now (stored_of segment.now)).view }
    ensures generator { socket.new.tsval_generator
        ≡ source_kept socket.new.control_block.stamps socket.old.tsval_generator }
    ensures bare { ForSome result (λ r. r.1.payload.now ≡ []) }
    ensures fits { ForSome (option_map reply_of result) (λ r. FitsPacket r.0 r.1) }
    ensures reply { Answers
        (IsReplyStamp G.tells socket.new.tsval_generator
        (echoed socket.new.control_block (stored_of segment.now).segment.timestamp))
        (stored_of segment.now).ip
        (reply_numbered socket.new.control_block
        (processed_at socket.old.control_block moment.entry.now (stored_of segment.now)).reply)
        (option_map reply_of result) }
{
    segment.in_range(); // for its contract
    let mut cx = *moment;
    let repr = segment.as_repr();
    socket.process(&mut cx, &segment.header.ip_repr, &repr)
}

// `send`, whose closure writes what fits of the bytes into the places that it is lent, and takes at most so many.
fn send_piece<G>(socket: &mut Socket<'_, G>, bytes: &[u8], size: usize) -> Result<usize, SendError>
    ensures call { SendsPiece size bytes.now socket.old.control_block result socket.new.control_block }
    ensures generator { socket.new.tsval_generator ≡ socket.old.tsval_generator }
{
    socket.send(
        move |free: &mut [u8]| -> (usize, usize)
            ensures count { result.0 ≡ min size (min (length bytes.entry.now) (length free.old)) }
            ensures same { result.1 ≡ result.0 }
            ensures written { take result.0 free.new ≡ take result.0 bytes.entry.now }
        {
            let count = bytes.len().min(free.len());
            free[..count].copy_from_slice(&bytes[..count]);
            let taken = size.min(count);
            (taken, taken)
        },
    )
}

// `recv`, whose closure copies what fits of the bytes that it is lent into a room that was made before, and takes them.
fn take_piece<G>(socket: &mut Socket<'_, G>, room: Vec<u8>) -> Result<Vec<u8>, RecvError>
    ensures call { ReceivesPiece (vec_len room) socket.old.control_block result socket.new.control_block }
    ensures generator { socket.new.tsval_generator ≡ socket.old.tsval_generator }
{
    socket.recv(
        move |lent: &[u8]| -> (usize, Vec<u8>)
            ensures count { result.0 ≡ min (vec_len room) (length lent.now) }
            ensures read { result.1.items ≡ take result.0 lent.now }
        {
            let count = room.len().min(lent.len());
            let mut bytes = room;
            bytes.truncate(count);
            bytes.as_mut_slice().copy_from_slice(&lent[..count]);
            (count, bytes)
        },
    )
}

// Room for so many bytes that a read hands out, in its answer and in the list of all. Nothing takes no memory.
fn room(handed_out: &mut Vec<u8>, alloc: Global, count: usize) -> Result<Vec<u8>, PairError>
    ensures answer { IfOk result (λ r. vec_len r ≡ count) }
    ensures same { handed_out.new.items ≡ handed_out.old.items }
    ensures room { IfOk result (λ r. vec_len handed_out.new + count ≤ vec_capacity handed_out.new) }
    ensures takes_memory { OnErr result (0 < count) }
{
    if count == 0 {
        return Ok(Vec::new(alloc));
    }
    if let Err(_) = handed_out.reserve(count) {
        return Err(PairError::Memory);
    }
    match vec![in alloc; 0u8; count] {
        Err(_) => Err(PairError::Memory),
        Ok(room) => Ok(room),
    }
}

// Adds bytes for which room was made.
fn append(list: &mut Vec<u8>, bytes: &[u8])
    requires { vec_len list.old + length bytes.now ≤ vec_capacity list.old }
    ensures { list.new.items ≡ list.old.items ++ bytes.now }
{
    let _ = list.extend_from_slice(bytes);
}
