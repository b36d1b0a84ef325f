//! What is promised of one socket beyond its case tables, as laws: functions whose contracts are the laws. Their bodies
//! are empty, or the one call that the law speaks of.
ghost use Rattle.std.specs.Prelude.{ℕ, ◌≡◌, ◌+◌, ◌≤◌, ◌<◌, ◌^◌, Bool, List, Option, length, is_ok, false};
ghost use Rattle.std.specs.Fn.{FnOnceReturnsAt, FnOnceReturnsAtMut};
ghost use Rattle.ip_wire.specs.declared.repr.IpRepr.{IpRepr};
ghost use Rattle.net_base.specs.Ring.{Ring};
ghost use Rattle.net_base.specs.declared.time.Duration.{Duration};
ghost use Rattle.net_base.specs.declared.time.Instant.{Instant};
ghost use Rattle.control_wire.specs.Segment.{Segment, segment_of};
ghost use Rattle.sock_core.specs.Estimator.{bounded_below};
ghost use Rattle.sock_core.specs.Received.{receiving, room_of};
ghost use Rattle.sock_tcp.specs.Closing.{aborted, closed, keep_alive_set};
ghost use Rattle.tcp_laws.specs.Laws.{MayTake};
ghost use Rattle.tcp_laws.specs.Polling.{IsReached};
ghost use Rattle.sock_tcp.specs.Opening.{Connects, Listens};
ghost use Rattle.sock_tcp.specs.Process.{source_kept, processed, Accepts, Processes};
ghost use Rattle.sock_tcp.specs.PathMtu.{path_mtu_set};
ghost use Rattle.sock_tcp.specs.Queue.{queue_of};
ghost use Rattle.sock_tcp.specs.Queues.{SendsWith, ReadsWith};
ghost use Rattle.tcp_laws.specs.SocketBytes.{begins, KeepsPlaces};
ghost use Rattle.tcp_laws.specs.SocketRun.{Counts, Step, Run, Promised, starting, DispatchesOut};
ghost use Rattle.tcp_laws.specs.SocketRun.{any_filling, answer_of, any_taking, read_answer_of};
ghost use Rattle.tcp_laws.specs.SocketRun.{IsNumbered, after_segment, opens_listener, starting_if};
ghost use Rattle.sock_tcp.specs.Replies.{IsReplyStamp, echoed};
ghost use Rattle.sock_tcp.specs.Settings.{of_kind};
ghost use Rattle.sock_tcp.specs.View.{View, fresh};
ghost use Rattle.sock_tcp.specs.declared.rules.Rules.{Rules};
ghost use Rattle.sock_tcp.specs.declared.settings.CongestionControl.{CongestionControl};

use control_wire::TcpRepr;
use ip_wire::{IpEndpoint, IpListenEndpoint, IpRepr};
use sock_core::Context;
use sock_tcp::{ConnectError, ListenError, RecvError, Reply, SendError, Socket, TsvalSource};

/// A segment, whichever it is, does nothing to the receive buffer but that its in-window bytes come at their offset
/// from RCV.NXT: the receive queue is only appended to.
pub fn process_only_appends()
    ensures { (v : View) (now : Instant) (word : ℕ) (ip : IpRepr) (s : Segment)
        → room_of v.rx_buffer ≤ 2 ^ 30 → s.seq_number.0 < 2 ^ 32 → length s.payload ≤ 65535
        → MayTake v.rules v s (processed v now word ip s).view }
{}

/// The promise of one socket. After any list of calls on a new socket over any two buffers, with any segments that
/// `accepts` lets in, those of a hostile peer too, and while its connection lasts (from `listen`, `connect` or a return
/// to LISTEN up to the next reset or such return; all counts then begin anew, with what stands in the queues: nothing
/// after a reset, and what the connection left after a return to LISTEN, which empties neither queue):
///
/// - the transmit queue is what the sending calls accepted, less the bytes that were released from its beginning;
/// - what joined the receive queue is what the receiving calls handed out, followed by the receive queue, and the place
///   behind it holds no byte, so that the queue is all of what came without a gap;
/// - whatever segment comes next, the receive queue is only appended to, and no byte of it changes;
/// - whatever the next `dispatch` sends, a keep-alive aside: a payload at the number n is the part of what was accepted
///   that begins n - SND.UNA bytes behind the released ones.
pub fn one_socket_keeps_its_streams()
    ensures { (rx tx : Ring ℕ) (w : View) (j : Counts)
        → length rx.queue + length rx.spare ≤ 2 ^ 30
        → Run (fresh (receiving rx) (queue_of tx)) (starting (fresh (receiving rx) (queue_of tx))) w j
        → Promised w j }
{}

/// The bytes of the peer's stream by their places, counted from the first that joined the receive queue, at any call
/// after any list of calls on a new socket, while its connection lasts: each byte that joined stays at its place, and
/// each that is held behind a gap stays at its own until it joins, but where a segment brings a later copy. Only a
/// segment brings bytes: the part of it that lies inside the receive window, or none of it.
pub fn bytes_stay_at_their_places()
    ensures { (rx tx : Ring ℕ) (v w : View) (k j : Counts)
        → length rx.queue + length rx.spare ≤ 2 ^ 30
        → Run (fresh (receiving rx) (queue_of tx)) (starting (fresh (receiving rx) (queue_of tx))) v k
        → (s : Step v k w j)
        → begins v k w j s ≡ false
        → KeepsPlaces v k w j s }
{}

/// A receive buffer that is not of 0 bytes has room for one unit of the socket's window field, after any list of calls
/// on a new socket. So once all of it was read, and none of it is held, it tells a window above 0 (RFC 7323,
/// section 2.3).
pub fn window_unit_fits()
    ensures { (v : View) → IsReached v → 0 < room_of v.rx_buffer
        → 2 ^ v.remote_win_shift ≤ room_of v.rx_buffer }
{}

/// A `dispatch` in the words of the law on lists of calls: there is a segment, or none, that the socket sends, and
/// `emit` is called once with it, or not at all.
pub fn dispatch_sends<
    G: TsvalSource,
    C: Context,
    E,
    F: FnOnce(&mut C, (IpRepr, TcpRepr<'_>)) -> Result<(), E>,
>(socket: &mut Socket<'_, G>, cx: &mut C, emit: F) -> Result<(), E>
    requires callable { F.IsAlwaysCallable emit }
    ensures { DispatchesOut F.FnOnce emit (C.facts cx.old) socket.old.control_block cx.old result
        socket.new.control_block cx.new }
{
    socket.dispatch(cx, emit)
}

/// A `send` in the words of that law: as for a closure of which nothing is known.
pub fn send_accepts<G, R, F: FnOnce(&mut [u8]) -> (usize, R)>(
    socket: &mut Socket<'_, G>,
    f: F,
) -> Result<R, SendError>
    requires callable { F.IsAlwaysCallable f }
    requires sized { (s : List ℕ) (r : _) (s' : List ℕ) → FnOnceReturnsAtMut F.FnOnce f s r s' → r.0 ≤ length s }
    ensures { SendsWith any_filling socket.old.control_block (answer_of result) socket.new.control_block }
{
    socket.send(f)
}

/// A `recv` in the words of that law: as for a closure of which nothing is known.
pub fn recv_hands_out<G, R, F: FnOnce(&[u8]) -> (usize, R)>(
    socket: &mut Socket<'_, G>,
    f: F,
) -> Result<R, RecvError>
    requires callable { F.IsAlwaysCallable f }
    requires sized { (s : List ℕ) (r : _) → FnOnceReturnsAt F.FnOnce f s r → r.0 ≤ length s }
    ensures { ReadsWith any_taking socket.old.control_block (read_answer_of result) socket.new.control_block }
{
    socket.recv(f)
}

/// A `listen` as a call of that law: where it opens the socket the counts begin anew, and else nothing is counted.
pub fn listen_opens<G>(
    socket: &mut Socket<'_, G>,
    local: IpListenEndpoint,
) -> Result<(), ListenError>
    ensures table { Listens socket.old.control_block local result socket.new.control_block }
    ensures generator { socket.new.tsval_generator ≡ socket.old.tsval_generator }
    ensures call { (k : Counts) → Step socket.old.control_block k socket.new.control_block
        (starting_if (opens_listener socket.old.control_block local) socket.new.control_block k) }
{
    socket.listen(local)
}

/// A `connect` as a call of that law: where it answers Ok the counts begin anew, and else nothing is counted.
pub fn connect_opens<G, C: Context>(
    socket: &mut Socket<'_, G>,
    cx: &mut C,
    remote: IpEndpoint,
    local: IpListenEndpoint,
) -> Result<(), ConnectError>
    ensures table { Connects C.facts C.word_at socket.old.control_block cx.old remote local result
        socket.new.control_block cx.new }
    ensures generator { socket.new.tsval_generator ≡ socket.old.tsval_generator }
    ensures call { (k : Counts) → Step socket.old.control_block k socket.new.control_block
        (starting_if (is_ok result) socket.new.control_block k) }
{
    socket.connect(cx, remote, local)
}

/// A `close` as a call of that law: nothing is counted.
pub fn close_ends<G>(socket: &mut Socket<'_, G>)
    ensures control_block { socket.new.control_block ≡ closed socket.old.control_block }
    ensures generator { socket.new.tsval_generator ≡ socket.old.tsval_generator }
    ensures call { (k : Counts) → Step socket.old.control_block k socket.new.control_block k }
{
    socket.close();
}

/// An `abort` as a call of that law: nothing is counted.
pub fn abort_resets<G>(socket: &mut Socket<'_, G>)
    ensures control_block { socket.new.control_block ≡ aborted socket.old.control_block }
    ensures generator { socket.new.tsval_generator ≡ socket.old.tsval_generator }
    ensures call { (k : Counts) → Step socket.old.control_block k socket.new.control_block k }
{
    socket.abort();
}

// The numbers of a segment have 32 bits.
fn numbers_fit(repr: &TcpRepr<'_>)
    ensures { IsNumbered (segment_of repr.now) }
{
    repr.seq_number.in_range(); // for its contract
    if let Some(ack) = repr.ack_number {
        ack.in_range(); // for its contract
    }
}

/// A `process` as a call of that law: what joins the receive queue and what leaves the transmit queue is counted, and
/// where the socket listens again the counts begin anew.
pub fn process_receives<G: TsvalSource, C: Context>(
    socket: &mut Socket<'_, G>,
    cx: &mut C,
    ip_repr: &IpRepr,
    repr: &TcpRepr<'_>,
) -> Option<Reply>
    requires accepted { Accepts socket.old.control_block ip_repr.now (segment_of repr.now) }
    requires small { length repr.now.payload.now ≤ 65535 }
    ensures table { Processes C.facts C.word_at
        (IsReplyStamp G.tells socket.new.tsval_generator (echoed socket.new.control_block repr.now.timestamp))
        socket.old.control_block cx.old ip_repr.now (segment_of repr.now) result socket.new.control_block cx.new }
    ensures generator { socket.new.tsval_generator
        ≡ source_kept socket.new.control_block.stamps socket.old.tsval_generator }
    ensures call { (k : Counts) → Step socket.old.control_block k socket.new.control_block
        (after_segment k socket.old.control_block socket.new.control_block) }
{
    numbers_fit(repr);
    socket.process(cx, ip_repr, repr)
}

/// Each setter as a call of that law, by what its contract says of the socket: nothing is counted. The source of
/// timestamps itself is no part of a socket's control block, but whether there is one.
pub fn settings_are_calls()
    ensures congestion_control { (v : View) (k : Counts) (x : CongestionControl)
        → Step v k (record v { congestion_controller = of_kind x }) k }
    ensures timeout { (v : View) (k : Counts) (x : Option Duration) → Step v k (record v { timeout = x }) k }
    ensures ack_delay { (v : View) (k : Counts) (x : Option Duration) → Step v k (record v { ack_delay = x }) k }
    ensures nagle { (v : View) (k : Counts) (x : Bool) → Step v k (record v { nagle = x }) k }
    ensures keep_alive { (v : View) (k : Counts) (x : Option Duration) → Step v k (keep_alive_set v x) k }
    ensures hop_limit { (v : View) (k : Counts) (x : Option ℕ) → Step v k (record v { hop_limit = x }) k }
    ensures pause { (v : View) (k : Counts) (x : Bool) → Step v k (record v { synack_paused = x }) k }
    ensures generator { (v : View) (k : Counts) (x : Bool) → Step v k (record v { stamps = x }) k }
    ensures rules { (v : View) (k : Counts) (x : Rules) (d : Option Duration)
        → Step v k (record v { rules = x; timeout = d }) k }
    ensures min_rto { (v : View) (k : Counts) (x : ℕ) → Step v k (record v { rtte = bounded_below v.rtte x }) k }
    ensures path_mtu { (v : View) (k : Counts) (now : Instant) (mtu : ℕ) → Step v k (path_mtu_set v now mtu) k }
{}
