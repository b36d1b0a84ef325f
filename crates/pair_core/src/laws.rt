//! What the case tables of a socket come to for the theorem on two streams, as laws: functions whose contracts are the
//! laws and whose bodies are empty. What is proved of a pair stands on them, and looks into no case table of a socket
//! itself. And what is promised of a pair.
ghost use Rattle.std.specs.Prelude.{◌≡◌, ℕ, ◌<◌, ◌≤◌, ◌+◌, ◌-◌, ◌^◌, ◌++◌, List, length, min, max, take, drop};
ghost use Rattle.std.specs.Prelude.{Option, Some, option_map};
ghost use Rattle.ip_wire.specs.declared.endpoint.IpEndpoint.{IpEndpoint};
ghost use Rattle.ip_wire.specs.declared.endpoint.IpListenEndpoint.{IpListenEndpoint};
ghost use Rattle.ip_wire.specs.declared.repr.IpRepr.{IpRepr};
ghost use Rattle.net_base.specs.declared.time.Instant.{Instant};
ghost use Rattle.control_wire.specs.Segment.{Segment};
ghost use Rattle.sock_core.specs.Facts.{Facts};
ghost use Rattle.sock_core.specs.Places.{number_at};
ghost use Rattle.sock_core.specs.Received.{room_of};
ghost use Rattle.sock_tcp.specs.Rfc.Numbers.{reply_numbered};
ghost use Rattle.sock_tcp.specs.Queue.{IsLent};
ghost use Rattle.sock_tcp.specs.View.{View, FinSays, moment_of};
ghost use Rattle.sock_tcp.specs.Opening.{listened, connected};
ghost use Rattle.sock_tcp.specs.Queues.{queued, read_off};
ghost use Rattle.pair_core.specs.Settings.{set_in};
ghost use Rattle.pair_core.specs.declared.setting.Setting.{Setting};
ghost use Rattle.sock_tcp.specs.Process.{Accepts, processed};
ghost use Rattle.sock_tcp.specs.Begin.{before_emit};
ghost use Rattle.sock_tcp.specs.Content.{Sending, asked, offset_of, content};
ghost use Rattle.sock_tcp.specs.Window.{accepted_window};
ghost use Rattle.tcp_laws.specs.Polling.{IsReached};
ghost use Rattle.sock_tcp.specs.declared.tuple.Tuple.{Tuple};
ghost use Rattle.pair_core.specs.NetworkRuns.{Reaches, start, unopened};
ghost use Rattle.pair_core.specs.PairAgrees.{SynchronizedSidesAgree};
ghost use Rattle.pair_core.specs.PairInvariant.{IsPair, IsSized};
ghost use Rattle.pair_core.specs.PairLaws.{IsBounded, MayEmit};
ghost use Rattle.pair_core.specs.PairNetwork.{is_passive, network_of, shown, stream_segment, IsSmall};
ghost use Rattle.pair_core.specs.PairPromises.{Prefix, Release, IsPromptAt, in_window};
ghost use Rattle.pair_core.specs.PairQuiet.{NeverSleeps, NoWorkMeansTaken};
ghost use Rattle.pair_core.specs.PairRuns.{EventRun};
ghost use Rattle.pair_core.specs.PairSteps.{EventStep};
ghost use Rattle.pair_core.specs.PairStreams.{AddsUp, accepted_by, accepted_in, handed_out_by, handed_out_in};
ghost use Rattle.pair_core.specs.PairViews.{PairView, host_of, new_host, new_pair};
ghost use Rattle.pair_core.specs.SocketCalls.{IsCalled};
ghost use Rattle.pair_core.specs.StreamCalls.{ProcessEffect, DispatchEffect};
ghost use Rattle.pair_core.specs.StreamViews.{Listening, SynSent};
ghost use Rattle.pair_core.specs.declared.event.Event.{Event};
ghost use Rattle.pair_core.specs.declared.event.Event.TheVariants.{Deliver};
ghost use Rattle.pair_core.specs.declared.moment.Moment.{Moment};
ghost use Rattle.pair_core.specs.declared.outcome.Outcome.{Outcome};
ghost use Rattle.pair_core.specs.declared.side.Side.{Side};

use sock_tcp::TsvalSource;

/// What `process` does with a segment that the socket accepts, and what it answers, is one of its effects on the
/// streams. The answer has any stamps.
pub fn process_heard()
    ensures { (v : View) (now : Instant) (word : ℕ) (ip : IpRepr) (s : Segment)
        (released taken released_then taken_then : ℕ)
        → word < 2 ^ 32 → IsSmall s → room_of v.rx_buffer ≤ 2 ^ 30 → FinSays v.state v.rx_fin_received → IsBounded v
        → Accepts v ip s
        → ProcessEffect (is_passive v) (shown v) (shown (processed v now word ip s).view)
        (stream_segment s released taken)
        (option_map (λ r. stream_segment r released_then taken_then)
        (reply_numbered (processed v now word ip s).view (processed v now word ip s).reply)) }
{}

/// What a dispatch does before it emits anything changes nothing that the streams see, moves SND.NXT back to SND.UNA
/// for a retransmission, or ends the connection: the user timeout is over, TIME-WAIT is, or the socket's address is
/// gone.
pub fn begun_shows()
    ensures { (v : View) (f : Facts) → IsBounded v
        → DispatchEffect (shown v) (shown (before_emit v f).view) }
{}

/// What a dispatch emits, with any timestamp and any bytes that the ring lent, and the number that it has by the
/// socket's rules, may be emitted; and an emit that
/// succeeds leaves what may be left.
pub fn emission_plans()
    ensures { (v : View) (released taken : ℕ) → IsBounded v → (t : Tuple) (f : Facts) (stamp : Option ℕ)
        (bytes : List ℕ) → IsLent v.tx_buffer (offset_of v) (asked v t f) bytes
        → (c : Sending) → content v t f stamp bytes ≡ Some c → MayEmit v c (moment_of f) released taken }
{}

/// A socket that `listen` opened shows no more than that it listens.
pub fn listened_shows()
    ensures { (v : View) (e : IpListenEndpoint) → shown (listened v e) ≡ record unopened.view { phase = Listening } }
{}

/// A socket that `connect` opened shows its initial sequence number, the word that was drawn.
pub fn connected_shows()
    ensures { (v : View) (t : Tuple) (word : ℕ)
        → shown (connected v t word) ≡ record unopened.view { phase = SynSent; snd_una = word; snd_nxt = word } }
{}

/// `send_slice` and `send` append to the transmit queue, and change nothing else that the streams see.
pub fn queued_shows()
    ensures { (v : View) (n : ℕ) (bs : List ℕ)
        → shown (queued v n bs) ≡ record (shown v) { transmit_queue = v.tx_buffer.bytes ++ take n bs } }
{}

/// The streams see no setting.
pub fn settings_show_nothing()
    ensures { (s : Setting) (v : View) → shown (set_in s v) ≡ shown v }
{}

/// `recv_slice` and `recv` take off the front of the receive queue, and RCV.NXT stays where it is.
pub fn read_shows()
    ensures { (v : View) (n : ℕ) → n ≤ length v.rx_buffer.bytes
        → shown (read_off v n) ≡ record (shown v) { receive_queue = drop n v.rx_buffer.bytes } }
{}

/// Of every pair, both ways: what one side handed out, followed by its receive queue, is a prefix of what the other
/// accepted; acknowledgements released only bytes that the other took, and it took only bytes that were accepted.
pub fn pairs_deliver_in_order<G>()
    ensures prefix { (p : PairView G) → IsPair p → Prefix p }
    ensures release { (p : PairView G) → IsPair p → Release p }
{}

/// A delivery that a side accepts, of a segment in order, appends the bytes of it that lie in the window in which the
/// side takes segments to the receive queue before it returns, and behind them what was held there.
pub fn pairs_deliver_at_once<G: TsvalSource>()
    ensures { (i : ℕ) (m : Moment) (p q : PairView G) (o : Outcome) → EventStep G.tells (Deliver i m) p o q
        → IsPromptAt i m p o q }
{}

/// The bytes of a segment that this promise speaks of are those between the edges of the window: of a segment at the
/// place `n`, and a window from the place `l` up to the place `r`, the bytes from the greater of `l` and `n` up to the
/// lesser of `r` and the segment's end.
pub fn in_window_is_that_of_places()
    ensures { (v : View) (s : Segment) (origin l r n : ℕ) → (accepted_window v.rules v).start.0 ≡ number_at origin l
        → (accepted_window v.rules v).end.0 ≡ number_at origin r → s.seq_number.0 ≡ number_at origin n
        → l ≤ r → r < l + 2 ^ 30 → n < l + 2 ^ 30 → l < n + 2 ^ 30 → length s.payload ≤ 65535 → n ≤ r
        → l ≤ n + length s.payload
        → in_window v s ≡ take (min (n + length s.payload) r - max l n) (drop (max l n - n) s.payload) }
{}

/// Each event of a pair is a run of steps of the theorem on two streams, from the network that the pair shows to the
/// one that it shows afterwards; and a new pair shows the network of two sockets that were never opened.
pub fn events_are_runs<G: TsvalSource>()
    ensures begins { (v w : View) (a b : IpEndpoint) (x y : Option G) (limit : Option ℕ)
        → network_of (new_pair (new_host v a x) (new_host w b y) limit) ≡ start limit }
    ensures step { (e : Event) (p : PairView G) (o : Outcome) (q : PairView G) → IsPair p → IsSized e p
        → EventStep G.tells e p o q → Reaches (network_of p) (network_of q) }
{}

/// What an event adds to the streams of each side is what its outcome says: `Accepted(n)` the first n bytes of a send,
/// `Read` its bytes, any other outcome nothing. So it is with events in turn.
pub fn outcomes_add_up<G: TsvalSource>()
    ensures step { (e : Event) (p : PairView G) (o : Outcome) (q : PairView G) → EventStep G.tells e p o q
        → AddsUp p q (λ s. accepted_by s e o) (λ s. handed_out_by s e o) }
    ensures run { (es : List Event) (p : PairView G) (os : List Outcome) (q : PairView G) → EventRun G.tells es p os q
        → AddsUp p q (λ s. accepted_in s es os) (λ s. handed_out_in s es os) }
{}

/// Each event of a pair is one call on each of its sockets, or none, in the words of the law on any list of calls of
/// one socket (`Step`), by the rules of the socket. So each socket of a pair is what some list of calls makes of a new
/// one.
pub fn events_are_calls<G: TsvalSource>()
    ensures step { (e : Event) (p : PairView G) (o : Outcome) (q : PairView G) → IsPair p → IsSized e p
        → EventStep G.tells e p o q → (s : Side) → IsCalled (host_of s p).control_block (host_of s q).control_block }
    ensures reached { (p : PairView G) → IsPair p → (s : Side) → IsReached (host_of s p).control_block }
{}

/// Where a side of a pair is not CLOSED and has no work (`has_work`), the other side took every byte that it ever
/// accepted, and all of them were acknowledged. So a pair whose connection lasts and whose sides both have no work has
/// delivered all.
pub fn no_work_means_taken<G>()
    ensures of_a { (p : PairView G) → IsPair p → NoWorkMeansTaken p.a p.b }
    ensures of_b { (p : PairView G) → IsPair p → NoWorkMeansTaken p.b p.a }
{
    tcp_laws::poll::no_work_no_bytes()
}

/// With the RFCs' rules a side of a pair that has work to do always has a moment: `poll_at` does not answer `Ingress`.
pub fn sides_never_sleep<G>()
    ensures { (p : PairView G) → IsPair p → (s : Side) → NeverSleeps (host_of s p) }
{
    tcp_laws::poll::never_sleeps_by_rfc()
}

/// The two sides of a pair agree on the numbers of both streams (`SidesAgree`), where the one sends and the other is in
/// ESTABLISHED or behind it: what the receiver handed out, what waits there, and what of the transmit queue it has not
/// taken are together what the sender accepted.
pub fn sides_agree<G>()
    ensures of_a { (p : PairView G) → IsPair p → SynchronizedSidesAgree p.a p.b }
    ensures of_b { (p : PairView G) → IsPair p → SynchronizedSidesAgree p.b p.a }
{}
