//! The theorem on two streams, as laws: functions whose contracts are the theorem and whose bodies are empty.
//! The definitions stand in `specs/`, and docs/THEOREM.md explains them.
ghost use Rattle.std.specs.Prelude.{◌≡◌, ℕ, ◌+◌, ◌-◌, ◌%◌, ◌<◌, ◌≤◌, ◌^◌, ◌⊎◌, false, List, [], ◌∷◌, length, take};
ghost use Rattle.std.specs.Prelude.{drop, min, max};
ghost use Rattle.std.specs.List.{Contains};
ghost use Rattle.std.specs.declared.option.Option.{Option};
ghost use Rattle.std.specs.declared.option.Option.TheVariants.{Some, None};
ghost use Rattle.sock_core.specs.Places.{number_at, number_distance, number_is_before, later_number};
ghost use Rattle.pair_core.specs.StreamViews.{Listening, Open, SocketView, StreamSegment, HasIss, IsNonSynchronized};
ghost use Rattle.pair_core.specs.StreamEffects.{HearsData, HearsAck, SendsPayload, SendsKeepAlive, SndNxtWithin};
ghost use Rattle.pair_core.specs.StreamTables.{cut, Gathers, JoinsWithHeld, TakesPayload, TakesWhole};
ghost use Rattle.pair_core.specs.StreamTables.{HasSendingBounds, AckPasses, Content};
ghost use Rattle.pair_core.specs.StreamCalls.{ProcessEffect, DispatchEffect, EmitEffect};
ghost use Rattle.pair_core.specs.Network.{Network, Step, swapped, AnswersFinished, Arrives, IsStamped, with_local};
ghost use Rattle.pair_core.specs.Network.{with_view, heard_by, delivered_by, emitted};
ghost use Rattle.pair_core.specs.NetworkInvariant.{IsLimit, IsInvariant};
ghost use Rattle.pair_core.specs.NetworkRuns.{start, Run, Reaches, answered, AreDelivered, AlwaysDelivers};
ghost use Rattle.pair_core.specs.NetworkRuns.{AlwaysCompletes, AlwaysEnds, OnlyAdds};

/// Streams with a limit below 2^29 bytes, over every list of steps, where any segment ever emitted may arrive at any
/// time: what each side handed out, followed by its receive queue, is a prefix of what the other accepted, and
/// acknowledgements released only bytes that the other took; a read that answers `Finished` finds the other side closed
/// and all its bytes handed out; and a closed side accepts nothing more.
pub fn streams_arrive_in_order()
    ensures delivers { (limit : ℕ) → limit < 2 ^ 29 → AlwaysDelivers (Some limit) }
    ensures completes { (limit : ℕ) → limit < 2 ^ 29 → AlwaysCompletes (Some limit) }
    ensures ends { (limit : ℕ) → limit < 2 ^ 29 → AlwaysEnds (Some limit) }
{}

/// Streams of any length arrive in order where a segment arrives only while it is young: neither count of its emitter,
/// of bytes released and of bytes taken, grew by 2^29 or more since its emission.
pub fn long_streams_arrive_in_order()
    ensures delivers { AlwaysDelivers None }
    ensures completes { AlwaysCompletes None }
    ensures ends { AlwaysEnds None }
{}

/// The invariant that carries both theorems: it holds at the start, each step of either side keeps it, and it promises
/// both streams of every network that it holds of.
pub fn the_invariant_is_kept()
    ensures start { (limit : Option ℕ) → IsLimit limit → IsInvariant (start limit) }
    ensures step { (old new : Network) → Step old new → IsInvariant old → IsInvariant new }
    ensures swapped { (w : Network) → IsInvariant w → IsInvariant (swapped w) }
    ensures delivers { (w : Network) → IsInvariant w → AreDelivered w }
{}

/// A step of one side leaves the other side as it was, and forgets no segment, no byte handed out and no count.
pub fn a_step_only_adds()
    ensures { (old new : Network) → Step old new → OnlyAdds old new }
{}

/// The steps are not empty. An ordinary run, of a handshake, one byte, a close and a read, hands out the byte, and the
/// next read answers `Finished`. An abort of the connecting side sends the listener back to LISTEN. Two sides that
/// connect at once both come to send.
pub fn runs_exist()
    ensures ordinary { (way : List Network) × (end : Network) × Run (start (Some 10)) way end
        × (end.remote.handed_out ≡ 7 ∷ []) × AnswersFinished end.remote }
    ensures fall_back { (way : List Network) × (end : Network) × Run (start (Some 10)) way end
        × (end.remote.view.phase ≡ Listening) × (end.remote.view.snd_una ≡ 5000) }
    ensures both_connect { (way : List Network) × (end : Network) × Run (start (Some 10)) way end
        × (end.local.view.phase ≡ Open) × (end.remote.view.phase ≡ Open) }
{}

/// Whole calls are runs of steps, by what they may do to one socket: a delivery with its answer, the beginning of a
/// dispatch, and what that emits and leaves. The calls of the application are steps already.
pub fn calls_are_runs()
    ensures delivery { (w : Network) (g : StreamSegment) (v : SocketView) (answer : Option StreamSegment) → Arrives w g
        → ProcessEffect w.local.listener w.local.view v g answer
        → ((a : StreamSegment) → answer ≡ Some a → IsStamped (heard_by w.local v) a)
        → Reaches w (answered (with_local w (delivered_by w.local v)) answer) }
    ensures beginning { (w : Network) (v : SocketView) → DispatchEffect w.local.view v
        → Reaches w (with_local w (with_view w.local v)) }
    ensures emission { (w : Network) (v : SocketView) (g : StreamSegment) → IsStamped w.local g
        → EmitEffect w.local.view g
        → DispatchEffect w.local.view v → Reaches w (emitted (with_local w (with_view w.local v)) g) }
{}

/// What the invariant says of one socket: SND.UNA and SND.NXT are in their bounds once there is an initial sequence
/// number, and before any byte can have come the receive queue is empty.
pub fn bounds_of_a_socket()
    ensures sending { (w : Network) → IsInvariant w → HasIss w.local.view.phase → HasSendingBounds w.local.view }
    ensures receiving { (w : Network) → IsInvariant w → IsNonSynchronized w.local.view.phase
        → w.local.view.receive_queue ≡ [] }
{}

/// A segment that lies inside the receive window, and that is cut to it and taken as the case tables say, is heard.
pub fn taken_segment_is_heard()
    ensures { (v w : SocketView) (g : StreamSegment) (win : ℕ) → TakesPayload v w g win → HearsData v w g }
{}

/// A segment at RCV.NXT that is taken whole is heard.
pub fn whole_segment_is_heard()
    ensures { (v w : SocketView) (g : StreamSegment) → TakesWhole v w g → HearsData v w g }
{}

/// Bytes that are taken in order join the receive queue at once, followed by the bytes that were held behind them.
pub fn bytes_in_order_join_at_once()
    ensures { (v w : SocketView) (bytes : List ℕ) → Gathers v w 0 bytes → JoinsWithHeld v w bytes }
{}

/// The cut in 32-bit numbers is the cut in places: of a segment at the place `s`, and a window from the place `l` up to
/// the place `r`, the bytes from the greater of `l` and `s` up to the lesser of `r` and the segment's end.
pub fn cut_is_that_of_places()
    ensures { (origin l r s : ℕ) (g : StreamSegment) → g.seq ≡ number_at origin s → l ≤ r → r < l + 2 ^ 30
        → s < l + 2 ^ 30 → l < s + 2 ^ 30 → length g.payload ≤ 65535 → s ≤ r → l ≤ s + length g.payload
        → cut (number_at origin l) (number_at origin r) g ≡ take (min (s + length g.payload) r - max l s) (drop
        (max l s - s) g.payload) }
{}

/// An acknowledgement that is neither before SND.UNA nor after the end of the transmit queue, with a FIN's number more
/// where one may have been sent, lies at most that far past SND.UNA.
pub fn acknowledgement_in_range()
    ensures { (a una len extra : ℕ) → a < 2 ^ 32 → una < 2 ^ 32 → len ≤ 2 ^ 30 → extra ≤ 1
        → number_is_before a una ≡ false → number_is_before ((una + len + extra) % 2 ^ 32) a ≡ false
        → number_distance a una ≤ len + extra }
{}

/// An acknowledgement that the case tables let pass does what an acknowledgement may do.
pub fn passing_acknowledgement_is_heard()
    ensures { (v w : SocketView) (g : StreamSegment) → HasSendingBounds v → AckPasses v w g → HearsAck v w g }
{}

/// What a dispatch of a socket sends, a part of the transmit queue, a SYN or a keep-alive, is what a socket may send.
pub fn content_may_be_sent()
    ensures { (v : SocketView) (g : StreamSegment) → v.snd_una < 2 ^ 32 → Content v g → SendsPayload v g
        ⊎ SendsKeepAlive v g }
{}

/// After an emit SND.NXT is the later of the old one and of the number that follows the segment, which ends at most one
/// number past the transmit queue: so it moves as SND.NXT may.
pub fn snd_nxt_after_an_emit()
    ensures { (v : SocketView) (m : ℕ) → HasSendingBounds v → m ≤ length v.transmit_queue + 1
        → SndNxtWithin (record v { snd_nxt = later_number v.snd_nxt ((v.snd_una + m) % 2 ^ 32) }) }
{}
