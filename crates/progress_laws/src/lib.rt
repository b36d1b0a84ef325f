//! What two TCP sockets still can come to, as laws: functions whose contracts are the laws and whose bodies are empty.
//!
//! What to read first, in `specs`: `Wakes.antt`, when a socket is to be called again; `Speech.antt`, what it says once
//! its timer is over; `Delivery.antt`, what such a segment moves once it is delivered; `InStep.antt`, two sockets of
//! which one sends to the other, and what they can do in turn; `BothWays.antt`, two that both have bytes to send, and
//! `ShutWindows.antt`, the same where a window of 0 is known; `AfterClose.antt`, a sender that was closed;
//! `Agreement.antt`, any two that agree on their numbers, whatever waits; `Pairs.antt`, the two of a pair, whatever
//! happened to it; `Opening.antt`, two sockets that were opened toward each other, and `FromOpening.antt`, these to the
//! end of both streams, whatever SYNs were lost.
#![tactic(auto)]

ghost use Rattle.std.specs.Prelude.{◌≡◌};
ghost use Rattle.pair_core.specs.PairInvariant.{IsPair};
ghost use Rattle.pair_core.specs.PairViews.{PairView};
ghost use Rattle.progress_laws.specs.AfterClose.{ClosedSenderFinishes};
ghost use Rattle.progress_laws.specs.Agreement.{AgreeingBytesArrive, AgreeingClosersFinish, AgreeingFinArrives};
ghost use Rattle.progress_laws.specs.Agreement.{AgreeingStreamsArrive};
ghost use Rattle.progress_laws.specs.BothWays.{BothWaysComplete, BothWaysFinish, SendingKeepsInStep};
ghost use Rattle.progress_laws.specs.Delivery.{CountedFinIsHeard, DeliveryMoves};
ghost use Rattle.progress_laws.specs.FromOpening.{HandshakeBringsInStep, OpenedPairCompletes};
ghost use Rattle.progress_laws.specs.FromOpening.{CrossedSynsComeAgain, LostAckComesAgain, LostSynsComeAgain};
ghost use Rattle.progress_laws.specs.InStep.{OneWayCompletes, OneWayFinishes};
ghost use Rattle.progress_laws.specs.Opening.{HandshakeCompletes, ListenerAnswersSyn};
ghost use Rattle.progress_laws.specs.Pairs.{BothCanAlways, BothClosedCanAlways, CanAlways};
ghost use Rattle.progress_laws.specs.Premises.{PremisesCanBeMet};
ghost use Rattle.progress_laws.specs.ShutWindows.{ShutWindowsOpen};
ghost use Rattle.progress_laws.specs.Speech.{SpeaksPastItsTimers};
ghost use Rattle.progress_laws.specs.Wakes.{WorkWakesOrSleeps};

/// A socket with a peer and with work to do (`Socket::has_work`), and without a user timeout, sleeps in one of the ways
/// of `tcp_laws::poll::sleeps_only_so`; or `poll_at` answers at the latest the latest moment told, plus the longest of
/// a minute and of the keep-alive intervals and acknowledgement delays that were set. Over any list of calls as below,
/// with a clock that begins at 0 or later and does not go back.
pub fn work_wakes_or_sleeps()
    ensures { WorkWakesOrSleeps }
{}

/// Of three dispatches of a socket with smoltcp's rules, a keep-alive interval, and bytes or a FIN that are not
/// acknowledged, one says so, each being at or after the moment of the timer that stands then and none of their emits
/// failing: a segment from SND.UNA on, with a byte of the stream or the FIN; a probe of the peer's window (RFC 9293,
/// section 3.8.6.1); or a keep-alive (RFC 1122, section 4.2.3.6). After any list of calls on a new socket over any two
/// buffers of at most 2^30 bytes, in ESTABLISHED, FIN-WAIT-1, CLOSE-WAIT, CLOSING and LAST-ACK.
pub fn speaks_past_its_timers()
    ensures { SpeaksPastItsTimers }
{}

/// Whatever a socket so says moves something, delivered at once to the other side of its connection: bytes join the
/// receive queue there; or the FIN is counted; or the answer, delivered at once, releases what the other side took; or
/// nothing was taken that the sender has not heard of, and the answer tells a window above 0. The other side is in
/// ESTABLISHED, FIN-WAIT-1 or FIN-WAIT-2, with room for one unit of its window field, and agrees on the numbers; a
/// probe has a byte, with nothing missing before it; the number of the answer lies in the sender's receive window (RFC
/// 9293, section 3.10.7.4); and in LAST-ACK there is something to release, or a place for a byte.
pub fn delivery_moves()
    ensures { DeliveryMoves }
{}

/// And where the other side took all and counted the FIN, in CLOSE-WAIT, CLOSING or LAST-ACK, it is answered, and the
/// answer, delivered at once, empties the sender's transmit queue and acknowledges its FIN: the sender is in
/// FIN-WAIT-2, TIME-WAIT or CLOSED then. A FIN alone is so answered where no challenge ACK was sent within the second
/// before.
pub fn counted_fin_is_heard()
    ensures { CountedFinIsHeard }
{}

/// From any two sockets of which one sends and the other receives, which agree on their numbers (`InStep`), whatever
/// bytes, acknowledgements and window updates were lost, some list of dispatches, deliveries and reads, at moments that
/// do not go back, empties the sender's transmit queue, and all of it was read of the receiver, in order.
pub fn one_way_completes()
    ensures { OneWayCompletes }
{}

/// Once that is done the sender may close, its FIN reaches the receiver, and reads there answer `Finished`.
pub fn one_way_finishes()
    ensures { OneWayFinishes }
{}

/// From any two sockets in ESTABLISHED that both have bytes to send and agree on the numbers of both streams
/// (`BothInStep`), some list of dispatches, deliveries and reads empties both transmit queues, and of either side all
/// of the other's bytes was read, in order: first one of them sends and the other only answers, and then the other way
/// round. What they sent may have been lost, and their acknowledgements; but SND.NXT of the second lies in the window
/// that the first tells now. Both know a window above 0, so neither needs a keep-alive interval.
pub fn both_ways_complete()
    ensures { BothWaysComplete }
{}

/// Once that is done the one may close, its FIN reaches the other, and reads there answer `Finished`; and then the
/// other may close, and so it is the other way round.
pub fn both_ways_finish()
    ensures { BothWaysFinish }
{}

/// Both streams of a pair come to their end where one side or both know a window of 0 (`BothShut`): each that does
/// sends a keep-alive or a probe, and processes the reply; while its retransmission timer runs it has a keep-alive
/// interval.
pub fn shut_windows_open()
    ensures { ShutWindowsOpen }
{}

/// `send_slice` of any bytes on either side keeps them in step, with as many bytes of each stream taken as before.
pub fn sending_keeps_in_step()
    ensures { SendingKeepsInStep }
{}

/// From a sender that was closed with bytes to send, in FIN-WAIT-1, CLOSING or LAST-ACK, that knows a window above 0,
/// and a receiver in ESTABLISHED, FIN-WAIT-1 or FIN-WAIT-2 (`AfterClose`), some list of dispatches, deliveries and
/// reads brings over all bytes, in order, and then reads answer `Finished`.
pub fn closed_sender_finishes()
    ensures { ClosedSenderFinishes }
{}

/// From any two sockets of one connection that agree on their numbers (`Agreement`), whatever waits in their queues, is
/// held out of order, is in flight or was lost, whatever windows and scales they know, and whatever congestion control
/// they have: all bytes of the one that speaks come to the other, in order. The speaker is in ESTABLISHED or
/// CLOSE-WAIT, without a user timeout and with a keep-alive interval; the taker is in ESTABLISHED, FIN-WAIT-1 or
/// FIN-WAIT-2, with a place in its receive buffer, and dispatches nothing. Some list of dispatches, deliveries and
/// reads does it, in which an answer may be lost. They agree again then, and what the speaker has not heard of the
/// taker's stream is what it was.
pub fn agreeing_bytes_arrive()
    ensures { AgreeingBytesArrive }
{}

/// And where the speaker was closed, in FIN-WAIT-1, CLOSING or LAST-ACK, its FIN comes with them: reads of the taker
/// answer `Finished`.
pub fn agreeing_fin_arrives()
    ensures { AgreeingFinArrives }
{}

/// And both streams come over where both sides speak, the first of them not closed (`AgreeBothWays`): first all bytes
/// of the one, and then all of the other, and its FIN, where that was closed.
pub fn agreeing_streams_arrive()
    ensures { AgreeingStreamsArrive }
{}

/// And where both were closed at once, in FIN-WAIT-1: the bytes of the one come over, and its FIN, which is
/// acknowledged; and then those of the other, and its FIN. Reads of both answer `Finished`.
pub fn agreeing_closers_finish()
    ensures { AgreeingClosersFinish }
{}

/// A socket as `connect` leaves it sends its SYN; one as `listen` leaves it takes it, with the number that it draws,
/// and sends its SYN|ACK; and that brings the first to ESTABLISHED, while the other waits in SYN-RECEIVED for the ACK.
/// They agree on the numbers of both streams then. Nothing of it is lost, and both are without a user timeout.
pub fn listener_answers_syn()
    ensures { ListenerAnswersSyn }
{}

/// Then the first sends its ACK, and that brings the other to ESTABLISHED, too; they still agree on the numbers of both
/// streams. The first has a keep-alive interval that is not 0, or none, and a place in its receive buffer.
pub fn handshake_completes()
    ensures { HandshakeCompletes }
{}

/// Then they are in step both ways (`BothInStep`), and neither has taken or accepted a byte yet: from any two sockets
/// that are not open, whatever they were before, each with a place in its receive buffer, without a user timeout and
/// with a keep-alive interval that is not 0, or with none, the one after `connect` and the other after `listen`.
pub fn handshake_brings_in_step()
    ensures { HandshakeBringsInStep }
{}

/// From such sockets to the end of both streams: after the handshake each accepts any bytes that fit into its transmit
/// buffer, and some list of dispatches, deliveries and reads hands out all of them, both ways, in order. Then the one
/// closes, its FIN reaches the other, and reads there answer `Finished`; and then the other closes, and so it is the
/// other way round.
pub fn opened_pair_completes()
    ensures { OpenedPairCompletes }
{}

/// A pair opens whatever SYNs were lost: after any list of dispatches of the one, each of whose SYNs is lost, at some
/// time its SYN is sent again, and the other takes it; and after any list of dispatches of that one, each of
/// whose SYN|ACKs is lost, at some moment a SYN|ACK goes out again, and brings the first to ESTABLISHED. Its ACK comes,
/// and then they stand in step, and both streams can end.
pub fn lost_syns_come_again()
    ensures { LostSynsComeAgain }
{}

/// Two sides that both connect, each with its own ISN, open whatever SYNs of both were lost: at some time a SYN of the
/// one is sent again, and is lost; then a SYN of the other reaches it, and it answers in SYN-RECEIVED (RFC 9293,
/// section 3.5, where both sides open at once and one of the two SYNs is lost).
pub fn crossed_syns_come_again()
    ensures { CrossedSynsComeAgain }
{}

/// And where the ACK is lost: after any list of dispatches of the other, each of whose SYN|ACKs is lost, too, at some
/// moment a SYN|ACK goes out again. The first is in ESTABLISHED and answers it, and the answer brings the other there;
/// they agree on the numbers of both streams.
pub fn lost_ack_comes_again()
    ensures { LostAckComesAgain }
{}

/// Of every pair, whatever happened to it: from any moment on, some list of dispatches, deliveries and reads hands out
/// of one side all that the other ever accepted, and where that was closed, a read answers `Finished` then
/// (`CanComeOver` says of which sides, in which states and with which settings). And some list does so both ways, where
/// the side that speaks first was not closed, or both were (`BothCanComeOver`).
pub fn pairs_can_go_on<G>()
    ensures of_a { (p : PairView G) → IsPair p → CanAlways p.a p.b }
    ensures of_b { (p : PairView G) → IsPair p → CanAlways p.b p.a }
    ensures a_first { (p : PairView G) → IsPair p → BothCanAlways p.a p.b }
    ensures b_first { (p : PairView G) → IsPair p → BothCanAlways p.b p.a }
    ensures closed { (p : PairView G) → IsPair p → BothClosedCanAlways p.a p.b }
{
    agreeing_bytes_arrive();
    agreeing_fin_arrives();
    agreeing_streams_arrive();
    agreeing_closers_finish();
    pair_core::laws::sides_agree::<G>();
}

/// What the laws ask for can be met: of their premises, as records of the sockets and sides that they speak of, there
/// are instances. Two sockets that are to be opened toward each other, and two that both connect (`AreOpened`,
/// `IsCaller`); one that hears of the other's stream, and one that has counted its end (`HearsOf`, `HasCounted`); two
/// in step but for their windows (`BothShut`); and two that agree on their numbers, as sides whose bytes can come over
/// both ways (`AgreeBothWays`, `BothCanComeOver`).
pub fn premises_can_be_met()
    ensures { PremisesCanBeMet }
{}
