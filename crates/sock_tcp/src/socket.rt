//! The TCP socket as its users see it.
ghost use Rattle.std.specs.Prelude.{◌≡◌, ◌≤◌, ◌^◌, ◌+◌, ◌↔◌, ℕ, List, IsTrue, IsOk, is_ok, true, length, option_map};
ghost use Rattle.std.specs.Prelude.{None, is_some};
ghost use Rattle.std.specs.Fn.{FnOnceReturnsAt, FnOnceReturnsAtMut};
ghost use Rattle.control_wire.specs.Segment.{segment_of};
ghost use Rattle.net_base.specs.Ring.{capacity_of};
ghost use Rattle.sock_core.specs.Received.{receiving, room_of};
ghost use Rattle.sock_tcp.specs.Queue.{queue_of, capacity};
ghost use Rattle.sock_tcp.specs.View.{fresh, moment_of, FinSays};
ghost use Rattle.sock_tcp.specs.Opening.{is_listening, is_open, is_active, Listens, Connects};
ghost use Rattle.sock_tcp.specs.Queues.{may_send, can_send, may_recv, can_recv};
ghost use Rattle.sock_tcp.specs.Queues.{written, Sends, SendsWith, Writes, Reads, ReadsWith, lent_bytes, Peeks};
ghost use Rattle.sock_tcp.specs.Queues.{Drops, PeeksInto};
ghost use Rattle.sock_tcp.specs.Ended.{ended_by_opening, ended_by_segment};
ghost use Rattle.sock_tcp.specs.Draw.{draws, Draws};
ghost use Rattle.sock_tcp.specs.Process.{Accepts, Processes, processed, responded, source_kept};
ghost use Rattle.sock_tcp.specs.Verdict.{verdict_of};
ghost use Rattle.sock_tcp.specs.Replies.{IsReplyStamp, echoed};

use crate::control_block::ControlBlock;
use crate::duplicates::Response;
use crate::ended::{Ended, by_segment};
use crate::error::{ConnectError, ListenError, RecvError, SendError};
use crate::generator::{Generator, TsvalSource};
use crate::reply::Reply;
use crate::state::State;
use control_wire::TcpRepr;
use ip_wire::{IpEndpoint, IpListenEndpoint, IpRepr};
use net_base::ring_buffer::RingBuffer;
use sock_core::Context;
use std::fmt;

/// A buffer of bytes to send or to receive.
pub type SocketBuffer<'a> = RingBuffer<'a, u8>;

/// A TCP socket (RFC 9293): one end of one connection at a time, over two lent buffers.
///
/// Contracts speak of its transmission control block. The source of timestamps, `G`, stands beside it: a function
/// pointer cannot be part of a value that contracts see. It is a parameter so that a struct around a socket can have
/// such a value. There is one exactly where the control block says that segments carry a timestamp.
#[derive(Debug, Drop)]
pub struct Socket<'a, G = Generator> {
    pub(crate) control_block: ControlBlock<'a>,
    pub(crate) tsval_generator: Option<G>,
    // why it is CLOSED, if it was open before
    pub(crate) ended: Option<Ended>,
    pub ghost stamped: { is_some tsval_generator ≡ control_block.stamps },
}

impl<'a> Socket<'a> {
    /// A closed socket over these two buffers, each of at most 2^30 bytes and empty or not, with no source of
    /// timestamps.
    pub fn new(rx_buffer: SocketBuffer<'a>, tx_buffer: SocketBuffer<'a>) -> Socket<'a>
        requires rx { length rx_buffer.queue + length rx_buffer.spare ≤ 2 ^ 30 }
        requires tx { length tx_buffer.queue + length tx_buffer.spare ≤ 2 ^ 30 }
        ensures control_block { result.control_block ≡ fresh (receiving rx_buffer.entry) (queue_of tx_buffer.entry) }
        ensures generator { result.tsval_generator ≡ None }
        ensures ended { result.ended ≡ None }
    {
        Socket {
            control_block: ControlBlock::new(rx_buffer, tx_buffer),
            tsval_generator: None,
            ended: None,
        }
    }
}

impl<'a, G: Drop> Socket<'a, G> {
    /// The two buffers: received bytes that were not read, and sent ones that were not acknowledged, are their queues.
    pub fn into_buffers(self) -> (SocketBuffer<'a>, SocketBuffer<'a>)
        ensures received { result.0.queue ≡ self.entry.control_block.rx_buffer.bytes }
        ensures places { capacity_of result.0 ≡ room_of self.entry.control_block.rx_buffer }
        ensures sent { queue_of result.1 ≡ self.entry.control_block.tx_buffer }
    {
        let Socket {
            control_block,
            tsval_generator: _,
            ended: _,
        } = self;
        control_block.into_buffers()
    }
}

impl<'a, G> Socket<'a, G> {
    /// A closed socket over these buffers, with a source of timestamps of any kind, or none.
    pub fn closed(
        rx_buffer: SocketBuffer<'a>,
        tx_buffer: SocketBuffer<'a>,
        tsval_generator: Option<G>,
    ) -> Socket<'a, G>
        requires rx { length rx_buffer.queue + length rx_buffer.spare ≤ 2 ^ 30 }
        requires tx { length tx_buffer.queue + length tx_buffer.spare ≤ 2 ^ 30 }
        ensures control_block { result.control_block
            ≡ record (fresh (receiving rx_buffer.entry) (queue_of tx_buffer.entry)) {
              stamps = is_some tsval_generator;
            } }
        ensures generator { result.tsval_generator ≡ tsval_generator }
        ensures ended { result.ended ≡ None }
    {
        let mut control_block = ControlBlock::new(rx_buffer, tx_buffer);
        control_block.stamps = tsval_generator.is_some();
        Socket {
            control_block,
            tsval_generator,
            ended: None,
        }
    }

    /// The endpoint on which the socket listens, or listened last; its port is 0 where there is none.
    pub fn listen_endpoint(&self) -> IpListenEndpoint
        ensures { result ≡ self.now.control_block.listen_endpoint }
    {
        self.control_block.listen_endpoint
    }

    /// The own endpoint, where there is a peer.
    pub fn local_endpoint(&self) -> Option<IpEndpoint>
        ensures { result ≡ option_map (λ t. t.local) self.now.control_block.tuple }
    {
        self.control_block.tuple.map(|tuple| tuple.local)
    }

    /// The peer's endpoint, where there is a peer.
    pub fn remote_endpoint(&self) -> Option<IpEndpoint>
        ensures { result ≡ option_map (λ t. t.remote) self.now.control_block.tuple }
    {
        self.control_block.tuple.map(|tuple| tuple.remote)
    }

    /// The state of the connection (RFC 9293, section 3.3.2). The peer's FIN has come only in CLOSE-WAIT, CLOSING,
    /// LAST-ACK and TIME-WAIT, and maybe before the socket was CLOSED.
    pub fn state(&self) -> State
        ensures value { result ≡ self.now.control_block.state }
        ensures fin { FinSays result self.now.control_block.rx_fin_received }
    {
        self.control_block.state
    }

    /// Waits for a peer on this endpoint.
    ///
    /// # Errors
    /// `Unaddressable` where the port is zero; else `InvalidState` where the socket is open, but for one that listens
    /// on this very endpoint, for which nothing changes. A refusal changes nothing.
    pub fn listen(&mut self, local_endpoint: IpListenEndpoint) -> Result<(), ListenError>
        ensures table { Listens self.old.control_block local_endpoint result self.new.control_block }
        ensures generator { self.new.tsval_generator ≡ self.old.tsval_generator }
        ensures ended { self.new.ended ≡ ended_by_opening result self.old.ended }
    {
        let result = self.control_block.listen(local_endpoint);
        if result.is_ok() {
            self.ended = None;
        }
        result
    }

    /// Opens a connection to `remote_endpoint`, from the local address given, else from the context's source address.
    ///
    /// # Errors
    /// `InvalidState` where the socket is open; else `Unaddressable`, tested in this order: the remote port is zero or
    /// the remote address unspecified; the local port is zero; the local address is unspecified; none is given and the
    /// context has none; the two addresses are of different versions. A refusal changes nothing and draws no random
    /// word.
    pub fn connect<C: Context>(
        &mut self,
        cx: &mut C,
        remote_endpoint: IpEndpoint,
        local_endpoint: IpListenEndpoint,
    ) -> Result<(), ConnectError>
        ensures table { Connects C.facts C.word_at self.old.control_block cx.old remote_endpoint local_endpoint
            result self.new.control_block cx.new }
        ensures generator { self.new.tsval_generator ≡ self.old.tsval_generator }
        ensures ended { self.new.ended ≡ ended_by_opening result self.old.ended }
    {
        let result = self
            .control_block
            .connect(cx, remote_endpoint, local_endpoint);
        if result.is_ok() {
            self.ended = None;
        }
        result
    }

    /// Whether the socket waits for a peer.
    pub fn is_listening(&self) -> bool
        ensures { result ≡ is_listening self.now.control_block.state }
    {
        matches!(self.control_block.state, State::Listen)
    }

    /// Whether the socket is in any state but CLOSED and TIME-WAIT, so that it cannot be opened.
    pub fn is_open(&self) -> bool
        ensures { result ≡ is_open self.now.control_block.state }
    {
        self.control_block.is_open()
    }

    /// Whether the socket is open and has a peer.
    pub fn is_active(&self) -> bool
        ensures { result ≡ is_active self.now.control_block.state }
    {
        !matches!(
            self.control_block.state,
            State::Closed | State::TimeWait | State::Listen
        )
    }

    /// Whether bytes may be given to `send_slice`: in ESTABLISHED and CLOSE-WAIT.
    pub fn may_send(&self) -> bool
        ensures { result ≡ may_send self.now.control_block.state }
    {
        self.control_block.may_send()
    }

    /// Whether bytes may come, or are there: in ESTABLISHED, FIN-WAIT-1 and FIN-WAIT-2, and with a receive queue that
    /// is not empty.
    pub fn may_recv(&self) -> bool
        ensures { result ≡ may_recv self.now.control_block }
    {
        self.control_block.may_recv()
    }

    /// Whether `send_slice` would take at least one byte.
    pub fn can_send(&self) -> bool
        ensures { result ≡ can_send self.now.control_block }
    {
        self.control_block.can_send()
    }

    /// Whether the receive queue has a byte.
    pub fn can_recv(&self) -> bool
        ensures { result ≡ can_recv self.now.control_block }
    {
        self.control_block.can_recv()
    }

    /// How many bytes the receive buffer holds when it is full.
    pub fn recv_capacity(&self) -> usize
        ensures { result ≡ room_of self.now.control_block.rx_buffer }
    {
        self.control_block.rx_buffer.capacity()
    }

    /// How many bytes the transmit buffer holds when it is full.
    pub fn send_capacity(&self) -> usize
        ensures { result ≡ capacity self.now.control_block.tx_buffer }
    {
        self.control_block.tx_buffer.capacity()
    }

    /// Puts as many bytes of a beginning of `data` into the transmit queue as fit, and answers how many.
    ///
    /// # Errors
    /// `InvalidState` where `may_send` is false; nothing changes then.
    pub fn send_slice(&mut self, data: &[u8]) -> Result<usize, SendError>
        ensures table { Sends self.old.control_block «data».now result self.new.control_block }
        ensures small { length self.new.control_block.tx_buffer.bytes ≤ 2 ^ 30 }
        ensures generator { self.new.tsval_generator ≡ self.old.tsval_generator }
        ensures ended { self.new.ended ≡ self.old.ended }
    {
        self.control_block.send_slice(data)
    }

    /// Lends `f` the free places behind the transmit queue that stand in one piece: those up to the end of its ring's
    /// storage, at whose first place an empty queue begins anew. `f` answers how many bytes it put at their beginning,
    /// and these join the queue; beside that it answers what this call answers.
    ///
    /// # Errors
    /// `InvalidState` where `may_send` is false; `f` is not called then, and nothing changes.
    pub fn send<R, F: FnOnce(&mut [u8]) -> (usize, R)>(&mut self, f: F) -> Result<R, SendError>
        requires callable { F.IsAlwaysCallable f }
        requires sized { (s : List ℕ) (r : _) (s' : List ℕ) → FnOnceReturnsAtMut F.FnOnce f s r s' → r.0 ≤ length s }
        ensures table { SendsWith (FnOnceReturnsAtMut F.FnOnce f) self.old.control_block result self.new.control_block }
        ensures small { length self.new.control_block.tx_buffer.bytes ≤ 2 ^ 30 }
        ensures generator { self.new.tsval_generator ≡ self.old.tsval_generator }
        ensures ended { self.new.ended ≡ self.old.ended }
    {
        self.control_block.send(f)
    }

    /// Moves as many bytes from the front of the receive queue into `data` as fit, and answers how many.
    ///
    /// # Errors
    /// Where `may_recv` is false nothing changes: `Finished` where the peer's FIN has come, else `InvalidState`.
    pub fn recv_slice(&mut self, data: &mut [u8]) -> Result<usize, RecvError>
        ensures table { Reads self.old.control_block «data».old result self.new.control_block «data».new }
        ensures generator { self.new.tsval_generator ≡ self.old.tsval_generator }
        ensures ended { self.new.ended ≡ self.old.ended }
    {
        self.control_block.recv_slice(data)
    }

    /// Lends `f` the receive queue up to the end of its ring's storage. `f` answers how many of these bytes leave the
    /// queue, from the first on; beside that it answers what this call answers.
    ///
    /// # Errors
    /// Where `may_recv` is false `f` is not called and nothing changes: `Finished` where the peer's FIN has come, else
    /// `InvalidState`.
    pub fn recv<R, F: FnOnce(&[u8]) -> (usize, R)>(&mut self, f: F) -> Result<R, RecvError>
        requires callable { F.IsAlwaysCallable f }
        requires sized { (s : List ℕ) (r : _) → FnOnceReturnsAt F.FnOnce f s r → r.0 ≤ length s }
        ensures table { ReadsWith (FnOnceReturnsAt F.FnOnce f) self.old.control_block result self.new.control_block }
        ensures generator { self.new.tsval_generator ≡ self.old.tsval_generator }
        ensures ended { self.new.ended ≡ self.old.ended }
    {
        self.control_block.recv(f)
    }

    /// Drops as many bytes from the front of the receive queue as are there, but at most `count`, and answers how many.
    ///
    /// # Errors
    /// Refused as `recv`. smoltcp has no such call: its `recv` drops what lies in one piece.
    pub fn consume(&mut self, count: usize) -> Result<usize, RecvError>
        ensures table { Drops self.old.control_block count result self.new.control_block }
        ensures generator { self.new.tsval_generator ≡ self.old.tsval_generator }
        ensures ended { self.new.ended ≡ self.old.ended }
    {
        self.control_block.consume(count)
    }

    /// Lends the receive queue up to the end of its ring's storage, but at most `size` bytes. The bytes stay.
    ///
    /// # Errors
    /// Refused as `recv`.
    pub fn peek(&self, size: usize) -> Result<&[u8], RecvError>
        ensures { Peeks self.now.control_block size (lent_bytes result) }
    {
        self.control_block.peek(size)
    }

    /// Copies as many bytes from the front of the receive queue into `data` as fit, and answers how many. The bytes
    /// stay.
    ///
    /// # Errors
    /// Refused as `recv`; `data` is then as it was.
    pub fn peek_slice(&self, data: &mut [u8]) -> Result<usize, RecvError>
        ensures { PeeksInto self.now.control_block «data».old result «data».new }
    {
        self.control_block.peek_slice(data)
    }

    /// How many bytes were given to the socket and are not acknowledged: at most 2^30.
    pub fn send_queue(&self) -> usize
        ensures value { result ≡ length self.now.control_block.tx_buffer.bytes }
        ensures small { capacity self.now.control_block.tx_buffer ≤ 2 ^ 30 }
    {
        self.control_block.tx_buffer.len()
    }

    /// How many bytes came and were not read: at most 2^30.
    pub fn recv_queue(&self) -> usize
        ensures value { result ≡ length self.now.control_block.rx_buffer.bytes }
        ensures small { room_of self.now.control_block.rx_buffer ≤ 2 ^ 30 }
    {
        self.control_block.rx_buffer.len()
    }

    /// Whether a segment is for this socket: to its endpoint from its peer, or, where it listens, a segment that can
    /// open a connection on its endpoint.
    pub fn accepts<C: Context>(&self, _cx: &C, ip_repr: &IpRepr, repr: &TcpRepr<'_>) -> bool
        ensures { IsTrue result ↔ Accepts self.now.control_block ip_repr.now (segment_of repr.now) }
    {
        self.control_block.accepts(ip_repr, repr)
    }
}

// The source leaves where segments carry no timestamp.
#[inline(always)]
fn keep_source<G: TsvalSource>(source: &mut Option<G>, stamps: bool)
    ensures { source.new ≡ source_kept stamps source.old }
{
    if !stamps {
        *source = None;
    }
}

#[inline(always)]
fn note_end(place: &mut Option<Ended>, ended: Option<Ended>)
    ensures { place.new ≡ ended }
{
    *place = ended;
}

impl<'a, G: TsvalSource> Socket<'a, G> {
    /// The first half of [`Socket::process`], for a caller that wants no room for a reply where there is none, as
    /// mostly: takes a segment that `accepts` holds of, with a payload of at most 65535 bytes, and tells how it is
    /// answered.
    ///
    /// Unless that is by nothing, the next call is [`Socket::reply_by`], which gives the answer.
    #[inline(always)]
    #[tactic(auto, using(crate::proofs::Stamping::still_stamped))]
    pub fn take_segment<C: Context>(
        &mut self,
        cx: &mut C,
        ip_repr: &IpRepr,
        repr: &TcpRepr<'_>,
    ) -> Response
        requires { length repr.now.payload.now ≤ 65535 }
        ensures table { responded result self.new.control_block (segment_of repr.now)
            ≡ processed self.old.control_block (moment_of (C.facts cx.old)) (C.word_at cx.old 0) ip_repr.now
            (segment_of repr.now) }
        ensures context { Draws (draws (verdict_of self.old.control_block repr.now.control repr.now.ack_number)
            self.old.control_block.state repr.now.control) C.facts C.word_at cx.old cx.new }
        ensures generator { self.new.tsval_generator
            ≡ source_kept self.new.control_block.stamps self.old.tsval_generator }
        ensures ended { self.new.ended ≡ ended_by_segment self.old.control_block.state repr.now.control
            self.new.control_block.state self.old.ended }
    {
        let (before, ended) = (self.control_block.state, self.ended);
        let answer = self.control_block.process(cx, ip_repr, repr);
        let stamps = self.control_block.stamps();
        let after = self.control_block.state();
        keep_source(&mut self.tsval_generator, stamps);
        note_end(
            &mut self.ended,
            by_segment(before, repr.control, after, ended),
        );
        answer
    }

    /// Takes a segment that `accepts` holds of, with a payload of at most 65535 bytes, and gives the one that answers
    /// it, if any; that one has no payload (RFC 9293, section 3.10.7).
    ///
    /// A SYN without a timestamp that opens a connection takes the source of timestamps away. The answer can be written
    /// as a packet.
    // Inlined, so that the place of the reply is the caller's, and no reply is copied to it.
    #[inline(always)]
    pub fn process<C: Context>(
        &mut self,
        cx: &mut C,
        ip_repr: &IpRepr,
        repr: &TcpRepr<'_>,
    ) -> Option<Reply>
        requires accepted { Accepts self.old.control_block ip_repr.now (segment_of repr.now) }
        requires small { length repr.now.payload.now ≤ 65535 }
        ensures table { Processes C.facts C.word_at
            (IsReplyStamp G.tells self.new.tsval_generator (echoed self.new.control_block repr.now.timestamp))
            self.old.control_block cx.old ip_repr.now (segment_of repr.now) result self.new.control_block cx.new }
        ensures generator { self.new.tsval_generator
            ≡ source_kept self.new.control_block.stamps self.old.tsval_generator }
        ensures ended { self.new.ended ≡ ended_by_segment self.old.control_block.state repr.now.control
            self.new.control_block.state self.old.ended }
    {
        match self.take_segment(cx, ip_repr, repr) {
            Response::Nothing => None,
            Response::Ack(count) => self.reply_by(Response::Ack(count), ip_repr, repr),
            Response::Rst => self.reply_by(Response::Rst, ip_repr, repr),
        }
    }
}

/// Text goes into the transmit queue as by `send_slice`.
impl<'a, G> fmt::Write for Socket<'a, G> {
    ghost write_str_gives = { λ old bytes new. Writes old.control_block bytes true new.control_block };

    /// Refused where `may_send` is false, and where not all of the text fits; what fits then stays in the queue.
    fn write_str(&mut self, s: &str) -> fmt::Result
        ensures ok { IsOk result → Writes self.old.control_block s.now true self.new.control_block }
        ensures table { Writes self.old.control_block s.now (is_ok result) self.new.control_block }
        ensures generator { self.new.tsval_generator ≡ self.old.tsval_generator }
        ensures ended { self.new.ended ≡ self.old.ended }
    {
        match self.send_slice(s.as_bytes()) {
            Ok(count) if count == s.len() => Ok(()),
            _ => Err(fmt::Error),
        }
    }
}
