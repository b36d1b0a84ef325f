//! Laws of UDP sockets, in the words of the contracts.
ghost use Rattle.std.specs.Prelude.{◌≡◌, List, Some, true};
ghost use Rattle.std.specs.Option.{ForSome};
ghost use Rattle.ip_wire.specs.Address.{SameVersion};
ghost use Rattle.ip_wire.specs.declared.address.IpAddress.{IpAddress};
ghost use Rattle.sock_core.specs.Facts.{Facts};
ghost use Rattle.ip_wire.specs.Address.{same_version};
ghost use Rattle.sock_dgram.specs.Transfers.{AnyCall, InOrder, Runs, Transfers};
ghost use Rattle.sock_dgram.specs.Udp.{View, is_sendable, received, waiting};
ghost use Rattle.sock_dgram.specs.UdpCalls.{AnyEffect, Call};
ghost use Rattle.sock_dgram.specs.UdpDispatch.{Outgoing, source_of};
ghost use Rattle.sock_dgram.specs.declared.error.SendError.{SendError};
ghost use Rattle.sock_dgram.specs.declared.udp.socket.UdpMetadata.{UdpMetadata};

use control_wire::UdpRepr;
use ip_wire::IpRepr;
use sock_core::Context;

/// A datagram that a sending call takes goes out at its dispatch wherever it has a source: that source is of the
/// destination's version, in every context whose own sources are.
#[tactic(auto, using(crate::proofs::UdpSources::sources))]
pub fn sources_of_what_was_taken()
    ensures { (v : View) (m : UdpMetadata) (f : Facts) (s : IpAddress) → is_sendable v m ≡ true
        → ForSome (f.source m.endpoint.addr) (λ a. SameVersion a m.endpoint.addr) → source_of v f m ≡ Some s
        → same_version s m.endpoint.addr ≡ true }
{}

/// Over any list of calls on a socket: what `emit` was called with and took, with what a dispatch dropped and what
/// `close` cleared each at its place, followed by what then waits, is what waited at the start, followed by what was
/// sent since, in this order; and what was received, with what a short slice dropped and what `close` cleared each at
/// its place, followed by what then waits, is what waited at the start, followed by what `process` queued since, in
/// this order.
///
/// What each call does to the socket is what its own contract says. A `send` comes into the list as the `send_slice`
/// of the bytes that are left in what it lends. The calls of a list share the types of their contexts, errors and
/// closures.
pub fn datagrams_keep_their_order<
    C: Context,
    E,
    F: FnOnce(&mut C, (IpRepr, UdpRepr, &[u8])) -> Result<(), E>,
    G: FnOnce(&mut [u8]) -> usize,
>()
    ensures { (calls : List (AnyCall Call UdpMetadata SendError C E F G)) (v w : View)
        (t : Transfers UdpMetadata Outgoing) → Runs (AnyEffect C.facts F.FnOnce G.FnOnce) calls v t w
        → InOrder t (waiting v) (received v) (waiting w) (received w) }
{}
