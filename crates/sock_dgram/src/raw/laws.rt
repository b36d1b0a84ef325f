//! Laws of raw sockets, in the words of the contracts.
ghost use Rattle.std.specs.Prelude.{List};
ghost use Rattle.sock_dgram.specs.Raw.{View, received, waiting};
ghost use Rattle.sock_dgram.specs.RawCalls.{AnyEffect, Call, bare, bare_traffic};
ghost use Rattle.sock_dgram.specs.RawDispatch.{Outgoing};
ghost use Rattle.sock_dgram.specs.Transfers.{AnyCall, InOrder, Runs, Transfers};
ghost use Rattle.sock_dgram.specs.declared.raw.error.SendError.{SendError};

use ip_wire::IpRepr;
use sock_core::Context;

/// Over any list of calls on a socket: what `emit` was called with and took, with what a dispatch dropped at its place,
/// followed by what then waits, is what waited at the start, followed by what was sent since, in this order, the
/// checksums of IPv4 headers apart, which a dispatch sets; and what was received, with what a short slice dropped at
/// its place, followed by what then waits, is what waited at the start, followed by what `process` queued since, in
/// this order.
///
/// What each call does to the socket is what its own contract says. A `send` comes into the list as the `send_slice`
/// of the bytes that are left in what it lends. The calls of a list share the types of their contexts, errors and
/// closures.
pub fn datagrams_keep_their_order<
    C: Context,
    E,
    F: FnOnce(&mut C, (IpRepr, &[u8])) -> Result<(), E>,
    G: FnOnce(&mut [u8]) -> usize,
>()
    ensures { (calls : List (AnyCall Call (Unit {0}) SendError C E F G)) (v w : View)
        (t : Transfers (Unit {0}) Outgoing) → Runs (AnyEffect C.facts F.FnOnce G.FnOnce) calls v t w
        → InOrder (bare_traffic t) (bare (waiting v)) (received v) (bare (waiting w)) (received w) }
{}
