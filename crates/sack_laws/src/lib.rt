//! What the sides of a pair know of each other's receive buffers, as a law: a function whose contract is the law and
//! whose body is empty.
#![tactic(auto)]

ghost use Rattle.std.specs.Prelude.{◌≡◌, ℕ, Option};
ghost use Rattle.ip_wire.specs.declared.endpoint.IpEndpoint.{IpEndpoint};
ghost use Rattle.sock_tcp.specs.View.{View};
ghost use Rattle.pair_core.specs.PairInvariant.{IsPair, IsSized, IsIdle};
ghost use Rattle.pair_core.specs.PairSteps.{EventStep};
ghost use Rattle.pair_core.specs.PairViews.{PairView, new_host, new_pair};
ghost use Rattle.pair_core.specs.declared.event.Event.{Event};
ghost use Rattle.pair_core.specs.declared.outcome.Outcome.{Outcome};
ghost use Rattle.sack_laws.specs.Told.{IsTold};

use sock_tcp::TsvalSource;

/// What the scoreboard of a side says that the other side has, the other side has: the byte joined its receive queue,
/// or is held there behind a gap (RFC 2018, section 8: it is not given up). And each segment that a side emitted told
/// only of such bytes, whenever it comes. So it is of a new pair of sockets that were never opened, and each event
/// keeps it, whatever was lost, repeated and reordered, as long as the other side is not CLOSED for good.
pub fn scoreboards_are_true<G: TsvalSource>()
    ensures begins { (v w : View) (a b : IpEndpoint) (x y : Option G) (limit : Option ℕ) → IsIdle v → IsIdle w
        → IsTold (new_pair (new_host v a x) (new_host w b y) limit) }
    ensures step { (e : Event) (p : PairView G) (o : Outcome) (q : PairView G) → IsPair p → IsSized e p
        → EventStep G.tells e p o q → IsTold p → IsTold q }
{}
