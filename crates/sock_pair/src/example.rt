//! Functions of a user's own over a pair: what is promised of a pair stands in their clauses, and no proof file is
//! needed.
ghost use Rattle.std.specs.Prelude.{◌≡◌, ◌==◌, ◌≤◌, true, Ok};
ghost use Rattle.std.specs.List.{starts_with};
ghost use Rattle.pair_core.specs.PairRuns.{Ran};
ghost use Rattle.pair_core.specs.PairViews.{host_of};
ghost use Rattle.pair_core.specs.Sides.{other_side};

use pair_core::{Event, Outcome, Pair, PairError, Side};
use sock_tcp::{RecvError, TsvalSource};

/// Runs any events, whatever they lose, repeat or reorder.
///
/// What each side handed out is a beginning of what the other accepted, acknowledgements released only bytes that the
/// other side took, and of each event `Ran` says that its read was complete and its delivery prompt.
pub fn run_any<G: TsvalSource>(
    pair: &mut Pair<'_, G>,
    events: &[Event],
    outcomes: &mut Vec<Outcome>,
) -> Result<(), PairError>
    ensures a_begins { starts_with ◌==◌ pair.new.a.accepted pair.new.b.handed_out ≡ true }
    ensures b_begins { starts_with ◌==◌ pair.new.b.accepted pair.new.a.handed_out ≡ true }
    ensures a_released { pair.new.a.released ≤ pair.new.b.taken }
    ensures b_released { pair.new.b.released ≤ pair.new.a.taken }
    ensures each { Ran G.tells events.now pair.old outcomes.old.items outcomes.new.items pair.new }
{
    pair.run(events, outcomes)
}

/// Reads at most `size` bytes, and answers whether the stream has ended: then the other side was closed by its caller,
/// and this side has handed out all that it ever accepted.
pub fn read_to_the_end<G: TsvalSource>(
    pair: &mut Pair<'_, G>,
    side: Side,
    size: usize,
) -> Result<bool, PairError>
    ensures closed { result ≡ Ok true → (host_of (other_side side) pair.new).closed ≡ true }
    ensures all { result ≡ Ok true
        → (host_of side pair.new).handed_out ≡ (host_of (other_side side) pair.new).accepted }
{
    match pair.step(&Event::RecvSlice { side, size })? {
        Outcome::RecvRefused(RecvError::Finished) => Ok(true),
        _ => Ok(false),
    }
}

/// Whether b's bytes so far are the first of a's. It is always so.
pub fn is_in_order<G: TsvalSource>(pair: &mut Pair<'_, G>, event: &Event) -> Result<bool, PairError>
    ensures { (said : _) → result ≡ Ok said → said ≡ true }
{
    pair.step(event)?;
    Ok(pair.accepted(Side::A).starts_with(pair.handed_out(Side::B)))
}
