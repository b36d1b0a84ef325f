//! What `==` of some types of a pair says, as laws: of a derived `==` it is known that it is an equivalence, and these
//! say that it compares all. Of `Event`, `Header` and `Segment` it is not proved.
ghost use Rattle.std.specs.Prelude.{◌≡◌, ◌↔◌, IsTrue};
ghost use Rattle.pair_core.specs.EventValue.{moment_value};
ghost use Rattle.pair_core.specs.Equality.{SameOutcome, SameSetting};

use crate::moment::Moment;
use crate::outcome::{Outcome, PairError};
use crate::setting::Setting;
use crate::side::Side;
use sock_tcp::{RecvError, SendError};

/// Outcomes are equal where they are the same, their bytes compared one by one.
pub fn outcomes_are_equal(p: &Outcome, q: &Outcome) -> bool
    ensures { IsTrue result ↔ SameOutcome p.now q.now }
{
    p == q
}

/// Moments are equal where their values are (`moment_value`).
pub fn moments_are_equal(p: &Moment, q: &Moment) -> bool
    ensures { IsTrue result ↔ moment_value p.entry.now ≡ moment_value q.entry.now }
{
    p == q
}

/// Settings are equal where what they hold is.
pub fn settings_are_equal(p: &Setting, q: &Setting) -> bool
    ensures { IsTrue result ↔ SameSetting p.now q.now }
{
    p == q
}

/// So are sides.
pub fn sides_are_equal(p: Side, q: Side) -> bool
    ensures { IsTrue result ↔ p ≡ q }
{
    p == q
}

/// And the errors of a pair and of its sockets.
pub fn errors_are_equal(
    pairs: (PairError, PairError),
    sends: (SendError, SendError),
    receives: (RecvError, RecvError),
) -> (bool, bool, bool)
    ensures pair { IsTrue result.0 ↔ pairs.0 ≡ pairs.1 }
    ensures send { IsTrue result.1 ↔ sends.0 ≡ sends.1 }
    ensures receive { IsTrue result.2 ↔ receives.0 ≡ receives.1 }
{
    (
        pairs.0 == pairs.1,
        sends.0 == sends.1,
        receives.0 == receives.1,
    )
}
