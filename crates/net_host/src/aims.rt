//! Laws on what the limits of a guard are for.
ghost use Rattle.net_host.specs.Aim.{EndsWhatStands, SparesWhatMoved, SparesWhatMoves};

/// Whatever segments, calls and turns come between: where bytes or a FIN wait and SND.UNA stands at each look for the
/// limit of the state (`window` of `GuardSettings` in ESTABLISHED and CLOSE-WAIT, `closing` in FIN-WAIT-1, CLOSING and
/// LAST-ACK), the next look ends the connection.
pub fn what_stands_ends()
    ensures { EndsWhatStands }
{}

/// No look ends a connection of which a byte or the FIN was newly acknowledged within that limit: it is counted from
/// the look that first saw SND.UNA where it is, or from a later one.
pub fn what_moves_is_spared()
    ensures moved { SparesWhatMoved }
    ensures moves { SparesWhatMoves }
{}
