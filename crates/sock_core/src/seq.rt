//! The order of sequence numbers (RFC 9293, section 3.4), and the shift of window fields (RFC 7323, section 2.3).
ghost use Rattle.std.specs.Prelude.{◌≡◌, ◌+◌, ◌<◌, ◌≤◌, ◌^◌};
ghost use Rattle.sock_core.specs.Places.{number_distance};
ghost use Rattle.sock_core.specs.Seq.{is_before, is_not_after, later_of};
ghost use Rattle.sock_core.specs.WindowShift.{window_shift};

use control_wire::TcpSeqNumber;

/// Whether `a` comes before `b`: `(a - b) mod 2^32` is at least 2^31.
///
/// Numbers of places less than 2^31 apart compare as their places do.
#[tactic(auto, unfolding(crate::specs::Seq::is_before, crate::specs::Places::number_is_before))]
pub fn before(a: TcpSeqNumber, b: TcpSeqNumber) -> bool
    ensures { result ≡ is_before a b }
{
    distance(a, b) >= 0x8000_0000
}

/// Whether `a` comes before `b` or is `b`.
#[tactic(auto, unfolding(crate::specs::Seq::is_not_after))]
pub fn not_after(a: TcpSeqNumber, b: TcpSeqNumber) -> bool
    ensures { result ≡ is_not_after a b }
{
    before(a, b) || a == b
}

/// `b` where `a` comes before it, else `a`.
#[tactic(auto, unfolding(crate::specs::Seq::later_of))]
pub fn later(a: TcpSeqNumber, b: TcpSeqNumber) -> TcpSeqNumber
    ensures { result ≡ later_of a b }
{
    if before(a, b) { b } else { a }
}

/// By how many bits a window is shifted so that the 16 bits of the window field hold it: the bits that write
/// `capacity`, less 16, at least 0 and at most 14 (RFC 7323, section 2.3).
pub fn window_shift(capacity: usize) -> u8
    ensures value { result ≡ window_shift capacity }
    ensures at_most { result ≤ 14 }
    ensures fits { capacity < 2 ^ 30 → capacity < 2 ^ (16 + result) }
    ensures least { 0 < result → 2 ^ (15 + result) ≤ capacity }
{
    let above = capacity / 0x1_0000;
    if above == 0 {
        return 0;
    }
    (above.ilog2() + 1).min(14) as u8
}

// How far `a` lies past `b`, going round.
#[tactic(auto, unfolding(crate::specs::Places::number_distance))]
fn distance(a: TcpSeqNumber, b: TcpSeqNumber) -> u32
    ensures { result ≡ number_distance a.0 b.0 }
{
    a.0.wrapping_sub(b.0)
}
