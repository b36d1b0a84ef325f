//! What a SYN offers beside the size of a segment, in the five lowest bits of the answer's timestamp (RFC 7323, section
//! 3, has the peer send it back).
ghost use Rattle.std.specs.Prelude.{◌≡◌, ◌<◌, ◌≤◌, IfSome};
ghost use Rattle.host_cookies.specs.Offers.{OffersComeBack, offer_bits, sack_in, scale_bits, scale_in, stamped};
ghost use Rattle.host_cookies.specs.Offers.{told_number};

fn scale_bits(scale: Option<u8>) -> u8
    ensures value { result ≡ scale_bits scale }
    ensures bound { result < 16 }
{
    match scale {
        None => 15,
        Some(scale) => scale.min(14),
    }
}

/// The bits that tell a window scale, of which more than 14 counts as 14, and whether SACK is permitted: below 32.
pub fn offer_bits(scale: Option<u8>, sack: bool) -> u8
    ensures value { result ≡ offer_bits scale sack }
    ensures bound { result < 32 }
{
    let bits = scale_bits(scale);
    if sack { bits + 16 } else { bits }
}

/// The window scale that a timestamp tells, at most 14, or none.
pub fn scale_in(stamp: u32) -> Option<u8>
    ensures value { result ≡ scale_in stamp }
    ensures bound { IfSome result (λ n. n ≤ 14) }
{
    let bits = (stamp % 16) as u8;
    if bits == 15 { None } else { Some(bits) }
}

/// Whether a timestamp tells that SACK is permitted.
pub fn sack_in(stamp: u32) -> bool
    ensures { result ≡ sack_in stamp }
{
    stamp / 16 % 2 == 1
}

/// The last value that this clock had which has these bits: at most 31 before this one. So no later timestamp of the
/// clock lies before it.
pub fn stamped(clock: u32, bits: u8) -> u32
    requires { bits < 32 }
    ensures { result ≡ stamped clock bits }
{
    let clock = u64::from(clock);
    let back = (clock + 32 - u64::from(bits)) % 32;
    ((clock + 4_294_967_296 - back) % 4_294_967_296) as u32
}

/// What a number stands for beside the class, where the answer told these bits.
pub fn told_number(bits: u8) -> u16
    ensures { result ≡ told_number bits }
{
    u16::from(bits) + 1
}

/// What a SYN offers comes back by the answer's timestamp, which is at most 31 ticks of the clock old.
#[tactic(auto, using(crate::proofs::Offered::come_back))]
pub fn offers_come_back()
    ensures { OffersComeBack }
{}
