//! Places in a stream and the 32-bit sequence numbers that stand for them (RFC 9293, section 3.4).
ghost use Rattle.std.specs.Prelude.{ℕ};
ghost use Rattle.sock_core.specs.Places.{AreNear, ComparesAsPlaces};

/// Two places less than 2^31 apart stand in the same order as their numbers: the number of the one is before
/// the number of the other exactly where its place is less. So comparisons of numbers near one another may be
/// read as comparisons of places, which never wrap.
pub fn order_of_near_places()
    ensures { (origin p q : ℕ) → AreNear p q → ComparesAsPlaces origin p q }
{}
