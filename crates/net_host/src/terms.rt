//! Under which settings the sockets of a set were looked at last.
ghost use Rattle.std.specs.Prelude.{◌≡◌, true};

use crate::limits::Limits;

/// What the moments depend on at which sockets want to be asked, beside the sockets themselves and their guards.
#[derive(Drop)]
pub struct Terms {
    /// The largest IP packet, in bytes.
    pub mtu: usize,
    /// The limits that their guards set them.
    pub guards: Limits,
}

impl Terms {
    /// Whether they are the same.
    pub(crate) fn are(&self, mtu: usize, guards: &Limits) -> bool
        ensures { result ≡ true → self.now ≡ record { mtu = mtu; guards = guards.now } }
    {
        self.mtu == mtu && self.guards.are(guards)
    }
}
