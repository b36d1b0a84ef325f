//! How many places are asked for a segment.
ghost use Rattle.std.specs.Prelude.{◌≡◌, ◌≤◌, ◌+◌, ◌-◌, ◌^◌, ◌↔◌, IsTrue, min};
ghost use Rattle.control_wire.specs.Segment.{segment_of};
ghost use Rattle.net_host.specs.Finding.{Fits};
ghost use Rattle.net_host.specs.Resting.{OnlyOf, RestsUntil};
ghost use Rattle.net_host.specs.Walks.{IsAt};

use crate::find::Sought;
use crate::slot::Slot;
use smoltcp_socket::Context;
use smoltcp_socket::time::Instant;
use smoltcp_socket::wire::{IpRepr, TcpRepr};
use sock_tcp::TsvalSource;

/// How many places were asked whether a segment is for their socket: a walk asks by way of this count alone.
#[derive(Debug, Clone, Copy, PartialEq, Eq)]
pub struct Asked {
    pub count: u64,
}

impl Asked {
    /// None was.
    pub(crate) fn none() -> Asked
        ensures { result.count ≡ 0 }
    {
        Asked { count: 0 }
    }

    #[inline(always)]
    fn add(&mut self)
        ensures { self.new.count ≡ min (self.old.count + 1) (2 ^ 64 - 1) }
    {
        self.count = self.count.saturating_add(1);
    }

    /// Whether the socket at this place is what is sought.
    #[inline(always)]
    pub(crate) fn fits_at<C: Context, G: TsvalSource>(
        &mut self,
        slots: &[Slot<'_, G>],
        place: usize,
        cx: &C,
        sought: Sought,
        ip: &IpRepr,
        repr: &TcpRepr<'_>,
    ) -> bool
        ensures fits { IsTrue result ↔ IsAt (Fits sought ip.now (segment_of repr.now)) slots.now place }
        ensures counted { self.new.count ≤ self.old.count + 1 }
        ensures exact { self.new.count ≡ min (self.old.count + 1) (2 ^ 64 - 1) }
    {
        self.add();
        match slots.get(place) {
            Some(slot) => slot.fits(cx, sought, ip, repr),
            None => false,
        }
    }

    /// Until when the socket of this slot rests that may listen again for the segment.
    #[inline(always)]
    pub(crate) fn rests_until<G: TsvalSource>(
        &mut self,
        slot: &Slot<'_, G>,
        ip: &IpRepr,
        repr: &TcpRepr<'_>,
    ) -> Option<Instant>
        ensures until { OnlyOf (λ t. RestsUntil ip.now (segment_of repr.now) t slot.now) result }
        ensures counted { self.new.count ≤ self.old.count + 1 }
        ensures exact { self.new.count ≡ min (self.old.count + 1) (2 ^ 64 - 1) }
    {
        self.add();
        slot.rests_until(ip, repr)
    }
}
