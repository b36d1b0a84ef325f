//! A restart of the congestion window after idle time, by the RFCs' rules (RFC 5681, section 4.1).
ghost use Rattle.std.specs.Prelude.{◌≡◌};
ghost use Rattle.sock_core.specs.Bounds.{IsMoment};
ghost use Rattle.sock_tcp.specs.Rfc.Idle.{idle_by, restarted_by, was_idle};
ghost use Rattle.sock_tcp.specs.declared.rules.Rules.TheVariants.{Rfc};

use crate::control_block::ControlBlock;
use crate::timer::{after, is_over};
use net_base::time::Instant;
use sock_core::congestion::Controller;

impl<'a> ControlBlock<'a> {
    // Nothing was sent for a retransmission timeout.
    fn was_idle(&self, now: Instant) -> bool
        ensures { result ≡ was_idle self.now.idle_at now }
    {
        match self.idle_at() {
            None => false,
            Some(at) => is_over(at, now),
        }
    }

    // Something goes out that takes numbers.
    #[inline(never)]
    pub(crate) fn restart_if_idle(&mut self, now: Instant)
        requires { IsMoment now.micros }
        ensures view { self.new ≡ record self.old {
          congestion_controller = restarted_by Rfc self.old.idle_at now self.old.congestion_controller;
          idle_at = idle_by Rfc self.old.idle_at now self.old.rtte;
        } }
    {
        if self.was_idle(now) {
            self.congestion_controller.restart();
        }
        self.has_idle_at = true;
        self.idle_at = after(now, self.rtte.retransmission_timeout());
    }
}
