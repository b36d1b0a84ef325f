//! Which window a socket tells: by the RFCs' rules none by a few bytes (RFC 9293, section 3.8.6.2.2).
//!
//! A SYN advertises the whole buffer, counted from its acknowledgement on, or without one from the peer's own SYN on.
//! So what advertises the first window after it, or what follows a FIN, is less by one where there is no scale.
ghost use Rattle.std.specs.Prelude.{◌≡◌, ◌≤◌, length};
ghost use Rattle.sock_tcp.specs.Due.{window_field};
ghost use Rattle.sock_tcp.specs.Rfc.OwnWindow.{field_by, is_grown, kept_field, may_grow, space_field, told_left};
ghost use Rattle.sock_tcp.specs.declared.rules.Rules.TheVariants.{Rfc};

use crate::control_block::ControlBlock;
use crate::rules::Rules;

impl<'a> ControlBlock<'a> {
    // The field that tells the free space.
    pub(crate) fn space_field(&self) -> u16
        ensures { result ≡ space_field self.now }
    {
        (self.rx_buffer.window() >> self.remote_win_shift).min(65535) as u16
    }

    // What is left of the window that was told last.
    fn told_left(&self) -> usize
        ensures value { result ≡ told_left self.now }
        ensures within { result ≤ length self.now.rx_buffer.held }
    {
        let window = self.receive_window();
        window.end.since(window.start)
    }

    // Whether half of the receive buffer, or a segment of the connection, lies behind its right edge.
    #[inline(never)]
    #[tactic(auto, unfolding(crate::specs::Rfc::OwnWindow::is_grown))]
    fn is_grown(&self) -> bool
        ensures { result ≡ is_grown self.now }
    {
        let most = (self.rx_buffer.capacity() / 2).min(self.remote_mss);
        self.rx_buffer.window() - self.told_left() >= most
    }

    // The field that keeps the right edge.
    pub(crate) fn kept_field(&self) -> u16
        ensures { result ≡ kept_field self.now }
    {
        let unit = 1usize << self.remote_win_shift;
        let up = (self.told_left() + (unit - 1)) >> self.remote_win_shift;
        up.min(self.space_field() as usize) as u16
    }

    #[inline(never)]
    fn rfc_field(&self) -> u16
        ensures { result ≡ field_by Rfc self.now }
    {
        if self.is_grown() {
            self.space_field()
        } else {
            self.kept_field()
        }
    }

    // The window field of every segment but a SYN.
    #[inline(always)]
    pub(crate) fn window_field(&self) -> u16
        ensures { result ≡ window_field self.now }
    {
        match self.rules {
            Rules::Smoltcp => self.space_field(),
            Rules::Rfc => self.rfc_field(),
        }
    }

    // Whether the right edge that is told may move on.
    #[inline(always)]
    pub(crate) fn may_grow(&self) -> bool
        ensures { result ≡ may_grow self.now.rules self.now }
    {
        match self.rules {
            Rules::Smoltcp => true,
            Rules::Rfc => self.is_grown(),
        }
    }
}
