//! The sockets of a set, one after the other.
ghost use Rattle.std.specs.Prelude.{◌≡◌};
ghost use Rattle.net_host.specs.Listing.{ListsNext, left_of};

use crate::filed::Filed;
use crate::slot::{Slot, SocketHandle};
use smoltcp_socket::Socket;
use sock_tcp::{Generator, TsvalSource};

/// The sockets of a set with their handles, in the order of handles.
#[derive(Drop)]
pub struct Iter<'s, 'a, G = Generator> {
    pub(crate) slots: &'s [Slot<'a, G>],
    // the place that is looked at next
    pub(crate) index: usize,
}

impl<'s, 'a, G> Iterator for Iter<'s, 'a, G> {
    type Item = (SocketHandle, &'s Socket<'a, G>);

    ghost next_gives = { ListsNext };

    ghost remaining = { left_of };

    fn next(&mut self) -> Option<(SocketHandle, &'s Socket<'a, G>)> {
        while let Some(slot) = self.slots.get(self.index) {
            let index = self.index;
            self.index += 1;
            if let Some(socket) = &slot.socket {
                let handle = SocketHandle {
                    index,
                    generation: slot.generation,
                };
                return Some((handle, socket));
            }
        }
        None
    }
}

impl<'a, G: TsvalSource> Filed<Slot<'a, G>> {
    /// The sockets with their handles, in the order of handles. As smoltcp's.
    pub fn iter(&self) -> Iter<'_, 'a, G>
        ensures slots { result.slots.now ≡ self.now.slots.items }
        ensures index { result.index ≡ 0 }
    {
        Iter {
            slots: &self.slots,
            index: 0,
        }
    }
}
