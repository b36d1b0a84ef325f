//! A socket dispatches into nothing what its host has sent for it.
ghost use Rattle.std.specs.Prelude.{◌≡◌, ◌<◌, length};
ghost use Rattle.sock_tcp.specs.Dispatch.{Dispatches};
ghost use Rattle.net_host.specs.Touching.{Touches};
ghost use Rattle.net_host.specs.Unsent.{Passes, PassesAt, Swallows, swallowing};

use crate::set::SocketSet;
use crate::slot::Slot;
use crate::wire::TooShort;
use smoltcp_socket::wire::{IpRepr, TcpRepr};
use smoltcp_socket::{Context, Socket, tcp};
use sock_tcp::TsvalSource;

// The socket's own dispatch, whose emit does nothing.
fn swallow<C: Context, G: TsvalSource>(
    socket: &mut tcp::Socket<'_, G>,
    cx: &mut C,
) -> Result<(), TooShort>
    ensures table { Dispatches swallowing tt (C.facts cx.old) G.tells socket.old.tsval_generator
        socket.old.control_block cx.old result socket.new.control_block cx.new }
    ensures generator { socket.new.tsval_generator ≡ socket.old.tsval_generator }
{
    socket.dispatch(
        cx,
        move |cx: &mut C, _sent: (IpRepr, TcpRepr<'_>)| -> Result<(), TooShort>
            ensures { Swallows cx.entry.now result cx.exit.now }
        { Ok(()) },
    )
}

impl<'a, G: TsvalSource> Slot<'a, G> {
    fn pass<C: Context>(&mut self, cx: &mut C) -> Result<(), TooShort>
        ensures { Passes C.facts G.tells self.old cx.old result self.new cx.new }
    {
        match &mut self.socket {
            Some(Socket::Tcp(tcp)) => swallow(tcp, cx),
            _ => Ok(()),
        }
    }
}

fn pass_there<C: Context, G: TsvalSource>(
    slots: &mut Vec<Slot<'_, G>>,
    i: usize,
    cx: &mut C,
) -> Result<(), TooShort>
    requires { i < length slots.old.items }
    ensures { PassesAt C.facts G.tells slots.old.items i cx.old result slots.new.items cx.new }
{
    slots[i].pass(cx)
}

/// The TCP socket at this place dispatches into nothing.
pub(crate) fn pass_at<C: Context, G: TsvalSource>(
    sockets: &mut SocketSet<'_, G>,
    i: usize,
    cx: &mut C,
) -> Result<(), TooShort>
    requires { i < length sockets.old.slots.items }
    ensures passed { PassesAt C.facts G.tells sockets.old.slots.items i cx.old result sockets.new.slots.items cx.new }
    ensures len { length sockets.new.slots.items ≡ length sockets.old.slots.items }
    ensures touched { Touches sockets.old.bounds sockets.old.slots.items sockets.new.bounds
        sockets.new.slots.items }
    ensures ended { sockets.new.ended ≡ sockets.old.ended }
{
    sockets.lend(i);
    pass_there(&mut sockets.slots, i, cx)
}
