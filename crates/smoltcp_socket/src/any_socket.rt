//! From a socket to the enum of all kinds, and back.

use crate::socket::Socket;
use sock_dgram::{icmp, raw, udp};

/// A kind of socket, or the enum of all kinds.
///
/// `G` is that of the enum `Socket<'a, G>`: the type of a TCP socket's source of timestamps.
pub trait AnySocket<'a, G>: Sized {
    ghost use Rattle.std.specs.Prelude.{◌≡◌, Option, Some, option_map};
    ghost use Rattle.std.specs.Borrow.{sem};
    ghost use Rattle.smoltcp_socket.specs.declared.socket.Socket.{Socket};
    ghost use Rattle.smoltcp_socket.specs.Lends.{lends_kind};

    // the enum that holds this socket
    ghost held: { Self → Socket G };

    // the socket that the enum holds, where it is of this kind
    ghost of_kind: { Socket G → Option Self };

    /// The enum that holds this socket.
    fn upcast(self) -> Socket<'a, G>
        ensures { result ≡ held self };

    /// The socket that the enum holds; `None` where it is of another kind.
    fn downcast<'c>(socket: &'c Socket<'a, G>) -> Option<&'c Self>
        ensures { option_map (λ s. s.now) result ≡ of_kind socket.now };

    /// Borrows the socket for writing; `None` where the enum holds another kind. Afterwards the enum holds what was
    /// left behind the reference; where nothing was borrowed it is unchanged.
    fn downcast_mut<'c>(socket: &'c mut Socket<'a, G>) -> Option<&'c mut Self>
        ensures* writes_back { sem 𝓛 (lends_kind G.row Self.row socket.entry result held) }
        ensures value { option_map (λ s. s.now) result ≡ of_kind socket.old };

    // an upcast socket is of its kind, and is the one that was upcast
    ghost gives_back: { (s : Self) → of_kind (held s) ≡ Some s };

    // the enum of a socket that was downcast is the one that it came from
    ghost from_its_enum: { (e : Socket G) (s : Self) → of_kind e ≡ Some s → held s ≡ e };
}

/// Any socket is of the enum's own kind.
impl<'a, G> AnySocket<'a, G> for Socket<'a, G> {
    ghost use Rattle.std.specs.Prelude.{refl, Some};
    ghost use Rattle.std.proofs.Common.{rules};

    ghost held = { λ s. s };

    ghost of_kind = { λ e. Some e };

    ghost gives_back = { λ s. refl };

    ghost from_its_enum = { λ e s h. Prim.search rules };

    fn upcast(self) -> Socket<'a, G> {
        self
    }

    fn downcast<'c>(socket: &'c Socket<'a, G>) -> Option<&'c Self> {
        Some(socket)
    }

    fn downcast_mut<'c>(socket: &'c mut Socket<'a, G>) -> Option<&'c mut Self> {
        Some(socket)
    }
}

impl<'a, G> AnySocket<'a, G> for raw::Socket<'a> {
    ghost use Rattle.std.proofs.Common.{refl, rules};
    ghost use Rattle.smoltcp_socket.specs.Kinds.{raw_of};
    ghost use Rattle.smoltcp_socket.specs.declared.socket.Socket.TheVariants.{Raw};

    ghost held = { Raw };

    ghost of_kind = { raw_of };

    ghost gives_back = { λ s. refl };

    ghost from_its_enum = { λ e s h. Prim.search rules };

    fn upcast(self) -> Socket<'a, G> {
        Socket::Raw(self)
    }

    fn downcast<'c>(socket: &'c Socket<'a, G>) -> Option<&'c Self> {
        match socket {
            Socket::Raw(held) => Some(held),
            _ => None,
        }
    }

    fn downcast_mut<'c>(socket: &'c mut Socket<'a, G>) -> Option<&'c mut Self> {
        match socket {
            Socket::Raw(lent) => Some(lent),
            _ => None,
        }
    }
}

impl<'a, G> AnySocket<'a, G> for icmp::Socket<'a> {
    ghost use Rattle.std.proofs.Common.{refl, rules};
    ghost use Rattle.smoltcp_socket.specs.Kinds.{icmp_of};
    ghost use Rattle.smoltcp_socket.specs.declared.socket.Socket.TheVariants.{Icmp};

    ghost held = { Icmp };

    ghost of_kind = { icmp_of };

    ghost gives_back = { λ s. refl };

    ghost from_its_enum = { λ e s h. Prim.search rules };

    fn upcast(self) -> Socket<'a, G> {
        Socket::Icmp(self)
    }

    fn downcast<'c>(socket: &'c Socket<'a, G>) -> Option<&'c Self> {
        match socket {
            Socket::Icmp(held) => Some(held),
            _ => None,
        }
    }

    fn downcast_mut<'c>(socket: &'c mut Socket<'a, G>) -> Option<&'c mut Self> {
        match socket {
            Socket::Icmp(lent) => Some(lent),
            _ => None,
        }
    }
}

impl<'a, G> AnySocket<'a, G> for udp::Socket<'a> {
    ghost use Rattle.std.proofs.Common.{refl, rules};
    ghost use Rattle.smoltcp_socket.specs.Kinds.{udp_of};
    ghost use Rattle.smoltcp_socket.specs.declared.socket.Socket.TheVariants.{Udp};

    ghost held = { Udp };

    ghost of_kind = { udp_of };

    ghost gives_back = { λ s. refl };

    ghost from_its_enum = { λ e s h. Prim.search rules };

    fn upcast(self) -> Socket<'a, G> {
        Socket::Udp(self)
    }

    fn downcast<'c>(socket: &'c Socket<'a, G>) -> Option<&'c Self> {
        match socket {
            Socket::Udp(held) => Some(held),
            _ => None,
        }
    }

    fn downcast_mut<'c>(socket: &'c mut Socket<'a, G>) -> Option<&'c mut Self> {
        match socket {
            Socket::Udp(lent) => Some(lent),
            _ => None,
        }
    }
}

impl<'a, G> AnySocket<'a, G> for sock_tcp::Socket<'a, G> {
    ghost use Rattle.std.proofs.Common.{refl, rules};
    ghost use Rattle.smoltcp_socket.specs.Kinds.{tcp_of};
    ghost use Rattle.smoltcp_socket.specs.declared.socket.Socket.TheVariants.{Tcp};

    ghost held = { Tcp };

    ghost of_kind = { tcp_of };

    ghost gives_back = { λ s. refl };

    ghost from_its_enum = { λ e s h. Prim.search rules };

    fn upcast(self) -> Socket<'a, G> {
        Socket::Tcp(self)
    }

    fn downcast<'c>(socket: &'c Socket<'a, G>) -> Option<&'c Self> {
        match socket {
            Socket::Tcp(held) => Some(held),
            _ => None,
        }
    }

    fn downcast_mut<'c>(socket: &'c mut Socket<'a, G>) -> Option<&'c mut Self> {
        match socket {
            Socket::Tcp(lent) => Some(lent),
            _ => None,
        }
    }
}
