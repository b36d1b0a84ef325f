//! Laws of the kinds of sockets, in the words of the contracts.
ghost use Rattle.std.specs.Prelude.{◌≡◌, Some, None};
ghost use Rattle.smoltcp_socket.specs.Kinds.{raw_of, icmp_of, udp_of, tcp_of};
ghost use Rattle.smoltcp_socket.specs.declared.socket.Socket.TheVariants.{Raw, Icmp, Udp, Tcp};

/// The enum of a socket that was upcast gives that socket back for its own kind, and nothing for the three others.
pub fn kinds_are_apart<G>()
    ensures raw { (s : _) → (raw_of {G = G} (Raw s) ≡ Some s) × (icmp_of {G = G} (Raw s) ≡ None)
        × (udp_of {G = G} (Raw s) ≡ None) × (tcp_of {G = G} (Raw s) ≡ None) }
    ensures icmp { (s : _) → (raw_of {G = G} (Icmp s) ≡ None) × (icmp_of {G = G} (Icmp s) ≡ Some s)
        × (udp_of {G = G} (Icmp s) ≡ None) × (tcp_of {G = G} (Icmp s) ≡ None) }
    ensures udp { (s : _) → (raw_of {G = G} (Udp s) ≡ None) × (icmp_of {G = G} (Udp s) ≡ None)
        × (udp_of {G = G} (Udp s) ≡ Some s) × (tcp_of {G = G} (Udp s) ≡ None) }
    ensures tcp { (s : _) → (raw_of {G = G} (Tcp s) ≡ None) × (icmp_of {G = G} (Tcp s) ≡ None)
        × (udp_of {G = G} (Tcp s) ≡ None) × (tcp_of {G = G} (Tcp s) ≡ Some s) }
{}
