//! Laws: what is written is read again.
ghost use Rattle.std.specs.Prelude.{◌≡◌, ℕ, List, ◌++◌, length, Bool, true};
ghost use Rattle.ip_wire.specs.Octets.{IsOctets};
ghost use Rattle.ip_wire.specs.Packet.{IsIpv4, checksum_filled, checksum_holds, ipv4_octets, ipv6_octets};
ghost use Rattle.ip_wire.specs.RoundTrip.{IsIpv4Header, IsIpv6Header, ReadsIpv4, ReadsIpv6};
ghost use Rattle.ip_wire.specs.declared.repr.Ipv4Repr.{Ipv4Repr};
ghost use Rattle.ip_wire.specs.declared.repr.Ipv6Repr.{Ipv6Repr};

/// An IPv4 header that `emit` wrote before its payload parses to itself, with that payload, where a checksum that is
/// tested was also sent.
pub fn ipv4_reads_back()
    ensures { (sent tested : Bool) (h : Ipv4Repr) (payload rest : List ℕ) → IsIpv4Header h
        → length payload ≡ h.payload_len → (tested ≡ true → sent ≡ true)
        → ReadsIpv4 tested (ipv4_octets sent h ++ (payload ++ rest)) h payload }
{}

/// An IPv6 header that `emit` wrote before its payload parses to itself, with that payload.
pub fn ipv6_reads_back()
    ensures { (h : Ipv6Repr) (payload rest : List ℕ) → IsIpv6Header h → length payload ≡ h.payload_len
        → ReadsIpv6 (ipv6_octets h ++ (payload ++ rest)) h payload }
{}

/// The checksum that `fill_checksum` writes verifies, whatever the packet.
pub fn filled_checksum_verifies()
    ensures { (packet : List ℕ) → IsOctets packet → IsIpv4 packet → checksum_holds (checksum_filled packet) ≡ true }
{}
