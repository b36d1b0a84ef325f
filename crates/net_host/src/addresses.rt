//! The addresses of an interface change.
ghost use Rattle.std.specs.Prelude.{◌≡◌};

use crate::cidr::IpCidr;
use crate::interface::Interface;

impl<W> Interface<W> {
    /// Sets the addresses, as after a lease of DHCP: from the next packet on. A connection from an address that is no
    /// longer there ends, with nothing sent, when its socket is next polled, as smoltcp's.
    pub fn set_addresses(&mut self, addresses: Vec<IpCidr>)
        ensures addresses { self.new.inner.environment.addresses ≡ addresses }
        ensures environment { (self.new.inner.environment.now ≡ self.old.inner.environment.now)
            × (self.new.inner.environment.mtu ≡ self.old.inner.environment.mtu)
            × (self.new.inner.environment.checksums ≡ self.old.inner.environment.checksums)
            × (self.new.inner.words ≡ self.old.inner.words) }
        ensures same { (self.new.turn ≡ self.old.turn) × (self.new.resets ≡ self.old.resets)
            × (self.new.errors ≡ self.old.errors) × (self.new.counters ≡ self.old.counters)
            × (self.new.guards ≡ self.old.guards) × (self.new.cookies ≡ self.old.cookies)
            × (self.new.groups ≡ self.old.groups)
            × (self.new.most_of_source ≡ self.old.most_of_source) }
    {
        self.inner.environment.addresses = addresses;
    }
}
