//! A host of many sockets, as C holds it: an interface, and the sockets that it speaks for.
ghost use Rattle.std.specs.Prelude.{Option};
ghost use Rattle.std.specs.Borrow.{full_share};
ghost use Rattle.std.specs.Ptr.{lies_at};
ghost use Rattle.smoltcp_c.specs.Memory.{held_at};
ghost use Rattle.smoltcp_c.specs.contracts.host.Host.{the_row as host_row};
ghost use Rattle.smoltcp_c.specs.declared.host.Host.{Host};

use crate::clock::Clock;
use net_host::{Interface, Secret, SocketSet};
use std::marker::Model;

/// An interface, and the sockets that it speaks for.
#[derive(Drop)]
pub struct Host {
    pub interface: Interface<Secret>,
    pub sockets: SocketSet<'static, Clock>,
}

/// A host that lies at `at`.
#[repr(C)]
pub struct HostHandle {
    pub at: *mut u8,
    pub ghost host: { Host },
}

impl Model for HostHandle {
    ghost also_owns = { λ h. lies_at host_row full_share h.at h.host };
}

/// Room for a host at `at`, or the host that was made there.
#[repr(C)]
pub struct HostRoom {
    pub at: *mut u8,
    pub ghost made: { Option Host },
}

impl Model for HostRoom {
    ghost also_owns = { λ r. held_at host_row r.at r.made };
}
