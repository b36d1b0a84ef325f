//! Memory that C gives a socket, and has back.
ghost use Rattle.std.specs.Prelude.{ℕ, List, Bool};

use std::marker::Model;

/// The longest buffer, in bytes.
pub const LARGEST: usize = 1 << 30;

/// Bytes that nothing else uses from now on.
#[repr(C)]
pub struct Bytes {
    pub at: *mut u8,
    pub len: usize,
    pub ghost bytes: { List ℕ },
}

impl Model for Bytes {
    ghost use Rattle.std.specs.Borrow.{full_share};
    ghost use Rattle.std.specs.Ptr.{lies_at};
    ghost use denote.Array.{Array};
    ghost use denote.Builtin.{u8};

    ghost also_owns = { λ m. lies_at (Array u8 m.len) full_share m.at m.bytes };
}

/// Bytes that were a socket's and are C's again, or none yet.
#[repr(C)]
#[derive(Drop)]
pub struct BytesBack {
    pub at: *mut u8,
    pub len: usize,
    pub ghost given: { Bool },
}

impl Model for BytesBack {
    ghost use denote.Builtin.{u8};
    ghost use Rattle.smoltcp_c.specs.Memory.{items_if};

    ghost also_owns = { λ b. items_if u8 b.at b.len b.given };
}

/// Where some bytes of a socket's buffer lie, and how many they are.
#[repr(C)]
#[derive(Clone, Copy)]
pub struct Place {
    pub at: *const u8,
    pub len: usize,
}
