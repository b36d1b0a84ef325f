//! The extension headers of IPv6 (RFC 8200, section 4).
#![tactic(auto)]

pub mod behind;

pub use behind::{Behind, MOST_HEADERS, behind_headers};
