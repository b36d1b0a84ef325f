//! Moments and lengths of time.

pub use net_base::{Duration, Instant};
