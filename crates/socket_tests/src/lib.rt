//! Tests alone: worked examples of single sockets and of what they stand on, and each call once at a concrete type.
//! They are a crate of their own so that no other is proved again beside them.
#![tactic(auto)]

#[cfg(test)]
mod congestion;
#[cfg(test)]
mod host;
#[cfg(test)]
mod icmp;
#[cfg(test)]
mod ip;
#[cfg(test)]
mod kinds;
#[cfg(test)]
mod messages;
#[cfg(test)]
mod ranges;
#[cfg(test)]
mod raw;
#[cfg(test)]
mod segments;
#[cfg(test)]
mod slices;
#[cfg(test)]
mod storage;
#[cfg(test)]
mod tcp;
#[cfg(test)]
mod tcp_calls;
#[cfg(test)]
mod tcp_poll;
#[cfg(test)]
mod texts;
#[cfg(test)]
mod udp;
