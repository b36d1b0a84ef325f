//! Tests alone: rows of a host's table that no clause speaks of as a whole, between two hosts.
#![tactic(auto)]

#[cfg(test)]
mod cookies;
#[cfg(test)]
mod crowds;
#[cfg(test)]
mod datagrams;
#[cfg(test)]
mod devices;
#[cfg(test)]
mod ends;
#[cfg(test)]
mod hosts;
#[cfg(test)]
mod limits;
#[cfg(test)]
mod lost;
#[cfg(test)]
mod offers;
#[cfg(test)]
mod paths;
#[cfg(test)]
mod sizes;
#[cfg(test)]
mod sources;
#[cfg(test)]
mod strays;
