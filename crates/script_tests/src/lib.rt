//! Tests alone: worked examples of pairs and of the scripts that play them. They are a crate of their own so that no
//! other is proved again beside them.
#![tactic(auto)]

#[cfg(test)]
mod advice_tests;
#[cfg(test)]
mod examples;
#[cfg(test)]
mod memory_tests;
#[cfg(test)]
mod pair_tests;
#[cfg(test)]
mod process_tests;
#[cfg(test)]
mod replays;
#[cfg(test)]
mod script_tests;
#[cfg(test)]
mod stall_tests;
#[cfg(test)]
mod stream_tests;
#[cfg(test)]
mod timer_tests;
