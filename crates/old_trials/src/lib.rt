//! Tests of old_runs: files of the original tool. No program uses it.
//!
//! They use the public names of the room alone, and stand above it, so that its proofs are not made once more for its tests.
//! `chunks` has what some of them are made with.
#![tactic(auto)]

pub mod chunks;
#[cfg(test)]
mod read;
#[cfg(test)]
mod tests_failing;
#[cfg(test)]
mod tests_packets;
