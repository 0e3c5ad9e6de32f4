//! Tests of v1_bridge: lines of version 1 as events, and events as such lines. No program uses it.
//!
//! They use the public names of the room alone, and stand above it, so that its proofs are not made once more for its tests.
//! `lines` has what some of them are made with.
#![tactic(auto)]

#[cfg(test)]
mod heard;
pub mod lines;
#[cfg(test)]
mod shown;
#[cfg(test)]
mod tests_again;
#[cfg(test)]
mod tests_reading;
#[cfg(test)]
mod tests_sizes;
#[cfg(test)]
mod tests_writing;
