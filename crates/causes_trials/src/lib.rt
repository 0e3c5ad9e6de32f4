//! Tests of the search for the test that makes another one fail. No program uses it.
//!
//! They use the public names of the room alone, and stand above it, so that its proofs are not made once more for its tests.
//! `lines` has what some of them are made with.
#![tactic(auto)]

pub mod lines;
#[cfg(test)]
mod tests_suite_causes;
#[cfg(test)]
mod tests_suite_causes_ran;
