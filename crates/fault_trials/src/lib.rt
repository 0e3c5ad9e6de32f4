//! Tests of all commands and filters over an outside that fails: each call of each of its objects, one after another, and a stop
//! at each moment. No program uses it.
//!
//! They use the public names of the program alone, and stand above it, so that the proofs of its crate are not made once more for
//! them. The loop over the calls is written once, and takes the command as its argument.
//!
//! - `breaking`: the object that fails, and which of its calls
//! - `scripts`: a command, what it finds, and what it tells where nothing fails
//! - `trying`: the loop
//! - `tests_*`: the tests
#![tactic(auto)]

pub mod breaking;
#[cfg(test)]
mod scripts;
#[cfg(test)]
mod tests_children;
#[cfg(test)]
mod tests_commands;
#[cfg(test)]
mod tests_filters;
#[cfg(test)]
mod trying;
