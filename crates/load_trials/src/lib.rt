//! Tests of `testr` over the forms in memory: the words of each command, and `init`, `load`, the questions and `selftest`. No
//! program uses it.
//!
//! They use the public names of the program alone, and stand above it, so that the proofs of its crate are not made once
//! more for them. `folders` and `runs` have what some of them are made with.
#![tactic(auto)]

pub mod folders;
#[cfg(test)]
mod other_folder;
pub mod runs;
#[cfg(test)]
mod tests_ask;
#[cfg(test)]
mod tests_copying;
#[cfg(test)]
mod tests_expect;
#[cfg(test)]
mod tests_failing;
#[cfg(test)]
mod tests_files;
#[cfg(test)]
mod tests_force;
#[cfg(test)]
mod tests_from;
#[cfg(test)]
mod tests_from_faults;
#[cfg(test)]
mod tests_live;
#[cfg(test)]
mod tests_load;
#[cfg(test)]
mod tests_options;
#[cfg(test)]
mod tests_program;
#[cfg(test)]
mod tests_selftest;
#[cfg(test)]
mod tests_store;
#[cfg(test)]
mod tests_upgrade;
#[cfg(test)]
mod tests_words;
