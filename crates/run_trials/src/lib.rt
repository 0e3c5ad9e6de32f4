//! Tests of `testr run` and `testr list-tests` over the forms in memory: the order of the steps, the jobs, the workers, the
//! run that is kept, what is said of it, and files that are too long. No program uses it.
//!
//! They use the public names of the program alone, and stand above it, so that the proofs of its crate are not made once
//! more for them.
//!
//! - `configured`: the project that most of them are made with
//! - `contents`: what long files and outputs have
//! - `tests_*`: the tests
#![tactic(auto)]

#[cfg(test)]
mod configured;
pub mod contents;
#[cfg(test)]
mod tests_caches;
#[cfg(test)]
mod tests_causes;
#[cfg(test)]
mod tests_children;
#[cfg(test)]
mod tests_instances;
#[cfg(test)]
mod tests_limits;
#[cfg(test)]
mod tests_listing;
#[cfg(test)]
mod tests_live;
#[cfg(test)]
mod tests_missing;
#[cfg(test)]
mod tests_projects;
#[cfg(test)]
mod tests_recording;
#[cfg(test)]
mod tests_runs;
#[cfg(test)]
mod tests_steps;
#[cfg(test)]
mod tests_workers;
