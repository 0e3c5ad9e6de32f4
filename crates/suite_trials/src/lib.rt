//! Tests of what a run is made of, of its workers, and of all of them at once. No program uses it.
//!
//! They use the public names of the rooms alone, and stand above them, so that the proofs of a room are not made once more for
//! its tests. Each file has the room in its name. `many_jobs` has what some of them are made with.
#![tactic(auto)]

pub mod many_jobs;
#[cfg(test)]
mod tests_suite_plan_children;
#[cfg(test)]
mod tests_suite_plan_choice;
#[cfg(test)]
mod tests_suite_plan_files;
#[cfg(test)]
mod tests_suite_plan_instances;
#[cfg(test)]
mod tests_suite_plan_said;
#[cfg(test)]
mod tests_suite_run;
#[cfg(test)]
mod tests_suite_run_starting;
#[cfg(test)]
mod tests_worker_mux;
#[cfg(test)]
mod tests_worker_mux_run;
