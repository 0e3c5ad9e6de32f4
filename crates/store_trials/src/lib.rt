//! Tests of the runs that are kept in a folder, and of what they say together. No program uses it.
//!
//! They use the public names of the rooms alone, and stand above them, so that the proofs of a room are not made once more for
//! its tests. Each file has the room in its name. `packets` has what some of them are made with.
#![tactic(auto)]

pub mod packets;
#[cfg(test)]
mod tests_run_ledger;
#[cfg(test)]
mod tests_run_ledger_caches;
#[cfg(test)]
mod tests_run_ledger_refresh;
#[cfg(test)]
mod tests_run_ledger_times;
#[cfg(test)]
mod tests_run_shelf;
#[cfg(test)]
mod tests_run_shelf_sides;
