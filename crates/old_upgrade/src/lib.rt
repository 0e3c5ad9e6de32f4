//! A folder of the original tool becomes a repository of its runs.
//!
//! - `faults`: why it was not made one
//! - `pieces`: how a file is read
//! - `converted_run`: the file of a run, read piece by piece, and recorded behind a draft as it is read
//! - `conversion`: the runs, converted one after another
//! - `failing_set`: what failed last
//! - `whole_upgrade`: the whole
//! - `laws`: what an upgrade leaves is sound
#![tactic(auto)]

mod conversion;
mod converted_run;
mod failing_set;
mod faults;
mod laws;
mod pieces;
mod whole_upgrade;

pub use faults::UpgradeFault;
pub use laws::upgraded_folders_are_sound;
pub use whole_upgrade::upgrade;
