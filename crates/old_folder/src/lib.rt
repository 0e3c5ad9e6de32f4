//! A folder of runs that the original tool made: a look at it, its files, and what an upgrade makes of it.
//!
//! - `faults`: why a folder is not taken for one of the original tool
//! - `short_file`: a short file, read at once
//! - `next_number`: the number that comes next, as that tool spells it
//! - `names`: the names of the files of runs, and how many runs there are by them
//! - `folder_survey`: the look at a folder: its format, its names, and its number that comes next
//! - `files`: the files that are read whole, by pieces
//! - `base`: the bytes of a base
//! - `laws`: what stays of the folder while its runs are converted, and what it is behind that
//!
//! The converted runs are placed, and the folder is taken over, by `place_converted` and `adopt` of `run_shelf`.
#![tactic(auto)]

mod base;
mod faults;
mod files;
mod folder_survey;
mod laws;
mod names;
mod next_number;
mod short_file;

pub use base::base_bytes;
pub use faults::OldFault;
pub use files::{OldName, old_length, read_old};
pub use folder_survey::survey_old;
pub use laws::{conversions_go_on, old_folders_stay_open};
