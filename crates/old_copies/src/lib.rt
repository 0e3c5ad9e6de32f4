//! The old files of another folder are copied into this one, so that an upgrade may take them over.
//!
//! - `faults`: why they were not copied
//! - `target_check`: the folder here must be none of the two tools
//! - `source_check`: the look at the other folder
//! - `names`: the names that are copied, and whether others stand here
//! - `file`: one file, read there and put here
//! - `folder_copy`: all files, one after another
//! - `laws`: each refusal comes exactly where its cause is
#![tactic(auto)]

mod faults;
mod file;
mod folder_copy;
mod laws;
mod names;
mod source_check;
mod target_check;

pub use faults::OldCopyFault;
pub use folder_copy::copy_old;
pub use laws::copy_refusals_are_exact;
