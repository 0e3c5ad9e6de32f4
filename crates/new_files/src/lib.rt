//! Files that take their names at the end: whole, or not at all.
//!
//! - `files`: what makes them
//! - `mem_new_files`: the form in memory, which fails at the calls that it is told to
//!
//! Its tests stand in a room above it, `outside_trials`.
#![tactic(auto)]

mod files;
mod mem_new_files;

pub use files::NewFiles;
pub use mem_new_files::MemNewFiles;
