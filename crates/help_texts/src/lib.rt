//! Words that the program answers before it does what the others say: those that ask for the texts of `--help` and
//! `--version`, those that name the folder to work in, and those that name the file that a filter writes.
//!
//! - `testr_help`: which words ask for a text; the texts of `testr` and its commands
//! - `filter_help`: those of the filters
//! - `folder_words`: which words name the folder
//! - `output_words`: which words name the file of a filter's output
//!
//! Its tests stand in a room above it, `outside_trials`.
#![tactic(auto)]

mod filter_help;
mod folder_words;
mod output_words;
mod testr_help;

pub use folder_words::{Parted, take_folder_words};
pub use output_words::{Aimed, take_output_words};
pub use testr_help::help_of_testr;
