//! A filter whose output becomes a file, which takes its name at the end: whole, or not at all.
//!
//! - `output_draft`: the filter into a draft, and what becomes of that
//!
//! Its tests stand in a room above it, `filter_trials`.
#![tactic(auto)]

mod output_draft;

pub use output_draft::filters_to_file;
