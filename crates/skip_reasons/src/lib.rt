//! Why tests were skipped, and how many for each reason.
//!
//! What is printed is defined in docs/COMMANDS.md, "Skips".
#![tactic(auto)]

mod skips;

pub use skips::skips_text;
