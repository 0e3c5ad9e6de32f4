//! Which tests were asked for and did not run, and what is told of them.
//!
//! What is told is defined in docs/COMMANDS.md, "Tests that did not run". For want of memory a call answers `NoMemory`, which
//! comes for nothing else.
//!
//! - `missing_report`: the tests, and their lines
//! - `laws`: each of them is told of, and no other
#![tactic(auto)]

mod laws;
mod missing_report;

pub use laws::the_missing_are_told_of;
pub use missing_report::{asked_once, each_once, missing_text};
