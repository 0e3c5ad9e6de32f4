//! The Test Anything Protocol both ways: its lines as Subunit events, and rows as its lines.
//!
//! The rules stand in docs/FORMATS.md under "TAP". `specs/` states the grammar of one line apart from what a list of
//! lines means.
//!
//! For want of memory a public call answers `NoMemory`, which comes for nothing else; what it was lent is then as
//! before, where it does not say otherwise.
//!
//! - `blanks`, `number`, `directive`: the parts of a line
//! - `plan`, `test_line`, `line`: what one line is
//! - `ids`, `comment`, `event`: the parts of the events, and the events
//! - `waiting_test`, `reader`: lines in turn, and the events that they give
//! - `writer`: rows as lines
//!
//! Its tests stand in a room above it, `filter_trials`.
#![tactic(auto)]

mod blanks;
mod comment;
mod directive;
mod event;
mod ids;
mod line;
mod number;
mod plan;
mod reader;
mod test_line;
mod waiting_test;
mod writer;

pub use reader::TapReader;
pub use writer::TapWriter;
