//! The failures of a run as notes that a build server reads in its log.
//!
//! - `message_escapes`: bytes that cannot stand as they are
//! - `spots`: where a test failed, by the text that it wrote
//! - `notes`: the lines; `laws`: each is one line
//!
//! For want of memory a public call answers `NoMemory`, which comes for nothing else; what it was lent is then as before. Its
//! rows stand in a room above it, `fold_rows`.
#![tactic(auto)]

mod laws;
mod message_escapes;
mod notes;
mod spots;

pub use laws::notes_are_lines;
pub use notes::notes_text;
