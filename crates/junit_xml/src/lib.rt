//! What became of tests, as a document that build servers read: JUnit XML.
//!
//! The document is defined in docs/FORMATS.md under "JUnit XML". It can be written whole, or in three parts: what stands in
//! front of the cases, the case of each row, and what stands behind them.
//!
//! For want of memory a public call answers `NoMemory`, which comes for nothing else; what it was lent is then as before.
//!
//! - `document`: the tags of a document
//! - `names`: the two names of a test
//! - `characters`: bytes as characters of a document
//! - `seconds`: times in seconds
//! - `laws`: a document tells its rows, and is well-formed, whatever their ids and texts are
#![tactic(auto)]

mod characters;
mod document;
mod laws;
mod names;
mod seconds;

pub use document::{junit_case, junit_head, junit_tail, junit_text};
pub use laws::junit_is_read_back;
