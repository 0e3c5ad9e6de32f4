//! What is made of words, and what is made of tests: events for other tools, and comma-separated records of tests.
//!
//! The rules stand in docs/FORMATS.md under "Events from words" and "Records of tests".
//!
//! For want of memory a public call answers `NoMemory`, which comes for nothing else; what it was lent is then as
//! before, where it does not say otherwise.
//!
//! - `output_job`, `job`: the events that words ask for
//! - `options`, `told_items`, `time_stamp`: what the words say
//! - `record`, `fields`: the record of a part of a test, and a record as a row
//! - `exported_text`: the records, read back
#![tactic(auto)]

mod exported_text;
mod fields;
mod job;
mod options;
mod output_job;
mod record;
mod time_stamp;
mod told_items;

pub use exported_text::{exported_names, exported_records};
pub use output_job::OutputJob;
pub use record::{csv_head, csv_row};
