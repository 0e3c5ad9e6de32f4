//! Subunit version 1 both ways: its lines as events, and events as its lines.
//!
//! - `reader`: lines in turn, and the events that they give.
//! - `line`: what one line is.
//! - `tags` and `name`: tags and how a line changes them, and the texts that ids and tags are.
//! - `details_stage`, `part` and `chunk_size`: details of tests, of lines or of parts with chunks.
//! - `event`: the events that are given.
//! - `writer`: events in turn, and the lines that they give.
//! - `part_lines`: the lines of one part of a test.
//! - `laws`: what is written note by note is the text of the notes, and is read again.
#![tactic(auto)]

mod chunk_size;
mod details_stage;
mod event;
mod laws;
mod line;
mod name;
mod part;
mod part_lines;
mod reader;
mod tags;
mod writer;

pub use laws::{rows_read_again, texts_are_written_in_turn};
pub use reader::{V1Reader, is_short};
pub use writer::V1Writer;
