//! Filters: a stream in, a text out, in one pass.
//!
//! For want of memory a public call answers `NoMemory`, which comes for nothing else; what it was lent is then as
//! before, where it does not say otherwise. What it did outside by then stands.
//!
//! - `filters_call`: the top call, from words to an answer
//! - `request`, `letters`, `patterns`, `tag_changes`, `selection`, `tool`: which filter the words ask for
//! - `refusal`, `refusal_line`: why a filter was not done, and the lines that tell of it
//! - `filter`, `pump_loop`: what a filter is, and the one loop that serves them all
//! - `notes`, `byte_filter`, `note_taker`, `note_pump`: filters that go by the notes of a stream
//! - `ls`, `test_filter`, `stats`, `subunit_to_junit`, `subunit_to_tap`, `tag_filter`, `live_trace`: those filters; `tally`: what is
//!   counted; `junit_cases`: cases by route; `loose_output`: output of no test
//! - `tap_filter`, `open_line`, `packets`, `tap_pump`: lines of the Test Anything Protocol as packets
//! - `head_text`, `csv_export`: a text in front of what a filter writes, and the records of tests below the names of their fields
//! - `v1_filter`, `v1_pump`, `subunit_to_v1`: lines of version 1 as packets, and tests as such lines
//! - `attached_file`: the events that words ask for, with the input as a file
//! - `named_input`, `file_loop`: all of them over a file by its name, in place of the input
//! - `event_laws`, `laws`: what filters write of all streams, and that what is too long is refused
//!
//! Its tests stand in a room above it, `filter_trials`.
#![tactic(auto)]

mod attached_file;
mod byte_filter;
mod csv_export;
mod event_laws;
mod file_loop;
mod filter;
mod filters_call;
mod head_text;
mod junit_cases;
mod laws;
mod letters;
mod live_trace;
mod loose_output;
mod ls;
mod named_input;
mod note_pump;
mod note_taker;
mod notes;
mod open_line;
mod packets;
mod patterns;
mod pump_loop;
mod refusal;
mod refusal_line;
mod request;
mod selection;
mod stats;
mod subunit_to_junit;
mod subunit_to_tap;
mod subunit_to_v1;
mod tag_changes;
mod tag_filter;
mod tally;
mod tap_filter;
mod tap_pump;
mod test_filter;
mod tool;
mod v1_filter;
mod v1_pump;

pub use attached_file::{attach_stream, give_event};
pub use byte_filter::ByteFilter;
pub use csv_export::{export_stream, records_of_streams};
pub use event_laws::packets_of_streams;
pub use file_loop::{FileFault, pump_file};
pub use filter::{Filter, StreamEnd};
pub use filters_call::filters;
pub use head_text::FilterBelowText;
pub use laws::{filtered_streams, lines_of_streams, streams_as_events, too_long_is_refused};
pub use ls::Listing;
pub use note_pump::pump_notes;
pub use notes::NoteFilter;
pub use patterns::{Patterns, PatternsFault};
pub use pump_loop::{PumpFault, pump};
pub use refusal::{Refusal, UsageFault};
pub use request::{Asked, Request, read_request};
pub use selection::Selection;
pub use stats::Counting;
pub use tag_changes::TagChanges;
pub use tag_filter::tag_stream;
pub use tap_pump::tap_to_subunit;
pub use test_filter::filter_stream;
pub use tool::{Tool, tool_of_first_word};
pub use v1_pump::v1_to_subunit;
