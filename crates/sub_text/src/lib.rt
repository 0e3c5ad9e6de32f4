//! The texts that are printed of a run: its report and summary, its failing ids, and its slowest tests.
//!
//! The texts stand in docs/COMMANDS.md under "Printed texts". `specs/` states each of them as a list of bytes that the
//! rows, ids and numbers decide.
//!
//! For want of memory a public call answers `NoMemory`, which comes for nothing else; what it was lent is then as
//! before, where it does not say otherwise.
//!
//! - `report`, `summary`: the report of a run, and how it ends
//! - `failing_ids`, `slowest`, `stats`: failing ids, slowest tests, and counts
//! - `list_line`: the line of an id in the listing of a stream
//! - `seconds`: times in seconds
//! - `laws`: the summary of lanes does not tell in which order they come
#![tactic(auto)]

mod failing_ids;
mod laws;
mod list_line;
mod report;
mod seconds;
mod slowest;
mod stats;
mod summary;

pub use failing_ids::failing_text;
pub use laws::texts_are_of_lanes_in_turn;
pub use list_line::ls_line;
pub use report::{failure_parts, report_text};
pub use seconds::seconds_text;
pub use slowest::slowest_text;
pub use stats::{counts_text, stats_text};
pub use summary::{summary_from, summary_text};
