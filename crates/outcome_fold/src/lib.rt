//! What became of the tests of a stream: its events folded into rows, one for each part of a test's events.
//!
//! The rules stand in docs/FORMATS.md under "The fold". `specs/` states them of whole lists of events.
//!
//! For want of memory a public call answers `NoMemory`, which comes for nothing else; what it was lent is then as
//! before, where it does not say otherwise.
//!
//! - `test_key`: which test an event speaks of
//! - `lines`: the end of a line that a text ends within
//! - `files`: the files of text of a part of a test, as far as they are kept, and the text that shows them
//! - `part`: what the events of a part of a test say together
//! - `row`: how a test ended, and what became of it
//! - `fold`: the events folded into rows, as they come, and of a whole run
//! - `rows`: the rows of a run, in their groups, how many there are, and what they say
//! - `row_sums`, `summary`, `longest_times`: what is kept of them where the rows that pass are not
//! - `row_listener`: who hears each row before it is summed up
//! - `text_set`: texts in the order of their bytes, each once
//! - `laws`, `half_laws`: what holds of the rows of all events, and where an event stands in two halves
#![tactic(auto)]

mod files;
mod fold;
mod half_laws;
mod laws;
mod lines;
mod longest_times;
mod part;
mod row;
mod row_listener;
mod row_sums;
mod rows;
mod summary;
mod test_key;
mod text_set;

pub use files::{BoxedFiles, KeptFiles};
pub use fold::{Fold, Outcomes};
pub use half_laws::halves_say_the_same;
pub use laws::{orders_of_maps, rows_are_by_route, rows_of_events};
pub use lines::line_end;
pub use longest_times::keep_longest;
pub use part::{
    EndedPart, KeptText, Started, elapsed, file_name_in, instant_in, instant_of, reason_heard,
    reason_in, text_heard, text_in,
};
pub use row::{Counts, Ended, Row, ended_by};
pub use row_listener::RowListener;
pub use row_sums::RowSums;
pub use rows::{Rows, count_with};
pub use summary::{Summary, Timed};
pub use test_key::{TestKey, key_in, key_of};
pub use text_set::{TextSet, copies_of, in_order, sorted_tags};
