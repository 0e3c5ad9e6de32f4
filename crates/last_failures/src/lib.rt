//! How the tests of the failing set failed last.
//!
//! What a last failure is stands in docs/FORMATS.md, "What the runs say together". The runs are read from the last one back, each once, until each id has its row.
//!
//! - `failures`: rows by their ids, and packets with them
//! - `ids_without_row`: the ids that have no row yet
//! - `parts`: the packets of the parts of some tests, while the events of a run come
//! - `gathered_parts`, `run_parts`: the rows of a run that is read in pieces, and these packets
//! - `runs`: the same of a run of a store
//! - `search_state`: the rows that were found so far, and the ids that have none yet
//! - `store_search`: the runs of a store, from the last one back
//! - `texts`: what is printed of them
//! - `laws`: what holds of the parts of all rows that fail
//!
//! For want of memory a call answers `NoMemory`. Its tests stand in a room above it, `load_trials`.
#![tactic(auto)]

mod failures;
mod gathered_parts;
mod ids_without_row;
mod laws;
mod parts;
mod run_parts;
mod runs;
mod search_state;
mod store_search;
mod texts;

pub use failures::{Failure, LastFailures};
pub use laws::failures_have_parts;
pub use parts::Packets;
pub use store_search::last_failures;
pub use texts::{last_failures_text, last_packets_text};
