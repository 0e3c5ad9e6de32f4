//! What the runs of a repository say.
//!
//! This room knows runs as bytes, and what their tests became; it knows nothing of files or of printed text. The rules
//! stand in docs/FORMATS.md, "Streams", "The fold" and "What the runs say together".
//!
//! For want of memory a public call answers `NoMemory`, which comes for nothing else; what it was lent is then as
//! before, where it does not say otherwise. What it did outside by then stands.
//!
//! - `run_reader`, `note_fold`: the rows of one run, read in pieces
//! - `written_run`: the rows of one run, told while it is written
//! - `fault`: why nothing is said of the runs of a store
//! - `rows`: the rows of one run of a store
//! - `failing_set`, `failing_change`: the ids that fail after the runs of a store, told from the last full run on
//! - `latest_times`: the times of the ids in the runs of a store, told from the first one on
//! - `entries`, `longest_times`, `merged_times`: times as the bytes of their cache, and those of one run merged into them
//! - `cache_parts`, `failing_cache`, `times_cache`: the two caches, written and read
//! - `cached_failing`, `cached_times`: the failing set and the times, told with the help of their caches
//! - `fresh_caches`: both caches, written anew for the runs as they are
//! - `laws`, `cache_laws`: each run has one list of rows, each cache holds one thing, and what keeps files sound
//! - `lane_laws`: a run of several lanes has the rows of the lanes one after another
//!
//! Its tests stand in a room above it, `store_trials`.
#![tactic(auto)]

mod cache_laws;
mod cache_parts;
mod cached_failing;
mod cached_times;
mod entries;
mod failing_cache;
mod failing_change;
mod failing_set;
mod fault;
mod fresh_caches;
mod lane_laws;
mod latest_times;
mod laws;
mod longest_times;
mod merged_times;
mod note_fold;
mod rows;
mod run_reader;
mod times_cache;
mod written_run;

pub use cache_laws::{caches_hold_one_thing, what_keeps_files_sound};
pub use cached_failing::failing;
pub use cached_times::times;
pub use failing_cache::{FailingCache, read_failing_cache, write_failing_cache};
pub use fault::{LedgerFault, check_open};
pub use fresh_caches::{refresh, refresh_behind};
pub use lane_laws::lanes_are_read_in_turn;
pub use laws::runs_have_one_list_of_rows;
pub use rows::rows_of;
pub use run_reader::RunReader;
pub use times_cache::{TimesCache, read_times_cache, write_times_cache};
pub use written_run::WrittenRun;
