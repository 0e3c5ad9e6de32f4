//! A repository of numbered runs in a folder, which no stop can damage.
//!
//! For want of memory a public call answers `NoMemory`, which comes for nothing else; what it was lent is then as
//! before, where it does not say otherwise. What it did outside by then stands.
//!
//! - `faults`: which call of the folder failed, and why a call of this crate was refused
//! - `found`: what is known of a folder that was looked at
//! - `file`: one file more, wholly or not at all, and the file that makes a folder a repository
//! - `names`: the names of the files of runs, and a look which runs a folder has
//! - `run`: one run, begun, added to and finished, and read; and the recording of it over a folder that is held
//! - `cache_file`: the files of the caches, put beside the runs, and read
//! - `store`: a repository that holds its folder, and the opening of it
//! - `id_file`, `base_set`: files of ids, and the base of a folder that another program began
//! - `adoption`: the last steps of taking such a folder over
//! - `laws`: the runs that a repository shows, and what keeps them
//!
//! The calls over a folder that is lent for the call alone say what it is at each exit. `Store` and `Recorder` hold the
//! folder in between.
#![tactic(auto)]

mod adoption;
mod base_set;
mod cache_file;
mod faults;
mod file;
mod found;
mod id_file;
mod laws;
mod names;
mod run;
mod store;

pub use adoption::{adopt, place_converted};
pub use base_set::{Base, read_base};
pub use cache_file::{CacheFile, read_cache_file, write_cache_file};
pub use faults::{
    CacheFileFault, FileFault, InitFault, OpenFault, ShelfCall, StartFault, StoreFault,
};
pub use file::make_repository;
pub use found::{Found, MOST_RUNS};
pub use id_file::{IdFile, read_id_file};
pub use laws::{caches_keep_the_runs, old_folders_stay_old, repositories_show_runs};
pub use names::survey;
pub use run::{Recorder, Recording, add_packet, begin_run, finish_run, read_run, run_length};
pub use store::Store;
