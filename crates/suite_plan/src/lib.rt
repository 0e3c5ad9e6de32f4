//! What a run of a project's own test suite is made of: its configuration, which tests run, in how many workers, and what
//! each worker is started with.
//!
//! This room knows the files and the programs that these are read from, by the traits of the outside; it knows nothing of
//! the runs that are kept, nor of what workers give. The rules stand in docs/FORMATS.md, "The configuration", "Lists of
//! ids", "Jobs", "Patterns" and "Shares", and in docs/COMMANDS.md.
//!
//! For want of memory a public call answers `NoMemory`, which comes for nothing else; what it was lent is then as
//! before, where it does not say otherwise. What it did outside by then stands.
//!
//! - `texts`: files that are read whole, and must not be too long
//! - `conf_file`, `load_list`, `pattern_list`, `processors`: the configuration, a list of ids, one of patterns, and the table
//!   of processors
//! - `output`, `listing_reader`, `notes`: what a child gives, read to its end
//! - `test_listing`, `count_command`, `output_number`: the tests that the project's listing tells of, and the number of workers that it calls out
//! - `provisioning`, `disposing`: the instances that the project provisions, and the end of them
//! - `listed`, `first_ids`, `file_texts`, `tail`: the ids that a listing tells, each once, and what is told of a program that failed
//! - `patterns`, `picks`, `choice`: which of the tests run
//! - `worker_shares`, `lane_jobs`: which shard has which of them, which worker runs which of them, and the job of each worker
//! - `laws`: what is told of every output, and how shards share the ids
#![tactic(auto)]

mod choice;
mod conf_file;
mod count_command;
mod disposing;
mod file_texts;
mod first_ids;
mod lane_jobs;
mod laws;
mod listed;
mod listing_reader;
mod load_list;
mod notes;
mod output;
mod output_number;
mod pattern_list;
mod patterns;
mod picks;
mod processors;
mod provisioning;
mod tail;
mod test_listing;
mod texts;
mod worker_shares;

pub use choice::{choose_ids, chosen_ids, ids_in_both};
pub use conf_file::{BadConf, ConfFile, ConfRefusal, read_conf, read_own_conf};
pub use count_command::{CallRefusal, run_count_command};
pub use disposing::{Disposal, DisposeFault};
pub use first_ids::first_of_each;
pub use lane_jobs::jobs_of_lanes;
pub use laws::{outputs_tell_one_text, shards_are_shares};
pub use load_list::{ListRefusal, read_load_list};
pub use pattern_list::{BadLine, PatternListRefusal, read_pattern_list};
pub use patterns::{Compiled, PatternRefusal, compile_picks};
pub use picks::{FurtherPicks, Picks};
pub use processors::{TableRefusal, count_processors};
pub use provisioning::{ProvisionRefusal, provision, workers_on};
pub use test_listing::{ListingRefusal, list_tests};
pub use worker_shares::{MOST_WORKERS, ids_of_shard, share_out_ids};
