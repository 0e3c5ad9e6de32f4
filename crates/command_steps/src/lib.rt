//! The steps that commands are chains of.
//!
//! Each step is one call, whose contract says what it does to the folder, the files, the programs and the sinks, and why it
//! refuses. This room knows the refusals of all steps, with the status and the line of each. It knows neither the order of
//! the steps in a command nor how words are written.
//!
//! For want of memory a call refuses so, and for nothing else; what it did outside by then stands, and its status is 5.
//!
//! - `store`, `cache_refresh`: the folder: made, opened, a run begun and kept, the caches brought up to it
//! - `input_recorder`, `files`: what is recorded of the input, or of files
//! - `question_answers`, `ledger_queries`, `run_copy`: what is told of the runs, and a run's bytes
//! - `run_report`, `report_printer`: the report of a run, made and printed
//! - `live_lines`: what is said of a run while it goes on
//! - `times_file`: times that a file holds
//! - `test_selection`, `work_plan`, `worker_run`: which tests run, what each worker is started with, and the workers themselves
//! - `instances`: what the tests run on, provided in front of a run and disposed of behind it
//! - `folder_upgrade`: a folder of the original tool, made a repository
//! - `causes`: which test makes another one fail
//! - `answer`, `usage`, `suite_refusals`: the verdict of a command, and the refusals by step
//! - `refusal_line`: the lines that tell of them
//!
//! Its tests stand in rooms of their own above `testr_cli`, `load_trials` and `run_trials`.
#![tactic(auto)]

mod answer;
mod cache_refresh;
mod causes;
mod files;
mod folder_upgrade;
mod input_recorder;
mod instances;
mod ledger_queries;
mod live_lines;
mod question_answers;
mod refusal_line;
mod report_printer;
mod run_copy;
mod run_report;
mod store;
mod suite_refusals;
mod test_selection;
mod times_file;
mod usage;
mod work_plan;
mod worker_run;

pub use answer::{Refusal, Verdict};
pub use cache_refresh::refresh_caches;
pub use causes::find_causes;
pub use files::{Recorded, record_sources};
pub use folder_upgrade::{print_upgraded, upgrade_folder};
pub use input_recorder::RecordFault;
pub use instances::{
    Provided, Unprovided, dispose, provide, provision_code, provision_line, provision_said,
};
pub use live_lines::{Silenced, say_end};
pub use question_answers::{TellFault, Told, find_answer};
pub use refusal_line::{Line, Part, tell_line};
pub use report_printer::print_report;
pub use run_copy::{CopyFault, copy_last};
pub use run_report::{Ending, PrintFault, end_report, print_text, verdict_of_summary};
pub use store::{
    KeepFault, RunsFault, check_has_run, check_next_number, keep_run, make_store,
    make_store_where_none, open_store, start_run,
};
pub use test_selection::{
    Further, FurtherRefusal, Selected, count_workers, read_further, read_ids, select_tests,
};
pub use times_file::{MOST_TIMES, TimesRefusal};
pub use usage::UsageFault;
pub use work_plan::{LongId, WorkPlan, plan_workers};
pub use worker_run::{Kept, run_workers};
