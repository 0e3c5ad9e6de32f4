//! Calls of the program over the forms in memory, for the tests of its commands. No program uses it.
//!
//! The calls here promise nothing of the program, and use its public names alone. So the proof of a test says only that it
//! is safe, and stays small.
//!
//! - `samples`: streams and lines that several tests share
//! - `folders`, `projects`: folders of runs, and projects with their programs
//! - `call_outcome`, `calls`: a call of the program, and what it answered and wrote
//! - `load_calls`: calls that read an input, and whether they tell what they should
//! - `scenes`: all that a call of `run` or `list-tests` finds, and what it leaves
#![tactic(auto)]

mod call_outcome;
mod calls;
mod folders;
mod load_calls;
mod projects;
mod samples;
mod scenes;

pub use call_outcome::CallOutcome;
pub use calls::{call, call_beside, call_over, call_with, owned, sink, source};
pub use folders::{has_at, has_file, has_two, put, repository};
pub use load_calls::{load, loads, tells, tells_and_leaves, tells_of};
pub use projects::{
    Project, call_failing, call_in, has_started, project_of, project_with, put_file, shows,
};
pub use samples::{
    FAIL, FAIL_KEPT, FOO, FOO_KEPT, NOTHING, PASSED_AS_0, PASSED_AS_1, SHELF_FAULT, WRONG_USAGE,
    largest_packet, long_log,
};
pub use scenes::{NamedFiles, Played, Scene, play};
