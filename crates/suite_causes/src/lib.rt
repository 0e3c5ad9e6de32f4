//! The search for the test that makes another one fail: probes as jobs, their children's answers, and what is said of them.
//!
//! This room knows rows, jobs and children; it knows nothing of words, of the order of steps, nor where a line goes. The rules
//! stand in docs/FORMATS.md, "Causes".
//!
//! For want of memory a public call answers `NoMemory`, which comes for nothing else. What it did outside by then stands.
//!
//! - `probe_run`: the child of a probe, read to its end
//! - `cause_search`: probes that are run, one after another
//! - `line`: what is said of a test
//! - `laws`: the outputs of the probes decide the searches and the lines
//! - `suspects`: the tests that failed, and what stands before them
//! - `ran_tests`, `ran_reader`, `lane_ids`: the tests that began to run on a lane of a stored run
#![tactic(auto)]

mod cause_search;
mod lane_ids;
mod laws;
mod line;
mod probe_run;
mod ran_reader;
mod ran_tests;
mod suspects;

pub use cause_search::{SearchFault, can_hand_ids, search_cause};
pub use laws::outputs_decide_causes;
pub use line::{CauseLine, cause_line};
pub use probe_run::{ProbeFault, read_probe};
pub use ran_tests::ran_ids;
pub use suspects::{Suspect, count_before, suspects_of};
