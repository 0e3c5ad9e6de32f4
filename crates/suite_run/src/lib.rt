//! The workers of a run: children that are started, read side by side, and recorded.
//!
//! This room knows jobs, children, the run that is written and which lines go with it; it knows nothing of what a job is for,
//! nor of what a line says.
//! The rules stand in docs/FORMATS.md, "What a lane gives", and docs/DISK.md.
//!
//! For want of memory a public call answers `NoMemory`, which comes for nothing else; what it was lent is then as
//! before, where it does not say otherwise. What it did outside by then stands.
//!
//! - `lane_starter`: a child for each job, as the lane of its place
//! - `lane_recorder`: the lanes, read to their ends and added to the run, and what is kept of the rows of what was added
//! - `run_listener`: who hears what is added, and says it; `lines`: its rows, and the lines that are not said yet
//! - `laws`: what is added where the children tell their output
//! - `half_laws`: the rows of what is recorded of a stream, where events stand in two halves
#![tactic(auto)]

mod half_laws;
mod lane_recorder;
mod lane_starter;
mod laws;
mod lines;
mod run_listener;

pub use half_laws::recorded_rows;
pub use lane_recorder::{LanesRefusal, record_lanes};
pub use lane_starter::{StartRefusal, start_lanes};
pub use laws::{no_test_is_lost, outputs_are_recorded};
pub use lines::{Closed, Hearing};
pub use run_listener::{Echo, RunListener, Said, Shown};
