//! Which of the tests before a test makes it fail: what is to be asked, one probe at a time, and what the answers say.
//!
//! This room knows candidates by their numbers, and nothing of how a probe is run, nor of what is printed. The rules stand
//! in docs/FORMATS.md, "Causes".
//!
//! No public call takes memory but `probe_ids`, which answers `NoMemory` for want of it and for nothing else; what it
//! was lent is then as before.
//!
//! - `probe`: what is asked, and with which answer
//! - `found`: what the answers say
//! - `step`: where a search stands
//! - `bisect`: a search
//! - `ids`: the ids of a probe
//! - `laws`: laws of all searches
#![tactic(auto)]

mod bisect;
mod found;
mod ids;
mod laws;
mod probe;
mod step;

pub use bisect::Bisect;
pub use found::Found;
pub use ids::probe_ids;
pub use laws::{answers_make_searches, causes_are_observed, searches_end};
pub use probe::Probe;
