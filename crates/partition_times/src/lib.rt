//! Which ids run, and on which worker.
//!
//! This room knows patterns, groups of ids and shares of work, and nothing of where ids and times come from. The rules
//! stand in docs/FORMATS.md, "Patterns", "Groups" and "Shares". The crate `regex` does all matching.
//!
//! For want of memory a public call answers `NoMemory`, which comes for nothing else; what it was lent is then as
//! before, where it does not say otherwise.
//!
//! - `pattern`: one pattern, compiled
//! - `filters`: patterns, what looks for them, and the ids in which some pattern is found
//! - `groups`: ids that stay together
//! - `rank`: the order in which groups are given away
//! - `shares`: groups of ids, given to workers
//! - `laws`: how far the largest share is from the best
#![tactic(auto)]

mod filters;
mod groups;
mod laws;
mod pattern;
mod rank;
mod shares;

pub use filters::{Filters, Finder, pick};
pub use groups::Groups;
pub use laws::shares_are_near_best;
pub use pattern::PatternFault;
pub use shares::partition;
